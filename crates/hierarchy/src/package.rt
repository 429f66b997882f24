//! Packages of classes (JVMS 4.2.1).
ghost use Rattle.std.specs.Prelude.{◌≡◌};
ghost use Rattle.hierarchy.specs.Nearest.{package_of};

/// The package of the class of this name: its name up to the last `/`, and nothing where it has none.
pub fn package_of(name: &[u8]) -> &[u8]
    ensures { result.now ≡ package_of name.now }
{
    let mut end = 0;
    for (i, byte) in name.iter().enumerate() {
        if *byte == b'/' {
            end = i;
        }
    }
    &name[..end]
}
