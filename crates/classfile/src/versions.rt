//! Which versions a class file may have.
ghost use Rattle.std.specs.Prelude.{◌≡◌};
ghost use Rattle.classfile.specs.Versions.{is_between, is_version, is_release};

/// Which versions a class file may have (JVMS 4.1, table 4.1-A).
#[derive(Clone, Copy, Debug, PartialEq, Eq)]
pub enum Versions {
    /// The versions of Java SE 7 to 17: 51 to 55 with any minor version, and 56 to 61 with 0.
    Java7To17,
    /// The versions that Java SE of this number reads, from this major one on: up to the number and 44, to 55 with any
    /// minor version, and from 56 on with 0.
    Release { least: u16, number: u8 },
}

impl Versions {
    /// Whether all rules of form are judged that a release has.
    pub fn is_release(self) -> bool
        ensures { result ≡ is_release self }
    {
        match self {
            Versions::Java7To17 => false,
            Versions::Release { .. } => true,
        }
    }

    /// Whether a class file of this version may be read.
    pub fn take(self, minor: u16, major: u16) -> bool
        ensures { result ≡ is_version self minor major }
    {
        match self {
            Versions::Java7To17 => is_between(51, 61, minor, major),
            Versions::Release { least, number } => {
                is_between(least, u16::from(number) + 44, minor, major)
            }
        }
    }
}

/// Whether a version is between these major ones, with the minor version 0 from 56 on.
fn is_between(least: u16, greatest: u16, minor: u16, major: u16) -> bool
    ensures { result ≡ is_between least greatest minor major }
{
    major >= least && major <= greatest && (major <= 55 || minor == 0)
}
