//! The constants of a constant pool.
ghost use Rattle.std.specs.Prelude.{◌≡◌};
ghost use Rattle.pool.specs.Entries.{is_wide};
ghost use Rattle.pool.specs.Views.{view};

use crate::kind::ReferenceKind;
use names::Text;

/// The constant at an index of the constant pool (JVMS 4.4). Each `u16` but `bootstrap` is an index
/// into the pool.
#[derive(Clone, Copy)]
pub enum Constant<'a> {
    /// Tag 1: a text (JVMS 4.4.7).
    Utf8(Text<'a>),
    /// Tag 3: an `int` (JVMS 4.4.4).
    Integer { bits: u32 },
    /// Tag 4: a `float` (JVMS 4.4.4).
    Float { bits: u32 },
    /// Tag 5: a `long`, which takes two indices (JVMS 4.4.5).
    Long { high: u32, low: u32 },
    /// Tag 6: a `double`, which takes two indices (JVMS 4.4.5).
    Double { high: u32, low: u32 },
    /// Tag 7: a class, interface or array type by its name (JVMS 4.4.1).
    Class { name: u16 },
    /// Tag 8: a string by its text (JVMS 4.4.3).
    String { text: u16 },
    /// Tag 9: a field (JVMS 4.4.2).
    Fieldref { class: u16, name_and_type: u16 },
    /// Tag 10: a method of a class (JVMS 4.4.2).
    Methodref { class: u16, name_and_type: u16 },
    /// Tag 11: a method of an interface (JVMS 4.4.2).
    InterfaceMethodref { class: u16, name_and_type: u16 },
    /// Tag 12: a name and a descriptor (JVMS 4.4.6).
    NameAndType { name: u16, descriptor: u16 },
    /// Tag 15: a method handle (JVMS 4.4.8).
    MethodHandle { kind: ReferenceKind, reference: u16 },
    /// Tag 16: a method type (JVMS 4.4.9).
    MethodType { descriptor: u16 },
    /// Tag 17: a constant that is computed; `bootstrap` counts bootstrap methods (JVMS 4.4.10).
    Dynamic { bootstrap: u16, name_and_type: u16 },
    /// Tag 18: a call that is bound when it is first made; `bootstrap` counts bootstrap methods
    /// (JVMS 4.4.10).
    InvokeDynamic { bootstrap: u16, name_and_type: u16 },
    /// The second index of a `Long` or `Double`, at which nothing may be looked up (JVMS 4.4.5).
    Unusable,
}

impl Constant<'_> {
    /// Whether this constant takes two indices, the second of which is unusable (JVMS 4.4.5).
    pub fn is_wide(&self) -> bool
        ensures { result ≡ is_wide (view self.now) }
    {
        matches!(self, Constant::Long { .. } | Constant::Double { .. })
    }
}
