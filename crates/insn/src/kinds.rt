//! The kinds of numbers that instructions compute with.
ghost use Rattle.std.specs.Prelude.{◌≡◌};
ghost use Rattle.insn.specs.Kinds.{is_wide, kind_units, computed_as};

use names::Primitive;

/// The kinds of numbers that instructions compute with (JVMS 2.11.1).
#[derive(Clone, Copy, Debug, PartialEq, Eq)]
pub enum Kind {
    Int,
    Long,
    Float,
    Double,
}

impl Kind {
    /// Whether a number of the kind takes two places: two locals, two units of the stack's depth
    /// (JVMS 2.6.1, 2.6.2).
    pub fn is_wide(self) -> bool
        ensures { result ≡ is_wide self }
    {
        matches!(self, Kind::Long | Kind::Double)
    }

    /// How many local variables, and units of the stack's depth, a number of the kind takes: 2 where
    /// it is wide, otherwise 1 (JVMS 2.6.1, 2.6.2).
    pub fn units(self) -> usize
        ensures { result ≡ kind_units self }
    {
        if self.is_wide() { 2 } else { 1 }
    }
}

/// The computational kind of a primitive type (JVMS Table 2.11.1-B).
pub fn computed_as(primitive: Primitive) -> Kind
    ensures { result ≡ computed_as primitive }
{
    match primitive {
        Primitive::Float => Kind::Float,
        Primitive::Long => Kind::Long,
        Primitive::Double => Kind::Double,
        Primitive::Byte
        | Primitive::Char
        | Primitive::Int
        | Primitive::Short
        | Primitive::Boolean => Kind::Int,
    }
}
