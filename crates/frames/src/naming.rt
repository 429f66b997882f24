//! The verification types of what descriptors and Class constants name.
ghost use Rattle.std.specs.Prelude.{◌≡◌, ◌≤◌};
ghost use Rattle.names.specs.ReferenceTypes.{descriptor_of, dimensions_of};
ghost use Rattle.names.specs.References.{reference_view};
ghost use Rattle.names.specs.Types as names;
ghost use Rattle.frames.specs.Slots.{descriptor_type, number_type, to_reference};
ghost use Rattle.frames.specs.VerificationType.{array, type_of};

use crate::vtype::VType;
use insn::{Kind, computed_as};
use names::{Base, FieldType, RefType};

/// The type of a number of the kind.
pub fn number_type<'a>(kind: Kind) -> VType<'a>
    ensures { type_of result ≡ number_type kind }
{
    match kind {
        Kind::Int => VType::Int,
        Kind::Long => VType::Long,
        Kind::Float => VType::Float,
        Kind::Double => VType::Double,
    }
}

/// The type of a reference to an object of this type.
pub fn reference_to<'a>(t: RefType<'a>) -> VType<'a>
    ensures { type_of result ≡ to_reference (reference_view t.entry) }
{
    match t {
        RefType::Class(name) => VType::Class(name),
        RefType::Array { dims, base } => VType::Array { dims, base },
    }
}

/// The type of what a field or a parameter of this type holds (JVMS 4.10.1.2): a boolean, byte, char or short is an
/// int.
pub fn held_by<'a>(t: &FieldType<'a>) -> VType<'a>
    ensures { type_of result ≡ descriptor_type (names.type_of t.now) }
{
    match t.dims {
        0 => match t.base {
            Base::Class(name) => VType::Class(name),
            Base::Primitive(primitive) => number_type(computed_as(primitive)),
        },
        dims => VType::Array { dims, base: t.base },
    }
}

/// An array of components of this type, which has at most 254 dimensions itself.
pub fn array_of<'a>(component: RefType<'a>) -> VType<'a>
    requires { dimensions_of (reference_view component) ≤ 254 }
    ensures { type_of result ≡ array (descriptor_of (reference_view component.entry)) }
{
    let dims = component.dimensions() + 1;
    match component {
        RefType::Class(name) => VType::Array {
            dims: 1,
            base: Base::Class(name),
        },
        RefType::Array { base, .. } => VType::Array { dims, base },
    }
}
