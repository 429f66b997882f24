//! Types as slots of four bytes.
ghost use Rattle.std.specs.Prelude.{◌≡◌, ◌-◌, ◌≤◌};
ghost use Rattle.names.specs.Descriptors.{base_of, dimensioned};
ghost use Rattle.frames.specs.Packing.{slot, element_code, class_slot, array_slot, slot_of};
ghost use Rattle.frames.specs.VerificationType.{type_of};

use crate::slot_comparison::ABSENT;
use crate::vtype::VType;
use hierarchy::Classes;
use names::{Base, Primitive};

/// The number of a primitive type as the element of an array (JVMS 6.5).
fn element_code(primitive: Primitive) -> u16
    ensures { result ≡ element_code primitive }
{
    match primitive {
        Primitive::Boolean => 4,
        Primitive::Char => 5,
        Primitive::Float => 6,
        Primitive::Double => 7,
        Primitive::Byte => 8,
        Primitive::Short => 9,
        Primitive::Int => 10,
        Primitive::Long => 11,
    }
}

/// A tag, a number of dimensions and two bytes more in one number.
fn slot(tag: u8, dims: u8, rest: u16) -> u32
    ensures { result ≡ slot tag dims rest }
{
    u32::from(tag) * 0x0100_0000 + u32::from(dims) * 0x1_0000 + u32::from(rest)
}

/// A class, or an array of so many dimensions of one, by its place.
fn class_slot(dims: u8, place: Option<u16>) -> u32
    ensures { result ≡ class_slot dims place }
{
    match place {
        Some(place) => slot(7, dims, place),
        None => ABSENT,
    }
}

/// A type in four bytes: a tag, for an array the number of its dimensions, and the place of a class, the offset of a
/// `new` or the number of a primitive type. All absent classes and arrays of them have the slot [`ABSENT`]; of other
/// types equal slots are equal types. Takes no memory.
pub fn pack<C: Classes>(vtype: &VType<'_>, classes: &C) -> u32
    ensures { result ≡ slot_of (C.content classes.now) (type_of vtype.now) }
{
    match *vtype {
        VType::Top => slot(0, 0, 0),
        VType::Int => slot(1, 0, 0),
        VType::Float => slot(2, 0, 0),
        VType::Double => slot(3, 0, 0),
        VType::Long => slot(4, 0, 0),
        VType::Null => slot(5, 0, 0),
        VType::UninitThis => slot(6, 0, 0),
        VType::Class(name) => class_slot(0, classes.place(name)),
        VType::Uninit(offset) => slot(8, 0, offset),
        VType::Array { dims, base } => array_slot(dims.max(1), base, classes),
    }
}

/// An array of so many dimensions, 1 or more.
fn array_slot<C: Classes>(dims: u8, base: Base<'_>, classes: &C) -> u32
    requires { 1 ≤ dims }
    ensures { result ≡ array_slot (C.content classes.now) 1 (dimensioned (dims - 1) (base_of base.entry)) }
{
    match base {
        Base::Primitive(primitive) => slot(9, dims, element_code(primitive)),
        Base::Class(name) => class_slot(dims, classes.place(name)),
    }
}
