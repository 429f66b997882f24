//! The parts of a number: a tag, a number of dimensions, and two bytes that tell types of one tag apart.
ghost use Rattle.std.specs.Prelude.{◌≡◌, ◌+◌, ◌*◌, ◌/◌, ◌%◌, nat_lt, Some};
ghost use Rattle.type_numbers.specs.Numbers.{absent_number, numbered};
ghost use Rattle.type_numbers.specs.Decoding.{element_at};
ghost use Rattle.type_numbers.specs.private.ClassesAt.{names_class};

use crate::tags;
use names::Primitive;

/// How many absent classes have numbers: those of 245 tags, from 10 to 254. No number is that of
/// [`ABSENT`](frames::ABSENT).
const ABSENT_LIMIT: usize = 245 * 0x1_0000;

/// The parts of a number.
#[derive(Clone, Copy)]
pub struct Parts {
    pub tag: u8,
    pub dims: u8,
    pub rest: u16,
}

impl Parts {
    /// The parts of a number.
    pub fn of(number: u32) -> Parts
        ensures tag { result.tag ≡ number / 16777216 }
        ensures dims { result.dims ≡ number / 65536 % 256 }
        ensures rest { result.rest ≡ number % 65536 }
    {
        Parts {
            tag: (number / 0x0100_0000) as u8,
            dims: (number / 0x1_0000 % 0x100) as u8,
            rest: (number % 0x1_0000) as u16,
        }
    }

    /// The number that has these parts.
    pub fn number(self) -> u32
        ensures { numbered self.tag self.dims self.rest ≡ Some result }
    {
        u32::from(self.tag) * 0x0100_0000 + u32::from(self.dims) * 0x1_0000 + u32::from(self.rest)
    }
}

/// The number of a class by its place in the hierarchy, or of an array of so many dimensions of one.
pub fn present_number(dims: u8, place: u16) -> u32
    ensures { numbered 7 dims place ≡ Some result }
{
    Parts {
        tag: tags::CLASS,
        dims,
        rest: place,
    }
    .number()
}

/// Whether a number with these parts is that of a class, or of an array of one.
pub fn names_class(parts: Parts) -> bool
    ensures { result ≡ names_class parts.tag }
{
    parts.tag == tags::CLASS || parts.tag >= tags::ABSENT
}

/// The number of an object that the `new` at this offset makes.
pub fn uninit_number(offset: u16) -> u32
    ensures { numbered 8 0 offset ≡ Some result }
{
    Parts {
        tag: tags::UNINIT,
        dims: 0,
        rest: offset,
    }
    .number()
}

/// The number of an absent class by its place among the absent ones, or of an array of so many dimensions of one.
pub fn absent_number(dims: u8, place: usize) -> Option<u32>
    ensures { result ≡ absent_number dims place }
{
    if place >= ABSENT_LIMIT {
        return None;
    }
    let parts = Parts {
        tag: (usize::from(tags::ABSENT) + place / 0x1_0000) as u8,
        dims,
        rest: (place % 0x1_0000) as u16,
    };
    Some(parts.number())
}

/// The primitive type of a number as the element of an array (JVMS 6.5).
pub fn element_at(code: u16) -> Primitive
    ensures { result ≡ element_at code }
{
    match code {
        4 => Primitive::Boolean,
        5 => Primitive::Char,
        6 => Primitive::Float,
        7 => Primitive::Double,
        8 => Primitive::Byte,
        9 => Primitive::Short,
        10 => Primitive::Int,
        _ => Primitive::Long,
    }
}

/// Whether the number of a reference type is that of an array.
pub fn is_array(number: u32) -> bool
    ensures { result ≡ nat_lt 0 (number / 65536 % 256) }
{
    Parts::of(number).dims > 0
}
