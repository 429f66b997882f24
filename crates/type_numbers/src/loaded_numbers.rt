//! The numbers of the types that constants load by their kinds.
ghost use Rattle.std.specs.Prelude.{◌≡◌, Some, IfOk};
ghost use Rattle.pool.specs.Views.{view};
ghost use Rattle.type_numbers.specs.Constants.{loaded_type};
ghost use Rattle.type_numbers.specs.Numbers.{Numbering, Extends, IsNumberOf, numbered};
ghost use Rattle.type_numbers.specs.private.Readings.{AreLoaded};

use crate::parts::Parts;
use crate::type_numbers::TypeNumbers;
use frames::VType;
use hierarchy::Classes;
use names::{CLASS, METHOD_HANDLE, METHOD_TYPE, STRING};
use pool::Constant;
use std::alloc::AllocError;

/// The numbers of the classes of which constants load objects (JVMS 4.4, 4.10.1.9).
#[derive(Clone, Copy)]
pub struct LoadedNumbers {
    pub string: u32,
    pub class: u32,
    pub method_type: u32,
    pub method_handle: u32,
}

/// The number of a type that its tag tells.
fn tag_number(tag: u8) -> u32
    ensures { numbered tag 0 0 ≡ Some result }
{
    Parts {
        tag,
        dims: 0,
        rest: 0,
    }
    .number()
}

impl LoadedNumbers {
    /// The numbers of these four classes. The only refusal is 1, where memory runs out.
    pub fn new<'a, C: Classes>(
        numbers: &mut TypeNumbers<'_, 'a, C>,
    ) -> Result<LoadedNumbers, AllocError>
        ensures kept { Extends numbers.old numbers.new }
        ensures given { IfOk result (AreLoaded numbers.new) }
    {
        let string = numbers.number(&VType::Class(STRING))?;
        let class = numbers.number(&VType::Class(CLASS))?;
        let method_type = numbers.number(&VType::Class(METHOD_TYPE))?;
        let method_handle = numbers.number(&VType::Class(METHOD_HANDLE))?;
        Ok(LoadedNumbers {
            string,
            class,
            method_type,
            method_handle,
        })
    }

    /// The number of the type that a constant loads by its kind; none where it loads nothing, or is a Dynamic.
    pub fn of(&self, constant: Constant<'_>) -> Option<u32>
        ensures { (s : Numbering) → AreLoaded s self.now → IsNumberOf s result (loaded_type (view constant.entry)) }
    {
        match constant {
            Constant::Integer { .. } => Some(tag_number(1)),
            Constant::Float { .. } => Some(tag_number(2)),
            Constant::Double { .. } => Some(tag_number(3)),
            Constant::Long { .. } => Some(tag_number(4)),
            Constant::String { .. } => Some(self.string),
            Constant::Class { .. } => Some(self.class),
            Constant::MethodType { .. } => Some(self.method_type),
            Constant::MethodHandle { .. } => Some(self.method_handle),
            _ => None,
        }
    }
}
