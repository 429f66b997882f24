//! The numbers of the types that descriptors of methods name.
ghost use Rattle.std.specs.Prelude.{◌≡◌, ◌+◌, ◌≤◌, ◌∷◌, ℕ, false, List, Ok, Option, length, map, option_map, IfOk, OnOk};
ghost use Rattle.names.specs.Descriptors.{FieldDescriptor, MethodDescriptor, right_parenthesis};
ghost use Rattle.names.specs.Reading.{method_answer};
ghost use Rattle.names.specs.Shapes.{HasShape};
ghost use Rattle.frames.specs.Slots.{descriptor_type};
ghost use Rattle.pool.specs.Lookups.{text_at};
ghost use Rattle.type_numbers.specs.Numbers.{Numbering, Extends, IsNumberOf};
ghost use Rattle.type_numbers.specs.MethodNumbers.{AreDescriptors, AreTypes, AreTypesOf, GoesOn, arguments_in, method_in, row_of};
ghost use Rattle.type_numbers.specs.private.Readings.{ArePushed};
ghost use Rattle.type_numbers.specs.private.SpelledTypes.{AreInFront, IsResult};

use crate::spelled_types::type_in_front;
use crate::type_numbers::TypeNumbers;
use frames::held_by;
use hierarchy::Classes;
use names::{MethodShape, Text, method_shape};
use pool::Pool;
use std::alloc::{AllocError, Global};

/// The numbers of the types that the descriptor of a method names.
#[derive(Clone, Copy, Debug, PartialEq, Eq)]
pub struct MethodNumbers {
    /// Where the types of its parameters begin in the row of all.
    pub start: usize,
    /// How many parameters it has.
    pub count: u8,
    /// How many units they take, without a receiver (JVMS 4.3.3).
    pub width: u8,
    /// The type of its result, if it gives something.
    pub result: Option<u32>,
}

/// The reading of a text as the descriptor of a method, if it was read.
#[derive(Clone, Copy, Debug, PartialEq, Eq)]
pub enum MethodReading {
    Unread,
    /// It is none.
    Nothing,
    /// It names these types.
    Types(MethodNumbers),
}

/// The numbers of the types that the texts of a pool name as descriptors of methods. Each text is read once, however
/// many constants lead to it, and the types of its parameters stand in a row that all share.
#[derive(Drop)]
pub struct DescriptorNumbers {
    /// By the indices of the texts.
    readings: Vec<MethodReading>,
    arguments: Vec<u32>,
}

/// Puts the numbers of the types that stand in front of a `)` after a row, and returns the bytes from that on.
fn push_numbers<'a, C: Classes>(
    row: &mut Vec<u32>,
    bytes: &'a [u8],
    numbers: &mut TypeNumbers<'_, 'a, C>,
) -> Result<&'a [u8], AllocError>
    ensures kept { Extends numbers.old numbers.new }
    ensures pushed { IfOk result (λ end. (types : List FieldDescriptor) (rest : List ℕ)
        → AreInFront bytes.now types rest → (end.now ≡ right_parenthesis ∷ rest)
        × ArePushed numbers.new row.old.items row.new.items (map descriptor_type types)) }
{
    let mut rest = bytes;
    'types: loop {
        match type_in_front(rest) {
            None => return Ok(rest),
            Some((parameter, behind)) => {
                let number = numbers.number(&held_by(&parameter))?;
                row.push(number)?;
                rest = behind;
            }
        }
    }
}

/// The number of the type of a result, if the bytes after the `)` name one.
fn result_number<'a, C: Classes>(
    has_result: bool,
    bytes: &'a [u8],
    numbers: &mut TypeNumbers<'_, 'a, C>,
) -> Result<Option<u32>, AllocError>
    ensures kept { Extends numbers.old numbers.new }
    ensures number { IfOk result (λ n. (t : Option FieldDescriptor) → IsResult has_result bytes.now t
        → IsNumberOf numbers.new n (option_map descriptor_type t)) }
{
    if !has_result {
        return Ok(None);
    }
    match type_in_front(bytes) {
        None => Ok(None),
        Some((t, _)) => Ok(Some(numbers.number(&held_by(&t))?)),
    }
}

impl DescriptorNumbers {
    /// No text was read yet.
    pub fn new(alloc: Global, pool: &Pool<'_>) -> Result<DescriptorNumbers, AllocError>
        ensures { IfOk result (λ d. (s : Numbering) → AreDescriptors s pool.now d) }
    {
        let mut readings = Vec::new(alloc);
        readings.resize(pool.constants().len() + 1, MethodReading::Unread)?;
        let arguments = Vec::with_capacity(alloc, pool.constants().len() / 4)?;
        Ok(DescriptorNumbers {
            readings,
            arguments,
        })
    }

    /// The numbers of the types of a method by its descriptor, its arguments after those of all others.
    fn add<'a, C: Classes>(
        &mut self,
        bytes: &'a [u8],
        shape: MethodShape,
        numbers: &mut TypeNumbers<'_, 'a, C>,
    ) -> Result<MethodNumbers, AllocError>
        requires { HasShape false bytes.now shape }
        ensures kept { Extends numbers.old numbers.new }
        ensures readings { self.new.readings ≡ self.old.readings }
        ensures grown { OnOk result (GoesOn (row_of self.old) (row_of self.new)) }
        ensures types { IfOk result (λ x. (m : MethodDescriptor) → method_answer false bytes.now ≡ Ok m
            → AreTypes numbers.new (row_of self.new) x m) }
    {
        let start = self.arguments.len();
        let (_, inside) = bytes.split_at(1);
        let end = push_numbers(&mut self.arguments, inside, numbers)?;
        let (_, behind) = end.split_at(1);
        let result = result_number(shape.has_result, behind, numbers)?;
        Ok(MethodNumbers {
            start,
            count: (self.arguments.len() - start) as u8,
            width: shape.units as u8,
            result,
        })
    }

    /// Reads a text and notes what it names.
    #[inline(never)]
    fn read<'a, C: Classes>(
        &mut self,
        _pool: &Pool<'a>,
        index: u16,
        text: Text<'a>,
        numbers: &mut TypeNumbers<'_, 'a, C>,
    ) -> Result<Option<MethodNumbers>, AllocError>
        requires read { AreDescriptors numbers.old _pool.now self.old }
        requires text { text_at _pool.now index ≡ Ok text.bytes.now }
        ensures kept { Extends numbers.old numbers.new }
        ensures readings { OnOk result (AreDescriptors numbers.new _pool.now self.new) }
        ensures grown { OnOk result (GoesOn (row_of self.old) (row_of self.new)) }
        ensures types { IfOk result (λ x. AreTypesOf numbers.new (row_of self.new) x (method_in _pool.now index)) }
    {
        let Ok(shape) = method_shape(text, false) else {
            self.readings[usize::from(index)] = MethodReading::Nothing;
            return Ok(None);
        };
        let types = self.add(text.bytes(), shape, numbers)?;
        self.readings[usize::from(index)] = MethodReading::Types(types);
        Ok(Some(types))
    }

    /// The numbers of the types that the text at an index of a pool names as the descriptor of a method; none where no
    /// text is there, or it is no such descriptor. The only refusal is 1, where memory runs out.
    pub fn types<'a, C: Classes>(
        &mut self,
        pool: &Pool<'a>,
        index: u16,
        numbers: &mut TypeNumbers<'_, 'a, C>,
    ) -> Result<Option<MethodNumbers>, AllocError>
        requires read { AreDescriptors numbers.old pool.now self.old }
        ensures kept { Extends numbers.old numbers.new }
        ensures readings { OnOk result (AreDescriptors numbers.new pool.now self.new) }
        ensures grown { OnOk result (GoesOn (row_of self.old) (row_of self.new)) }
        ensures types { IfOk result (λ x. AreTypesOf numbers.new (row_of self.new) x (method_in pool.now index)) }
    {
        let Ok(text) = pool.text(index) else {
            return Ok(None);
        };
        match self.readings[usize::from(index)] {
            MethodReading::Unread => self.read(pool, index, text, numbers),
            MethodReading::Nothing => Ok(None),
            MethodReading::Types(types) => Ok(Some(types)),
        }
    }

    /// The numbers of the types of the parameters.
    pub fn arguments(&self, types: MethodNumbers) -> &[u32]
        requires { types.start + types.count ≤ length (row_of self.now) }
        ensures { result.now ≡ arguments_in (row_of self.now) types }
    {
        &self.arguments[types.start..types.start + usize::from(types.count)]
    }
}
