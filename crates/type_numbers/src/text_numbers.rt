//! The numbers of the types that texts of a pool name.
ghost use Rattle.std.specs.Prelude.{◌≡◌, ◌+◌, ◌<◌, ℕ, length, Ok, option_map, IfOk, OnOk};
ghost use Rattle.frames.specs.VerificationType.{type_of};
ghost use Rattle.pool.specs.Lookups.{text_at};
ghost use Rattle.type_numbers.specs.Numbers.{Numbering, Extends, IsNumberOf};
ghost use Rattle.type_numbers.specs.private.Readings.{AreReadings, IsReading, reading_in, text_type, type_in};

use crate::type_numbers::TypeNumbers;
use frames::{VType, held_by, reference_to};
use hierarchy::Classes;
use names::{Text, field_type, reference_type};
use pool::Pool;
use std::alloc::{AllocError, Global};

/// Where a text stands that names a type.
#[derive(Clone, Copy, Debug, PartialEq, Eq)]
pub enum Form {
    /// In a Class constant (JVMS 4.4.1).
    ClassName,
    /// It is the descriptor of a field (JVMS 4.3.2).
    FieldDescriptor,
}

/// The reading of a text, if it was read.
#[derive(Clone, Copy, Debug, PartialEq, Eq)]
pub enum Reading {
    Unread,
    /// It names no type.
    Nothing,
    /// It names the type of this number.
    Named(u32),
}

/// The numbers of the types that the texts of a pool name, each of which is read once, however many constants lead to
/// it.
#[derive(Drop)]
pub struct TextNumbers {
    form: Form,
    /// By the indices of the texts.
    readings: Vec<Reading>,
}

/// The type that a text names.
fn type_named(form: Form, text: Text<'_>) -> Option<VType<'_>>
    ensures { option_map type_of result ≡ text_type form text.entry.bytes.now }
{
    match form {
        Form::ClassName => match reference_type(text) {
            Some(t) => Some(reference_to(t)),
            None => None,
        },
        Form::FieldDescriptor => match field_type(text) {
            Ok(t) => Some(held_by(&t)),
            Err(_) => None,
        },
    }
}

impl TextNumbers {
    /// No text was read yet.
    pub fn new(alloc: Global, form: Form, pool: &Pool<'_>) -> Result<TextNumbers, AllocError>
        ensures unread { IfOk result (λ t. (s : Numbering) → AreReadings s pool.now t) }
        ensures form { IfOk result (λ t. t.form ≡ form) }
    {
        let mut readings = Vec::new(alloc);
        readings.resize(pool.constants().len() + 1, Reading::Unread)?;
        Ok(TextNumbers { form, readings })
    }

    /// Reads a text and notes what it names.
    fn read<'a, C: Classes>(
        &mut self,
        _pool: &Pool<'a>,
        index: u16,
        text: Text<'a>,
        numbers: &mut TypeNumbers<'_, 'a, C>,
    ) -> Result<Option<u32>, AllocError>
        requires read { AreReadings numbers.old _pool.now self.old }
        requires text { text_at _pool.now index ≡ Ok text.bytes.now }
        ensures kept { Extends numbers.old numbers.new }
        ensures readings { OnOk result (AreReadings numbers.new _pool.now self.new) }
        ensures form { self.new.form ≡ self.old.form }
        ensures number { IfOk result (λ n. IsNumberOf numbers.new n (type_in self.old.form _pool.now index)) }
    {
        let Some(vtype) = type_named(self.form, text) else {
            self.readings[usize::from(index)] = Reading::Nothing;
            return Ok(None);
        };
        let number = numbers.number(&vtype)?;
        self.readings[usize::from(index)] = Reading::Named(number);
        Ok(Some(number))
    }

    /// The number of the type that the text at an index of a pool names; none where no text is there, or it names no
    /// type. The only refusal is 1, where memory runs out.
    pub fn number<'a, C: Classes>(
        &mut self,
        pool: &Pool<'a>,
        index: u16,
        numbers: &mut TypeNumbers<'_, 'a, C>,
    ) -> Result<Option<u32>, AllocError>
        requires read { AreReadings numbers.old pool.now self.old }
        ensures kept { Extends numbers.old numbers.new }
        ensures readings { OnOk result (AreReadings numbers.new pool.now self.new) }
        ensures form { self.new.form ≡ self.old.form }
        ensures number { IfOk result (λ n. IsNumberOf numbers.new n (type_in self.old.form pool.now index)) }
    {
        let Ok(text) = pool.text(index) else {
            return Ok(None);
        };
        match self.readings[usize::from(index)] {
            Reading::Unread => self.read(pool, index, text, numbers),
            Reading::Nothing => Ok(None),
            Reading::Named(number) => Ok(Some(number)),
        }
    }
}
