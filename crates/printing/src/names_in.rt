//! Names in a line of words, or in a string of JSON.
ghost use Rattle.printing.specs.NamesIn.{name_in, spelled_in, text_in, class_in};

use crate::json::{NameCharacters, SpelledCharacters};
use crate::name::{ClassName, ConstantText, Name, Spelled};
use crate::print::{Print, Word, WriteFailed};
use names::Text;
use std::io::Write;

/// The place of a name, which decides how its units are escaped.
#[derive(Clone, Copy, Debug, PartialEq, Eq)]
pub enum Within {
    /// A line of words for people.
    Words,
    /// A string of JSON (RFC 8259, 7).
    Json,
}

/// A name (JVMS 4.4.7) as it is written there.
#[derive(Clone, Copy)]
pub struct NameIn<'a>(pub Within, pub Text<'a>);

impl<'a> Print for NameIn<'a> {
    ghost text = { λ t. name_in t.0 t.1.bytes.now };

    fn put<W: Write>(&self, out: &mut W) -> Result<(), WriteFailed> {
        match self.0 {
            Within::Words => Name(self.1).put(out),
            Within::Json => NameCharacters(self.1).put(out),
        }
    }
}

/// Bytes that spell a text, as it is written there. Of other bytes nothing is written.
#[derive(Clone, Copy)]
pub struct SpelledIn<'a>(pub Within, pub &'a [u8]);

impl<'a> Print for SpelledIn<'a> {
    ghost text = { λ t. spelled_in t.0 t.1.now };

    fn put<W: Write>(&self, out: &mut W) -> Result<(), WriteFailed> {
        match self.0 {
            Within::Words => Spelled(self.1).put(out),
            Within::Json => SpelledCharacters(self.1).put(out),
        }
    }
}

/// The text at an index of the constant pool (JVMS 4.4.7), as it is written there.
#[derive(Clone, Copy)]
pub struct TextIn<'p, 'a>(pub Within, pub ConstantText<'p, 'a>);

impl<'p, 'a> Print for TextIn<'p, 'a> {
    ghost text = { λ t. text_in t.0 t.1.pool.now t.1.index };

    fn put<W: Write>(&self, out: &mut W) -> Result<(), WriteFailed> {
        match self.1.pool.text(self.1.index) {
            Ok(text) => NameIn(self.0, text).put(out),
            Err(_) => Word("").put(out),
        }
    }
}

/// The name of the class at an index of the constant pool (JVMS 4.4.1), as it is written there.
#[derive(Clone, Copy)]
pub struct ClassNameIn<'p, 'a>(pub Within, pub ClassName<'p, 'a>);

impl<'p, 'a> Print for ClassNameIn<'p, 'a> {
    ghost text = { λ t. class_in t.0 t.1.pool.now t.1.index };

    fn put<W: Write>(&self, out: &mut W) -> Result<(), WriteFailed> {
        match self.1.pool.class_name(self.1.index) {
            Ok(text) => NameIn(self.0, text).put(out),
            Err(_) => Word("").put(out),
        }
    }
}
