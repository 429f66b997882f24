//! Objects of JSON (RFC 8259), each on a line of its own, written field by field.
ghost use Rattle.std.specs.Prelude.{◌≡◌, ◌++◌, codes, map};
ghost use Rattle.std.specs.List.{flat_map};
ghost use Rattle.printing.specs.Writing.{Writes};
ghost use Rattle.printing.specs.Json.{is_unescaped, character_text, string_text, enclosed, following, array_text};

use crate::name::{is_plain, put_escape};
use crate::print::{Lines, Print, Then, Word, WriteFailed, put_bytes, put_lines};
use crate::runs::{Escapes, put_units, run_in_front};
use names::{Text, check_text, first_set};
use std::io::Write;
use std::simd::prelude::*;

/// Whether a unit of a string stands as it is.
fn is_unescaped(unit: u16) -> bool
    ensures { result ≡ is_unescaped unit }
{
    is_plain(unit) && unit != 34
}

/// Writes a unit of a string: printable ASCII as it is, and any other unit, the quotation mark and the backslash as
/// `\u` and four small hexadecimal digits.
fn put_character<W: Write>(out: &mut W, unit: u16) -> Result<(), WriteFailed>
    ensures { Writes (W.contents out.old) (W.contents out.new) (character_text unit) result }
{
    if is_unescaped(unit) {
        put_bytes(out, &[unit as u8])
    } else {
        put_escape(out, unit)
    }
}

/// The escapes of a string.
struct StringEscapes;

impl Escapes for StringEscapes {
    ghost text = { character_text };

    fn stands(byte: u8) -> bool {
        is_unescaped(u16::from(byte))
    }

    fn in_sixteen(bytes: &[u8], at: usize) -> usize {
        let v = u8x16::from_slice(&bytes[at..]);
        let outside = (v - u8x16::splat(32)).simd_ge(u8x16::splat(127 - 32));
        let marks = v.simd_eq(u8x16::splat(92)) | v.simd_eq(u8x16::splat(34));
        let stops = outside | marks;
        first_set(stops.to_bitmask(), 16)
    }

    fn put_unit<W: Write>(out: &mut W, unit: u16) -> Result<(), WriteFailed> {
        put_character(out, unit)
    }
}

/// Bytes of ASCII, each a unit of a string.
#[derive(Clone, Copy)]
struct Ascii;

impl Lines<u8> for Ascii {
    ghost line = { λ t byte. character_text byte };

    fn put_line<W: Write>(&self, item: &u8, out: &mut W) -> Result<(), WriteFailed> {
        put_character(out, u16::from(*item))
    }
}

/// The characters of a word of ASCII in a string.
#[derive(Clone, Copy)]
struct WordCharacters<'a>(&'a str);

impl<'a> Print for WordCharacters<'a> {
    ghost use Rattle.std.specs.List.{flat_map};

    ghost text = { λ t. flat_map character_text t.0.now };

    fn put<W: Write>(&self, out: &mut W) -> Result<(), WriteFailed> {
        let bytes = self.0.as_bytes();
        if run_in_front::<StringEscapes>(bytes) == bytes.len() {
            return put_bytes(out, bytes);
        }
        put_lines(&Ascii, bytes, out)
    }
}

/// The units of a name, each a unit of a string.
#[derive(Clone, Copy)]
pub struct NameCharacters<'a>(pub Text<'a>);

impl<'a> Print for NameCharacters<'a> {
    ghost use Rattle.std.specs.List.{flat_map};
    ghost use Rattle.names.specs.Units.{units_of};

    ghost text = { λ t. flat_map character_text (units_of t.0.bytes.now) };

    fn put<W: Write>(&self, out: &mut W) -> Result<(), WriteFailed> {
        put_units::<StringEscapes, W>(self.0.bytes(), out)
    }
}

/// Bytes that spell a text, each unit of it a unit of a string. Of other bytes nothing is written.
#[derive(Clone, Copy)]
pub struct SpelledCharacters<'a>(pub &'a [u8]);

impl<'a> Print for SpelledCharacters<'a> {
    ghost use Rattle.std.specs.List.{flat_map};
    ghost use Rattle.printing.specs.Json.{spelled_units};

    ghost text = { λ t. flat_map character_text (spelled_units t.0.now) };

    fn put<W: Write>(&self, out: &mut W) -> Result<(), WriteFailed> {
        match check_text(self.0) {
            Ok(text) => NameCharacters(text).put(out),
            Err(_) => Word("").put(out),
        }
    }
}

/// A word of ASCII as a string (RFC 8259, 7).
#[derive(Clone, Copy)]
pub struct Quoted<'a>(pub &'a str);

impl<'a> Print for Quoted<'a> {
    ghost text = { λ t. string_text t.0.now };

    fn put<W: Write>(&self, out: &mut W) -> Result<(), WriteFailed> {
        Then(Word("\""), Then(WordCharacters(self.0), Word("\""))).put(out)
    }
}

/// A name (JVMS 4.4.7) as a string (RFC 8259, 7), unit by unit of UTF-16: printable ASCII as it is, and any other unit,
/// the quotation mark and the backslash as `\u` and four small hexadecimal digits.
#[derive(Clone, Copy)]
pub struct QuotedName<'a>(pub Text<'a>);

impl<'a> Print for QuotedName<'a> {
    ghost use Rattle.names.specs.Units.{units_of};

    ghost text = { λ t. string_text (units_of t.0.bytes.now) };

    fn put<W: Write>(&self, out: &mut W) -> Result<(), WriteFailed> {
        Then(Word("\""), Then(NameCharacters(self.0), Word("\""))).put(out)
    }
}

/// Bytes that spell a text, as a [`QuotedName`]. Of other bytes it is the empty string.
#[derive(Clone, Copy)]
pub struct QuotedSpelled<'a>(pub &'a [u8]);

impl<'a> Print for QuotedSpelled<'a> {
    ghost use Rattle.printing.specs.Json.{spelled_units};

    ghost text = { λ t. string_text (spelled_units t.0.now) };

    fn put<W: Write>(&self, out: &mut W) -> Result<(), WriteFailed> {
        match check_text(self.0) {
            Ok(text) => QuotedName(text).put(out),
            Err(_) => Quoted("").put(out),
        }
    }
}

/// A text whose characters are written as those of a string, within quotation marks.
#[derive(Clone, Copy)]
pub struct Enclosed<C>(pub C);

impl<C: Print + Copy> Print for Enclosed<C> {
    ghost text = { λ t. enclosed (C.text t.0) };

    fn put<W: Write>(&self, out: &mut W) -> Result<(), WriteFailed> {
        Then(Word("\""), Then(self.0, Word("\""))).put(out)
    }
}

/// The line of an item.
#[derive(Clone, Copy)]
struct Line<'t, L, T>(L, &'t T);

impl<'t, T: Copy, L: Lines<T>> Print for Line<'t, L, T> {
    ghost text = { λ t. L.line t.0 t.1.now };

    fn put<W: Write>(&self, out: &mut W) -> Result<(), WriteFailed> {
        self.0.put_line(self.1, out)
    }
}

/// Strings after the first one of an array, each after a comma.
#[derive(Clone, Copy)]
struct Following<L>(L);

impl<T: Copy, L: Lines<T> + Copy> Lines<T> for Following<L> {
    ghost line = { λ t x. following (L.line t.0 x) };

    fn put_line<W: Write>(&self, item: &T, out: &mut W) -> Result<(), WriteFailed> {
        Then(Word(","), Enclosed(Line(self.0, item))).put(out)
    }
}

/// The strings of these items, each after a comma.
#[derive(Clone, Copy)]
struct Others<'t, L, T>(L, &'t [T]);

impl<'t, T: Copy, L: Lines<T> + Copy> Print for Others<'t, L, T> {
    ghost text = { λ t. flat_map (λ x. following (L.line t.0 x)) t.1.now };

    fn put<W: Write>(&self, out: &mut W) -> Result<(), WriteFailed> {
        put_lines(&Following(self.0), self.1, out)
    }
}

/// An array of strings (RFC 8259, 5), one of each item, whose line is the characters of its string as they are written.
#[derive(Clone, Copy)]
pub struct Strings<'t, L, T>(pub L, pub &'t [T]);

impl<'t, T: Copy, L: Lines<T> + Copy> Print for Strings<'t, L, T> {
    ghost text = { λ t. array_text (map (L.line t.0) t.1.now) };

    fn put<W: Write>(&self, out: &mut W) -> Result<(), WriteFailed> {
        match self.1.split_first() {
            None => Word("[]").put(out),
            Some((first, others)) => {
                let others = Then(Others(self.0, others), Word("]"));
                let first = Enclosed(Line(self.0, first));
                Then(Word("["), Then(first, others)).put(out)
            }
        }
    }
}

/// A field of an object (RFC 8259, 4): its name, a word of ASCII, and its value.
#[derive(Clone, Copy)]
struct Field<'a, V>(&'a str, V);

impl<'a, V: Print + Copy> Print for Field<'a, V> {
    ghost text = { λ t. string_text t.0.now ++ (codes ":" ++ V.text t.1) };

    fn put<W: Write>(&self, out: &mut W) -> Result<(), WriteFailed> {
        Then(Quoted(self.0), Then(Word(":"), self.1)).put(out)
    }
}

/// An object on a line: the name and the value of its first field, and then its fields after this one, up to the
/// line's end.
#[derive(Clone, Copy)]
pub struct Object<'a, V, B>(pub &'a str, pub V, pub B);

impl<'a, V: Print + Copy, B: Print + Copy> Print for Object<'a, V, B> {
    ghost text = { λ t. codes "{" ++ ((string_text t.0.now ++ (codes ":" ++ V.text t.1)) ++ B.text t.2) };

    fn put<W: Write>(&self, out: &mut W) -> Result<(), WriteFailed> {
        Then(Word("{"), Then(Field(self.0, self.1), self.2)).put(out)
    }
}

/// A field after another, by its name and its value, and then what stands after it, up to the line's end.
#[derive(Clone, Copy)]
pub struct More<'a, V, B>(pub &'a str, pub V, pub B);

impl<'a, V: Print + Copy, B: Print + Copy> Print for More<'a, V, B> {
    ghost text = { λ t. codes "," ++ ((string_text t.0.now ++ (codes ":" ++ V.text t.1)) ++ B.text t.2) };

    fn put<W: Write>(&self, out: &mut W) -> Result<(), WriteFailed> {
        Then(Word(","), Then(Field(self.0, self.1), self.2)).put(out)
    }
}

/// The end of an object and of its line.
pub const END: Word<'static> = Word("}\n");
