//! The lines of a frame (JVMS 4.10.1.4).
ghost use Rattle.std.specs.Prelude.{◌≡◌, ◌≤◌, [], ◌++◌, map, take, codes, length};
ghost use Rattle.std.specs.Prelude.{replicate};
ghost use Rattle.std.specs.List.{flat_map};
ghost use Rattle.names.specs.Descriptors.{base_of};
ghost use Rattle.names.specs.Names.{bracket};
ghost use Rattle.frames.specs.VerificationType.{type_of};
ghost use Rattle.frames.specs.FrameFact.{frame_of};
ghost use Rattle.printing.specs.Frames.{descriptor_text, type_text, more_text, types_text, in_use, if_top, types_line, flags_line, frame_lines, flag_fields, frame_fields};
ghost use Rattle.printing.specs.Json.{fields_then};
ghost use Rattle.printing.specs.declared.names_in.Within.TheVariants as within;

use crate::json::{More as MoreFields, Strings};
use crate::names_in::{SpelledIn, Within};
use crate::print::{Lines, Number, Print, Then, Word, WriteFailed, put_bytes, put_lines};
use frames::{Frame, VType};
use names::{Base, Primitive};
use std::io::Write;

/// So many left brackets, one for each dimension of an array.
#[derive(Clone, Copy)]
struct Brackets(u8);

impl Print for Brackets {
    ghost text = { λ t. replicate t.0 bracket };

    fn put<W: Write>(&self, out: &mut W) -> Result<(), WriteFailed> {
        for _ in 0..self.0 {
            match put_bytes(out, &[b'[']) {
                Ok(()) => {}
                Err(failed) => return Err(failed),
            }
        }
        Ok(())
    }
}

/// The descriptor of the type that the elements of an array have, below all dimensions.
#[derive(Clone, Copy)]
struct Elements<'a>(Within, Base<'a>);

impl<'a> Print for Elements<'a> {
    ghost text = { λ t. descriptor_text t.0 (base_of t.1) };

    fn put<W: Write>(&self, out: &mut W) -> Result<(), WriteFailed> {
        match self.1 {
            Base::Primitive(Primitive::Byte) => Word("B").put(out),
            Base::Primitive(Primitive::Char) => Word("C").put(out),
            Base::Primitive(Primitive::Double) => Word("D").put(out),
            Base::Primitive(Primitive::Float) => Word("F").put(out),
            Base::Primitive(Primitive::Int) => Word("I").put(out),
            Base::Primitive(Primitive::Long) => Word("J").put(out),
            Base::Primitive(Primitive::Short) => Word("S").put(out),
            Base::Primitive(Primitive::Boolean) => Word("Z").put(out),
            Base::Class(name) => {
                let name = SpelledIn(self.0, name);
                Then(Word("L"), Then(name, Word(";"))).put(out)
            },
        }
    }
}

/// A verification type by the name that the standard gives it (JVMS 4.10.1.2): a class by its name, an array by its
/// descriptor, where names are written so.
#[derive(Clone, Copy)]
pub struct TypeText<'a>(pub Within, pub VType<'a>);

impl<'a> Print for TypeText<'a> {
    ghost text = { λ t. type_text t.0 (type_of t.1) };

    fn put<W: Write>(&self, out: &mut W) -> Result<(), WriteFailed> {
        match self.1 {
            VType::Top => Word("top").put(out),
            VType::Int => Word("int").put(out),
            VType::Float => Word("float").put(out),
            VType::Long => Word("long").put(out),
            VType::Double => Word("double").put(out),
            VType::Null => Word("null").put(out),
            VType::Class(name) => Then(Word("Class "), SpelledIn(self.0, name)).put(out),
            VType::Array { dims, base } => {
                let below = Then(Brackets(dims.saturating_sub(1)), Elements(self.0, base));
                Then(Word("Class ["), below).put(out)
            }
            VType::UninitThis => Word("uninitializedThis").put(out),
            VType::Uninit(at) => {
                Then(Word("uninitialized("), Then(Number(at), Word(")"))).put(out)
            }
        }
    }
}

/// Types after the first one, each after a comma.
#[derive(Clone, Copy)]
struct More;

impl<'a> Lines<VType<'a>> for More {
    ghost line = { λ t x. more_text (type_of x) };

    fn put_line<W: Write>(&self, item: &VType<'a>, out: &mut W) -> Result<(), WriteFailed> {
        Then(Word(", "), TypeText(Within::Words, *item)).put(out)
    }
}

/// Types after a blank, with commas between them.
#[derive(Clone, Copy)]
struct Types<'t, 'a>(&'t [VType<'a>]);

impl<'t, 'a> Print for Types<'t, 'a> {
    ghost text = { λ t. types_text (map type_of t.0.now) };

    fn put<W: Write>(&self, out: &mut W) -> Result<(), WriteFailed> {
        match self.0.split_first() {
            None => Word("").put(out),
            Some((first, others)) => match Then(Word(" "), TypeText(Within::Words, *first)).put(
                out,
            ) {
                Ok(()) => put_lines(&More, others, out),
                Err(failed) => Err(failed),
            },
        }
    }
}

/// A line of types.
#[derive(Clone, Copy)]
struct TypesLine<'t, 'a> {
    label: &'static str,
    word: &'static str,
    types: &'t [VType<'a>],
}

impl<'t, 'a> Print for TypesLine<'t, 'a> {
    ghost text = { λ t. types_line t.label.now t.word.now (map type_of t.types.now) };

    fn put<W: Write>(&self, out: &mut W) -> Result<(), WriteFailed> {
        let types = Then(Types(self.types), Word("\n"));
        Then(
            Word("  "),
            Then(Word(self.label), Then(Word(self.word), types)),
        )
        .put(out)
    }
}

/// The line of the flag, where it stands.
#[derive(Clone, Copy)]
struct FlagsLine {
    label: &'static str,
    flag: bool,
}

impl Print for FlagsLine {
    ghost text = { λ t. flags_line t.label.now t.flag };

    fn put<W: Write>(&self, out: &mut W) -> Result<(), WriteFailed> {
        if self.flag {
            let flag = Then(Word(self.label), Word("flags flagThisUninit\n"));
            Then(Word("  "), flag).put(out)
        } else {
            Word("").put(out)
        }
    }
}

/// The first number where a type is top, and otherwise the second.
fn if_top(t: &VType<'_>, first: usize, second: usize) -> usize
    ensures { result ≡ if_top (type_of t.now) first second }
{
    match t {
        VType::Top => first,
        _ => second,
    }
}

/// How many locals are in use: up to the last that is not top.
fn count_in_use(locals: &[VType<'_>]) -> usize
    ensures within { result ≤ length locals.now }
    ensures used { in_use (map type_of locals.now) ≡ map type_of (take result locals.now) }
{
    let mut count = 0;
    for i in 0..locals.len() {
        count = if_top(&locals[i], count, i + 1);
    }
    count
}

/// The lines of a frame under a label: its locals up to the last that is not top, its stack from the
/// bottom up, and flagThisUninit where it has the flag.
#[derive(Clone, Copy)]
pub struct FrameLines<'f, 'a> {
    /// It stands in front of each line's word.
    pub label: &'static str,
    pub frame: &'f Frame<'a>,
}

impl<'f, 'a> Print for FrameLines<'f, 'a> {
    ghost text = { λ t. frame_lines t.label.now (frame_of t.frame.now) };

    fn put<W: Write>(&self, out: &mut W) -> Result<(), WriteFailed> {
        let label = self.label;
        let flag = self.frame.flag;
        let (types, _) = self.frame.locals.split_at(count_in_use(&self.frame.locals));
        let locals = TypesLine {
            label,
            word: "locals",
            types,
        };
        let stack = TypesLine {
            label,
            word: "stack",
            types: &self.frame.stack,
        };
        Then(locals, Then(stack, FlagsLine { label, flag })).put(out)
    }
}

/// The characters of a type in a string.
#[derive(Clone, Copy)]
struct TypeCharacters;

impl<'a> Lines<VType<'a>> for TypeCharacters {
    ghost line = { λ t x. type_text within.Json (type_of x) };

    fn put_line<W: Write>(&self, item: &VType<'a>, out: &mut W) -> Result<(), WriteFailed> {
        TypeText(Within::Json, *item).put(out)
    }
}

/// The field of the flag, where it stands, and then what stands after it.
#[derive(Clone, Copy)]
struct FlagFields<B> {
    name: &'static str,
    flag: bool,
    behind: B,
}

impl<B: Print + Copy> Print for FlagFields<B> {
    ghost text = { λ t. fields_then (flag_fields t.name.now t.flag) (B.text t.behind) };

    fn put<W: Write>(&self, out: &mut W) -> Result<(), WriteFailed> {
        if self.flag {
            let flag = Word("[\"flagThisUninit\"]");
            MoreFields(self.name, flag, self.behind).put(out)
        } else {
            self.behind.put(out)
        }
    }
}

/// A frame as fields of these names, and then what stands after them: its locals without the tops after the last that
/// is none, its stack from the bottom up, and flagThisUninit where it has the flag.
#[derive(Clone, Copy)]
pub struct FrameFields<'f, 'a, B> {
    pub locals: &'static str,
    pub stack: &'static str,
    pub flags: &'static str,
    pub frame: &'f Frame<'a>,
    pub behind: B,
}

impl<'f, 'a, B: Print + Copy> Print for FrameFields<'f, 'a, B> {
    ghost text = { λ t. fields_then (frame_fields t.locals.now t.stack.now t.flags.now (frame_of t.frame.now))
        (B.text t.behind) };

    fn put<W: Write>(&self, out: &mut W) -> Result<(), WriteFailed> {
        let (types, _) = self.frame.locals.split_at(count_in_use(&self.frame.locals));
        let flags = FlagFields {
            name: self.flags,
            flag: self.frame.flag,
            behind: self.behind,
        };
        let stack = Strings(TypeCharacters, &self.frame.stack);
        let stack = MoreFields(self.stack, stack, flags);
        MoreFields(self.locals, Strings(TypeCharacters, types), stack).put(out)
    }
}
