//! A constant of the constant pool by a line, or as a field (JVMS 4.4).
ghost use Rattle.std.specs.Prelude.{◌≡◌, ◌++◌, option_map};
ghost use Rattle.pool.specs.Views.{view};
ghost use Rattle.pool.specs.Lookups.{text_at, class_name_at, name_and_type_at};
ghost use Rattle.insn.specs.Views.{operands_view};
ghost use Rattle.printing.specs.Writing.{Writes};
ghost use Rattle.printing.specs.Constants.{behind, both_behind, text_behind, member_behind, bootstrap_behind, entry_text, standing, constant_line, index_in, entry_string, constant_fields};
ghost use Rattle.printing.specs.Json.{fields_then};

use crate::instruction::{Index, Value};
use crate::json::{Enclosed, More};
use crate::names_in::{NameIn, Within};
use crate::print::{Number, Print, Then, Word, WriteFailed};
use insn::Operands;
use pool::{Constant, Pool};
use std::io::Write;

/// The text at an index, after a blank; nothing where there is none.
#[derive(Clone, Copy)]
pub struct TextBehind<'p, 'a> {
    pub within: Within,
    pub pool: &'p Pool<'a>,
    pub index: u16,
}

impl<'p, 'a> Print for TextBehind<'p, 'a> {
    ghost text = { λ t. behind t.within (text_at t.pool.now t.index) };

    fn put<W: Write>(&self, out: &mut W) -> Result<(), WriteFailed> {
        match self.pool.text(self.index) {
            Ok(text) => Then(Word(" "), NameIn(self.within, text)).put(out),
            Err(_) => Word("").put(out),
        }
    }
}

/// The name of the class at an index, after a blank; nothing where there is none.
#[derive(Clone, Copy)]
struct ClassBehind<'p, 'a> {
    within: Within,
    pool: &'p Pool<'a>,
    index: u16,
}

impl<'p, 'a> Print for ClassBehind<'p, 'a> {
    ghost text = { λ t. behind t.within (class_name_at t.pool.now t.index) };

    fn put<W: Write>(&self, out: &mut W) -> Result<(), WriteFailed> {
        match self.pool.class_name(self.index) {
            Ok(text) => Then(Word(" "), NameIn(self.within, text)).put(out),
            Err(_) => Word("").put(out),
        }
    }
}

/// The name and the descriptor of the NameAndType at an index, each after a blank; nothing where there is none.
#[derive(Clone, Copy)]
struct BothBehind<'p, 'a> {
    within: Within,
    pool: &'p Pool<'a>,
    index: u16,
}

impl<'p, 'a> Print for BothBehind<'p, 'a> {
    ghost text = { λ t. both_behind t.within (name_and_type_at t.pool.now t.index) };

    fn put<W: Write>(&self, out: &mut W) -> Result<(), WriteFailed> {
        match self.pool.name_and_type(self.index) {
            Ok(names) => {
                let descriptor = Then(Word(" "), NameIn(self.within, names.descriptor));
                let name = NameIn(self.within, names.name);
                Then(Word(" "), Then(name, descriptor)).put(out)
            }
            Err(_) => Word("").put(out),
        }
    }
}

/// Writes a kind, an index and the text there.
fn put_text<W: Write>(
    out: &mut W,
    within: Within,
    kind: &str,
    pool: &Pool<'_>,
    index: u16,
) -> Result<(), WriteFailed>
    ensures { Writes (W.contents out.old) (W.contents out.new) (kind.now ++ text_behind within pool.now index) result }
{
    let text = TextBehind {
        within,
        pool,
        index,
    };
    Then(Word(kind), Then(Index(index), text)).put(out)
}

/// Writes a kind, and a member of a class after the indices of both.
fn put_reference<W: Write>(
    out: &mut W,
    within: Within,
    kind: &str,
    pool: &Pool<'_>,
    class: u16,
    name_and_type: u16,
) -> Result<(), WriteFailed>
    ensures { Writes (W.contents out.old) (W.contents out.new)
        (kind.now ++ member_behind within pool.now class name_and_type) result }
{
    let both = BothBehind {
        within,
        pool,
        index: name_and_type,
    };
    let class_name = ClassBehind {
        within,
        pool,
        index: class,
    };
    let names = Then(class_name, both);
    let indices = Then(Index(class), Then(Index(name_and_type), names));
    Then(Word(kind), indices).put(out)
}

/// Writes a kind, the number of a bootstrap method, and a name and a descriptor after their index.
fn put_dynamic<W: Write>(
    out: &mut W,
    within: Within,
    kind: &str,
    pool: &Pool<'_>,
    bootstrap: u16,
    name_and_type: u16,
) -> Result<(), WriteFailed>
    ensures { Writes (W.contents out.old) (W.contents out.new)
        (kind.now ++ bootstrap_behind within pool.now bootstrap name_and_type) result }
{
    let both = BothBehind {
        within,
        pool,
        index: name_and_type,
    };
    let behind = Then(Index(name_and_type), both);
    Then(Word(kind), Then(Value(bootstrap), behind)).put(out)
}

/// A constant of a pool by its kind, the numbers that it holds and the texts that these lead to.
#[derive(Clone, Copy)]
struct Entry<'p, 'a> {
    within: Within,
    pool: &'p Pool<'a>,
    constant: Constant<'a>,
}

impl<'p, 'a> Print for Entry<'p, 'a> {
    ghost text = { λ t. entry_text t.within t.pool.now (view t.constant) };

    fn put<W: Write>(&self, out: &mut W) -> Result<(), WriteFailed> {
        let pool = self.pool;
        let within = self.within;
        match self.constant {
            Constant::Utf8(text) => Then(Word("Utf8 "), NameIn(within, text)).put(out),
            Constant::Integer { .. } => Word("Integer").put(out),
            Constant::Float { .. } => Word("Float").put(out),
            Constant::Long { .. } => Word("Long").put(out),
            Constant::Double { .. } => Word("Double").put(out),
            Constant::Class { name } => put_text(out, within, "Class", pool, name),
            Constant::String { text } => put_text(out, within, "String", pool, text),
            Constant::Fieldref {
                class,
                name_and_type,
            } => put_reference(out, within, "Fieldref", pool, class, name_and_type),
            Constant::Methodref {
                class,
                name_and_type,
            } => put_reference(out, within, "Methodref", pool, class, name_and_type),
            Constant::InterfaceMethodref {
                class,
                name_and_type,
            } => put_reference(
                out,
                within,
                "InterfaceMethodref",
                pool,
                class,
                name_and_type,
            ),
            Constant::NameAndType { name, descriptor } => {
                let first = TextBehind {
                    within,
                    pool,
                    index: name,
                };
                let second = TextBehind {
                    within,
                    pool,
                    index: descriptor,
                };
                let texts = Then(first, second);
                let indices = Then(Index(name), Then(Index(descriptor), texts));
                Then(Word("NameAndType"), indices).put(out)
            }
            Constant::MethodHandle { kind, reference } => Then(
                Word("MethodHandle"),
                Then(Value(kind.number()), Index(reference)),
            )
            .put(out),
            Constant::MethodType { descriptor } => put_text(
                out,
                within,
                "MethodType",
                pool,
                descriptor,
            ),
            Constant::Dynamic {
                bootstrap,
                name_and_type,
            } => put_dynamic(out, within, "Dynamic", pool, bootstrap, name_and_type),
            Constant::InvokeDynamic {
                bootstrap,
                name_and_type,
            } => put_dynamic(out, within, "InvokeDynamic", pool, bootstrap, name_and_type),
            Constant::Unusable => Word("second index of the constant before").put(out),
        }
    }
}

/// The constant at an index; none where the index is 0 or past the pool.
fn standing<'a>(pool: &Pool<'a>, index: usize) -> Option<Constant<'a>>
    ensures { option_map view result ≡ standing pool.now index }
{
    if index == 0 {
        return None;
    }
    pool.constants().get(index - 1).copied()
}

/// The line of the constant at an index of the constant pool; nothing where none stands.
#[derive(Clone, Copy)]
pub struct ConstantLine<'p, 'a> {
    pub pool: &'p Pool<'a>,
    pub index: usize,
}

impl<'p, 'a> Print for ConstantLine<'p, 'a> {
    ghost text = { λ t. constant_line t.pool.now t.index };

    fn put<W: Write>(&self, out: &mut W) -> Result<(), WriteFailed> {
        match standing(self.pool, self.index) {
            Some(constant) => {
                let entry = Entry {
                    within: Within::Words,
                    pool: self.pool,
                    constant,
                };
                let behind = Then(Word(" "), Then(entry, Word("\n")));
                Then(Word("  constant "), Then(Number(self.index), behind)).put(out)
            }
            None => Word("").put(out),
        }
    }
}

/// The constant of an index, as the characters of a string.
#[derive(Clone, Copy)]
struct EntryString<'p, 'a> {
    pool: &'p Pool<'a>,
    index: usize,
    constant: Constant<'a>,
}

impl<'p, 'a> Print for EntryString<'p, 'a> {
    ghost text = { λ t. entry_string t.pool.now t.index (view t.constant) };

    fn put<W: Write>(&self, out: &mut W) -> Result<(), WriteFailed> {
        let entry = Entry {
            within: Within::Json,
            pool: self.pool,
            constant: self.constant,
        };
        Then(Number(self.index), Then(Word(" "), entry)).put(out)
    }
}

/// The constant at an index of the constant pool as a field, if one stands there, and then what stands after it.
#[derive(Clone, Copy)]
pub struct ConstantFields<'p, 'a, B> {
    pub pool: &'p Pool<'a>,
    pub index: usize,
    pub behind: B,
}

impl<'p, 'a, B: Print + Copy> Print for ConstantFields<'p, 'a, B> {
    ghost text = { λ t. fields_then (constant_fields t.pool.now t.index) (B.text t.behind) };

    fn put<W: Write>(&self, out: &mut W) -> Result<(), WriteFailed> {
        let pool = self.pool;
        let index = self.index;
        match standing(pool, index) {
            Some(constant) => {
                let entry = EntryString {
                    pool,
                    index,
                    constant,
                };
                More("constant", Enclosed(entry), self.behind).put(out)
            }
            None => self.behind.put(out),
        }
    }
}

/// The index of the constant that an instruction names, by its operands.
pub fn index_in(operands: &Operands<'_>) -> Option<u16>
    ensures { result ≡ index_in (operands_view operands.now) }
{
    match *operands {
        Operands::Constant(index) => Some(u16::from(index)),
        Operands::Index(index)
        | Operands::InvokeInterface { index, .. }
        | Operands::InvokeDynamic { index }
        | Operands::MultiNewArray { index, .. } => Some(index),
        _ => None,
    }
}
