//! The part of a decoded class at a place, and the attribute of it that breaks a rule, by lines or as fields of an
//! object of JSON.
ghost use Rattle.std.specs.Prelude.{◌≡◌, [], map, slice_get};
ghost use Rattle.std.specs.Option.{option_map_or};
ghost use Rattle.classfile.specs.Views.{member_view, class_view};
ghost use Rattle.printing.specs.Classes.{member_line};
ghost use Rattle.printing.specs.Json.{fields_then};
ghost use Rattle.printing.specs.ClassParts.{part_lines, numbered_line, attribute_line, member_fields, super_fields, class_fields, part_fields, numbered_fields, attribute_fields};
ghost use Rattle.printing.specs.Writing.{Writes};

use crate::constants::{ConstantFields, ConstantLine, TextBehind};
use crate::json::{Enclosed, More};
use crate::listing::{Above, Head, MemberLine};
use crate::name::{ClassName, ConstantText, Hexadecimal};
use crate::names_in::{ClassNameIn, TextIn, Within};
use crate::print::{Number, Print, Then, Word, WriteFailed};
use classfile::{ClassFile, FormRule, Member, Place, attribute_at_fault, attribute_name};
use pool::Pool;
use std::io::Write;

/// Writes the line of the field or method of this number; nothing where there is none.
fn put_member<'p, 'a, W: Write>(
    out: &mut W,
    kind: &'static str,
    pool: &'p Pool<'a>,
    members: &'p [Member<'a>],
    number: usize,
) -> Result<(), WriteFailed>
    ensures { Writes (W.contents out.old) (W.contents out.new)
        (option_map_or (member_line kind.now pool.now) (slice_get (map member_view members.now) number) []) result }
{
    match members.get(number) {
        Some(member) => MemberLine { kind, pool, member }.put(out),
        None => Word("").put(out),
    }
}

/// The part of a class file at a place: a constant by its line, and the class, a field or a method by the lines that a
/// [`Listing`](crate::Listing) has of it.
#[derive(Clone, Copy)]
pub struct PartLines<'c, 'a> {
    pub class: &'c ClassFile<'a>,
    pub place: Place,
}

impl<'c, 'a> Print for PartLines<'c, 'a> {
    ghost text = { λ t. part_lines (class_view t.class.now) t.place };

    fn put<W: Write>(&self, out: &mut W) -> Result<(), WriteFailed> {
        let class = self.class;
        let pool = &class.constant_pool;
        match self.place {
            Place::Pool(index) => ConstantLine { pool, index }.put(out),
            Place::Class => {
                let above = Then(Word("  "), Above(class));
                Then(Word("  "), Then(Head(class), above)).put(out)
            }
            Place::Field(number) => put_member(out, "  field ", pool, &class.fields, number),
            Place::Method(number) => put_member(out, "  method ", pool, &class.methods, number),
        }
    }
}

/// Writes the line of the attribute of this number; nothing where there is none.
fn put_attribute<W: Write>(
    out: &mut W,
    class: &ClassFile<'_>,
    place: Place,
    number: usize,
) -> Result<(), WriteFailed>
    ensures { Writes (W.contents out.old) (W.contents out.new) (numbered_line (class_view class.now) place number)
        result }
{
    match attribute_name(class, place, number) {
        Some(index) => {
            let name = TextBehind {
                within: Within::Words,
                pool: &class.constant_pool,
                index,
            };
            let behind = Then(Number(number), Then(name, Word("\n")));
            Then(Word("  attribute "), behind).put(out)
        }
        None => Word("").put(out),
    }
}

/// The line of the attribute that breaks the rule at a place of a class file; nothing where none does.
#[derive(Clone, Copy)]
pub struct AttributeLine<'c, 'a> {
    pub class: &'c ClassFile<'a>,
    pub rule: FormRule,
    pub place: Place,
}

impl<'c, 'a> Print for AttributeLine<'c, 'a> {
    ghost text = { λ t. attribute_line (class_view t.class.now) t.rule t.place };

    fn put<W: Write>(&self, out: &mut W) -> Result<(), WriteFailed> {
        match attribute_at_fault(self.class, self.rule, self.place) {
            Some(number) => put_attribute(out, self.class, self.place, number),
            None => Word("").put(out),
        }
    }
}

/// A field or a method as fields of an object of JSON, and then what stands after them.
#[derive(Clone, Copy)]
struct MemberFields<'p, 'a, B> {
    pool: &'p Pool<'a>,
    member: &'p Member<'a>,
    behind: B,
}

impl<'p, 'a, B: Print + Copy> Print for MemberFields<'p, 'a, B> {
    ghost text = { λ t. fields_then (member_fields t.pool.now (member_view t.member.now)) (B.text t.behind) };

    fn put<W: Write>(&self, out: &mut W) -> Result<(), WriteFailed> {
        let name = ConstantText {
            pool: self.pool,
            index: self.member.name,
        };
        let descriptor = ConstantText {
            pool: self.pool,
            index: self.member.descriptor,
        };
        let descriptor = Enclosed(TextIn(Within::Json, descriptor));
        let behind = More("descriptor", descriptor, self.behind);
        let behind = More("name", Enclosed(TextIn(Within::Json, name)), behind);
        let flags = Enclosed(Hexadecimal(self.member.access_flags));
        More("flags", flags, behind).put(out)
    }
}

/// Writes the field or method of this number as fields, if there is one, and then what stands after them.
fn put_member_fields<'p, 'a, W: Write, B: Print + Copy>(
    out: &mut W,
    pool: &'p Pool<'a>,
    members: &'p [Member<'a>],
    number: usize,
    behind: B,
) -> Result<(), WriteFailed>
    ensures { Writes (W.contents out.old) (W.contents out.new)
        (fields_then (option_map_or (member_fields pool.now) (slice_get (map member_view members.now) number) [])
        (B.text behind)) result }
{
    match members.get(number) {
        Some(member) => MemberFields {
            pool,
            member,
            behind,
        }
        .put(out),
        None => behind.put(out),
    }
}

/// The name of the superclass as a field, if there is one, and then what stands after it.
#[derive(Clone, Copy)]
struct SuperFields<'c, 'a, B>(ClassName<'c, 'a>, B);

impl<'c, 'a, B: Print + Copy> Print for SuperFields<'c, 'a, B> {
    ghost text = { λ t. fields_then (super_fields t.0.pool.now t.0.index) (B.text t.1) };

    fn put<W: Write>(&self, out: &mut W) -> Result<(), WriteFailed> {
        if self.0.index == 0 {
            self.1.put(out)
        } else {
            let name = Enclosed(ClassNameIn(Within::Json, self.0));
            More("super", name, self.1).put(out)
        }
    }
}

/// The class itself as fields: its name, its version, its flags and its superclass; and then what stands after them.
#[derive(Clone, Copy)]
struct ClassFields<'c, 'a, B>(&'c ClassFile<'a>, B);

impl<'c, 'a, B: Print + Copy> Print for ClassFields<'c, 'a, B> {
    ghost text = { λ t. fields_then (class_fields (class_view t.0.now)) (B.text t.1) };

    fn put<W: Write>(&self, out: &mut W) -> Result<(), WriteFailed> {
        let class = self.0;
        let pool = &class.constant_pool;
        let name = ClassName {
            pool,
            index: class.this_class,
        };
        let above = ClassName {
            pool,
            index: class.super_class,
        };
        let flags = Enclosed(Hexadecimal(class.access_flags));
        let behind = More("flags", flags, SuperFields(above, self.1));
        let behind = More("minor", Number(class.minor_version), behind);
        let behind = More("major", Number(class.major_version), behind);
        let name = Enclosed(ClassNameIn(Within::Json, name));
        More("name", name, behind).put(out)
    }
}

/// The part of a class file at a place as fields of an object of JSON, and then what stands after them. They say what
/// the [`PartLines`] say.
#[derive(Clone, Copy)]
pub struct PartFields<'c, 'a, B> {
    pub class: &'c ClassFile<'a>,
    pub place: Place,
    pub behind: B,
}

impl<'c, 'a, B: Print + Copy> Print for PartFields<'c, 'a, B> {
    ghost text = { λ t. fields_then (part_fields (class_view t.class.now) t.place) (B.text t.behind) };

    fn put<W: Write>(&self, out: &mut W) -> Result<(), WriteFailed> {
        let class = self.class;
        let pool = &class.constant_pool;
        let behind = self.behind;
        match self.place {
            Place::Pool(index) => ConstantFields {
                pool,
                index,
                behind,
            }
            .put(out),
            Place::Class => ClassFields(class, behind).put(out),
            Place::Field(number) => put_member_fields(out, pool, &class.fields, number, behind),
            Place::Method(number) => put_member_fields(out, pool, &class.methods, number, behind),
        }
    }
}

/// Writes the attribute of this number as fields, if there is one, and then what stands after them.
fn put_attribute_fields<W: Write, B: Print + Copy>(
    out: &mut W,
    class: &ClassFile<'_>,
    place: Place,
    number: usize,
    behind: B,
) -> Result<(), WriteFailed>
    ensures { Writes (W.contents out.old) (W.contents out.new)
        (fields_then (numbered_fields (class_view class.now) place number) (B.text behind)) result }
{
    match attribute_name(class, place, number) {
        Some(index) => {
            let pool = &class.constant_pool;
            let name = Enclosed(TextIn(Within::Json, ConstantText { pool, index }));
            let behind = More("attribute_name", name, behind);
            More("attribute", Number(number), behind).put(out)
        }
        None => behind.put(out),
    }
}

/// The attribute that breaks the rule at a place of a class file as fields of an object of JSON, if one does, and then
/// what stands after them. They say what the [`AttributeLine`] says.
#[derive(Clone, Copy)]
pub struct AttributeFields<'c, 'a, B> {
    pub class: &'c ClassFile<'a>,
    pub rule: FormRule,
    pub place: Place,
    pub behind: B,
}

impl<'c, 'a, B: Print + Copy> Print for AttributeFields<'c, 'a, B> {
    ghost text = { λ t. fields_then (attribute_fields (class_view t.class.now) t.rule t.place) (B.text t.behind) };

    fn put<W: Write>(&self, out: &mut W) -> Result<(), WriteFailed> {
        match attribute_at_fault(self.class, self.rule, self.place) {
            Some(number) => {
                put_attribute_fields(out, self.class, self.place, number, self.behind)
            }
            None => self.behind.put(out),
        }
    }
}
