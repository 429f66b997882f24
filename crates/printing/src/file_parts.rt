//! The part of a file whose bytes are no class, in which the fault lies, by lines or as fields of an object of JSON.
ghost use Rattle.std.specs.Prelude.{◌≡◌, [], codes};
ghost use Rattle.std.specs.Option.{option_map_or};
ghost use Rattle.printing.specs.FileParts.{kind_behind, tagged_text, numbered_line, place_line, file_part_lines, tagged_fields, attribute_fields, file_part_fields};
ghost use Rattle.printing.specs.Json.{fields_then};
ghost use Rattle.printing.specs.Writing.{Writes};

use crate::fault_fields::PlaceFields;
use crate::json::{Enclosed, More};
use crate::print::{Number, Print, Then, Word, WriteFailed};
use classfile::{FilePart, Place};
use std::io::Write;

/// The kind of the constants with this tag, after a blank; nothing where there is none.
fn kind_behind(tag: u8) -> &'static str
    ensures { result.now ≡ kind_behind tag }
{
    match tag {
        1 => " Utf8",
        3 => " Integer",
        4 => " Float",
        5 => " Long",
        6 => " Double",
        7 => " Class",
        8 => " String",
        9 => " Fieldref",
        10 => " Methodref",
        11 => " InterfaceMethodref",
        12 => " NameAndType",
        15 => " MethodHandle",
        16 => " MethodType",
        17 => " Dynamic",
        18 => " InvokeDynamic",
        _ => "",
    }
}

/// A constant by its index and its kind, if it has a tag.
#[derive(Clone, Copy)]
struct Tagged {
    index: usize,
    tag: Option<u8>,
}

impl Print for Tagged {
    ghost text = { λ t. tagged_text t.index t.tag };

    fn put<W: Write>(&self, out: &mut W) -> Result<(), WriteFailed> {
        let kind = match self.tag {
            Some(tag) => kind_behind(tag),
            None => "",
        };
        Then(Number(self.index), Word(kind)).put(out)
    }
}

/// A line with the number of something of this kind.
#[derive(Clone, Copy)]
struct Numbered(&'static str, usize);

impl Print for Numbered {
    ghost text = { λ t. numbered_line t.0.now t.1 };

    fn put<W: Write>(&self, out: &mut W) -> Result<(), WriteFailed> {
        let number = Then(Number(self.1), Word("\n"));
        Then(Word("  "), Then(Word(self.0), Then(Word(" "), number))).put(out)
    }
}

/// The line of a constant, a field or a method; nothing for the class itself.
#[derive(Clone, Copy)]
struct PlaceLine(Place, Option<u8>);

impl Print for PlaceLine {
    ghost text = { λ t. place_line t.0 t.1 };

    fn put<W: Write>(&self, out: &mut W) -> Result<(), WriteFailed> {
        match self.0 {
            Place::Pool(index) => {
                let constant = Tagged { index, tag: self.1 };
                Then(Word("  constant "), Then(constant, Word("\n"))).put(out)
            }
            Place::Class => Word("").put(out),
            Place::Field(number) => Numbered("field", number).put(out),
            Place::Method(number) => Numbered("method", number).put(out),
        }
    }
}

/// The line of an attribute, if there is one.
#[derive(Clone, Copy)]
struct AttributeIf(Option<usize>);

impl Print for AttributeIf {
    ghost text = { λ t. option_map_or (numbered_line (codes "attribute")) t.0 [] };

    fn put<W: Write>(&self, out: &mut W) -> Result<(), WriteFailed> {
        match self.0 {
            Some(number) => Numbered("attribute", number).put(out),
            None => Word("").put(out),
        }
    }
}

/// The part of a file in which a fault of its bytes lies, if there is one, by its lines.
#[derive(Clone, Copy)]
pub struct FilePartLines(pub Option<FilePart>);

impl Print for FilePartLines {
    ghost text = { λ t. option_map_or file_part_lines t.0 [] };

    fn put<W: Write>(&self, out: &mut W) -> Result<(), WriteFailed> {
        match self.0 {
            Some(part) => {
                let place = PlaceLine(part.place, part.tag);
                Then(place, AttributeIf(part.attribute)).put(out)
            }
            None => Word("").put(out),
        }
    }
}

/// A constant as a field, and then what stands after it; of no constant only that.
#[derive(Clone, Copy)]
struct TaggedFields<B>(Place, Option<u8>, B);

impl<B: Print + Copy> Print for TaggedFields<B> {
    ghost text = { λ t. fields_then (tagged_fields t.0 t.1) (B.text t.2) };

    fn put<W: Write>(&self, out: &mut W) -> Result<(), WriteFailed> {
        match self.0 {
            Place::Pool(index) => {
                let constant = Tagged { index, tag: self.1 };
                More("constant", Enclosed(constant), self.2).put(out)
            }
            Place::Class | Place::Field(_) | Place::Method(_) => self.2.put(out),
        }
    }
}

/// The number of an attribute as a field, if there is one, and then what stands after it.
#[derive(Clone, Copy)]
struct NumberedAttribute<B>(Option<usize>, B);

impl<B: Print + Copy> Print for NumberedAttribute<B> {
    ghost text = { λ t. fields_then (option_map_or attribute_fields t.0 []) (B.text t.1) };

    fn put<W: Write>(&self, out: &mut W) -> Result<(), WriteFailed> {
        match self.0 {
            Some(number) => More("attribute", Number(number), self.1).put(out),
            None => self.1.put(out),
        }
    }
}

/// The part of a file in which a fault of its bytes lies, if there is one, as fields of an object of JSON, and then
/// what stands after them.
#[derive(Clone, Copy)]
pub struct FilePartFields<B>(pub Option<FilePart>, pub B);

impl<B: Print + Copy> Print for FilePartFields<B> {
    ghost text = { λ t. fields_then (option_map_or file_part_fields t.0 []) (B.text t.1) };

    fn put<W: Write>(&self, out: &mut W) -> Result<(), WriteFailed> {
        match self.0 {
            Some(part) => {
                let attribute = NumberedAttribute(part.attribute, self.1);
                let constant = TaggedFields(part.place, part.tag, attribute);
                PlaceFields(part.place, constant).put(out)
            }
            None => self.1.put(out),
        }
    }
}
