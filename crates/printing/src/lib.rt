//! Class files, code, frames and faults as text: lines for people, and fields of objects of JSON for programs. The
//! text is written piece by piece, and no call takes memory.
//!
//! Each thing that has a text is a [`Print`], whose text is a function of it (`specs/`), and
//! writing it writes exactly that, or a beginning of it where a write fails. The calls to know are
//! [`Listing`], the lines of a class file, and the pieces in `print`.
//!
//! - `print` has the trait [`Print`], words, numbers, one text after another, and lines of a list
//! - `name` writes flags in hexadecimal digits, names with escapes, and texts of the constant pool
//! - `runs` writes the units of a name that stand as they are in runs
//! - `names_in` writes a name as it stands in a line of words, or in a string of JSON
//! - `json` writes objects of JSON (RFC 8259), field by field
//! - `faults` writes why something is refused, and where; `fault_fields` writes the same as fields
//! - `instruction` writes the line of an instruction
//! - `code` writes a method's code, one instruction of it, its sizes and its exception table, by lines or as fields
//! - `frame` writes the lines of a frame, and a frame as fields
//! - `differences` writes the line of the first difference of two frames, and its fields
//! - `constants` writes a constant, by a line or as a field
//! - `class_parts` writes a part of a class that was decoded and breaks a rule, and its attribute that does, by lines
//!   or as fields
//! - `file_parts` writes a part of a file whose bytes are no class: the one in which the fault lies, by lines or as
//!   fields
//! - `class_attributes` writes the lines of records and sealed classes
//! - `listing` writes the lines of a class file
#![tactic(auto)]

mod class_attributes;
mod class_parts;
mod code;
mod constants;
mod differences;
mod fault_fields;
mod faults;
mod file_parts;
mod frame;
mod instruction;
mod json;
mod listing;
mod name;
mod names_in;
mod print;
mod runs;

pub use class_parts::{AttributeFields, AttributeLine, PartFields, PartLines};
pub use code::{
    Handlers, HandlersField, InstructionAt, InstructionFields, NamedAt, NamedFields, SizeFields,
    Sizes,
};
pub use differences::{DifferenceFields, DifferenceLine};
pub use fault_fields::{FaultFields, PlaceFields};
pub use file_parts::{FilePartFields, FilePartLines};
pub use frame::{FrameFields, FrameLines, TypeText};
pub use json::{END, Enclosed, More, Object, Quoted, QuotedName, QuotedSpelled, Strings};
pub use listing::Listing;
pub use name::{ClassName, ConstantText, Hexadecimal, Name, Spelled};
pub use names_in::Within;
pub use print::{Lines, Number, Print, Then, Word, WriteFailed, put_bytes, put_lines};
