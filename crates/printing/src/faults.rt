//! The texts of faults: a number, and where it was met.
ghost use Rattle.std.specs.Prelude.{◌≡◌, ◌++◌, codes, decimal};
ghost use Rattle.printing.specs.Writing.{Writes};
ghost use Rattle.printing.specs.Faults.{at_text};

use crate::print::{Number, Print, Then, Word, WriteFailed};
use classfile::Place;
use insn::CodeFault;
use layout::ReadFault;
use std::io::Write;

/// A number of a fault and the place where it was met.
fn put_at<W: Write>(out: &mut W, number: &str, at: usize) -> Result<(), WriteFailed>
    ensures { Writes (W.contents out.old) (W.contents out.new) (number.now ++ at_text at) result }
{
    Then(Word(number), Then(Word(" at "), Number(at as u64))).put(out)
}

impl Print for ReadFault {
    ghost use Rattle.printing.specs.Faults.{fault_text};

    ghost text = { fault_text };

    fn put<W: Write>(&self, out: &mut W) -> Result<(), WriteFailed> {
        match *self {
            ReadFault::OutOfMemory => Word("1").put(out),
            ReadFault::EndsEarly { at } => put_at(out, "2", at),
            ReadFault::BadText { at } => put_at(out, "3", at),
            ReadFault::BadTag { at, tag } => Then(
                Word("7"),
                Then(
                    Word(" at "),
                    Then(
                        Number(at as u64),
                        Then(Word(" tag "), Number(u64::from(tag))),
                    ),
                ),
            )
            .put(out),
            ReadFault::BadMagic => Word("10").put(out),
            ReadFault::BadVersion { major, minor } => Then(
                Word("11 "),
                Then(
                    Number(u64::from(major)),
                    Then(Word("."), Number(u64::from(minor))),
                ),
            )
            .put(out),
            ReadFault::AttributeLength { at } => put_at(out, "12", at),
            ReadFault::BytesAfter { at } => put_at(out, "13", at),
            ReadFault::TooLong { at } => put_at(out, "14", at),
            ReadFault::ReadFailed { at } => put_at(out, "15", at),
            ReadFault::BadPoolCount { at } => put_at(out, "16", at),
            ReadFault::BadFrameType { at } => put_at(out, "47", at),
            ReadFault::BadTypeTag { at } => put_at(out, "48", at),
        }
    }
}

impl Print for Place {
    ghost use Rattle.printing.specs.Faults.{place_text};

    ghost text = { place_text };

    fn put<W: Write>(&self, out: &mut W) -> Result<(), WriteFailed> {
        match *self {
            Place::Pool(index) => Then(Word(" pool "), Number(index as u64)).put(out),
            Place::Class => Word(" class").put(out),
            Place::Field(n) => Then(Word(" field "), Number(n as u64)).put(out),
            Place::Method(n) => Then(Word(" method "), Number(n as u64)).put(out),
        }
    }
}

impl Print for CodeFault {
    ghost use Rattle.printing.specs.Faults.{code_fault_text};

    ghost text = { code_fault_text };

    fn put<W: Write>(&self, out: &mut W) -> Result<(), WriteFailed> {
        match *self {
            CodeFault::OutOfMemory => Word("1").put(out),
            CodeFault::BadOpcode { at } => put_at(out, "31", at),
            CodeFault::CutInstruction { at } => put_at(out, "32", at),
            CodeFault::BadSwitch { at } => put_at(out, "33", at),
            CodeFault::BadWide { at } => put_at(out, "34", at),
            CodeFault::NonZeroByte { at } => put_at(out, "35", at),
        }
    }
}
