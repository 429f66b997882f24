//! The line of the first place at which an incoming frame differs from the declared one (JVMS 4.10.1.4), or of the
//! first one at which their comparison asks for a class that is missing, and its JSON fields.
ghost use Rattle.frames.specs.Differences.{mismatch_of, difference_of};
ghost use Rattle.printing.specs.Differences.{types_differ, mismatch_line, difference_line, mismatch_fields, difference_fields};
ghost use Rattle.printing.specs.Json.{fields_then};

use crate::frame::TypeText;
use crate::json::{Enclosed, More, Quoted};
use crate::names_in::Within;
use crate::print::{Number, Print, Then, Word, WriteFailed};
use frames::{Difference, Mismatch, Sought};
use std::io::Write;

/// The type that comes and the declared one, to which it is not assignable, or is not known to be, and the end of the
/// line.
#[derive(Clone, Copy)]
struct TypesDiffer<'a> {
    sought: Sought,
    mismatch: Mismatch<'a>,
}

impl<'a> Print for TypesDiffer<'a> {
    ghost text = { λ t. types_differ t.sought (mismatch_of t.mismatch) };

    fn put<W: Write>(&self, out: &mut W) -> Result<(), WriteFailed> {
        let from = TypeText(Within::Words, self.mismatch.from);
        let to = TypeText(Within::Words, self.mismatch.to);
        match self.sought {
            Sought::No => {
                let to = Then(to, Word("\n"));
                Then(from, Then(Word(" is not assignable to "), to)).put(out)
            }
            Sought::Missing => {
                let to = Then(to, Word(" is not known\n"));
                let types = Then(from, Then(Word(" is assignable to "), to));
                Then(Word("whether "), types).put(out)
            }
        }
    }
}

/// The line of a place of one part of the frames.
#[derive(Clone, Copy)]
struct MismatchLine<'a> {
    sought: Sought,
    part: &'static str,
    mismatch: Mismatch<'a>,
}

impl<'a> Print for MismatchLine<'a> {
    ghost text = { λ t. mismatch_line t.sought t.part.now (mismatch_of t.mismatch) };

    fn put<W: Write>(&self, out: &mut W) -> Result<(), WriteFailed> {
        let place = Number(self.mismatch.place as u64);
        let differ = TypesDiffer {
            sought: self.sought,
            mismatch: self.mismatch,
        };
        let types = Then(Word(": "), differ);
        Then(
            Word("  "),
            Then(Word(self.part), Then(Word(" "), Then(place, types))),
        )
        .put(out)
    }
}

/// The line of the first place at which an incoming frame differs from the declared one, or of the first one at which
/// their comparison asks for a class that is missing.
#[derive(Clone, Copy)]
pub struct DifferenceLine<'a> {
    /// The answer of the comparison.
    pub sought: Sought,
    /// The difference, or the place.
    pub difference: Difference<'a>,
}

impl<'a> Print for DifferenceLine<'a> {
    ghost text = { λ t. difference_line t.sought (difference_of t.difference) };

    fn put<W: Write>(&self, out: &mut W) -> Result<(), WriteFailed> {
        let sought = self.sought;
        match self.difference {
            Difference::Flag => {
                Word("  flags: flagThisUninit comes and is not declared\n").put(out)
            }
            Difference::Local(mismatch) => {
                let part = "local";
                MismatchLine {
                    sought,
                    part,
                    mismatch,
                }
                .put(out)
            }
            Difference::Sizes { from, to } => {
                let declared = Then(Word(", declared "), Then(Number(to as u64), Word("\n")));
                let sizes = Then(Number(from as u64), declared);
                Then(Word("  stack: items that come "), sizes).put(out)
            }
            Difference::Item(mismatch) => {
                let part = "stack";
                MismatchLine {
                    sought,
                    part,
                    mismatch,
                }
                .put(out)
            }
        }
    }
}

/// The fields of a place of one part of the frames, and then what stands after them.
#[derive(Clone, Copy)]
struct MismatchFields<'a, B> {
    part: &'static str,
    mismatch: Mismatch<'a>,
    behind: B,
}

impl<'a, B: Print + Copy> Print for MismatchFields<'a, B> {
    ghost text = { λ t. fields_then (mismatch_fields t.part.now (mismatch_of t.mismatch)) (B.text t.behind) };

    fn put<W: Write>(&self, out: &mut W) -> Result<(), WriteFailed> {
        let from = Enclosed(TypeText(Within::Json, self.mismatch.from));
        let to = Enclosed(TypeText(Within::Json, self.mismatch.to));
        let types = More("type", from, More("declared_type", to, self.behind));
        let place = Number(self.mismatch.place as u64);
        More("differs", Quoted(self.part), More("index", place, types)).put(out)
    }
}

/// The fields of the first difference of a frame that comes from the declared one, or of the first place at which their
/// comparison asks for a class that is missing, and then what stands after them.
#[derive(Clone, Copy)]
pub struct DifferenceFields<'a, B>(pub Difference<'a>, pub B);

impl<'a, B: Print + Copy> Print for DifferenceFields<'a, B> {
    ghost text = { λ t. fields_then (difference_fields (difference_of t.0)) (B.text t.1) };

    fn put<W: Write>(&self, out: &mut W) -> Result<(), WriteFailed> {
        let behind = self.1;
        match self.0 {
            Difference::Flag => More("differs", Quoted("flags"), behind).put(out),
            Difference::Local(mismatch) => MismatchFields {
                part: "local",
                mismatch,
                behind,
            }
            .put(out),
            Difference::Sizes { from, to } => {
                let declared = More("declared_size", Number(to as u64), behind);
                let sizes = More("size", Number(from as u64), declared);
                More("differs", Quoted("stack_size"), sizes).put(out)
            }
            Difference::Item(mismatch) => MismatchFields {
                part: "stack",
                mismatch,
                behind,
            }
            .put(out),
        }
    }
}
