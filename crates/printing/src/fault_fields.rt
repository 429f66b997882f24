//! The fields of faults in objects of JSON: a number, and where it was met; and then what stands after them.
ghost use Rattle.printing.specs.Writing.{Writes};
ghost use Rattle.printing.specs.Json.{fields_then};
ghost use Rattle.printing.specs.FaultFields.{at_fields, indexed_fields};

use crate::json::{More, Quoted};
use crate::print::{Number, Print, WriteFailed};
use classfile::Place;
use layout::ReadFault;
use std::io::Write;

/// The number of a fault and the place where it was met.
fn put_at<W: Write, B: Print + Copy>(
    out: &mut W,
    number: u64,
    at: usize,
    behind: B,
) -> Result<(), WriteFailed>
    ensures { Writes (W.contents out.old) (W.contents out.new)
        (fields_then (at_fields number at) (B.text behind)) result }
{
    More(
        "number",
        Number(number),
        More("at", Number(at as u64), behind),
    )
    .put(out)
}

/// Why bytes are no class file.
#[derive(Clone, Copy)]
pub struct FaultFields<B>(pub ReadFault, pub B);

impl<B: Print + Copy> Print for FaultFields<B> {
    ghost use Rattle.printing.specs.FaultFields.{fault_fields};

    ghost text = { λ t. fields_then (fault_fields t.0) (B.text t.1) };

    fn put<W: Write>(&self, out: &mut W) -> Result<(), WriteFailed> {
        match self.0 {
            ReadFault::OutOfMemory => More("number", Number(1_u64), self.1).put(out),
            ReadFault::EndsEarly { at } => put_at(out, 2, at, self.1),
            ReadFault::BadText { at } => put_at(out, 3, at, self.1),
            ReadFault::BadTag { at, tag } => {
                let tag = More("tag", Number(tag), self.1);
                More("number", Number(7_u64), More("at", Number(at as u64), tag)).put(out)
            }
            ReadFault::BadMagic => More("number", Number(10_u64), self.1).put(out),
            ReadFault::BadVersion { major, minor } => {
                let minor = More("minor", Number(minor), self.1);
                let version = More("major", Number(major), minor);
                More("number", Number(11_u64), version).put(out)
            }
            ReadFault::AttributeLength { at } => put_at(out, 12, at, self.1),
            ReadFault::BytesAfter { at } => put_at(out, 13, at, self.1),
            ReadFault::TooLong { at } => put_at(out, 14, at, self.1),
            ReadFault::ReadFailed { at } => put_at(out, 15, at, self.1),
            ReadFault::BadPoolCount { at } => put_at(out, 16, at, self.1),
            ReadFault::BadFrameType { at } => put_at(out, 47, at, self.1),
            ReadFault::BadTypeTag { at } => put_at(out, 48, at, self.1),
        }
    }
}

/// Where a rule is broken.
#[derive(Clone, Copy)]
pub struct PlaceFields<B>(pub Place, pub B);

/// A kind of place and which of its kind it is.
fn put_place<W: Write, B: Print + Copy>(
    out: &mut W,
    kind: &str,
    index: usize,
    behind: B,
) -> Result<(), WriteFailed>
    ensures { Writes (W.contents out.old) (W.contents out.new)
        (fields_then (indexed_fields kind.now index) (B.text behind)) result }
{
    let index = More("index", Number(index as u64), behind);
    More("place", Quoted(kind), index).put(out)
}

impl<B: Print + Copy> Print for PlaceFields<B> {
    ghost use Rattle.printing.specs.FaultFields.{place_fields};

    ghost text = { λ t. fields_then (place_fields t.0) (B.text t.1) };

    fn put<W: Write>(&self, out: &mut W) -> Result<(), WriteFailed> {
        match self.0 {
            Place::Pool(index) => put_place(out, "pool", index, self.1),
            Place::Class => More("place", Quoted("class"), self.1).put(out),
            Place::Field(n) => put_place(out, "field", n, self.1),
            Place::Method(n) => put_place(out, "method", n, self.1),
        }
    }
}
