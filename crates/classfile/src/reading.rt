//! The bytes of one class from any reader.
ghost use Rattle.std.specs.Prelude.{◌+◌, ◌≤◌, length, IfOk, IfErr, IfSome, MatchResult, vec_capacity};
ghost use Rattle.std.specs.Io.KnownBytes.{Consumes};
ghost use Rattle.classfile.specs.Outline.{IsOutline, OutlineFault, IsLostOr, Stopped};

use crate::outline::outline;
use layout::{ReadFault, Reading};
use std::alloc::Global;
use std::io::Read;
use thiserror::Error;

/// A class that was not read to its end.
#[derive(Debug, Drop, Error)]
#[error("{why}")]
pub struct CutShort {
    /// The bytes that the reader has given.
    pub bytes: Vec<u8>,
    /// Why no more were asked for.
    pub why: ReadFault,
}

/// The bytes of one class, and not one byte more, however the reader hands them out (JVMS 4.1).
///
/// The magic number, the count of the constant pool, the tags of its constants, and lengths and counts alone are looked
/// at. Otherwise the first fault in the order of the file, with the bytes that were taken from the reader: 2 where it
/// ends within a part, 7 for a tag, 10 for the magic number, 14 for a part that would pass 16,777,216 bytes, before it
/// is read, 15 at the bytes that were taken where the reader fails, however it does, 16 for a pool without a count; or
/// 1 where memory runs out. No count is believed before the bytes are there: there is never memory for more than 8,192
/// bytes beyond those that were read.
#[tactic(auto, using(crate::proofs::OutlineFaults::known_faults))]
pub fn read_class<R: Read>(alloc: Global, reader: &mut R) -> Result<Vec<u8>, CutShort>
    // The answer is an outline, and just this was taken.
    ensures found { IfOk result (λ v. IsOutline v.items
        × Consumes (R.remaining reader.old) (R.remaining reader.new) v.items) }
    ensures room { MatchResult result (λ v. vec_capacity v ≤ length v.items + 8192)
        (λ e. vec_capacity e.bytes ≤ length e.bytes.items + 8192) }
    // These bytes were taken, and why no more. Which fault it is of what the reader gives, where that is known; so an
    // outline in front of it is returned unless it is lost.
    ensures fault { IfErr result (λ e. IfSome (R.remaining reader.old)
        (λ stream. IsLostOr (OutlineFault stream) e.why)) }
    ensures stopped { IfErr result (λ e. Stopped (R.remaining reader.old) (R.remaining reader.new) e.bytes.items
        e.why) }
{
    let mut reading = Reading::new(alloc);
    match outline(&mut reading, reader) {
        Ok(()) => Ok(reading.into_bytes()),
        Err(fault) => Err(CutShort {
            bytes: reading.into_bytes(),
            why: fault.why,
        }),
    }
}
