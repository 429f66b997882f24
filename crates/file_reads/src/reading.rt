//! Reads the part of a file that is wanted from any reader.
ghost use Rattle.std.specs.Prelude.{◌≡◌, ◌⊎◌, ◌++◌, IfOk, IfErr, IfSome, take, length};
ghost use Rattle.layout.specs.declared.fault.ReadFault.TheVariants.{OutOfMemory, ReadFailed};
ghost use Rattle.classfile.specs.Outline.{OutlineFault, IsLostOr};
ghost use Rattle.file_reads.specs.FileReads.{ReadsOn, BeginsWith};

use classfile::{CutShort, read_class};
use layout::ReadFault;
use std::alloc::Global;
use std::io::Read;

/// A byte that stands after the bytes of a class, if there is one, is appended to them: it tells that the file is
/// longer.
pub(crate) fn read_behind<R: Read>(mut bytes: Vec<u8>, reader: &mut R) -> Result<Vec<u8>, CutShort>
    ensures bytes { IfOk result (λ v. IfSome (R.remaining reader.old) (λ rest. v.items ≡ bytes.items ++ take 1 rest)) }
    ensures fault { IfErr result (λ e. (e.bytes.items ≡ bytes.items)
        × ((e.why ≡ OutOfMemory) ⊎ (e.why ≡ ReadFailed (length bytes.items)))) }
{
    let at = bytes.len();
    let mut next = [0];
    match reader.read(&mut next) {
        Ok(0) => Ok(bytes),
        Ok(_) => match bytes.push(next[0]) {
            Ok(()) => Ok(bytes),
            Err(_) => Err(CutShort {
                bytes,
                why: ReadFault::OutOfMemory,
            }),
        },
        Err(_) => Err(CutShort {
            bytes,
            why: ReadFault::ReadFailed { at },
        }),
    }
}

/// The bytes of the class that a file holds, and one byte more if there is one; or why they were not read to the end
/// of the class, with those that were: a fault of [`read_class`].
#[tactic(auto, using(crate::proofs::Fronts::taken_in_front, crate::proofs::Fronts::stopped_in_front))]
pub(crate) fn read_whole<R: Read>(alloc: Global, reader: &mut R) -> Result<Vec<u8>, CutShort>
    // Where it is known what the reader gives, that is the front of it that is an outline, and the byte after it.
    ensures bytes { IfOk result (λ v. IfSome (R.remaining reader.old) (λ stream. ReadsOn stream v.items)) }
    // Otherwise it has no such front, or memory ran out, or the reader failed.
    ensures fault { IfErr result (λ e. IfSome (R.remaining reader.old)
        (λ stream. IsLostOr (OutlineFault stream) e.why)) }
    // Its bytes up to there are kept.
    ensures held { IfErr result (λ e. IfSome (R.remaining reader.old) (λ stream. BeginsWith stream e.bytes.items)) }
{
    let class = read_class(alloc, reader)?;
    read_behind(class, reader)
}
