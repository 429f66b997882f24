//! Takes the part of a file that is read, of a file whose bytes are in memory.
ghost use Rattle.std.specs.Prelude.{◌≡◌, ◌≤◌, ◌++◌, IfOk, IfErr, IfSome, length, take, drop};
ghost use Rattle.layout.specs.Faults.{UnlessMemory};
ghost use Rattle.classfile.specs.Outline.{IsOutline, OutlineFault};
ghost use Rattle.file_reads.specs.FileReads.{ReadsOn, BeginsWith};

use crate::outline::outline;
use crate::reading::read_whole;
use classfile::CutShort;
use layout::{MAX_CLASS_BYTES, ReadFault};
use std::alloc::Global;

/// How many bytes the outline takes with which the file begins; `None` where it begins with none, or may.
pub(crate) fn class_length(file: &[u8]) -> Option<usize>
    ensures within { IfSome result (λ n. n ≤ length file.now) }
    ensures outline { IfSome result (λ n. IsOutline (take n file.now)) }
{
    let rest = outline(file)?;
    let count = file.len() - rest.len();
    if count <= MAX_CLASS_BYTES {
        Some(count)
    } else {
        None
    }
}

/// So many bytes of the file, and one more if there is one.
#[tactic(auto, using(crate::proofs::Fronts::one_behind, crate::proofs::Fronts::none_behind))]
fn front(file: &[u8], count: usize) -> &[u8]
    requires { count ≤ length file.now }
    ensures { result.now ≡ take count file.now ++ take 1 (drop count file.now) }
{
    match file.split_at_checked(count + 1) {
        Some((front, _)) => front,
        None => file,
    }
}

/// Reads the file by a reader of its bytes, which never fails.
fn read_part_by_part(alloc: Global, file: &[u8]) -> Result<Vec<u8>, CutShort>
    ensures bytes { IfOk result (λ v. ReadsOn file.now v.items) }
    ensures fault { IfErr result (λ e. UnlessMemory e.why (OutlineFault file.now e.why)) }
    ensures held { IfErr result (λ e. BeginsWith file.now e.bytes.items) }
{
    let mut reader = file;
    match read_whole(alloc, &mut reader) {
        Ok(bytes) => Ok(bytes),
        Err(cut) => match cut.why {
            ReadFault::ReadFailed { .. } => Err(CutShort {
                bytes: cut.bytes,
                why: ReadFault::OutOfMemory,
            }),
            _ => Err(cut),
        },
    }
}

/// The bytes of the class that a file holds, and one byte more if there is one, as [`read_whole`] reads them; or the
/// fault for which they were not read to the end of the class, with bytes in front of it. 1 where memory runs out.
#[tactic(auto, using(crate::proofs::Fronts::copied_is_read))]
pub fn read_bytes(alloc: Global, file: &[u8]) -> Result<Vec<u8>, CutShort>
    ensures bytes { IfOk result (λ v. ReadsOn file.now v.items) }
    ensures fault { IfErr result (λ e. UnlessMemory e.why (OutlineFault file.now e.why)) }
    ensures held { IfErr result (λ e. BeginsWith file.now e.bytes.items) }
{
    let Some(count) = class_length(file) else {
        return read_part_by_part(alloc, file);
    };
    let mut bytes = Vec::new(alloc);
    match bytes.extend_from_slice(front(file, count)) {
        Ok(()) => Ok(bytes),
        Err(_) => Err(CutShort {
            bytes: Vec::new(alloc),
            why: ReadFault::OutOfMemory,
        }),
    }
}
