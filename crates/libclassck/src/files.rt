//! The files of a call.
ghost use Rattle.std.specs.Prelude.{◌≡◌, ℕ, List, IfOk, MatchOption, map};
ghost use Rattle.answers.specs.Files.{input_view};
ghost use Rattle.libclassck.specs.Files.{AreFiles, IsReadOf, AreReads};

use classfile::CutShort;
use file_reads::read_bytes;
use layout::ReadFault;
use std::alloc::{AllocError, Global};

/// The files that the bytes are, one after the other, if the ends are where files end that are all of the bytes.
pub fn files_of<'a>(
    alloc: Global,
    bytes: &'a [u8],
    ends: &[u32],
) -> Result<Option<Vec<&'a [u8]>>, AllocError>
    ensures { IfOk result (λ found. MatchOption found
        ((files : List (List ℕ)) → AreFiles bytes.now ends.now files → ⊥)
        (λ files. AreFiles bytes.now ends.now (map (λ file. file.now) files.items))) }
{
    let mut files = Vec::with_capacity(alloc, ends.len())?;
    let mut rest = bytes;
    let mut start = 0;
    for end in ends {
        let end = *end as usize;
        if end < start || rest.len() < end - start {
            return Ok(None);
        }
        let (file, behind) = rest.split_at(end - start);
        files.push(file)?;
        rest = behind;
        start = end;
    }
    if rest.is_empty() {
        Ok(Some(files))
    } else {
        Ok(None)
    }
}

/// A file in memory, as the program reads one.
fn read_file(alloc: Global, file: &[u8]) -> Result<Result<Vec<u8>, CutShort>, AllocError>
    ensures { IfOk result (λ read. IsReadOf file.now (input_view read)) }
{
    match read_bytes(alloc, file) {
        Ok(bytes) => Ok(Ok(bytes)),
        Err(cut) => match cut.why {
            ReadFault::OutOfMemory => Err(AllocError),
            _ => Ok(Err(cut)),
        },
    }
}

/// The files, as the program reads them.
pub fn read_files(
    alloc: Global,
    files: &[&[u8]],
) -> Result<Vec<Result<Vec<u8>, CutShort>>, AllocError>
    ensures { IfOk result (λ reads. AreReads (map (λ file. file.now) files.now) (map input_view reads.items)) }
{
    let mut reads = Vec::with_capacity(alloc, files.len())?;
    for file in files {
        reads.push(read_file(alloc, file)?)?;
    }
    Ok(reads)
}
