//! Reads the part of a file that is wanted by blocks of bytes, and walks over its outline in memory.
ghost use Rattle.std.specs.Prelude.{◌≡◌, ◌≤◌, List, ℕ, Option, IfOk, IfErr, IfSome, MatchResult, OnOk, OnErr, length, take};
ghost use Rattle.std.specs.Io.KnownBytes.{Consumes};
ghost use Rattle.classfile.specs.Outline.{IsOutline, OutlineFault, IsLostOr};
ghost use Rattle.file_reads.specs.FileReads.{ReadsOn, BeginsWith};
ghost use Rattle.file_reads.specs.private.BlockReads.{IsReadOf, IsCutOf};

use crate::memory::class_length;
use crate::reading::{read_behind, read_whole};
use classfile::CutShort;
use layout::{MAX_CLASS_BYTES, ReadFault};
use std::alloc::{AllocError, Global};
use std::io::{BufReader, Read};

/// So many bytes are asked for at once. Nine of ten class files are not longer.
const BLOCK: usize = 8192;

/// So many blocks hold the longest class and the byte after it.
const MOST_BLOCKS: usize = MAX_CLASS_BYTES / BLOCK + 1;

/// The bytes of the buffer through which a file is read part by part.
const BUFFER: usize = 4096;

/// The magic number of class files (JVMS 4.1).
const MAGIC: [u8; 4] = [0xCA, 0xFE, 0xBA, 0xBE];

/// Whether a class may end in the blocks behind these bytes: the last block was whole, and they begin as a class does.
fn may_go_on(bytes: &[u8], count: usize) -> bool {
    count == BLOCK && bytes.starts_with(&MAGIC)
}

/// Appends what a reader gives at once, and returns how many bytes that is: 0 also where it fails.
fn take_block<R: Read>(bytes: &mut Vec<u8>, reader: &mut R) -> Result<usize, AllocError>
    ensures ok { OnOk result ((before : Option (List ℕ)) → Consumes before (R.remaining reader.old) bytes.old.items
        → Consumes before (R.remaining reader.new) bytes.new.items) }
    ensures err { OnErr result (bytes.new.items ≡ bytes.old.items) }
{
    let mut block = [0; BLOCK];
    let count = reader.read(&mut block).unwrap_or(0);
    bytes.extend_from_slice(&block[..count])?;
    Ok(count)
}

/// The class of so many bytes with which these begin, and one byte more if there is one, which may be still to be read.
fn with_next<R: Read>(mut bytes: Vec<u8>, count: usize, reader: &mut R) -> Result<Vec<u8>, CutShort>
    requires within { count ≤ length bytes.items }
    requires outline { IsOutline (take count bytes.items) }
    ensures { (before : Option (List ℕ)) → Consumes before (R.remaining reader.old) bytes.items
        → MatchResult result (λ v. IsReadOf before v.items) (λ e. IsCutOf before e.bytes.items e.why) }
{
    if count == bytes.len() {
        return read_behind(bytes, reader);
    }
    bytes.truncate(count + 1);
    Ok(bytes)
}

/// Reads part by part, from the first of these bytes on and then from the reader.
fn read_again<R: Read>(alloc: Global, bytes: &[u8], reader: &mut R) -> Result<Vec<u8>, CutShort>
    ensures { (before : Option (List ℕ)) → Consumes before (R.remaining reader.old) bytes.now
        → MatchResult result (λ v. IsReadOf before v.items) (λ e. IsCutOf before e.bytes.items e.why) }
{
    match BufReader::with_capacity(alloc, BUFFER, bytes.chain(reader)) {
        Ok(mut file) => read_whole(alloc, &mut file),
        Err(_) => Err(CutShort {
            bytes: Vec::new(alloc),
            why: ReadFault::OutOfMemory,
        }),
    }
}

/// The bytes of the class that a file holds, and one byte more if there is one; or why they were not read to the end
/// of the class, with those that were: a fault of [`read_class`](classfile::read_class).
///
/// As long as the reader gives whole blocks, the outline is walked over in memory, again each time that there are twice
/// as many bytes. Otherwise the file is read part by part, so that no more is waited for than the answer needs.
pub fn read_file<R: Read>(alloc: Global, reader: &mut R) -> Result<Vec<u8>, CutShort>
    // Where it is known what the reader gives, that is the front of it that is an outline, and the byte after it.
    ensures bytes { IfOk result (λ v. IfSome (R.remaining reader.old) (λ stream. ReadsOn stream v.items)) }
    // Otherwise it has no such front, or memory ran out, or the reader failed.
    ensures fault { IfErr result (λ e. IfSome (R.remaining reader.old)
        (λ stream. IsLostOr (OutlineFault stream) e.why)) }
    // Its bytes up to there are kept.
    ensures held { IfErr result (λ e. IfSome (R.remaining reader.old) (λ stream. BeginsWith stream e.bytes.items)) }
{
    let mut bytes = Vec::new(alloc);
    let mut passed = 0;
    for _ in 0..MOST_BLOCKS {
        let Ok(count) = take_block(&mut bytes, reader) else {
            let why = ReadFault::OutOfMemory;
            return Err(CutShort { bytes, why });
        };
        if count == BLOCK && bytes.len() / 2 < passed {
            continue;
        }
        if let Some(class) = class_length(&bytes) {
            return with_next(bytes, class, reader);
        }
        if !may_go_on(&bytes, count) {
            break;
        }
        passed = bytes.len();
    }
    read_again(alloc, &bytes, reader)
}
