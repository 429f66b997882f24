//! The bytes of a message as a file.
ghost use Rattle.std.specs.Prelude.{◌≡◌, IfOk};
ghost use Rattle.answers.specs.Files.{input_view};
ghost use Rattle.serving.specs.KnownClasses.{IsReadOf};

use classfile::CutShort;
use file_reads::read_bytes;
use layout::ReadFault;
use std::alloc::{AllocError, Global};

/// The part of a file with these bytes that the program reads, as it reads a file.
pub fn read_file(alloc: Global, file: &[u8]) -> Result<Result<Vec<u8>, CutShort>, AllocError>
    ensures { IfOk result (λ read. IsReadOf file.now (input_view read)) }
{
    match read_bytes(alloc, file) {
        Ok(bytes) => Ok(Ok(bytes)),
        Err(cut) => match cut.why {
            ReadFault::OutOfMemory => Err(AllocError),
            _ => Ok(Err(cut)),
        },
    }
}
