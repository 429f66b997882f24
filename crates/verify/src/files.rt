//! From a file as it was read to a class that is well formed.
ghost use Rattle.std.specs.Prelude.{◌≡◌, Ok, MatchResult};
ghost use Rattle.classfile.specs.Views.{class_view};
ghost use Rattle.verify.specs.Files.{read_of, IsDecoded, IsFormed, OrMemory};
ghost use Rattle.verify.specs.Beside.{Summarises};
ghost use Rattle.verify.specs.private.FileSteps.{Forms};

use classfile::{
    ClassFile, FormFault, FormRule, Formed, Place, Versions, decode_under, form_check,
};
use hierarchy::{Summary, summary_of};
use layout::ReadFault;
use std::alloc::{AllocError, Global};
use thiserror::Error;

/// The bytes that were read of a file, or why there are none.
#[derive(Clone, Copy, Debug)]
pub enum FileRead<'a> {
    /// All its bytes, and the versions that its class may have.
    Bytes { bytes: &'a [u8], versions: Versions },
    /// It could not be read, or not to its end.
    Unread(ReadFault),
}

/// Why a file is not a well-formed class.
#[derive(Clone, Copy, Debug, Error)]
pub enum FileFault {
    /// 1: memory ran out.
    #[error("refused 1")]
    OutOfMemory,
    /// The file could not be read: 15, or another fault of its reading.
    #[error(transparent)]
    Unread(ReadFault),
    /// The bytes are no class file: 2, 3, 7, 10 to 14 or 16.
    #[error(transparent)]
    NoClass(ReadFault),
    /// The class file is not well formed: 20 to 30, by the first rule that is broken and where.
    #[error("refused {}", rule.number())]
    Malformed { rule: FormRule, place: Place },
}

/// The class file of one of these versions that bytes are, as [`decode_under`] answers it.
fn decoded<'a>(
    alloc: Global,
    versions: Versions,
    bytes: &'a [u8],
) -> Result<ClassFile<'a>, FileFault>
    ensures { let read = Ok (record { bytes = bytes.now; versions = versions }) in
        MatchResult result (λ c. IsDecoded read (class_view c)) (OrMemory read) }
{
    match decode_under(alloc, versions, bytes) {
        Ok(class) => Ok(class),
        Err(ReadFault::OutOfMemory) => Err(FileFault::OutOfMemory),
        Err(fault) => Err(FileFault::NoClass(fault)),
    }
}

/// The class file in a file, by its bytes or by why it could not be read.
pub fn class_in<'a>(alloc: Global, read: FileRead<'a>) -> Result<ClassFile<'a>, FileFault>
    ensures { MatchResult result (λ c. IsDecoded (read_of read.entry) (class_view c)) (OrMemory (read_of read.entry)) }
{
    match read {
        FileRead::Bytes { bytes, versions } => decoded(alloc, versions, bytes),
        FileRead::Unread(fault) => Err(FileFault::Unread(fault)),
    }
}

/// The class file as one that is well formed, as [`form_check`] answers it.
pub fn formed<'c, 'a>(alloc: Global, class: &'c ClassFile<'a>) -> Result<Formed<'c, 'a>, FileFault>
    ensures { Forms class.now result }
{
    match form_check(alloc, class) {
        Ok(formed) => Ok(formed),
        Err(FormFault::OutOfMemory) => Err(FileFault::OutOfMemory),
        Err(FormFault::Broken { rule, place }) => Err(FileFault::Malformed { rule, place }),
    }
}

/// The class file in a file, which is well formed; or why there is none, by the first of these: the file could not be
/// read; [`decode_under`] refuses it (2, 3, 7, 10 to 14, 16); [`form_check`] refuses it (20 to 30). 1 where memory ran out.
pub fn class_file<'a>(alloc: Global, read: FileRead<'a>) -> Result<ClassFile<'a>, FileFault>
    ensures { MatchResult result (λ c. IsFormed (read_of read.entry) (class_view c)) (OrMemory (read_of read.entry)) }
{
    let class = class_in(alloc, read)?;
    formed(alloc, &class)?;
    Ok(class)
}

/// The summary of the class in a file, all of whose texts are parts of the file's bytes; or why the file is not a
/// well-formed class, as [`class_file`] answers it.
pub fn summary_in<'a>(alloc: Global, read: FileRead<'a>) -> Result<Summary<'a>, FileFault>
    ensures { Summarises (read_of read.entry) result }
{
    let class = class_in(alloc, read)?;
    let formed = formed(alloc, &class)?;
    Ok(summary_of(alloc, &formed)?)
}

impl From<AllocError> for FileFault {
    ghost use Rattle.verify.specs.declared.files.FileFault.TheVariants.{OutOfMemory};

    ghost from_gives = { λ _ e. e ≡ OutOfMemory };

    fn from(_error: AllocError) -> FileFault {
        FileFault::OutOfMemory
    }
}
