//! Files as the program read them, for the verifier.
ghost use Rattle.std.specs.Prelude.{◌≡◌, ◌<◌, map, length, slice_get, Some, IfOk, IfErr};
ghost use Rattle.verify.specs.Files.{read_of};
ghost use Rattle.answers.specs.Files.{file_view, files_view, input_read, read_view};
ghost use Rattle.answers.specs.declared.fault.AnswerFault.TheVariants.{OutOfMemory};

use crate::fault::AnswerFault;
use classfile::{CutShort, Versions};
use std::alloc::Global;
use verify::FileRead;

/// A file as the program read it, and the versions that its class may have.
#[derive(Clone, Copy)]
pub struct InputFile<'a> {
    /// Its bytes, or those that were read of it and why it was not read to the end of its class.
    pub read: &'a Result<Vec<u8>, CutShort>,
    /// The versions that its class may have.
    pub versions: Versions,
}

/// Files as the program read them, and the versions that their classes may have.
#[derive(Clone, Copy)]
pub struct InputFiles<'a> {
    /// The files, in their order.
    pub reads: &'a [Result<Vec<u8>, CutShort>],
    /// The versions that their classes may have.
    pub versions: Versions,
}

impl<'a> InputFile<'a> {
    /// The bytes that were read of a file, or why there are none.
    pub fn as_read(self) -> FileRead<'a>
        ensures { read_of result ≡ read_view self.entry }
    {
        let versions = self.versions;
        match self.read {
            Ok(bytes) => FileRead::Bytes { bytes, versions },
            Err(fault) => FileRead::Unread(fault.why),
        }
    }

    /// The bytes that were read of a file.
    pub fn held(self) -> &'a [u8]
        ensures { result.now ≡ (file_view self.entry).held }
    {
        match self.read {
            Ok(bytes) => bytes,
            Err(cut) => &cut.bytes,
        }
    }
}

impl<'a> InputFiles<'a> {
    /// The file at this place.
    pub fn file(self, place: usize) -> InputFile<'a>
        requires { place < length self.reads.now }
        ensures { slice_get (files_view self.entry) place ≡ Some (file_view result) }
    {
        InputFile {
            read: &self.reads[place],
            versions: self.versions,
        }
    }
}

/// The answer of each read, in the order of the files.
pub fn file_reads<'a>(
    alloc: Global,
    files: InputFiles<'a>,
) -> Result<Vec<FileRead<'a>>, AnswerFault>
    ensures found { IfOk result (λ v. map read_of v.items
        ≡ map (input_read files.entry.versions) files.entry.reads.now) }
    ensures memory { IfErr result (λ e. e ≡ OutOfMemory) }
{
    let mut answers = Vec::with_capacity(alloc, files.reads.len())?;
    let versions = files.versions;
    for read in files.reads {
        answers.push(InputFile { read, versions }.as_read())?;
    }
    Ok(answers)
}
