//! Answers a command.
ghost use Rattle.std.specs.Prelude.{◌≡◌, map, Err, true};
ghost use Rattle.answers.specs.Answers.{Answered, Says, has_lost, is_lost};
ghost use Rattle.answers.specs.Files.{file_view, files_view, input_view, judged_file, known_file};
ghost use Rattle.answers.specs.declared.fault.AnswerFault.TheVariants.{OutOfMemory};

use crate::checking::check;
use crate::command::Command;
use crate::fault::AnswerFault;
use crate::manner::Manner;
use crate::playing::play;
use crate::reads::{InputFile, InputFiles};
use crate::showing::show;
use crate::verifying::verify;
use crate::verifying_each::verify_each;
use classfile::{CutShort, Profile};
use layout::ReadFault;
use std::alloc::Global;
use std::hash::BuildHasher;
use std::io::Write;

/// Writes the answer to a command about these files, and returns its status. `reads` has for each file its bytes, or
/// those that were read of it and why it was not read to the end of its class. Where there are no files, nothing is
/// written.
///
/// 1 where memory ran out, also while a file was read: then nothing was written. 19 where a write fails or takes
/// nothing: then a prefix of the text was written.
pub fn answer<W: Write, S: BuildHasher + Drop>(
    alloc: Global,
    command: Command,
    reads: &[Result<Vec<u8>, CutShort>],
    hasher: S,
    out: &mut W,
) -> Result<u8, AnswerFault>
    ensures answered { Answered (Says command (map input_view reads.now)) (W.contents out.old)
        (W.contents out.new) result }
    ensures memory { has_lost (map input_view reads.now) ≡ true → result ≡ Err OutOfMemory }
{
    if has_lost(reads) {
        return Err(AnswerFault::OutOfMemory);
    }
    match reads {
        [] => Ok(0),
        [read, others @ ..] => match command {
            Command::Check(form, profile) => check(alloc, form, known(profile, read), out),
            Command::Show(profile) => show(alloc, known(profile, read), out),
            Command::Verify(form, profile) => {
                let (file, known) = (judged(profile, read), all_known(profile, others));
                let manner = Manner::Told(form);
                verify(alloc, manner, profile, file, known, hasher, out)
            }
            Command::Explain(form, profile) => {
                let (file, known) = (judged(profile, read), all_known(profile, others));
                let manner = Manner::Explained(form);
                verify(alloc, manner, profile, file, known, hasher, out)
            }
            Command::Play(form, profile) => play(alloc, form, profile, reads, hasher, out),
            Command::VerifyEach {
                form,
                profile,
                classes,
            } => verify_each(alloc, form, profile, classes, reads, hasher, out),
        },
    }
}

/// The file of a class that is judged by a profile.
pub fn judged<'a>(profile: Profile, read: &'a Result<Vec<u8>, CutShort>) -> InputFile<'a>
    ensures { file_view result ≡ judged_file profile (input_view read.now) }
{
    let versions = profile.judged_versions();
    InputFile { read, versions }
}

/// The file of a class that is read, and not judged.
fn known<'a>(profile: Profile, read: &'a Result<Vec<u8>, CutShort>) -> InputFile<'a>
    ensures { file_view result ≡ known_file profile (input_view read.now) }
{
    let versions = profile.known_versions();
    InputFile { read, versions }
}

/// The files of classes that are read, and not judged.
fn all_known<'a>(profile: Profile, reads: &'a [Result<Vec<u8>, CutShort>]) -> InputFiles<'a>
    ensures { files_view result ≡ map (known_file profile) (map input_view reads.now) }
{
    let versions = profile.known_versions();
    InputFiles { reads, versions }
}

fn is_lost(read: &Result<Vec<u8>, CutShort>) -> bool
    ensures { result ≡ is_lost (input_view read.now) }
{
    match read {
        Err(fault) => matches!(fault.why, ReadFault::OutOfMemory),
        Ok(_) => false,
    }
}

/// True where memory ran out while one of the files was read.
fn has_lost(reads: &[Result<Vec<u8>, CutShort>]) -> bool
    ensures { result ≡ has_lost (map input_view reads.now) }
{
    for read in reads {
        if is_lost(read) {
            return true;
        }
    }
    false
}
