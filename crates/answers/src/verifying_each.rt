//! The command `verify-each`: the verdicts on the methods of each of many classes.
ghost use Rattle.std.specs.Prelude.{map, take, drop};
ghost use Rattle.answers.specs.Files.{files_view, input_view, judged_file, known_file, reads_of};
ghost use Rattle.answers.specs.Answers.{Answered};
ghost use Rattle.answers.specs.Judgements.{EachSays};

use crate::command::Form;
use crate::fault::AnswerFault;
use crate::judgements::JudgementsText;
use crate::reads::{InputFiles, file_reads};
use crate::telling::tell;
use crate::verdicts::HierarchyRefusal;
use classfile::{CutShort, Profile};
use std::alloc::Global;
use std::hash::BuildHasher;
use std::io::Write;
use verify::{EachFault, verify_each as judge_each};

/// Answers `verify-each` in a form, by a profile: about the classes in these files, among one another and the known classes.
fn verify_among<'a, S: BuildHasher + Drop, W: Write>(
    alloc: Global,
    form: Form,
    profile: Profile,
    classes: InputFiles<'a>,
    known: InputFiles<'a>,
    hasher: S,
    out: &mut W,
) -> Result<u8, AnswerFault>
    ensures { Answered (EachSays form profile (reads_of (files_view classes.entry)) (reads_of (files_view known.entry)))
        (W.contents out.old) (W.contents out.new) result }
{
    let files = match file_reads(alloc, classes) {
        Ok(files) => files,
        Err(fault) => return Err(fault),
    };
    let others = match file_reads(alloc, known) {
        Ok(others) => others,
        Err(fault) => return Err(fault),
    };
    match judge_each(alloc, profile, &files, &others, hasher) {
        Ok(judgements) => {
            let judgements = &judgements;
            let text = JudgementsText { form, judgements };
            tell(&text, text.status(), out)
        }
        Err(EachFault::OutOfMemory) => Err(AnswerFault::OutOfMemory),
        Err(EachFault::NoHierarchy(fault)) => tell(&HierarchyRefusal { form, fault }, 1, out),
    }
}

/// Answers `verify-each` in a form, by a profile: about the classes in the first so many files. The others are files of known
/// classes.
pub fn verify_each<S: BuildHasher + Drop, W: Write>(
    alloc: Global,
    form: Form,
    profile: Profile,
    classes: usize,
    reads: &[Result<Vec<u8>, CutShort>],
    hasher: S,
    out: &mut W,
) -> Result<u8, AnswerFault>
    ensures { let files = map input_view reads.now in
        Answered (EachSays form profile (reads_of (map (judged_file profile) (take classes files)))
        (reads_of (map (known_file profile) (drop classes files)))) (W.contents out.old) (W.contents out.new) result }
{
    let (files, others) = reads.split_at(classes.min(reads.len()));
    let files = InputFiles {
        reads: files,
        versions: profile.judged_versions(),
    };
    let known = InputFiles {
        reads: others,
        versions: profile.known_versions(),
    };
    verify_among(alloc, form, profile, files, known, hasher, out)
}
