//! The commands `verify` and `explain` beside classes that are known by their summaries.
ghost use Rattle.std.specs.Prelude.{◌≡◌, ◌≢◌, List, Err, IfOk, map};
ghost use Rattle.classfile.specs.declared.profile.Profile.{Profile as ProfileFact};
ghost use Rattle.classfile.specs.Values.{Class};
ghost use Rattle.verify.specs.Beside.{AreBeside, AnswersBeside, IsOfNoKnown};
ghost use Rattle.verify.specs.Reports.{IsReport};
ghost use Rattle.verify.specs.declared.report.Report.{Report};
ghost use Rattle.answers.specs.Files.{File, file_view, input_view, judged_file, read_view, reads_of};
ghost use Rattle.answers.specs.Answers.{Answered};
ghost use Rattle.answers.specs.Verdicts.{BesideSays};
ghost use Rattle.answers.specs.declared.manner.Manner.TheVariants as manners;

use crate::answering::judged;
use crate::command::Form;
use crate::fault::AnswerFault;
use crate::manner::Manner;
use crate::reads::InputFile;
use crate::refusing::HierarchyTold;
use crate::telling::tell;
use crate::verdicts::ReportText;
use crate::verifying::{explain, refuse_class, refuse_final};
use classfile::{CutShort, Profile};
use std::alloc::Global;
use std::hash::BuildHasher;
use std::io::Write;
use verify::{AmongFault, KnownSummaries, explain_beside};

/// Writes why there are no verdicts on the class in a file, where no known class is at fault.
fn refuse<W: Write>(
    alloc: Global,
    manner: Manner,
    file: InputFile<'_>,
    fault: AmongFault<'_>,
    out: &mut W,
) -> Result<u8, AnswerFault>
    requires { IsOfNoKnown fault }
    ensures { (profile : ProfileFact) (beside : Class → List File)
        → AnswersBeside (λ classes c (report : Report). IsReport classes c report.methods.items) profile
        (read_view file.entry) (λ c. reads_of (beside c)) (Err fault.entry)
        → Answered (BesideSays manner profile (file_view file.entry) beside) (W.contents out.old) (W.contents out.new)
        result }
{
    match fault {
        AmongFault::OutOfMemory => Err(AnswerFault::OutOfMemory),
        AmongFault::Refused(fault) => refuse_class(alloc, manner, file, fault, out),
        AmongFault::NoHierarchy(fault) => tell(&HierarchyTold { manner, fault }, 1, out),
        AmongFault::Final(rule) => refuse_final(alloc, manner, file, rule, out),
        AmongFault::KnownRefused { .. } => unreachable!(),
    }
}

/// Answers `verify` in a form, by a profile: about the class in a file, beside the known classes that stand with it.
fn tell_verdicts<'a, 'k: 'a, S: BuildHasher + Drop, W: Write>(
    alloc: Global,
    form: Form,
    profile: Profile,
    file: InputFile<'a>,
    known: &KnownSummaries<'k>,
    hasher: S,
    out: &mut W,
) -> Result<u8, AnswerFault>
    ensures { (beside : Class → List File) → AreBeside (λ c. reads_of (beside c)) known.now
        → Answered (BesideSays (manners.Told form) profile (file_view file.entry) beside) (W.contents out.old)
        (W.contents out.new) result }
{
    match explain_beside(alloc, profile, file.as_read(), known, false, hasher) {
        Ok(found) => {
            let methods = &found.report.methods;
            let text = ReportText { form, methods };
            tell(&text, text.status(), out)
        }
        Err(fault) => refuse(alloc, Manner::Told(form), file, fault, out),
    }
}

/// Answers `explain`, as [`tell_verdicts`] answers `verify`.
fn explain_verdicts<'a, 'k: 'a, S: BuildHasher + Drop, W: Write>(
    alloc: Global,
    form: Form,
    profile: Profile,
    file: InputFile<'a>,
    known: &KnownSummaries<'k>,
    hasher: S,
    out: &mut W,
) -> Result<u8, AnswerFault>
    ensures { (beside : Class → List File) → AreBeside (λ c. reads_of (beside c)) known.now
        → Answered (BesideSays (manners.Explained form) profile (file_view file.entry) beside) (W.contents out.old)
        (W.contents out.new) result }
{
    match explain_beside(alloc, profile, file.as_read(), known, true, hasher) {
        Ok(found) => explain(alloc, form, file, &found, out),
        Err(fault) => refuse(alloc, Manner::Explained(form), file, fault, out),
    }
}

/// Writes the answer to `verify` or to `explain` about the class in a file and the known classes of other names that
/// stand where it is in front of them, in their order, and returns its status. `read` has the bytes of the file, or those
/// that were read of it and why it was not read to the end of its class. Nothing known is decoded again.
///
/// 1 where memory ran out: then nothing was written. 19 where a write fails or takes nothing: then a prefix of the text
/// was written.
pub fn answer_beside<'a, 'k: 'a, S: BuildHasher + Drop, W: Write>(
    alloc: Global,
    manner: Manner,
    profile: Profile,
    read: &'a Result<Vec<u8>, CutShort>,
    known: &KnownSummaries<'k>,
    hasher: S,
    out: &mut W,
) -> Result<u8, AnswerFault>
    ensures { (beside : Class → List File) → AreBeside (λ c. reads_of (beside c)) known.now
        → Answered (BesideSays manner profile (judged_file profile (input_view read.now)) beside) (W.contents out.old)
        (W.contents out.new) result }
{
    let file = judged(profile, read);
    match manner {
        Manner::Told(form) => tell_verdicts(alloc, form, profile, file, known, hasher, out),
        Manner::Explained(form) => {
            explain_verdicts(alloc, form, profile, file, known, hasher, out)
        }
    }
}
