//! The command `play`: whether classes may run together.
ghost use Rattle.std.specs.Prelude.{◌≡◌, List, map};
ghost use Rattle.classfile.specs.declared.profile.Profile.{Profile as ProfileFact};
ghost use Rattle.classfile.specs.Versions.{judged_versions};
ghost use Rattle.verify.specs.Files.{Read};
ghost use Rattle.verify.specs.Together.{NotTogether};
ghost use Rattle.answers.specs.Files.{input_read};
ghost use Rattle.answers.specs.Answers.{Answered};
ghost use Rattle.answers.specs.Plays.{PlaySays};

use crate::command::Form;
use crate::fault::AnswerFault;
use crate::plays::{AllVerified, MethodRefusal, NumberedRefusal, RuleRefusal};
use crate::reads::{InputFiles, file_reads};
use crate::refusal::Refusal;
use crate::telling::tell;
use crate::verdicts::HierarchyRefusal;
use classfile::{CutShort, Profile};
use std::alloc::Global;
use std::hash::BuildHasher;
use std::io::Write;
use verify::{TogetherFault, verify_together_under};

/// Writes why the classes may not run together.
fn refuse<W: Write>(form: Form, fault: TogetherFault<'_>, out: &mut W) -> Result<u8, AnswerFault>
    ensures { (profile : ProfileFact) (reads : List Read) → NotTogether profile reads fault.entry
        → Answered (PlaySays form profile reads) (W.contents out.old) (W.contents out.new) result }
{
    match fault {
        TogetherFault::OutOfMemory => Err(AnswerFault::OutOfMemory),
        TogetherFault::Refused { number, fault } => {
            let refusal = Refusal(fault);
            let line = NumberedRefusal {
                form,
                number,
                refusal,
            };
            tell(&line, refusal.status(), out)
        }
        TogetherFault::NoHierarchy(fault) => tell(&HierarchyRefusal { form, fault }, 1, out),
        TogetherFault::Broken { number, rule } => {
            let line = RuleRefusal { form, number, rule };
            tell(&line, 1, out)
        }
        TogetherFault::NotVerified { number, method } => {
            let line = MethodRefusal {
                form,
                number,
                method,
            };
            tell(&line, 1, out)
        }
    }
}

/// Answers `play` of these files in a form, by a profile.
pub fn play<S: BuildHasher + Drop, W: Write>(
    alloc: Global,
    form: Form,
    profile: Profile,
    reads: &[Result<Vec<u8>, CutShort>],
    hasher: S,
    out: &mut W,
) -> Result<u8, AnswerFault>
    ensures { Answered (PlaySays form profile (map (input_read (judged_versions profile)) reads.now))
        (W.contents out.old) (W.contents out.new) result }
{
    let versions = profile.judged_versions();
    let files = match file_reads(alloc, InputFiles { reads, versions }) {
        Ok(files) => files,
        Err(fault) => return Err(fault),
    };
    match verify_together_under(alloc, profile, &files, hasher) {
        Ok(_) => tell(&AllVerified(form), 0, out),
        Err(fault) => refuse(form, fault, out),
    }
}
