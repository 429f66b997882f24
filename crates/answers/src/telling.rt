//! Writes a text, and returns the status that goes with it.
ghost use Rattle.std.specs.Prelude.{◌≡◌, ◌≢◌};
ghost use Rattle.verify.specs.declared.files.FileFault.TheVariants.{OutOfMemory};
ghost use Rattle.answers.specs.Answers.{Answered};
ghost use Rattle.answers.specs.Files.{refusal_status};
ghost use Rattle.answers.specs.Texts.{refusal_line};

use crate::command::Form;
use crate::fault::AnswerFault;
use crate::refusal::{Refusal, RefusalLine};
use printing::Print;
use std::io::Write;
use verify::FileFault;

/// Writes a text, and returns the status that goes with it.
pub fn tell<T: Print, W: Write>(text: &T, status: u8, out: &mut W) -> Result<u8, AnswerFault>
    ensures { Answered (λ t s. (t ≡ T.text text.now) × (s ≡ status)) (W.contents out.old) (W.contents out.new) result }
{
    match text.put(out) {
        Ok(()) => Ok(status),
        Err(failed) => Err(AnswerFault::from(failed)),
    }
}

/// Writes the line of a file that is refused, and returns its status.
pub fn refuse<W: Write>(form: Form, fault: FileFault, out: &mut W) -> Result<u8, AnswerFault>
    ensures { Answered (λ t s. (fault ≢ OutOfMemory) × (t ≡ refusal_line form fault) × (s ≡ refusal_status fault))
        (W.contents out.old) (W.contents out.new) result }
{
    if let FileFault::OutOfMemory = fault {
        return Err(AnswerFault::OutOfMemory);
    }
    let refusal = Refusal(fault);
    tell(&RefusalLine { form, refusal }, refusal.status(), out)
}
