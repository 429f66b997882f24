//! Writes why the program ends without an answer.
ghost use Rattle.command_line.specs.Texts.{complaint_text};
ghost use Rattle.command_line.specs.Writing.{WritesOrFails};

use crate::fault::MainFault;
use answers::AnswerFault;
use printing::{Number, Print, Then, Word, WriteFailed};
use std::io::Write;

impl Print for MainFault {
    ghost text = { complaint_text };

    fn put<W: Write>(&self, out: &mut W) -> Result<(), WriteFailed> {
        match *self {
            MainFault::NoRandom => Word("no random words\n").put(out),
            MainFault::CannotOpen(i) => Then(
                Word("file "),
                Then(Number(i as u64), Word(" cannot be opened\n")),
            )
            .put(out),
            MainFault::Memory => Word("refused 1\n").put(out),
            MainFault::NotWritten => Word("refused 19\n").put(out),
        }
    }
}

/// Writes the line for what went wrong; 19 where a write fails or takes nothing. It takes no memory.
pub fn complaint<W: Write>(fault: &MainFault, out: &mut W) -> Result<(), AnswerFault>
    ensures { WritesOrFails (W.contents out.old) (W.contents out.new) (complaint_text fault.now) result }
{
    match fault.put(out) {
        Ok(()) => Ok(()),
        Err(failed) => Err(AnswerFault::from(failed)),
    }
}
