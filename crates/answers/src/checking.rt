//! The command `check`: whether a file is a class file that is well formed.
ghost use Rattle.answers.specs.Answers.{Answered, CheckTells, FileSays};
ghost use Rattle.answers.specs.Files.{read_view};
ghost use Rattle.answers.specs.Texts.{ok_line};

use crate::command::Form;
use crate::fault::AnswerFault;
use crate::reads::InputFile;
use crate::telling::{refuse, tell};
use printing::{END, More, Object, Print, Quoted, Word, WriteFailed};
use std::alloc::Global;
use std::io::Write;
use verify::class_file;

/// The line of a class that is well formed.
#[derive(Clone, Copy)]
struct OkLine(Form);

impl Print for OkLine {
    ghost text = { λ t. ok_line t.0 };

    fn put<W: Write>(&self, out: &mut W) -> Result<(), WriteFailed> {
        match self.0 {
            Form::Plain => Word("ok\n").put(out),
            Form::Json => {
                let ok = More("answer", Quoted("ok"), END);
                Object("kind", Quoted("file"), ok).put(out)
            }
        }
    }
}

/// Answers `check` of a file.
pub fn check<W: Write>(
    alloc: Global,
    form: Form,
    file: InputFile<'_>,
    out: &mut W,
) -> Result<u8, AnswerFault>
    ensures { Answered (FileSays form (CheckTells form) (read_view file.entry)) (W.contents out.old)
        (W.contents out.new) result }
{
    match class_file(alloc, file.as_read()) {
        Ok(_class) => tell(&OkLine(form), 0, out),
        Err(fault) => refuse(form, fault, out),
    }
}
