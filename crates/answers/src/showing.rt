//! The command `show`: what a class file holds.
ghost use Rattle.answers.specs.Answers.{Answered, ShowTells, FileSays};
ghost use Rattle.answers.specs.Files.{read_view};
ghost use Rattle.answers.specs.declared.command.Form.TheVariants.{Plain};

use crate::command::Form;
use crate::fault::AnswerFault;
use crate::reads::InputFile;
use crate::telling::{refuse, tell};
use printing::Listing;
use std::alloc::Global;
use std::io::Write;
use verify::class_file;

/// Answers `show` of a file.
pub fn show<W: Write>(alloc: Global, file: InputFile<'_>, out: &mut W) -> Result<u8, AnswerFault>
    ensures { Answered (FileSays Plain ShowTells (read_view file.entry)) (W.contents out.old)
        (W.contents out.new) result }
{
    match class_file(alloc, file.as_read()) {
        Ok(class) => {
            let listing = Listing(&class);
            tell(&listing, u8::from(listing.is_refused()), out)
        }
        Err(fault) => refuse(Form::Plain, fault, out),
    }
}
