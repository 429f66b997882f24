//! Why a file is not a well-formed class.
ghost use Rattle.std.specs.Prelude.{◌≡◌};
ghost use Rattle.printing.specs.Json.{fields_then};
ghost use Rattle.answers.specs.Texts.{refusal_text, refusal_fields, refusal_line};
ghost use Rattle.answers.specs.Files.{refusal_status};

use crate::command::Form;
use layout::ReadFault;
use printing::{
    END, FaultFields, More, Number, Object, PlaceFields, Print, Quoted, Then, Word, WriteFailed,
};
use std::io::Write;
use verify::FileFault;

/// Why a file is not a well-formed class, as it is written.
#[derive(Clone, Copy)]
pub struct Refusal(pub FileFault);

impl Refusal {
    /// The status with which the program ends: 2 where a read of the file failed (15), and otherwise 1.
    pub fn status(&self) -> u8
        ensures { result ≡ refusal_status self.now.0 }
    {
        match self.0 {
            FileFault::Unread(ReadFault::ReadFailed { .. }) => 2,
            FileFault::OutOfMemory
            | FileFault::Unread(_)
            | FileFault::NoClass(_)
            | FileFault::Malformed { .. } => 1,
        }
    }
}

impl Print for Refusal {
    ghost text = { λ t. refusal_text t.0 };

    fn put<W: Write>(&self, out: &mut W) -> Result<(), WriteFailed> {
        match self.0 {
            FileFault::OutOfMemory => Word("1").put(out),
            FileFault::Unread(fault) | FileFault::NoClass(fault) => fault.put(out),
            FileFault::Malformed { rule, place } => {
                Then(Number(u64::from(rule.number())), place).put(out)
            }
        }
    }
}

/// Why a file is not a well-formed class, as fields of an object, and then the text after them.
#[derive(Clone, Copy)]
pub struct RefusalFields<B>(pub FileFault, pub B);

impl<B: Print + Copy> Print for RefusalFields<B> {
    ghost text = { λ t. fields_then (refusal_fields t.0) (B.text t.1) };

    fn put<W: Write>(&self, out: &mut W) -> Result<(), WriteFailed> {
        match self.0 {
            FileFault::OutOfMemory => More("number", Number(1_u64), self.1).put(out),
            FileFault::Unread(fault) | FileFault::NoClass(fault) => {
                FaultFields(fault, self.1).put(out)
            }
            FileFault::Malformed { rule, place } => {
                let place = PlaceFields(place, self.1);
                More("number", Number(u64::from(rule.number())), place).put(out)
            }
        }
    }
}

/// The line of a file that is refused.
#[derive(Clone, Copy)]
pub struct RefusalLine {
    pub form: Form,
    pub refusal: Refusal,
}

impl Print for RefusalLine {
    ghost text = { λ t. refusal_line t.form t.refusal.0 };

    fn put<W: Write>(&self, out: &mut W) -> Result<(), WriteFailed> {
        match self.form {
            Form::Plain => Then(Word("refused "), Then(self.refusal, Word("\n"))).put(out),
            Form::Json => {
                let fields = RefusalFields(self.refusal.0, END);
                let refused = More("answer", Quoted("refused"), fields);
                Object("kind", Quoted("file"), refused).put(out)
            }
        }
    }
}
