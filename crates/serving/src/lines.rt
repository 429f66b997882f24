//! The line that answers a class that is to be known, and the one with which the program ends where it stops.
ghost use Rattle.printing.specs.Json.{fields_then};
ghost use Rattle.serving.specs.Lines.{super_text, super_fields, known_line, refused_line, twice_line, fault_text, stop_line, serve_line};
ghost use Rattle.printing.specs.Writing.{Writes};

use crate::known::KnownFault;
use crate::stop::{ServeFault, Stop};
use answers::{Form, Refusal, RefusalFields};
use printing::{
    END, More, Number, Object, Print, Quoted, QuotedSpelled, Spelled, Then, Word, WriteFailed,
};
use std::io::Write;
use verify::FileFault;

/// The name of the superclass, or `none`.
#[derive(Clone, Copy)]
struct SuperName<'a>(Option<&'a [u8]>);

impl<'a> Print for SuperName<'a> {
    ghost use Rattle.std.specs.Prelude.{option_map};

    ghost text = { λ t. super_text (option_map (λ n. n.now) t.0) };

    fn put<W: Write>(&self, out: &mut W) -> Result<(), WriteFailed> {
        match self.0 {
            None => Word("none").put(out),
            Some(name) => Spelled(name).put(out),
        }
    }
}

/// The name of the superclass as a field, if there is one.
#[derive(Clone, Copy)]
struct SuperField<'a>(Option<&'a [u8]>);

impl<'a> Print for SuperField<'a> {
    ghost use Rattle.std.specs.Prelude.{option_map};
    ghost use Rattle.printing.specs.Json.{fields_behind};

    ghost text = { λ t. fields_behind (super_fields (option_map (λ n. n.now) t.0)) };

    fn put<W: Write>(&self, out: &mut W) -> Result<(), WriteFailed> {
        match self.0 {
            None => END.put(out),
            Some(name) => More("super", QuotedSpelled(name), END).put(out),
        }
    }
}

/// The line of a class that is known now.
#[derive(Clone, Copy)]
pub struct KnownLine<'a> {
    pub form: Form,
    pub name: &'a [u8],
    pub superclass: Option<&'a [u8]>,
}

impl<'a> Print for KnownLine<'a> {
    ghost use Rattle.std.specs.Prelude.{option_map};

    ghost text = { λ t. known_line t.form t.name.now (option_map (λ n. n.now) t.superclass) };

    fn put<W: Write>(&self, out: &mut W) -> Result<(), WriteFailed> {
        let superclass = self.superclass;
        match self.form {
            Form::Plain => {
                let behind = Then(Word(" super "), Then(SuperName(superclass), Word("\n")));
                Then(Word("known "), Then(Spelled(self.name), behind)).put(out)
            }
            Form::Json => {
                let name = More("name", QuotedSpelled(self.name), SuperField(superclass));
                Object("kind", Quoted("known"), More("answer", Quoted("ok"), name)).put(out)
            }
        }
    }
}

/// The line of a file that is no class that is well formed.
#[derive(Clone, Copy)]
pub struct RefusedLine {
    pub form: Form,
    pub fault: FileFault,
}

impl Print for RefusedLine {
    ghost text = { λ t. refused_line t.form t.fault };

    fn put<W: Write>(&self, out: &mut W) -> Result<(), WriteFailed> {
        match self.form {
            Form::Plain => {
                Then(
                    Word("known refused "),
                    Then(Refusal(self.fault), Word("\n")),
                )
                .put(out)
            }
            Form::Json => {
                let fields = RefusalFields(self.fault, END);
                let refused = More("answer", Quoted("refused"), fields);
                Object("kind", Quoted("known"), refused).put(out)
            }
        }
    }
}

/// The line of a class of whose name one is known already.
#[derive(Clone, Copy)]
pub struct TwiceLine(pub Form);

impl Print for TwiceLine {
    ghost text = { λ t. twice_line t.0 };

    fn put<W: Write>(&self, out: &mut W) -> Result<(), WriteFailed> {
        match self.0 {
            Form::Plain => Word("known refused 40\n").put(out),
            Form::Json => {
                let number = More("number", Number(40_u64), END);
                let refused = More("answer", Quoted("refused"), number);
                Object("kind", Quoted("known"), refused).put(out)
            }
        }
    }
}

/// Why the class in a known file does not become known.
#[derive(Clone, Copy)]
struct KnownFaultText(KnownFault);

impl Print for KnownFaultText {
    ghost text = { λ t. fault_text t.0 };

    fn put<W: Write>(&self, out: &mut W) -> Result<(), WriteFailed> {
        match self.0 {
            KnownFault::OutOfMemory => Word("1").put(out),
            KnownFault::Refused(fault) => Refusal(fault).put(out),
            KnownFault::Twice => Word("40").put(out),
        }
    }
}

impl Print for Stop {
    ghost text = { stop_line };

    fn put<W: Write>(&self, out: &mut W) -> Result<(), WriteFailed> {
        match self {
            Stop::OutOfMemory => Word("refused 1\n").put(out),
            Stop::NoRandom => Word("no random words\n").put(out),
            Stop::Cut => Word("a message is cut\n").put(out),
            Stop::NoKind => Word("a message has no kind\n").put(out),
            Stop::TooLong => Word("a message is too long\n").put(out),
            Stop::ReadFailed => Word("the messages cannot be read\n").put(out),
            Stop::NotWritten => Word("refused 19\n").put(out),
            Stop::TooMany => Word("too many messages\n").put(out),
        }
    }
}

impl Print for ServeFault {
    ghost text = { serve_line };

    fn put<W: Write>(&self, out: &mut W) -> Result<(), WriteFailed> {
        match *self {
            ServeFault::NotKnown { number, fault } => {
                let refused = Then(Word(" refused "), Then(KnownFaultText(fault), Word("\n")));
                Then(Word("known "), Then(Number(number), refused)).put(out)
            }
            ServeFault::Stopped(stop) => stop.put(out),
        }
    }
}

/// Writes the line for why not all messages were answered.
pub fn complaint<W: Write>(fault: &ServeFault, out: &mut W) -> Result<(), WriteFailed>
    ensures { Writes (W.contents out.old) (W.contents out.new) (serve_line fault.now) result }
{
    fault.put(out)
}
