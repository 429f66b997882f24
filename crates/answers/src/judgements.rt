//! The lines of `verify-each`. Files count from 1.
ghost use Rattle.std.specs.Prelude.{◌≡◌};
ghost use Rattle.printing.specs.Json.{fields_then};
ghost use Rattle.answers.specs.Judgements.{outside_refusal, judgement_lines, class_text, class_fields, file_line, numbered_lines, lines_from, judgement_status, worst_status};

use crate::command::Form;
use crate::refusal::Refusal;
use crate::verdicts::{ClassRefusal, FinalRefusal, ReportText};
use printing::{
    END, More, Number, Object, Print, Quoted, QuotedSpelled, Spelled, Then, Word, WriteFailed,
};
use std::io::Write;
use verify::{Judgement, Report};

/// The refusal of a class that the hierarchy does not have.
#[derive(Clone, Copy)]
struct OutsideRefusal(Form);

impl Print for OutsideRefusal {
    ghost text = { λ t. outside_refusal t.0 };

    fn put<W: Write>(&self, out: &mut W) -> Result<(), WriteFailed> {
        match self.0 {
            Form::Plain => Word("class refused 80\n").put(out),
            Form::Json => {
                let number = More("number", Number(80_u64), END);
                let refused = More("answer", Quoted("refused"), number);
                Object("kind", Quoted("class"), refused).put(out)
            }
        }
    }
}

/// The lines of a report.
fn report_text<'r, 'a>(form: Form, report: &'r Report<'a>) -> ReportText<'r, 'a>
    ensures form { result.form ≡ form }
    ensures methods { result.methods.now ≡ report.now.methods.items }
{
    let methods = &report.methods;
    ReportText { form, methods }
}

/// The answer about a file.
#[derive(Clone, Copy)]
struct JudgementLines<'r, 'a> {
    form: Form,
    judgement: &'r Judgement<'a>,
}

impl<'r, 'a> Print for JudgementLines<'r, 'a> {
    ghost text = { λ t. judgement_lines t.form t.judgement.now };

    fn put<W: Write>(&self, out: &mut W) -> Result<(), WriteFailed> {
        let form = self.form;
        match self.judgement {
            Judgement::Reported { report, .. } => report_text(form, report).put(out),
            Judgement::Refused(fault) => {
                let refusal = Refusal(*fault);
                ClassRefusal { form, refusal }.put(out)
            }
            Judgement::NotInHierarchy { .. } => OutsideRefusal(form).put(out),
            Judgement::Final { rule, .. } => {
                let rule = *rule;
                FinalRefusal { form, rule }.put(out)
            }
        }
    }
}

/// The name of the class that a file is, where there is one.
#[derive(Clone, Copy)]
struct ClassText<'r, 'a>(&'r Judgement<'a>);

impl<'r, 'a> Print for ClassText<'r, 'a> {
    ghost text = { λ t. class_text t.0.now };

    fn put<W: Write>(&self, out: &mut W) -> Result<(), WriteFailed> {
        match self.0 {
            Judgement::Refused(_) => Word("").put(out),
            Judgement::Reported { name, .. }
            | Judgement::NotInHierarchy { name }
            | Judgement::Final { name, .. } => Then(Word(" "), Spelled(name)).put(out),
        }
    }
}

/// The name of that class as a field, and then the text after it.
#[derive(Clone, Copy)]
struct ClassFields<'r, 'a, B>(&'r Judgement<'a>, B);

impl<'r, 'a, B: Print + Copy> Print for ClassFields<'r, 'a, B> {
    ghost text = { λ t. fields_then (class_fields t.0.now) (B.text t.1) };

    fn put<W: Write>(&self, out: &mut W) -> Result<(), WriteFailed> {
        match self.0 {
            Judgement::Refused(_) => self.1.put(out),
            Judgement::Reported { name, .. }
            | Judgement::NotInHierarchy { name }
            | Judgement::Final { name, .. } => More("name", QuotedSpelled(name), self.1).put(out),
        }
    }
}

/// The line with the number of a file and the name of its class.
#[derive(Clone, Copy)]
struct FileLine<'r, 'a> {
    form: Form,
    /// It counts from 1.
    number: usize,
    judgement: &'r Judgement<'a>,
}

impl<'r, 'a> Print for FileLine<'r, 'a> {
    ghost text = { λ t. file_line t.form t.number t.judgement.now };

    fn put<W: Write>(&self, out: &mut W) -> Result<(), WriteFailed> {
        let number = Number(self.number);
        match self.form {
            Form::Plain => {
                let class = Then(ClassText(self.judgement), Word("\n"));
                Then(Word("file "), Then(number, class)).put(out)
            }
            Form::Json => {
                let class = ClassFields(self.judgement, END);
                let position = More("position", number, class);
                Object("kind", Quoted("file"), position).put(out)
            }
        }
    }
}

/// The answer about a file, after a line with its number and the name of its class.
#[derive(Clone, Copy)]
struct NumberedLines<'r, 'a> {
    form: Form,
    number: usize,
    judgement: &'r Judgement<'a>,
}

impl<'r, 'a> Print for NumberedLines<'r, 'a> {
    ghost text = { λ t. numbered_lines t.form t.number t.judgement.now };

    fn put<W: Write>(&self, out: &mut W) -> Result<(), WriteFailed> {
        let NumberedLines {
            form,
            number,
            judgement,
        } = *self;
        let line = FileLine {
            form,
            number,
            judgement,
        };
        Then(line, JudgementLines { form, judgement }).put(out)
    }
}

/// The answers about many files, one after the other.
#[derive(Clone, Copy)]
pub struct JudgementsText<'r, 'a> {
    pub form: Form,
    pub judgements: &'r [Judgement<'a>],
}

impl<'r, 'a> Print for JudgementsText<'r, 'a> {
    ghost text = { λ t. lines_from t.form 1 t.judgements.now };

    fn put<W: Write>(&self, out: &mut W) -> Result<(), WriteFailed> {
        let (form, judgements) = (self.form, self.judgements);
        for (i, judgement) in judgements.iter().enumerate() {
            let number = i + 1;
            let lines = NumberedLines {
                form,
                number,
                judgement,
            };
            match lines.put(out) {
                Ok(()) => {}
                Err(failed) => return Err(failed),
            }
        }
        Ok(())
    }
}

/// The status that goes with an answer.
fn judgement_status(judgement: &Judgement<'_>) -> u8
    ensures { result ≡ judgement_status judgement.now }
{
    match judgement {
        Judgement::Reported { report, .. } => report_text(Form::Plain, report).status(),
        Judgement::Refused(fault) => Refusal(*fault).status(),
        Judgement::NotInHierarchy { .. } | Judgement::Final { .. } => 1,
    }
}

impl<'r, 'a> JudgementsText<'r, 'a> {
    /// The status that goes with it: the greatest that goes with one of the answers.
    pub fn status(&self) -> u8
        ensures { result ≡ worst_status self.now.judgements.now }
    {
        let mut worst = 0;
        for judgement in self.judgements {
            let status = judgement_status(judgement);
            if worst < status {
                worst = status;
            }
        }
        worst
    }
}
