//! The lines of `play`. Classes count from 1.
ghost use Rattle.printing.specs.Json.{fields_then};
ghost use Rattle.answers.specs.Plays.{numbered_refusal, class_by_number, rule_text, rule_fields, rule_refusal, method_refusal, play_verified};

use crate::command::Form;
use crate::refusal::{Refusal, RefusalFields};
use crate::verdicts::{FinalRuleFields, FinalRuleText, VerdictLine};
use printing::{END, More, Number, Object, Print, Quoted, Then, Word, WriteFailed};
use std::io::Write;
use verify::{MethodVerdict, PlayRule};

/// The file of this number is refused.
#[derive(Clone, Copy)]
pub struct NumberedRefusal {
    pub form: Form,
    pub number: usize,
    pub refusal: Refusal,
}

impl Print for NumberedRefusal {
    ghost text = { λ t. numbered_refusal t.form t.number t.refusal.0 };

    fn put<W: Write>(&self, out: &mut W) -> Result<(), WriteFailed> {
        let number = Number(self.number);
        match self.form {
            Form::Plain => {
                let refused = Then(Word(" refused "), Then(self.refusal, Word("\n")));
                Then(Word("class "), Then(number, refused)).put(out)
            }
            Form::Json => {
                let fields = RefusalFields(self.refusal.0, END);
                let refused = More("answer", Quoted("refused"), fields);
                Object("kind", Quoted("class"), More("position", number, refused)).put(out)
            }
        }
    }
}

/// A rule that a class breaks: its number, and what breaks it.
#[derive(Clone, Copy)]
struct RuleText(PlayRule);

impl Print for RuleText {
    ghost text = { λ t. rule_text t.0 };

    fn put<W: Write>(&self, out: &mut W) -> Result<(), WriteFailed> {
        match self.0 {
            PlayRule::NotInHierarchy => Number(80_u64).put(out),
            PlayRule::Final(rule) => FinalRuleText(rule).put(out),
            PlayRule::ClassInPlayTwice => Number(83_u64).put(out),
        }
    }
}

/// A rule that a class breaks as fields of an object, and then the text after them.
#[derive(Clone, Copy)]
struct RuleFields<B>(PlayRule, B);

impl<B: Print + Copy> Print for RuleFields<B> {
    ghost text = { λ t. fields_then (rule_fields t.0) (B.text t.1) };

    fn put<W: Write>(&self, out: &mut W) -> Result<(), WriteFailed> {
        match self.0 {
            PlayRule::NotInHierarchy => More("number", Number(80_u64), self.1).put(out),
            PlayRule::Final(rule) => FinalRuleFields(rule, self.1).put(out),
            PlayRule::ClassInPlayTwice => More("number", Number(83_u64), self.1).put(out),
        }
    }
}

/// The class of this number is refused, as an object of JSON, and then the text after these fields.
#[derive(Clone, Copy)]
struct ClassByNumber<B>(usize, B);

impl<B: Print + Copy> Print for ClassByNumber<B> {
    ghost text = { λ t. class_by_number t.0 (B.text t.1) };

    fn put<W: Write>(&self, out: &mut W) -> Result<(), WriteFailed> {
        let refused = More("answer", Quoted("refused"), self.1);
        let position = More("position", Number(self.0), refused);
        Object("kind", Quoted("class"), position).put(out)
    }
}

/// The class of this number breaks a rule.
#[derive(Clone, Copy)]
pub struct RuleRefusal {
    pub form: Form,
    pub number: usize,
    pub rule: PlayRule,
}

impl Print for RuleRefusal {
    ghost text = { λ t. rule_refusal t.form t.number t.rule };

    fn put<W: Write>(&self, out: &mut W) -> Result<(), WriteFailed> {
        let position = self.number;
        match self.form {
            Form::Plain => {
                let refused = Then(Word(" refused "), Then(RuleText(self.rule), Word("\n")));
                Then(Word("class "), Then(Number(position), refused)).put(out)
            }
            Form::Json => ClassByNumber(position, RuleFields(self.rule, END)).put(out),
        }
    }
}

/// A method of the class of this number is refused.
#[derive(Clone, Copy)]
pub struct MethodRefusal<'a> {
    pub form: Form,
    pub number: usize,
    pub method: MethodVerdict<'a>,
}

impl<'a> Print for MethodRefusal<'a> {
    ghost text = { λ t. method_refusal t.form t.number t.method };

    fn put<W: Write>(&self, out: &mut W) -> Result<(), WriteFailed> {
        let (form, method) = (self.form, self.method);
        let line = VerdictLine { form, method };
        let position = self.number;
        match form {
            Form::Plain => {
                let class = Then(Number(position), Then(Word(" "), line));
                Then(Word("class "), class).put(out)
            }
            Form::Json => {
                let number = More("number", Number(84_u64), END);
                Then(ClassByNumber(position, number), line).put(out)
            }
        }
    }
}

/// All methods of the classes are verified.
#[derive(Clone, Copy)]
pub struct AllVerified(pub Form);

impl Print for AllVerified {
    ghost text = { λ t. play_verified t.0 };

    fn put<W: Write>(&self, out: &mut W) -> Result<(), WriteFailed> {
        match self.0 {
            Form::Plain => Word("play verified\n").put(out),
            Form::Json => {
                let verified = More("answer", Quoted("verified"), END);
                Object("kind", Quoted("play"), verified).put(out)
            }
        }
    }
}
