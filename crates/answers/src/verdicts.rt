//! The lines of `verify`.
ghost use Rattle.std.specs.Prelude.{◌≡◌};
ghost use Rattle.std.specs.List.{flat_map};
ghost use Rattle.printing.specs.Writing.{Writes};
ghost use Rattle.printing.specs.Json.{fields_then};
ghost use Rattle.answers.specs.Verdicts.{class_object, class_refusal, known_object, file_object, known_refusal, fault_name, named_field, name_fields, hierarchy_object, hierarchy_refusal, final_rule_text, final_rule_fields, final_refusal, reason_ending, reason_fields, verdict_text, verdict_fields, verdict_object, verdict_line, is_refusal, report_status};

use crate::command::Form;
use crate::refusal::{Refusal, RefusalFields};
use classfile::Place;
use hierarchy::HierarchyFault;
use printing::{
    END, Lines, More, Name, Number, Object, PlaceFields, Print, Quoted, QuotedName, QuotedSpelled,
    Spelled, Then, Word, WriteFailed, put_lines,
};
use rules::Reason;
use std::io::Write;
use verify::{FileFault, FinalRule, MethodVerdict, Verdict};

/// The refusal of the file that is to be verified, as an object of JSON, and then the text after its fields.
#[derive(Clone, Copy)]
struct ClassObject<B>(FileFault, B);

impl<B: Print + Copy> Print for ClassObject<B> {
    ghost text = { λ t. class_object t.0 (B.text t.1) };

    fn put<W: Write>(&self, out: &mut W) -> Result<(), WriteFailed> {
        let refused = More("answer", Quoted("refused"), RefusalFields(self.0, self.1));
        Object("kind", Quoted("class"), refused).put(out)
    }
}

/// The refusal of the file that is to be verified.
#[derive(Clone, Copy)]
pub struct ClassRefusal {
    pub form: Form,
    pub refusal: Refusal,
}

impl Print for ClassRefusal {
    ghost text = { λ t. class_refusal t.form t.refusal.0 };

    fn put<W: Write>(&self, out: &mut W) -> Result<(), WriteFailed> {
        match self.form {
            Form::Plain => Then(Word("class refused "), Then(self.refusal, Word("\n"))).put(out),
            Form::Json => ClassObject(self.refusal.0, END).put(out),
        }
    }
}

/// The refusal of the known class of this number, as an object of JSON, and then the text after its fields.
#[derive(Clone, Copy)]
struct KnownObject<B> {
    /// It counts from 1.
    number: usize,
    fault: FileFault,
    behind: B,
}

impl<B: Print + Copy> Print for KnownObject<B> {
    ghost text = { λ t. known_object t.number t.fault (B.text t.behind) };

    fn put<W: Write>(&self, out: &mut W) -> Result<(), WriteFailed> {
        let fields = RefusalFields(self.fault, self.behind);
        let refused = More("answer", Quoted("refused"), fields);
        let position = More("position", Number(self.number), refused);
        Object("kind", Quoted("known"), position).put(out)
    }
}

/// The refusal of a file as an object of JSON, and then the text after its fields.
#[derive(Clone, Copy)]
pub struct FileObject<B> {
    /// The number of a known class, from 1; none for the file that is to be verified.
    pub position: Option<usize>,
    pub fault: FileFault,
    pub behind: B,
}

impl<B: Print + Copy> Print for FileObject<B> {
    ghost text = { λ t. file_object t.position t.fault (B.text t.behind) };

    fn put<W: Write>(&self, out: &mut W) -> Result<(), WriteFailed> {
        let fault = self.fault;
        let behind = self.behind;
        match self.position {
            None => ClassObject(fault, behind).put(out),
            Some(number) => KnownObject {
                number,
                fault,
                behind,
            }
            .put(out),
        }
    }
}

/// The refusal of the known class of this number.
#[derive(Clone, Copy)]
pub struct KnownRefusal {
    pub form: Form,
    /// It counts from 1.
    pub number: usize,
    pub refusal: Refusal,
}

impl Print for KnownRefusal {
    ghost text = { λ t. known_refusal t.form t.number t.refusal.0 };

    fn put<W: Write>(&self, out: &mut W) -> Result<(), WriteFailed> {
        let number = Number(self.number);
        match self.form {
            Form::Plain => {
                let refused = Then(Word(" refused "), Then(self.refusal, Word("\n")));
                Then(Word("known "), Then(number, refused)).put(out)
            }
            Form::Json => KnownObject {
                number: self.number,
                fault: self.refusal.0,
                behind: END,
            }
            .put(out),
        }
    }
}

/// The name of the class that has a fault, where the fault has one.
#[derive(Clone, Copy)]
struct FaultName<'a>(HierarchyFault<'a>);

impl<'a> Print for FaultName<'a> {
    ghost text = { λ t. fault_name t.0 };

    fn put<W: Write>(&self, out: &mut W) -> Result<(), WriteFailed> {
        match self.0 {
            HierarchyFault::ClassTwice { name }
            | HierarchyFault::Cycle { name }
            | HierarchyFault::SuperMissing { name }
            | HierarchyFault::BadArrayInterface { name }
            | HierarchyFault::InterfaceSuper { name } => Then(Word(" "), Spelled(name)).put(out),
            HierarchyFault::OutOfMemory
            | HierarchyFault::NoObject
            | HierarchyFault::TooManyClasses => Word("").put(out),
        }
    }
}

/// Writes the name of a class as a field, and then the text after it.
fn put_named<W: Write, B: Print + Copy>(
    out: &mut W,
    name: &[u8],
    behind: B,
) -> Result<(), WriteFailed>
    ensures { Writes (W.contents out.old) (W.contents out.new)
        (fields_then (named_field name.now) (B.text behind)) result }
{
    More("name", QuotedSpelled(name), behind).put(out)
}

/// The name of the class that has a fault, as a field where the fault has one, and then the text after it.
#[derive(Clone, Copy)]
struct NameFields<'a, B>(HierarchyFault<'a>, B);

impl<'a, B: Print + Copy> Print for NameFields<'a, B> {
    ghost text = { λ t. fields_then (name_fields t.0) (B.text t.1) };

    fn put<W: Write>(&self, out: &mut W) -> Result<(), WriteFailed> {
        match self.0 {
            HierarchyFault::OutOfMemory => self.1.put(out),
            HierarchyFault::ClassTwice { name } => put_named(out, name, self.1),
            HierarchyFault::Cycle { name } => put_named(out, name, self.1),
            HierarchyFault::SuperMissing { name } => put_named(out, name, self.1),
            HierarchyFault::NoObject => self.1.put(out),
            HierarchyFault::BadArrayInterface { name } => put_named(out, name, self.1),
            HierarchyFault::TooManyClasses => self.1.put(out),
            HierarchyFault::InterfaceSuper { name } => put_named(out, name, self.1),
        }
    }
}

/// The refusal of classes that are no hierarchy, as an object of JSON, and then the text after its fields.
#[derive(Clone, Copy)]
pub struct HierarchyObject<'a, B>(pub HierarchyFault<'a>, pub B);

impl<'a, B: Print + Copy> Print for HierarchyObject<'a, B> {
    ghost text = { λ t. hierarchy_object t.0 (B.text t.1) };

    fn put<W: Write>(&self, out: &mut W) -> Result<(), WriteFailed> {
        let name = NameFields(self.0, self.1);
        let number = More("number", Number(u64::from(self.0.number())), name);
        let refused = More("answer", Quoted("refused"), number);
        Object("kind", Quoted("hierarchy"), refused).put(out)
    }
}

/// The refusal of classes that are no hierarchy.
#[derive(Clone, Copy)]
pub struct HierarchyRefusal<'a> {
    pub form: Form,
    pub fault: HierarchyFault<'a>,
}

impl<'a> Print for HierarchyRefusal<'a> {
    ghost text = { λ t. hierarchy_refusal t.form t.fault };

    fn put<W: Write>(&self, out: &mut W) -> Result<(), WriteFailed> {
        match self.form {
            Form::Plain => {
                let number = Number(u64::from(self.fault.number()));
                let name = Then(FaultName(self.fault), Word("\n"));
                Then(Word("hierarchy refused "), Then(number, name)).put(out)
            }
            Form::Json => HierarchyObject(self.fault, END).put(out),
        }
    }
}

/// A rule on final classes and methods: its number, and then the method that breaks it.
#[derive(Clone, Copy)]
pub struct FinalRuleText(pub FinalRule);

impl Print for FinalRuleText {
    ghost text = { λ t. final_rule_text t.0 };

    fn put<W: Write>(&self, out: &mut W) -> Result<(), WriteFailed> {
        match self.0 {
            FinalRule::FinalSuper => Number(81_u64).put(out),
            FinalRule::FinalOverridden { method } => {
                Then(Number(85_u64), Place::Method(method)).put(out)
            }
        }
    }
}

/// A rule on final classes and methods as fields of an object, and then the text after them.
#[derive(Clone, Copy)]
pub struct FinalRuleFields<B>(pub FinalRule, pub B);

impl<B: Print + Copy> Print for FinalRuleFields<B> {
    ghost text = { λ t. fields_then (final_rule_fields t.0) (B.text t.1) };

    fn put<W: Write>(&self, out: &mut W) -> Result<(), WriteFailed> {
        match self.0 {
            FinalRule::FinalSuper => More("number", Number(81_u64), self.1).put(out),
            FinalRule::FinalOverridden { method } => {
                let place = PlaceFields(Place::Method(method), self.1);
                More("number", Number(85_u64), place).put(out)
            }
        }
    }
}

/// The refusal of a class that breaks a rule on final classes and methods.
#[derive(Clone, Copy)]
pub struct FinalRefusal {
    pub form: Form,
    pub rule: FinalRule,
}

impl Print for FinalRefusal {
    ghost text = { λ t. final_refusal t.form t.rule };

    fn put<W: Write>(&self, out: &mut W) -> Result<(), WriteFailed> {
        let rule = self.rule;
        match self.form {
            Form::Plain => {
                let broken = Then(FinalRuleText(rule), Word("\n"));
                Then(Word("class refused "), broken).put(out)
            }
            Form::Json => {
                let refused = More("answer", Quoted("refused"), FinalRuleFields(rule, END));
                Object("kind", Quoted("class"), refused).put(out)
            }
        }
    }
}

/// The end of a refusal: the class that is missing, or the number of the fault in a stack map or in code.
#[derive(Clone, Copy)]
struct ReasonEnding<'a>(Reason<'a>);

impl<'a> Print for ReasonEnding<'a> {
    ghost text = { λ t. reason_ending t.0 };

    fn put<W: Write>(&self, out: &mut W) -> Result<(), WriteFailed> {
        match self.0 {
            Reason::ClassMissing(name) => Then(Word(" missing "), Spelled(name)).put(out),
            Reason::BadStackMap { fault } | Reason::BadCode { fault } => {
                Then(Word(" fault "), Number(u64::from(fault))).put(out)
            }
            _ => Word("").put(out),
        }
    }
}

/// The end of a refusal, as a field where it has one, and then the text after it.
#[derive(Clone, Copy)]
struct ReasonFields<'a, B>(Reason<'a>, B);

impl<'a, B: Print + Copy> Print for ReasonFields<'a, B> {
    ghost text = { λ t. fields_then (reason_fields t.0) (B.text t.1) };

    fn put<W: Write>(&self, out: &mut W) -> Result<(), WriteFailed> {
        match self.0 {
            Reason::ClassMissing(name) => More("missing", QuotedSpelled(name), self.1).put(out),
            Reason::BadStackMap { fault } | Reason::BadCode { fault } => {
                More("fault", Number(u64::from(fault)), self.1).put(out)
            }
            _ => self.1.put(out),
        }
    }
}

/// The verdict on a method, after its name.
#[derive(Clone, Copy)]
struct VerdictText<'a>(Verdict<'a>);

impl<'a> Print for VerdictText<'a> {
    ghost text = { λ t. verdict_text t.0 };

    fn put<W: Write>(&self, out: &mut W) -> Result<(), WriteFailed> {
        match self.0 {
            Verdict::Verified => Word(" verified").put(out),
            Verdict::NoCode => Word(" no code").put(out),
            Verdict::Refused { at, reason } => {
                let number = Number(u64::from(reason.number()));
                let place = Then(Word(" at "), Number(at));
                Then(
                    Word(" refused "),
                    Then(number, Then(place, ReasonEnding(reason))),
                )
                .put(out)
            }
        }
    }
}

/// The verdict on a method, as fields after its name, and then the text after them.
#[derive(Clone, Copy)]
struct VerdictFields<'a, B>(Verdict<'a>, B);

impl<'a, B: Print + Copy> Print for VerdictFields<'a, B> {
    ghost text = { λ t. fields_then (verdict_fields t.0) (B.text t.1) };

    fn put<W: Write>(&self, out: &mut W) -> Result<(), WriteFailed> {
        match self.0 {
            Verdict::Verified => More("answer", Quoted("verified"), self.1).put(out),
            Verdict::NoCode => More("answer", Quoted("no code"), self.1).put(out),
            Verdict::Refused { at, reason } => {
                let place = More("at", Number(at), ReasonFields(reason, self.1));
                let number = More("number", Number(u64::from(reason.number())), place);
                More("answer", Quoted("refused"), number).put(out)
            }
        }
    }
}

/// The object of JSON about a method and the verdict on it, and then the text after its fields.
#[derive(Clone, Copy)]
pub struct VerdictObject<'a, B> {
    pub method: MethodVerdict<'a>,
    pub behind: B,
}

impl<'a, B: Print + Copy> Print for VerdictObject<'a, B> {
    ghost text = { λ t. verdict_object t.method (B.text t.behind) };

    fn put<W: Write>(&self, out: &mut W) -> Result<(), WriteFailed> {
        let method = self.method;
        let verdict = VerdictFields(method.verdict, self.behind);
        let descriptor = More("descriptor", QuotedName(method.descriptor), verdict);
        let name = More("name", QuotedName(method.name), descriptor);
        Object("kind", Quoted("method"), name).put(out)
    }
}

/// The line of a method and the verdict on it.
#[derive(Clone, Copy)]
pub struct VerdictLine<'a> {
    pub form: Form,
    pub method: MethodVerdict<'a>,
}

impl<'a> Print for VerdictLine<'a> {
    ghost text = { λ t. verdict_line t.form t.method };

    fn put<W: Write>(&self, out: &mut W) -> Result<(), WriteFailed> {
        let method = self.method;
        match self.form {
            Form::Plain => {
                let verdict = Then(VerdictText(method.verdict), Word("\n"));
                let descriptor = Then(Name(method.descriptor), verdict);
                let name = Then(Name(method.name), Then(Word(" "), descriptor));
                Then(Word("method "), name).put(out)
            }
            Form::Json => {
                let behind = END;
                VerdictObject { method, behind }.put(out)
            }
        }
    }
}

/// The verdicts on the methods of a class.
#[derive(Clone, Copy)]
pub struct ReportText<'r, 'a> {
    pub form: Form,
    pub methods: &'r [MethodVerdict<'a>],
}

impl<'r, 'a> Lines<MethodVerdict<'a>> for ReportText<'r, 'a> {
    ghost line = { λ t r. verdict_line t.form r };

    fn put_line<W: Write>(&self, item: &MethodVerdict<'a>, out: &mut W) -> Result<(), WriteFailed> {
        VerdictLine {
            form: self.form,
            method: *item,
        }
        .put(out)
    }
}

impl<'r, 'a> Print for ReportText<'r, 'a> {
    ghost text = { λ t. flat_map (verdict_line t.form) t.methods.now };

    fn put<W: Write>(&self, out: &mut W) -> Result<(), WriteFailed> {
        put_lines(self, self.methods, out)
    }
}

/// Whether a verdict refuses.
fn is_refusal(verdict: &Verdict<'_>) -> bool
    ensures { result ≡ is_refusal verdict.now }
{
    match verdict {
        Verdict::Verified | Verdict::NoCode => false,
        Verdict::Refused { .. } => true,
    }
}

impl<'r, 'a> ReportText<'r, 'a> {
    /// The status that goes with it: 1 where a method is refused.
    pub fn status(&self) -> u8
        ensures { result ≡ report_status self.now.methods.now }
    {
        for method in self.methods {
            if is_refusal(&method.verdict) {
                return 1;
            }
        }
        0
    }
}
