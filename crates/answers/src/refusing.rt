//! Why there are no verdicts on a class that is well formed, in the manner of `verify` or in that of `explain`.
ghost use Rattle.classfile.specs.Views.{class_view};
ghost use Rattle.printing.specs.Json.{fields_behind};
ghost use Rattle.answers.specs.Verdicts.{final_part_lines, final_part_fields, final_told, hierarchy_told};

use crate::command::Form;
use crate::manner::Manner;
use crate::sentences::{
    FinalSentence, FinalSentenceField, HierarchySentence, HierarchySentenceField,
};
use crate::verdicts::{FinalRefusal, FinalRuleFields, HierarchyObject, HierarchyRefusal};
use classfile::{ClassFile, Place};
use hierarchy::HierarchyFault;
use printing::{END, More, Object, PartFields, PartLines, Print, Quoted, Then, Word, WriteFailed};
use std::io::Write;
use verify::FinalRule;

/// The refusal of a class and its known classes that do not make a hierarchy.
#[derive(Clone, Copy)]
pub struct HierarchyTold<'a> {
    pub manner: Manner,
    pub fault: HierarchyFault<'a>,
}

impl<'a> Print for HierarchyTold<'a> {
    ghost text = { λ t. hierarchy_told t.manner t.fault };

    fn put<W: Write>(&self, out: &mut W) -> Result<(), WriteFailed> {
        let fault = self.fault;
        match self.manner {
            Manner::Told(form) => HierarchyRefusal { form, fault }.put(out),
            Manner::Explained(Form::Plain) => {
                let form = Form::Plain;
                Then(HierarchyRefusal { form, fault }, HierarchySentence(fault)).put(out)
            }
            Manner::Explained(Form::Json) => {
                HierarchyObject(fault, HierarchySentenceField(fault)).put(out)
            }
        }
    }
}

/// The method of a class that breaks a rule on final classes and methods.
#[derive(Clone, Copy)]
struct FinalPartLines<'c, 'a> {
    class: &'c ClassFile<'a>,
    rule: FinalRule,
}

impl<'c, 'a> Print for FinalPartLines<'c, 'a> {
    ghost text = { λ t. final_part_lines (class_view t.class.now) t.rule };

    fn put<W: Write>(&self, out: &mut W) -> Result<(), WriteFailed> {
        match self.rule {
            FinalRule::FinalSuper => Word("").put(out),
            FinalRule::FinalOverridden { method } => {
                let (class, place) = (self.class, Place::Method(method));
                PartLines { class, place }.put(out)
            }
        }
    }
}

/// This method as the last fields of an object.
#[derive(Clone, Copy)]
struct FinalPartFields<'c, 'a> {
    class: &'c ClassFile<'a>,
    rule: FinalRule,
}

impl<'c, 'a> Print for FinalPartFields<'c, 'a> {
    ghost text = { λ t. fields_behind (final_part_fields (class_view t.class.now) t.rule) };

    fn put<W: Write>(&self, out: &mut W) -> Result<(), WriteFailed> {
        match self.rule {
            FinalRule::FinalSuper => END.put(out),
            FinalRule::FinalOverridden { method } => PartFields {
                class: self.class,
                place: Place::Method(method),
                behind: END,
            }
            .put(out),
        }
    }
}

/// The refusal of a class that breaks a rule on final classes and methods.
#[derive(Clone, Copy)]
pub struct FinalTold<'c, 'a> {
    pub manner: Manner,
    pub class: &'c ClassFile<'a>,
    pub rule: FinalRule,
}

impl<'c, 'a> Print for FinalTold<'c, 'a> {
    ghost text = { λ t. final_told t.manner (class_view t.class.now) t.rule };

    fn put<W: Write>(&self, out: &mut W) -> Result<(), WriteFailed> {
        let (class, rule) = (self.class, self.rule);
        match self.manner {
            Manner::Told(form) => FinalRefusal { form, rule }.put(out),
            Manner::Explained(Form::Plain) => {
                let form = Form::Plain;
                let part = Then(FinalSentence(rule), FinalPartLines { class, rule });
                Then(FinalRefusal { form, rule }, part).put(out)
            }
            Manner::Explained(Form::Json) => {
                let sentence = FinalSentenceField(rule, FinalPartFields { class, rule });
                let refused = More("answer", Quoted("refused"), FinalRuleFields(rule, sentence));
                Object("kind", Quoted("class"), refused).put(out)
            }
        }
    }
}
