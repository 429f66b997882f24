//! Members that are protected: on which objects an instruction may use them (JVMS 4.10.1.8, 4.10.1.9).
ghost use Rattle.hierarchy.specs.Answer.{outcome_of};
ghost use Rattle.insn.specs.Views.{act_view};
ghost use Rattle.rules.specs.Bodies.{method_view};
ghost use Rattle.pool.specs.ConstantViews.{method_constant_view};
ghost use Rattle.rules.specs.Guards.{AnswersCall, Uses};
ghost use Rattle.rules.specs.Naming.{IsNamed};
ghost use Rattle.rules.specs.Outcomes.{Judges};
ghost use Rattle.rules.specs.Protected.{object_conditions};

use crate::calls::{is_init, is_of_class};
use crate::members::Members;
use crate::naming::Named;
use crate::reason::Reason;
use classfile::CodeMethod;
use hierarchy::Answer;
use insn::Act;
use pool::MethodConstant;

/// The use of a member on an object: the index of its constant, and how many operands stand above the object.
#[derive(Clone, Copy)]
pub struct Use {
    pub index: u16,
    pub above: usize,
}

/// The use of a method that an instruction calls on an object; none of a method of an interface, nor of one that an
/// array type names.
fn call_use(index: u16, called: &MethodConstant<'_>) -> Option<Use>
    ensures { AnswersCall (method_constant_view called.now) index result }
{
    if called.interface || !is_of_class(called) {
        return None;
    }
    let above = called.method_type.params.len();
    Some(Use { index, above })
}

/// The member that an instruction uses on an object, if it uses one.
pub fn used_by<'a>(method: &CodeMethod<'_, 'a>, act: &Act<'a>, named: &Named<'a>) -> Option<Use>
    requires { IsNamed (method_view method.now) (act_view act.now) named.now }
    ensures { Uses (method_view method.now) (act_view act.now) result }
{
    match *act {
        Act::GetField { index } => {
            named.field()?;
            Some(Use { index, above: 0 })
        }
        Act::PutField { index } => {
            named.field()?;
            Some(Use { index, above: 1 })
        }
        Act::InvokeVirtual { index } => call_use(index, named.method()?),
        Act::InvokeSpecial { index } => {
            let called = named.method()?;
            if !method.class.release || !is_init(called) {
                return None;
            }
            call_use(index, called)
        }
        _ => None,
    }
}

/// 82 where an object is none of the class, and 77 where a class is missing.
pub fn check_object<'a>(answer: Answer<'a>) -> Result<(), Reason<'a>>
    ensures { Judges (object_conditions (outcome_of answer.entry)) result }
{
    match answer {
        Answer::Yes => Ok(()),
        Answer::No => Err(Reason::ProtectedMember),
        Answer::Missing(name) => Err(Reason::ClassMissing(name)),
    }
}
