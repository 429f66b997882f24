//! Verdicts that refuse.
ghost use Rattle.std.specs.Prelude.{◌≡◌, ◌⊎◌, map, Some, option_map};
ghost use Rattle.classfile.specs.Methods.{stack_map_of};
ghost use Rattle.classfile.specs.Views.{nested_view};
ghost use Rattle.rules.specs.declared.reason.Reason.TheVariants.{OutOfMemory};
ghost use Rattle.rules.specs.Reasons.{reason_view};
ghost use Rattle.verify.specs.Verdict as verdicts;
ghost use Rattle.verify.specs.Verdict.{told_of};
ghost use Rattle.verify.specs.private.JudgingSteps.{Gives, RefusesCode};

use crate::verdict::{Verdict, VerifyFault};
use classfile::{CodeAttr, NestedAttribute};
use insn::CodeFault;
use rules::Reason;

/// The verdict that refuses a method for a reason.
pub fn refuse<'a>(at: u16, reason: Reason<'a>) -> Result<Verdict<'a>, VerifyFault>
    ensures { (v : verdicts.Verdict) → (reason.entry ≡ OutOfMemory) ⊎ (told_of v ≡ Some (at, reason_view reason.entry))
        → Gives v result }
{
    match reason {
        Reason::OutOfMemory => Err(VerifyFault::OutOfMemory),
        _ => Ok(Verdict::Refused {
            at: usize::from(at),
            reason,
        }),
    }
}

/// The verdict that refuses a method for a fault of its code: 79 where the instruction begins.
pub fn refuse_code<'a>(fault: CodeFault) -> Result<Verdict<'a>, VerifyFault>
    ensures { RefusesCode fault result }
{
    let at = match fault {
        CodeFault::OutOfMemory => return Err(VerifyFault::OutOfMemory),
        CodeFault::BadOpcode { at }
        | CodeFault::CutInstruction { at }
        | CodeFault::BadSwitch { at }
        | CodeFault::BadWide { at }
        | CodeFault::NonZeroByte { at } => at,
    };
    Ok(Verdict::Refused {
        at,
        reason: Reason::BadCode {
            fault: fault.number(),
        },
    })
}

/// The body of a Code attribute's StackMapTable, if it has one.
pub fn stack_map<'a>(code: &CodeAttr<'a>) -> Option<&'a [u8]>
    ensures { option_map (λ b. b.now) result ≡ stack_map_of (map nested_view code.now.attributes.items) }
{
    for attribute in &code.attributes {
        if let NestedAttribute::StackMapTable { body, .. } = attribute {
            return Some(*body);
        }
    }
    None
}
