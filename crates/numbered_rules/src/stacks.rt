//! Instructions that move what is on the stack.
ghost use Rattle.std.specs.Prelude.{◌≡◌, map, option_map};
ghost use Rattle.insn.specs.Operators.{stack_forms};
ghost use Rattle.insn.specs.Views.{stack_form_view};
ghost use Rattle.frames.specs.VerificationType.{VerificationType};
ghost use Rattle.type_numbers.specs.Numbers.{Numbering, IsNumber};
ghost use Rattle.rules.specs.TypingRules.{rearranges};
ghost use Rattle.rules.specs.After.{after, fits_place, fits_places, form_for};
ghost use Rattle.rules.specs.Rules.{conditions};
ghost use Rattle.rules.specs.Bodies.{method_view};
ghost use Rattle.rules.specs.Outcomes.{Done};
ghost use Rattle.numbered_rules.specs.RunningFrame.{held, IsRunning};
ghost use Rattle.numbered_rules.specs.private.TypeParts.{is_narrow_by};

use crate::pops_and_pushes::judge_frame_after;
use classfile::CodeMethod;
use hierarchy::{Answer, Classes};
use insn::{StackForm, StackOperator, StackPlace};
use method_frames::{MethodFrames, is_wide};
use rules::{Reason, units_taken};
use type_numbers::{Parts, tags};

/// Whether a type takes one unit and is not top, by the parts of its number.
#[inline(always)]
pub fn is_narrow(parts: Parts) -> bool
    ensures { result ≡ is_narrow_by parts.tag }
{
    !(parts.tag == tags::TOP || parts.tag == tags::DOUBLE || parts.tag == tags::LONG)
}

/// Whether the type of a number fits a place.
fn fits_place(place: StackPlace, number: u32) -> bool
    ensures { (s : Numbering) (t : VerificationType) → IsNumber s number t → result ≡ fits_place place t }
{
    match place {
        StackPlace::Narrow => is_narrow(Parts::of(number)),
        StackPlace::Wide => is_wide(number),
    }
}

/// Whether the stack fits these places, the top first.
fn fits_places<C: Classes>(places: &[StackPlace], frames: &MethodFrames<'_, '_, '_, C>) -> bool
    ensures { result ≡ fits_places places.now (held frames.now).stack }
{
    for above in 0..places.len() {
        match frames.item(above) {
            None => return false,
            Some(number) => if !fits_place(places[above], number) {
                return false;
            },
        }
    }
    true
}

/// The first form that the stack fits.
fn form_for<C: Classes>(
    forms: &'static [StackForm],
    frames: &MethodFrames<'_, '_, '_, C>,
) -> Option<StackForm>
    ensures { option_map stack_form_view result ≡ form_for (map stack_form_view forms.now) (held frames.now).stack }
{
    for form in forms {
        if fits_places(form.takes, frames) {
            return Some(*form);
        }
    }
    None
}

/// An instruction that moves what is on the stack (JVMS 2.11.6, 4.10.1.9). Its refusals are 61 and 62, 65 where the
/// stack is then wider than max_stack, and 1 where memory runs out; nothing is left on the stack then.
pub fn rearranges<'n, C: Classes>(
    method: &CodeMethod<'_, '_>,
    operator: StackOperator,
    frames: &mut MethodFrames<'_, '_, 'n, C>,
) -> Result<(), Reason<'n>>
    ensures done { let m = method_view method.now in let f = held frames.old in
        let p = rearranges (stack_forms operator) in
        Done (conditions frames.old.types.classes m 0 p f) (after m 0 p f) (held frames.new) result }
    ensures rest { IsRunning frames.old frames.new }
{
    let forms = operator.forms();
    if !frames.has_units(units_taken(forms)) {
        return Err(Reason::MissingOperand);
    }
    match form_for(forms, frames) {
        None => Err(Reason::WrongOperand),
        Some(form) => {
            frames.rearrange(form)?;
            judge_frame_after(method, Answer::Yes, frames)
        }
    }
}
