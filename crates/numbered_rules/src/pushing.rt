//! Instructions that leave all operands on the stack and push one type, where the numbers of types tell at once that
//! they may.
ghost use Rattle.std.specs.Prelude.{◌≡◌, ◌≤◌, ℕ, length, IfSome};
ghost use Rattle.insn.specs.Operators.{stack_forms};
ghost use Rattle.insn.specs.declared.stack.StackOperator.TheVariants.{Dup};
ghost use Rattle.insn.specs.Views.{act_view};
ghost use Rattle.rules.specs.TypingRules.{ExpectedType, TypingRule, loads, rearranges};
ghost use Rattle.rules.specs.Table.{typing_rule};
ghost use Rattle.rules.specs.After.{after};
ghost use Rattle.rules.specs.Rules.{conditions};
ghost use Rattle.rules.specs.Bodies.{method_view};
ghost use Rattle.rules.specs.Outcomes.{Done};
ghost use Rattle.numbered_rules.specs.Expected.{IsExpected, StandsFor};
ghost use Rattle.numbered_rules.specs.RunningFrame.{held, IsRunning};
ghost use Rattle.numbered_rules.specs.Pushing.{IsPush};

use crate::expected::Expected;
use crate::fixed_numbers::{NULL, number_of};
use crate::pops_and_pushes::push_result;
use crate::stacks::is_narrow;
use classfile::CodeMethod;
use hierarchy::{Answer, Classes};
use insn::{Act, StackOperator};
use method_frames::MethodFrames;
use rules::Reason;
use type_numbers::Parts;

/// The number in a local variable, where that is in range and the number tells at once that its type is the expected
/// one.
#[inline(always)]
fn local_pushed<C: Classes>(
    method: &CodeMethod<'_, '_>,
    ask: Expected,
    local: u16,
    width: usize,
    frames: &MethodFrames<'_, '_, '_, C>,
) -> Option<u32>
    requires locals { length frames.now.running.locals ≡ method.now.code.now.max_locals }
    requires asked { IsExpected frames.now.types ask }
    requires few { width ≤ 2 }
    ensures { (w : ExpectedType) → StandsFor frames.now.types ask w
        → IfSome result (IsPush (method_view method.now) (loads w local width) frames.now) }
{
    let place = usize::from(local);
    if usize::from(method.code.max_locals) < place + width {
        return None;
    }
    let number = frames.local(place);
    if ask.is_met_at_once(number) {
        Some(number)
    } else {
        None
    }
}

/// The number on top of the stack, where its type takes one unit.
#[inline(always)]
fn top_pushed<C: Classes>(
    method: &CodeMethod<'_, '_>,
    frames: &MethodFrames<'_, '_, '_, C>,
) -> Option<u32>
    ensures { IfSome result (IsPush (method_view method.now) (rearranges (stack_forms Dup)) frames.now) }
{
    let number = frames.item(0)?;
    if is_narrow(Parts::of(number)) {
        Some(number)
    } else {
        None
    }
}

/// The number of the type that a constant, a load or `dup` pushes, where nothing is left to be judged but whether the
/// stack has room for it. None for other instructions, and where the type has to be looked at.
#[inline(always)]
pub fn pushed_at_once<C: Classes>(
    method: &CodeMethod<'_, '_>,
    act: &Act<'_>,
    frames: &MethodFrames<'_, '_, '_, C>,
) -> Option<u32>
    requires { length frames.now.running.locals ≡ method.now.code.now.max_locals }
    ensures { let m = method_view method.now in
        IfSome result (IsPush m (typing_rule m (act_view act.now)) frames.now) }
{
    match *act {
        Act::Constant(kind) => Some(number_of(kind)),
        Act::ConstantNull => Some(NULL),
        Act::Load { kind, local } => {
            local_pushed(method, Expected::number(kind), local, kind.units(), frames)
        }
        Act::LoadReference { local } => local_pushed(method, Expected::Reference, local, 1, frames),
        Act::Stack(StackOperator::Dup) => top_pushed(method, frames),
        _ => None,
    }
}

/// Pushes the type of a number, where a rule asks for no more than that the stack has room for it: 65 where it has not,
/// and 1 where memory runs out.
#[inline(always)]
pub fn push<'n, C: Classes>(
    method: &CodeMethod<'_, '_>,
    number: u32,
    frames: &mut MethodFrames<'_, '_, 'n, C>,
) -> Result<(), Reason<'n>>
    requires { (p : TypingRule) × IsPush (method_view method.now) p frames.old number }
    ensures done { (at : ℕ) (p : TypingRule) → let m = method_view method.now in let f = held frames.old in
        IsPush m p frames.old number
        → Done (conditions frames.old.types.classes m at p f) (after m at p f) (held frames.new) result }
    ensures rest { IsRunning frames.old frames.new }
{
    push_result(method, Answer::Yes, number, frames)
}
