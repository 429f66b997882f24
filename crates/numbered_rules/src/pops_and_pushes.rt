//! The rules that most instructions share: operands are popped, a result is pushed, and the frame after is judged.
ghost use Rattle.std.specs.Prelude.{◌≡◌, List, [], ◌∷◌, true, map, nat_lt, IfSome};
ghost use Rattle.std.specs.List.{AllZip};
ghost use Rattle.hierarchy.specs.Answer.{outcome_of};
ghost use Rattle.frames.specs.Slots.{units_of};
ghost use Rattle.type_numbers.specs.Numbers.{IsGiven};
ghost use Rattle.type_numbers.specs.Decoding.{type_by};
ghost use Rattle.rules.specs.TypingRules.{ExpectedType, pops};
ghost use Rattle.rules.specs.After.{after};
ghost use Rattle.rules.specs.Rules.{conditions};
ghost use Rattle.rules.specs.Bodies.{method_view};
ghost use Rattle.rules.specs.Outcomes.{Done, pushed, settled};
ghost use Rattle.numbered_rules.specs.Expected.{AreExpected, StandsFor, types_given};
ghost use Rattle.numbered_rules.specs.RunningFrame.{held, IsRunning};

use crate::expected::Asked;
use crate::operands::{take, took_at_once};
use classfile::CodeMethod;
use hierarchy::{Answer, Classes};
use method_frames::MethodFrames;
use rules::Reason;

/// Whether the stack has more units than this.
#[inline(always)]
fn is_wider<C: Classes>(limit: u16, frames: &MethodFrames<'_, '_, '_, C>) -> bool
    ensures { result ≡ nat_lt limit (units_of (held frames.now).stack) }
{
    frames.has_units(usize::from(limit) + 1)
}

/// Judges the frame after an instruction: 65 where its stack is wider than max_stack, and 77 where the answer about the
/// operands is a missing class. The answer is not no.
#[inline(always)]
pub fn judge_frame_after<'n, C: Classes>(
    method: &CodeMethod<'_, '_>,
    answer: Answer<'n>,
    frames: &MethodFrames<'_, '_, 'n, C>,
) -> Result<(), Reason<'n>>
    ensures { let f = held frames.now in
        Done (settled (method_view method.now) (outcome_of answer.entry) f) f f result }
{
    if is_wider(method.code.max_stack, frames) {
        return Err(Reason::StackOver);
    }
    match answer {
        Answer::Missing(name) => Err(Reason::ClassMissing(name)),
        _ => Ok(()),
    }
}

/// Pushes the result of an instruction, and judges the frame after it.
#[inline(always)]
pub fn push_result<'n, C: Classes>(
    method: &CodeMethod<'_, '_>,
    answer: Answer<'n>,
    number: u32,
    frames: &mut MethodFrames<'_, '_, 'n, C>,
) -> Result<(), Reason<'n>>
    requires { IsGiven frames.old.types number }
    ensures done { let f = pushed (type_by frames.old.types number ∷ []) (held frames.old) in
        Done (settled (method_view method.now) (outcome_of answer.entry) f) f (held frames.new) result }
    ensures rest { IsRunning frames.old frames.new }
{
    frames.push(number)?;
    judge_frame_after(method, answer, frames)
}

/// Pushes the result of an instruction, if it has one, and judges the frame after it.
#[inline(always)]
pub fn push_result_if_any<'n, C: Classes>(
    method: &CodeMethod<'_, '_>,
    answer: Answer<'n>,
    gives: Option<u32>,
    frames: &mut MethodFrames<'_, '_, 'n, C>,
) -> Result<(), Reason<'n>>
    requires { IfSome gives (IsGiven frames.old.types) }
    ensures done { let f = pushed (types_given frames.old.types gives) (held frames.old) in
        Done (settled (method_view method.now) (outcome_of answer.entry) f) f (held frames.new) result }
    ensures rest { IsRunning frames.old frames.new }
{
    match gives {
        Some(number) => push_result(method, answer, number, frames),
        None => judge_frame_after(method, answer, frames),
    }
}

/// Takes nothing and pushes a result.
pub fn gives<'n, C: Classes>(
    method: &CodeMethod<'_, '_>,
    number: u32,
    frames: &mut MethodFrames<'_, '_, 'n, C>,
) -> Result<(), Reason<'n>>
    requires { IsGiven frames.old.types number }
    ensures done { let s = frames.old.types in let m = method_view method.now in let f = held frames.old in
        let p = pops [] (type_by s number ∷ []) [] true in
        Done (conditions s.classes m 0 p f) (after m 0 p f) (held frames.new) result }
    ensures rest { IsRunning frames.old frames.new }
{
    push_result(method, Answer::Yes, number, frames)
}

/// Pops operands of the expected types, the top one first, and pushes a result (JVMS 4.10.1.9). Its refusals are 61
/// and 62, those of [`judge_frame_after`], and 1 where memory runs out.
#[inline(always)]
pub fn pops<'n, A: Asked, C: Classes>(
    method: &CodeMethod<'_, '_>,
    asked: &[A],
    gives: Option<u32>,
    frames: &mut MethodFrames<'_, '_, 'n, C>,
) -> Result<(), Reason<'n>>
    requires asked { AreExpected frames.old.types (map A.asked asked.now) }
    requires gives { IfSome gives (IsGiven frames.old.types) }
    ensures done { let s = frames.old.types in let m = method_view method.now in let f = held frames.old in
        (ws : List ExpectedType) → AllZip (StandsFor s) (map A.asked asked.now) ws
        → let p = pops ws (types_given s gives) [] true in
        Done (conditions s.classes m 0 p f) (after m 0 p f) (held frames.new) result }
    ensures rest { IsRunning frames.old frames.new }
{
    if took_at_once(asked, frames) {
        return push_result_if_any(method, Answer::Yes, gives, frames);
    }
    pops_judged(method, asked, gives, frames)
}

/// Pops operands of the expected types as [`pops`] does, whatever is asked about their types.
#[inline(never)]
fn pops_judged<'n, A: Asked, C: Classes>(
    method: &CodeMethod<'_, '_>,
    asked: &[A],
    gives: Option<u32>,
    frames: &mut MethodFrames<'_, '_, 'n, C>,
) -> Result<(), Reason<'n>>
    requires asked { AreExpected frames.old.types (map A.asked asked.now) }
    requires gives { IfSome gives (IsGiven frames.old.types) }
    ensures done { let s = frames.old.types in let m = method_view method.now in let f = held frames.old in
        (ws : List ExpectedType) → AllZip (StandsFor s) (map A.asked asked.now) ws
        → let p = pops ws (types_given s gives) [] true in
        Done (conditions s.classes m 0 p f) (after m 0 p f) (held frames.new) result }
    ensures rest { IsRunning frames.old frames.new }
{
    match take(asked, frames) {
        None => Err(Reason::MissingOperand),
        Some(answer) => match answer {
            Answer::No => Err(Reason::WrongOperand),
            _ => push_result_if_any(method, answer, gives, frames),
        },
    }
}
