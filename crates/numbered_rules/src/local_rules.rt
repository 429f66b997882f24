//! The rules of loads, stores and increments of local variables.
ghost use Rattle.std.specs.Prelude.{◌≡◌, ◌≤◌, length};
ghost use Rattle.rules.specs.TypingRules.{ExpectedType, loads, stores, increments};
ghost use Rattle.rules.specs.After.{after};
ghost use Rattle.rules.specs.Rules.{conditions};
ghost use Rattle.rules.specs.Bodies.{method_view};
ghost use Rattle.rules.specs.Outcomes.{Done};
ghost use Rattle.numbered_rules.specs.Expected.{IsExpected, StandsFor};
ghost use Rattle.numbered_rules.specs.RunningFrame.{held, IsRunning};

use crate::expected::Expected;
use crate::fixed_numbers::INT;
use crate::local_writes::store;
use crate::pops_and_pushes::{judge_frame_after, push_result};
use classfile::CodeMethod;
use hierarchy::{Answer, Classes};
use method_frames::MethodFrames;
use rules::Reason;

/// Pushes a local variable (JVMS 4.10.1.9). Its refusals are 63 and 64, those of [`judge_frame_after`], and 1 where
/// memory runs out.
pub fn loads<'n, C: Classes>(
    method: &CodeMethod<'_, '_>,
    ask: Expected,
    local: u16,
    width: usize,
    frames: &mut MethodFrames<'_, '_, 'n, C>,
) -> Result<(), Reason<'n>>
    requires locals { length frames.old.running.locals ≡ method.now.code.now.max_locals }
    requires asked { IsExpected frames.old.types ask }
    requires some { 1 ≤ width }
    requires few { width ≤ 2 }
    ensures done { let s = frames.old.types in let m = method_view method.now in let f = held frames.old in
        (w : ExpectedType) → StandsFor s ask w → let p = loads w local width in
        Done (conditions s.classes m 0 p f) (after m 0 p f) (held frames.new) result }
    ensures rest { IsRunning frames.old frames.new }
{
    let place = usize::from(local);
    if usize::from(method.code.max_locals) < place + width {
        return Err(Reason::LocalOutOfRange);
    }
    let number = frames.local(place);
    let answer = ask.meets(number, frames.types());
    match answer {
        Answer::No => Err(Reason::WrongLocal),
        _ => push_result(method, answer, number, frames),
    }
}

/// Changes the `int` in a local variable: `iinc` (JVMS 4.10.1.9). Its refusals are those of [`loads`] but 1.
pub fn increments<'n, C: Classes>(
    method: &CodeMethod<'_, '_>,
    local: u16,
    frames: &MethodFrames<'_, '_, 'n, C>,
) -> Result<(), Reason<'n>>
    requires { length frames.now.running.locals ≡ method.now.code.now.max_locals }
    ensures { let m = method_view method.now in let f = held frames.now in let p = increments local in
        Done (conditions frames.now.types.classes m 0 p f) (after m 0 p f) f result }
{
    let place = usize::from(local);
    if usize::from(method.code.max_locals) < place + 1 {
        return Err(Reason::LocalOutOfRange);
    }
    let answer = Expected::Assignable(INT).meets(frames.local(place), frames.types());
    match answer {
        Answer::No => Err(Reason::WrongLocal),
        _ => judge_frame_after(method, answer, frames),
    }
}

/// Stores the top of the stack to a local variable (JVMS 4.10.1.9). Its refusals are 61, 62 and 64, those of
/// [`judge_frame_after`], and 1 where memory runs out.
#[inline(always)]
pub fn stores<'n, C: Classes>(
    method: &CodeMethod<'_, '_>,
    ask: Expected,
    local: u16,
    width: usize,
    frames: &mut MethodFrames<'_, '_, 'n, C>,
) -> Result<(), Reason<'n>>
    requires locals { length frames.old.running.locals ≡ method.now.code.now.max_locals }
    requires asked { IsExpected frames.old.types ask }
    requires some { 1 ≤ width }
    requires few { width ≤ 2 }
    ensures done { let s = frames.old.types in let m = method_view method.now in let f = held frames.old in
        (w : ExpectedType) → StandsFor s ask w → let p = stores w local width in
        Done (conditions s.classes m 0 p f) (after m 0 p f) (held frames.new) result }
    ensures rest { IsRunning frames.old frames.new }
{
    let Some(number) = frames.pop() else {
        return Err(Reason::MissingOperand);
    };
    let answer = ask.meets(number, frames.types());
    match answer {
        Answer::No => Err(Reason::WrongOperand),
        _ => {
            let place = usize::from(local);
            if usize::from(method.code.max_locals) < place + width {
                return Err(Reason::LocalOutOfRange);
            }
            store(number, place, frames)?;
            judge_frame_after(method, answer, frames)
        }
    }
}
