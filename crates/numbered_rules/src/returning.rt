//! Returns.
ghost use Rattle.std.specs.Prelude.{◌≡◌, ℕ, option_map};
ghost use Rattle.frames.specs.Slots.{descriptor_type};
ghost use Rattle.type_numbers.specs.Numbers.{IsNumberOf};
ghost use Rattle.rules.specs.TypingRules.{returns};
ghost use Rattle.rules.specs.Table.{return_number, return_nothing, return_reference};
ghost use Rattle.rules.specs.After.{after};
ghost use Rattle.rules.specs.Rules.{conditions};
ghost use Rattle.rules.specs.Bodies.{method_view};
ghost use Rattle.rules.specs.Outcomes.{Done};
ghost use Rattle.numbered_rules.specs.RunningFrame.{held, IsRunning};

use crate::expected::{Expected, is_reference};
use crate::pops_and_pushes::{judge_frame_after, pops};
use classfile::CodeMethod;
use hierarchy::{Answer, Classes};
use insn::Kind;
use method_frames::MethodFrames;
use rules::{Reason, number_of_result};
use type_numbers::Parts;

/// A return without a value, from a method without a result.
fn returns<'n, C: Classes>(
    method: &CodeMethod<'_, '_>,
    frames: &MethodFrames<'_, '_, 'n, C>,
) -> Result<(), Reason<'n>>
    ensures { let m = method_view method.now in let f = held frames.now in
        Done (conditions frames.now.types.classes m 0 returns f) (after m 0 returns f) f result }
{
    if method.is_init && frames.flag() {
        return Err(Reason::OwnObjectNotReady);
    }
    judge_frame_after(method, Answer::Yes, frames)
}

/// `return` (JVMS 4.10.1.9). Its refusals are 76 where the method has a result, 74 where the own object is not
/// initialized, and 65.
pub fn return_nothing<'n, C: Classes>(
    method: &CodeMethod<'_, '_>,
    frames: &MethodFrames<'_, '_, 'n, C>,
) -> Result<(), Reason<'n>>
    ensures { (at : ℕ) → let m = method_view method.now in let f = held frames.now in
        let p = return_nothing m.type.result in
        Done (conditions frames.now.types.classes m at p f) (after m at p f) f result }
{
    match method.result_type {
        None => returns(method, frames),
        Some(_) => Err(Reason::WrongReturn),
    }
}

/// `ireturn` and its like. Its refusals are 76 where the method's result is no number of the kind, and those of
/// [`pops`].
pub fn return_number<'n, C: Classes>(
    method: &CodeMethod<'_, '_>,
    kind: Kind,
    frames: &mut MethodFrames<'_, '_, 'n, C>,
) -> Result<(), Reason<'n>>
    ensures done { (at : ℕ) → let m = method_view method.now in let f = held frames.old in
        let p = return_number m.type.result kind in
        Done (conditions frames.old.types.classes m at p f) (after m at p f) (held frames.new) result }
    ensures rest { IsRunning frames.old frames.new }
{
    match number_of_result(method.result_type) {
        None => Err(Reason::WrongReturn),
        Some(given) => if given == kind {
            pops(method, &[kind], None, frames)
        } else {
            Err(Reason::WrongReturn)
        },
    }
}

/// `areturn`, by the number of the type of the method's result. Its refusals are 76 where that is no reference, and
/// those of [`pops`].
pub fn return_reference<'n, C: Classes>(
    method: &CodeMethod<'_, '_>,
    returned: Option<u32>,
    frames: &mut MethodFrames<'_, '_, 'n, C>,
) -> Result<(), Reason<'n>>
    requires { IsNumberOf frames.old.types returned (option_map descriptor_type (method_view method.now).type.result) }
    ensures done { (at : ℕ) → let m = method_view method.now in let f = held frames.old in
        let p = return_reference m.type.result in
        Done (conditions frames.old.types.classes m at p f) (after m at p f) (held frames.new) result }
    ensures rest { IsRunning frames.old frames.new }
{
    let Some(number) = returned else {
        return Err(Reason::WrongReturn);
    };
    if is_reference(Parts::of(number)) {
        pops(method, &[Expected::Assignable(number)], None, frames)
    } else {
        Err(Reason::WrongReturn)
    }
}
