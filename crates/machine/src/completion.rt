//! An instruction is done.
ghost use Rattle.std.specs.Prelude.{◌≡◌, ◌↔◌, ℕ, pos, IsTrue, MatchOption, option_map};
ghost use Rattle.hierarchy.specs.Class.{world_of};
ghost use Rattle.insn.specs.Branching.{targets_of};
ghost use Rattle.insn.specs.Offsets.{IsAmong};
ghost use Rattle.machine.specs.Steps.{IsLast};
ghost use Rattle.machine.specs.private.EffectViews.{effect_view};
ghost use Rattle.machine.specs.private.Happening.{Done, MayGo, GoesOn, Goes, moved_to};
ghost use Rattle.machine.specs.Views.{value_view, fresh_view, state_view};

use crate::choosing::{Outcome, StepFault};
use crate::demands::{falls, targets};
use crate::effect::Effect;
use crate::execution::done;
use crate::items::Value;
use crate::objects::RunType;
use crate::snapshot::{State, with_fresh};
use hierarchy::Classes;
use insn::BranchTargets;
use std::alloc::Global;

/// The parts of a [`Choice::Go`](crate::Choice::Go) that do not make objects.
#[derive(Clone, Copy)]
pub struct Completion {
    /// The offset in the code that is gone to, in bytes, given exactly for an instruction with targets.
    pub branch: Option<u16>,
    /// The value that is answered, given exactly for an instruction that asks for one.
    pub answer: Option<Value>,
}

// Whether the method then ends.
fn is_last(effect: &Effect<'_>) -> bool
    ensures { IsTrue result ↔ IsLast (effect_view effect.now) }
{
    match effect {
        Effect::Leaves(_) | Effect::Ends => true,
        Effect::Operates { .. }
        | Effect::Reads { .. }
        | Effect::Writes { .. }
        | Effect::Increments { .. }
        | Effect::Moves(_)
        | Effect::TakesElement
        | Effect::Passes(_)
        | Effect::Creates(_)
        | Effect::MakesArray { .. }
        | Effect::Initializes { .. }
        | Effect::CallsSpecial { .. }
        | Effect::Throws
        | Effect::Stuck => false,
    }
}

// Whether a target is at this offset.
fn is_target(targets: BranchTargets<'_>, to: u16) -> bool
    ensures { IsTrue result ↔ IsAmong (pos to) (targets_of targets.entry) }
{
    for target in targets {
        if target == i64::from(to) {
            return true;
        }
    }
    false
}

// The offset that is gone to by an instruction with these targets, where that is the next start, if it may be.
fn way(
    targets: BranchTargets<'_>,
    falls: bool,
    next: Option<u16>,
    branch: Option<u16>,
) -> Option<u16>
    ensures { MatchOption result ((to : ℕ) → MayGo (targets_of targets.entry) falls next branch to → ⊥)
        (λ to. MayGo (targets_of targets.entry) falls next branch to) }
{
    let mut others = targets;
    if others.next().is_none() {
        return match branch {
            None => if falls { next } else { None },
            Some(_) => None,
        };
    }
    let to = branch?;
    if falls && next == Some(to) || is_target(targets, to) {
        Some(to)
    } else {
        None
    }
}

// The state elsewhere.
fn moved_to<'a>(state: State<'a>, at: u16) -> State<'a>
    ensures { let s = state_view state.entry in state_view result ≡ moved_to s at s.heap }
{
    let mut moved = state;
    moved.at = at;
    moved
}

// It goes on.
fn go_on<'a, C: Classes>(
    alloc: Global,
    effect: &Effect<'a>,
    next: Option<u16>,
    state: State<'a>,
    completion: Completion,
    classes: &C,
) -> Result<State<'a>, StepFault>
    ensures { let s = state_view state.entry in
        Done (GoesOn (world_of (C.content classes.now)) (effect_view effect.now) next s s.heap completion.branch
        (option_map value_view completion.answer)) result }
{
    let Some(at) = way(
        targets(state.offset(), effect),
        falls(effect),
        next,
        completion.branch,
    ) else {
        return Err(StepFault::NotAChoice);
    };
    let moved = moved_to(state, at);
    done(alloc, effect, moved, completion.answer, classes)
}

/// The outcome of an instruction that does this, where that is the next start.
pub fn go<'a, C: Classes>(
    alloc: Global,
    effect: &Effect<'a>,
    next: Option<u16>,
    state: State<'a>,
    completion: Completion,
    fresh: &[(u32, RunType<'a>)],
    classes: &C,
) -> Result<Outcome<'a>, StepFault>
    ensures { Goes (world_of (C.content classes.now)) (effect_view effect.now) next (state_view state.entry)
        completion.branch (option_map value_view completion.answer) (fresh_view fresh.now) result }
{
    let state = with_fresh(state, fresh)?;
    if is_last(effect) {
        return if completion.branch.is_none() && completion.answer.is_none() {
            Ok(Outcome::Ended)
        } else {
            Err(StepFault::NotAChoice)
        };
    }
    match go_on(alloc, effect, next, state, completion, classes) {
        Ok(after) => Ok(Outcome::Next(after)),
        Err(fault) => Err(fault),
    }
}
