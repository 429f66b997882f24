//! A step of the machine.
ghost use Rattle.hierarchy.specs.Class.{world_of};
ghost use Rattle.machine.specs.Bodies.{method_view};
ghost use Rattle.machine.specs.Effects.{effect};
ghost use Rattle.machine.specs.Stepped.{Stepped};
ghost use Rattle.machine.specs.Views.{state_view, choice_view};

use crate::body::Method;
use crate::choosing::{Choice, Outcome, StepFault};
use crate::completion::{Completion, go};
use crate::demands::meets;
use crate::effects::effect_of;
use crate::raising::raise;
use crate::snapshot::{State, copy_of_state};
use hierarchy::Classes;
use insn::found_at;
use std::alloc::Global;

/// A step as [`step`] takes it, from a state that is handed over and becomes the next one. It takes no time for the
/// objects that the instruction does not name.
pub(crate) fn advance<'a, C: Classes>(
    alloc: Global,
    method: &Method<'_, 'a>,
    classes: &C,
    state: State<'a>,
    choice: &Choice<'a>,
) -> Result<Outcome<'a>, StepFault>
    ensures { Stepped effect (world_of (C.content classes.now)) (method_view method.now) (state_view state.entry)
        (choice_view choice.now) result }
{
    let Some((act, next)) = found_at(&method.list, state.offset()) else {
        return Ok(Outcome::Fault);
    };
    let effect = effect_of(alloc, act, method)?;
    let is_met = meets(alloc, method, &effect, next, &state, classes)?;
    if !is_met {
        return Ok(Outcome::Fault);
    }
    match choice {
        Choice::Go {
            branch,
            answer,
            fresh,
        } => {
            let completion = Completion {
                branch: *branch,
                answer: *answer,
            };
            go(alloc, &effect, next, state, completion, fresh, classes)
        }
        Choice::Raise {
            address,
            fresh,
            entry,
        } => raise(alloc, method, classes, state, *address, fresh, *entry),
    }
}

/// A step of the machine (JVMS 2.10, 2.11, 6.5) from a state, by a choice, in the world that has these classes and no
/// other.
///
/// `Fault` is returned exactly where the state does not meet the demands of its instruction, whatever the choice.
/// Elsewhere `Next` or `Ended` is what comes of the choice, and 54 says that nothing does. 1 may be returned in place
/// of any other answer. The state stays as it is, and is copied, all its objects with it.
pub fn step<'a, C: Classes>(
    alloc: Global,
    method: &Method<'_, 'a>,
    classes: &C,
    state: &State<'a>,
    choice: &Choice<'a>,
) -> Result<Outcome<'a>, StepFault>
    ensures { Stepped effect (world_of (C.content classes.now)) (method_view method.now) (state_view state.now)
        (choice_view choice.now) result }
{
    let copy = copy_of_state(alloc, state)?;
    advance(alloc, method, classes, copy, choice)
}
