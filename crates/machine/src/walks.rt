//! Walks: steps by a list of choices.
ghost use Rattle.std.specs.Prelude.{◌≡◌, IfOk, IfErr, map};
ghost use Rattle.hierarchy.specs.Class.{world_of};
ghost use Rattle.machine.specs.declared.choosing.StepFault.TheVariants.{OutOfMemory};
ghost use Rattle.machine.specs.Bodies.{method_view};
ghost use Rattle.machine.specs.Views.{state_view, choice_view, stop_view};
ghost use Rattle.machine.specs.Walks.{Walks};

use crate::body::Method;
use crate::choosing::{Choice, Outcome, StepFault};
use crate::snapshot::{State, copy_of_state};
use crate::stepping::advance;
use hierarchy::Classes;
use std::alloc::Global;

/// Where a walk stops.
#[derive(Drop)]
pub enum Last<'a> {
    /// All choices are used up, in this state.
    More(State<'a>),
    /// The method has ended.
    Ended,
    /// The state does not meet what its instruction demands.
    Fault,
    /// The state is not a fault, and nothing comes of the next choice there.
    NotAChoice,
}

/// A walk by a list of choices.
#[derive(Drop)]
pub struct Walked<'a> {
    /// How many of the choices led to a state or to the method's end.
    pub taken: usize,
    /// Where it stops.
    pub last: Last<'a>,
}

/// Steps from a state by one choice after the other (see [`step`](crate::step)), in the world that has these classes
/// and no other, until the method ends, the state is a fault, or nothing comes of a choice. The state is copied once;
/// then a step takes no time for objects that its instruction does not name.
///
/// The only refusal is 1.
pub fn walk<'a, C: Classes>(
    alloc: Global,
    method: &Method<'_, 'a>,
    classes: &C,
    state: &State<'a>,
    choices: &[Choice<'a>],
) -> Result<Walked<'a>, StepFault>
    ensures walks { IfOk result (λ w. Walks (world_of (C.content classes.now)) (method_view method.now)
        (state_view state.now) (map choice_view choices.now) w.taken (stop_view w.last)) }
    ensures memory { IfErr result (λ e. e ≡ OutOfMemory) }
{
    let mut at = copy_of_state(alloc, state)?;
    for (taken, choice) in choices.iter().enumerate() {
        match advance(alloc, method, classes, at, choice) {
            Ok(Outcome::Next(next)) => at = next,
            Ok(Outcome::Ended) => return Ok(Walked {
                taken: taken + 1,
                last: Last::Ended,
            }),
            Ok(Outcome::Fault) => return Ok(Walked {
                taken,
                last: Last::Fault,
            }),
            Err(StepFault::NotAChoice) => return Ok(Walked {
                taken,
                last: Last::NotAChoice,
            }),
            Err(StepFault::OutOfMemory) => return Err(StepFault::OutOfMemory),
            Err(StepFault::NotInitial) => unreachable!(),
        }
    }
    Ok(Walked {
        taken: choices.len(),
        last: Last::More(at),
    })
}
