//! The arguments of calls, and the receivers beneath them.
ghost use Rattle.std.specs.Prelude.{◌≡◌, List, [], Option, true, map, option_map, IfSome, MatchOption};
ghost use Rattle.std.specs.List.{All};
ghost use Rattle.names.specs.Descriptors.{FieldDescriptor};
ghost use Rattle.names.specs.ReferenceTypes.{ReferenceType};
ghost use Rattle.hierarchy.specs.Answer.{outcome_of};
ghost use Rattle.frames.specs.Slots.{descriptor_type, to_reference};
ghost use Rattle.type_numbers.specs.Numbers.{IsGiven, IsNumberOf};
ghost use Rattle.type_numbers.specs.MethodNumbers.{AreNumbers};
ghost use Rattle.rules.specs.TypingRules.{arguments_on};
ghost use Rattle.rules.specs.Rules.{is_short};
ghost use Rattle.rules.specs.Outcomes.{TookOff};
ghost use Rattle.numbered_rules.specs.private.Calls.{receivers, IsOneTaken};
ghost use Rattle.numbered_rules.specs.RunningFrame.{held, IsRunning};

use crate::expected::Expected;
use frames::both;
use hierarchy::{Answer, Classes};
use method_frames::MethodFrames;

/// Takes one more operand off the stack, and returns whether it and those before it are of types that are assignable to
/// the expected ones, this one to that of a number; none where the stack is empty.
#[inline(always)]
fn take_one<'n, C: Classes>(
    so_far: Answer<'n>,
    number: u32,
    frames: &mut MethodFrames<'_, '_, 'n, C>,
) -> Option<Answer<'n>>
    requires { IsGiven frames.old.types number }
    ensures taken { MatchOption result (frames.old.running.stack ≡ [])
        (λ a. IsOneTaken frames.old frames.new number (outcome_of so_far.entry) (outcome_of a)) }
    ensures rest { IsRunning frames.old frames.new }
{
    let top = frames.pop()?;
    if number == top {
        return Some(so_far);
    }
    let answer = Expected::Assignable(number).meets(top, frames.types());
    Some(both(so_far, answer))
}

/// Takes the arguments of a call off the stack, by the numbers of the types of the parameters, the last one first; and
/// beneath them the receiver, if there is one. None where there are too few items; then nothing is said of the items
/// that are left, but that only the running frame changed.
#[inline(always)]
pub fn take_arguments<'n, C: Classes>(
    parameters: &[u32],
    receiver: Option<u32>,
    frames: &mut MethodFrames<'_, '_, 'n, C>,
) -> Option<Answer<'n>>
    requires parameters { All (IsGiven frames.old.types) parameters.now }
    requires receiver { IfSome receiver (IsGiven frames.old.types) }
    ensures taken { let s = frames.old.types in (ts : List FieldDescriptor) (r : Option ReferenceType)
        → AreNumbers s parameters.now (map descriptor_type ts) → IsNumberOf s receiver (option_map to_reference r)
        → let ws = arguments_on ts (receivers r) in
        MatchOption result (is_short ws (held frames.old).stack ≡ true)
        (λ a. TookOff s.classes ws (held frames.old) (outcome_of a) (held frames.new)) }
    ensures rest { IsRunning frames.old frames.new }
{
    let mut so_far = Answer::Yes;
    for place in (0..parameters.len()).rev() {
        match take_one(so_far, parameters[place], frames) {
            None => return None,
            Some(answer) => so_far = answer,
        }
    }
    match receiver {
        None => Some(so_far),
        Some(class) => take_one(so_far, class, frames),
    }
}
