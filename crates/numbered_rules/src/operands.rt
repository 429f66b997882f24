//! How operands are taken off the stack.
ghost use Rattle.std.specs.Prelude.{◌≡◌, List, true, false, drop, map, MatchOption};
ghost use Rattle.std.specs.List.{AllZip};
ghost use Rattle.hierarchy.specs.Answer.{outcome_of, yes};
ghost use Rattle.rules.specs.TypingRules.{ExpectedType};
ghost use Rattle.rules.specs.Rules.{is_short};
ghost use Rattle.rules.specs.Outcomes.{TookOff};
ghost use Rattle.numbered_rules.specs.Expected.{AreExpected, StandsFor};
ghost use Rattle.numbered_rules.specs.RunningFrame.{held, IsRunning};
ghost use Rattle.numbered_rules.specs.private.MetAtOnce.{AreMet};

use crate::expected::Asked;
use frames::both;
use hierarchy::{Answer, Classes};
use method_frames::MethodFrames;

/// Whether the numbers of the first items of the stack tell at once that they are of the expected types, the top one
/// first.
#[inline(always)]
fn are_met_at_once<A: Asked, C: Classes>(asked: &[A], frames: &MethodFrames<'_, '_, '_, C>) -> bool
    requires { AreExpected frames.now.types (map A.asked asked.now) }
    ensures { result ≡ true → AreMet frames.now.types (map A.asked asked.now) frames.now.running.stack }
{
    for above in 0..asked.len() {
        match frames.item(above) {
            None => return false,
            Some(number) => if !asked[above].expected().is_met_at_once(number) {
                return false;
            },
        }
    }
    true
}

/// Takes so many items off the stack.
#[inline(always)]
fn drop_items<C: Classes>(count: usize, frames: &mut MethodFrames<'_, '_, '_, C>)
    ensures { frames.new ≡ record frames.old {
      running = record frames.old.running { stack = drop count frames.old.running.stack };
    } }
{
    for _ in 0..count {
        let _ = frames.pop();
    }
}

/// Takes operands off the stack, the top one first, where their numbers tell at once that they are of the expected
/// types. Otherwise it leaves the stack as it is.
#[inline(always)]
pub fn took_at_once<A: Asked, C: Classes>(
    asked: &[A],
    frames: &mut MethodFrames<'_, '_, '_, C>,
) -> bool
    requires { AreExpected frames.old.types (map A.asked asked.now) }
    ensures taken { let s = frames.old.types in result ≡ true
        → (ws : List ExpectedType) → AllZip (StandsFor s) (map A.asked asked.now) ws
        → TookOff s.classes ws (held frames.old) yes (held frames.new) }
    ensures left { result ≡ false → frames.new ≡ frames.old }
    ensures rest { IsRunning frames.old frames.new }
{
    if are_met_at_once(asked, frames) {
        drop_items(asked.len(), frames);
        true
    } else {
        false
    }
}

/// Takes operands of the expected types off the stack, the top one first. None where there are too few items; then
/// nothing is said of the items that are left, but that only the running frame changed.
pub fn take<'n, A: Asked, C: Classes>(
    asked: &[A],
    frames: &mut MethodFrames<'_, '_, 'n, C>,
) -> Option<Answer<'n>>
    requires { AreExpected frames.old.types (map A.asked asked.now) }
    ensures taken { let s = frames.old.types in
        (ws : List ExpectedType) → AllZip (StandsFor s) (map A.asked asked.now) ws
        → MatchOption result (is_short ws (held frames.old).stack ≡ true)
        (λ a. TookOff s.classes ws (held frames.old) (outcome_of a) (held frames.new)) }
    ensures rest { IsRunning frames.old frames.new }
{
    let mut so_far = Answer::Yes;
    for ask in asked {
        match frames.pop() {
            None => return None,
            Some(number) => so_far = both(so_far, ask.expected().meets(number, frames.types())),
        }
    }
    Some(so_far)
}
