//! One pass over a method's code.
ghost use Rattle.std.specs.Prelude.{◌≡◌, ◌≤◌, ℕ, List, length};
ghost use Rattle.layout.specs.declared.limits.TheConstants.{MAX_CODE_BYTES};
ghost use Rattle.insn.specs.Instructions.{Instruction};
ghost use Rattle.insn.specs.Code.{SpellsCode};
ghost use Rattle.method_frames.specs.MapFrames.{frames_by};
ghost use Rattle.numbered_rules.specs.RunningFrame.{held};
ghost use Rattle.numbered_rules.specs.RuleNumbers.{AreRuleNumbers};
ghost use Rattle.rules.specs.Bodies.{method_view};
ghost use Rattle.rules.specs.Table.{typing_rule};
ghost use Rattle.verify.specs.InitialFrames.{initial_frame};
ghost use Rattle.verify.specs.Verdict.{code_judged};
ghost use Rattle.verify.specs.private.JudgingSteps.{Gives};
ghost use Rattle.verify.specs.private.pass.Following.{Follows, IsOnward};

use crate::pass::entering::{enter, goes_straight};
use crate::pass::handlers::Handlers;
use crate::pass::judging::{Scope, judge_named, judge_wholly, scope_of};
use crate::refusal::refuse;
use crate::verdict::{Verdict, VerifyFault};
use hierarchy::Classes;
use insn::Instructions;
use method_frames::MethodFrames;
use numbered_rules::{Body, push, pushed_at_once, run_plain};
use rules::{ClassConstants, goes_on};

/// Judges code, by one pass over its bytes that carries one frame, the one with which the method begins.
#[inline(never)]
pub fn pass<'a, C: Classes>(
    body: &Body<'_, 'a>,
    constants: &mut ClassConstants<'_, '_, 'a, C>,
    handlers: &mut Handlers,
    frames: &mut MethodFrames<'_, '_, 'a, C>,
) -> Result<Verdict<'a>, VerifyFault>
    requires constants { constants.old.members
        ≡ record { class = body.now.method.now.class.now; classes = frames.old.types.classes } }
    requires initial { held frames.old ≡ initial_frame (method_view body.now.method.now) }
    requires locals { length frames.old.running.locals ≡ body.now.method.now.code.now.max_locals }
    requires numbers { AreRuleNumbers frames.old.types (method_view body.now.method.now) body.now.numbers }
    requires handlers { Follows frames.old (method_view body.now.method.now).exceptions 0 handlers.old }
    requires spelled { (xs : List (ℕ × Instruction)) × SpellsCode 0 body.now.method.now.code.now.code.now xs }
    requires few { length body.now.method.now.code.now.code.now ≤ MAX_CODE_BYTES }
    ensures same { constants.new.members ≡ constants.old.members }
    ensures rest { IsOnward frames.old frames.new }
    ensures judged { let s = frames.old.types in Gives (code_judged typing_rule s.classes
        (method_view body.now.method.now) (frames_by s frames.old.declared)) result }
{
    let mut code = Instructions::new(body.method.code.code);
    let mut comes = true;
    while !code.is_at_end() {
        let at = code.at() as u16;
        let act = &code.take_act();
        if !goes_straight(at, comes, frames) {
            if let Err(reason) = enter(at, comes, frames) {
                return refuse(at, reason);
            }
        }
        let last = code.is_at_end();
        comes = goes_on(act);
        match scope_of(body, at, act, last, constants, handlers, frames) {
            Scope::Plain => match pushed_at_once(body.method, act, frames) {
                Some(number) => if let Err(reason) = push(body.method, number, frames) {
                    return refuse(at, reason);
                },
                None => {
                    if let Err(reason) = run_plain(body.method, act, &body.numbers, frames) {
                        return refuse(at, reason);
                    }
                }
            },
            Scope::Named(facts) => {
                if let Err(reason) = judge_named(handlers.alloc, body, at, act, facts, frames) {
                    return refuse(at, reason);
                }
            }
            Scope::Wholly => {
                let judged = judge_wholly(body, at, act, last, constants, handlers, frames);
                if let Err(reason) = judged {
                    return refuse(at, reason);
                }
            }
        }
    }
    Ok(Verdict::Verified)
}
