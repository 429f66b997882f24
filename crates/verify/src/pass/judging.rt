//! One instruction, and the scope in which it is judged.
ghost use Rattle.std.specs.Prelude.{◌≡◌, ◌&&◌, ℕ, [], Option, is_none, length, IsTrue, OnOk};
ghost use Rattle.insn.specs.Views.{act_view};
ghost use Rattle.method_frames.specs.MapFrames.{frames_by};
ghost use Rattle.numbered_rules.specs.RunningFrame.{held, IsRunning};
ghost use Rattle.rules.specs.After.{after};
ghost use Rattle.rules.specs.Bodies.{method_view};
ghost use Rattle.rules.specs.Naming.{names_bootstrapped, sets_own};
ghost use Rattle.rules.specs.Outcomes.{Done};
ghost use Rattle.rules.specs.Table.{typing_rule};
ghost use Rattle.rules.specs.Ways.{branch_offsets, goes_on};
ghost use Rattle.verify.specs.Verdict.{at_conditions};
ghost use Rattle.verify.specs.private.JudgingSteps.{run_conditions};
ghost use Rattle.numbered_rules.specs.RuleNumbers.{AreRuleNumbers};
ghost use Rattle.verify.specs.private.pass.Following.{Follows, AreAhead, IsOnward};
ghost use Rattle.verify.specs.private.pass.Alone.{asks_no_more, IsScope};

use crate::flow::check_end;
use crate::pass::handlers::Handlers;
use crate::pass::members::{check_member, covers_constructor, facts_of, is_covered_call, look_up};
use crate::pass::targets::check_targets;
use classfile::CodeMethod;
use hierarchy::Classes;
use insn::{Act, Branches};
use method_frames::MethodFrames;
use numbered_rules::{Body, NamedFacts, run};
use rules::{ClassConstants, Reason, branches_by, goes_on, is_plain, together};
use std::alloc::Global;

/// The facts about what an instruction names that sets no field of its own class in a constructor, and names no Dynamic
/// or InvokeDynamic.
const NO_FACTS: NamedFacts = NamedFacts {
    own: false,
    bootstrapped: true,
};

/// How much of an instruction is judged.
pub enum Scope {
    /// Its rule: it is plain, and nothing else is asked of it.
    Plain,
    /// Its rule and its targets, with these facts about what it names: nothing else is asked of it.
    Named(NamedFacts),
    /// All that is asked of it.
    Wholly,
}

/// Whether an instruction branches nowhere.
#[inline(always)]
fn goes_nowhere(act: &Act<'_>) -> bool
    ensures { IsTrue result → branch_offsets (act_view act.now) ≡ [] }
{
    matches!(branches_by(act), Branches::Nowhere)
}

/// Judges an instruction with this act, in the frame before it, which becomes the frame after: by its rule and its
/// targets.
#[inline(never)]
pub fn judge_named<'a, C: Classes>(
    alloc: Global,
    body: &Body<'_, 'a>,
    at: u16,
    act: &Act<'a>,
    facts: NamedFacts,
    frames: &mut MethodFrames<'_, '_, 'a, C>,
) -> Result<(), Reason<'a>>
    requires locals { length frames.old.running.locals ≡ body.now.method.now.code.now.max_locals }
    requires numbers { AreRuleNumbers frames.old.types (method_view body.now.method.now) body.now.numbers }
    requires own { facts.own ≡ sets_own (method_view body.now.method.now) (act_view act.now) }
    requires bootstrapped { facts.bootstrapped
        ≡ names_bootstrapped (method_view body.now.method.now) (act_view act.now) }
    ensures judged { let s = frames.old.types in let m = method_view body.now.method.now in let f = held frames.old in
        let a = act_view act.now in
        Done (run_conditions s.classes m (frames_by s frames.old.declared) at a f) (after m at (typing_rule m a) f)
        (held frames.new) result }
    ensures rest { IsRunning frames.old frames.new }
{
    let ran = run(body, at, act, facts, frames);
    if goes_nowhere(act) {
        return ran;
    }
    ran?;
    check_targets(alloc, at, branches_by(act), frames)
}

/// Judges an instruction in the frame before it, which becomes the frame after: by its rule, the protected member that
/// it uses, its targets, and the handlers of the entries that cover it.
#[inline(never)]
pub fn judge_wholly<'a, C: Classes>(
    body: &Body<'_, 'a>,
    at: u16,
    act: &Act<'a>,
    last: bool,
    constants: &mut ClassConstants<'_, '_, 'a, C>,
    handlers: &mut Handlers,
    frames: &mut MethodFrames<'_, '_, 'a, C>,
) -> Result<(), Reason<'a>>
    requires constants { constants.old.members
        ≡ record { class = body.now.method.now.class.now; classes = frames.old.types.classes } }
    requires locals { length frames.old.running.locals ≡ body.now.method.now.code.now.max_locals }
    requires numbers { AreRuleNumbers frames.old.types (method_view body.now.method.now) body.now.numbers }
    requires handlers { Follows frames.old (method_view body.now.method.now).exceptions at handlers.old }
    requires ahead { AreAhead at handlers.old }
    ensures same { constants.new.members ≡ constants.old.members }
    ensures judged { (next : Option ℕ) → is_none next ≡ last →
        let s = frames.old.types in let m = method_view body.now.method.now in let f = held frames.old in
        let a = act_view act.now in let p = typing_rule m a in
        Done (at_conditions s.classes m (frames_by s frames.old.declared) at a p next f)
        (after m at p f) (held frames.new) result }
    ensures rest { IsOnward frames.old frames.new }
    ensures handlers { let m = method_view body.now.method.now in
        OnOk result (Follows frames.new m.exceptions at handlers.new) }
{
    let covered = covers_constructor(body.method, at, act, constants, handlers, frames)?;
    let facts = facts_of(body.method, act, constants)?;
    let used = check_member(body.method, act, body.numbers.class, constants, frames);
    let caught = handlers.catch(at, frames);
    let before = together(used, caught);
    let aside = together(before, check_end(goes_on(act), last, covered));
    let judged = judge_named(handlers.alloc, body, at, act, facts, frames);
    together(judged, aside)
}

/// Whether an instruction is the last one, and goes on.
#[inline(always)]
fn falls_off(act: &Act<'_>, last: bool) -> bool
    ensures { result ≡ (goes_on (act_view act.now) && last) }
{
    last && goes_on(act)
}

/// Whether nothing is asked of an instruction but its rule, its targets, the handlers around it, that it goes on to
/// another one, and that no entry covers it where it calls a constructor: it uses no member on an object, and names no
/// bootstrap method. In a class of a release a constructor is such a member.
#[inline(always)]
fn asks_no_more(release: bool, act: &Act<'_>) -> bool
    ensures { result ≡ asks_no_more release (act_view act.now) }
{
    match act {
        Act::GetField { .. }
        | Act::PutField { .. }
        | Act::InvokeVirtual { .. }
        | Act::InvokeDynamic { .. }
        | Act::LoadConstant { .. }
        | Act::LoadWideConstant { .. } => false,
        Act::InvokeSpecial { .. } => !release,
        _ => true,
    }
}

/// How much of an instruction is judged at the offset to which the handlers come: its rule alone, or the rule and the
/// targets, where nothing else is asked.
#[inline(always)]
pub fn scope_of<'a, C: Classes>(
    body: &Body<'_, 'a>,
    at: u16,
    act: &Act<'a>,
    last: bool,
    constants: &mut ClassConstants<'_, '_, 'a, C>,
    handlers: &mut Handlers,
    frames: &MethodFrames<'_, '_, 'a, C>,
) -> Scope
    requires constants { constants.old.members
        ≡ record { class = body.now.method.now.class.now; classes = frames.now.types.classes } }
    requires numbers { AreRuleNumbers frames.now.types (method_view body.now.method.now) body.now.numbers }
    requires handlers { Follows frames.now (method_view body.now.method.now).exceptions at handlers.old }
    ensures same { constants.new.members ≡ constants.old.members }
    ensures handlers { Follows frames.now (method_view body.now.method.now).exceptions at handlers.new }
    ensures ahead { AreAhead at handlers.new }
    ensures scope { IsScope frames.now (method_view body.now.method.now) at (act_view act.now) last result }
{
    handlers.come_to(at);
    if falls_off(act, last) {
        return Scope::Wholly;
    }
    if !handlers.are_idle(at, frames) {
        return Scope::Wholly;
    }
    if is_plain(act) {
        return Scope::Plain;
    }
    if is_covered_call(at, act, handlers) {
        return Scope::Wholly;
    }
    if asks_no_more(body.method.class.release, act) {
        return Scope::Named(NO_FACTS);
    }
    match look_up(body, act, constants) {
        Some(facts) => Scope::Named(facts),
        None => Scope::Wholly,
    }
}
