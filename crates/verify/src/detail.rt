//! The detail at fault where a method is refused, by the reason: the comparison of types that fails, or that asks for a
//! class that is missing, or an entry of the exception table.
ghost use Rattle.std.specs.Prelude.{◌≡◌, ◌⊎◌, ◌≢◌, Some, None, option_map, MatchResult, IfOk};
ghost use Rattle.classfile.specs.Methods.{Method};
ghost use Rattle.insn.specs.Meanings as meanings;
ghost use Rattle.insn.specs.Views.{act_view};
ghost use Rattle.frames.specs.Conditions.{Conditions, least};
ghost use Rattle.frames.specs.FrameFact.{frame_of};
ghost use Rattle.type_numbers.specs.Numbers.{Numbering};
ghost use Rattle.method_frames.specs.MapFrames.{frames_by};
ghost use Rattle.numbered_rules.specs.RunningFrame.{held, IsRunning};
ghost use Rattle.numbered_rules.specs.RuleNumbers.{AreRuleNumbers};
ghost use Rattle.rules.specs.After.{after};
ghost use Rattle.rules.specs.Bodies.{method_view};
ghost use Rattle.rules.specs.ExpectedTypes.{expected_types, types_view};
ghost use Rattle.rules.specs.Protected.{member_conditions};
ghost use Rattle.rules.specs.Reasons.{reason_number, reason_view};
ghost use Rattle.rules.specs.Rules.{conditions, is_missing_class};
ghost use Rattle.rules.specs.Table.{typing_rule};
ghost use Rattle.rules.specs.TypingRules.{TypingRule, targets};
ghost use Rattle.rules.specs.Unmet.{unmet_of};
ghost use Rattle.rules.specs.declared.reason.Reason.TheVariants as reasons;
ghost use Rattle.verify.specs.Coming.{frames_view, met_before};
ghost use Rattle.verify.specs.Details.{taken, is_class_asked, arriving_if, target_if, handler_if, refused_if, covering_if, unmet_if, unknown_aside, unknown_in, unknown_if, detail_at, detail_of};
ghost use Rattle.verify.specs.Details as details;
ghost use Rattle.verify.specs.DifferencesAt.{at_targets};
ghost use Rattle.verify.specs.private.Ran.{IsBy, HasRun, IsIf, detail_in};
ghost use Rattle.verify.specs.private.Ready.{IsReady};

use crate::difference_at::{
    DifferenceAt, handler_difference, sought_difference, target_difference,
};
use crate::exceptions::{first_covering, first_refused};
use crate::frames_at::FramesAt;
use crate::pass::exceptions::exception_table;
use crate::pass::members::{check_member, facts_of};
use frames::{Difference, Frame, Sought};
use hierarchy::Classes;
use insn::Act;
use method_frames::MethodFrames;
use numbered_rules::{Body, run};
use rules::{ClassConstants, ExpectedTypes, Reason, Unmet, first_unknown, first_unmet};
use std::alloc::{AllocError, Global};

/// The detail at fault where a method is refused: the comparison that fails, or that asks for a class that is missing
/// (77), or an entry of the exception table or of the stack map.
#[derive(Clone, Copy, Debug)]
pub enum Detail<'a> {
    /// The frame that comes to the instruction is compared with the one that is declared there: 69, 77.
    Arriving(Difference<'a>),
    /// One of all that the instruction takes is compared with what the frame before it has: 61 to 63, 77.
    Taken(Unmet<'a>),
    /// The frame after the instruction is compared with the one that is declared at a target: 68, 77.
    Target(DifferenceAt<'a>),
    /// The frame before the instruction, with what is caught alone on its stack, is compared with that of the handler
    /// of the entry at this place of the exception table, from 0: 73, 77.
    Handler(usize, DifferenceAt<'a>),
    /// The entry at this place of the exception table, from 0: the first that is refused (72, 77), or the first that
    /// covers the instruction (75).
    Entry(usize),
    /// The entry of the stack map that is refused (78).
    MapEntry {
        /// Its place in the stack map, from 0.
        place: usize,
        /// The offset of the frame that it would declare, in bytes; none where its bytes spell no entry.
        at: Option<u32>,
    },
}

/// The instruction at which a method is refused, and the reason.
#[derive(Clone, Copy)]
pub struct RefusedAt<'a> {
    /// The offset of the instruction, in bytes.
    pub at: u16,
    /// Its act.
    pub act: Act<'a>,
    /// The reason.
    pub reason: Reason<'a>,
}

/// The comparison of an expected type, if there is one.
fn taken<'a>(unmet: Option<Unmet<'a>>) -> Option<Detail<'a>>
    ensures { option_map detail_of result ≡ option_map taken (option_map unmet_of unmet.entry) }
{
    match unmet {
        Some(unmet) => Some(Detail::Taken(unmet)),
        None => None,
    }
}

/// How an instruction came out of its rule.
enum Ran {
    /// The running frame is the one after it.
    Passed,
    /// The rule refuses it.
    Refused,
    /// The rule asks for a class that is missing.
    LacksClass,
}

/// The comparison of the frame that comes with the declared one, where there are both and one is found.
fn arriving_if<'a, C: Classes>(
    sought: Sought,
    met: &FramesAt<'a>,
    classes: &C,
) -> Option<Detail<'a>>
    ensures { option_map detail_of result ≡ arriving_if sought (C.content classes.now)
        (frames_view met.now).coming (frames_view met.now).declared }
{
    let (Some(coming), Some(declared)) = (&met.coming, &met.declared) else {
        return None;
    };
    match sought_difference(sought, coming, declared, classes) {
        Some(difference) => Some(Detail::Arriving(difference)),
        None => None,
    }
}

/// The entry of the exception table at a place, if there is one.
fn entry<'a>(place: Option<usize>) -> Option<Detail<'a>>
    ensures { option_map detail_of result ≡ option_map details.entry place }
{
    match place {
        Some(place) => Some(Detail::Entry(place)),
        None => None,
    }
}

/// The first entry of the exception table that is refused before the code is judged, if one is.
fn refused_if<'a, C: Classes>(
    alloc: Global,
    body: &Body<'_, 'a>,
    frames: &MethodFrames<'_, '_, 'a, C>,
) -> Result<Option<Detail<'a>>, AllocError>
    requires { AreRuleNumbers frames.now.types (method_view body.now.method.now) body.now.numbers }
    ensures { let x = frames.now in IfOk result (λ o. option_map detail_of o
        ≡ refused_if x.types.classes (method_view body.now.method.now) (frames_by x.types x.declared)) }
{
    let entries = exception_table(alloc, body)?;
    Ok(entry(first_refused(&entries, body, frames)?))
}

/// The first entry of the exception table that covers an instruction, if one does.
fn covering_if<'a>(
    alloc: Global,
    body: &Body<'_, 'a>,
    at: u16,
) -> Result<Option<Detail<'a>>, AllocError>
    requires { (s : Numbering) × AreRuleNumbers s (method_view body.now.method.now) body.now.numbers }
    ensures { IfOk result (λ o. option_map detail_of o ≡ covering_if (method_view body.now.method.now) at) }
{
    let entries = exception_table(alloc, body)?;
    Ok(entry(first_covering(&entries, at)))
}

/// All that an instruction takes.
fn types_of<'a, C: Classes>(
    alloc: Global,
    body: &Body<'_, 'a>,
    act: &Act<'a>,
    constants: &mut ClassConstants<'_, '_, 'a, C>,
) -> Result<ExpectedTypes<'a>, AllocError>
    requires constants { constants.old.members.class ≡ body.now.method.now.class.now }
    ensures same { constants.new.members ≡ constants.old.members }
    ensures found { let m = method_view body.now.method.now in
        IfOk result (λ x. types_view x ≡ expected_types (typing_rule m (act_view act.now))) }
{
    let named = constants.named(body.method, act)?;
    ExpectedTypes::of(alloc, body.method, act, &named)
}

/// The first of all that an instruction takes that the frame before it has not.
fn unmet_if<'a, C: Classes>(
    alloc: Global,
    body: &Body<'_, 'a>,
    act: &Act<'a>,
    before: &Frame<'a>,
    constants: &mut ClassConstants<'_, '_, 'a, C>,
    classes: &C,
) -> Result<Option<Detail<'a>>, AllocError>
    requires constants { constants.old.members.class ≡ body.now.method.now.class.now }
    ensures same { constants.new.members ≡ constants.old.members }
    ensures found { let m = method_view body.now.method.now in IfOk result (λ o. option_map detail_of o
        ≡ unmet_if (C.content classes.now) m (typing_rule m (act_view act.now)) (Some (frame_of before.now))) }
{
    let types = types_of(alloc, body, act, constants)?;
    Ok(taken(first_unmet(body.method, body.starts, &types, before, classes)))
}

/// Whether a reason is that a class is missing; memory may have run out.
fn is_class_missing(reason: Reason<'_>) -> Result<bool, AllocError>
    ensures { IfOk result (λ asks. (reason.entry ≢ reasons.OutOfMemory)
        × (asks ≡ is_missing_class (reason_view reason.entry))) }
{
    match reason {
        Reason::OutOfMemory => Err(AllocError),
        Reason::ClassMissing(_) => Ok(true),
        _ => Ok(false),
    }
}

/// Whether a judgement says that a class is missing; memory may have run out.
fn asks_for_class(judged: Result<(), Reason<'_>>) -> Result<bool, AllocError>
    ensures { IfOk result (λ asks. (cs : Conditions)
        → MatchResult judged.entry (λ _. least cs ≡ None)
        (λ e. (e ≡ reasons.OutOfMemory) ⊎ (least cs ≡ Some (reason_view e))) → asks ≡ is_class_asked (least cs)) }
{
    match judged {
        Ok(()) => Ok(false),
        Err(reason) => is_class_missing(reason),
    }
}

/// How a judgement by a rule came out; memory may have run out.
fn ran_by(judged: Result<(), Reason<'_>>) -> Result<Ran, AllocError>
    ensures { IfOk result (λ ran. (cs : Conditions)
        → MatchResult judged.entry (λ _. least cs ≡ None)
        (λ e. (e ≡ reasons.OutOfMemory) ⊎ (least cs ≡ Some (reason_view e))) → IsBy ran (least cs)) }
{
    match judged {
        Ok(()) => Ok(Ran::Passed),
        Err(reason) => {
            if is_class_missing(reason)? {
                return Ok(Ran::LacksClass);
            }
            Ok(Ran::Refused)
        }
    }
}

/// Runs an instruction by its rule on the running frame.
fn run_rule<'a, C: Classes>(
    body: &Body<'_, 'a>,
    refused: RefusedAt<'a>,
    constants: &mut ClassConstants<'_, '_, 'a, C>,
    frames: &mut MethodFrames<'_, '_, 'a, C>,
) -> Result<Ran, AllocError>
    requires { IsReady body.now constants.old.members frames.old }
    ensures same { constants.new.members ≡ constants.old.members }
    ensures ran { let m = method_view body.now.method.now in let p = typing_rule m (act_view refused.entry.act) in
        let x = frames.old in IfOk result (λ ran.
        HasRun ran (least (conditions x.types.classes m refused.entry.at p (held x)))
        (after m refused.entry.at p (held x)) (held frames.new)) }
    ensures rest { IsRunning frames.old frames.new }
{
    let facts = facts_of(body.method, &refused.act, constants)?;
    ran_by(run(body, refused.at, &refused.act, facts, frames))
}

/// Whether it is asked for a class that is missing, in the running frame, which is the one before an instruction, if
/// the object may be one on which it uses a protected member.
fn member_asks<'a, C: Classes>(
    body: &Body<'_, 'a>,
    act: &Act<'a>,
    constants: &mut ClassConstants<'_, '_, 'a, C>,
    frames: &MethodFrames<'_, '_, 'a, C>,
) -> Result<bool, AllocError>
    requires constants { constants.old.members
        ≡ record { class = body.now.method.now.class.now; classes = frames.now.types.classes } }
    requires numbers { AreRuleNumbers frames.now.types (method_view body.now.method.now) body.now.numbers }
    ensures same { constants.new.members ≡ constants.old.members }
    ensures found { IfOk result (λ asks. asks ≡ is_class_asked (least (member_conditions
        frames.now.types.classes (method_view body.now.method.now) (act_view act.now) (held frames.now)))) }
{
    asks_for_class(check_member(body.method, act, body.numbers.class, constants, frames))
}

/// The comparison at a target, if one is found: the running frame is the one before the instruction, and becomes
/// another one.
fn target_if<'a, C: Classes>(
    alloc: Global,
    sought: Sought,
    body: &Body<'_, 'a>,
    refused: RefusedAt<'a>,
    constants: &mut ClassConstants<'_, '_, 'a, C>,
    frames: &mut MethodFrames<'_, '_, 'a, C>,
) -> Result<Option<Detail<'a>>, AllocError>
    requires { IsReady body.now constants.old.members frames.old }
    ensures same { constants.new.members ≡ constants.old.members }
    ensures found { let m = method_view body.now.method.now in let x = frames.old in
        IfOk result (λ o. option_map detail_of o
        ≡ target_if x.types.classes m (frames_by x.types x.declared) refused.entry.at (act_view refused.entry.act)
        (typing_rule m (act_view refused.entry.act)) sought (Some (held x))) }
    ensures rest { IsRunning frames.old frames.new }
{
    match run_rule(body, refused, constants, frames)? {
        Ran::Passed => target_after(alloc, sought, refused, frames),
        Ran::Refused | Ran::LacksClass => Ok(None),
    }
}

/// The comparison of the running frame, which is the one after the instruction, at a target, if one is found.
fn target_after<'a, C: Classes>(
    alloc: Global,
    sought: Sought,
    refused: RefusedAt<'a>,
    frames: &mut MethodFrames<'_, '_, 'a, C>,
) -> Result<Option<Detail<'a>>, AllocError>
    ensures same { frames.new ≡ frames.old }
    ensures found { let x = frames.old in (m : Method meanings.Act) → IfOk result (λ o. option_map detail_of o
        ≡ option_map details.target (at_targets sought x.types.classes (frames_by x.types x.declared) (held x)
        (targets refused.entry.at (typing_rule m (act_view refused.entry.act))))) }
{
    match target_difference(alloc, sought, refused.at, &refused.act, frames)? {
        Some(difference) => Ok(Some(Detail::Target(difference))),
        None => Ok(None),
    }
}

/// The comparison at a handler, if one is found. The running frame is the one before the instruction.
fn handler_if<'a, C: Classes>(
    alloc: Global,
    sought: Sought,
    body: &Body<'_, 'a>,
    at: u16,
    frames: &mut MethodFrames<'_, '_, 'a, C>,
) -> Result<Option<Detail<'a>>, AllocError>
    requires { AreRuleNumbers frames.old.types (method_view body.now.method.now) body.now.numbers }
    ensures same { frames.new ≡ frames.old }
    ensures found { let m = method_view body.now.method.now in let x = frames.old in
        (act : meanings.Act) (p : TypingRule) → IfOk result (λ o. option_map detail_of o
        ≡ handler_if x.types.classes m (frames_by x.types x.declared) at act p sought (Some (held x))) }
{
    let entries = exception_table(alloc, body)?;
    match handler_difference(alloc, sought, at, &entries, frames)? {
        Some((place, difference)) => Ok(Some(Detail::Handler(place, difference))),
        None => Ok(None),
    }
}

/// The comparison at a handler that asks for a class that is missing, unless the object of a protected member asks for
/// one. The running frame is the one before the instruction.
fn unknown_aside<'a, C: Classes>(
    alloc: Global,
    body: &Body<'_, 'a>,
    refused: RefusedAt<'a>,
    constants: &mut ClassConstants<'_, '_, 'a, C>,
    frames: &mut MethodFrames<'_, '_, 'a, C>,
) -> Result<Option<Detail<'a>>, AllocError>
    requires constants { constants.old.members
        ≡ record { class = body.now.method.now.class.now; classes = frames.old.types.classes } }
    requires numbers { AreRuleNumbers frames.old.types (method_view body.now.method.now) body.now.numbers }
    ensures same { constants.new.members ≡ constants.old.members }
    ensures frames { frames.new ≡ frames.old }
    ensures found { let m = method_view body.now.method.now in let x = frames.old in
        let a = act_view refused.entry.act in IfOk result (λ o. option_map detail_of o
        ≡ unknown_aside x.types.classes m (frames_by x.types x.declared) refused.entry.at a (typing_rule m a)
        (held x)) }
{
    if member_asks(body, &refused.act, constants, frames)? {
        return Ok(None);
    }
    handler_if(alloc, Sought::Missing, body, refused.at, frames)
}

/// The comparison that asks for a class that is missing, in the frame before an instruction, which is the running one
/// and becomes another one: of what it takes, at a target, or at a handler. None where it is about the object of a
/// protected member, or about the class that `invokespecial` names.
fn unknown_in<'a, C: Classes>(
    alloc: Global,
    body: &Body<'_, 'a>,
    refused: RefusedAt<'a>,
    before: &Frame<'a>,
    constants: &mut ClassConstants<'_, '_, 'a, C>,
    frames: &mut MethodFrames<'_, '_, 'a, C>,
) -> Result<Option<Detail<'a>>, AllocError>
    requires ready { IsReady body.now constants.old.members frames.old }
    requires before { frame_of before.now ≡ held frames.old }
    ensures same { constants.new.members ≡ constants.old.members }
    ensures found { let m = method_view body.now.method.now in let x = frames.old in
        let a = act_view refused.entry.act in IfOk result (λ o. option_map detail_of o
        ≡ unknown_in x.types.classes m (frames_by x.types x.declared) refused.entry.at a (typing_rule m a) (held x)) }
    ensures rest { IsRunning frames.old frames.new }
{
    let aside = unknown_aside(alloc, body, refused, constants, frames)?;
    match run_rule(body, refused, constants, frames)? {
        Ran::Refused => Ok(aside),
        Ran::LacksClass => {
            let types = types_of(alloc, body, &refused.act, constants)?;
            let classes = frames.types().classes();
            Ok(taken(first_unknown(body.method, &types, before, classes)))
        }
        Ran::Passed => {
            let target = target_after(alloc, Sought::Missing, refused, frames)?;
            Ok(target.or(aside))
        }
    }
}

/// The comparison that asks for a class that is missing: of the first entry of the exception table that is refused, of
/// the frame that comes with the declared one, or in the frame before the instruction, which is the running one if
/// there is one.
fn unknown_if<'a, C: Classes>(
    alloc: Global,
    body: &Body<'_, 'a>,
    refused: RefusedAt<'a>,
    met: &FramesAt<'a>,
    constants: &mut ClassConstants<'_, '_, 'a, C>,
    frames: &mut MethodFrames<'_, '_, 'a, C>,
) -> Result<Option<Detail<'a>>, AllocError>
    requires ready { IsReady body.now constants.old.members frames.old }
    requires before { IsIf (met_before (frames_view met.now)) (held frames.old) }
    ensures same { constants.new.members ≡ constants.old.members }
    ensures found { let m = method_view body.now.method.now in let x = frames.old in
        let a = act_view refused.entry.act in let f = frames_view met.now in IfOk result (λ o. option_map detail_of o
        ≡ unknown_if x.types.classes m (frames_by x.types x.declared) refused.entry.at a (typing_rule m a)
        f.coming f.declared (met_before f)) }
    ensures rest { IsRunning frames.old frames.new }
{
    let entry = refused_if(alloc, body, frames)?;
    if entry.is_some() {
        return Ok(entry);
    }
    let arriving = arriving_if(Sought::Missing, met, frames.types().classes());
    if arriving.is_some() {
        return Ok(arriving);
    }
    match met.before() {
        Some(before) => unknown_in(alloc, body, refused, before, constants, frames),
        None => Ok(None),
    }
}

/// The detail at fault that is about the frame before the instruction, which is the running one and may become another
/// one: what the instruction takes, a target or a handler.
fn detail_in<'a, C: Classes>(
    alloc: Global,
    body: &Body<'_, 'a>,
    refused: RefusedAt<'a>,
    before: &Frame<'a>,
    constants: &mut ClassConstants<'_, '_, 'a, C>,
    frames: &mut MethodFrames<'_, '_, 'a, C>,
) -> Result<Option<Detail<'a>>, AllocError>
    requires ready { IsReady body.now constants.old.members frames.old }
    requires before { frame_of before.now ≡ held frames.old }
    ensures same { constants.new.members ≡ constants.old.members }
    ensures found { let m = method_view body.now.method.now in let x = frames.old in
        let a = act_view refused.entry.act in IfOk result (λ o. option_map detail_of o
        ≡ detail_in x.types.classes m (frames_by x.types x.declared) refused.entry.at a (typing_rule m a)
        (reason_number refused.entry.reason) (Some (held x))) }
    ensures rest { IsRunning frames.old frames.new }
{
    match refused.reason {
        Reason::MissingOperand | Reason::WrongOperand | Reason::WrongLocal => {
            let classes = frames.types().classes();
            unmet_if(alloc, body, &refused.act, before, constants, classes)
        }
        Reason::NotAssignableAtTarget => {
            target_if(alloc, Sought::No, body, refused, constants, frames)
        }
        Reason::HandlerNotAssignable => handler_if(alloc, Sought::No, body, refused.at, frames),
        _ => Ok(None),
    }
}

/// The detail at fault at the instruction at which a method is refused, with the frame that comes there and the one
/// that is declared there. The frame before the instruction, if there is one, is the running one, and may become
/// another one. None where the reason is about nothing of these.
pub fn detail_at<'a, C: Classes>(
    alloc: Global,
    body: &Body<'_, 'a>,
    refused: RefusedAt<'a>,
    met: &FramesAt<'a>,
    constants: &mut ClassConstants<'_, '_, 'a, C>,
    frames: &mut MethodFrames<'_, '_, 'a, C>,
) -> Result<Option<Detail<'a>>, AllocError>
    requires ready { IsReady body.now constants.old.members frames.old }
    requires before { IsIf (met_before (frames_view met.now)) (held frames.old) }
    ensures same { constants.new.members ≡ constants.old.members }
    ensures found { let m = method_view body.now.method.now in let x = frames.old in
        let a = act_view refused.entry.act in let f = frames_view met.now in IfOk result (λ o. option_map detail_of o
        ≡ detail_at x.types.classes m (frames_by x.types x.declared) refused.entry.at a (typing_rule m a)
        (reason_number refused.entry.reason) f.coming f.declared (met_before f)) }
    ensures rest { IsRunning frames.old frames.new }
{
    match refused.reason {
        Reason::NotAssignable => Ok(arriving_if(Sought::No, met, frames.types().classes())),
        Reason::BadException => refused_if(alloc, body, frames),
        Reason::ConstructorCovered => covering_if(alloc, body, refused.at),
        Reason::ClassMissing(_) => unknown_if(alloc, body, refused, met, constants, frames),
        _ => match met.before() {
            Some(before) => detail_in(alloc, body, refused, before, constants, frames),
            None => Ok(None),
        },
    }
}
