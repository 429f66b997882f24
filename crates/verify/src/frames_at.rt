//! The frames at the instruction at which a method is refused: the one that comes to it, and the one that is declared
//! there; and what is wrong.
ghost use Rattle.std.specs.Prelude.{◌≡◌, ◌≢◌, ◌<◌, ◌≤◌, ◌-◌, ℕ, false, Ok, Some, List, length, option_map, slice_index, IfOk, IfErr};
ghost use Rattle.std.specs.Option.{option_map_or};
ghost use Rattle.layout.specs.declared.limits.TheConstants.{MAX_CODE_BYTES};
ghost use Rattle.classfile.specs.CodeMethods.{class_of};
ghost use Rattle.classfile.specs.MethodParts.{code_at};
ghost use Rattle.classfile.specs.Views.{class_view, code_view};
ghost use Rattle.classfile.specs.WellFormed.{WellFormed};
ghost use Rattle.insn.specs.declared.fault.CodeFault.TheVariants as codes;
ghost use Rattle.insn.specs.Instructions.{Instruction};
ghost use Rattle.insn.specs.Code.{SpellsCode};
ghost use Rattle.insn.specs.Offsets.{at_offset};
ghost use Rattle.insn.specs.Views.{act_view};
ghost use Rattle.frames.specs.FrameFact.{frame_of};
ghost use Rattle.type_numbers.specs.Numbers.{IsGiven};
ghost use Rattle.type_numbers.specs.Decoding.{types_by};
ghost use Rattle.method_frames.specs.MapFrames.{frames_by};
ghost use Rattle.numbered_rules.specs.RunningFrame.{held, IsRunning};
ghost use Rattle.numbered_rules.specs.RuleNumbers.{AreRuleNumbers};
ghost use Rattle.rules.specs.Bodies.{method_view};
ghost use Rattle.rules.specs.declared.reason.Reason.TheVariants as reasons;
ghost use Rattle.rules.specs.Reasons.{reason_number};
ghost use Rattle.rules.specs.Table.{typing_rule};
ghost use Rattle.verify.specs.declared.verdict.VerifyFault.TheVariants.{OutOfMemory};
ghost use Rattle.verify.specs.InitialFrames.{initial_types};
ghost use Rattle.verify.specs.Coming.{no_frames, frames_with, before, met_before, frame_if, going, met, frames_at, frames_view, frame_size, frames_size, AreFramesOf};
ghost use Rattle.verify.specs.private.Ready.{IsReady};
ghost use Rattle.verify.specs.private.pass.ClassTypes.{AreClassTypes};

use crate::detail::{Detail, RefusedAt, detail_at};
use crate::pass::ClassTypes;
use crate::pass::declared::declared_in;
use crate::pass::members::facts_of;
use crate::pass::method::{declare_map, units};
use crate::stack_maps::map_detail;
use crate::verdict::VerifyFault;
use classfile::CodeMethod;
use frames::{CodeStarts, Frame};
use hierarchy::Classes;
use insn::{Act, CodeFault, Instructions};
use method_frames::MethodFrames;
use numbered_rules::{Body, run};
use rules::{ClassConstants, Reason, goes_on};
use std::alloc::{AllocError, Global};

/// The frames of a method are kept where those of the methods before it have fewer types than this, so that all of them
/// take memory that is linear in the class.
pub const MOST_KEPT: usize = 65_536;

/// Where a method is refused, and why.
#[derive(Clone, Copy)]
pub struct Refusal<'a> {
    /// The offset of the instruction, in bytes.
    pub at: usize,
    /// The reason.
    pub reason: Reason<'a>,
}

/// The frames at the instruction at which a method is refused (JVMS 4.10.1.6), and what is wrong.
#[derive(Debug, Drop)]
pub struct FramesAt<'a> {
    /// The frame that comes to it: the one after the instruction in front, or the one with which the method begins.
    /// None where the instruction in front never goes on, or is refused by its rule.
    pub coming: Option<Frame<'a>>,
    /// The frame that the stack map declares there, if it declares one.
    pub declared: Option<Frame<'a>>,
    /// The comparison of types or the entry of a table that the reason is about, where it is found.
    pub detail: Option<Detail<'a>>,
}

impl<'a> FramesAt<'a> {
    /// No frame.
    pub fn none() -> FramesAt<'a>
        ensures { frames_view result ≡ no_frames }
    {
        FramesAt {
            coming: None,
            declared: None,
            detail: None,
        }
    }

    /// The frame before the instruction, if there is one: the one that is declared there, and otherwise the one that
    /// comes.
    pub fn before(&self) -> Option<&Frame<'a>>
        ensures { option_map (λ f. frame_of f.now) result ≡ met_before (frames_view self.now) }
    {
        if let Some(declared) = &self.declared {
            return Some(declared);
        }
        self.coming.as_ref()
    }

    /// A number less the types of these frames; 0 where they have more.
    pub fn taken_off(&self, left: usize) -> usize
        ensures { result ≡ left - frames_size (frames_view self.now) }
    {
        less(less(left, &self.coming), &self.declared)
    }
}

/// A number less the types of a frame, if there is one; 0 where the frame has more.
fn less(left: usize, frame: &Option<Frame<'_>>) -> usize
    ensures { result ≡ left - frame_size (option_map frame_of frame.now) }
{
    match frame {
        Some(frame) => left
            .saturating_sub(frame.locals.len())
            .saturating_sub(frame.stack.len()),
        None => left,
    }
}

/// No frame goes on from an instruction that was refused for this reason; 1 where memory ran out.
fn stopped(reason: Reason<'_>) -> Result<bool, VerifyFault>
    ensures found { IfOk result (λ goes. (goes ≡ false) × (reason.entry ≢ reasons.OutOfMemory)) }
    ensures memory { IfErr result (λ e. e ≡ OutOfMemory) }
{
    match reason {
        Reason::OutOfMemory => Err(VerifyFault::OutOfMemory),
        _ => Ok(false),
    }
}

/// Runs an instruction with this act on the running frame. Returns whether the frame goes on to the next instruction;
/// where it does not, nothing is said of the frame.
fn go_on<'a, C: Classes>(
    body: &Body<'_, 'a>,
    at: u16,
    act: &Act<'a>,
    constants: &mut ClassConstants<'_, '_, 'a, C>,
    frames: &mut MethodFrames<'_, '_, 'a, C>,
) -> Result<bool, VerifyFault>
    requires { IsReady body.now constants.old.members frames.old }
    ensures same { constants.new.members ≡ constants.old.members }
    ensures goes { let m = method_view body.now.method.now in
        IfOk result (λ goes. frame_if goes (held frames.new)
        ≡ going frames.old.types.classes m at (typing_rule m (act_view act.now)) (Some (held frames.old))) }
    ensures rest { IsRunning frames.old frames.new }
    ensures memory { IfErr result (λ e. e ≡ OutOfMemory) }
{
    let facts = facts_of(body.method, act, constants)?;
    match run(body, at, act, facts, frames) {
        Ok(()) => Ok(goes_on(act)),
        Err(reason) => stopped(reason),
    }
}

/// Makes the running frame the one before an instruction: the one that is declared there, and otherwise the one that
/// comes. Returns whether there is one.
fn take_before<'n, C: Classes>(
    at: u16,
    comes: bool,
    frames: &mut MethodFrames<'_, '_, 'n, C>,
) -> Result<bool, AllocError>
    ensures found { let x = frames.old in IfOk result (λ is. frame_if is (held frames.new)
        ≡ before (frame_if comes (held x)) (at_offset (frames_by x.types x.declared) at)) }
    ensures rest { IsRunning frames.old frames.new }
{
    let Some(frame) = declared_in(at, frames) else {
        return Ok(comes);
    };
    frames.take(frame)?;
    Ok(true)
}

/// Goes from an instruction to the next: the frame that is declared there, or otherwise the one that comes, becomes the
/// frame after. Returns whether the frame goes on.
fn step<'a, C: Classes>(
    body: &Body<'_, 'a>,
    at: u16,
    act: &Act<'a>,
    comes: bool,
    constants: &mut ClassConstants<'_, '_, 'a, C>,
    frames: &mut MethodFrames<'_, '_, 'a, C>,
) -> Result<bool, VerifyFault>
    requires { IsReady body.now constants.old.members frames.old }
    ensures same { constants.new.members ≡ constants.old.members }
    ensures goes { let m = method_view body.now.method.now in let x = frames.old in
        IfOk result (λ goes. frame_if goes (held frames.new)
        ≡ going x.types.classes m at (typing_rule m (act_view act.now))
        (before (frame_if comes (held x)) (at_offset (frames_by x.types x.declared) at))) }
    ensures rest { IsRunning frames.old frames.new }
    ensures memory { IfErr result (λ e. e ≡ OutOfMemory) }
{
    if !take_before(at, comes, frames)? {
        return Ok(false);
    }
    go_on(body, at, act, constants, frames)
}

/// The running frame, if it comes.
fn frame_that<'a, C: Classes>(
    alloc: Global,
    comes: bool,
    frames: &MethodFrames<'_, '_, 'a, C>,
) -> Result<Option<Frame<'a>>, AllocError>
    ensures { IfOk result (λ o. option_map frame_of o ≡ frame_if comes (held frames.now)) }
{
    if !comes {
        return Ok(None);
    }
    Ok(Some(frames.frame(alloc)?))
}

/// The frame that is declared at an offset, if one is, which becomes the running one.
fn take_declared<'a, C: Classes>(
    alloc: Global,
    at: u16,
    frames: &mut MethodFrames<'_, '_, 'a, C>,
) -> Result<Option<Frame<'a>>, AllocError>
    ensures found { let x = frames.old in
        IfOk result (λ o. option_map frame_of o ≡ at_offset (frames_by x.types x.declared) at) }
    ensures running { IfOk result (λ o. held frames.new ≡ option_map_or frame_of o (held frames.old)) }
    ensures rest { IsRunning frames.old frames.new }
{
    let Some(frame) = declared_in(at, frames) else {
        return Ok(None);
    };
    frames.take(frame)?;
    Ok(Some(frames.frame(alloc)?))
}

/// The frame that comes to the instruction at which a method is refused, if it does, the one that is declared there,
/// and what is wrong.
fn meet<'a, C: Classes>(
    alloc: Global,
    body: &Body<'_, 'a>,
    refused: RefusedAt<'a>,
    comes: bool,
    constants: &mut ClassConstants<'_, '_, 'a, C>,
    frames: &mut MethodFrames<'_, '_, 'a, C>,
) -> Result<FramesAt<'a>, AllocError>
    requires { IsReady body.now constants.old.members frames.old }
    ensures same { constants.new.members ≡ constants.old.members }
    ensures found { let m = method_view body.now.method.now in let a = act_view refused.entry.act in
        let x = frames.old in let declared = frames_by x.types x.declared in IfOk result (λ met. frames_view met
        ≡ frames_with x.types.classes m declared refused.entry.at a (typing_rule m a)
        (reason_number refused.entry.reason) (frame_if comes (held x)) (at_offset declared refused.entry.at)) }
    ensures rest { IsRunning frames.old frames.new }
{
    let coming = frame_that(alloc, comes, frames)?;
    let declared = take_declared(alloc, refused.at, frames)?;
    let mut met = FramesAt {
        coming,
        declared,
        detail: None,
    };
    met.detail = detail_at(alloc, body, refused, &met, constants, frames)?;
    Ok(met)
}

/// The frames at the offset at which code is refused, by one walk over it with the running frame, the one with which
/// the method begins.
fn walk<'a, C: Classes>(
    alloc: Global,
    body: &Body<'_, 'a>,
    refusal: Refusal<'a>,
    constants: &mut ClassConstants<'_, '_, 'a, C>,
    frames: &mut MethodFrames<'_, '_, 'a, C>,
) -> Result<FramesAt<'a>, VerifyFault>
    requires ready { IsReady body.now constants.old.members frames.old }
    requires spelled { (xs : List (ℕ × Instruction)) × SpellsCode 0 body.now.method.now.code.now.code.now xs }
    requires few { length body.now.method.now.code.now.code.now ≤ MAX_CODE_BYTES }
    ensures same { constants.new.members ≡ constants.old.members }
    ensures found { let m = method_view body.now.method.now in let x = frames.old in
        IfOk result (λ found. frames_view found
        ≡ met typing_rule x.types.classes m (frames_by x.types x.declared) (reason_number refusal.entry.reason)
        m.code (Some (held x)) refusal.entry.at) }
    ensures rest { IsRunning frames.old frames.new }
    ensures memory { IfErr result (λ e. e ≡ OutOfMemory) }
{
    let mut code = Instructions::new(body.method.code.code);
    let mut comes = true;
    while !code.is_at_end() {
        let at = code.at() as u16;
        let act = code.take_act();
        if usize::from(at) == refusal.at {
            let reason = refusal.reason;
            let refused = RefusedAt { at, act, reason };
            return Ok(meet(alloc, body, refused, comes, constants, frames)?);
        }
        comes = step(body, at, &act, comes, constants, frames)?;
    }
    Ok(FramesAt::none())
}

/// The frames at the offset at which a method is refused, whose receiver and parameters have types of these numbers.
fn frames_in_body<'a, C: Classes>(
    alloc: Global,
    body: &Body<'_, 'a>,
    initial: &[u32],
    refusal: Refusal<'a>,
    constants: &mut ClassConstants<'_, '_, 'a, C>,
    frames: &mut MethodFrames<'_, '_, 'a, C>,
) -> Result<FramesAt<'a>, VerifyFault>
    requires constants { constants.old.members
        ≡ record { class = body.now.method.now.class.now; classes = frames.old.types.classes } }
    requires numbers { AreRuleNumbers frames.old.types (method_view body.now.method.now) body.now.numbers }
    requires initial { types_by frames.old.types initial.now ≡ initial_types (method_view body.now.method.now) }
    requires given { (i : ℕ) → i < length initial.now → IsGiven frames.old.types (slice_index initial.now i) }
    requires spelled { (xs : List (ℕ × Instruction)) × SpellsCode 0 body.now.method.now.code.now.code.now xs }
    requires few { length body.now.method.now.code.now.code.now ≤ MAX_CODE_BYTES }
    ensures same { constants.new.members ≡ constants.old.members }
    ensures types { frames.new.types ≡ frames.old.types }
    ensures found { IfOk result (λ met. frames_view met
        ≡ frames_at typing_rule frames.old.types.classes (method_view body.now.method.now)
        (reason_number refusal.entry.reason) refusal.entry.at) }
    ensures memory { IfErr result (λ e. e ≡ OutOfMemory) }
{
    let code = body.method.code;
    frames.restart(code.max_locals, code.max_stack, false);
    if units(initial) > usize::from(code.max_locals) {
        return Ok(FramesAt::none());
    }
    match declare_map(alloc, body, initial, frames)? {
        Ok(()) => walk(alloc, body, refusal, constants, frames),
        Err(why) => Ok(FramesAt {
            coming: None,
            declared: None,
            detail: map_detail(alloc, body.method, why)?,
        }),
    }
}

/// No frame where bytes are no code; 1 where memory ran out.
fn without_code<'a>(fault: CodeFault) -> Result<FramesAt<'a>, VerifyFault>
    ensures found { IfOk result (λ x. (fault ≢ codes.OutOfMemory) × (frames_view x ≡ no_frames)) }
    ensures memory { IfErr result (λ e. e ≡ OutOfMemory) }
{
    match fault {
        CodeFault::OutOfMemory => Err(VerifyFault::OutOfMemory),
        _ => Ok(FramesAt::none()),
    }
}

/// The frames at the offset at which a method with code is refused (JVMS 4.10.1.6), and what is wrong; none where its
/// bytes are no instructions, where its receiver and its parameters do not fit into max_locals, or where no instruction
/// begins at the offset. Where its stack map is refused, there are no frames, and what is wrong is in the map. The
/// types and the constants are those of its class.
pub fn frames_of<'a, C: Classes>(
    alloc: Global,
    method: CodeMethod<'_, 'a>,
    refusal: Refusal<'a>,
    types: &ClassTypes,
    constants: &mut ClassConstants<'_, '_, 'a, C>,
    frames: &mut MethodFrames<'_, '_, 'a, C>,
) -> Result<FramesAt<'a>, VerifyFault>
    requires constants { constants.old.members
        ≡ record { class = method.class.now; classes = frames.old.types.classes } }
    requires types { AreClassTypes frames.old.types (class_view method.class.now) types.now }
    requires formed { WellFormed (class_view method.class.now) }
    requires coded { code_at (class_view method.class.now) method.number ≡ Some (code_view method.code.now) }
    ensures same { constants.new.members ≡ constants.old.members }
    ensures types { frames.new.types ≡ frames.old.types }
    ensures found { IfOk result (λ x. AreFramesOf frames.old.types.classes (class_of method.entry) method.entry.number
        (reason_number refusal.entry.reason) refusal.entry.at (frames_view x)) }
    ensures memory { IfErr result (λ e. e ≡ OutOfMemory) }
{
    let starts = match CodeStarts::new(alloc, method.code.code) {
        Ok(starts) => starts,
        Err(fault) => return without_code(fault),
    };
    let initial = types.initial(alloc, &method)?;
    let body = Body {
        method: &method,
        starts: &starts,
        numbers: types.rule_numbers(&method),
    };
    frames_in_body(alloc, &body, &initial, refusal, constants, frames)
}
