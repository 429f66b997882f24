//! A method with code: its stack map, its exception table, and then its code.
ghost use Rattle.std.specs.Prelude.{◌≡◌, ◌≢◌, ◌≤◌, ◌<◌, ℕ, List, length, map, slice_index, Ok, IfOk, IfErr};
ghost use Rattle.layout.specs.declared.limits.TheConstants.{MAX_CODE_BYTES};
ghost use Rattle.layout.specs.declared.fault.ReadFault.TheVariants as reading;
ghost use Rattle.insn.specs.Instructions.{Instruction};
ghost use Rattle.insn.specs.Code.{SpellsCode};
ghost use Rattle.frames.specs.FrameAssignable.{width_of};
ghost use Rattle.frames.specs.Slots.{units_of};
ghost use Rattle.frames.specs.MapViews.{entry_of};
ghost use Rattle.type_numbers.specs.Numbers.{Numbering, IsGiven};
ghost use Rattle.type_numbers.specs.Decoding.{type_by, types_by};
ghost use Rattle.method_frames.specs.MapFrames.{AreMore, frames_by};
ghost use Rattle.numbered_rules.specs.RunningFrame.{held};
ghost use Rattle.numbered_rules.specs.RuleNumbers.{AreRuleNumbers};
ghost use Rattle.rules.specs.Bodies.{method_view};
ghost use Rattle.rules.specs.Table.{typing_rule};
ghost use Rattle.verify.specs.InitialFrames.{initial_types, initial_frame};
ghost use Rattle.verify.specs.Verdict.{entries_read, verdict, with_frames};
ghost use Rattle.verify.specs.private.JudgingSteps.{Gives};
ghost use Rattle.verify.specs.declared.stack_maps.MapRefusal.TheVariants as refusals;
ghost use Rattle.verify.specs.declared.verdict.VerifyFault.TheVariants.{OutOfMemory};
ghost use Rattle.verify.specs.private.pass.Maps.{DeclaresMap, IsFresh, BeginsWith};

use crate::pass::exceptions::{exception_table, handlers_of};
use crate::pass::handlers::Handlers;
use crate::pass::passing::pass;
use crate::refusal::{refuse, stack_map};
use crate::stack_maps::MapRefusal;
use crate::verdict::{Verdict, VerifyFault};
use frames::{Limits, MapEntry, read_map};
use hierarchy::Classes;
use layout::ReadFault;
use method_frames::{MethodFrames, declare, is_wide};
use numbered_rules::Body;
use rules::{ClassConstants, Reason};
use std::alloc::{AllocError, Global};

/// How many units a type takes, by its number.
fn width(number: u32) -> usize
    ensures units { (s : Numbering) → result ≡ width_of (type_by s number) }
    ensures few { result ≤ 2 }
{
    if is_wide(number) { 2 } else { 1 }
}

/// How many units types take, by their numbers.
pub fn units(numbers: &[u32]) -> usize
    ensures { (s : Numbering) → result ≡ units_of (types_by s numbers.now) }
{
    let mut units = 0;
    for i in 0..numbers.len() {
        units += width(numbers[i]);
    }
    units
}

/// Declares the frames of these entries, and makes the running frame the one with which the method begins; or tells the
/// first entry that is refused. The only other refusal is 1, where memory runs out.
fn declare_entries<'a, C: Classes>(
    alloc: Global,
    entries: &[MapEntry],
    body: &Body<'_, 'a>,
    initial: &[u32],
    frames: &mut MethodFrames<'_, '_, 'a, C>,
) -> Result<Result<(), MapRefusal>, AllocError>
    requires numbers { AreRuleNumbers frames.old.types (method_view body.now.method.now) body.now.numbers }
    requires fresh { IsFresh frames.old (method_view body.now.method.now) }
    requires initial { BeginsWith frames.old (method_view body.now.method.now) initial.now }
    ensures rest { AreMore frames.old frames.new }
    ensures declared { IfOk result (DeclaresMap frames.new (method_view body.now.method.now)
        (Ok (map entry_of entries.now))) }
{
    let code = body.method.code;
    let limits = Limits {
        pool: &body.method.class.constant_pool,
        starts: body.starts,
        max_locals: code.max_locals,
        max_stack: code.max_stack,
    };
    match declare(alloc, entries, &limits, body.numbers.table, initial, frames)? {
        Ok(()) => Ok(Ok(())),
        Err(entry) => Ok(Err(MapRefusal::Undeclared(entry))),
    }
}

/// The refusal of a stack map for a fault of its bytes; 1 where memory ran out.
fn unreadable(fault: ReadFault) -> Result<MapRefusal, VerifyFault>
    ensures told { IfOk result (λ why. (fault ≢ reading.OutOfMemory) × (why ≡ refusals.Unreadable fault)) }
    ensures memory { IfErr result (λ e. e ≡ OutOfMemory) }
{
    match fault {
        ReadFault::OutOfMemory => Err(VerifyFault::OutOfMemory),
        _ => Ok(MapRefusal::Unreadable(fault)),
    }
}

/// Declares the frames of a method's stack map (JVMS 4.7.4), none where it has no map, and makes the running frame the
/// one with which the method begins; or tells why the map is refused. The only other refusal is 1, where memory runs
/// out.
#[inline(never)]
pub fn declare_map<'a, C: Classes>(
    alloc: Global,
    body: &Body<'_, 'a>,
    initial: &[u32],
    frames: &mut MethodFrames<'_, '_, 'a, C>,
) -> Result<Result<(), MapRefusal>, VerifyFault>
    requires numbers { AreRuleNumbers frames.old.types (method_view body.now.method.now) body.now.numbers }
    requires fresh { IsFresh frames.old (method_view body.now.method.now) }
    requires initial { BeginsWith frames.old (method_view body.now.method.now) initial.now }
    ensures rest { AreMore frames.old frames.new }
    ensures told { let m = method_view body.now.method.now in
        IfOk result (DeclaresMap frames.new m (entries_read m.stack_map)) }
    ensures memory { IfErr result (λ e. e ≡ OutOfMemory) }
{
    let Some(bytes) = stack_map(body.method.code) else {
        let none = declare_entries(alloc, &[], body, initial, frames)?;
        return Ok(none);
    };
    let map = match read_map(alloc, bytes) {
        Ok(map) => map,
        Err(fault) => return Ok(Err(unreadable(fault)?)),
    };
    let declared = declare_entries(alloc, map.entries(), body, initial, frames)?;
    Ok(declared)
}

/// Judges a method by its exception table, under the frames that are declared, and then its instructions by one pass.
/// The running frame is the one with which the method begins.
fn judge_code<'a, C: Classes>(
    alloc: Global,
    body: &Body<'_, 'a>,
    constants: &mut ClassConstants<'_, '_, 'a, C>,
    frames: &mut MethodFrames<'_, '_, 'a, C>,
) -> Result<Verdict<'a>, VerifyFault>
    requires constants { constants.old.members
        ≡ record { class = body.now.method.now.class.now; classes = frames.old.types.classes } }
    requires initial { held frames.old ≡ initial_frame (method_view body.now.method.now) }
    requires locals { length frames.old.running.locals ≡ body.now.method.now.code.now.max_locals }
    requires numbers { AreRuleNumbers frames.old.types (method_view body.now.method.now) body.now.numbers }
    requires spelled { (xs : List (ℕ × Instruction)) × SpellsCode 0 body.now.method.now.code.now.code.now xs }
    requires few { length body.now.method.now.code.now.code.now ≤ MAX_CODE_BYTES }
    ensures same { constants.new.members ≡ constants.old.members }
    ensures types { frames.new.types ≡ frames.old.types }
    ensures judged { let s = frames.old.types in Gives (with_frames typing_rule s.classes
        (method_view body.now.method.now) (Ok (frames_by s frames.old.declared))) result }
{
    let entries = exception_table(alloc, body)?;
    let table = match handlers_of(alloc, &entries, body, frames) {
        Ok(table) => table,
        Err(reason) => return refuse(0, reason),
    };
    let mut handlers = Handlers::new(alloc, table)?;
    pass(body, constants, &mut handlers, frames)
}

/// Judges a method with code (JVMS 4.10.1), whose receiver and parameters have types of these numbers: 64 where they do
/// not fit, 78 where its stack map is refused, and then by its exception table and its instructions. `frames` may have
/// been those of another method of the class.
pub fn judge_body<'a, C: Classes>(
    alloc: Global,
    body: &Body<'_, 'a>,
    initial: &[u32],
    constants: &mut ClassConstants<'_, '_, 'a, C>,
    frames: &mut MethodFrames<'_, '_, 'a, C>,
) -> Result<Verdict<'a>, VerifyFault>
    requires constants { constants.old.members
        ≡ record { class = body.now.method.now.class.now; classes = frames.old.types.classes } }
    requires numbers { AreRuleNumbers frames.old.types (method_view body.now.method.now) body.now.numbers }
    requires initial { types_by frames.old.types initial.now ≡ initial_types (method_view body.now.method.now) }
    requires given { (i : ℕ) → i < length initial.now → IsGiven frames.old.types (slice_index initial.now i) }
    requires spelled { (xs : List (ℕ × Instruction)) × SpellsCode 0 body.now.method.now.code.now.code.now xs }
    requires few { length body.now.method.now.code.now.code.now ≤ MAX_CODE_BYTES }
    ensures same { constants.new.members ≡ constants.old.members }
    ensures types { frames.new.types ≡ frames.old.types }
    ensures judged { Gives (verdict typing_rule frames.old.types.classes (method_view body.now.method.now)) result }
{
    let code = body.method.code;
    frames.restart(code.max_locals, code.max_stack, false);
    if units(initial) > usize::from(code.max_locals) {
        return refuse(0, Reason::LocalOutOfRange);
    }
    match declare_map(alloc, body, initial, frames)? {
        Ok(()) => judge_code(alloc, body, constants, frames),
        Err(why) => refuse(
            0,
            Reason::BadStackMap {
                fault: why.number(),
            },
        ),
    }
}
