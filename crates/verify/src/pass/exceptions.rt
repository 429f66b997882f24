//! The exception table of a method, which is judged before the code (JVMS 4.7.3, 4.10.1.6), by the numbers of types.
ghost use Rattle.std.specs.Prelude.{◌≡◌, ◌<◌, ℕ, pos, length, slice_index, map, option_map, IfOk};
ghost use Rattle.names.specs.StandardNames.{throwable_name};
ghost use Rattle.classfile.specs.Methods.{ExceptionEntry, Method, caught_type, exception_entries};
ghost use Rattle.classfile.specs.Views.{handler_view};
ghost use Rattle.hierarchy.specs.Answer.{outcome_of};
ghost use Rattle.insn.specs.Meanings.{Act};
ghost use Rattle.frames.specs.Assignable.{type_answer};
ghost use Rattle.frames.specs.Slots.{to_reference};
ghost use Rattle.frames.specs.VerificationType.{class};
ghost use Rattle.method_frames.specs.MapFrames.{frames_by};
ghost use Rattle.numbered_rules.specs.RuleNumbers.{AreRuleNumbers};
ghost use Rattle.rules.specs.Bodies.{method_view};
ghost use Rattle.type_numbers.specs.Numbers.{Numbering, IsNumberOf};
ghost use Rattle.verify.specs.Verdict.{is_end};
ghost use Rattle.verify.specs.private.pass.Exceptions.{IsEntryBy, AreEntriesBy, HasEntries, is_placed, IsPlaced, JudgesEntry, JudgesTable};
ghost use Rattle.verify.specs.private.pass.Finding.{IsFound};
ghost use Rattle.verify.specs.private.pass.Following.{IsHandler, AreHandlers};
ghost use Rattle.verify.specs.private.pass.Representatives.{IsLead, AreLeads};

use crate::flow::check_answer;
use crate::pass::declared::declared_in;
use crate::pass::handlers::Handler;
use classfile::ExceptionHandler;
use frames::Starts;
use hierarchy::{Answer, Classes};
use method_frames::MethodFrames;
use numbered_rules::{Body, RuleNumbers};
use rules::Reason;
use std::alloc::{AllocError, Global};
use type_numbers::NamedConstant;

/// An entry of an exception table (JVMS 4.7.3).
#[derive(Clone, Copy, Debug)]
pub struct Entry {
    /// The offset of the first instruction that it covers, in bytes.
    pub from: u16,
    /// The offset after those that it covers.
    pub to: u16,
    /// The offset of the handler.
    pub handler: u16,
    /// The number of the type that it catches.
    pub caught: u32,
}

/// The number of the type that an entry catches: catch type 0 is for all that is thrown.
fn caught_type(index: u16, numbers: &RuleNumbers<'_>) -> Option<u32>
    ensures { (s : Numbering) (m : Method Act) → AreRuleNumbers s m numbers.now
        → IsNumberOf s result (option_map to_reference (caught_type m.constant_pool index)) }
{
    if index == 0 {
        return Some(numbers.throwable);
    }
    match numbers.table.get(index) {
        NamedConstant::Class { class, .. } => Some(class),
        _ => None,
    }
}

/// The entries of a table, if each type that it catches is there.
fn table_entries(
    alloc: Global,
    table: &[ExceptionHandler],
    numbers: &RuleNumbers<'_>,
) -> Result<Option<Vec<Entry>>, AllocError>
    ensures { IfOk result (λ o. (s : Numbering) (m : Method Act) → AreRuleNumbers s m numbers.now
        → HasEntries s (exception_entries m.constant_pool (map handler_view table.now)) (option_map (λ v. v.items) o)) }
{
    let mut entries = Vec::with_capacity(alloc, table.len())?;
    for item in table {
        let Some(caught) = caught_type(item.catch_type, numbers) else {
            return Ok(None);
        };
        entries.push(Entry {
            from: item.start_pc,
            to: item.end_pc,
            handler: item.handler_pc,
            caught,
        })?;
    }
    Ok(Some(entries))
}

/// The exception table of a method. The only refusal is 1, where memory runs out.
pub fn exception_table(alloc: Global, body: &Body<'_, '_>) -> Result<Vec<Entry>, AllocError>
    ensures { let m = method_view body.now.method.now in IfOk result (λ v. (s : Numbering)
        → AreRuleNumbers s m body.now.numbers → AreEntriesBy s m.exceptions v.items) }
{
    match table_entries(alloc, &body.method.code.exception_table, &body.numbers)? {
        Some(entries) => Ok(entries),
        // Not so in a class that is well formed.
        None => Ok(Vec::new(alloc)),
    }
}

/// Whether a range of code may end at an offset: where an instruction begins, or after the last one.
fn is_end(to: u16, body: &Body<'_, '_>) -> bool
    ensures { result ≡ is_end (method_view body.now.method.now) to }
{
    body.starts.is_start(u32::from(to)) || usize::from(to) == body.method.code.code.len()
}

/// Whether the range of an entry is not empty and lies between starts of instructions, and its handler is such a start.
fn is_placed(entry: &Entry, body: &Body<'_, '_>) -> bool
    ensures { (s : Numbering) (e : ExceptionEntry) → IsEntryBy s e entry.now
        → result ≡ is_placed (method_view body.now.method.now) e }
{
    entry.from < entry.to
        && body.starts.is_start(u32::from(entry.from))
        && is_end(entry.to, body)
        && body.starts.is_start(u32::from(entry.handler))
}

/// The place of the frame that is declared at an entry's handler, if range and handler stand where they may.
fn place_of<C: Classes>(
    entry: &Entry,
    body: &Body<'_, '_>,
    frames: &MethodFrames<'_, '_, '_, C>,
) -> Option<usize>
    ensures { let x = frames.now in (e : ExceptionEntry) → IsEntryBy x.types e entry.now
        → IsPlaced x (method_view body.now.method.now) e result }
{
    if is_placed(entry, body) {
        declared_in(entry.handler, frames)
    } else {
        None
    }
}

/// Whether what an entry catches is assignable to Throwable.
fn throwable_answer<'n, C: Classes>(
    entry: &Entry,
    body: &Body<'_, '_>,
    frames: &MethodFrames<'_, '_, 'n, C>,
) -> Answer<'n>
    requires numbers { AreRuleNumbers frames.now.types (method_view body.now.method.now) body.now.numbers }
    requires entry { (e : ExceptionEntry) × IsEntryBy frames.now.types e entry.now }
    ensures { let s = frames.now.types in (e : ExceptionEntry) → IsEntryBy s e entry.now
        → outcome_of result ≡ type_answer s.classes (to_reference e.caught) (class throwable_name) }
{
    frames
        .types()
        .assignable(entry.caught, body.numbers.throwable)
}

/// The place of the frame that is declared at an entry's handler. The entry is refused 72 where it is wrong: by its
/// places, or since what it catches is not assignable to Throwable; 77 by that comparison.
pub fn judge_entry<'n, C: Classes>(
    entry: &Entry,
    body: &Body<'_, '_>,
    frames: &MethodFrames<'_, '_, 'n, C>,
) -> Result<usize, Reason<'n>>
    requires numbers { AreRuleNumbers frames.now.types (method_view body.now.method.now) body.now.numbers }
    requires entry { (e : ExceptionEntry) × IsEntryBy frames.now.types e entry.now }
    ensures { let x = frames.now in (e : ExceptionEntry) → IsEntryBy x.types e entry.now
        → JudgesEntry x (method_view body.now.method.now) e (IsFound x.types x.declared (pos e.handler)) result }
{
    let Some(frame) = place_of(entry, body, frames) else {
        return Err(Reason::BadException);
    };
    let answer = throwable_answer(entry, body, frames);
    check_answer(answer, Reason::BadException)?;
    Ok(frame)
}

/// For a table of at most so many entries a frame is compared with the one in front of it alone.
const FEW_ENTRIES: usize = 64;

/// With so many frames in front of it a frame is compared where the table is longer, so that frames of a few kinds in
/// turn have as few leads.
const MOST_NEAR: usize = 8;

/// A frame that stands for a declared one, since it has the same locals: one that stands for one of so many frames in
/// front of it, where one of them has these locals.
fn lead_of<C: Classes>(
    leads: &[usize],
    near: usize,
    frame: usize,
    frames: &MethodFrames<'_, '_, '_, C>,
) -> usize
    requires leads { (k : ℕ) → k < length leads.now → slice_index leads.now k < length frames.now.declared }
    requires frame { frame < length frames.now.declared }
    ensures { IsLead frames.now.declared result frame }
{
    for i in leads.len().saturating_sub(near)..leads.len() {
        let lead = leads[i];
        if frames.first_unequal(frame, lead).is_none() {
            return lead;
        }
    }
    frame
}

/// For each declared frame one that stands for it, by the locals of so many frames in front of it.
fn leads_of<C: Classes>(
    alloc: Global,
    near: usize,
    frames: &MethodFrames<'_, '_, '_, C>,
) -> Result<Vec<usize>, AllocError>
    ensures { IfOk result (λ v. AreLeads frames.now.declared v.items) }
{
    let mut leads: Vec<usize> = Vec::with_capacity(alloc, frames.count())?;
    for frame in 0..frames.count() {
        let lead = lead_of(&leads, near, frame, frames);
        leads.push(lead)?;
    }
    Ok(leads)
}

/// The handler of an entry. The entry is refused 72 or 77.
fn handler_of<'n, C: Classes>(
    entry: &Entry,
    leads: &[usize],
    body: &Body<'_, '_>,
    frames: &MethodFrames<'_, '_, 'n, C>,
) -> Result<Handler, Reason<'n>>
    requires numbers { AreRuleNumbers frames.now.types (method_view body.now.method.now) body.now.numbers }
    requires entry { (e : ExceptionEntry) × IsEntryBy frames.now.types e entry.now }
    requires leads { AreLeads frames.now.declared leads.now }
    ensures { let x = frames.now in (e : ExceptionEntry) → IsEntryBy x.types e entry.now
        → JudgesEntry x (method_view body.now.method.now) e (IsHandler x.types x.declared e) result }
{
    let frame = judge_entry(entry, body, frames)?;
    Ok(Handler {
        from: entry.from,
        to: entry.to,
        frame,
        caught: entry.caught,
        lead: leads[frame],
    })
}

/// Judges entries of an exception table, and makes them ready for the pass. Each declared frame has a lead.
fn judge_entries<'n, C: Classes>(
    alloc: Global,
    entries: &[Entry],
    leads: &[usize],
    body: &Body<'_, '_>,
    frames: &MethodFrames<'_, '_, 'n, C>,
) -> Result<Vec<Handler>, Reason<'n>>
    requires numbers { AreRuleNumbers frames.now.types (method_view body.now.method.now) body.now.numbers }
    requires entries { AreEntriesBy frames.now.types (method_view body.now.method.now).exceptions entries.now }
    requires leads { AreLeads frames.now.declared leads.now }
    ensures handlers { let x = frames.now in
        IfOk result (λ v. AreHandlers x.types x.declared (method_view body.now.method.now).exceptions v.items) }
    ensures judged { let x = frames.now in let m = method_view body.now.method.now in
        JudgesTable x.types.classes m (frames_by x.types x.declared) m.exceptions result }
{
    let mut table: Vec<Handler> = Vec::with_capacity(alloc, entries.len())?;
    for entry in entries {
        let handler = handler_of(entry, leads, body, frames)?;
        table.push(handler)?;
    }
    Ok(table)
}

/// Judges an exception table by the frames that are declared, and makes it ready for the pass: the first entry that is
/// wrong is refused 72, or 77 where the class that it catches has to be looked up and is absent; or 1 where memory runs
/// out.
pub fn handlers_of<'n, C: Classes>(
    alloc: Global,
    entries: &[Entry],
    body: &Body<'_, '_>,
    frames: &MethodFrames<'_, '_, 'n, C>,
) -> Result<Vec<Handler>, Reason<'n>>
    requires numbers { AreRuleNumbers frames.now.types (method_view body.now.method.now) body.now.numbers }
    requires entries { AreEntriesBy frames.now.types (method_view body.now.method.now).exceptions entries.now }
    ensures handlers { let x = frames.now in
        IfOk result (λ v. AreHandlers x.types x.declared (method_view body.now.method.now).exceptions v.items) }
    ensures judged { let x = frames.now in let m = method_view body.now.method.now in
        JudgesTable x.types.classes m (frames_by x.types x.declared) m.exceptions result }
{
    if entries.is_empty() {
        return Ok(Vec::new(alloc));
    }
    let near = if entries.len() > FEW_ENTRIES {
        MOST_NEAR
    } else {
        1
    };
    let leads = leads_of(alloc, near, frames)?;
    judge_entries(alloc, entries, &leads, body, frames)
}
