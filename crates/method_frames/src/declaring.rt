//! The frames that the entries of a stack map declare, as frames of a method.
ghost use Rattle.std.specs.Prelude.{◌≡◌, ◌+◌, ◌*◌, ◌<◌, ◌≤◌, ℕ, List, [], ◌∷◌, ◌++◌, length, map, take, reverse, replicate, slice_index, None, Some, IfOk, OnOk};
ghost use Rattle.pool.specs.Entries.{Entry};
ghost use Rattle.insn.specs.Offsets.{at_offset};
ghost use Rattle.frames.specs.VerificationType.{VerificationType};
ghost use Rattle.frames.specs.FrameAssignable.{width_of};
ghost use Rattle.frames.specs.MapViews.{info_of, entry_of};
ghost use Rattle.frames.specs.DeclaredFrames.{type_given, types_given, declared_frames, stack_of, frame_with};
ghost use Rattle.frames.specs.RefusedEntries.{refused_entry};
ghost use Rattle.frames.specs.Slots.{units_of};
ghost use Rattle.type_numbers.specs.Constants.{IsTable};
ghost use Rattle.type_numbers.specs.Numbers.{Numbering, IsNumber, IsGiven};
ghost use Rattle.type_numbers.specs.Decoding.{type_by, types_by};
ghost use Rattle.method_frames.specs.MapFrames.{AreDeclared, AreMore, IsLaidOut, frames_by, refused_by};
ghost use Rattle.method_frames.specs.NumberedFrames.{frame_by};
ghost use Rattle.method_frames.specs.private.KnownRows.{AreGiven};
ghost use Rattle.method_frames.specs.private.MapEntries.{AreNumbers, AreRewritten, IsRestacked, Declares, locals_behind, chopped};

use crate::entry_buffers::EntryBuffers;
use crate::entry_locals::EntryLocals;
use crate::items::append;
use crate::method_frames::MethodFrames;
use frames::{FrameFault, Limits, MapEntry, RefusedEntry, Sizes, Starts, TypeInfo, judge_entry};
use hierarchy::Classes;
use std::alloc::{AllocError, Global};
use type_numbers::{ConstantTable, NamedConstant, uninit_number};

/// The number of the type that an entry gives; that of top where it names no class.
fn number_given(info: TypeInfo, table: &ConstantTable) -> u32
    ensures { (s : Numbering) (pool : List Entry) → IsTable s pool table.now
        → IsNumber s result (type_given pool (info_of info)) }
{
    match info {
        TypeInfo::Top => 0,
        TypeInfo::Integer => 0x0100_0000,
        TypeInfo::Float => 0x0200_0000,
        TypeInfo::Double => 0x0300_0000,
        TypeInfo::Long => 0x0400_0000,
        TypeInfo::Null => 0x0500_0000,
        TypeInfo::UninitializedThis => 0x0600_0000,
        TypeInfo::Uninitialized(offset) => uninit_number(offset),
        TypeInfo::Object(class) => match table.get(class) {
            NamedConstant::Class { class, .. } => class,
            _ => 0,
        },
    }
}

/// How many units the type takes that an entry gives.
fn width_given(info: TypeInfo) -> usize
    ensures width { (pool : List Entry) → width_of (type_given pool (info_of info)) ≡ result }
    ensures few { result ≤ 2 }
{
    match info {
        TypeInfo::Long | TypeInfo::Double => 2,
        _ => 1,
    }
}

/// How many units types take that an entry gives.
fn units_given(infos: &[TypeInfo]) -> usize
    ensures units { (pool : List Entry) → units_of (types_given pool (map info_of infos.now)) ≡ result }
    ensures few { result ≤ 2 * length infos.now }
{
    let mut units = 0;
    for i in 0..infos.len() {
        units += width_given(infos[i]);
    }
    units
}

/// How many units the locals after an entry take. Those that it chops are gone already.
fn units_after(entry: &MapEntry, units: usize) -> usize
    requires { units ≤ 65535 }
    ensures { (pool : List Entry) (ts : List VerificationType) → units_of ts ≡ units
        → units_of (locals_behind pool (entry_of entry.now) ts) ≡ result }
{
    match entry {
        MapEntry::Append(_, locals) => units + units_given(locals),
        MapEntry::Full(_, locals, _) => units_given(locals),
        _ => units,
    }
}

/// How many units the stack of an entry takes.
fn stack_units(entry: &MapEntry) -> usize
    ensures { (pool : List Entry) → units_of (stack_of pool (entry_of entry.now)) ≡ result }
{
    match entry {
        MapEntry::SameWithItem(_, item) | MapEntry::SameWithItemExtended(_, item) => {
            width_given(*item)
        }
        MapEntry::Full(_, _, stack) => units_given(stack),
        _ => 0,
    }
}

/// Puts a local after the others, in the running frame too.
fn add<C: Classes>(
    number: u32,
    locals: &mut EntryLocals,
    frames: &mut MethodFrames<'_, '_, '_, C>,
) -> Result<(), AllocError>
    requires given { IsGiven frames.old.types number }
    requires fits { units_of (types_by frames.old.types locals.old) + width_of (type_by frames.old.types number)
        ≤ length frames.old.running.locals }
    requires laid { IsLaidOut frames.old locals.old }
    ensures rest { AreRewritten frames.old frames.new }
    ensures locals { OnOk result (locals.new ≡ locals.old ++ number ∷ []) }
    ensures laid { OnOk result (IsLaidOut frames.new locals.new) }
{
    frames.set_local(locals.units(), number)?;
    locals.push(number)
}

/// Takes the last locals off until so many are left, in the running frame too.
fn chop<C: Classes>(
    left: usize,
    locals: &mut EntryLocals,
    frames: &mut MethodFrames<'_, '_, '_, C>,
) -> Result<(), AllocError>
    requires laid { IsLaidOut frames.old locals.old }
    ensures rest { AreRewritten frames.old frames.new }
    ensures locals { OnOk result (locals.new ≡ take left locals.old) }
    ensures laid { OnOk result (IsLaidOut frames.new locals.new) }
{
    while locals.count() > left {
        locals.pop();
        frames.set_local(locals.units(), 0)?;
    }
    Ok(())
}

/// The numbers of the types that an entry gives, in place of what was there.
fn numbers_given(
    infos: &[TypeInfo],
    table: &ConstantTable,
    numbers: &mut Vec<u32>,
) -> Result<(), AllocError>
    ensures { OnOk result ((s : Numbering) (pool : List Entry) → IsTable s pool table.now
        → AreNumbers s numbers.new.items (types_given pool (map info_of infos.now))) }
{
    numbers.clear();
    for i in 0..infos.len() {
        let number = number_given(infos[i], table);
        append(number, numbers)?;
    }
    Ok(())
}

/// Puts locals after the others, in the running frame too.
fn append_all<C: Classes>(
    numbers: &[u32],
    locals: &mut EntryLocals,
    frames: &mut MethodFrames<'_, '_, '_, C>,
) -> Result<(), AllocError>
    requires given { AreGiven frames.old.types numbers.now }
    requires fits { units_of (types_by frames.old.types (locals.old ++ numbers.now))
        ≤ length frames.old.running.locals }
    requires laid { IsLaidOut frames.old locals.old }
    ensures rest { AreRewritten frames.old frames.new }
    ensures locals { OnOk result (locals.new ≡ locals.old ++ numbers.now) }
    ensures laid { OnOk result (IsLaidOut frames.new locals.new) }
{
    for i in 0..numbers.len() {
        add(numbers[i], locals, frames)?;
    }
    Ok(())
}

/// How many locals from 0 up have these numbers.
fn common(numbers: &[u32], locals: &EntryLocals) -> usize
    ensures few { result ≤ length numbers.now }
    ensures same { take result locals.now ≡ take result numbers.now }
{
    let mut count = 0;
    while count < numbers.len() && count < locals.count() {
        if numbers[count] != locals.get(count) {
            return count;
        }
        count += 1;
    }
    count
}

/// The locals become others, in the running frame too. Those that stay from 0 up are not written.
fn change_all<C: Classes>(
    numbers: &[u32],
    locals: &mut EntryLocals,
    frames: &mut MethodFrames<'_, '_, '_, C>,
) -> Result<(), AllocError>
    requires given { AreGiven frames.old.types numbers.now }
    requires fits { units_of (types_by frames.old.types numbers.now) ≤ length frames.old.running.locals }
    requires laid { IsLaidOut frames.old locals.old }
    ensures rest { AreRewritten frames.old frames.new }
    ensures locals { OnOk result (locals.new ≡ numbers.now) }
    ensures laid { OnOk result (IsLaidOut frames.new locals.new) }
{
    let kept = common(numbers, locals);
    chop(kept, locals, frames)?;
    append_all(&numbers[kept..], locals, frames)
}

/// Writes the locals of an entry, in the running frame too. Those that it chops are gone already.
fn write_locals<C: Classes>(
    entry: &MapEntry,
    table: &ConstantTable,
    given: &mut Vec<u32>,
    locals: &mut EntryLocals,
    frames: &mut MethodFrames<'_, '_, '_, C>,
) -> Result<(), AllocError>
    requires table { (pool : List Entry) × IsTable frames.old.types pool table.now }
    requires fits { (pool : List Entry) → units_of (locals_behind pool (entry_of entry.now)
        (types_by frames.old.types locals.old)) ≤ length frames.old.running.locals }
    requires laid { IsLaidOut frames.old locals.old }
    ensures rest { AreRewritten frames.old frames.new }
    ensures locals { (pool : List Entry) → IsTable frames.old.types pool table.now
        → OnOk result (types_by frames.old.types locals.new
        ≡ locals_behind pool (entry_of entry.now) (types_by frames.old.types locals.old)) }
    ensures laid { OnOk result (IsLaidOut frames.new locals.new) }
{
    match entry {
        MapEntry::Append(_, infos) => {
            numbers_given(infos, table, given)?;
            append_all(given, locals, frames)
        }
        MapEntry::Full(_, infos, _) => {
            numbers_given(infos, table, given)?;
            change_all(given, locals, frames)
        }
        _ => Ok(()),
    }
}

/// Pushes types on the running stack, the last of them on top.
fn push_all<C: Classes>(
    numbers: &[u32],
    frames: &mut MethodFrames<'_, '_, '_, C>,
) -> Result<(), AllocError>
    requires given { AreGiven frames.old.types numbers.now }
    ensures rest { IsRestacked frames.old frames.new }
    ensures stack { OnOk result (frames.new.running.stack
        ≡ reverse numbers.now ++ frames.old.running.stack) }
{
    for i in 0..numbers.len() {
        frames.push(numbers[i])?;
    }
    Ok(())
}

/// The running stack becomes that of an entry.
fn write_stack<C: Classes>(
    entry: &MapEntry,
    table: &ConstantTable,
    given: &mut Vec<u32>,
    frames: &mut MethodFrames<'_, '_, '_, C>,
) -> Result<(), AllocError>
    requires table { (pool : List Entry) × IsTable frames.old.types pool table.now }
    ensures rest { IsRestacked frames.old frames.new }
    ensures stack { (pool : List Entry) → IsTable frames.old.types pool table.now
        → OnOk result (types_by frames.old.types frames.new.running.stack ≡ stack_of pool (entry_of entry.now)) }
{
    frames.clear_stack();
    match entry {
        MapEntry::SameWithItem(_, item) | MapEntry::SameWithItemExtended(_, item) => {
            frames.push(number_given(*item, table))
        }
        MapEntry::Full(_, _, infos) => {
            numbers_given(infos, table, given)?;
            push_all(given, frames)
        }
        _ => Ok(()),
    }
}

/// Takes the locals off that an entry chops, as far as there are so many.
fn write_chop<C: Classes>(
    entry: &MapEntry,
    locals: &mut EntryLocals,
    frames: &mut MethodFrames<'_, '_, '_, C>,
) -> Result<(), AllocError>
    requires laid { IsLaidOut frames.old locals.old }
    ensures rest { AreRewritten frames.old frames.new }
    ensures locals { OnOk result (types_by frames.old.types locals.new
        ≡ chopped (entry_of entry.now) (types_by frames.old.types locals.old)) }
    ensures laid { OnOk result (IsLaidOut frames.new locals.new) }
{
    match entry {
        MapEntry::Chop(count, _) => {
            let left = locals.count().saturating_sub(usize::from(*count));
            chop(left, locals, frames)
        }
        _ => Ok(()),
    }
}

/// Declares the frame of an entry at an offset in bytes, after locals which become those of the entry; or tells its
/// least fault. The running frame becomes the one that is declared.
fn declare_one<St: Starts, C: Classes>(
    entry: &MapEntry,
    at: u32,
    limits: &Limits<'_, '_, St>,
    table: &ConstantTable,
    given: &mut Vec<u32>,
    locals: &mut EntryLocals,
    frames: &mut MethodFrames<'_, '_, '_, C>,
) -> Result<Option<FrameFault>, AllocError>
    requires table { IsTable frames.old.types limits.now.pool.now table.now }
    requires max_locals { limits.now.max_locals ≡ length frames.old.running.locals }
    requires max_stack { limits.now.max_stack ≡ frames.old.limit }
    requires other { (offset : ℕ) → at ≤ offset → at_offset frames.old.declared offset ≡ None }
    requires laid { IsLaidOut frames.old locals.old }
    ensures rest { AreMore frames.old frames.new }
    ensures declares { IfOk result (Declares limits.now.pool.now (St.code limits.now.starts.now) limits.now.max_locals
        limits.now.max_stack frames.old frames.new at (entry_of entry.now) locals.old locals.new) }
    ensures small { IfOk result (λ r. r ≡ None → at < 65536) }
{
    let before = locals.count();
    write_chop(entry, locals, frames)?;
    prove!(locals.units() <= usize::from(frames.max_locals()));
    let sizes = Sizes {
        before,
        locals: units_after(entry, locals.units()),
        stack: stack_units(entry),
    };
    if let Some(fault) = judge_entry(entry, at, sizes, limits) {
        return Ok(Some(fault));
    }
    write_locals(entry, table, given, locals, frames)?;
    write_stack(entry, table, given, frames)?;
    frames.set_flag(locals.have_own());
    frames.declare(at as u16)?;
    Ok(None)
}

/// Declares the frames of entries after these locals, or tells the first entry that is refused.
fn declare_all<St: Starts, C: Classes>(
    entries: &[MapEntry],
    limits: &Limits<'_, '_, St>,
    table: &ConstantTable,
    given: &mut Vec<u32>,
    locals: &mut EntryLocals,
    frames: &mut MethodFrames<'_, '_, '_, C>,
) -> Result<Result<(), RefusedEntry>, AllocError>
    requires table { IsTable frames.old.types limits.now.pool.now table.now }
    requires max_locals { limits.now.max_locals ≡ length frames.old.running.locals }
    requires max_stack { limits.now.max_stack ≡ frames.old.limit }
    requires none { frames.old.declared ≡ [] }
    requires laid { IsLaidOut frames.old locals.old }
    ensures rest { AreMore frames.old frames.new }
    ensures laid { IfOk result (λ r. IfOk r (λ u. IsLaidOut frames.new locals.new)) }
    ensures declared { IfOk result (AreDeclared (declared_frames limits.now.pool.now (St.code limits.now.starts.now)
        limits.now.max_locals limits.now.max_stack (types_by frames.old.types locals.old) (map entry_of entries.now))
        (frames_by frames.old.types frames.new.declared)) }
    ensures refused { IfOk result (λ r. refused_by r ≡ refused_entry limits.now.pool.now
        (St.code limits.now.starts.now) limits.now.max_locals limits.now.max_stack
        (types_by frames.old.types locals.old) (map entry_of entries.now)) }
{
    let mut behind = 0;
    for place in 0..entries.len() {
        let entry = &entries[place];
        let at = behind + u32::from(entry.delta());
        if let Some(fault) = declare_one(entry, at, limits, table, given, locals, frames)? {
            return Ok(Err(RefusedEntry { place, at, fault }));
        }
        behind = at + 1;
    }
    Ok(Ok(()))
}

/// Declares the frames of a method's stack map as [`declare`] does, after locals of which there are none yet.
fn declare_within<St: Starts, C: Classes>(
    entries: &[MapEntry],
    limits: &Limits<'_, '_, St>,
    table: &ConstantTable,
    initial: &[u32],
    given: &mut Vec<u32>,
    locals: &mut EntryLocals,
    frames: &mut MethodFrames<'_, '_, '_, C>,
) -> Result<Result<(), RefusedEntry>, AllocError>
    requires table { IsTable frames.old.types limits.now.pool.now table.now }
    requires max_locals { limits.now.max_locals ≡ length frames.old.running.locals }
    requires max_stack { limits.now.max_stack ≡ frames.old.limit }
    requires none { frames.old.declared ≡ [] }
    requires top { frames.old.running.locals ≡ replicate limits.now.max_locals 0 }
    requires given { (i : ℕ) → i < length initial.now → IsGiven frames.old.types (slice_index initial.now i) }
    requires fits { units_of (types_by frames.old.types initial.now) ≤ limits.now.max_locals }
    requires locals { locals.old ≡ [] }
    ensures rest { AreMore frames.old frames.new }
    ensures running { IfOk result (λ r. IfOk r (λ u. frame_by frames.old.types frames.new.running
        ≡ frame_with limits.now.pool.now (St.code limits.now.starts.now) limits.now.max_locals limits.now.max_stack
        (types_by frames.old.types initial.now) [])) }
    ensures declared { IfOk result (AreDeclared (declared_frames limits.now.pool.now (St.code limits.now.starts.now)
        limits.now.max_locals limits.now.max_stack (types_by frames.old.types initial.now) (map entry_of entries.now))
        (frames_by frames.old.types frames.new.declared)) }
    ensures refused { IfOk result (λ r. refused_by r ≡ refused_entry limits.now.pool.now
        (St.code limits.now.starts.now) limits.now.max_locals limits.now.max_stack
        (types_by frames.old.types initial.now) (map entry_of entries.now)) }
{
    append_all(initial, locals, frames)?;
    if !entries.is_empty() {
        if let Err(refused) = declare_all(entries, limits, table, given, locals, frames)? {
            return Ok(Err(refused));
        }
        change_all(initial, locals, frames)?;
    }
    frames.clear_stack();
    frames.set_flag(locals.have_own());
    Ok(Ok(()))
}

/// Declares the frames of a method's stack map, by rising offsets (JVMS 4.7.4), and makes the running frame the one
/// with which the method begins; or tells the first entry that is refused, with its fault of the least number: 8, 9 or
/// 49 to 53. The only other refusal is 1, where memory runs out.
///
/// `initial` has the types of the receiver and of the parameters, a long or double being one of them. No frame is
/// declared yet, and all locals of the running frame are top.
pub fn declare<St: Starts, C: Classes>(
    alloc: Global,
    entries: &[MapEntry],
    limits: &Limits<'_, '_, St>,
    table: &ConstantTable,
    initial: &[u32],
    frames: &mut MethodFrames<'_, '_, '_, C>,
) -> Result<Result<(), RefusedEntry>, AllocError>
    requires table { IsTable frames.old.types limits.now.pool.now table.now }
    requires max_locals { limits.now.max_locals ≡ length frames.old.running.locals }
    requires max_stack { limits.now.max_stack ≡ frames.old.limit }
    requires none { frames.old.declared ≡ [] }
    requires top { frames.old.running.locals ≡ replicate limits.now.max_locals 0 }
    requires given { (i : ℕ) → i < length initial.now → IsGiven frames.old.types (slice_index initial.now i) }
    requires fits { units_of (types_by frames.old.types initial.now) ≤ limits.now.max_locals }
    ensures rest { AreMore frames.old frames.new }
    ensures running { IfOk result (λ r. IfOk r (λ u. frame_by frames.old.types frames.new.running
        ≡ frame_with limits.now.pool.now (St.code limits.now.starts.now) limits.now.max_locals limits.now.max_stack
        (types_by frames.old.types initial.now) [])) }
    ensures declared { IfOk result (AreDeclared (declared_frames limits.now.pool.now (St.code limits.now.starts.now)
        limits.now.max_locals limits.now.max_stack (types_by frames.old.types initial.now) (map entry_of entries.now))
        (frames_by frames.old.types frames.new.declared)) }
    ensures refused { IfOk result (λ r. refused_by r ≡ refused_entry limits.now.pool.now
        (St.code limits.now.starts.now) limits.now.max_locals limits.now.max_stack
        (types_by frames.old.types initial.now) (map entry_of entries.now)) }
{
    let memory = frames.lend(alloc);
    let mut given = memory.given;
    let mut locals = EntryLocals::within(memory.locals);
    let answer = declare_within(
        entries,
        limits,
        table,
        initial,
        &mut given,
        &mut locals,
        frames,
    )?;
    let locals = locals.into_memory();
    frames.take_back(EntryBuffers { locals, given });
    Ok(answer)
}
