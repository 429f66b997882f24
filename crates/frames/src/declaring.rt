//! The frames that a stack map declares.
ghost use Rattle.std.specs.Prelude.{◌≡◌, ◌<◌, ◌≤◌, ◌*◌, ◌++◌, map, reverse, length, IfOk, OnOk};
ghost use Rattle.insn.specs.Offsets.{acts};
ghost use Rattle.insn.specs.Views.{views};
ghost use Rattle.frames.specs.VerificationType.{type_of};
ghost use Rattle.frames.specs.Slots.{units_of, in_locals, all_locals};
ghost use Rattle.frames.specs.MapViews.{info_of, entry_of};
ghost use Rattle.frames.specs.DeclaredFrames.{types_given, locals_of, stack_of, has_uninit_this, declared_frames};
ghost use Rattle.frames.specs.DeclaredTables.{AreTold};
ghost use Rattle.frames.specs.private.Judging.{Declares};

use crate::code_starts::ListStarts;
use crate::constants::type_given;
use crate::frame::Frame;
use crate::frame_assignability::width;
use crate::frame_fault::FrameFault;
use crate::objects::is_own;
use crate::refusing::{Limits, Sizes, judge_entry};
use crate::stack_map::{MapEntry, StackMap, TypeInfo};
use crate::starts::Starts;
use crate::vtype::VType;
use insn::Insn;
use pool::{ConstantTypes, Pool};
use std::alloc::{AllocError, Global};

/// The first entry of a stack map that is refused (JVMS 4.7.4, 4.10.1).
#[derive(Clone, Copy, Debug, PartialEq, Eq)]
pub struct RefusedEntry {
    /// Its place in the map, from 0.
    pub place: usize,
    /// The offset of the frame that it would declare, in bytes.
    pub at: u32,
    /// The fault of the least number.
    pub fault: FrameFault,
}

/// Puts the types that an entry gives after others.
fn push_given<'a>(
    infos: &[TypeInfo],
    constants: &mut ConstantTypes<'_, 'a>,
    types: &mut Vec<VType<'a>>,
) -> Result<(), AllocError>
    ensures same { constants.new ≡ constants.old }
    ensures pushed { OnOk result (map type_of types.new.items
        ≡ map type_of types.old.items ++ types_given constants.old (map info_of infos.now)) }
{
    for info in infos {
        let given = type_given(constants, *info)?;
        types.push(given)?;
    }
    Ok(())
}

/// The locals become those that an entry leaves. A long or double is one of them.
fn change_locals<'a>(
    entry: &MapEntry,
    constants: &mut ConstantTypes<'_, 'a>,
    locals: &mut Vec<VType<'a>>,
) -> Result<(), AllocError>
    ensures same { constants.new ≡ constants.old }
    ensures changed { OnOk result (map type_of locals.new.items
        ≡ locals_of constants.old (map type_of locals.old.items) (entry_of entry.now)) }
{
    match entry {
        MapEntry::Chop(count, _) => {
            locals.truncate(locals.len().saturating_sub(usize::from(*count)));
            Ok(())
        }
        MapEntry::Append(_, infos) => push_given(infos, constants, locals),
        MapEntry::Full(_, infos, _) => {
            locals.clear();
            push_given(infos, constants, locals)
        }
        _ => Ok(()),
    }
}

/// The stack of an entry from the bottom up.
fn stack_at<'a>(
    alloc: Global,
    entry: &MapEntry,
    constants: &mut ConstantTypes<'_, 'a>,
) -> Result<Vec<VType<'a>>, AllocError>
    ensures same { constants.new ≡ constants.old }
    ensures stack { IfOk result (λ v. reverse (map type_of v.items) ≡ stack_of constants.old (entry_of entry.now)) }
{
    let mut stack = Vec::new(alloc);
    match entry {
        MapEntry::SameWithItem(_, item) | MapEntry::SameWithItemExtended(_, item) => {
            let given = type_given(constants, *item)?;
            stack.push(given)?;
            Ok(stack)
        }
        MapEntry::Full(_, _, infos) => {
            push_given(infos, constants, &mut stack)?;
            Ok(stack)
        }
        _ => Ok(stack),
    }
}

/// How many units types take.
fn units(types: &[VType<'_>]) -> usize
    ensures { result ≡ units_of (map type_of types.now) }
{
    let mut units = 0;
    for t in types {
        units += usize::from(width(t));
    }
    units
}

/// Whether the own object that is not initialized is among types.
fn has_own(types: &[VType<'_>]) -> bool
    ensures { result ≡ has_uninit_this (map type_of types.now) }
{
    for t in types {
        if is_own(t) {
            return true;
        }
    }
    false
}

/// All locals of a frame, of which the first have these types: a long or double is followed by `Top`, and those beyond
/// the types are `Top`.
fn all_locals<'a>(
    alloc: Global,
    types: &[VType<'a>],
    max_locals: u16,
) -> Result<Vec<VType<'a>>, AllocError>
    requires { length (in_locals (map type_of types.now)) ≤ max_locals }
    ensures { IfOk result (λ v. map type_of v.items ≡ all_locals max_locals (map type_of types.now)) }
{
    let mut all = Vec::with_capacity(alloc, usize::from(max_locals))?;
    for t in types {
        all.push(*t)?;
        if width(t) == 2 {
            all.push(VType::Top)?;
        }
    }
    all.resize(usize::from(max_locals), VType::Top)?;
    Ok(all)
}

/// The frame of an entry at an offset in bytes, after locals that become those of the entry; or its fault of the least
/// number.
fn declare_one<'a, S: Starts>(
    alloc: Global,
    entry: &MapEntry,
    at: u32,
    limits: &Limits<'_, 'a, S>,
    constants: &mut ConstantTypes<'_, 'a>,
    locals: &mut Vec<VType<'a>>,
) -> Result<Frame<'a>, FrameFault>
    requires { constants.old ≡ limits.now.pool.now }
    ensures same { constants.new ≡ constants.old }
    ensures small { IfOk result (λ f. at < 65536) }
    ensures locals { OnOk result (map type_of locals.new.items
        ≡ locals_of limits.now.pool.now (map type_of locals.old.items) (entry_of entry.now)) }
    ensures declares { Declares limits.now.pool.now (S.code limits.now.starts.now) limits.now.max_locals
        limits.now.max_stack at (map type_of locals.old.items) (entry_of entry.now) result }
{
    let before = locals.len();
    change_locals(entry, constants, locals)?;
    let stack = stack_at(alloc, entry, constants)?;
    let sizes = Sizes {
        before,
        locals: units(locals),
        stack: units(&stack),
    };
    if let Some(fault) = judge_entry(entry, at, sizes, limits) {
        return Err(fault);
    }
    let all = all_locals(alloc, locals, limits.max_locals)?;
    Ok(Frame {
        locals: all,
        stack,
        flag: has_own(locals),
    })
}

/// The frames that a stack map declares, each with its offset in bytes (JVMS 4.7.4).
///
/// Otherwise the first entry that is refused gives the fault, by the least number of those that hold of it: 8, 9 or 49
/// to 53. 1 where memory runs out.
///
/// `code` has the instructions of the method with their offsets, of which the first at an offset counts. `initial` has
/// the types of the receiver and of the parameters, a long or double being one of them. Each frame has all its locals.
pub fn declared<'a>(
    alloc: Global,
    stack_map: &StackMap<'_>,
    pool: &Pool<'a>,
    code: &[(u16, Insn<'_>)],
    initial: &[VType<'a>],
    max_locals: u16,
    max_stack: u16,
) -> Result<Vec<(u16, Frame<'a>)>, FrameFault>
    ensures { AreTold (declared_frames pool.now (acts (views code.now)) max_locals max_stack
        (map type_of initial.now) stack_map.now) result }
{
    let starts = ListStarts::new(alloc, code)?;
    let mut constants = ConstantTypes::new(alloc, pool);
    let limits = Limits {
        pool,
        starts: &starts,
        max_locals,
        max_stack,
    };
    let mut locals = Vec::new(alloc);
    locals.extend_from_slice(initial)?;
    let mut frames = Vec::new(alloc);
    let mut behind = 0;
    for entry in stack_map.entries() {
        let at = behind + u32::from(entry.delta());
        let frame = declare_one(alloc, entry, at, &limits, &mut constants, &mut locals)?;
        let Ok(()) = frames.push((at as u16, frame)) else {
            return Err(FrameFault::OutOfMemory);
        };
        behind = at + 1;
    }
    Ok(frames)
}
