ghost use Rattle.std.specs.Prelude.{◌≡◌, [], replicate};
ghost use Rattle.type_numbers.specs.Constants.{IsTable};

use crate::making::{hasher, object};
use classfile::{ClassFile, decode};
use format_calls::making::K;
use frames::{
    CodeStarts, Frame, FrameFault, Limits, MapEntry, RefusedEntry, StackMap, TypeInfo, VType,
    declared, laws,
};
use hierarchy::{Classes, Rows};
use insn::decode_code;
use method_frames::{MethodFrames, declare};
use std::alloc::{AllocError, Global};
use std::test::*;
use type_numbers::{ConstantTable, TypeNumbers};

/// Three instructions that do nothing, and `return`.
pub const CODE: [u8; 4] = [0, 0, 0, 0xB1];

/// Three local variables in five units, the last of the class at index 1, which is K.
const LOCALS: [VType<'static>; 4] = [VType::Int, VType::Long, VType::Top, VType::Class(b"K")];

/// A stack map whose entries have these locals, the same and a stack, and all of them but the last.
pub fn stack_map<'a>(alloc: Global) -> Result<StackMap<'a>, AllocError> {
    let locals = [TypeInfo::Integer, TypeInfo::Long, TypeInfo::Object(1)];
    let entries = [
        MapEntry::Append(0, locals.to_vec(alloc)?),
        MapEntry::SameWithItem(0, TypeInfo::Double),
        MapEntry::Chop(1, 0),
    ];
    Ok(StackMap::new(Vec::from_array(alloc, entries)?))
}

/// The limits of the frames, where the stack has room for this many units.
pub fn limits<'m, 'a>(
    class: &'m ClassFile<'a>,
    starts: &'m CodeStarts<'m>,
    max_stack: u16,
) -> Limits<'m, 'a, CodeStarts<'m>>
    ensures pool { result.pool.now ≡ class.now.constant_pool }
    ensures max_locals { result.max_locals ≡ 5 }
    ensures max_stack { result.max_stack ≡ max_stack }
{
    Limits {
        pool: &class.constant_pool,
        starts,
        max_locals: 5,
        max_stack,
    }
}

/// Whether a frame has these locals and perhaps more, and this stack, at this offset.
fn is_whole(found: &(u16, Frame<'_>), at: u16, locals: &[VType<'_>], stack: &[VType<'_>]) -> bool {
    found.0 == at
        && found.1.locals.len() == 5
        && found.1.locals.starts_with(locals)
        && found.1.stack.as_slice() == stack
}

/// The first entry that is refused, where the stack has room for this many units.
fn refused(
    alloc: Global,
    class: &ClassFile<'_>,
    max_stack: u16,
) -> Result<Option<RefusedEntry>, AllocError> {
    let alone = [object(alloc)];
    match Rows::new(alloc, &alone, hasher()) {
        Ok(classes) => refused_below(alloc, class, max_stack, &classes),
        Err(_) => Err(AllocError),
    }
}

/// The first entry that is refused, where these are the classes.
fn refused_below<C: Classes>(
    alloc: Global,
    class: &ClassFile<'_>,
    max_stack: u16,
    classes: &C,
) -> Result<Option<RefusedEntry>, AllocError> {
    let mut types = TypeNumbers::new(alloc, classes);
    let table = ConstantTable::new(alloc, &class.constant_pool, &mut types)?;
    let mut frames = MethodFrames::new(alloc, &types, 5, max_stack, false)?;
    refused_among(alloc, class, max_stack, &table, &mut frames)
}

/// The first entry that is refused, by the table of the class's constants.
fn refused_among<C: Classes>(
    alloc: Global,
    class: &ClassFile<'_>,
    max_stack: u16,
    table: &ConstantTable,
    frames: &mut MethodFrames<'_, '_, '_, C>,
) -> Result<Option<RefusedEntry>, AllocError>
    requires table { IsTable frames.old.types class.now.constant_pool table.now }
    requires none { frames.old.declared ≡ [] }
    requires top { frames.old.running.locals ≡ replicate 5 0 }
    requires limit { frames.old.limit ≡ max_stack }
{
    let Ok(starts) = CodeStarts::new(alloc, &CODE) else {
        return Err(AllocError);
    };
    let map = stack_map(alloc)?;
    let limits = limits(class, &starts, max_stack);
    match declare(alloc, map.entries(), &limits, table, &[], frames)? {
        Ok(()) => Ok(None),
        Err(refused) => Ok(Some(refused)),
    }
}

/// Whether these frames are told with all their locals; or the fault, where the stack has room for one unit.
fn are_whole(alloc: Global, class: &ClassFile<'_>, max_stack: u16) -> Result<bool, AllocError> {
    let Ok(code) = decode_code(alloc, &CODE) else {
        return Ok(false);
    };
    let map = stack_map(alloc)?;
    match declared(alloc, &map, &class.constant_pool, &code, &[], 5, max_stack) {
        Ok(frames) => Ok(
            frames.len() == 3
                && is_whole(&frames[0], 0, &LOCALS, &[])
                && is_whole(&frames[1], 1, &LOCALS, &[VType::Double])
                && is_whole(&frames[2], 2, &LOCALS[..3], &[]),
        ),
        Err(fault) => Ok(max_stack == 1 && fault == FrameFault::StackOver),
    }
}

#[test]
fn of_entries(rt: HostRuntime) {
    let class = decode(rt.alloc(), &K).expect(&rt, "a class file");
    assert!(rt; are_whole(rt.alloc(), &class, 2) == Ok(true));
    assert!(rt; are_whole(rt.alloc(), &class, 1) == Ok(true));
}

#[test]
fn refused_is_reason() {
    laws::refused_is_reason();
}

#[test]
fn of_a_refused_entry(rt: HostRuntime) {
    let class = decode(rt.alloc(), &K).expect(&rt, "a class file");
    assert!(rt; refused(rt.alloc(), &class, 2) == Ok(None));
    let second = RefusedEntry {
        place: 1,
        at: 1,
        fault: FrameFault::StackOver,
    };
    assert!(rt; refused(rt.alloc(), &class, 1) == Ok(Some(second)));
}
