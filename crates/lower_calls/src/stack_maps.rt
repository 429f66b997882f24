use frames::{MapEntry, StackMap, TypeInfo, faulty_entry, laws, read_map};
use layout::{Cursor, Part, ReadFault, WriteFault};
use std::alloc::{AllocError, Global};
use std::test::*;

/// An entry of each form, and each type.
const ALL: [u8; 42] = [
    0, 8, 63, 127, 7, 0, 9, 247, 1, 0, 2, 248, 0, 1, 250, 0, 2, 251, 0, 3, 254, 0, 4, 1, 4, 3, 255,
    0, 5, 0, 3, 5, 6, 0, 0, 2, 8, 1, 2, 7, 0, 9,
];

/// The first three: the locals as they were.
fn has_same(entries: &[MapEntry]) -> bool {
    matches!(
        entries,
        [
            MapEntry::Same(63),
            MapEntry::SameWithItem(63, TypeInfo::Object(9)),
            MapEntry::SameWithItemExtended(256, TypeInfo::Float),
            ..
        ]
    )
}

/// The next three, without types.
fn has_chops(entries: &[MapEntry]) -> bool {
    matches!(
        entries,
        [
            _,
            _,
            _,
            MapEntry::Chop(3, 1),
            MapEntry::Chop(1, 2),
            MapEntry::SameExtended(3),
            ..
        ]
    )
}

fn is_append(entry: &MapEntry) -> bool {
    matches!(entry, MapEntry::Append(4, locals) if matches!(
        locals.as_slice(),
        [TypeInfo::Integer, TypeInfo::Long, TypeInfo::Double]
    ))
}

fn is_full(entry: &MapEntry) -> bool {
    matches!(entry, MapEntry::Full(5, locals, stack) if matches!(
        (locals.as_slice(), stack.as_slice()),
        (
            [TypeInfo::Null, TypeInfo::UninitializedThis, TypeInfo::Top],
            [TypeInfo::Uninitialized(258), TypeInfo::Object(9)],
        )
    ))
}

fn has_all(entries: &[MapEntry]) -> bool {
    has_same(entries)
        && has_chops(entries)
        && matches!(entries, [.., append, full] if is_append(append) && is_full(full))
        && entries.len() == 8
}

/// Whether the stack map is written; or memory ran out, where it may, and nothing is written.
fn is_put(alloc: Global, map: &StackMap, may_fail: bool) -> bool {
    let mut out = Vec::new(alloc);
    match map.put(&mut out) {
        Ok(()) => out.as_slice() == ALL.as_slice(),
        Err(fault) => may_fail && matches!(fault, WriteFault::OutOfMemory) && out.is_empty(),
    }
}

/// Whether the stack map is read and written; or memory ran out, where it may.
fn is_read(alloc: Global, may_fail: bool) -> bool {
    match read_map(alloc, &ALL) {
        Ok(map) => has_all(map.entries()) && is_put(alloc, &map, may_fail),
        Err(fault) => may_fail && matches!(fault, ReadFault::OutOfMemory),
    }
}

/// Whether a stack map in front of other bytes is taken, and these are left; or memory ran out, where it may, and
/// nothing is taken.
fn is_taken(alloc: Global, may_fail: bool) -> bool {
    let mut cursor = Cursor::starting(4, &[0, 2, 5, 252, 0, 1, 4, 251]);
    match StackMap::take(alloc, &mut cursor) {
        Ok(map) => cursor.at() == 11
            && cursor.rest() == [251].as_slice()
            && map.into_entries().len() == 2,
        Err(fault) => may_fail && matches!(fault, ReadFault::OutOfMemory) && cursor.at() == 4,
    }
}

#[test]
fn both_ways(rt: HostRuntime) {
    assert!(rt; is_read(rt.alloc(), false));
    assert!(rt; is_taken(rt.alloc(), false));
}

/// Bodies that are no stack map, and why.
const FAULTS: [(&[u8], ReadFault); 9] = [
    (&[0], ReadFault::EndsEarly { at: 0 }),
    (&[0, 2, 9], ReadFault::EndsEarly { at: 3 }),
    (&[0, 1, 251, 0], ReadFault::EndsEarly { at: 3 }),
    (
        &[0, 1, 255, 0, 0, 255, 255, 1],
        ReadFault::EndsEarly { at: 8 },
    ),
    (&[0, 1, 128], ReadFault::BadFrameType { at: 2 }),
    (&[0, 2, 3, 246], ReadFault::BadFrameType { at: 3 }),
    (&[0, 1, 64, 9], ReadFault::BadTypeTag { at: 3 }),
    (&[0, 1, 252, 0, 0, 255, 0], ReadFault::BadTypeTag { at: 5 }),
    (&[0, 1, 7, 0, 0], ReadFault::AttributeLength { at: 3 }),
];

#[test]
fn refused_to_read(rt: HostRuntime) {
    for (body, fault) in &FAULTS {
        assert!(rt; read_map(rt.alloc(), *body).err() == Some(*fault));
    }
}

#[test]
fn faulty_is_fault() {
    laws::faulty_is_fault();
}

#[test]
fn entry_at_fault(rt: HostRuntime) {
    let alloc = rt.alloc();
    assert!(rt; faulty_entry(alloc, &ALL) == Ok(None));
    assert!(rt; faulty_entry(alloc, &[0, 3, 9, 251, 0, 1, 246]) == Ok(Some(2)));
    assert!(rt; faulty_entry(alloc, &[0, 1, 7, 0, 0]) == Ok(None));
}

/// Why the entry is not written after a byte, which stays.
fn put_fault(alloc: Global, entry: &MapEntry) -> Option<WriteFault> {
    let mut out = Vec::new(alloc);
    match out.push(7) {
        Ok(()) => entry
            .put(&mut out)
            .err()
            .filter(|_| out.as_slice() == [7].as_slice()),
        Err(_) => None,
    }
}

/// Entries that no bytes spell.
fn unspelled(alloc: Global) -> Result<[MapEntry; 7], AllocError> {
    Ok([
        MapEntry::Same(64),
        MapEntry::SameWithItem(64, TypeInfo::Top),
        MapEntry::SameWithItem(255, TypeInfo::Top),
        MapEntry::Chop(0, 1),
        MapEntry::Chop(4, 1),
        MapEntry::Append(0, Vec::new(alloc)),
        MapEntry::Append(0, [TypeInfo::Top; 4].to_vec(alloc)?),
    ])
}

/// An entry with a list that its count cannot tell.
fn too_large(alloc: Global) -> Result<MapEntry, AllocError> {
    let stack = vec![in alloc; TypeInfo::Top; 65_536]?;
    Ok(MapEntry::Full(0, Vec::new(alloc), stack))
}

/// Whether no such entry is written.
fn are_refused(alloc: Global) -> Result<bool, AllocError> {
    let entries = unspelled(alloc)?;
    let large = too_large(alloc)?;
    Ok(
        entries.iter().all(|entry| put_fault(alloc, entry) == Some(WriteFault::HasNoSpelling))
            && put_fault(alloc, &large) == Some(WriteFault::DoesNotFit),
    )
}

/// Whether a stack map with both is refused for the one that is too large.
fn is_too_large(alloc: Global) -> Result<bool, WriteFault> {
    let mut entries = Vec::new(alloc);
    entries.push(MapEntry::Same(64))?;
    entries.push(too_large(alloc)?)?;
    let answer = StackMap::new(entries).put(&mut Vec::new(alloc));
    Ok(answer == Err(WriteFault::DoesNotFit))
}

#[test]
fn refused_to_write(rt: HostRuntime) {
    assert!(rt; are_refused(rt.alloc()) == Ok(true));
    assert!(rt; matches!(is_too_large(rt.alloc()), Ok(true)));
}

/// Whether a type and an entry are read and written, each alone.
fn are_parts(alloc: Global) -> Result<bool, WriteFault> {
    let mut out = Vec::new(alloc);
    TypeInfo::Uninitialized(258).put(&mut out)?;
    MapEntry::SameExtended(3).put(&mut out)?;
    let mut cursor = Cursor::new(out.as_slice());
    let info = TypeInfo::take(alloc, &mut cursor);
    let entry = MapEntry::take(alloc, &mut cursor);
    Ok(
        out.as_slice() == [8, 1, 2, 251, 0, 3].as_slice()
            && matches!(info, Ok(TypeInfo::Uninitialized(258)))
            && matches!(entry, Ok(MapEntry::SameExtended(3)))
            && cursor.rest().is_empty(),
    )
}

#[test]
fn parts(rt: HostRuntime) {
    assert!(rt; matches!(are_parts(rt.alloc()), Ok(true)));
}

#[test]
fn want_of_memory(rt: HostRuntime) {
    assert!(rt; is_read(rt.alloc(), true));
    assert!(rt; is_taken(rt.alloc(), true));
}
