//! Writing stack maps (JVMS 4.7.4).
ghost use Rattle.std.specs.Prelude.{◌≡◌, ◌++◌, length, map};
ghost use Rattle.std.specs.List.{flat_map};
ghost use Rattle.layout.specs.Pieces.{Goes, Delivers, field};
ghost use Rattle.layout.specs.PieceLaws.{counted};
ghost use Rattle.frames.specs.StackMaps.{type_pieces, frame_type, frame_type_pieces, behind_pieces, entry_pieces, map_pieces};
ghost use Rattle.frames.specs.MapViews.{info_of, entry_of};

use crate::stack_map::{MapEntry, StackMap, TypeInfo};
use layout::{Output, WriteFault};
use std::alloc::Global;

/// A tag and a number of two bytes.
#[tactic(auto, using(layout::specs::PieceLaws::writes_append))]
fn put_tagged(out: &mut Output, tag: u8, number: u16) -> Result<(), WriteFault>
    ensures { Goes (field 1 tag ++ field 2 number) out.old out.new result }
{
    out.put_u1(tag)?;
    out.put_u2(number)
}

/// A type.
fn put_type(out: &mut Output, info: TypeInfo) -> Result<(), WriteFault>
    ensures { Goes (type_pieces (info_of info)) out.old out.new result }
{
    match info {
        TypeInfo::Top => out.put_u1(0),
        TypeInfo::Integer => out.put_u1(1),
        TypeInfo::Float => out.put_u1(2),
        TypeInfo::Double => out.put_u1(3),
        TypeInfo::Long => out.put_u1(4),
        TypeInfo::Null => out.put_u1(5),
        TypeInfo::UninitializedThis => out.put_u1(6),
        TypeInfo::Object(class) => put_tagged(out, 7, class),
        TypeInfo::Uninitialized(offset) => put_tagged(out, 8, offset),
    }
}

/// Types one after the other.
fn put_types(out: &mut Output, types: &[TypeInfo]) -> Result<(), WriteFault>
    ensures { Goes (flat_map type_pieces (map info_of types.now)) out.old out.new result }
{
    let mut rest = types;
    while let [info, others @ ..] = rest {
        put_type(out, *info)?;
        rest = others;
    }
    Ok(())
}

#[tactic(auto, using(layout::specs::PieceLaws::writes_append))]
fn put_counted_types(out: &mut Output, types: &[TypeInfo], count: usize) -> Result<(), WriteFault>
    requires { count ≡ length (map info_of types.now) }
    ensures { Goes (counted type_pieces (map info_of types.now)) out.old out.new result }
{
    out.put_count(count)?;
    put_types(out, types)
}

/// A count and so many types.
fn put_type_table(out: &mut Output, types: &Vec<TypeInfo>) -> Result<(), WriteFault>
    ensures { Goes (counted type_pieces (map info_of types.now.items)) out.old out.new result }
{
    put_counted_types(out, types.as_slice(), types.len())
}

/// The frame type of an entry, if there is one.
fn frame_type(entry: &MapEntry) -> Option<u8>
    ensures { result ≡ frame_type (entry_of entry.now) }
{
    match entry {
        MapEntry::Same(delta) if *delta <= 63 => Some(*delta),
        MapEntry::Same(_) => None,
        MapEntry::SameWithItem(delta, _) if *delta <= 63 => Some(64 + *delta),
        MapEntry::SameWithItem(..) => None,
        MapEntry::SameWithItemExtended(..) => Some(247),
        MapEntry::Chop(count, _) if 1 <= *count && *count <= 3 => Some(251 - *count),
        MapEntry::Chop(..) => None,
        MapEntry::SameExtended(_) => Some(251),
        MapEntry::Append(_, locals) if 1 <= locals.len() && locals.len() <= 3 => {
            Some(251 + locals.len() as u8)
        }
        MapEntry::Append(..) => None,
        MapEntry::Full(..) => Some(255),
    }
}

/// A frame type; without one 18 is noted, and a byte goes in its place.
fn put_frame_type(out: &mut Output, frame_type: Option<u8>) -> Result<(), WriteFault>
    ensures { Goes (frame_type_pieces frame_type) out.old out.new result }
{
    match frame_type {
        Some(frame_type) => out.put_u1(frame_type),
        None => {
            out.put_nothing();
            out.put_u1(0)
        }
    }
}

#[tactic(auto, using(layout::specs::PieceLaws::writes_append))]
fn put_delta_and_type(out: &mut Output, delta: u16, info: TypeInfo) -> Result<(), WriteFault>
    ensures { Goes (field 2 delta ++ type_pieces (info_of info)) out.old out.new result }
{
    out.put_u2(delta)?;
    put_type(out, info)
}

#[tactic(auto, using(layout::specs::PieceLaws::writes_append))]
fn put_delta_and_types(out: &mut Output, delta: u16, types: &[TypeInfo]) -> Result<(), WriteFault>
    ensures { Goes (field 2 delta ++ flat_map type_pieces (map info_of types.now)) out.old out.new result }
{
    out.put_u2(delta)?;
    put_types(out, types)
}

#[tactic(auto, using(layout::specs::PieceLaws::writes_append))]
fn put_full(
    out: &mut Output,
    delta: u16,
    locals: &Vec<TypeInfo>,
    stack: &Vec<TypeInfo>,
) -> Result<(), WriteFault>
    ensures { Goes (field 2 delta
        ++ (counted type_pieces (map info_of locals.now.items)
        ++ counted type_pieces (map info_of stack.now.items))) out.old out.new result }
{
    out.put_u2(delta)?;
    put_type_table(out, locals)?;
    put_type_table(out, stack)
}

/// Writes the part of an entry that follows its frame type.
fn put_behind(out: &mut Output, entry: &MapEntry) -> Result<(), WriteFault>
    ensures { Goes (behind_pieces (entry_of entry.now)) out.old out.new result }
{
    match entry {
        MapEntry::Same(_) => Ok(()),
        MapEntry::SameWithItem(_, item) => put_type(out, *item),
        MapEntry::SameWithItemExtended(delta, item) => put_delta_and_type(out, *delta, *item),
        MapEntry::Chop(_, delta) => out.put_u2(*delta),
        MapEntry::SameExtended(delta) => out.put_u2(*delta),
        MapEntry::Append(delta, locals) => put_delta_and_types(out, *delta, locals.as_slice()),
        MapEntry::Full(delta, locals, stack) => put_full(out, *delta, locals, stack),
    }
}

/// An entry.
#[tactic(auto, using(layout::specs::PieceLaws::writes_append))]
fn put_entry(out: &mut Output, entry: &MapEntry) -> Result<(), WriteFault>
    ensures { Goes (entry_pieces (entry_of entry.now)) out.old out.new result }
{
    put_frame_type(out, frame_type(entry))?;
    put_behind(out, entry)
}

/// Entries one after the other.
fn put_entries(out: &mut Output, entries: &[MapEntry]) -> Result<(), WriteFault>
    ensures { Goes (flat_map entry_pieces (map entry_of entries.now)) out.old out.new result }
{
    let mut rest = entries;
    while let [entry, others @ ..] = rest {
        put_entry(out, entry)?;
        rest = others;
    }
    Ok(())
}

/// A count and so many entries.
#[tactic(auto, using(layout::specs::PieceLaws::writes_append))]
fn put_counted_entries(
    out: &mut Output,
    entries: &[MapEntry],
    count: usize,
) -> Result<(), WriteFault>
    requires { count ≡ length (map entry_of entries.now) }
    ensures { Goes (map_pieces (map entry_of entries.now)) out.old out.new result }
{
    out.put_count(count)?;
    put_entries(out, entries)
}

fn put_map(out: &mut Output, map: &StackMap<'_>) -> Result<(), WriteFault>
    ensures { Goes (map_pieces map.now) out.old out.new result }
{
    let entries = map.entries();
    put_counted_entries(out, entries, entries.len())
}

/// The bytes of a type.
pub fn written_type(alloc: Global, info: TypeInfo) -> Result<Vec<u8>, WriteFault>
    ensures { Delivers (type_pieces (info_of info)) (λ v. v.items) result }
{
    let mut out = Output::new(alloc);
    let answer = put_type(&mut out, info);
    out.delivered(answer)
}

/// The bytes of an entry.
pub fn written_entry(alloc: Global, entry: &MapEntry) -> Result<Vec<u8>, WriteFault>
    ensures { Delivers (entry_pieces (entry_of entry.now)) (λ v. v.items) result }
{
    let mut out = Output::new(alloc);
    let answer = put_entry(&mut out, entry);
    out.delivered(answer)
}

/// The bytes of a stack map.
pub fn written_map(alloc: Global, map: &StackMap<'_>) -> Result<Vec<u8>, WriteFault>
    ensures { Delivers (map_pieces map.now) (λ v. v.items) result }
{
    let mut out = Output::new(alloc);
    let answer = put_map(&mut out, map);
    out.delivered(answer)
}
