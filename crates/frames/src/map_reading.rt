//! Reading stack maps (JVMS 4.7.4). After an error a cursor stands somewhere in between;
//! [`Part::take`](layout::Part::take) leaves it as it was.
ghost use Rattle.std.specs.Prelude.{◌<◌, ◌≤◌, ◌-◌, map};
ghost use Rattle.layout.specs.Faults.{GoesOn};
ghost use Rattle.layout.specs.Format.{times, andthen, number, done};
ghost use Rattle.frames.specs.StackMaps as maps;
ghost use Rattle.frames.specs.StackMaps.{type_behind, type_info, type_table, entry_behind, map_entry, stack_map};
ghost use Rattle.frames.specs.MapViews.{info_of, entry_of};

use crate::stack_map::{MapEntry, TypeInfo};
use layout::{Cursor, ReadFault, many};
use std::alloc::Global;

/// The value that follows a tag.
fn behind_tag(tag: u8, cursor: &mut Cursor<'_>) -> Result<TypeInfo, ReadFault>
    requires { 0 < cursor.now.at }
    ensures { GoesOn (type_behind tag) info_of cursor.old cursor.new result }
{
    match tag {
        0 => Ok(TypeInfo::Top),
        1 => Ok(TypeInfo::Integer),
        2 => Ok(TypeInfo::Float),
        3 => Ok(TypeInfo::Double),
        4 => Ok(TypeInfo::Long),
        5 => Ok(TypeInfo::Null),
        6 => Ok(TypeInfo::UninitializedThis),
        7 => Ok(TypeInfo::Object(cursor.u2()?)),
        8 => Ok(TypeInfo::Uninitialized(cursor.u2()?)),
        _ => Err(ReadFault::BadTypeTag {
            at: cursor.at() - 1,
        }),
    }
}

/// A type: its tag, and what stands after it.
#[tactic(auto, unfolding(crate::specs::StackMaps::type_info))]
pub fn read_type(cursor: &mut Cursor<'_>) -> Result<TypeInfo, ReadFault>
    ensures { GoesOn type_info info_of cursor.old cursor.new result }
{
    let tag = cursor.u1()?;
    behind_tag(tag, cursor)
}

/// A count, and so many types.
#[tactic(auto, unfolding(crate::specs::StackMaps::type_table))]
fn type_table(alloc: Global, cursor: &mut Cursor<'_>) -> Result<Vec<TypeInfo>, ReadFault>
    ensures { GoesOn type_table (λ v. map info_of v.items) cursor.old cursor.new result }
{
    let count = cursor.u2()?;
    many::<TypeInfo>(alloc, cursor, count)
}

#[tactic(auto, using(crate::proofs::Steps::steps))]
fn with_item(frame_type: u8, cursor: &mut Cursor<'_>) -> Result<MapEntry, ReadFault>
    requires { 64 ≤ frame_type }
    ensures { GoesOn (andthen type_info
        (λ item. done (maps.same_with_item (frame_type - 64) item))) entry_of cursor.old cursor.new result }
{
    let item = read_type(cursor)?;
    Ok(MapEntry::SameWithItem(frame_type - 64, item))
}

#[tactic(auto, using(crate::proofs::Steps::steps))]
fn with_item_extended(cursor: &mut Cursor<'_>) -> Result<MapEntry, ReadFault>
    ensures { GoesOn (andthen (number 2)
        (λ delta. andthen type_info (λ item. done
        (maps.same_with_item_extended delta item)))) entry_of cursor.old cursor.new result }
{
    let delta = cursor.u2()?;
    let item = read_type(cursor)?;
    Ok(MapEntry::SameWithItemExtended(delta, item))
}

#[tactic(auto, using(crate::proofs::Steps::steps))]
fn append(alloc: Global, frame_type: u8, cursor: &mut Cursor<'_>) -> Result<MapEntry, ReadFault>
    requires { 251 ≤ frame_type }
    ensures { GoesOn (andthen (number 2)
        (λ delta. andthen (times (frame_type - 251) type_info)
        (λ locals. done (maps.append delta locals)))) entry_of cursor.old cursor.new result }
{
    let delta = cursor.u2()?;
    let locals = many::<TypeInfo>(alloc, cursor, (frame_type - 251) as u16)?;
    Ok(MapEntry::Append(delta, locals))
}

#[tactic(auto, using(crate::proofs::Steps::steps))]
fn full(alloc: Global, cursor: &mut Cursor<'_>) -> Result<MapEntry, ReadFault>
    ensures { GoesOn (andthen (number 2)
        (λ delta. andthen type_table (λ locals. andthen type_table
        (λ stack. done (maps.full delta locals stack))))) entry_of cursor.old cursor.new result }
{
    let delta = cursor.u2()?;
    let locals = type_table(alloc, cursor)?;
    let stack = type_table(alloc, cursor)?;
    Ok(MapEntry::Full(delta, locals, stack))
}

/// The entry that follows a frame type; 128 to 246 are reserved.
fn behind_type(
    alloc: Global,
    frame_type: u8,
    cursor: &mut Cursor<'_>,
) -> Result<MapEntry, ReadFault>
    requires { 0 < cursor.now.at }
    ensures { GoesOn (entry_behind frame_type) entry_of cursor.old cursor.new result }
{
    if frame_type <= 63 {
        Ok(MapEntry::Same(frame_type))
    } else if frame_type <= 127 {
        with_item(frame_type, cursor)
    } else if frame_type <= 246 {
        Err(ReadFault::BadFrameType {
            at: cursor.at() - 1,
        })
    } else if frame_type == 247 {
        with_item_extended(cursor)
    } else if frame_type <= 250 {
        Ok(MapEntry::Chop(251 - frame_type, cursor.u2()?))
    } else if frame_type == 251 {
        Ok(MapEntry::SameExtended(cursor.u2()?))
    } else if frame_type <= 254 {
        append(alloc, frame_type, cursor)
    } else {
        full(alloc, cursor)
    }
}

/// An entry: its frame type, and what stands after it.
#[tactic(auto, unfolding(crate::specs::StackMaps::map_entry))]
pub fn read_entry(alloc: Global, cursor: &mut Cursor<'_>) -> Result<MapEntry, ReadFault>
    ensures { GoesOn map_entry entry_of cursor.old cursor.new result }
{
    let frame_type = cursor.u1()?;
    behind_type(alloc, frame_type, cursor)
}

/// A count, and so many entries.
#[tactic(auto, unfolding(crate::specs::StackMaps::stack_map))]
pub fn read_entries(alloc: Global, cursor: &mut Cursor<'_>) -> Result<Vec<MapEntry>, ReadFault>
    ensures { GoesOn stack_map (λ v. map entry_of v.items) cursor.old cursor.new result }
{
    let count = cursor.u2()?;
    many::<MapEntry>(alloc, cursor, count)
}
