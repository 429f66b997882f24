//! Stack maps: the bodies of StackMapTable attributes (JVMS 4.7.4).
ghost use Rattle.std.specs.Prelude.{◌≡◌, List, map, IfOk, IfErr};
ghost use Rattle.layout.specs.Faults.{UnlessMemory};
ghost use Rattle.layout.specs.declared.fault.ReadFault.TheVariants.{OutOfMemory};
ghost use Rattle.frames.specs.StackMaps as maps;
ghost use Rattle.frames.specs.StackMaps.{IsMap, MapFault};
ghost use Rattle.frames.specs.MapViews.{entry_of};

use crate::map_reading::{read_entries, read_entry, read_type};
use crate::map_writing::{written_entry, written_map, written_type};
use layout::{Cursor, Part, ReadFault, WriteFault};
use std::alloc::Global;
use std::marker::{Model, PhantomData};

/// A verification type as an entry gives it.
#[derive(Clone, Copy, Debug, PartialEq, Eq)]
pub enum TypeInfo {
    Top,
    Integer,
    Float,
    Double,
    Long,
    Null,
    UninitializedThis,
    /// The class that stands at this index of the constant pool.
    Object(u16),
    /// The object that the `new` at this offset of the code made, in bytes, and that no constructor was called for.
    Uninitialized(u16),
}

/// An entry by its form. Each has its offset_delta, in bytes.
#[derive(Debug, Drop)]
pub enum MapEntry {
    /// The locals as before and no stack; the delta is at most 63.
    Same(u8),
    /// The locals as before and a stack of this type; the delta is at most 63.
    SameWithItem(u8, TypeInfo),
    /// The locals as before and a stack of this type.
    SameWithItemExtended(u16, TypeInfo),
    /// The locals as before but for the last of them, 1 to 3, and no stack. The count comes first.
    Chop(u8, u16),
    /// The locals as before and no stack.
    SameExtended(u16),
    /// The locals as before and these after them, 1 to 3, and no stack.
    Append(u16, Vec<TypeInfo>),
    /// These locals, and this stack, whose top is last.
    Full(u16, Vec<TypeInfo>, Vec<TypeInfo>),
}

impl MapEntry {
    ghost use Rattle.frames.specs.DeclaredFrames.{delta_of};

    /// The distance of its frame from the one in front of it, in bytes: the offset_delta.
    pub fn delta(&self) -> u16
        ensures { result ≡ delta_of (entry_of self.now) }
    {
        match self {
            MapEntry::Same(delta) => u16::from(*delta),
            MapEntry::SameWithItem(delta, _) => u16::from(*delta),
            MapEntry::SameWithItemExtended(delta, _) => *delta,
            MapEntry::Chop(_, delta) => *delta,
            MapEntry::SameExtended(delta) => *delta,
            MapEntry::Append(delta, _) => *delta,
            MapEntry::Full(delta, _, _) => *delta,
        }
    }
}

/// The body of a StackMapTable: its entries in order. The lifetime is that of the body; an entry keeps nothing of it.
#[derive(Debug, Drop)]
pub struct StackMap<'a> {
    entries: Vec<MapEntry>,
    body: PhantomData<&'a [u8]>,
}

impl<'a> Model for StackMap<'a> {
    ghost use Rattle.std.specs.Prelude.{List, map};
    ghost use Rattle.frames.specs.StackMaps as maps;
    ghost use Rattle.frames.specs.MapViews.{entry_of};

    ghost Value = { List maps.MapEntry };

    ghost view = { λ m. map entry_of m.entries.items };
}

impl<'a> StackMap<'a> {
    /// The stack map of these entries. Whether bytes spell it shows when it is written.
    pub fn new(entries: Vec<MapEntry>) -> StackMap<'a>
        ensures { result ≡ map entry_of entries.items }
    {
        StackMap {
            entries,
            body: PhantomData,
        }
    }

    /// The entries in order.
    pub fn entries(&self) -> &[MapEntry]
        ensures { map entry_of result.now ≡ self.now }
    {
        &self.entries
    }

    /// The entries, to be changed and made into another stack map.
    pub fn into_entries(self) -> Vec<MapEntry>
        ensures { map entry_of result.items ≡ self.entry }
    {
        self.entries
    }
}

/// A tag, and a number of two bytes after 7 and 8. Refused are 2 `EndsEarly` at a number that is not whole, and 48
/// `BadTypeTag` at a tag over 8. Each value has a spelling.
impl<'a> Part<'a> for TypeInfo {
    ghost use Rattle.frames.specs.StackMaps as maps;
    ghost use Rattle.frames.specs.private.MapLaws.{writes_type};
    ghost use Rattle.frames.specs.MapViews.{info_of};

    ghost View = { maps.TypeInfo };

    ghost view = { info_of };

    ghost format = { maps.type_info };

    ghost pieces = { maps.type_pieces };

    ghost written = { writes_type };

    fn take(_alloc: Global, cursor: &mut Cursor<'a>) -> Result<TypeInfo, ReadFault> {
        let mut step = cursor.fork();
        let info = read_type(&mut step)?;
        *cursor = step;
        Ok(info)
    }

    fn put(&self, out: &mut Vec<u8>) -> Result<(), WriteFault> {
        let bytes = written_type(*out.allocator(), *self)?;
        out.extend_from_slice(&bytes)?;
        Ok(())
    }
}

/// A frame type, and what its form has. Refused are, as the first fault in the order of the bytes, 2 `EndsEarly` at a
/// number that is not whole, 47 `BadFrameType` at a frame type from 128 to 246, and 48 `BadTypeTag`. Without a
/// spelling, 18, are a `Same` or `SameWithItem` with a delta over 63, and a `Chop` or `Append` of none or more than 3;
/// a `Full` with more than 65,535 types in a list is too large, 17.
impl<'a> Part<'a> for MapEntry {
    ghost use Rattle.frames.specs.StackMaps as maps;
    ghost use Rattle.frames.specs.private.MapLaws.{writes_entry};
    ghost use Rattle.frames.specs.MapViews.{entry_of};

    ghost View = { maps.MapEntry };

    ghost view = { entry_of };

    ghost format = { maps.map_entry };

    ghost pieces = { maps.entry_pieces };

    ghost written = { writes_entry };

    fn take(alloc: Global, cursor: &mut Cursor<'a>) -> Result<MapEntry, ReadFault> {
        let mut step = cursor.fork();
        let entry = read_entry(alloc, &mut step)?;
        *cursor = step;
        Ok(entry)
    }

    fn put(&self, out: &mut Vec<u8>) -> Result<(), WriteFault> {
        let bytes = written_entry(*out.allocator(), self)?;
        out.extend_from_slice(&bytes)?;
        Ok(())
    }
}

/// A count of two bytes, and so many entries. Refused are the first fault of an entry, in the order of the bytes, and 2
/// `EndsEarly` at a count that is not whole. 17 is more than 65,535 entries; an entry that is too large or has no
/// spelling is as it is alone.
impl<'a> Part<'a> for StackMap<'a> {
    ghost use Rattle.std.specs.Prelude.{List};
    ghost use Rattle.frames.specs.StackMaps as maps;
    ghost use Rattle.frames.specs.private.MapLaws.{writes_map};

    ghost View = { List maps.MapEntry };

    ghost view = { λ m. m };

    ghost format = { maps.stack_map };

    ghost pieces = { maps.map_pieces };

    ghost written = { writes_map };

    fn take(alloc: Global, cursor: &mut Cursor<'a>) -> Result<StackMap<'a>, ReadFault> {
        let mut step = cursor.fork();
        let entries = read_entries(alloc, &mut step)?;
        *cursor = step;
        Ok(StackMap::new(entries))
    }

    fn put(&self, out: &mut Vec<u8>) -> Result<(), WriteFault> {
        let bytes = written_map(*out.allocator(), self)?;
        out.extend_from_slice(&bytes)?;
        Ok(())
    }
}

/// The stack map that the body of a StackMapTable spells, all of it.
///
/// Otherwise the first fault in the order of the bytes: 2 where a part passes the end, 47 for a frame type, 48 for a
/// type's tag, and 12 at the first byte left over; or 1 where memory runs out. Places count bytes from the body's
/// first.
pub fn read_map<'a>(alloc: Global, body: &'a [u8]) -> Result<StackMap<'a>, ReadFault>
    // The answer is spelled by the body.
    ensures found { IfOk result (λ m. IsMap body.now m) }
    // The map that the body spells is returned, unless memory runs out.
    ensures only { (es : List maps.MapEntry) → IsMap body.now es → IfErr result (λ e. e ≡ OutOfMemory) }
    // Which fault it is.
    ensures fault { IfErr result (λ e. UnlessMemory e (MapFault body.now e)) }
{
    let mut cursor = Cursor::new(body);
    let map = StackMap::take(alloc, &mut cursor)?;
    if !cursor.rest().is_empty() {
        return Err(ReadFault::AttributeLength { at: cursor.at() });
    }
    Ok(map)
}
