//! The part of a class file in which a fault of its bytes lies (JVMS 4.1, 4.4 to 4.7).
ghost use Rattle.std.specs.Prelude.{◌≡◌, ◌-◌, false, Some, None, Ok, Err, nat_lt, if◌then◌else◌};
ghost use Rattle.layout.specs.Format.{number};
ghost use Rattle.classfile.specs.FileParts.{constant_of, header_of, attribute_of, search_in, search_constants, search_attributes, search_member, search_members, search_count, search_pool, search_tables, search_file, member_head, between, file_part, place_in, fault_part};
ghost use Rattle.classfile.specs.Outline.{attribute, head, indexed};
ghost use Rattle.classfile.specs.private.Searching.{Searches, kind_place};

use crate::form_fault::Place;
use crate::skipping::{attribute, between, head, indexed, member_head};
use layout::{Cursor, ReadFault};

/// A part of a class file, by its bytes, whether or not they are a class file.
#[derive(Clone, Copy, Debug, PartialEq, Eq)]
pub struct FilePart {
    /// A constant, a field or a method; or, with an attribute, the class.
    pub place: Place,
    /// The byte that stands where a constant has its tag, if there is one.
    pub tag: Option<u8>,
    /// The attribute of the class, the field or the method, by its number from 0; nothing for what stands in front of
    /// the attributes of a field or a method.
    pub attribute: Option<usize>,
}

/// Fields or methods.
#[derive(Clone, Copy)]
enum Kind {
    Field,
    Method,
}

fn kind_place(kind: Kind, number: usize) -> Place
    ensures { result ≡ kind_place kind number }
{
    match kind {
        Kind::Field => Place::Field(number),
        Kind::Method => Place::Method(number),
    }
}

fn constant_of(index: usize, bytes: &[u8]) -> FilePart
    ensures { result ≡ constant_of index bytes.now }
{
    FilePart {
        place: Place::Pool(index),
        tag: bytes.first().copied(),
        attribute: None,
    }
}

fn header_of(place: Place) -> FilePart
    ensures { result ≡ header_of place }
{
    FilePart {
        place,
        tag: None,
        attribute: None,
    }
}

fn attribute_of(place: Place, number: usize) -> FilePart
    ensures { result ≡ attribute_of place number }
{
    FilePart {
        place,
        tag: None,
        attribute: Some(number),
    }
}

/// That the place does not lie in this part, or in none, of which the cursor is at the end.
fn passed(cursor: &Cursor<'_>, at: usize, part: Option<FilePart>) -> Result<(), Option<FilePart>>
    ensures { result ≡ (if nat_lt at cursor.now.at then Err part else Ok tt) }
{
    if at < cursor.at() { Err(part) } else { Ok(()) }
}

/// Searches the place in the entry at an index of the pool.
fn entry(
    cursor: &mut Cursor<'_>,
    at: usize,
    index: usize,
    second: bool,
    last: bool,
) -> Result<bool, Option<FilePart>>
    ensures { Searches (search_in at (Some (constant_of index cursor.old.rest)) (indexed second last) cursor.old)
        cursor.new result }
{
    let part = Some(constant_of(index, cursor.rest()));
    let Ok(next) = indexed(cursor, second, last) else {
        return Err(part);
    };
    passed(cursor, at, part)?;
    Ok(next)
}

/// Searches the place in the constants of so many indices.
fn constants(cursor: &mut Cursor<'_>, at: usize, count: u16) -> Result<(), Option<FilePart>>
    ensures { Searches (search_constants at count 1 false cursor.old) cursor.new result }
{
    let mut second = false;
    for i in 0..count {
        second = entry(cursor, at, i as usize + 1, second, i + 1 == count)?;
    }
    Ok(())
}

/// Searches the place in a number of items.
fn count(cursor: &mut Cursor<'_>, at: usize) -> Result<u16, Option<FilePart>>
    ensures { Searches (search_count at cursor.old) cursor.new result }
{
    let Ok(count) = cursor.u2() else {
        return Err(None);
    };
    passed(cursor, at, None)?;
    Ok(count)
}

/// Searches the place in an attribute.
fn one_attribute(cursor: &mut Cursor<'_>, at: usize, part: FilePart) -> Result<(), Option<FilePart>>
    ensures { Searches (search_in at (Some part) attribute cursor.old) cursor.new result }
{
    let Ok(()) = attribute(cursor) else {
        return Err(Some(part));
    };
    passed(cursor, at, Some(part))
}

/// Searches the place in so many attributes.
fn attributes(
    cursor: &mut Cursor<'_>,
    at: usize,
    place: Place,
    count: u16,
) -> Result<(), Option<FilePart>>
    ensures { Searches (search_attributes at place count 0 cursor.old) cursor.new result }
{
    for n in 0..count {
        one_attribute(cursor, at, attribute_of(place, n as usize))?;
    }
    Ok(())
}

/// Searches the place in front of the attributes of a field or a method, and returns how many it has.
fn in_front(cursor: &mut Cursor<'_>, at: usize, part: FilePart) -> Result<u16, Option<FilePart>>
    ensures { Searches (search_in at (Some part) member_head cursor.old) cursor.new result }
{
    let Ok(count) = member_head(cursor) else {
        return Err(Some(part));
    };
    passed(cursor, at, Some(part))?;
    Ok(count)
}

/// Searches the place in a field or a method.
fn member(cursor: &mut Cursor<'_>, at: usize, place: Place) -> Result<(), Option<FilePart>>
    ensures { Searches (search_member at place cursor.old) cursor.new result }
{
    let count = in_front(cursor, at, header_of(place))?;
    attributes(cursor, at, place, count)
}

/// Searches the place in so many fields or methods.
fn members(
    cursor: &mut Cursor<'_>,
    at: usize,
    kind: Kind,
    count: u16,
) -> Result<(), Option<FilePart>>
    ensures { Searches (search_members at (kind_place kind) count 0 cursor.old) cursor.new result }
{
    for n in 0..count {
        member(cursor, at, kind_place(kind, n as usize))?;
    }
    Ok(())
}

/// Searches the place in front of the constants of the pool.
fn in_head(cursor: &mut Cursor<'_>, at: usize) -> Result<(), Option<FilePart>>
    ensures { Searches (search_in at None head cursor.old) cursor.new result }
{
    let Ok(()) = head(cursor) else {
        return Err(None);
    };
    passed(cursor, at, None)
}

/// Searches the place up to the end of the pool.
#[tactic(auto, unfolding(crate::specs::FileParts::search_pool))]
fn pool(cursor: &mut Cursor<'_>, at: usize) -> Result<(), Option<FilePart>>
    ensures { Searches (search_pool at cursor.old) cursor.new result }
{
    in_head(cursor, at)?;
    let count = count(cursor, at)?;
    constants(cursor, at, count.saturating_sub(1))
}

/// Searches the place between the pool and the fields, and returns how many of these there are.
fn in_between(cursor: &mut Cursor<'_>, at: usize) -> Result<u16, Option<FilePart>>
    ensures { Searches (search_in at None between cursor.old) cursor.new result }
{
    let Ok(count) = between(cursor) else {
        return Err(None);
    };
    passed(cursor, at, None)?;
    Ok(count)
}

/// Searches the place after the pool.
#[tactic(auto, unfolding(crate::specs::FileParts::search_tables))]
fn tables(cursor: &mut Cursor<'_>, at: usize) -> Result<(), Option<FilePart>>
    ensures { Searches (search_tables at cursor.old) cursor.new result }
{
    let fields = in_between(cursor, at)?;
    members(cursor, at, Kind::Field, fields)?;
    let methods = count(cursor, at)?;
    members(cursor, at, Kind::Method, methods)?;
    let left = count(cursor, at)?;
    attributes(cursor, at, Place::Class, left)
}

fn search_file(cursor: &mut Cursor<'_>, at: usize) -> Result<(), Option<FilePart>>
    ensures { Searches (search_file at cursor.old) cursor.new result }
{
    pool(cursor, at)?;
    tables(cursor, at)
}

/// The part in which this place of the bytes lies.
fn file_part(bytes: &[u8], at: usize) -> Option<FilePart>
    ensures { result ≡ file_part bytes.now at }
{
    let mut cursor = Cursor::new(bytes);
    match search_file(&mut cursor, at) {
        Ok(()) => None,
        Err(part) => part,
    }
}

/// Where a fault of a class file lies.
fn place_in(fault: ReadFault) -> Option<usize>
    ensures { result ≡ place_in fault }
{
    match fault {
        ReadFault::EndsEarly { at }
        | ReadFault::BadText { at }
        | ReadFault::BadTag { at, .. }
        | ReadFault::AttributeLength { at }
        | ReadFault::BytesAfter { at }
        | ReadFault::TooLong { at }
        | ReadFault::ReadFailed { at }
        | ReadFault::BadPoolCount { at } => Some(at),
        ReadFault::OutOfMemory
        | ReadFault::BadMagic
        | ReadFault::BadVersion { .. }
        | ReadFault::BadFrameType { .. }
        | ReadFault::BadTypeTag { .. } => None,
    }
}

/// The part of a class file in which a fault lies that [`decode`](crate::decode) or [`read_class`](crate::read_class)
/// tells of its bytes: the first that ends after the place of the fault, or is not whole.
///
/// Nothing for a fault without a place, and for one in the magic number, the version, the flags, the indices of the
/// class, its superclass and its interfaces, a count of a table of the class, or after all parts. Tags, lengths and
/// counts alone are looked at. Time grows with the bytes up to the fault, and no memory is taken.
pub fn fault_part(bytes: &[u8], fault: ReadFault) -> Option<FilePart>
    ensures { result ≡ fault_part bytes.now fault }
{
    file_part(bytes, place_in(fault)?)
}
