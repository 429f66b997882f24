//! How far the outline of a class file reaches in bytes that are in memory (JVMS 4.1, 4.4 to 4.7). Each call returns
//! the bytes behind a part of it, or `None` where the bytes do not begin with such a part.
ghost use Rattle.std.specs.Prelude.{◌≡◌, ◌≤◌, IfSome, drop, length, false};
ghost use Rattle.layout.specs.Format.{number};
ghost use Rattle.classfile.specs.Outline.{bytes, tagged, indexed, constants, pool, attribute, attributes, numbers, member, members, interfaces, behind_pool, head, outline, repeated};
ghost use Rattle.file_reads.specs.private.Passing.{Passes, Skips, Takes};

use byteorder::{BigEndian, ByteOrder};

/// The bytes behind so many.
fn skip(bytes: &[u8], n: usize) -> Option<&[u8]>
    ensures within { IfSome result (λ rest. n ≤ length bytes.now) }
    ensures rest { IfSome result (λ rest. rest.now ≡ drop n bytes.now) }
{
    let (_, rest) = bytes.split_at_checked(n)?;
    Some(rest)
}

/// A number of two bytes, and the bytes behind it.
#[tactic(auto, using(crate::proofs::Outlines::number_front))]
fn u2(bytes: &[u8]) -> Option<(u16, &[u8])>
    ensures { IfSome result (λ x. Passes (number 2) bytes.now x.1.now x.0) }
{
    let (front, rest) = bytes.split_at_checked(2)?;
    Some((BigEndian::read_u16(front), rest))
}

/// How many bytes a constant takes, its tag too, and whether it takes a second index.
#[derive(Clone, Copy)]
struct Extent {
    length: usize,
    is_wide: bool,
}

/// The extent of a constant of one index.
fn narrow(length: usize) -> Extent
    ensures { result ≡ record { length = length; is_wide = false } }
{
    Extent {
        length,
        is_wide: false,
    }
}

/// The extent of a constant of which a class file has few (JVMS 4.4): the last index has none after it for a Long or
/// Double (4.4.5).
fn rare_extent(tag: u8, last: bool) -> Option<Extent>
    ensures { IfSome result (Takes last tag) }
{
    match tag {
        // Integer, Float
        3 | 4 => Some(narrow(5)),
        // Long, Double
        5 | 6 => {
            if last {
                None
            } else {
                Some(Extent {
                    length: 9,
                    is_wide: true,
                })
            }
        }
        // MethodHandle
        15 => Some(narrow(4)),
        // MethodType
        16 => Some(narrow(3)),
        // Dynamic, InvokeDynamic
        17 | 18 => Some(narrow(5)),
        _ => None,
    }
}

/// The extent of the constant with which the bytes begin (JVMS 4.4); `last` says that no second index is left.
#[tactic(auto, using(crate::proofs::Extents::found_by))]
fn extent_of(bytes: &[u8], last: bool) -> Option<Extent>
    ensures { IfSome result (λ e. e.length ≤ length bytes.now
        → Passes (tagged last) bytes.now (drop e.length bytes.now) e.is_wide) }
{
    let (front, _) = bytes.split_at_checked(3)?;
    match front[0] {
        // Utf8
        1 => Some(narrow(3 + BigEndian::read_u16(&front[1..]) as usize)),
        // Class, String
        7 | 8 => Some(narrow(3)),
        // Fieldref, Methodref, InterfaceMethodref, NameAndType
        9 | 10 | 11 | 12 => Some(narrow(5)),
        tag => rare_extent(tag, last),
    }
}

/// The entry at an index, and whether it takes the next one too.
#[tactic(auto, unfolding(classfile::specs::Outline::indexed))]
fn indexed(bytes: &[u8], second: bool, last: bool) -> Option<(bool, &[u8])>
    ensures { IfSome result (λ x. Passes (indexed second last) bytes.now x.1.now x.0) }
{
    if second {
        return Some((false, bytes));
    }
    let extent = extent_of(bytes, last)?;
    Some((extent.is_wide, skip(bytes, extent.length)?))
}

/// The constants of so many indices.
fn constants(bytes: &[u8], count: u16) -> Option<&[u8]>
    ensures { IfSome result (λ rest. Skips (constants count false) bytes.now rest.now) }
{
    let mut rest = bytes;
    let mut second = false;
    for i in 0..count {
        (second, rest) = indexed(rest, second, i + 1 == count)?;
    }
    Some(rest)
}

/// The constant pool (JVMS 4.1).
fn pool(bytes: &[u8]) -> Option<&[u8]>
    ensures { IfSome result (λ rest. Skips pool bytes.now rest.now) }
{
    let (count, rest) = u2(bytes)?;
    if count == 0 {
        return None;
    }
    constants(rest, count - 1)
}

/// So many numbers of two bytes.
#[tactic(auto, using(crate::proofs::Outlines::numbers_front))]
fn numbers(bytes: &[u8], count: u16) -> Option<&[u8]>
    ensures { IfSome result (λ rest. Skips (numbers count) bytes.now rest.now) }
{
    skip(bytes, 2 * count as usize)
}

/// An attribute (JVMS 4.7).
#[tactic(auto, using(crate::proofs::Outlines::attribute_front))]
fn attribute(bytes: &[u8]) -> Option<&[u8]>
    ensures { IfSome result (λ rest. Skips attribute bytes.now rest.now) }
{
    let (front, rest) = bytes.split_at_checked(6)?;
    let length = BigEndian::read_u32(&front[2..]);
    skip(rest, length as usize)
}

/// So many attributes.
fn attributes_of(bytes: &[u8], count: u16) -> Option<&[u8]>
    ensures { IfSome result (λ rest. Skips (repeated count attribute) bytes.now rest.now) }
{
    let mut rest = bytes;
    for _ in 0..count {
        rest = attribute(rest)?;
    }
    Some(rest)
}

/// A table of attributes.
fn attributes(bytes: &[u8]) -> Option<&[u8]>
    ensures { IfSome result (λ rest. Skips attributes bytes.now rest.now) }
{
    let (count, rest) = u2(bytes)?;
    attributes_of(rest, count)
}

/// A field or a method (JVMS 4.5, 4.6).
fn member(bytes: &[u8]) -> Option<&[u8]>
    ensures { IfSome result (λ rest. Skips member bytes.now rest.now) }
{
    let rest = numbers(bytes, 3)?;
    attributes(rest)
}

/// So many fields or methods.
fn members_of(bytes: &[u8], count: u16) -> Option<&[u8]>
    ensures { IfSome result (λ rest. Skips (repeated count member) bytes.now rest.now) }
{
    let mut rest = bytes;
    for _ in 0..count {
        rest = member(rest)?;
    }
    Some(rest)
}

/// A table of fields or of methods.
fn members(bytes: &[u8]) -> Option<&[u8]>
    ensures { IfSome result (λ rest. Skips members bytes.now rest.now) }
{
    let (count, rest) = u2(bytes)?;
    members_of(rest, count)
}

/// The table of interfaces.
fn interfaces(bytes: &[u8]) -> Option<&[u8]>
    ensures { IfSome result (λ rest. Skips interfaces bytes.now rest.now) }
{
    let (count, rest) = u2(bytes)?;
    numbers(rest, count)
}

/// The part after the constant pool.
fn behind_pool(bytes: &[u8]) -> Option<&[u8]>
    ensures { IfSome result (λ rest. Skips behind_pool bytes.now rest.now) }
{
    let rest = numbers(bytes, 3)?;
    let rest = interfaces(rest)?;
    let rest = members(rest)?;
    let rest = members(rest)?;
    attributes(rest)
}

/// The magic number and the version, which may be any.
fn head(bytes: &[u8]) -> Option<&[u8]>
    ensures { IfSome result (λ rest. Skips head bytes.now rest.now) }
{
    let (front, rest) = bytes.split_at_checked(4)?;
    if BigEndian::read_u32(front) != 0xCAFE_BABE {
        return None;
    }
    numbers(rest, 2)
}

/// The outline of a class file.
pub fn outline(bytes: &[u8]) -> Option<&[u8]>
    ensures { IfSome result (λ rest. Skips outline bytes.now rest.now) }
{
    let rest = head(bytes)?;
    let rest = pool(rest)?;
    behind_pool(rest)
}
