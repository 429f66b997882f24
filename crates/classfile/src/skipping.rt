//! Reads past the parts of a class file by their outline, with a cursor.
ghost use Rattle.std.specs.Prelude.{◌≡◌, ◌-◌};
ghost use Rattle.layout.specs.declared.fault.ReadFault.TheVariants.{BadTag};
ghost use Rattle.classfile.specs.Outline.{bytes, text, both, wide, constant, is_wide, tagged, indexed, attribute, numbers, interfaces, head};
ghost use Rattle.classfile.specs.FileParts.{between, member_head};
ghost use Rattle.classfile.specs.private.Searching.{Skips};

use layout::{Cursor, ReadFault};

/// So many bytes, whatever they are.
#[tactic(auto, using(crate::proofs::Steps::steps))]
fn bytes(cursor: &mut Cursor<'_>, n: usize) -> Result<(), ReadFault>
    ensures { Skips (bytes n) cursor.old cursor.new result }
{
    cursor.part(n)?;
    Ok(())
}

/// A text: its length, and so many bytes (JVMS 4.4.7).
#[tactic(auto, using(crate::proofs::Steps::steps), unfolding(crate::specs::Outline::text))]
fn text(cursor: &mut Cursor<'_>) -> Result<(), ReadFault>
    ensures { Skips text cursor.old cursor.new result }
{
    let length = cursor.u2()?;
    bytes(cursor, length as usize)
}

/// Two parts of so many bytes.
#[tactic(auto, using(crate::proofs::Steps::steps), unfolding(crate::specs::Outline::both))]
fn both(cursor: &mut Cursor<'_>, first: usize, second: usize) -> Result<(), ReadFault>
    ensures { Skips (both first second) cursor.old cursor.new result }
{
    cursor.part(first)?;
    bytes(cursor, second)
}

/// The body of a Long or Double, whose tag was just read: the last index has none after it (JVMS 4.4.5).
#[tactic(auto, using(crate::proofs::Steps::steps), unfolding(crate::specs::Outline::wide))]
fn wide(cursor: &mut Cursor<'_>, at: usize, last: bool, tag: u8) -> Result<(), ReadFault>
    requires { at ≡ cursor.old.at - 1 }
    ensures { Skips (wide last tag) cursor.old cursor.new result }
{
    if last {
        return Err(ReadFault::BadTag { at, tag });
    }
    both(cursor, 4, 4)
}

/// The body of a constant, whose tag was just read at `at` (JVMS 4.4).
#[tactic(auto, using(crate::proofs::Steps::steps), unfolding(crate::specs::Outline::constant))]
fn constant(cursor: &mut Cursor<'_>, at: usize, last: bool, tag: u8) -> Result<(), ReadFault>
    requires { at ≡ cursor.old.at - 1 }
    ensures { Skips (constant last tag) cursor.old cursor.new result }
{
    match tag {
        // Utf8
        1 => text(cursor),
        // Integer, Float
        3 | 4 => bytes(cursor, 4),
        // Long, Double
        5 | 6 => wide(cursor, at, last, tag),
        // Class, String
        7 | 8 => bytes(cursor, 2),
        // Fieldref, Methodref
        9 | 10 => both(cursor, 2, 2),
        // InterfaceMethodref, NameAndType
        11 | 12 => both(cursor, 2, 2),
        // MethodHandle
        15 => both(cursor, 1, 2),
        // MethodType
        16 => bytes(cursor, 2),
        // Dynamic
        17 => both(cursor, 2, 2),
        // InvokeDynamic
        18 => both(cursor, 2, 2),
        _ => Err(ReadFault::BadTag { at, tag }),
    }
}

/// A constant, its tag first, and whether it takes a second index; `last` says that there is none.
#[tactic(auto, using(crate::proofs::Steps::steps), unfolding(crate::specs::Outline::tagged))]
fn tagged(cursor: &mut Cursor<'_>, last: bool) -> Result<bool, ReadFault>
    ensures { Skips (tagged last) cursor.old cursor.new result }
{
    let at = cursor.at();
    let tag = cursor.u1()?;
    constant(cursor, at, last, tag)?;
    Ok(tag == 5 || tag == 6)
}

/// The entry at an index, and whether it takes the next one too.
#[tactic(auto, using(crate::proofs::Steps::steps), unfolding(crate::specs::Outline::indexed))]
pub fn indexed(cursor: &mut Cursor<'_>, second: bool, last: bool) -> Result<bool, ReadFault>
    ensures { Skips (indexed second last) cursor.old cursor.new result }
{
    if second {
        Ok(false)
    } else {
        tagged(cursor, last)
    }
}

/// So many numbers of two bytes.
#[tactic(auto, unfolding(crate::specs::Outline::numbers))]
fn numbers(cursor: &mut Cursor<'_>, count: u16) -> Result<(), ReadFault>
    ensures { Skips (numbers count) cursor.old cursor.new result }
{
    for _ in 0..count {
        cursor.u2()?;
    }
    Ok(())
}

/// The magic number and the version, which may be any.
#[tactic(auto, using(crate::proofs::Steps::steps), unfolding(crate::specs::Outline::head))]
pub fn head(cursor: &mut Cursor<'_>) -> Result<(), ReadFault>
    ensures { Skips head cursor.old cursor.new result }
{
    if cursor.u4()? != 0xCAFE_BABE {
        return Err(ReadFault::BadMagic);
    }
    numbers(cursor, 2)
}

/// The table of interfaces.
#[tactic(auto, using(crate::proofs::Steps::steps), unfolding(crate::specs::Outline::interfaces))]
fn interfaces(cursor: &mut Cursor<'_>) -> Result<(), ReadFault>
    ensures { Skips interfaces cursor.old cursor.new result }
{
    let count = cursor.u2()?;
    numbers(cursor, count)
}

/// Reads past what stands between the pool and the fields, and returns the number of these.
#[tactic(auto, using(crate::proofs::Steps::steps), unfolding(crate::specs::FileParts::between))]
pub fn between(cursor: &mut Cursor<'_>) -> Result<u16, ReadFault>
    ensures { Skips between cursor.old cursor.new result }
{
    numbers(cursor, 3)?;
    interfaces(cursor)?;
    cursor.u2()
}

/// Reads past what stands in front of the attributes of a field or a method, and returns the number of these.
#[tactic(auto, using(crate::proofs::Steps::steps), unfolding(crate::specs::FileParts::member_head))]
pub fn member_head(cursor: &mut Cursor<'_>) -> Result<u16, ReadFault>
    ensures { Skips member_head cursor.old cursor.new result }
{
    numbers(cursor, 3)?;
    cursor.u2()
}

/// An attribute (JVMS 4.7).
#[tactic(auto, using(crate::proofs::Steps::steps), unfolding(crate::specs::Outline::attribute))]
pub fn attribute(cursor: &mut Cursor<'_>) -> Result<(), ReadFault>
    ensures { Skips attribute cursor.old cursor.new result }
{
    cursor.u2()?;
    let length = cursor.u4()?;
    bytes(cursor, length as usize)
}
