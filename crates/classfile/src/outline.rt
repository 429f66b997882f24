//! The outline of a class file, read from any reader (JVMS 4.1).
ghost use Rattle.std.specs.Prelude.{◌≡◌, ◌-◌, ◌<◌, length, false};
ghost use Rattle.layout.specs.Streams.{Streams};
ghost use Rattle.layout.specs.declared.fault.ReadFault.TheVariants.{BadTag};
ghost use Rattle.classfile.specs.Outline.{bytes, counted, repeated, text, both, wide, constant, is_wide, tagged, indexed, constants, pool, attributes, numbers, members, interfaces, behind_pool, head, outline};

use layout::{ReadFault, Reading, StreamFault};
use std::io::Read;

/// So many bytes, whatever they are.
#[tactic(auto, using(crate::proofs::Outlines::steps))]
fn bytes<R: Read>(reading: &mut Reading, reader: &mut R, n: usize) -> Result<(), StreamFault>
    ensures { Streams (bytes n) (λ x. x) reading.old.bytes reading.new.bytes (R.remaining reader.old)
        (R.remaining reader.new) result }
{
    reading.part(reader, n)?;
    Ok(())
}

/// A text: its length, and so many bytes (JVMS 4.4.7).
#[tactic(auto, using(crate::proofs::Outlines::steps), unfolding(crate::specs::Outline::text))]
fn text<R: Read>(reading: &mut Reading, reader: &mut R) -> Result<(), StreamFault>
    ensures { Streams text (λ x. x) reading.old.bytes reading.new.bytes (R.remaining reader.old)
        (R.remaining reader.new) result }
{
    let length = reading.u2(reader)?;
    bytes(reading, reader, length as usize)
}

/// Two parts of so many bytes.
#[tactic(auto, using(crate::proofs::Outlines::steps), unfolding(crate::specs::Outline::both))]
fn both<R: Read>(
    reading: &mut Reading,
    reader: &mut R,
    first: usize,
    second: usize,
) -> Result<(), StreamFault>
    ensures { Streams (both first second) (λ x. x) reading.old.bytes reading.new.bytes (R.remaining reader.old)
        (R.remaining reader.new) result }
{
    reading.part(reader, first)?;
    bytes(reading, reader, second)
}

/// The refusal of the tag that was just read, which may not stand where it does.
fn bad_tag(reading: &Reading, tag: u8) -> StreamFault
    requires { 0 < length reading.now.bytes }
    ensures { result ≡ record { taken = length reading.now.bytes; why = BadTag (length reading.now.bytes - 1) tag } }
{
    let taken = reading.bytes().len();
    StreamFault {
        taken,
        why: ReadFault::BadTag { at: taken - 1, tag },
    }
}

/// The body of a Long or Double, whose tag was just read: the last index has none after it (JVMS 4.4.5).
#[tactic(auto, using(crate::proofs::Outlines::steps), unfolding(crate::specs::Outline::wide))]
fn wide<R: Read>(
    reading: &mut Reading,
    reader: &mut R,
    last: bool,
    tag: u8,
) -> Result<(), StreamFault>
    requires { 0 < length reading.now.bytes }
    ensures { Streams (wide last tag) (λ x. x) reading.old.bytes reading.new.bytes (R.remaining reader.old)
        (R.remaining reader.new) result }
{
    if last {
        return Err(bad_tag(reading, tag));
    }
    both(reading, reader, 4, 4)
}

/// The body of a constant, whose tag was just read (JVMS 4.4).
#[tactic(auto, using(crate::proofs::Outlines::steps), unfolding(crate::specs::Outline::constant))]
fn constant<R: Read>(
    reading: &mut Reading,
    reader: &mut R,
    last: bool,
    tag: u8,
) -> Result<(), StreamFault>
    requires { 0 < length reading.now.bytes }
    ensures { Streams (constant last tag) (λ x. x) reading.old.bytes reading.new.bytes (R.remaining reader.old)
        (R.remaining reader.new) result }
{
    match tag {
        // Utf8
        1 => text(reading, reader),
        // Integer, Float
        3 | 4 => bytes(reading, reader, 4),
        // Long, Double
        5 | 6 => wide(reading, reader, last, tag),
        // Class, String
        7 | 8 => bytes(reading, reader, 2),
        // Fieldref, Methodref
        9 | 10 => both(reading, reader, 2, 2),
        // InterfaceMethodref, NameAndType
        11 | 12 => both(reading, reader, 2, 2),
        // MethodHandle
        15 => both(reading, reader, 1, 2),
        // MethodType
        16 => bytes(reading, reader, 2),
        // Dynamic
        17 => both(reading, reader, 2, 2),
        // InvokeDynamic
        18 => both(reading, reader, 2, 2),
        _ => Err(bad_tag(reading, tag)),
    }
}

/// Whether the constant takes two indices, as a Long and a Double do (JVMS 4.4.5).
fn is_wide(tag: u8) -> bool
    ensures { result ≡ is_wide tag }
{
    tag == 5 || tag == 6
}

/// A constant, its tag first, and whether it takes a second index; `last` says that there is none.
#[tactic(auto, using(crate::proofs::Outlines::steps), unfolding(crate::specs::Outline::tagged))]
fn tagged<R: Read>(reading: &mut Reading, reader: &mut R, last: bool) -> Result<bool, StreamFault>
    ensures { Streams (tagged last) (λ x. x) reading.old.bytes reading.new.bytes (R.remaining reader.old)
        (R.remaining reader.new) result }
{
    let tag = reading.u1(reader)?;
    constant(reading, reader, last, tag)?;
    Ok(is_wide(tag))
}

/// Reads the entry at an index, and tells whether it takes the next one too.
#[tactic(auto, using(crate::proofs::Outlines::steps), unfolding(crate::specs::Outline::indexed))]
fn indexed<R: Read>(
    reading: &mut Reading,
    reader: &mut R,
    second: bool,
    last: bool,
) -> Result<bool, StreamFault>
    ensures { Streams (indexed second last) (λ x. x) reading.old.bytes reading.new.bytes (R.remaining reader.old)
        (R.remaining reader.new) result }
{
    if second {
        Ok(false)
    } else {
        tagged(reading, reader, last)
    }
}

/// The constants of so many indices.
fn constants<R: Read>(reading: &mut Reading, reader: &mut R, count: u16) -> Result<(), StreamFault>
    ensures { Streams (constants count false) (λ x. x) reading.old.bytes reading.new.bytes (R.remaining reader.old)
        (R.remaining reader.new) result }
{
    let mut second = false;
    for i in 0..count {
        second = indexed(reading, reader, second, i + 1 == count)?;
    }
    Ok(())
}

/// The constant pool (JVMS 4.1).
#[tactic(auto, using(crate::proofs::Outlines::steps), unfolding(crate::specs::Outline::pool))]
fn pool<R: Read>(reading: &mut Reading, reader: &mut R) -> Result<(), StreamFault>
    ensures { Streams pool (λ x. x) reading.old.bytes reading.new.bytes (R.remaining reader.old)
        (R.remaining reader.new) result }
{
    let count = reading.u2(reader)?;
    if count == 0 {
        let taken = reading.bytes().len();
        return Err(StreamFault {
            taken,
            why: ReadFault::BadPoolCount { at: taken - 2 },
        });
    }
    constants(reading, reader, count - 1)
}

/// A part of which a table of a class file is made.
trait Outlined {
    ghost use Rattle.layout.specs.Format.{Format};
    ghost use Rattle.layout.specs.Streams.{Streams};

    // Its outline.
    ghost outline: { Format (Unit {0}) };

    /// Reads one such part.
    fn read<R: Read>(reading: &mut Reading, reader: &mut R) -> Result<(), StreamFault>
        ensures { Streams outline (λ x. x) reading.old.bytes reading.new.bytes (R.remaining reader.old)
            (R.remaining reader.new) result };
}

/// So many parts of a kind.
fn items<T: Outlined, R: Read>(
    reading: &mut Reading,
    reader: &mut R,
    count: u16,
) -> Result<(), StreamFault>
    ensures { Streams (repeated count T.outline) (λ x. x) reading.old.bytes reading.new.bytes (R.remaining reader.old)
        (R.remaining reader.new) result }
{
    for _ in 0..count {
        T::read(reading, reader)?;
    }
    Ok(())
}

/// A table: a count of two bytes, and so many parts of a kind.
#[tactic(auto, using(crate::proofs::Outlines::steps))]
fn table<T: Outlined, R: Read>(reading: &mut Reading, reader: &mut R) -> Result<(), StreamFault>
    ensures { Streams (counted T.outline) (λ x. x) reading.old.bytes reading.new.bytes (R.remaining reader.old)
        (R.remaining reader.new) result }
{
    let count = reading.u2(reader)?;
    items::<T, R>(reading, reader, count)
}

/// An attribute (JVMS 4.7).
struct Attribute;

impl Outlined for Attribute {
    ghost use Rattle.classfile.specs.Outline.{attribute};

    ghost outline = { attribute };

    #[tactic(auto, using(crate::proofs::Outlines::steps), unfolding(crate::specs::Outline::attribute))]
    fn read<R: Read>(reading: &mut Reading, reader: &mut R) -> Result<(), StreamFault> {
        reading.u2(reader)?;
        let length = reading.u4(reader)?;
        bytes(reading, reader, length as usize)
    }
}

/// A table of attributes.
#[tactic(auto, unfolding(crate::specs::Outline::attributes))]
fn attributes<R: Read>(reading: &mut Reading, reader: &mut R) -> Result<(), StreamFault>
    ensures { Streams attributes (λ x. x) reading.old.bytes reading.new.bytes (R.remaining reader.old)
        (R.remaining reader.new) result }
{
    table::<Attribute, R>(reading, reader)
}

/// So many numbers of two bytes.
#[tactic(auto, unfolding(crate::specs::Outline::numbers))]
fn numbers<R: Read>(reading: &mut Reading, reader: &mut R, count: u16) -> Result<(), StreamFault>
    ensures { Streams (numbers count) (λ x. x) reading.old.bytes reading.new.bytes (R.remaining reader.old)
        (R.remaining reader.new) result }
{
    for _ in 0..count {
        reading.u2(reader)?;
    }
    Ok(())
}

/// A field or a method (JVMS 4.5, 4.6).
struct Member;

impl Outlined for Member {
    ghost use Rattle.classfile.specs.Outline.{member};

    ghost outline = { member };

    #[tactic(auto, using(crate::proofs::Outlines::steps), unfolding(crate::specs::Outline::member))]
    fn read<R: Read>(reading: &mut Reading, reader: &mut R) -> Result<(), StreamFault> {
        numbers(reading, reader, 3)?;
        attributes(reading, reader)
    }
}

/// A table of fields or of methods.
#[tactic(auto, unfolding(crate::specs::Outline::members))]
fn members<R: Read>(reading: &mut Reading, reader: &mut R) -> Result<(), StreamFault>
    ensures { Streams members (λ x. x) reading.old.bytes reading.new.bytes (R.remaining reader.old)
        (R.remaining reader.new) result }
{
    table::<Member, R>(reading, reader)
}

/// The table of interfaces.
#[tactic(auto, using(crate::proofs::Outlines::steps), unfolding(crate::specs::Outline::interfaces))]
fn interfaces<R: Read>(reading: &mut Reading, reader: &mut R) -> Result<(), StreamFault>
    ensures { Streams interfaces (λ x. x) reading.old.bytes reading.new.bytes (R.remaining reader.old)
        (R.remaining reader.new) result }
{
    let count = reading.u2(reader)?;
    numbers(reading, reader, count)
}

/// Reads the part after the constant pool.
#[tactic(auto, using(crate::proofs::Outlines::steps), unfolding(crate::specs::Outline::behind_pool))]
fn behind_pool<R: Read>(reading: &mut Reading, reader: &mut R) -> Result<(), StreamFault>
    ensures { Streams behind_pool (λ x. x) reading.old.bytes reading.new.bytes (R.remaining reader.old)
        (R.remaining reader.new) result }
{
    numbers(reading, reader, 3)?;
    interfaces(reading, reader)?;
    members(reading, reader)?;
    members(reading, reader)?;
    attributes(reading, reader)
}

/// The magic number and the version, which may be any.
#[tactic(auto, using(crate::proofs::Outlines::steps), unfolding(crate::specs::Outline::head))]
fn head<R: Read>(reading: &mut Reading, reader: &mut R) -> Result<(), StreamFault>
    ensures { Streams head (λ x. x) reading.old.bytes reading.new.bytes (R.remaining reader.old)
        (R.remaining reader.new) result }
{
    if reading.u4(reader)? != 0xCAFE_BABE {
        return Err(StreamFault {
            taken: reading.bytes().len(),
            why: ReadFault::BadMagic,
        });
    }
    numbers(reading, reader, 2)
}

/// The outline of a class file.
#[tactic(auto, using(crate::proofs::Outlines::steps), unfolding(crate::specs::Outline::outline))]
pub fn outline<R: Read>(reading: &mut Reading, reader: &mut R) -> Result<(), StreamFault>
    ensures { Streams outline (λ x. x) reading.old.bytes reading.new.bytes (R.remaining reader.old)
        (R.remaining reader.new) result }
{
    head(reading, reader)?;
    pool(reading, reader)?;
    behind_pool(reading, reader)
}
