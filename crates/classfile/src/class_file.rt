//! A class file, its version and what stands after its pool (JVMS 4.1).
ghost use Rattle.std.specs.Prelude.{◌≡◌, map};
ghost use Rattle.layout.specs.Faults.{GoesOn};
ghost use Rattle.layout.specs.Pieces.{Goes, field, marked};
ghost use Rattle.classfile.specs.ClassFile.{interfaces, members, class_attributes, version, manner, class};
ghost use Rattle.classfile.specs.private.Pieces.{version_pieces, manner_pieces, tables_pieces, behind_pool_pieces, pieces_with, class_pieces};
ghost use Rattle.classfile.specs.Views.{member_view, class_attribute_view, class_view};

use crate::class_attribute::ClassAttribute;
use crate::location::Location;
use crate::member::{Member, put_three, three};
use crate::table::{Item, put_table, take_table};
use crate::versions::Versions;
use layout::{Cursor, Output, ReadFault, WriteFault};
use pool::{Pool, put_pool, read_pool};
use std::alloc::Global;

/// A class file. Texts, the bodies of attributes and code are parts of the bytes that it was read from.
#[derive(Drop)]
pub struct ClassFile<'a> {
    /// Whether it was read as one of the versions of a release, and all rules of form are judged.
    pub release: bool,
    /// The minor_version item.
    pub minor_version: u16,
    /// The major_version item.
    pub major_version: u16,
    /// The constant_pool item.
    pub constant_pool: Pool<'a>,
    /// The access_flags item.
    pub access_flags: u16,
    /// The this_class item, the index of a Class.
    pub this_class: u16,
    /// The super_class item, the index of a Class or 0.
    pub super_class: u16,
    /// The interfaces item, indices of Classes.
    pub interfaces: Vec<u16>,
    /// The fields item.
    pub fields: Vec<Member<'a>>,
    /// The methods item.
    pub methods: Vec<Member<'a>>,
    /// The attributes item.
    pub attributes: Vec<ClassAttribute<'a>>,
}

impl<'a> Item<'a> for u16 {
    ghost use Rattle.std.specs.Prelude.{ℕ};
    ghost use Rattle.layout.specs.Format.{number};

    ghost View = { ℕ };

    ghost view = { λ n. n };

    ghost format = { λ _ _. number 2 };

    ghost pieces = { λ _ _. field 2 };

    fn take(
        _alloc: Global,
        _pool: &Pool<'a>,
        _location: Location,
        cursor: &mut Cursor<'a>,
    ) -> Result<Self, ReadFault> {
        cursor.u2()
    }

    fn put(
        &self,
        _pool: &Pool<'_>,
        _location: Location,
        out: &mut Output,
    ) -> Result<(), WriteFault> {
        out.put_u2(*self)
    }
}

/// The magic number and the version, which is one of these.
#[tactic(auto, unfolding(crate::specs::ClassFile::version))]
fn version(versions: Versions, cursor: &mut Cursor<'_>) -> Result<(u16, u16), ReadFault>
    ensures { GoesOn (version versions) (λ x. x) cursor.old cursor.new result }
{
    if cursor.u4()? != 0xCAFE_BABE {
        return Err(ReadFault::BadMagic);
    }
    let minor = cursor.u2()?;
    let major = cursor.u2()?;
    if versions.take(minor, major) {
        Ok((minor, major))
    } else {
        Err(ReadFault::BadVersion { major, minor })
    }
}

/// Whether a class of these versions is read as a release has it, for which no byte is taken.
#[tactic(auto, unfolding(crate::specs::ClassFile::manner))]
fn manner(versions: Versions, cursor: &mut Cursor<'_>) -> Result<bool, ReadFault>
    ensures { GoesOn (manner versions) (λ x. x) cursor.old cursor.new result }
{
    Ok(versions.is_release())
}

#[tactic(auto, unfolding(crate::specs::ClassFile::interfaces))]
fn interfaces<'a>(
    alloc: Global,
    pool: &Pool<'a>,
    cursor: &mut Cursor<'a>,
) -> Result<Vec<u16>, ReadFault>
    ensures { GoesOn interfaces (λ v. map (λ n. n) v.items) cursor.old cursor.new result }
{
    take_table::<u16>(alloc, pool, Location::Code, cursor)
}

#[tactic(auto, unfolding(crate::specs::ClassFile::members))]
fn members<'a>(
    alloc: Global,
    pool: &Pool<'a>,
    location: Location,
    cursor: &mut Cursor<'a>,
) -> Result<Vec<Member<'a>>, ReadFault>
    ensures { GoesOn (members pool.now location) (λ v. map member_view v.items) cursor.old cursor.new result }
{
    take_table::<Member<'a>>(alloc, pool, location, cursor)
}

#[tactic(auto, unfolding(crate::specs::ClassFile::class_attributes))]
fn class_attributes<'a>(
    alloc: Global,
    pool: &Pool<'a>,
    location: Location,
    cursor: &mut Cursor<'a>,
) -> Result<Vec<ClassAttribute<'a>>, ReadFault>
    ensures { GoesOn (class_attributes pool.now location)
        (λ v. map class_attribute_view v.items) cursor.old cursor.new result }
{
    take_table::<ClassAttribute<'a>>(alloc, pool, location, cursor)
}

/// A class file of one of these versions, from its magic number to its attributes.
#[tactic(auto, using(crate::proofs::Steps::steps), unfolding(crate::specs::ClassFile::class))]
pub fn class<'a>(
    alloc: Global,
    versions: Versions,
    cursor: &mut Cursor<'a>,
) -> Result<ClassFile<'a>, ReadFault>
    ensures { GoesOn (class versions) class_view cursor.old cursor.new result }
{
    let (minor_version, major_version) = version(versions, cursor)?;
    let release = manner(versions, cursor)?;
    let constant_pool = read_pool(alloc, cursor)?;
    let (access_flags, this_class, super_class) = three(cursor)?;
    let interfaces = interfaces(alloc, &constant_pool, cursor)?;
    let fields = members(alloc, &constant_pool, Location::Field, cursor)?;
    let methods = members(alloc, &constant_pool, Location::Method, cursor)?;
    let location = Location::Class {
        major: major_version,
    };
    let attributes = class_attributes(alloc, &constant_pool, location, cursor)?;
    Ok(ClassFile {
        release,
        minor_version,
        major_version,
        constant_pool,
        access_flags,
        this_class,
        super_class,
        interfaces,
        fields,
        methods,
        attributes,
    })
}

fn put_marked(out: &mut Output, fine: bool, n: u16) -> Result<(), WriteFault>
    ensures { Goes (marked fine (field 2 n)) out.old out.new result }
{
    if !fine {
        out.put_nothing();
    }
    out.put_u2(n)
}

#[tactic(auto, using(layout::specs::PieceLaws::writes_append))]
fn put_version(
    out: &mut Output,
    versions: Versions,
    minor: u16,
    major: u16,
) -> Result<(), WriteFault>
    ensures { Goes (version_pieces versions (minor, major)) out.old out.new result }
{
    out.put_u4(0xCAFE_BABE)?;
    out.put_u2(minor)?;
    put_marked(out, versions.take(minor, major), major)
}

/// Nothing, where the class is read as these versions are; and otherwise that it has no spelling.
fn put_manner(out: &mut Output, versions: Versions, release: bool) -> Result<(), WriteFault>
    ensures { Goes (manner_pieces versions release) out.old out.new result }
{
    if versions.is_release() != release {
        out.put_nothing();
    }
    Ok(())
}

#[tactic(auto, using(layout::specs::PieceLaws::writes_append))]
fn put_tables(out: &mut Output, pool: &Pool<'_>, class: &ClassFile<'_>) -> Result<(), WriteFault>
    ensures { Goes (tables_pieces pool.now (class_view class.now)) out.old out.new result }
{
    put_table(out, pool, Location::Field, &class.fields)?;
    put_table(out, pool, Location::Method, &class.methods)?;
    let location = Location::Class {
        major: class.major_version,
    };
    put_table(out, pool, location, &class.attributes)
}

#[tactic(auto, using(layout::specs::PieceLaws::writes_append))]
fn put_behind_pool(
    out: &mut Output,
    pool: &Pool<'_>,
    class: &ClassFile<'_>,
) -> Result<(), WriteFault>
    ensures { Goes (behind_pool_pieces pool.now (class_view class.now)) out.old out.new result }
{
    put_three(out, class.access_flags, class.this_class, class.super_class)?;
    put_table(out, pool, Location::Code, &class.interfaces)?;
    put_tables(out, pool, class)
}

#[tactic(auto, using(layout::specs::PieceLaws::writes_append))]
fn put_all(
    out: &mut Output,
    versions: Versions,
    pool: &Pool<'_>,
    class: &ClassFile<'_>,
) -> Result<(), WriteFault>
    ensures { Goes (pieces_with versions pool.now (class_view class.now)) out.old out.new result }
{
    put_version(out, versions, class.minor_version, class.major_version)?;
    put_manner(out, versions, class.release)?;
    put_pool(out, pool)?;
    put_behind_pool(out, pool, class)
}

/// Writes a class file of one of these versions, from its magic number to its attributes.
#[tactic(auto, unfolding(crate::specs::private::Pieces::class_pieces))]
pub fn put_class(
    out: &mut Output,
    versions: Versions,
    class: &ClassFile<'_>,
) -> Result<(), WriteFault>
    ensures { Goes (class_pieces versions (class_view class.now)) out.old out.new result }
{
    put_all(out, versions, &class.constant_pool, class)
}
