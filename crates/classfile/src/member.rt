//! Fields and methods (JVMS 4.5, 4.6).
ghost use Rattle.std.specs.Prelude.{◌≡◌, ◌++◌, map};
ghost use Rattle.layout.specs.Faults.{GoesOn};
ghost use Rattle.layout.specs.Pieces.{Goes, field};
ghost use Rattle.classfile.specs.ClassFile.{three, attributes};
ghost use Rattle.classfile.specs.Views.{attribute_view};

use crate::attribute::Attribute;
use crate::location::Location;
use crate::table::{Item, put_table, take_table};
use layout::{Cursor, Output, ReadFault, WriteFault};
use pool::Pool;
use std::alloc::Global;

/// A field or a method.
#[derive(Drop)]
pub struct Member<'a> {
    /// The access_flags item.
    pub access_flags: u16,
    /// The name_index item.
    pub name: u16,
    /// The descriptor_index item.
    pub descriptor: u16,
    /// The attributes item.
    pub attributes: Vec<Attribute<'a>>,
}

/// Three numbers of two bytes.
#[tactic(auto, unfolding(crate::specs::ClassFile::three))]
pub fn three(cursor: &mut Cursor<'_>) -> Result<(u16, u16, u16), ReadFault>
    ensures { GoesOn three (λ x. x) cursor.old cursor.new result }
{
    let first = cursor.u2()?;
    let second = cursor.u2()?;
    let third = cursor.u2()?;
    Ok((first, second, third))
}

/// Writes three numbers of two bytes.
#[tactic(auto, using(layout::specs::PieceLaws::writes_append))]
pub fn put_three(out: &mut Output, first: u16, second: u16, third: u16) -> Result<(), WriteFault>
    ensures { Goes (field 2 first ++ (field 2 second ++ field 2 third)) out.old out.new result }
{
    out.put_u2(first)?;
    out.put_u2(second)?;
    out.put_u2(third)
}

/// The attributes of a table.
#[tactic(auto, unfolding(crate::specs::ClassFile::attributes))]
pub fn attributes<'a>(
    alloc: Global,
    pool: &Pool<'a>,
    location: Location,
    cursor: &mut Cursor<'a>,
) -> Result<Vec<Attribute<'a>>, ReadFault>
    ensures { GoesOn (attributes pool.now location) (λ v. map attribute_view v.items) cursor.old cursor.new result }
{
    take_table::<Attribute<'a>>(alloc, pool, location, cursor)
}

impl<'a> Item<'a> for Member<'a> {
    ghost use Rattle.classfile.specs.Values as values;
    ghost use Rattle.classfile.specs.ClassFile.{member};
    ghost use Rattle.classfile.specs.private.Pieces.{member_pieces};
    ghost use Rattle.classfile.specs.Views.{member_view};

    ghost View = { values.Member };

    ghost view = { member_view };

    ghost format = { member };

    ghost pieces = { member_pieces };

    #[tactic(auto, using(crate::proofs::Steps::steps), unfolding(crate::specs::ClassFile::member))]
    fn take(
        alloc: Global,
        pool: &Pool<'a>,
        location: Location,
        cursor: &mut Cursor<'a>,
    ) -> Result<Self, ReadFault> {
        let (access_flags, name, descriptor) = three(cursor)?;
        let attributes = attributes(alloc, pool, location, cursor)?;
        Ok(Member {
            access_flags,
            name,
            descriptor,
            attributes,
        })
    }

    #[tactic(auto, using(layout::specs::PieceLaws::writes_append))]
    fn put(&self, pool: &Pool<'_>, location: Location, out: &mut Output) -> Result<(), WriteFault> {
        put_three(out, self.access_flags, self.name, self.descriptor)?;
        put_table(out, pool, location, &self.attributes)
    }
}
