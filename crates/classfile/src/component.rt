//! Components of records (JVMS 4.7.30).
ghost use Rattle.std.specs.Prelude.{◌≡◌, ◌+◌, ◌<◌, ◌^◌, length, map};
ghost use Rattle.layout.specs.Faults.{GoesOn, Settles};
ghost use Rattle.layout.specs.PieceLaws.{counted};
ghost use Rattle.layout.specs.Pieces.{Goes};
ghost use Rattle.classfile.specs.ClassFile.{two, components};
ghost use Rattle.classfile.specs.private.Pieces.{component_pieces};
ghost use Rattle.classfile.specs.Views.{component_view};

use crate::attribute::Attribute;
use crate::location::Location;
use crate::member::attributes;
use crate::table::{Item, put_table, take_table};
use layout::{Cursor, Output, ReadFault, WriteFault, whole};
use pool::Pool;
use std::alloc::Global;

/// A component of a record.
#[derive(Drop)]
pub struct Component<'a> {
    /// The name_index item.
    pub name: u16,
    /// The descriptor_index item.
    pub descriptor: u16,
    /// The attributes item.
    pub attributes: Vec<Attribute<'a>>,
}

/// Two numbers of two bytes.
#[tactic(auto, unfolding(crate::specs::ClassFile::two))]
fn two(cursor: &mut Cursor<'_>) -> Result<(u16, u16), ReadFault>
    ensures { GoesOn two (λ x. x) cursor.old cursor.new result }
{
    let first = cursor.u2()?;
    let second = cursor.u2()?;
    Ok((first, second))
}

impl<'a> Item<'a> for Component<'a> {
    ghost use Rattle.classfile.specs.Values as values;
    ghost use Rattle.classfile.specs.ClassFile.{component};
    ghost use Rattle.classfile.specs.private.Pieces.{component_pieces};
    ghost use Rattle.classfile.specs.Views.{component_view};

    ghost View = { values.Component };

    ghost view = { component_view };

    ghost format = { λ pool _. component pool };

    ghost pieces = { λ pool _. component_pieces pool };

    #[tactic(auto, using(crate::proofs::Steps::steps), unfolding(crate::specs::ClassFile::component))]
    fn take(
        alloc: Global,
        pool: &Pool<'a>,
        _location: Location,
        cursor: &mut Cursor<'a>,
    ) -> Result<Self, ReadFault> {
        let (name, descriptor) = two(cursor)?;
        let attributes = attributes(alloc, pool, Location::RecordComponent, cursor)?;
        Ok(Component {
            name,
            descriptor,
            attributes,
        })
    }

    #[tactic(auto, using(layout::specs::PieceLaws::writes_append))]
    fn put(
        &self,
        pool: &Pool<'_>,
        _location: Location,
        out: &mut Output,
    ) -> Result<(), WriteFault> {
        out.put_u2(self.name)?;
        out.put_u2(self.descriptor)?;
        put_table(out, pool, Location::RecordComponent, &self.attributes)
    }
}

#[tactic(auto, unfolding(crate::specs::ClassFile::components))]
fn components<'a>(
    alloc: Global,
    pool: &Pool<'a>,
    cursor: &mut Cursor<'a>,
) -> Result<Vec<Component<'a>>, ReadFault>
    ensures { GoesOn (components pool.now) (λ v. map component_view v.items) cursor.old cursor.new result }
{
    take_table::<Component<'a>>(alloc, pool, Location::RecordComponent, cursor)
}

/// The components of a body, which are to be all of it. The attribute's name index stands at `name_at`, its body at
/// `start`.
pub fn whole_components<'a>(
    alloc: Global,
    pool: &Pool<'a>,
    name_at: usize,
    start: usize,
    body: &'a [u8],
) -> Result<Vec<Component<'a>>, ReadFault>
    requires { start + length body.now < 2 ^ 64 }
    ensures { Settles (components pool.now) (λ v. map component_view v.items) name_at start body.now result }
{
    let mut cursor = Cursor::starting(start, body);
    let answer = components(alloc, pool, &mut cursor);
    whole(name_at, &cursor, answer)
}

/// Writes the body of a Record attribute.
pub fn put_components(
    out: &mut Output,
    pool: &Pool<'_>,
    components: &Vec<Component<'_>>,
) -> Result<(), WriteFault>
    ensures { Goes (counted (component_pieces pool.now)
        (map component_view components.now.items)) out.old out.new result }
{
    put_table(out, pool, Location::RecordComponent, components)
}
