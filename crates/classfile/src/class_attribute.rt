//! Attributes of classes (JVMS 4.7).
ghost use Rattle.std.specs.Prelude.{◌≡◌, ◌++◌, map};
ghost use Rattle.layout.specs.PieceLaws.{counted};
ghost use Rattle.layout.specs.Pieces.{Goes, field, lengthened, marked};
ghost use Rattle.classfile.specs.private.Pieces.{component_pieces};
ghost use Rattle.classfile.specs.Views.{component_view, class_attribute_view};

use crate::attribute_info::{AttributeInfo, take_info};
use crate::component::{Component, put_components, whole_components};
use crate::layouts::{has_layout, layout_at};
use crate::location::{Location, is_record};
use crate::nested::put_kept;
use crate::numbers::{Numbers, is_laid_out};
use crate::table::Item;
use layout::{Cursor, Output, ReadFault, WriteFault};
use pool::Pool;
use std::alloc::Global;

/// An attribute of a class. The name is the index of a Utf8 constant where the class is well formed.
#[derive(Drop)]
pub enum ClassAttribute<'a> {
    /// A Record attribute (4.7.30), of a class file of major version 60 or above.
    Record {
        name: u16,
        components: Vec<Component<'a>>,
    },
    /// An attribute whose body is numbers.
    Numbers {
        name: u16,
        numbers: Numbers<'a>,
    },
    /// An attribute of another name, whose body is kept as it is.
    Raw {
        name: u16,
        body: &'a [u8],
    },
}

fn put_marked_components(
    out: &mut Output,
    pool: &Pool<'_>,
    fine: bool,
    components: &Vec<Component<'_>>,
) -> Result<(), WriteFault>
    ensures { Goes (marked fine (counted (component_pieces pool.now)
        (map component_view components.now.items))) out.old out.new result }
{
    if !fine {
        out.put_nothing();
    }
    put_components(out, pool, components)
}

fn put_record(
    out: &mut Output,
    pool: &Pool<'_>,
    name: u16,
    fine: bool,
    components: &Vec<Component<'_>>,
) -> Result<(), WriteFault>
    ensures { Goes (field 2 name ++ lengthened
        (marked fine (counted (component_pieces pool.now)
        (map component_view components.now.items)))) out.old out.new result }
{
    out.put_u2(name)?;
    let mark = out.begin()?;
    put_marked_components(out, pool, fine, components)?;
    out.end(mark)
}

impl<'a> Item<'a> for ClassAttribute<'a> {
    ghost use Rattle.classfile.specs.Values as values;
    ghost use Rattle.classfile.specs.ClassFile.{class_attribute};
    ghost use Rattle.classfile.specs.private.Pieces.{class_attribute_pieces};
    ghost use Rattle.classfile.specs.Views.{class_attribute_view};

    ghost View = { values.ClassAttribute };

    ghost view = { class_attribute_view };

    ghost format = { class_attribute };

    ghost pieces = { class_attribute_pieces };

    #[tactic(auto, using(crate::proofs::Steps::steps), unfolding(crate::specs::ClassFile::class_attribute))]
    fn take(
        alloc: Global,
        pool: &Pool<'a>,
        location: Location,
        cursor: &mut Cursor<'a>,
    ) -> Result<Self, ReadFault> {
        let AttributeInfo {
            at,
            name,
            start,
            body,
            ..
        } = take_info(cursor)?;
        if is_record(pool, location, name) {
            let components = whole_components(alloc, pool, at, start, body)?;
            Ok(ClassAttribute::Record { name, components })
        } else {
            match layout_at(pool, location, name) {
                None => Ok(ClassAttribute::Raw { name, body }),
                Some(layout) if has_layout(layout, body) => Ok(ClassAttribute::Numbers {
                    name,
                    numbers: Numbers { layout, body },
                }),
                Some(_) => Err(ReadFault::AttributeLength { at }),
            }
        }
    }

    fn put(&self, pool: &Pool<'_>, location: Location, out: &mut Output) -> Result<(), WriteFault> {
        match self {
            ClassAttribute::Record { name, components } => {
                let fine = is_record(pool, location, *name);
                put_record(out, pool, *name, fine, components)
            }
            ClassAttribute::Numbers { name, numbers } => {
                let fine = !is_record(pool, location, *name)
                    && is_laid_out(pool, location, *name, numbers);
                put_kept(out, *name, fine, numbers.body)
            }
            ClassAttribute::Raw { name, body } => {
                let fine = !is_record(pool, location, *name)
                    && layout_at(pool, location, *name).is_none();
                put_kept(out, *name, fine, body)
            }
        }
    }
}

impl<'a> ClassAttribute<'a> {
    ghost use Rattle.std.specs.Prelude.{option_map};
    ghost use Rattle.classfile.specs.ClassAttributes.{components_of, permitted_in};
    ghost use Rattle.classfile.specs.LayoutViews.{numbers_view};

    /// The components of a Record attribute (JVMS 4.7.30); none of another.
    pub fn components(&self) -> &[Component<'a>]
        ensures { map component_view result.now ≡ components_of (class_attribute_view self.now) }
    {
        match self {
            ClassAttribute::Record { components, .. } => components,
            ClassAttribute::Numbers { .. } | ClassAttribute::Raw { .. } => &[],
        }
    }

    /// The numbers of a PermittedSubclasses attribute (JVMS 4.7.31): rows of one number, the index of a Class. Nothing
    /// of another attribute.
    pub fn permitted_subclasses(&self) -> Option<Numbers<'a>>
        ensures { option_map numbers_view result ≡ permitted_in (class_attribute_view self.now) }
    {
        match self {
            ClassAttribute::Numbers { numbers, .. }
                if numbers.layout.name == "PermittedSubclasses" => Some(*numbers),
            _ => None,
        }
    }
}
