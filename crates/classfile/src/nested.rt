//! Attributes of a Code attribute (JVMS 4.7.3).
ghost use Rattle.std.specs.Prelude.{◌≡◌, ◌++◌, [], ◌∷◌};
ghost use Rattle.layout.specs.Pieces.{Goes, field, plain, marked, lengthened};

use crate::attribute_info::{AttributeInfo, take_info};
use crate::layouts::{has_layout, layout_at};
use crate::location::{Location, is_stack_map};
use crate::numbers::{Numbers, is_laid_out};
use crate::table::Item;
use layout::{Cursor, Output, ReadFault, WriteFault};
use pool::Pool;
use std::alloc::Global;

/// An attribute of a Code attribute. The name is the index of a Utf8 constant where the class is well formed.
#[derive(Clone, Copy)]
pub enum NestedAttribute<'a> {
    /// A StackMapTable (4.7.4), whose body is kept as it is.
    StackMapTable { name: u16, body: &'a [u8] },
    /// An attribute whose body is numbers.
    Numbers { name: u16, numbers: Numbers<'a> },
    /// An attribute of another name, whose body is kept as it is.
    Raw { name: u16, body: &'a [u8] },
}

/// A name index and a body after its length. Where the body may not be written so, no bytes spell the value.
pub fn put_kept(out: &mut Output, name: u16, fine: bool, body: &[u8]) -> Result<(), WriteFault>
    ensures { Goes (field 2 name ++ lengthened (marked fine (plain body.now ∷ []))) out.old out.new result }
{
    out.put_u2(name)?;
    let mark = out.begin()?;
    put_marked(out, fine, body)?;
    out.end(mark)
}

fn put_marked(out: &mut Output, fine: bool, bytes: &[u8]) -> Result<(), WriteFault>
    ensures { Goes (marked fine (plain bytes.now ∷ [])) out.old out.new result }
{
    if !fine {
        out.put_nothing();
    }
    out.put_bytes(bytes)
}

impl<'a> Item<'a> for NestedAttribute<'a> {
    ghost use Rattle.classfile.specs.Values.{Nested};
    ghost use Rattle.classfile.specs.ClassFile.{nested};
    ghost use Rattle.classfile.specs.private.Pieces.{nested_pieces};
    ghost use Rattle.classfile.specs.Views.{nested_view};

    ghost View = { Nested };

    ghost view = { nested_view };

    ghost format = { λ pool _. nested pool };

    ghost pieces = { λ pool _. nested_pieces pool };

    #[tactic(auto, using(crate::proofs::Steps::steps), unfolding(crate::specs::ClassFile::nested))]
    fn take(
        _alloc: Global,
        pool: &Pool<'a>,
        _location: Location,
        cursor: &mut Cursor<'a>,
    ) -> Result<Self, ReadFault> {
        let AttributeInfo { at, name, body, .. } = take_info(cursor)?;
        if is_stack_map(pool, Location::Code, name) {
            Ok(NestedAttribute::StackMapTable { name, body })
        } else {
            match layout_at(pool, Location::Code, name) {
                None => Ok(NestedAttribute::Raw { name, body }),
                Some(layout) if has_layout(layout, body) => Ok(NestedAttribute::Numbers {
                    name,
                    numbers: Numbers { layout, body },
                }),
                Some(_) => Err(ReadFault::AttributeLength { at }),
            }
        }
    }

    fn put(
        &self,
        pool: &Pool<'_>,
        _location: Location,
        out: &mut Output,
    ) -> Result<(), WriteFault> {
        match self {
            NestedAttribute::StackMapTable { name, body } => {
                put_kept(out, *name, is_stack_map(pool, Location::Code, *name), body)
            }
            NestedAttribute::Numbers { name, numbers } => {
                let fine = !is_stack_map(pool, Location::Code, *name)
                    && is_laid_out(pool, Location::Code, *name, numbers);
                put_kept(out, *name, fine, numbers.body)
            }
            NestedAttribute::Raw { name, body } => {
                let fine = !is_stack_map(pool, Location::Code, *name)
                    && layout_at(pool, Location::Code, *name).is_none();
                put_kept(out, *name, fine, body)
            }
        }
    }
}
