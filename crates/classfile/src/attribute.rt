//! Attributes of fields, methods and components of records (JVMS 4.7).
ghost use Rattle.std.specs.Prelude.{◌≡◌, ◌++◌};
ghost use Rattle.layout.specs.Pieces.{Goes, field, lengthened, marked};
ghost use Rattle.classfile.specs.private.Pieces.{code_pieces};
ghost use Rattle.classfile.specs.Views.{code_view};

use crate::attribute_info::{AttributeInfo, take_info};
use crate::code::{CodeAttr, put_code, whole_code};
use crate::layouts::{has_layout, layout_at};
use crate::location::{Location, is_code};
use crate::nested::put_kept;
use crate::numbers::{Numbers, is_laid_out};
use crate::table::Item;
use layout::{Cursor, Output, ReadFault, WriteFault};
use pool::Pool;
use std::alloc::Global;

/// An attribute of a field, a method or a component of a record. The name is the index of a Utf8 constant where the
/// class is well formed.
#[derive(Drop)]
pub enum Attribute<'a> {
    /// A Code attribute (4.7.3), which stands in a method alone.
    Code { name: u16, code: Box<CodeAttr<'a>> },
    /// An attribute whose body is numbers.
    Numbers { name: u16, numbers: Numbers<'a> },
    /// An attribute of another name or place, whose body is kept as it is.
    Raw { name: u16, body: &'a [u8] },
}

fn put_marked_code(
    out: &mut Output,
    pool: &Pool<'_>,
    fine: bool,
    code: &CodeAttr<'_>,
) -> Result<(), WriteFault>
    ensures { Goes (marked fine (code_pieces pool.now (code_view code.now))) out.old out.new result }
{
    if !fine {
        out.put_nothing();
    }
    put_code(out, pool, code)
}

fn put_code_attribute(
    out: &mut Output,
    pool: &Pool<'_>,
    name: u16,
    fine: bool,
    code: &CodeAttr<'_>,
) -> Result<(), WriteFault>
    ensures { Goes (field 2 name ++ lengthened
        (marked fine (code_pieces pool.now (code_view code.now)))) out.old out.new result }
{
    out.put_u2(name)?;
    let mark = out.begin()?;
    put_marked_code(out, pool, fine, code)?;
    out.end(mark)
}

impl<'a> Item<'a> for Attribute<'a> {
    ghost use Rattle.classfile.specs.Values as values;
    ghost use Rattle.classfile.specs.ClassFile.{attribute};
    ghost use Rattle.classfile.specs.private.Pieces.{attribute_pieces};
    ghost use Rattle.classfile.specs.Views.{attribute_view};

    ghost View = { values.Attribute };

    ghost view = { attribute_view };

    ghost format = { attribute };

    ghost pieces = { attribute_pieces };

    #[tactic(auto, using(crate::proofs::Steps::steps), unfolding(crate::specs::ClassFile::attribute))]
    fn take(
        alloc: Global,
        pool: &Pool<'a>,
        location: Location,
        cursor: &mut Cursor<'a>,
    ) -> Result<Self, ReadFault> {
        let AttributeInfo {
            at,
            name,
            start,
            body,
            ..
        } = take_info(cursor)?;
        if is_code(pool, location, name) {
            let code = whole_code(alloc, pool, at, start, body)?;
            Ok(Attribute::Code {
                name,
                code: Box::new(alloc, code)?,
            })
        } else {
            match layout_at(pool, location, name) {
                None => Ok(Attribute::Raw { name, body }),
                Some(layout) if has_layout(layout, body) => Ok(Attribute::Numbers {
                    name,
                    numbers: Numbers { layout, body },
                }),
                Some(_) => Err(ReadFault::AttributeLength { at }),
            }
        }
    }

    fn put(&self, pool: &Pool<'_>, location: Location, out: &mut Output) -> Result<(), WriteFault> {
        match self {
            Attribute::Code { name, code } => {
                put_code_attribute(out, pool, *name, is_code(pool, location, *name), code)
            }
            Attribute::Numbers { name, numbers } => {
                let fine = !is_code(pool, location, *name)
                    && is_laid_out(pool, location, *name, numbers);
                put_kept(out, *name, fine, numbers.body)
            }
            Attribute::Raw { name, body } => {
                let fine = !is_code(pool, location, *name)
                    && layout_at(pool, location, *name).is_none();
                put_kept(out, *name, fine, body)
            }
        }
    }
}
