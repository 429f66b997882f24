//! The lines of a class's attributes: the components of a record (JVMS 4.7.30) and what a sealed class permits
//! (4.7.31).
ghost use Rattle.std.specs.Prelude.{[], map};
ghost use Rattle.std.specs.List.{flat_map};
ghost use Rattle.std.specs.Option.{option_map_or};
ghost use Rattle.classfile.specs.LayoutViews.{numbers_view};
ghost use Rattle.classfile.specs.Numbers.{first_column};
ghost use Rattle.classfile.specs.Views.{component_view, class_attribute_view};
ghost use Rattle.printing.specs.Writing.{Writes};
ghost use Rattle.printing.specs.Classes.{component_line, component_lines, permits_line, permits_lines, attribute_lines};

use crate::name::{ClassName, ConstantText};
use crate::print::{Lines, Print, Then, Word, WriteFailed, put_lines};
use classfile::{ClassAttribute, Component, Numbers};
use pool::Pool;
use std::io::Write;

/// Components of a record, whose names are in this pool.
#[derive(Clone, Copy)]
struct Components<'p, 'a> {
    pool: &'p Pool<'a>,
}

impl<'p, 'a> Lines<Component<'a>> for Components<'p, 'a> {
    ghost line = { λ t c. component_line t.pool.now (component_view c) };

    fn put_line<W: Write>(&self, item: &Component<'a>, out: &mut W) -> Result<(), WriteFailed> {
        let name = ConstantText {
            pool: self.pool,
            index: item.name,
        };
        let descriptor = ConstantText {
            pool: self.pool,
            index: item.descriptor,
        };
        Then(
            Word("component "),
            Then(name, Then(Word(" "), Then(descriptor, Word("\n")))),
        )
        .put(out)
    }
}

/// The components of the records among attributes.
#[derive(Clone, Copy)]
struct Records<'p, 'a> {
    pool: &'p Pool<'a>,
    attributes: &'p [ClassAttribute<'a>],
}

impl<'p, 'a> Lines<ClassAttribute<'a>> for Records<'p, 'a> {
    ghost line = { λ t a. component_lines t.pool.now (class_attribute_view a) };

    fn put_line<W: Write>(
        &self,
        item: &ClassAttribute<'a>,
        out: &mut W,
    ) -> Result<(), WriteFailed> {
        put_lines(&Components { pool: self.pool }, item.components(), out)
    }
}

impl<'p, 'a> Print for Records<'p, 'a> {
    ghost text = { λ t. flat_map (component_lines t.pool.now) (map class_attribute_view t.attributes.now) };

    fn put<W: Write>(&self, out: &mut W) -> Result<(), WriteFailed> {
        put_lines(self, self.attributes, out)
    }
}

/// The line of a class that is permitted.
#[derive(Clone, Copy)]
struct Permits<'p, 'a>(ClassName<'p, 'a>);

impl<'p, 'a> Print for Permits<'p, 'a> {
    ghost text = { λ t. permits_line t.0.pool.now t.0.index };

    fn put<W: Write>(&self, out: &mut W) -> Result<(), WriteFailed> {
        Then(Word("permits "), Then(self.0, Word("\n"))).put(out)
    }
}

/// The line of the class at an index, if there is one.
fn put_index<W: Write>(pool: &Pool<'_>, index: Option<u16>, out: &mut W) -> Result<(), WriteFailed>
    ensures { Writes (W.contents out.old) (W.contents out.new) (option_map_or (permits_line pool.now) index []) result }
{
    match index {
        Some(index) => Permits(ClassName { pool, index }).put(out),
        None => Ok(()),
    }
}

/// The lines of the classes that are permitted, of each row the index in its first column.
fn put_permitted<W: Write>(
    pool: &Pool<'_>,
    permitted: &Numbers<'_>,
    out: &mut W,
) -> Result<(), WriteFailed>
    ensures { Writes (W.contents out.old) (W.contents out.new)
        (flat_map (permits_line pool.now) (first_column (numbers_view permitted.now))) result }
{
    for row in 0..permitted.rows() {
        match put_index(pool, permitted.get(row, 0), out) {
            Ok(()) => {}
            Err(failed) => return Err(failed),
        }
    }
    Ok(())
}

/// The classes that are permitted by the attributes of a class file.
#[derive(Clone, Copy)]
struct Sealed<'p, 'a> {
    pool: &'p Pool<'a>,
    attributes: &'p [ClassAttribute<'a>],
}

impl<'p, 'a> Lines<ClassAttribute<'a>> for Sealed<'p, 'a> {
    ghost line = { λ t a. permits_lines t.pool.now (class_attribute_view a) };

    fn put_line<W: Write>(
        &self,
        item: &ClassAttribute<'a>,
        out: &mut W,
    ) -> Result<(), WriteFailed> {
        match item.permitted_subclasses() {
            Some(permitted) => put_permitted(self.pool, &permitted, out),
            None => Ok(()),
        }
    }
}

impl<'p, 'a> Print for Sealed<'p, 'a> {
    ghost text = { λ t. flat_map (permits_lines t.pool.now) (map class_attribute_view t.attributes.now) };

    fn put<W: Write>(&self, out: &mut W) -> Result<(), WriteFailed> {
        put_lines(self, self.attributes, out)
    }
}

/// The attributes of a class file, whose names are in this pool.
#[derive(Clone, Copy)]
pub struct ClassAttributes<'p, 'a> {
    pub pool: &'p Pool<'a>,
    pub attributes: &'p [ClassAttribute<'a>],
}

impl<'p, 'a> Print for ClassAttributes<'p, 'a> {
    ghost text = { λ t. attribute_lines t.pool.now (map class_attribute_view t.attributes.now) };

    fn put<W: Write>(&self, out: &mut W) -> Result<(), WriteFailed> {
        let records = Records {
            pool: self.pool,
            attributes: self.attributes,
        };
        let sealed = Sealed {
            pool: self.pool,
            attributes: self.attributes,
        };
        Then(records, sealed).put(out)
    }
}
