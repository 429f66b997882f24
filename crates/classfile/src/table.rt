//! Tables: a count of two bytes, and so many items.
//!
//! The tables of a class file differ in their items alone, so they are read and written once for all.
ghost use Rattle.std.specs.Prelude.{◌≡◌, ℕ, List, map, ◌++◌, length};
ghost use Rattle.std.specs.List.{flat_map};
ghost use Rattle.layout.specs.Faults.{GoesOn};
ghost use Rattle.layout.specs.Format.{Format, times};
ghost use Rattle.layout.specs.Pieces.{Piece, Goes, field};
ghost use Rattle.layout.specs.PieceLaws.{counted};
ghost use Rattle.pool.specs.Entries.{Entry};
ghost use Rattle.classfile.specs.ClassFile.{table};
ghost use Rattle.classfile.specs.declared.location.Location.{Location};

use crate::location::Location;
use layout::{Cursor, Output, ReadFault, WriteFault};
use pool::Pool;
use std::alloc::Global;

/// An item of a table. What its bytes are may depend on the constant pool and on where the table stands.
pub trait Item<'a>: Sized {
    // A value without where its slices lie in memory.
    ghost View: { Type 0 };

    ghost view: { Self → View };

    // Which bytes spell which value.
    ghost format: { List Entry → Location → Format View };

    // The pieces that a value is written as.
    ghost pieces: { List Entry → Location → View → List Piece };

    fn take(
        alloc: Global,
        pool: &Pool<'a>,
        location: Location,
        cursor: &mut Cursor<'a>,
    ) -> Result<Self, ReadFault>
        ensures { GoesOn (format pool.now location) view cursor.old cursor.new result };

    fn put(&self, pool: &Pool<'_>, location: Location, out: &mut Output) -> Result<(), WriteFault>
        ensures { Goes (pieces pool.now location (view self.now)) out.old out.new result };
}

/// So many items. Room is asked for as many as the bytes that are left may hold, and no more.
fn items<'a, T: Item<'a> + Drop>(
    alloc: Global,
    pool: &Pool<'a>,
    location: Location,
    cursor: &mut Cursor<'a>,
    count: u16,
) -> Result<Vec<T>, ReadFault>
    ensures { GoesOn (times count (T.format pool.now location)) (λ v. map T.view v.items) cursor.old cursor.new result }
{
    // no item has less than two bytes
    let most = cursor.rest().len() / 2;
    let mut out = Vec::with_capacity(alloc, most.min(count as usize))?;
    for _ in 0..count {
        let one = T::take(alloc, pool, location, cursor)?;
        out.push(one)?;
    }
    Ok(out)
}

/// A count, and so many items.
pub fn take_table<'a, T: Item<'a> + Drop>(
    alloc: Global,
    pool: &Pool<'a>,
    location: Location,
    cursor: &mut Cursor<'a>,
) -> Result<Vec<T>, ReadFault>
    ensures { GoesOn (table (T.format pool.now location)) (λ v. map T.view v.items) cursor.old cursor.new result }
{
    let count = cursor.u2()?;
    items(alloc, pool, location, cursor, count)
}

fn put_items<'a, T: Item<'a>>(
    out: &mut Output,
    pool: &Pool<'_>,
    location: Location,
    all: &[T],
) -> Result<(), WriteFault>
    ensures { Goes (flat_map (T.pieces pool.now location) (map T.view all.now)) out.old out.new result }
{
    let mut rest = all;
    while let [item, others @ ..] = rest {
        item.put(pool, location, out)?;
        rest = others;
    }
    Ok(())
}

#[tactic(auto, using(layout::specs::PieceLaws::writes_append))]
fn put_count_and_items<'a, T: Item<'a>>(
    out: &mut Output,
    pool: &Pool<'_>,
    location: Location,
    all: &[T],
    count: usize,
) -> Result<(), WriteFault>
    requires { count ≡ length (map T.view all.now) }
    ensures { Goes (counted (T.pieces pool.now location) (map T.view all.now)) out.old out.new result }
{
    out.put_count(count)?;
    put_items(out, pool, location, all)
}

/// The count of the items, and the items.
pub fn put_table<'a, T: Item<'a>>(
    out: &mut Output,
    pool: &Pool<'_>,
    location: Location,
    all: &Vec<T>,
) -> Result<(), WriteFault>
    ensures { Goes (counted (T.pieces pool.now location) (map T.view all.now.items)) out.old out.new result }
{
    put_count_and_items(out, pool, location, all.as_slice(), all.len())
}
