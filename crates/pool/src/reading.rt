//! Reading the constant pool.
ghost use Rattle.std.specs.Prelude.{◌≡◌, false};
ghost use Rattle.layout.specs.Faults.{GoesOn};
ghost use Rattle.pool.specs.Entries as entries_of;
ghost use Rattle.pool.specs.Entries.{entry, indexed, entries, pool, utf8, method_handle, one, two};
ghost use Rattle.pool.specs.Views.{view, views};

use crate::constant::Constant;
use crate::constant_pool::Pool;
use crate::kind::ReferenceKind;
use layout::{Cursor, ReadFault};
use names::{NameFault, check_text};
use std::alloc::Global;

/// Takes a pool: its count and its entries, or returns the first fault as `Pool` does, or 1. After
/// an error the cursor stands somewhere in between; [`Part::take`](layout::Part::take) leaves it as
/// it was.
#[tactic(auto, unfolding(crate::specs::Entries::pool))]
pub fn read_pool<'a>(alloc: Global, cursor: &mut Cursor<'a>) -> Result<Pool<'a>, ReadFault>
    ensures { GoesOn pool (λ p. p) cursor.old cursor.new result }
{
    let at = cursor.at();
    let count = cursor.u2()?;
    if count == 0 {
        return Err(ReadFault::BadPoolCount { at });
    }
    let constants = entries(alloc, cursor, count - 1)?;
    Ok(Pool::new(constants))
}

/// The fewest bytes that an entry has at one index on average: a Long or Double has nine at two.
const ENTRY_BYTES: usize = 3;

/// The entries of so many indices. Room is taken for no more entries than the bytes that are left
/// can hold.
fn entries<'a>(
    alloc: Global,
    cursor: &mut Cursor<'a>,
    count: u16,
) -> Result<Vec<Constant<'a>>, ReadFault>
    ensures { GoesOn (entries count false) (λ v. views v.items) cursor.old cursor.new result }
{
    let held = cursor.rest().len() / ENTRY_BYTES;
    let mut out = Vec::with_capacity(alloc, held.min(count as usize))?;
    let mut second = false;
    let mut left = count;
    while left > 0 {
        left -= 1;
        let constant = indexed(cursor, second, left == 0)?;
        second = constant.is_wide();
        out.push(constant)?;
    }
    Ok(out)
}

/// Reads the constant at an index; `second` says that it is the second index of a Long or Double.
fn indexed<'a>(cursor: &mut Cursor<'a>, second: bool, last: bool) -> Result<Constant<'a>, ReadFault>
    ensures { GoesOn (indexed second last) view cursor.old cursor.new result }
{
    if second {
        Ok(Constant::Unusable)
    } else {
        entry(cursor, last)
    }
}

/// One entry; `last` says that no second index is left.
#[tactic(auto, unfolding(crate::specs::Entries::entry))]
fn entry<'a>(cursor: &mut Cursor<'a>, last: bool) -> Result<Constant<'a>, ReadFault>
    ensures { GoesOn (entry last) view cursor.old cursor.new result }
{
    let at = cursor.at();
    match cursor.u1()? {
        1 => utf8(cursor),
        3 => integer(cursor),
        4 => float(cursor),
        5 if last => Err(ReadFault::BadTag { at, tag: 5 }),
        5 => long(cursor),
        6 if last => Err(ReadFault::BadTag { at, tag: 6 }),
        6 => double(cursor),
        7 => class(cursor),
        8 => string(cursor),
        9 => fieldref(cursor),
        10 => methodref(cursor),
        11 => interface_methodref(cursor),
        12 => name_and_type(cursor),
        15 => method_handle(cursor),
        16 => method_type(cursor),
        17 => dynamic(cursor),
        18 => invoke_dynamic(cursor),
        tag => Err(ReadFault::BadTag { at, tag }),
    }
}

/// The body of a Utf8 (JVMS 4.4.7).
#[tactic(auto, unfolding(crate::specs::Entries::utf8))]
fn utf8<'a>(cursor: &mut Cursor<'a>) -> Result<Constant<'a>, ReadFault>
    ensures { GoesOn utf8 view cursor.old cursor.new result }
{
    let length = cursor.u2()?;
    let start = cursor.at();
    let bytes = cursor.part(length as usize)?;
    match check_text(bytes) {
        Ok(text) => Ok(Constant::Utf8(text)),
        Err(NameFault::BadText { at }) => Err(ReadFault::BadText { at: start + at }),
        Err(_) => unreachable!(),
    }
}

/// The body of an Integer (JVMS 4.4.4).
#[tactic(auto, unfolding(crate::specs::Entries::one))]
fn integer<'a>(cursor: &mut Cursor<'a>) -> Result<Constant<'a>, ReadFault>
    ensures { GoesOn (one 4 entries_of.Integer) view cursor.old cursor.new result }
{
    let bits = cursor.u4()?;
    Ok(Constant::Integer { bits })
}

/// The body of a Float (JVMS 4.4.4).
#[tactic(auto, unfolding(crate::specs::Entries::one))]
fn float<'a>(cursor: &mut Cursor<'a>) -> Result<Constant<'a>, ReadFault>
    ensures { GoesOn (one 4 entries_of.Float) view cursor.old cursor.new result }
{
    let bits = cursor.u4()?;
    Ok(Constant::Float { bits })
}

/// The body of a Long (JVMS 4.4.5).
#[tactic(auto, unfolding(crate::specs::Entries::two))]
fn long<'a>(cursor: &mut Cursor<'a>) -> Result<Constant<'a>, ReadFault>
    ensures { GoesOn (two 4 entries_of.Long) view cursor.old cursor.new result }
{
    let high = cursor.u4()?;
    let low = cursor.u4()?;
    Ok(Constant::Long { high, low })
}

/// The body of a Double (JVMS 4.4.5).
#[tactic(auto, unfolding(crate::specs::Entries::two))]
fn double<'a>(cursor: &mut Cursor<'a>) -> Result<Constant<'a>, ReadFault>
    ensures { GoesOn (two 4 entries_of.Double) view cursor.old cursor.new result }
{
    let high = cursor.u4()?;
    let low = cursor.u4()?;
    Ok(Constant::Double { high, low })
}

/// The body of a Class (JVMS 4.4.1).
#[tactic(auto, unfolding(crate::specs::Entries::one))]
fn class<'a>(cursor: &mut Cursor<'a>) -> Result<Constant<'a>, ReadFault>
    ensures { GoesOn (one 2 entries_of.Class) view cursor.old cursor.new result }
{
    let name = cursor.u2()?;
    Ok(Constant::Class { name })
}

/// The body of a String (JVMS 4.4.3).
#[tactic(auto, unfolding(crate::specs::Entries::one))]
fn string<'a>(cursor: &mut Cursor<'a>) -> Result<Constant<'a>, ReadFault>
    ensures { GoesOn (one 2 entries_of.String) view cursor.old cursor.new result }
{
    let text = cursor.u2()?;
    Ok(Constant::String { text })
}

/// The body of a Fieldref (JVMS 4.4.2).
#[tactic(auto, unfolding(crate::specs::Entries::two))]
fn fieldref<'a>(cursor: &mut Cursor<'a>) -> Result<Constant<'a>, ReadFault>
    ensures { GoesOn (two 2 entries_of.Fieldref) view cursor.old cursor.new result }
{
    let class = cursor.u2()?;
    let name_and_type = cursor.u2()?;
    Ok(Constant::Fieldref {
        class,
        name_and_type,
    })
}

/// The body of a Methodref (JVMS 4.4.2).
#[tactic(auto, unfolding(crate::specs::Entries::two))]
fn methodref<'a>(cursor: &mut Cursor<'a>) -> Result<Constant<'a>, ReadFault>
    ensures { GoesOn (two 2 entries_of.Methodref) view cursor.old cursor.new result }
{
    let class = cursor.u2()?;
    let name_and_type = cursor.u2()?;
    Ok(Constant::Methodref {
        class,
        name_and_type,
    })
}

/// The body of an InterfaceMethodref (JVMS 4.4.2).
#[tactic(auto, unfolding(crate::specs::Entries::two))]
fn interface_methodref<'a>(cursor: &mut Cursor<'a>) -> Result<Constant<'a>, ReadFault>
    ensures { GoesOn (two 2 entries_of.InterfaceMethodref) view cursor.old cursor.new result }
{
    let class = cursor.u2()?;
    let name_and_type = cursor.u2()?;
    Ok(Constant::InterfaceMethodref {
        class,
        name_and_type,
    })
}

/// The body of a NameAndType (JVMS 4.4.6).
#[tactic(auto, unfolding(crate::specs::Entries::two))]
fn name_and_type<'a>(cursor: &mut Cursor<'a>) -> Result<Constant<'a>, ReadFault>
    ensures { GoesOn (two 2 entries_of.NameAndType) view cursor.old cursor.new result }
{
    let name = cursor.u2()?;
    let descriptor = cursor.u2()?;
    Ok(Constant::NameAndType { name, descriptor })
}

/// The body of a MethodHandle (JVMS 4.4.8): its kind is judged before its index is read.
#[tactic(auto, unfolding(crate::specs::Entries::method_handle))]
fn method_handle<'a>(cursor: &mut Cursor<'a>) -> Result<Constant<'a>, ReadFault>
    ensures { GoesOn method_handle view cursor.old cursor.new result }
{
    let at = cursor.at();
    let number = cursor.u1()?;
    let Some(kind) = ReferenceKind::from_number(number) else {
        return Err(ReadFault::BadTag { at, tag: number });
    };
    let reference = cursor.u2()?;
    Ok(Constant::MethodHandle { kind, reference })
}

/// The body of a MethodType (JVMS 4.4.9).
#[tactic(auto, unfolding(crate::specs::Entries::one))]
fn method_type<'a>(cursor: &mut Cursor<'a>) -> Result<Constant<'a>, ReadFault>
    ensures { GoesOn (one 2 entries_of.MethodType) view cursor.old cursor.new result }
{
    let descriptor = cursor.u2()?;
    Ok(Constant::MethodType { descriptor })
}

/// The body of a Dynamic (JVMS 4.4.10).
#[tactic(auto, unfolding(crate::specs::Entries::two))]
fn dynamic<'a>(cursor: &mut Cursor<'a>) -> Result<Constant<'a>, ReadFault>
    ensures { GoesOn (two 2 entries_of.Dynamic) view cursor.old cursor.new result }
{
    let bootstrap = cursor.u2()?;
    let name_and_type = cursor.u2()?;
    Ok(Constant::Dynamic {
        bootstrap,
        name_and_type,
    })
}

/// The body of an InvokeDynamic (JVMS 4.4.10).
#[tactic(auto, unfolding(crate::specs::Entries::two))]
fn invoke_dynamic<'a>(cursor: &mut Cursor<'a>) -> Result<Constant<'a>, ReadFault>
    ensures { GoesOn (two 2 entries_of.InvokeDynamic) view cursor.old cursor.new result }
{
    let bootstrap = cursor.u2()?;
    let name_and_type = cursor.u2()?;
    Ok(Constant::InvokeDynamic {
        bootstrap,
        name_and_type,
    })
}
