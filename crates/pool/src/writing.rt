//! Writing the constant pool.
ghost use Rattle.std.specs.Prelude.{◌≡◌, ◌++◌, length, false, not, ◌+◌};
ghost use Rattle.layout.specs.Pieces.{Goes, Delivers, field, marked};
ghost use Rattle.names.specs.Units.{bad_text};
ghost use Rattle.pool.specs.Entries.{entry_pieces, text_pieces, indexed_pieces, entries_pieces, pool_pieces};
ghost use Rattle.pool.specs.Kinds.{kind_number};
ghost use Rattle.pool.specs.Views.{view, views};

use crate::constant::Constant;
use crate::constant_pool::Pool;
use crate::kind::ReferenceKind;
use layout::{Output, WriteFault};
use names::Text;
use std::alloc::Global;

/// Writes the pool: its count and its entries. 17 `DoesNotFit` where it has over 65,534 indices, a
/// text over 65,535 bytes, or there is no room; 18 `HasNoSpelling` is noted where an `Unusable`
/// stands elsewhere than after a Long or Double, something else stands there, or a Long or Double
/// stands at the last index.
pub fn put_pool(out: &mut Output, pool: &Pool<'_>) -> Result<(), WriteFault>
    ensures { Goes (pool_pieces pool.now) out.old out.new result }
{
    put_constants(out, pool.constants())
}

/// The bytes of the pool alone.
pub fn written(alloc: Global, pool: &Pool<'_>) -> Result<Vec<u8>, WriteFault>
    ensures { Delivers (pool_pieces pool.now) (λ v. v.items) result }
{
    let mut out = Output::new(alloc);
    let answer = put_pool(&mut out, pool);
    out.delivered(answer)
}

fn put_constants(out: &mut Output, constants: &[Constant<'_>]) -> Result<(), WriteFault>
    ensures { Goes (pool_pieces (views constants.now)) out.old out.new result }
{
    put_counted(out, constants)
}

#[tactic(auto, using(layout::specs::PieceLaws::writes_append))]
fn put_counted(out: &mut Output, constants: &[Constant<'_>]) -> Result<(), WriteFault>
    ensures { Goes (field 2 (length constants.now + 1) ++ entries_pieces false (views constants.now))
        out.old out.new result }
{
    out.put_count(constants.len() + 1)?;
    put_entries(out, constants)
}

/// Writes the constants at all indices, one after the other.
fn put_entries(out: &mut Output, constants: &[Constant<'_>]) -> Result<(), WriteFault>
    ensures { Goes (entries_pieces false (views constants.now)) out.old out.new result }
{
    let mut second = false;
    let mut rest = constants;
    while let [constant, others @ ..] = rest {
        put_indexed(out, constant, second, others.is_empty())?;
        second = constant.is_wide();
        rest = others;
    }
    Ok(())
}

/// Writes the constant at an index; `second` says that it is the second index of a Long or Double.
fn put_indexed(
    out: &mut Output,
    constant: &Constant<'_>,
    second: bool,
    last: bool,
) -> Result<(), WriteFault>
    ensures { Goes (indexed_pieces second last (view constant.now)) out.old out.new result }
{
    if !second {
        return put_constant(out, constant, last);
    }
    match constant {
        Constant::Unusable => Ok(()),
        _ => {
            out.put_nothing();
            put_constant(out, constant, last)
        }
    }
}

/// One entry; `last` says that no second index is left.
fn put_constant(out: &mut Output, constant: &Constant<'_>, last: bool) -> Result<(), WriteFault>
    ensures { Goes (entry_pieces last (view constant.now)) out.old out.new result }
{
    match *constant {
        Constant::Utf8(text) => put_text(out, text),
        Constant::Integer { bits } => put_number(out, 3, bits),
        Constant::Float { bits } => put_number(out, 4, bits),
        Constant::Long { high, low } => put_wide(out, 5, high, low, last),
        Constant::Double { high, low } => put_wide(out, 6, high, low, last),
        Constant::Class { name } => put_index(out, 7, name),
        Constant::String { text } => put_index(out, 8, text),
        Constant::Fieldref {
            class,
            name_and_type,
        } => put_indices(out, 9, class, name_and_type),
        Constant::Methodref {
            class,
            name_and_type,
        } => put_indices(out, 10, class, name_and_type),
        Constant::InterfaceMethodref {
            class,
            name_and_type,
        } => put_indices(out, 11, class, name_and_type),
        Constant::NameAndType { name, descriptor } => put_indices(out, 12, name, descriptor),
        Constant::MethodHandle { kind, reference } => put_method_handle(out, kind, reference),
        Constant::MethodType { descriptor } => put_index(out, 16, descriptor),
        Constant::Dynamic {
            bootstrap,
            name_and_type,
        } => put_indices(out, 17, bootstrap, name_and_type),
        Constant::InvokeDynamic {
            bootstrap,
            name_and_type,
        } => put_indices(out, 18, bootstrap, name_and_type),
        Constant::Unusable => {
            out.put_nothing();
            Ok(())
        }
    }
}

/// A tag and a text after its length.
#[tactic(auto, using(layout::specs::PieceLaws::writes_append))]
fn put_text(out: &mut Output, text: Text<'_>) -> Result<(), WriteFault>
    ensures { let bytes = text.entry.bytes.now in
        Goes (field 1 1 ++ (field 2 (length bytes) ++ text_pieces bytes (bad_text bytes)))
        out.old out.new result }
{
    let bytes = text.spelling();
    out.put_u1(1)?;
    out.put_count(bytes.len())?;
    out.put_bytes(bytes)
}

/// A tag and a number of four bytes.
#[tactic(auto, using(layout::specs::PieceLaws::writes_append))]
fn put_number(out: &mut Output, tag: u8, number: u32) -> Result<(), WriteFault>
    ensures { Goes (field 1 tag ++ field 4 number) out.old out.new result }
{
    out.put_u1(tag)?;
    out.put_u4(number)
}

/// A constant that takes two indices, so that it may not stand at the last.
fn put_wide(out: &mut Output, tag: u8, high: u32, low: u32, last: bool) -> Result<(), WriteFault>
    ensures { Goes (marked (not last) (field 1 tag ++ (field 4 high ++ field 4 low)))
        out.old out.new result }
{
    if last {
        out.put_nothing();
    }
    put_numbers(out, tag, high, low)
}

/// A tag and two numbers of four bytes.
#[tactic(auto, using(layout::specs::PieceLaws::writes_append))]
fn put_numbers(out: &mut Output, tag: u8, high: u32, low: u32) -> Result<(), WriteFault>
    ensures { Goes (field 1 tag ++ (field 4 high ++ field 4 low)) out.old out.new result }
{
    out.put_u1(tag)?;
    out.put_u4(high)?;
    out.put_u4(low)
}

/// A tag and an index.
#[tactic(auto, using(layout::specs::PieceLaws::writes_append))]
fn put_index(out: &mut Output, tag: u8, index: u16) -> Result<(), WriteFault>
    ensures { Goes (field 1 tag ++ field 2 index) out.old out.new result }
{
    out.put_u1(tag)?;
    out.put_u2(index)
}

/// A tag and two indices.
#[tactic(auto, using(layout::specs::PieceLaws::writes_append))]
fn put_indices(out: &mut Output, tag: u8, first: u16, second: u16) -> Result<(), WriteFault>
    ensures { Goes (field 1 tag ++ (field 2 first ++ field 2 second)) out.old out.new result }
{
    out.put_u1(tag)?;
    out.put_u2(first)?;
    out.put_u2(second)
}

/// A tag, the number of a kind and an index.
#[tactic(auto, using(layout::specs::PieceLaws::writes_append))]
fn put_method_handle(
    out: &mut Output,
    kind: ReferenceKind,
    reference: u16,
) -> Result<(), WriteFault>
    ensures { Goes (field 1 15 ++ (field 1 (kind_number kind) ++ field 2 reference))
        out.old out.new result }
{
    out.put_u1(15)?;
    out.put_u1(kind.number())?;
    out.put_u2(reference)
}
