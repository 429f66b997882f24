//! One instruction, read from the bytes in front. No call takes memory.
ghost use Rattle.std.specs.Prelude.{◌≡◌, ◌≤◌, ◌-◌, ◌↔◌, Some, IfSome, IsTrue, length, take};
ghost use Rattle.insn.specs.Code.{ReadsInstruction};
ghost use Rattle.insn.specs.Instructions.{operands_at, behind_opcode, instruction_at, wide_at, widened, widened_opcode, invoke_interface_at, invoke_dynamic_at, table_switch_at, table_behind, lookup_switch_at, pairs_behind, keys, rising, follows};
ghost use Rattle.insn.specs.private.PartReading.{Decodes, or_cut};
ghost use Rattle.insn.specs.private.Taken.{SkipsUnconstrained, TakesAlone, TakesNew, TakesAct, HasAct};
ghost use Rattle.insn.specs.Unconstrained.{HasUnconstrained};
ghost use Rattle.insn.specs.Views.{operands_view, table_switch_view, lookup_switch_view, view};

use crate::acts::{Act, Meaning};
use crate::fault::CodeFault;
use crate::instruction::{Insn, Operands};
use crate::instruction_acts::{
    act_of_count, act_of_index, act_of_local, act_of_number, act_of_offset,
};
use crate::opcode::Opcode;
use crate::switch::{LookupSwitch, Pairs, TableSwitch};
use crate::table::{Form, row_at, unconstrained_length};
use byteorder::{BigEndian, ByteOrder};
use layout::{Cursor, ReadFault};

/// A part of the instruction at `at`, which is cut where the part is not whole.
fn or_cut<T: Drop>(at: usize, answer: Result<T, ReadFault>) -> Result<T, CodeFault>
    ensures { result ≡ or_cut at answer }
{
    match answer {
        Ok(part) => Ok(part),
        Err(_) => Err(CodeFault::CutInstruction { at }),
    }
}

/// Reads the operands after an opcode of this form.
#[inline(never)]
#[tactic(auto, unfolding(crate::specs::Instructions::operands_at))]
fn operands<'a>(cursor: &mut Cursor<'a>, at: usize, form: Form) -> Result<Operands<'a>, CodeFault>
    ensures { Decodes at (operands_at at form) operands_view cursor.old cursor.new result }
{
    match form {
        Form::Nothing => Ok(Operands::Nothing),
        Form::Byte => Ok(Operands::Byte(or_cut(at, cursor.u1())?.cast_signed())),
        Form::Short => Ok(Operands::Short(or_cut(at, cursor.u2())?.cast_signed())),
        Form::Constant => Ok(Operands::Constant(or_cut(at, cursor.u1())?)),
        Form::Index => Ok(Operands::Index(or_cut(at, cursor.u2())?)),
        Form::Local => Ok(Operands::Local(or_cut(at, cursor.u1())?)),
        Form::Increment => {
            let local = or_cut(at, cursor.u1())?;
            let by = or_cut(at, cursor.u1())?.cast_signed();
            Ok(Operands::Increment { local, by })
        }
        Form::Branch => Ok(Operands::Branch(or_cut(at, cursor.u2())?.cast_signed())),
        Form::WideBranch => Ok(Operands::WideBranch(or_cut(at, cursor.u4())?.cast_signed())),
        Form::InvokeInterface => invoke_interface(cursor, at),
        Form::InvokeDynamic => invoke_dynamic(cursor, at),
        Form::NewArray => Ok(Operands::NewArray(or_cut(at, cursor.u1())?)),
        Form::MultiNewArray => {
            let index = or_cut(at, cursor.u2())?;
            let dimensions = or_cut(at, cursor.u1())?;
            Ok(Operands::MultiNewArray { index, dimensions })
        }
        Form::TableSwitch => table_switch(cursor, at),
        Form::LookupSwitch => lookup_switch(cursor, at),
        Form::Wide => wide(cursor, at),
    }
}

/// Reads the operands of `invokeinterface`.
#[tactic(auto, unfolding(crate::specs::Instructions::invoke_interface_at))]
fn invoke_interface<'a>(cursor: &mut Cursor<'a>, at: usize) -> Result<Operands<'a>, CodeFault>
    ensures { Decodes at (invoke_interface_at at) operands_view cursor.old cursor.new result }
{
    let index = or_cut(at, cursor.u2())?;
    let count = or_cut(at, cursor.u1())?;
    let zero = or_cut(at, cursor.u1())?;
    if zero != 0 {
        return Err(CodeFault::NonZeroByte { at });
    }
    Ok(Operands::InvokeInterface { index, count })
}

/// Reads the operands of `invokedynamic`.
#[tactic(auto, unfolding(crate::specs::Instructions::invoke_dynamic_at))]
fn invoke_dynamic<'a>(cursor: &mut Cursor<'a>, at: usize) -> Result<Operands<'a>, CodeFault>
    ensures { Decodes at (invoke_dynamic_at at) operands_view cursor.old cursor.new result }
{
    let index = or_cut(at, cursor.u2())?;
    let zero = or_cut(at, cursor.u2())?;
    if zero != 0 {
        return Err(CodeFault::NonZeroByte { at });
    }
    Ok(Operands::InvokeDynamic { index })
}

/// Reads the operands of `wide`.
#[tactic(auto, unfolding(crate::specs::Instructions::wide_at))]
fn wide<'a>(cursor: &mut Cursor<'a>, at: usize) -> Result<Operands<'a>, CodeFault>
    ensures { Decodes at (wide_at at) operands_view cursor.old cursor.new result }
{
    let number = or_cut(at, cursor.u1())?;
    match Opcode::from_number(number) {
        Some(opcode) => widened(cursor, at, opcode, opcode.form()),
        None => Err(CodeFault::BadWide { at }),
    }
}

/// Reads the operands after `wide` and an opcode of this form.
fn widened<'a>(
    cursor: &mut Cursor<'a>,
    at: usize,
    opcode: Opcode,
    form: Form,
) -> Result<Operands<'a>, CodeFault>
    ensures { Decodes at (widened at opcode form) operands_view cursor.old cursor.new result }
{
    match form {
        Form::Local => {
            let local = or_cut(at, cursor.u2())?;
            Ok(Operands::WideLocal { opcode, local })
        }
        Form::Increment => {
            let local = or_cut(at, cursor.u2())?;
            let by = or_cut(at, cursor.u2())?.cast_signed();
            Ok(Operands::WideIncrement { opcode, local, by })
        }
        Form::Nothing
        | Form::Byte
        | Form::Short
        | Form::Constant
        | Form::Index
        | Form::Branch
        | Form::WideBranch
        | Form::InvokeInterface
        | Form::InvokeDynamic
        | Form::NewArray
        | Form::MultiNewArray
        | Form::TableSwitch
        | Form::LookupSwitch
        | Form::Wide => Err(CodeFault::BadWide { at }),
    }
}

/// The bytes in front of the last ones, of which so many are left.
fn taken(bytes: &[u8], left: usize) -> &[u8]
    requires { left ≤ length bytes.now }
    ensures { result.now ≡ take (length bytes.now - left) bytes.now }
{
    let (taken, _) = bytes.split_at(bytes.len() - left);
    taken
}

/// Reads the operands of `tableswitch`: the bytes as they stand, so that the table costs nothing.
fn table_switch<'a>(cursor: &mut Cursor<'a>, at: usize) -> Result<Operands<'a>, CodeFault>
    ensures { Decodes at (table_switch_at at) operands_view cursor.old cursor.new result }
{
    let bytes = cursor.rest();
    table_switch_parts(cursor, at)?;
    Ok(Operands::TableSwitch(taken(bytes, cursor.rest().len())))
}

/// The parts of a `tableswitch`, after its opcode.
#[tactic(auto, unfolding(crate::specs::Instructions::table_switch_at))]
fn table_switch_parts<'a>(cursor: &mut Cursor<'a>, at: usize) -> Result<TableSwitch<'a>, CodeFault>
    ensures { Decodes at (table_switch_at at) table_switch_view cursor.old cursor.new result }
{
    let padding = or_cut(at, cursor.part(3 - at % 4))?;
    let default = or_cut(at, cursor.u4())?.cast_signed();
    let low = or_cut(at, cursor.u4())?.cast_signed();
    let high = or_cut(at, cursor.u4())?.cast_signed();
    offsets(cursor, at, padding, default, low, high)
}

/// The offsets of a `tableswitch`, after its bounds.
fn offsets<'a>(
    cursor: &mut Cursor<'a>,
    at: usize,
    padding: &'a [u8],
    default: i32,
    low: i32,
    high: i32,
) -> Result<TableSwitch<'a>, CodeFault>
    ensures { Decodes at (table_behind at padding.now default low high) table_switch_view cursor.old cursor.new result }
{
    if high < low {
        return Err(CodeFault::BadSwitch { at });
    }
    let length = (i64::from(high) - i64::from(low)).unsigned_abs() as usize + 1;
    let offsets = or_cut(at, cursor.part(4 * length))?;
    Ok(TableSwitch {
        padding,
        default,
        low,
        high,
        offsets,
    })
}

/// Reads the operands of `lookupswitch`: the bytes as they stand, so that the pairs cost nothing.
fn lookup_switch<'a>(cursor: &mut Cursor<'a>, at: usize) -> Result<Operands<'a>, CodeFault>
    ensures { Decodes at (lookup_switch_at at) operands_view cursor.old cursor.new result }
{
    let bytes = cursor.rest();
    lookup_switch_parts(cursor, at)?;
    Ok(Operands::LookupSwitch(taken(bytes, cursor.rest().len())))
}

/// The parts of a `lookupswitch`, after its opcode.
#[tactic(auto, unfolding(crate::specs::Instructions::lookup_switch_at))]
fn lookup_switch_parts<'a>(
    cursor: &mut Cursor<'a>,
    at: usize,
) -> Result<LookupSwitch<'a>, CodeFault>
    ensures { Decodes at (lookup_switch_at at) lookup_switch_view cursor.old cursor.new result }
{
    let padding = or_cut(at, cursor.part(3 - at % 4))?;
    let default = or_cut(at, cursor.u4())?.cast_signed();
    let count = or_cut(at, cursor.u4())?.cast_signed();
    pairs(cursor, at, padding, default, count)
}

/// The pairs of a `lookupswitch`, after their count.
fn pairs<'a>(
    cursor: &mut Cursor<'a>,
    at: usize,
    padding: &'a [u8],
    default: i32,
    count: i32,
) -> Result<LookupSwitch<'a>, CodeFault>
    ensures { Decodes at (pairs_behind at padding.now default count) lookup_switch_view cursor.old cursor.new result }
{
    if count < 0 {
        return Err(CodeFault::BadSwitch { at });
    }
    let pairs = or_cut(at, cursor.part(8 * count.unsigned_abs() as usize))?;
    if !rising(pairs) {
        return Err(CodeFault::BadSwitch { at });
    }
    Ok(LookupSwitch {
        padding,
        default,
        count,
        pairs,
    })
}

/// Whether the keys of the pairs rise.
pub(crate) fn rising(pairs: &[u8]) -> bool
    ensures { result ≡ rising (keys pairs.now) }
{
    let mut last = None;
    for (key, _) in Pairs::new(pairs) {
        if !follows(last, key) {
            return false;
        }
        last = Some(key);
    }
    true
}

/// Whether the key is over the last one, where there is one.
fn follows(last: Option<i32>, key: i32) -> bool
    ensures { result ≡ follows last key }
{
    match last {
        Some(last) => last < key,
        None => true,
    }
}

/// The instruction at the cursor, as its operands' helpers read it.
#[tactic(auto, unfolding(crate::specs::Instructions::instruction_at))]
fn instruction<'a>(cursor: &mut Cursor<'a>, at: usize) -> Result<Insn<'a>, CodeFault>
    ensures { Decodes at (instruction_at at) view cursor.old cursor.new result }
{
    let number = or_cut(at, cursor.u1())?;
    match Opcode::from_number(number) {
        Some(opcode) => behind_opcode(cursor, at, opcode),
        None => Err(CodeFault::BadOpcode { at }),
    }
}

/// The instruction of this opcode, which was just read.
fn behind_opcode<'a>(
    cursor: &mut Cursor<'a>,
    at: usize,
    opcode: Opcode,
) -> Result<Insn<'a>, CodeFault>
    ensures { Decodes at (behind_opcode at (Some opcode)) view cursor.old cursor.new result }
{
    let form = opcode.form();
    if let Form::Nothing = form {
        return Ok(Insn {
            opcode,
            operands: Operands::Nothing,
        });
    }
    let operands = operands(cursor, at, form)?;
    Ok(Insn { opcode, operands })
}

/// Reads the instruction in front, whose offset is the cursor's place, and moves past it; or
/// returns why there is none, 31 to 35 at its offset, and the cursor is where it was.
pub fn read_insn<'a>(cursor: &mut Cursor<'a>) -> Result<Insn<'a>, CodeFault>
    ensures { ReadsInstruction view cursor.old cursor.new result }
{
    let at = cursor.at();
    let mut step = cursor.fork();
    let insn = instruction(&mut step, at)?;
    *cursor = step;
    Ok(insn)
}

/// Moves past the instruction in front and returns its opcode, where it has no operands; otherwise the cursor stays
/// where it is.
pub(crate) fn take_alone(cursor: &mut Cursor<'_>) -> Option<Opcode>
    ensures { TakesAlone cursor.old cursor.new result }
{
    let mut step = cursor.fork();
    let Ok(number) = step.u1() else {
        return None;
    };
    let opcode = Opcode::from_number(number)?;
    let Form::Nothing = opcode.form() else {
        return None;
    };
    *cursor = step;
    Some(opcode)
}

/// Moves past the instruction in front, where its operands are unconstrained (any bytes are its operands) and it is no
/// `new`; otherwise the cursor stays where it is.
#[inline(always)]
pub(crate) fn skip_unconstrained(cursor: &mut Cursor<'_>) -> bool
    ensures skipped { SkipsUnconstrained cursor.old cursor.new result }
    ensures when { IsTrue result ↔ HasUnconstrained cursor.old.rest }
{
    let [number, ..] = cursor.rest() else {
        return false;
    };
    let length = unconstrained_length(*number);
    length > 0 && cursor.part(length).is_ok()
}

/// Moves past the instruction in front and returns its index, where it is a `new`; otherwise the cursor stays where it
/// is.
#[inline(always)]
pub(crate) fn take_new(cursor: &mut Cursor<'_>) -> Option<u16>
    ensures { TakesNew cursor.old cursor.new result }
{
    let [number, high, low, ..] = cursor.rest() else {
        return None;
    };
    if *number != Opcode::New.number() {
        return None;
    }
    let index = BigEndian::read_u16(&[*high, *low]);
    cursor.part(3).ok()?;
    Some(index)
}

/// The act of the instruction in front of these bytes, of this form and meaning, and how many bytes it has, where its
/// operands have at most four bytes and are of a common form; otherwise none.
#[inline(always)]
fn common_act<'a>(bytes: &[u8], form: Form, meaning: Meaning) -> Option<(Act<'a>, usize)>
    ensures { IfSome result (λ t. HasAct bytes.now form meaning t.0 t.1) }
{
    match form {
        Form::Index => {
            let [_, high, low, ..] = bytes else {
                return None;
            };
            let index = BigEndian::read_u16(&[*high, *low]);
            Some((act_of_index(meaning, index)?, 3))
        }
        Form::Branch => {
            let [_, high, low, ..] = bytes else {
                return None;
            };
            let offset = BigEndian::read_i16(&[*high, *low]);
            Some((act_of_offset(meaning, i32::from(offset))?, 3))
        }
        Form::Local => {
            let [_, local, ..] = bytes else {
                return None;
            };
            Some((act_of_local(meaning, u16::from(*local))?, 2))
        }
        Form::Constant => {
            let [_, index, ..] = bytes else {
                return None;
            };
            Some((act_of_index(meaning, u16::from(*index))?, 2))
        }
        Form::Increment => {
            let [_, local, _, ..] = bytes else {
                return None;
            };
            Some((act_of_local(meaning, u16::from(*local))?, 3))
        }
        Form::InvokeInterface => {
            let [_, high, low, count, zero, ..] = bytes else {
                return None;
            };
            if *zero != 0 {
                return None;
            }
            let index = BigEndian::read_u16(&[*high, *low]);
            Some((act_of_count(meaning, index, *count)?, 5))
        }
        Form::Byte if bytes.len() >= 2 => Some((act_of_number(meaning)?, 2)),
        Form::Short if bytes.len() >= 3 => Some((act_of_number(meaning)?, 3)),
        _ => None,
    }
}

/// Moves past the instruction in front and returns its act, where it has no operands or those of a common form;
/// otherwise, and where it is unsupported, the cursor stays where it is.
#[inline(always)]
pub(crate) fn take_common_act<'a>(cursor: &mut Cursor<'_>) -> Option<Act<'a>>
    ensures { TakesAct cursor.old cursor.new result }
{
    let [number, ..] = cursor.rest() else {
        return None;
    };
    let (_, _, form, meaning, alone) = row_at(*number)?;
    if let Some(act) = alone {
        cursor.part(1).ok()?;
        return Some(*act);
    }
    let (act, length) = common_act(cursor.rest(), *form, *meaning)?;
    cursor.part(length).ok()?;
    Some(act)
}
