//! Writing one instruction.
ghost use Rattle.std.specs.Prelude.{◌≡◌, ◌+◌, ◌*◌, ◌≤◌, ◌++◌, ℕ, Bool, true, false, length, nat_eq};
ghost use Rattle.std.specs.Int.{cast_unsigned, w8, w16, w32};
ghost use Rattle.byteorder.specs.Endian.{big_bytes};
ghost use Rattle.insn.specs.Encoding.{Appends, HasNone, AppendsInstruction};
ghost use Rattle.insn.specs.Instructions.{padding_at, table_length};
ghost use Rattle.insn.specs.Opcodes.{form, number};
ghost use Rattle.insn.specs.WrittenInstructions.{form_of, agrees, fills, pairs_up, AreInRange, takes_local, takes_increment, switch_head, operands_bytes, IsFine};
ghost use Rattle.insn.specs.Views.{operands_view, table_switch_view, lookup_switch_view, view};

use crate::instruction::{Insn, Operands};
use crate::instruction_reading::rising;
use crate::opcode::Opcode;
use crate::switch::{LookupSwitch, TableSwitch};
use crate::table::Form;
use byteorder::{BigEndian, ByteOrder};
use layout::WriteFault;

/// The form of the opcodes that have such operands.
fn form_of(operands: &Operands<'_>) -> Form
    ensures { result ≡ form_of (operands_view operands.now) }
{
    match operands {
        Operands::Nothing => Form::Nothing,
        Operands::Byte(_) => Form::Byte,
        Operands::Short(_) => Form::Short,
        Operands::Constant(_) => Form::Constant,
        Operands::Index(_) => Form::Index,
        Operands::Local(_) => Form::Local,
        Operands::Increment { .. } => Form::Increment,
        Operands::Branch(_) => Form::Branch,
        Operands::WideBranch(_) => Form::WideBranch,
        Operands::InvokeInterface { .. } => Form::InvokeInterface,
        Operands::InvokeDynamic { .. } => Form::InvokeDynamic,
        Operands::NewArray(_) => Form::NewArray,
        Operands::MultiNewArray { .. } => Form::MultiNewArray,
        Operands::TableSwitch(_) => Form::TableSwitch,
        Operands::LookupSwitch(_) => Form::LookupSwitch,
        Operands::WideLocal { .. } | Operands::WideIncrement { .. } => Form::Wide,
    }
}

/// Whether the table has an offset for each key from `low` to `high`.
fn fills(low: i32, high: i32, offsets: &[u8]) -> bool
    ensures { result ≡ fills low high offsets.now }
{
    if high < low {
        return false;
    }
    let length = (i64::from(high) - i64::from(low)).unsigned_abs() as usize + 1;
    offsets.len() == 4 * length
}

/// Whether the table has as many pairs as are counted, and their keys rise.
fn pairs_up(count: i32, pairs: &[u8]) -> bool
    ensures { result ≡ pairs_up count pairs.now }
{
    if count < 0 {
        return false;
    }
    pairs.len() == 8 * count.unsigned_abs() as usize && rising(pairs)
}

/// Whether the operands may stand in an instruction that begins at `at`, after an opcode of their
/// form.
fn agrees(at: usize, operands: &Operands<'_>) -> bool
    ensures { result ≡ agrees at (operands_view operands.now) }
{
    match operands {
        Operands::TableSwitch(bytes) => {
            let switch = TableSwitch::new(bytes);
            switch.padding.len() == 3 - at % 4 && fills(switch.low, switch.high, switch.offsets)
        }
        Operands::LookupSwitch(bytes) => {
            let switch = LookupSwitch::new(bytes);
            switch.padding.len() == 3 - at % 4 && pairs_up(switch.count, switch.pairs)
        }
        Operands::WideLocal { opcode, .. } => matches!(opcode.form(), Form::Local),
        Operands::WideIncrement { opcode, .. } => matches!(opcode.form(), Form::Increment),
        Operands::Nothing
        | Operands::Byte(_)
        | Operands::Short(_)
        | Operands::Constant(_)
        | Operands::Index(_)
        | Operands::Local(_)
        | Operands::Increment { .. }
        | Operands::Branch(_)
        | Operands::WideBranch(_)
        | Operands::InvokeInterface { .. }
        | Operands::InvokeDynamic { .. }
        | Operands::NewArray(_)
        | Operands::MultiNewArray { .. } => true,
    }
}

/// Appends a number of one byte.
fn put_u1(out: &mut Vec<u8>, n: u8) -> Result<(), WriteFault>
    ensures { Appends (big_bytes 1 n) out.old.items out.new.items result }
{
    out.push(n)?;
    Ok(())
}

/// Appends a number of two bytes, the high byte first.
fn put_u2(out: &mut Vec<u8>, n: u16) -> Result<(), WriteFault>
    ensures { Appends (big_bytes 2 n) out.old.items out.new.items result }
{
    let mut bytes = [0u8; 2];
    BigEndian::write_u16(&mut bytes, n);
    out.extend_from_slice(&bytes)?;
    Ok(())
}

/// Appends a number of four bytes, the highest byte first.
fn put_u4(out: &mut Vec<u8>, n: u32) -> Result<(), WriteFault>
    ensures { Appends (big_bytes 4 n) out.old.items out.new.items result }
{
    let mut bytes = [0u8; 4];
    BigEndian::write_u32(&mut bytes, n);
    out.extend_from_slice(&bytes)?;
    Ok(())
}

/// Appends a signed number of four bytes, the highest byte first.
fn put_i4(out: &mut Vec<u8>, n: i32) -> Result<(), WriteFault>
    ensures { Appends (big_bytes 4 (cast_unsigned w32 n)) out.old.items out.new.items result }
{
    put_u4(out, n.cast_unsigned())
}

/// Appends a number of one byte and then one of one byte.
fn put_increment(out: &mut Vec<u8>, local: u8, by: i8) -> Result<(), WriteFault>
    ensures { Appends (big_bytes 1 local ++ big_bytes 1 (cast_unsigned w8 by)) out.old.items out.new.items result }
{
    put_u1(out, local)?;
    put_u1(out, by.cast_unsigned())
}

/// Appends what stands after `invokeinterface`.
fn put_invoke_interface(out: &mut Vec<u8>, index: u16, count: u8) -> Result<(), WriteFault>
    ensures { Appends (big_bytes 2 index ++ (big_bytes 1 count ++ big_bytes 1 0)) out.old.items out.new.items result }
{
    put_u2(out, index)?;
    put_u1(out, count)?;
    put_u1(out, 0)
}

/// Appends a number of two bytes and then one of two bytes.
fn put_two(out: &mut Vec<u8>, first: u16, second: u16) -> Result<(), WriteFault>
    ensures { Appends (big_bytes 2 first ++ big_bytes 2 second) out.old.items out.new.items result }
{
    put_u2(out, first)?;
    put_u2(out, second)
}

/// Appends what stands after `multianewarray`.
fn put_multi_new_array(out: &mut Vec<u8>, index: u16, dimensions: u8) -> Result<(), WriteFault>
    ensures { Appends (big_bytes 2 index ++ big_bytes 1 dimensions) out.old.items out.new.items result }
{
    put_u2(out, index)?;
    put_u1(out, dimensions)
}

/// Appends two signed numbers of four bytes.
fn put_ints(out: &mut Vec<u8>, first: i32, second: i32) -> Result<(), WriteFault>
    ensures { Appends (big_bytes 4 (cast_unsigned w32 first)
        ++ big_bytes 4 (cast_unsigned w32 second)) out.old.items out.new.items result }
{
    put_i4(out, first)?;
    put_i4(out, second)
}

/// Appends what both switches begin with: the second number is the low bound, or how many pairs
/// there are.
#[tactic(auto, unfolding(crate::specs::WrittenInstructions::switch_head))]
fn put_switch_head(
    out: &mut Vec<u8>,
    padding: &[u8],
    default: i32,
    second: i32,
) -> Result<(), WriteFault>
    ensures { Appends (switch_head padding.now default second) out.old.items out.new.items result }
{
    out.extend_from_slice(padding)?;
    put_ints(out, default, second)
}

/// Appends the high bound of a `tableswitch` and its offsets.
fn put_offsets(out: &mut Vec<u8>, high: i32, offsets: &[u8]) -> Result<(), WriteFault>
    ensures { Appends (big_bytes 4 (cast_unsigned w32 high) ++ offsets.now) out.old.items out.new.items result }
{
    put_i4(out, high)?;
    out.extend_from_slice(offsets)?;
    Ok(())
}

/// Appends the pairs of a `lookupswitch`.
fn put_pairs(out: &mut Vec<u8>, pairs: &[u8]) -> Result<(), WriteFault>
    ensures { Appends pairs.now out.old.items out.new.items result }
{
    out.extend_from_slice(pairs)?;
    Ok(())
}

/// Appends an opcode after `wide`, and the number of a local variable.
fn put_wide_local(out: &mut Vec<u8>, opcode: Opcode, local: u16) -> Result<(), WriteFault>
    ensures { Appends (big_bytes 1 (number opcode) ++ big_bytes 2 local) out.old.items out.new.items result }
{
    put_u1(out, opcode.number())?;
    put_u2(out, local)
}

/// Appends an opcode after `wide`, the number of a local variable, and what is added to it.
fn put_wide_increment(
    out: &mut Vec<u8>,
    opcode: Opcode,
    local: u16,
    by: i16,
) -> Result<(), WriteFault>
    ensures { Appends (big_bytes 1 (number opcode)
        ++ (big_bytes 2 local ++ big_bytes 2 (cast_unsigned w16 by))) out.old.items out.new.items result }
{
    put_u1(out, opcode.number())?;
    put_two(out, local, by.cast_unsigned())
}

/// Appends what stands after `tableswitch`.
#[tactic(auto, unfolding(crate::specs::WrittenInstructions::operands_bytes))]
fn put_table_switch(out: &mut Vec<u8>, switch: TableSwitch<'_>) -> Result<(), WriteFault>
    ensures { Appends (operands_bytes (table_switch_view switch.entry)) out.old.items out.new.items result }
{
    put_switch_head(out, switch.padding, switch.default, switch.low)?;
    put_offsets(out, switch.high, switch.offsets)
}

/// Appends what stands after `lookupswitch`.
#[tactic(auto, unfolding(crate::specs::WrittenInstructions::operands_bytes))]
fn put_lookup_switch(out: &mut Vec<u8>, switch: LookupSwitch<'_>) -> Result<(), WriteFault>
    ensures { Appends (operands_bytes (lookup_switch_view switch.entry)) out.old.items out.new.items result }
{
    put_switch_head(out, switch.padding, switch.default, switch.count)?;
    put_pairs(out, switch.pairs)
}

/// Appends what stands after an opcode.
#[tactic(auto, unfolding(crate::specs::WrittenInstructions::operands_bytes))]
fn put_operands(out: &mut Vec<u8>, operands: Operands<'_>) -> Result<(), WriteFault>
    requires { (at : ℕ) × (agrees at (operands_view operands) ≡ true) }
    ensures bytes { Appends (operands_bytes (operands_view operands.entry)) out.old.items out.new.items result }
    ensures range { AreInRange (operands_view operands.entry) }
{
    match operands {
        Operands::Nothing => Ok(()),
        Operands::Byte(value) => put_u1(out, value.cast_unsigned()),
        Operands::Short(value) => put_u2(out, value.cast_unsigned()),
        Operands::Constant(index) => put_u1(out, index),
        Operands::Index(index) => put_u2(out, index),
        Operands::Local(local) => put_u1(out, local),
        Operands::Increment { local, by } => put_increment(out, local, by),
        Operands::Branch(offset) => put_u2(out, offset.cast_unsigned()),
        Operands::WideBranch(offset) => put_i4(out, offset),
        Operands::InvokeInterface { index, count } => put_invoke_interface(out, index, count),
        Operands::InvokeDynamic { index } => put_two(out, index, 0),
        Operands::NewArray(element) => put_u1(out, element),
        Operands::MultiNewArray { index, dimensions } => put_multi_new_array(
            out, index, dimensions,
        ),
        Operands::TableSwitch(bytes) => put_table_switch(out, TableSwitch::new(bytes)),
        Operands::LookupSwitch(bytes) => put_lookup_switch(out, LookupSwitch::new(bytes)),
        Operands::WideLocal { opcode, local } => put_wide_local(out, opcode, local),
        Operands::WideIncrement { opcode, local, by } => put_wide_increment(out, opcode, local, by),
    }
}

/// Whether the operands are those of the opcode's form.
fn has_form(insn: &Insn<'_>) -> bool
    ensures yes { result ≡ true → form insn.now.opcode ≡ form_of (operands_view insn.now.operands) }
    ensures no { result ≡ false → form insn.now.opcode ≡ form_of (operands_view insn.now.operands) → ⊥ }
{
    insn.opcode.form() == form_of(&insn.operands)
}

/// Whether bytes are the instruction where it begins at `at`.
fn is_spelled(at: usize, insn: &Insn<'_>) -> bool
    ensures yes { result ≡ true → IsFine at (view insn.now) }
    ensures no { result ≡ false → HasNone at (view insn.now) }
{
    has_form(insn) && agrees(at, &insn.operands)
}

/// Appends the instruction, which begins where the vector ends; or returns 18 where no bytes are
/// the instruction there, or 1.
pub(crate) fn put_insn(out: &mut Vec<u8>, insn: &Insn<'_>) -> Result<(), WriteFault>
    ensures { AppendsInstruction (length out.old.items) (view insn.now) out.old.items out.new.items result }
{
    let at = out.len();
    if !is_spelled(at, insn) {
        return Err(WriteFault::HasNoSpelling);
    }
    put_u1(out, insn.opcode.number())?;
    put_operands(out, insn.operands)
}
