//! From instructions to a method's code.
ghost use Rattle.std.specs.Prelude.{◌≡◌, ◌+◌, ◌-◌, ◌≤◌, ℕ, List, map, length, nat_lt, IfErr, SomeIff};
ghost use Rattle.layout.specs.Format.{AreBytes};
ghost use Rattle.layout.specs.declared.fault.WriteFault.TheVariants.{OutOfMemory};
ghost use Rattle.layout.specs.declared.limits.TheConstants.{MAX_CODE_BYTES};
ghost use Rattle.insn.specs.Encoding.{IsCode, Encodes};
ghost use Rattle.insn.specs.InstructionSizes.{operands_size, size, code_size};
ghost use Rattle.insn.specs.Views.{operands_view, view};

use crate::instruction::{Insn, Operands};
use crate::instruction_writing::put_insn;
use crate::switch::{LookupSwitch, TableSwitch};
use layout::{MAX_CODE_BYTES, WriteFault};
use std::alloc::Global;

/// The bytes of the room that are left after a switch; none where it does not fit.
fn behind_switch(room: usize, numbers: usize, padding: &[u8], table: &[u8]) -> Option<usize>
    requires { numbers ≤ 12 }
    ensures { SomeIff result (numbers + (length padding.now + length table.now) ≤ room)
        (room - (numbers + (length padding.now + length table.now))) }
{
    room.checked_sub(numbers)?
        .checked_sub(padding.len())?
        .checked_sub(table.len())
}

/// The bytes of the room that are left after the operands; none where they do not fit.
fn behind_operands(room: usize, operands: Operands<'_>) -> Option<usize>
    ensures { SomeIff result (operands_size (operands_view operands.entry) ≤ room)
        (room - operands_size (operands_view operands.entry)) }
{
    match operands {
        Operands::Nothing => Some(room),
        Operands::Byte(_) | Operands::Constant(_) | Operands::Local(_) | Operands::NewArray(_) => {
            room.checked_sub(1)
        }
        Operands::Short(_)
        | Operands::Index(_)
        | Operands::Increment { .. }
        | Operands::Branch(_) => room.checked_sub(2),
        Operands::MultiNewArray { .. } | Operands::WideLocal { .. } => room.checked_sub(3),
        Operands::WideBranch(_)
        | Operands::InvokeInterface { .. }
        | Operands::InvokeDynamic { .. } => room.checked_sub(4),
        Operands::WideIncrement { .. } => room.checked_sub(5),
        Operands::TableSwitch(bytes) => {
            let switch = TableSwitch::new(bytes);
            behind_switch(room, 12, switch.padding, switch.offsets)
        }
        Operands::LookupSwitch(bytes) => {
            let switch = LookupSwitch::new(bytes);
            behind_switch(room, 8, switch.padding, switch.pairs)
        }
    }
}

/// The bytes of the room that are left after the instruction; none where it does not fit.
fn behind_insn(room: usize, insn: &Insn<'_>) -> Option<usize>
    ensures { SomeIff result (size (view insn.now) ≤ room) (room - size (view insn.now)) }
{
    behind_operands(room.checked_sub(1)?, insn.operands)
}

/// Whether the instructions have more bytes than a method's code may have.
fn is_too_large(list: &[Insn<'_>]) -> bool
    ensures { result ≡ nat_lt MAX_CODE_BYTES (code_size (map view list.now)) }
{
    let mut room = MAX_CODE_BYTES;
    for insn in list {
        match behind_insn(room, insn) {
            Some(left) => room = left,
            None => return true,
        }
    }
    false
}

/// The code that is these instructions, one after the other.
///
/// 17 where they have more than 65,535 bytes, each counted by its operands, spelled or not, and otherwise 18 where no
/// bytes spell them: an opcode has operands of another form, `wide` an opcode that it does not
/// modify, or a switch a padding, bounds or a table that do not agree (JVMS 6.5); or 1 where memory
/// runs out.
pub fn encode_code(alloc: Global, list: &[Insn<'_>]) -> Result<Vec<u8>, WriteFault>
    // The bytes that are returned are the code of the instructions; a refusal is theirs.
    ensures exact { Encodes (map view list.now) (λ v. v.items) result }
    // Instructions that are a code are written, unless memory runs out.
    ensures only { (bytes : List ℕ) → AreBytes bytes → IsCode bytes (map view list.now)
        → IfErr result (λ e. e ≡ OutOfMemory) }
{
    if is_too_large(list) {
        return Err(WriteFault::DoesNotFit);
    }
    let mut out = Vec::new(alloc);
    for insn in list {
        put_insn(&mut out, insn)?;
    }
    Ok(out)
}
