//! Reading all of a method's code.
ghost use Rattle.std.specs.Prelude.{◌≡◌, ◌≤◌, ℕ, List, length, IfOk, IfErr};
ghost use Rattle.layout.specs.declared.limits.TheConstants.{MAX_CODE_BYTES};
ghost use Rattle.insn.specs.declared.fault.CodeFault.TheVariants.{OutOfMemory};
ghost use Rattle.insn.specs.Code.{SpellsCode, FaultyCode, UnlessMemory};
ghost use Rattle.insn.specs.Offsets.{StartsRise};
ghost use Rattle.insn.specs.Instructions.{Instruction};
ghost use Rattle.insn.specs.Views.{views};

use crate::fault::CodeFault;
use crate::instruction::Insn;
use crate::instructions::Instructions;
use std::alloc::Global;

/// How many instructions this code has; or the fault of the first that is none, 31 to 35. Takes no memory.
pub fn count_instructions(code: &[u8]) -> Result<usize, CodeFault>
    ensures found { IfOk result (λ n. (xs : List (ℕ × Instruction)) × SpellsCode 0 code.now xs × (length xs ≡ n)) }
    ensures fault { IfErr result (λ e. FaultyCode code.now e) }
{
    let mut count = 0;
    for step in Instructions::new(code) {
        step?;
        count += 1;
    }
    Ok(count)
}

/// The instructions of this code, which has at most 65,535 bytes (JVMS 4.7.3), with the offsets in
/// bytes where they begin; or the fault of the first that is none, 31 to 35; or 1. Memory is asked
/// for once, for as many instructions as there are.
pub fn decode_code<'a>(alloc: Global, code: &'a [u8]) -> Result<Vec<(u16, Insn<'a>)>, CodeFault>
    requires { length code.now ≤ MAX_CODE_BYTES }
    // The instructions that are returned are those that the code spells.
    ensures found { IfOk result (λ v. SpellsCode 0 code.now (views v.items)) }
    // The offsets rise, so that one is found by binary search.
    ensures starts { IfOk result (λ v. StartsRise 0 (views v.items)) }
    // The instructions that the code spells are returned, unless memory runs out.
    ensures only { (xs : List (ℕ × Instruction)) → SpellsCode 0 code.now xs → IfErr result (λ e. e ≡ OutOfMemory) }
    // Which fault it is.
    ensures fault { IfErr result (λ e. UnlessMemory e (FaultyCode code.now e)) }
{
    let mut list = Vec::with_capacity(alloc, count_instructions(code)?)?;
    for step in Instructions::new(code) {
        let (at, insn) = step?;
        list.push((at as u16, insn))?;
    }
    Ok(list)
}
