//! The instructions of the Java Virtual Machine: a method's code read and written, one instruction or
//! all of them, and what each means.
//!
//! Proved against the table of opcodes (`specs/Opcodes.antt`), the bytes of each instruction
//! (`specs/Instructions.antt`, JVMS 6.5) and of code (`specs/Code.antt`). The calls to know are
//! [`decode_code`] and [`encode_code`]; [`Instructions`] reads one after the other and takes no memory,
//! and [`act`] gives what an instruction means without its form.
//!
//! - `acts` has `Act`, all that instructions may do, and `Meaning`, an act before its operands are known
//! - `branching` finds the offsets to which an instruction branches
//! - `decoding` reads all of a method's code into a list
//! - `encoding` writes a list of instructions as code
//! - `fault` has the faults for which bytes are no code
//! - `finding` finds the instruction at an offset of a list, by binary search
//! - `instruction` has `Insn`, an opcode with its operands
//! - `instruction_acts` makes the act of an instruction from its meaning and its operands
//! - `instruction_reading` reads one instruction
//! - `instruction_writing` writes one instruction
//! - `instructions` has `Instructions`, which reads the instructions of a method's code one after the other
//! - `kinds` has the kinds of numbers, `int`, `long`, `float` and `double`
//! - `laws` states laws of code and of its tables; its functions do nothing
//! - `opcode` has the opcodes and their numbers
//! - `operators` has the instructions that compute numbers from numbers, and the arrays that element instructions take
//! - `stack` has the instructions that move items of the stack
//! - `switch` reads the parts of a switch
//! - `table` has the tables: a row for each opcode, each numeric operator and each operator of the stack; and `Form`
//!
//! `docs/DEFINITIONS.md` says in a sentence what each file of `specs/` holds.
#![tactic(auto)]

mod acts;
mod branching;
mod decoding;
mod encoding;
mod fault;
mod finding;
mod instruction;
mod instruction_acts;
mod instruction_reading;
mod instruction_writing;
mod instructions;
mod kinds;
mod laws;
mod opcode;
mod operators;
mod stack;
mod switch;
mod table;

pub use acts::{Act, Meaning};
pub use branching::{BranchTargets, Branches};
pub use decoding::{count_instructions, decode_code};
pub use encoding::encode_code;
pub use fault::CodeFault;
pub use finding::found_at;
pub use instruction::{Insn, Operands, is_rising_start, is_start, mnemonic};
pub use instruction_acts::{act, made_index};
pub use instruction_reading::read_insn;
pub use instructions::Instructions;
pub use kinds::{Kind, computed_as};
pub use laws::{
    code_is_one_list, forms_move_units, kinds_and_arrays, list_is_one_code, opcodes_have_numbers,
    read_is_written, results_are_spellings, written_is_read,
};
pub use opcode::Opcode;
pub use operators::{NumericOperator, takes_array};
pub use stack::{StackForm, StackOperator, StackPlace};
pub use switch::{LookupSwitch, Offsets, Pairs, TableSwitch, Targets};
pub use table::Form;
