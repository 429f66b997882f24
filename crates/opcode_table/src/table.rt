//! The instruction set, a line for each opcode.

use insn::{Meaning, Opcode};
use std::io;

/// Prints a line for each opcode: its number, its name, what stands after it, what it means, and
/// what the instruction takes from the stack and leaves there where the meaning alone tells it.
pub fn print(rt: &HostRuntime) -> io::Result<()> {
    for number in 0..=201u8 {
        if let Some(opcode) = Opcode::from_number(number) {
            println!(rt;
                "{number} {} {:?} {:?}",
                opcode.mnemonic(),
                opcode.form(),
                opcode.meaning()
            )?;
            print_stack(rt, opcode.meaning())?;
        }
    }
    Ok(())
}

/// Prints the kinds that numeric instructions take and give, and the forms of those that move items.
fn print_stack(rt: &HostRuntime, meaning: Meaning) -> io::Result<()> {
    match meaning {
        Meaning::Numeric(operator) => {
            let (taken, given) = operator.row();
            println!(rt; "  {taken:?} to {given:?}")
        }
        Meaning::Stack(operator) => {
            for form in operator.forms() {
                println!(rt; "  {:?} to {:?}", form.takes, form.leaves)?;
            }
            Ok(())
        }
        _ => Ok(()),
    }
}
