//! `opcode_table`: a program for those who change the crate `insn`.
//!
//! Without words it prints the instruction set, a line for each opcode, to be laid beside the
//! standard (`table`). Each word is a class file: the code of its methods is decoded, encoded again
//! and compared (`round_trip`).
#![tactic(auto)]

mod round_trip;
mod table;

use std::fs::File;
use std::io::{self, Read};
use std::process::ExitCode;

fn main(rt: HostRuntime) -> io::Result<ExitCode> {
    let alloc = rt.alloc();
    let words: Vec<String> = std::env::args(&rt)?.skip(1).collect(alloc)?;
    if words.is_empty() {
        table::print(&rt)?;
        return Ok(ExitCode::SUCCESS);
    }
    let mut status = ExitCode::SUCCESS;
    for word in &words {
        let mut bytes = Vec::new(alloc);
        File::open(&rt, word)?.read_to_end(&mut bytes)?;
        match round_trip::code_of(alloc, &bytes) {
            Ok(count) => println!(rt; "{word}: {count}")?,
            Err(fault) => {
                println!(rt; "{word}: {fault}")?;
                status = ExitCode::FAILURE;
            }
        }
    }
    Ok(status)
}
