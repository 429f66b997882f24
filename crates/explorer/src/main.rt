//! `explorer`: walks the abstract machine through the methods of a class, by choices that are drawn by chance and are
//! the same in each run.
//!
//! The first word is the file of a class, and the others are those of the classes that it may refer to. A method that
//! is verified is walked through from states in which it may begin, and so are the methods of damaged copies of the
//! class. One line says how many methods that are verified there were, how many steps were taken in them and how many
//! faults were met, and how many methods that are refused met a fault. A method that is verified meets none; those that
//! are refused show that the walks come to the places where faults are.
//!
//! | File | What it has |
//! |---|---|
//! | `chance` | numbers by chance |
//! | `types` | the types that a class names, of which objects are made |
//! | `beginnings` | states in which a method begins |
//! | `choices` | choices for a step |
//! | `walking` | the walks through a method |
//! | `counting` | the methods of a class and of its damaged copies, and what is counted |
#![tactic(auto)]

mod beginnings;
mod chance;
mod choices;
mod counting;
mod types;
mod walking;

use crate::counting::explore;
use std::fs::File;
use std::io::{self, Read};
use std::process::ExitCode;

fn main(rt: HostRuntime) -> io::Result<ExitCode> {
    let alloc = rt.alloc();
    let words: Vec<String> = std::env::args(&rt)?.skip(1).collect(alloc)?;
    let mut files: Vec<Vec<u8>> = Vec::new(alloc);
    for word in &words {
        let mut bytes = Vec::new(alloc);
        File::open(&rt, word)?.read_to_end(&mut bytes)?;
        files.push(bytes)?;
    }
    match explore(alloc, &files) {
        Ok(counts) => {
            println!(rt; "{counts}")?;
            Ok(ExitCode::SUCCESS)
        }
        Err(trouble) => {
            println!(rt; "{trouble}")?;
            Ok(ExitCode::FAILURE)
        }
    }
}
