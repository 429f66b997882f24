//! `classck`: verifies Java class files by type checking.
//!
//! `main` reads the line (the library `command_line`), opens and reads the files (`reading`), answers (the library
//! `answers`, and for `serve` the library `serving`), and prints the answer, or why there is none (`ending`).
#![tactic(auto)]

mod ending;
mod reading;

use crate::ending::Ending;
use crate::reading::read_all;
use answers::{Command, answer};
use command_line::{MainFault, Request, Task, request};
use serving::{Peer, Setting, serve};
use std::hash::RandomState;
use std::io::{BufReader, BufWriter, ErrorKind, Write};
use std::process::ExitCode;

/// The request that the line makes.
fn asked(rt: &HostRuntime) -> Result<Request, Ending> {
    let alloc = rt.alloc();
    let words: Vec<String> = match std::env::args(rt) {
        Ok(words) => words.collect(alloc)?,
        Err(error) if error.kind() == ErrorKind::OutOfMemory => {
            return Err(Ending::Fault(MainFault::Memory));
        }
        Err(_) => return Err(Ending::NoText),
    };
    let mut texts = Vec::new(alloc);
    for word in &words {
        texts.push(word.as_str())?;
    }
    Ok(request(alloc, &texts)?)
}

/// The random source, the files in the order of the line, and then the answer about them.
fn tell(rt: &HostRuntime, command: Command, files: &[String]) -> Result<u8, Ending> {
    let Ok(hasher) = RandomState::new(rt) else {
        return Err(Ending::Fault(MainFault::NoRandom));
    };
    let reads = read_all(rt, files)?;
    let Ok(mut out) = BufWriter::new(rt.alloc(), rt.stdout()) else {
        return Err(Ending::Fault(MainFault::Memory));
    };
    let status = answer(rt.alloc(), command, &reads, hasher, &mut out)?;
    match out.flush() {
        Ok(()) => Ok(status),
        Err(_) => Err(Ending::Fault(MainFault::NotWritten)),
    }
}

/// The known files, and then the answers to the messages on standard input, until that ends.
fn serve_all(rt: &HostRuntime, setting: Setting, files: &[String]) -> Result<u8, Ending> {
    let reads = read_all(rt, files)?;
    let Ok(input) = BufReader::new(rt.alloc(), rt.stdin()) else {
        return Err(Ending::Fault(MainFault::Memory));
    };
    let mut peer = Peer::new(input, rt.stdout());
    match serve(rt.alloc(), setting, reads, rt, &mut peer) {
        Ok(()) => Ok(0),
        Err(fault) => Err(Ending::Serving(fault)),
    }
}

/// The line, and then what it asks for.
fn run(rt: &HostRuntime) -> Result<u8, Ending> {
    let request = asked(rt)?;
    match request.task {
        Task::Answer(command) => tell(rt, command, &request.files),
        Task::Serve { form, profile } => serve_all(rt, Setting { form, profile }, &request.files),
    }
}

fn main(rt: HostRuntime) -> ExitCode {
    match run(&rt) {
        Ok(status) => ExitCode::from(status),
        Err(ending) => {
            ending.tell(&rt);
            ExitCode::from(2)
        }
    }
}
