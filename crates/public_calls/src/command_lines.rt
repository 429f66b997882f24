//! The requests that lines make, and the complaints of the program.
use answers::{Command, Form};
use clap::error::ErrorKind;
use classfile::Profile;
use command_line::{LineFault, MainFault, Task, complaint, request};
use std::alloc::Global;
use std::test::*;

/// Whether the words ask for this, of so many files, of which the last is named so.
fn asks(alloc: Global, words: &[&str], command: Command, files: usize, last: &str) -> bool {
    match request(alloc, words) {
        Ok(asked) => {
            asked.task == Task::Answer(command)
                && asked.files.len() == files
                && matches!(asked.files.as_slice(), [.., file] if file.as_str() == last)
        }
        Err(_) => false,
    }
}

/// Whether the words ask for nothing, since one is missing.
fn misses(alloc: Global, words: &[&str]) -> bool {
    match request(alloc, words) {
        Err(LineFault::NoRequest(error)) => error.kind() == ErrorKind::MissingRequiredArgument,
        _ => false,
    }
}

/// The words of a line, what it asks for, of how many files, and the last of these.
type Row<'a> = (&'a [&'a str], Command, usize, &'a str);

fn are_asked(alloc: Global, rows: &[Row<'_>]) -> bool {
    for (words, command, files, last) in rows {
        if !asks(alloc, *words, *command, *files, *last) {
            return false;
        }
    }
    true
}

/// Each command with the files after it, of which one looks like an option.
const LINES: [Row<'static>; 4] = [
    (
        &["classck", "check", "--", "-a"],
        Command::Check(Form::Plain, Profile::Default),
        1,
        "-a",
    ),
    (
        &["classck", "verify", "K", "O", "P"],
        Command::Verify(Form::Plain, Profile::Default),
        3,
        "P",
    ),
    (
        &["classck", "explain", "K", "O"],
        Command::Explain(Form::Plain, Profile::Default),
        2,
        "O",
    ),
    (
        &["classck", "play", "K", "O"],
        Command::Play(Form::Plain, Profile::Default),
        2,
        "O",
    ),
];

#[test]
fn lines(rt: HostRuntime) {
    assert!(rt; are_asked(rt.alloc(), &LINES));
}

/// Two classes, and a known one.
#[test]
fn lines_of_many_classes(rt: HostRuntime) {
    let words = ["classck", "verify-each", "K", "L", "--known", "O"];
    let each = Command::VerifyEach {
        form: Form::Plain,
        profile: Profile::Default,
        classes: 2,
    };
    assert!(rt; asks(rt.alloc(), &words, each, 3, "O"));
}

/// Whether the words ask for this task, with so many files.
fn is_task(alloc: Global, words: &[&str], task: Task, files: usize) -> bool {
    match request(alloc, words) {
        Ok(asked) => asked.task == task && asked.files.len() == files,
        Err(_) => false,
    }
}

/// Messages are to be answered, and two classes are known from the beginning.
#[test]
fn lines_of_messages(rt: HostRuntime) {
    let words = ["classck", "serve", "--json", "--known", "K", "O"];
    let serve = Task::Serve {
        form: Form::Json,
        profile: Profile::Default,
    };
    assert!(rt; is_task(rt.alloc(), &words, serve, 2));
}

const DYNAMIC: [Row<'static>; 3] = [
    (
        &["classck", "verify", "K", "--dynamic", "O"],
        Command::Verify(Form::Plain, Profile::Dynamic),
        2,
        "O",
    ),
    (
        &["classck", "explain", "--dynamic", "K"],
        Command::Explain(Form::Plain, Profile::Dynamic),
        1,
        "K",
    ),
    (
        &["classck", "play", "--dynamic", "K"],
        Command::Play(Form::Plain, Profile::Dynamic),
        1,
        "K",
    ),
];

#[test]
fn lines_with_dynamic(rt: HostRuntime) {
    assert!(rt; are_asked(rt.alloc(), &DYNAMIC));
}

const JSON: [Row<'static>; 3] = [
    (
        &["classck", "check", "--json", "K"],
        Command::Check(Form::Json, Profile::Default),
        1,
        "K",
    ),
    (
        &["classck", "verify", "K", "O", "--json"],
        Command::Verify(Form::Json, Profile::Default),
        2,
        "O",
    ),
    (
        &["classck", "verify", "--json", "--dynamic", "K", "O"],
        Command::Verify(Form::Json, Profile::Dynamic),
        2,
        "O",
    ),
];

#[test]
fn lines_with_json(rt: HostRuntime) {
    assert!(rt; are_asked(rt.alloc(), &JSON));
}

#[test]
fn lines_without_a_file(rt: HostRuntime) {
    assert!(rt; misses(rt.alloc(), &["classck", "check"]));
    assert!(rt; misses(rt.alloc(), &["classck", "play"]));
}

/// Each complaint, in the order of the enum.
const FAULTS: [MainFault; 4] = [
    MainFault::NoRandom,
    MainFault::CannotOpen(2),
    MainFault::Memory,
    MainFault::NotWritten,
];

#[test]
fn complaints(rt: HostRuntime) {
    let mut out: Vec<u8> = Vec::new(rt.alloc());
    for fault in &FAULTS {
        assert!(rt; complaint(fault, &mut out).is_ok());
    }
    assert!(rt;
        out.as_slice()
            == b"no random words\nfile 2 cannot be opened\nrefused 1\nrefused 19\n".as_slice()
    );
}

/// Where memory runs out a line is refused 1, and otherwise read as ever.
fn is_read_or_memory(alloc: Global) -> bool {
    match request(alloc, &["classck", "check", "a"]) {
        Ok(asked) => asked.files.len() == 1,
        Err(fault) => matches!(fault, LineFault::OutOfMemory),
    }
}

#[test]
fn memory_runs_out_for_a_line(rt: HostRuntime) {
    assert!(rt; is_read_or_memory(rt.alloc()));
}
