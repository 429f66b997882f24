//! The answer of each command on files, read or not, and how much of it a writer takes that fails.
use answers::{AnswerFault, Command, Form, answer, one_answer};
use classfile::{CutShort, Profile};
use format_calls::making::{K, O};
use layout::ReadFault;
use lower_calls::making::hasher;
use std::alloc::{AllocError, Global};
use std::io::{self, Write};
use std::test::*;

/// A file as it was read.
type Read = Result<Vec<u8>, CutShort>;

/// Takes one byte at each write, and fails at the write that its number says.
#[derive(Drop)]
struct Slow {
    left: usize,
    taken: Vec<u8>,
}

impl Write for Slow {
    ghost use Rattle.std.specs.Prelude.{Some};

    ghost contents = { λ s. Some s.taken.items };

    fn write(&mut self, buf: &[u8]) -> io::Result<usize> {
        if self.left == 0 {
            return Err(io::Error::from(io::ErrorKind::BrokenPipe));
        }
        self.left -= 1;
        match buf {
            [] => Ok(0),
            [byte, ..] => {
                self.taken.push(*byte)?;
                Ok(1)
            }
        }
    }

    fn flush(&mut self) -> io::Result<()> {
        Ok(())
    }
}

/// Counts the bytes that it takes, with no memory.
#[derive(Drop)]
struct Counted {
    taken: usize,
}

impl Write for Counted {
    fn write(&mut self, buf: &[u8]) -> io::Result<usize> {
        self.taken = self.taken.saturating_add(buf.len());
        Ok(buf.len())
    }

    fn flush(&mut self) -> io::Result<()> {
        Ok(())
    }
}

#[test]
fn laws_are_called() {
    one_answer();
}

/// This class file and that of `java/lang/Object`, as they were read.
fn beside_object(alloc: Global, class: &[u8]) -> Result<Vec<Read>, AllocError> {
    let mut reads = Vec::new(alloc);
    reads.push(Ok(class.to_vec(alloc)?))?;
    reads.push(Ok(O.to_vec(alloc)?))?;
    Ok(reads)
}

/// Whether a writer that takes so many bytes takes so many of this text, which the command answers with this status,
/// and the answer fails where they are not all.
fn is_answered(
    alloc: Global,
    command: Command,
    reads: &[Read],
    left: usize,
    expected: (u8, &[u8]),
) -> bool {
    let (status, text) = expected;
    let mut out = Slow {
        left,
        taken: Vec::new(alloc),
    };
    let answered = match answer(alloc, command, reads, hasher(), &mut out) {
        Ok(told) => left >= text.len() && told == status,
        Err(fault) => left < text.len() && matches!(fault, AnswerFault::WriteFailed),
    };
    answered && out.taken.as_slice() == &text[..left.min(text.len())]
}

/// Whether that is so wherever the writer fails before so many bytes.
fn is_answered_before(
    alloc: Global,
    command: Command,
    reads: &[Read],
    most: usize,
    expected: (u8, &[u8]),
) -> bool {
    for left in 0..most {
        if !is_answered(alloc, command, reads, left, expected) {
            return false;
        }
    }
    true
}

/// Each command, and its answer on K.
const ANSWERS: [(Command, &[u8]); 8] = [
    (Command::Check(Form::Plain, Profile::Default), b"ok\n"),
    (
        Command::Check(Form::Json, Profile::Default),
        b"{\"kind\":\"file\",\"answer\":\"ok\"}\n",
    ),
    (
        Command::Show(Profile::Default),
        b"class K major 52 minor 0 flags 0021\nsuper java/lang/Object\nmethod 0009 f ()V\n  stack 0 locals 0\n  0 return\n",
    ),
    (
        Command::Verify(Form::Plain, Profile::Default),
        b"method f ()V verified\n",
    ),
    (
        Command::Verify(Form::Json, Profile::Dynamic),
        b"{\"kind\":\"method\",\"name\":\"f\",\"descriptor\":\"()V\",\"answer\":\"verified\"}\n",
    ),
    (
        Command::Play(Form::Plain, Profile::Dynamic),
        b"play verified\n",
    ),
    (
        Command::Play(Form::Json, Profile::Default),
        b"{\"kind\":\"play\",\"answer\":\"verified\"}\n",
    ),
    (
        Command::VerifyEach {
            form: Form::Plain,
            profile: Profile::Default,
            classes: 1,
        },
        b"file 1 K\nmethod f ()V verified\n",
    ),
];

#[test]
fn a_writer_that_fails(rt: HostRuntime) -> Result<(), Fail> {
    let reads = beside_object(rt.alloc(), &K)?;
    for (command, text) in &ANSWERS {
        assert!(rt; is_answered_before(rt.alloc(), *command, &reads, 120, (0, *text)));
    }
    Ok(())
}

const EXPLAIN: Command = Command::Explain(Form::Plain, Profile::Default);

/// K with another byte at this place, and `java/lang/Object`, as they were read.
fn with_byte(alloc: Global, place: usize, byte: u8) -> Result<Vec<Read>, AllocError> {
    let mut bytes = K;
    if place < bytes.len() {
        bytes[place] = byte;
    }
    beside_object(alloc, &bytes)
}

const FALLS: &[u8] =
    b"method f ()V refused 71 at 0\n  71 FallsOff: the last instruction of the code goes on\n  stack 0 locals 0\n  0 nop\n  locals\n  stack\n";

const ADDS: &[u8] =
    b"method f ()V refused 61 at 0\n  61 MissingOperand: the stack holds fewer operands than the instruction takes\n  stack 0 locals 0\n  0 iadd\n  locals\n  stack\n  operand 2 of 2: expected int, found none\n";

const BROKEN: &[u8] =
    b"class refused 20 pool 1\n  20 BadIndex: an index is 0 where it may not be, past the constant pool, or the second one of a Long or Double\n  constant 1 Class #9\n";

/// A place of K, another byte there, and how the class is explained: a method whose code is one `nop`, one whose code
/// is one `iadd`, and a class whose name is at an index past the constant pool.
const EXPLAINED: [(usize, u8, &[u8]); 3] = [(90, 0, FALLS), (90, 0x60, ADDS), (12, 9, BROKEN)];

#[test]
fn explanations_that_are_cut(rt: HostRuntime) -> Result<(), Fail> {
    for (place, byte, text) in &EXPLAINED {
        let reads = with_byte(rt.alloc(), *place, *byte)?;
        assert!(rt; is_answered_before(rt.alloc(), EXPLAIN, &reads, 200, (1, *text)));
    }
    Ok(())
}

/// The status and the text of `check` for a file that was not read.
fn unread(alloc: Global, why: ReadFault) -> Result<(Result<u8, AnswerFault>, Vec<u8>), AllocError> {
    let mut reads = Vec::new(alloc);
    reads.push(Err(CutShort {
        bytes: Vec::new(alloc),
        why,
    }))?;
    let mut out: Vec<u8> = Vec::new(alloc);
    let status = answer(
        alloc,
        Command::Check(Form::Plain, Profile::Default),
        &reads,
        hasher(),
        &mut out,
    );
    Ok((status, out))
}

#[test]
fn files_that_are_not_read(rt: HostRuntime) -> Result<(), Fail> {
    let (status, text) = unread(rt.alloc(), ReadFault::ReadFailed { at: 50 })?;
    assert!(rt; matches!(status, Ok(2)) && text.as_slice() == b"refused 15 at 50\n".as_slice());
    let (status, text) = unread(rt.alloc(), ReadFault::OutOfMemory)?;
    assert!(rt; matches!(status, Err(AnswerFault::OutOfMemory)) && text.is_empty());
    let mut out = Counted { taken: 0 };
    let none = answer(
        rt.alloc(),
        Command::Verify(Form::Plain, Profile::Default),
        &[],
        hasher(),
        &mut out,
    );
    assert!(rt; matches!(none, Ok(0)) && out.taken == 0);
    Ok(())
}

/// Where memory runs out nothing is written, and otherwise an answer of this status and so many bytes.
fn is_whole_or_memory(
    alloc: Global,
    command: Command,
    reads: Result<Vec<Read>, AllocError>,
    expected: (u8, usize),
) -> bool {
    let Ok(reads) = reads else {
        return true;
    };
    let mut out = Counted { taken: 0 };
    match answer(alloc, command, &reads, hasher(), &mut out) {
        Ok(status) => (status, out.taken) == expected,
        Err(fault) => matches!(fault, AnswerFault::OutOfMemory) && out.taken == 0,
    }
}

#[test]
fn memory_runs_out_for_an_answer(rt: HostRuntime) {
    let reads = beside_object(rt.alloc(), &K);
    assert!(rt;
        is_whole_or_memory(
            rt.alloc(),
            Command::Check(Form::Plain, Profile::Default),
            reads,
            (0, 3)
        )
    );
}

/// Where memory runs out nothing is written, and otherwise the whole explanation of so many bytes.
fn is_explained_or_memory(alloc: Global, place: usize, byte: u8, size: usize) -> bool {
    is_whole_or_memory(alloc, EXPLAIN, with_byte(alloc, place, byte), (1, size))
}

#[test]
fn memory_runs_out_for_an_explanation(rt: HostRuntime) {
    assert!(rt; is_explained_or_memory(rt.alloc(), 90, 0, 129));
    assert!(rt; is_explained_or_memory(rt.alloc(), 90, 0x60, 196));
    assert!(rt; is_explained_or_memory(rt.alloc(), 12, 9, 158));
}
