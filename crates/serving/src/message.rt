//! Messages, and how they are read.
ghost use Rattle.std.specs.Prelude.{◌≡◌, ◌≢◌, ◌≤◌, ℕ, List, IfOk, IfErr, IfSome, IfNone, MatchOption, length};
ghost use Rattle.std.specs.Io.KnownBytes.{Consumes};
ghost use Rattle.serving.specs.Messages.{letter, TakesMessage};
ghost use Rattle.serving.specs.private.Taking.{IsFewer, TakesFirst, TakesBytes};
ghost use Rattle.serving.specs.declared.message.Kind.{Kind as KindFact};

use crate::stop::Stop;
use byteorder::{BigEndian, ByteOrder};
use layout::{MAX_CLASS_BYTES, ReadFault, Reading};
use std::alloc::Global;
use std::io::Read;

/// The kind of a message.
#[derive(Clone, Copy, Debug, PartialEq, Eq)]
pub enum Kind {
    /// `k`: a class is to be known.
    Known,
    /// `v`: a class is judged.
    Verify,
    /// `d`: a class is judged, and is known if nothing is refused.
    Define,
    /// `x`: a class is judged, and what is refused is explained.
    Explain,
    /// `f`: all known classes are forgotten.
    Forget,
}

/// A message.
#[derive(Debug, Drop)]
pub struct Message {
    pub kind: Kind,
    /// The bytes of a class file; those of `f` mean nothing.
    pub bytes: Vec<u8>,
}

/// The kind that a letter stands for.
fn kind_of(byte: u8) -> Option<Kind>
    ensures { MatchOption result ((kind : KindFact) → letter kind ≢ byte) (λ kind. letter kind ≡ byte) }
{
    match byte {
        b'k' => Some(Kind::Known),
        b'v' => Some(Kind::Verify),
        b'd' => Some(Kind::Define),
        b'x' => Some(Kind::Explain),
        b'f' => Some(Kind::Forget),
        _ => None,
    }
}

/// Reads so many bytes. Memory is asked for as they come.
fn take_bytes<R: Read>(alloc: Global, input: &mut R, n: usize) -> Result<Vec<u8>, Stop>
    requires { n ≤ 16777216 }
    ensures all { IfOk result (λ v. (length v.items ≡ n)
        × Consumes (R.remaining input.old) (R.remaining input.new) v.items) }
    ensures fewer { IfErr result (IsFewer n (R.remaining input.old) (R.remaining input.new)) }
{
    let mut reading = Reading::new(alloc);
    match reading.part(input, n) {
        Ok(()) => Ok(reading.into_bytes()),
        Err(fault) => match fault.why {
            ReadFault::OutOfMemory => Err(Stop::OutOfMemory),
            ReadFault::EndsEarly { .. } => Err(Stop::Cut),
            _ => Err(Stop::ReadFailed),
        },
    }
}

/// Reads the first byte of a message, if there is one.
fn take_first<R: Read>(alloc: Global, input: &mut R) -> Result<Option<u8>, Stop>
    ensures { TakesFirst (R.remaining input.old) (R.remaining input.new) result }
{
    match take_bytes(alloc, input, 1) {
        Ok(first) => Ok(Some(first[0])),
        Err(Stop::Cut) => Ok(None),
        Err(stop) => Err(stop),
    }
}

/// Reads the head of a message and then its bytes.
fn take_rest<R: Read>(alloc: Global, input: &mut R) -> Result<Vec<u8>, Stop>
    ensures { TakesBytes (R.remaining input.old) (R.remaining input.new) result }
{
    let head = take_bytes(alloc, input, 4)?;
    let count = BigEndian::read_u32(&head) as usize;
    if count > MAX_CLASS_BYTES {
        return Err(Stop::TooLong);
    }
    take_bytes(alloc, input, count)
}

/// Reads the next message, if the input does not end in front of it.
pub fn take_message<R: Read>(alloc: Global, input: &mut R) -> Result<Option<Message>, Stop>
    ensures { TakesMessage (R.remaining input.old) (R.remaining input.new) result }
{
    let Some(first) = take_first(alloc, input)? else {
        return Ok(None);
    };
    let Some(kind) = kind_of(first) else {
        return Err(Stop::NoKind);
    };
    match take_rest(alloc, input) {
        Ok(bytes) => Ok(Some(Message { kind, bytes })),
        Err(stop) => Err(stop),
    }
}
