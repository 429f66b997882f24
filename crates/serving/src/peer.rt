//! Whoever asks: messages are read from it, and replies written to it.
ghost use Rattle.std.specs.Prelude.{◌≡◌, true, false, OnOk, IfOk};
ghost use Rattle.std.specs.Io.KnownBytes.{Keeps};
ghost use Rattle.serving.specs.Messages.{TakesMessage, reply_view, reply_bytes};
ghost use Rattle.serving.specs.private.Replying.{Puts};
ghost use Rattle.printing.specs.Writing.{Writes};

use crate::message::{Message, take_message};
use crate::reply::Reply;
use crate::stop::Stop;
use byteorder::{BigEndian, ByteOrder};
use printing::{WriteFailed, put_bytes};
use std::alloc::{AllocError, Global};
use std::io::{Read, Write};

/// Whoever asks. No message is read before all that was written has gone out.
#[derive(Drop)]
pub struct Peer<R, W> {
    /// The messages come from here.
    pub input: R,
    /// The replies go there.
    pub output: W,
    /// Whether nothing was written, or it was flushed since.
    pub is_flushed: bool,
}

impl<R: Read, W: Write> Peer<R, W> {
    /// Nothing is read and written yet.
    pub fn new(input: R, output: W) -> Peer<R, W>
        ensures input { result.input ≡ input }
        ensures output { result.output ≡ output }
        ensures flushed { result.is_flushed ≡ true }
    {
        Peer {
            input,
            output,
            is_flushed: true,
        }
    }

    /// Reads the next message, if there is one.
    pub fn next(&mut self, alloc: Global) -> Result<Option<Message>, Stop>
        requires flushed { self.old.is_flushed ≡ true }
        ensures message { TakesMessage (R.remaining self.old.input) (R.remaining self.new.input) result }
        ensures output { self.new.output ≡ self.old.output }
        ensures flushed { self.new.is_flushed ≡ true }
    {
        take_message(alloc, &mut self.input)
    }

    /// Writes these bytes.
    fn put(&mut self, bytes: &[u8]) -> Result<(), WriteFailed>
        ensures written { Writes (W.contents self.old.output) (W.contents self.new.output) bytes.now result }
        ensures input { self.new.input ≡ self.old.input }
        ensures flushed { self.new.is_flushed ≡ false }
    {
        self.is_flushed = false;
        put_bytes(&mut self.output, bytes)
    }

    /// Lets all that was written go out.
    fn flush(&mut self) -> Result<(), WriteFailed>
        ensures kept { Keeps (W.contents self.old.output) (W.contents self.new.output) }
        ensures input { self.new.input ≡ self.old.input }
        ensures flushed { OnOk result (self.new.is_flushed ≡ true) }
    {
        match self.output.flush() {
            Ok(()) => {
                self.is_flushed = true;
                Ok(())
            }
            Err(_) => Err(WriteFailed),
        }
    }

    /// Writes a reply, and lets it go out. A text of 4 GiB or more is none, as where memory runs out.
    pub fn reply(&mut self, alloc: Global, reply: &Reply) -> Result<(), Stop>
        ensures written { Puts (W.contents self.old.output) (W.contents self.new.output)
            (reply_bytes (reply_view reply.now)) result }
        ensures input { self.new.input ≡ self.old.input }
        ensures flushed { OnOk result (self.new.is_flushed ≡ true) }
    {
        let bytes = bytes_of(alloc, reply)?;
        match self.put(&bytes) {
            Ok(()) => {}
            Err(WriteFailed) => return Err(Stop::NotWritten),
        }
        match self.flush() {
            Ok(()) => Ok(()),
            Err(WriteFailed) => Err(Stop::NotWritten),
        }
    }
}

/// The bytes of a reply.
fn bytes_of(alloc: Global, reply: &Reply) -> Result<Vec<u8>, AllocError>
    ensures { IfOk result (λ v. v.items ≡ reply_bytes (reply_view reply.now)) }
{
    let Ok(count) = u32::try_from(reply.text.len()) else {
        return Err(AllocError);
    };
    let mut head = [0u8; 4];
    BigEndian::write_u32(&mut head, count);
    let mut bytes = Vec::with_capacity(alloc, reply.text.len().saturating_add(5))?;
    bytes.push(reply.status)?;
    bytes.extend_from_slice(&head)?;
    bytes.extend_from_slice(&reply.text)?;
    Ok(bytes)
}
