//! Bytes that are gathered from a reader.
ghost use Rattle.std.specs.Prelude.{◌≡◌, ◌⊎◌, ℕ, ◌+◌, ◌≤◌, ◌<◌, List, [], ◌++◌, length, take, drop, Option, MatchResult, IfOk, OnOk, OnErr, vec_capacity};
ghost use Rattle.std.specs.Io.KnownBytes.{Consumes, IsAtEnd};
ghost use Rattle.layout.specs.Format.{part, done, number};
ghost use Rattle.layout.specs.Gathered.{Gathered};
ghost use Rattle.layout.specs.Streams.{Gives, Streams, count_of};
ghost use Rattle.layout.specs.declared.fault.ReadFault.TheVariants.{OutOfMemory, ReadFailed};
ghost use Rattle.layout.specs.declared.limits.TheConstants.{MAX_CLASS_BYTES};

use crate::fault::{ReadFault, StreamFault};
use crate::limits::MAX_CLASS_BYTES;
use byteorder::{BigEndian, ByteOrder};
use std::alloc::{AllocError, Global};
use std::io::Read;
use std::marker::Model;

/// The most bytes of memory beyond those that are held.
const PIECE: usize = 8_192;

/// The bytes that a reader has given so far, at most [`MAX_CLASS_BYTES`].
///
/// It never has memory for more than 8,192 bytes beyond those that it holds, and asks the reader for no byte that its
/// caller does not want.
#[derive(Drop)]
pub struct Reading {
    bytes: Vec<u8>,
}

impl Model for Reading {
    ghost use Rattle.std.specs.Prelude.{◌+◌, ◌≤◌, length, vec_capacity};
    ghost use Rattle.layout.specs.Gathered.{Gathered};
    ghost use Rattle.layout.specs.declared.limits.TheConstants.{MAX_CLASS_BYTES};

    ghost Value = { Gathered };

    ghost view = { λ r. record { bytes = r.bytes.items; capacity = vec_capacity r.bytes } };

    ghost invariant = { λ r. (vec_capacity r.bytes ≤ length r.bytes.items + 8192)
        × (length r.bytes.items ≤ MAX_CLASS_BYTES) };
}

impl Reading {
    /// Nothing read yet.
    pub fn new(alloc: Global) -> Reading
        ensures { result ≡ record { bytes = []; capacity = 0 } }
    {
        Reading {
            bytes: Vec::new(alloc),
        }
    }

    /// The bytes that were read.
    pub fn bytes(&self) -> &[u8]
        ensures value { result.now ≡ self.now.bytes }
        ensures within { length self.now.bytes ≤ MAX_CLASS_BYTES }
    {
        &self.bytes
    }

    /// The bytes that were read, with the memory that they have.
    pub fn into_bytes(self) -> Vec<u8>
        ensures value { result.items ≡ self.bytes }
        ensures capacity { vec_capacity result ≡ self.capacity }
        ensures bound { vec_capacity result ≤ length result.items + 8192 }
    {
        self.bytes
    }

    /// Reads `n` bytes after those that are held, and returns how many there were: fewer only where the reader ended.
    ///
    /// 1 where there is no memory for them, before anything is read; 15 where the reader fails, however it does: what
    /// it gave before stays, and it is not asked again.
    pub fn more<R: Read>(&mut self, reader: &mut R, n: usize) -> Result<usize, StreamFault>
        requires piece { n ≤ 8192 }
        requires within { length self.old.bytes + n ≤ MAX_CLASS_BYTES }
        ensures given { Gives n self.old.bytes self.new.bytes (R.remaining reader.old) (R.remaining reader.new) result }
        // No more memory was asked for.
        ensures bound { self.new.capacity ≤ length self.old.bytes + 8192 }
    {
        let held = self.bytes.len();
        if make_room(&mut self.bytes, n).is_err() {
            return Err(StreamFault {
                taken: held,
                why: ReadFault::OutOfMemory,
            });
        }
        let (_, piece) = self.bytes.split_at_mut(held);
        match fill(reader, piece) {
            Ok(filled) => {
                self.bytes.truncate(held + filled);
                Ok(filled)
            }
            Err(filled) => {
                let at = held + filled;
                self.bytes.truncate(at);
                Err(StreamFault {
                    taken: at,
                    why: ReadFault::ReadFailed { at },
                })
            }
        }
    }

    /// Reads a part of `n` bytes.
    ///
    /// 14 where it would pass [`MAX_CLASS_BYTES`], before anything of it is read; 2 where the reader ends within it; 15
    /// where the reader fails; 1 where memory runs out. Memory is asked for as the bytes come, and not for `n` of them.
    pub fn part<R: Read>(&mut self, reader: &mut R, n: usize) -> Result<(), StreamFault>
        ensures { Streams (part n done) (λ _. drop (length self.old.bytes) self.new.bytes)
            self.old.bytes self.new.bytes (R.remaining reader.old) (R.remaining reader.new) result }
    {
        let at = self.bytes.len();
        if n > MAX_CLASS_BYTES - at {
            return Err(StreamFault {
                taken: at,
                why: ReadFault::TooLong { at },
            });
        }
        let mut left = n;
        while left > 0 {
            let piece = left.min(PIECE);
            if self.more(reader, piece)? < piece {
                return Err(StreamFault {
                    taken: self.bytes.len(),
                    why: ReadFault::EndsEarly { at },
                });
            }
            left -= piece;
        }
        Ok(())
    }

    /// Reads a number of one byte; errors as [`part`](Reading::part).
    pub fn u1<R: Read>(&mut self, reader: &mut R) -> Result<u8, StreamFault>
        ensures { Streams (number 1) (λ n. n) self.old.bytes self.new.bytes (R.remaining reader.old)
            (R.remaining reader.new) result }
    {
        let at = self.bytes.len();
        self.part(reader, 1)?;
        Ok(self.bytes[at])
    }

    /// Reads a number of two bytes, the high byte first; errors as [`part`](Reading::part).
    pub fn u2<R: Read>(&mut self, reader: &mut R) -> Result<u16, StreamFault>
        ensures { Streams (number 2) (λ n. n) self.old.bytes self.new.bytes (R.remaining reader.old)
            (R.remaining reader.new) result }
    {
        let at = self.bytes.len();
        self.part(reader, 2)?;
        let (_, number) = self.bytes.split_at(at);
        Ok(BigEndian::read_u16(number))
    }

    /// Reads a number of four bytes, the highest byte first; errors as [`part`](Reading::part).
    pub fn u4<R: Read>(&mut self, reader: &mut R) -> Result<u32, StreamFault>
        ensures { Streams (number 4) (λ n. n) self.old.bytes self.new.bytes (R.remaining reader.old)
            (R.remaining reader.new) result }
    {
        let at = self.bytes.len();
        self.part(reader, 4)?;
        let (_, number) = self.bytes.split_at(at);
        Ok(BigEndian::read_u32(number))
    }
}

/// Appends `n` bytes, to be written over, where there is memory for them.
fn make_room(bytes: &mut Vec<u8>, n: usize) -> Result<(), AllocError>
    requires piece { n ≤ 8192 }
    requires old { vec_capacity bytes.old ≤ length bytes.old.items + 8192 }
    ensures front { take (length bytes.old.items) bytes.new.items ≡ bytes.old.items }
    ensures added { OnOk result (length bytes.new.items ≡ length bytes.old.items + n) }
    ensures unchanged { OnErr result (bytes.new.items ≡ bytes.old.items) }
    ensures bound { vec_capacity bytes.new ≤ length bytes.old.items + 8192 }
{
    if bytes.capacity() - bytes.len() < n {
        bytes.reserve_exact(PIECE)?;
    }
    for _ in 0..n {
        bytes.push_reserved(0);
    }
    Ok(())
}

/// Reads until the piece is full, the reader ends or it fails, and returns how many bytes were read: as an error where
/// it failed.
fn fill<R: Read>(reader: &mut R, piece: &mut [u8]) -> Result<usize, usize>
    ensures len { length piece.new ≡ length piece.old }
    ensures some { MatchResult result (λ n. n ≤ length piece.new) (λ n. n < length piece.new) }
    ensures bytes { Consumes (R.remaining reader.old) (R.remaining reader.new) (take (count_of result) piece.new) }
    ensures end { IfOk result (λ n. n < length piece.new → IsAtEnd (R.remaining reader.new)) }
{
    let mut at = 0;
    while at < piece.len() {
        match reader.read(&mut piece[at..]) {
            Ok(0) => return Ok(at),
            Ok(n) => at += n,
            Err(_) => return Err(at),
        }
    }
    Ok(at)
}
