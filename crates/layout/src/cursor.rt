//! Bytes that are read from left to right.

ghost use Rattle.std.specs.Prelude.{◌≡◌, ◌+◌, ◌<◌, ◌^◌, length};
ghost use Rattle.layout.specs.Place.{Place};
ghost use Rattle.layout.specs.Format.{part, done, number};
ghost use Rattle.layout.specs.Faults.{Reads};

use crate::fault::ReadFault;
use byteorder::{BigEndian, ByteOrder};
use std::marker::Model;

/// A place in bytes that are read from left to right: the bytes that are left, and how many came
/// before them.
///
/// No call takes memory. A call that is refused leaves the cursor where it was.
#[derive(Drop)]
pub struct Cursor<'a> {
    at: usize,
    rest: &'a [u8],
}

impl<'a> Model for Cursor<'a> {
    ghost use Rattle.std.specs.Prelude.{◌+◌, ◌<◌, ◌^◌, length};
    ghost use Rattle.layout.specs.Place.{Place};

    ghost Value = { Place };

    ghost view = { λ c. record { at = c.at; rest = c.rest.now } };

    ghost invariant = { λ c. c.at + length c.rest.now < 2 ^ 64 };
}

impl<'a> Cursor<'a> {
    /// A cursor at the first of these bytes.
    pub fn new(bytes: &'a [u8]) -> Self
        ensures { result ≡ record { at = 0; rest = bytes.now } }
    {
        Cursor { at: 0, rest: bytes }
    }

    /// How many bytes came before: the place of the next byte.
    pub fn at(&self) -> usize
        ensures place { result ≡ self.now.at }
        // an offset after any of the bytes that are left fits
        ensures within { self.now.at + length self.now.rest < 2 ^ 64 }
    {
        self.at
    }

    /// The bytes that are left.
    pub fn rest(&self) -> &'a [u8]
        ensures { result.now ≡ self.now.rest }
    {
        self.rest
    }

    /// A cursor at the first of these bytes, before which `at` others stand elsewhere.
    pub fn starting(at: usize, bytes: &'a [u8]) -> Self
        requires { at + length bytes.now < 2 ^ 64 }
        ensures { result ≡ record { at = at; rest = bytes.now } }
    {
        Cursor { at, rest: bytes }
    }

    /// Another cursor at this place.
    pub fn fork(&self) -> Cursor<'a>
        ensures { result ≡ self.now }
    {
        Cursor {
            at: self.at,
            rest: self.rest,
        }
    }

    /// Takes the next `n` bytes, or returns 2 `EndsEarly` at this place where fewer are left.
    pub fn part(&mut self, n: usize) -> Result<&'a [u8], ReadFault>
        ensures { Reads (part n done) (λ bytes. bytes.now) self.old self.new result }
    {
        if self.rest.len() < n {
            return Err(ReadFault::EndsEarly { at: self.at });
        }
        let (front, rest) = self.rest.split_at(n);
        self.rest = rest;
        self.at += n;
        Ok(front)
    }

    /// Takes a number of one byte, or returns 2 `EndsEarly` at this place.
    pub fn u1(&mut self) -> Result<u8, ReadFault>
        ensures { Reads (number 1) (λ n. n) self.old self.new result }
    {
        let front = self.part(1)?;
        Ok(front[0])
    }

    /// Takes a number of two bytes, the high byte first, or returns 2 `EndsEarly` at this place.
    pub fn u2(&mut self) -> Result<u16, ReadFault>
        ensures { Reads (number 2) (λ n. n) self.old self.new result }
    {
        let front = self.part(2)?;
        Ok(BigEndian::read_u16(front))
    }

    /// Takes a number of four bytes, the highest byte first, or returns 2 `EndsEarly` at this
    /// place.
    pub fn u4(&mut self) -> Result<u32, ReadFault>
        ensures { Reads (number 4) (λ n. n) self.old self.new result }
    {
        let front = self.part(4)?;
        Ok(BigEndian::read_u32(front))
    }
}
