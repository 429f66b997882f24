//! Bytes that are written part by part.
ghost use Rattle.std.specs.Prelude.{◌≡◌, ◌+◌, ◌-◌, ◌≤◌, ◌<◌, ℕ, List, [], ◌∷◌, length, true, false, ◌^◌, MatchResult};
ghost use Rattle.layout.specs.Pieces.{Piece, plain, field, blank, Goes, Delivers, Written};
ghost use Rattle.layout.specs.Faults.{UnlessWriteMemory};
ghost use Rattle.layout.specs.PieceLaws.{Begun, Ended};
ghost use Rattle.layout.specs.declared.fault.WriteFault.TheVariants.{DoesNotFit, OutOfMemory};

use crate::fault::WriteFault;
use crate::limits::MAX_CLASS_BYTES;
use byteorder::{BigEndian, ByteOrder};
use std::alloc::Global;
use std::marker::Model;

/// Bytes that are written part by part: what was written, how many more bytes there may be, and
/// whether something was met that no bytes spell.
///
/// A part without a spelling does not stop the writing, since a value that is also too large is
/// refused 17; want of room stops it at once. After an error an output is of no use.
#[derive(Drop)]
pub struct Output {
    bytes: Vec<u8>,
    room: usize,
    wrong: bool,
}

impl Model for Output {
    ghost use Rattle.layout.specs.Pieces.{Written};

    ghost Value = { Written };

    ghost view = { λ o. record { bytes = o.bytes.items; room = o.room; wrong = o.wrong } };
}

impl Output {
    /// Nothing written yet, with room for [`MAX_CLASS_BYTES`] bytes.
    pub fn new(alloc: Global) -> Output
        ensures { result ≡ blank }
    {
        Output {
            bytes: Vec::new(alloc),
            room: MAX_CLASS_BYTES,
            wrong: false,
        }
    }

    /// Writes these bytes, or returns 17 where there is no room for them, or 1.
    pub fn put_bytes(&mut self, bytes: &[u8]) -> Result<(), WriteFault>
        ensures { Goes (plain bytes.now ∷ []) self.old self.new result }
    {
        if self.room < bytes.len() {
            return Err(WriteFault::DoesNotFit);
        }
        self.bytes.extend_from_slice(bytes)?;
        self.room -= bytes.len();
        Ok(())
    }

    /// Writes a number of one byte; errors as [`put_bytes`](Output::put_bytes).
    #[tactic(auto, unfolding(crate::specs::Pieces::field))]
    pub fn put_u1(&mut self, n: u8) -> Result<(), WriteFault>
        ensures { Goes (field 1 n) self.old self.new result }
    {
        self.put_bytes(&[n])
    }

    /// Writes a number of two bytes, the high byte first; errors as
    /// [`put_bytes`](Output::put_bytes).
    #[tactic(auto, unfolding(crate::specs::Pieces::field))]
    pub fn put_u2(&mut self, n: u16) -> Result<(), WriteFault>
        ensures { Goes (field 2 n) self.old self.new result }
    {
        let mut bytes = [0u8; 2];
        BigEndian::write_u16(&mut bytes, n);
        self.put_bytes(&bytes)
    }

    /// Writes a number of four bytes, the highest byte first; errors as
    /// [`put_bytes`](Output::put_bytes).
    #[tactic(auto, unfolding(crate::specs::Pieces::field))]
    pub fn put_u4(&mut self, n: u32) -> Result<(), WriteFault>
        ensures { Goes (field 4 n) self.old self.new result }
    {
        let mut bytes = [0u8; 4];
        BigEndian::write_u32(&mut bytes, n);
        self.put_bytes(&bytes)
    }

    /// Writes a count as a number of two bytes, or returns 17 where it is over 65,535, or there is
    /// no room; or 1.
    #[tactic(auto, unfolding(crate::specs::Pieces::field))]
    pub fn put_count(&mut self, n: usize) -> Result<(), WriteFault>
        ensures { Goes (field 2 n) self.old self.new result }
    {
        let Ok(count) = u16::try_from(n) else {
            return Err(WriteFault::DoesNotFit);
        };
        self.put_u2(count)
    }

    /// Notes that something was met that no bytes spell: 18, unless the whole is refused 17.
    pub fn put_nothing(&mut self)
        ensures { self.new ≡ record { bytes = self.old.bytes; room = self.old.room; wrong = true } }
    {
        self.wrong = true;
    }

    /// Leaves four bytes for a length, and returns the mark by which [`end`](Output::end) fills it
    /// in; or 17 where there is no room, or 1.
    pub fn begin(&mut self) -> Result<usize, WriteFault>
        ensures { MatchResult result
            (λ mark. Begun self.old self.new mark)
            (λ e. UnlessWriteMemory e ((e ≡ DoesNotFit) × (self.old.room < 4))) }
    {
        let mark = self.bytes.len();
        self.put_bytes(&[0, 0, 0, 0])?;
        Ok(mark)
    }

    /// Fills in, at the mark, the length of what was written after its four bytes, or returns 17
    /// where the length has no four bytes.
    pub fn end(&mut self, mark: usize) -> Result<(), WriteFault>
        requires { mark + 4 ≤ length self.now.bytes }
        ensures { MatchResult result
            (λ _. Ended mark self.old self.new)
            (λ e. (e ≡ DoesNotFit) × (256 ^ 4 ≤ length self.old.bytes - mark - 4)) }
    {
        let (_, behind) = self.bytes.split_at_mut(mark);
        let Ok(length) = u32::try_from(behind.len() - 4) else {
            return Err(WriteFault::DoesNotFit);
        };
        let (field, _) = behind.split_at_mut(4);
        BigEndian::write_u32(field, length);
        Ok(())
    }

    /// The answer for all that was written, where `answer` is that of the last step:
    /// the bytes, or 17, or 18 where nothing is too large and something has no spelling, or 1.
    pub fn delivered(self, answer: Result<(), WriteFault>) -> Result<Vec<u8>, WriteFault>
        ensures { (p : List Piece) → Goes p blank self answer → Delivers p (λ v. v.items) result }
    {
        match answer {
            Err(e) => Err(e),
            Ok(()) if self.wrong => Err(WriteFault::HasNoSpelling),
            Ok(()) => Ok(self.bytes),
        }
    }
}
