//! The trait that all parts of a format share.

ghost use Rattle.std.specs.Prelude.{◌≡◌, ◌+◌, ◌<◌, ◌≤◌, ℕ, List, [], ◌++◌, length, Ok, Err, Option, Some, None, MatchResult};
ghost use Rattle.byteorder.specs.Endian.{big_bytes};
ghost use Rattle.layout.specs.declared.fault.WriteFault.TheVariants.{OutOfMemory, DoesNotFit};
ghost use Rattle.layout.specs.Place.{Place, Took};
ghost use Rattle.layout.specs.Faults.{ReadsUnlessMemory};
ghost use Rattle.layout.specs.declared.limits.TheConstants.{MAX_CLASS_BYTES};
ghost use Rattle.layout.specs.Pieces.{Piece, text, cannot, Puts};
ghost use Rattle.layout.specs.PieceLaws.{Writes, no_other, spells_if, spells_none, reads_back};
ghost use Rattle.layout.specs.Format.{AreBytes, Format, Spells, FirstFault, reads};
ghost use Rattle.layout.specs.declared.fault.ReadFault.{ReadFault};
ghost use Rattle.layout.specs.declared.fault.WriteFault.{WriteFault};
ghost use Rattle.layout.specs.FormatLaws.{reads_spells, spelled_reads, reads_fault, fault_reads, one_reading};

use crate::cursor::Cursor;
use crate::fault::{ReadFault, WriteFault};
use byteorder::{BigEndian, ByteOrder};
use std::alloc::Global;

/// A part of a format: values that are spelled by bytes.
///
/// An implementer names a relation between bytes and values, as a format (`specs/Format.antt`), and
/// what a value is written as, and proves the one law `written` about the two. All the other laws
/// follow for every format: no value has two spellings, no spelling begins another, `take` answers
/// exactly what is spelled in front or the first fault, and `put` writes exactly the spelling,
/// where there is one within the limits.
pub trait Part<'a>: Sized {
    // The values, without where their slices lie in memory.
    ghost View: { Type 0 };

    ghost view: { Self → View };

    // Which bytes spell a value, part by part.
    ghost format: { Format View };

    /// Takes the value that the bytes in front spell, and exactly these bytes, or returns the first
    /// fault, or 1; an error leaves the cursor as it was.
    fn take(alloc: Global, cursor: &mut Cursor<'a>) -> Result<Self, ReadFault>
        ensures { ReadsUnlessMemory format view cursor.old cursor.new result };

    // The pieces that a value is written as.
    ghost pieces: { View → List Piece };

    /// Appends the value's spelling, or returns 17 where it is too large and otherwise 18 where it
    /// has none, or 1; an error leaves the vector as it was.
    fn put(&self, out: &mut Vec<u8>) -> Result<(), WriteFault>
        ensures { Puts (pieces (view self.now)) out.old.items out.new.items result };

    // The format spells exactly the values whose pieces are plain, each by its pieces.
    ghost written: { Writes format pieces };

    // No value has two spellings.
    ghost one_spelling: { (v : View) (a b : List ℕ)
        → AreBytes a → AreBytes b → Spells format a v → Spells format b v → a ≡ b } = { no_other written };

    // A value has a spelling where nothing is said against it, and otherwise none but one past the limit.
    ghost has_spelling: { (v : View) → cannot (pieces v) ≡ None
        → Spells format (text (pieces v)) v × (length (text (pieces v)) ≤ MAX_CLASS_BYTES) } = { spells_if written };

    ghost has_none: { (v : View) (e : WriteFault) (bytes : List ℕ)
        → cannot (pieces v) ≡ Some e → AreBytes bytes → Spells format bytes v
        → (e ≡ DoesNotFit) × (MAX_CLASS_BYTES < length bytes) } = { spells_none written };

    // A value that was read is written as it was.
    ghost writes_back: { (v : View) (bytes : List ℕ)
        → AreBytes bytes → length bytes ≤ MAX_CLASS_BYTES → Spells format bytes v
        → (cannot (pieces v) ≡ None) × (text (pieces v) ≡ bytes) } = { reads_back written };

    // No spelling begins another, and no bytes spell two values.
    ghost one_value: { (v w : View) (a b x : List ℕ)
        → Spells format a v → Spells format b w → a ≡ b ++ x → (x ≡ []) × (v ≡ w) } = { λ v w a b x. one_reading format a b x v w };

    // A value that is read is spelled by the bytes that were taken.
    ghost read_is_spelled: { (at : ℕ) (bytes : List ℕ) (x : View × Place)
        → reads format at bytes ≡ Ok x
        → (first : List ℕ) × Spells format first x.0 × Took first (record { at = at; rest = bytes }) x.1 } = { reads_spells format };

    // A value that is spelled in front is read.
    ghost spelled_is_read: { (at : ℕ) (first others : List ℕ) (v : View)
        → Spells format first v
        → reads format at (first ++ others) ≡ Ok (v, record { at = at + length first; rest = others }) } = { spelled_reads format };

    // A refusal is the first fault, and the first fault is the refusal.
    ghost refused_is_fault: { (at : ℕ) (bytes : List ℕ) (e : ReadFault)
        → reads format at bytes ≡ Err e → FirstFault format at bytes e } = { reads_fault format };

    ghost fault_is_refused: { (at : ℕ) (bytes : List ℕ) (e : ReadFault)
        → FirstFault format at bytes e → reads format at bytes ≡ Err e } = { fault_reads format };
}

/// A number of two bytes, the high byte first.
impl<'a> Part<'a> for u16 {
    ghost use Rattle.std.specs.Prelude.{ℕ};
    ghost use Rattle.layout.specs.Format.{number};
    ghost use Rattle.layout.specs.Pieces.{field};
    ghost use Rattle.layout.specs.FormatLaws.{number_2};
    ghost use Rattle.layout.specs.PieceLaws.{made_number};

    ghost View = { ℕ };

    ghost view = { λ n. n };

    ghost format = { number 2 };

    ghost pieces = { field 2 };

    ghost written = { made_number 2 number_2 };

    fn take(_alloc: Global, cursor: &mut Cursor<'a>) -> Result<u16, ReadFault> {
        cursor.u2()
    }

    fn put(&self, out: &mut Vec<u8>) -> Result<(), WriteFault> {
        put_u2(out, *self)
    }
}

/// Appends a number of two bytes.
fn put_u2(out: &mut Vec<u8>, n: u16) -> Result<(), WriteFault>
    ensures { MatchResult result
        (λ _. out.new.items ≡ out.old.items ++ big_bytes 2 n)
        (λ e. (e ≡ OutOfMemory) × (out.new.items ≡ out.old.items)) }
{
    let mut bytes = [0u8; 2];
    BigEndian::write_u16(&mut bytes, n);
    out.extend_from_slice(&bytes)?;
    Ok(())
}
