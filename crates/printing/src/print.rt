//! Texts that are written piece by piece, with no memory of their own.
ghost use Rattle.std.specs.Prelude.{◌≡◌, ◌++◌, ℕ, List};
ghost use Rattle.std.specs.List.{flat_map};
ghost use Rattle.printing.specs.Writing.{Writes};

use itoa::{Buffer, Integer};
use std::io::Write;

/// A write failed or took nothing. A prefix of the text was written until then.
#[derive(Debug, Clone, Copy)]
pub struct WriteFailed;

/// A value that has a text.
pub trait Print {
    ghost text: { Self → List ℕ };

    /// Writes the text, all of it or up to a write that fails.
    fn put<W: Write>(&self, out: &mut W) -> Result<(), WriteFailed>
        ensures { Writes (W.contents out.old) (W.contents out.new) (text self.now) result };
}

/// Writes all the bytes, however many a write takes at a time.
pub fn put_bytes<W: Write>(out: &mut W, bytes: &[u8]) -> Result<(), WriteFailed>
    ensures { Writes (W.contents out.old) (W.contents out.new) bytes.now result }
{
    if bytes.is_empty() {
        return Ok(());
    }
    match out.write(bytes) {
        Ok(n) if n == bytes.len() => Ok(()),
        Ok(0) => Err(WriteFailed),
        Ok(n) => put_rest(out, bytes.split_at(n).1),
        Err(_) => Err(WriteFailed),
    }
}

/// Writes the bytes that a write left. It stands apart, so that one write is inlined, and no loop.
#[cold]
#[inline(never)]
fn put_rest<W: Write>(out: &mut W, bytes: &[u8]) -> Result<(), WriteFailed>
    ensures { Writes (W.contents out.old) (W.contents out.new) bytes.now result }
{
    let mut rest = bytes;
    while !rest.is_empty() {
        match out.write(rest) {
            Ok(0) => return Err(WriteFailed),
            Ok(n) => {
                let (_, behind) = rest.split_at(n);
                rest = behind;
            }
            Err(_) => return Err(WriteFailed),
        }
    }
    Ok(())
}

/// A text that consists of these characters.
#[derive(Clone, Copy)]
pub struct Word<'a>(pub &'a str);

impl<'a> Print for Word<'a> {
    ghost text = { λ t. t.0.now };

    fn put<W: Write>(&self, out: &mut W) -> Result<(), WriteFailed> {
        put_bytes(out, self.0.as_bytes())
    }
}

/// A number in decimal digits, after `-` where it is negative.
#[derive(Clone, Copy)]
pub struct Number<I>(pub I);

impl<I: Integer> Print for Number<I> {
    ghost text = { λ t. I.text t.0 };

    fn put<W: Write>(&self, out: &mut W) -> Result<(), WriteFailed> {
        let mut buffer = Buffer::new();
        put_bytes(out, buffer.format(self.0).as_bytes())
    }
}

/// One text and then another.
#[derive(Clone, Copy)]
pub struct Then<A, B>(pub A, pub B);

impl<A: Print, B: Print> Print for Then<A, B> {
    ghost text = { λ t. A.text t.0 ++ B.text t.1 };

    #[tactic(auto, using(crate::proofs::Writings::then_writes, crate::proofs::Writings::front_of_more))]
    fn put<W: Write>(&self, out: &mut W) -> Result<(), WriteFailed> {
        match self.0.put(out) {
            Ok(()) => self.1.put(out),
            Err(failed) => Err(failed),
        }
    }
}

/// A value that has a line for each item of a kind.
pub trait Lines<T> {
    ghost line: { Self → T → List ℕ };

    /// Writes the line of an item, all of it or up to a write that fails.
    fn put_line<W: Write>(&self, item: &T, out: &mut W) -> Result<(), WriteFailed>
        ensures { Writes (W.contents out.old) (W.contents out.new) (line self.now item.now) result };
}

/// Writes the lines of the items, one after the other.
pub fn put_lines<T, L: Lines<T>, W: Write>(
    lines: &L,
    items: &[T],
    out: &mut W,
) -> Result<(), WriteFailed>
    ensures { Writes (W.contents out.old) (W.contents out.new) (flat_map (L.line lines.now) items.now) result }
{
    for item in items {
        match lines.put_line(item, out) {
            Ok(()) => {}
            Err(failed) => return Err(failed),
        }
    }
    Ok(())
}
