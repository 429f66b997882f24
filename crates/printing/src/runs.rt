//! Names in runs: units in a row that stand as they are go out at once, and any other by itself.
ghost use Rattle.std.specs.Prelude.{◌≡◌, ◌+◌, ◌≤◌, ℕ, List, true, length};
ghost use Rattle.std.specs.List.{flat_map};
ghost use Rattle.names.specs.Units.{units_of};
ghost use Rattle.printing.specs.private.Runs.{StandsAlone, StandIn, StandInFront};
ghost use Rattle.printing.specs.Writing.{Writes};

use crate::print::{WriteFailed, put_bytes};
use names::unit_at;
use std::io::Write;

/// A way to write the units of a name. Units of ASCII may stand as they are.
pub(crate) trait Escapes {
    ghost text: { ℕ → List ℕ };

    /// Whether a byte is seen to spell a unit that stands as it is.
    fn stands(byte: u8) -> bool
        ensures { result ≡ true → StandsAlone text byte };

    /// How many of the sixteen bytes from a place on are seen to spell units that stand as they are, up to the first
    /// that is not.
    fn in_sixteen(bytes: &[u8], at: usize) -> usize
        requires { at + 16 ≤ length bytes.now }
        ensures { StandIn text bytes.now at 16 result };

    /// Writes the text of a unit.
    fn put_unit<W: Write>(out: &mut W, unit: u16) -> Result<(), WriteFailed>
        ensures { Writes (W.contents out.old) (W.contents out.new) (text unit) result };
}

/// How many bytes in front are seen to stand as they are, sixteen at a time.
fn sixteens_in_front<E: Escapes>(bytes: &[u8]) -> usize
    ensures { StandInFront E.text bytes.now result }
{
    let mut at = 0;
    while bytes.len() - at >= 16 {
        let n = E::in_sixteen(bytes, at);
        at += n;
        if n < 16 {
            return at;
        }
    }
    at
}

/// How many bytes in front are seen to stand as they are.
pub(crate) fn run_in_front<E: Escapes>(bytes: &[u8]) -> usize
    ensures { StandInFront E.text bytes.now result }
{
    let mut at = sixteens_in_front::<E>(bytes);
    while at < bytes.len() && E::stands(bytes[at]) {
        at += 1;
    }
    at
}

/// Writes the texts of the units that the bytes spell.
pub(crate) fn put_units<E: Escapes, W: Write>(bytes: &[u8], out: &mut W) -> Result<(), WriteFailed>
    ensures { Writes (W.contents out.old) (W.contents out.new) (flat_map E.text (units_of bytes.now)) result }
{
    let mut rest = bytes;
    'units: loop {
        let (run, behind) = rest.split_at(run_in_front::<E>(rest));
        match put_bytes(out, run) {
            Ok(()) => {}
            Err(failed) => return Err(failed),
        }
        match unit_at(behind) {
            None => return Ok(()),
            Some((unit, n)) => {
                match E::put_unit(out, unit) {
                    Ok(()) => {}
                    Err(failed) => return Err(failed),
                }
                let (_, after) = behind.split_at(n);
                rest = after;
            }
        }
    }
}
