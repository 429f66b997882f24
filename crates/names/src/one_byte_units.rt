//! Bytes that spell a unit each: those from 1 to 127, as most of a text are (JVMS 4.4.7).

ghost use Rattle.std.specs.Prelude.{◌≡◌, ◌+◌, ◌≤◌, true, length};
ghost use Rattle.names.specs.Units.{is_single};
ghost use Rattle.names.specs.Forms.{AreIn};

use crate::byte_lanes::{ByLanes, first_set};
use std::simd::prelude::*;

/// Bytes that spell a unit each, as a kind.
pub(crate) struct Single;

impl ByLanes for Single {
    ghost is = { is_single };

    fn has(b: u8) -> bool {
        is_single(b)
    }

    fn in_sixteen(bytes: &[u8], at: usize) -> usize {
        single_of_sixteen(bytes, at)
    }

    fn in_eight(bytes: &[u8], at: usize) -> usize {
        single_of_eight(bytes, at)
    }
}

/// Whether a byte spells a unit by itself.
#[inline(always)]
pub(crate) fn is_single(b: u8) -> bool
    ensures { result ≡ is_single b }
{
    matches!(b, 1..=127)
}

/// How many of the sixteen bytes from a place on spell a unit each, up to the first that does not.
#[inline(always)]
fn single_of_sixteen(bytes: &[u8], at: usize) -> usize
    requires { at + 16 ≤ length bytes.now }
    ensures { AreIn is_single bytes.now at 16 result }
{
    let v = u8x16::from_slice(&bytes[at..]);
    let stops = (v - u8x16::splat(1)).simd_ge(u8x16::splat(127));
    first_set(stops.to_bitmask(), 16)
}

/// How many of the eight bytes from a place on spell a unit each, up to the first that does not.
#[inline(always)]
fn single_of_eight(bytes: &[u8], at: usize) -> usize
    requires { at + 8 ≤ length bytes.now }
    ensures { AreIn is_single bytes.now at 8 result }
{
    let v = u8x8::from_slice(&bytes[at..]);
    let stops = (v - u8x8::splat(1)).simd_ge(u8x8::splat(127));
    first_set(stops.to_bitmask(), 8)
}

/// How many of thirty-two bytes spell a unit each, up to the first that does not.
#[inline(always)]
pub(crate) fn single_in_block(block: u8x32) -> usize
    requires { length block ≡ 32 }
    ensures { AreIn is_single block 0 32 result }
{
    let stops = (block - u8x32::splat(1)).simd_ge(u8x32::splat(127));
    first_set(stops.to_bitmask(), 32)
}
