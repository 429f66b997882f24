//! Plain bytes: those with which each name goes on, whatever stands before them. Most bytes of names are plain.

ghost use Rattle.std.specs.Prelude.{◌≡◌, ◌+◌, ◌≤◌, true, length};
ghost use Rattle.names.specs.Forms.{is_plain, ArePlainIn, IsPlainUpTo};

use crate::byte_lanes::{ByLanes, first_set};
use std::simd::prelude::*;

/// For each byte whether it is none of `.`, `/`, `;`, `<`, `>` and `[`.
static PLAIN: [bool; 256] = [
    true, true, true, true, true, true, true, true, true, true, true, true, true, true, true, true,
    true, true, true, true, true, true, true, true, true, true, true, true, true, true, true, true,
    true, true, true, true, true, true, true, true, true, true, true, true, true, true, false,
    false, true, true, true, true, true, true, true, true, true, true, true, false, false, true,
    false, true, true, true, true, true, true, true, true, true, true, true, true, true, true,
    true, true, true, true, true, true, true, true, true, true, true, true, true, true, false,
    true, true, true, true, true, true, true, true, true, true, true, true, true, true, true, true,
    true, true, true, true, true, true, true, true, true, true, true, true, true, true, true, true,
    true, true, true, true, true, true, true, true, true, true, true, true, true, true, true, true,
    true, true, true, true, true, true, true, true, true, true, true, true, true, true, true, true,
    true, true, true, true, true, true, true, true, true, true, true, true, true, true, true, true,
    true, true, true, true, true, true, true, true, true, true, true, true, true, true, true, true,
    true, true, true, true, true, true, true, true, true, true, true, true, true, true, true, true,
    true, true, true, true, true, true, true, true, true, true, true, true, true, true, true, true,
    true, true, true, true, true, true, true, true, true, true, true, true, true, true, true, true,
    true, true, true, true, true, true, true, true, true, true, true, true, true, true, true, true,
    true, true, true, true,
];

/// Whether names go on with the byte, whatever stands before it, and it is neither `<` nor `>`.
pub(crate) fn is_plain(b: u8) -> bool
    ensures { result ≡ true → is_plain b ≡ true }
{
    PLAIN[usize::from(b)]
}

/// How many of the sixteen bytes from a place on are seen to be plain, up to the first that is not, or is a `=`.
#[inline(always)]
fn plain_of_sixteen(bytes: &[u8], at: usize) -> usize
    requires { at + 16 ≤ length bytes.now }
    ensures { ArePlainIn bytes.now at 16 result }
{
    let v = u8x16::from_slice(&bytes[at..]);
    let dots = u8x16::splat(b'/' - b'.').simd_ge(v - u8x16::splat(b'.'));
    let angles = u8x16::splat(b'>' - b';').simd_ge(v - u8x16::splat(b';'));
    let stops = dots | angles | v.simd_eq(u8x16::splat(b'['));
    first_set(stops.to_bitmask(), 16)
}

/// How many of the eight bytes from a place on are seen to be plain, up to the first that is not, or is a `=`.
#[inline(always)]
fn plain_of_eight(bytes: &[u8], at: usize) -> usize
    requires { at + 8 ≤ length bytes.now }
    ensures { ArePlainIn bytes.now at 8 result }
{
    let v = u8x8::from_slice(&bytes[at..]);
    let dots = u8x8::splat(b'/' - b'.').simd_ge(v - u8x8::splat(b'.'));
    let angles = u8x8::splat(b'>' - b';').simd_ge(v - u8x8::splat(b';'));
    let stops = dots | angles | v.simd_eq(u8x8::splat(b'['));
    first_set(stops.to_bitmask(), 8)
}

/// How many bytes from a place on are seen to be plain at once.
#[inline(always)]
fn plain_at_once(bytes: &[u8], at: usize) -> usize
    requires { at ≤ length bytes.now }
    ensures { IsPlainUpTo bytes.now at (at + result) }
{
    let left = bytes.len() - at;
    if left >= 16 {
        plain_of_sixteen(bytes, at)
    } else if left >= 8 {
        plain_of_eight(bytes, at)
    } else {
        0
    }
}

/// Where the plain bytes end that stand from a place on.
pub(crate) fn plain_end(bytes: &[u8], from: usize) -> usize
    requires { from ≤ length bytes.now }
    ensures { IsPlainUpTo bytes.now from result }
{
    let mut at = from + plain_at_once(bytes, from);
    while at < bytes.len() && is_plain(bytes[at]) {
        at += 1;
    }
    at
}

/// Plain bytes, as a kind.
pub(crate) struct Plain;

impl ByLanes for Plain {
    ghost is = { is_plain };

    fn has(b: u8) -> bool {
        is_plain(b)
    }

    fn in_sixteen(bytes: &[u8], at: usize) -> usize {
        plain_of_sixteen(bytes, at)
    }

    fn in_eight(bytes: &[u8], at: usize) -> usize {
        plain_of_eight(bytes, at)
    }
}
