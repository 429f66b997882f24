//! Class names told by lanes: bytes of unqualified names, and between them a `/` with no other after it (JVMS 4.2.1).

ghost use Rattle.std.specs.Prelude.{◌≡◌, ◌+◌, ◌-◌, ◌≤◌, true, length};
ghost use Rattle.names.specs.Forms.{AreJoinedBetween};
ghost use Rattle.names.specs.Names.{IsClassName};

use crate::plain_bytes::is_plain;
use std::simd::prelude::*;

/// Whether each of sixteen bytes from a place on is seen to be one of a class name that the byte after it may follow.
#[inline(always)]
fn are_joined_in_sixteen(bytes: &[u8], at: usize) -> bool
    requires { at + 17 ≤ length bytes.now }
    ensures { result ≡ true → AreJoinedBetween bytes.now at (at + 16) }
{
    let v = u8x16::from_slice(&bytes[at..]);
    let next = u8x16::from_slice(&bytes[at + 1..]);
    let slash = u8x16::splat(b'/');
    let pairs = v.simd_eq(slash) & next.simd_eq(slash);
    let angles = u8x16::splat(b'>' - b';').simd_ge(v - u8x16::splat(b';'));
    let others = v.simd_eq(u8x16::splat(b'[')) | v.simd_eq(u8x16::splat(b'.'));
    let stops = pairs | angles | others;
    stops.to_bitmask() == 0
}

/// Whether each of eight bytes from a place on is seen to be one of a class name that the byte after it may follow.
#[inline(always)]
fn are_joined_in_eight(bytes: &[u8], at: usize) -> bool
    requires { at + 9 ≤ length bytes.now }
    ensures { result ≡ true → AreJoinedBetween bytes.now at (at + 8) }
{
    let v = u8x8::from_slice(&bytes[at..]);
    let next = u8x8::from_slice(&bytes[at + 1..]);
    let slash = u8x8::splat(b'/');
    let pairs = v.simd_eq(slash) & next.simd_eq(slash);
    let angles = u8x8::splat(b'>' - b';').simd_ge(v - u8x8::splat(b';'));
    let others = v.simd_eq(u8x8::splat(b'[')) | v.simd_eq(u8x8::splat(b'.'));
    let stops = pairs | angles | others;
    stops.to_bitmask() == 0
}

/// Whether each of seventeen bytes or more but for the last is seen to be such a byte, sixteen at a time. The last
/// sixteen may begin before the others end.
fn are_joined_by_sixteen(bytes: &[u8]) -> bool
    requires { 17 ≤ length bytes.now }
    ensures { result ≡ true → AreJoinedBetween bytes.now 0 (length bytes.now - 1) }
{
    let last = bytes.len() - 17;
    let mut at = 0;
    while at < last {
        if !are_joined_in_sixteen(bytes, at) {
            return false;
        }
        at += 16;
    }
    are_joined_in_sixteen(bytes, last)
}

/// Whether all bytes but the last are seen to be joined. Fewer than nine are not looked at.
fn are_joined(bytes: &[u8]) -> bool
    ensures { result ≡ true → AreJoinedBetween bytes.now 0 (length bytes.now - 1) }
{
    if bytes.len() >= 17 {
        are_joined_by_sixteen(bytes)
    } else if bytes.len() >= 9 {
        are_joined_in_eight(bytes, 0) && are_joined_in_eight(bytes, bytes.len() - 9)
    } else {
        false
    }
}

/// Whether the bytes are seen at once to be a class name, as most are. Takes no memory.
pub(crate) fn is_seen_as_class_name(bytes: &[u8]) -> bool
    ensures { result ≡ true → IsClassName bytes.now }
{
    let [first, .., last] = bytes else {
        return false;
    };
    if *first == b'/' || !is_plain(*last) {
        return false;
    }
    are_joined(bytes)
}
