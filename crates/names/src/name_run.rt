//! How far class names go on in the bytes of a descriptor: sixteen bytes at once, with what stands before each.

ghost use Rattle.std.specs.Prelude.{◌≡◌, ◌+◌, ◌≤◌, ◌<◌, ◌^◌, nat_eq, length};
ghost use Rattle.names.specs.Names.{slash};
ghost use Rattle.names.specs.Reading.{goes_on};
ghost use Rattle.names.specs.private.TypeEnds.{AreStops, AreStopsUpTo, GoesOnUpTo};

use crate::name::is_name_byte;
use std::simd::prelude::*;

/// Whether a class name goes on with the byte, after the other.
fn goes_on(before: u8, b: u8) -> bool
    ensures { result ≡ goes_on (nat_eq before slash) b }
{
    is_name_byte(b) || (b == b'/' && before != b'/')
}

/// For sixteen bytes from a place on a bit each: set where no class name goes on with it, after the byte before it.
#[inline(always)]
fn stops_in_sixteen(bytes: &[u8], at: usize) -> u64
    requires behind { 1 ≤ at }
    requires room { at + 16 ≤ length bytes.now }
    ensures few { result < 2 ^ 16 }
    ensures stops { AreStops bytes.now at 16 result }
{
    let v = u8x16::from_slice(&bytes[at..]);
    let before = u8x16::from_slice(&bytes[at - 1..]);
    let slash = u8x16::splat(b'/');
    let others = v.simd_eq(u8x16::splat(b'.'))
        | v.simd_eq(u8x16::splat(b';'))
        | v.simd_eq(u8x16::splat(b'['));
    let stops = others | (v.simd_eq(slash) & before.simd_eq(slash));
    stops.to_bitmask()
}

/// Answers as [`run_end`] does, byte by byte.
fn run_end_of_few(bytes: &[u8], start: usize) -> usize
    requires behind { 1 ≤ start }
    requires within { start ≤ length bytes.now }
    ensures { GoesOnUpTo bytes.now start result }
{
    let mut at = start;
    while at < bytes.len() && goes_on(bytes[at - 1], bytes[at]) {
        at += 1;
    }
    at
}

/// For the first 64 bytes a bit each after the first, where there are more than sixteen: set where no class name goes
/// on with it, after the byte before it.
pub(crate) fn stops_in_front(bytes: &[u8]) -> u64
    ensures { 16 < length bytes.now → AreStopsUpTo bytes.now (length bytes.now) result }
{
    if bytes.len() <= 16 {
        return 0;
    }
    let mut stops = 0;
    let mut at = 1;
    while at < 64 && at < bytes.len() {
        let from = at.min(bytes.len() - 16);
        stops |= stops_in_sixteen(bytes, from) << from;
        at = from + 16;
    }
    stops
}

/// The first place from one on where no class name goes on, after the byte before it, or the end of the bytes. The
/// bytes' `stops` are those of [`stops_in_front`].
#[inline(always)]
pub(crate) fn name_end(bytes: &[u8], start: usize, stops: u64) -> usize
    requires behind { 1 ≤ start }
    requires within { start ≤ length bytes.now }
    requires stops { 16 < length bytes.now → AreStopsUpTo bytes.now (length bytes.now) stops }
    ensures { GoesOnUpTo bytes.now start result }
{
    if bytes.len() > 16 && start < 64 {
        let ahead = stops >> start;
        let end = start + ahead.trailing_zeros() as usize;
        if ahead != 0 && end < bytes.len() {
            return end;
        }
    }
    run_end(bytes, start)
}

/// The first place from one on where no class name goes on, after the byte before it, or the end of the bytes.
#[inline(never)]
fn run_end(bytes: &[u8], start: usize) -> usize
    requires behind { 1 ≤ start }
    requires within { start ≤ length bytes.now }
    ensures { GoesOnUpTo bytes.now start result }
{
    if bytes.len() <= 16 {
        return run_end_of_few(bytes, start);
    }
    let mut at = start;
    while at < bytes.len() {
        let from = at.min(bytes.len() - 16);
        let stops = stops_in_sixteen(bytes, from) >> (at - from);
        if stops != 0 {
            return at + stops.trailing_zeros() as usize;
        }
        at = from + 16;
    }
    at
}
