//! Rows of slots compared eight at a time: where equal slots do not decide.

ghost use Rattle.std.specs.Prelude.{◌≡◌, length};
ghost use Rattle.frames.specs.Packing.{absent_slot};
ghost use Rattle.frames.specs.Undecided.{is_undecided, IsFirstUndecided};

use blocks::lanes::decided_lanes;
use std::simd::u32x8;

/// The slot of each class that the hierarchy has not, and of each array of one.
pub const ABSENT: u32 = 0xFFFF_FFFF;

/// Whether two slots differ or stand for absent classes.
#[inline(always)]
pub(crate) fn is_undecided(a: u32, b: u32) -> bool
    ensures { result ≡ is_undecided a b }
{
    a != b || b == ABSENT
}

/// The first place from one on at which the slots of two rows differ or stand for absent classes. Takes no memory.
pub fn first_undecided(a: &[u32], b: &[u32], from: usize) -> Option<usize>
    requires { length a.now ≡ length b.now }
    ensures { IsFirstUndecided a.now b.now from result }
{
    let mut at = from;
    while at < a.len() && a.len() - at >= 8 {
        let decided = decided_lanes::<ABSENT, false>(
            u32x8::from_slice(&a[at..]),
            u32x8::from_slice(&b[at..]),
        );
        at += decided;
        if decided < 8 {
            return Some(at);
        }
    }
    while at < a.len() {
        if is_undecided(a[at], b[at]) {
            return Some(at);
        }
        at += 1;
    }
    None
}
