//! Numbers compared eight at a time with those that are wanted: which two alone decide that the first fits the second.
ghost use Rattle.std.specs.Prelude.{◌≡◌, length};
ghost use Rattle.blocks.specs.Lanes.{is_decided_by, AreDecidedLanes};

use std::simd::prelude::*;

/// How many of eight numbers fit eight wanted ones by the two alone, up to the first that does not.
///
/// A number fits its equal. Where `MARK` is wanted, every number fits if `MARK_FITS`, and otherwise none.
#[inline(always)]
pub fn decided_lanes<const MARK: u32, const MARK_FITS: bool>(numbers: u32x8, wanted: u32x8) -> usize
    requires numbers { length numbers ≡ 8 }
    requires wanted { length wanted ≡ 8 }
    ensures { AreDecidedLanes (is_decided_by MARK MARK_FITS) numbers wanted 8 result }
{
    let mark = u32x8::splat(MARK);
    let undecided = if MARK_FITS {
        numbers.simd_ne(wanted) & wanted.simd_ne(mark)
    } else {
        numbers.simd_ne(wanted) | wanted.simd_eq(mark)
    };
    let mask = undecided.to_bitmask();
    if mask == 0 {
        8
    } else {
        mask.trailing_zeros() as usize
    }
}
