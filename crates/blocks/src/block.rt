//! Blocks of 16 numbers, compared by lanes.
ghost use Rattle.std.specs.Prelude.{◌≡◌, ◌≤◌, ◌<◌, ◌+◌, ◌*◌, ◌/◌, ◌%◌, ◌^◌, ◌↔◌, length, IsTrue};
ghost use Rattle.blocks.specs.Rows.{is_decided};
ghost use Rattle.blocks.specs.private.Blocks.{place_in, AreEqual, IsFirstLane, IsFirstNewLane, IsFirstUnequalLane};

use crate::lanes::decided_lanes;
use std::simd::u32x8;

/// The number of Top, which every type fits.
const TOP: u32 = 0;

/// The greatest number. Where it is in both blocks a lane is compared by itself.
const GREATEST: u32 = 0xFFFF_FFFF;

/// Whether numbers alone show that the first fits the second: they are equal, or Top is wanted.
#[inline(always)]
pub(crate) fn is_decided(number: u32, wanted: u32) -> bool
    ensures { result ≡ is_decided number wanted }
{
    number == wanted || wanted == TOP
}

/// The place of a slot in the nodes of a level on its way down the tree.
#[inline(always)]
pub(crate) fn place_in(slot: usize, level: u32) -> usize
    requires { level < 4 }
    ensures place { result ≡ place_in slot level }
    ensures low { result < 16 }
{
    (slot >> (4 * level)) % 16
}

/// The first lane from one on that is not decided, or 16, eight lanes at a time. The last eight may begin before the
/// others end.
#[inline(always)]
fn first_by_eight(numbers: &[u32], wanted: &[u32], from: usize) -> usize
    requires numbers { length numbers.now ≡ 16 }
    requires wanted { length wanted.now ≡ 16 }
    requires from { from ≤ 8 }
    ensures { IsFirstLane numbers.now wanted.now from result }
{
    let decided = decided_lanes::<TOP, true>(
        u32x8::from_slice(&numbers[from..]),
        u32x8::from_slice(&wanted[from..]),
    );
    if decided != 8 {
        return from + decided;
    }
    let last = decided_lanes::<TOP, true>(
        u32x8::from_slice(&numbers[8..]),
        u32x8::from_slice(&wanted[8..]),
    );
    8 + last
}

/// The first lane from one on that is not decided, or 16.
pub(crate) fn first_lane(numbers: &[u32; 16], wanted: &[u32; 16], from: usize) -> usize
    requires { from < 16 }
    ensures { IsFirstLane numbers.now wanted.now from result }
{
    if from <= 8 {
        return first_by_eight(numbers, wanted, from);
    }
    let mut lane = from;
    while lane < 16 && is_decided(numbers[lane], wanted[lane]) {
        lane += 1;
    }
    lane
}

/// How many of the eight lanes from one on hold equal numbers, up to the first that do not or hold the greatest number.
#[inline(always)]
fn equal_lanes(numbers: &[u32], others: &[u32], from: usize) -> usize
    requires numbers { length numbers.now ≡ 16 }
    requires others { length others.now ≡ 16 }
    requires from { from ≤ 8 }
    ensures few { result ≤ 8 }
    ensures equal { AreEqual numbers.now others.now from (from + result) }
{
    decided_lanes::<GREATEST, false>(
        u32x8::from_slice(&numbers[from..]),
        u32x8::from_slice(&others[from..]),
    )
}

/// The first lane from one on in which the numbers differ, or 16.
pub(crate) fn first_unequal_lane(numbers: &[u32; 16], others: &[u32; 16], from: usize) -> usize
    requires { from < 16 }
    ensures { IsFirstUnequalLane numbers.now others.now from result }
{
    let mut lane = from;
    if from <= 8 {
        lane += equal_lanes(numbers, others, from);
        if lane == from + 8 {
            lane = 8 + equal_lanes(numbers, others, 8);
        }
    }
    while lane < 16 && numbers[lane] == others[lane] {
        lane += 1;
    }
    lane
}

/// The first lane from one on that is not decided and does not hold what a third block does, or 16.
pub(crate) fn first_new_lane(
    numbers: &[u32; 16],
    wanted: &[u32; 16],
    fitting: &[u32; 16],
    from: usize,
) -> usize
    requires { from < 16 }
    ensures { IsFirstNewLane numbers.now wanted.now fitting.now from result }
{
    let mut lane = first_unequal_lane(numbers, fitting, from);
    while lane < 16 && is_decided(numbers[lane], wanted[lane]) {
        lane += 1;
        if lane < 16 {
            lane = first_unequal_lane(numbers, fitting, lane);
        }
    }
    lane
}
