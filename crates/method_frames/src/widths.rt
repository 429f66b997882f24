//! How many units types take, by their numbers.
ghost use Rattle.std.specs.Prelude.{◌≡◌, ◌+◌, ◌≤◌, length};
ghost use Rattle.frames.specs.FrameAssignable.{width_of};
ghost use Rattle.frames.specs.Slots.{is_wide};
ghost use Rattle.type_numbers.specs.Numbers.{Numbering};
ghost use Rattle.type_numbers.specs.Decoding.{type_by};
ghost use Rattle.method_frames.specs.private.Counted.{IsCounted};

use type_numbers::tags;

/// Whether the type of a number is a long or a double.
#[inline(always)]
pub fn is_wide(number: u32) -> bool
    ensures { (s : Numbering) → result ≡ is_wide (type_by s number) }
{
    let tag = number / 0x0100_0000;
    tag == u32::from(tags::DOUBLE) || tag == u32::from(tags::LONG)
}

/// How many units an item takes beyond the first, by the number of its type.
#[inline(always)]
pub fn extra(number: u32) -> usize
    ensures units { (s : Numbering) → width_of (type_by s number) ≡ 1 + result }
    ensures few { result ≤ 1 }
{
    if is_wide(number) { 1 } else { 0 }
}

/// How many items are a long or a double.
pub fn wides(numbers: &[u32]) -> usize
    ensures { IsCounted numbers.now result }
{
    let mut count = 0;
    for i in 0..numbers.len() {
        count += extra(numbers[i]);
    }
    count
}
