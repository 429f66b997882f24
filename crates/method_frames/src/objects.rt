//! Objects that are not initialized, by the numbers of their types.
ghost use Rattle.std.specs.Prelude.{◌≡◌, true};
ghost use Rattle.method_frames.specs.Objects.{is_uninitialized, made_object, own_object};

use type_numbers::tags;

/// The number of the own object that is not initialized.
pub const OWN_OBJECT: u32 = 0x0600_0000;

/// The number of an object that the `new` at this offset made.
pub fn made_object(at: u16) -> u32
    ensures number { result ≡ made_object at }
    ensures object { is_uninitialized result ≡ true }
{
    0x0800_0000 + u32::from(at)
}

/// Whether a number is that of an object that is not initialized.
#[inline(always)]
pub fn is_uninitialized(number: u32) -> bool
    ensures { result ≡ is_uninitialized number }
{
    let tag = number / 0x0100_0000;
    tag == u32::from(tags::UNINIT_THIS) || tag == u32::from(tags::UNINIT)
}
