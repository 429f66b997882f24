//! The places, of rows or of an operand stack, that came to hold objects that are not initialized.
ghost use Rattle.std.specs.Prelude.{◌≡◌, ◌%◌};
ghost use Rattle.method_frames.specs.private.Holders.{key_of};

use crate::objects::is_uninitialized;
use std::alloc::{AllocError, Global};
use std::collections::BTreeSet;
use std::collections::btree_set::Range;

/// So many places are few.
const FEW: usize = 64;

/// The places that came to hold each object that is not initialized (JVMS 4.10.1.9, new and invokespecial). Some may
/// hold it no more.
///
/// A place is listed once for an object, however often it comes to hold it: so the places of an object are no more than
/// a frame has, and a frame that is taken on brings back none that is not listed.
#[derive(Drop)]
pub struct Holders {
    /// In each the number of an object, times 2 to the 32, and a place.
    keys: BTreeSet<u64>,
}

/// The key of an object and a place.
fn key_of(object: u32, place: u32) -> u64
    ensures { result ≡ key_of object place }
{
    u64::from(object) * 0x1_0000_0000 + u64::from(place)
}

/// The place in a key.
pub fn place_in(key: u64) -> usize
    ensures { result ≡ key % 4294967296 }
{
    (key % 0x1_0000_0000) as usize
}

impl Holders {
    ghost use Rattle.std.specs.Prelude.{◌≡◌, ℕ, true, OnOk};
    ghost use Rattle.method_frames.specs.Objects.{is_uninitialized};
    ghost use Rattle.method_frames.specs.private.Holders.{IsListed, KeepsListed, AreOf};

    /// No places.
    pub fn new(alloc: Global) -> Holders {
        Holders {
            keys: BTreeSet::new(alloc),
        }
    }

    /// Lists a place of an object. A place of 2 to the 32 or more is refused as if memory ran out. It stands apart, so
    /// that what [`list`](Holders::list) inlines stays small.
    #[inline(never)]
    fn put(&mut self, object: u32, place: usize) -> Result<(), AllocError>
        ensures kept { KeepsListed self.old self.new }
        ensures listed { OnOk result (IsListed self.new object place) }
    {
        if place > u32::MAX as usize {
            return Err(AllocError);
        }
        self.keys.insert(key_of(object, place as u32))?;
        Ok(())
    }

    /// Lists a place that comes to hold a type, by its number, where this is an object that is not initialized. The
    /// only refusal is 1, where memory runs out.
    #[inline(always)]
    pub fn list(&mut self, number: u32, place: usize) -> Result<(), AllocError>
        ensures kept { KeepsListed self.old self.new }
        ensures listed { OnOk result (is_uninitialized number ≡ true → IsListed self.new number place) }
    {
        if is_uninitialized(number) {
            self.put(number, place)?;
        }
        Ok(())
    }

    /// Whether none is listed.
    #[inline(always)]
    pub fn are_none(&self) -> bool
        ensures { result ≡ true → (object place : ℕ) → IsListed self.now object place → ⊥ }
    {
        self.keys.is_empty()
    }

    /// The keys of the places that came to hold an object, from the lowest up.
    pub fn of(&self, object: u32) -> Range<'_, u64>
        ensures { AreOf self.now object result }
    {
        self.keys
            .range(key_of(object, 0)..=key_of(object, u32::MAX))
    }

    /// Whether at most [`FEW`] places are listed for an object.
    pub fn are_few(&self, object: u32) -> bool {
        let mut left = FEW;
        for _key in self.of(object) {
            if left == 0 {
                return false;
            }
            left -= 1;
        }
        true
    }

    /// Forgets all.
    pub fn clear(&mut self) {
        self.keys.clear();
    }
}
