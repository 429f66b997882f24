//! The locals that an entry of a stack map leaves.
ghost use Rattle.std.specs.Prelude.{◌≡◌, [], ◌∷◌, ◌++◌, length, slice_index, MatchOption, OnOk};
ghost use Rattle.frames.specs.DeclaredFrames.{is_uninit_this, has_uninit_this};
ghost use Rattle.frames.specs.Slots.{units_of};
ghost use Rattle.type_numbers.specs.Numbers.{Numbering};
ghost use Rattle.type_numbers.specs.Decoding.{type_by, types_by};

use crate::items::append;
use crate::widths::extra;
use std::alloc::AllocError;
use std::marker::Model;
use type_numbers::tags;

/// Whether the type of a number is that of the own object that is not initialized.
fn is_own(number: u32) -> bool
    ensures { (s : Numbering) → result ≡ is_uninit_this (type_by s number) }
{
    number / 0x0100_0000 == u32::from(tags::UNINIT_THIS)
}

/// The locals that an entry of a stack map leaves (JVMS 4.7.4), by the numbers of their types: a long or double is one
/// of them. In contracts they are a list from local 0 up.
#[derive(Drop)]
pub struct EntryLocals {
    numbers: Vec<u32>,
    /// How many of them are a long or a double.
    wides: usize,
    /// How many of them are the own object that is not initialized.
    own: usize,
}

impl Model for EntryLocals {
    ghost use Rattle.std.specs.Prelude.{ℕ, List};
    ghost use Rattle.method_frames.specs.private.EntryLocals.{AreSummed};

    ghost Value = { List ℕ };

    ghost view = { λ x. x.numbers.items };

    ghost invariant = { λ x. AreSummed x.numbers.items x.wides x.own };
}

impl EntryLocals {
    /// No locals, in memory that there is.
    pub fn within(memory: Vec<u32>) -> EntryLocals
        ensures { result ≡ [] }
    {
        let mut numbers = memory;
        numbers.clear();
        EntryLocals {
            numbers,
            wides: 0,
            own: 0,
        }
    }

    /// The memory that they take.
    pub fn into_memory(self) -> Vec<u32> {
        self.numbers
    }

    /// How many they are.
    pub fn count(&self) -> usize
        ensures { result ≡ length self.now }
    {
        self.numbers.len()
    }

    /// The number at a place; 0, which is that of top, where there is none.
    pub fn get(&self, place: usize) -> u32
        ensures { result ≡ slice_index self.now place }
    {
        self.numbers.get(place).copied().unwrap_or(0)
    }

    /// How many units they take.
    pub fn units(&self) -> usize
        ensures { (s : Numbering) → units_of (types_by s self.now) ≡ result }
    {
        self.numbers.len() + self.wides
    }

    /// Whether one of them is the own object that is not initialized.
    pub fn have_own(&self) -> bool
        ensures { (s : Numbering) → result ≡ has_uninit_this (types_by s self.now) }
    {
        self.own > 0
    }

    /// Puts a local after the others.
    #[inline(always)]
    pub fn push(&mut self, number: u32) -> Result<(), AllocError>
        ensures { OnOk result (self.new ≡ self.old ++ number ∷ []) }
    {
        append(number, &mut self.numbers)?;
        self.wides += extra(number);
        if is_own(number) {
            self.own += 1;
        }
        Ok(())
    }

    /// Takes the last local off.
    pub fn pop(&mut self) -> Option<u32>
        ensures { MatchOption result ((self.old ≡ []) × (self.new ≡ self.old))
            (λ number. self.old ≡ self.new ++ number ∷ []) }
    {
        let number = self.numbers.pop()?;
        self.wides -= extra(number);
        if is_own(number) {
            self.own -= 1;
        }
        Some(number)
    }
}
