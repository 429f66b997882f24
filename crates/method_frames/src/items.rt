//! The items of an operand stack, by the numbers of their types.
ghost use Rattle.std.specs.Prelude.{◌≡◌, ℕ, ◌+◌, ◌≤◌, ◌<◌, ◌-◌, true, [], ◌∷◌, ◌++◌, length, map, reverse, take, vec_len, vec_capacity, OnOk, OnErr};
ghost use Rattle.insn.specs.OperandStacks.{rearranged};
ghost use Rattle.insn.specs.Views.{stack_form_view};
ghost use Rattle.method_frames.specs.Objects.{is_uninitialized, replaced, holds};
ghost use Rattle.method_frames.specs.private.Holders.{AreListed, AreListedFrom, KeepsListed};

use crate::holders::{Holders, place_in};
use crate::rearranging::rearrange;
use crate::widths::{extra, wides};
use insn::StackForm;
use std::alloc::{AllocError, Global};
use std::marker::Model;

/// The items of an operand stack (JVMS 2.6.2), each by the number of its type. In contracts they are a list with the
/// top first. The places that came to hold an object which is not initialized are listed, so that to find or
/// replace one takes time for these places alone.
#[derive(Drop)]
pub struct Items {
    /// From the bottom up.
    numbers: Vec<u32>,
    /// How many items are a long or a double.
    wides: usize,
    holders: Holders,
}

impl Model for Items {
    ghost use Rattle.std.specs.Prelude.{ℕ, List, reverse};
    ghost use Rattle.method_frames.specs.private.Holders.{AreItems};

    ghost Value = { List ℕ };

    ghost view = { λ x. reverse x.numbers.items };

    ghost invariant = { λ x. AreItems x.numbers.items x.wides x.holders };
}

/// Makes room for one number more. It stands apart, so that what [`append`] inlines stays small.
#[inline(never)]
fn make_room(numbers: &mut Vec<u32>) -> Result<(), AllocError>
    ensures same { numbers.new.items ≡ numbers.old.items }
    ensures room { OnOk result (vec_len numbers.new < vec_capacity numbers.new) }
{
    numbers.reserve(1)
}

/// Puts a number after the others.
#[inline(always)]
pub(crate) fn append(number: u32, numbers: &mut Vec<u32>) -> Result<(), AllocError>
    ensures ok { OnOk result (numbers.new.items ≡ numbers.old.items ++ number ∷ []) }
    ensures len { OnOk result (vec_len numbers.new ≡ vec_len numbers.old + 1) }
    ensures err { OnErr result (numbers.new.items ≡ numbers.old.items) }
{
    if numbers.len() >= numbers.capacity() {
        make_room(numbers)?;
    }
    numbers.push_reserved(number);
    Ok(())
}

/// Lists the items from a place up.
fn list(numbers: &[u32], from: usize, holders: &mut Holders) -> Result<(), AllocError>
    ensures kept { KeepsListed holders.old holders.new }
    ensures listed { OnOk result (AreListedFrom from holders.new numbers.now) }
{
    for place in from..numbers.len() {
        holders.list(numbers[place], place)?;
    }
    Ok(())
}

/// Takes the items of a form off, pushes what it leaves, and lists this. Nothing is said of the items where memory ran
/// out.
fn rearrange_listed(
    form: StackForm,
    numbers: &mut Vec<u32>,
    holders: &mut Holders,
) -> Result<(), AllocError>
    requires few { length form.takes.now ≤ length numbers.old.items }
    requires listed { AreListed holders.old numbers.old.items }
    ensures all { OnOk result (reverse numbers.new.items
        ≡ rearranged (stack_form_view form) (reverse numbers.old.items)) }
    ensures same { OnOk result (take (length numbers.old.items - length form.takes.now) numbers.new.items
        ≡ take (length numbers.old.items - length form.takes.now) numbers.old.items) }
    ensures above { OnOk result (length numbers.old.items - length form.takes.now ≤ length numbers.new.items) }
    ensures listed { OnOk result (AreListed holders.new numbers.new.items) }
{
    let below = numbers.len() - form.takes.len();
    rearrange(form, numbers)?;
    list(numbers, below, holders)
}

/// Whether an object is among items, by the places that came to hold it.
fn has_listed(object: u32, holders: &Holders, numbers: &[u32]) -> bool
    requires object { is_uninitialized object ≡ true }
    requires listed { AreListed holders.now numbers.now }
    ensures { result ≡ holds object numbers.now }
{
    for key in holders.of(object) {
        let place = place_in(*key);
        if place < numbers.len() && numbers[place] == object {
            return true;
        }
    }
    false
}

/// Puts a number in place of an object's, at the places that came to hold it.
fn replace_listed(object: u32, by: u32, holders: &Holders, numbers: &mut Vec<u32>)
    requires object { is_uninitialized object ≡ true }
    requires listed { AreListed holders.now numbers.old.items }
    ensures { numbers.new.items ≡ map (replaced object by) numbers.old.items }
{
    for key in holders.of(object) {
        let place = place_in(*key);
        if place < numbers.len() && numbers[place] == object {
            numbers[place] = by;
        }
    }
}

impl Items {
    ghost use Rattle.std.specs.Prelude.{◌≡◌, ◌↔◌, ◌+◌, ◌<◌, ◌≤◌, [], ◌∷◌, true, false, IsTrue, MatchOption, length, map, reverse, slice_index, slice_get, OnOk, OnErr};
    ghost use Rattle.frames.specs.Slots.{is_wide, units_of};
    ghost use Rattle.type_numbers.specs.Numbers.{Numbering};
    ghost use Rattle.type_numbers.specs.Decoding.{type_by, types_by};

    /// An empty stack.
    pub fn new(alloc: Global) -> Items
        ensures { result ≡ [] }
    {
        Items {
            numbers: Vec::new(alloc),
            wides: 0,
            holders: Holders::new(alloc),
        }
    }

    /// How many they are.
    #[inline(always)]
    pub fn count(&self) -> usize
        ensures { result ≡ length self.now }
    {
        self.numbers.len()
    }

    /// How many of them are a long or a double.
    pub fn wides(&self) -> usize
        ensures { (s : Numbering) → units_of (types_by s self.now) ≡ length self.now + result }
    {
        self.wides
    }

    /// Whether they take at least so many units.
    #[inline(always)]
    pub fn has_units(&self, count: usize) -> bool
        ensures { (s : Numbering) → IsTrue result ↔ (count ≤ units_of (types_by s self.now)) }
    {
        count <= self.numbers.len() + self.wides
    }

    /// The number at a place from the bottom up; 0, which is that of Top, where there is none.
    #[inline(always)]
    pub fn get(&self, place: usize) -> u32
        ensures { result ≡ slice_index (reverse self.now) place }
    {
        self.numbers.get(place).copied().unwrap_or(0)
    }

    /// Pushes an item.
    #[inline(always)]
    pub fn push(&mut self, number: u32) -> Result<(), AllocError>
        ensures ok { OnOk result (self.new ≡ number ∷ self.old) }
        ensures err { OnErr result (self.new ≡ self.old) }
    {
        self.holders.list(number, self.numbers.len())?;
        append(number, &mut self.numbers)?;
        self.wides += extra(number);
        Ok(())
    }

    /// Takes the top off.
    #[inline(always)]
    pub fn pop(&mut self) -> Option<u32>
        ensures { MatchOption result ((self.old ≡ []) × (self.new ≡ self.old))
            (λ number. self.old ≡ number ∷ self.new) }
    {
        let number = self.numbers.pop()?;
        self.wides -= extra(number);
        Some(number)
    }

    /// Takes all off, forgets which places came to hold objects, and keeps the memory.
    pub fn clear(&mut self)
        ensures { self.new ≡ [] }
    {
        self.numbers.clear();
        self.wides = 0;
        if !self.holders.are_none() {
            self.holders.clear();
        }
    }

    /// The item with so many above it; the top has none.
    #[inline(always)]
    pub fn item(&self, above: usize) -> Option<u32>
        ensures { result ≡ slice_get self.now above }
    {
        if above >= self.numbers.len() {
            return None;
        }
        Some(self.get(self.numbers.len() - 1 - above))
    }

    /// Takes the items of a form off, and pushes what it leaves (JVMS 2.11.6). Nothing is left where memory ran out.
    pub fn rearrange(&mut self, form: StackForm) -> Result<(), AllocError>
        requires { length form.takes.now ≤ length self.old }
        ensures ok { OnOk result (self.new ≡ rearranged (stack_form_view form) self.old) }
        ensures err { OnErr result (self.new ≡ []) }
    {
        let below = self.numbers.len() - form.takes.len();
        let before = wides(&self.numbers[below..]);
        if let Err(error) = rearrange_listed(form, &mut self.numbers, &mut self.holders) {
            self.numbers.clear();
            self.wides = 0;
            return Err(error);
        }
        self.wides = self.wides - before + wides(&self.numbers[below..]);
        Ok(())
    }

    /// Whether an object that is not initialized is among them.
    pub fn has(&self, object: u32) -> bool
        requires { is_uninitialized object ≡ true }
        ensures { result ≡ holds object self.now }
    {
        has_listed(object, &self.holders, &self.numbers)
    }

    /// Puts the number of a type that takes one unit in place of an object's, wherever that stands.
    pub fn replace(&mut self, object: u32, by: u32)
        requires object { is_uninitialized object ≡ true }
        requires none { is_uninitialized by ≡ false }
        requires narrow { (s : Numbering) → is_wide (type_by s by) ≡ false }
        ensures { self.new ≡ map (replaced object by) self.old }
    {
        replace_listed(object, by, &self.holders, &mut self.numbers);
    }
}
