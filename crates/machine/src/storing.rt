//! Writes to local variables.
ghost use Rattle.std.specs.Prelude.{◌≡◌, ◌≤◌, set, true, false};
ghost use Rattle.machine.specs.Values.{is_wide_value, stored};
ghost use Rattle.machine.specs.private.Happening.{with_before, with_behind};
ghost use Rattle.machine.specs.Views.{value_view, locals_of};

use crate::items::{Slot, Value, is_wide_slot, is_wide_value};

// Where the local variable before this place holds a long or double, it becomes empty.
fn free_before(place: usize, slots: &mut [Slot])
    ensures { locals_of slots.new ≡ with_before place (locals_of slots.old) }
{
    if place == 0 {
        return;
    }
    if place > slots.len() {
        return;
    }
    if is_wide_slot(slots[place - 1]) {
        slots[place - 1] = Slot::Empty;
    }
}

// Where the local variable at this place holds a long or double, the one after it becomes empty.
fn free_behind(place: usize, slots: &mut [Slot])
    requires { place ≤ 65536 }
    ensures { locals_of slots.new ≡ with_behind place (locals_of slots.old) }
{
    if place + 1 >= slots.len() {
        return;
    }
    if is_wide_slot(slots[place]) {
        slots[place + 1] = Slot::Empty;
    }
}

// Writes to the local variable at this place, if it is there.
fn put(slot: Slot, place: usize, slots: &mut [Slot])
    ensures { slots.new ≡ set slots.old place slot }
{
    if place < slots.len() {
        slots[place] = slot;
    }
}

fn store_narrow(value: Value, place: usize, slots: &mut [Slot])
    requires narrow { is_wide_value (value_view value) ≡ false }
    requires small { place ≤ 65535 }
    ensures { locals_of slots.new ≡ stored (value_view value) place (locals_of slots.old) }
{
    free_before(place, slots);
    free_behind(place, slots);
    put(Slot::Value(value), place, slots);
}

fn store_wide(value: Value, place: usize, slots: &mut [Slot])
    requires wide { is_wide_value (value_view value) ≡ true }
    requires small { place ≤ 65535 }
    ensures { locals_of slots.new ≡ stored (value_view value) place (locals_of slots.old) }
{
    free_before(place, slots);
    free_behind(place + 1, slots);
    put(Slot::Value(value), place, slots);
    put(Slot::Second, place + 1, slots);
}

/// Writes a value to a local variable. Each half of a long or double whose other half it overwrites becomes empty.
pub fn store(value: Value, local: u16, slots: &mut [Slot])
    ensures { locals_of slots.new ≡ stored (value_view value) local (locals_of slots.old) }
{
    let place = usize::from(local);
    if is_wide_value(value) {
        store_wide(value, place, slots);
    } else {
        store_narrow(value, place, slots);
    }
}
