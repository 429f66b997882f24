//! The values that local variables hold, read back.
ghost use Rattle.std.specs.Prelude.{◌≡◌, All, IsTrue, IfOk, ◌↔◌, map};
ghost use Rattle.machine.specs.Values.{empty};
ghost use Rattle.machine.specs.Views.{value_view, slot_view, locals_of};
ghost use Rattle.machine.specs.private.Beginnings.{TakesValues};

use crate::items::{Slot, Value, is_second, is_wide_value};
use std::alloc::AllocError;

fn is_empty(slot: Slot) -> bool
    ensures { IsTrue result ↔ (slot_view slot ≡ empty) }
{
    match slot {
        Slot::Empty => true,
        Slot::Second | Slot::Value(_) => false,
    }
}

fn are_empty(slots: &[Slot]) -> bool
    ensures { IsTrue result ↔ All (λ s. slot_view s ≡ empty) slots.now }
{
    slots.iter().all(|slot| is_empty(*slot))
}

/// Takes so many values out of local variables, and puts them after the others; says whether they are there, each long
/// or double with its second half, and all local variables after them are empty.
pub fn take_values(
    count: usize,
    slots: &[Slot],
    values: &mut Vec<Value>,
) -> Result<bool, AllocError>
    ensures { IfOk result (TakesValues count (locals_of slots.now) (map value_view values.old.items)
        (map value_view values.new.items)) }
{
    if count == 0 {
        return Ok(are_empty(slots));
    }
    let [first, slots @ ..] = slots else {
        return Ok(false);
    };
    let Slot::Value(value) = *first else {
        return Ok(false);
    };
    values.push(value)?;
    if !is_wide_value(value) {
        return take_values(count - 1, slots, values);
    }
    let [half, slots @ ..] = slots else {
        return Ok(false);
    };
    if !is_second(*half) {
        return Ok(false);
    }
    take_values(count - 1, slots, values)
}
