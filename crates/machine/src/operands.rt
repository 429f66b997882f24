//! Operands and local variables: what they have to be, their forms, and how many units they take.
ghost use Rattle.std.specs.Prelude.{◌≡◌, ◌+◌, ◌≤◌, ◌↔◌, IsTrue, option_map, map, slice_get, false};
ghost use Rattle.names.specs.Types.{type_of};
ghost use Rattle.hierarchy.specs.Class.{world_of};
ghost use Rattle.insn.specs.Operators.{stack_forms};
ghost use Rattle.insn.specs.Views.{stack_form_view};
ghost use Rattle.machine.specs.Effects.{demand_of};
ghost use Rattle.machine.specs.Demands.{Meets, AllMeet, HasLocal, HasForm};
ghost use Rattle.machine.specs.Values.{depth_of, units, is_wide_value};
ghost use Rattle.machine.specs.private.Decided.{same_place, are_form, form_for, is_behind, paired_behind};
ghost use Rattle.machine.specs.private.EffectViews.{demand_view, demands_view};
ghost use Rattle.machine.specs.private.Happening.{IsHeld};
ghost use Rattle.machine.specs.Views.{value_view, slot_view, stack_of, locals_of, heap_view, state_view};

use crate::effect::Demand;
use crate::fitting::{fits_array, fits_array_for, fits_reference, is_reference, is_this};
use crate::items::{Slot, Value, is_number, is_second, is_wide_slot, is_wide_value, place_of};
use crate::objects::{Object, RunType};
use crate::snapshot::State;
use hierarchy::Classes;
use insn::{StackForm, StackOperator, StackPlace, computed_as};
use names::{Base, FieldType};
use std::collections::BTreeMap;

/// The demand of an operand of the type.
pub fn demand_of(t: FieldType<'_>) -> Demand<'_>
    ensures { demand_view result ≡ demand_of (type_of t.entry) }
{
    match t.dims {
        0 => match t.base {
            Base::Primitive(primitive) => Demand::Number(computed_as(primitive)),
            Base::Class(name) => Demand::Type(RunType::Class(name)),
        },
        dims => Demand::Type(RunType::Array { dims, base: t.base }),
    }
}

/// Whether the value meets the demand.
pub fn meets<C: Classes>(
    demand: Demand<'_>,
    value: Value,
    heap: &BTreeMap<u32, Object<'_>>,
    classes: &C,
) -> bool
    ensures { IsTrue result ↔ Meets (world_of (C.content classes.now)) (heap_view heap.now) (demand_view demand.entry)
        (value_view value) }
{
    match demand {
        Demand::Number(kind) => is_number(value, kind),
        Demand::Type(run_type) => fits_reference(heap, run_type, value, classes),
        Demand::Reference => is_reference(value),
        Demand::Array => fits_array(heap, value),
        Demand::ArrayFor(element) => fits_array_for(heap, element, value),
        Demand::OwnOr(class) => {
            fits_reference(heap, RunType::Class(class), value, classes) || is_this(heap, value)
        }
    }
}

/// Whether operands that meet these demands are on top of the stack, the first of them on top.
pub fn all_meet<C: Classes>(
    demands: &[Demand<'_>],
    stack: &[Value],
    heap: &BTreeMap<u32, Object<'_>>,
    classes: &C,
) -> bool
    ensures { IsTrue result ↔ AllMeet (world_of (C.content classes.now)) (heap_view heap.now) (demands_view demands.now)
        (stack_of stack.now) }
{
    match demands {
        [] => true,
        [demand, demands @ ..] => match stack {
            [] => false,
            [stack @ .., top] => {
                meets(*demand, *top, heap, classes) && all_meet(demands, stack, heap, classes)
            }
        },
    }
}

/// The value that a local variable holds.
pub fn held(locals: &[Slot], local: u16) -> Option<Value>
    ensures { IsHeld (slice_get (locals_of locals.now) local) (option_map value_view result) }
{
    match locals.get(usize::from(local)) {
        None => None,
        Some(slot) => match *slot {
            Slot::Value(value) => Some(value),
            Slot::Empty | Slot::Second => None,
        },
    }
}

/// Whether the local variable holds a value that meets the demand.
pub fn has_local<C: Classes>(demand: Demand<'_>, local: u16, state: &State<'_>, classes: &C) -> bool
    ensures { IsTrue result ↔ HasLocal (world_of (C.content classes.now)) (demand_view demand.entry) local
        (state_view state.now) }
{
    match held(&state.locals, local) {
        None => false,
        Some(value) => meets(demand, value, &state.heap, classes),
    }
}

fn same_place(p: StackPlace, q: StackPlace) -> bool
    ensures { result ≡ same_place p q }
{
    match p {
        StackPlace::Narrow => matches!(q, StackPlace::Narrow),
        StackPlace::Wide => matches!(q, StackPlace::Wide),
    }
}

/// Whether the items on top of the stack fit these places, the first of them on top.
fn are_form(places: &[StackPlace], stack: &[Value]) -> bool
    ensures { result ≡ are_form places.now (stack_of stack.now) }
{
    match places {
        [] => true,
        [place, places @ ..] => match stack {
            [] => false,
            [stack @ .., top] => same_place(*place, place_of(*top)) && are_form(places, stack),
        },
    }
}

/// The first form that the stack fits.
pub fn form_for(forms: &'static [StackForm], stack: &[Value]) -> Option<StackForm>
    ensures { option_map stack_form_view result ≡ form_for (map stack_form_view forms.now) (stack_of stack.now) }
{
    for form in forms {
        if are_form(form.takes, stack) {
            return Some(*form);
        }
    }
    None
}

/// Whether the stack fits a form of the operator.
pub fn has_form(operator: StackOperator, state: &State<'_>) -> bool
    ensures { IsTrue result ↔ HasForm (stack_forms operator) (state_view state.now) }
{
    form_for(operator.forms(), &state.stack).is_some()
}

/// How many units a value takes (JVMS 2.6.2).
pub fn value_units(value: Value) -> usize
    ensures { result ≡ units (is_wide_value (value_view value)) }
{
    if is_wide_value(value) { 2 } else { 1 }
}

/// Whether the stack has at least so many units.
fn has_units(stack: &[Value], count: usize) -> bool
    ensures { IsTrue result ↔ (count ≤ depth_of (stack_of stack.now)) }
{
    let mut left = count;
    for value in stack {
        let units = value_units(*value);
        if left <= units {
            return true;
        }
        left -= units;
    }
    left == 0
}

/// Whether there is room for so many units on the stack.
pub fn has_room(units: usize, stack: &[Value], limit: u16) -> bool
    ensures { IsTrue result ↔ (units + depth_of (stack_of stack.now) ≤ limit) }
{
    let limit = usize::from(limit);
    units <= limit && !has_units(stack, limit - units + 1)
}

fn is_behind(wide: bool, slot: Slot) -> bool
    ensures { result ≡ is_behind wide (slot_view slot) }
{
    if wide {
        is_second(slot)
    } else {
        !is_second(slot)
    }
}

/// Whether each long or double is followed by its second half, and no other second half is there.
pub fn are_paired(slots: &[Slot]) -> bool
    ensures { result ≡ paired_behind false (locals_of slots.now) }
{
    let mut wide = false;
    for slot in slots {
        if !is_behind(wide, *slot) {
            return false;
        }
        wide = is_wide_slot(*slot);
    }
    !wide
}
