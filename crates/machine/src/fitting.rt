//! Which values fit which types (JVMS 2.4, 4.10.1.2).
ghost use Rattle.std.specs.Prelude.{◌≡◌, ◌↔◌, IsTrue, MatchOption, Some};
ghost use Rattle.names.specs.Descriptors.{FieldDescriptor};
ghost use Rattle.names.specs.ReferenceTypes.{ReferenceType, array_type};
ghost use Rattle.names.specs.Types.{type_of};
ghost use Rattle.hierarchy.specs.Class.{world_of};
ghost use Rattle.machine.specs.Values.{reference};
ghost use Rattle.machine.specs.Heap.{ready, this, object, IsArrayFor, IsReference, FitsReference, FitsArray, FitsArrayFor, IsThis};
ghost use Rattle.machine.specs.Views.{value_view, run_type_view, heap_view};

use crate::heaps::ready_type;
use crate::items::Value;
use crate::objects::{Object, RunType, Status};
use crate::subtypes::is_below;
use hierarchy::Classes;
use insn::takes_array;
use names::{Base, FieldType, Primitive};
use std::collections::BTreeMap;

/// Whether it is null or a reference, whatever object that is to.
pub fn is_reference(value: Value) -> bool
    ensures { IsTrue result ↔ IsReference (value_view value) }
{
    match value {
        Value::Null | Value::Ref(_) => true,
        Value::Int | Value::Float | Value::Long | Value::Double => false,
    }
}

// Whether an object of a type below this one is ready at the address.
fn is_ready_below<C: Classes>(
    heap: &BTreeMap<u32, Object<'_>>,
    address: u32,
    run_type: RunType<'_>,
    classes: &C,
) -> bool
    ensures { IsTrue result ↔ FitsReference (world_of (C.content classes.now)) (heap_view heap.now)
        (run_type_view run_type.entry) (reference address) }
{
    match ready_type(heap, address) {
        None => false,
        Some(found) => is_below(found, run_type, classes),
    }
}

/// Whether it is null, or an object that is ready, of a type below this one.
pub fn fits_reference<C: Classes>(
    heap: &BTreeMap<u32, Object<'_>>,
    run_type: RunType<'_>,
    value: Value,
    classes: &C,
) -> bool
    ensures { IsTrue result ↔ FitsReference (world_of (C.content classes.now)) (heap_view heap.now)
        (run_type_view run_type.entry) (value_view value) }
{
    match value {
        Value::Null => true,
        Value::Ref(address) => is_ready_below(heap, address, run_type, classes),
        Value::Int | Value::Float | Value::Long | Value::Double => false,
    }
}

/// The type of the components of the array at this address, where one is there that is ready.
pub fn component_at<'a>(heap: &BTreeMap<u32, Object<'a>>, address: u32) -> Option<FieldType<'a>>
    ensures { MatchOption result
        ((t : FieldDescriptor) → heap_view heap.now address ≡ Some (object (array_type t) ready) → ⊥)
        (λ t. heap_view heap.now address ≡ Some (object (array_type (type_of t)) ready)) }
{
    match ready_type(heap, address)? {
        RunType::Class(_) => None,
        RunType::Array { dims, base } => Some(FieldType {
            dims: dims.saturating_sub(1),
            base,
        }),
    }
}

/// Whether it is null or an array.
pub fn fits_array(heap: &BTreeMap<u32, Object<'_>>, value: Value) -> bool
    ensures { IsTrue result ↔ FitsArray (heap_view heap.now) (value_view value) }
{
    match value {
        Value::Null => true,
        Value::Ref(address) => component_at(heap, address).is_some(),
        Value::Int | Value::Float | Value::Long | Value::Double => false,
    }
}

// Whether an element instruction for a primitive type takes arrays of these components.
fn takes_components(element: Primitive, component: FieldType<'_>) -> bool
    ensures { IsTrue result ↔ IsArrayFor element (array_type (type_of component.entry)) }
{
    match component.dims {
        0 => match component.base {
            Base::Primitive(primitive) => takes_array(element, primitive),
            Base::Class(_) => false,
        },
        _ => false,
    }
}

// Whether an array that an element instruction for a primitive type takes is at this address.
fn is_array_for(heap: &BTreeMap<u32, Object<'_>>, element: Primitive, address: u32) -> bool
    ensures { IsTrue result ↔ FitsArrayFor (heap_view heap.now) element (reference address) }
{
    match component_at(heap, address) {
        None => false,
        Some(component) => takes_components(element, component),
    }
}

/// Whether it is null or an array that an element instruction for a primitive type takes.
pub fn fits_array_for(heap: &BTreeMap<u32, Object<'_>>, element: Primitive, value: Value) -> bool
    ensures { IsTrue result ↔ FitsArrayFor (heap_view heap.now) element (value_view value) }
{
    match value {
        Value::Null => true,
        Value::Ref(address) => is_array_for(heap, element, address),
        Value::Int | Value::Float | Value::Long | Value::Double => false,
    }
}

// Whether the own object, not initialized yet, is at this address.
fn is_this_at(heap: &BTreeMap<u32, Object<'_>>, address: u32) -> bool
    ensures { IsTrue result ↔ ((x : ReferenceType) × (heap_view heap.now address ≡ Some (object x this))) }
{
    match heap.get(&address) {
        None => false,
        Some(object) => matches!(object.status, Status::This),
    }
}

/// Whether it is the own object that is not initialized yet.
pub fn is_this(heap: &BTreeMap<u32, Object<'_>>, value: Value) -> bool
    ensures { IsTrue result ↔ IsThis (heap_view heap.now) (value_view value) }
{
    match value {
        Value::Ref(address) => is_this_at(heap, address),
        Value::Null | Value::Int | Value::Float | Value::Long | Value::Double => false,
    }
}
