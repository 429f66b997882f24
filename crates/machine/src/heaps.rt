//! Objects by their addresses.
ghost use Rattle.std.specs.Prelude.{◌≡◌, ◌↔◌, ◌⊎◌, All, IsTrue, IfOk, MatchOption, MatchResult, Some, false};
ghost use Rattle.std.specs.BTreeMap.{values, IsOrdered};
ghost use Rattle.std.specs.Ordering.{nat_cmp};
ghost use Rattle.names.specs.ReferenceTypes.{ReferenceType};
ghost use Rattle.machine.specs.declared.choosing.StepFault.TheVariants.{OutOfMemory, NotAChoice};
ghost use Rattle.machine.specs.declared.objects.RunType.TheVariants.{Array};
ghost use Rattle.machine.specs.Heap.{object, ready, HasNoThis, IsAddress, IsRunTimeType, IsFresh, with_fresh};
ghost use Rattle.machine.specs.private.Beginnings.{AreObjects, MayBe};
ghost use Rattle.machine.specs.private.Decided.{is_this};
ghost use Rattle.machine.specs.Views.{heap_view, object_view, run_type_view, fresh_view};

use crate::choosing::StepFault;
use crate::objects::{Object, RunType, Status};
use names::Base;
use std::alloc::AllocError;
use std::collections::BTreeMap;

/// The type of the object at this address, where one is there that is ready.
pub fn ready_type<'a>(heap: &BTreeMap<u32, Object<'a>>, address: u32) -> Option<RunType<'a>>
    ensures { MatchOption result
        ((x : ReferenceType) → heap_view heap.now address ≡ Some (object x ready) → ⊥)
        (λ t. heap_view heap.now address ≡ Some (object (run_type_view t) ready)) }
{
    match heap.get(&address) {
        None => None,
        Some(object) => match object.status {
            Status::Ready => Some(object.run_type),
            Status::Made | Status::This => None,
        },
    }
}

fn is_this(object: &Object<'_>) -> bool
    ensures { result ≡ is_this (object_view object.now) }
{
    matches!(object.status, Status::This)
}

// Each object is another than an own one that is not initialized.
fn are_others(heap: &BTreeMap<u32, Object<'_>>) -> bool
    ensures tested { IsTrue result ↔ All (λ o. is_this (object_view o) ≡ false) (values heap.now) }
    ensures ordered { IsOrdered nat_cmp heap.now }
{
    heap.values().all(|object| !is_this(object))
}

/// Whether no own object is left that is not initialized.
pub fn has_no_this(heap: &BTreeMap<u32, Object<'_>>) -> bool
    ensures { IsTrue result ↔ HasNoThis (heap_view heap.now) }
{
    are_others(heap)
}

/// The objects once more.
pub fn copy_of<'a>(
    heap: &BTreeMap<u32, Object<'a>>,
) -> Result<BTreeMap<u32, Object<'a>>, AllocError>
    ensures { IfOk result (λ h. heap_view h ≡ heap_view heap.now) }
{
    heap.clone()
}

// An array. Its dimensions are a byte, so they are at most 255.
fn array<'a>(dims: u8, base: Base<'a>) -> RunType<'a>
    ensures is { result ≡ Array dims base.entry }
    ensures of { IsRunTimeType (run_type_view result) }
{
    RunType::Array { dims, base }
}

// The type as it is, which has at most 255 dimensions.
fn run_time_type<'a>(run_type: RunType<'a>) -> RunType<'a>
    ensures is { result ≡ run_type.entry }
    ensures of { IsRunTimeType (run_type_view run_type.entry) }
{
    match run_type {
        RunType::Class(_) => run_type,
        RunType::Array { dims, base } => array(dims, base),
    }
}

// Makes an object at an address.
fn new_object<'a>(address: u32, run_type: RunType<'a>) -> Object<'a>
    ensures is { object_view result ≡ object (run_type_view run_type.entry) ready }
    ensures at { IsAddress address }
    ensures of { IsRunTimeType (run_type_view run_type.entry) }
{
    Object {
        run_type: run_time_type(run_type),
        status: Status::Ready,
    }
}

// Whether the object may be at the address when a method begins whose own object is at another one, or at this one, if
// it has one.
fn may_be(own: Option<u32>, address: u32, object: Object<'_>) -> bool
    ensures { IsTrue result ↔ MayBe own address (object_view object.entry) }
{
    run_time_type(object.run_type);
    match object.status {
        Status::Ready => true,
        Status::Made => false,
        Status::This => own == Some(address),
    }
}

// Whether each object may be.
fn all_may_be(own: Option<u32>, heap: &BTreeMap<u32, Object<'_>>) -> bool
    ensures tested { IsTrue result ↔ All (λ e. MayBe own e.0 (object_view e.1)) heap.now.entries }
    ensures ordered { IsOrdered nat_cmp heap.now }
{
    heap.iter()
        .all(|(address, object)| may_be(own, *address, *object))
}

/// Whether all objects are such as may be when a method begins whose own object is at this address, if it has one.
pub fn are_objects(own: Option<u32>, heap: &BTreeMap<u32, Object<'_>>) -> bool
    ensures { IsTrue result ↔ AreObjects own (heap_view heap.now) }
{
    all_may_be(own, heap)
}

/// Puts these new objects, which are ready, beside the others; 54 where an address is in use.
pub fn add_fresh<'a>(
    heap: &mut BTreeMap<u32, Object<'a>>,
    fresh: &[(u32, RunType<'a>)],
) -> Result<(), StepFault>
    ensures { let old = heap_view heap.old in let new = fresh_view fresh.now in
        MatchResult result
        (λ _. IsFresh old new × (heap_view heap.new ≡ with_fresh old new))
        (λ e. (e ≡ OutOfMemory) ⊎ ((e ≡ NotAChoice) × (IsFresh old new → ⊥))) }
{
    for (address, run_type) in fresh {
        if heap.contains_key(address) {
            return Err(StepFault::NotAChoice);
        }
        let object = new_object(*address, *run_type);
        heap.insert(*address, object)?;
    }
    Ok(())
}
