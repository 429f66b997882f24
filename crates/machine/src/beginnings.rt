//! States in which a method may begin (JVMS 2.6.1, 2.9.1, 4.10.1.6).
ghost use Rattle.std.specs.Prelude.{◌≡◌, ◌≤◌, ◌↔◌, ◌⊎◌, ℕ, [], ◌∷◌, ◌++◌, length, map, IsTrue, IfOk, IfErr, OnOk, MatchOption};
ghost use Rattle.names.specs.Types.{type_of, method_of};
ghost use Rattle.classfile.specs.CodeMethods.{code_method_view, types_of};
ghost use Rattle.classfile.specs.Methods.{ready_receiver, own_receiver};
ghost use Rattle.hierarchy.specs.Class.{world_of};
ghost use Rattle.machine.specs.declared.choosing.StepFault.TheVariants.{OutOfMemory, NotInitial};
ghost use Rattle.machine.specs.Values.{reference, in_slots, all_slots};
ghost use Rattle.machine.specs.Heap.{AllFit, FitsField};
ghost use Rattle.machine.specs.Demands.{State as Moment};
ghost use Rattle.machine.specs.Runs.{IsBeginning, IsInitial};
ghost use Rattle.machine.specs.Bodies.{method_view};
ghost use Rattle.machine.specs.private.Beginnings.{begins, beginning_view, receiver_view, IsOwn, IsOwnObject, IsReceiver, BehindReceiver, MayBegin, values_of};
ghost use Rattle.machine.specs.Views.{value_view, locals_of, heap_view, state_view};

use crate::body::Method;
use crate::choosing::StepFault;
use crate::fitting::fits_reference;
use crate::heaps::{are_objects, copy_of};
use crate::held_values::take_values;
use crate::items::{Slot, Value, is_wide_value};
use crate::objects::{Object, RunType, Status};
use crate::operands::{demand_of, has_room, meets};
use crate::own_class::class_name;
use crate::snapshot::State;
use classfile::CodeMethod;
use hierarchy::{Answer, Classes};
use names::{FieldType, MethodType, OBJECT, method_type};
use std::alloc::{AllocError, Global};
use std::collections::BTreeMap;

/// The receiver with which a method begins.
#[derive(Clone, Copy)]
pub(crate) enum Receiver {
    /// A static method has none.
    Nothing,
    /// An object that is initialized.
    Ready,
    /// The own object of an instance initialization method outside Object.
    Own,
}

/// The parts of a method that say how it begins.
#[derive(Drop)]
pub(crate) struct Beginning<'a> {
    class: &'a [u8],
    receiver: Receiver,
    types: MethodType<'a>,
    max_locals: u16,
}

fn receiver_of(method: &CodeMethod<'_, '_>) -> Receiver
    ensures { receiver_view result ≡ (begins method.now).receiver }
{
    if method.is_static {
        return Receiver::Nothing;
    }
    if method.is_init && class_name(method) != OBJECT {
        Receiver::Own
    } else {
        Receiver::Ready
    }
}

// The types that the descriptor names.
fn types_of<'a>(alloc: Global, method: &CodeMethod<'_, 'a>) -> Result<MethodType<'a>, AllocError>
    ensures { IfOk result (λ t. method_of t ≡ types_of method.now) }
{
    match method_type(alloc, method.descriptor(), !method.is_static) {
        Ok(types) => Ok(types),
        // The descriptor is one, so that nothing else is refused.
        Err(_) => Err(AllocError),
    }
}

// Whether the own object of the class of this name, or of one below it, is at the address.
fn is_own_object<C: Classes>(
    heap: &BTreeMap<u32, Object<'_>>,
    address: u32,
    class: &[u8],
    classes: &C,
) -> bool
    ensures { IsTrue result ↔ IsOwnObject (world_of (C.content classes.now)) class.now (heap_view heap.now) address }
{
    let Some(object) = heap.get(&address) else {
        return false;
    };
    match object.status {
        Status::Ready | Status::Made => false,
        Status::This => match object.run_type {
            RunType::Array { .. } => false,
            RunType::Class(name) => matches!(classes.is_subclass(name, class), Answer::Yes),
        },
    }
}

// Whether it is an object that is ready, of the class of this name or of one below it.
fn is_receiver<C: Classes>(
    value: Value,
    class: &[u8],
    heap: &BTreeMap<u32, Object<'_>>,
    classes: &C,
) -> bool
    ensures { IsTrue result ↔ IsReceiver (world_of (C.content classes.now)) class.now (heap_view heap.now)
        (value_view value) }
{
    match value {
        Value::Ref(_) => fits_reference(heap, RunType::Class(class), value, classes),
        Value::Null | Value::Int | Value::Float | Value::Long | Value::Double => false,
    }
}

// The address of the own object of the class of this name, or of one below it, where the value refers to it.
fn own_at<C: Classes>(
    value: Value,
    class: &[u8],
    heap: &BTreeMap<u32, Object<'_>>,
    classes: &C,
) -> Option<u32>
    ensures { let w = world_of (C.content classes.now) in
        MatchOption result (IsOwn w class.now (heap_view heap.now) (value_view value) → ⊥)
        (λ a. (value_view value ≡ reference a) × IsOwnObject w class.now (heap_view heap.now) a) }
{
    let Value::Ref(address) = value else {
        return None;
    };
    if !is_own_object(heap, address, class, classes) {
        return None;
    }
    Some(address)
}

// Whether a field of the type may hold the value.
fn fits<C: Classes>(
    t: FieldType<'_>,
    value: Value,
    heap: &BTreeMap<u32, Object<'_>>,
    classes: &C,
) -> bool
    ensures { IsTrue result ↔ FitsField (world_of (C.content classes.now)) (heap_view heap.now) (type_of t.entry)
        (value_view value) }
{
    meets(demand_of(t), value, heap, classes)
}

// Whether as many values as there are types fit them, each its own.
fn all_fit<C: Classes>(
    types: &[FieldType<'_>],
    values: &[Value],
    heap: &BTreeMap<u32, Object<'_>>,
    classes: &C,
) -> bool
    ensures { IsTrue result ↔ AllFit (world_of (C.content classes.now)) (heap_view heap.now) (map type_of types.now)
        (map value_view values.now) }
{
    match types {
        [] => values.is_empty(),
        [t, types @ ..] => match values {
            [] => false,
            [value, values @ ..] => {
                fits(*t, *value, heap, classes) && all_fit(types, values, heap, classes)
            }
        },
    }
}

impl<'a> Beginning<'a> {
    /// The beginning of a method.
    pub(crate) fn of(
        alloc: Global,
        method: &CodeMethod<'_, 'a>,
    ) -> Result<Beginning<'a>, AllocError>
        ensures { IfOk result (λ b. beginning_view b ≡ begins method.now) }
    {
        Ok(Beginning {
            class: class_name(method),
            receiver: receiver_of(method),
            types: types_of(alloc, method)?,
            max_locals: method.code.max_locals,
        })
    }

    // Whether the method may begin with these arguments after a receiver, all of the values together, and with these
    // objects.
    fn may_take<C: Classes>(
        &self,
        own: Option<u32>,
        values: &[Value],
        arguments: &[Value],
        heap: &BTreeMap<u32, Object<'_>>,
        classes: &C,
    ) -> bool
        ensures { IsTrue result ↔ BehindReceiver (world_of (C.content classes.now)) (beginning_view self.now) own
            (map value_view values.now) (map value_view arguments.now) (heap_view heap.now) }
    {
        if !all_fit(&self.types.params, arguments, heap, classes) {
            return false;
        }
        if !has_room(0, values, self.max_locals) {
            return false;
        }
        are_objects(own, heap)
    }

    // Whether it may begin with a receiver that is initialized.
    fn may_receive<C: Classes>(
        &self,
        values: &[Value],
        heap: &BTreeMap<u32, Object<'_>>,
        classes: &C,
    ) -> bool
        requires { (beginning_view self.now).receiver ≡ ready_receiver }
        ensures { IsTrue result ↔ MayBegin (world_of (C.content classes.now)) (beginning_view self.now)
            (map value_view values.now) (heap_view heap.now) }
    {
        let [receiver, arguments @ ..] = values else {
            return false;
        };
        if !is_receiver(*receiver, self.class, heap, classes) {
            return false;
        }
        self.may_take(None, values, arguments, heap, classes)
    }

    // Whether it may begin with its own object, yet to be initialized.
    fn may_make<C: Classes>(
        &self,
        values: &[Value],
        heap: &BTreeMap<u32, Object<'_>>,
        classes: &C,
    ) -> bool
        requires { (beginning_view self.now).receiver ≡ own_receiver }
        ensures { IsTrue result ↔ MayBegin (world_of (C.content classes.now)) (beginning_view self.now)
            (map value_view values.now) (heap_view heap.now) }
    {
        let [receiver, arguments @ ..] = values else {
            return false;
        };
        let Some(own) = own_at(*receiver, self.class, heap, classes) else {
            return false;
        };
        self.may_take(Some(own), values, arguments, heap, classes)
    }

    // How many values it begins with.
    fn count(&self) -> usize
        ensures { result ≡ values_of (beginning_view self.now) }
    {
        match self.receiver {
            Receiver::Nothing => self.types.params.len(),
            Receiver::Ready | Receiver::Own => self.types.params.len() + 1,
        }
    }

    /// Whether the method may begin with these values, its receiver first, and with these objects.
    pub(crate) fn may_begin<C: Classes>(
        &self,
        values: &[Value],
        heap: &BTreeMap<u32, Object<'_>>,
        classes: &C,
    ) -> bool
        ensures { IsTrue result ↔ MayBegin (world_of (C.content classes.now)) (beginning_view self.now)
            (map value_view values.now) (heap_view heap.now) }
    {
        match self.receiver {
            Receiver::Nothing => self.may_take(None, values, values, heap, classes),
            Receiver::Ready => self.may_receive(values, heap, classes),
            Receiver::Own => self.may_make(values, heap, classes),
        }
    }
}

// Puts a value after the others, a long or double with its second half.
fn put_value(value: Value, locals: &mut Vec<Slot>) -> Result<(), AllocError>
    ensures { OnOk result (locals_of locals.new.items ≡ locals_of locals.old.items
        ++ in_slots (value_view value ∷ [])) }
{
    locals.push(Slot::Value(value))?;
    if !is_wide_value(value) {
        return Ok(());
    }
    locals.push(Slot::Second)?;
    Ok(())
}

// So many local variables, the first of these values and the others empty.
fn locals_with(alloc: Global, values: &[Value], limit: u16) -> Result<Vec<Slot>, AllocError>
    requires { length (in_slots (map value_view values.now)) ≤ limit }
    ensures { IfOk result (λ v. locals_of v.items ≡ all_slots limit (map value_view values.now)) }
{
    let mut locals = Vec::with_capacity(alloc, usize::from(limit))?;
    for value in values {
        put_value(*value, &mut locals)?;
    }
    locals.resize(usize::from(limit), Slot::Empty)?;
    Ok(locals)
}

/// The state in which the method begins with these arguments, of which the receiver is the first where it has one, and
/// with these objects, in the world that has these classes and no other (JVMS 2.6.1, 4.10.1.6).
///
/// Refused is, by 55, what it does not begin with: a receiver that is null or of another class, or in an instance
/// initialization method is not its own object; another number of arguments than its descriptor has parameters, or one
/// that does not fit its type; values that take more units than max_locals; an object that is yet to be initialized and
/// is not the receiver. Or 1.
pub fn initial<'a, C: Classes>(
    alloc: Global,
    method: &Method<'_, 'a>,
    args: &[Value],
    heap: &BTreeMap<u32, Object<'a>>,
    classes: &C,
) -> Result<State<'a>, StepFault>
    ensures begins { IfOk result (λ s. IsBeginning (world_of (C.content classes.now)) (method_view method.now)
        (map value_view args.now) (heap_view heap.now) (state_view s)) }
    ensures refused { IfErr result (λ e. (e ≡ OutOfMemory) ⊎ ((e ≡ NotInitial)
        × ((s : Moment) → IsBeginning (world_of (C.content classes.now)) (method_view method.now)
        (map value_view args.now) (heap_view heap.now) s → ⊥))) }
{
    let beginning = Beginning::of(alloc, &method.declared)?;
    if !beginning.may_begin(args, heap, classes) {
        return Err(StepFault::NotInitial);
    }
    Ok(State {
        at: 0,
        stack: Vec::new(alloc),
        locals: locals_with(alloc, args, beginning.max_locals)?,
        heap: copy_of(heap)?,
    })
}

/// Whether the method begins in this state, in the world that has these classes and no other (JVMS 2.6.1, 4.10.1.6).
/// Its code is not looked at. It fails only if memory runs out.
pub fn is_initial<'a, C: Classes>(
    alloc: Global,
    method: &CodeMethod<'_, 'a>,
    state: &State<'a>,
    classes: &C,
) -> Result<bool, AllocError>
    ensures { IfOk result (λ b. IsTrue b
        ↔ IsInitial {A = ℕ} (world_of (C.content classes.now)) (code_method_view method.now [])
        (state_view state.now)) }
{
    if state.offset() != 0 {
        return Ok(false);
    }
    if !state.stack.is_empty() {
        return Ok(false);
    }
    let beginning = Beginning::of(alloc, method)?;
    if state.locals.len() != usize::from(beginning.max_locals) {
        return Ok(false);
    }
    let mut values = Vec::new(alloc);
    if !take_values(beginning.count(), &state.locals, &mut values)? {
        return Ok(false);
    }
    Ok(beginning.may_begin(&values, &state.heap, classes))
}
