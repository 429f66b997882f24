//! Values, and what a local variable holds (JVMS 2.6).
ghost use Rattle.std.specs.Prelude.{◌≡◌, ◌↔◌, IsTrue};
ghost use Rattle.machine.specs.Values.{number as number_of, is_wide_value, is_wide_slot, place_of};
ghost use Rattle.machine.specs.private.Decided.{is_second};
ghost use Rattle.machine.specs.Views.{value_view, slot_view};

use insn::{Kind, StackPlace};

/// A value (JVMS 2.2). Of a number it has the kind alone.
#[derive(Clone, Copy, Debug, PartialEq, Eq)]
pub enum Value {
    /// An int; also what a boolean, byte, char or short is computed as.
    Int,
    Float,
    /// A long, which takes two units.
    Long,
    /// A double, which takes two units.
    Double,
    /// The null reference.
    Null,
    /// A reference to the object at this address.
    Ref(u32),
}

/// The content of a local variable (JVMS 2.6.1).
#[derive(Clone, Copy, Debug, PartialEq, Eq)]
pub enum Slot {
    /// Nothing.
    Empty,
    /// The second half of a long or double, which the local variable before it holds.
    Second,
    Value(Value),
}

/// The number of the kind.
pub fn number(kind: Kind) -> Value
    ensures { value_view result ≡ number_of kind }
{
    match kind {
        Kind::Int => Value::Int,
        Kind::Float => Value::Float,
        Kind::Long => Value::Long,
        Kind::Double => Value::Double,
    }
}

/// Whether the value is a number of the kind.
pub fn is_number(value: Value, kind: Kind) -> bool
    ensures { IsTrue result ↔ (value_view value ≡ number_of kind) }
{
    match value {
        Value::Int => matches!(kind, Kind::Int),
        Value::Float => matches!(kind, Kind::Float),
        Value::Long => matches!(kind, Kind::Long),
        Value::Double => matches!(kind, Kind::Double),
        Value::Null | Value::Ref(_) => false,
    }
}

/// Whether it is a long or double.
pub fn is_wide_value(value: Value) -> bool
    ensures { result ≡ is_wide_value (value_view value) }
{
    match value {
        Value::Long | Value::Double => true,
        Value::Int | Value::Float | Value::Null | Value::Ref(_) => false,
    }
}

/// Whether it holds a long or double.
pub fn is_wide_slot(slot: Slot) -> bool
    ensures { result ≡ is_wide_slot (slot_view slot) }
{
    match slot {
        Slot::Empty | Slot::Second => false,
        Slot::Value(value) => is_wide_value(value),
    }
}

/// Whether it is the second half of a long or double.
pub fn is_second(slot: Slot) -> bool
    ensures { result ≡ is_second (slot_view slot) }
{
    match slot {
        Slot::Second => true,
        Slot::Empty | Slot::Value(_) => false,
    }
}

/// The place that a value takes on the stack.
pub fn place_of(value: Value) -> StackPlace
    ensures { result ≡ place_of (value_view value) }
{
    match value {
        Value::Long | Value::Double => StackPlace::Wide,
        Value::Int | Value::Float | Value::Null | Value::Ref(_) => StackPlace::Narrow,
    }
}
