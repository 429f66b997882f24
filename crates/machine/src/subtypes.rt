//! When a run-time type is below a type (JVMS 4.10.1.2).
ghost use Rattle.std.specs.Prelude.{◌≡◌, ◌↔◌, IsTrue};
ghost use Rattle.names.specs.Descriptors.{base_of, dimensioned};
ghost use Rattle.names.specs.ReferenceTypes.{descriptor_of};
ghost use Rattle.hierarchy.specs.Class.{world_of};
ghost use Rattle.machine.specs.Heap.{IsBelow};
ghost use Rattle.machine.specs.private.Decided.{is_above_all, is_above_arrays, class_below, same_primitive, type_below};
ghost use Rattle.machine.specs.Views.{run_type_view};

use crate::objects::RunType;
use hierarchy::{Answer, Classes};
use names::{Base, CLONEABLE, OBJECT, Primitive, SERIALIZABLE};

fn is_above_all<C: Classes>(name: &[u8], classes: &C) -> bool
    ensures { result ≡ is_above_all (C.content classes.now) name.now }
{
    name == OBJECT || matches!(classes.is_interface(name), Some(true))
}

fn class_below<C: Classes>(a: &[u8], b: &[u8], classes: &C) -> bool
    ensures { result ≡ class_below (C.content classes.now) a.now b.now }
{
    is_above_all(b, classes) || matches!(classes.is_subclass(a, b), Answer::Yes)
}

fn is_above_arrays<C: Classes>(name: &[u8], classes: &C) -> bool
    ensures { result ≡ is_above_arrays (C.content classes.now) name.now }
{
    is_above_all(name, classes) || name == CLONEABLE || name == SERIALIZABLE
}

fn same_primitive(p: Primitive, q: Primitive) -> bool
    ensures { result ≡ same_primitive p q }
{
    match p {
        Primitive::Byte => matches!(q, Primitive::Byte),
        Primitive::Char => matches!(q, Primitive::Char),
        Primitive::Double => matches!(q, Primitive::Double),
        Primitive::Float => matches!(q, Primitive::Float),
        Primitive::Int => matches!(q, Primitive::Int),
        Primitive::Long => matches!(q, Primitive::Long),
        Primitive::Short => matches!(q, Primitive::Short),
        Primitive::Boolean => matches!(q, Primitive::Boolean),
    }
}

// Below as many dimensions.
fn base_below<C: Classes>(x: Base<'_>, y: Base<'_>, classes: &C) -> bool
    ensures { result ≡ type_below (C.content classes.now) (base_of x.entry) (base_of y.entry) }
{
    match x {
        Base::Primitive(p) => match y {
            Base::Primitive(q) => same_primitive(p, q),
            Base::Class(_) => false,
        },
        Base::Class(a) => match y {
            Base::Primitive(_) => false,
            Base::Class(b) => class_below(a, b, classes),
        },
    }
}

// Below `d` and `e` dimensions.
fn component_below<C: Classes>(d: u8, x: Base<'_>, e: u8, y: Base<'_>, classes: &C) -> bool
    ensures { result ≡ type_below (C.content classes.now) (dimensioned d (base_of x.entry))
        (dimensioned e (base_of y.entry)) }
{
    if d < e {
        return false;
    }
    if d == e {
        return base_below(x, y, classes);
    }
    match y {
        Base::Primitive(_) => false,
        Base::Class(b) => is_above_arrays(b, classes),
    }
}

fn type_below<C: Classes>(x: RunType<'_>, t: RunType<'_>, classes: &C) -> bool
    ensures { result ≡ type_below (C.content classes.now) (descriptor_of (run_type_view x.entry))
        (descriptor_of (run_type_view t.entry)) }
{
    match x {
        RunType::Class(a) => match t {
            RunType::Class(b) => class_below(a, b, classes),
            RunType::Array { .. } => false,
        },
        RunType::Array { dims: d, base: p } => match t {
            RunType::Class(b) => is_above_arrays(b, classes),
            RunType::Array { dims: e, base: q } => {
                component_below(d.saturating_sub(1), p, e.saturating_sub(1), q, classes)
            }
        },
    }
}

/// Whether an object of the first type is below the second. Takes no memory.
pub fn is_below<C: Classes>(x: RunType<'_>, t: RunType<'_>, classes: &C) -> bool
    ensures { IsTrue result ↔ IsBelow (world_of (C.content classes.now)) (run_type_view x.entry)
        (run_type_view t.entry) }
{
    type_below(x, t, classes)
}
