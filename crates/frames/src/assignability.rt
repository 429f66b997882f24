//! When a type may stand where another is wanted.
ghost use Rattle.std.specs.Prelude.{◌≡◌};
ghost use Rattle.names.specs.Descriptors.{base_of, dimensioned};
ghost use Rattle.hierarchy.specs.Answer.{outcome_of};
ghost use Rattle.frames.specs.VerificationType.{type_of};
ghost use Rattle.frames.specs.Assignable.{class_answer, component_answer, type_answer, is_above_arrays};

use crate::vtype::VType;
use hierarchy::{Answer, Classes};
use names::{Base, CLONEABLE, OBJECT, SERIALIZABLE};

// Class `from` to class `to`.
fn class_assignable<'n, C: Classes>(from: &'n [u8], to: &'n [u8], classes: &C) -> Answer<'n>
    ensures { outcome_of result ≡ class_answer (C.content classes.now) from.now to.now }
{
    if from == to || to == OBJECT {
        return Answer::Yes;
    }
    match classes.is_interface(to) {
        None => Answer::Missing(to),
        Some(true) => Answer::Yes,
        Some(false) => classes.is_subclass(from, to),
    }
}

// Whether every array is assignable to the class `to`.
fn is_above_arrays(to: &[u8]) -> bool
    ensures { result ≡ is_above_arrays to.now }
{
    to == OBJECT || to == CLONEABLE || to == SERIALIZABLE
}

// Arrays of equally many dimensions.
fn bases_assignable<'n, C: Classes>(x: Base<'n>, y: Base<'n>, classes: &C) -> Answer<'n>
    ensures { outcome_of result ≡ component_answer (C.content classes.now) (base_of x.entry) (base_of y.entry) }
{
    match (x, y) {
        (Base::Primitive(p), Base::Primitive(q)) => Answer::yes_if(p == q),
        (Base::Class(a), Base::Class(b)) => class_assignable(a, b, classes),
        _ => Answer::No,
    }
}

// Arrays whose components have `d` and `e` dimensions.
fn components_assignable<'n, C: Classes>(
    d: u8,
    x: Base<'n>,
    e: u8,
    y: Base<'n>,
    classes: &C,
) -> Answer<'n>
    ensures { outcome_of result
        ≡ component_answer (C.content classes.now) (dimensioned d (base_of x.entry)) (dimensioned e (base_of y.entry)) }
{
    if d < e {
        return Answer::No;
    }
    if d == e {
        return bases_assignable(x, y, classes);
    }
    match y {
        Base::Primitive(_) => Answer::No,
        Base::Class(to) => Answer::yes_if(is_above_arrays(to)),
    }
}

/// Whether a value of type `from` may stand where one of type `to` is wanted (JVMS 4.10.1.2). Takes no memory.
///
/// Each type is assignable to itself and to `Top`, and null to every class and array. A class is assignable to itself,
/// to `java/lang/Object`, to every interface, and to the classes on its chain of superclasses. An array is assignable
/// to `java/lang/Object`, `java/lang/Cloneable` and `java/io/Serializable`, and to an array of the same primitive type
/// or of a reference type that its own is assignable to.
///
/// Where two classes have to be looked up, `Missing` carries the first of `to` and `from` that is absent.
pub fn assignable<'n, C: Classes>(from: &VType<'n>, to: &VType<'n>, classes: &C) -> Answer<'n>
    ensures { outcome_of result ≡ type_answer (C.content classes.now) (type_of from.now) (type_of to.now) }
{
    match (*from, *to) {
        (_, VType::Top) => Answer::Yes,
        (VType::Int, VType::Int) => Answer::Yes,
        (VType::Float, VType::Float) => Answer::Yes,
        (VType::Long, VType::Long) => Answer::Yes,
        (VType::Double, VType::Double) => Answer::Yes,
        (VType::Null, VType::Null | VType::Class(_) | VType::Array { .. }) => Answer::Yes,
        (VType::Class(a), VType::Class(b)) => class_assignable(a, b, classes),
        (VType::Array { .. }, VType::Class(b)) => Answer::yes_if(is_above_arrays(b)),
        (VType::Array { dims: d, base: x }, VType::Array { dims: e, base: y }) => {
            components_assignable(d.saturating_sub(1), x, e.saturating_sub(1), y, classes)
        }
        (VType::UninitThis, VType::UninitThis) => Answer::Yes,
        (VType::Uninit(p), VType::Uninit(q)) => Answer::yes_if(p == q),
        _ => Answer::No,
    }
}
