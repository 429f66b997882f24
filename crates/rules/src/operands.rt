//! Whether a type meets an expected type.
ghost use Rattle.std.specs.Prelude.{◌≡◌, true};
ghost use Rattle.hierarchy.specs.Answer.{outcome_of, yes_if};
ghost use Rattle.frames.specs.VerificationType.{type_of};
ghost use Rattle.rules.specs.Rules.{accepts, is_array, is_array_for, is_reference, own_or_answer};
ghost use Rattle.rules.specs.Views.{expected_view};

use crate::expected::ExpectedType;
use frames::{VType, assignable, number_type, reference_to};
use hierarchy::{Answer, Classes};
use insn::takes_array;
use names::{Base, Primitive};

/// Whether a type is that of a reference, initialized or not.
fn is_reference(t: &VType<'_>) -> bool
    ensures { result ≡ is_reference (type_of t.now) }
{
    match *t {
        VType::Top | VType::Int | VType::Float | VType::Long | VType::Double => false,
        VType::Null
        | VType::Class(_)
        | VType::Array { .. }
        | VType::UninitThis
        | VType::Uninit(_) => true,
    }
}

/// Whether a type is that of an array, or null.
fn is_array(t: &VType<'_>) -> bool
    ensures { result ≡ is_array (type_of t.now) }
{
    match *t {
        VType::Null | VType::Array { .. } => true,
        VType::Top
        | VType::Int
        | VType::Float
        | VType::Long
        | VType::Double
        | VType::Class(_)
        | VType::UninitThis
        | VType::Uninit(_) => false,
    }
}

/// Whether a type is null, or that of an array whose elements an instruction for the primitive type takes.
fn is_array_for(primitive: Primitive, t: &VType<'_>) -> bool
    ensures { result ≡ is_array_for primitive (type_of t.now) }
{
    match *t {
        VType::Null => true,
        VType::Array { dims: 0 | 1, base } => match base {
            Base::Primitive(element) => takes_array(primitive, element),
            Base::Class(_) => false,
        },
        VType::Top
        | VType::Int
        | VType::Float
        | VType::Long
        | VType::Double
        | VType::Class(_)
        | VType::Array { .. }
        | VType::UninitThis
        | VType::Uninit(_) => false,
    }
}

/// Whether a type is that of the own object that is not initialized, or is assignable to a class.
fn own_or_answer<'a, C: Classes>(name: &'a [u8], t: &VType<'a>, classes: &C) -> Answer<'a>
    ensures { outcome_of result ≡ own_or_answer (C.content classes.now) name.now (type_of t.now) }
{
    match *t {
        VType::UninitThis => Answer::Yes,
        _ => assignable(t, &VType::Class(name), classes),
    }
}

/// Whether a type meets an expected type.
pub fn accepts<'a, C: Classes>(expected: ExpectedType<'a>, t: &VType<'a>, classes: &C) -> Answer<'a>
    ensures { outcome_of result ≡ accepts (C.content classes.now) (expected_view expected.entry) (type_of t.now) }
{
    match expected {
        ExpectedType::Number(kind) => assignable(t, &number_type(kind), classes),
        ExpectedType::Assignable(to) => assignable(t, &reference_to(to), classes),
        ExpectedType::Reference => Answer::yes_if(is_reference(t)),
        ExpectedType::Array => Answer::yes_if(is_array(t)),
        ExpectedType::ArrayFor(primitive) => Answer::yes_if(is_array_for(primitive, t)),
        ExpectedType::OwnOr(name) => own_or_answer(name, t, classes),
    }
}
