//! On which objects a constructor may be called.
ghost use Rattle.std.specs.Prelude.{◌≡◌, option_map};
ghost use Rattle.classfile.specs.Methods.{is_name};
ghost use Rattle.frames.specs.VerificationType.{type_of};
ghost use Rattle.rules.specs.Table.{class_made_at};
ghost use Rattle.rules.specs.Rules.{may_construct};
ghost use Rattle.rules.specs.Bodies.{method_view};

use crate::declaring_class::{class_named, own_class, superclass};
use classfile::CodeMethod;
use frames::{Starts, VType};

/// The class that the `new` at an offset makes an object of, if there is one.
fn class_made_at<'a, S: Starts>(
    method: &CodeMethod<'_, 'a>,
    starts: &S,
    at: u16,
) -> Option<&'a [u8]>
    requires code { S.code starts.now ≡ (method_view method.now).code }
    ensures { option_map (λ n. n.now) result ≡ class_made_at (method_view method.now) at }
{
    match starts.class_index(at) {
        None => None,
        Some(index) => class_named(&method.class.constant_pool, index),
    }
}

/// Whether there is a class, and it has this name.
fn is_name(known: Option<&[u8]>, name: &[u8]) -> bool
    ensures { result ≡ is_name (option_map (λ n. n.now) known.entry) name.now }
{
    match known {
        None => false,
        Some(other) => other == name,
    }
}

/// Whether a constructor of the class may be called on the object: on the own object, one of the current class or of
/// its direct superclass; on another object, one of the class of which `new` made it.
pub fn may_construct<S: Starts>(
    method: &CodeMethod<'_, '_>,
    starts: &S,
    name: &[u8],
    object: &VType<'_>,
) -> bool
    requires code { S.code starts.now ≡ (method_view method.now).code }
    ensures { result ≡ may_construct (method_view method.now) name.now (type_of object.now) }
{
    match *object {
        VType::UninitThis => own_class(method) == name || is_name(superclass(method), name),
        VType::Uninit(at) => is_name(class_made_at(method, starts, at), name),
        VType::Top
        | VType::Int
        | VType::Float
        | VType::Long
        | VType::Double
        | VType::Null
        | VType::Class(_)
        | VType::Array { .. } => false,
    }
}
