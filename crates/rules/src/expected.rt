//! The expected types of operands and local variables.
ghost use Rattle.std.specs.Prelude.{◌≡◌, map, option_map, IfOk, Some, not, option_to_list};
ghost use Rattle.names.specs.StandardNames.{throwable_name};
ghost use Rattle.rules.specs.TypingRules.{ExpectedType, expected_class, number, expected_of, sizes, arguments_on};
ghost use Rattle.rules.specs.Views.{expected_view};
ghost use Rattle.rules.specs.Table.{object_array};
ghost use Rattle.rules.specs.Bodies.{method_view};
ghost use Rattle.pool.specs.ConstantViews.{field_constant_view};
ghost use Rattle.rules.specs.Constants.{target_of};
ghost use Rattle.rules.specs.Naming.{is_own};
ghost use Rattle.names.specs.Types.{type_of};

use classfile::CodeMethod;
use insn::{Kind, computed_as};
use names::{Base, FieldType, OBJECT, Primitive, RefType, THROWABLE};
use pool::FieldConstant;
use std::alloc::{AllocError, Global};

/// The expected type of an operand or a local variable.
#[derive(Clone, Copy, Debug)]
pub enum ExpectedType<'a> {
    /// A number of the kind.
    Number(Kind),
    /// A type that is assignable to this one.
    Assignable(RefType<'a>),
    /// Null, a class, an array or an object that is not initialized.
    Reference,
    /// Null or an array.
    Array,
    /// Null, or an array whose elements an instruction for this type takes.
    ArrayFor(Primitive),
    /// The own object that is not initialized, or a type that is assignable to this class.
    OwnOr(&'a [u8]),
}

/// The expected type of a field or a parameter of this type.
pub fn expected_of<'a>(t: &FieldType<'a>) -> ExpectedType<'a>
    ensures { expected_view result ≡ expected_of (type_of t.now) }
{
    match t.dims {
        0 => match t.base {
            Base::Primitive(primitive) => ExpectedType::Number(computed_as(primitive)),
            Base::Class(name) => ExpectedType::Assignable(RefType::Class(name)),
        },
        dims => ExpectedType::Assignable(RefType::Array { dims, base: t.base }),
    }
}

/// An object that may be raised (JVMS 2.10).
pub fn throwable<'a>() -> ExpectedType<'a>
    ensures { expected_view result ≡ expected_class throwable_name }
{
    ExpectedType::Assignable(RefType::Class(THROWABLE))
}

/// Any array of references.
pub fn object_array<'a>() -> ExpectedType<'a>
    ensures { expected_view result ≡ object_array }
{
    ExpectedType::Assignable(RefType::Array {
        dims: 1,
        base: Base::Class(OBJECT),
    })
}

/// The expected types of so many sizes of dimensions.
pub fn sizes<'a>(alloc: Global, count: u8) -> Result<Vec<ExpectedType<'a>>, AllocError>
    ensures { IfOk result (λ v. map expected_view v.items ≡ sizes count) }
{
    let mut expected_types = Vec::new(alloc);
    expected_types.resize(usize::from(count), ExpectedType::Number(Kind::Int))?;
    Ok(expected_types)
}

/// The expected type of the object of a `putfield`: in a constructor it may be the own object, if the current class
/// declares the field.
pub fn target_of<'a>(
    _method: &CodeMethod<'_, 'a>,
    field: &FieldConstant<'a>,
    own: bool,
) -> ExpectedType<'a>
    requires { own ≡ is_own (method_view _method.now) (Some (field_constant_view field.now)) }
    ensures { expected_view result ≡ target_of (method_view _method.now) (field_constant_view field.now) }
{
    if own {
        ExpectedType::OwnOr(field.class)
    } else {
        ExpectedType::Assignable(RefType::Class(field.class))
    }
}

/// The expected types of parameters.
fn expected_types_of<'a>(
    alloc: Global,
    parameters: &[FieldType<'a>],
) -> Result<Vec<ExpectedType<'a>>, AllocError>
    ensures { IfOk result (λ v. map expected_view v.items ≡ map expected_of (map type_of parameters.now)) }
{
    let mut expected_types = Vec::with_capacity(alloc, parameters.len())?;
    for parameter in parameters {
        expected_types.push(expected_of(parameter))?;
    }
    Ok(expected_types)
}

/// The expected types of a call from the top of the stack down: its arguments, the last one first, and a receiver
/// beneath them, if it has one.
pub fn arguments_on<'a>(
    alloc: Global,
    parameters: &[FieldType<'a>],
    receiver: Option<ExpectedType<'a>>,
) -> Result<Vec<ExpectedType<'a>>, AllocError>
    ensures { IfOk result (λ v. map expected_view v.items
        ≡ arguments_on (map type_of parameters.now) (option_to_list (option_map expected_view receiver.entry))) }
{
    let mut expected_types = expected_types_of(alloc, parameters)?;
    expected_types.reverse();
    match receiver {
        None => Ok(expected_types),
        Some(expected) => {
            expected_types.push(expected)?;
            Ok(expected_types)
        }
    }
}
