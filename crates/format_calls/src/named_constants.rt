use layout::{Cursor, Part, ReadFault};
use names::{Base, FieldType, Primitive, RefType};
use pool::{ConstantTypes, FieldConstant, MethodConstant, Pool};
use std::alloc::{AllocError, Global};
use std::test::*;

/// At 6 a field of a long descriptor, at 9 a method of one, at 11 an array of a long name, and at 14 a method of a
/// short descriptor.
const NAMED: [u8; 121] = [
    0, 15, 1, 0, 1, 65, 7, 0, 1, 1, 0, 1, 102, 1, 0, 18, 76, 106, 97, 118, 97, 47, 108, 97, 110,
    103, 47, 83, 116, 114, 105, 110, 103, 59, 12, 0, 3, 0, 4, 9, 0, 2, 0, 5, 1, 0, 22, 40, 76, 106,
    97, 118, 97, 47, 108, 97, 110, 103, 47, 83, 116, 114, 105, 110, 103, 59, 73, 41, 86, 12, 0, 3,
    0, 7, 10, 0, 2, 0, 8, 1, 0, 19, 91, 76, 106, 97, 118, 97, 47, 108, 97, 110, 103, 47, 83, 116,
    114, 105, 110, 103, 59, 7, 0, 10, 1, 0, 4, 40, 74, 41, 73, 12, 0, 3, 0, 12, 11, 0, 2, 0, 13,
];

/// Whether the type is java/lang/String.
fn is_string(t: &FieldType<'_>) -> bool {
    t.dims == 0 && t.base == Base::Class(b"java/lang/String")
}

fn is_long_field(named: Option<FieldConstant<'_>>) -> bool {
    match named {
        None => false,
        Some(field) => {
            field.class == b"A".as_slice()
                && field.name == b"f".as_slice()
                && is_string(&field.field_type)
        }
    }
}

fn is_long_method(named: Option<MethodConstant<'_>>) -> bool {
    match named {
        None => false,
        Some(method) => {
            !method.interface
                && method.class == RefType::Class(b"A")
                && method.method_type.result.is_none()
                && matches!(method.method_type.params.as_slice(), [first, second]
                    if is_string(first) && second.base == Base::Primitive(Primitive::Int))
        }
    }
}

fn is_short_method(named: Option<MethodConstant<'_>>) -> bool {
    match named {
        None => false,
        Some(method) => {
            method.interface
                && method.method_type.result.is_some()
                && method.method_type.params.len() == 1
        }
    }
}

fn is_array(named: Option<RefType<'_>>) -> bool {
    matches!(named, Some(RefType::Array { dims: 1, base }) if base == Base::Class(b"java/lang/String"))
}

/// Whether each index names what stands there, and one of another kind nothing.
fn are_right(constants: &mut ConstantTypes<'_, '_>) -> Result<bool, AllocError> {
    let field = is_long_field(constants.field_constant(6)?);
    let long = is_long_method(constants.method_constant(9)?);
    let array = is_array(constants.class_type(11)?);
    let short = is_short_method(constants.method_constant(14)?);
    let other = constants.field_constant(9)?.is_some();
    Ok(field && long && array && short && !other)
}

/// Whether each index names what stands there when the texts are read, and again when they were.
fn are_named_twice(alloc: Global) -> Result<bool, AllocError> {
    let pool = match Pool::take(alloc, &mut Cursor::new(&NAMED)) {
        Ok(pool) => pool,
        Err(ReadFault::OutOfMemory) => return Err(AllocError),
        Err(_) => return Ok(false),
    };
    let mut constants = ConstantTypes::new(alloc, &pool);
    let once = are_right(&mut constants)?;
    let again = are_right(&mut constants)?;
    Ok(once && again)
}

#[test]
fn read_and_kept(rt: HostRuntime) {
    assert!(rt; matches!(are_named_twice(rt.alloc()), Ok(true)));
}

#[test]
fn want_of_memory(rt: HostRuntime) {
    assert!(rt; !matches!(are_named_twice(rt.alloc()), Ok(false)));
}
