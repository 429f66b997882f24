//! The meaning of constants to an instruction that names them (JVMS 4.4.1, 4.4.2, 4.4.10).
ghost use Rattle.std.specs.Prelude.{◌≡◌, IfOk, IfSome, Ok, option_map, false};
ghost use Rattle.names.specs.Descriptors.{method_width};
ghost use Rattle.names.specs.ReferenceTypes.{array_of, reference_type};
ghost use Rattle.names.specs.Types.{type_of, method_of};
ghost use Rattle.pool.specs.ConstantMeanings.{class_at, field_at, method_at, dynamic_type_at, call_site_at};
ghost use Rattle.machine.specs.private.Constants.{field_view, constant_view, site_view};
ghost use Rattle.machine.specs.Views.{run_type_view};

use crate::objects::RunType;
use names::{FieldType, MethodType, NameFault, Text, field_type, method_type};
use pool::Pool;
use std::alloc::{AllocError, Global};

/// A field that a constant names.
#[derive(Clone, Copy)]
pub struct FieldConstant<'a> {
    pub class: &'a [u8],
    pub name: &'a [u8],
    pub descriptor: &'a [u8],
    pub field_type: FieldType<'a>,
}

/// A method that a constant names.
#[derive(Drop)]
pub struct MethodConstant<'a> {
    /// Whether the constant is an InterfaceMethodref.
    pub interface: bool,
    pub class: RunType<'a>,
    pub name: &'a [u8],
    pub descriptor: &'a [u8],
    pub method_type: MethodType<'a>,
    /// How many units its arguments take, without a receiver.
    pub units: u16,
}

/// A call that has no receiver, as a constant names it.
#[derive(Drop)]
pub struct CallSite<'a> {
    pub name: &'a [u8],
    pub method_type: MethodType<'a>,
}

// An array of at least one dimension.
fn array(t: FieldType<'_>) -> Option<RunType<'_>>
    ensures { option_map run_type_view result ≡ array_of (Ok (type_of t.entry)) }
{
    match t.dims {
        0 => None,
        dims => Some(RunType::Array { dims, base: t.base }),
    }
}

// The type that a Class constant of this text names (JVMS 4.4.1).
fn reference(text: Text<'_>) -> Option<RunType<'_>>
    ensures { option_map run_type_view result ≡ reference_type text.entry.bytes.now }
{
    let bytes = text.bytes();
    match bytes.first() {
        Some(b'[') => match field_type(text) {
            Ok(t) => array(t),
            Err(_) => None,
        },
        _ => Some(RunType::Class(bytes)),
    }
}

/// The type that the Class constant at this index names. Takes no memory.
pub fn class_at<'a>(pool: &Pool<'a>, index: u16) -> Option<RunType<'a>>
    ensures { option_map run_type_view result ≡ class_at pool.now index }
{
    match pool.class_name(index) {
        Ok(text) => reference(text),
        Err(_) => None,
    }
}

/// The field that the Fieldref at this index names, of a class and no array. Takes no memory.
pub fn field_at<'a>(pool: &Pool<'a>, index: u16) -> Option<FieldConstant<'a>>
    ensures { option_map field_view result ≡ field_at pool.now index }
{
    let Ok(found) = pool.field_ref(index) else {
        return None;
    };
    let Some(RunType::Class(class)) = reference(found.class) else {
        return None;
    };
    let Ok(field_type) = field_type(found.descriptor) else {
        return None;
    };
    Some(FieldConstant {
        class,
        name: found.name.bytes(),
        descriptor: found.descriptor.bytes(),
        field_type,
    })
}

/// The method that the Methodref or InterfaceMethodref at this index names.
pub fn method_at<'a>(
    alloc: Global,
    pool: &Pool<'a>,
    index: u16,
) -> Result<Option<MethodConstant<'a>>, AllocError>
    ensures named { IfOk result (λ o. option_map constant_view o ≡ method_at pool.now index) }
    ensures units { IfOk result (λ o. IfSome o (λ c. c.units ≡ method_width (method_of c.method_type) false)) }
{
    let Ok(found) = pool.method_ref(index) else {
        return Ok(None);
    };
    let Some(class) = reference(found.class) else {
        return Ok(None);
    };
    match method_type(alloc, found.descriptor, false) {
        Ok(method_type) => Ok(Some(MethodConstant {
            interface: found.interface,
            class,
            name: found.name.bytes(),
            descriptor: found.descriptor.bytes(),
            units: method_type.width(false),
            method_type,
        })),
        Err(NameFault::OutOfMemory) => Err(AllocError),
        Err(_) => Ok(None),
    }
}

/// The type of the constant that the Dynamic at this index has computed. Takes no memory.
pub fn dynamic_type_at<'a>(pool: &Pool<'a>, index: u16) -> Option<FieldType<'a>>
    ensures { option_map type_of result ≡ dynamic_type_at pool.now index }
{
    match pool.dynamic(index) {
        Ok(found) => field_type(found.descriptor).ok(),
        Err(_) => None,
    }
}

/// The call site that the InvokeDynamic at this index names.
pub fn call_site_at<'a>(
    alloc: Global,
    pool: &Pool<'a>,
    index: u16,
) -> Result<Option<CallSite<'a>>, AllocError>
    ensures { IfOk result (λ o. option_map site_view o ≡ call_site_at pool.now index) }
{
    let Ok(found) = pool.invoke_dynamic(index) else {
        return Ok(None);
    };
    match method_type(alloc, found.descriptor, false) {
        Ok(method_type) => Ok(Some(CallSite {
            name: found.name.bytes(),
            method_type,
        })),
        Err(NameFault::OutOfMemory) => Err(AllocError),
        Err(_) => Ok(None),
    }
}
