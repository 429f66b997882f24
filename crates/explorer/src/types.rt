//! The types that a class names, of which objects are made.
use classfile::ClassFile;
use machine::RunType;
use names::{
    FieldType, OBJECT, RefType, STRING, THROWABLE, Text, field_type, reference_type, result_type,
};
use pool::{Constant, Pool};
use std::alloc::{AllocError, Global};

/// The objects that are of just this type.
pub fn run_type(t: RefType<'_>) -> RunType<'_> {
    match t {
        RefType::Class(name) => RunType::Class(name),
        RefType::Array { dims, base } => RunType::Array { dims, base },
    }
}

/// Adds the type of the references that a field of this type holds, if it holds references.
fn add_referred<'a>(t: FieldType<'a>, types: &mut Vec<RunType<'a>>) -> Result<(), AllocError> {
    if let Some(referred) = t.reference() {
        types.push(run_type(referred))?;
    }
    Ok(())
}

/// Adds the type that a text names as a descriptor: that of a field, or of the result of a method.
fn add_described<'a>(text: Text<'a>, types: &mut Vec<RunType<'a>>) -> Result<(), AllocError> {
    if let Ok(t) = field_type(text) {
        add_referred(t, types)?;
    }
    if let Some(t) = result_type(text) {
        add_referred(t, types)?;
    }
    Ok(())
}

/// Adds the type that the text at an index names as the name of a class.
fn add_named<'a>(
    pool: &Pool<'a>,
    name: u16,
    types: &mut Vec<RunType<'a>>,
) -> Result<(), AllocError> {
    if let Ok(text) = pool.text(name) {
        if let Some(t) = reference_type(text) {
            types.push(run_type(t))?;
        }
    }
    Ok(())
}

/// The types of references that the constants of a class name, and some that each class knows.
pub fn types_of<'a>(alloc: Global, class: &ClassFile<'a>) -> Result<Vec<RunType<'a>>, AllocError> {
    let pool = &class.constant_pool;
    let mut types = Vec::new(alloc);
    for name in [OBJECT, STRING, THROWABLE] {
        types.push(RunType::Class(name))?;
    }
    for constant in pool.constants() {
        match *constant {
            Constant::Utf8(text) => add_described(text, &mut types)?,
            Constant::Class { name } => add_named(pool, name, &mut types)?,
            _ => {}
        }
    }
    Ok(types)
}
