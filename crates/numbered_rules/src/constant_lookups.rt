//! The constants that instructions name, by the table of a class's constants.
ghost use Rattle.std.specs.Prelude.{List, option_map};
ghost use Rattle.pool.specs.Entries.{Entry};
ghost use Rattle.pool.specs.ConstantMeanings.{class_at, field_at, method_at, dynamic_type_at, call_site_at};
ghost use Rattle.classfile.specs.Methods.{class_named};
ghost use Rattle.frames.specs.VerificationType.{class as class_of};
ghost use Rattle.frames.specs.Slots.{descriptor_type, to_reference};
ghost use Rattle.type_numbers.specs.Numbers.{Numbering, IsNumberOf};
ghost use Rattle.type_numbers.specs.Constants.{IsTable, arguments_of, loaded_at};
ghost use Rattle.rules.specs.Bodies.{method_view};
ghost use Rattle.numbered_rules.specs.private.Named.{IsFieldOf, IsMethodOf, IsSiteOf};

use crate::class_operands::dimensions;
use classfile::CodeMethod;
use type_numbers::{ConstantTable, MethodNumbers, NamedConstant};

/// A field that an instruction names.
#[derive(Clone, Copy)]
pub struct NamedField {
    /// The number of its class.
    pub class: u32,
    /// The number of the type that it holds.
    pub held: u32,
}

/// A method that an instruction names.
#[derive(Clone, Copy)]
pub struct NamedMethod {
    /// The constant is an InterfaceMethodref.
    pub interface: bool,
    /// The name is `<init>` (JVMS 2.9.1).
    pub init: bool,
    /// The number of the type that is asked for it, which may be an array.
    pub class: u32,
    /// The types of its descriptor.
    pub types: MethodNumbers,
}

/// A call site that an instruction names.
#[derive(Clone, Copy)]
pub struct NamedSite {
    /// The name begins with '<'.
    pub special: bool,
    /// The types of its descriptor.
    pub types: MethodNumbers,
}

/// The number of the type that the Class at an index names.
pub fn class_at(table: &ConstantTable, index: u16) -> Option<u32>
    ensures { (s : Numbering) (pool : List Entry) → IsTable s pool table.now
        → IsNumberOf s result (option_map to_reference (class_at pool index)) }
{
    match table.get(index) {
        NamedConstant::Class { class, .. } => Some(class),
        _ => None,
    }
}

/// The number of the class that the Class at an index names, which is not an array.
pub fn class_named(table: &ConstantTable, index: u16) -> Option<u32>
    ensures { (s : Numbering) (pool : List Entry) → IsTable s pool table.now
        → IsNumberOf s result (option_map class_of (class_named (class_at pool index))) }
{
    let Some(class) = class_at(table, index) else {
        return None;
    };
    if dimensions(class) == 0 {
        Some(class)
    } else {
        None
    }
}

/// The number of the direct superclass of the class that declares a method, which Object alone has not (JVMS 4.1).
pub fn superclass(method: &CodeMethod<'_, '_>, table: &ConstantTable) -> Option<u32>
    ensures { let m = method_view method.now in (s : Numbering) → IsTable s m.constant_pool table.now
        → IsNumberOf s result (option_map class_of m.superclass) }
{
    let index = method.class.super_class;
    if index == 0 {
        None
    } else {
        class_named(table, index)
    }
}

/// The field that the Fieldref at an index names.
pub fn field_at(table: &ConstantTable, index: u16) -> Option<NamedField>
    ensures { (s : Numbering) (pool : List Entry) → IsTable s pool table.now
        → IsFieldOf s result (field_at pool index) }
{
    match table.get(index) {
        NamedConstant::Field { class, held } => Some(NamedField { class, held }),
        _ => None,
    }
}

/// The method that the Methodref or InterfaceMethodref at an index names.
pub fn method_at(table: &ConstantTable, index: u16) -> Option<NamedMethod>
    ensures { (s : Numbering) (pool : List Entry) → IsTable s pool table.now
        → IsMethodOf s (arguments_of table.now) result (method_at pool index) }
{
    match table.get(index) {
        NamedConstant::Method {
            interface,
            init,
            class,
            types,
        } => Some(NamedMethod {
            interface,
            init,
            class,
            types,
        }),
        _ => None,
    }
}

/// The number of the type that the constant at an index loads by its kind.
pub fn loaded_at(table: &ConstantTable, index: u16) -> Option<u32>
    ensures { (s : Numbering) (pool : List Entry) → IsTable s pool table.now
        → IsNumberOf s result (loaded_at pool index) }
{
    match table.get(index) {
        NamedConstant::Class { loaded, .. } | NamedConstant::Loaded { loaded } => Some(loaded),
        _ => None,
    }
}

/// The number of the type that the constant of the Dynamic at an index has.
pub fn computed_at(table: &ConstantTable, index: u16) -> Option<u32>
    ensures { (s : Numbering) (pool : List Entry) → IsTable s pool table.now
        → IsNumberOf s result (option_map descriptor_type (dynamic_type_at pool index)) }
{
    match table.get(index) {
        NamedConstant::Dynamic { held } => Some(held),
        _ => None,
    }
}

/// The call site that the InvokeDynamic at an index names.
pub fn site_at(table: &ConstantTable, index: u16) -> Option<NamedSite>
    ensures { (s : Numbering) (pool : List Entry) → IsTable s pool table.now
        → IsSiteOf s (arguments_of table.now) result (call_site_at pool index) }
{
    match table.get(index) {
        NamedConstant::Site { special, types } => Some(NamedSite { special, types }),
        _ => None,
    }
}
