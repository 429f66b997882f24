//! Texts, names and descriptors of class files: modified UTF-8 (JVMS 4.4.7), the forms of names
//! (JVMS 4.2) and the types that descriptors name (JVMS 4.3).
//!
//! The calls are proved against the spelling of units (`specs/Texts.antt`), the forms of names
//! (`specs/Names.antt`) and the grammar of descriptors (`specs/Descriptors.antt`), with what each refusal
//! says of a text in `specs/Faults.antt`. The call to know is [`check_text`]: all others take the
//! [`Text`] that it gives, or what was read from one.
//!
//! - `text`: texts, and the units that they spell.
//! - `name`: whether a text is a class name, a field's name or a method's name.
//! - `forms`: the three of them in one pass.
//! - `class_names`: most class names, told by lanes.
//! - `byte_lanes`: bytes of one kind, sixteen or eight at a time.
//! - `one_byte_units`: bytes that spell a unit each.
//! - `plain_bytes`: where bytes end with which each name goes on, as most do.
//! - `base`, `descriptor`: the types that descriptors name, their widths, and their texts.
//! - `reading`: the types of a descriptor's text.
//! - `parameters`: the parameters of a method's descriptor, one by one.
//! - `shape`: how wide a method's descriptor is and whether it has a result, without the types.
//! - `name_run`, `type_end`: where the types of a descriptor end, for judging it without them.
//! - `field_descriptor`: whether a text is the descriptor of a field.
//! - `references`: the types of references, and those that Class constants name.
//! - `met_names`: names that were met.
//! - `standard`: names that the standard speaks of.
//! - `fault`: the refusals.
#![tactic(auto)]

mod base;
mod byte_lanes;
mod class_names;
mod descriptor;
mod fault;
mod field_descriptor;
mod forms;
mod met_names;
mod name;
mod name_run;
mod one_byte_units;
mod parameters;
mod plain_bytes;
mod reading;
mod references;
mod shape;
mod standard;
mod text;
mod type_end;

pub use base::{Base, Primitive};
pub use byte_lanes::first_set;
pub use descriptor::{FieldType, MethodType};
pub use fault::NameFault;
pub use field_descriptor::is_field_descriptor;
pub use forms::{NameForms, name_forms};
pub use met_names::MetNames;
pub use name::{is_class_name, is_field_name, is_method_name, names_by_units};
pub use parameters::{Parameters, parameter_types};
pub use reading::{
    brackets, field_answers, field_type, method_answers, method_type, one_field_type,
    one_method_type, primitive_of, result_type,
};
pub use references::{RefType, reference_type};
pub use shape::{MethodShape, method_shape};
pub use standard::{
    CLASS, CLONEABLE, INIT, METHOD_HANDLE, METHOD_TYPE, OBJECT, SERIALIZABLE, STRING, THROWABLE,
};
pub use text::{Text, TextUnits, check_text, one_unit_list, spell, text_answers, unit_at, units};
