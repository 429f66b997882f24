//! Class files (JVMS chapter 4): the bytes of a class as a value, and back.
//!
//! Reading and writing are proved against one layout, the relation `IsClass` of `specs/ClassFile.antt`:
//! [`decode`] returns a class exactly where the bytes spell one, and otherwise the first fault in the
//! file's order; [`encode`] returns the one spelling, exactly where there is one.
//!
//! [`form_check`] returns a [`Formed`] exactly where a class is well formed (`specs/WellFormed.antt`), and otherwise
//! the first place at which a rule is broken, with the least number.
//!
//! | File | What it holds |
//! |---|---|
//! | `class_file` | [`ClassFile`], its version and what stands after its pool |
//! | `member` | [`Member`], a field or a method |
//! | `attribute` | [`Attribute`] of a field, a method or a component of a record |
//! | `attribute_info` | the name and the body of an attribute, whatever it is |
//! | `class_attribute`, `component` | [`ClassAttribute`], and the [`Component`]s of a record |
//! | `bootstraps` | [`Bootstraps`], which bootstrap methods of a class may be used |
//! | `code` | [`CodeAttr`] and its [`ExceptionHandler`]s |
//! | `code_method` | [`CodeMethod`], a method of a well-formed class as its instructions see it |
//! | `nested` | [`NestedAttribute`], an attribute of a Code attribute |
//! | `location` | the table that an attribute stands in, and which are read by their parts there |
//! | `layouts` | attributes of numbers of two bytes, and how their bodies are laid out: [`AttributeLayout`] |
//! | `numbers` | [`Numbers`] of an attribute, row by row |
//! | `table` | a count and so many items, for all tables of a class file |
//! | `codec` | from bytes to a class, and back |
//! | `outline`, `reading` | [`read_class`], and how far a class reaches in a stream |
//! | `file_parts`, `skipping` | [`fault_part`], in which part of a file a fault of its bytes lies |
//! | `form` | [`form_check`], [`Formed`], and the places one after the other |
//! | `profile`, `versions` | [`Profile`], how the methods of a class are judged, and [`Versions`] that it takes |
//! | `form_fault` | [`FormRule`], [`Place`] and [`FormFault`] |
//! | `constant_form`, `class_form`, `member_form`, `attribute_form` | which rule is broken at a place |
//! | `number_form` | which rule is broken by an index in an attribute of numbers |
//! | `repeated_attributes` | whether an attribute stands twice |
//! | `record_form` | which rule is broken by the attributes of a class |
//! | `release_form` | which rule is broken that a release has, beside those of every class |
//! | `attribute_fault` | [`attribute_at_fault`], which attribute breaks the rule at a place |
//! | `text_forms` | the forms of each text of the pool, judged once |
//! | `indices`, `naming`, `flags` | what an index leads to, forms of names and descriptors, access flags |
//! | `duplicate_finder` | whether a member has the name and the descriptor of an earlier one |
//! | `member_keys` | the names and descriptors that were met |
//! | `text_numbers` | a number for each text of the pool, the same exactly for equal texts |
//! | `own_fields` | whether the class declares a field |
//! | `laws` | the two calls undo one another; the meaning of the rules of well-formed classes, and one first fault |
#![tactic(auto)]

mod attribute;
mod attribute_fault;
mod attribute_form;
mod attribute_info;
mod bootstraps;
mod class_attribute;
mod class_file;
mod class_form;
mod code;
mod code_method;
mod codec;
mod component;
mod constant_form;
mod duplicate_finder;
mod file_parts;
pub mod flags;
mod form;
mod form_fault;
mod indices;
mod laws;
mod layouts;
mod location;
mod member;
mod member_form;
mod member_keys;
mod naming;
mod nested;
mod number_form;
mod numbers;
mod outline;
mod own_fields;
mod profile;
mod reading;
mod record_form;
mod release_form;
mod repeated_attributes;
mod skipping;
mod table;
mod text_forms;
mod text_numbers;
mod versions;

pub use attribute::Attribute;
pub use attribute_fault::{attribute_at_fault, attribute_name};
pub use bootstraps::Bootstraps;
pub use class_attribute::ClassAttribute;
pub use class_file::ClassFile;
pub use code::{CodeAttr, ExceptionHandler};
pub use code_method::CodeMethod;
pub use codec::{decode, decode_under, encode, encode_under};
pub use component::Component;
pub use file_parts::{FilePart, fault_part};
pub use form::{Formed, form_check};
pub use form_fault::{FormFault, FormRule, Place};
pub use laws::{
    body_spells_rows, class_is_outline, class_or_fault, formed_has_names, formed_or_faulty,
    least_rule_is_told, method_is_told, no_fault_in_class, no_fault_in_formed, one_class,
    one_fault, one_first_fault, one_outline, one_spelling, outline_or_fault, part_is_found,
    tests_are_forms,
};
pub use layouts::{AttributeLayout, Column};
pub use member::Member;
pub use nested::NestedAttribute;
pub use numbers::Numbers;
pub use own_fields::{OwnFields, declares_field};
pub use profile::Profile;
pub use reading::{CutShort, read_class};
pub use versions::Versions;
