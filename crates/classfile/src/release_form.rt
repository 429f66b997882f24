//! Rules of form that are judged of a class which is read as a release has it, beside those of every class (JVMS 4.4 to
//! 4.7).
//!
//! - `constants`: method handles, and names of methods.
//! - `debug_tables`: line numbers and local variables; `table_bodies`: their bodies; `few_rows`: rows of local variables,
//!   where there are few; `repeated_rows`: rows that stand twice, where there are many.
//! - `interfaces`: interfaces that are listed twice.
//! - `repeated`: attributes that may stand once.
//! - `values`: constant values of fields.
ghost use Rattle.std.specs.Prelude.{◌≡◌, map, IfOk};
ghost use Rattle.classfile.specs.Conditions.{broken_rule};
ghost use Rattle.classfile.specs.private.TextForms.{AreForms};
ghost use Rattle.classfile.specs.release.ClassRules.{has_permitted, is_final_and_sealed, class_has_twice, class_conditions};
ghost use Rattle.classfile.specs.release.MemberRules.{is_interface, has_value_of_other_type, field_conditions, is_badly_flagged, method_conditions};
ghost use Rattle.classfile.specs.Views.{class_attribute_view, class_view, member_view};

mod constants;
mod debug_tables;
mod few_rows;
mod interfaces;
mod repeated;
mod repeated_rows;
mod table_bodies;
mod values;

use crate::bootstraps::has_bad_bootstraps;
use crate::class_attribute::ClassAttribute;
use crate::class_file::ClassFile;
use crate::flags::{
    FINAL, INTERFACE, STATIC, are_bad_interface_field, are_bad_interface_method, are_badly_strict,
    has,
};
use crate::form_fault::FormRule;
use crate::location::Location;
use crate::member::Member;
use crate::member_form::is_class_initializer;
use crate::text_forms::TextForms;
pub use constants::constant_rule;
use debug_tables::have_bad_table;
use interfaces::interfaces_stand_twice;
use repeated::{are_of_two_nests, codes_have_twice, records_have_twice, singles_stand_twice};
use std::alloc::{AllocError, Global};
use values::have_other_value;

fn is_interface(class: &ClassFile<'_>) -> bool
    ensures { result ≡ is_interface (class_view class.now) }
{
    has(class.access_flags, INTERFACE)
}

/// Whether there is a list of classes that may extend the class.
#[tactic(auto, unfolding(crate::specs::release::ClassRules::has_permitted))]
fn has_permitted(attributes: &[ClassAttribute<'_>]) -> bool
    ensures { result ≡ has_permitted (map class_attribute_view attributes.now) }
{
    attributes
        .iter()
        .any(|a| a.permitted_subclasses().is_some())
}

fn is_final_and_sealed(class: &ClassFile<'_>) -> bool
    ensures { result ≡ is_final_and_sealed (class_view class.now) }
{
    has(class.access_flags, FINAL) && has_permitted(&class.attributes)
}

#[tactic(auto, unfolding(crate::specs::release::ClassRules::class_has_twice))]
fn class_has_twice(class: &ClassFile<'_>) -> bool
    ensures { result ≡ class_has_twice (class_view class.now) }
{
    let (major, pool) = (class.major_version, &class.constant_pool);
    singles_stand_twice(major, pool, Location::Class { major }, &class.attributes)
        || records_have_twice(major, pool, &class.attributes)
        || are_of_two_nests(&class.attributes)
}

/// The rule that the class itself breaks.
pub fn class_rule(alloc: Global, class: &ClassFile<'_>) -> Result<Option<FormRule>, AllocError>
    ensures { IfOk result (λ r. r ≡ broken_rule (class_conditions (class_view class.now))) }
{
    if is_final_and_sealed(class) {
        return Ok(Some(FormRule::BadFlags));
    }
    if interfaces_stand_twice(alloc, &class.constant_pool, &class.interfaces)? {
        return Ok(Some(FormRule::Twice));
    }
    if class_has_twice(class) {
        return Ok(Some(FormRule::AttributeTwice));
    }
    if has_bad_bootstraps(alloc, class)? {
        Ok(Some(FormRule::BadBootstrap))
    } else {
        Ok(None)
    }
}

/// Whether the field is static, and its constant value is one of another type.
#[tactic(auto, unfolding(crate::specs::release::MemberRules::has_value_of_other_type))]
fn has_value_of_other_type(class: &ClassFile<'_>, field: &Member<'_>) -> bool
    ensures { result ≡ has_value_of_other_type (class_view class.now) (member_view field.now) }
{
    let pool = &class.constant_pool;
    if !has(field.access_flags, STATIC) {
        return false;
    }
    match pool.text(field.descriptor) {
        Ok(descriptor) => have_other_value(pool, &field.attributes, descriptor),
        Err(_) => false,
    }
}

/// The rule that a field of the class breaks.
pub fn field_rule(class: &ClassFile<'_>, field: &Member<'_>) -> Option<FormRule>
    ensures { result ≡ broken_rule (field_conditions (class_view class.now) (member_view field.now)) }
{
    let (major, pool) = (class.major_version, &class.constant_pool);
    if has_value_of_other_type(class, field) {
        Some(FormRule::WrongKind)
    } else if is_interface(class) && are_bad_interface_field(field.access_flags) {
        Some(FormRule::BadFlags)
    } else if singles_stand_twice(major, pool, Location::Field, &field.attributes) {
        Some(FormRule::AttributeTwice)
    } else {
        None
    }
}

#[tactic(auto, unfolding(crate::specs::release::MemberRules::is_badly_flagged))]
fn is_badly_flagged(class: &ClassFile<'_>, method: &Member<'_>) -> bool
    ensures { result ≡ is_badly_flagged (class_view class.now) (member_view method.now) }
{
    let (major, flags) = (class.major_version, method.access_flags);
    let bad = are_badly_strict(major, flags)
        || (is_interface(class) && are_bad_interface_method(major, flags));
    bad && !is_class_initializer(&class.constant_pool, method)
}

/// The rule that a method of the class breaks.
pub fn method_rule(
    alloc: Global,
    class: &ClassFile<'_>,
    forms: &mut TextForms,
    method: &Member<'_>,
) -> Result<Option<FormRule>, AllocError>
    requires { AreForms class.now.constant_pool forms.now }
    ensures told { IfOk result (λ r. r ≡ broken_rule (method_conditions (class_view class.now) (member_view method.now))) }
    ensures kept { AreForms class.now.constant_pool forms.new }
{
    let (major, pool) = (class.major_version, &class.constant_pool);
    if is_badly_flagged(class, method) {
        return Ok(Some(FormRule::BadFlags));
    }
    if singles_stand_twice(major, pool, Location::Method, &method.attributes)
        || codes_have_twice(major, pool, &method.attributes)
    {
        return Ok(Some(FormRule::AttributeTwice));
    }
    if have_bad_table(alloc, major, pool, forms, &method.attributes)? {
        Ok(Some(FormRule::BadDebugTable))
    } else {
        Ok(None)
    }
}
