//! Which rule a class itself breaks (JVMS 4.1).
ghost use Rattle.std.specs.Prelude.{◌≡◌, ◌||◌, map};
ghost use Rattle.classfile.specs.Conditions.{broken_rule};
ghost use Rattle.classfile.specs.ClassForm.{is_object, interfaces_have_bad, interfaces_have_other, interfaces_have_array, class_has_bad, class_has_other, class_has_array, leads_to_object, leads_elsewhere, has_bad_super, class_conditions};
ghost use Rattle.classfile.specs.Views.{class_view};
ghost use Rattle.classfile.specs.declared.location.Location.TheVariants as locations;

use crate::class_file::ClassFile;
use crate::constant_form::is_array_class;
use crate::flags::{INTERFACE, are_bad_class_flags, has};
use crate::form_fault::FormRule;
use crate::indices::{
    ConstantKind, index_rule, is_bad, is_bad_unless_zero, lacks, lacks_unless_zero,
};
use crate::location::Location;
use crate::record_form::{
    class_attributes_have_bad, class_attributes_have_fault, class_attributes_have_twice,
};
use names::{OBJECT, Text};
use pool::Pool;

fn is_object(name: Text<'_>) -> bool
    ensures { result ≡ is_object name.entry.bytes.now }
{
    name.bytes() == OBJECT
}

#[tactic(auto, unfolding(crate::specs::ClassForm::leads_to_object))]
fn leads_to_object(pool: &Pool<'_>, index: u16) -> bool
    ensures { result ≡ leads_to_object pool.now index }
{
    match pool.class_name(index) {
        Ok(name) => is_object(name),
        Err(_) => false,
    }
}

#[tactic(auto, unfolding(crate::specs::ClassForm::leads_elsewhere))]
fn leads_elsewhere(pool: &Pool<'_>, index: u16) -> bool
    ensures { result ≡ leads_elsewhere pool.now index }
{
    match pool.class_name(index) {
        Ok(name) => !is_object(name),
        Err(_) => false,
    }
}

#[tactic(auto, unfolding(crate::specs::ClassForm::interfaces_have_bad))]
fn interfaces_have_bad(pool: &Pool<'_>, interfaces: &[u16]) -> bool
    ensures { result ≡ interfaces_have_bad pool.now (map (λ n. n) interfaces.now) }
{
    interfaces.iter().any(|index| is_bad(pool, *index))
}

#[tactic(auto, unfolding(crate::specs::ClassForm::interfaces_have_bad, crate::specs::ClassForm::interfaces_have_other))]
fn interfaces_have_fault(pool: &Pool<'_>, interfaces: &[u16]) -> bool
    ensures { result ≡ (interfaces_have_bad pool.now (map (λ n. n) interfaces.now)
        || interfaces_have_other pool.now (map (λ n. n) interfaces.now)) }
{
    interfaces
        .iter()
        .any(|index| lacks(pool, ConstantKind::Class, *index))
}

#[tactic(auto, unfolding(crate::specs::ClassForm::interfaces_have_array))]
fn interfaces_have_array(pool: &Pool<'_>, interfaces: &[u16]) -> bool
    ensures { result ≡ interfaces_have_array pool.now (map (λ n. n) interfaces.now) }
{
    interfaces.iter().any(|index| is_array_class(pool, *index))
}

/// The table of the class's own attributes.
fn location(class: &ClassFile<'_>) -> Location
    ensures { result ≡ locations.Class class.now.major_version }
{
    Location::Class {
        major: class.major_version,
    }
}

#[tactic(auto, unfolding(crate::specs::ClassForm::class_has_bad))]
fn class_has_bad(class: &ClassFile<'_>) -> bool
    ensures { result ≡ class_has_bad (class_view class.now) }
{
    let pool = &class.constant_pool;
    is_bad(pool, class.this_class)
        || is_bad_unless_zero(pool, class.super_class)
        || interfaces_have_bad(pool, &class.interfaces)
        || class_attributes_have_bad(pool, &class.attributes)
}

/// Whether one of its indices breaks a rule, 20 or 21; each is looked up once for both.
#[tactic(auto, unfolding(crate::specs::ClassForm::class_has_bad, crate::specs::ClassForm::class_has_other))]
fn class_has_fault(class: &ClassFile<'_>) -> bool
    ensures { result ≡ (class_has_bad (class_view class.now) || class_has_other (class_view class.now)) }
{
    let pool = &class.constant_pool;
    lacks(pool, ConstantKind::Class, class.this_class)
        || lacks_unless_zero(pool, ConstantKind::Class, class.super_class)
        || interfaces_have_fault(pool, &class.interfaces)
        || class_attributes_have_fault(pool, &class.attributes)
}

#[tactic(auto, unfolding(crate::specs::ClassForm::class_has_array))]
fn class_has_array(class: &ClassFile<'_>) -> bool
    ensures { result ≡ class_has_array (class_view class.now) }
{
    let pool = &class.constant_pool;
    is_array_class(pool, class.this_class)
        || is_array_class(pool, class.super_class)
        || interfaces_have_array(pool, &class.interfaces)
}

#[tactic(auto, unfolding(crate::specs::ClassForm::has_bad_super))]
fn has_bad_super(class: &ClassFile<'_>) -> bool
    ensures { result ≡ has_bad_super (class_view class.now) }
{
    let pool = &class.constant_pool;
    if class.super_class == 0 {
        leads_elsewhere(pool, class.this_class) || has(class.access_flags, INTERFACE)
    } else {
        leads_to_object(pool, class.this_class)
            || (has(class.access_flags, INTERFACE) && leads_elsewhere(pool, class.super_class))
    }
}

/// The rule that the class itself breaks.
pub fn class_rule(class: &ClassFile<'_>) -> Option<FormRule>
    ensures { result ≡ broken_rule (class_conditions (class_view class.now)) }
{
    if class_has_fault(class) {
        Some(index_rule(class_has_bad(class)))
    } else if class_has_array(class) {
        Some(FormRule::BadName)
    } else if are_bad_class_flags(class.major_version, class.access_flags) {
        Some(FormRule::BadFlags)
    } else if has_bad_super(class) {
        Some(FormRule::BadSuper)
    } else if class_attributes_have_twice(location(class), &class.attributes) {
        Some(FormRule::AttributeTwice)
    } else {
        None
    }
}
