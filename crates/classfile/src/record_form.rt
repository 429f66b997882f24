//! The faults that the attributes of a class may have (JVMS 4.7), and the components of a record (4.7.30).
ghost use Rattle.std.specs.Prelude.{◌≡◌, ◌||◌, map};
ghost use Rattle.classfile.specs.AttributeForm.{is_of_parts, on_body};
ghost use Rattle.classfile.specs.RecordForm.{component_has_bad, component_has_other, component_has_twice, components_have_bad, components_have_other, components_have_twice, class_attribute_has_bad, class_attribute_has_other, class_attributes_have_bad, class_attributes_have_other, record_stands_twice, records_have_twice, class_attributes_have_twice};
ghost use Rattle.classfile.specs.Views.{component_view, class_attribute_view};

use crate::attribute_form::{attributes_have_bad, attributes_have_fault};
use crate::class_attribute::ClassAttribute;
use crate::component::Component;
use crate::constant_form::{texts_have_bad, texts_have_fault};
use crate::indices::{ConstantKind, is_bad, lacks};
use crate::location::Location;
use crate::number_form::{IndexRule, numbers_break, numbers_have_fault};
use crate::repeated_attributes::numbers_stand_twice;
use pool::Pool;

#[tactic(auto, unfolding(crate::specs::RecordForm::component_has_bad))]
fn component_has_bad(pool: &Pool<'_>, component: &Component<'_>) -> bool
    ensures { result ≡ component_has_bad pool.now (component_view component.now) }
{
    texts_have_bad(pool, component.name, component.descriptor)
        || attributes_have_bad(pool, &component.attributes)
}

/// Whether one of its indices breaks a rule, 20 or 21; each is looked up once for both, here and in what follows.
#[tactic(auto, unfolding(crate::specs::RecordForm::component_has_bad, crate::specs::RecordForm::component_has_other))]
fn component_has_fault(pool: &Pool<'_>, component: &Component<'_>) -> bool
    ensures { result ≡ (component_has_bad pool.now (component_view component.now)
        || component_has_other pool.now (component_view component.now)) }
{
    texts_have_fault(pool, component.name, component.descriptor)
        || attributes_have_fault(pool, &component.attributes)
}

#[tactic(auto, unfolding(crate::specs::RecordForm::component_has_twice))]
fn component_has_twice(component: &Component<'_>) -> bool
    ensures { result ≡ component_has_twice (component_view component.now) }
{
    numbers_stand_twice(Location::RecordComponent, &component.attributes)
}

#[tactic(auto, unfolding(crate::specs::RecordForm::components_have_bad))]
fn components_have_bad(pool: &Pool<'_>, components: &[Component<'_>]) -> bool
    ensures { result ≡ components_have_bad pool.now (map component_view components.now) }
{
    components.iter().any(|c| component_has_bad(pool, c))
}

#[tactic(auto, unfolding(crate::specs::RecordForm::components_have_bad, crate::specs::RecordForm::components_have_other))]
fn components_have_fault(pool: &Pool<'_>, components: &[Component<'_>]) -> bool
    ensures { result ≡ (components_have_bad pool.now (map component_view components.now)
        || components_have_other pool.now (map component_view components.now)) }
{
    components.iter().any(|c| component_has_fault(pool, c))
}

#[tactic(auto, unfolding(crate::specs::RecordForm::components_have_twice))]
fn components_have_twice(components: &[Component<'_>]) -> bool
    ensures { result ≡ components_have_twice (map component_view components.now) }
{
    components.iter().any(|c| component_has_twice(c))
}

/// Whether an index in the attribute may not be looked up.
#[tactic(auto, unfolding(crate::specs::RecordForm::class_attribute_has_bad, crate::specs::AttributeForm::head_has_bad))]
pub fn class_attribute_has_bad(pool: &Pool<'_>, attribute: &ClassAttribute<'_>) -> bool
    ensures { result ≡ class_attribute_has_bad pool.now (class_attribute_view attribute.now) }
{
    match attribute {
        ClassAttribute::Record { name, components } => {
            is_bad(pool, *name) || components_have_bad(pool, components)
        }
        ClassAttribute::Numbers { name, numbers } => {
            is_bad(pool, *name) || numbers_break(pool, IndexRule::BadIndex, numbers)
        }
        ClassAttribute::Raw { name, .. } => is_bad(pool, *name),
    }
}

/// Whether an index in the attribute may not be looked up, or leads to another kind.
#[tactic(auto, unfolding(crate::specs::RecordForm::class_attribute_has_bad, crate::specs::RecordForm::class_attribute_has_other, crate::specs::AttributeForm::head_has_bad, crate::specs::AttributeForm::head_has_other))]
pub fn class_attribute_has_fault(pool: &Pool<'_>, attribute: &ClassAttribute<'_>) -> bool
    ensures { result ≡ (class_attribute_has_bad pool.now (class_attribute_view attribute.now)
        || class_attribute_has_other pool.now (class_attribute_view attribute.now)) }
{
    match attribute {
        ClassAttribute::Record { name, components } => {
            lacks(pool, ConstantKind::Utf8, *name) || components_have_fault(pool, components)
        }
        ClassAttribute::Numbers { name, numbers } => {
            lacks(pool, ConstantKind::Utf8, *name) || numbers_have_fault(pool, numbers)
        }
        ClassAttribute::Raw { name, .. } => lacks(pool, ConstantKind::Utf8, *name),
    }
}

/// Whether an index in the attributes of a class may not be looked up.
#[tactic(auto, unfolding(crate::specs::RecordForm::class_attributes_have_bad))]
pub fn class_attributes_have_bad(pool: &Pool<'_>, attributes: &[ClassAttribute<'_>]) -> bool
    ensures { result ≡ class_attributes_have_bad pool.now (map class_attribute_view attributes.now) }
{
    attributes.iter().any(|a| class_attribute_has_bad(pool, a))
}

/// Whether an index in the attributes of a class may not be looked up, or leads to another kind.
#[tactic(auto, unfolding(crate::specs::RecordForm::class_attributes_have_bad, crate::specs::RecordForm::class_attributes_have_other))]
pub fn class_attributes_have_fault(pool: &Pool<'_>, attributes: &[ClassAttribute<'_>]) -> bool
    ensures { result ≡ (class_attributes_have_bad pool.now (map class_attribute_view attributes.now)
        || class_attributes_have_other pool.now (map class_attribute_view attributes.now)) }
{
    attributes
        .iter()
        .any(|a| class_attribute_has_fault(pool, a))
}

fn is_record(attribute: &ClassAttribute<'_>) -> bool
    ensures { result ≡ is_of_parts (class_attribute_view attribute.now) }
{
    matches!(attribute, ClassAttribute::Record { .. })
}

#[tactic(auto, unfolding(crate::specs::RecordForm::record_stands_twice))]
fn record_stands_twice(attributes: &[ClassAttribute<'_>]) -> bool
    ensures { result ≡ record_stands_twice (map class_attribute_view attributes.now) }
{
    attributes.iter().filter(|a| is_record(a)).count() > 1
}

/// Whether it is a Record attribute, and an attribute of a component stands twice of which there may be one.
pub fn record_has_twice(attribute: &ClassAttribute<'_>) -> bool
    ensures { result ≡ on_body components_have_twice (class_attribute_view attribute.now) }
{
    match attribute {
        ClassAttribute::Record { components, .. } => components_have_twice(components),
        ClassAttribute::Numbers { .. } | ClassAttribute::Raw { .. } => false,
    }
}

#[tactic(auto, unfolding(crate::specs::RecordForm::records_have_twice))]
fn records_have_twice(attributes: &[ClassAttribute<'_>]) -> bool
    ensures { result ≡ records_have_twice (map class_attribute_view attributes.now) }
{
    attributes.iter().any(|a| record_has_twice(a))
}

/// Whether two attributes of a class are among them of which there may be one, or two of a component of its record.
#[tactic(auto, unfolding(crate::specs::RecordForm::class_attributes_have_twice))]
pub fn class_attributes_have_twice(location: Location, attributes: &[ClassAttribute<'_>]) -> bool
    ensures { result ≡ class_attributes_have_twice location (map class_attribute_view attributes.now) }
{
    record_stands_twice(attributes)
        || records_have_twice(attributes)
        || numbers_stand_twice(location, attributes)
}
