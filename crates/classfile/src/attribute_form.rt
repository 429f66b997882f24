//! The faults that attributes may have: in their names, and in what Code attributes hold (JVMS 4.7, 4.7.3).
ghost use Rattle.std.specs.Prelude.{◌≡◌, ◌||◌, map};
ghost use Rattle.classfile.specs.AttributeForm.{is_of_parts, on_body, head_has_bad, head_has_other, handlers_have_bad, handlers_have_other, nested_have_bad, nested_have_other, code_has_bad, code_has_other, has_bad_length, has_two_stack_maps, attribute_has_bad, attribute_has_other, attributes_have_bad, attributes_have_other, have_bad_length, code_stands_twice, stack_map_stands_twice, have_twice};
ghost use Rattle.classfile.specs.MemberForm.{has_code};
ghost use Rattle.classfile.specs.Views.{attribute_view, handler_view, nested_view, code_view};

use crate::attribute::Attribute;
use crate::code::{CodeAttr, ExceptionHandler};
use crate::indices::{ConstantKind, is_bad, is_bad_unless_zero, lacks, lacks_unless_zero};
use crate::location::Location;
use crate::nested::NestedAttribute;
use crate::number_form::{IndexRule, numbers_break, numbers_have_fault};
use crate::repeated_attributes::numbers_stand_twice;
use pool::Pool;

#[tactic(auto, unfolding(crate::specs::AttributeForm::head_has_bad))]
fn nested_has_bad(pool: &Pool<'_>, attribute: &NestedAttribute<'_>) -> bool
    ensures { result ≡ head_has_bad pool.now (nested_view attribute.now) }
{
    match attribute {
        NestedAttribute::Numbers { name, numbers } => {
            is_bad(pool, *name) || numbers_break(pool, IndexRule::BadIndex, numbers)
        }
        NestedAttribute::StackMapTable { name, .. } | NestedAttribute::Raw { name, .. } => {
            is_bad(pool, *name)
        }
    }
}

/// Whether one of its indices breaks a rule, 20 or 21; each is looked up once for both, here and in what follows.
#[tactic(auto, unfolding(crate::specs::AttributeForm::head_has_bad, crate::specs::AttributeForm::head_has_other))]
fn nested_has_fault(pool: &Pool<'_>, attribute: &NestedAttribute<'_>) -> bool
    ensures { result ≡ (head_has_bad pool.now (nested_view attribute.now)
        || head_has_other pool.now (nested_view attribute.now)) }
{
    match attribute {
        NestedAttribute::Numbers { name, numbers } => {
            lacks(pool, ConstantKind::Utf8, *name) || numbers_have_fault(pool, numbers)
        }
        NestedAttribute::StackMapTable { name, .. } | NestedAttribute::Raw { name, .. } => {
            lacks(pool, ConstantKind::Utf8, *name)
        }
    }
}

fn is_stack_map(attribute: &NestedAttribute<'_>) -> bool
    ensures { result ≡ is_of_parts (nested_view attribute.now) }
{
    matches!(attribute, NestedAttribute::StackMapTable { .. })
}

fn is_code(attribute: &Attribute<'_>) -> bool
    ensures { result ≡ is_of_parts (attribute_view attribute.now) }
{
    matches!(attribute, Attribute::Code { .. })
}

#[tactic(auto, unfolding(crate::specs::AttributeForm::handlers_have_bad))]
fn handlers_have_bad(pool: &Pool<'_>, handlers: &[ExceptionHandler]) -> bool
    ensures { result ≡ handlers_have_bad pool.now (map handler_view handlers.now) }
{
    handlers
        .iter()
        .any(|h| is_bad_unless_zero(pool, h.catch_type))
}

#[tactic(auto, unfolding(crate::specs::AttributeForm::handlers_have_bad, crate::specs::AttributeForm::handlers_have_other))]
fn handlers_have_fault(pool: &Pool<'_>, handlers: &[ExceptionHandler]) -> bool
    ensures { result ≡ (handlers_have_bad pool.now (map handler_view handlers.now)
        || handlers_have_other pool.now (map handler_view handlers.now)) }
{
    handlers.iter().any(|h| lacks_unless_zero(pool, ConstantKind::Class, h.catch_type))
}

#[tactic(auto, unfolding(crate::specs::AttributeForm::nested_have_bad))]
fn nested_have_bad(pool: &Pool<'_>, attributes: &[NestedAttribute<'_>]) -> bool
    ensures { result ≡ nested_have_bad pool.now (map nested_view attributes.now) }
{
    attributes.iter().any(|a| nested_has_bad(pool, a))
}

#[tactic(auto, unfolding(crate::specs::AttributeForm::nested_have_bad, crate::specs::AttributeForm::nested_have_other))]
fn nested_have_fault(pool: &Pool<'_>, attributes: &[NestedAttribute<'_>]) -> bool
    ensures { result ≡ (nested_have_bad pool.now (map nested_view attributes.now)
        || nested_have_other pool.now (map nested_view attributes.now)) }
{
    attributes.iter().any(|a| nested_has_fault(pool, a))
}

#[tactic(auto, unfolding(crate::specs::AttributeForm::code_has_bad))]
fn code_has_bad(pool: &Pool<'_>, code: &CodeAttr<'_>) -> bool
    ensures { result ≡ code_has_bad pool.now (code_view code.now) }
{
    handlers_have_bad(pool, &code.exception_table) || nested_have_bad(pool, &code.attributes)
}

#[tactic(auto, unfolding(crate::specs::AttributeForm::code_has_bad, crate::specs::AttributeForm::code_has_other))]
fn code_has_fault(pool: &Pool<'_>, code: &CodeAttr<'_>) -> bool
    ensures { result ≡ (code_has_bad pool.now (code_view code.now) || code_has_other pool.now (code_view code.now)) }
{
    handlers_have_fault(pool, &code.exception_table) || nested_have_fault(pool, &code.attributes)
}

fn has_bad_length(code: &CodeAttr<'_>) -> bool
    ensures { result ≡ has_bad_length (code_view code.now) }
{
    code.code.is_empty() || code.code.len() > 65_535
}

#[tactic(auto, unfolding(crate::specs::AttributeForm::has_two_stack_maps))]
fn has_two_stack_maps(code: &CodeAttr<'_>) -> bool
    ensures { result ≡ has_two_stack_maps (code_view code.now) }
{
    code.attributes.iter().filter(|a| is_stack_map(a)).count() > 1
}

/// Whether an index in the attribute may not be looked up.
#[tactic(auto, unfolding(crate::specs::AttributeForm::attribute_has_bad, crate::specs::AttributeForm::head_has_bad))]
pub fn attribute_has_bad(pool: &Pool<'_>, attribute: &Attribute<'_>) -> bool
    ensures { result ≡ attribute_has_bad pool.now (attribute_view attribute.now) }
{
    match attribute {
        Attribute::Code { name, code } => is_bad(pool, *name) || code_has_bad(pool, code),
        Attribute::Numbers { name, numbers } => {
            is_bad(pool, *name) || numbers_break(pool, IndexRule::BadIndex, numbers)
        }
        Attribute::Raw { name, .. } => is_bad(pool, *name),
    }
}

/// Whether an index in the attribute may not be looked up, or leads to another kind.
#[tactic(auto, unfolding(crate::specs::AttributeForm::attribute_has_bad, crate::specs::AttributeForm::attribute_has_other, crate::specs::AttributeForm::head_has_bad, crate::specs::AttributeForm::head_has_other))]
pub fn attribute_has_fault(pool: &Pool<'_>, attribute: &Attribute<'_>) -> bool
    ensures { result ≡ (attribute_has_bad pool.now (attribute_view attribute.now)
        || attribute_has_other pool.now (attribute_view attribute.now)) }
{
    match attribute {
        Attribute::Code { name, code } => {
            lacks(pool, ConstantKind::Utf8, *name) || code_has_fault(pool, code)
        }
        Attribute::Numbers { name, numbers } => {
            lacks(pool, ConstantKind::Utf8, *name) || numbers_have_fault(pool, numbers)
        }
        Attribute::Raw { name, .. } => lacks(pool, ConstantKind::Utf8, *name),
    }
}

/// Whether it is a Code attribute whose code has not 1 to 65,535 bytes.
pub fn code_is_badly_long(attribute: &Attribute<'_>) -> bool
    ensures { result ≡ on_body has_bad_length (attribute_view attribute.now) }
{
    match attribute {
        Attribute::Code { code, .. } => has_bad_length(code),
        Attribute::Numbers { .. } | Attribute::Raw { .. } => false,
    }
}

/// Whether it is a Code attribute with two StackMapTables.
pub fn code_has_two_stack_maps(attribute: &Attribute<'_>) -> bool
    ensures { result ≡ on_body has_two_stack_maps (attribute_view attribute.now) }
{
    match attribute {
        Attribute::Code { code, .. } => has_two_stack_maps(code),
        Attribute::Numbers { .. } | Attribute::Raw { .. } => false,
    }
}

/// Whether an index in the attributes may not be looked up.
#[tactic(auto, unfolding(crate::specs::AttributeForm::attributes_have_bad))]
pub fn attributes_have_bad(pool: &Pool<'_>, attributes: &[Attribute<'_>]) -> bool
    ensures { result ≡ attributes_have_bad pool.now (map attribute_view attributes.now) }
{
    attributes.iter().any(|a| attribute_has_bad(pool, a))
}

/// Whether an index in the attributes may not be looked up, or leads to another kind.
#[tactic(auto, unfolding(crate::specs::AttributeForm::attributes_have_bad, crate::specs::AttributeForm::attributes_have_other))]
pub fn attributes_have_fault(pool: &Pool<'_>, attributes: &[Attribute<'_>]) -> bool
    ensures { result ≡ (attributes_have_bad pool.now (map attribute_view attributes.now)
        || attributes_have_other pool.now (map attribute_view attributes.now)) }
{
    attributes.iter().any(|a| attribute_has_fault(pool, a))
}

/// Whether a Code attribute is among them.
#[tactic(auto, unfolding(crate::specs::MemberForm::has_code))]
pub fn has_code(attributes: &[Attribute<'_>]) -> bool
    ensures { result ≡ has_code (map attribute_view attributes.now) }
{
    attributes.iter().any(|a| is_code(a))
}

/// Whether the code of one of them has not 1 to 65,535 bytes.
#[tactic(auto, unfolding(crate::specs::AttributeForm::have_bad_length))]
pub fn have_bad_length(attributes: &[Attribute<'_>]) -> bool
    ensures { result ≡ have_bad_length (map attribute_view attributes.now) }
{
    attributes.iter().any(|a| code_is_badly_long(a))
}

#[tactic(auto, unfolding(crate::specs::AttributeForm::code_stands_twice))]
fn code_stands_twice(attributes: &[Attribute<'_>]) -> bool
    ensures { result ≡ code_stands_twice (map attribute_view attributes.now) }
{
    attributes.iter().filter(|a| is_code(a)).count() > 1
}

#[tactic(auto, unfolding(crate::specs::AttributeForm::stack_map_stands_twice))]
fn stack_map_stands_twice(attributes: &[Attribute<'_>]) -> bool
    ensures { result ≡ stack_map_stands_twice (map attribute_view attributes.now) }
{
    attributes.iter().any(|a| code_has_two_stack_maps(a))
}

/// Whether two attributes of a method are among them of which there may be one, or in a Code attribute two
/// StackMapTables.
#[tactic(auto, unfolding(crate::specs::AttributeForm::have_twice))]
pub fn have_twice(attributes: &[Attribute<'_>]) -> bool
    ensures { result ≡ have_twice (map attribute_view attributes.now) }
{
    code_stands_twice(attributes)
        || stack_map_stands_twice(attributes)
        || numbers_stand_twice(Location::Method, attributes)
}
