//! Constant values of fields, and the types that they have (JVMS 4.7.2, table 4.7.2-A).
ghost use Rattle.std.specs.Prelude.{◌≡◌, map};
ghost use Rattle.classfile.specs.NumberForm.{on_numbers};
ghost use Rattle.classfile.specs.LayoutViews.{numbers_view};
ghost use Rattle.classfile.specs.release.Attributes.{takes_value, is_other_value, has_other_value, have_other_value};
ghost use Rattle.classfile.specs.Views.{attribute_view};
ghost use Rattle.pool.specs.Views.{view};

use crate::attribute::Attribute;
use crate::location::is_text;
use crate::numbers::Numbers;
use names::Text;
use pool::{Constant, Pool};

/// Whether a field of this descriptor takes the value.
fn takes_value(descriptor: &[u8], constant: &Constant<'_>) -> bool
    ensures { result ≡ takes_value descriptor.now (view constant.now) }
{
    match constant {
        Constant::Integer { .. } => matches!(descriptor, [b'I' | b'Z' | b'B' | b'C' | b'S']),
        Constant::Long { .. } => descriptor == b"J".as_slice(),
        Constant::Float { .. } => descriptor == b"F".as_slice(),
        Constant::Double { .. } => descriptor == b"D".as_slice(),
        Constant::String { .. } => descriptor == b"Ljava/lang/String;".as_slice(),
        _ => true,
    }
}

fn is_other_value(pool: &Pool<'_>, descriptor: &[u8], index: u16) -> bool
    ensures { result ≡ is_other_value pool.now descriptor.now index }
{
    match pool.get(index) {
        Ok(constant) => !takes_value(descriptor, &constant),
        Err(_) => false,
    }
}

fn has_other_value(pool: &Pool<'_>, descriptor: &[u8], numbers: &Numbers<'_>) -> bool
    ensures { result ≡ has_other_value pool.now descriptor.now (numbers_view numbers.now) }
{
    if !is_text(numbers.layout.name.as_bytes(), b"ConstantValue") {
        return false;
    }
    match numbers.get(0, 0) {
        Some(index) => is_other_value(pool, descriptor, index),
        None => false,
    }
}

fn attribute_has_other(pool: &Pool<'_>, descriptor: &[u8], attribute: &Attribute<'_>) -> bool
    ensures { result ≡ on_numbers (has_other_value pool.now descriptor.now) (attribute_view attribute.now) }
{
    match attribute {
        Attribute::Numbers { numbers, .. } => has_other_value(pool, descriptor, numbers),
        Attribute::Code { .. } | Attribute::Raw { .. } => false,
    }
}

/// Whether a ConstantValue among the attributes has a value that a field of this descriptor does not take.
#[tactic(auto, unfolding(crate::specs::release::Attributes::have_other_value))]
pub fn have_other_value(pool: &Pool<'_>, attributes: &[Attribute<'_>], descriptor: Text<'_>) -> bool
    ensures { result ≡ have_other_value pool.now (map attribute_view attributes.now) descriptor.entry.bytes.now }
{
    attributes
        .iter()
        .any(|a| attribute_has_other(pool, descriptor.bytes(), a))
}
