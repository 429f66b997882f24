//! Attributes of numbers of which a table may have one (JVMS 4.7), and whether it has two.
ghost use Rattle.std.specs.Prelude.{◌≡◌, map, option_map};
ghost use Rattle.classfile.specs.LayoutViews.{layout_view};
ghost use Rattle.classfile.specs.private.IndexColumns.{layout_of, has_numbers, two_have_numbers};
ghost use Rattle.classfile.specs.AttributeForm.{is_of_parts};
ghost use Rattle.classfile.specs.NumberForm.{has_this_layout, layout_stands_twice, numbers_stand_twice};
ghost use Rattle.classfile.specs.Values.{AttributeOf, name_of};

use crate::attribute::Attribute;
use crate::class_attribute::ClassAttribute;
use crate::layouts::{AttributeLayout, layouts_in};
use crate::location::Location;
use crate::nested::NestedAttribute;

/// An attribute of a table that may have attributes of numbers.
pub trait Tabled {
    // The value of those that are read by their parts.
    ghost Held: { Type 0 };

    // An attribute without where its slices lie in memory.
    ghost attribute: { Self → AttributeOf Held };

    /// The layout of the attribute, if its body is numbers.
    fn layout(&self) -> Option<&AttributeLayout<'_>>
        ensures { option_map (λ l. layout_view l.now) result ≡ layout_of (attribute self.now) };

    /// The index of its name.
    fn name(&self) -> u16
        ensures { result ≡ name_of (attribute self.now) };

    /// Whether the attribute is read by its parts.
    fn is_of_parts(&self) -> bool
        ensures { result ≡ is_of_parts (attribute self.now) };
}

impl<'a> Tabled for Attribute<'a> {
    ghost use Rattle.classfile.specs.Values.{CodeBody};
    ghost use Rattle.classfile.specs.Views.{attribute_view};

    ghost Held = { CodeBody };

    ghost attribute = { attribute_view };

    fn layout(&self) -> Option<&AttributeLayout<'_>> {
        match self {
            Attribute::Numbers { numbers, .. } => Some(numbers.layout),
            Attribute::Code { .. } | Attribute::Raw { .. } => None,
        }
    }

    fn name(&self) -> u16 {
        match self {
            Attribute::Code { name, .. }
            | Attribute::Numbers { name, .. }
            | Attribute::Raw { name, .. } => *name,
        }
    }

    fn is_of_parts(&self) -> bool {
        matches!(self, Attribute::Code { .. })
    }
}

impl<'a> Tabled for ClassAttribute<'a> {
    ghost use Rattle.std.specs.Prelude.{List};
    ghost use Rattle.classfile.specs.Values.{Component};
    ghost use Rattle.classfile.specs.Views.{class_attribute_view};

    ghost Held = { List Component };

    ghost attribute = { class_attribute_view };

    fn layout(&self) -> Option<&AttributeLayout<'_>> {
        match self {
            ClassAttribute::Numbers { numbers, .. } => Some(numbers.layout),
            ClassAttribute::Record { .. } | ClassAttribute::Raw { .. } => None,
        }
    }

    fn name(&self) -> u16 {
        match self {
            ClassAttribute::Record { name, .. }
            | ClassAttribute::Numbers { name, .. }
            | ClassAttribute::Raw { name, .. } => *name,
        }
    }

    fn is_of_parts(&self) -> bool {
        matches!(self, ClassAttribute::Record { .. })
    }
}

impl<'a> Tabled for NestedAttribute<'a> {
    ghost use Rattle.std.specs.Prelude.{ℕ, List};
    ghost use Rattle.classfile.specs.Views.{nested_view};

    ghost Held = { List ℕ };

    ghost attribute = { nested_view };

    fn layout(&self) -> Option<&AttributeLayout<'_>> {
        match self {
            NestedAttribute::Numbers { numbers, .. } => Some(numbers.layout),
            NestedAttribute::StackMapTable { .. } | NestedAttribute::Raw { .. } => None,
        }
    }

    fn name(&self) -> u16 {
        match self {
            NestedAttribute::StackMapTable { name, .. }
            | NestedAttribute::Numbers { name, .. }
            | NestedAttribute::Raw { name, .. } => *name,
        }
    }

    fn is_of_parts(&self) -> bool {
        matches!(self, NestedAttribute::StackMapTable { .. })
    }
}

/// Whether the body of the attribute is numbers.
fn has_numbers<A: Tabled>(attribute: &A) -> bool
    ensures { result ≡ has_numbers (A.attribute attribute.now) }
{
    attribute.layout().is_some()
}

/// Whether the attribute has this layout.
#[tactic(auto, unfolding(crate::specs::NumberForm::has_this_layout))]
pub fn has_this_layout<A: Tabled>(layout: &AttributeLayout<'_>, attribute: &A) -> bool
    ensures { result ≡ has_this_layout (layout_view layout.now) (A.attribute attribute.now) }
{
    match attribute.layout() {
        Some(own) => layout == own,
        None => false,
    }
}

#[tactic(auto, unfolding(crate::specs::NumberForm::layout_stands_twice))]
fn layout_stands_twice<A: Tabled>(attributes: &[A], layout: &AttributeLayout<'_>) -> bool
    ensures { result ≡ layout_stands_twice (map A.attribute attributes.now) (layout_view layout.now) }
{
    layout.once
        && attributes
            .iter()
            .filter(|a| has_this_layout(layout, *a))
            .count()
            > 1
}

#[tactic(auto, unfolding(crate::specs::NumberForm::numbers_stand_twice))]
fn one_stands_twice<A: Tabled>(location: Location, attributes: &[A]) -> bool
    ensures { result ≡ numbers_stand_twice location (map A.attribute attributes.now) }
{
    layouts_in(location)
        .iter()
        .any(|layout| layout_stands_twice(attributes, layout))
}

/// Whether the bodies of two attributes are numbers.
fn two_have_numbers<A: Tabled>(attributes: &[A]) -> bool
    ensures { result ≡ two_have_numbers (map A.attribute attributes.now) }
{
    attributes.len() > 1 && attributes.iter().filter(|a| has_numbers(*a)).count() > 1
}

/// Whether two attributes of numbers are among them of which there may be one. Most tables have one attribute at most,
/// or one beside the Code.
#[tactic(auto, unfolding(crate::specs::NumberForm::numbers_stand_twice))]
pub fn numbers_stand_twice<A: Tabled>(location: Location, attributes: &[A]) -> bool
    ensures { result ≡ numbers_stand_twice location (map A.attribute attributes.now) }
{
    two_have_numbers(attributes) && one_stands_twice(location, attributes)
}
