//! The attribute of a class, a field or a method that breaks the rule that is reported there (JVMS 4.7).
ghost use Rattle.std.specs.Prelude.{◌≡◌, map, position, slice_get, None};
ghost use Rattle.std.specs.Option.{option_map_or};
ghost use Rattle.classfile.specs.AttributeFault.{attribute_breaks, class_attribute_breaks, second, second_of_layout, lesser, least, repeated_at, twice_at, member_attribute_at, class_attribute_at, attribute_at_fault, name_in, member_name_in, attribute_name};
ghost use Rattle.classfile.specs.LayoutViews.{layout_view};
ghost use Rattle.classfile.specs.private.AttributeKinds.{has_kind};
ghost use Rattle.classfile.specs.Views.{attribute_view, class_attribute_view, member_view, class_view};

use crate::attribute::Attribute;
use crate::attribute_form::{
    attribute_has_bad, attribute_has_fault, code_has_two_stack_maps, code_is_badly_long,
};
use crate::class_attribute::ClassAttribute;
use crate::class_file::ClassFile;
use crate::form_fault::{FormRule, Place};
use crate::layouts::{AttributeLayout, layouts_in};
use crate::location::Location;
use crate::member::Member;
use crate::record_form::{class_attribute_has_bad, class_attribute_has_fault, record_has_twice};
use crate::repeated_attributes::{Tabled, has_this_layout};
use pool::Pool;

/// A kind of attributes of which a table may have one.
#[derive(Clone, Copy)]
enum Kind<'t> {
    /// They are read by their parts.
    OfParts,
    /// They are numbers of this layout.
    OfLayout(&'t AttributeLayout<'t>),
}

fn has_kind<A: Tabled>(kind: Kind<'_>, attribute: &A) -> bool
    ensures { result ≡ has_kind kind.entry (A.attribute attribute.now) }
{
    match kind {
        Kind::OfParts => attribute.is_of_parts(),
        Kind::OfLayout(layout) => has_this_layout(layout, attribute),
    }
}

/// The second attribute of the kind.
fn second<A: Tabled>(kind: Kind<'_>, attributes: &[A]) -> Option<usize>
    ensures { result ≡ second (has_kind kind.entry) (map A.attribute attributes.now) }
{
    let mut met = false;
    for (n, attribute) in attributes.iter().enumerate() {
        if has_kind(kind, attribute) {
            if met {
                return Some(n);
            }
            met = true;
        }
    }
    None
}

/// The second attribute of the layout, if there may be one.
fn second_of_layout<A: Tabled>(attributes: &[A], layout: &AttributeLayout<'_>) -> Option<usize>
    ensures { result ≡ second_of_layout (map A.attribute attributes.now) (layout_view layout.now) }
{
    if layout.once {
        second(Kind::OfLayout(layout), attributes)
    } else {
        None
    }
}

/// The smaller index, where there are two.
fn lesser(first: Option<usize>, second: Option<usize>) -> Option<usize>
    ensures { result ≡ lesser first second }
{
    match (first, second) {
        (Some(m), Some(n)) => Some(m.min(n)),
        (Some(m), None) => Some(m),
        (None, n) => n,
    }
}

/// The smallest of an index and of those of the second attributes of the layouts.
fn least<A: Tabled>(
    attributes: &[A],
    first: Option<usize>,
    layouts: &[AttributeLayout<'_>],
) -> Option<usize>
    ensures { result ≡ least first (map (second_of_layout (map A.attribute attributes.now))
        (map layout_view layouts.now)) }
{
    let mut found = first;
    for layout in layouts {
        found = lesser(found, second_of_layout(attributes, layout));
    }
    found
}

/// The first attribute of which there may be one in this table, and that is the second one of its kind.
fn repeated_at<A: Tabled>(location: Location, attributes: &[A]) -> Option<usize>
    ensures { result ≡ repeated_at location (map A.attribute attributes.now) }
{
    let first = second(Kind::OfParts, attributes);
    least(attributes, first, layouts_in(location))
}

fn twice_at<A: Tabled>(rule: FormRule, location: Location, attributes: &[A]) -> Option<usize>
    ensures { result ≡ twice_at rule location (map A.attribute attributes.now) }
{
    match rule {
        FormRule::AttributeTwice => repeated_at(location, attributes),
        _ => None,
    }
}

/// Whether an attribute of a field or a method breaks the rule by what it holds.
fn attribute_breaks(pool: &Pool<'_>, rule: FormRule, attribute: &Attribute<'_>) -> bool
    ensures { result ≡ attribute_breaks pool.now rule (attribute_view attribute.now) }
{
    match rule {
        FormRule::BadIndex => attribute_has_bad(pool, attribute),
        FormRule::WrongKind => attribute_has_fault(pool, attribute),
        FormRule::BadCodeLength => code_is_badly_long(attribute),
        FormRule::AttributeTwice => code_has_two_stack_maps(attribute),
        _ => false,
    }
}

/// Whether an attribute of a class breaks the rule by what it holds.
fn class_attribute_breaks(pool: &Pool<'_>, rule: FormRule, attribute: &ClassAttribute<'_>) -> bool
    ensures { result ≡ class_attribute_breaks pool.now rule (class_attribute_view attribute.now) }
{
    match rule {
        FormRule::BadIndex => class_attribute_has_bad(pool, attribute),
        FormRule::WrongKind => class_attribute_has_fault(pool, attribute),
        FormRule::AttributeTwice => record_has_twice(attribute),
        _ => false,
    }
}

fn first_to_break(pool: &Pool<'_>, rule: FormRule, attributes: &[Attribute<'_>]) -> Option<usize>
    ensures { result ≡ position (attribute_breaks pool.now rule) (map attribute_view attributes.now) }
{
    attributes
        .iter()
        .position(|a| attribute_breaks(pool, rule, a))
}

fn class_first_to_break(
    pool: &Pool<'_>,
    rule: FormRule,
    attributes: &[ClassAttribute<'_>],
) -> Option<usize>
    ensures { result ≡ position (class_attribute_breaks pool.now rule) (map class_attribute_view attributes.now) }
{
    attributes
        .iter()
        .position(|a| class_attribute_breaks(pool, rule, a))
}

/// The attribute at fault of the field or method of this number, if there is one.
fn member_attribute_at(
    pool: &Pool<'_>,
    rule: FormRule,
    location: Location,
    members: &[Member<'_>],
    number: usize,
) -> Option<usize>
    ensures { result ≡ option_map_or (member_attribute_at pool.now rule location)
        (slice_get (map member_view members.now) number) None }
{
    let attributes = &members.get(number)?.attributes;
    lesser(
        first_to_break(pool, rule, attributes),
        twice_at(rule, location, attributes),
    )
}

fn class_attribute_at(class: &ClassFile<'_>, rule: FormRule) -> Option<usize>
    ensures { result ≡ class_attribute_at (class_view class.now) rule }
{
    let attributes = &class.attributes;
    let location = Location::Class {
        major: class.major_version,
    };
    lesser(
        class_first_to_break(&class.constant_pool, rule, attributes),
        twice_at(rule, location, attributes),
    )
}

/// The attribute at fault where [`form_check`](crate::form_check) tells this rule at this place (JVMS 4.7): of the
/// attributes of the class, the field or the method, by its number from 0, the first that breaks the rule.
///
/// It has an index that breaks the rule, 20 or 21, or a code of a bad length (29); or it is the second one of a kind of
/// which there may be one, or holds two of such a kind (30). Nothing where no attribute breaks the rule. Time grows
/// with the bytes of the attributes.
pub fn attribute_at_fault(class: &ClassFile<'_>, rule: FormRule, place: Place) -> Option<usize>
    ensures { result ≡ attribute_at_fault (class_view class.now) rule place }
{
    let pool = &class.constant_pool;
    match place {
        Place::Pool(_) => None,
        Place::Class => class_attribute_at(class, rule),
        Place::Field(n) => member_attribute_at(pool, rule, Location::Field, &class.fields, n),
        Place::Method(n) => member_attribute_at(pool, rule, Location::Method, &class.methods, n),
    }
}

fn name_in<A: Tabled>(attributes: &[A], number: usize) -> Option<u16>
    ensures { result ≡ name_in (map A.attribute attributes.now) number }
{
    Some(attributes.get(number)?.name())
}

fn member_name_in(members: &[Member<'_>], member: usize, number: usize) -> Option<u16>
    ensures { result ≡ member_name_in (map member_view members.now) member number }
{
    name_in(&members.get(member)?.attributes, number)
}

/// The index of the name of an attribute of the class, of a field or of a method, by its number from 0; nothing where
/// there is none.
pub fn attribute_name(class: &ClassFile<'_>, place: Place, number: usize) -> Option<u16>
    ensures { result ≡ attribute_name (class_view class.now) place number }
{
    match place {
        Place::Pool(_) => None,
        Place::Class => name_in(&class.attributes, number),
        Place::Field(n) => member_name_in(&class.fields, n, number),
        Place::Method(n) => member_name_in(&class.methods, n, number),
    }
}
