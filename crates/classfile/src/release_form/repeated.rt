//! Attributes of which a table may have one (JVMS 4.7.6 to 4.7.29), beside those that are judged in every class.
ghost use Rattle.std.specs.Prelude.{◌≡◌, true, map, length, nat_le, nat_lt, count_by};
ghost use Rattle.std.specs.List.{list_all};
ghost use Rattle.classfile.specs.AttributeForm.{on_body};
ghost use Rattle.classfile.specs.NumberForm.{on_numbers};
ghost use Rattle.classfile.specs.private.IndexColumns.{is_long};
ghost use Rattle.classfile.specs.release.Attributes.{singles_in, has_name, single_stands_twice, singles_stand_twice, code_has_twice, codes_have_twice, component_has_twice, components_have_twice, records_have_twice, is_numbers_of, have_numbers_of, are_of_two_nests};
ghost use Rattle.classfile.specs.release.Views.{single_view};
ghost use Rattle.classfile.specs.Views.{attribute_view, class_attribute_view, code_view, component_view};

use crate::attribute::Attribute;
use crate::class_attribute::ClassAttribute;
use crate::component::Component;
use crate::location::{Location, is_named, is_text};
use crate::repeated_attributes::Tabled;
use pool::Pool;

/// An attribute of this name may stand once, from a major version on.
struct Single {
    first_major: u16,
    name: &'static str,
}

/// A table that is written as `MAJOR "Name";`, one attribute a line.
macro_rules! singles {
    ($($major:literal $name:literal;)*) => {
        [$(Single { first_major: $major, name: $name }),*]
    };
}

/// Attributes of which a class has one at most.
static CLASS_SINGLES: [Single; 7] = singles! {
    49 "EnclosingMethod";
    49 "SourceDebugExtension";
    51 "BootstrapMethods";
    49 "RuntimeVisibleAnnotations";
    49 "RuntimeInvisibleAnnotations";
    52 "RuntimeVisibleTypeAnnotations";
    52 "RuntimeInvisibleTypeAnnotations";
};

/// Attributes of which a field, or a component of a record, has one at most.
static ANNOTATIONS: [Single; 4] = singles! {
    49 "RuntimeVisibleAnnotations";
    49 "RuntimeInvisibleAnnotations";
    52 "RuntimeVisibleTypeAnnotations";
    52 "RuntimeInvisibleTypeAnnotations";
};

/// Attributes of which a method has one at most.
static METHOD_SINGLES: [Single; 8] = singles! {
    49 "RuntimeVisibleParameterAnnotations";
    49 "RuntimeInvisibleParameterAnnotations";
    49 "AnnotationDefault";
    52 "MethodParameters";
    49 "RuntimeVisibleAnnotations";
    49 "RuntimeInvisibleAnnotations";
    52 "RuntimeVisibleTypeAnnotations";
    52 "RuntimeInvisibleTypeAnnotations";
};

/// Attributes of which a Code has one at most.
static TYPE_ANNOTATIONS: [Single; 2] = singles! {
    52 "RuntimeVisibleTypeAnnotations";
    52 "RuntimeInvisibleTypeAnnotations";
};

fn singles_in(location: Location) -> &'static [Single]
    ensures { map single_view result.now ≡ singles_in location }
{
    match location {
        Location::Class { .. } => &CLASS_SINGLES,
        Location::Field | Location::RecordComponent => &ANNOTATIONS,
        Location::Method => &METHOD_SINGLES,
        Location::Code => &TYPE_ANNOTATIONS,
    }
}

fn has_name<A: Tabled>(pool: &Pool<'_>, name: &str, attribute: &A) -> bool
    ensures { result ≡ has_name pool.now name.now (A.attribute attribute.now) }
{
    is_named(pool, attribute.name(), name.as_bytes())
}

#[tactic(auto, unfolding(crate::specs::release::Attributes::single_stands_twice))]
fn single_stands_twice<A: Tabled>(
    major: u16,
    pool: &Pool<'_>,
    attributes: &[A],
    single: &Single,
) -> bool
    ensures { result ≡ single_stands_twice major pool.now (map A.attribute attributes.now) (single_view single.now) }
{
    single.first_major <= major
        && attributes
            .iter()
            .filter(|a| has_name(pool, single.name, *a))
            .count()
            > 1
}

#[tactic(auto, unfolding(crate::specs::release::Attributes::singles_stand_twice))]
fn any_stands_twice<A: Tabled>(
    major: u16,
    pool: &Pool<'_>,
    location: Location,
    attributes: &[A],
) -> bool
    ensures { result ≡ singles_stand_twice major pool.now location (map A.attribute attributes.now) }
{
    singles_in(location).iter().any(|single| single_stands_twice(major, pool, attributes, single))
}

/// The least length of a name of an attribute of which there may be one.
fn least_length(location: Location) -> usize
    ensures { list_all (λ s. nat_le result (length s.name)) (singles_in location) ≡ true }
{
    match location {
        Location::Class { .. } => 15,
        Location::Field | Location::RecordComponent => 25,
        Location::Method => 16,
        Location::Code => 29,
    }
}

/// Whether the name of an attribute is so long.
fn is_long<A: Tabled>(pool: &Pool<'_>, least: usize, attribute: &A) -> bool
    ensures { result ≡ is_long pool.now least (A.attribute attribute.now) }
{
    match pool.text(attribute.name()) {
        Ok(name) => name.bytes().len() >= least,
        Err(_) => false,
    }
}

/// Whether the names of two attributes are so long.
fn two_are_long<A: Tabled>(pool: &Pool<'_>, least: usize, attributes: &[A]) -> bool
    ensures { result ≡ nat_lt 1 (count_by (is_long pool.now least) (map A.attribute attributes.now)) }
{
    attributes.len() > 1
        && attributes
            .iter()
            .filter(|a| is_long(pool, least, *a))
            .count()
            > 1
}

/// Whether an attribute of which there may be one stands twice in the table of a class of this major version. Most
/// tables have at most one attribute whose name is as long as the names of these are.
pub fn singles_stand_twice<A: Tabled>(
    major: u16,
    pool: &Pool<'_>,
    location: Location,
    attributes: &[A],
) -> bool
    ensures { result ≡ singles_stand_twice major pool.now location (map A.attribute attributes.now) }
{
    two_are_long(pool, least_length(location), attributes)
        && any_stands_twice(major, pool, location, attributes)
}

fn code_has_twice(major: u16, pool: &Pool<'_>, attribute: &Attribute<'_>) -> bool
    ensures { result ≡ on_body (code_has_twice major pool.now) (attribute_view attribute.now) }
{
    match attribute {
        Attribute::Code { code, .. } => {
            singles_stand_twice(major, pool, Location::Code, &code.attributes)
        }
        Attribute::Numbers { .. } | Attribute::Raw { .. } => false,
    }
}

/// Whether one stands twice in the table of a Code attribute.
#[tactic(auto, unfolding(crate::specs::release::Attributes::codes_have_twice))]
pub fn codes_have_twice(major: u16, pool: &Pool<'_>, attributes: &[Attribute<'_>]) -> bool
    ensures { result ≡ codes_have_twice major pool.now (map attribute_view attributes.now) }
{
    attributes.iter().any(|a| code_has_twice(major, pool, a))
}

fn component_has_twice(major: u16, pool: &Pool<'_>, component: &Component<'_>) -> bool
    ensures { result ≡ component_has_twice major pool.now (component_view component.now) }
{
    singles_stand_twice(
        major,
        pool,
        Location::RecordComponent,
        &component.attributes,
    )
}

#[tactic(auto, unfolding(crate::specs::release::Attributes::components_have_twice))]
fn components_have_twice(major: u16, pool: &Pool<'_>, components: &[Component<'_>]) -> bool
    ensures { result ≡ components_have_twice major pool.now (map component_view components.now) }
{
    components
        .iter()
        .any(|c| component_has_twice(major, pool, c))
}

fn record_has_twice(major: u16, pool: &Pool<'_>, attribute: &ClassAttribute<'_>) -> bool
    ensures { result ≡ on_body (components_have_twice major pool.now) (class_attribute_view attribute.now) }
{
    match attribute {
        ClassAttribute::Record { components, .. } => components_have_twice(major, pool, components),
        ClassAttribute::Numbers { .. } | ClassAttribute::Raw { .. } => false,
    }
}

/// Whether one stands twice in the table of a component of a record.
#[tactic(auto, unfolding(crate::specs::release::Attributes::records_have_twice))]
pub fn records_have_twice(major: u16, pool: &Pool<'_>, attributes: &[ClassAttribute<'_>]) -> bool
    ensures { result ≡ records_have_twice major pool.now (map class_attribute_view attributes.now) }
{
    attributes.iter().any(|a| record_has_twice(major, pool, a))
}

fn is_numbers_of(name: &str, attribute: &ClassAttribute<'_>) -> bool
    ensures { result ≡ on_numbers (is_numbers_of name.now) (class_attribute_view attribute.now) }
{
    match attribute {
        ClassAttribute::Numbers { numbers, .. } => {
            is_text(numbers.layout.name.as_bytes(), name.as_bytes())
        }
        ClassAttribute::Record { .. } | ClassAttribute::Raw { .. } => false,
    }
}

#[tactic(auto, unfolding(crate::specs::release::Attributes::have_numbers_of))]
fn have_numbers_of(name: &str, attributes: &[ClassAttribute<'_>]) -> bool
    ensures { result ≡ have_numbers_of name.now (map class_attribute_view attributes.now) }
{
    attributes.iter().any(|a| is_numbers_of(name, a))
}

/// Whether a class has the attributes of a nest's host and of its members both.
pub fn are_of_two_nests(attributes: &[ClassAttribute<'_>]) -> bool
    ensures { result ≡ are_of_two_nests (map class_attribute_view attributes.now) }
{
    have_numbers_of("NestHost", attributes) && have_numbers_of("NestMembers", attributes)
}
