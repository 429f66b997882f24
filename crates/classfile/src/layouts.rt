//! Attributes of numbers: the table of them, by where they stand, and how their bodies are laid out (JVMS 4.7).
ghost use Rattle.std.specs.Prelude.{◌≡◌, ◌*◌, map, length, option_map};
ghost use Rattle.classfile.specs.Layouts.{is_layout, layout_in, layouts_in, layout_at, major_at, has_count, has_layout};
ghost use Rattle.classfile.specs.LayoutViews.{layout_view};

use crate::location::Location;
use crate::numbers::number;
use pool::Pool;

/// The meaning of a number in the body of an attribute.
#[derive(Clone, Copy, Debug, PartialEq, Eq)]
pub enum Column {
    /// It names no constant.
    Plain,
    /// The index of a Utf8.
    Text,
    /// The index of a Utf8, or 0.
    TextOrZero,
    /// The index of a Class.
    Class,
    /// The index of a Class, or 0.
    ClassOrZero,
    /// The index of an Integer, a Float, a Long, a Double or a String.
    Value,
}

/// How the body of an attribute is laid out that is numbers of two bytes each: a row of such numbers, or a count and as
/// many rows.
#[derive(Clone, Copy, Debug, PartialEq, Eq)]
pub struct AttributeLayout<'t> {
    /// The attribute's name.
    pub name: &'t str,
    /// The first major version of class files in which it is read so.
    pub first_major: u16,
    /// Whether it may stand only once in its table.
    pub once: bool,
    /// Whether a count stands before the rows; otherwise there is one row.
    pub counted: bool,
    /// The meanings of the numbers of a row.
    pub columns: &'t [Column],
}

/// The layouts of a table that is written as `NAME MAJOR ONCE COUNTED [COLUMN, COLUMN];`, one a line.
macro_rules! attributes {
    ($($name:literal $major:literal $once:literal $counted:literal [$($column:ident),*];)*) => {
        [$(AttributeLayout {
            name: $name, first_major: $major, once: $once, counted: $counted, columns: &[$(Column::$column),*]
        }),*]
    };
}

/// The layouts of attributes of classes.
static CLASS_LAYOUTS: [AttributeLayout<'static>; 8] = attributes! {
    "SourceFile"          45 true  false [Text];
    "InnerClasses"        45 true  true  [Class, ClassOrZero, TextOrZero, Plain];
    "NestHost"            55 true  false [Class];
    "NestMembers"         55 true  true  [Class];
    "PermittedSubclasses" 61 true  true  [Class];
    "Signature"           49 true  false [Text];
    "Deprecated"          45 false false [];
    "Synthetic"           45 false false [];
};

/// The layouts of attributes of fields.
static FIELD_LAYOUTS: [AttributeLayout<'static>; 4] = attributes! {
    "ConstantValue" 45 true  false [Value];
    "Signature"     49 true  false [Text];
    "Deprecated"    45 false false [];
    "Synthetic"     45 false false [];
};

/// The layouts of attributes of methods.
static METHOD_LAYOUTS: [AttributeLayout<'static>; 4] = attributes! {
    "Exceptions" 45 true  true  [Class];
    "Signature"  49 true  false [Text];
    "Deprecated" 45 false false [];
    "Synthetic"  45 false false [];
};

/// The layouts of attributes of Code attributes.
static CODE_LAYOUTS: [AttributeLayout<'static>; 2] = attributes! {
    "LineNumberTable"    45 false true [Plain, Plain];
    "LocalVariableTable" 45 false true [Plain, Plain, Text, Text, Plain];
};

/// The layouts of attributes of components of records.
static COMPONENT_LAYOUTS: [AttributeLayout<'static>; 1] = attributes! {
    "Signature" 49 true false [Text];
};

/// The layouts of the attributes of numbers that may stand in a table.
pub fn layouts_in(location: Location) -> &'static [AttributeLayout<'static>]
    ensures { map layout_view result.now ≡ layouts_in location }
{
    match location {
        Location::Class { .. } => &CLASS_LAYOUTS,
        Location::Field => &FIELD_LAYOUTS,
        Location::Method => &METHOD_LAYOUTS,
        Location::Code => &CODE_LAYOUTS,
        Location::RecordComponent => &COMPONENT_LAYOUTS,
    }
}

/// Whether the layout is that of this name, and stands for class files of this version.
fn is_layout(layout: &AttributeLayout<'_>, major: u16, name: &[u8]) -> bool
    ensures { result ≡ is_layout major name.now (layout_view layout.now) }
{
    let text = layout.name.as_bytes();
    layout.first_major <= major && name.len() == text.len() && name == text
}

/// The first layout of this name.
fn layout_in(
    layouts: &'static [AttributeLayout<'static>],
    major: u16,
    name: &[u8],
) -> Option<&'static AttributeLayout<'static>>
    ensures { option_map (λ l. layout_view l.now) result ≡ layout_in major name.now (map layout_view layouts.now) }
{
    for layout in layouts {
        if is_layout(layout, major, name) {
            return Some(layout);
        }
    }
    None
}

/// The version on which it hangs what stands there.
fn major_at(location: Location) -> u16
    ensures { result ≡ major_at location }
{
    match location {
        Location::Class { major } => major,
        Location::Field | Location::Method | Location::Code | Location::RecordComponent => 51,
    }
}

/// The layout of an attribute by the index of its name.
pub fn layout_at(
    pool: &Pool<'_>,
    location: Location,
    name: u16,
) -> Option<&'static AttributeLayout<'static>>
    ensures { option_map (λ l. layout_view l.now) result ≡ layout_at pool.now location name }
{
    match pool.text(name) {
        Ok(text) => layout_in(layouts_in(location), major_at(location), text.bytes()),
        Err(_) => None,
    }
}

/// Whether the body is a count, and as many rows of so many bytes.
pub fn has_count(width: usize, body: &[u8]) -> bool
    ensures { result ≡ has_count width body.now }
{
    let [high, low, rows @ ..] = body else {
        return false;
    };
    usize::from(number(*high, *low)).checked_mul(width) == Some(rows.len())
}

/// Whether the body is laid out so.
pub fn has_layout(layout: &AttributeLayout<'_>, body: &[u8]) -> bool
    ensures { result ≡ has_layout (layout_view layout.now) body.now }
{
    let width = 2 * layout.columns.len();
    if layout.counted {
        has_count(width, body)
    } else {
        body.len() == width
    }
}
