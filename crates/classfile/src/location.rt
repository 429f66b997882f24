//! Where an attribute stands, and whether its body is read by its parts there (JVMS 4.7, table 4.7-C).
ghost use Rattle.std.specs.Prelude.{◌≡◌};
ghost use Rattle.std.specs.Str.{bytes_eq};
ghost use Rattle.classfile.specs.Locations.{is_named, is_code, is_stack_map, is_record};

use pool::Pool;

/// The table that an attribute stands in.
#[derive(Clone, Copy, Debug, PartialEq, Eq)]
pub enum Location {
    /// The attributes of the class file, which is of this major version.
    Class { major: u16 },
    /// The attributes of a field.
    Field,
    /// The attributes of a method.
    Method,
    /// The attributes of a Code attribute.
    Code,
    /// The attributes of a component of a record.
    RecordComponent,
}

/// Whether the bytes are these. Texts are short: they are compared one byte after the other.
fn are_bytes(bytes: &[u8], text: &[u8]) -> bool
    ensures { result ≡ bytes_eq bytes.now text.now }
{
    let (mut rest, mut others) = (bytes, text);
    while let ([byte, behind @ ..], [other, others_behind @ ..]) = (rest, others) {
        if byte != other {
            return false;
        }
        (rest, others) = (behind, others_behind);
    }
    rest.is_empty() && others.is_empty()
}

/// Whether a text is this one. Most texts that are compared differ in their lengths.
pub fn is_text(bytes: &[u8], text: &[u8]) -> bool
    ensures { result ≡ bytes_eq bytes.now text.now }
{
    bytes.len() == text.len() && are_bytes(bytes, text)
}

/// Whether the index names this text.
pub fn is_named(pool: &Pool<'_>, index: u16, text: &[u8]) -> bool
    ensures { result ≡ is_named pool.now index text.now }
{
    match pool.text(index) {
        Ok(name) => is_text(name.bytes(), text),
        Err(_) => false,
    }
}

/// Whether an attribute of this name is read as a Code attribute here.
pub fn is_code(pool: &Pool<'_>, location: Location, name: u16) -> bool
    ensures { result ≡ is_code pool.now location name }
{
    match location {
        Location::Method => is_named(pool, name, b"Code"),
        Location::Class { .. } | Location::Field | Location::Code | Location::RecordComponent =>
            false,
    }
}

/// Whether an attribute of this name is a StackMapTable here.
pub fn is_stack_map(pool: &Pool<'_>, location: Location, name: u16) -> bool
    ensures { result ≡ is_stack_map pool.now location name }
{
    match location {
        Location::Code => is_named(pool, name, b"StackMapTable"),
        Location::Class { .. } | Location::Field | Location::Method | Location::RecordComponent =>
            false,
    }
}

/// Whether an attribute of this name is read as a Record attribute here.
pub fn is_record(pool: &Pool<'_>, location: Location, name: u16) -> bool
    ensures { result ≡ is_record pool.now location name }
{
    match location {
        Location::Class { major } => major >= 60 && is_named(pool, name, b"Record"),
        Location::Field | Location::Method | Location::Code | Location::RecordComponent => false,
    }
}
