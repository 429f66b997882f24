//! Names: whether a text is a class name, a field's name or a method's name.

ghost use Rattle.std.specs.Prelude.{◌≡◌, ◌↔◌, ◌≤◌, ℕ, IsTrue, true, false, List, ◌∷◌, ◌++◌, length, take, drop};
ghost use Rattle.names.specs.Names.{is_name_unit, is_angle, IsUnqualifiedName, IsMethodName, IsClassName};
ghost use Rattle.names.specs.Reading.{mapped, goes_on, ends_class_name, read_class};
ghost use Rattle.names.specs.Texts.{spelling};

use crate::class_names::is_seen_as_class_name;
use crate::plain_bytes::plain_end;
use crate::text::Text;

/// Whether the byte may stand in an unqualified name.
pub(crate) fn is_name_byte(b: u8) -> bool
    ensures { result ≡ is_name_unit b }
{
    !matches!(b, b'.' | b';' | b'[' | b'/')
}

pub(crate) fn is_angle(b: u8) -> bool
    ensures { result ≡ is_angle b }
{
    matches!(b, b'<' | b'>')
}

fn is_unqualified_name(name: &[u8]) -> bool
    ensures { IsTrue result ↔ IsUnqualifiedName name.now }
{
    !name.is_empty() && name.iter().all(|b| is_name_byte(*b))
}

/// Whether the text is a field's name: an unqualified name (JVMS 4.2.2). Takes no memory.
pub fn is_field_name(text: Text<'_>) -> bool
    ensures { IsTrue result ↔ IsUnqualifiedName text.entry.bytes.now }
{
    is_unqualified_name(text.bytes())
}

/// Whether the text is a method's name: an unqualified name without `<` and `>` (JVMS 4.2.2). The
/// special names `<init>` and `<clinit>` are none. Takes no memory.
pub fn is_method_name(text: Text<'_>) -> bool
    ensures { IsTrue result ↔ IsMethodName text.entry.bytes.now }
{
    let name = text.bytes();
    is_unqualified_name(name) && name.iter().all(|b| !is_angle(*b))
}

/// Whether the text is the name of a class or interface in its internal form: unqualified names with a
/// `/` between each two (JVMS 4.2.1). Takes no memory.
pub fn is_class_name(text: Text<'_>) -> bool
    ensures { IsTrue result ↔ IsClassName text.entry.bytes.now }
{
    let name = text.bytes();
    is_seen_as_class_name(name) || is_class_name_by_front(name)
}

fn is_class_name_by_front(name: &[u8]) -> bool
    ensures { IsTrue result ↔ IsClassName name.now }
{
    let (front, fresh) = class_name_front(name);
    front == name.len() && !fresh
}

/// How many bytes begin a class name, and whether an unqualified name has still to begin after them. The unqualified
/// name that is read begins at `start`.
pub(crate) fn class_name_front(bytes: &[u8]) -> (usize, bool)
    ensures within { result.0 ≤ length bytes.now }
    ensures ends { ends_class_name true bytes.now ≡ ends_class_name result.1 (drop result.0 bytes.now) }
    ensures reads { read_class true bytes.now
        ≡ mapped (λ name. take result.0 bytes.now ++ name) (read_class result.1 (drop result.0 bytes.now)) }
    ensures stops { (b : ℕ) (rest : List ℕ) → drop result.0 bytes.now ≡ b ∷ rest → goes_on result.1 b ≡ false }
{
    let mut start = 0;
    let mut at = 0;
    'bytes: loop {
        at = plain_end(bytes, at);
        if at == bytes.len() {
            return (at, at == start);
        }
        let b = bytes[at];
        if b == b'/' && at != start {
            start = at + 1;
        } else if !is_name_byte(b) {
            return (at, at == start);
        }
        at += 1;
    }
}

/// The definitions of names hold of a text's units exactly if they hold of the bytes that spell them.
pub fn names_by_units()
    ensures unqualified { (units : List ℕ) → IsUnqualifiedName (spelling units) ↔ IsUnqualifiedName units }
    ensures method { (units : List ℕ) → IsMethodName (spelling units) ↔ IsMethodName units }
    ensures class { (units : List ℕ) → IsClassName (spelling units) ↔ IsClassName units }
{}
