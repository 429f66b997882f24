//! The forms of names that a text has, found in one pass over its bytes (JVMS 4.2).

ghost use Rattle.std.specs.Prelude.{◌≡◌, ◌↔◌, IsTrue};
ghost use Rattle.names.specs.Names.{IsUnqualifiedName, IsMethodName, IsClassName};
ghost use Rattle.names.specs.Forms.{AreNameForms};

use crate::byte_lanes::are_all;
use crate::name::{is_angle, is_name_byte};
use crate::plain_bytes::{Plain, is_plain};
use crate::text::Text;

/// The forms of names that a text has (JVMS 4.2).
#[derive(Clone, Copy, Debug, PartialEq, Eq)]
pub struct NameForms {
    /// The name of a class or interface in its internal form (JVMS 4.2.1).
    pub class_name: bool,
    /// An unqualified name (JVMS 4.2.2).
    pub unqualified_name: bool,
    /// An unqualified name without `<` and `>` (JVMS 4.2.2).
    pub method_name: bool,
}

/// The forms of names that the text has. Takes no memory.
pub fn name_forms(text: Text<'_>) -> NameForms
    ensures class { IsTrue result.class_name ↔ IsClassName text.entry.bytes.now }
    ensures unqualified { IsTrue result.unqualified_name ↔ IsUnqualifiedName text.entry.bytes.now }
    ensures method { IsTrue result.method_name ↔ IsMethodName text.entry.bytes.now }
{
    forms_of(text.bytes())
}

/// The unqualified name that is read begins at `start`.
fn forms_of(bytes: &[u8]) -> NameForms
    ensures { AreNameForms bytes.now result }
{
    if !bytes.is_empty() && are_all::<Plain>(bytes) {
        return NameForms {
            class_name: true,
            unqualified_name: true,
            method_name: true,
        };
    }
    let mut start = 0;
    let mut angle = false;
    for (at, b) in bytes.iter().enumerate() {
        if is_plain(*b) {
            continue;
        }
        if *b == b'/' && at != start {
            start = at + 1;
            continue;
        }
        if !is_name_byte(*b) {
            return NameForms {
                class_name: false,
                unqualified_name: false,
                method_name: false,
            };
        }
        angle |= is_angle(*b);
    }
    let class_name = bytes.len() != start;
    let unqualified_name = class_name & (start == 0);
    NameForms {
        class_name,
        unqualified_name,
        method_name: unqualified_name & !angle,
    }
}
