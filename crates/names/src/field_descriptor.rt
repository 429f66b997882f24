//! Whether a text is the descriptor of a field (JVMS 4.3.2).

ghost use Rattle.std.specs.Prelude.{◌≡◌, ◌≤◌, IsTrue};
ghost use Rattle.std.specs.Result.{is_ok};
ghost use Rattle.names.specs.Descriptors.{FieldDescriptor, SpellsField, dimensions};
ghost use Rattle.names.specs.Reading.{field_answer};

use crate::name_run::stops_in_front;
use crate::reading::field_type;
use crate::text::Text;
use crate::type_end::type_end;

/// Whether the text is the descriptor of a field, of at most 255 dimensions (JVMS 4.3.2). Takes no memory.
pub fn is_field_descriptor(text: Text<'_>) -> bool
    // True of each text that a type spells, and of no other.
    ensures accepted { (t : FieldDescriptor) → SpellsField text.entry.bytes.now t → dimensions t ≤ 255 → IsTrue result }
    ensures only { IsTrue result → (t : FieldDescriptor) × SpellsField text.entry.bytes.now t × (dimensions t ≤ 255) }

    // So says the word that computes.
    ensures computed { result ≡ is_ok (field_answer text.entry.bytes.now) }
{
    is_one_type(text.bytes()) || field_type(text).is_ok()
}

/// Whether the bytes are seen to be one type.
fn is_one_type(bytes: &[u8]) -> bool
    ensures { IsTrue result → IsTrue (is_ok (field_answer bytes.now)) }
{
    !bytes.is_empty() && type_end(bytes, 0, stops_in_front(bytes)) == bytes.len()
}
