//! Whether texts are names or descriptors of their forms (JVMS 4.2, 4.3).
ghost use Rattle.std.specs.Prelude.{◌≡◌};
ghost use Rattle.classfile.specs.Naming.{begins_with, is_array_name, is_class_name, is_unqualified_name, is_method_name, is_init, is_clinit, is_field_descriptor};

use names::{NameForms, Text};

/// Whether the text begins with the byte.
pub fn begins_with(text: Text<'_>, byte: u8) -> bool
    ensures { result ≡ begins_with byte text.entry.bytes.now }
{
    match text.bytes() {
        [] => false,
        [first, ..] => *first == byte,
    }
}

/// Whether the text begins as the descriptor of an array does.
pub fn is_array_name(text: Text<'_>) -> bool
    ensures { result ≡ is_array_name text.entry.bytes.now }
{
    begins_with(text, b'[')
}

/// The forms of names that the text has.
pub fn name_forms(text: Text<'_>) -> NameForms
    ensures class { result.class_name ≡ is_class_name text.entry.bytes.now }
    ensures unqualified { result.unqualified_name ≡ is_unqualified_name text.entry.bytes.now }
    ensures method { result.method_name ≡ is_method_name text.entry.bytes.now }
{
    names::name_forms(text)
}

/// Whether the text is the name of instance initialization methods (JVMS 2.9.1).
pub fn is_init(text: Text<'_>) -> bool
    ensures { result ≡ is_init text.entry.bytes.now }
{
    let [a, b, c, d, e, f] = text.bytes() else {
        return false;
    };
    (*a == b'<') & (*b == b'i') & (*c == b'n') & (*d == b'i') & (*e == b't') & (*f == b'>')
}

/// Whether the text is the name of class initialization methods (JVMS 2.9.2).
pub fn is_clinit(text: Text<'_>) -> bool
    ensures { result ≡ is_clinit text.entry.bytes.now }
{
    let [a, b, c, d, e, f, g, h] = text.bytes() else {
        return false;
    };
    (*a == b'<')
        & (*b == b'c')
        & (*c == b'l')
        & (*d == b'i')
        & (*e == b'n')
        & (*f == b'i')
        & (*g == b't')
        & (*h == b'>')
}

/// Whether the text is the descriptor of a field.
pub fn is_field_descriptor(text: Text<'_>) -> bool
    ensures { result ≡ is_field_descriptor text.entry.bytes.now }
{
    names::is_field_descriptor(text)
}
