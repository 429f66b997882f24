//! The types of a method's parameters, one by one, as its descriptor names them (JVMS 4.3.3).

ghost use Rattle.std.specs.Prelude.{◌≡◌, Bool, Ok};
ghost use Rattle.names.specs.Descriptors.{MethodDescriptor, SpellsMethod, AreWithinDimensions};
ghost use Rattle.names.specs.Reading.{method_answer};
ghost use Rattle.names.specs.Parameters.{types_left};

use crate::descriptor::FieldType;
use crate::reading::{is_first, read_field};
use crate::text::Text;

/// The parameters of a method's descriptor, from the first on.
#[derive(Drop)]
pub struct Parameters<'a> {
    rest: &'a [u8],
}

/// The parameters that a method descriptor names, forwards and without a list of them (JVMS 4.3.3). Takes no memory.
///
/// If the text is not a method descriptor, they end where no type of at most 255 dimensions stands:
/// [`method_type`](crate::method_type) tells whether it is one.
pub fn parameter_types(text: Text<'_>) -> Parameters<'_>
    // If the text is a descriptor: all its parameters in their order.
    ensures named { (m : MethodDescriptor) → SpellsMethod text.entry.bytes.now m → AreWithinDimensions m
        → types_left result ≡ m.params }

    // So says the word that computes, with or without a receiver.
    ensures computed { (receiver : Bool) (m : MethodDescriptor) → method_answer receiver text.entry.bytes.now ≡ Ok m
        → types_left result ≡ m.params }
{
    let bytes = text.bytes();
    if !is_first(bytes, b'(') {
        return Parameters { rest: &[] };
    }
    let (_, rest) = bytes.split_at(1);
    Parameters { rest }
}

impl<'a> Iterator for Parameters<'a> {
    ghost use Rattle.std.specs.Prelude.{length};
    ghost use Rattle.std.specs.Iterator.{at_most};
    ghost use Rattle.names.specs.Parameters.{TakesFirst};

    type Item = FieldType<'a>;

    ghost next_gives = { TakesFirst };

    ghost remaining = { λ s. at_most (length s.rest.now) };

    fn next(&mut self) -> Option<FieldType<'a>> {
        let Ok((field, behind)) = read_field(self.rest) else {
            return None;
        };
        let Ok(parameter) = field.limited() else {
            return None;
        };
        self.rest = behind;
        Some(parameter)
    }
}
