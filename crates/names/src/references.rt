//! The types of references, and the texts of Class constants.
ghost use Rattle.std.specs.Prelude.{◌≡◌, Ok, Some, option_map};
ghost use Rattle.names.specs.Reading.{field_answer};
ghost use Rattle.names.specs.ReferenceTypes.{array_of, dimensions_of, reference_type};
ghost use Rattle.names.specs.References.{reference_view, referred_by};
ghost use Rattle.names.specs.Types.{type_of};

use crate::base::Base;
use crate::descriptor::FieldType;
use crate::reading::field_type;
use crate::text::Text;

/// The type of a reference to an object (JVMS 2.4).
#[derive(Clone, Copy, Debug, PartialEq, Eq)]
pub enum RefType<'a> {
    /// The class or interface of this internal name.
    Class(&'a [u8]),
    /// An array of 1 to 255 dimensions over a type. One of 0 stands for one of 1.
    Array { dims: u8, base: Base<'a> },
}

/// An array of at least one dimension.
fn array_of(t: FieldType<'_>) -> Option<RefType<'_>>
    ensures { option_map reference_view result ≡ array_of (Ok (type_of t.entry)) }
{
    match t.dims {
        0 => None,
        dims => Some(RefType::Array { dims, base: t.base }),
    }
}

/// The type that the text of a Class constant names (JVMS 4.4.1): an array's by its descriptor, any other by the name
/// of a class. None where a text that begins like an array's is not a descriptor of one. Takes no memory.
pub fn reference_type(text: Text<'_>) -> Option<RefType<'_>>
    ensures { option_map reference_view result ≡ reference_type text.entry.bytes.now }
{
    let bytes = text.bytes();
    match bytes.first() {
        Some(b'[') => match field_type(text) {
            Ok(t) => array_of(t),
            Err(_) => None,
        },
        _ => Some(RefType::Class(bytes)),
    }
}

impl<'a> FieldType<'a> {
    /// The type of the references that a field of this type holds; none where it holds numbers. Takes no memory.
    pub fn reference(&self) -> Option<RefType<'a>>
        ensures { option_map reference_view result ≡ referred_by (type_of self.now) }
    {
        match self.dims {
            0 => match self.base {
                Base::Primitive(_) => None,
                Base::Class(name) => Some(RefType::Class(name)),
            },
            dims => Some(RefType::Array {
                dims,
                base: self.base,
            }),
        }
    }
}

impl RefType<'_> {
    /// How many dimensions the array has, 0 where the type is not an array. Takes no memory.
    #[tactic(auto, using(crate::proofs::Written::dimensions_of_dimensioned))]
    pub fn dimensions(&self) -> u8
        ensures { result ≡ dimensions_of (reference_view self.now) }
    {
        match *self {
            RefType::Class(_) => 0,
            RefType::Array { dims: 0, .. } => 1,
            RefType::Array { dims, .. } => dims,
        }
    }
}
