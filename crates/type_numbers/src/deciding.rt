//! Comparisons of types by the parts of their numbers.
ghost use Rattle.std.specs.Prelude.{◌≡◌};
ghost use Rattle.type_numbers.specs.private.Deciding.{decided, is_reference};

use crate::parts::Parts;
use crate::tags;

/// Whether a tag is that of classes or of arrays.
fn is_reference(tag: u8) -> bool
    ensures { result ≡ is_reference tag }
{
    tag == tags::CLASS || tag > tags::UNINIT
}

/// Whether a value of the type of one number may stand where one of the type of another, which differs, is wanted; none
/// where that is a question about classes.
pub fn decided(from: Parts, to: Parts) -> Option<bool>
    ensures { result ≡ decided from.tag from.dims to.tag to.dims }
{
    if to.tag == tags::TOP {
        return Some(true);
    }
    if !is_reference(to.tag) {
        return Some(false);
    }
    if from.tag == tags::NULL {
        return Some(true);
    }
    if !is_reference(from.tag) || from.dims < to.dims {
        return Some(false);
    }
    if to.tag == tags::PRIMITIVE_ARRAY
        || (from.dims == to.dims && from.tag == tags::PRIMITIVE_ARRAY)
    {
        return Some(false);
    }
    None
}
