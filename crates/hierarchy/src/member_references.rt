//! References to members whose nearest declaration guards them (JVMS 4.6, 4.10.1.8).
ghost use Rattle.std.specs.Prelude.{◌≡◌, map, IfOk};
ghost use Rattle.hierarchy.specs.Nearest.{is_guarded};
ghost use Rattle.hierarchy.specs.Summary.{references_of};

use crate::classes::Classes;
use crate::flags::{first_flags, flags_of};
use crate::starts::starts_of;
use crate::summary::MemberPlaces;
use crate::superclasses::{names_above, places_of};
use std::alloc::{AllocError, Global};
use std::collections::BTreeMap;

/// A reference to a member (JVMS 5.4.3), by the places of its texts.
#[derive(Clone, Copy, Debug, PartialEq, Eq)]
pub struct MemberRef {
    /// The place of the name of the class that is asked for it.
    pub class: usize,
    /// The kind of the member, and the places of its name and descriptor.
    pub places: MemberPlaces,
}

/// References to members, with their texts. A long text stands there once, however many references have it, so that the
/// time is not that of its bytes for each.
#[derive(Debug, Drop)]
pub struct References<'a> {
    /// The names of the classes that are asked. A place past the last one stands for the empty text.
    pub classes: Vec<&'a [u8]>,
    /// The names and descriptors of the members.
    pub texts: Vec<&'a [u8]>,
    pub members: Vec<MemberRef>,
}

/// For each reference whether the class of this name may use the member on objects of its own alone, by a walk along
/// its superclasses.
fn guarded_by_walk<'a, C: Classes>(
    alloc: Global,
    classes: &C,
    class: &[u8],
    references: &References<'a>,
) -> Result<Vec<bool>, AllocError>
    ensures { IfOk result (λ answers. answers.items
        ≡ map (is_guarded (C.content classes.now) class.now) (references_of references.now)) }
{
    let above = names_above(alloc, classes, class)?;
    let places = places_of(alloc, &above)?;
    let mut numbers = BTreeMap::new(alloc);
    let starts = starts_of(alloc, class, &places, references, &mut numbers)?;
    let flags = flags_of(alloc, classes, class, &above, &numbers)?;
    first_flags(alloc, &flags, &starts, above.len())
}

/// For each reference whether the class of this name may use the member on objects of its own alone: a class above it
/// is asked, and the nearest declaration from there upward, static or not, is protected and of a class of another
/// package (JVMS 4.10.1.8).
///
/// The time is that of the texts and members on the chain of superclasses, and of the texts and references, times a
/// logarithm: each text is compared once, however many members have it. Where what the class inherits was found in
/// advance ([`Prepared`](crate::Prepared)), it is that of the references and their texts alone. It fails only if memory
/// runs out.
pub fn guarded<'a, C: Classes>(
    alloc: Global,
    classes: &C,
    class: &[u8],
    references: &References<'a>,
) -> Result<Vec<bool>, AllocError>
    ensures { IfOk result (λ answers. answers.items
        ≡ map (is_guarded (C.content classes.now) class.now) (references_of references.now)) }
{
    match classes.guarded_in_advance(alloc, class, references)? {
        Some(answers) => Ok(answers),
        None => guarded_by_walk(alloc, classes, class, references),
    }
}
