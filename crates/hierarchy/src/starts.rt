//! Where references begin to look for the declarations of their members.
ghost use Rattle.std.specs.Prelude.{◌≡◌, ◌+◌, ℕ, List, length, IfOk, OnOk};
ghost use Rattle.hierarchy.specs.private.Above.{Numbers};
ghost use Rattle.hierarchy.specs.private.Flags.{AreNumbers, KeepNumbers, IsStart, AreStarts, place_above};
ghost use Rattle.hierarchy.specs.private.TextNumbers.{AreGiven, OfEach};
ghost use Rattle.hierarchy.specs.Summary.{asked, references_of};

use crate::member_references::References;
use crate::spot::Spot;
use crate::summary::MemberPlaces;
use crate::text_numbers::Numbering;
use crate::texts::{place_among, text_among};
use std::alloc::{AllocError, Global};
use std::collections::BTreeMap;

/// The place of the class of this name, if it stands above a class.
fn place_above(class: &[u8], places: &BTreeMap<&[u8], usize>, name: &[u8]) -> Option<usize>
    ensures { result ≡ place_above places.now class.now name.now }
{
    if name == class {
        return None;
    }
    places.get(name).copied()
}

/// The place of each class of these names, if it stands above a class; and behind them of the class without a name.
fn places_above(
    alloc: Global,
    class: &[u8],
    places: &BTreeMap<&[u8], usize>,
    names: &[&[u8]],
) -> Result<Vec<Option<usize>>, AllocError>
    ensures long { IfOk result (λ above. length above.items ≡ length names.now + 1) }
    ensures each { IfOk result (λ above. OfEach (λ name o. o ≡ place_above places.now class.now name)
        names.now above.items) }
{
    let mut above = Vec::with_capacity(alloc, names.len() + 1)?;
    for place in 0..names.len() + 1 {
        let name = text_among(names, place);
        above.push(place_above(class, places, name))?;
    }
    Ok(above)
}

/// The spot from which a member is looked for upward, where its class stands above.
fn start_of<'a>(
    place: Option<usize>,
    member: MemberPlaces,
    numbering: &mut Numbering<'_, 'a>,
    numbers: &mut BTreeMap<&'a [u8], usize>,
) -> Result<Option<Spot>, AllocError>
    requires good { AreNumbers numbers.old }
    requires given { AreGiven numbers.old numbering.old }
    ensures start { IfOk result (λ start. (places : Numbers) (class name : List ℕ)
        → place ≡ place_above places class name
        → IsStart places numbers.new class (asked numbering.old.texts.now name member) start) }
    ensures kept { OnOk result (KeepNumbers numbers.old numbers.new) }
    ensures good { OnOk result (AreNumbers numbers.new) }
    ensures given { OnOk result (AreGiven numbers.new numbering.new) }
    ensures same { OnOk result (numbering.new.texts.now ≡ numbering.old.texts.now) }
{
    let Some(place) = place else {
        return Ok(None);
    };
    let name = numbering.number(numbers, member.name)?;
    let descriptor = numbering.number(numbers, member.descriptor)?;
    Ok(Some(Spot {
        name,
        descriptor,
        kind: member.kind,
        place,
    }))
}

/// For each reference of a class the spot from which it looks upward, if it asks a class above. The texts of the
/// members that are so asked for have numbers then.
pub fn starts_of<'a>(
    alloc: Global,
    class: &[u8],
    places: &BTreeMap<&[u8], usize>,
    references: &References<'a>,
    numbers: &mut BTreeMap<&'a [u8], usize>,
) -> Result<Vec<Option<Spot>>, AllocError>
    requires { AreNumbers numbers.old }
    ensures starts { IfOk result (λ s. AreStarts places.now numbers.new class.now
        (references_of references.now) s.items) }
    ensures good { OnOk result (AreNumbers numbers.new) }
{
    let above = places_above(alloc, class, places, &references.classes)?;
    let mut numbering = Numbering::new(alloc, &references.texts)?;
    let mut starts = Vec::with_capacity(alloc, references.members.len())?;
    for reference in &references.members {
        let place = above[place_among(&references.classes, reference.class)];
        let start = start_of(place, reference.places, &mut numbering, numbers)?;
        starts.push(start)?;
    }
    Ok(starts)
}
