//! The declarations of the classes above a class, each with whether it guards its member.
ghost use Rattle.std.specs.Borrow.{Bor};
ghost use Rattle.std.specs.Prelude.{◌≡◌, ℕ, List, map, IfOk, OnOk};
ghost use Rattle.hierarchy.specs.private.Above.{classes_above, names_above, names_of, Numbers, number_of};
ghost use Rattle.hierarchy.specs.private.Flags.{AreNumbers, AreFlags, KeepsClass, first_flag, spot_with};
ghost use Rattle.hierarchy.specs.Rules.{IsHierarchy};
ghost use Rattle.hierarchy.specs.Summary.{fact_of, text_among};
ghost use Rattle.hierarchy.specs.private.TextNumbers.{AreFound};

use crate::classes::Classes;
use crate::package::package_of;
use crate::spot::Spot;
use crate::summary::{MemberPlaces, Summary};
use crate::text_numbers::Lookups;
use std::alloc::{AllocError, Global};
use std::collections::BTreeMap;

/// The spot of a member that a class at a place declares, if its texts have numbers.
fn spot_of(
    lookups: &mut Lookups<'_, '_, '_, '_>,
    member: MemberPlaces,
    place: usize,
) -> Option<Spot>
    requires { (numbers : Numbers) × (texts : List (Bor (List ℕ))) × AreFound numbers texts lookups.old }
    ensures { (numbers : Numbers) (texts : List (Bor (List ℕ))) → AreFound numbers texts lookups.old
        → AreFound numbers texts lookups.new × (result ≡ spot_with (number_of numbers (text_among texts member.name))
        (number_of numbers (text_among texts member.descriptor)) member.kind place) }
{
    let name = lookups.get(member.name);
    let descriptor = lookups.get(member.descriptor);
    Some(Spot {
        name: name?,
        descriptor: descriptor?,
        kind: member.kind,
        place,
    })
}

/// Keeps the members of a class at a place that have numbers. From the last to the first, so the first of several
/// stays.
fn keep_class(
    flags: &mut BTreeMap<Spot, bool>,
    lookups: &mut Lookups<'_, '_, '_, '_>,
    class: &Summary<'_>,
    place: usize,
    elsewhere: bool,
) -> Result<(), AllocError>
    requires { (numbers : Numbers) × AreFound numbers class.now.texts.items lookups.old }
    ensures { (numbers : Numbers) → AreNumbers numbers → AreFound numbers class.now.texts.items lookups.old
        → OnOk result (KeepsClass numbers (fact_of class.now) place elsewhere flags.old flags.new) }
{
    let mut left = class.members.len();
    while left > 0 {
        left -= 1;
        let member = &class.members[left];
        if let Some(spot) = spot_of(lookups, member.places, place) {
            flags.insert(spot, member.is_protected && elsewhere)?;
        }
    }
    Ok(())
}

/// The flags of the members that have numbers, as the classes of these names, which stand above a class, declare them:
/// whether protected, and of another package than the class.
pub fn flags_of<C: Classes>(
    alloc: Global,
    classes: &C,
    class: &[u8],
    above: &[&[u8]],
    numbers: &BTreeMap<&[u8], usize>,
) -> Result<BTreeMap<Spot, bool>, AllocError>
    requires good { AreNumbers numbers.now }
    requires formed { IsHierarchy (C.content classes.now) }
    requires names { names_of above.now ≡ names_above (C.content classes.now) class.now }
    ensures { IfOk result (AreFlags numbers.now class.now (classes_above (C.content classes.now) class.now)) }
{
    let mut flags = BTreeMap::new(alloc);
    if numbers.is_empty() {
        return Ok(flags);
    }
    let package = package_of(class);
    for (place, name) in above.iter().enumerate() {
        let Some(other) = classes.find(name) else {
            unreachable!();
        };
        let elsewhere = package_of(name) != package;
        let mut lookups = Lookups::new(alloc, numbers, &other.texts)?;
        keep_class(&mut flags, &mut lookups, other, place, elsewhere)?;
    }
    Ok(flags)
}

/// The first flag of a member from its spot on, below an end; or false.
pub fn first_flag(flags: &BTreeMap<Spot, bool>, start: Option<Spot>, end: usize) -> bool
    ensures { result ≡ first_flag flags.now end start }
{
    let Some(from) = start else {
        return false;
    };
    if from.place >= end {
        return false;
    }
    let to = Spot { place: end, ..from };
    match flags.range(from..to).next() {
        None => false,
        Some((_, flag)) => *flag,
    }
}

/// The first flag from each start on.
pub fn first_flags(
    alloc: Global,
    flags: &BTreeMap<Spot, bool>,
    starts: &[Option<Spot>],
    end: usize,
) -> Result<Vec<bool>, AllocError>
    ensures { IfOk result (λ answers. answers.items ≡ map (first_flag flags.now end) starts.now) }
{
    starts
        .iter()
        .map(|start| first_flag(flags, *start, end))
        .collect(alloc)
}
