//! The final methods that classes have and inherit (JVMS 5.4.5), found for many at once.
ghost use Rattle.std.specs.Borrow.{Bor};
ghost use Rattle.std.specs.Prelude.{◌≡◌, ◌↔◌, ◌<◌, ◌+◌, ℕ, List, [], length, slice_get, None, Some, IfOk, IfSome, OnOk, IsTrue, true, false};
ghost use Rattle.hierarchy.specs.declared.member_numbers.MemberNumbers.{MemberNumbers};
ghost use Rattle.hierarchy.specs.declared.final_methods.FinalNumbers.{FinalNumbers};
ghost use Rattle.hierarchy.specs.declared.summary.Kind.TheVariants.{Method};
ghost use Rattle.hierarchy.specs.private.Above.{class_above, number_of};
ghost use Rattle.hierarchy.specs.private.Ancestry.{IsAncestry, facts_at, place_among};
ghost use Rattle.hierarchy.specs.private.FinalMethods.{AddsFinals, AreFinalMethods, AreFinalNumbers, AreOnes, FinalSoFar, HasAnyFinals, HasFinals, HasNoFinal, HasPackage, HavePackages, IsFinalAbove};
ghost use Rattle.hierarchy.specs.private.Flags.{AreNumbers, KeepNumbers};
ghost use Rattle.hierarchy.specs.private.MemberNumbers.{AreLookups, AreMemberNumbers};
ghost use Rattle.hierarchy.specs.private.NumberedMembers.{is_final};
ghost use Rattle.hierarchy.specs.private.Versions.{AreNamed, AreVersions, IsVersion, Most};
ghost use Rattle.hierarchy.specs.Class.{ClassFact};
ghost use Rattle.hierarchy.specs.Nearest.{is_kind, package_of};
ghost use Rattle.hierarchy.specs.Overrides.{overriding_method};
ghost use Rattle.hierarchy.specs.Rules.{IsHierarchy};
ghost use Rattle.hierarchy.specs.Summary.{fact_of, member_of, text_among};

use crate::ancestry::Ancestry;
use crate::classes::Classes;
use crate::member_numbers::{MemberLookups, MemberNumbers};
use crate::numbered_members::{Numbered, numbers_of};
use crate::overriding_parts::{is_final, may_override, same_overriding};
use crate::package::package_of;
use crate::sketches::{SKETCHES, has_sketch, sketches_with};
use crate::summary::{Kind, MemberSummary, Overriding, Summary};
use crate::text_numbers::number_of;
use crate::texts::text_among;
use crate::versions::{Put, Versions, greater};
use std::alloc::{AllocError, Global};
use std::collections::BTreeMap;

/// The final methods that one class has and inherits.
#[derive(Clone, Copy)]
pub struct Finals {
    // The version that names further ones: at the number of a package that of the methods which no class of it may
    // override, and behind the last package that of those which no class may. These have 1 at the number of each such
    // method.
    scopes: usize,
    // At each number below 256, whether one of these methods has a name with this sketch.
    sketches: [bool; SKETCHES],
}

/// The numbers of the final methods of classes, and of the packages of the classes that have them.
#[derive(Drop)]
pub struct FinalNumbers<'k> {
    members: MemberNumbers<'k>,
    packages: BTreeMap<&'k [u8], usize>,
}

/// The entries of the first classes of an ancestry, and the versions that they name.
#[derive(Drop)]
pub struct FinalTable {
    versions: Versions,
    of: Vec<Finals>,
}

/// The final methods that the classes of an ancestry have and inherit.
///
/// The time and the memory are those of the classes and their members, times a logarithm, however long the chains of
/// superclasses are.
#[derive(Drop)]
pub struct FinalMethods<'k> {
    numbers: FinalNumbers<'k>,
    table: FinalTable,
}

/// The methods that a class may not override.
#[derive(Clone, Copy)]
struct Limits<'f> {
    /// The entry of the class directly above it.
    finals: &'f Finals,
    /// The number of its package, if it has one.
    package: Option<usize>,
}

fn is_method(kind: Kind) -> bool
    ensures { result ≡ is_kind kind Method }
{
    match kind {
        Kind::Field => false,
        Kind::Method => true,
    }
}

/// Whether a class has a final method.
fn has_final(class: &Summary<'_>) -> bool
    ensures { result ≡ false → HasNoFinal (fact_of class.now) }
{
    for member in &class.members {
        if is_final(member.overriding) {
            return true;
        }
    }
    false
}

/// Gives a number to the package of a class that has a final method.
fn number_package<'k>(
    packages: &mut BTreeMap<&'k [u8], usize>,
    class: &Summary<'k>,
) -> Result<(), AllocError>
    requires { AreNumbers packages.old }
    ensures good { OnOk result (AreNumbers packages.new) }
    ensures kept { OnOk result (KeepNumbers packages.old packages.new) }
    ensures here { OnOk result (HasPackage packages.new (fact_of class.now)) }
{
    if has_final(class) {
        number_of(packages, package_of(class.name))?;
    }
    Ok(())
}

/// The numbers of the packages of the classes that have final methods.
fn packages_of<'k>(
    alloc: Global,
    ancestry: &Ancestry<'k>,
) -> Result<BTreeMap<&'k [u8], usize>, AllocError>
    ensures good { IfOk result AreNumbers }
    ensures all { IfOk result (λ packages. HavePackages packages (facts_at ancestry.now.classes.items)) }
{
    let mut packages = BTreeMap::new(alloc);
    for place in 0..ancestry.classes.len() {
        number_package(&mut packages, ancestry.classes[place])?;
    }
    Ok(packages)
}

/// A 1 for the number of each member of a class that takes this part in overriding, with the greatest of these numbers.
fn ones_of(
    alloc: Global,
    lookups: &mut MemberLookups<'_, '_, '_, '_>,
    class: &Summary<'_>,
    part: Overriding,
) -> Result<(Vec<Put>, usize), AllocError>
    requires lookups { (numbers : MemberNumbers) × AreLookups numbers class.now.texts.items lookups.old }
    ensures lookups { (numbers : MemberNumbers) → AreLookups numbers class.now.texts.items lookups.old
        → OnOk result (AreLookups numbers class.now.texts.items lookups.new) }
    ensures ones { (numbers : MemberNumbers) → AreMemberNumbers numbers
        → AreLookups numbers class.now.texts.items lookups.old
        → IfOk result (λ x. AreOnes numbers (fact_of class.now).members part x.0.items) }
    ensures most { IfOk result (λ x. Most x.1 x.0.items) }
{
    let mut puts = Vec::new(alloc);
    let mut most = 0;
    for i in 0..class.members.len() {
        let member = &class.members[i];
        if !same_overriding(member.overriding, part) {
            continue;
        }
        if let Some(index) = lookups.get(member.places) {
            puts.push(Put { index, value: 1 })?;
            most = greater(most, index);
        }
    }
    Ok((puts, most))
}

impl FinalTable {
    /// No class.
    fn new(alloc: Global) -> Result<FinalTable, AllocError>
        ensures begun { IfOk result (λ t. (classes all : List ClassFact) (numbers : FinalNumbers)
            → FinalSoFar classes numbers t.versions all t.of.items) }
        ensures none { IfOk result (λ t. t.of.items ≡ []) }
    {
        Ok(FinalTable {
            versions: Versions::new(alloc)?,
            of: Vec::new(alloc),
        })
    }

    /// The entry of the class directly above the next class of an ancestry.
    fn above<C: Classes>(&self, classes: &C, ancestry: &Ancestry<'_>, class: &Summary<'_>) -> Finals
        requires good { IsAncestry (C.content classes.now) ancestry.now }
        requires next { slice_get (facts_at ancestry.now.classes.items) (length self.now.of.items)
            ≡ Some (fact_of class.now) }
        ensures { (numbers : FinalNumbers)
            → FinalSoFar (C.content classes.now) numbers self.now.versions
            (facts_at ancestry.now.classes.items) self.now.of.items
            → HasAnyFinals (C.content classes.now) numbers self.now.versions
            (class_above (C.content classes.now) (fact_of class.now)) result }
    {
        let nothing = Finals {
            scopes: 0,
            sketches: [false; SKETCHES],
        };
        match ancestry.above(classes, class) {
            None => nothing,
            Some(place) => self.of[place],
        }
    }

    /// The entry of a class, by that of the class directly above it.
    fn entry(
        &mut self,
        above: Finals,
        class: &Summary<'_>,
        numbers: &FinalNumbers<'_>,
    ) -> Result<Finals, AllocError>
        requires good { AreVersions self.old.versions }
        requires there { IsVersion self.old.versions above.scopes }
        requires named { AreNamed self.old.versions above.scopes }
        requires long { length above.sketches ≡ 256 }
        requires members { AreMemberNumbers numbers.now.members }
        requires packages { AreNumbers numbers.now.packages }
        requires packaged { HasPackage numbers.now.packages (fact_of class.now) }
        ensures adds { IfOk result (AddsFinals numbers.now self.old.versions self.new.versions above
            (fact_of class.now)) }
        ensures same { OnOk result (self.new.of ≡ self.old.of) }
    {
        if !has_final(class) {
            return Ok(above);
        }
        let Some(package) = numbers.packages.get(package_of(class.name)) else {
            return Ok(above);
        };
        let alloc = *self.of.allocator();
        let mut lookups = MemberLookups::new(alloc, &numbers.members, &class.texts)?;
        let versions = &mut self.versions;
        let (puts, most) = ones_of(alloc, &mut lookups, class, Overriding::Final)?;
        let scopes = versions.put_nested(above.scopes, numbers.packages.len(), &puts, most)?;
        let (puts, most) = ones_of(alloc, &mut lookups, class, Overriding::FinalInPackage)?;
        let scopes = versions.put_nested(scopes, *package, &puts, most)?;
        let sketches = sketches_with(Numbered::Final, above.sketches, class);
        Ok(Finals { scopes, sketches })
    }

    /// Adds the entry of the next class of an ancestry.
    fn next<C: Classes>(
        &mut self,
        classes: &C,
        ancestry: &Ancestry<'_>,
        numbers: &FinalNumbers<'_>,
    ) -> Result<(), AllocError>
        requires good { IsAncestry (C.content classes.now) ancestry.now }
        requires numbers { AreFinalNumbers (facts_at ancestry.now.classes.items) numbers.now }
        requires left { length self.old.of.items < length ancestry.now.classes.items }
        requires begun { FinalSoFar (C.content classes.now) numbers.now self.old.versions
            (facts_at ancestry.now.classes.items) self.old.of.items }
        ensures begun { OnOk result (FinalSoFar (C.content classes.now) numbers.now self.new.versions
            (facts_at ancestry.now.classes.items) self.new.of.items) }
        ensures more { OnOk result (length self.new.of.items ≡ length self.old.of.items + 1) }
    {
        let class = ancestry.classes[self.of.len()];
        let above = self.above(classes, ancestry, class);
        let entry = self.entry(above, class, numbers)?;
        self.of.push(entry)?;
        Ok(())
    }
}

/// Makes the entries of all classes of an ancestry.
fn finals_of<C: Classes>(
    alloc: Global,
    classes: &C,
    ancestry: &Ancestry<'_>,
    numbers: &FinalNumbers<'_>,
) -> Result<FinalTable, AllocError>
    requires good { IsAncestry (C.content classes.now) ancestry.now }
    requires numbers { AreFinalNumbers (facts_at ancestry.now.classes.items) numbers.now }
    ensures all { IfOk result (λ t. FinalSoFar (C.content classes.now) numbers.now t.versions
        (facts_at ancestry.now.classes.items) t.of.items) }
    ensures as_many { IfOk result (λ t. length t.of.items ≡ length ancestry.now.classes.items) }
{
    let mut table = FinalTable::new(alloc)?;
    while table.of.len() < ancestry.classes.len() {
        table.next(classes, ancestry, numbers)?;
    }
    Ok(table)
}

impl<'k> FinalMethods<'k> {
    /// Finds the final methods that the classes of an ancestry have and inherit. Where no class has one, this takes the
    /// time of a look at each member.
    pub fn new<C: Classes>(
        alloc: Global,
        classes: &C,
        ancestry: &Ancestry<'k>,
    ) -> Result<FinalMethods<'k>, AllocError>
        requires { IsAncestry (C.content classes.now) ancestry.now }
        ensures { IfOk result (AreFinalMethods (C.content classes.now) (facts_at ancestry.now.classes.items)) }
    {
        let packages = packages_of(alloc, ancestry)?;
        if packages.is_empty() {
            let members = MemberNumbers::new(alloc);
            let table = FinalTable::new(alloc)?;
            return Ok(FinalMethods {
                numbers: FinalNumbers { members, packages },
                table,
            });
        }
        let members = numbers_of(alloc, Numbered::Final, ancestry)?;
        let numbers = FinalNumbers { members, packages };
        let table = finals_of(alloc, classes, ancestry, &numbers)?;
        Ok(FinalMethods { numbers, table })
    }

    /// Whether a member of this name may override methods, and would override a final one.
    fn overrides(
        &self,
        limits: &Limits<'_>,
        lookups: &mut MemberLookups<'_, '_, '_, '_>,
        name: &[u8],
        member: &MemberSummary,
    ) -> bool
        requires good { AreVersions self.now.table.versions }
        requires finals { (classes : List ClassFact) × (c : ClassFact)
            × HasFinals classes self.now.numbers self.now.table.versions c limits.now.finals.now }
        requires lookups { (texts : List (Bor (List ℕ))) × AreLookups self.now.numbers.members texts lookups.old }
        ensures lookups { (texts : List (Bor (List ℕ))) → AreLookups self.now.numbers.members texts lookups.old
            → AreLookups self.now.numbers.members texts lookups.new }
        ensures answer { (classes : List ClassFact) (c : ClassFact) (own : List ℕ) (texts : List (Bor (List ℕ)))
            → HasFinals classes self.now.numbers self.now.table.versions c limits.now.finals.now
            → limits.now.package ≡ number_of self.now.numbers.packages own
            → AreLookups self.now.numbers.members texts lookups.old
            → name.now ≡ text_among texts member.now.places.name
            → IsTrue result ↔ IsFinalAbove classes c.name own (member_of texts member.now) }
    {
        let finals = limits.finals;
        if !may_override(member.overriding) {
            return false;
        }
        if !has_sketch(&finals.sketches, name) {
            return false;
        }
        let Some(number) = lookups.get(member.places) else {
            return false;
        };
        let versions = &self.table.versions;
        if versions.get_nested(finals.scopes, self.numbers.packages.len(), number) != 0 {
            return true;
        }
        match limits.package {
            None => false,
            Some(package) => versions.get_nested(finals.scopes, package, number) != 0,
        }
    }

    /// The first method of a class that overrides a final one, by the entry of the class directly above it. Methods
    /// count from 0.
    fn first(
        &self,
        alloc: Global,
        limits: &Limits<'_>,
        class: &Summary<'_>,
    ) -> Result<Option<usize>, AllocError>
        requires good { AreVersions self.now.table.versions }
        requires finals { (classes : List ClassFact) × (c : ClassFact)
            × HasFinals classes self.now.numbers self.now.table.versions c limits.now.finals.now }
        ensures { (classes : List ClassFact) (c : ClassFact) → IsHierarchy classes
            → HasFinals classes self.now.numbers self.now.table.versions c limits.now.finals.now
            → limits.now.package ≡ number_of self.now.numbers.packages (package_of class.now.name.now)
            → (fact_of class.now).superclass ≡ Some c.name
            → IfOk result (λ answer. answer ≡ overriding_method classes (fact_of class.now)) }
    {
        let mut lookups = MemberLookups::new(alloc, &self.numbers.members, &class.texts)?;
        let mut count = 0;
        for i in 0..class.members.len() {
            let member = &class.members[i];
            if !is_method(member.places.kind) {
                continue;
            }
            let name = text_among(&class.texts, member.places.name);
            if self.overrides(limits, &mut lookups, name, member) {
                return Ok(Some(count));
            }
            count += 1;
        }
        Ok(None)
    }

    /// The first method of a class that overrides a final one, where its superclass has a place in the ancestry. Methods
    /// count from 0.
    pub fn overriding<C: Classes>(
        &self,
        alloc: Global,
        classes: &C,
        ancestry: &Ancestry<'k>,
        class: &Summary<'_>,
    ) -> Result<Option<Option<usize>>, AllocError>
        requires good { AreFinalMethods (C.content classes.now) (facts_at ancestry.now.classes.items) self.now }
        requires ancestry { IsAncestry (C.content classes.now) ancestry.now }
        requires formed { 0 < length ancestry.now.classes.items → IsHierarchy (C.content classes.now) }
        ensures answer { IfOk result (λ found. IfSome found
            (λ answer. answer ≡ overriding_method (C.content classes.now) (fact_of class.now))) }
        ensures none { IfOk result (λ found. found ≡ None → (name : List ℕ) → (fact_of class.now).superclass ≡ Some name
            → place_among (C.content classes.now) ancestry.now.places name ≡ None) }
    {
        let Some(superclass) = class.superclass else {
            return Ok(Some(None));
        };
        let Some(place) = ancestry.place(classes, superclass) else {
            return Ok(None);
        };
        if place >= self.table.of.len() {
            return Ok(Some(None));
        }
        let finals = &self.table.of[place];
        let package = self.numbers.packages.get(package_of(class.name)).copied();
        let first = self.first(alloc, &Limits { finals, package }, class)?;
        Ok(Some(first))
    }
}
