//! The inheritance of classes, found for many at once.
ghost use Rattle.std.specs.Prelude.{◌≡◌, ◌<◌, ◌↔◌, ◌+◌, ℕ, List, [], length, map, slice_get, Some, IfOk, IfSome, OnOk, IsTrue};
ghost use Rattle.std.specs.Borrow.{Bor};
ghost use Rattle.hierarchy.specs.private.Above.{class_above, names_of};
ghost use Rattle.hierarchy.specs.private.Ancestry.{HavePlace, IsAncestry, facts_at, place_among};
ghost use Rattle.hierarchy.specs.Class.{ClassFact, IsSubclass};
ghost use Rattle.hierarchy.specs.private.Inheritance.{AreValues, LooksAt, has_length, InheritSoFar, InheritsAny, IsInheritance, IsProtectedAt};
ghost use Rattle.hierarchy.specs.private.MemberNumbers.{AreLookups, AreMemberNumbers};
ghost use Rattle.hierarchy.specs.Nearest.{is_guarded};
ghost use Rattle.hierarchy.specs.Overrides.{overriding_method};
ghost use Rattle.hierarchy.specs.declared.inheritance.Inherited.{Inherited as InheritedFact};
ghost use Rattle.hierarchy.specs.declared.numbered_members.Numbered.TheVariants.{Protected};
ghost use Rattle.hierarchy.specs.declared.member_numbers.MemberNumbers.{MemberNumbers};
ghost use Rattle.hierarchy.specs.Rules.{IsHierarchy};
ghost use Rattle.hierarchy.specs.private.Sketches.{HaveSketches};
ghost use Rattle.hierarchy.specs.Summary.{asked, fact_of, references_of, text_among};
ghost use Rattle.hierarchy.specs.private.TextNumbers.{OfEach};
ghost use Rattle.hierarchy.specs.private.Versions.{Most};

use crate::ancestry::{Ancestry, ancestry_of};
use crate::classes::Classes;
use crate::final_methods::FinalMethods;
use crate::member_numbers::{MemberLookups, MemberNumbers};
use crate::member_references::References;
use crate::numbered_members::{Numbered, numbers_of};
use crate::package::package_of;
use crate::sketches::{SKETCHES, has_sketch, sketches_with};
use crate::summary::{MemberPlaces, Summary};
use crate::text_numbers::number_of;
use crate::texts::{place_among, text_among};
use crate::versions::{Put, Versions, greater};
use std::alloc::{AllocError, Global};
use std::collections::BTreeMap;

/// Lengths of names are told apart modulo this.
const LENGTHS: usize = 64;

/// The versions and the number that tell of one class.
#[derive(Clone, Copy)]
pub struct Inherited {
    // The version that has 1 at the place of each class that is this one or stands above it.
    ancestors: usize,
    // The version that has at the number of a member the place, from 1, of the class with the nearest declaration,
    // where that is protected.
    members: usize,
    // The number of its package.
    package_number: usize,
    // At each number below 64, whether a class that is this one or stands above it has a name of so many bytes, modulo
    // 64.
    lengths: [bool; LENGTHS],
    // At each number below 256, whether a protected member of this class or of one above it has a name with this
    // sketch.
    sketches: [bool; SKETCHES],
}

/// The inheritance of classes: which classes stand above each, the nearest declarations of protected members, and the
/// final methods.
///
/// The time and the memory are those of the classes and their members, times a logarithm, however long the chains of
/// superclasses are.
#[derive(Drop)]
pub struct Inheritance<'k> {
    ancestry: Ancestry<'k>,
    numbers: MemberNumbers<'k>,
    table: InheritanceTable<'k>,
    finals: FinalMethods<'k>,
}

/// The entries of the first classes of an ancestry, and the versions that they name.
#[derive(Drop)]
pub struct InheritanceTable<'k> {
    versions: Versions,
    packages: BTreeMap<&'k [u8], usize>,
    of: Vec<Inherited>,
}

/// The values of the members of a class that have numbers, with the greatest of these. From the last member to the first,
/// so that the first of several counts. The sketches are those of the names of protected members of the class and of
/// all above it: a member whose name has none of them is passed over, since its value above is 0 and stays 0.
fn values_of(
    alloc: Global,
    lookups: &mut MemberLookups<'_, '_, '_, '_>,
    class: &Summary<'_>,
    sketches: &[bool; SKETCHES],
    own: usize,
) -> Result<(Vec<Put>, usize), AllocError>
    requires lookups { (numbers : MemberNumbers) × AreLookups numbers class.now.texts.items lookups.old }
    requires noted { HaveSketches Protected sketches.now (fact_of class.now).members }
    requires wide { length sketches.now ≡ 256 }
    ensures values { (numbers : MemberNumbers) → AreMemberNumbers numbers
        → AreLookups numbers class.now.texts.items lookups.old
        → IfOk result (λ x. AreValues numbers sketches.now (fact_of class.now).members own x.0.items) }
    ensures most { IfOk result (λ x. Most x.1 x.0.items) }
{
    let mut puts = Vec::new(alloc);
    let mut most = 0;
    let mut left = class.members.len();
    while left > 0 {
        left -= 1;
        let member = &class.members[left];
        let name = text_among(&class.texts, member.places.name);
        if !has_sketch(sketches, name) {
            continue;
        }
        if let Some(index) = lookups.get(member.places) {
            let value = if member.is_protected { own } else { 0 };
            puts.push(Put { index, value })?;
            most = greater(most, index);
        }
    }
    Ok((puts, most))
}

impl<'k> InheritanceTable<'k> {
    /// No class.
    fn new(alloc: Global) -> Result<InheritanceTable<'k>, AllocError>
        ensures begun { IfOk result (λ i. (classes all : List ClassFact) (numbers : MemberNumbers)
            → InheritSoFar classes all numbers i.versions i.packages i.of.items) }
        ensures none { IfOk result (λ i. i.of.items ≡ []) }
    {
        Ok(InheritanceTable {
            versions: Versions::new(alloc)?,
            packages: BTreeMap::new(alloc),
            of: Vec::new(alloc),
        })
    }

    /// Returns the entry of the class directly above the next class of an ancestry.
    fn above<C: Classes>(
        &self,
        classes: &C,
        ancestry: &Ancestry<'k>,
        class: &Summary<'k>,
    ) -> Inherited
        requires good { IsAncestry (C.content classes.now) ancestry.now }
        requires next { slice_get (facts_at ancestry.now.classes.items) (length self.now.of.items)
            ≡ Some (fact_of class.now) }
        ensures { (numbers : MemberNumbers)
            → InheritSoFar (C.content classes.now)
            (facts_at ancestry.now.classes.items) numbers self.now.versions self.now.packages self.now.of.items
            → InheritsAny (C.content classes.now)
            (facts_at ancestry.now.classes.items) numbers self.now.versions self.now.packages
            (class_above (C.content classes.now) (fact_of class.now)) result }
    {
        let nothing = Inherited {
            ancestors: 0,
            members: 0,
            package_number: 0,
            lengths: [false; LENGTHS],
            sketches: [false; SKETCHES],
        };
        match ancestry.above(classes, class) {
            None => nothing,
            Some(place) => self.of[place],
        }
    }

    /// Adds the entry of the next class of an ancestry.
    fn next<C: Classes>(
        &mut self,
        classes: &C,
        ancestry: &Ancestry<'k>,
        numbers: &MemberNumbers<'k>,
    ) -> Result<(), AllocError>
        requires formed { IsHierarchy (C.content classes.now) }
        requires good { IsAncestry (C.content classes.now) ancestry.now }
        requires numbers { AreMemberNumbers numbers.now }
        requires left { length self.old.of.items < length ancestry.now.classes.items }
        requires begun { InheritSoFar (C.content classes.now)
            (facts_at ancestry.now.classes.items) numbers.now self.old.versions self.old.packages self.old.of.items }
        ensures begun { OnOk result (InheritSoFar (C.content classes.now)
            (facts_at ancestry.now.classes.items) numbers.now self.new.versions self.new.packages self.new.of.items) }
        ensures more { OnOk result (length self.new.of.items ≡ length self.old.of.items + 1) }
    {
        let place = self.of.len();
        let class = ancestry.classes[place];
        let above = self.above(classes, ancestry, class);
        let ancestors = self.versions.put(above.ancestors, place, 1)?;
        let alloc = *self.of.allocator();
        let sketches = sketches_with(Numbered::Protected, above.sketches, class);
        let mut lookups = MemberLookups::new(alloc, numbers, &class.texts)?;
        let (puts, most) = values_of(alloc, &mut lookups, class, &sketches, place + 1)?;
        let members = self.versions.put_all(above.members, &puts, most)?;
        let package_number = number_of(&mut self.packages, package_of(class.name))?;
        let mut lengths = above.lengths;
        lengths[class.name.len() % LENGTHS] = true;
        self.of.push(Inherited {
            ancestors,
            members,
            package_number,
            lengths,
            sketches,
        })?;
        Ok(())
    }
}

/// Makes the entries of all classes of an ancestry.
fn inherited_by<'k, C: Classes>(
    alloc: Global,
    classes: &C,
    ancestry: &Ancestry<'k>,
    numbers: &MemberNumbers<'k>,
) -> Result<InheritanceTable<'k>, AllocError>
    requires formed { 0 < length ancestry.now.classes.items → IsHierarchy (C.content classes.now) }
    requires good { IsAncestry (C.content classes.now) ancestry.now }
    requires numbers { AreMemberNumbers numbers.now }
    ensures all { IfOk result (λ i. InheritSoFar (C.content classes.now)
        (facts_at ancestry.now.classes.items) numbers.now i.versions i.packages i.of.items) }
    ensures as_many { IfOk result (λ i. length i.of.items ≡ length ancestry.now.classes.items) }
{
    let mut table = InheritanceTable::new(alloc)?;
    while table.of.len() < ancestry.classes.len() {
        table.next(classes, ancestry, numbers)?;
    }
    Ok(table)
}

impl<'k> Inheritance<'k> {
    /// Finds the inheritance of the classes of these names and of all that stand above them. The only refusal is want
    /// of memory.
    pub fn new<C: Classes>(
        alloc: Global,
        classes: &'k C,
        names: &[&[u8]],
    ) -> Result<Inheritance<'k>, AllocError>
        ensures good { IfOk result (IsInheritance (C.content classes.now)) }
        ensures placed { IfOk result (λ i. HavePlace (C.content classes.now) i.ancestry (names_of names.now)) }
    {
        let ancestry = ancestry_of(alloc, classes, names)?;
        let numbers = numbers_of(alloc, Numbered::Protected, &ancestry)?;
        let table = inherited_by(alloc, classes, &ancestry, &numbers)?;
        let finals = FinalMethods::new(alloc, classes, &ancestry)?;
        Ok(Inheritance {
            ancestry,
            numbers,
            table,
            finals,
        })
    }

    /// The place of the class of this name in the ancestry.
    pub fn place<C: Classes>(&self, classes: &C, name: &[u8]) -> Option<usize>
        ensures { result ≡ place_among (C.content classes.now) self.now.ancestry.places name.now }
    {
        self.ancestry.place(classes, name)
    }

    /// Whether the class at a place is another one or stands below it.
    fn is_below(&self, class: usize, other: usize) -> bool
        requires good { (classes : List ClassFact) × IsInheritance classes self.now }
        requires there { class < length self.now.table.of.items }
        ensures { (classes : List ClassFact) (c d : ClassFact) → IsInheritance classes self.now
            → slice_get (facts_at self.now.ancestry.classes.items) class ≡ Some c
            → slice_get (facts_at self.now.ancestry.classes.items) other ≡ Some d
            → IsTrue result ↔ IsSubclass classes c.name d.name }
    {
        self.table
            .versions
            .get(self.table.of[class].ancestors, other)
            != 0
    }

    /// The place of the class with the nearest declaration from the class at a place upward, where that is protected.
    /// Most names have no sketch there, so that their members need no look-up.
    fn protected_in(
        &self,
        class: usize,
        lookups: &mut MemberLookups<'_, '_, '_, '_>,
        name: &[u8],
        member: MemberPlaces,
    ) -> Option<usize>
        requires good { (classes : List ClassFact) × IsInheritance classes self.now }
        requires there { class < length self.now.table.of.items }
        requires lookups { (texts : List (Bor (List ℕ))) × AreLookups self.now.numbers texts lookups.old }
        ensures lookups { (texts : List (Bor (List ℕ))) → AreLookups self.now.numbers texts lookups.old
            → AreLookups self.now.numbers texts lookups.new }
        ensures place { (classes : List ClassFact) (c : ClassFact) (texts : List (Bor (List ℕ))) (class_name : List ℕ)
            → IsInheritance classes self.now
            → slice_get (facts_at self.now.ancestry.classes.items) class ≡ Some c
            → AreLookups self.now.numbers texts lookups.old → name.now ≡ text_among texts member.name
            → IsProtectedAt classes (facts_at self.now.ancestry.classes.items) (asked texts class_name member) c.name result }
    {
        let inherited = &self.table.of[class];
        if !has_sketch(&inherited.sketches, name) {
            return None;
        }
        let number = lookups.get(member)?;
        let place = self.table.versions.get(inherited.members, number);
        if place == 0 { None } else { Some(place - 1) }
    }

    /// Whether the class at a place, or one above it, may have this name: told by the length of the name alone, so that
    /// most names need no look-up.
    fn may_be_above(&self, class: usize, name: &[u8]) -> bool
        requires there { class < length self.now.table.of.items }
        ensures { (i : InheritedFact) → slice_get self.now.table.of.items class ≡ Some i
            → result ≡ has_length i.lengths name.now }
    {
        self.table.of[class].lengths[name.len() % LENGTHS]
    }

    /// Where the class at a place looks for the members of the class of this name: at the place of that class, if it
    /// stands above.
    fn start<C: Classes>(&self, classes: &C, class: usize, name: &[u8]) -> Option<usize>
        requires good { IsInheritance (C.content classes.now) self.now }
        requires there { class < length self.now.table.of.items }
        ensures { (c : ClassFact) → slice_get (facts_at self.now.ancestry.classes.items) class ≡ Some c
            → LooksAt (C.content classes.now) self.now class c name.now result }
    {
        if !self.may_be_above(class, name) {
            return None;
        }
        let start = self.place(classes, name)?;
        if start == class || !self.is_below(class, start) {
            return None;
        }
        Some(start)
    }

    /// Where the class at a place looks for the members of the classes of these names, and behind them for those of the
    /// class without a name.
    fn starts<C: Classes>(
        &self,
        alloc: Global,
        classes: &C,
        class: usize,
        names: &[&[u8]],
    ) -> Result<Vec<Option<usize>>, AllocError>
        requires good { IsInheritance (C.content classes.now) self.now }
        requires there { class < length self.now.table.of.items }
        ensures long { IfOk result (λ starts. length starts.items ≡ length names.now + 1) }
        ensures each { IfOk result (λ starts. (c : ClassFact)
            → slice_get (facts_at self.now.ancestry.classes.items) class ≡ Some c
            → OfEach (LooksAt (C.content classes.now) self.now class c) names.now starts.items) }
    {
        let mut starts = Vec::with_capacity(alloc, names.len() + 1)?;
        for place in 0..names.len() + 1 {
            let name = text_among(names, place);
            starts.push(self.start(classes, class, name))?;
        }
        Ok(starts)
    }

    /// Whether the class at a place may use a member on objects of its own alone, where it looks for it from a place
    /// upward.
    fn is_guarded(
        &self,
        class: usize,
        start: Option<usize>,
        lookups: &mut MemberLookups<'_, '_, '_, '_>,
        name: &[u8],
        member: MemberPlaces,
    ) -> bool
        requires good { (classes : List ClassFact) × IsInheritance classes self.now }
        requires there { class < length self.now.table.of.items }
        requires start { IfSome start (λ s. s < length self.now.table.of.items) }
        requires lookups { (texts : List (Bor (List ℕ))) × AreLookups self.now.numbers texts lookups.old
            × (name.now ≡ text_among texts member.name) }
        ensures lookups { (texts : List (Bor (List ℕ))) → AreLookups self.now.numbers texts lookups.old
            → AreLookups self.now.numbers texts lookups.new }
        ensures guarded { (classes : List ClassFact) (c : ClassFact) (texts : List (Bor (List ℕ))) (class_name : List ℕ)
            → IsInheritance classes self.now
            → slice_get (facts_at self.now.ancestry.classes.items) class ≡ Some c
            → AreLookups self.now.numbers texts lookups.old → name.now ≡ text_among texts member.name
            → LooksAt classes self.now class c class_name start
            → result ≡ is_guarded classes c.name (asked texts class_name member) }
    {
        let Some(start) = start else {
            return false;
        };
        match self.protected_in(start, lookups, name, member) {
            None => false,
            Some(place) => self.table.of[place].package_number
                != self.table.of[class].package_number,
        }
    }

    /// For each reference whether the class at a place may use the member on objects of its own alone.
    pub fn guarded<C: Classes>(
        &self,
        alloc: Global,
        classes: &C,
        class: usize,
        references: &References<'_>,
    ) -> Result<Vec<bool>, AllocError>
        requires good { IsInheritance (C.content classes.now) self.now }
        requires there { class < length self.now.table.of.items }
        ensures { IfOk result (λ answers. (c : ClassFact)
            → slice_get (facts_at self.now.ancestry.classes.items) class ≡ Some c
            → answers.items ≡ map (is_guarded (C.content classes.now) c.name) (references_of references.now)) }
    {
        let starts = self.starts(alloc, classes, class, &references.classes)?;
        let mut lookups = MemberLookups::new(alloc, &self.numbers, &references.texts)?;
        let mut answers = Vec::with_capacity(alloc, references.members.len())?;
        for reference in &references.members {
            let start = starts[place_among(&references.classes, reference.class)];
            let name = text_among(&references.texts, reference.places.name);
            let answer = self.is_guarded(class, start, &mut lookups, name, reference.places);
            answers.push(answer)?;
        }
        Ok(answers)
    }

    /// The first method of a class that overrides a final one, where its superclass has a place in the ancestry. Methods
    /// count from 0.
    pub fn overriding<C: Classes>(
        &self,
        alloc: Global,
        classes: &C,
        class: &Summary<'_>,
    ) -> Result<Option<Option<usize>>, AllocError>
        requires good { IsInheritance (C.content classes.now) self.now }
        ensures answer { IfOk result (λ found. IfSome found
            (λ answer. answer ≡ overriding_method (C.content classes.now) (fact_of class.now))) }
        ensures none { IfOk result (λ found. found ≡ None → (name : List ℕ) → (fact_of class.now).superclass ≡ Some name
            → place_among (C.content classes.now) self.now.ancestry.places name ≡ None) }
    {
        self.finals
            .overriding(alloc, classes, &self.ancestry, class)
    }
}
