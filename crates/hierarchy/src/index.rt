//! A list of classes, each found by its name.
ghost use Rattle.std.specs.List.{IsDistinct, list_any};
ghost use Rattle.std.specs.Prelude.{◌≡◌, ◌↔◌, ℕ, List, true, map, take, drop, length, Some, IsTrue, IfOk, IfErr, option_map, position, slice_get};
ghost use Rattle.std.specs.Option.{option_copied};
ghost use Rattle.std.specs.Str.{bytes_eq};
ghost use Rattle.hierarchy.specs.Class.{ClassFact, class_of, interface_of, superclass_of, IsSubclass};
ghost use Rattle.hierarchy.specs.Summary.{fact_of, facts_of};
ghost use Rattle.hierarchy.specs.Places.{place_in};
ghost use Rattle.hierarchy.specs.Rules.{IsTwice, NoClass, IsFirst};
ghost use Rattle.hierarchy.specs.Faults.{FaultOf};

use crate::fault::HierarchyFault;
use crate::name_key::NameKey;
use crate::places::{lowest, name_at};
use crate::summary::Summary;
use indexmap::IndexSet;
use std::alloc::{AllocError, Global};
use std::hash::BuildHasher;
use std::marker::Model;

// The place of the name of a class in a table.
fn place_in<'a, S: BuildHasher>(
    class: &Summary<'a>,
    names: &IndexSet<NameKey<'a>, S>,
) -> Option<usize>
    ensures { result ≡ position (λ k. bytes_eq class.now.name.now k.bytes.now) names.now.keys }
{
    names.get_index_of(&NameKey { bytes: class.name })
}

// The places in a table of the names of all classes from a place on.
fn repeats<'a, S: BuildHasher>(
    alloc: Global,
    classes: &[Summary<'a>],
    names: &IndexSet<NameKey<'a>, S>,
    from: usize,
) -> Result<Vec<Option<usize>>, AllocError>
    ensures { IfOk result (λ places. places.items
        ≡ map (λ c. position (λ k. bytes_eq c.name.now k.bytes.now) names.now.keys) (drop from classes.now)) }
{
    classes
        .iter()
        .skip(from)
        .map(|class| place_in(class, names))
        .collect(alloc)
}

// The name of the first class whose name stands twice, where a table has the names up to a place, and the class there
// has one of them.
fn first_twice<'a, S: BuildHasher>(
    alloc: Global,
    classes: &[Summary<'a>],
    names: &IndexSet<NameKey<'a>, S>,
    place: usize,
) -> Result<&'a [u8], AllocError>
    requires named { map (λ k. k.bytes.now) names.now.keys ≡ take place (map (λ c. c.name) (facts_of classes.now)) }
    requires distinct { IsDistinct (λ a b. bytes_eq a.bytes.now b.bytes.now) names.now.keys }
    requires repeated { (c : ClassFact) × (slice_get (facts_of classes.now) place ≡ Some c)
        × (list_any (λ k. bytes_eq c.name k.bytes.now) names.now.keys ≡ true) }
    ensures { IfOk result (λ name. IsFirst (IsTwice (facts_of classes.now)) (facts_of classes.now) name.now) }
{
    let places = repeats(alloc, classes, names, place)?;
    match lowest(&places) {
        Some(i) => Ok(name_at(classes, i)),
        None => unreachable!(),
    }
}

/// Classes of different names, each found by its name. Of each class it keeps the place of its name in memory and its
/// number in a hash table.
#[derive(Drop)]
pub struct Index<'s, 'a, S: BuildHasher> {
    classes: &'s [Summary<'a>],
    names: IndexSet<NameKey<'a>, S>,
}

impl<'s, 'a, S: BuildHasher> Model for Index<'s, 'a, S> {
    ghost use Rattle.std.specs.Prelude.{◌≡◌, List, map};
    ghost use Rattle.hierarchy.specs.Class.{ClassFact};
    ghost use Rattle.hierarchy.specs.Summary.{facts_of};

    ghost Value = { List ClassFact };

    ghost view = { λ t. facts_of t.classes.now };

    ghost invariant = { λ t. map (λ k. k.bytes.now) t.names.keys ≡ map (λ c. c.name) (facts_of t.classes.now) };
}

impl<'s, 'a, S: BuildHasher> Index<'s, 'a, S> {
    /// The classes of a list, unless a name stands twice.
    pub fn new(
        alloc: Global,
        classes: &'s [Summary<'a>],
        hasher: S,
    ) -> Result<Self, HierarchyFault<'a>>
    where
        S: Drop,
        ensures ok { IfOk result (λ t. (t ≡ facts_of classes.now)
            × NoClass (IsTwice (facts_of classes.now)) (facts_of classes.now)) }
        ensures err { IfErr result (FaultOf (facts_of classes.now)) }
    {
        let mut names = IndexSet::with_capacity_and_hasher(alloc, classes.len(), hasher)?;
        for (i, class) in classes.iter().enumerate() {
            let (_, added) = names.insert_full(NameKey { bytes: class.name })?;
            if !added {
                let name = first_twice(alloc, classes, &names, i)?;
                return Err(HierarchyFault::ClassTwice { name });
            }
        }
        Ok(Index { classes, names })
    }

    /// The place of the class of this name.
    pub fn place(&self, name: &[u8]) -> Option<usize>
        ensures { result ≡ position (λ c. bytes_eq name.now c.name) self.now }
    {
        self.names.get_index_of(&NameKey { bytes: name })
    }

    /// The class of this name.
    pub fn find(&self, name: &[u8]) -> Option<&'s Summary<'a>>
        ensures { option_map fact_of (option_copied result) ≡ class_of self.now name.now }
    {
        match self.place(name) {
            None => None,
            Some(i) => Some(&self.classes[i]),
        }
    }

    /// Whether the class of this name is an interface, where there is one.
    pub fn is_interface(&self, name: &[u8]) -> Option<bool>
        ensures { result ≡ interface_of self.now name.now }
    {
        match self.find(name) {
            None => None,
            Some(class) => Some(class.interface),
        }
    }

    /// Whether the class at a place is an interface; false where no class has the place.
    pub fn is_interface_at(&self, place: usize) -> bool
        ensures { (name : List ℕ) → place_in self.now name ≡ Some place → interface_of self.now name ≡ Some result }
    {
        place < self.classes.len() && self.classes[place].interface
    }

    /// The name of the class at a place.
    pub fn name_at(&self, place: usize) -> Option<&'a [u8]>
        ensures { (name : List ℕ) → place_in self.now name ≡ Some place
            → option_map (λ n. n.now) result ≡ Some name }
    {
        if place < self.classes.len() {
            Some(self.classes[place].name)
        } else {
            None
        }
    }

    /// How many classes there are.
    pub fn len(&self) -> usize
        ensures { result ≡ length self.now }
    {
        self.classes.len()
    }

    /// The superclass of the class of this name.
    pub fn superclass(&self, name: &[u8]) -> Option<&'a [u8]>
        ensures { option_map (λ n. n.now) result ≡ superclass_of self.now name.now }
    {
        match self.find(name) {
            None => None,
            Some(class) => class.superclass,
        }
    }

    /// Whether a chain of superclasses leads from one name to another. A longer chain than there are classes comes
    /// round again.
    pub fn reaches(&self, from: &[u8], to: &[u8]) -> bool
        ensures { IsTrue result ↔ IsSubclass self.now from.now to.now }
    {
        let mut at = from;
        for _step in 0..self.len() {
            if at == to {
                return true;
            }
            match self.superclass(at) {
                None => return false,
                Some(name) => at = name,
            }
        }
        at == to
    }
}
