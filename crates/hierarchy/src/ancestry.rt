//! Classes with all that stand above them, each after its superclass.
ghost use Rattle.std.specs.Prelude.{◌≡◌, ◌<◌, ℕ, List, [], Some, length, slice_get, IfOk, OnOk};
ghost use Rattle.hierarchy.specs.private.Ancestry.{Adds, EndsBelow, Has, HavePlace, IsAncestry, IsOwn, KeepClasses, StandsAbove, facts_at, place_among};
ghost use Rattle.hierarchy.specs.private.Above.{class_above, names_of};
ghost use Rattle.hierarchy.specs.Class.{ClassFact};
ghost use Rattle.hierarchy.specs.Rules.{IsHierarchy};
ghost use Rattle.hierarchy.specs.Summary.{fact_of};

use crate::classes::Classes;
use crate::summary::Summary;
use crate::superclasses::class_above;
use std::alloc::{AllocError, Global};
use std::collections::BTreeMap;

/// Some of all classes, each after its superclass.
#[derive(Drop)]
pub struct Ancestry<'k> {
    pub classes: Vec<&'k Summary<'k>>,
    /// The place of each, by its place in the list of all classes.
    pub places: BTreeMap<u16, usize>,
}

impl<'k> Ancestry<'k> {
    /// No class.
    fn new(alloc: Global) -> Ancestry<'k>
        ensures good { (classes : List ClassFact) → IsAncestry classes result }
        ensures none { result.classes.items ≡ [] }
    {
        Ancestry {
            classes: Vec::new(alloc),
            places: BTreeMap::new(alloc),
        }
    }

    /// The place of the class of this name. Where the class stands in the list of all is found by its name, and where
    /// it stands here by that number alone.
    pub fn place<C: Classes>(&self, classes: &C, name: &[u8]) -> Option<usize>
        ensures { result ≡ place_among (C.content classes.now) self.now.places name.now }
    {
        match classes.place(name) {
            None => None,
            Some(number) => self.places.get(&number).copied(),
        }
    }

    /// The place of the class directly above a class that has a place.
    pub fn above<C: Classes>(&self, classes: &C, class: &Summary<'_>) -> Option<usize>
        requires { IsAncestry (C.content classes.now) self.now }
        ensures { (n : ℕ) → slice_get (facts_at self.now.classes.items) n ≡ Some (fact_of class.now)
            → StandsAbove self.now n (class_above (C.content classes.now) (fact_of class.now)) result }
    {
        match class_above(classes, class) {
            None => None,
            Some(above) => self.place(classes, above.name),
        }
    }

    /// The classes from one upward, up to the first that has a place.
    fn way<C: Classes>(
        &self,
        alloc: Global,
        classes: &'k C,
        start: &'k Summary<'k>,
    ) -> Result<Vec<&'k Summary<'k>>, AllocError>
        requires formed { IsHierarchy (C.content classes.now) }
        requires own { IsOwn (C.content classes.now) (fact_of start.now) }
        requires good { IsAncestry (C.content classes.now) self.now }
        ensures { IfOk result (λ way. EndsBelow (C.content classes.now) self.now (fact_of start.now)
            (facts_at way.items)) }
    {
        let mut way = Vec::new(alloc);
        let mut at = Some(start);
        while let Some(class) = at {
            if self.place(classes, class.name).is_some() {
                break;
            }
            way.push(class)?;
            at = class_above(classes, class);
        }
        Ok(way)
    }

    /// Puts a class after all others, where it has no place.
    fn push<C: Classes>(&mut self, classes: &C, class: &'k Summary<'k>) -> Result<(), AllocError>
        requires own { IsOwn (C.content classes.now) (fact_of class.now) }
        ensures { OnOk result (Adds (C.content classes.now) self.old self.new (fact_of class.now)) }
    {
        let Some(number) = classes.place(class.name) else {
            unreachable!();
        };
        if self.places.contains_key(&number) {
            return Ok(());
        }
        let place = self.classes.len();
        self.classes.push(class)?;
        self.places.insert(number, place)?;
        Ok(())
    }

    /// Adds a class with all that stand above it.
    fn add<C: Classes>(
        &mut self,
        alloc: Global,
        classes: &'k C,
        class: &'k Summary<'k>,
    ) -> Result<(), AllocError>
        requires formed { IsHierarchy (C.content classes.now) }
        requires own { IsOwn (C.content classes.now) (fact_of class.now) }
        requires good { IsAncestry (C.content classes.now) self.old }
        ensures good { OnOk result (IsAncestry (C.content classes.now) self.new) }
        ensures kept { OnOk result (KeepClasses self.old self.new) }
        ensures here { OnOk result (Has self.new (fact_of class.now)) }
    {
        let mut way = self.way(alloc, classes, class)?;
        while let Some(class) = way.pop() {
            self.push(classes, class)?;
        }
        Ok(())
    }
}

/// The classes of these names, with all that stand above them.
pub fn ancestry_of<'k, C: Classes>(
    alloc: Global,
    classes: &'k C,
    names: &[&[u8]],
) -> Result<Ancestry<'k>, AllocError>
    ensures good { IfOk result (IsAncestry (C.content classes.now)) }
    ensures placed { IfOk result (λ a. HavePlace (C.content classes.now) a (names_of names.now)) }
    ensures formed { IfOk result (λ a. 0 < length a.classes.items → IsHierarchy (C.content classes.now)) }
{
    let mut ancestry = Ancestry::new(alloc);
    for name in names {
        if let Some(class) = classes.find(name) {
            ancestry.add(alloc, classes, class)?;
        }
    }
    Ok(ancestry)
}
