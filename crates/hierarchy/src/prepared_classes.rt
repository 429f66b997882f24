//! Classes with what some of them inherit, found in advance.
use crate::answer::Answer;
use crate::classes::Classes;
use crate::inheritance::Inheritance;
use crate::member_references::References;
use crate::summary::Summary;
use std::alloc::{AllocError, Global};
use std::marker::Model;

/// Classes that answer as others do, with what some of them inherit found in advance: [`guarded`](crate::guarded) takes
/// no walk along a chain of superclasses for these, and [`overriding_method`](crate::overriding_method) none for the
/// classes directly below them. Both find classes by [`Classes::place`].
#[derive(Drop)]
pub struct Prepared<'k, C: Classes> {
    classes: &'k C,
    inheritance: Inheritance<'k>,
}

impl<'k, C: Classes> Model for Prepared<'k, C> {
    ghost use Rattle.std.specs.Prelude.{List};
    ghost use Rattle.hierarchy.specs.Class.{ClassFact};
    ghost use Rattle.hierarchy.specs.private.Inheritance.{IsInheritance};

    ghost Value = { List ClassFact };

    ghost view = { λ p. C.content p.classes.now };

    ghost invariant = { λ p. IsInheritance (C.content p.classes.now) p.inheritance };
}

impl<'k, C: Classes> Prepared<'k, C> {
    ghost use Rattle.std.specs.Prelude.{◌≡◌, IfOk};

    /// Finds what the classes of these names inherit. A name that no class has is passed over.
    ///
    /// The time and the memory are those of these classes, of all that stand above them, and of their members, times a
    /// logarithm, however long the chains of superclasses are. It fails only if memory runs out.
    pub fn new(
        alloc: Global,
        classes: &'k C,
        names: &[&[u8]],
    ) -> Result<Prepared<'k, C>, AllocError>
        ensures { IfOk result (λ p. p ≡ C.content classes.now) }
    {
        let inheritance = Inheritance::new(alloc, classes, names)?;
        Ok(Prepared {
            classes,
            inheritance,
        })
    }
}

impl<'k, C: Classes> Classes for Prepared<'k, C> {
    ghost content = { λ p. p };

    fn find(&self, name: &[u8]) -> Option<&Summary<'_>> {
        self.classes.find(name)
    }

    fn place(&self, name: &[u8]) -> Option<u16> {
        self.classes.place(name)
    }

    fn is_interface(&self, name: &[u8]) -> Option<bool> {
        self.classes.is_interface(name)
    }

    fn is_subclass<'n>(&self, a: &'n [u8], b: &'n [u8]) -> Answer<'n> {
        self.classes.is_subclass(a, b)
    }

    fn is_interface_at(&self, place: u16) -> bool {
        self.classes.is_interface_at(place)
    }

    fn is_below(&self, a: u16, b: u16) -> bool {
        self.classes.is_below(a, b)
    }

    fn guarded_in_advance(
        &self,
        alloc: Global,
        class: &[u8],
        references: &References<'_>,
    ) -> Result<Option<Vec<bool>>, AllocError> {
        let classes = self.classes;
        match self.inheritance.place(classes, class) {
            None => Ok(None),
            Some(place) => {
                let answers = self.inheritance.guarded(alloc, classes, place, references)?;
                Ok(Some(answers))
            }
        }
    }

    fn overriding_in_advance(
        &self,
        alloc: Global,
        class: &Summary<'_>,
    ) -> Result<Option<Option<usize>>, AllocError> {
        self.inheritance.overriding(alloc, self.classes, class)
    }
}
