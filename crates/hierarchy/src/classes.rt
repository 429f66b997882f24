//! The questions that are asked of a set of classes, however it is kept.
ghost use Rattle.std.specs.Prelude.{◌≡◌, ℕ, List, Some, map, option_map, IfOk, IfSome};
ghost use Rattle.std.specs.Option.{option_copied};
ghost use Rattle.hierarchy.specs.Class.{ClassFact, class_of, interface_of};
ghost use Rattle.hierarchy.specs.Nearest.{is_guarded};
ghost use Rattle.hierarchy.specs.Overrides.{overriding_method};
ghost use Rattle.hierarchy.specs.Places.{place_in};
ghost use Rattle.hierarchy.specs.Summary.{fact_of, references_of};
ghost use Rattle.hierarchy.specs.Rules.{IsHierarchy};
ghost use Rattle.hierarchy.specs.Answer.{SubclassAnswer, outcome_of, yes_if};

use crate::answer::Answer;
use crate::member_references::References;
use crate::summary::Summary;
use std::alloc::{AllocError, Global};

/// A set of classes without faults. Its content is a list of summaries, one for each name. No question but the last two
/// takes memory.
pub trait Classes {
    /// The summaries.
    ghost content: { Self → List ClassFact };

    /// The summary of the class of this name.
    fn find(&self, name: &[u8]) -> Option<&Summary<'_>>
        ensures found { option_map fact_of (option_copied result) ≡ class_of (content self.now) name.now }
        ensures formed { IsHierarchy (content self.now) };

    /// The place in the list, from 0, of the class of this name. Two names with one place are equal.
    fn place(&self, name: &[u8]) -> Option<u16>
        ensures { result ≡ place_in (content self.now) name.now };

    /// Whether the class of this name is an interface, where there is one.
    fn is_interface(&self, name: &[u8]) -> Option<bool>
        ensures { result ≡ interface_of (content self.now) name.now };

    /// Whether `a` is `b` or stands below it: `Yes` where they are equal, `Missing(a)` where `a` is absent, and
    /// otherwise whether `b` is on the chain of superclasses of `a` (JVMS 4.10.1.2).
    fn is_subclass<'n>(&self, a: &'n [u8], b: &'n [u8]) -> Answer<'n>
        ensures { SubclassAnswer (content self.now) a.now b.now (outcome_of result) };

    /// Whether the class at a place is an interface. No clause says what is returned for a place of no class.
    fn is_interface_at(&self, place: u16) -> bool
        ensures { (name : List ℕ) → place_in (content self.now) name ≡ Some place
            → interface_of (content self.now) name ≡ Some result };

    /// Whether the class at the place `a` is that at the place `b` or stands below it: the answer of
    /// [`Classes::is_subclass`] for their names. No clause says what is returned for a place of no class.
    fn is_below(&self, a: u16, b: u16) -> bool
        ensures { (x y : List ℕ) → place_in (content self.now) x ≡ Some a → place_in (content self.now) y ≡ Some b
            → SubclassAnswer (content self.now) x y (yes_if result) };

    /// The answers of [`guarded`](crate::guarded), where what the class of this name inherits was found in advance
    /// ([`Prepared`](crate::Prepared)).
    fn guarded_in_advance(
        &self,
        alloc: Global,
        class: &[u8],
        references: &References<'_>,
    ) -> Result<Option<Vec<bool>>, AllocError>
        ensures { IfOk result (λ found. IfSome found
            (λ answers. answers.items ≡ map (is_guarded (content self.now) class.now) (references_of references.now))) };

    /// The answer of [`overriding_method`](crate::overriding_method), where what the superclass of the class has and
    /// inherits was found in advance ([`Prepared`](crate::Prepared)).
    fn overriding_in_advance(
        &self,
        alloc: Global,
        class: &Summary<'_>,
    ) -> Result<Option<Option<usize>>, AllocError>
        ensures { IfOk result (λ found. IfSome found
            (λ answer. answer ≡ overriding_method (content self.now) (fact_of class.now))) };
}
