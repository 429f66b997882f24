//! The fields and bootstrap methods of a class that its instructions name, and which members of other classes are
//! guarded.
ghost use Rattle.std.specs.Prelude.{◌≡◌};

use crate::direct_classes::{DirectClasses, interface_name};
use crate::guards::{Guards, names_own};
use crate::naming::{Named, is_bootstrapped, is_own, named_by};
use classfile::{Bootstraps, ClassFile, CodeMethod, OwnFields};
use hierarchy::Classes;
use insn::Act;
use pool::ConstantTypes;
use std::alloc::{AllocError, Global};
use std::marker::Model;

/// The members that the instructions of a class name, among classes. Which of them are guarded is found for all at
/// once, at the first question about a constant that does not name the class itself.
#[derive(Drop)]
pub struct Members<'k, 'c, 'a, C: Classes> {
    alloc: Global,
    class: &'c ClassFile<'a>,
    classes: &'k C,
    fields: OwnFields<'c, 'a>,
    bootstraps: Bootstraps<'c, 'a>,
    guards: Option<Guards>,
    direct: Option<DirectClasses<'a>>,
}

impl<'k, 'c, 'a, C: Classes> Model for Members<'k, 'c, 'a, C> {
    ghost use Rattle.std.specs.Prelude.{◌≡◌, IfSome};
    ghost use Rattle.rules.specs.Guards.{AreDirect, AreGuards, Surroundings};

    ghost Value = { Surroundings };

    ghost view = { λ m. record { class = m.class.now; classes = C.content m.classes.now } };

    ghost invariant = { λ m. (m.fields ≡ m.class.now) × (m.bootstraps ≡ m.class.now)
        × IfSome m.guards (AreGuards (C.content m.classes.now) m.class.now)
        × IfSome m.direct (AreDirect m.class.now) };
}

impl<'k, 'c, 'a, C: Classes> Members<'k, 'c, 'a, C> {
    ghost use Rattle.std.specs.Prelude.{◌≡◌, ℕ, List, Some, true, IfOk};
    ghost use Rattle.names.specs.ReferenceTypes.{is_class_type};
    ghost use Rattle.hierarchy.specs.Answer.{SubclassAnswer, yes_if};
    ghost use Rattle.hierarchy.specs.Nearest.{MemberReference, is_guarded};
    ghost use Rattle.hierarchy.specs.Places.{place_in};
    ghost use Rattle.insn.specs.Views.{act_view};
    ghost use Rattle.rules.specs.Bodies.{method_view};
    ghost use Rattle.pool.specs.ConstantMeanings.{constant_at, field_at, MethodConstant, method_at};
    ghost use Rattle.rules.specs.Constants.{is_bootstrapped};
    ghost use Rattle.rules.specs.Guards.{AreDirect, IsReference, own_name};
    ghost use Rattle.rules.specs.Interfaces.{is_indirect};
    ghost use Rattle.rules.specs.Naming.{IsNamed, is_own};

    /// The members of a class among classes, none of which was asked for yet.
    pub fn new(alloc: Global, class: &'c ClassFile<'a>, classes: &'k C) -> Members<'k, 'c, 'a, C>
        ensures { result ≡ record { class = class.now; classes = C.content classes.now } }
    {
        Members {
            alloc,
            class,
            classes,
            fields: OwnFields::new(alloc, class),
            bootstraps: Bootstraps::new(alloc, class),
            guards: None,
            direct: None,
        }
    }

    /// Looks up the constant that an instruction with this act names, by the constants, the fields and the bootstrap
    /// methods of the class. The only refusal: memory ran out.
    pub fn named(
        &mut self,
        constants: &mut ConstantTypes<'_, 'a>,
        method: &CodeMethod<'_, 'a>,
        act: &Act<'a>,
    ) -> Result<Named<'a>, AllocError>
        requires constants { constants.old ≡ method.now.class.now.constant_pool }
        requires class { self.old.class ≡ method.now.class.now }
        ensures same { self.new ≡ self.old }
        ensures same_constants { constants.new ≡ constants.old }
        ensures found { IfOk result (IsNamed (method_view method.now) (act_view act.now)) }
    {
        named_by(
            constants,
            &mut self.fields,
            &mut self.bootstraps,
            method,
            act,
        )
    }

    /// Whether `putfield` with the Fieldref at an index, in this method of the class, sets a field of the class itself
    /// in a constructor. The only refusal: memory ran out.
    pub fn sets_own(
        &mut self,
        constants: &mut ConstantTypes<'_, 'a>,
        method: &CodeMethod<'_, 'a>,
        index: u16,
    ) -> Result<bool, AllocError>
        requires constants { constants.old ≡ method.now.class.now.constant_pool }
        requires class { self.old.class ≡ method.now.class.now }
        ensures same { self.new ≡ self.old }
        ensures same_constants { constants.new ≡ constants.old }
        ensures own { let m = method_view method.now in
            IfOk result (λ b. b ≡ is_own m (field_at m.constant_pool index)) }
    {
        if !method.is_init {
            return Ok(false);
        }
        let field = constants.field_constant(index)?;
        is_own(&mut self.fields, method, index, field)
    }

    /// Whether the class has a bootstrap method for the constant at an index that this method of it may use; true for a
    /// constant that is neither a Dynamic nor an InvokeDynamic. The only refusal: memory ran out.
    pub fn is_bootstrapped(
        &mut self,
        method: &CodeMethod<'_, 'a>,
        index: u16,
    ) -> Result<bool, AllocError>
        requires { self.old.class ≡ method.now.class.now }
        ensures same { self.new ≡ self.old }
        ensures found { let m = method_view method.now in
            IfOk result (λ b. b ≡ is_bootstrapped m (constant_at m.constant_pool index)) }
    {
        is_bootstrapped(&mut self.bootstraps, method, index)
    }

    /// Whether the class at a place among the classes is that at another place or stands below it, as
    /// [`Classes::is_below`] says it. Nothing is said of a place of no class.
    #[inline(always)]
    pub fn is_below(&self, class: u16, other: u16) -> bool
        ensures { (x y : List ℕ) → place_in self.now.classes x ≡ Some class
            → place_in self.now.classes y ≡ Some other → SubclassAnswer self.now.classes x y (yes_if result) }
    {
        self.classes.is_below(class, other)
    }

    /// Whether the constant at an index names a guarded member, if it is a field or a method of a class: a member that
    /// the class may use only on objects of its own (JVMS 4.10.1.8). The only refusal: memory ran out.
    pub fn is_guarded(&mut self, index: u16) -> Result<bool, AllocError>
        ensures same { self.new ≡ self.old }
        ensures found { IfOk result (λ b. (r : MemberReference) → IsReference self.old.class.constant_pool index r
            → b ≡ is_guarded self.old.classes (own_name self.old.class) r) }
    {
        if names_own(self.class, index) {
            return Ok(false);
        }
        if let Some(guards) = &self.guards {
            return Ok(guards.get(index));
        }
        let guards = Guards::new(self.alloc, self.class, self.classes)?;
        let answer = guards.get(index);
        self.guards = Some(guards);
        Ok(answer)
    }

    /// The class itself, its direct superclass and its direct superinterfaces, which are taken out.
    fn take_direct(&mut self) -> Result<DirectClasses<'a>, AllocError>
        ensures same { self.new ≡ self.old }
        ensures direct { IfOk result (AreDirect self.old.class) }
    {
        match self.direct.take() {
            Some(direct) => Ok(direct),
            None => DirectClasses::new(self.alloc, self.class),
        }
    }

    /// Whether the constant at an index is an InterfaceMethodref of another interface than the class itself, its direct
    /// superclass and its direct superinterfaces (JVMS 4.9.2), if it is a method of a class. The only refusal: memory
    /// ran out.
    pub fn is_indirect(
        &mut self,
        method: &CodeMethod<'_, 'a>,
        index: u16,
    ) -> Result<bool, AllocError>
        requires { self.old.class ≡ method.now.class.now }
        ensures same { self.new ≡ self.old }
        ensures found { let m = method_view method.now in IfOk result (λ b. (c : MethodConstant)
            → method_at m.constant_pool index ≡ Some c → is_class_type c.class ≡ true
            → b ≡ is_indirect m (Some c)) }
    {
        let pool = &self.class.constant_pool;
        let Some(name) = interface_name(pool, index) else {
            return Ok(false);
        };
        let mut direct = self.take_direct()?;
        let answer = direct.has(pool, name);
        self.direct = Some(direct);
        Ok(!answer)
    }
}
