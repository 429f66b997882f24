//! The constants of a class, and the types and members that its instructions name by them.
ghost use Rattle.std.specs.Prelude.{◌≡◌, IfOk};
ghost use Rattle.insn.specs.Views.{act_view};
ghost use Rattle.rules.specs.Bodies.{method_view};
ghost use Rattle.rules.specs.Naming.{IsNamed};

use crate::calls::{is_of_class, special_index};
use crate::members::Members;
use crate::naming::Named;
use classfile::{ClassFile, CodeMethod};
use hierarchy::Classes;
use insn::Act;
use pool::ConstantTypes;
use std::alloc::{AllocError, Global};

/// The constants of a class, and the types and members that its instructions name by them. Part of what was looked up
/// is kept.
#[derive(Drop)]
pub struct ClassConstants<'k, 'c, 'a, C: Classes> {
    /// The types that the constants name.
    pub types: ConstantTypes<'c, 'a>,
    /// The members that the constants name.
    pub members: Members<'k, 'c, 'a, C>,
    ghost one: { types ≡ members.class.constant_pool },
}

impl<'k, 'c, 'a, C: Classes> ClassConstants<'k, 'c, 'a, C> {
    ghost use Rattle.pool.specs.ConstantMeanings.{field_at};
    ghost use Rattle.rules.specs.Interfaces.{calls_indirect};
    ghost use Rattle.rules.specs.Naming.{IsNamed, is_own};

    /// The constants of a class among these classes, before any of them is looked up.
    pub fn new(
        alloc: Global,
        class: &'c ClassFile<'a>,
        classes: &'k C,
    ) -> ClassConstants<'k, 'c, 'a, C>
        ensures { result.members ≡ record { class = class.now; classes = C.content classes.now } }
    {
        ClassConstants {
            types: ConstantTypes::new(alloc, &class.constant_pool),
            members: Members::new(alloc, class, classes),
        }
    }

    /// Whether `putfield` with the Fieldref at an index, in this method of the class, sets a field of the class itself
    /// in a constructor. The only refusal: memory ran out.
    pub fn sets_own(&mut self, method: &CodeMethod<'_, 'a>, index: u16) -> Result<bool, AllocError>
        requires { self.old.members.class ≡ method.now.class.now }
        ensures same { self.new.members ≡ self.old.members }
        ensures own { let m = method_view method.now in
            IfOk result (λ b. b ≡ is_own m (field_at m.constant_pool index)) }
    {
        self.members.sets_own(&mut self.types, method, index)
    }

    /// Looks up the constant that an instruction of the class with this act names. The only refusal: memory ran out.
    pub fn named(
        &mut self,
        method: &CodeMethod<'_, 'a>,
        act: &Act<'a>,
    ) -> Result<Named<'a>, AllocError>
        requires { self.old.members.class ≡ method.now.class.now }
        ensures same { self.new.members ≡ self.old.members }
        ensures found { IfOk result (IsNamed (method_view method.now) (act_view act.now)) }
    {
        self.members.named(&mut self.types, method, act)
    }

    /// Whether an instruction of the class with this act calls a method of another interface than the class itself, its
    /// direct superclass and its direct superinterfaces (JVMS 4.9.2, invokespecial), where the class is read as a release
    /// has it. The only refusal: memory ran out.
    pub fn calls_indirect(
        &mut self,
        method: &CodeMethod<'_, 'a>,
        act: &Act<'a>,
    ) -> Result<bool, AllocError>
        requires { self.old.members.class ≡ method.now.class.now }
        ensures same { self.new.members ≡ self.old.members }
        ensures indirect { IfOk result (λ b. b ≡ calls_indirect (method_view method.now) (act_view act.now)) }
    {
        let Some(index) = special_index(act) else {
            return Ok(false);
        };
        if !method.class.release {
            return Ok(false);
        }
        let named = self.named(method, act)?;
        match named.method() {
            Some(called) if called.interface && is_of_class(called) => {
                self.members.is_indirect(method, index)
            }
            _ => Ok(false),
        }
    }
}
