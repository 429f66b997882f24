//! The constants of a class as its instructions name them.
ghost use Rattle.std.specs.Prelude.{◌≡◌, ◌+◌, ◌≤◌, length, IfOk, OnOk};
ghost use Rattle.type_numbers.specs.Constants.{IsTable, arguments_of, constant_in, constants_of, descriptors_of};
ghost use Rattle.type_numbers.specs.MethodNumbers.{AreDescriptors, AreTypesOf, GoesOn, arguments_in, method_in};
ghost use Rattle.type_numbers.specs.Numbers.{Extends};

use crate::method_numbers::{DescriptorNumbers, MethodNumbers};
use crate::named_constant::NamedConstant;
use crate::texts::Texts;
use crate::type_numbers::TypeNumbers;
use hierarchy::Classes;
use pool::Pool;
use std::alloc::{AllocError, Global};

/// The constants of a class as its instructions name them, made once before the class's methods.
#[derive(Drop)]
pub struct ConstantTable {
    /// By the indices of the constants; at 0, which no constant has, stands [`NamedConstant::Other`].
    constants: Vec<NamedConstant>,
    /// The descriptors of methods that were read, with the types of their parameters.
    descriptors: DescriptorNumbers,
}

impl ConstantTable {
    /// The table of the constants of a pool, whose types get numbers. Each text is read once, however many constants
    /// lead to it. The only refusal is 1, where memory runs out.
    pub fn new<'a, C: Classes>(
        alloc: Global,
        pool: &Pool<'a>,
        numbers: &mut TypeNumbers<'_, 'a, C>,
    ) -> Result<ConstantTable, AllocError>
        ensures kept { Extends numbers.old numbers.new }
        ensures described { IfOk result (IsTable numbers.new pool.now) }
        ensures descriptors { IfOk result (λ t. AreDescriptors numbers.new pool.now (descriptors_of t)) }
    {
        let mut texts = Texts::new(alloc, pool, numbers)?;
        let entries = pool.constants();
        let mut constants = Vec::with_capacity(alloc, entries.len() + 1)?;
        constants.push(NamedConstant::Other)?;
        for constant in entries {
            texts.push(pool, *constant, numbers, &mut constants)?;
        }
        Ok(ConstantTable {
            constants,
            descriptors: texts.into_descriptors(),
        })
    }

    /// The numbers of the types that the text at an index of the table's pool names as the descriptor of a method; none
    /// where no text is there, or it is no such descriptor. A text to which a constant leads is not read again. The
    /// only refusal is 1, where memory runs out.
    pub fn method_types<'a, C: Classes>(
        &mut self,
        pool: &Pool<'a>,
        index: u16,
        numbers: &mut TypeNumbers<'_, 'a, C>,
    ) -> Result<Option<MethodNumbers>, AllocError>
        requires described { IsTable numbers.old pool.now self.old }
        requires descriptors { AreDescriptors numbers.old pool.now (descriptors_of self.old) }
        ensures kept { Extends numbers.old numbers.new }
        ensures described { OnOk result (IsTable numbers.new pool.now self.new) }
        ensures descriptors { OnOk result (AreDescriptors numbers.new pool.now (descriptors_of self.new)) }
        ensures grown { OnOk result (GoesOn (arguments_of self.old) (arguments_of self.new)) }
        ensures types { IfOk result (λ x. AreTypesOf numbers.new (arguments_of self.new) x (method_in pool.now index)) }
    {
        self.descriptors.types(pool, index, numbers)
    }

    /// The constant at an index as instructions name it.
    pub fn get(&self, index: u16) -> NamedConstant
        ensures { result ≡ constant_in (constants_of self.now) index }
    {
        let index = usize::from(index);
        if index < self.constants.len() {
            self.constants[index]
        } else {
            NamedConstant::Other
        }
    }

    /// The numbers of the types of a method's parameters.
    pub fn arguments(&self, types: MethodNumbers) -> &[u32]
        requires { types.start + types.count ≤ length (arguments_of self.now) }
        ensures { result.now ≡ arguments_in (arguments_of self.now) types }
    {
        self.descriptors.arguments(types)
    }
}
