//! The numbers of the types that the rules of the instructions of all methods of a class ask for.
ghost use Rattle.std.specs.Prelude.{option_map, IfOk};
ghost use Rattle.frames.specs.VerificationType.{type_of};
ghost use Rattle.type_numbers.specs.Numbers.{Extends, IsNumberOf};
ghost use Rattle.verify.specs.private.pass.ClassTypes.{AreClassNumbers};

use frames::VType;
use hierarchy::Classes;
use names::{Base, OBJECT, THROWABLE};
use std::alloc::AllocError;
use type_numbers::TypeNumbers;

/// The numbers of the types that the rules of the instructions of all methods of a class ask for.
#[derive(Clone, Copy)]
pub struct ClassNumbers {
    /// The class `Object`.
    pub object: u32,
    /// The type of arrays of the class `Object`.
    pub objects: u32,
    /// The class `Throwable`.
    pub throwable: u32,
    /// The class itself.
    pub class: u32,
    /// Its direct superclass; none of the class `Object`.
    pub superclass: Option<u32>,
}

/// The number of a type, if there is one. The only refusal is 1, where memory runs out.
fn number_of<'a, C: Classes>(
    vtype: Option<VType<'a>>,
    types: &mut TypeNumbers<'_, 'a, C>,
) -> Result<Option<u32>, AllocError>
    ensures kept { Extends types.old types.new }
    ensures given { IfOk result (λ n. IsNumberOf types.new n (option_map type_of vtype.entry)) }
{
    let Some(vtype) = vtype else {
        return Ok(None);
    };
    let number = types.number(&vtype)?;
    Ok(Some(number))
}

impl ClassNumbers {
    /// The numbers for a class of a name, with a direct superclass of a name, if it has one. The only refusal is 1,
    /// where memory runs out.
    pub fn new<'a, C: Classes>(
        class: &'a [u8],
        superclass: Option<&'a [u8]>,
        types: &mut TypeNumbers<'_, 'a, C>,
    ) -> Result<ClassNumbers, AllocError>
        ensures kept { Extends types.old types.new }
        ensures given { IfOk result
            (AreClassNumbers types.new class.now (option_map (λ name. name.now) superclass.entry)) }
    {
        let object = types.number(&VType::Class(OBJECT))?;
        let objects = types.number(&VType::Array {
            dims: 1,
            base: Base::Class(OBJECT),
        })?;
        let throwable = types.number(&VType::Class(THROWABLE))?;
        let own = types.number(&VType::Class(class))?;
        let superclass = number_of(superclass.map(VType::Class), types)?;
        Ok(ClassNumbers {
            object,
            objects,
            throwable,
            class: own,
            superclass,
        })
    }
}
