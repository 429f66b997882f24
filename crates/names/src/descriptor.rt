//! The types that descriptors name.

ghost use Rattle.std.specs.Prelude.{◌≡◌, ◌≤◌, ◌++◌, vec_len, IfOk, OnOk, IsOkUnless};
ghost use Rattle.names.specs.Descriptors.{letter, field_spelling, method_spelling, field_width, method_width};
ghost use Rattle.names.specs.declared.fault.NameFault.TheVariants.{OutOfMemory};

use crate::base::{Base, Primitive};
use crate::fault::NameFault;
use std::alloc::{AllocError, Global};

/// The type of a field, a parameter or a result (JVMS 4.3.2): an array of `dims` dimensions over
/// `base`, or with none `base` itself.
#[derive(Clone, Copy, Debug, PartialEq, Eq)]
pub struct FieldType<'a> {
    /// How many dimensions the array has, 0 where the type is not an array.
    pub dims: u8,
    /// The type below the dimensions.
    pub base: Base<'a>,
}

impl<'a> FieldType<'a> {
    ghost use Rattle.names.specs.Types.{type_of};

    /// How many units a value of the type takes: two for a long and a double, otherwise one (JVMS 2.6.1).
    /// Takes no memory.
    pub fn width(&self) -> u8
        ensures { result ≡ field_width (type_of self.now) }
    {
        match self {
            FieldType {
                dims: 0,
                base: Base::Primitive(Primitive::Long | Primitive::Double),
            } => 2,
            _ => 1,
        }
    }

    /// The descriptor that names the type, as the cases of the grammar put it together (JVMS 4.3.2).
    /// Refuses by 1 alone.
    pub fn text(&self, alloc: Global) -> Result<Vec<u8>, NameFault>
        ensures spelled { IfOk result (λ v. v.items ≡ field_spelling (type_of self.now)) }
        ensures memory { IsOkUnless result OutOfMemory }
    {
        let mut out = Vec::new(alloc);
        self.append(&mut out)?;
        Ok(out)
    }

    fn append(&self, out: &mut Vec<u8>) -> Result<(), AllocError>
        ensures { OnOk result (out.new.items ≡ out.old.items ++ field_spelling (type_of self.now)) }
    {
        for _ in 0..self.dims {
            out.push(b'[')?;
        }
        match self.base {
            Base::Primitive(primitive) => out.push(letter(primitive))?,
            Base::Class(name) => {
                out.push(b'L')?;
                out.extend_from_slice(name)?;
                out.push(b';')?;
            }
        }
        Ok(())
    }
}

/// The letter that stands for the type in descriptors (JVMS Table 4.3-A).
fn letter(primitive: Primitive) -> u8
    ensures { result ≡ letter primitive }
{
    match primitive {
        Primitive::Byte => b'B',
        Primitive::Char => b'C',
        Primitive::Double => b'D',
        Primitive::Float => b'F',
        Primitive::Int => b'I',
        Primitive::Long => b'J',
        Primitive::Short => b'S',
        Primitive::Boolean => b'Z',
    }
}

/// The types of a method's parameters, and of its result, `None` standing for `V` (JVMS 4.3.3).
#[derive(Debug, Drop, PartialEq, Eq)]
pub struct MethodType<'a> {
    /// The parameters in order, without a receiver.
    pub params: Vec<FieldType<'a>>,
    /// The result, unless it is `V`.
    pub result: Option<FieldType<'a>>,
}

impl<'a> MethodType<'a> {
    ghost use Rattle.names.specs.Types.{method_of};

    /// How many units the parameters take, and one more for a receiver (JVMS 4.3.3). Takes no memory.
    pub fn width(&self, receiver: bool) -> u16
        requires { vec_len self.now.params ≤ 255 }
        ensures { result ≡ method_width (method_of self.now) receiver }
    {
        let mut units = u16::from(receiver);
        for param in &self.params {
            units += u16::from(param.width());
        }
        units
    }

    /// The descriptor that names the types, as the cases of the grammar put it together (JVMS 4.3.3).
    /// Refuses by 1 alone.
    pub fn text(&self, alloc: Global) -> Result<Vec<u8>, NameFault>
        ensures spelled { IfOk result (λ v. v.items ≡ method_spelling (method_of self.now)) }
        ensures memory { IsOkUnless result OutOfMemory }
    {
        let mut out = Vec::new(alloc);
        out.push(b'(')?;
        for param in &self.params {
            param.append(&mut out)?;
        }
        out.push(b')')?;
        match &self.result {
            None => out.push(b'V')?,
            Some(result) => result.append(&mut out)?,
        }
        Ok(out)
    }
}
