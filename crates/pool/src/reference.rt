//! The members that references of the constant pool lead to.

ghost use Rattle.std.specs.Prelude.{◌≤◌, vec_len};

use names::{FieldType, MethodType, RefType, Text};

/// The texts of a NameAndType (JVMS 4.4.6).
#[derive(Clone, Copy)]
pub struct NameAndType<'a> {
    /// The name of a field or method.
    pub name: Text<'a>,
    /// Its descriptor.
    pub descriptor: Text<'a>,
}

/// The texts of a Fieldref (JVMS 4.4.2).
#[derive(Clone, Copy)]
pub struct FieldRef<'a> {
    /// The name of the class that is asked for the field.
    pub class: Text<'a>,
    /// The field's name.
    pub name: Text<'a>,
    /// The field's descriptor.
    pub descriptor: Text<'a>,
}

/// The texts of a Methodref or an InterfaceMethodref (JVMS 4.4.2).
#[derive(Clone, Copy)]
pub struct MethodRef<'a> {
    /// Whether the constant is an InterfaceMethodref.
    pub interface: bool,
    /// The name of the class or interface that is asked for the method.
    pub class: Text<'a>,
    /// The method's name.
    pub name: Text<'a>,
    /// The method's descriptor.
    pub descriptor: Text<'a>,
}

/// A Fieldref whose texts are of their forms (JVMS 4.4.2).
#[derive(Clone, Copy)]
pub struct FieldConstant<'a> {
    /// The name of the class that is asked for the field, which is not an array.
    pub class: &'a [u8],
    /// The field's name.
    pub name: &'a [u8],
    /// The bytes of its descriptor.
    pub descriptor: &'a [u8],
    /// The type that the descriptor names.
    pub field_type: FieldType<'a>,
}

/// A Methodref or an InterfaceMethodref whose texts are of their forms (JVMS 4.4.2).
#[derive(Drop)]
pub struct MethodConstant<'a> {
    /// Whether the constant is an InterfaceMethodref.
    pub interface: bool,
    /// The class, the interface or the array that is asked for the method.
    pub class: RefType<'a>,
    /// The method's name.
    pub name: &'a [u8],
    /// The bytes of its descriptor.
    pub descriptor: &'a [u8],
    /// The types that the descriptor names. The parameters take at most 255 units, without a receiver.
    pub method_type: MethodType<'a>,
    pub ghost few: { vec_len method_type.params ≤ 255 },
}

/// An InvokeDynamic whose texts are of their forms (JVMS 4.4.10).
#[derive(Drop)]
pub struct CallSite<'a> {
    /// The name that the bootstrap method is asked for.
    pub name: &'a [u8],
    /// The types that the descriptor names. The parameters take at most 255 units; there is no receiver.
    pub method_type: MethodType<'a>,
    pub ghost few: { vec_len method_type.params ≤ 255 },
}
