//! The acts that instructions may have, and the meanings that opcodes may have before their operands are looked at.

use crate::kinds::Kind;
use crate::operators::NumericOperator;
use crate::stack::StackOperator;
use crate::switch::Targets;
use names::Primitive;

/// The meaning of an instruction, without its form: `iload_0`, `iload 0` and `wide iload 0` are one
/// act. For a number, an act has its kind and not its value. Indices lead into the constant pool;
/// locals are numbers of local variables; offsets count bytes from the instruction's own start.
#[derive(Clone, Copy)]
pub enum Act<'a> {
    /// Nothing is done: `nop`.
    Nothing,
    /// A number of this kind is pushed.
    Constant(Kind),
    /// `aconst_null`
    ConstantNull,
    /// `ldc` and `ldc_w`
    LoadConstant { index: u16 },
    /// `ldc2_w`
    LoadWideConstant { index: u16 },
    /// A number is read from a local variable.
    Load { kind: Kind, local: u16 },
    /// `aload`
    LoadReference { local: u16 },
    /// A number is written to a local variable.
    Store { kind: Kind, local: u16 },
    /// `astore`
    StoreReference { local: u16 },
    /// `iinc`
    Increment { local: u16 },
    /// Numbers are computed.
    Numeric(NumericOperator),
    /// Items of the stack are moved.
    Stack(StackOperator),
    /// An `int` is compared with 0: `ifeq` to `ifle`.
    IfInt { offset: i32 },
    /// Two `int`s are compared: `if_icmpeq` to `if_icmple`.
    IfInts { offset: i32 },
    /// Two references are compared: `if_acmpeq` and `if_acmpne`.
    IfReferences { offset: i32 },
    /// A reference is compared with `null`: `ifnull` and `ifnonnull`.
    IfNull { offset: i32 },
    /// `goto` and `goto_w`
    Goto { offset: i32 },
    /// `tableswitch` and `lookupswitch`
    Switch { default: i32, targets: Targets<'a> },
    /// A number is returned.
    Return(Kind),
    /// `areturn`
    ReturnReference,
    /// `return`
    ReturnVoid,
    /// `getstatic`
    GetStatic { index: u16 },
    /// `putstatic`
    PutStatic { index: u16 },
    /// `getfield`
    GetField { index: u16 },
    /// `putfield`
    PutField { index: u16 },
    /// `invokevirtual`
    InvokeVirtual { index: u16 },
    /// `invokespecial`
    InvokeSpecial { index: u16 },
    /// `invokestatic`
    InvokeStatic { index: u16 },
    /// `invokeinterface`
    InvokeInterface { index: u16, count: u8 },
    /// `invokedynamic`
    InvokeDynamic { index: u16 },
    /// `new`
    New { index: u16 },
    /// `iaload` to `saload`, but for `aaload`: the array's elements are of this type; `baload` has
    /// `Byte`.
    LoadElement(Primitive),
    /// `iastore` to `sastore`, but for `aastore`.
    StoreElement(Primitive),
    /// `aaload`
    LoadReferenceElement,
    /// `aastore`
    StoreReferenceElement,
    /// `arraylength`
    ArrayLength,
    /// `newarray`: none where the byte names no type.
    NewArray(Option<Primitive>),
    /// `anewarray`
    NewReferenceArray { index: u16 },
    /// `multianewarray`
    NewMultiArray { index: u16, dimensions: u8 },
    /// `checkcast`
    CheckCast { index: u16 },
    /// `instanceof`
    InstanceOf { index: u16 },
    /// `athrow`
    Throw,
    /// `monitorenter` and `monitorexit`
    Monitor,
    /// `jsr`, `jsr_w` and `ret`, which are decoded and not verified.
    Unsupported,
}

/// The meaning of an opcode, before its operands are looked at: the [`Act`] of the same name.
#[derive(Clone, Copy, Debug)]
pub enum Meaning {
    Nothing,
    Constant(Kind),
    ConstantNull,
    LoadConstant,
    LoadWideConstant,
    Load(Kind),
    /// The opcode names the local variable: `iload_0` and its like.
    LoadFrom(Kind, u16),
    LoadReference,
    /// `aload_0` to `aload_3`
    LoadReferenceFrom(u16),
    Store(Kind),
    /// The opcode names the local variable: `istore_0` and its like.
    StoreTo(Kind, u16),
    StoreReference,
    /// `astore_0` to `astore_3`
    StoreReferenceTo(u16),
    Increment,
    Numeric(NumericOperator),
    Stack(StackOperator),
    IfInt,
    IfInts,
    IfReferences,
    IfNull,
    Goto,
    Switch,
    Return(Kind),
    ReturnReference,
    ReturnVoid,
    GetStatic,
    PutStatic,
    GetField,
    PutField,
    InvokeVirtual,
    InvokeSpecial,
    InvokeStatic,
    InvokeInterface,
    InvokeDynamic,
    New,
    LoadElement(Primitive),
    StoreElement(Primitive),
    LoadReferenceElement,
    StoreReferenceElement,
    ArrayLength,
    NewArray,
    NewReferenceArray,
    NewMultiArray,
    CheckCast,
    InstanceOf,
    Throw,
    Monitor,
    Unsupported,
}
