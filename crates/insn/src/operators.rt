//! The instructions that compute numbers from numbers, and the arrays that element instructions take.
ghost use Rattle.std.specs.Prelude.{◌≡◌};
ghost use Rattle.insn.specs.Operators.{takes_array};

use names::Primitive;

/// The instructions that compute numbers from numbers (JVMS 2.11.3, 2.11.4), by their mnemonics.
#[derive(Clone, Copy, Debug, PartialEq, Eq)]
pub enum NumericOperator {
    /// `iadd`
    Iadd,
    /// `ladd`
    Ladd,
    /// `fadd`
    Fadd,
    /// `dadd`
    Dadd,
    /// `isub`
    Isub,
    /// `lsub`
    Lsub,
    /// `fsub`
    Fsub,
    /// `dsub`
    Dsub,
    /// `imul`
    Imul,
    /// `lmul`
    Lmul,
    /// `fmul`
    Fmul,
    /// `dmul`
    Dmul,
    /// `idiv`
    Idiv,
    /// `ldiv`
    Ldiv,
    /// `fdiv`
    Fdiv,
    /// `ddiv`
    Ddiv,
    /// `irem`
    Irem,
    /// `lrem`
    Lrem,
    /// `frem`
    Frem,
    /// `drem`
    Drem,
    /// `ineg`
    Ineg,
    /// `lneg`
    Lneg,
    /// `fneg`
    Fneg,
    /// `dneg`
    Dneg,
    /// `ishl`
    Ishl,
    /// `lshl`
    Lshl,
    /// `ishr`
    Ishr,
    /// `lshr`
    Lshr,
    /// `iushr`
    Iushr,
    /// `lushr`
    Lushr,
    /// `iand`
    Iand,
    /// `land`
    Land,
    /// `ior`
    Ior,
    /// `lor`
    Lor,
    /// `ixor`
    Ixor,
    /// `lxor`
    Lxor,
    /// `i2l`
    I2l,
    /// `i2f`
    I2f,
    /// `i2d`
    I2d,
    /// `l2i`
    L2i,
    /// `l2f`
    L2f,
    /// `l2d`
    L2d,
    /// `f2i`
    F2i,
    /// `f2l`
    F2l,
    /// `f2d`
    F2d,
    /// `d2i`
    D2i,
    /// `d2l`
    D2l,
    /// `d2f`
    D2f,
    /// `i2b`
    I2b,
    /// `i2c`
    I2c,
    /// `i2s`
    I2s,
    /// `lcmp`
    Lcmp,
    /// `fcmpl`
    Fcmpl,
    /// `fcmpg`
    Fcmpg,
    /// `dcmpl`
    Dcmpl,
    /// `dcmpg`
    Dcmpg,
}

/// Whether an element instruction for the first type takes arrays of the second (JVMS 6.5): those
/// for bytes take arrays of booleans too.
pub fn takes_array(instruction: Primitive, element: Primitive) -> bool
    ensures { result ≡ takes_array instruction element }
{
    match instruction {
        Primitive::Byte => matches!(element, Primitive::Byte | Primitive::Boolean),
        Primitive::Char => matches!(element, Primitive::Char),
        Primitive::Short => matches!(element, Primitive::Short),
        Primitive::Int => matches!(element, Primitive::Int),
        Primitive::Long => matches!(element, Primitive::Long),
        Primitive::Float => matches!(element, Primitive::Float),
        Primitive::Double => matches!(element, Primitive::Double),
        Primitive::Boolean => false,
    }
}
