//! Opcodes and their numbers (JVMS 6.5, 7).
ghost use Rattle.std.specs.Prelude.{◌≡◌};
ghost use Rattle.insn.specs.Opcodes.{number};

use std::fmt;

/// The opcodes by the standard's mnemonics (JVMS 6.5, 7). Numbers from 202 on have no meaning in a
/// class file.
#[derive(Clone, Copy, PartialEq, Eq)]
pub enum Opcode {
    /// `nop`
    Nop = 0,
    /// `aconst_null`
    AconstNull = 1,
    /// `iconst_m1`
    IconstM1 = 2,
    /// `iconst_0`
    Iconst0 = 3,
    /// `iconst_1`
    Iconst1 = 4,
    /// `iconst_2`
    Iconst2 = 5,
    /// `iconst_3`
    Iconst3 = 6,
    /// `iconst_4`
    Iconst4 = 7,
    /// `iconst_5`
    Iconst5 = 8,
    /// `lconst_0`
    Lconst0 = 9,
    /// `lconst_1`
    Lconst1 = 10,
    /// `fconst_0`
    Fconst0 = 11,
    /// `fconst_1`
    Fconst1 = 12,
    /// `fconst_2`
    Fconst2 = 13,
    /// `dconst_0`
    Dconst0 = 14,
    /// `dconst_1`
    Dconst1 = 15,
    /// `bipush`
    Bipush = 16,
    /// `sipush`
    Sipush = 17,
    /// `ldc`
    Ldc = 18,
    /// `ldc_w`
    LdcW = 19,
    /// `ldc2_w`
    Ldc2W = 20,
    /// `iload`
    Iload = 21,
    /// `lload`
    Lload = 22,
    /// `fload`
    Fload = 23,
    /// `dload`
    Dload = 24,
    /// `aload`
    Aload = 25,
    /// `iload_0`
    Iload0 = 26,
    /// `iload_1`
    Iload1 = 27,
    /// `iload_2`
    Iload2 = 28,
    /// `iload_3`
    Iload3 = 29,
    /// `lload_0`
    Lload0 = 30,
    /// `lload_1`
    Lload1 = 31,
    /// `lload_2`
    Lload2 = 32,
    /// `lload_3`
    Lload3 = 33,
    /// `fload_0`
    Fload0 = 34,
    /// `fload_1`
    Fload1 = 35,
    /// `fload_2`
    Fload2 = 36,
    /// `fload_3`
    Fload3 = 37,
    /// `dload_0`
    Dload0 = 38,
    /// `dload_1`
    Dload1 = 39,
    /// `dload_2`
    Dload2 = 40,
    /// `dload_3`
    Dload3 = 41,
    /// `aload_0`
    Aload0 = 42,
    /// `aload_1`
    Aload1 = 43,
    /// `aload_2`
    Aload2 = 44,
    /// `aload_3`
    Aload3 = 45,
    /// `iaload`
    Iaload = 46,
    /// `laload`
    Laload = 47,
    /// `faload`
    Faload = 48,
    /// `daload`
    Daload = 49,
    /// `aaload`
    Aaload = 50,
    /// `baload`
    Baload = 51,
    /// `caload`
    Caload = 52,
    /// `saload`
    Saload = 53,
    /// `istore`
    Istore = 54,
    /// `lstore`
    Lstore = 55,
    /// `fstore`
    Fstore = 56,
    /// `dstore`
    Dstore = 57,
    /// `astore`
    Astore = 58,
    /// `istore_0`
    Istore0 = 59,
    /// `istore_1`
    Istore1 = 60,
    /// `istore_2`
    Istore2 = 61,
    /// `istore_3`
    Istore3 = 62,
    /// `lstore_0`
    Lstore0 = 63,
    /// `lstore_1`
    Lstore1 = 64,
    /// `lstore_2`
    Lstore2 = 65,
    /// `lstore_3`
    Lstore3 = 66,
    /// `fstore_0`
    Fstore0 = 67,
    /// `fstore_1`
    Fstore1 = 68,
    /// `fstore_2`
    Fstore2 = 69,
    /// `fstore_3`
    Fstore3 = 70,
    /// `dstore_0`
    Dstore0 = 71,
    /// `dstore_1`
    Dstore1 = 72,
    /// `dstore_2`
    Dstore2 = 73,
    /// `dstore_3`
    Dstore3 = 74,
    /// `astore_0`
    Astore0 = 75,
    /// `astore_1`
    Astore1 = 76,
    /// `astore_2`
    Astore2 = 77,
    /// `astore_3`
    Astore3 = 78,
    /// `iastore`
    Iastore = 79,
    /// `lastore`
    Lastore = 80,
    /// `fastore`
    Fastore = 81,
    /// `dastore`
    Dastore = 82,
    /// `aastore`
    Aastore = 83,
    /// `bastore`
    Bastore = 84,
    /// `castore`
    Castore = 85,
    /// `sastore`
    Sastore = 86,
    /// `pop`
    Pop = 87,
    /// `pop2`
    Pop2 = 88,
    /// `dup`
    Dup = 89,
    /// `dup_x1`
    DupX1 = 90,
    /// `dup_x2`
    DupX2 = 91,
    /// `dup2`
    Dup2 = 92,
    /// `dup2_x1`
    Dup2X1 = 93,
    /// `dup2_x2`
    Dup2X2 = 94,
    /// `swap`
    Swap = 95,
    /// `iadd`
    Iadd = 96,
    /// `ladd`
    Ladd = 97,
    /// `fadd`
    Fadd = 98,
    /// `dadd`
    Dadd = 99,
    /// `isub`
    Isub = 100,
    /// `lsub`
    Lsub = 101,
    /// `fsub`
    Fsub = 102,
    /// `dsub`
    Dsub = 103,
    /// `imul`
    Imul = 104,
    /// `lmul`
    Lmul = 105,
    /// `fmul`
    Fmul = 106,
    /// `dmul`
    Dmul = 107,
    /// `idiv`
    Idiv = 108,
    /// `ldiv`
    Ldiv = 109,
    /// `fdiv`
    Fdiv = 110,
    /// `ddiv`
    Ddiv = 111,
    /// `irem`
    Irem = 112,
    /// `lrem`
    Lrem = 113,
    /// `frem`
    Frem = 114,
    /// `drem`
    Drem = 115,
    /// `ineg`
    Ineg = 116,
    /// `lneg`
    Lneg = 117,
    /// `fneg`
    Fneg = 118,
    /// `dneg`
    Dneg = 119,
    /// `ishl`
    Ishl = 120,
    /// `lshl`
    Lshl = 121,
    /// `ishr`
    Ishr = 122,
    /// `lshr`
    Lshr = 123,
    /// `iushr`
    Iushr = 124,
    /// `lushr`
    Lushr = 125,
    /// `iand`
    Iand = 126,
    /// `land`
    Land = 127,
    /// `ior`
    Ior = 128,
    /// `lor`
    Lor = 129,
    /// `ixor`
    Ixor = 130,
    /// `lxor`
    Lxor = 131,
    /// `iinc`
    Iinc = 132,
    /// `i2l`
    I2l = 133,
    /// `i2f`
    I2f = 134,
    /// `i2d`
    I2d = 135,
    /// `l2i`
    L2i = 136,
    /// `l2f`
    L2f = 137,
    /// `l2d`
    L2d = 138,
    /// `f2i`
    F2i = 139,
    /// `f2l`
    F2l = 140,
    /// `f2d`
    F2d = 141,
    /// `d2i`
    D2i = 142,
    /// `d2l`
    D2l = 143,
    /// `d2f`
    D2f = 144,
    /// `i2b`
    I2b = 145,
    /// `i2c`
    I2c = 146,
    /// `i2s`
    I2s = 147,
    /// `lcmp`
    Lcmp = 148,
    /// `fcmpl`
    Fcmpl = 149,
    /// `fcmpg`
    Fcmpg = 150,
    /// `dcmpl`
    Dcmpl = 151,
    /// `dcmpg`
    Dcmpg = 152,
    /// `ifeq`
    Ifeq = 153,
    /// `ifne`
    Ifne = 154,
    /// `iflt`
    Iflt = 155,
    /// `ifge`
    Ifge = 156,
    /// `ifgt`
    Ifgt = 157,
    /// `ifle`
    Ifle = 158,
    /// `if_icmpeq`
    IfIcmpeq = 159,
    /// `if_icmpne`
    IfIcmpne = 160,
    /// `if_icmplt`
    IfIcmplt = 161,
    /// `if_icmpge`
    IfIcmpge = 162,
    /// `if_icmpgt`
    IfIcmpgt = 163,
    /// `if_icmple`
    IfIcmple = 164,
    /// `if_acmpeq`
    IfAcmpeq = 165,
    /// `if_acmpne`
    IfAcmpne = 166,
    /// `goto`
    Goto = 167,
    /// `jsr`
    Jsr = 168,
    /// `ret`
    Ret = 169,
    /// `tableswitch`
    Tableswitch = 170,
    /// `lookupswitch`
    Lookupswitch = 171,
    /// `ireturn`
    Ireturn = 172,
    /// `lreturn`
    Lreturn = 173,
    /// `freturn`
    Freturn = 174,
    /// `dreturn`
    Dreturn = 175,
    /// `areturn`
    Areturn = 176,
    /// `return`
    Return = 177,
    /// `getstatic`
    Getstatic = 178,
    /// `putstatic`
    Putstatic = 179,
    /// `getfield`
    Getfield = 180,
    /// `putfield`
    Putfield = 181,
    /// `invokevirtual`
    Invokevirtual = 182,
    /// `invokespecial`
    Invokespecial = 183,
    /// `invokestatic`
    Invokestatic = 184,
    /// `invokeinterface`
    Invokeinterface = 185,
    /// `invokedynamic`
    Invokedynamic = 186,
    /// `new`
    New = 187,
    /// `newarray`
    Newarray = 188,
    /// `anewarray`
    Anewarray = 189,
    /// `arraylength`
    Arraylength = 190,
    /// `athrow`
    Athrow = 191,
    /// `checkcast`
    Checkcast = 192,
    /// `instanceof`
    Instanceof = 193,
    /// `monitorenter`
    Monitorenter = 194,
    /// `monitorexit`
    Monitorexit = 195,
    /// `wide`
    Wide = 196,
    /// `multianewarray`
    Multianewarray = 197,
    /// `ifnull`
    Ifnull = 198,
    /// `ifnonnull`
    Ifnonnull = 199,
    /// `goto_w`
    GotoW = 200,
    /// `jsr_w`
    JsrW = 201,
}

impl Opcode {
    /// The number of this opcode, 0 to 201.
    pub fn number(self) -> u8
        ensures { result ≡ number self }
    {
        self as u8
    }
}

/// By its mnemonic.
impl fmt::Debug for Opcode {
    fn fmt<W: fmt::Write>(&self, f: &mut fmt::Formatter<W>) -> fmt::Result {
        f.write_str(self.mnemonic())
    }
}
