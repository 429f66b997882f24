//! The instruction set of the Java Virtual Machine in rows (JVMS 6.5): one for each opcode, one for
//! each operator that computes numbers, and one for each that moves what is on the stack.
ghost use Rattle.std.specs.Prelude.{◌≡◌, ◌++◌, Some, None, MatchOption, map, replicate, slice_get};
ghost use Rattle.insn.specs.Operators.{numeric_row, numeric_operators, stack_forms, stack_operators};
ghost use Rattle.insn.specs.Opcodes.{row, mnemonic, form, meaning, opcodes, opcode_of};
ghost use Rattle.insn.specs.Unconstrained.{unconstrained_length};
ghost use Rattle.insn.specs.private.Table.{table_row, table_opcode, table_act, act_alone, IsRowOf, numeric_table_row, numeric_table_operator, stack_table_row, stack_table_operator};
ghost use Rattle.insn.specs.Views.{stack_form_view};

use crate::acts::{Act, Meaning};
use crate::kinds::Kind;
use crate::opcode::Opcode;
use crate::operators::NumericOperator;
use crate::stack::{StackForm, StackOperator, StackPlace};
use names::Primitive;

/// The form of the operands after an opcode (JVMS 6.5, "Format"). A number is signed (`s`) or unsigned (`u`),
/// of so many bytes, the highest first.
#[derive(Clone, Copy, Debug, PartialEq, Eq)]
pub enum Form {
    /// Nothing.
    Nothing,
    /// An `int` as s1: `bipush`.
    Byte,
    /// An `int` as s2: `sipush`.
    Short,
    /// An index into the constant pool as u1: `ldc`.
    Constant,
    /// An index into the constant pool as u2.
    Index,
    /// The number of a local variable as u1.
    Local,
    /// The number of a local variable as u1, and what is added as s1: `iinc`.
    Increment,
    /// A branch offset as s2.
    Branch,
    /// A branch offset as s4.
    WideBranch,
    /// An index as u2, a count as u1 and a byte that is 0: `invokeinterface`.
    InvokeInterface,
    /// An index as u2 and two bytes that are 0: `invokedynamic`.
    InvokeDynamic,
    /// The type of an array's elements as u1: `newarray`.
    NewArray,
    /// An index as u2, and a number of dimensions as u1: `multianewarray`.
    MultiNewArray,
    /// Padding, and a table by rising keys without gaps: `tableswitch`.
    TableSwitch,
    /// Padding, and a table of pairs: `lookupswitch`.
    LookupSwitch,
    /// Another opcode, and its operands in twice the bytes: `wide`.
    Wide,
}

/// A row of the table: an opcode, the standard's name for it, what stands after it, what it means, and its act where
/// nothing stands after it.
pub(crate) type Row = (Opcode, &'static str, Form, Meaning, Option<Act<'static>>);

/// The act of an opcode of this form and meaning, where nothing stands after it.
macro_rules! act_alone {
    (Nothing LoadFrom($kind:expr, $local:expr)) => {
        Some(Act::Load { kind: $kind, local: $local })
    };
    (Nothing LoadReferenceFrom($local:expr)) => {
        Some(Act::LoadReference { local: $local })
    };
    (Nothing StoreTo($kind:expr, $local:expr)) => {
        Some(Act::Store { kind: $kind, local: $local })
    };
    (Nothing StoreReferenceTo($local:expr)) => {
        Some(Act::StoreReference { local: $local })
    };
    (Nothing $act:ident $(($part:expr))?) => {
        Some(Act::$act $(($part))?)
    };
    ($form:ident $($meaning:tt)*) => {
        None
    };
}

/// How many bytes an instruction of this opcode and form has, where its operands are unconstrained; otherwise, and for
/// `new`, 0.
macro_rules! unconstrained_length {
    (New $form:ident) => { 0 };
    ($opcode:ident Nothing) => { 1 };
    ($opcode:ident Byte) => { 2 };
    ($opcode:ident Short) => { 3 };
    ($opcode:ident Constant) => { 2 };
    ($opcode:ident Index) => { 3 };
    ($opcode:ident Local) => { 2 };
    ($opcode:ident Increment) => { 3 };
    ($opcode:ident Branch) => { 3 };
    ($opcode:ident WideBranch) => { 5 };
    ($opcode:ident NewArray) => { 2 };
    ($opcode:ident MultiNewArray) => { 4 };
    ($opcode:ident $form:ident) => { 0 };
}

/// The rows of a table that is written one row a line.
macro_rules! rows {
    ($($opcode:ident $mnemonic:literal $form:ident Meaning::$meaning:ident $(($($part:expr),*))?;)*) => {
        [$((
            Opcode::$opcode,
            $mnemonic,
            Form::$form,
            Meaning::$meaning $(($($part),*))?,
            act_alone!($form $meaning $(($($part),*))?),
        )),*]
    };
}

/// The lengths of instructions with unconstrained operands by all numbers of a byte, of a table that is written one row
/// a line.
macro_rules! unconstrained_lengths {
    ($($opcode:ident $mnemonic:literal $form:ident $meaning:expr;)*) => {
        [
            $(unconstrained_length!($opcode $form),)*
            0, 0, 0, 0, 0, 0, 0, 0, 0, 0, 0, 0, 0, 0, 0, 0, 0, 0,
            0, 0, 0, 0, 0, 0, 0, 0, 0, 0, 0, 0, 0, 0, 0, 0, 0, 0,
            0, 0, 0, 0, 0, 0, 0, 0, 0, 0, 0, 0, 0, 0, 0, 0, 0, 0,
        ]
    };
}

/// The instruction set in the order of the opcodes' numbers, as this macro makes a table of it.
macro_rules! instruction_set {
    ($made_by:ident) => {
        $made_by! {
            Nop             "nop"             Nothing         Meaning::Nothing;
            AconstNull      "aconst_null"     Nothing         Meaning::ConstantNull;
            IconstM1        "iconst_m1"       Nothing         Meaning::Constant(Kind::Int);
            Iconst0         "iconst_0"        Nothing         Meaning::Constant(Kind::Int);
            Iconst1         "iconst_1"        Nothing         Meaning::Constant(Kind::Int);
            Iconst2         "iconst_2"        Nothing         Meaning::Constant(Kind::Int);
            Iconst3         "iconst_3"        Nothing         Meaning::Constant(Kind::Int);
            Iconst4         "iconst_4"        Nothing         Meaning::Constant(Kind::Int);
            Iconst5         "iconst_5"        Nothing         Meaning::Constant(Kind::Int);
            Lconst0         "lconst_0"        Nothing         Meaning::Constant(Kind::Long);
            Lconst1         "lconst_1"        Nothing         Meaning::Constant(Kind::Long);
            Fconst0         "fconst_0"        Nothing         Meaning::Constant(Kind::Float);
            Fconst1         "fconst_1"        Nothing         Meaning::Constant(Kind::Float);
            Fconst2         "fconst_2"        Nothing         Meaning::Constant(Kind::Float);
            Dconst0         "dconst_0"        Nothing         Meaning::Constant(Kind::Double);
            Dconst1         "dconst_1"        Nothing         Meaning::Constant(Kind::Double);
            Bipush          "bipush"          Byte            Meaning::Constant(Kind::Int);
            Sipush          "sipush"          Short           Meaning::Constant(Kind::Int);
            Ldc             "ldc"             Constant        Meaning::LoadConstant;
            LdcW            "ldc_w"           Index           Meaning::LoadConstant;
            Ldc2W           "ldc2_w"          Index           Meaning::LoadWideConstant;
            Iload           "iload"           Local           Meaning::Load(Kind::Int);
            Lload           "lload"           Local           Meaning::Load(Kind::Long);
            Fload           "fload"           Local           Meaning::Load(Kind::Float);
            Dload           "dload"           Local           Meaning::Load(Kind::Double);
            Aload           "aload"           Local           Meaning::LoadReference;
            Iload0          "iload_0"         Nothing         Meaning::LoadFrom(Kind::Int, 0);
            Iload1          "iload_1"         Nothing         Meaning::LoadFrom(Kind::Int, 1);
            Iload2          "iload_2"         Nothing         Meaning::LoadFrom(Kind::Int, 2);
            Iload3          "iload_3"         Nothing         Meaning::LoadFrom(Kind::Int, 3);
            Lload0          "lload_0"         Nothing         Meaning::LoadFrom(Kind::Long, 0);
            Lload1          "lload_1"         Nothing         Meaning::LoadFrom(Kind::Long, 1);
            Lload2          "lload_2"         Nothing         Meaning::LoadFrom(Kind::Long, 2);
            Lload3          "lload_3"         Nothing         Meaning::LoadFrom(Kind::Long, 3);
            Fload0          "fload_0"         Nothing         Meaning::LoadFrom(Kind::Float, 0);
            Fload1          "fload_1"         Nothing         Meaning::LoadFrom(Kind::Float, 1);
            Fload2          "fload_2"         Nothing         Meaning::LoadFrom(Kind::Float, 2);
            Fload3          "fload_3"         Nothing         Meaning::LoadFrom(Kind::Float, 3);
            Dload0          "dload_0"         Nothing         Meaning::LoadFrom(Kind::Double, 0);
            Dload1          "dload_1"         Nothing         Meaning::LoadFrom(Kind::Double, 1);
            Dload2          "dload_2"         Nothing         Meaning::LoadFrom(Kind::Double, 2);
            Dload3          "dload_3"         Nothing         Meaning::LoadFrom(Kind::Double, 3);
            Aload0          "aload_0"         Nothing         Meaning::LoadReferenceFrom(0);
            Aload1          "aload_1"         Nothing         Meaning::LoadReferenceFrom(1);
            Aload2          "aload_2"         Nothing         Meaning::LoadReferenceFrom(2);
            Aload3          "aload_3"         Nothing         Meaning::LoadReferenceFrom(3);
            Iaload          "iaload"          Nothing         Meaning::LoadElement(Primitive::Int);
            Laload          "laload"          Nothing         Meaning::LoadElement(Primitive::Long);
            Faload          "faload"          Nothing         Meaning::LoadElement(Primitive::Float);
            Daload          "daload"          Nothing         Meaning::LoadElement(Primitive::Double);
            Aaload          "aaload"          Nothing         Meaning::LoadReferenceElement;
            Baload          "baload"          Nothing         Meaning::LoadElement(Primitive::Byte);
            Caload          "caload"          Nothing         Meaning::LoadElement(Primitive::Char);
            Saload          "saload"          Nothing         Meaning::LoadElement(Primitive::Short);
            Istore          "istore"          Local           Meaning::Store(Kind::Int);
            Lstore          "lstore"          Local           Meaning::Store(Kind::Long);
            Fstore          "fstore"          Local           Meaning::Store(Kind::Float);
            Dstore          "dstore"          Local           Meaning::Store(Kind::Double);
            Astore          "astore"          Local           Meaning::StoreReference;
            Istore0         "istore_0"        Nothing         Meaning::StoreTo(Kind::Int, 0);
            Istore1         "istore_1"        Nothing         Meaning::StoreTo(Kind::Int, 1);
            Istore2         "istore_2"        Nothing         Meaning::StoreTo(Kind::Int, 2);
            Istore3         "istore_3"        Nothing         Meaning::StoreTo(Kind::Int, 3);
            Lstore0         "lstore_0"        Nothing         Meaning::StoreTo(Kind::Long, 0);
            Lstore1         "lstore_1"        Nothing         Meaning::StoreTo(Kind::Long, 1);
            Lstore2         "lstore_2"        Nothing         Meaning::StoreTo(Kind::Long, 2);
            Lstore3         "lstore_3"        Nothing         Meaning::StoreTo(Kind::Long, 3);
            Fstore0         "fstore_0"        Nothing         Meaning::StoreTo(Kind::Float, 0);
            Fstore1         "fstore_1"        Nothing         Meaning::StoreTo(Kind::Float, 1);
            Fstore2         "fstore_2"        Nothing         Meaning::StoreTo(Kind::Float, 2);
            Fstore3         "fstore_3"        Nothing         Meaning::StoreTo(Kind::Float, 3);
            Dstore0         "dstore_0"        Nothing         Meaning::StoreTo(Kind::Double, 0);
            Dstore1         "dstore_1"        Nothing         Meaning::StoreTo(Kind::Double, 1);
            Dstore2         "dstore_2"        Nothing         Meaning::StoreTo(Kind::Double, 2);
            Dstore3         "dstore_3"        Nothing         Meaning::StoreTo(Kind::Double, 3);
            Astore0         "astore_0"        Nothing         Meaning::StoreReferenceTo(0);
            Astore1         "astore_1"        Nothing         Meaning::StoreReferenceTo(1);
            Astore2         "astore_2"        Nothing         Meaning::StoreReferenceTo(2);
            Astore3         "astore_3"        Nothing         Meaning::StoreReferenceTo(3);
            Iastore         "iastore"         Nothing         Meaning::StoreElement(Primitive::Int);
            Lastore         "lastore"         Nothing         Meaning::StoreElement(Primitive::Long);
            Fastore         "fastore"         Nothing         Meaning::StoreElement(Primitive::Float);
            Dastore         "dastore"         Nothing         Meaning::StoreElement(Primitive::Double);
            Aastore         "aastore"         Nothing         Meaning::StoreReferenceElement;
            Bastore         "bastore"         Nothing         Meaning::StoreElement(Primitive::Byte);
            Castore         "castore"         Nothing         Meaning::StoreElement(Primitive::Char);
            Sastore         "sastore"         Nothing         Meaning::StoreElement(Primitive::Short);
            Pop             "pop"             Nothing         Meaning::Stack(StackOperator::Pop);
            Pop2            "pop2"            Nothing         Meaning::Stack(StackOperator::Pop2);
            Dup             "dup"             Nothing         Meaning::Stack(StackOperator::Dup);
            DupX1           "dup_x1"          Nothing         Meaning::Stack(StackOperator::DupX1);
            DupX2           "dup_x2"          Nothing         Meaning::Stack(StackOperator::DupX2);
            Dup2            "dup2"            Nothing         Meaning::Stack(StackOperator::Dup2);
            Dup2X1          "dup2_x1"         Nothing         Meaning::Stack(StackOperator::Dup2X1);
            Dup2X2          "dup2_x2"         Nothing         Meaning::Stack(StackOperator::Dup2X2);
            Swap            "swap"            Nothing         Meaning::Stack(StackOperator::Swap);
            Iadd            "iadd"            Nothing         Meaning::Numeric(NumericOperator::Iadd);
            Ladd            "ladd"            Nothing         Meaning::Numeric(NumericOperator::Ladd);
            Fadd            "fadd"            Nothing         Meaning::Numeric(NumericOperator::Fadd);
            Dadd            "dadd"            Nothing         Meaning::Numeric(NumericOperator::Dadd);
            Isub            "isub"            Nothing         Meaning::Numeric(NumericOperator::Isub);
            Lsub            "lsub"            Nothing         Meaning::Numeric(NumericOperator::Lsub);
            Fsub            "fsub"            Nothing         Meaning::Numeric(NumericOperator::Fsub);
            Dsub            "dsub"            Nothing         Meaning::Numeric(NumericOperator::Dsub);
            Imul            "imul"            Nothing         Meaning::Numeric(NumericOperator::Imul);
            Lmul            "lmul"            Nothing         Meaning::Numeric(NumericOperator::Lmul);
            Fmul            "fmul"            Nothing         Meaning::Numeric(NumericOperator::Fmul);
            Dmul            "dmul"            Nothing         Meaning::Numeric(NumericOperator::Dmul);
            Idiv            "idiv"            Nothing         Meaning::Numeric(NumericOperator::Idiv);
            Ldiv            "ldiv"            Nothing         Meaning::Numeric(NumericOperator::Ldiv);
            Fdiv            "fdiv"            Nothing         Meaning::Numeric(NumericOperator::Fdiv);
            Ddiv            "ddiv"            Nothing         Meaning::Numeric(NumericOperator::Ddiv);
            Irem            "irem"            Nothing         Meaning::Numeric(NumericOperator::Irem);
            Lrem            "lrem"            Nothing         Meaning::Numeric(NumericOperator::Lrem);
            Frem            "frem"            Nothing         Meaning::Numeric(NumericOperator::Frem);
            Drem            "drem"            Nothing         Meaning::Numeric(NumericOperator::Drem);
            Ineg            "ineg"            Nothing         Meaning::Numeric(NumericOperator::Ineg);
            Lneg            "lneg"            Nothing         Meaning::Numeric(NumericOperator::Lneg);
            Fneg            "fneg"            Nothing         Meaning::Numeric(NumericOperator::Fneg);
            Dneg            "dneg"            Nothing         Meaning::Numeric(NumericOperator::Dneg);
            Ishl            "ishl"            Nothing         Meaning::Numeric(NumericOperator::Ishl);
            Lshl            "lshl"            Nothing         Meaning::Numeric(NumericOperator::Lshl);
            Ishr            "ishr"            Nothing         Meaning::Numeric(NumericOperator::Ishr);
            Lshr            "lshr"            Nothing         Meaning::Numeric(NumericOperator::Lshr);
            Iushr           "iushr"           Nothing         Meaning::Numeric(NumericOperator::Iushr);
            Lushr           "lushr"           Nothing         Meaning::Numeric(NumericOperator::Lushr);
            Iand            "iand"            Nothing         Meaning::Numeric(NumericOperator::Iand);
            Land            "land"            Nothing         Meaning::Numeric(NumericOperator::Land);
            Ior             "ior"             Nothing         Meaning::Numeric(NumericOperator::Ior);
            Lor             "lor"             Nothing         Meaning::Numeric(NumericOperator::Lor);
            Ixor            "ixor"            Nothing         Meaning::Numeric(NumericOperator::Ixor);
            Lxor            "lxor"            Nothing         Meaning::Numeric(NumericOperator::Lxor);
            Iinc            "iinc"            Increment       Meaning::Increment;
            I2l             "i2l"             Nothing         Meaning::Numeric(NumericOperator::I2l);
            I2f             "i2f"             Nothing         Meaning::Numeric(NumericOperator::I2f);
            I2d             "i2d"             Nothing         Meaning::Numeric(NumericOperator::I2d);
            L2i             "l2i"             Nothing         Meaning::Numeric(NumericOperator::L2i);
            L2f             "l2f"             Nothing         Meaning::Numeric(NumericOperator::L2f);
            L2d             "l2d"             Nothing         Meaning::Numeric(NumericOperator::L2d);
            F2i             "f2i"             Nothing         Meaning::Numeric(NumericOperator::F2i);
            F2l             "f2l"             Nothing         Meaning::Numeric(NumericOperator::F2l);
            F2d             "f2d"             Nothing         Meaning::Numeric(NumericOperator::F2d);
            D2i             "d2i"             Nothing         Meaning::Numeric(NumericOperator::D2i);
            D2l             "d2l"             Nothing         Meaning::Numeric(NumericOperator::D2l);
            D2f             "d2f"             Nothing         Meaning::Numeric(NumericOperator::D2f);
            I2b             "i2b"             Nothing         Meaning::Numeric(NumericOperator::I2b);
            I2c             "i2c"             Nothing         Meaning::Numeric(NumericOperator::I2c);
            I2s             "i2s"             Nothing         Meaning::Numeric(NumericOperator::I2s);
            Lcmp            "lcmp"            Nothing         Meaning::Numeric(NumericOperator::Lcmp);
            Fcmpl           "fcmpl"           Nothing         Meaning::Numeric(NumericOperator::Fcmpl);
            Fcmpg           "fcmpg"           Nothing         Meaning::Numeric(NumericOperator::Fcmpg);
            Dcmpl           "dcmpl"           Nothing         Meaning::Numeric(NumericOperator::Dcmpl);
            Dcmpg           "dcmpg"           Nothing         Meaning::Numeric(NumericOperator::Dcmpg);
            Ifeq            "ifeq"            Branch          Meaning::IfInt;
            Ifne            "ifne"            Branch          Meaning::IfInt;
            Iflt            "iflt"            Branch          Meaning::IfInt;
            Ifge            "ifge"            Branch          Meaning::IfInt;
            Ifgt            "ifgt"            Branch          Meaning::IfInt;
            Ifle            "ifle"            Branch          Meaning::IfInt;
            IfIcmpeq        "if_icmpeq"       Branch          Meaning::IfInts;
            IfIcmpne        "if_icmpne"       Branch          Meaning::IfInts;
            IfIcmplt        "if_icmplt"       Branch          Meaning::IfInts;
            IfIcmpge        "if_icmpge"       Branch          Meaning::IfInts;
            IfIcmpgt        "if_icmpgt"       Branch          Meaning::IfInts;
            IfIcmple        "if_icmple"       Branch          Meaning::IfInts;
            IfAcmpeq        "if_acmpeq"       Branch          Meaning::IfReferences;
            IfAcmpne        "if_acmpne"       Branch          Meaning::IfReferences;
            Goto            "goto"            Branch          Meaning::Goto;
            Jsr             "jsr"             Branch          Meaning::Unsupported;
            Ret             "ret"             Local           Meaning::Unsupported;
            Tableswitch     "tableswitch"     TableSwitch     Meaning::Switch;
            Lookupswitch    "lookupswitch"    LookupSwitch    Meaning::Switch;
            Ireturn         "ireturn"         Nothing         Meaning::Return(Kind::Int);
            Lreturn         "lreturn"         Nothing         Meaning::Return(Kind::Long);
            Freturn         "freturn"         Nothing         Meaning::Return(Kind::Float);
            Dreturn         "dreturn"         Nothing         Meaning::Return(Kind::Double);
            Areturn         "areturn"         Nothing         Meaning::ReturnReference;
            Return          "return"          Nothing         Meaning::ReturnVoid;
            Getstatic       "getstatic"       Index           Meaning::GetStatic;
            Putstatic       "putstatic"       Index           Meaning::PutStatic;
            Getfield        "getfield"        Index           Meaning::GetField;
            Putfield        "putfield"        Index           Meaning::PutField;
            Invokevirtual   "invokevirtual"   Index           Meaning::InvokeVirtual;
            Invokespecial   "invokespecial"   Index           Meaning::InvokeSpecial;
            Invokestatic    "invokestatic"    Index           Meaning::InvokeStatic;
            Invokeinterface "invokeinterface" InvokeInterface Meaning::InvokeInterface;
            Invokedynamic   "invokedynamic"   InvokeDynamic   Meaning::InvokeDynamic;
            New             "new"             Index           Meaning::New;
            Newarray        "newarray"        NewArray        Meaning::NewArray;
            Anewarray       "anewarray"       Index           Meaning::NewReferenceArray;
            Arraylength     "arraylength"     Nothing         Meaning::ArrayLength;
            Athrow          "athrow"          Nothing         Meaning::Throw;
            Checkcast       "checkcast"       Index           Meaning::CheckCast;
            Instanceof      "instanceof"      Index           Meaning::InstanceOf;
            Monitorenter    "monitorenter"    Nothing         Meaning::Monitor;
            Monitorexit     "monitorexit"     Nothing         Meaning::Monitor;
            Wide            "wide"            Wide            Meaning::Unsupported;
            Multianewarray  "multianewarray"  MultiNewArray   Meaning::NewMultiArray;
            Ifnull          "ifnull"          Branch          Meaning::IfNull;
            Ifnonnull       "ifnonnull"       Branch          Meaning::IfNull;
            GotoW           "goto_w"          WideBranch      Meaning::Goto;
            JsrW            "jsr_w"           WideBranch      Meaning::Unsupported;
        }
    };
}

/// The rows in the order of the opcodes' numbers.
static ROWS: [Row; 202] = instruction_set!(rows);

/// For each number of a byte the length in bytes of an instruction of that opcode, where any bytes are its operands;
/// otherwise, and for `new`, 0.
static UNCONSTRAINED_LENGTHS: [u8; 256] = instruction_set!(unconstrained_lengths);

/// The rows in the order of the opcodes' numbers.
fn rows() -> &'static [Row]
    ensures all { map table_row result.now ≡ map row opcodes }
    ensures order { map table_opcode result.now ≡ opcodes }
    ensures acts { map table_act result.now ≡ map act_alone opcodes }
{
    &ROWS
}

/// The row of the opcode of this number; none from 202 on.
#[inline(always)]
pub(crate) fn row_at(number: u8) -> Option<&'static Row>
    ensures { MatchOption result (opcode_of number ≡ None) (λ r. IsRowOf number r.now) }
{
    let row = rows().get(number as usize)?;
    Some(row)
}

/// The lengths of instructions with unconstrained operands by all numbers of a byte.
#[inline(always)]
fn unconstrained_lengths() -> &'static [u8; 256]
    ensures { result.now ≡ map (λ o. unconstrained_length (Some o)) opcodes ++ replicate 54 0 }
{
    &UNCONSTRAINED_LENGTHS
}

/// How many bytes an instruction of the opcode of this number has, where any bytes are its operands; otherwise, and
/// for `new`, 0.
#[inline(always)]
pub(crate) fn unconstrained_length(number: u8) -> usize
    ensures { result ≡ unconstrained_length (opcode_of number) }
{
    usize::from(unconstrained_lengths()[number as usize])
}

impl Opcode {
    /// The opcode of this number; none from 202 on.
    pub fn from_number(number: u8) -> Option<Opcode>
        ensures { result ≡ opcode_of number }
    {
        Some(row_at(number)?.0)
    }

    /// The row of this opcode.
    fn row(self) -> &'static Row
        ensures { table_row result.now ≡ row self }
    {
        &rows()[self.number() as usize]
    }

    /// The standard's name of this opcode.
    pub fn mnemonic(self) -> &'static str
        ensures { result.now ≡ mnemonic self }
    {
        self.row().1
    }

    /// The form of its operands.
    pub fn form(self) -> Form
        ensures { result ≡ form self }
    {
        self.row().2
    }

    /// The meaning of this opcode, before its operands are looked at.
    pub fn meaning(self) -> Meaning
        ensures { result ≡ meaning self }
    {
        self.row().3
    }
}

/// A row of the numeric operators: the operator, the kinds of the numbers taken, the top of the
/// stack first, and the kind of the one given.
type NumericRow = (NumericOperator, &'static [Kind], Kind);

/// The rows of a table that is written as `OPERATOR [TAKEN, TAKEN] -> GIVEN;`, one row a line.
macro_rules! numeric_rows {
    ($($operator:ident [$($taken:ident),*] -> $given:ident;)*) => {
        [$((NumericOperator::$operator, &[$(Kind::$taken),*], Kind::$given)),*]
    };
}

/// The rows in the order of the operators.
static NUMERIC_ROWS: [NumericRow; 56] = numeric_rows! {
    Iadd  [Int, Int]       -> Int;
    Ladd  [Long, Long]     -> Long;
    Fadd  [Float, Float]   -> Float;
    Dadd  [Double, Double] -> Double;
    Isub  [Int, Int]       -> Int;
    Lsub  [Long, Long]     -> Long;
    Fsub  [Float, Float]   -> Float;
    Dsub  [Double, Double] -> Double;
    Imul  [Int, Int]       -> Int;
    Lmul  [Long, Long]     -> Long;
    Fmul  [Float, Float]   -> Float;
    Dmul  [Double, Double] -> Double;
    Idiv  [Int, Int]       -> Int;
    Ldiv  [Long, Long]     -> Long;
    Fdiv  [Float, Float]   -> Float;
    Ddiv  [Double, Double] -> Double;
    Irem  [Int, Int]       -> Int;
    Lrem  [Long, Long]     -> Long;
    Frem  [Float, Float]   -> Float;
    Drem  [Double, Double] -> Double;
    Ineg  [Int]            -> Int;
    Lneg  [Long]           -> Long;
    Fneg  [Float]          -> Float;
    Dneg  [Double]         -> Double;
    Ishl  [Int, Int]       -> Int;
    Lshl  [Int, Long]      -> Long;
    Ishr  [Int, Int]       -> Int;
    Lshr  [Int, Long]      -> Long;
    Iushr [Int, Int]       -> Int;
    Lushr [Int, Long]      -> Long;
    Iand  [Int, Int]       -> Int;
    Land  [Long, Long]     -> Long;
    Ior   [Int, Int]       -> Int;
    Lor   [Long, Long]     -> Long;
    Ixor  [Int, Int]       -> Int;
    Lxor  [Long, Long]     -> Long;
    I2l   [Int]            -> Long;
    I2f   [Int]            -> Float;
    I2d   [Int]            -> Double;
    L2i   [Long]           -> Int;
    L2f   [Long]           -> Float;
    L2d   [Long]           -> Double;
    F2i   [Float]          -> Int;
    F2l   [Float]          -> Long;
    F2d   [Float]          -> Double;
    D2i   [Double]         -> Int;
    D2l   [Double]         -> Long;
    D2f   [Double]         -> Float;
    I2b   [Int]            -> Int;
    I2c   [Int]            -> Int;
    I2s   [Int]            -> Int;
    Lcmp  [Long, Long]     -> Int;
    Fcmpl [Float, Float]   -> Int;
    Fcmpg [Float, Float]   -> Int;
    Dcmpl [Double, Double] -> Int;
    Dcmpg [Double, Double] -> Int;
};

/// The rows in the order of the operators.
fn numeric_rows() -> &'static [NumericRow]
    ensures all { map numeric_table_row result.now ≡ map numeric_row numeric_operators }
    ensures order { map numeric_table_operator result.now ≡ numeric_operators }
{
    &NUMERIC_ROWS
}

impl NumericOperator {
    /// Its place in the order of the operators.
    fn place(self) -> usize
        ensures { slice_get numeric_operators result ≡ Some self }
    {
        self as usize
    }

    /// The kinds of the numbers taken, the top of the stack first, and the kind of the one given.
    pub fn row(self) -> (&'static [Kind], Kind)
        ensures taken { result.0.now ≡ (numeric_row self).taken }
        ensures given { result.1 ≡ (numeric_row self).given }
    {
        let (_, taken, given) = numeric_rows()[self.place()];
        (taken, given)
    }
}

/// A row of the operators that move what is on the stack: the operator, and its forms.
type StackRow = (StackOperator, &'static [StackForm]);

/// The rows of a table that is written as `OPERATOR [TAKEN, TAKEN] -> [LEFT, LEFT];`, a form after
/// the other with `|` between them.
macro_rules! stack_rows {
    ($($operator:ident $([$($taken:ident),*] -> [$($left:literal),*])|+;)*) => {
        [$((
            StackOperator::$operator,
            &[$(StackForm { takes: &[$(StackPlace::$taken),*], leaves: &[$($left),*] }),+],
        )),*]
    };
}

/// The rows in the order of the operators.
static STACK_ROWS: [StackRow; 9] = stack_rows! {
    Pop    [Narrow]                         -> [];
    Pop2   [Narrow, Narrow]                 -> []
         | [Wide]                           -> [];
    Dup    [Narrow]                         -> [0, 0];
    DupX1  [Narrow, Narrow]                 -> [0, 1, 0];
    DupX2  [Narrow, Narrow, Narrow]         -> [0, 1, 2, 0]
         | [Narrow, Wide]                   -> [0, 1, 0];
    Dup2   [Narrow, Narrow]                 -> [0, 1, 0, 1]
         | [Wide]                           -> [0, 0];
    Dup2X1 [Narrow, Narrow, Narrow]         -> [0, 1, 2, 0, 1]
         | [Wide, Narrow]                   -> [0, 1, 0];
    Dup2X2 [Narrow, Narrow, Narrow, Narrow] -> [0, 1, 2, 3, 0, 1]
         | [Wide, Narrow, Narrow]           -> [0, 1, 2, 0]
         | [Narrow, Narrow, Wide]           -> [0, 1, 2, 0, 1]
         | [Wide, Wide]                     -> [0, 1, 0];
    Swap   [Narrow, Narrow]                 -> [1, 0];
};

/// The rows in the order of the operators.
fn stack_rows() -> &'static [StackRow]
    ensures all { map stack_table_row result.now ≡ map stack_forms stack_operators }
    ensures order { map stack_table_operator result.now ≡ stack_operators }
{
    &STACK_ROWS
}

impl StackOperator {
    /// Its place in the order of the operators.
    fn place(self) -> usize
        ensures { slice_get stack_operators result ≡ Some self }
    {
        self as usize
    }

    /// The forms of this instruction (JVMS 6.5), of which at most one fits what is on the stack.
    pub fn forms(self) -> &'static [StackForm]
        ensures { map stack_form_view result.now ≡ stack_forms self }
    {
        let (_, forms) = stack_rows()[self.place()];
        forms
    }
}
