//! The name of each number of a refusal, and one sentence that says what is wrong.
ghost use Rattle.std.specs.Prelude.{◌≡◌};
ghost use Rattle.layout.specs.Refusals.{read_fault_number};
ghost use Rattle.classfile.specs.Conditions.{rule_number};
ghost use Rattle.hierarchy.specs.Faults.{number_of};
ghost use Rattle.rules.specs.Reasons.{reason_number};
ghost use Rattle.verify.specs.FinalRules.{final_rule_number};
ghost use Rattle.answers.specs.Sentences.{sentence, fault_sentence, numbered_line, sentence_line, fault_line, fault_lines, reason_lines, sentence_fields, fault_sentence_fields, reason_sentence_fields, file_fault_number, version_sentence, kind_sentence, release_sentence, file_sentence, file_sentence_line, file_sentence_fields};
ghost use Rattle.printing.specs.Json.{fields_then, fields_behind};

use classfile::{FormRule, Versions};
use hierarchy::HierarchyFault;
use layout::ReadFault;
use printing::{END, More, Number, Print, Quoted, Then, Word, WriteFailed};
use rules::Reason;
use std::io::Write;
use verify::{FileFault, FinalRule};

/// The sentence on a fault of bytes.
fn read_sentence(fault: &ReadFault) -> &'static str
    ensures { result.now ≡ sentence (read_fault_number fault.now) }
{
    match fault {
        ReadFault::OutOfMemory => "OutOfMemory: memory ran out",
        ReadFault::EndsEarly { .. } =>
            "EndsEarly: the number or part that begins there is not whole",
        ReadFault::BadText { .. } => "BadText: a text is no modified UTF-8 from this byte on",
        ReadFault::BadTag { .. } =>
            "BadTag: the byte is no tag that a constant may have there, or no kind of a method handle",
        ReadFault::BadMagic => "BadMagic: the file does not begin with CAFEBABE",
        ReadFault::BadVersion { .. } =>
            "BadVersion: the version is none of 51 to 55, nor of 56 to 61 with minor version 0",
        ReadFault::AttributeLength { .. } =>
            "AttributeLength: the attribute that begins there does not use exactly its length",
        ReadFault::BytesAfter { .. } => "BytesAfter: bytes stand behind the class",
        ReadFault::TooLong { .. } =>
            "TooLong: the part that begins there would pass 16,777,216 bytes",
        ReadFault::ReadFailed { .. } => "ReadFailed: the file could not be read on from there",
        ReadFault::BadPoolCount { .. } => "BadPoolCount: the count of the constant pool is 0",
        ReadFault::BadFrameType { .. } =>
            "BadFrameType: the byte there is no frame type of a stack map",
        ReadFault::BadTypeTag { .. } =>
            "BadTypeTag: the byte there is no tag of a verification type",
    }
}

/// The sentence on a rule of well-formed classes that is broken.
fn rule_sentence(rule: FormRule) -> &'static str
    ensures { result.now ≡ sentence (rule_number rule) }
{
    match rule {
        FormRule::BadIndex =>
            "BadIndex: an index is 0 where it may not be, past the constant pool, or the second one of a Long or Double",
        FormRule::WrongKind =>
            "WrongKind: an index leads to another kind of constant than it should, or a Dynamic stands in a class below major version 55",
        FormRule::BadName => "BadName: a name is not of its form, or is none that may stand there",
        FormRule::BadDescriptor =>
            "BadDescriptor: a descriptor is not of its form, passes its limits, or is none that the method may have",
        FormRule::BadFlags =>
            "BadFlags: access flags stand together that may not, or one stands without another that it needs",
        FormRule::Twice => "Twice: an earlier field or method has this name and descriptor",
        FormRule::CodeMissing => "CodeMissing: the method has no Code attribute and must have one",
        FormRule::CodeNotAllowed =>
            "CodeNotAllowed: the method has a Code attribute and may have none",
        FormRule::BadSuper =>
            "BadSuper: the superclass is missing, or is none that the class may have",
        FormRule::BadCodeLength => "BadCodeLength: the length of the code is not 1 to 65,535 bytes",
        FormRule::AttributeTwice =>
            "AttributeTwice: two attributes stand of a kind of which there may be one",
        FormRule::BadDebugTable =>
            "BadDebugTable: a row of a debug table passes the code or the local variables, is not of its form, or stands twice",
        FormRule::BadBootstrap =>
            "BadBootstrap: the class has no bootstrap method for the constant, or one whose handle or arguments may not be used",
    }
}

/// The sentence on a fault of a hierarchy.
fn hierarchy_sentence(fault: &HierarchyFault<'_>) -> &'static str
    ensures { result.now ≡ sentence (number_of fault.now) }
{
    match fault {
        HierarchyFault::OutOfMemory => "OutOfMemory: memory ran out",
        HierarchyFault::ClassTwice { .. } =>
            "ClassTwice: the files have more than one class of this name",
        HierarchyFault::Cycle { .. } =>
            "Cycle: the class stands on the chain of its own superclasses",
        HierarchyFault::SuperMissing { .. } =>
            "SuperMissing: the superclass of the class is not among the files",
        HierarchyFault::NoObject =>
            "NoObject: java/lang/Object is absent, is an interface, or has a superclass",
        HierarchyFault::BadArrayInterface { .. } =>
            "BadArrayInterface: java/lang/Cloneable or java/io/Serializable is no interface",
        HierarchyFault::TooManyClasses => "TooManyClasses: there are more than 65,535 classes",
        HierarchyFault::InterfaceSuper { .. } =>
            "InterfaceSuper: the superclass of the interface is not java/lang/Object",
    }
}

/// The sentence on a rule on final classes and methods.
fn final_sentence(rule: FinalRule) -> &'static str
    ensures { result.now ≡ sentence (final_rule_number rule) }
{
    match rule {
        FinalRule::FinalSuper => "FinalSuper: the superclass of the class is final",
        FinalRule::FinalOverridden { .. } =>
            "FinalOverridden: the method overrides a final method of a class above, which it may not",
    }
}

/// The sentence on a reason.
fn reason_sentence(reason: &Reason<'_>) -> &'static str
    ensures { result.now ≡ sentence (reason_number reason.now) }
{
    match reason {
        Reason::OutOfMemory => "OutOfMemory: memory ran out",
        Reason::NotSupported =>
            "NotSupported: the instruction is jsr, jsr_w or ret, or one that only --dynamic judges",
        Reason::MissingOperand =>
            "MissingOperand: the stack holds fewer operands than the instruction takes",
        Reason::WrongOperand =>
            "WrongOperand: an operand is of another type than the instruction takes",
        Reason::WrongLocal =>
            "WrongLocal: the local variable that the instruction reads is of another type",
        Reason::LocalOutOfRange =>
            "LocalOutOfRange: the local variable, or at 0 the receiver with the parameters, passes max_locals",
        Reason::StackOver => "StackOver: the stack after the instruction passes max_stack",
        Reason::WrongConstant =>
            "WrongConstant: the constant, or the byte, is none that the instruction may have",
        Reason::NoFrameAtTarget =>
            "NoFrameAtTarget: the stack map declares no frame at a target of the instruction",
        Reason::NotAssignableAtTarget =>
            "NotAssignableAtTarget: the frame after the instruction is not assignable to the one that is declared at a target",
        Reason::NotAssignable =>
            "NotAssignable: the frame that comes to the instruction is not assignable to the one that is declared there",
        Reason::NoFrame =>
            "NoFrame: the instruction before never goes on, and the stack map declares no frame here",
        Reason::FallsOff => "FallsOff: the last instruction of the code goes on",
        Reason::BadException =>
            "BadException: an entry of the exception table has a wrong range or handler, or catches what is no Throwable",
        Reason::HandlerNotAssignable =>
            "HandlerNotAssignable: the frame before the instruction is not assignable to the one that is declared at a handler which covers it",
        Reason::OwnObjectNotReady =>
            "OwnObjectNotReady: the constructor returns before its own object is initialized",
        Reason::ConstructorCovered =>
            "ConstructorCovered: an entry of the exception table covers the call of a constructor on the own object",
        Reason::WrongReturn =>
            "WrongReturn: the return is of another kind than the result of the method",
        Reason::ClassMissing(_) =>
            "ClassMissing: a comparison of types needs the class of this name, which is not among the files",
        Reason::BadStackMap { .. } => "BadStackMap: the stack map is refused",
        Reason::BadCode { .. } => "BadCode: the code is refused at this instruction",
        Reason::ProtectedMember =>
            "ProtectedMember: a protected member of another package is used on an object that is not assignable to the current class",
        Reason::NotDirectInterface =>
            "NotDirectInterface: invokespecial calls a method of an interface that is neither the class itself nor one of its direct superinterfaces",
        Reason::BadBootstrap =>
            "BadBootstrap: the class has no bootstrap method for the constant, or one whose handle or arguments may not be used",
    }
}

/// The sentence on the fault of a stack map (after 78) or of code (after 79) that has this number.
fn fault_sentence(number: u8) -> &'static str
    ensures { result.now ≡ fault_sentence number }
{
    match number {
        2 => "EndsEarly: the stack map ends within an entry",
        8 =>
            "BadIndex: an index is 0, past the constant pool, or the second one of a Long or Double",
        9 => "WrongKind: a constant of another kind than Class stands at an index",
        12 => "AttributeLength: bytes stand behind the last entry",
        31 => "BadOpcode: the byte is no opcode",
        32 => "CutInstruction: the code ends inside the instruction",
        33 => "BadSwitch: low is over high, the count is negative, or the keys do not rise",
        34 => "BadWide: wide stands before an opcode that it may not modify",
        35 => "NonZeroByte: a byte of invokeinterface or invokedynamic that must be 0 is not",
        47 => "BadFrameType: a byte is no frame type",
        48 => "BadTypeTag: a byte is no tag of a verification type",
        49 => "LocalsOver: the locals of an entry are more units than max_locals",
        50 => "StackOver: the stack of an entry is more units than max_stack",
        51 => "ChopTooMany: an entry chops more locals than the entry before it left",
        52 => "NotAStart: the offset of an entry is that of no instruction",
        53 => "NotANew: an entry names an uninitialized object by the offset of no new",
        _ => "",
    }
}

/// The line of a number and its sentence.
#[derive(Clone, Copy)]
struct NumberedLine {
    number: u8,
    text: &'static str,
}

impl Print for NumberedLine {
    ghost text = { λ t. numbered_line t.number t.text.now };

    fn put<W: Write>(&self, out: &mut W) -> Result<(), WriteFailed> {
        let text = Then(Word(" "), Then(Word(self.text), Word("\n")));
        Then(Word("  "), Then(Number(self.number), text)).put(out)
    }
}

/// With a release, what is said of a version that it does not take; the sentence on another fault of bytes.
fn version_sentence(fault: &ReadFault) -> &'static str
    ensures { result.now ≡ version_sentence fault.now }
{
    match fault {
        ReadFault::BadVersion { .. } =>
            "BadVersion: the release takes no class of this version here",
        _ => read_sentence(fault),
    }
}

/// With a release, what is said of a constant of another kind than it should be, and of what stands twice; the sentence
/// on another rule.
fn kind_sentence(rule: FormRule) -> &'static str
    ensures { result.now ≡ kind_sentence rule }
{
    match rule {
        FormRule::WrongKind =>
            "WrongKind: an index leads to another kind of constant than it should, or a constant stands in a class of a version that has none of its kind",
        FormRule::Twice =>
            "Twice: an earlier field or method has this name and descriptor, or an interface is listed twice",
        _ => rule_sentence(rule),
    }
}

/// The sentence on a file that is refused, whose class may have the versions of a release.
fn release_sentence(fault: &FileFault) -> &'static str
    ensures { result.now ≡ release_sentence fault.now }
{
    match fault {
        FileFault::OutOfMemory => "OutOfMemory: memory ran out",
        FileFault::Unread(fault) => read_sentence(fault),
        FileFault::NoClass(fault) => version_sentence(fault),
        FileFault::Malformed { rule, .. } => kind_sentence(*rule),
    }
}

/// The sentence on a file that is refused.
fn plain_sentence(fault: &FileFault) -> &'static str
    ensures { result.now ≡ sentence (file_fault_number fault.now) }
{
    match fault {
        FileFault::OutOfMemory => "OutOfMemory: memory ran out",
        FileFault::Unread(fault) | FileFault::NoClass(fault) => read_sentence(fault),
        FileFault::Malformed { rule, .. } => rule_sentence(*rule),
    }
}

/// The number of the refusal of a file.
fn number_of_refusal(fault: &FileFault) -> u8
    ensures { result ≡ file_fault_number fault.now }
{
    match fault {
        FileFault::OutOfMemory => 1,
        FileFault::Unread(fault) | FileFault::NoClass(fault) => fault.number(),
        FileFault::Malformed { rule, .. } => rule.number(),
    }
}

/// The line that says why a file is refused, whose class may have these versions.
#[derive(Clone, Copy)]
pub struct FileSentence {
    /// Why it is refused.
    pub fault: FileFault,
    /// The versions that its class may have.
    pub versions: Versions,
}

impl FileSentence {
    /// The sentence.
    fn text(&self) -> &'static str
        ensures { result.now ≡ file_sentence self.now.versions self.now.fault }
    {
        match self.versions {
            Versions::Java7To17 => plain_sentence(&self.fault),
            Versions::Release { .. } => release_sentence(&self.fault),
        }
    }
}

impl Print for FileSentence {
    ghost text = { λ t. file_sentence_line t.versions t.fault };

    fn put<W: Write>(&self, out: &mut W) -> Result<(), WriteFailed> {
        NumberedLine {
            number: number_of_refusal(&self.fault),
            text: self.text(),
        }
        .put(out)
    }
}

/// The line that says why classes are no hierarchy.
#[derive(Clone, Copy)]
pub struct HierarchySentence<'a>(pub HierarchyFault<'a>);

impl<'a> Print for HierarchySentence<'a> {
    ghost text = { λ t. sentence_line (number_of t.0) };

    fn put<W: Write>(&self, out: &mut W) -> Result<(), WriteFailed> {
        NumberedLine {
            number: self.0.number(),
            text: hierarchy_sentence(&self.0),
        }
        .put(out)
    }
}

/// The line on a rule on final classes and methods.
#[derive(Clone, Copy)]
pub struct FinalSentence(pub FinalRule);

impl Print for FinalSentence {
    ghost text = { λ t. sentence_line (final_rule_number t.0) };

    fn put<W: Write>(&self, out: &mut W) -> Result<(), WriteFailed> {
        NumberedLine {
            number: self.0.number(),
            text: final_sentence(self.0),
        }
        .put(out)
    }
}

/// The line on the fault of a stack map or of code that has this number.
#[derive(Clone, Copy)]
struct FaultSentence(u8);

impl Print for FaultSentence {
    ghost text = { λ t. fault_line t.0 };

    fn put<W: Write>(&self, out: &mut W) -> Result<(), WriteFailed> {
        NumberedLine {
            number: self.0,
            text: fault_sentence(self.0),
        }
        .put(out)
    }
}

/// The line on the fault of a stack map or of code, where a reason has one.
#[derive(Clone, Copy)]
struct ReasonFault<'a>(Reason<'a>);

impl<'a> Print for ReasonFault<'a> {
    ghost text = { λ t. fault_lines t.0 };

    fn put<W: Write>(&self, out: &mut W) -> Result<(), WriteFailed> {
        match self.0 {
            Reason::BadStackMap { fault } => FaultSentence(fault).put(out),
            Reason::BadCode { fault } => FaultSentence(fault).put(out),
            _ => Word("").put(out),
        }
    }
}

/// The lines that say why a method is refused.
#[derive(Clone, Copy)]
pub struct ReasonSentences<'a>(pub Reason<'a>);

impl<'a> Print for ReasonSentences<'a> {
    ghost text = { λ t. reason_lines t.0 };

    fn put<W: Write>(&self, out: &mut W) -> Result<(), WriteFailed> {
        let line = NumberedLine {
            number: self.0.number(),
            text: reason_sentence(&self.0),
        };
        Then(line, ReasonFault(self.0)).put(out)
    }
}

/// The sentence on the refusal of a file as a field, and then the text after it.
#[derive(Clone, Copy)]
pub struct FileSentenceFields<B>(pub FileSentence, pub B);

impl<B: Print + Copy> Print for FileSentenceFields<B> {
    ghost text = { λ t. fields_then (file_sentence_fields t.0.versions t.0.fault) (B.text t.1) };

    fn put<W: Write>(&self, out: &mut W) -> Result<(), WriteFailed> {
        More("sentence", Quoted(self.0.text()), self.1).put(out)
    }
}

/// The sentence on a fault of a hierarchy as the last field of an object.
#[derive(Clone, Copy)]
pub struct HierarchySentenceField<'a>(pub HierarchyFault<'a>);

impl<'a> Print for HierarchySentenceField<'a> {
    ghost text = { λ t. fields_behind (sentence_fields (number_of t.0)) };

    fn put<W: Write>(&self, out: &mut W) -> Result<(), WriteFailed> {
        More("sentence", Quoted(hierarchy_sentence(&self.0)), END).put(out)
    }
}

/// The sentence on a rule on final classes and methods as a field, and then the text after it.
#[derive(Clone, Copy)]
pub struct FinalSentenceField<B>(pub FinalRule, pub B);

impl<B: Print + Copy> Print for FinalSentenceField<B> {
    ghost text = { λ t. fields_then (sentence_fields (final_rule_number t.0)) (B.text t.1) };

    fn put<W: Write>(&self, out: &mut W) -> Result<(), WriteFailed> {
        More("sentence", Quoted(final_sentence(self.0)), self.1).put(out)
    }
}

/// The sentence on the fault of a stack map or of code as a field, where a reason has one, and then the text after it.
#[derive(Clone, Copy)]
struct FaultSentenceFields<'a, B>(Reason<'a>, B);

impl<'a, B: Print + Copy> Print for FaultSentenceFields<'a, B> {
    ghost text = { λ t. fields_then (fault_sentence_fields t.0) (B.text t.1) };

    fn put<W: Write>(&self, out: &mut W) -> Result<(), WriteFailed> {
        match self.0 {
            Reason::BadStackMap { fault } => {
                More("fault_sentence", Quoted(fault_sentence(fault)), self.1).put(out)
            }
            Reason::BadCode { fault } => {
                More("fault_sentence", Quoted(fault_sentence(fault)), self.1).put(out)
            }
            _ => self.1.put(out),
        }
    }
}

/// The sentences that say why a method is refused, as fields, and then the text after them.
#[derive(Clone, Copy)]
pub struct ReasonSentenceFields<'a, B>(pub Reason<'a>, pub B);

impl<'a, B: Print + Copy> Print for ReasonSentenceFields<'a, B> {
    ghost text = { λ t. fields_then (reason_sentence_fields t.0) (B.text t.1) };

    fn put<W: Write>(&self, out: &mut W) -> Result<(), WriteFailed> {
        let fault = FaultSentenceFields(self.0, self.1);
        More("sentence", Quoted(reason_sentence(&self.0)), fault).put(out)
    }
}
