//! Why a class file is not well formed: the rule that is broken, and where.
ghost use Rattle.std.specs.Prelude.{◌≡◌};
ghost use Rattle.classfile.specs.Conditions.{rule_number};
ghost use Rattle.classfile.specs.WellFormed.{form_fault_number, form_fault_place};

use std::alloc::{AllocError, AllocFailed};
use thiserror::Error;

/// A rule of well-formed class files (JVMS 4.1 to 4.7).
#[derive(Clone, Copy, Debug, PartialEq, Eq)]
pub enum FormRule {
    /// 20: an index is 0 where it may not be, past the pool, or the second one of a Long or Double.
    BadIndex,
    /// 21: an index leads to another kind of constant, or a constant of its kind may not stand in a class of this major
    /// version.
    WrongKind,
    /// 22: a name is not of its form, or an array stands where none may (JVMS 4.2, 4.4.1, 4.4.2, 4.6).
    BadName,
    /// 23: a descriptor is not of its form or beyond its limits (JVMS 4.3).
    BadDescriptor,
    /// 24: access flags stand together that may not, or one stands without another that it needs (JVMS 4.1, 4.5, 4.6).
    BadFlags,
    /// 25: an earlier field (method) has this name and descriptor (JVMS 4.5, 4.6).
    Twice,
    /// 26: a method that needs one has no Code (JVMS 4.7.3).
    CodeMissing,
    /// 27: a method that may not have one has a Code (JVMS 4.7.3).
    CodeNotAllowed,
    /// 28: the superclass lacks, or is another than it may be (JVMS 4.1).
    BadSuper,
    /// 29: the length of code is not 1 to 65,535 bytes (JVMS 4.7.3, 4.9.1).
    BadCodeLength,
    /// 30: an attribute that may stand once stands twice (JVMS 4.7.3, 4.7.4).
    AttributeTwice,
    /// 87: a row of LineNumberTable, LocalVariableTable or LocalVariableTypeTable passes the code or the local
    /// variables, has a name or descriptor that is not of its form, or stands twice (JVMS 4.7.12 to 4.7.14); of a class
    /// that is read as a release has it.
    BadDebugTable,
    /// 90: the class has no bootstrap method for a constant, or one whose handle or arguments may not be used (JVMS
    /// 4.4.10, 4.7.23); of a class that is read as a release has it.
    BadBootstrap,
}

impl FormRule {
    /// The number of the refusal.
    pub fn number(self) -> u8
        ensures { result ≡ rule_number self }
    {
        match self {
            FormRule::BadIndex => 20,
            FormRule::WrongKind => 21,
            FormRule::BadName => 22,
            FormRule::BadDescriptor => 23,
            FormRule::BadFlags => 24,
            FormRule::Twice => 25,
            FormRule::CodeMissing => 26,
            FormRule::CodeNotAllowed => 27,
            FormRule::BadSuper => 28,
            FormRule::BadCodeLength => 29,
            FormRule::AttributeTwice => 30,
            FormRule::BadDebugTable => 87,
            FormRule::BadBootstrap => 90,
        }
    }
}

/// A place of a class file. They follow one another in this order, and each kind of them by its number.
#[derive(Clone, Copy, Debug, PartialEq, Eq)]
pub enum Place {
    /// The entry of the constant pool at this index, from 1.
    Pool(usize),
    /// The class itself.
    Class,
    /// The field of this number, from 0.
    Field(usize),
    /// The method of this number, from 0.
    Method(usize),
}

/// Why a class file is not well formed.
#[derive(Clone, Copy, Debug, PartialEq, Eq, Error)]
pub enum FormFault {
    /// 1: memory ran out. It may stand in place of any other answer.
    #[error("refused 1")]
    OutOfMemory,
    /// 20 to 30, 87 and 90: the rule is broken at the place.
    #[error("refused {}", rule.number())]
    Broken { rule: FormRule, place: Place },
}

impl FormFault {
    /// The number of the refusal.
    pub fn number(&self) -> u8
        ensures { result ≡ form_fault_number self.now }
    {
        match self {
            FormFault::OutOfMemory => 1,
            FormFault::Broken { rule, .. } => rule.number(),
        }
    }

    /// Where the rule is broken; nowhere, where memory ran out.
    pub fn place(&self) -> Option<Place>
        ensures { result ≡ form_fault_place self.now }
    {
        match self {
            FormFault::OutOfMemory => None,
            FormFault::Broken { place, .. } => Some(*place),
        }
    }
}

impl From<AllocError> for FormFault {
    ghost use Rattle.classfile.specs.declared.form_fault.FormFault.TheVariants.{OutOfMemory};

    ghost from_gives = { λ _ e. e ≡ OutOfMemory };

    fn from(_e: AllocError) -> FormFault {
        FormFault::OutOfMemory
    }
}

impl<T: Drop> From<AllocFailed<T>> for FormFault {
    ghost use Rattle.classfile.specs.declared.form_fault.FormFault.TheVariants.{OutOfMemory};

    ghost from_gives = { λ _ e. e ≡ OutOfMemory };

    fn from(_e: AllocFailed<T>) -> FormFault {
        FormFault::OutOfMemory
    }
}
