//! The constants that instructions name, their ways, the first operand that a frame lacks, and reasons together.
use crate::making::{B, CLONING, CONSTRUCTING, cloneable, frame, hasher};
use classfile::{ClassFile, CodeMethod, Formed, decode, form_check};
use format_calls::making::OUT_OF_MEMORY;
use frames::{CodeStarts, VType};
use hierarchy::{Answer, Classes, Rows};
use insn::{Act, Branches, Kind, StackOperator};
use layout::MAX_CODE_BYTES;
use names::{Base, FieldType, Primitive};
use rules::{
    ClassConstants, ExpectedTypes, Reason, Unmet, branches_by, check_object, first_reason,
    first_unmet, goes_on, is_constructor, is_plain, number_of_result, own_class, special_index,
    together, typing_rules_go_as_acts, units_taken, used_by,
};
use std::alloc::{AllocError, Global};
use std::test::*;

/// Something that is asked in the first method of a class.
#[derive(Clone, Copy)]
enum Asked<'a> {
    /// Whether a frame with this type on the stack lacks the one operand that a call of `clone` takes.
    Lacks(VType<'a>),
    /// Whether a call of `clone` uses it on the object on top of the stack.
    Uses,
    /// Whether the constant of a constructor is that of one.
    Constructs,
    /// Whether the constant of a constructor is no field of the class itself, and asks for no bootstrap method.
    NamesMethod,
    /// Whether the class is K.
    IsOfK,
}

type Judged = Result<bool, AllocError>;

/// A call of `clone`, and of the constructor of Object, by their constants in the class files.
const CLONE: Act<'static> = Act::InvokeVirtual { index: 11 };

const CONSTRUCT: Act<'static> = Act::InvokeSpecial { index: 9 };

/// Whether the constant of the constructor is no field of the class itself, and asks for no bootstrap method.
fn names_method<'a, C: Classes>(alloc: Global, method: &CodeMethod<'_, 'a>, classes: &C) -> Judged {
    let mut constants = ClassConstants::new(alloc, method.class, classes);
    let own = constants.sets_own(method, 9)?;
    Ok(!own && constants.members.is_bootstrapped(method, 9)?)
}

/// Whether `invokespecial` of the constructor of Object calls a constructor.
fn constructs<'a, C: Classes>(alloc: Global, method: &CodeMethod<'_, 'a>, classes: &C) -> Judged {
    let mut constants = ClassConstants::new(alloc, method.class, classes);
    let named = constants.named(method, &CONSTRUCT)?;
    match named.method() {
        Some(called) => Ok(is_constructor(called)),
        None => Ok(false),
    }
}

/// Whether a call of `clone` uses it on the object on top of the stack.
fn uses<'a, C: Classes>(alloc: Global, method: &CodeMethod<'_, 'a>, classes: &C) -> Judged {
    let mut constants = ClassConstants::new(alloc, method.class, classes);
    let named = constants.named(method, &CLONE)?;
    match used_by(method, &CLONE, &named) {
        Some(member) => Ok(member.index == 11 && member.above == 0),
        None => Ok(false),
    }
}

/// Whether the frame with this type on the stack lacks the one operand that a call of `clone` of Object takes.
fn lacks<'a, C: Classes>(
    alloc: Global,
    method: &CodeMethod<'_, 'a>,
    classes: &C,
    object: VType<'a>,
) -> Judged {
    let mut constants = ClassConstants::new(alloc, method.class, classes);
    let named = constants.named(method, &CLONE)?;
    let types = ExpectedTypes::of(alloc, method, &CLONE, &named)?;
    is_unmet(alloc, method, classes, &types, object)
}

/// Whether the first of these expected types that the frame does not meet is that of the one operand.
fn is_unmet<'a, C: Classes>(
    alloc: Global,
    method: &CodeMethod<'_, 'a>,
    classes: &C,
    types: &ExpectedTypes<'a>,
    object: VType<'a>,
) -> Judged {
    let before = frame(alloc, &[VType::Top, VType::Top], &[object], false)?;
    if method.code.code.len() > MAX_CODE_BYTES {
        return Ok(false);
    }
    let Ok(starts) = CodeStarts::new(alloc, method.code.code) else {
        return Err(AllocError);
    };
    match first_unmet(method, &starts, types, &before, classes) {
        Some(Unmet::Operand { wrong, count }) => Ok(wrong.place == 1 && count == 1),
        _ => Ok(false),
    }
}

fn ask_in<'a, C: Classes>(
    alloc: Global,
    method: &CodeMethod<'_, 'a>,
    classes: &C,
    asked: Asked<'a>,
) -> Judged {
    match asked {
        Asked::Lacks(object) => lacks(alloc, method, classes, object),
        Asked::Uses => uses(alloc, method, classes),
        Asked::Constructs => constructs(alloc, method, classes),
        Asked::NamesMethod => names_method(alloc, method, classes),
        Asked::IsOfK => Ok(own_class(method) == b"K".as_slice()),
    }
}

/// The answer in the first method of a class, where these are the classes.
fn ask_among<'a, C: Classes>(
    alloc: Global,
    formed: &Formed<'_, 'a>,
    classes: &C,
    asked: Asked<'a>,
) -> Result<bool, u8> {
    if formed.class().methods.is_empty() {
        return Err(0);
    }
    let Some(method) = formed.method(0) else {
        return Err(0);
    };
    match ask_in(alloc, &method, classes, asked) {
        Ok(answer) => Ok(answer),
        Err(_) => Err(OUT_OF_MEMORY),
    }
}

/// The answer where Object has the method `clone`, which is protected, and K and A are below it.
fn ask_formed<'a>(alloc: Global, formed: &Formed<'_, 'a>, asked: Asked<'a>) -> Result<bool, u8> {
    let Ok(list) = cloneable(alloc) else {
        return Err(OUT_OF_MEMORY);
    };
    match Rows::new(alloc, &list, hasher()) {
        Ok(classes) => ask_among(alloc, formed, &classes, asked),
        Err(_) => Err(OUT_OF_MEMORY),
    }
}

fn ask_class<'a>(alloc: Global, class: &ClassFile<'a>, asked: Asked<'a>) -> Result<bool, u8> {
    match form_check(alloc, class) {
        Ok(formed) => ask_formed(alloc, &formed, asked),
        Err(_) => Err(OUT_OF_MEMORY),
    }
}

/// The answer in `<init>` of the class file K.
fn ask<'a>(alloc: Global, bytes: &'a [u8], asked: Asked<'a>) -> Result<bool, u8> {
    match decode(alloc, bytes) {
        Ok(class) => ask_class(alloc, &class, asked),
        Err(_) => Err(OUT_OF_MEMORY),
    }
}

/// A class file, something that is asked of it, and the answer.
type Row<'a> = (&'a [u8], Asked<'a>, bool);

fn are_answered(alloc: Global, rows: &[Row<'_>]) -> bool {
    for (bytes, asked, answer) in rows {
        if ask(alloc, *bytes, *asked) != Ok(*answer) {
            return false;
        }
    }
    true
}

const ABOUT_NAMES: [Row<'static>; 4] = [
    (&CLONING, Asked::Uses, true),
    (&CONSTRUCTING, Asked::Constructs, true),
    (&CONSTRUCTING, Asked::NamesMethod, true),
    (&CONSTRUCTING, Asked::IsOfK, true),
];

#[test]
fn named_methods(rt: HostRuntime) {
    assert!(rt; are_answered(rt.alloc(), &ABOUT_NAMES));
    assert!(rt; special_index(&CONSTRUCT) == Some(9));
    assert!(rt; special_index(&CLONE).is_none());
}

const GOTO: Act<'static> = Act::Goto { offset: 3 };

const STORE: Act<'static> = Act::StoreReference { local: 1 };

/// The ways of a `goto`, a `store` and an `invokespecial`.
#[test]
fn ways_of_acts(rt: HostRuntime) {
    typing_rules_go_as_acts();
    assert!(rt; !goes_on(&GOTO) && goes_on(&CONSTRUCT) && goes_on(&STORE));
    assert!(rt; matches!(branches_by(&GOTO), Branches::One(3)));
    assert!(rt; matches!(branches_by(&CONSTRUCT), Branches::Nowhere));
}

const STORE_INT: Act<'static> = Act::Store {
    kind: Kind::Int,
    local: 1,
};

const NEW: Act<'static> = Act::New { index: 1 };

/// A `new` is not plain, since what the locals hold of its last object is forgotten.
#[test]
fn plain_instructions(rt: HostRuntime) {
    assert!(rt; is_plain(&STORE_INT) && !is_plain(&NEW) && !is_plain(&GOTO));
}

/// A byte is computed as an int; an array is no number. `dup2` takes two units.
#[test]
fn results_and_units(rt: HostRuntime) {
    let (base, dims) = (Base::Primitive(Primitive::Byte), 0);
    assert!(rt; number_of_result(Some(FieldType { dims, base })) == Some(Kind::Int));
    assert!(rt; number_of_result(Some(FieldType { dims: 1, base })).is_none());
    assert!(rt; units_taken(StackOperator::Dup2.forms()) == 2);
}

const ABOUT_OPERANDS: [Row<'static>; 3] = [
    (&CLONING, Asked::Lacks(VType::Int), true),
    (&CLONING, Asked::Lacks(VType::Class(b"K")), false),
    (&CLONING, Asked::Lacks(B), false),
];

/// Whether an object of a missing class may be the operand is not known, so nothing is found.
#[test]
fn first_operand_that_is_not_met(rt: HostRuntime) {
    assert!(rt; are_answered(rt.alloc(), &ABOUT_OPERANDS));
}

const OPERAND: Reason<'static> = Reason::WrongOperand;

const MEMBER: Reason<'static> = Reason::ProtectedMember;

type Outcome<'a> = Result<(), Reason<'a>>;

/// Two outcomes, and the one of both together.
const TOGETHER: [(Outcome<'static>, Outcome<'static>, Outcome<'static>); 5] = [
    (Err(OPERAND), Ok(()), Err(OPERAND)),
    (Err(MEMBER), Err(OPERAND), Err(OPERAND)),
    (Err(OPERAND), Err(MEMBER), Err(OPERAND)),
    (Ok(()), Err(MEMBER), Err(MEMBER)),
    (Ok(()), Ok(()), Ok(())),
];

/// Whether these are the outcomes of two; where the first is a reason, that is the first of it and the other outcome.
fn are_together(rows: &[(Outcome<'_>, Outcome<'_>, Outcome<'_>)]) -> bool {
    for (one, other, both) in rows {
        let first = match one {
            Ok(()) => *both,
            Err(reason) => Err(first_reason(*reason, *other)),
        };
        if together(*one, *other) != *both || first != *both {
            return false;
        }
    }
    true
}

/// Whether an object may be used, and the outcome.
const OBJECTS: [(Answer<'static>, Outcome<'static>); 3] = [
    (Answer::Yes, Ok(())),
    (Answer::No, Err(MEMBER)),
    (Answer::Missing(b"B"), Err(Reason::ClassMissing(b"B"))),
];

fn are_checked(rows: &[(Answer<'_>, Outcome<'_>)]) -> bool {
    for (answer, outcome) in rows {
        if check_object(*answer) != *outcome {
            return false;
        }
    }
    true
}

#[test]
fn lesser_reasons(rt: HostRuntime) {
    assert!(rt; are_together(&TOGETHER));
    assert!(rt; are_checked(&OBJECTS));
}

/// Where memory runs out the reason is 1.
#[test]
fn memory_runs_out_for_members(rt: HostRuntime) {
    let told = ask(rt.alloc(), &CLONING, Asked::Lacks(VType::Int));
    assert!(rt; told == Ok(true) || told == Err(OUT_OF_MEMORY));
    let told = ask(rt.alloc(), &CONSTRUCTING, Asked::NamesMethod);
    assert!(rt; told == Ok(true) || told == Err(OUT_OF_MEMORY));
}
