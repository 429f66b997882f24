//! Single instructions of an instance initialization method, by their rules.
use classfile::{ClassFile, Formed, decode, form_check};
use format_calls::making::OUT_OF_MEMORY;
use frames::{Frame, VType};
use hierarchy::{Classes, Rows};
use insn::{Branches, Insn, decode_code};
use layout::MAX_CODE_BYTES;
use lower_calls::making::{CLONING, CONSTRUCTING, cloneable, frame, hasher, object};
use names::{Base, OBJECT};
use rules::{branches, falls};
use std::alloc::Global;
use std::test::*;
use verify::{After, Env, apply};

/// The frame that an instruction leaves, or the number of the reason for which it is refused.
type Judged<'a> = Result<After<'a>, u8>;

/// The class file of K with a method `<init>` of two local variables, with room for four units on the stack.
const INIT: [u8; 102] = [
    0xCA, 0xFE, 0xBA, 0xBE, 0, 0, 0, 0x34, 0, 8, 7, 0, 2, 1, 0, 1, 0x4B, 7, 0, 4, 1, 0, 0x10, 0x6A,
    0x61, 0x76, 0x61, 0x2F, 0x6C, 0x61, 0x6E, 0x67, 0x2F, 0x4F, 0x62, 0x6A, 0x65, 0x63, 0x74, 1, 0,
    6, 0x3C, 0x69, 0x6E, 0x69, 0x74, 0x3E, 1, 0, 3, 0x28, 0x29, 0x56, 1, 0, 4, 0x43, 0x6F, 0x64,
    0x65, 0, 0x21, 0, 1, 0, 3, 0, 0, 0, 0, 0, 1, 0, 0, 0, 5, 0, 6, 0, 1, 0, 7, 0, 0, 0, 0x0D, 0, 4,
    0, 2, 0, 0, 0, 1, 0xB1, 0, 0, 0, 0, 0, 0,
];

/// The class file of K with this byte as the method's code.
fn with(code: u8) -> [u8; 102] {
    let mut bytes = INIT;
    bytes[95] = code;
    bytes
}

/// The outcome of the rule on the first instruction.
fn apply_first<'a, C: Classes>(
    alloc: Global,
    env: &Env<'_, '_, 'a, C>,
    frame: &Frame<'a>,
) -> Judged<'a> {
    let [(_, first), ..] = env.list else {
        return Err(0);
    };
    if frame.locals.len() != usize::from(env.method.code.max_locals) {
        return Err(0);
    }
    match apply(alloc, env, 0, first, frame) {
        Ok(after) => Ok(after),
        Err(refusal) => Err(refusal.reason.number()),
    }
}

/// The outcome of the rule in the class's first method, where these are the classes.
fn judge_among<'a, C: Classes>(
    alloc: Global,
    formed: &Formed<'_, 'a>,
    classes: &C,
    frame: &Frame<'a>,
) -> Judged<'a> {
    if formed.class().methods.is_empty() {
        return Err(0);
    }
    let Some(method) = formed.method(0) else {
        return Err(0);
    };
    if method.code.code.len() > MAX_CODE_BYTES {
        return Err(0);
    }
    match decode_code(alloc, method.code.code) {
        Ok(list) => apply_first(alloc, &Env::new(formed, 0, &list, classes), frame),
        Err(_) => Err(OUT_OF_MEMORY),
    }
}

/// The outcome of the rule where `java/lang/Object` is the one class.
fn judge_of<'a>(alloc: Global, formed: &Formed<'_, 'a>, frame: &Frame<'a>) -> Judged<'a> {
    let alone = [object(alloc)];
    match Rows::new(alloc, &alone, hasher()) {
        Ok(classes) => judge_among(alloc, formed, &classes, frame),
        Err(_) => Err(OUT_OF_MEMORY),
    }
}

/// The outcome of the rule where Object has the method `clone`, which is protected, and K and A are below it.
fn judge_cloning<'a>(alloc: Global, formed: &Formed<'_, 'a>, frame: &Frame<'a>) -> Judged<'a> {
    let Ok(list) = cloneable(alloc) else {
        return Err(OUT_OF_MEMORY);
    };
    match Rows::new(alloc, &list, hasher()) {
        Ok(classes) => judge_among(alloc, formed, &classes, frame),
        Err(_) => Err(OUT_OF_MEMORY),
    }
}

/// The outcome of the rule where `clone` is called on an object of this type.
fn judge_clone<'a>(alloc: Global, object: VType<'a>) -> Judged<'a> {
    let before = frame(alloc, &[VType::Top, VType::Top], &[object], false);
    match (decode(alloc, &CLONING), before) {
        (Ok(class), Ok(before)) => match form_check(alloc, &class) {
            Ok(formed) => judge_cloning(alloc, &formed, &before),
            Err(_) => Err(OUT_OF_MEMORY),
        },
        _ => Err(OUT_OF_MEMORY),
    }
}

/// The outcome of the rule in the first method of a class file.
fn judge_class<'a>(alloc: Global, class: &ClassFile<'a>, frame: &Frame<'a>) -> Judged<'a> {
    match form_check(alloc, class) {
        Ok(formed) => judge_of(alloc, &formed, frame),
        Err(_) => Err(OUT_OF_MEMORY),
    }
}

/// The outcome of the rule on the instruction in `<init>` of this class file, before which these types stand on the
/// stack and nothing is known of the local variables.
fn judge<'a>(alloc: Global, bytes: &'a [u8], stack: &[VType<'a>], flag: bool) -> Judged<'a> {
    let before = frame(alloc, &[VType::Top, VType::Top], stack, flag);
    match (decode(alloc, bytes), before) {
        (Ok(class), Ok(before)) => judge_class(alloc, &class, &before),
        _ => Err(OUT_OF_MEMORY),
    }
}

/// Whether these types then stand on the stack, and it goes on.
fn leaves(judged: Judged<'_>, stack: &[VType<'_>]) -> bool {
    match judged {
        Ok(after) => { after.falls && !after.own && after.frame.stack.as_slice() == stack }
        Err(_) => false,
    }
}

#[test]
fn stacks(rt: HostRuntime) {
    let alloc = rt.alloc();
    let (swap, dup_x1, iadd) = (with(0x5F), with(0x5A), with(0x60));
    let swapped = judge(alloc, &swap, &[VType::Int, VType::Null], false);
    assert!(rt; leaves(swapped, &[VType::Null, VType::Int]));
    let moved = judge(alloc, &dup_x1, &[VType::Null, VType::Float], false);
    assert!(rt; leaves(moved, &[VType::Float, VType::Null, VType::Float]));
    assert!(rt; matches!(judge(alloc, &iadd, &[VType::Int], false), Err(61)));
}

/// Whether these types are then in the local variables, and nothing is on the stack.
fn has_locals(judged: Judged<'_>, locals: &[VType<'_>]) -> bool {
    match judged {
        Ok(after) => after.frame.locals.as_slice() == locals && after.frame.stack.is_empty(),
        Err(_) => false,
    }
}

/// A long that is stored takes two local variables, of which there are two.
#[test]
fn stores(rt: HostRuntime) {
    let alloc = rt.alloc();
    let (istore_1, lstore_0, lstore_1) = (with(0x3C), with(0x3F), with(0x40));
    let stored = judge(alloc, &istore_1, &[VType::Int], false);
    assert!(rt; has_locals(stored, &[VType::Top, VType::Int]));
    let stored = judge(alloc, &lstore_0, &[VType::Long], false);
    assert!(rt; has_locals(stored, &[VType::Long, VType::Top]));
    assert!(rt; matches!(judge(alloc, &lstore_1, &[VType::Long], false), Err(64)));
}

/// Whether a `return` is taken, and does not go on; otherwise the number of the reason.
fn ends(alloc: Global, flag: bool) -> Result<bool, u8> {
    let after = judge(alloc, &INIT, &[], flag)?;
    Ok(!after.falls)
}

/// It may not return while `this` is uninitialized.
#[test]
fn returns(rt: HostRuntime) {
    assert!(rt; ends(rt.alloc(), false) == Ok(true));
    assert!(rt; ends(rt.alloc(), true) == Err(74));
}

/// Whether the own object is initialized then, and its reference taken.
fn readies(judged: Judged<'_>) -> bool {
    match judged {
        Ok(after) => after.own && !after.frame.flag && after.frame.stack.is_empty(),
        Err(_) => false,
    }
}

/// A constructor is called on the own object, and on no object that is initialized.
#[test]
fn constructors(rt: HostRuntime) {
    let alloc = rt.alloc();
    let called = judge(alloc, &CONSTRUCTING, &[VType::UninitThis], true);
    assert!(rt; readies(called));
    let ready = judge(alloc, &CONSTRUCTING, &[VType::Class(b"K")], false);
    assert!(rt; matches!(ready, Err(62)));
    assert!(rt; matches!(judge(alloc, &CONSTRUCTING, &[], true), Err(61)));
}

/// The number by which a call of `clone` on an object of this type is refused; none where it leaves what it returns.
fn clone_refusal(alloc: Global, object: VType<'_>) -> Option<u8> {
    match judge_clone(alloc, object) {
        Err(number) => Some(number),
        judged => if leaves(judged, &[VType::Class(OBJECT)]) {
            None
        } else {
            Some(0)
        },
    }
}

/// A protected member of another package is used on objects of the current class alone, which no array is.
const CLONED: [(VType<'static>, Option<u8>); 6] = [
    (VType::Class(b"K"), None),
    (VType::Null, None),
    (VType::Class(b"A"), Some(82)),
    (VType::Class(b"B"), Some(77)),
    (
        VType::Array {
            dims: 1,
            base: Base::Class(b"K"),
        },
        Some(82),
    ),
    (VType::Int, Some(62)),
];

#[test]
fn protected_members(rt: HostRuntime) {
    for (object, refusal) in &CLONED {
        assert!(rt; clone_refusal(rt.alloc(), *object) == *refusal);
    }
}

/// Whether a `goto`, a `nop` and a `jsr` go the right ways. After `jsr`, which has no rule, code may go on.
fn are_ways(list: &[(u16, Insn<'_>)]) -> bool {
    match list {
        [(_, goto), (_, nop), (_, jsr)] => {
            !falls(goto)
                && falls(nop)
                && falls(jsr)
                && matches!(branches(goto), Branches::One(3))
                && matches!(branches(nop), Branches::Nowhere)
        }
        _ => false,
    }
}

fn has_ways(alloc: Global) -> bool {
    match decode_code(alloc, &[0xA7, 0, 3, 0x00, 0xA8, 0, 3]) {
        Ok(list) => are_ways(&list),
        Err(_) => false,
    }
}

#[test]
fn ways(rt: HostRuntime) {
    assert!(rt; has_ways(rt.alloc()));
}

const CODES: [u8; 8] = [0x00, 0x03, 0x09, 0x1B, 0x57, 0x5C, 0x79, 0xAC];

/// With memory enough no answer says that it ran out.
#[test]
fn each_rule_answers(rt: HostRuntime) {
    for code in &CODES {
        let bytes = with(*code);
        assert!(rt;
            !matches!(
                judge(rt.alloc(), &bytes, &[VType::Int], false),
                Err(OUT_OF_MEMORY)
            )
        );
    }
}

fn is_judged_or_memory(alloc: Global) -> bool {
    let iconst_0 = with(0x03);
    match judge(alloc, &iconst_0, &[], false) {
        Ok(after) => after.frame.stack.len() == 1,
        Err(number) => number == OUT_OF_MEMORY,
    }
}

#[test]
fn want_of_memory(rt: HostRuntime) {
    assert!(rt; is_judged_or_memory(rt.alloc()));
}
