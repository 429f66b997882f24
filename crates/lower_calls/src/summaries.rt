use crate::declaring::{Declared, declaring};
use hierarchy::{Kind, MemberSummary, Overriding, Summary, Texts, same_summary};
use names::{OBJECT, check_text};
use pool::{Constant, Pool};
use std::alloc::{AllocError, Global};
use std::test::*;

const X: Declared<'static> = Declared {
    kind: Kind::Field,
    name: b"x",
    descriptor: b"I",
    is_static: false,
    is_protected: true,
    overriding: Overriding::Apart,
};

/// The field X and members that differ from it in one part each.
const MEMBERS: [Declared<'static>; 9] = [
    X,
    Declared { name: b"y", ..X },
    Declared {
        descriptor: b"J",
        ..X
    },
    Declared {
        kind: Kind::Method,
        ..X
    },
    Declared {
        is_static: true,
        ..X
    },
    Declared {
        is_protected: false,
        ..X
    },
    Declared {
        overriding: Overriding::Open,
        ..X
    },
    Declared {
        overriding: Overriding::FinalInPackage,
        ..X
    },
    Declared {
        overriding: Overriding::Final,
        ..X
    },
];

/// The class K with these members.
fn class_k<'a>(alloc: Global, members: &'a [Declared<'a>]) -> Result<Summary<'a>, AllocError> {
    declaring(alloc, &(b"K", OBJECT, members))
}

/// The summary with its texts from the last to the first.
fn turned<'a>(alloc: Global, class: &Summary<'a>) -> Result<Summary<'a>, AllocError> {
    let last = class.texts.len().saturating_sub(1);
    let mut texts = Vec::new(alloc);
    for place in 0..class.texts.len() {
        let other = last.saturating_sub(place);
        if other < class.texts.len() {
            texts.push(class.texts[other])?;
        }
    }
    let mut members = Vec::new(alloc);
    for member in &class.members {
        let mut places = member.places;
        places.name = last.saturating_sub(places.name);
        places.descriptor = last.saturating_sub(places.descriptor);
        members.push(MemberSummary { places, ..*member })?;
    }
    Ok(Summary {
        name: class.name,
        superclass: class.superclass,
        interface: class.interface,
        is_final: class.is_final,
        texts,
        members,
    })
}

/// Whether the summary of a class is the same where its texts stand in another order, and no longer where a member is
/// gone.
fn is_compared(alloc: Global) -> Result<bool, AllocError> {
    let one = class_k(alloc, &MEMBERS)?;
    let other = turned(alloc, &one)?;
    let fewer = class_k(alloc, &MEMBERS[..5])?;
    Ok(
        same_summary(alloc, &one, &one)?
            && same_summary(alloc, &one, &other)?
            && !same_summary(alloc, &one, &fewer)?,
    )
}

/// Whether a class with one of these members is the same as one with another.
fn is_same(
    alloc: Global,
    one: &Declared<'static>,
    other: &Declared<'static>,
) -> Result<bool, AllocError> {
    let members = [*one];
    let others = [*other];
    same_summary(alloc, &class_k(alloc, &members)?, &class_k(alloc, &others)?)
}

#[test]
fn same_summaries(rt: HostRuntime) {
    assert!(rt; is_compared(rt.alloc()) == Ok(true));
    for (one, member) in MEMBERS.iter().enumerate() {
        for (other, beside) in MEMBERS.iter().enumerate() {
            assert!(rt; is_same(rt.alloc(), member, beside) == Ok(one == other));
        }
    }
}

#[test]
fn memory_runs_out_for_same_summaries(rt: HostRuntime) {
    assert!(rt; is_compared(rt.alloc()) != Ok(false));
}

/// A text that is long enough to be kept once.
const LONG: [u8; 65] = [b'n'; 65];

/// A pool of a short text and a long one.
fn pool_of_texts(alloc: Global) -> Option<Pool<'static>> {
    let mut constants = Vec::new(alloc);
    constants.push(Constant::Utf8(check_text(b"K").ok()?)).ok()?;
    constants
        .push(Constant::Utf8(check_text(&LONG).ok()?))
        .ok()?;
    Some(Pool::new(constants))
}

/// Whether a long text is put in once, a short one each time, and an index of no text as the empty text.
fn are_kept_once(alloc: Global, pool: &Pool<'_>) -> Result<bool, AllocError> {
    let mut texts = Texts::with_room(alloc, 1)?;
    let long = texts.place(pool, 2)?;
    let short = texts.place(pool, 1)?;
    let again = texts.place(pool, 2)?;
    let more = texts.place(pool, 1)?;
    let none = texts.place(pool, 3)?;
    let wanted = [LONG.as_slice(), b"K", b"K", b""];
    Ok(
        (long, short, again, more, none) == (0, 1, 0, 2, 3)
            && texts.list.as_slice() == wanted.as_slice(),
    )
}

/// Whether it is so, or this where memory runs out.
fn texts_or(alloc: Global, or: bool) -> bool {
    let Some(pool) = pool_of_texts(alloc) else {
        return or;
    };
    match are_kept_once(alloc, &pool) {
        Ok(kept) => kept,
        Err(AllocError) => or,
    }
}

#[test]
fn texts_of_a_pool(rt: HostRuntime) {
    assert!(rt; texts_or(rt.alloc(), false));
}

#[test]
fn memory_runs_out_for_texts(rt: HostRuntime) {
    assert!(rt; texts_or(rt.alloc(), true));
}
