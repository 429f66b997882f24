use crate::declaring::{Declared, Row, declaring, place_in};
use crate::making::{hasher, object};
use hierarchy::{
    Classes, HierarchyFault, Kind, MemberPlaces, MemberRef, Overriding, Prepared, References, Rows,
    Summary, guarded,
};
use names::OBJECT;
use std::alloc::{AllocError, Global};
use std::test::*;

/// A field of type int.
macro_rules! field {
    ($name:expr, $is_protected:expr) => {
        Declared {
            kind: Kind::Field,
            name: $name,
            descriptor: b"I",
            is_static: false,
            is_protected: $is_protected,
            overriding: Overriding::Apart,
        }
    };
}

/// Four protected members, one of them static and one a method.
const OF_Q: [Declared<'static>; 4] = [
    field!(b"x", true),
    field!(b"y", true),
    Declared {
        kind: Kind::Field,
        name: b"s",
        descriptor: b"I",
        is_static: true,
        is_protected: true,
        overriding: Overriding::Apart,
    },
    Declared {
        kind: Kind::Method,
        name: b"m",
        descriptor: b"()V",
        is_static: false,
        is_protected: true,
        overriding: Overriding::Apart,
    },
];

/// `p/Q` and `p/P` below it declare members, of which one is public in between, and below that are classes of four
/// packages. `B`, which declares members too, is in the package without a name, as is `L` below it.
const CLASSES: [Row<'static>; 9] = [
    (b"p/Q", OBJECT, &OF_Q),
    (b"p/P", b"p/Q", &[field!(b"y", false)]),
    (b"p/K", b"p/P", &[]),
    (b"q/K", b"p/P", &[]),
    (b"p/q/K", b"p/P", &[]),
    (b"K", b"p/P", &[]),
    (b"B", OBJECT, &[field!(b"z", true)]),
    (b"L", b"B", &[]),
    (b"p/L", b"B", &[]),
];

/// The summaries of `java/lang/Object` and of those classes.
fn summaries(alloc: Global) -> Result<Vec<Summary<'static>>, AllocError> {
    let mut list = Vec::new(alloc);
    list.push(object(alloc))?;
    for row in &CLASSES {
        list.push(declaring(alloc, row)?)?;
    }
    Ok(list)
}

/// A reference by its texts.
#[derive(Clone, Copy)]
struct Asked<'a> {
    class: &'a [u8],
    kind: Kind,
    name: &'a [u8],
    descriptor: &'a [u8],
}

/// Refers to a member.
fn refer<'a>(references: &mut References<'a>, asked: &Asked<'a>) -> Result<(), AllocError> {
    let class = place_in(&mut references.classes, asked.class)?;
    let name = place_in(&mut references.texts, asked.name)?;
    let descriptor = place_in(&mut references.texts, asked.descriptor)?;
    references.members.push(MemberRef {
        class,
        places: MemberPlaces {
            kind: asked.kind,
            name,
            descriptor,
        },
    })?;
    Ok(())
}

/// The references to these members.
fn references_to<'a>(alloc: Global, members: &[Asked<'a>]) -> Result<References<'a>, AllocError> {
    let mut references = References {
        classes: Vec::new(alloc),
        texts: Vec::new(alloc),
        members: Vec::new(alloc),
    };
    for asked in members {
        refer(&mut references, asked)?;
    }
    Ok(references)
}

/// A reference to a field of type int.
macro_rules! field_of {
    ($class:expr, $name:expr) => {
        Asked {
            class: $class,
            kind: Kind::Field,
            name: $name,
            descriptor: b"I",
        }
    };
}

/// A declaration two classes up, and one that is public in between; a static one; a method; other descriptors and
/// kinds; the own class K, one below it and one beside it; and a class above that declares nothing.
const REFERENCES: [Asked<'static>; 12] = [
    field_of!(b"p/P", b"x"),
    field_of!(b"p/Q", b"x"),
    field_of!(b"p/P", b"y"),
    field_of!(b"p/Q", b"y"),
    field_of!(b"p/P", b"s"),
    Asked {
        class: b"p/P",
        kind: Kind::Method,
        name: b"m",
        descriptor: b"()V",
    },
    Asked {
        class: b"p/P",
        kind: Kind::Field,
        name: b"m",
        descriptor: b"()V",
    },
    Asked {
        class: b"p/P",
        kind: Kind::Field,
        name: b"x",
        descriptor: b"J",
    },
    field_of!(b"K", b"x"),
    field_of!(b"q/K", b"x"),
    field_of!(b"B", b"z"),
    field_of!(OBJECT, b"x"),
];

/// The references of a class, and which of them are guarded.
struct Expected<'e> {
    class: &'e [u8],
    references: &'e [Asked<'e>],
    guarded: &'e [bool],
}

/// Whether these classes guard the references of a class as it is expected.
fn guard<C: Classes>(
    alloc: Global,
    classes: &C,
    expected: &Expected<'_>,
) -> Result<bool, AllocError> {
    let references = references_to(alloc, expected.references)?;
    let answers = guarded(alloc, classes, expected.class, &references)?;
    Ok(answers.as_slice() == expected.guarded)
}

/// Whether they do so where what all classes of the list inherit was found before.
fn guard_prepared<C: Classes>(
    alloc: Global,
    classes: &C,
    list: &[Summary<'_>],
    expected: &Expected<'_>,
) -> Result<bool, AllocError> {
    let names: Vec<&[u8]> = list.iter().map(|it| it.name).collect(alloc)?;
    let prepared = Prepared::new(alloc, classes, &names)?;
    guard(alloc, &prepared, expected)
}

/// Whether the references of a class are guarded as it is expected.
fn are_guarded(alloc: Global, expected: &Expected<'_>) -> Result<bool, AllocError> {
    let list = summaries(alloc)?;
    match Rows::new(alloc, &list, hasher()) {
        Ok(classes) => Ok(
            guard(alloc, &classes, expected)? && guard_prepared(alloc, &classes, &list, expected)?,
        ),
        Err(HierarchyFault::OutOfMemory) => Err(AllocError),
        Err(_) => Ok(false),
    }
}

const ALL_KINDS: Expected<'static> = Expected {
    class: b"K",
    references: &REFERENCES,
    guarded: &[
        true, true, false, true, true, true, false, false, false, false, false, false,
    ],
};

#[test]
fn guarded_members(rt: HostRuntime) {
    assert!(rt; are_guarded(rt.alloc(), &ALL_KINDS) == Ok(true));
}

/// A class that asks one above it for a field, and whether the field is guarded.
macro_rules! expected {
    ($class:expr, $above:expr, $name:expr, $guarded:expr) => {
        Expected {
            class: $class,
            references: &[field_of!($above, $name)],
            guarded: &[$guarded],
        }
    };
}

const PACKAGES: [Expected<'static>; 6] = [
    expected!(b"p/K", b"p/P", b"x", false),
    expected!(b"q/K", b"p/P", b"x", true),
    expected!(b"p/q/K", b"p/P", b"x", true),
    expected!(b"K", b"p/P", b"x", true),
    expected!(b"L", b"B", b"z", false),
    expected!(b"p/L", b"B", b"z", true),
];

#[test]
fn packages(rt: HostRuntime) {
    for expected in &PACKAGES {
        assert!(rt; are_guarded(rt.alloc(), expected) == Ok(true));
    }
}

const ABSENT: Expected<'static> = expected!(b"q/A", b"p/P", b"x", false);

/// A class that is not in the list has no class above it.
#[test]
fn absent_class(rt: HostRuntime) {
    assert!(rt; are_guarded(rt.alloc(), &ABSENT) == Ok(true));
}

#[test]
fn memory_runs_out_for_guarded_members(rt: HostRuntime) {
    assert!(rt; are_guarded(rt.alloc(), &ALL_KINDS) != Ok(false));
}
