ghost use Rattle.std.specs.Prelude.{◌<◌, length};

use crate::making::{hasher, object, summary};
use hierarchy::{Answer, Chains, Classes, HierarchyFault, Rows, Summary};
use names::{CLONEABLE, OBJECT};
use std::alloc::{AllocError, Global};
use std::hash::{BuildHasher, BuildHasherDefault, Hasher};
use std::process::Abort;
use std::test::*;

/// `java/lang/Object`, C1 below it, and C2 to C6, each below the one before.
fn line<'a>(alloc: Global) -> [Summary<'a>; 7] {
    [
        object(alloc),
        summary(alloc, b"C1", Some(OBJECT), false),
        summary(alloc, b"C2", Some(b"C1"), false),
        summary(alloc, b"C3", Some(b"C2"), false),
        summary(alloc, b"C4", Some(b"C3"), false),
        summary(alloc, b"C5", Some(b"C4"), false),
        summary(alloc, b"C6", Some(b"C5"), false),
    ]
}

/// Two names, whether the first is the second or stands below it, and how many entries of rows are looked at.
type Question<'n> = (&'n [u8], &'n [u8], Answer<'n>, u32);

const QUESTIONS: [Question<'static>; 8] = [
    (b"C6", b"C1", Answer::Yes, 2),
    (b"C1", b"C6", Answer::No, 0),
    (b"B", b"B", Answer::Yes, 0),
    (b"B", b"C1", Answer::Missing(b"B"), 0),
    (b"C6", OBJECT, Answer::Yes, 2),
    (b"C5", b"C1", Answer::Yes, 1),
    (b"C6", b"C6", Answer::Yes, 0),
    (b"C6", b"B", Answer::No, 0),
];

fn are_climbed<'s, 'a, S: BuildHasher>(rows: &Rows<'s, 'a, S>, questions: &[Question<'_>]) -> bool {
    for (a, b, expected, looks) in questions {
        if rows.climb(*a, *b) != (*expected, *looks) || rows.is_subclass(*a, *b) != *expected {
            return false;
        }
    }
    true
}

/// Whether these are the ancestors of the class at a place of seven, at the distances 2 to the power of these numbers.
fn has_ancestors<'s, 'a, S: BuildHasher>(
    rows: &Rows<'s, 'a, S>,
    place: u16,
    numbers: [u8; 3],
    ancestors: [Option<u16>; 3],
) -> bool
    requires { place < length rows.now }
{
    let mut looks = 0;
    let [first, second, third] = numbers;
    let found = [
        rows.ancestor(place, first, &mut looks),
        rows.ancestor(place, second, &mut looks),
        rows.ancestor(place, third, &mut looks),
    ];
    found == ancestors && looks == 3
}

/// Checks the ancestors of seven classes.
fn check_ancestors<'s, 'a, S: BuildHasher>(rt: &impl Abort, rows: &Rows<'s, 'a, S>)
    requires { 6 < length rows.now }
{
    assert!(rt; has_ancestors(rows, 6, [0, 1, 2], [Some(5), Some(4), Some(2)]));
    assert!(rt; has_ancestors(rows, 6, [3, 255, 0], [None, None, Some(5)]));
    assert!(rt; has_ancestors(rows, 0, [0, 0, 0], [None, None, None]));
}

fn check_found<C: Classes>(rt: &impl Abort, classes: &C) {
    assert!(rt; classes.find(b"C4").is_some() && classes.find(b"B").is_none());
    assert!(rt; matches!(classes.is_interface(b"C4"), Some(false)));
}

#[test]
fn a_line_of_classes(rt: HostRuntime) {
    let list = line(rt.alloc());
    match Rows::new(rt.alloc(), &list, hasher()) {
        Ok(rows) => {
            assert!(rt; are_climbed(&rows, &QUESTIONS));
            check_ancestors(&rt, &rows);
            check_found(&rt, &rows);
        }
        Err(_) => panic!(rt; "a hierarchy"),
    }
}

/// The name of a class, that of its superclass, and whether it is an interface.
type Listed<'a> = (&'a [u8], Option<&'a [u8]>, bool);

fn listed<'a>(alloc: Global, classes: &[Listed<'a>]) -> Result<Vec<Summary<'a>>, AllocError> {
    let mut list = Vec::new(alloc);
    for (name, superclass, interface) in classes {
        list.push(summary(alloc, *name, *superclass, *interface))?;
    }
    Ok(list)
}

const TOP: Listed<'static> = (OBJECT, None, false);

/// Classes, and why they are refused.
type Refused<'a> = (&'a [Listed<'a>], HierarchyFault<'a>);

/// Whether both refuse the list for that.
fn is_refused(alloc: Global, refused: &Refused<'_>) -> Result<bool, AllocError> {
    let list = listed(alloc, refused.0)?;
    let expected = Some(refused.1);
    Ok(
        Rows::new(alloc, &list, hasher()).err() == expected
            && Chains::new(alloc, &list, hasher()).err() == expected,
    )
}

fn are_refused(alloc: Global, rows: &[Refused<'_>]) -> bool {
    for row in rows {
        if is_refused(alloc, row) != Ok(true) {
            return false;
        }
    }
    true
}

const CLASSES: [Refused<'static>; 4] = [
    (&[], HierarchyFault::NoObject),
    (&[TOP, TOP], HierarchyFault::ClassTwice { name: OBJECT }),
    (
        &[TOP, (b"A", Some(b"A"), false)],
        HierarchyFault::Cycle { name: b"A" },
    ),
    (
        &[TOP, (b"A", Some(b"B"), false)],
        HierarchyFault::SuperMissing { name: b"A" },
    ),
];

#[test]
fn what_is_refused(rt: HostRuntime) {
    assert!(rt; are_refused(rt.alloc(), &CLASSES));
}

const INTERFACES: [Refused<'static>; 2] = [
    (
        &[TOP, (CLONEABLE, Some(OBJECT), false)],
        HierarchyFault::BadArrayInterface { name: CLONEABLE },
    ),
    (
        &[TOP, (b"A", Some(OBJECT), false), (b"I", Some(b"A"), true)],
        HierarchyFault::InterfaceSuper { name: b"I" },
    ),
];

#[test]
fn interfaces_that_are_refused(rt: HostRuntime) {
    assert!(rt; are_refused(rt.alloc(), &INTERFACES));
}

/// A list of classes is refused 1 where memory runs out, and taken otherwise.
#[test]
fn memory_runs_out_for_rows(rt: HostRuntime) {
    let list = line(rt.alloc());
    assert!(rt;
        matches!(
            Rows::new(rt.alloc(), &list, hasher()).err(),
            None | Some(HierarchyFault::OutOfMemory)
        )
    );
}

/// The names of as many classes: a number of two bytes each.
fn numbers(alloc: Global, count: u16) -> Result<Vec<[u8; 2]>, AllocError> {
    (0..count).map(|number| number.to_be_bytes()).collect(alloc)
}

/// `java/lang/Object`, and classes of these names: each below the one after it, and the last below Object; or all
/// below Object.
fn many<'a>(
    alloc: Global,
    names: &'a [[u8; 2]],
    in_line: bool,
) -> Result<Vec<Summary<'a>>, AllocError> {
    let mut list = Vec::with_capacity(alloc, names.len())?;
    for (place, name) in names.iter().enumerate() {
        let above: &'a [u8] = match names.get(place.saturating_add(1)) {
            Some(next) if in_line => next,
            _ => OBJECT,
        };
        list.push(summary(alloc, name, Some(above), false))?;
    }
    list.push(object(alloc))?;
    Ok(list)
}

/// Whether the first of so many classes below `java/lang/Object` is below the last, and how many entries of rows are
/// looked at; or none where they are refused.
fn first_and_last<S: BuildHasher + Drop>(
    alloc: Global,
    count: u16,
    in_line: bool,
    hasher: S,
) -> Option<(bool, u32)> {
    let names = numbers(alloc, count).ok()?;
    let list = many(alloc, &names, in_line).ok()?;
    let rows = Rows::new(alloc, &list, hasher).ok()?;
    let (first, last) = (names.first()?, names.last()?);
    let (answer, looks) = rows.climb(first, last);
    Some((answer == Answer::Yes, looks))
}

#[test]
fn as_many_classes_as_there_may_be(rt: HostRuntime) {
    let alloc = rt.alloc();
    // 65,533 steps: 0xFFFD has fifteen digits 1
    assert!(rt; first_and_last(alloc, 65534, true, hasher()) == Some((true, 15)));
    assert!(rt; first_and_last(alloc, 65534, false, hasher()) == Some((false, 0)));
}

/// A hasher that gives every name one hash.
#[derive(Clone, Copy, Default, Drop)]
struct OneHash;

impl Hasher for OneHash {
    ghost write = { λ s _. s };

    ghost finish = { λ _. 0 };

    fn finish(&self) -> u64 {
        0
    }

    fn write(&mut self, _bytes: &[u8]) {}
}

/// Two names that stand twice.
const TWICE: [Listed<'static>; 5] = [
    TOP,
    (b"B", Some(OBJECT), false),
    (b"A", Some(OBJECT), false),
    (b"A", Some(OBJECT), false),
    (b"B", Some(OBJECT), false),
];

/// Whether the second name is the one that is found to stand twice.
fn is_told_apart(alloc: Global, one: BuildHasherDefault<OneHash>) -> Result<bool, AllocError> {
    let twice = listed(alloc, &TWICE)?;
    Ok(Rows::new(alloc, &twice, one).err() == Some(HierarchyFault::ClassTwice { name: b"B" }))
}

/// Classes with one hash for all names are told apart by the names.
#[test]
fn one_hash_for_all_names(rt: HostRuntime) {
    let alloc = rt.alloc();
    let one: BuildHasherDefault<OneHash> = BuildHasherDefault::new();
    // 15 steps, which has four digits 1
    assert!(rt; first_and_last(alloc, 16, true, one) == Some((true, 4)));
    assert!(rt; is_told_apart(alloc, one) == Ok(true));
}

/// One class more than there may be.
#[test]
fn too_many_classes(rt: HostRuntime) {
    let alloc = rt.alloc();
    assert!(rt; first_and_last(alloc, 65535, true, hasher()).is_none());
}
