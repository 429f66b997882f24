//! Methods that override a final one, among classes with and without what they inherit found in advance.
use crate::declaring::{Declared, Row, declaring};
use crate::making::{hasher, object};
use hierarchy::{
    Classes, HierarchyFault, Kind, Overriding, Prepared, Rows, Summary, laws, overriding_method,
};
use names::OBJECT;
use std::alloc::{AllocError, Global};
use std::test::*;

/// A method without parameters and result.
macro_rules! method {
    ($name:expr, $overriding:ident) => {
        Declared {
            kind: Kind::Method,
            name: $name,
            descriptor: b"()V",
            is_static: false,
            is_protected: false,
            overriding: Overriding::$overriding,
        }
    };
}

/// A method that a static or private one hides, one that is final in the package, and one that is final.
const OF_A: [Declared<'static>; 4] = [
    method!(b"hidden", Apart),
    method!(b"near", FinalInPackage),
    method!(b"open", Open),
    method!(b"last", Final),
];

/// `p/A` with those methods, and `p/B` and `q/B` below it, which declare none of them.
const ABOVE: [Row<'static>; 3] = [
    (b"p/A", OBJECT, &OF_A),
    (b"p/B", b"p/A", &[method!(b"other", Final)]),
    (b"q/B", b"p/A", &[method!(b"other", Final)]),
];

/// A class, and the first of its methods that overrides a final one.
type Expected = (Row<'static>, Option<usize>);

const FIELD: Declared<'static> = Declared {
    kind: Kind::Field,
    ..method!(b"last", Apart)
};

const EXPECTED: [Expected; 12] = [
    ((b"p/C", b"p/B", &[method!(b"last", Open)]), Some(0)),
    ((b"q/C", b"q/B", &[method!(b"last", Final)]), Some(0)),
    (
        (b"q/C", b"p/B", &[method!(b"last", FinalInPackage)]),
        Some(0),
    ),
    ((b"q/C", b"q/B", &[method!(b"last", Apart)]), None),
    ((b"p/C", b"p/B", &[method!(b"near", Open)]), Some(0)),
    ((b"p/C", b"q/B", &[method!(b"near", Open)]), Some(0)),
    ((b"q/C", b"p/B", &[method!(b"near", Open)]), None),
    (
        (
            b"p/C",
            b"p/B",
            &[method!(b"hidden", Open), method!(b"open", Final)],
        ),
        None,
    ),
    (
        (
            b"p/C",
            b"p/B",
            &[
                FIELD,
                method!(b"mine", Final),
                method!(b"other", Open),
                method!(b"last", Open),
            ],
        ),
        Some(1),
    ),
    (
        (
            b"p/C",
            b"p/B",
            &[Declared {
                descriptor: b"()I",
                ..method!(b"last", Open)
            }],
        ),
        None,
    ),
    ((b"p/C", OBJECT, &[method!(b"last", Open)]), None),
    ((b"p/C", b"p/B", &[]), None),
];

/// The first method of a class that overrides a final one, where what its superclass inherits was found in advance.
fn prepared<C: Classes>(
    alloc: Global,
    classes: &C,
    class: &Summary<'_>,
) -> Result<Option<usize>, AllocError> {
    let names = [class.name, b"p/B", b"q/B"];
    let prepared = Prepared::new(alloc, classes, &names)?;
    overriding_method(alloc, &prepared, class)
}

/// Whether it is the one that is expected, by the classes as they are, and by what was found in advance.
fn is_found(alloc: Global, (row, expected): &Expected) -> Result<bool, AllocError> {
    let mut list = Vec::new(alloc);
    list.push(object(alloc))?;
    for above in &ABOVE {
        list.push(declaring(alloc, above)?)?;
    }
    list.push(declaring(alloc, row)?)?;
    let classes = match Rows::new(alloc, &list, hasher()) {
        Ok(classes) => classes,
        Err(HierarchyFault::OutOfMemory) => return Err(AllocError),
        Err(_) => return Ok(false),
    };
    let Some(class) = list.last() else {
        return Ok(false);
    };
    Ok(
        overriding_method(alloc, &classes, class)? == *expected
            && prepared(alloc, &classes, class)? == *expected,
    )
}

#[test]
fn overriding_methods(rt: HostRuntime) {
    laws::overrides_are_computed();
    for expected in &EXPECTED {
        assert!(rt; matches!(is_found(rt.alloc(), expected), Ok(true)));
    }
}

#[test]
fn memory_for_overriding_methods(rt: HostRuntime) {
    assert!(rt; !matches!(is_found(rt.alloc(), &EXPECTED[8]), Ok(false)));
}
