use crate::making::{K, is_spelled};
use classfile::{
    Attribute, AttributeLayout, ClassAttribute, ClassFile, Column, Numbers, decode, encode,
};
use std::alloc::{AllocError, Global};
use std::test::*;

/// That of Exceptions, in methods.
static EXCEPTIONS: AttributeLayout<'static> = AttributeLayout {
    name: "Exceptions",
    first_major: 45,
    once: true,
    counted: true,
    columns: &[Column::Class],
};

/// That of InnerClasses, in classes.
static INNER_CLASSES: AttributeLayout<'static> = AttributeLayout {
    name: "InnerClasses",
    first_major: 45,
    once: true,
    counted: true,
    columns: &[
        Column::Class,
        Column::ClassOrZero,
        Column::TextOrZero,
        Column::Plain,
    ],
};

/// That of NestHost, in classes.
static NEST_HOST: AttributeLayout<'static> = AttributeLayout {
    name: "NestHost",
    first_major: 55,
    once: true,
    counted: false,
    columns: &[Column::Class],
};

/// That of Deprecated, in classes, fields and methods.
static DEPRECATED: AttributeLayout<'static> = AttributeLayout {
    name: "Deprecated",
    first_major: 45,
    once: false,
    counted: false,
    columns: &[],
};

/// Two rows of four columns.
const INNER: [u8; 18] = [0, 2, 0, 1, 0, 0, 0, 3, 0, 9, 1, 4, 0, 5, 0, 0, 0, 1];

/// Rows, columns, and the number that stands there, if one does.
const CELLS: [(u16, usize, Option<u16>); 6] = [
    (0, 0, Some(1)),
    (0, 3, Some(9)),
    (1, 0, Some(260)),
    (1, 3, Some(1)),
    (1, 4, None),
    (2, 0, None),
];

fn has_cells(numbers: &Numbers<'_>, cells: &[(u16, usize, Option<u16>)]) -> bool {
    for (row, column, number) in cells {
        if numbers.get(*row, *column) != *number {
            return false;
        }
    }
    true
}

#[test]
fn rows_and_columns(rt: HostRuntime) {
    let numbers = Numbers {
        layout: &INNER_CLASSES,
        body: &INNER,
    };
    assert!(rt; numbers.rows() == 2 && has_cells(&numbers, &CELLS));
}

/// Where no count stands before the rows there is one, of as many numbers as there are columns.
#[test]
fn one_row(rt: HostRuntime) {
    let host = Numbers {
        layout: &NEST_HOST,
        body: &[1, 2],
    };
    assert!(rt; host.rows() == 1 && has_cells(&host, &[(0, 0, Some(258)), (1, 0, None)]));
    let mark = Numbers {
        layout: &DEPRECATED,
        body: &[],
    };
    assert!(rt; mark.rows() == 1 && mark.get(0, 0).is_none());
}

/// The class file of K in this version, with this text at 8.
fn with_text(alloc: Global, major: u8, text: &[u8]) -> Result<Vec<u8>, AllocError> {
    let mut bytes = K[..56].to_vec(alloc)?;
    let length = u8::try_from(text.len()).unwrap_or(u8::MAX);
    bytes.extend_from_slice(&[1, 0, length])?;
    bytes.extend_from_slice(text)?;
    bytes.extend_from_slice(&K[56..])?;
    bytes[7] = major;
    bytes[9] = 9;
    Ok(bytes)
}

/// Whether the class in these bytes is written with one more attribute, or no bytes spell it; nothing where memory runs
/// out.
fn is_written<'a>(alloc: Global, bytes: &'a [u8], attribute: ClassAttribute<'a>) -> Option<bool> {
    let mut class = decode(alloc, bytes).ok()?;
    class.attributes.push(attribute).ok()?;
    is_spelled(encode(alloc, &class))
}

/// These bytes as numbers of a layout, under the name at 8.
fn numbers<'a>(layout: &'a AttributeLayout<'a>, body: &'a [u8]) -> ClassAttribute<'a> {
    ClassAttribute::Numbers {
        name: 8,
        numbers: Numbers { layout, body },
    }
}

fn raw<'a>(body: &'a [u8]) -> ClassAttribute<'a> {
    ClassAttribute::Raw { name: 8, body }
}

/// An attribute of numbers is written under its name, from its version on, with as many numbers as it has.
#[test]
fn numbers_are_written(rt: HostRuntime) {
    let alloc = rt.alloc();
    let host = with_text(alloc, 55, b"NestHost").expect(&rt, "memory");
    assert!(rt; is_written(alloc, &host, numbers(&NEST_HOST, &[0, 1])) == Some(true));
    assert!(rt; is_written(alloc, &host, numbers(&NEST_HOST, &[1])) == Some(false));
    assert!(rt; is_written(alloc, &host, numbers(&DEPRECATED, &[])) == Some(false));
}

/// In an older version, or under another name, it is not.
#[test]
fn numbers_are_not_written(rt: HostRuntime) {
    let alloc = rt.alloc();
    let older = with_text(alloc, 54, b"NestHost").expect(&rt, "memory");
    assert!(rt; is_written(alloc, &older, numbers(&NEST_HOST, &[0, 1])) == Some(false));
    let other = with_text(alloc, 55, b"NestHos").expect(&rt, "memory");
    assert!(rt; is_written(alloc, &other, numbers(&NEST_HOST, &[0, 1])) == Some(false));
}

/// Under the name of an attribute of numbers nothing else is written.
#[test]
fn raw_bytes_under_such_a_name(rt: HostRuntime) {
    let alloc = rt.alloc();
    let host = with_text(alloc, 55, b"NestHost").expect(&rt, "memory");
    assert!(rt; is_written(alloc, &host, raw(&[0, 1])) == Some(false));
    let older = with_text(alloc, 54, b"NestHost").expect(&rt, "memory");
    assert!(rt; is_written(alloc, &older, raw(&[0, 1])) == Some(true));
    let elsewhere = with_text(alloc, 52, b"Exceptions").expect(&rt, "memory");
    assert!(rt; is_written(alloc, &elsewhere, raw(&[0, 0])) == Some(true));
}

/// K with the thrown class at 1 in the Exceptions of its method, as bytes.
fn throwing(alloc: Global) -> Option<Vec<u8>> {
    let bytes = with_text(alloc, 52, b"Exceptions").ok()?;
    let mut class = decode(alloc, &bytes).ok()?;
    let attribute = Attribute::Numbers {
        name: 8,
        numbers: Numbers {
            layout: &EXCEPTIONS,
            body: &[0, 1, 0, 1],
        },
    };
    class.methods.first_mut()?.attributes.push(attribute).ok()?;
    encode(alloc, &class).ok()
}

/// The first number of an attribute, if it is one of numbers.
fn first_number(attribute: &Attribute<'_>) -> Option<u16> {
    match attribute {
        Attribute::Numbers { numbers, .. } => numbers.get(0, 0),
        _ => None,
    }
}

/// The class that the first method throws.
fn thrown(class: &ClassFile<'_>) -> Option<u16> {
    first_number(class.methods.first()?.attributes.last()?)
}

/// The class that the method of K throws, once it is written and read; nothing where memory runs out.
fn thrown_again(alloc: Global) -> Option<u16> {
    let bytes = throwing(alloc)?;
    let class = decode(alloc, &bytes).ok()?;
    thrown(&class)
}

#[test]
fn numbers_both_ways(rt: HostRuntime) {
    assert!(rt; thrown_again(rt.alloc()) == Some(1));
}

/// K with one attribute, which has this name and permits the class at 3, as bytes.
fn permitting(alloc: Global, major: u8, name: &[u8]) -> Result<Vec<u8>, AllocError> {
    let mut bytes = with_text(alloc, major, name)?;
    bytes.pop();
    bytes.extend_from_slice(&[1, 0, 8, 0, 0, 0, 4, 0, 1, 0, 3])?;
    Ok(bytes)
}

/// The first class that the first attribute permits; 0 where it permits none.
fn first_permitted(class: &ClassFile<'_>) -> Option<u16> {
    match class.attributes.first()?.permitted_subclasses() {
        Some(numbers) => numbers.get(0, 0),
        None => Some(0),
    }
}

/// The first class that K permits, where its one attribute has this name; 0 where it permits none.
fn permitted(alloc: Global, major: u8, name: &[u8]) -> Option<u16> {
    let bytes = permitting(alloc, major, name).ok()?;
    let class = decode(alloc, &bytes).ok()?;
    first_permitted(&class)
}

#[test]
fn permitted_subclasses(rt: HostRuntime) {
    let alloc = rt.alloc();
    assert!(rt; permitted(alloc, 61, b"PermittedSubclasses") == Some(3));
    assert!(rt; permitted(alloc, 60, b"PermittedSubclasses") == Some(0));
    assert!(rt; permitted(alloc, 61, b"NestMembers") == Some(0));
}
