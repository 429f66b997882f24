//! Values that tests of several files use: class files, summaries of classes, and frames.
use frames::{Frame, VType};
use hierarchy::{Kind, MemberPlaces, MemberSummary, Overriding, Summary};
use names::{Base, OBJECT, Primitive};
use std::alloc::{AllocError, Global};
use std::hash::{BuildHasherDefault, FoldHasher};

/// Objects of the class A.
pub const A: VType<'static> = VType::Class(b"A");

/// Objects of a class B, which no list here has.
pub const B: VType<'static> = VType::Class(b"B");

pub const ARRAY_OF_A: VType<'static> = VType::Array {
    dims: 1,
    base: Base::Class(b"A"),
};

pub const ARRAY_OF_B: VType<'static> = VType::Array {
    dims: 1,
    base: Base::Class(b"B"),
};

/// Arrays of arrays of ints.
pub const TABLE_OF_INTS: VType<'static> = VType::Array {
    dims: 2,
    base: Base::Primitive(Primitive::Int),
};

/// Arrays of as many dimensions as there may be.
pub const DEEPEST: VType<'static> = VType::Array {
    dims: 255,
    base: Base::Primitive(Primitive::Boolean),
};

/// The class file of K with the constants 8 and 9 for Object's `<init>`, and a method that calls that.
pub const CONSTRUCTING: [u8; 114] = [
    0xCA, 0xFE, 0xBA, 0xBE, 0, 0, 0, 0x34, 0, 10, 7, 0, 2, 1, 0, 1, 0x4B, 7, 0, 4, 1, 0, 0x10,
    0x6A, 0x61, 0x76, 0x61, 0x2F, 0x6C, 0x61, 0x6E, 0x67, 0x2F, 0x4F, 0x62, 0x6A, 0x65, 0x63, 0x74,
    1, 0, 6, 0x3C, 0x69, 0x6E, 0x69, 0x74, 0x3E, 1, 0, 3, 0x28, 0x29, 0x56, 1, 0, 4, 0x43, 0x6F,
    0x64, 0x65, 12, 0, 5, 0, 6, 10, 0, 3, 0, 8, 0, 0x21, 0, 1, 0, 3, 0, 0, 0, 0, 0, 1, 0, 0, 0, 5,
    0, 6, 0, 1, 0, 7, 0, 0, 0, 0x0F, 0, 4, 0, 2, 0, 0, 0, 3, 0xB7, 0, 9, 0, 0, 0, 0, 0, 0,
];

/// The class file of K with the constant 11 for Object's `clone`, and a method that calls that.
pub const CLONING: [u8; 145] = [
    0xCA, 0xFE, 0xBA, 0xBE, 0, 0, 0, 0x34, 0, 12, 7, 0, 2, 1, 0, 1, 0x4B, 7, 0, 4, 1, 0, 0x10,
    0x6A, 0x61, 0x76, 0x61, 0x2F, 0x6C, 0x61, 0x6E, 0x67, 0x2F, 0x4F, 0x62, 0x6A, 0x65, 0x63, 0x74,
    1, 0, 6, 0x3C, 0x69, 0x6E, 0x69, 0x74, 0x3E, 1, 0, 3, 0x28, 0x29, 0x56, 1, 0, 4, 0x43, 0x6F,
    0x64, 0x65, 1, 0, 5, 0x63, 0x6C, 0x6F, 0x6E, 0x65, 1, 0, 0x14, 0x28, 0x29, 0x4C, 0x6A, 0x61,
    0x76, 0x61, 0x2F, 0x6C, 0x61, 0x6E, 0x67, 0x2F, 0x4F, 0x62, 0x6A, 0x65, 0x63, 0x74, 0x3B, 12,
    0, 8, 0, 9, 10, 0, 3, 0, 10, 0, 0x21, 0, 1, 0, 3, 0, 0, 0, 0, 0, 1, 0, 0, 0, 5, 0, 6, 0, 1, 0,
    7, 0, 0, 0, 15, 0, 4, 0, 2, 0, 0, 0, 3, 0xB6, 0, 11, 0, 0, 0, 0, 0, 0,
];

/// The summary of a class or interface that is not final and has no members, by its name and its superclass's.
pub fn summary<'a>(
    alloc: Global,
    name: &'a [u8],
    superclass: Option<&'a [u8]>,
    interface: bool,
) -> Summary<'a> {
    Summary {
        name,
        superclass,
        interface,
        is_final: false,
        texts: Vec::new(alloc),
        members: Vec::new(alloc),
    }
}

/// The summary of `java/lang/Object`.
pub fn object<'a>(alloc: Global) -> Summary<'a> {
    summary(alloc, OBJECT, None, false)
}

/// The summary of `java/lang/Object` with its method `clone`, which is protected.
fn object_with_clone<'a>(alloc: Global) -> Result<Summary<'a>, AllocError> {
    let mut above = object(alloc);
    above.texts.push(b"clone")?;
    above.texts.push(b"()Ljava/lang/Object;")?;
    above.members.push(MemberSummary {
        places: MemberPlaces {
            kind: Kind::Method,
            name: 0,
            descriptor: 1,
        },
        is_static: false,
        is_protected: true,
        overriding: Overriding::Apart,
    })?;
    Ok(above)
}

/// The summaries of `java/lang/Object` with its method `clone`, which is protected, and of classes K and A below it.
pub fn cloneable<'a>(alloc: Global) -> Result<Vec<Summary<'a>>, AllocError> {
    let mut list = Vec::new(alloc);
    list.push(object_with_clone(alloc)?)?;
    list.push(summary(alloc, b"K", Some(OBJECT), false))?;
    list.push(summary(alloc, b"A", Some(OBJECT), false))?;
    Ok(list)
}

/// The summaries of `java/lang/Object`, of a class A and a class C below it, and of an interface I; there is no class
/// B.
pub fn setting<'a>(alloc: Global) -> [Summary<'a>; 4] {
    [
        object(alloc),
        summary(alloc, b"A", Some(OBJECT), false),
        summary(alloc, b"I", Some(OBJECT), true),
        summary(alloc, b"C", Some(b"A"), false),
    ]
}

/// The frame of these types in local variables and on the stack, with the flag that tells of an uninitialized `this`.
pub fn frame<'a>(
    alloc: Global,
    locals: &[VType<'a>],
    stack: &[VType<'a>],
    flag: bool,
) -> Result<Frame<'a>, AllocError> {
    Ok(Frame {
        locals: locals.to_vec(alloc)?,
        stack: stack.to_vec(alloc)?,
        flag,
    })
}

/// The hasher by which a hierarchy finds the names of its classes.
pub fn hasher() -> BuildHasherDefault<FoldHasher> {
    BuildHasherDefault::new()
}
