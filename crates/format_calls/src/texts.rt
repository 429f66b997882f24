use names::{
    Base, FieldType, MethodShape, MethodType, NameFault, NameForms, Primitive, Text, brackets,
    check_text, field_answers, field_type, first_set, is_class_name, is_field_descriptor,
    is_field_name, is_method_name, method_answers, method_shape, method_type, name_forms,
    names_by_units, one_field_type, one_method_type, one_unit_list, parameter_types, primitive_of,
    reference_type, result_type, spell, text_answers, unit_at, units,
};
use std::alloc::Global;
use std::test::*;

#[test]
fn laws_are_called() {
    one_unit_list();
    text_answers();
    one_field_type();
    one_method_type();
    field_answers();
    method_answers();
    names_by_units();
}

/// `U+0000` and `U+1F600`, in units and in bytes.
const UNITS: [u16; 3] = [0, 0xD83D, 0xDE00];

const SPELLING: [u8; 8] = [0xC0, 0x80, 0xED, 0xA0, 0xBD, 0xED, 0xB8, 0x80];

#[test]
fn units_and_bits_in_front(rt: HostRuntime) {
    assert!(rt; unit_at(&SPELLING) == Some((0, 2)));
    assert!(rt; unit_at(b"ab") == Some((0x61, 1)));
    assert!(rt; unit_at(&SPELLING[1..]).is_none());
    assert!(rt; first_set(0, 16) == 16);
    assert!(rt; first_set(8, 16) == 3);
}

#[test]
fn fronts_of_descriptors(rt: HostRuntime) {
    assert!(rt; brackets(b"[[S") == 2);
    assert!(rt; primitive_of(b'S') == Some(Primitive::Short));
    assert!(rt; primitive_of(b'V').is_none());
}

/// Whether the bytes are these; or memory ran out, where it may.
fn are_bytes(answer: Result<Vec<u8>, NameFault>, expected: &[u8], may_fail: bool) -> bool {
    match answer {
        Ok(bytes) => bytes.as_slice() == expected,
        Err(fault) => may_fail && matches!(fault, NameFault::OutOfMemory),
    }
}

/// Whether the text has these units; or memory ran out, where it may.
fn has_units(alloc: Global, text: Text<'_>, expected: &[u16], may_fail: bool) -> bool {
    match units(alloc, text) {
        Ok(units) => units.as_slice() == expected,
        Err(fault) => may_fail && matches!(fault, NameFault::OutOfMemory),
    }
}

const METHOD: &[u8] = b"(IJ[Ljava/lang/String;)V";

fn has_measures(text: Text<'_>) -> bool {
    text.bytes() == SPELLING.as_slice()
        && text.spelling() == SPELLING.as_slice()
        && text.len() == 8
        && !text.is_empty()
}

/// Whether the spelling is read and written; or memory ran out, where it may.
fn is_text(alloc: Global, may_fail: bool) -> bool {
    match check_text(&SPELLING) {
        Ok(text) => {
            has_measures(text)
                && has_units(alloc, text, &UNITS, may_fail)
                && are_bytes(spell(alloc, &UNITS), &SPELLING, may_fail)
        }
        Err(_) => false,
    }
}

#[test]
fn a_text_both_ways(rt: HostRuntime) {
    assert!(rt; is_text(rt.alloc(), false));
    assert!(rt; matches!(check_text(&[0xF0, 0x9F]), Err(NameFault::BadText { at: 0 })));
}

/// Whether the name is one of a class, of a field and of a method.
fn kinds(name: &str) -> (bool, bool, bool) {
    match check_text(name.as_bytes()) {
        Ok(text) => (
            is_class_name(text),
            is_field_name(text),
            is_method_name(text),
        ),
        Err(_) => (false, false, false),
    }
}

#[test]
fn names(rt: HostRuntime) {
    assert!(rt; matches!(kinds("run"), (true, true, true)));
    assert!(rt; matches!(kinds("java/lang/Object"), (true, false, false)));
    assert!(rt; matches!(kinds("<init>"), (true, true, false)));
}

/// Which forms the name has, found at once.
fn forms(name: &str) -> (bool, bool, bool) {
    match check_text(name.as_bytes()) {
        Ok(text) => {
            let NameForms {
                class_name,
                unqualified_name,
                method_name,
            } = name_forms(text);
            (class_name, unqualified_name, method_name)
        }
        Err(_) => (false, false, false),
    }
}

const NO_NAMES: [&str; 7] = ["", "/a", "a/", "a//b", "a.b", "a;", "[I"];

#[test]
fn forms_of_names(rt: HostRuntime) {
    assert!(rt; matches!(forms("run"), (true, true, true)));
    assert!(rt; matches!(forms("java/lang/Object$1"), (true, false, false)));
    assert!(rt; matches!(forms("<clinit>"), (true, true, false)));
    for none in &NO_NAMES {
        assert!(rt; matches!(forms(*none), (false, false, false)));
    }
}

/// Whether the type of a method has three parameters, which take four units.
fn has_widths(method: &MethodType<'_>) -> bool {
    method.params.len() == 3 && method.width(false) == 4 && method.width(true) == 5
}

/// Whether it is the descriptor of a method, with such parameters, and written as it is; or memory ran out, where it
/// may.
fn is_method(alloc: Global, descriptor: &[u8], may_fail: bool) -> bool {
    let Ok(text) = check_text(descriptor) else {
        return false;
    };
    match method_type(alloc, text, false) {
        Ok(method) => { has_widths(&method) && are_bytes(method.text(alloc), descriptor, may_fail) }
        Err(fault) => may_fail && matches!(fault, NameFault::OutOfMemory),
    }
}

/// Whether it is the descriptor of a field whose type is an array of two dimensions; or memory ran out, where it may.
fn is_array(alloc: Global, descriptor: &[u8], may_fail: bool) -> bool {
    let Ok(text) = check_text(descriptor) else {
        return false;
    };
    match field_type(text) {
        Ok(field) => {
            field.dims == 2
                && field.width() == 1
                && are_bytes(field.text(alloc), descriptor, may_fail)
        }
        Err(_) => false,
    }
}

/// The result of a method of this descriptor.
fn result<'a>(descriptor: &'a [u8]) -> Option<FieldType<'a>> {
    match check_text(descriptor) {
        Ok(text) => result_type(text),
        Err(_) => None,
    }
}

#[test]
fn descriptors_both_ways(rt: HostRuntime) {
    assert!(rt; is_method(rt.alloc(), METHOD, false));
    assert!(rt; is_array(rt.alloc(), b"[[J", false));
    let base = Base::Class(b"d)e");
    assert!(rt; result(b"(I[La(b)c;J)[[Ld)e;") == Some(FieldType { dims: 2, base }));
    assert!(rt; result(b"()II").is_none());
}

/// How many parameters the bytes name, and how many dimensions they have in all.
fn counted(descriptor: &[u8]) -> Option<(usize, usize)> {
    let text = check_text(descriptor).ok()?;
    let mut count: usize = 0;
    let mut dimensions: usize = 0;
    for parameter in parameter_types(text) {
        count = count.saturating_add(1);
        dimensions = dimensions.saturating_add(usize::from(parameter.dims));
    }
    Some((count, dimensions))
}

#[test]
fn parameters_one_by_one(rt: HostRuntime) {
    let first = check_text(b"([[La;J)V")
        .ok()
        .and_then(|text| parameter_types(text).next());
    let base = Base::Class(b"a");
    assert!(rt; first == Some(FieldType { dims: 2, base }));
    assert!(rt; counted(b"(I[La(b)c;J[[D)[[Ld)e;") == Some((4, 3)));
    assert!(rt; counted(b"()V") == Some((0, 0)));
    assert!(rt; counted(b"I") == Some((0, 0)));
}

/// Why the bytes are no descriptor of a field, if they are none.
fn field_fault(descriptor: &[u8]) -> Option<NameFault> {
    match check_text(descriptor) {
        Ok(text) => field_type(text).err(),
        Err(fault) => Some(fault),
    }
}

/// Texts that are no descriptor of a field, and where the first byte stands that is wrong.
const BAD_FIELDS: [(&str, usize); 10] = [
    ("", 0),
    ("L/", 1),
    ("La//b;", 3),
    ("L;", 1),
    ("La.b;", 2),
    ("La/;", 3),
    ("La", 2),
    ("[", 1),
    ("V", 0),
    ("II", 1),
];

#[test]
fn bad_field_descriptors(rt: HostRuntime) {
    for (descriptor, at) in &BAD_FIELDS {
        let expected = NameFault::BadDescriptor { at: *at };
        assert!(rt; field_fault(descriptor.as_bytes()) == Some(expected));
    }
}

/// Why the bytes are no descriptor of a method, with the receiver or without it, if they are none.
fn method_fault(alloc: Global, descriptor: &[u8], receiver: bool) -> Option<NameFault> {
    match check_text(descriptor) {
        Ok(text) => method_type(alloc, text, receiver).err(),
        Err(fault) => Some(fault),
    }
}

/// Texts that are no descriptor of a method, and where the first byte stands that is wrong.
const BAD_METHODS: [(&str, usize); 9] = [
    ("", 0),
    ("I", 0),
    ("(", 1),
    ("(V)V", 1),
    ("(I", 2),
    ("([)V", 2),
    ("()", 2),
    ("()VV", 3),
    ("(La;)[V", 6),
];

#[test]
fn bad_method_descriptors(rt: HostRuntime) {
    for (descriptor, at) in &BAD_METHODS {
        let fault = method_fault(rt.alloc(), descriptor.as_bytes(), false);
        assert!(rt; fault == Some(NameFault::BadDescriptor { at: *at }));
    }
}

/// An array of an `int` has 255 dimensions at most, and the parameters of a method 255 units, with the receiver.
#[test]
fn limits(rt: HostRuntime) {
    let mut array = [b'['; 257];
    array[256] = b'I';
    assert!(rt; field_fault(&array) == Some(NameFault::TooManyDimensions));
    let mut method = [b'I'; 258];
    method[0] = b'(';
    method[256] = b')';
    method[257] = b'V';
    assert!(rt; method_fault(rt.alloc(), &method, false).is_none());
    assert!(rt; method_fault(rt.alloc(), &method, true) == Some(NameFault::TooWide));
}

const NUMBERS: [(NameFault, u8); 5] = [
    (NameFault::OutOfMemory, 1),
    (NameFault::BadText { at: 9 }, 3),
    (NameFault::BadDescriptor { at: 9 }, 4),
    (NameFault::TooManyDimensions, 5),
    (NameFault::TooWide, 6),
];

#[test]
fn numbers(rt: HostRuntime) {
    for (fault, number) in &NUMBERS {
        assert!(rt; fault.number() == *number);
    }
}

/// Each call that takes memory returns 1 where there is none, and as ever otherwise.
#[test]
fn want_of_memory(rt: HostRuntime) {
    assert!(rt; is_text(rt.alloc(), true));
    assert!(rt; is_method(rt.alloc(), METHOD, true));
    assert!(rt; is_array(rt.alloc(), b"[[J", true));
}

/// Whether the text is the descriptor of a field.
fn is_field(descriptor: &[u8]) -> bool {
    match check_text(descriptor) {
        Ok(text) => is_field_descriptor(text),
        Err(_) => false,
    }
}

const FIELDS: [&str; 5] = [
    "J",
    "[[I",
    "La;",
    "Ljava/lang/String;",
    "[Lsome/package/with/a/name/of/more/bytes/than/the/first/sixty/four/of/a/text;",
];

const NO_FIELDS: [&str; 10] = [
    "",
    "V",
    "[",
    "L;",
    "La",
    "La/;",
    "L/a;",
    "II",
    "()V",
    "Ljava/lang//String;",
];

#[test]
fn descriptors_of_fields(rt: HostRuntime) {
    for one in &FIELDS {
        assert!(rt; is_field(one.as_bytes()));
    }
    for none in &NO_FIELDS {
        assert!(rt; !is_field(none.as_bytes()));
    }
}

/// Arrays of as many dimensions as the limit allows, and of one more.
#[test]
fn deepest_fields(rt: HostRuntime) {
    let mut deepest = [b'['; 256];
    deepest[255] = b'I';
    assert!(rt; is_field(&deepest));
    let mut deeper = [b'['; 257];
    deeper[256] = b'I';
    assert!(rt; !is_field(&deeper));
}

/// The shape of a method of this descriptor, with the receiver or without it.
fn shape(descriptor: &[u8], receiver: bool) -> Result<MethodShape, NameFault> {
    method_shape(check_text(descriptor)?, receiver)
}

#[test]
fn shapes_of_methods(rt: HostRuntime) {
    let wide = MethodShape {
        units: 5,
        has_result: false,
    };
    assert!(rt; shape(METHOD, true) == Ok(wide));
    let returning = MethodShape {
        units: 0,
        has_result: true,
    };
    assert!(rt; shape(b"()I", false) == Ok(returning));
    assert!(rt; shape(b"(La;)[V", false) == Err(NameFault::BadDescriptor { at: 6 }));
    let mut method = [b'['; 260];
    method[0] = b'(';
    method[1] = b')';
    method[259] = b'I';
    assert!(rt; shape(&method, false) == Err(NameFault::TooManyDimensions));
}

/// The limit allows so many parameters of two units, and not one more.
#[test]
fn widest_shapes(rt: HostRuntime) {
    let mut method = [b'J'; 131];
    method[0] = b'(';
    method[129] = b')';
    method[130] = b'V';
    assert!(rt; shape(&method, false) == Err(NameFault::TooWide));
    method[128] = b'I';
    assert!(rt; shape(&method, false).is_ok());
    assert!(rt; shape(&method, true) == Err(NameFault::TooWide));
}

/// How many dimensions the array has that the text of a Class constant names; 0 of a class.
fn named_dimensions(text: &[u8]) -> Option<u8> {
    match check_text(text) {
        Ok(text) => match reference_type(text) {
            Some(t) => Some(t.dimensions()),
            None => None,
        },
        Err(_) => None,
    }
}

#[test]
fn types_of_class_constants(rt: HostRuntime) {
    assert!(rt; named_dimensions(b"A") == Some(0));
    assert!(rt; named_dimensions(b"[[I") == Some(2));
    assert!(rt; named_dimensions(b"[A").is_none());
}
