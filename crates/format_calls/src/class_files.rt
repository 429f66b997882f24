use crate::making::{K, are_written, is_spelled};
use classfile::{
    Attribute, ClassAttribute, ClassFile, CodeAttr, Component, NestedAttribute, body_spells_rows,
    class_or_fault, decode, encode, formed_has_names, formed_or_faulty, least_rule_is_told,
    no_fault_in_class, no_fault_in_formed, one_class, one_fault, one_first_fault, one_spelling,
    tests_are_forms,
};
use layout::{ReadFault, WriteFault};
use std::alloc::Global;
use std::test::*;

/// The class with a StackMapTable of no frames in its Code attribute.
const MAPPED: [u8; 121] = [
    0xCA, 0xFE, 0xBA, 0xBE, 0, 0, 0, 0x34, 0, 9, 7, 0, 2, 1, 0, 1, 0x4B, 7, 0, 4, 1, 0, 0x10, 0x6A,
    0x61, 0x76, 0x61, 0x2F, 0x6C, 0x61, 0x6E, 0x67, 0x2F, 0x4F, 0x62, 0x6A, 0x65, 0x63, 0x74, 1, 0,
    1, 0x66, 1, 0, 3, 0x28, 0x29, 0x56, 1, 0, 4, 0x43, 0x6F, 0x64, 0x65, 1, 0, 0x0D, 0x53, 0x74,
    0x61, 0x63, 0x6B, 0x4D, 0x61, 0x70, 0x54, 0x61, 0x62, 0x6C, 0x65, 0, 0x21, 0, 1, 0, 3, 0, 0, 0,
    0, 0, 1, 0, 9, 0, 5, 0, 6, 0, 1, 0, 7, 0, 0, 0, 0x15, 0, 0, 0, 0, 0, 0, 0, 1, 0xB1, 0, 0, 0, 1,
    0, 8, 0, 0, 0, 2, 0, 0, 0, 0,
];

#[test]
fn laws_are_called() {
    body_spells_rows();
    one_class();
    one_spelling();
    class_or_fault();
    no_fault_in_class();
    one_fault();
    least_rule_is_told();
    formed_or_faulty();
    one_first_fault();
    no_fault_in_formed();
    tests_are_forms();
    formed_has_names();
}

fn is_head(class: &ClassFile<'_>) -> bool {
    matches!(
        (
            class.minor_version,
            class.major_version,
            class.access_flags,
            class.this_class,
            class.super_class
        ),
        (0, 52, 0x21, 1, 3)
    ) && class.constant_pool.constants().len() == 8
}

fn is_empty_map(attribute: &NestedAttribute<'_>) -> bool {
    match attribute {
        NestedAttribute::StackMapTable { name, body } => {
            *name == 8 && *body == [0, 0].as_slice()
        }
        _ => false,
    }
}

fn is_code(code: &CodeAttr<'_>) -> bool {
    let has_map = match code.attributes.as_slice() {
        [attribute] => is_empty_map(attribute),
        _ => false,
    };
    has_map && code.max_stack == 0 && code.max_locals == 0 && code.code == [0xB1].as_slice()
}

fn has_method(class: &ClassFile<'_>) -> bool {
    match class.methods.as_slice() {
        [method] => matches!(method.code(), Some(code) if is_code(code)),
        _ => false,
    }
}

/// Whether the class is read and written; or memory ran out, where it may.
fn is_read(alloc: Global, may_fail: bool) -> bool {
    match decode(alloc, &MAPPED) {
        Ok(class) => {
            is_head(&class)
                && has_method(&class)
                && are_written(encode(alloc, &class), &MAPPED, may_fail)
        }
        Err(fault) => may_fail && matches!(fault, ReadFault::OutOfMemory),
    }
}

#[test]
fn a_class_both_ways(rt: HostRuntime) {
    assert!(rt; is_read(rt.alloc(), false));
}

/// Where memory runs out each call returns 1, and otherwise as ever.
#[test]
fn memory_runs_out(rt: HostRuntime) {
    assert!(rt; is_read(rt.alloc(), true));
}

/// Why K with this version and so many interfaces is not written, if it is not.
fn write_fault(alloc: Global, major: u16, interfaces: usize) -> Option<WriteFault> {
    let mut class = decode(alloc, &K).ok()?;
    class.major_version = major;
    class.interfaces.resize(interfaces, 0).ok()?;
    encode(alloc, &class).err()
}

/// 17 goes before 18: a class with too many interfaces, and a version that no class has.
#[test]
fn refused_to_write(rt: HostRuntime) {
    let alloc = rt.alloc();
    assert!(rt; write_fault(alloc, 50, 0) == Some(WriteFault::HasNoSpelling));
    assert!(rt; write_fault(alloc, 50, 65_536) == Some(WriteFault::DoesNotFit));
    assert!(rt; write_fault(alloc, 51, 65_536) == Some(WriteFault::DoesNotFit));
}

/// Gives the class an attribute that is named `Code` and whose body is none; nothing where memory runs out.
fn add_to_class(class: &mut ClassFile<'_>) -> Option<()> {
    let (name, body) = (7, [1, 2].as_slice());
    class
        .attributes
        .push(ClassAttribute::Raw { name, body })
        .ok()
}

/// Gives its first method no other attribute than such a one; nothing where memory runs out.
fn add_to_method(class: &mut ClassFile<'_>) -> Option<()> {
    let (name, body) = (7, [1, 2].as_slice());
    let method = class.methods.first_mut()?;
    method.attributes.clear();
    method.attributes.push(Attribute::Raw { name, body }).ok()
}

/// Whether K with such an attribute of the class, or of its method, is written, or no bytes spell it; nothing where
/// memory runs out.
fn is_raw_written(alloc: Global, of_method: bool) -> Option<bool> {
    let mut class = decode(alloc, &K).ok()?;
    if of_method {
        add_to_method(&mut class)?;
    } else {
        add_to_class(&mut class)?;
    }
    is_spelled(encode(alloc, &class))
}

/// A Code attribute may not be written raw where it would be read by field.
#[test]
fn a_raw_code_attribute(rt: HostRuntime) {
    assert!(rt; is_raw_written(rt.alloc(), false) == Some(true));
    assert!(rt; is_raw_written(rt.alloc(), true) == Some(false));
}

/// K as a record of one component, of major version 60.
const RECORD: [u8; 120] = [
    0xCA, 0xFE, 0xBA, 0xBE, 0, 0, 0, 0x3C, 0, 9, 7, 0, 2, 1, 0, 1, 0x4B, 7, 0, 4, 1, 0, 0x10, 0x6A,
    0x61, 0x76, 0x61, 0x2F, 0x6C, 0x61, 0x6E, 0x67, 0x2F, 0x4F, 0x62, 0x6A, 0x65, 0x63, 0x74, 1, 0,
    1, 0x66, 1, 0, 3, 0x28, 0x29, 0x56, 1, 0, 4, 0x43, 0x6F, 0x64, 0x65, 1, 0, 6, 0x52, 0x65, 0x63,
    0x6F, 0x72, 0x64, 0, 0x21, 0, 1, 0, 3, 0, 0, 0, 0, 0, 1, 0, 9, 0, 5, 0, 6, 0, 1, 0, 7, 0, 0, 0,
    0x0D, 0, 0, 0, 0, 0, 0, 0, 1, 0xB1, 0, 0, 0, 0, 0, 1, 0, 8, 0, 0, 0, 8, 0, 1, 0, 5, 0, 6, 0, 0,
];

/// Whether the component has the name and the descriptor of the method of K.
fn is_component(component: &Component<'_>) -> bool {
    component.name == 5 && component.descriptor == 6 && component.attributes.is_empty()
}

/// Whether the one attribute of the class is a Record of one such component.
fn is_recorded(class: &ClassFile<'_>) -> bool {
    let [record] = class.attributes.as_slice() else {
        return false;
    };
    let [component] = record.components() else {
        return false;
    };
    record.permitted_subclasses().is_none() && is_component(component)
}

/// Whether the record is read and written; or memory ran out, where it may.
fn is_record_read(alloc: Global, may_fail: bool) -> bool {
    match decode(alloc, &RECORD) {
        Ok(class) => {
            is_recorded(&class) && are_written(encode(alloc, &class), &RECORD, may_fail)
        }
        Err(fault) => may_fail && matches!(fault, ReadFault::OutOfMemory),
    }
}

#[test]
fn a_record_both_ways(rt: HostRuntime) {
    assert!(rt; is_record_read(rt.alloc(), false));
}

/// Where memory runs out each call returns 1, and otherwise as ever.
#[test]
fn memory_runs_out_in_a_record(rt: HostRuntime) {
    assert!(rt; is_record_read(rt.alloc(), true));
}

/// Whether the record is written as one of this major version, or no bytes spell it; nothing where memory runs out.
fn is_record_written(alloc: Global, major: u16) -> Option<bool> {
    let mut class = decode(alloc, &RECORD).ok()?;
    class.major_version = major;
    is_spelled(encode(alloc, &class))
}

/// A Record is read by field from major version 60 on, so below it no bytes spell one that is.
#[test]
fn a_record_below_its_version(rt: HostRuntime) {
    let alloc = rt.alloc();
    assert!(rt; is_record_written(alloc, 59) == Some(false));
    assert!(rt; is_record_written(alloc, 60) == Some(true));
    assert!(rt; is_record_written(alloc, 61) == Some(true));
}
