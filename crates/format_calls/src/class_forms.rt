use crate::making::K;
use classfile::{
    ClassFile, CodeMethod, FormFault, FormRule, Formed, Member, OwnFields, Place, declares_field,
    decode, form_check, method_is_told,
};
use std::alloc::Global;
use std::test::*;

/// A native method of the name and the descriptor with these indices.
fn native(alloc: Global, name: u16, descriptor: u16) -> Member<'static> {
    Member {
        access_flags: 0x0109,
        name,
        descriptor,
        attributes: Vec::new(alloc),
    }
}

/// K with a second method, which has no code.
fn with_a_native(alloc: Global) -> Option<ClassFile<'static>> {
    let mut class = decode(alloc, &K).ok()?;
    class.methods.push(native(alloc, 2, 6)).ok()?;
    Some(class)
}

/// The method of this number, if there is one, and it has code.
fn method<'c, 'a>(formed: Formed<'c, 'a>, number: usize) -> Option<CodeMethod<'c, 'a>> {
    if number < formed.class().methods.len() {
        formed.method(number)
    } else {
        None
    }
}

/// Whether it is told of the method what the class file K says of `f`.
fn is_method_of_k(method: CodeMethod<'_, '_>) -> bool {
    method_is_told::<u8>(method);
    method.code.code.len() == 1
        && method.is_static
        && !method.is_init
        && method.result_type.is_none()
        && method.descriptor().bytes() == b"()V".as_slice()
}

/// Whether the class is well formed, and its first method alone has code.
fn is_formed(alloc: Global) -> bool {
    let Some(class) = with_a_native(alloc) else {
        return false;
    };
    match form_check(alloc, &class) {
        Ok(formed) => {
            formed.class().major_version == 52
                && matches!(method(formed, 0), Some(first) if is_method_of_k(first))
                && method(formed, 1).is_none()
        }
        Err(_) => false,
    }
}

#[test]
fn methods_with_code(rt: HostRuntime) {
    assert!(rt; is_formed(rt.alloc()));
}

/// Whether it is the third method of the class that stands twice.
fn is_told_twice(fault: FormFault) -> bool {
    fault.number() == 25 && matches!(fault.place(), Some(Place::Method(2)))
}

/// Where memory runs out the check returns 1, and otherwise that a method stands twice, after one of another name.
fn is_twice_or_memory(alloc: Global) -> bool {
    let Some(mut class) = with_a_native(alloc) else {
        return true;
    };
    if class.methods.push(native(alloc, 5, 6)).is_err() {
        return true;
    }
    match form_check(alloc, &class) {
        Ok(_) => false,
        Err(fault) => fault.number() == 1 || is_told_twice(fault),
    }
}

#[test]
fn memory_runs_out_while_checking(rt: HostRuntime) {
    assert!(rt; is_twice_or_memory(rt.alloc()));
}

/// Whether K without a superclass, which is not `java/lang/Object`, is refused for that.
fn is_refused(alloc: Global) -> bool {
    let Ok(mut class) = decode(alloc, &K) else {
        return false;
    };
    class.super_class = 0;
    matches!(
        form_check(alloc, &class),
        Err(FormFault::Broken {
            rule: FormRule::BadSuper,
            place: Place::Class
        })
    )
}

#[test]
fn a_rule_is_broken(rt: HostRuntime) {
    assert!(rt; is_refused(rt.alloc()));
}

/// K with a field that has the name and the descriptor of its method.
fn with_a_field(alloc: Global) -> Option<ClassFile<'static>> {
    let mut class = decode(alloc, &K).ok()?;
    class.fields.push(native(alloc, 5, 6)).ok()?;
    Some(class)
}

/// Whether the Class constant 3 is not a Fieldref of the class.
fn is_no_field(alloc: Global, class: &ClassFile<'_>) -> bool {
    let mut fields = OwnFields::new(alloc, class);
    !fields.names_class(3) && matches!(fields.declares(3), Ok(false))
}

fn declares_its_field(alloc: Global) -> bool {
    let Some(class) = with_a_field(alloc) else {
        return false;
    };
    declares_field(&class, b"f", b"()V")
        && !declares_field(&class, b"f", b"I")
        && is_no_field(alloc, &class)
}

#[test]
fn own_fields(rt: HostRuntime) {
    assert!(rt; declares_its_field(rt.alloc()));
}
