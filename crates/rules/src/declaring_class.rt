//! The class that declares the method (the current class), and its superclass.
ghost use Rattle.std.specs.Prelude.{◌≡◌, [], option_map};
ghost use Rattle.classfile.specs.MethodParts.{or_empty};
ghost use Rattle.classfile.specs.Methods.{class_named, superclass_of};
ghost use Rattle.pool.specs.ConstantMeanings.{class_at};
ghost use Rattle.rules.specs.Bodies.{method_view};

use classfile::{ClassFile, CodeMethod};
use names::RefType;
use pool::Pool;

/// The name of the class that the Class constant of an index names, which is not an array.
pub fn class_named<'a>(pool: &Pool<'a>, index: u16) -> Option<&'a [u8]>
    ensures { option_map (λ n. n.now) result ≡ class_named (class_at pool.now index) }
{
    match pool.class_type(index) {
        Some(RefType::Class(name)) => Some(name),
        Some(RefType::Array { .. }) | None => None,
    }
}

/// The name of the class of a file; empty where its constant names no class.
pub fn class_name<'a>(class: &ClassFile<'a>) -> &'a [u8]
    ensures { result.now ≡ or_empty (class_named (class_at class.now.constant_pool class.now.this_class)) }
{
    match class_named(&class.constant_pool, class.this_class) {
        Some(name) => name,
        None => &[],
    }
}

/// The name of the direct superclass of the class of a file, which Object alone has not (JVMS 4.1).
pub fn superclass_name<'a>(class: &ClassFile<'a>) -> Option<&'a [u8]>
    ensures { option_map (λ n. n.now) result ≡ superclass_of class.now.constant_pool class.now.super_class }
{
    let index = class.super_class;
    if index == 0 {
        return None;
    }
    class_named(&class.constant_pool, index)
}

/// The name of the class that declares the method.
pub fn own_class<'a>(method: &CodeMethod<'_, 'a>) -> &'a [u8]
    ensures { result.now ≡ (method_view method.now).class }
{
    class_name(method.class)
}

/// The name of its direct superclass.
pub fn superclass<'a>(method: &CodeMethod<'_, 'a>) -> Option<&'a [u8]>
    ensures { option_map (λ n. n.now) result ≡ (method_view method.now).superclass }
{
    superclass_name(method.class)
}
