//! The method's class and its fields, as the class file has them.
ghost use Rattle.std.specs.Prelude.{◌≡◌, option_map};
ghost use Rattle.classfile.specs.Methods.{is_own_field};
ghost use Rattle.machine.specs.Bodies.{method_view};
ghost use Rattle.machine.specs.private.Beginnings.{begins};
ghost use Rattle.machine.specs.private.Constants.{field_view};

use crate::body::Method;
use crate::constants::{FieldConstant, class_at};
use crate::objects::RunType;
use classfile::{CodeMethod, declares_field};

/// The name of the class that declares a method.
pub(crate) fn class_name<'a>(method: &CodeMethod<'_, 'a>) -> &'a [u8]
    ensures { result.now ≡ (begins method.now).class }
{
    let class = method.class;
    match class_at(&class.constant_pool, class.this_class) {
        Some(RunType::Class(name)) => name,
        Some(RunType::Array { .. }) | None => &[],
    }
}

impl<'a> Method<'_, 'a> {
    /// The name of its class.
    pub(crate) fn class_name(&self) -> &'a [u8]
        ensures { result.now ≡ (method_view self.now).class }
    {
        class_name(&self.declared)
    }

    /// The name of the direct superclass of its class, which Object alone has not.
    pub(crate) fn superclass(&self) -> Option<&'a [u8]>
        ensures { option_map (λ n. n.now) result ≡ (method_view self.now).superclass }
    {
        if self.declared.class.super_class == 0 {
            return None;
        }
        match class_at(self.pool(), self.declared.class.super_class) {
            Some(RunType::Class(name)) => Some(name),
            Some(RunType::Array { .. }) | None => None,
        }
    }

    /// Whether its class declares the field that the constant names.
    pub(crate) fn is_own_field(&self, field: &FieldConstant<'_>) -> bool
        ensures { result ≡ is_own_field (method_view self.now) (field_view field.now) }
    {
        self.class_name() == field.class
            && declares_field(self.declared.class, field.name, field.descriptor)
    }
}
