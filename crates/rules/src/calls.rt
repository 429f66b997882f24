//! Which methods instructions may call.
ghost use Rattle.std.specs.Prelude.{◌≡◌, ◌&&◌, not, true, []};
ghost use Rattle.names.specs.ReferenceTypes.{is_class_type};
ghost use Rattle.pool.specs.ConstantViews.{method_constant_view, call_site_view};
ghost use Rattle.rules.specs.Constants.{is_init_name, may_name, has_room_for_receiver, may_invoke_interface, is_special_name};
ghost use Rattle.insn.specs.Views.{act_view};
ghost use Rattle.rules.specs.Ways.{special_index};

use insn::Act;
use names::{INIT, RefType};
use pool::{CallSite, MethodConstant};

/// Whether the method is an instance initialization method by its name (JVMS 2.9.1).
pub fn is_init(called: &MethodConstant<'_>) -> bool
    ensures { result ≡ is_init_name (method_constant_view called.now) }
{
    called.name == INIT
}

/// Whether `invokestatic` and `invokespecial` may name the method: one of an interface from version 52 on (JVMS 4.9.1).
pub fn may_name(major: u16, called: &MethodConstant<'_>) -> bool
    ensures { result ≡ may_name major (method_constant_view called.now).interface }
{
    !called.interface || major > 51
}

/// Whether the class that is asked for the method is not an array.
pub fn is_of_class(called: &MethodConstant<'_>) -> bool
    ensures { result ≡ is_class_type (method_constant_view called.now).class }
{
    match called.class {
        RefType::Class(_) => true,
        RefType::Array { .. } => false,
    }
}

/// Whether the arguments and a receiver take at most 255 units (JVMS 4.3.3).
pub fn has_room_for_receiver(called: &MethodConstant<'_>) -> bool
    ensures { result ≡ has_room_for_receiver (method_constant_view called.now) }
{
    called.method_type.width(false) < 255
}

/// Whether `invokestatic` may name the method.
pub fn may_invoke_static(major: u16, called: &MethodConstant<'_>) -> bool
    ensures { let c = method_constant_view called.now in
        result ≡ (is_class_type c.class && (not (is_init_name c) && may_name major c.interface)) }
{
    is_of_class(called) && !is_init(called) && may_name(major, called)
}

/// Whether `invokevirtual` may name the method.
pub fn may_invoke_virtual(called: &MethodConstant<'_>) -> bool
    ensures { let c = method_constant_view called.now in
        result ≡ (not c.interface && (not (is_init_name c) && has_room_for_receiver c)) }
{
    !called.interface && !is_init(called) && has_room_for_receiver(called)
}

/// Whether `invokeinterface` may name the method, with a count that is to be the width of the arguments and the
/// receiver.
pub fn may_invoke_interface(count: u8, called: &MethodConstant<'_>) -> bool
    ensures { result ≡ may_invoke_interface count (method_constant_view called.now) }
{
    is_of_class(called)
        && called.interface
        && !is_init(called)
        && has_room_for_receiver(called)
        && u16::from(count) == called.method_type.width(true)
}

/// Whether a call site has a name that does not begin with '<', as `<init>` and `<clinit>` do (JVMS 4.10.1.9,
/// invokedynamic).
pub fn may_be_called(site: &CallSite<'_>) -> bool
    ensures { result ≡ not (is_special_name (call_site_view site.now)) }
{
    match site.name {
        [first, ..] => *first != b'<',
        [] => true,
    }
}

/// Whether `invokespecial` may name a method that is not a constructor.
pub fn may_call_special(major: u16, called: &MethodConstant<'_>) -> bool
    ensures { let c = method_constant_view called.now in
        result ≡ (is_class_type c.class && (has_room_for_receiver c && may_name major c.interface)) }
{
    is_of_class(called) && has_room_for_receiver(called) && may_name(major, called)
}

/// Whether `invokespecial` may name a constructor, of a class.
pub fn may_construct_by(called: &MethodConstant<'_>) -> bool
    ensures { let c = method_constant_view called.now in result ≡ (not c.interface && has_room_for_receiver c) }
{
    !called.interface && has_room_for_receiver(called)
}

/// Whether an `invokespecial` of this method calls a constructor.
pub fn is_constructor(called: &MethodConstant<'_>) -> bool
    ensures { let c = method_constant_view called.now in
        result ≡ (is_init_name c && (is_class_type c.class && (not c.interface && has_room_for_receiver c))) }
{
    is_init(called) && is_of_class(called) && may_construct_by(called)
}

/// The index of the method that `invokespecial` names.
pub fn special_index(act: &Act<'_>) -> Option<u16>
    ensures { result ≡ special_index (act_view act.now) }
{
    match *act {
        Act::InvokeSpecial { index } => Some(index),
        _ => None,
    }
}
