//! Whether a method begins with its own object uninitialized.
ghost use Rattle.std.specs.Prelude.{◌≡◌};
ghost use Rattle.classfile.specs.Methods.{receiver_of};
ghost use Rattle.rules.specs.Bodies.{method_view};
ghost use Rattle.verify.specs.InitialFrames.{is_uninitialized};

use classfile::CodeMethod;
use names::OBJECT;
use rules::own_class;

/// Whether the own object is uninitialized when the method begins: in each `<init>`, except Object's.
pub fn begins_uninitialized(method: &CodeMethod<'_, '_>) -> bool
    ensures { result ≡ is_uninitialized (receiver_of (method_view method.now)) }
{
    if method.is_static {
        return false;
    }
    method.is_init && own_class(method) != OBJECT
}
