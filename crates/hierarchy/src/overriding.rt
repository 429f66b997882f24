//! The first method of a class that overrides a final one (JVMS 4.10, 5.4.5).
ghost use Rattle.std.specs.Prelude.{◌≡◌, ℕ, Some, false, slice_get, IfOk};
ghost use Rattle.hierarchy.specs.Class.{MemberFact};
ghost use Rattle.hierarchy.specs.Overrides.{may_override, overriding_method};
ghost use Rattle.hierarchy.specs.Summary.{fact_of};

use crate::classes::Classes;
use crate::inheritance::Inheritance;
use crate::overriding_parts::may_override;
use crate::summary::Summary;
use std::alloc::{AllocError, Global};

/// Whether a member of a class may override others: none of a class that was not read by a release does.
fn has_overriding(class: &Summary<'_>) -> bool
    ensures { result ≡ false → (i : ℕ) (m : MemberFact) → slice_get (fact_of class.now).members i ≡ Some m
        → may_override m.overriding ≡ false }
{
    for member in &class.members {
        if may_override(member.overriding) {
            return true;
        }
    }
    false
}

/// The first method of a class that overrides a final one of a class above it: one that it may not override, since it
/// is public or protected, or of a class in the same package (JVMS 5.4.5). Methods count from 0, in the order of the
/// file.
///
/// The time is that of the members of the class and of the classes above it, times a logarithm. Where what the
/// superclass has and inherits was found in advance ([`Prepared`](crate::Prepared)), it is that of the class alone. It
/// fails only if memory runs out.
pub fn overriding_method<C: Classes>(
    alloc: Global,
    classes: &C,
    class: &Summary<'_>,
) -> Result<Option<usize>, AllocError>
    ensures { IfOk result (λ answer. answer ≡ overriding_method (C.content classes.now) (fact_of class.now)) }
{
    if !has_overriding(class) {
        return Ok(None);
    }
    let Some(superclass) = class.superclass else {
        return Ok(None);
    };
    if let Some(answer) = classes.overriding_in_advance(alloc, class)? {
        return Ok(answer);
    }
    let inheritance = Inheritance::new(alloc, classes, &[superclass])?;
    match inheritance.overriding(alloc, classes, class)? {
        Some(answer) => Ok(answer),
        // No class has the name of the superclass.
        None => Ok(None),
    }
}
