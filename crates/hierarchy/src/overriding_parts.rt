//! The parts that methods take in overriding (JVMS 5.4.5).
ghost use Rattle.std.specs.Prelude.{◌≡◌};
ghost use Rattle.hierarchy.specs.private.NumberedMembers.{is_final};
ghost use Rattle.hierarchy.specs.private.SameSummaries.{same_overriding};
ghost use Rattle.hierarchy.specs.Overrides.{may_override};

use crate::summary::Overriding;

/// Whether a method that takes this part may override others.
pub fn may_override(part: Overriding) -> bool
    ensures { result ≡ may_override part }
{
    match part {
        Overriding::Apart => false,
        Overriding::Open | Overriding::FinalInPackage | Overriding::Final => true,
    }
}

/// Whether some classes may not override a method that takes this part.
pub fn is_final(part: Overriding) -> bool
    ensures { result ≡ is_final part }
{
    match part {
        Overriding::Apart | Overriding::Open => false,
        Overriding::FinalInPackage | Overriding::Final => true,
    }
}

/// Whether two parts are the same.
pub fn same_overriding(one: Overriding, other: Overriding) -> bool
    ensures { result ≡ same_overriding one other }
{
    matches!(
        (one, other),
        (Overriding::Apart, Overriding::Apart)
            | (Overriding::Open, Overriding::Open)
            | (Overriding::FinalInPackage, Overriding::FinalInPackage)
            | (Overriding::Final, Overriding::Final)
    )
}
