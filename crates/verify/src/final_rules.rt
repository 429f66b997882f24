//! The rules on final classes and methods that a class may break.
ghost use Rattle.std.specs.Prelude.{◌≡◌, IfOk};
ghost use Rattle.hierarchy.specs.Summary.{fact_of};
ghost use Rattle.verify.specs.FinalRules.{final_rule, final_rule_number, has_final_super};

use hierarchy::{Classes, Summary, overriding_method};
use std::alloc::{AllocError, Global};

/// A rule on final classes and methods that a class breaks.
#[derive(Clone, Copy, Debug, PartialEq, Eq)]
pub enum FinalRule {
    /// 81: the superclass is final in the hierarchy (JVMS 4.10.1).
    FinalSuper,
    /// 85: this method, the first that does, overrides a final one (JVMS 4.10, 5.4.5). Methods count from 0. Only a
    /// class that was read by a release is asked for it.
    FinalOverridden { method: usize },
}

impl FinalRule {
    /// The number of this rule.
    pub fn number(&self) -> u8
        ensures { result ≡ final_rule_number self.now }
    {
        match self {
            FinalRule::FinalSuper => 81,
            FinalRule::FinalOverridden { .. } => 85,
        }
    }
}

/// Whether the class of this summary has a superclass, which is final in the hierarchy.
fn has_final_super<C: Classes>(summary: &Summary<'_>, classes: &C) -> bool
    ensures { result ≡ has_final_super (C.content classes.now) (fact_of summary.now) }
{
    match summary.superclass {
        None => false,
        Some(name) => match classes.find(name) {
            None => false,
            Some(found) => found.is_final,
        },
    }
}

/// The first of these rules that the class of this summary breaks in the hierarchy, if it breaks one. It fails only if
/// memory runs out.
pub fn final_rule<C: Classes>(
    alloc: Global,
    summary: &Summary<'_>,
    classes: &C,
) -> Result<Option<FinalRule>, AllocError>
    ensures { IfOk result (λ rule. rule ≡ final_rule (C.content classes.now) (fact_of summary.now)) }
{
    if has_final_super(summary, classes) {
        return Ok(Some(FinalRule::FinalSuper));
    }
    match overriding_method(alloc, classes, summary)? {
        None => Ok(None),
        Some(method) => Ok(Some(FinalRule::FinalOverridden { method })),
    }
}
