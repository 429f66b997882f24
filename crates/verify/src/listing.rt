//! Whether a hierarchy has a class as it is.
ghost use Rattle.std.specs.Prelude.{◌≡◌, ◌↔◌, IsTrue, IfOk, Some};
ghost use Rattle.classfile.specs.Views.{class_view};
ghost use Rattle.hierarchy.specs.Class.{class_of};
ghost use Rattle.hierarchy.specs.Rules.{IsHierarchy};
ghost use Rattle.hierarchy.specs.Summary.{fact_of};
ghost use Rattle.verify.specs.Listed.{IsListed};

use classfile::Formed;
use hierarchy::{Classes, Summary, same_summary, summary_of};
use std::alloc::{AllocError, Global};

/// Whether the class of the summary's name has exactly this summary. It fails only if memory runs out.
pub fn has_summary<C: Classes>(
    alloc: Global,
    summary: &Summary<'_>,
    classes: &C,
) -> Result<bool, AllocError>
    ensures found { IfOk result (λ b. IsTrue b
        ↔ (class_of (C.content classes.now) (fact_of summary.now).name ≡ Some (fact_of summary.now))) }
    ensures formed { IfOk result (λ b. IsHierarchy (C.content classes.now)) }
{
    match classes.find(summary.name) {
        None => Ok(false),
        Some(found) => same_summary(alloc, found, summary),
    }
}

/// Whether the hierarchy has a class with exactly the summary of this one. The only refusal: memory ran out.
pub fn is_listed<C: Classes>(
    alloc: Global,
    formed: &Formed<'_, '_>,
    classes: &C,
) -> Result<bool, AllocError>
    ensures found { IfOk result (λ b. IsTrue b ↔ IsListed (C.content classes.now) (class_view formed.now.class.now)) }
    ensures formed { IfOk result (λ b. IsHierarchy (C.content classes.now)) }
{
    let summary = summary_of(alloc, formed)?;
    has_summary(alloc, &summary, classes)
}
