//! Skips up the chain of superclasses, by doubled steps.
ghost use Rattle.std.specs.Prelude.{◌≡◌, ◌≤◌, IfOk, Some, map, length, slice_get};
ghost use Rattle.hierarchy.specs.Summary.{fact_of, facts_of};
ghost use Rattle.hierarchy.specs.Rules.{IsHierarchy};
ghost use Rattle.hierarchy.specs.private.Skips.{IsSkip, AreSkips, LeadOn, onward, AreTables};

use crate::cycles::superclass_place;
use crate::index::Index;
use crate::summary::Summary;
use std::alloc::{AllocError, Global};
use std::hash::BuildHasher;

/// Where some steps up from a class lead.
#[derive(Clone, Copy)]
pub struct Skip {
    pub place: u16,
    pub steps: u16,
}

/// Skips of 1, 2, 4 and so on steps from each class of a list, and skips from each to `java/lang/Object`.
#[derive(Drop)]
pub struct Skips {
    pub tables: Vec<Vec<Skip>>,
    pub tops: Vec<Skip>,
}

// One step up from the class at a place; none from Object.
fn first_skip<'s, 'a, S: BuildHasher>(
    class: &Summary<'a>,
    place: usize,
    index: &Index<'s, 'a, S>,
) -> Skip
    requires formed { IsHierarchy index.now }
    requires there { slice_get index.now place ≡ Some (fact_of class.now) }
    ensures { IsSkip index.now 1 place result }
{
    match superclass_place(class, index) {
        None => Skip {
            place: place as u16,
            steps: 0,
        },
        Some(above) => Skip {
            place: above as u16,
            steps: 1,
        },
    }
}

// One step up from each class.
fn first_skips<'s, 'a, S: BuildHasher>(
    alloc: Global,
    classes: &[Summary<'a>],
    index: &Index<'s, 'a, S>,
) -> Result<Vec<Skip>, AllocError>
    requires same { index.now ≡ facts_of classes.now }
    requires formed { IsHierarchy index.now }
    ensures { IfOk result (λ skips. AreSkips index.now 1 skips.items) }
{
    let mut skips = Vec::with_capacity(alloc, classes.len())?;
    for (place, class) in classes.iter().enumerate() {
        skips.push(first_skip(class, place, index))?;
    }
    Ok(skips)
}

// Each skip and the next one.
fn doubled(alloc: Global, skips: &[Skip]) -> Result<Vec<Skip>, AllocError>
    requires { LeadOn skips.now }
    ensures { IfOk result (λ twice. twice.items ≡ map (onward skips.now) skips.now) }
{
    let mut twice = Vec::with_capacity(alloc, skips.len())?;
    for skip in skips {
        let next = skips[usize::from(skip.place)];
        twice.push(Skip {
            place: next.place,
            steps: skip.steps + next.steps,
        })?;
    }
    Ok(twice)
}

/// The skips of the classes of a list.
///
/// No class has as many classes above it as there are in all. So the steps are doubled until they are more than that,
/// which takes time n log n for n classes.
pub fn skips_up<'s, 'a, S: BuildHasher>(
    alloc: Global,
    classes: &[Summary<'a>],
    index: &Index<'s, 'a, S>,
) -> Result<Skips, AllocError>
    requires same { index.now ≡ facts_of classes.now }
    requires formed { IsHierarchy index.now }
    ensures { IfOk result (λ skips. AreTables index.now (map (λ t. t.items) skips.tables.items) skips.tops.items) }
{
    let mut tables = Vec::new(alloc);
    let mut tops = first_skips(alloc, classes, index)?;
    let mut left = classes.len();
    while left > 0 {
        let twice = doubled(alloc, &tops)?;
        tables.push(tops)?;
        tops = twice;
        left /= 2;
    }
    Ok(Skips { tables, tops })
}
