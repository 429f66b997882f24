//! Laws of faults, of chains of superclasses, of worlds, of summaries, of declarations, of overriding and of places.
ghost use Rattle.hierarchy.specs.Answer.{HasOneSubclassAnswer};
ghost use Rattle.hierarchy.specs.ClassSummary.{SummaryHasTexts};
ghost use Rattle.hierarchy.specs.Faults.{FaultsBreakRules, OneFault, RulesMakeHierarchies};
ghost use Rattle.hierarchy.specs.Extends.{KeepsSubclasses, ExtendsItself, ChainsAreSteps};
ghost use Rattle.hierarchy.specs.Nearest.{NearestIsComputed};
ghost use Rattle.hierarchy.specs.Overrides.{OverridesAreComputed};
ghost use Rattle.hierarchy.specs.Places.{PlacesAreNames};
ghost use Rattle.hierarchy.specs.Rows.{HasOneDepth, IsBelowByDepth};

use classfile::formed_has_names;

/// A subclass in a list of classes is one in each world that extends the list.
pub fn keeps_subclasses()
    ensures { KeepsSubclasses }
{}

/// A hierarchy, as a world, extends itself.
pub fn extends_itself()
    ensures { ExtendsItself }
{}

/// A chain of superclasses is a number of steps up.
pub fn chains_are_steps()
    ensures { ChainsAreSteps }
{}

/// In a hierarchy each class has one depth.
pub fn has_one_depth()
    ensures { HasOneDepth }
{}

/// A class is below another where that is its ancestor at the distance of their depths.
pub fn is_below_by_depth()
    ensures { IsBelowByDepth }
{}

/// A question about a subclass has one answer.
pub fn has_one_subclass_answer()
    ensures { HasOneSubclassAnswer }
{}

/// A list of classes is a hierarchy exactly where it keeps each of the rules that faults tell of.
pub fn rules_make_hierarchies()
    ensures { RulesMakeHierarchies }
{}

/// A list of classes that has a fault is not a hierarchy, apart from memory running out.
pub fn faults_break_rules()
    ensures { FaultsBreakRules }
{}

/// A list of classes has one fault at most, apart from memory running out, and the fault names one class.
pub fn one_hierarchy_fault()
    ensures { OneFault }
{}

/// The texts of the summary of a class that is well formed are those that its constants lead to.
pub fn summary_has_texts()
    ensures { SummaryHasTexts }
{
    formed_has_names();
}

/// Two names with one place are equal.
pub fn places_are_names()
    ensures { PlacesAreNames }
{}

/// In a hierarchy the nearest declaration of a member from a class upward is the one that its word computes.
pub fn nearest_is_computed()
    ensures { NearestIsComputed }
{}

/// In a hierarchy a method overrides a final one exactly where a chain of superclasses leads to a class that declares
/// one that it may not override.
pub fn overrides_are_computed()
    ensures { OverridesAreComputed }
{}
