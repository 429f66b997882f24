//! The meaning of the verdict on a method, the breadth of class runs, and the words by which methods and members are
//! seen.
ghost use Rattle.verify.specs.Breaks.{ConditionsAreFields, MapRefusedBreaks, RefusedBreaks};
ghost use Rattle.verify.specs.Refusals.{MapRefusedWhere, RefusedWhere};
ghost use Rattle.verify.specs.DetailLaws.{DetailsAreTold, MapDetailsAreTold};
ghost use Rattle.verify.specs.FitsBreadth.{FitsBreadth};
ghost use Rattle.verify.specs.ClassRunBreadth.{ClassRunBreadth};
ghost use Rattle.verify.specs.HeapRunBreadth.{EachMomentIsSafe, HeapRunBreadth};
ghost use Rattle.verify.specs.PlayableMethods.{AllAreInPlay, PlayableIsSafe};
ghost use Rattle.verify.specs.MemberWords.{BootstrapsAreSaid, ConstructorsAreSaid, GuardsAreSaid, InterfacesAreSaid, PackagesAreSaid};
ghost use Rattle.verify.specs.SeenMethods.{MethodsAreSeen};
ghost use Rattle.verify.specs.JudgedFrames.{FramesAreJudged};
ghost use Rattle.verify.specs.OneVerdict.{OneVerdict, OneReport, OneFrames};
ghost use Rattle.verify.specs.VerdictLaws.{TypeSafeIsVerified, VerifiedIsTypeSafe};
ghost use Rattle.verify.specs.VerifiedWalks.{WalksAreRuns};

use machine::laws::step_breadth;

/// A method whose verdict is verified is type-safe.
pub fn verified_is_type_safe()
    ensures { VerifiedIsTypeSafe }
{}

/// The verdict on a method that is type-safe is verified, so a refusal denies that it is type-safe.
pub fn type_safe_is_verified()
    ensures { TypeSafeIsVerified }
{}

/// The meaning of a refusal: it is given exactly where one of these holds. Receiver and parameters do not fit. Or they
/// do, and an entry of the exception table is refused, and those in front of it are sound; or the initial frame does
/// not fit the one declared at 0; or the method is type-safe up to an instruction, and either the reason is the least
/// that holds there, or it is against the frame at the next start alone.
pub fn refused_where()
    ensures { RefusedWhere }
{}

/// The stack map is refused exactly where receiver and parameters fit, and the map has this fault.
pub fn map_refused_where()
    ensures { MapRefusedWhere }
{}

/// Each condition of the verdict holds exactly where a field of the definition of type-safe is broken, and has the
/// number of this field: 67 and 68 at targets, 73 at handlers, 71, 75, 69 and 70 at the next start, 72 for an entry of
/// the exception table, 77 for a class that is missing, and the reasons of the rule. So the number of a refusal says
/// which field is broken, 64 and 78 at 0 among them, and no field with a lesser number is broken.
pub fn refused_breaks()
    ensures fields { ConditionsAreFields }
    ensures refusal { RefusedBreaks }
    ensures stack_map { MapRefusedBreaks }
{}

/// A method has one verdict, whatever the hierarchy.
pub fn one_verdict()
    ensures { OneVerdict }
{}

/// A class has one report.
pub fn one_report()
    ensures { OneReport }
{}

/// The methods of a class, with the verdicts on them, have the same frames at the instructions at which they are
/// refused.
pub fn one_frames()
    ensures { OneFrames }
{}

/// The frames at the instruction at which code is refused are those by which it is: the reason is the one against the
/// frame that comes to it, or the least of what is asked of the instruction in the frame before it.
pub fn frames_are_judged()
    ensures { FramesAreJudged }
{}

/// If a method is refused with 61 to 63, 68, 69, 72, 73 or 75, there is a detail that says what is wrong. For 62 there
/// are two exceptions: an instruction that moves items of the stack, if the items on top have none of its forms, and a
/// `new` whose object of an earlier pass is still on the stack.
pub fn details_are_told()
    ensures { DetailsAreTold }
{}

/// If a stack map is refused, there is a detail that says which entry is at fault, unless the number of the entries is
/// cut or bytes follow the last one.
pub fn map_details_are_told()
    ensures { MapDetailsAreTold }
{}

/// In the machine a type takes all values that the verifier lets it take: null, and what is of a type that is
/// assignable to it.
pub fn fits_breadth()
    ensures { FitsBreadth }
{}

/// Each state that a walk reaches is one of a run, where the method begins in its first state.
pub fn walks_are_runs()
    ensures { WalksAreRuns }
{}

/// A run through the methods of classes in play begins in each of them. It goes on by each step of its last activation;
/// by each call into each method in play that the call selects, whatever its values are; by each return to the caller,
/// whatever the answer is, as long as that is ready for the caller; and by each object that is raised to each caller
/// that catches it, past those that do not.
pub fn class_run_breadth()
    ensures { ClassRunBreadth }
{
    step_breadth();
}

/// A read gives each value that was ever stored in its place and is ready for the activation, and so the default of its
/// type; and it gives no other. A store stays in its place, and is in no other one. An array of references takes exactly
/// the values of its component. Others store each value that fits, and no other. A step of a class run is one here if
/// what it reads comes from the history; and without its history each run here is a class run. Where classes are playable
/// with a heap, no activation is at a fault in any moment to which a run comes.
pub fn heap_run_breadth()
    ensures runs { HeapRunBreadth }
    ensures safe { EachMomentIsSafe }
{}

/// Each method with code of each class of the list is in play, by the texts of its name and its descriptor. If the
/// classes are playable, each of these methods is safe by itself, in each part of the theorem.
pub fn playable_methods_are_safe()
    ensures in_play { AllAreInPlay }
    ensures safe { PlayableIsSafe }
{}

/// The words on which 82, 86 and 90 rest mean what the standard says: the package of a class by its name, the members
/// that a class may use on its own objects alone, the constructors that are such members, the interfaces whose methods
/// `invokespecial` may not call, and the bootstrap methods that may be used.
pub fn member_words_are_said()
    ensures packages { PackagesAreSaid }
    ensures guards { GuardsAreSaid }
    ensures constructors { ConstructorsAreSaid }
    ensures interfaces { InterfacesAreSaid }
    ensures bootstraps { BootstrapsAreSaid }
{}

/// A method with code is seen as its class file has it: its class, superclass and direct superinterfaces, its flags and
/// its name, its limits, its exception table, and the fields of its class.
pub fn methods_are_seen()
    ensures { MethodsAreSeen }
{}
