//! The theorem.
ghost use Rattle.verify.specs.Safety.{TypeSafeIsSafe, OperandsAreRight, StackStaysWithin, ControlStaysOnStarts, ObjectsAreReady, OwnObjectIsReady};
ghost use Rattle.verify.specs.ClassMethods.{TypeSafeMethodsAreSafe};
ghost use Rattle.verify.specs.ClassRunSafety.{VerifiedIsPlayable};
ghost use Rattle.verify.specs.HeapRunSafety.{PlayableIsPlayableWithHeap, VerifiedIsPlayableWithHeap};

/// A method that is type-safe under a hierarchy meets no fault in any run, in any world that extends the hierarchy. By
/// its parts: operands and local variables are there and of their types; the stack never passes max_stack; control
/// never leaves the starts of instructions; no object is used before its constructor returned; and no constructor
/// returns before its own object is ready.
pub fn type_safe_is_safe()
    ensures safe { TypeSafeIsSafe }
    ensures of_classes { TypeSafeMethodsAreSafe }
    ensures operands { OperandsAreRight }
    ensures stack { StackStaysWithin }
    ensures control { ControlStaysOnStarts }
    ensures objects { ObjectsAreReady }
    ensures own_object { OwnObjectIsReady }
{}

/// Classes that a hierarchy has as they are, and of which each method with code is type-safe under it, meet no fault
/// when they run together: in no activation of a run in which calls enter their methods, in any world that extends the
/// hierarchy. It need not be assumed that the values which the entered methods return fit.
pub fn verified_is_playable()
    ensures { VerifiedIsPlayable }
{}

/// Classes of which each method with code is type-safe meet no fault when they run together, whatever they store and
/// read: a read gives the default of its type, or any value that was stored there before. It need not be assumed that
/// this value fits, unless others stored it. The second clause is about all classes that are playable.
pub fn verified_is_playable_with_heap()
    ensures verified { VerifiedIsPlayableWithHeap }
    ensures playable { PlayableIsPlayableWithHeap }
{}
