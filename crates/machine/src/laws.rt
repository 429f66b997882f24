//! The breadth of the machine's choices, beginnings, runs and worlds.
ghost use Rattle.machine.specs.Breadth.{StepBreadth, StepBounds, WorldBreadth};
ghost use Rattle.machine.specs.Pushes.{StackBounds};
ghost use Rattle.machine.specs.RunBreadth.{StartBreadth, RunBreadth};
ghost use Rattle.machine.specs.Uses.{ObjectsAreInitialized, OperandsAreInitialized};
ghost use Rattle.machine.specs.OperandTypes.{OperandsAreTyped, OwnObjectIsDone, StackIsWithin};
ghost use Rattle.machine.specs.NamedConstants.{ConstantsAreNamed};
ghost use Rattle.machine.specs.Stores.{StoresAreWritten};
ghost use Rattle.machine.specs.Below.{ArraysAreBelowThree, BelowIsByCases};
ghost use Rattle.machine.specs.SharedWords.{ConstantsAreSaid, OwnFieldsAreSaid, RangesAreSaid, ReceiversAreSaid, TargetsAreSaid};

/// At a state that is not a fault an instruction goes each way with each answer of its type, and each Throwable may be
/// raised, whatever objects come into being meanwhile.
pub fn step_breadth()
    ensures { StepBreadth }
{}

/// Nothing else happens: a step leads to a target or on, by an answer that fits, which stands on what is beneath the
/// operands; objects that are ready stay so; what is null where an array, an object or a receiver is asked only raises;
/// and what is raised is a Throwable that is ready, caught by an entry that covers the instruction and catches it.
pub fn step_bounds()
    ensures { StepBounds }
{}

/// The stack after a step is the one that the instruction leaves: what is beneath its operands, and on that a number
/// of its kind, null, the answer, the value of its local variable, the value that was cast, or the items that it moves.
pub fn stack_bounds()
    ensures { StackBounds }
{}

/// Each reference that an instruction uses is null, or its object's constructor has returned; but in an instance
/// initialization method fields that the class declares may be set in the own object. Of the parts of a state that is
/// no fault that on operands says so alone, and so does that on objects.
pub fn used_is_initialized()
    ensures operands { OperandsAreInitialized }
    ensures objects { ObjectsAreInitialized }
{}

/// At a state that is no fault each operand, each local variable that is read, the receiver of a constructor and a result
/// are of the types that the instruction and its constant ask for, and there are as many as they ask for. The stack is
/// within max_stack, and after a step too. An instance initialization method returns only if its own object is
/// initialized. Each part of the demands says so alone.
pub fn operands_are_typed()
    ensures operands { OperandsAreTyped }
    ensures stack { StackIsWithin }
    ensures own_object { OwnObjectIsDone }
{}

/// At a state that is no fault the constant that an instruction names is there, and of the kind that the instruction asks
/// for.
pub fn constants_are_named()
    ensures { ConstantsAreNamed }
{}

/// A store writes the value on top of the stack; a long or double has its second half after it. The other half of a long
/// or double that is overwritten in part is empty, and all other local variables stay.
pub fn stores_are_written()
    ensures { StoresAreWritten }
{}

/// A run-time type is below a type exactly by the cases of the standard; so no array is below a class but Object,
/// Cloneable and Serializable.
pub fn below_is_by_cases()
    ensures cases { BelowIsByCases }
    ensures arrays { ArraysAreBelowThree }
{}

/// The words that rules, machine and laws share mean what the standard says: the receiver of a method by its flags, its
/// name and its class, the offsets that an entry of an exception table covers, the fields that a class declares, and
/// where offsets lead.
pub fn shared_words_are_said()
    ensures receivers { ReceiversAreSaid }
    ensures ranges { RangesAreSaid }
    ensures own_fields { OwnFieldsAreSaid }
    ensures targets { TargetsAreSaid }
{}

/// A constant means a type, a field, a method, a computed value or a call site exactly if the texts at its indices do.
pub fn constants_are_said()
    ensures { ConstantsAreSaid }
{}

/// A method begins with every heap, every receiver that it may have, and all arguments of its types; each stands in the
/// local variable after those before it, and all others are empty.
pub fn start_breadth()
    ensures { StartBreadth }
{}

/// A beginning is a run; a run with a step after it, or with an exception that is caught, is one.
pub fn run_breadth()
    ensures { RunBreadth }
{}

/// A hierarchy extends itself, alone, with one more interface, and with one more class under any superclass or none; and
/// each world that extends it still does with one more class, so there are worlds with any number of them.
pub fn world_breadth()
    ensures { WorldBreadth }
{}
