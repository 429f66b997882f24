//! Laws of objects that are not initialized, by the numbers of their types.
ghost use Rattle.method_frames.specs.ObjectLaws.{ObjectsHaveNumbers, ObjectsAreObjects, TypesAreReplaced, ObjectsAreFound};

/// The own object that is not initialized and those that `new` made have the numbers by which they are found.
pub fn objects_have_numbers()
    ensures { ObjectsHaveNumbers }
{}

/// The type of an object that is not initialized has a number for which `is_uninitialized` is true.
pub fn objects_are_objects()
    ensures { ObjectsAreObjects }
{}

/// To replace an object's number in a row of numbers is to replace the object's type in the row of types.
pub fn types_are_replaced()
    ensures { TypesAreReplaced }
{}

/// A row of types holds an object's type exactly where the row of their numbers holds the object's number.
pub fn objects_are_found()
    ensures { ObjectsAreFound }
{}
