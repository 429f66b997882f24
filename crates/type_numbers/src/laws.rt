//! Laws of the numbers of types, and of tables of constants.
ghost use Rattle.type_numbers.specs.Constants.{TablesStay};
ghost use Rattle.type_numbers.specs.NumberLaws.{EqualNumbersAreEqualTypes, TypesHaveOneNumber, NumbersAreBelowAbsent, NumbersAreSlots, NumbersStay, NumbersAreRead};

/// Two types that have one number are equal.
pub fn equal_numbers_are_equal_types()
    ensures { EqualNumbersAreEqualTypes }
{}

/// A type has no more than one number.
pub fn types_have_one_number()
    ensures { TypesHaveOneNumber }
{}

/// No number is that of the slot of absent classes in packed frames.
pub fn numbers_are_below_absent()
    ensures { NumbersAreBelowAbsent }
{}

/// A type has the number that is its slot in packed frames, unless its class is absent.
pub fn numbers_are_slots()
    ensures { NumbersAreSlots }
{}

/// Each type keeps its number.
pub fn numbers_stay()
    ensures { NumbersStay }
{}

/// A number stands for the type that it was given to.
pub fn numbers_are_read()
    ensures { NumbersAreRead }
{}

/// A table of constants stays true where more types have numbers.
pub fn tables_stay()
    ensures { TablesStay }
{}
