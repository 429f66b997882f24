//! Laws that follow from the definitions alone, whatever the code does: of the layout of class files, and of
//! well-formed classes.
ghost use Rattle.std.specs.Prelude.{◌≡◌, ℕ, List, Some};
ghost use Rattle.classfile.specs.OutlineLaws.{ClassIsOutline, OneOutline, OutlineOrFault, NoFaultBehindOutline};
ghost use Rattle.classfile.specs.FileParts.{PartIsFound};
ghost use Rattle.classfile.specs.Laws.{OneClass, OneSpelling, ClassOrFault, NoFaultInClass, OneFault, BodySpellsRows, SpelledIsLaidOut};
ghost use Rattle.classfile.specs.FormLaws.{LeastIsTold, NoneIsTold, FormedOrFaulty, OneFirstFault, NoFaultInFormed, FormedHasNames, NamesAreForms, DescriptorsAreSpellings};
ghost use Rattle.classfile.specs.Methods.{method_of};
ghost use Rattle.classfile.specs.CodeMethods.{class_of, code_method_view};

use crate::code_method::CodeMethod;
use names::{field_answers, method_answers};

/// No bytes spell two classes.
pub fn one_class()
    ensures { OneClass }
{}

/// No class has two spellings.
pub fn one_spelling()
    ensures { OneSpelling }
{}

/// Bytes are a class, or have a fault.
pub fn class_or_fault()
    ensures { ClassOrFault }
{}

/// Bytes that are a class have no fault.
pub fn no_fault_in_class()
    ensures { NoFaultInClass }
{}

/// Bytes have at most one fault that is the first.
pub fn one_fault()
    ensures { OneFault }
{}

/// The bytes of a class file are the outline of one.
pub fn class_is_outline()
    ensures { ClassIsOutline }
{}

/// A stream has at most one outline in front.
pub fn one_outline()
    ensures { OneOutline }
{}

/// A stream has an outline in front, or a fault; not both.
pub fn outline_or_fault()
    ensures either { OutlineOrFault }
    ensures apart { NoFaultBehindOutline }
{}

/// A body has a layout exactly where it spells rows of numbers by it, and these are its rows.
pub fn body_spells_rows()
    ensures rows { BodySpellsRows }
    ensures layout { SpelledIsLaidOut }
{}

/// A part is found only in the table in which the place lies, the constants, the fields, the methods or the attributes
/// of the class, and wherever it lies in one of them.
pub fn part_is_found()
    ensures { PartIsFound }
{}

/// The rule that is reported for a place has the least number of those that are broken there.
pub fn least_rule_is_told()
    ensures some { LeastIsTold }
    ensures none { NoneIsTold }
{}

/// A class is well formed, or has a first fault.
pub fn formed_or_faulty()
    ensures { FormedOrFaulty }
{}

/// A class has at most one first fault.
pub fn one_first_fault()
    ensures { OneFirstFault }
{}

/// A class that is well formed has none.
pub fn no_fault_in_formed()
    ensures { NoFaultInFormed }
{}

/// The tests of names and descriptors are the forms of names and the grammar of descriptors within their limits.
pub fn tests_are_forms()
    ensures names { NamesAreForms }
    ensures descriptors { DescriptorsAreSpellings }
{
    field_answers();
    method_answers();
}

/// A class that is well formed has the texts that it names itself, its superclass and its members by.
pub fn formed_has_names()
    ensures { FormedHasNames }
{}

/// A method is kept as the class file has it, whatever its code says: `A` is what is known of an instruction.
pub fn method_is_told<A>(method: CodeMethod<'_, '_>)
    ensures { (code : List (ℕ × A))
        → method_of (class_of method.entry) method.entry.number code ≡ Some (code_method_view method.entry code) }
{}
