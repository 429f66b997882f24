//! Laws of code. The functions do nothing: their contracts are the laws.
ghost use Rattle.std.specs.Prelude.{◌≡◌, ℕ, List, Some};
ghost use Rattle.insn.specs.declared.fault.CodeFault.{CodeFault};
ghost use Rattle.insn.specs.declared.opcode.Opcode.{Opcode};
ghost use Rattle.insn.specs.Instructions.{Instruction};
ghost use Rattle.insn.specs.Code.{SpellsCode, FaultyCode};
ghost use Rattle.insn.specs.TableLaws.{KindsAreRows, ArraysAreTaken, FormsMoveUnits};
ghost use Rattle.insn.specs.Laws.{OneSpelling, StartsAreSums, SizesAdd, WrittenIsRead, ReadIsWritten};
ghost use Rattle.insn.specs.Opcodes.{number, opcode_of};
ghost use Rattle.insn.specs.Decoding.{ResultsAreSpellings};

/// Bytes are the code of one list of instructions at most, and then no instruction in them is at
/// fault; other bytes have one fault at most.
pub fn code_is_one_list()
    ensures one { (bytes : List ℕ) (xs ys : List (ℕ × Instruction))
        → SpellsCode 0 bytes xs → SpellsCode 0 bytes ys → xs ≡ ys }
    ensures either { (bytes : List ℕ) (xs : List (ℕ × Instruction)) (e : CodeFault)
        → SpellsCode 0 bytes xs → FaultyCode bytes e → ⊥ }
    ensures fault { (bytes : List ℕ) (e f : CodeFault) → FaultyCode bytes e → FaultyCode bytes f → e ≡ f }
{}

/// The function `code_result` and the relations `SpellsCode` and `FaultyCode` say the same of all code.
pub fn results_are_spellings()
    ensures { ResultsAreSpellings }
{}

/// Opcodes and their numbers are two ways through one table.
pub fn opcodes_have_numbers()
    ensures number { (o : Opcode) → opcode_of (number o) ≡ Some o }
    ensures opcode { (n : ℕ) (o : Opcode) → opcode_of n ≡ Some o → number o ≡ n }
{}

/// Instructions are the code of one list of bytes at most; each begins where those before it end,
/// and code has as many bytes as its instructions.
pub fn list_is_one_code()
    ensures spelling { OneSpelling }
    ensures starts { StartsAreSums }
    ensures size { SizesAdd }
{}

/// The code that was written is read as the instructions that it was written from.
pub fn written_is_read()
    ensures { WrittenIsRead }
{}

/// The instructions that were read are written as the code that they were read from.
pub fn read_is_written()
    ensures { ReadIsWritten }
{}

/// The kind as which a number of a primitive type is computed with, and the arrays that an element
/// instruction takes, are those of the standard's tables.
pub fn kinds_and_arrays()
    ensures kinds { KindsAreRows }
    ensures arrays { ArraysAreTaken }
{}

/// The forms of an instruction for the stack are for all items of so many units on top and so many
/// beneath them, whatever the items, and for no others: those on top are dropped, copied or exchanged.
pub fn forms_move_units()
    ensures { FormsMoveUnits }
{}
