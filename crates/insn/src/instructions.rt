//! The bytes of a method's code as instructions, one after the other. No call takes memory.
ghost use Rattle.std.specs.Prelude.{◌≡◌};

use crate::acts::Act;
use crate::fault::CodeFault;
use crate::instruction::{Insn, Operands};
use crate::instruction_acts::{act, made_index};
use crate::instruction_reading::{
    read_insn, skip_unconstrained, take_alone, take_common_act, take_new,
};
use layout::Cursor;
use std::marker::Model;

/// The instructions of a method's code (JVMS 4.7.3, `code`), each with the offset in bytes where it
/// begins, read from the bytes as they are asked for.
///
/// It ends after the last instruction, or after the first that is at fault, whose fault it returns,
/// 31 to 35. It takes no memory, whatever the code's length, and each instruction borrows from the
/// code.
///
/// [`decode_code`](crate::decode_code) is these instructions in a list.
#[derive(Drop)]
pub struct Instructions<'a> {
    cursor: Cursor<'a>,
}

impl<'a> Model for Instructions<'a> {
    ghost use Rattle.layout.specs.Place.{Place};

    ghost Value = { Place };

    ghost view = { λ s. s.cursor };
}

impl<'a> Instructions<'a> {
    ghost use Rattle.std.specs.Prelude.{◌↔◌, true, false, Some, None, Ok, IsTrue, length, nat_eq};
    ghost use Rattle.insn.specs.Code.{StepsBy, StepsThrough, HasInstruction};
    ghost use Rattle.insn.specs.Offsets.{by_act, by_made};
    ghost use Rattle.insn.specs.Unconstrained.{HasUnconstrained};
    ghost use Rattle.insn.specs.Views.{act_located, located};

    /// The instructions of this code, from its first byte on.
    pub fn new(code: &'a [u8]) -> Self
        ensures { result ≡ record { at = 0; rest = code.now } }
    {
        Instructions {
            cursor: Cursor::new(code),
        }
    }

    /// Whether no byte is left.
    pub fn is_at_end(&self) -> bool
        ensures { result ≡ nat_eq (length self.now.rest) 0 }
    {
        self.cursor.rest().is_empty()
    }

    /// The offset of the byte in front, or of the end.
    pub fn at(&self) -> usize
        ensures { result ≡ self.now.at }
    {
        self.cursor.at()
    }

    /// Moves past the instruction in front and returns its act, as [`act`](crate::act) does. An instruction has to
    /// begin there.
    #[inline(always)]
    pub fn take_act(&mut self) -> Act<'a>
        requires { HasInstruction self.old }
        ensures { StepsBy act_located by_act self.old (Some (Ok (self.old.at, result))) self.new }
    {
        match take_common_act(&mut self.cursor) {
            Some(act) => act,
            None => self.take_other_act(),
        }
    }

    #[inline(never)]
    fn take_other_act(&mut self) -> Act<'a>
        requires { HasInstruction self.old }
        ensures { StepsBy act_located by_act self.old (Some (Ok (self.old.at, result))) self.new }
    {
        match read_insn(&mut self.cursor) {
            Ok(insn) => act(&insn),
            Err(_) => unreachable!(),
        }
    }

    /// Moves past the instruction in front, where its operands are unconstrained and it is no `new`, and returns
    /// whether it did; otherwise it stays where it is, and [`next_start`](Instructions::next_start) goes on. Operands
    /// are unconstrained where any bytes after the opcode, as many as its form has, are its operands (JVMS 6.5).
    #[inline(always)]
    pub fn skip_unconstrained(&mut self) -> bool
        ensures skipped { result ≡ true → StepsBy (λ x. x) by_made self.old (Some (Ok (self.old.at, None))) self.new }
        ensures stayed { result ≡ false → self.new ≡ self.old }
        ensures when { IsTrue result ↔ HasUnconstrained self.old.rest }
    {
        skip_unconstrained(&mut self.cursor)
    }

    /// Goes on as `next` does, and returns where an instruction begins and, if it is a `new`, the index of the class
    /// of which it makes an object (JVMS 6.5, new).
    #[inline(never)]
    pub fn next_start(&mut self) -> Option<Result<(usize, Option<u16>), CodeFault>>
        ensures { StepsBy (λ x. x) by_made self.old result self.new }
    {
        if self.is_at_end() {
            return None;
        }
        let at = self.cursor.at();
        if self.skip_unconstrained() {
            return Some(Ok((at, None)));
        }
        self.start_with_operands()
    }

    /// Goes on as `next` does where no instruction without operands is in front.
    #[inline(never)]
    fn next_with_operands(&mut self) -> Option<Result<(usize, Insn<'a>), CodeFault>>
        ensures { StepsThrough located self.old result self.new }
    {
        if self.cursor.rest().is_empty() {
            return None;
        }
        let at = self.cursor.at();
        match read_insn(&mut self.cursor) {
            Ok(insn) => Some(Ok((at, insn))),
            Err(fault) => {
                self.cursor = Cursor::new(&[]);
                Some(Err(fault))
            }
        }
    }

    #[inline(never)]
    fn start_with_operands(&mut self) -> Option<Result<(usize, Option<u16>), CodeFault>>
        ensures { StepsBy (λ x. x) by_made self.old result self.new }
    {
        let at = self.cursor.at();
        if let Some(index) = take_new(&mut self.cursor) {
            return Some(Ok((at, Some(index))));
        }
        match self.next_with_operands()? {
            Ok((at, insn)) => Some(Ok((at, made_index(&insn)))),
            Err(fault) => Some(Err(fault)),
        }
    }
}

impl<'a> Iterator for Instructions<'a> {
    ghost use Rattle.std.specs.Prelude.{length};
    ghost use Rattle.std.specs.Iterator.{at_most};
    ghost use Rattle.insn.specs.Code.{StepsThrough};
    ghost use Rattle.insn.specs.Views.{located};

    type Item = Result<(usize, Insn<'a>), CodeFault>;

    ghost next_gives = { StepsThrough located };

    ghost remaining = { λ s. at_most (length s.rest) };

    fn next(&mut self) -> Option<Result<(usize, Insn<'a>), CodeFault>> {
        let at = self.cursor.at();
        match take_alone(&mut self.cursor) {
            Some(opcode) => {
                let operands = Operands::Nothing;
                Some(Ok((at, Insn { opcode, operands })))
            }
            None => self.next_with_operands(),
        }
    }
}
