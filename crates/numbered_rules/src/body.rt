//! A method's code, the instructions of which are run, and the numbers of the types that their rules ask for.
ghost use Rattle.std.specs.Prelude.{◌≡◌};
ghost use Rattle.frames.specs.MarkedCode.{code_in};

use crate::rule_numbers::RuleNumbers;
use classfile::CodeMethod;
use frames::CodeStarts;

/// The code of a method, with everything that the rules of its instructions ask for (JVMS 4.10.1.6), besides the frame
/// and the facts about what an instruction names.
#[derive(Clone, Copy)]
pub struct Body<'n, 'a> {
    /// The method, with its Code attribute.
    pub method: &'n CodeMethod<'n, 'a>,
    /// The offsets at which the instructions of that code begin.
    pub starts: &'n CodeStarts<'n>,
    /// The numbers of the types that the rules of its instructions ask for.
    pub numbers: RuleNumbers<'n>,
    ghost code: { code_in starts.now ≡ method.now.code.now.code.now },
}
