//! The constant pool as one value.
ghost use Rattle.std.specs.Prelude.{◌≡◌};
ghost use Rattle.pool.specs.Views.{views};

use crate::constant::Constant;
use crate::reading::read_pool;
use crate::writing::written;
use layout::{Cursor, Part, ReadFault, WriteFault};
use std::alloc::Global;
use std::marker::Model;

/// The constant pool of a class file (JVMS 4.4): its constants in the order of their indices, of
/// which the first is 1. Its texts are parts of the bytes that it was read from.
#[derive(Drop)]
pub struct Pool<'a> {
    constants: Vec<Constant<'a>>,
}

impl<'a> Model for Pool<'a> {
    ghost use Rattle.std.specs.Prelude.{List};
    ghost use Rattle.pool.specs.Entries.{Entry};
    ghost use Rattle.pool.specs.Views.{views};

    ghost Value = { List Entry };

    ghost view = { λ p. views p.constants.items };
}

impl<'a> Pool<'a> {
    /// The pool of these constants. Whether bytes spell it shows when it is written.
    pub fn new(constants: Vec<Constant<'a>>) -> Pool<'a>
        ensures { result ≡ views constants.entry.items }
    {
        Pool { constants }
    }

    /// The constants in the order of their indices: the first has index 1.
    pub fn constants(&self) -> &[Constant<'a>]
        ensures { views result.now ≡ self.now }
    {
        &self.constants
    }

    /// The constants, to be changed and made into another pool.
    pub fn into_constants(self) -> Vec<Constant<'a>>
        ensures { views result.items ≡ self.entry }
    {
        self.constants
    }
}

/// Refused are, as the first fault in the order of the bytes: 2 `EndsEarly` at a number or text
/// that is not whole; 3 `BadText`; 7 `BadTag` for an unknown tag, for a Long or Double at the last
/// index, and for a method handle's kind outside 1 to 9; 16 `BadPoolCount` for a count of 0.
impl<'a> Part<'a> for Pool<'a> {
    ghost use Rattle.std.specs.Prelude.{List};
    ghost use Rattle.pool.specs.Entries.{Entry, pool, pool_pieces};
    ghost use Rattle.pool.specs.EntryLaws.{writes_pool};

    ghost View = { List Entry };

    ghost view = { λ p. p };

    ghost format = { pool };

    ghost pieces = { pool_pieces };

    ghost written = { writes_pool };

    fn take(alloc: Global, cursor: &mut Cursor<'a>) -> Result<Pool<'a>, ReadFault> {
        let mut step = cursor.fork();
        let pool = read_pool(alloc, &mut step)?;
        *cursor = step;
        Ok(pool)
    }

    fn put(&self, out: &mut Vec<u8>) -> Result<(), WriteFault> {
        let bytes = written(*out.allocator(), self)?;
        out.extend_from_slice(&bytes)?;
        Ok(())
    }
}
