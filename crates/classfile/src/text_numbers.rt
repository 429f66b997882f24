//! Numbers of the texts of a constant pool, the same exactly for equal texts: with them, names and descriptors are
//! compared without their bytes.
ghost use Rattle.std.specs.Prelude.{◌≡◌, Ok, IfOk};
ghost use Rattle.pool.specs.Lookups.{text_at};
ghost use Rattle.classfile.specs.TextNumbers.{AreNumbers, Numbers};

use names::Text;
use pool::Pool;
use std::alloc::{AllocError, Global};
use std::collections::BTreeMap;

/// The number of each text that was asked for: the index of the first entry at which it was.
#[derive(Drop)]
pub struct TextNumbers<'a> {
    /// For each entry the number of its text, or 0 where it was not asked for.
    known: Vec<u16>,
    numbers: BTreeMap<&'a [u8], u16>,
}

impl<'a> TextNumbers<'a> {
    /// No text of the pool was asked for.
    pub fn new(alloc: Global, pool: &Pool<'_>) -> Result<TextNumbers<'a>, AllocError>
        ensures { IfOk result (AreNumbers pool.now) }
    {
        let known = vec![in alloc; 0; pool.constants().len()]?;
        Ok(TextNumbers {
            known,
            numbers: BTreeMap::new(alloc),
        })
    }

    /// The number of a text that stands at this index, which is looked for by its bytes. Most have none yet, so its
    /// index is put to them at once.
    fn find(&mut self, _pool: &Pool<'_>, index: u16, text: Text<'a>) -> Result<u16, AllocError>
        requires kept { AreNumbers _pool.now self.now }
        requires text { text_at _pool.now index ≡ Ok text.bytes.now }
        ensures { IfOk result (Numbers _pool.now self.old self.new text.entry.bytes.now) }
    {
        let Some(number) = self.numbers.insert(text.bytes(), index)? else {
            return Ok(index);
        };
        self.numbers.insert(text.bytes(), number)?;
        Ok(number)
    }

    /// The number of the text at this index.
    pub fn of(&mut self, pool: &Pool<'_>, index: u16, text: Text<'a>) -> Result<u16, AllocError>
        requires kept { AreNumbers pool.now self.now }
        requires text { text_at pool.now index ≡ Ok text.bytes.now }
        ensures { IfOk result (Numbers pool.now self.old self.new text.entry.bytes.now) }
    {
        let place = usize::from(index) - 1;
        let known = self.known[place];
        if known != 0 {
            return Ok(known);
        }
        let number = self.find(pool, index, text)?;
        self.known[place] = number;
        Ok(number)
    }
}
