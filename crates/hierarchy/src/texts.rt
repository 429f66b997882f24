//! Texts of a constant pool, long ones kept once, however many members and references have them.
ghost use Rattle.std.specs.Prelude.{◌≡◌, ◌≤◌, ◌<◌, [], List, length, vec_len, vec_capacity, IfOk, OnOk};
ghost use Rattle.pool.specs.Entries.{Entry};
ghost use Rattle.hierarchy.specs.ClassSummary.{text_of};
ghost use Rattle.hierarchy.specs.Summary.{text_among};
ghost use Rattle.hierarchy.specs.Texts.{AreTexts, HasPlace};

use pool::Pool;
use std::alloc::{AllocError, Global};

/// The text at a place of a list, which is empty where no text stands there.
pub fn text_among<'a>(texts: &[&'a [u8]], place: usize) -> &'a [u8]
    ensures { result.now ≡ text_among texts.now place }
{
    if place < texts.len() {
        texts[place]
    } else {
        &[]
    }
}

/// The text at an index of a pool, which is empty where no text stands there.
pub fn text_of<'a>(pool: &Pool<'a>, index: u16) -> &'a [u8]
    ensures { result.now ≡ text_of pool.now index }
{
    match pool.text(index) {
        Ok(text) => text.bytes(),
        Err(_) => &[],
    }
}

/// A place of a list, or its end for any place past it: the text there is empty too.
pub fn place_among(texts: &[&[u8]], place: usize) -> usize
    ensures within { result ≤ length texts.now }
    ensures same { text_among texts.now result ≡ text_among texts.now place }
{
    if place < texts.len() {
        place
    } else {
        texts.len()
    }
}

/// Texts of up to so many bytes are short: one is put again each time it is asked for.
const SHORT: usize = 64;

/// Whether a text is so long that it is kept, looked up and compared once.
fn is_long(text: &[u8]) -> bool {
    text.len() > SHORT
}

/// Whether one of these texts is so long.
pub fn have_long(texts: &[&[u8]]) -> bool {
    for text in texts {
        if is_long(text) {
            return true;
        }
    }
    false
}

/// Takes memory for one text more, and others. It stands apart, so that what puts a text stays small.
#[inline(never)]
fn grow(list: &mut Vec<&[u8]>) -> Result<(), AllocError>
    ensures same { list.new.items ≡ list.old.items }
    ensures room { OnOk result (vec_len list.new < vec_capacity list.new) }
{
    list.reserve(1)
}

/// Makes room for one text more.
#[inline(always)]
fn make_room(list: &mut Vec<&[u8]>) -> Result<(), AllocError>
    ensures same { list.new.items ≡ list.old.items }
    ensures room { OnOk result (vec_len list.new < vec_capacity list.new) }
{
    if list.len() < list.capacity() {
        return Ok(());
    }
    grow(list)
}

/// Texts of a constant pool, in the order in which they were asked for. A long one is there once.
#[derive(Drop)]
pub struct Texts<'a> {
    // For each index of the pool one more than the place of its text, or 0 where that was not put once; empty before the
    // first of these.
    known: Vec<usize>,
    /// The texts.
    pub list: Vec<&'a [u8]>,
}

impl<'a> Texts<'a> {
    /// No text of a pool, and room for so many. It fails only if memory runs out.
    pub fn with_room(alloc: Global, count: usize) -> Result<Texts<'a>, AllocError>
        ensures good { IfOk result (λ texts. (pool : List Entry) → AreTexts pool texts) }
        ensures none { IfOk result (λ texts. texts.list.items ≡ []) }
    {
        Ok(Texts {
            known: Vec::new(alloc),
            list: Vec::with_capacity(alloc, count)?,
        })
    }

    // Puts a text after all others, and returns its place.
    #[inline(always)]
    fn push(&mut self, _pool: &Pool<'_>, _index: u16, text: &'a [u8]) -> Result<usize, AllocError>
        requires good { AreTexts _pool.now self.old }
        requires text { text.now ≡ text_of _pool.now _index }
        ensures place { IfOk result (HasPlace _pool.now self.old self.new _index) }
        ensures same { OnOk result (self.new.known ≡ self.old.known) }
    {
        let place = self.list.len();
        make_room(&mut self.list)?;
        self.list.push_reserved(text);
        Ok(place)
    }

    /// The place of the text at an index of the pool. One that was asked for so before has the place that it got then. It
    /// fails only if memory runs out.
    pub fn place_once(&mut self, pool: &Pool<'a>, index: u16) -> Result<usize, AllocError>
        requires { AreTexts pool.now self.old }
        ensures { IfOk result (HasPlace pool.now self.old self.new index) }
    {
        if self.known.is_empty() {
            self.known = vec![in *self.list.allocator(); 0; pool.constants().len() + 1]?;
        }
        // No text stands behind the last constant.
        let at = usize::from(index);
        if at >= self.known.len() {
            return self.push(pool, index, text_of(pool, index));
        }
        let known = self.known[at];
        if known != 0 {
            return Ok(known - 1);
        }
        let place = self.push(pool, index, text_of(pool, index))?;
        self.known[at] = place + 1;
        Ok(place)
    }

    /// The place of the text at an index of the pool. A long text that was asked for before has the place that it got then.
    /// It fails only if memory runs out.
    pub fn place(&mut self, pool: &Pool<'a>, index: u16) -> Result<usize, AllocError>
        requires { AreTexts pool.now self.old }
        ensures { IfOk result (HasPlace pool.now self.old self.new index) }
    {
        let text = text_of(pool, index);
        if is_long(text) {
            return self.place_once(pool, index);
        }
        self.push(pool, index, text)
    }
}
