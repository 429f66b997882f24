//! Numbers of texts. Of a list with long texts each is looked up once, however many members have it.
ghost use Rattle.std.specs.Borrow.{Bor};
ghost use Rattle.std.specs.Prelude.{◌≡◌, ℕ, List, IfOk, OnOk};
ghost use Rattle.hierarchy.specs.Summary.{text_among};
ghost use Rattle.hierarchy.specs.private.Above.{Numbers, number_of};
ghost use Rattle.hierarchy.specs.private.Flags.{AreNumbers, GetsNumber};
ghost use Rattle.hierarchy.specs.private.TextNumbers.{AreFound, AreGiven};

use crate::texts::{have_long, place_among, text_among};
use std::alloc::{AllocError, Global};
use std::collections::BTreeMap;

/// The number of a text, which gets the next one where it has none.
pub fn number_of<'a>(
    numbers: &mut BTreeMap<&'a [u8], usize>,
    text: &'a [u8],
) -> Result<usize, AllocError>
    requires { AreNumbers numbers.old }
    ensures { IfOk result (GetsNumber numbers.old numbers.new text.entry.now) }
{
    if let Some(number) = numbers.get(text) {
        return Ok(*number);
    }
    let number = numbers.len();
    numbers.insert(text, number)?;
    Ok(number)
}

/// Texts that get numbers. Where one of them is long, each is looked up at most once.
#[derive(Drop)]
pub struct Numbering<'t, 'a> {
    texts: &'t [&'a [u8]],
    // The number of each text that was asked for, and of the empty text behind them. Empty where no text is long.
    given: Vec<Option<usize>>,
}

impl<'t, 'a> Numbering<'t, 'a> {
    /// These texts, of which none was asked for.
    pub fn new(alloc: Global, texts: &'t [&'a [u8]]) -> Result<Numbering<'t, 'a>, AllocError>
        ensures { IfOk result (λ n. (n.texts.now ≡ texts.now)
            × ((numbers : Numbers) → AreGiven numbers n)) }
    {
        let count = if have_long(texts) { texts.len() + 1 } else { 0 };
        let given = vec![in alloc; None; count]?;
        Ok(Numbering { texts, given })
    }

    /// The number of the text at a place, which gets the next one where it has none.
    pub fn number(
        &mut self,
        numbers: &mut BTreeMap<&'a [u8], usize>,
        place: usize,
    ) -> Result<usize, AllocError>
        requires good { AreNumbers numbers.old }
        requires given { AreGiven numbers.old self.old }
        ensures number { IfOk result (GetsNumber numbers.old numbers.new (text_among self.old.texts.now place)) }
        ensures given { OnOk result (AreGiven numbers.new self.new) }
        ensures same { OnOk result (self.new.texts.now ≡ self.old.texts.now) }
    {
        let at = place_among(self.texts, place);
        if at >= self.given.len() {
            return number_of(numbers, text_among(self.texts, at));
        }
        if let Some(number) = self.given[at] {
            return Ok(number);
        }
        let number = number_of(numbers, text_among(self.texts, at))?;
        self.given[at] = Some(number);
        Ok(number)
    }
}

/// Texts whose numbers are asked for. Where one of them is long, each is looked up at most once.
#[derive(Drop)]
pub struct Lookups<'n, 'k, 't, 'a> {
    numbers: &'n BTreeMap<&'k [u8], usize>,
    texts: &'t [&'a [u8]],
    // Of each text that was looked up the number, if it has one, and of the empty text behind them. Empty where no text
    // is long.
    found: Vec<Option<Option<usize>>>,
}

impl<'n, 'k, 't, 'a> Lookups<'n, 'k, 't, 'a> {
    /// These texts, of which none was looked up.
    pub fn new(
        alloc: Global,
        numbers: &'n BTreeMap<&'k [u8], usize>,
        texts: &'t [&'a [u8]],
    ) -> Result<Lookups<'n, 'k, 't, 'a>, AllocError>
        ensures { IfOk result (AreFound numbers.now texts.now) }
    {
        let count = if have_long(texts) { texts.len() + 1 } else { 0 };
        let found = vec![in alloc; None; count]?;
        Ok(Lookups {
            numbers,
            texts,
            found,
        })
    }

    /// The number of the text at a place, if it has one.
    pub fn get(&mut self, place: usize) -> Option<usize>
        requires { (numbers : Numbers) × (texts : List (Bor (List ℕ))) × AreFound numbers texts self.old }
        ensures { (numbers : Numbers) (texts : List (Bor (List ℕ))) → AreFound numbers texts self.old
            → AreFound numbers texts self.new × (result ≡ number_of numbers (text_among texts place)) }
    {
        let at = place_among(self.texts, place);
        if at >= self.found.len() {
            return self.numbers.get(text_among(self.texts, at)).copied();
        }
        if let Some(number) = self.found[at] {
            return number;
        }
        let number = self.numbers.get(text_among(self.texts, at)).copied();
        self.found[at] = Some(number);
        number
    }
}
