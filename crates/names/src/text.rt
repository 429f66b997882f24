//! Texts: bytes that are well-spelled modified UTF-8 (JVMS 4.4.7).

ghost use Rattle.std.specs.Prelude.{◌≡◌, ◌↔◌, ◌++◌, ◌+◌, ◌<◌, ◌≤◌, ℕ, List, [], true, false, length, take, slice_index, IsTrue, IsOk, IfOk, OnOk, IfErr, IsOkUnless, MatchResult, Err, Some, None};
ghost use Rattle.names.specs.Units.{unit_at, is_single, bad_text, units_of};
ghost use Rattle.names.specs.Forms.{AreBetween};
ghost use Rattle.names.specs.UnitsLeft.{units_left};
ghost use Rattle.names.specs.Texts.{IsText, FirstBad, AreUnits, unit, spelling};
ghost use Rattle.names.specs.declared.fault.NameFault.TheVariants.{BadText, OutOfMemory};

use crate::byte_lanes::are_few;
use crate::fault::NameFault;
use crate::one_byte_units::{Single, is_single, single_in_block};
use std::alloc::{AllocError, Global};

/// Bytes that are well-spelled modified UTF-8: each 16-bit unit in its shortest spelling, where 0 takes
/// two bytes. Unpaired surrogates are units like any other.
#[derive(Clone, Copy, Debug, PartialEq, Eq)]
pub struct Text<'a> {
    bytes: &'a [u8],
    pub ghost well_spelled: { ∥ IsText bytes.now ∥₁ },
}

impl<'a> Text<'a> {
    /// The bytes of the text.
    pub fn bytes(self) -> &'a [u8]
        ensures { result.now ≡ self.entry.bytes.now }
    {
        self.bytes
    }

    /// The bytes of the text, in which no unit is badly spelled.
    pub fn spelling(self) -> &'a [u8]
        ensures same { result.now ≡ self.entry.bytes.now }
        ensures good { bad_text self.entry.bytes.now ≡ None }
    {
        self.bytes
    }

    /// How many bytes the text has.
    pub fn len(self) -> usize
        ensures { result ≡ length self.entry.bytes.now }
    {
        self.bytes.len()
    }

    /// Whether the text has no bytes, and so no units.
    pub fn is_empty(self) -> bool
        ensures { IsTrue result ↔ (self.entry.bytes.now ≡ []) }
    {
        self.bytes.is_empty()
    }

    /// The units that the text spells, one by one. Takes no memory.
    pub fn iter(self) -> TextUnits<'a>
        ensures { units_left result ≡ units_of self.entry.bytes.now }
    {
        TextUnits { rest: self.bytes }
    }
}

/// The units of a text, one by one.
#[derive(Drop)]
pub struct TextUnits<'a> {
    rest: &'a [u8],
}

impl<'a> Iterator for TextUnits<'a> {
    ghost use Rattle.std.specs.Iterator.{YieldsFirst, item_count};

    type Item = u16;

    ghost next_gives = { YieldsFirst units_left };

    ghost remaining = { item_count units_left };

    fn next(&mut self) -> Option<u16> {
        let (unit, n) = unit_at(self.rest)?;
        let (_, behind) = self.rest.split_at(n);
        self.rest = behind;
        Some(unit)
    }
}

/// The unit that the bytes begin with, and how many bytes it takes, where these are more than one.
fn longer_at(bytes: &[u8]) -> Option<(u16, usize)>
    requires { is_single (slice_index bytes.now 0) ≡ false }
    ensures { result ≡ unit_at bytes.now }
{
    match bytes {
        [a @ 192..=223, b @ 128..=191, ..] => {
            let unit = (*a as u16 - 192) * 64 + (*b as u16 - 128);
            if unit == 0 || unit >= 128 {
                Some((unit, 2))
            } else {
                None
            }
        }
        [a @ 224..=239, b @ 128..=191, c @ 128..=191, ..] => {
            let unit = ((*a as u16 - 224) * 64 + (*b as u16 - 128)) * 64 + (*c as u16 - 128);
            if unit >= 2048 { Some((unit, 3)) } else { None }
        }
        _ => None,
    }
}

/// The unit that the bytes begin with, and how many bytes it takes. Takes no memory.
pub fn unit_at(bytes: &[u8]) -> Option<(u16, usize)>
    ensures { result ≡ unit_at bytes.now }
{
    match bytes {
        [a @ 1..=127, ..] => Some((*a as u16, 1)),
        _ => longer_at(bytes),
    }
}

/// Passes the unit at a place, which takes more bytes than one, and those after it that do. `Err` has the place of the
/// first unit without a right spelling.
fn past_longer(bytes: &[u8], from: usize) -> Result<usize, usize>
    requires within { from < length bytes.now }
    requires longer { is_single (slice_index bytes.now from) ≡ false }
    requires text { IsText (take from bytes.now) }
    ensures { MatchResult result (λ at. (from < at) × (at ≤ length bytes.now) × IsText (take at bytes.now))
        (λ at. bad_text bytes.now ≡ Some at) }
{
    let mut at = from;
    'units: loop {
        let (_, rest) = bytes.split_at(at);
        match longer_at(rest) {
            None => return Err(at),
            Some((_, n)) => at += n,
        }
        if at == bytes.len() || is_single(bytes[at]) {
            return Ok(at);
        }
    }
}

/// How many bytes from a place on spell a unit each, up to thirty-two, where so many are left.
fn single_in_front(bytes: &[u8], at: usize) -> usize
    requires { at ≤ length bytes.now }
    ensures within { at + result ≤ length bytes.now }
    ensures single { AreBetween is_single bytes.now at (at + result) }
{
    if bytes.len() - at < 32 {
        return 0;
    }
    single_in_block(std::simd::u8x32::from_slice(&bytes[at..]))
}

/// Where the first unit without a right spelling begins, if the bytes in front of a place are a text. Lanes are asked
/// where eight bytes in a row have spelled a unit each.
fn first_bad(bytes: &[u8], from: usize) -> Option<usize>
    requires within { from ≤ length bytes.now }
    requires text { IsText (take from bytes.now) }
    ensures { result ≡ bad_text bytes.now }
{
    let mut at = from;
    let mut run: usize = 0;
    while at < bytes.len() {
        if !is_single(bytes[at]) {
            match past_longer(bytes, at) {
                Ok(end) => at = end,
                Err(at) => return Some(at),
            }
            run = 0;
        } else if run < 8 {
            at += 1;
            run += 1;
        } else {
            at += 1 + single_in_front(bytes, at + 1);
        }
    }
    None
}

/// The bytes as a text, or the refusal of the first unit without a right spelling. It ensures what [`check_text`] does.
#[inline(always)]
fn text_of(bytes: &[u8], bad: Option<usize>) -> Result<Text<'_>, NameFault>
    requires { bad ≡ bad_text bytes.now }
    ensures text { IfOk result (λ t. (t.bytes.now ≡ bytes.now) × IsText bytes.now) }
    ensures accepted { IsText bytes.now → IsOk result }
    ensures fault { IfErr result (λ e. (at : ℕ) × (e ≡ BadText at) × FirstBad bytes.now at) }
    ensures refused { (at : ℕ) → FirstBad bytes.now at → result ≡ Err (BadText at) }
    ensures exact { MatchResult result (λ _. bad_text bytes.now ≡ None)
        (λ e. (k : ℕ) × (e ≡ BadText k) × (bad_text bytes.now ≡ Some k)) }
{
    match bad {
        None => Ok(Text { bytes }),
        Some(at) => Err(NameFault::BadText { at }),
    }
}

/// The bytes as a text (JVMS 4.4.7). Takes no memory.
///
/// Refuses by 3 at the first byte of the first unit that has no right spelling there. Thirty-two bytes that spell a
/// unit each are passed by one comparison of lanes; the last thirty-two may begin before the others end.
pub fn check_text(bytes: &[u8]) -> Result<Text<'_>, NameFault>
    // A text exactly where the bytes are the spelling of units.
    ensures text { IfOk result (λ t. (t.bytes.now ≡ bytes.now) × IsText bytes.now) }
    ensures accepted { IsText bytes.now → IsOk result }

    // 3 exactly where one is badly spelled, at the first such; it is the only refusal.
    ensures fault { IfErr result (λ e. (at : ℕ) × (e ≡ BadText at) × FirstBad bytes.now at) }
    ensures refused { (at : ℕ) → FirstBad bytes.now at → result ≡ Err (BadText at) }

    // So says the word that computes.
    ensures exact { MatchResult result (λ _. bad_text bytes.now ≡ None)
        (λ e. (k : ℕ) × (e ≡ BadText k) × (bad_text bytes.now ≡ Some k)) }
{
    if are_few::<Single>(bytes) {
        return text_of(bytes, None);
    }
    let mut at = 0;
    if bytes.len() >= 32 {
        let last = bytes.len() - 32;
        while at < last && single_in_block(std::simd::u8x32::from_slice(&bytes[at..])) == 32 {
            at += 32;
        }
        if at >= last && single_in_block(std::simd::u8x32::from_slice(&bytes[last..])) == 32 {
            return text_of(bytes, None);
        }
    }
    text_of(bytes, first_bad(bytes, at))
}

/// Appends the one spelling of the unit.
fn push_unit(out: &mut Vec<u8>, u: u16) -> Result<(), AllocError>
    ensures { OnOk result (out.new.items ≡ out.old.items ++ unit u) }
{
    if u == 0 {
        out.extend_from_slice(&[192, 128])
    } else if u < 128 {
        out.extend_from_slice(&[u as u8])
    } else if u < 2048 {
        out.extend_from_slice(&[(192 + u / 64) as u8, (128 + u % 64) as u8])
    } else {
        out.extend_from_slice(&[
            (224 + u / 4096) as u8,
            (128 + (u / 64) % 64) as u8,
            (128 + u % 64) as u8,
        ])
    }
}

/// The one spelling of the units (JVMS 4.4.7). Refuses by 1 alone.
pub fn spell(alloc: Global, units: &[u16]) -> Result<Vec<u8>, NameFault>
    ensures spelled { IfOk result (λ v. v.items ≡ spelling units.now) }
    ensures memory { IsOkUnless result OutOfMemory }
{
    let mut out = Vec::new(alloc);
    for u in units {
        push_unit(&mut out, *u)?;
    }
    Ok(out)
}

/// The units that the text spells. Refuses by 1 alone.
pub fn units(alloc: Global, text: Text<'_>) -> Result<Vec<u16>, NameFault>
    ensures fit { IfOk result (λ v. AreUnits v.items) }
    ensures spelled { IfOk result (λ v. spelling v.items ≡ text.entry.bytes.now) }
    ensures memory { IsOkUnless result OutOfMemory }
{
    let mut out = Vec::new(alloc);
    let mut rest = text.bytes;
    'units: loop {
        match unit_at(rest) {
            None => return Ok(out),
            Some((u, n)) => {
                out.push(u)?;
                let (_, after) = rest.split_at(n);
                rest = after;
            }
        }
    }
}

/// A text spells one list of units: different lists have different spellings.
pub fn one_unit_list()
    ensures { (a b : List ℕ) → AreUnits a → AreUnits b → spelling a ≡ spelling b → a ≡ b }
{}

/// The words that compute say of bytes what the spelling of units says.
pub fn text_answers()
    ensures text { (bytes : List ℕ) → (bad_text bytes ≡ None) ↔ IsText bytes }
    ensures bad { (bytes : List ℕ) (at : ℕ) → (bad_text bytes ≡ Some at) ↔ FirstBad bytes at }
    ensures units { (us : List ℕ) → AreUnits us → units_of (spelling us) ≡ us }
{}
