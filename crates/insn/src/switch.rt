//! The parts of a switch, and where it goes. No call takes memory.
ghost use Rattle.std.specs.Prelude.{◌≡◌, [], ◌∷◌, MatchOption};
ghost use Rattle.insn.specs.Instructions.{pairs};
ghost use Rattle.insn.specs.SwitchParts.{padding_of, number_of, behind, default_of, low_of, high_of, table_of, count_of, pairs_of};
ghost use Rattle.insn.specs.Views.{targets_view, offsets_left, pairs_left};

use byteorder::{BigEndian, ByteOrder};

/// The parts of a `tableswitch` (JVMS 6.5).
#[derive(Clone, Copy, Debug)]
pub struct TableSwitch<'a> {
    /// 0 to 3 bytes as they stand, whatever they are.
    pub padding: &'a [u8],
    /// Where to go for other keys, in bytes from the instruction's own start.
    pub default: i32,
    /// The least key of the table.
    pub low: i32,
    /// The greatest key of the table.
    pub high: i32,
    /// For each key from `low` to `high` four bytes that say where to go.
    pub offsets: &'a [u8],
}

impl<'a> TableSwitch<'a> {
    /// The parts of all bytes after the opcode, as an instruction keeps them
    /// ([`Operands::TableSwitch`](crate::Operands)). Their number modulo 4 is that of the padding,
    /// and a number whose bytes are missing counts as -1.
    pub fn new(bytes: &'a [u8]) -> Self
        ensures padding { result.padding.now ≡ padding_of bytes.now }
        ensures default { result.default ≡ default_of bytes.now }
        ensures low { result.low ≡ low_of bytes.now }
        ensures high { result.high ≡ high_of bytes.now }
        ensures offsets { result.offsets.now ≡ table_of bytes.now }
    {
        let (padding, fours) = bytes.split_at(bytes.len() % 4);
        let (default, fours) = first_number(fours);
        let (low, fours) = first_number(fours);
        let (high, offsets) = first_number(fours);
        TableSwitch {
            padding,
            default,
            low,
            high,
            offsets,
        }
    }
}

/// The parts of a `lookupswitch` (JVMS 6.5).
#[derive(Clone, Copy, Debug)]
pub struct LookupSwitch<'a> {
    /// 0 to 3 bytes as they stand, whatever they are.
    pub padding: &'a [u8],
    /// Where to go for other keys, in bytes from the instruction's own start.
    pub default: i32,
    /// How many pairs there are.
    pub count: i32,
    /// Pairs of four bytes for a key and four that say where to go.
    pub pairs: &'a [u8],
}

impl<'a> LookupSwitch<'a> {
    /// The parts of all bytes after the opcode, as an instruction keeps them
    /// ([`Operands::LookupSwitch`](crate::Operands)). Their number modulo 4 is that of the padding,
    /// and a number whose bytes are missing counts as -1.
    pub fn new(bytes: &'a [u8]) -> Self
        ensures padding { result.padding.now ≡ padding_of bytes.now }
        ensures default { result.default ≡ default_of bytes.now }
        ensures count { result.count ≡ count_of bytes.now }
        ensures pairs { result.pairs.now ≡ pairs_of bytes.now }
    {
        let (padding, fours) = bytes.split_at(bytes.len() % 4);
        let (default, fours) = first_number(fours);
        let (count, pairs) = first_number(fours);
        LookupSwitch {
            padding,
            default,
            count,
            pairs,
        }
    }
}

/// The number in front of fours of bytes, -1 where there is none, and the fours after it.
fn first_number(fours: &[u8]) -> (i32, &[u8])
    ensures number { result.0 ≡ number_of fours.now }
    ensures others { result.1.now ≡ behind fours.now }
{
    match fours {
        [a, b, c, d, others @ ..] => (BigEndian::read_i32(&[*a, *b, *c, *d]), others),
        _ => (-1, &[]),
    }
}

/// The bytes that the targets of a switch are read from.
#[derive(Clone, Copy, Debug)]
pub enum Targets<'a> {
    /// `tableswitch`: four bytes for each offset.
    Offsets(&'a [u8]),
    /// `lookupswitch`: four bytes for each key, and four for its offset.
    Pairs(&'a [u8]),
}

impl<'a> Targets<'a> {
    /// The offsets, from the switch's own start, in the order of the table; the default's is not
    /// among them.
    pub fn offsets(self) -> Offsets<'a>
        ensures { offsets_left result ≡ targets_view self.entry }
    {
        Offsets { targets: self }
    }
}

/// The offsets of a switch, one by one.
#[derive(Clone, Copy, Debug)]
pub struct Offsets<'a> {
    targets: Targets<'a>,
}

impl<'a> Iterator for Offsets<'a> {
    ghost use Rattle.std.specs.Iterator.{YieldsFirst, item_count};

    type Item = i32;

    ghost next_gives = { YieldsFirst offsets_left };

    ghost remaining = { item_count offsets_left };

    fn next(&mut self) -> Option<i32> {
        match self.targets {
            Targets::Offsets([a, b, c, d, others @ ..]) => {
                self.targets = Targets::Offsets(others);
                Some(BigEndian::read_i32(&[*a, *b, *c, *d]))
            }
            Targets::Offsets(_) => None,
            Targets::Pairs(bytes) => {
                let ((_, offset), others) = first_pair(bytes)?;
                self.targets = Targets::Pairs(others);
                Some(offset)
            }
        }
    }
}

/// The keys of a `lookupswitch` with the offsets where it goes for them, one by one.
#[derive(Drop)]
pub struct Pairs<'a> {
    bytes: &'a [u8],
}

impl<'a> Pairs<'a> {
    /// The pairs that these bytes have, as a switch has them
    /// ([`LookupSwitch`](LookupSwitch::pairs)).
    pub fn new(bytes: &'a [u8]) -> Self
        ensures { pairs_left result ≡ pairs bytes.now }
    {
        Pairs { bytes }
    }
}

impl<'a> Iterator for Pairs<'a> {
    ghost use Rattle.std.specs.Iterator.{YieldsFirst, item_count};

    type Item = (i32, i32);

    ghost next_gives = { YieldsFirst pairs_left };

    ghost remaining = { item_count pairs_left };

    fn next(&mut self) -> Option<(i32, i32)> {
        let (pair, others) = first_pair(self.bytes)?;
        self.bytes = others;
        Some(pair)
    }
}

/// The pair in front of these bytes, and the bytes after it.
fn first_pair(bytes: &[u8]) -> Option<((i32, i32), &[u8])>
    ensures { MatchOption result (pairs bytes.now ≡ []) (λ x. pairs bytes.now ≡ x.0 ∷ pairs x.1.now) }
{
    match bytes {
        [a, b, c, d, e, f, g, h, others @ ..] => {
            let key = BigEndian::read_i32(&[*a, *b, *c, *d]);
            let offset = BigEndian::read_i32(&[*e, *f, *g, *h]);
            Some(((key, offset), others))
        }
        _ => None,
    }
}
