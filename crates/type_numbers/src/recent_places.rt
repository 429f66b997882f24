//! The places of classes whose names were asked for a short while ago.
ghost use Rattle.std.specs.Prelude.{◌<◌, List, IfSome};
ghost use Rattle.hierarchy.specs.Class.{ClassFact};
ghost use Rattle.type_numbers.specs.private.RecentPlaces.{ArePlaces, IsPlace, KeptNames};

/// How many names are kept at most.
const COUNT: usize = 256;

/// The places of some names among the classes of a hierarchy. Each name has one slot, which it shares with other names,
/// and the slot keeps the one that was asked for last. So one comparison tells whether a name is kept.
#[derive(Drop)]
pub struct RecentPlaces<'n> {
    slots: [Option<(&'n [u8], u16)>; COUNT],
}

/// The byte at a place of a name, or 0 after its end.
fn byte_at(name: &[u8], place: usize) -> usize
    ensures { result < 256 }
{
    match name.get(place) {
        Some(byte) => usize::from(*byte),
        None => 0,
    }
}

/// The slot of a name, which depends on its length, its last byte and the one in its middle.
fn slot_of(name: &[u8]) -> usize
    ensures { result < COUNT }
{
    let last = byte_at(name, name.len().saturating_sub(1));
    let middle = byte_at(name, name.len() / 2);
    (name.len() % COUNT + 5 * last + 29 * middle) % COUNT
}

impl<'n> RecentPlaces<'n> {
    /// No name is kept.
    pub fn new() -> RecentPlaces<'n>
        ensures { (classes : List ClassFact) (kept : KeptNames) → ArePlaces classes kept result }
    {
        RecentPlaces {
            slots: [None; COUNT],
        }
    }

    /// The place of a name, if it is kept.
    pub fn find(&self, name: &[u8]) -> Option<u16>
        ensures { (classes : List ClassFact) (kept : KeptNames) → ArePlaces classes kept self.now
            → IfSome result (IsPlace classes kept name.now) }
    {
        let (kept, place) = self.slots[slot_of(name)]?;
        if kept == name { Some(place) } else { None }
    }

    /// Keeps the place of a name, and forgets the name that had its slot.
    pub fn keep(&mut self, name: &'n [u8], place: u16)
        ensures { (classes : List ClassFact) (kept : KeptNames) → IsPlace classes kept name.entry.now place
            → ArePlaces classes kept self.old → ArePlaces classes kept self.new }
    {
        self.slots[slot_of(name)] = Some((name, place));
    }
}
