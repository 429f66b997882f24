//! The names of classes that a hierarchy has not, by the order in which they were first met.

use std::alloc::{AllocError, Global};
use std::collections::BTreeMap;
use std::marker::Model;

/// Names, each of which has a place: the first that was met has place 0, and each new one the next. A name is found in
/// time for its bytes and for the logarithm of how many there are, whatever the names are.
#[derive(Drop)]
pub struct AbsentNames<'n> {
    names: Vec<&'n [u8]>,
    places: BTreeMap<&'n [u8], usize>,
}

impl<'n> Model for AbsentNames<'n> {
    ghost use Rattle.std.specs.Prelude.{◌≡◌, ℕ, List, bytes_eq, map, position};
    ghost use Rattle.type_numbers.specs.private.Places.{place_kept};

    ghost Value = { List (List ℕ) };

    ghost view = { λ t. map (λ k. k.now) t.names.items };

    ghost invariant = { λ t. (name : List ℕ) → place_kept t.places name
        ≡ position (bytes_eq name) (map (λ k. k.now) t.names.items) };
}

impl<'n> AbsentNames<'n> {
    ghost use Rattle.std.specs.Prelude.{◌≡◌, ℕ, List, [], Some, bytes_eq, position, option_map, slice_get, IfOk};

    /// No name was met.
    pub fn new(alloc: Global) -> AbsentNames<'n>
        ensures { result ≡ [] }
    {
        AbsentNames {
            names: Vec::new(alloc),
            places: BTreeMap::new(alloc),
        }
    }

    /// Forgets all names.
    pub fn clear(&mut self)
        ensures { self.new ≡ [] }
    {
        self.names.clear();
        self.places.clear();
    }

    /// The place of a name, which is the next one if it was not met before. The only refusal is 1, where memory runs
    /// out; then no name is new.
    pub fn place(&mut self, name: &'n [u8]) -> Result<usize, AllocError>
        ensures at { IfOk result (λ k. position (bytes_eq name.entry.now) self.new ≡ Some k) }
        ensures kept { (other : List ℕ) (k : ℕ) → position (bytes_eq other) self.old ≡ Some k
            → position (bytes_eq other) self.new ≡ Some k }
    {
        if let Some(place) = self.places.get(name) {
            return Ok(*place);
        }
        let place = self.names.len();
        self.names.reserve(1)?;
        self.places.insert(name, place)?;
        self.names.push(name)?;
        Ok(place)
    }

    /// The name at a place.
    pub fn get(&self, place: usize) -> Option<&'n [u8]>
        ensures { option_map (λ n. n.now) result ≡ slice_get self.now place }
    {
        self.names.get(place).copied()
    }
}
