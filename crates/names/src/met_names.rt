//! Names that were met, each found by its bytes.
ghost use Rattle.std.specs.Prelude.{◌≡◌, ℕ, List, false, IfOk};
ghost use Rattle.names.specs.MetNames.{is_met, Meets};

use std::alloc::{AllocError, Global};
use std::collections::BTreeMap;

/// The names of the classes that were met, and where each was met last.
#[derive(Drop)]
pub struct MetNames<'a> {
    places: BTreeMap<&'a [u8], usize>,
}

impl<'a> MetNames<'a> {
    /// None yet.
    pub fn new(alloc: Global) -> MetNames<'a>
        ensures { (name : List ℕ) → is_met result name ≡ false }
    {
        MetNames {
            places: BTreeMap::new(alloc),
        }
    }

    /// Whether this name was met.
    pub fn has(&self, name: &[u8]) -> bool
        ensures { result ≡ is_met self.now name.now }
    {
        self.places.contains_key(name)
    }

    /// Whether this name was met before; now it is met, at this place.
    pub fn meet(&mut self, name: &'a [u8], place: usize) -> Result<bool, AllocError>
        ensures { IfOk result (Meets self.old self.new name.now) }
    {
        match self.places.insert(name, place)? {
            Some(_) => Ok(true),
            None => Ok(false),
        }
    }
}
