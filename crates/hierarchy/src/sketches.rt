//! Sketches of names, by which most names need no look-up.
ghost use Rattle.std.specs.Prelude.{◌≡◌, ◌<◌, ℕ, List, length, true};
ghost use Rattle.hierarchy.specs.private.Sketches.{HaveSketches, has_sketch, sketch};
ghost use Rattle.hierarchy.specs.Summary.{fact_of};

use crate::numbered_members::Numbered;
use crate::summary::Summary;
use crate::texts::text_among;

/// Sketches of names are below this.
pub const SKETCHES: usize = 256;

/// A number for a name, by its length and its first byte.
fn sketch(name: &[u8]) -> usize
    ensures is { result ≡ sketch name.now }
    ensures small { result < 256 }
{
    let first = if name.is_empty() {
        0
    } else {
        usize::from(name[0])
    };
    (name.len() % SKETCHES + 8 * first) % SKETCHES
}

/// Whether a name has one of these sketches.
pub fn has_sketch(sketches: &[bool; SKETCHES], name: &[u8]) -> bool
    requires { length sketches.now ≡ 256 }
    ensures { result ≡ has_sketch sketches.now name.now }
{
    sketches[sketch(name)]
}

/// Sketches, and with them those of the names of some of the members of a class.
pub fn sketches_with(
    which: Numbered,
    above: [bool; SKETCHES],
    class: &Summary<'_>,
) -> [bool; SKETCHES]
    requires { length above ≡ 256 }
    ensures long { length result ≡ 256 }
    ensures kept { (name : List ℕ) → has_sketch above name ≡ true → has_sketch result name ≡ true }
    ensures noted { HaveSketches which result (fact_of class.now).members }
{
    let mut sketches = above;
    for i in 0..class.members.len() {
        let member = &class.members[i];
        if !which.has(member) {
            continue;
        }
        let name = text_among(&class.texts, member.places.name);
        sketches[sketch(name)] = true;
    }
    sketches
}
