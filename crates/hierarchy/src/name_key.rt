//! The names of classes as keys of a hash table.
ghost use Rattle.std.specs.Prelude.{[], ◌∷◌};
ghost use Rattle.std.specs.Str.{bytes_eq};
ghost use Rattle.std.specs.Hash.{on_Alike, same_Alike};
ghost use Rattle.std.specs.Cmp.{on_equiv, on_per, partial_equiv_from_equiv};
ghost use Rattle.std.specs.Cmp.Lexicographic.{bytes_decides, nat_list_eq_equiv};

use std::hash::{Hash, Hasher};

/// The name of a class as a key. A hasher takes its bytes in one write, where it takes those of a `&[u8]` one by one.
#[derive(Clone, Copy)]
pub struct NameKey<'a> {
    pub bytes: &'a [u8],
}

impl<'a> PartialEq for NameKey<'a> {
    ghost eq = { λ x y. bytes_eq x.bytes.now y.bytes.now };

    ghost laws = { on_per (λ k. k.bytes.now) (partial_equiv_from_equiv nat_list_eq_equiv) };

    fn eq(&self, other: &NameKey<'a>) -> bool {
        self.bytes == other.bytes
    }
}

impl<'a> Eq for NameKey<'a> {
    ghost laws = { on_equiv (λ k. k.bytes.now) nat_list_eq_equiv };
}

impl<'a> Hash for NameKey<'a> {
    ghost hash_input = { λ k. k.bytes.now ∷ [] };

    ghost respects_eq = { (on_Alike (λ k. k.bytes.now) (same_Alike (λ bytes. bytes ∷ []) bytes_decides)).fed };

    fn hash<H: Hasher>(&self, state: &mut H) {
        state.write(self.bytes);
    }
}
