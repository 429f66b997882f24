//! The types that a descriptor spells, one after the other from its front, where it is known to be a descriptor.
ghost use Rattle.std.specs.Prelude.{◌≡◌, ◌+◌, ◌++◌, ◌∷◌, ◌<◌, ◌≤◌, ◌==◌, List, ℕ, None, length, IfSome, IsSomeAnd};
ghost use Rattle.std.specs.List.{position_or_len};
ghost use Rattle.names.specs.Descriptors.{FieldDescriptor, base_of, right_parenthesis};
ghost use Rattle.names.specs.Forms.{AreIn};
ghost use Rattle.names.specs.Names.{IsClassName, semicolon};
ghost use Rattle.names.specs.Types.{type_of};
ghost use Rattle.type_numbers.specs.private.SpelledTypes.{AreOthersUpTo, BeginsWith, BeginsWithBase, is_other};

use names::{Base, FieldType, brackets, first_set, primitive_of};
use std::simd::prelude::*;

/// How many of the sixteen bytes from a place on are seen to be no `;`, up to the first that is one.
#[inline(always)]
fn others_in_sixteen(bytes: &[u8], at: usize) -> usize
    requires { at + 16 ≤ length bytes.now }
    ensures { AreIn is_other bytes.now at 16 result }
{
    let v = u8x16::from_slice(&bytes[at..]);
    first_set(v.simd_eq(u8x16::splat(b';')).to_bitmask(), 16)
}

/// A place up to which no byte is a `;`, sixteen at a time.
#[inline(always)]
fn past_others(bytes: &[u8]) -> usize
    ensures { AreOthersUpTo bytes.now result }
{
    let mut at = 0;
    while bytes.len() - at >= 16 {
        let run = others_in_sixteen(bytes, at);
        at += run;
        if run < 16 {
            return at;
        }
    }
    at
}

/// How many bytes stand in front of the first `;`.
#[inline(always)]
fn before_semicolon(bytes: &[u8]) -> usize
    ensures within { result ≤ length bytes.now }
    ensures place { result ≡ position_or_len (λ b. b == semicolon) bytes.now }
{
    let mut at = past_others(bytes);
    while at < bytes.len() && bytes[at] != b';' {
        at += 1;
    }
    at
}

/// The class name that stands in front of the first `;`, and the bytes after that.
#[inline(always)]
fn class_in_front(bytes: &[u8]) -> Option<(&[u8], &[u8])>
    ensures named { (name rest : List ℕ) → IsClassName name → bytes.now ≡ name ++ semicolon ∷ rest
        → IsSomeAnd result (λ x. (x.0.now ≡ name) × (x.1.now ≡ rest)) }
    ensures shorter { IfSome result (λ x. length x.1.now < length bytes.now) }
{
    let size = before_semicolon(bytes);
    let (name, rest) = bytes.split_at(size);
    match rest.split_first() {
        Some((_, behind)) => Some((name, behind)),
        None => None,
    }
}

/// The primitive type or the class that the bytes begin with, and the bytes after it.
#[inline(always)]
fn base_in_front(bytes: &[u8]) -> Option<(Base<'_>, &[u8])>
    ensures named { (t : FieldDescriptor) (rest : List ℕ) → BeginsWithBase bytes.now t rest
        → IsSomeAnd result (λ x. (base_of x.0 ≡ t) × (x.1.now ≡ rest)) }
    ensures shorter { IfSome result (λ x. length x.1.now < length bytes.now) }
    ensures none { (rest : List ℕ) → bytes.now ≡ right_parenthesis ∷ rest → result ≡ None }
{
    match bytes.split_first() {
        None => None,
        Some((b'L', behind)) => match class_in_front(behind) {
            Some((name, behind)) => Some((Base::Class(name), behind)),
            None => None,
        },
        Some((letter, behind)) => match primitive_of(*letter) {
            Some(primitive) => Some((Base::Primitive(primitive), behind)),
            None => None,
        },
    }
}

/// The type that the bytes begin with, and the bytes after it.
#[inline(always)]
pub(crate) fn type_in_front(bytes: &[u8]) -> Option<(FieldType<'_>, &[u8])>
    ensures named { (t : FieldDescriptor) (rest : List ℕ) → BeginsWith bytes.now t rest
        → IsSomeAnd result (λ x. (type_of x.0 ≡ t) × (x.1.now ≡ rest)) }
    ensures shorter { IfSome result (λ x. length x.1.now < length bytes.now) }
    ensures none { (rest : List ℕ) → bytes.now ≡ right_parenthesis ∷ rest → result ≡ None }
{
    let dims = brackets(bytes);
    if dims > 255 {
        return None;
    }
    let (_, rest) = bytes.split_at(dims);
    match base_in_front(rest) {
        Some((base, behind)) => Some((
            FieldType {
                dims: dims as u8,
                base,
            },
            behind,
        )),
        None => None,
    }
}
