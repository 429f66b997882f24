use names::{NameFault, check_text};
use std::test::*;

/// Lengths around those that lanes take at once.
const LENGTHS: [usize; 10] = [0, 1, 31, 32, 33, 63, 64, 65, 96, 100];

/// Parts that begin no unit: a zero, bytes that only go on, units in too many bytes, one that is cut short, and one in
/// four bytes.
const WRONG: [[u8; 3]; 8] = [
    [0, b'a', b'a'],
    [0x80, b'a', b'a'],
    [0xBF, b'a', b'a'],
    [0xC1, 0x81, b'a'],
    [0xE0, 0x80, 0x80],
    [0xE0, 0x9F, 0xBF],
    [0xED, 0xA0, b'a'],
    [0xF0, 0x9F, 0x98],
];

/// Units of more bytes than one, with how many they take: the zero, a letter, and a surrogate without the other.
const LONGER: [([u8; 3], usize); 3] = [
    ([0xC0, 0x80, b'a'], 2),
    ([0xC3, 0xA9, b'a'], 2),
    ([0xED, 0xA0, 0x80], 3),
];

/// Puts three bytes in place of those at a place, as far as there are so many.
fn put(bytes: &mut [u8; 100], part: [u8; 3], place: usize) {
    for (n, b) in part.into_iter().enumerate() {
        let at = place.saturating_add(n);
        if at < 100 {
            bytes[at] = b;
        }
    }
}

/// Where the first of so many bytes stands that begins no unit, if there is one.
fn fault(bytes: &[u8; 100], length: usize) -> Option<usize> {
    match check_text(bytes.get(..length)?) {
        Ok(_) => None,
        Err(NameFault::BadText { at }) => Some(at),
        Err(_) => Some(usize::MAX),
    }
}

#[test]
fn letters_alone(rt: HostRuntime) {
    for length in &LENGTHS {
        assert!(rt; fault(&[b'a'; 100], *length).is_none());
    }
}

/// Whether each wrong part is found at its place after these letters.
fn are_found(letters: &[u8; 100], length: usize, place: usize) -> bool {
    for part in &WRONG {
        let mut bytes = *letters;
        put(&mut bytes, *part, place);
        if fault(&bytes, length) != Some(place) {
            return false;
        }
    }
    true
}

/// Each wrong part is found at its place, wherever it stands.
#[test]
fn wrong_at_each_place(rt: HostRuntime) {
    for length in &LENGTHS {
        for place in 0..*length {
            assert!(rt; are_found(&[b'a'; 100], *length, place));
        }
    }
}

/// Whether each longer unit is passed at this place, unless the text ends within it.
fn are_passed(length: usize, place: usize) -> bool {
    for (part, size) in &LONGER {
        let mut bytes = [b'a'; 100];
        put(&mut bytes, *part, place);
        let whole = place.saturating_add(*size) <= length;
        let expected = if whole { None } else { Some(place) };
        if fault(&bytes, length) != expected {
            return false;
        }
    }
    true
}

/// A longer unit is passed wherever it stands, unless the text ends within it.
#[test]
fn longer_at_each_place(rt: HostRuntime) {
    for length in &LENGTHS {
        for place in 0..*length {
            assert!(rt; are_passed(*length, place));
        }
    }
}

/// After a longer unit at the front a wrong part is found as well.
#[test]
fn wrong_behind_a_longer_unit(rt: HostRuntime) {
    let mut letters = [b'a'; 100];
    put(&mut letters, [0xED, 0xA0, 0x80], 0);
    for length in &LENGTHS {
        for place in 3..*length {
            assert!(rt; are_found(&letters, *length, place));
        }
    }
}
