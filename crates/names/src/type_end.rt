//! Where a type ends that begins at a place of a descriptor, for those who need no more of it.

ghost use Rattle.std.specs.Prelude.{◌≡◌, ◌≤◌, ◌<◌, length, slice_index};
ghost use Rattle.names.specs.Descriptors.{class_letter};
ghost use Rattle.names.specs.private.TypeEnds.{units_of, is_letter, AreStopsUpTo, ReadsBase, ReadsType};

use crate::name_run::name_end;
use crate::reading::brackets;

/// How many units a value takes whose type begins with the byte (JVMS 2.6.1).
pub(crate) fn units_of(first: u8) -> usize
    ensures { result ≡ units_of first }
{
    match first {
        b'D' | b'J' => 2,
        _ => 1,
    }
}

/// Whether the byte is the letter of a primitive type (JVMS Table 4.3-A).
fn is_letter(b: u8) -> bool
    ensures { result ≡ is_letter b }
{
    matches!(b, b'B' | b'C' | b'D' | b'F' | b'I' | b'J' | b'S' | b'Z')
}

/// Where a class ends whose `L` stands at this place: this place itself where none does.
#[inline(always)]
fn class_end(bytes: &[u8], at: usize, stops: u64) -> usize
    requires there { at < length bytes.now }
    requires letter { slice_index bytes.now at ≡ class_letter }
    requires stops { 16 < length bytes.now → AreStopsUpTo bytes.now (length bytes.now) stops }
    ensures forth { at ≤ result }
    ensures read { at < result → ReadsBase bytes.now at result }
{
    let start = at + 1;
    let end = name_end(bytes, start, stops);
    if end == bytes.len() || bytes[end] != b';' || end == start {
        return at;
    }
    if bytes[start] == b'/' || bytes[end - 1] == b'/' {
        return at;
    }
    end + 1
}

/// Where a primitive type or a class ends that begins at this place: this place itself where none does.
#[inline(always)]
fn base_end(bytes: &[u8], at: usize, stops: u64) -> usize
    requires there { at < length bytes.now }
    requires stops { 16 < length bytes.now → AreStopsUpTo bytes.now (length bytes.now) stops }
    ensures forth { at ≤ result }
    ensures read { at < result → ReadsBase bytes.now at result }
{
    let first = bytes[at];
    if first == b'L' {
        return class_end(bytes, at, stops);
    }
    if is_letter(first) {
        return at + 1;
    }
    at
}

/// Where an array of at most 255 dimensions ends that begins at this place: this place itself where none does.
#[inline(never)]
fn array_end(bytes: &[u8], at: usize, stops: u64) -> usize
    requires there { at < length bytes.now }
    requires stops { 16 < length bytes.now → AreStopsUpTo bytes.now (length bytes.now) stops }
    ensures forth { at ≤ result }
    ensures read { at < result → ReadsType bytes.now at result }
{
    let (_, rest) = bytes.split_at(at);
    let dims = brackets(rest);
    let base = at + dims;
    if dims > 255 || base == bytes.len() {
        return at;
    }
    let end = base_end(bytes, base, stops);
    if end == base {
        return at;
    }
    end
}

/// Where a type of at most 255 dimensions ends that begins at this place: this place itself where none does. The bytes'
/// `stops` are those of [`stops_in_front`](crate::name_run::stops_in_front).
#[inline(always)]
pub(crate) fn type_end(bytes: &[u8], at: usize, stops: u64) -> usize
    requires there { at < length bytes.now }
    requires stops { 16 < length bytes.now → AreStopsUpTo bytes.now (length bytes.now) stops }
    ensures forth { at ≤ result }
    ensures read { at < result → ReadsType bytes.now at result }
{
    if bytes[at] == b'[' {
        array_end(bytes, at, stops)
    } else {
        base_end(bytes, at, stops)
    }
}
