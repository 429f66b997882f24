//! Bytes of one kind, sixteen or eight at a time.

ghost use Rattle.std.specs.Prelude.{◌≡◌, ◌+◌, ◌≤◌, ◌<◌, ℕ, Bool, true, length};
ghost use Rattle.names.specs.Forms.{first_set, AreBetween, AreIn};

/// A kind of bytes that are told by lanes. Bytes of the kind may be passed over, and no others are taken for such.
pub(crate) trait ByLanes {
    // Whether a byte is of the kind.
    ghost is: { ℕ → Bool };

    /// Whether the byte is seen to be of the kind.
    fn has(b: u8) -> bool
        ensures { result ≡ true → is b ≡ true };

    /// How many of the sixteen bytes from a place on are seen to be of the kind, up to the first that is not.
    fn in_sixteen(bytes: &[u8], at: usize) -> usize
        requires { at + 16 ≤ length bytes.now }
        ensures { AreIn is bytes.now at 16 result };

    /// How many of the eight bytes from a place on are seen to be of the kind, up to the first that is not.
    fn in_eight(bytes: &[u8], at: usize) -> usize
        requires { at + 8 ≤ length bytes.now }
        ensures { AreIn is bytes.now at 8 result };
}

/// The place of the lowest bit that is set, or `lanes` where none is. Takes no memory.
#[inline(always)]
pub fn first_set(mask: u64, lanes: usize) -> usize
    ensures { result ≡ first_set mask lanes }
{
    if mask == 0 {
        lanes
    } else {
        mask.trailing_zeros() as usize
    }
}

/// Whether each byte is seen to be of the kind, one after the other.
fn are_all_singly<K: ByLanes>(bytes: &[u8]) -> bool
    ensures { result ≡ true → AreBetween K.is bytes.now 0 (length bytes.now) }
{
    for b in bytes {
        if !K::has(*b) {
            return false;
        }
    }
    true
}

/// Whether sixteen bytes or more are seen to be of the kind, sixteen at a time. The last sixteen may begin before the
/// others end.
fn are_all_by_sixteen<K: ByLanes>(bytes: &[u8]) -> bool
    requires { 16 ≤ length bytes.now }
    ensures { result ≡ true → AreBetween K.is bytes.now 0 (length bytes.now) }
{
    let last = bytes.len() - 16;
    let mut at = 0;
    while at < last {
        if K::in_sixteen(bytes, at) < 16 {
            return false;
        }
        at += 16;
    }
    K::in_sixteen(bytes, last) == 16
}

/// Whether fewer than sixteen bytes are seen to be of the kind.
fn are_all_of_few<K: ByLanes>(bytes: &[u8]) -> bool
    requires { length bytes.now < 16 }
    ensures { result ≡ true → AreBetween K.is bytes.now 0 (length bytes.now) }
{
    if bytes.len() >= 8 {
        K::in_eight(bytes, 0) == 8 && K::in_eight(bytes, bytes.len() - 8) == 8
    } else {
        are_all_singly::<K>(bytes)
    }
}

/// Whether all bytes are seen to be of the kind. Takes no memory.
pub(crate) fn are_all<K: ByLanes>(bytes: &[u8]) -> bool
    ensures { result ≡ true → AreBetween K.is bytes.now 0 (length bytes.now) }
{
    if bytes.len() >= 16 {
        are_all_by_sixteen::<K>(bytes)
    } else {
        are_all_of_few::<K>(bytes)
    }
}

/// Whether the bytes are fewer than thirty-two, and all are seen to be of the kind. Takes no memory.
pub(crate) fn are_few<K: ByLanes>(bytes: &[u8]) -> bool
    ensures { result ≡ true → AreBetween K.is bytes.now 0 (length bytes.now) }
{
    let n = bytes.len();
    if n < 16 {
        are_all_of_few::<K>(bytes)
    } else {
        n < 32 && K::in_sixteen(bytes, 0) == 16 && (n == 16 || K::in_sixteen(bytes, n - 16) == 16)
    }
}
