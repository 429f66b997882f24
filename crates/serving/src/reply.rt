//! Replies.

/// A reply to a message.
#[derive(Debug, Drop)]
pub struct Reply {
    /// 0, 1 or 2, as the program ends where it answers but once.
    pub status: u8,
    pub text: Vec<u8>,
}
