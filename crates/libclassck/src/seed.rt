//! The keys of hashes.
use std::io;
use std::random::RandomSource;

/// Gives the bytes of a number, again and again, as if they were random.
#[derive(Drop)]
pub struct Seed(pub u64);

impl RandomSource for Seed {
    fn fill_bytes(&self, buf: &mut [u8]) -> io::Result<()> {
        let bytes = self.0.to_le_bytes();
        for (place, byte) in buf.iter_mut().enumerate() {
            *byte = bytes[place % 8];
        }
        Ok(())
    }
}
