//! A system's random bytes, as a reader.

use std::io;
use std::io::Read;
use std::random::RandomSource;

/// A source of random bytes as a reader that has no end. What it gives nobody knows beforehand.
#[derive(Drop)]
pub struct RandomBytes<R> {
    source: R,
}

impl<R: RandomSource> RandomBytes<R> {
    pub fn of(source: R) -> RandomBytes<R> {
        RandomBytes { source }
    }
}

impl<R: RandomSource> Read for RandomBytes<R> {
    /// Fills the whole buffer, or fails as the source does.
    fn read(&mut self, buf: &mut [u8]) -> io::Result<usize> {
        self.source.fill_bytes(buf)?;
        Ok(buf.len())
    }
}
