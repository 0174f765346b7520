//! A reader and a writer that fail at one of their calls and at no other.

use std::io::{Error, ErrorKind, Read, Result, Write};

/// Gives zeros, at most `most` at a call, and counts its calls from 1.
#[derive(Drop)]
pub struct FaultyReader<'a> {
    pub left: usize,
    pub most: usize,
    pub fails_at: u64,
    pub fault: ErrorKind,
    pub calls: &'a mut u64,
}

impl Read for FaultyReader<'_> {
    fn read(&mut self, piece: &mut [u8]) -> Result<usize> {
        *self.calls = self.calls.saturating_add(1);
        if *self.calls == self.fails_at {
            return Err(Error::from(self.fault));
        }
        let count = self.left.min(self.most).min(piece.len());
        self.left -= count;
        Ok(count)
    }
}

/// What was done to a writer.
#[derive(Clone, Copy, Debug, PartialEq, Eq)]
pub struct Written {
    pub calls: u64,
    pub bytes: u64,
    pub flushes: u64,
}

/// Takes at most `most` bytes at a call, and counts its calls from 1, its flushes too.
#[derive(Drop)]
pub struct FaultyWriter<'a> {
    pub most: usize,
    pub fails_at: u64,
    pub fault: ErrorKind,
    pub written: &'a mut Written,
}

impl FaultyWriter<'_> {
    fn call(&mut self) -> Result<()> {
        self.written.calls = self.written.calls.saturating_add(1);
        if self.written.calls == self.fails_at {
            return Err(Error::from(self.fault));
        }
        Ok(())
    }
}

impl Write for FaultyWriter<'_> {
    fn write(&mut self, bytes: &[u8]) -> Result<usize> {
        self.call()?;
        let count = self.most.min(bytes.len());
        self.written.bytes = self.written.bytes.saturating_add(count as u64);
        Ok(count)
    }

    fn flush(&mut self) -> Result<()> {
        self.call()?;
        self.written.flushes = self.written.flushes.saturating_add(1);
        Ok(())
    }
}
