//! Readers as sources.

ghost use Rattle.std.specs.Prelude.{◌≡◌, ◌≤◌, length, IfOk};
ghost use Rattle.std.specs.Io.KnownBytes.{ReadConsumes};

use crate::count::count;
use crate::source::{Failed, Source};
use std::io::{ErrorKind, Read};

/// Any reader as a source. A read that was interrupted is made again, as by `Write::write_all`.
#[derive(Debug, Drop)]
pub struct ReadSource<R> {
    reader: R,
    pulls: u64,
    ends_met: u64,
    failures: u64,
}

impl<R: Read> ReadSource<R> {
    pub fn new(reader: R) -> ReadSource<R>
        ensures { result ≡ record { reader = reader; pulls = 0; ends_met = 0; failures = 0 } }
    {
        ReadSource {
            reader,
            pulls: 0,
            ends_met: 0,
            failures: 0,
        }
    }

    /// How often it was pulled.
    pub fn pulls(&self) -> u64
        ensures { result ≡ self.now.pulls }
    {
        self.pulls
    }

    /// How many of its pulls met its end: they gave nothing, though the piece was not empty.
    pub fn ends_met(&self) -> u64
        ensures { result ≡ self.now.ends_met }
    {
        self.ends_met
    }

    /// How often it failed.
    pub fn failures(&self) -> u64
        ensures { result ≡ self.now.failures }
    {
        self.failures
    }
}

impl<R: Read> Source for ReadSource<R> {
    ghost known = { λ s. record { pulls = s.pulls; ends_met = s.ends_met; failures = s.failures; left = R.remaining s.reader } };

    fn pull(&mut self, piece: &mut [u8]) -> Result<usize, Failed> {
        count(&mut self.pulls);
        match read(&mut self.reader, piece) {
            Ok(read) => {
                if read == 0 && !piece.is_empty() {
                    count(&mut self.ends_met);
                }
                Ok(read)
            }
            Err(_) => {
                count(&mut self.failures);
                Err(Failed)
            }
        }
    }
}

/// One read that is not interrupted. After 2^64 - 1 interrupted ones it fails.
fn read<R: Read>(reader: &mut R, piece: &mut [u8]) -> Result<usize, Failed>
    ensures within { IfOk result (λ n. n ≤ length piece.new) }
    ensures bytes { ReadConsumes (R.remaining reader.old) (R.remaining reader.new) result piece.new }
{
    for _try in 0..u64::MAX {
        match reader.read(piece) {
            Ok(count) => return Ok(count),
            Err(error) if error.kind() == ErrorKind::Interrupted => {}
            Err(_) => return Err(Failed),
        }
    }
    Err(Failed)
}
