//! The lines of a source, one by one.

ghost use Rattle.std.specs.Prelude.{◌≡◌, ◌+◌, ◌<◌, ◌==◌, length, take, drop, position, option_map, IfSome};

use devices::Source;
use genedit_io::RunFault;
use std::alloc::{AllocError, Global};

/// How many bytes are pulled at once, at most.
const PIECE: usize = 8192;

/// How many pulls a line has, at most.
const TURNS: u64 = 1 << 32;

/// The lines of a source. So much of it is pulled as the next line wants, and what stands behind that is kept.
#[derive(Drop)]
pub struct Lines {
    alloc: Global,
    piece: Vec<u8>,
    /// How many bytes of the piece were given.
    given: usize,
}

impl Lines {
    /// Nothing was pulled.
    pub fn new(alloc: Global) -> Lines {
        Lines {
            alloc,
            piece: Vec::new(alloc),
            given: 0,
        }
    }

    /// The next line, without its LF; what stands behind the last LF is one, if anything does. `None` at the end of the
    /// source. `Read` where the source failed, `Turns` behind 2^32 pulls for one line, `Memory` where it was refused.
    pub fn next<S: Source>(&mut self, source: &mut S) -> Result<Option<Vec<u8>>, RunFault> {
        let mut line = Vec::new(self.alloc);
        for _turn in 0..TURNS {
            if self.ends(&mut line)? {
                return Ok(Some(line));
            }
            if !self.pull(source)? {
                return Ok(last(line));
            }
        }
        Err(RunFault::Turns)
    }

    /// Gives a line what is left of the piece, up to the first LF. Whether there is one.
    fn ends(&mut self, line: &mut Vec<u8>) -> Result<bool, AllocError> {
        let rest = self.piece.get(self.given..).unwrap_or_default();
        match split_line(rest) {
            Some((front, behind)) => {
                line.extend_from_slice(front)?;
                self.given = self.piece.len().saturating_sub(behind.len());
                Ok(true)
            }
            None => {
                line.extend_from_slice(rest)?;
                self.given = self.piece.len();
                Ok(false)
            }
        }
    }

    /// Pulls the next piece. Whether it has a byte.
    fn pull<S: Source>(&mut self, source: &mut S) -> Result<bool, RunFault> {
        let mut piece = [0; PIECE];
        let Ok(count) = source.pull(&mut piece) else {
            return Err(RunFault::Read);
        };
        self.piece.clear();
        self.given = 0;
        self.piece.extend_from_slice(&piece[..count])?;
        Ok(count > 0)
    }
}

/// The last line, if it has a byte.
fn last(line: Vec<u8>) -> Option<Vec<u8>> {
    if line.is_empty() { None } else { Some(line) }
}

/// What stands before the first LF, and behind it, if there is one.
fn split_line(bytes: &[u8]) -> Option<(&[u8], &[u8])>
    ensures front { option_map (λ parts. length parts.0.now) result ≡ position (λ b. b == 10) bytes.now }
    ensures parts { IfSome result (λ parts. (parts.0.now ≡ take (length parts.0.now) bytes.now) × (parts.1.now ≡ drop (length parts.0.now + 1) bytes.now)) }
{
    match line_feed_at(bytes) {
        Some(at) => Some((&bytes[..at], &bytes[at + 1..])),
        None => None,
    }
}

/// Where the first LF is.
fn line_feed_at(bytes: &[u8]) -> Option<usize>
    ensures found { result ≡ position (λ b. b == 10) bytes.now }
    ensures within { IfSome result (λ at. at < length bytes.now) }
{
    bytes.iter().position(|byte| *byte == b'\n')
}
