//! What came to a seat.

use crate::refusal::Refusal;
use std::alloc::{AllocError, Global};

/// Room for refusals, so that each can be told.
const ROOM: usize = 64;

/// What came to a seat and was not pulled yet, and how many edits it was handed.
#[derive(Drop)]
pub(crate) struct Side {
    replies: Vec<u8>,
    pulled: usize,
    pub(crate) handed: usize,
}

impl Side {
    pub(crate) fn new(alloc: Global) -> Result<Side, AllocError> {
        Ok(Side {
            replies: Vec::with_capacity(alloc, ROOM)?,
            pulled: 0,
            handed: 0,
        })
    }

    /// How many bytes came since all was pulled.
    pub(crate) fn len(&self) -> usize {
        self.replies.len()
    }

    /// Forgets what came behind so many bytes.
    pub(crate) fn truncate(&mut self, len: usize) {
        self.replies.truncate(len);
    }

    /// Forgets all: what came, and that edits were handed out.
    pub(crate) fn forget(&mut self) {
        self.replies.clear();
        self.pulled = 0;
        self.handed = 0;
    }

    /// Puts a frame behind what came. Refused where its body is too long, or there is no memory.
    pub(crate) fn push(&mut self, body: &[u8]) -> Result<(), Refusal> {
        let Ok(len) = u32::try_from(body.len()) else {
            return Err(Refusal { number: 21 });
        };
        self.replies.extend_from_slice(&len.to_be_bytes())?;
        self.replies.extend_from_slice(body)?;
        Ok(())
    }

    /// Pulls what came, at most as much as a piece has room for; how much that is.
    pub(crate) fn pull(&mut self, piece: &mut [u8]) -> usize {
        let Some(left) = self.replies.get(self.pulled..) else {
            return 0;
        };
        let count = left.len().min(piece.len());
        piece[..count].copy_from_slice(&left[..count]);
        self.pulled = self.pulled.saturating_add(count);
        if self.pulled >= self.replies.len() {
            self.replies.clear();
            self.pulled = 0;
        }
        count
    }
}
