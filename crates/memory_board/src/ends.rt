//! The ends of a line to a board in memory.

ghost use Rattle.std.specs.Prelude.{None};

use crate::board::Shared;
use devices::{Failed, Sink, Source};
use frame_line::Line;
use std::alloc::{AllocError, Global};
use std::rc::Rc;

/// A line to a seat, from 1.
pub fn line_to(
    alloc: Global,
    board: &Shared,
    seat: u16,
) -> Result<Line<Replies, Requests>, AllocError> {
    Ok(Line::new(
        alloc,
        Replies::new(Rc::clone(board)?, seat),
        Requests::new(Rc::clone(board)?, seat),
    ))
}

/// What comes to a seat.
#[derive(Drop)]
pub struct Replies {
    board: Shared,
    seat: u16,
    pulls: u64,
    ends_met: u64,
    failures: u64,
}

impl Replies {
    fn new(board: Shared, seat: u16) -> Replies {
        Replies {
            board,
            seat,
            pulls: 0,
            ends_met: 0,
            failures: 0,
        }
    }
}

fn given(board: &Shared, seat: u16, piece: &mut [u8]) -> Option<usize> {
    let mut board = board.try_borrow_mut().ok()?;
    board.give(seat, piece)
}

impl Source for Replies {
    ghost known = { λ s. record { pulls = s.pulls; ends_met = s.ends_met; failures = s.failures; left = None } };

    fn pull(&mut self, piece: &mut [u8]) -> Result<usize, Failed> {
        self.pulls = self.pulls.saturating_add(1);
        let Some(count) = given(&self.board, self.seat, piece) else {
            self.failures = self.failures.saturating_add(1);
            return Err(Failed);
        };
        if count == 0 && !piece.is_empty() {
            self.ends_met = self.ends_met.saturating_add(1);
        }
        Ok(count.min(piece.len()))
    }
}

/// What a seat says.
#[derive(Drop)]
pub struct Requests {
    board: Shared,
    seat: u16,
    pushes: u64,
    failures: u64,
}

impl Requests {
    fn new(board: Shared, seat: u16) -> Requests {
        Requests {
            board,
            seat,
            pushes: 0,
            failures: 0,
        }
    }
}

fn said(board: &Shared, seat: u16, frame: &[u8]) -> Option<()> {
    let mut board = board.try_borrow_mut().ok()?;
    let body = frame.get(4..)?;
    board.answer(seat, body)
}

impl Sink for Requests {
    ghost known = { λ s. record { pushes = s.pushes; failures = s.failures; held = None } };

    fn push_all(&mut self, bytes: &[u8]) -> Result<(), Failed> {
        self.pushes = self.pushes.saturating_add(1);
        match said(&self.board, self.seat, bytes) {
            Some(()) => Ok(()),
            None => {
                self.failures = self.failures.saturating_add(1);
                Err(Failed)
            }
        }
    }
}
