//! Planes that are too long for a frame, in pieces.

ghost use Rattle.std.specs.Prelude.{◌<◌, ◌^◌};
ghost use Rattle.board_client.specs.Pieces.{ArePutTogether, IsPieces, IsPiecesOnce, IsPlaneHeard};

use crate::fault::ClientFault;
use crate::hearing::{Announced, is_announced};
use crate::polling::{Polling, is_brief};
use crate::server::Server;
use crate::tries::{TRIES_MORE, pause};
use client_protocol::{Asking, Pieced, pieced_in, request_body};
use devices::{Sink, Source};
use replica_core::Replica;
use std::time::Clock;

impl<'a, C: Clock, S: Source + Drop, K: Sink + Drop> Server<'a, C, S, K> {
    /// Asks for the whole plane in pieces, and has a replica take it: for where a poll was refused by 21, since
    /// what the board had to hand out is too long for a frame. Where the board is closed to reads for a moment,
    /// or has no memory for its reply, it is tried again some milliseconds later, ten times in all. What comes is
    /// `Polling::Whole` or `Polling::Refused`.
    pub fn fetch_plane(&mut self, replica: &mut Replica) -> Result<Polling, ClientFault>
        ensures { IsPieces self.old self.new replica.old replica.new result }
    {
        for _tried in 0..TRIES_MORE {
            let polling = match self.fetch_once(replica) {
                Ok(polling) => polling,
                Err(fault) => return Err(fault),
            };
            if !is_brief(polling) {
                return Ok(polling);
            }
            pause(self.clock);
        }
        self.fetch_once(replica)
    }

    fn fetch_once(&mut self, replica: &mut Replica) -> Result<Polling, ClientFault>
        ensures { IsPiecesOnce self.old self.new replica.old replica.new result }
    {
        let Ok(request) = request_body(self.alloc, Asking::Pieces) else {
            return Err(ClientFault::Memory);
        };
        let first = match self.ask(&request) {
            Ok(first) => first,
            Err(fault) => return Err(fault),
        };
        match pieced_in(&first) {
            Pieced::Refused(number) => Ok(Polling::Refused(number)),
            Pieced::Faulty => Err(ClientFault::NoReply),
            Pieced::Pieces { edits: _, frames } => match self.hear_plane(replica, frames) {
                Ok(()) => Ok(Polling::Whole),
                Err(fault) => Err(fault),
            },
        }
    }

    /// Hears so many pieces, and takes the plane that they are.
    fn hear_plane(&mut self, replica: &mut Replica, frames: u32) -> Result<(), ClientFault>
        ensures heard { IsPlaneHeard frames self.old self.new replica.old replica.new result }
        ensures few { frames < 2 ^ 32 }
    {
        let text = match self.put_together(frames) {
            Ok(text) => text,
            Err(fault) => return Err(fault),
        };
        let bytes: &[u8] = &text;
        if !is_announced(Announced::Plane, bytes) {
            return Err(ClientFault::NoReply);
        }
        match replica.take_bytes(bytes) {
            Ok(()) => {
                self.forget_all_own();
                Ok(())
            }
            Err(fault) => Err(ClientFault::Text(fault)),
        }
    }

    /// Hears so many pieces, and puts them together. Memory is taken for what comes, and for no number that is
    /// announced.
    fn put_together(&mut self, frames: u32) -> Result<Vec<u8>, ClientFault>
        ensures { ArePutTogether (λ text. text.items) frames self.old self.new result }
    {
        let mut text = Vec::new(self.alloc);
        for _frame in 0..frames {
            let piece = match self.hear() {
                Ok(piece) => piece,
                Err(fault) => return Err(fault),
            };
            match text.extend_from_slice(&piece) {
                Ok(()) => {}
                Err(_) => return Err(ClientFault::Memory),
            }
        }
        Ok(text)
    }
}
