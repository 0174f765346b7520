//! What a client's replica holds at a later generation, as a macrocell.

ghost use Rattle.client_session.specs.Macrocells.{GivesMacrocellNow, IsMacrocellAnswer, IsMacrocellCommand};

use crate::client::Client;
use crate::fault::CommandFault;
use crate::polling::News;
use crate::workspace::Workspace;
use devices::{Sink, Source};
use std::alloc::Global;
use std::time::Clock;
use told_generations::macrocell_at;

impl<'a, C: Clock, S: Source + Drop, K: Sink + Drop> Client<'a, C, S, K> {
    /// Polls, tells what came, and gives the macrocell of what the replica holds so many generations later, however many
    /// cells that are. `None` where the poll was refused, or the generation, whose refusal is printed.
    pub fn macrocell(&mut self, generation: u32) -> Result<Option<Vec<u8>>, CommandFault>
        ensures { IsMacrocellCommand (λ text. text.items) generation self.old self.new result }
    {
        match self.news() {
            Ok(News::Refused) => Ok(None),
            Ok(News::Edits | News::Whole) => self.macrocell_now(generation),
            Err(fault) => Err(fault),
        }
    }

    /// `macrocell` of what the replica holds. Nothing is polled.
    pub fn macrocell_now(&mut self, generation: u32) -> Result<Option<Vec<u8>>, CommandFault>
        ensures { GivesMacrocellNow (λ text. text.items) generation self.old self.new result }
    {
        let alloc = self.server.alloc();
        self.workspace
            .macrocell_told(alloc, &mut self.out, generation)
    }
}

impl Workspace {
    /// The macrocell, or none, where the refusal is printed.
    fn macrocell_told(
        &self,
        alloc: Global,
        out: &mut Vec<u8>,
        generation: u32,
    ) -> Result<Option<Vec<u8>>, CommandFault>
        ensures { IsMacrocellAnswer (λ text. text.items) generation self.now out.old.items out.new.items result }
    {
        let text = macrocell_at(alloc, out, &self.replica, generation)?;
        Ok(text)
    }
}
