//! What is told of the counts of what a client's replica holds, at several generations.

ghost use Rattle.client_session.specs.Counting.{IsCountsCommand, IsCountsPrint, TellsCountsNow};

use crate::client::Client;
use crate::fault::CommandFault;
use crate::polling::News;
use crate::workspace::Workspace;
use command_words::GenerationRange;
use devices::{Sink, Source};
use std::alloc::Global;
use std::time::Clock;
use told_generations::push_counts;

impl<'a, C: Clock, S: Source + Drop, K: Sink + Drop> Client<'a, C, S, K> {
    /// Polls once, tells what came, and prints in a line each how many cells the replica holds at the generations of a
    /// range, and in which box; or a refusal, where the last of them is past 2^29.
    pub fn counts(&mut self, range: GenerationRange) -> Result<(), CommandFault>
        ensures { IsCountsCommand range self.old self.new result }
    {
        match self.news() {
            Ok(News::Refused) => Ok(()),
            Ok(News::Edits | News::Whole) => self.counts_now(range),
            Err(fault) => Err(fault),
        }
    }

    /// `counts` of what the replica holds. Nothing is polled.
    pub fn counts_now(&mut self, range: GenerationRange) -> Result<(), CommandFault>
        ensures { TellsCountsNow range self.old self.new result }
    {
        let alloc = self.server.alloc();
        self.workspace.print_counts(alloc, &mut self.out, range)
    }
}

impl Workspace {
    /// Prints the counts.
    fn print_counts(
        &self,
        alloc: Global,
        out: &mut Vec<u8>,
        range: GenerationRange,
    ) -> Result<(), CommandFault>
        ensures { IsCountsPrint range self.now out.old.items out.new.items result }
    {
        push_counts(alloc, out, &self.replica, range)?;
        Ok(())
    }
}
