//! What is told of a search for the period of what a client's replica holds.

ghost use Rattle.client_session.specs.Searching.{IsPeriodCommand, IsSearchPrint, TellsPeriodNow};

use crate::client::Client;
use crate::fault::CommandFault;
use crate::polling::News;
use crate::workspace::Workspace;
use devices::{Sink, Source};
use std::alloc::Global;
use std::time::Clock;
use told_generations::push_period;

impl<'a, C: Clock, S: Source + Drop, K: Sink + Drop> Client<'a, C, S, K> {
    /// Polls, tells what came, and prints the least period, from 1 to `most`, of what the replica holds `first`
    /// generations later, and by what it moves; or that there is none, or a refusal, as an export is refused.
    pub fn period(&mut self, first: u32, most: u16) -> Result<(), CommandFault>
        ensures { IsPeriodCommand first most self.old self.new result }
    {
        match self.news() {
            Ok(News::Refused) => Ok(()),
            Ok(News::Edits | News::Whole) => self.period_now(first, most),
            Err(fault) => Err(fault),
        }
    }

    /// `period` of what the replica holds. Nothing is polled.
    pub fn period_now(&mut self, first: u32, most: u16) -> Result<(), CommandFault>
        ensures { TellsPeriodNow first most self.old self.new result }
    {
        let alloc = self.server.alloc();
        self.workspace
            .print_period(alloc, &mut self.out, first, most)
    }
}

impl Workspace {
    /// Prints the answer of a search.
    fn print_period(
        &self,
        alloc: Global,
        out: &mut Vec<u8>,
        first: u32,
        most: u16,
    ) -> Result<(), CommandFault>
        ensures { IsSearchPrint first most self.now out.old.items out.new.items result }
    {
        push_period(alloc, out, &self.replica, first, most)?;
        Ok(())
    }
}
