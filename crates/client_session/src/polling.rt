//! Polls.

ghost use Rattle.std.specs.Prelude.{◌≡◌, drop, IfErr, OnErr, OnOk};
ghost use Rattle.client_session.specs.Waiting.{IsCount};
ghost use Rattle.client_session.specs.Lines.{edits_line, late_line};
ghost use Rattle.client_session.specs.Moment.{IsCutShort, IsWant, TellsCount, others};
ghost use Rattle.board_client.specs.Polling.{IsPoll};
ghost use Rattle.client_session.specs.News.{IsFollowing, IsNews, IsNewsBy, IsPollToldBy};
ghost use Rattle.client_session.specs.Telling.{CameFindsNoRoom, IsPollingTold, TellsBehind, TellsWhole, WholeFindsNoRoom};

use crate::client::Client;
use crate::fault::CommandFault;
use crate::lines::{push_edits_line, push_late_line, push_refusal, push_replaced, push_whole};
use crate::telling::{show_all, tell_changes};
use crate::workspace::{Workspace, behind};
use board_client::Polling;
use devices::{Sink, Source};
use genedit_lib::push_edits;
use std::alloc::Global;
use std::time::Clock;

/// What a command's poll brought.
#[derive(Clone, Copy, Debug, PartialEq, Eq)]
pub(crate) enum News {
    /// Edits, or none.
    Edits,
    /// A whole plane.
    Whole,
    /// A refusal, which was printed.
    Refused,
}

impl<'a, C: Clock, S: Source + Drop, K: Sink + Drop> Client<'a, C, S, K> {
    /// The poll of a client that joins, which tells what came. Of a refusal nothing is told.
    pub(crate) fn first_poll(&mut self) -> Result<(), CommandFault>
        ensures { IsFollowing self.old self.new result }
    {
        match self.told_poll() {
            Ok(_) => Ok(()),
            Err(fault) => Err(fault),
        }
    }

    /// Polls, tells what came, and then prints `edits K`, K being how many edits of others came since a
    /// number of edits, or a whole plane, was last told. Behind `whole` nothing more is printed, and of a
    /// refused poll the refusal alone.
    pub fn poll(&mut self) -> Result<(), CommandFault>
        ensures { IsCount self.old self.new result }
    {
        match self.news() {
            Ok(News::Edits) => self.tell_count(),
            Ok(News::Whole | News::Refused) => Ok(()),
            Err(fault) => Err(fault),
        }
    }

    /// The poll that a command begins with. Its refusal is printed.
    pub(crate) fn news(&mut self) -> Result<News, CommandFault>
        ensures { IsNews self.old self.new result }
    {
        match self.workspace.awaited {
            Some(milliseconds) => self.news_behind(milliseconds),
            None => self.news_alone(),
        }
    }

    /// The same where no poll waits.
    fn news_alone(&mut self) -> Result<News, CommandFault>
        ensures { IsNewsBy IsPoll self.old self.new result }
    {
        match self.told_poll() {
            Ok(Polling::Edits(_)) => Ok(News::Edits),
            Ok(Polling::Whole) => Ok(News::Whole),
            Ok(Polling::Refused(number)) => {
                match push_refusal(self.server.alloc(), &mut self.out, number) {
                    Ok(()) => Ok(News::Refused),
                    Err(_) => Err(CommandFault::Memory),
                }
            }
            Err(fault) => Err(fault),
        }
    }

    /// Polls, and tells what came. A refusal by 21 ends the client: what the board had to hand out is lost.
    pub(crate) fn told_poll(&mut self) -> Result<Polling, CommandFault>
        ensures { IsPollToldBy IsPoll self.old self.new result }
    {
        let alloc = self.server.alloc();
        let known = self.workspace.replica.journal().len();
        let polling = match self.server.poll(&mut self.workspace.replica) {
            Ok(polling) => polling,
            Err(fault) => return Err(CommandFault::Client(fault)),
        };
        match self.workspace.tell(alloc, polling, known, &mut self.out) {
            Ok(()) => Ok(polling),
            Err(fault) => Err(fault),
        }
    }

    /// How many edits of others came since a number of edits, or a whole plane, was last told; one of the client's own
    /// that was in doubt is among them as it comes.
    pub fn others(&self) -> usize
        ensures { result ≡ others self.now.workspace }
    {
        self.workspace.others()
    }

    /// Tells how many edits of others came, and counts anew.
    pub(crate) fn tell_count(&mut self) -> Result<(), CommandFault>
        ensures { TellsCount edits_line self.old self.new result }
    {
        push_edits_line(&mut self.out, self.workspace.others() as u64)?;
        self.workspace.counted = self.workspace.replica.journal().len();
        Ok(())
    }

    /// The same, where fewer came than were awaited.
    pub(crate) fn tell_late(&mut self) -> Result<(), CommandFault>
        ensures { TellsCount late_line self.old self.new result }
    {
        push_late_line(&mut self.out, self.workspace.others() as u64)?;
        self.workspace.counted = self.workspace.replica.journal().len();
        Ok(())
    }
}

impl Workspace {
    /// Tells what a poll brought, behind so many edits of the journal.
    pub(crate) fn tell(
        &mut self,
        alloc: Global,
        polling: Polling,
        known: usize,
        out: &mut Vec<u8>,
    ) -> Result<(), CommandFault>
        ensures { IsPollingTold polling known self.old self.new out.old.items out.new.items result }
    {
        match polling {
            Polling::Edits(_) => self.tell_behind(alloc, known, out),
            Polling::Whole => self.tell_whole(alloc, out),
            Polling::Refused(21) => Err(CommandFault::Refused(21)),
            Polling::Refused(_) => Ok(()),
        }
    }

    /// Tells the edits behind so many of the journal.
    fn tell_behind(
        &mut self,
        alloc: Global,
        known: usize,
        out: &mut Vec<u8>,
    ) -> Result<(), CommandFault>
        ensures told { OnOk result (TellsBehind known self.old self.new out.old.items out.new.items) }
        ensures want { IfErr result (IsWant (CameFindsNoRoom (drop known self.old.replica.journal) self.old.shown self.new.shown out.old.items out.new.items)) }
        ensures cut { OnErr result (IsCutShort self.old self.new out.old.items out.new.items) }
        ensures replica { self.new.replica ≡ self.old.replica }
    {
        let quiet = self.quiet;
        let came = behind(self.replica.journal(), known);
        match &mut self.shown {
            Some(shown) => tell_changes(alloc, shown, out, came),
            None if quiet => Ok(()),
            None => {
                push_edits(out, came)?;
                Ok(())
            }
        }
    }

    /// Tells that a whole plane came, and behind it, where such cells are told, those that look different; and
    /// counts edits anew.
    fn tell_whole(&mut self, alloc: Global, out: &mut Vec<u8>) -> Result<(), CommandFault>
        ensures told { OnOk result (TellsWhole self.old self.new out.old.items out.new.items) }
        ensures want { IfErr result (IsWant (WholeFindsNoRoom self.old self.new out.old.items out.new.items)) }
        ensures cut { OnErr result (IsCutShort self.old self.new out.old.items out.new.items) }
        ensures replica { self.new.replica ≡ self.old.replica }
    {
        let cells = show_all(alloc, &mut self.shown, self.replica.plane())?;
        push_whole(out)?;
        push_replaced(out, &cells)?;
        self.counted = self.replica.journal().len();
        Ok(())
    }
}
