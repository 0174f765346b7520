//! What comes while no command does.

ghost use Rattle.std.specs.Prelude.{◌≡◌, OnOk, Some};
ghost use Rattle.client_session.specs.News.{Follows, FollowsBy, IsAwaited, IsNewsAs, IsNewsBy, IsPollToldBy, IsReplyHeard, SaysAwait, answered, followed_of};

use crate::client::Client;
use crate::fault::CommandFault;
use crate::lines::push_refusal;
use crate::polling::News;
use board_client::Polling;
use devices::{Sink, Source};
use std::time::Clock;

/// What a client that follows heard.
#[derive(Clone, Copy, Debug, PartialEq, Eq)]
pub enum Followed {
    /// What there is, which is told.
    Told,
    /// A refusal by this number, of which nothing is told.
    Refused(u8),
}

impl<'a, C: Clock, S: Source + Drop, K: Sink + Drop> Client<'a, C, S, K> {
    /// Says a poll that waits for news, for so many milliseconds, at most 60,000: `follow` hears its reply. Where
    /// one is open nothing is said.
    pub fn await_news(&mut self, milliseconds: u32) -> Result<(), CommandFault>
        ensures { SaysAwait self.old.workspace.awaited milliseconds self.old self.new result }
    {
        match self.workspace.awaited {
            Some(_) => Ok(()),
            None => match self.server.await_news(milliseconds) {
                Ok(()) => {
                    self.workspace.awaited = Some(milliseconds);
                    Ok(())
                }
                Err(fault) => Err(CommandFault::Client(fault)),
            },
        }
    }

    /// Hears the reply to the poll that waits, where one is open, or else polls, and tells what came: `whole`, or
    /// else each edit, or nothing; or, behind `whole` too, the cells that look different. Of a refusal nothing is
    /// told: a poll that waits is refused by 33 where the server knows none, and by 30 or 255 for a moment.
    pub fn follow(&mut self) -> Result<Followed, CommandFault>
        ensures { Follows self.old self.new result }
    {
        match self.workspace.awaited {
            Some(_) => self.follow_awaited(),
            None => match self.told_poll() {
                Ok(polling) => Ok(followed_of(polling)),
                Err(fault) => Err(fault),
            },
        }
    }

    /// The same where a poll that waits is open.
    fn follow_awaited(&mut self) -> Result<Followed, CommandFault>
        ensures { FollowsBy IsAwaited (answered self.old.line self.old) self.new result }
    {
        self.workspace.awaited = None;
        match self.told_awaited() {
            Ok(polling) => Ok(followed_of(polling)),
            Err(fault) => Err(fault),
        }
    }

    /// The news of a command's poll where one that waits is open: the poll is said behind it, and both replies are
    /// heard and told.
    pub(crate) fn news_behind(&mut self, milliseconds: u32) -> Result<News, CommandFault>
        ensures { IsNewsAs (Some milliseconds) self.old self.new result }
    {
        match self.server.say_poll() {
            Ok(()) => {}
            Err(fault) => return Err(CommandFault::Client(fault)),
        }
        self.workspace.awaited = None;
        match self.told_reply() {
            Ok(_) => {}
            Err(fault) => return Err(fault),
        }
        self.news_awaited()
    }

    /// The same of the reply to a poll that was said behind one that waits.
    fn news_awaited(&mut self) -> Result<News, CommandFault>
        ensures { IsNewsBy IsAwaited self.old self.new result }
    {
        match self.told_awaited() {
            Ok(Polling::Edits(_)) => Ok(News::Edits),
            Ok(Polling::Whole) => Ok(News::Whole),
            Ok(Polling::Refused(number)) => {
                match push_refusal(self.server.alloc(), &mut self.out, number) {
                    Ok(()) => Ok(News::Refused),
                    Err(_) => Err(CommandFault::Memory),
                }
            }
            Err(fault) => Err(fault),
        }
    }

    /// Hears the reply to a poll that waits, and tells what came.
    fn told_awaited(&mut self) -> Result<Polling, CommandFault>
        ensures { IsPollToldBy IsAwaited self.old self.new result }
    {
        let alloc = self.server.alloc();
        let known = self.workspace.replica.journal().len();
        let polling = match self.server.hear_awaited(&mut self.workspace.replica) {
            Ok(polling) => polling,
            Err(fault) => return Err(CommandFault::Client(fault)),
        };
        match self.workspace.tell(alloc, polling, known, &mut self.out) {
            Ok(()) => Ok(polling),
            Err(fault) => Err(fault),
        }
    }

    /// The same where more was said behind it.
    pub(crate) fn told_reply(&mut self) -> Result<Polling, CommandFault>
        ensures told { IsPollToldBy IsReplyHeard self.old self.new result }
        ensures rule { OnOk result (self.new.workspace.replica.rule ≡ self.old.workspace.replica.rule) }
    {
        let alloc = self.server.alloc();
        let known = self.workspace.replica.journal().len();
        let polling = match self.server.hear_reply(&mut self.workspace.replica) {
            Ok(polling) => polling,
            Err(fault) => return Err(CommandFault::Client(fault)),
        };
        match self.workspace.tell(alloc, polling, known, &mut self.out) {
            Ok(()) => Ok(polling),
            Err(fault) => Err(fault),
        }
    }
}

/// What a client that follows hears, by what came.
fn followed_of(polling: Polling) -> Followed
    ensures { result ≡ followed_of polling }
{
    match polling {
        Polling::Edits(_) | Polling::Whole => Followed::Told,
        Polling::Refused(number) => Followed::Refused(number),
    }
}
