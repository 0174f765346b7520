//! What is told of later generations of what a client's replica holds, and its whole map as a text.

ghost use Rattle.std.specs.Prelude.{◌≡◌};
ghost use Rattle.client_session.specs.Exporting.{GivesTextNow, IsReplyPrint, IsSaveCommand, IsStateAnswer, IsTellCommand, IsTextAnswer, IsTextCommand, SavesNow, TellsNow};

use crate::client::Client;
use crate::fault::CommandFault;
use crate::polling::News;
use crate::workspace::Workspace;
use devices::{Sink, Source};
use genedit_lib::push_line;
use replica_core::{Question, Reply};
use std::alloc::Global;
use std::time::Clock;

impl<'a, C: Clock, S: Source + Drop, K: Sink + Drop> Client<'a, C, S, K> {
    /// Polls, tells what came, and prints what is told of a question: the text of an export or of a cut, how many
    /// cells there are, or a refusal, as `genedit run` does.
    pub fn tell(&mut self, question: Question) -> Result<(), CommandFault>
        ensures { IsTellCommand question self.old self.new result }
    {
        match self.news() {
            Ok(News::Refused) => Ok(()),
            Ok(News::Edits | News::Whole) => self.tell_now(question),
            Err(fault) => Err(fault),
        }
    }

    /// Polls, tells what came, and gives the text of an export or of a cut. `None` where the poll was refused, or
    /// the text, whose refusal is printed.
    pub fn text(&mut self, question: Question) -> Result<Option<Vec<u8>>, CommandFault>
        ensures { IsTextCommand (λ text. text.items) question self.old self.new result }
    {
        match self.news() {
            Ok(News::Refused) => Ok(None),
            Ok(News::Edits | News::Whole) => self.text_now(question),
            Err(fault) => Err(fault),
        }
    }

    /// Polls, tells what came, and gives the bytes of a message of the replica's map. `None` where the poll
    /// was refused.
    pub fn save(&mut self) -> Result<Option<Vec<u8>>, CommandFault>
        ensures { IsSaveCommand (λ text. text.items) self.old self.new result }
    {
        match self.news() {
            Ok(News::Refused) => Ok(None),
            Ok(News::Edits | News::Whole) => self.save_now(),
            Err(fault) => Err(fault),
        }
    }

    /// Gives the bytes of a message of the replica's map. Nothing is polled.
    pub fn save_now(&mut self) -> Result<Option<Vec<u8>>, CommandFault>
        ensures { SavesNow (λ text. text.items) self.old self.new result }
    {
        self.workspace.saved()
    }

    /// `tell` of what the replica holds. Nothing is polled.
    pub fn tell_now(&mut self, question: Question) -> Result<(), CommandFault>
        ensures { TellsNow question self.old self.new result }
    {
        let alloc = self.server.alloc();
        self.workspace.print_told(alloc, &mut self.out, question)
    }

    /// `text` of what the replica holds. Nothing is polled.
    pub fn text_now(&mut self, question: Question) -> Result<Option<Vec<u8>>, CommandFault>
        ensures { GivesTextNow (λ text. text.items) question self.old self.new result }
    {
        let alloc = self.server.alloc();
        self.workspace.text_told(alloc, &mut self.out, question)
    }
}

impl Workspace {
    /// The bytes of a message of the replica's map.
    fn saved(&self) -> Result<Option<Vec<u8>>, CommandFault>
        ensures { IsStateAnswer (λ text. text.items) self.now result }
    {
        match self.replica.state() {
            Ok(text) => Ok(Some(text)),
            Err(_) => Err(CommandFault::Memory),
        }
    }

    /// Prints what is told of a question.
    fn print_told(
        &self,
        alloc: Global,
        out: &mut Vec<u8>,
        question: Question,
    ) -> Result<(), CommandFault>
        ensures { IsReplyPrint question self.now out.old.items out.new.items result }
    {
        let reply = self.replica.tell(question)?;
        push_line(alloc, out, &reply)?;
        Ok(())
    }

    /// The text that is told of a question, or none, where what is told is printed.
    fn text_told(
        &self,
        alloc: Global,
        out: &mut Vec<u8>,
        question: Question,
    ) -> Result<Option<Vec<u8>>, CommandFault>
        ensures { IsTextAnswer (λ text. text.items) question self.now out.old.items out.new.items result }
    {
        match self.replica.tell(question)? {
            Reply::Text(text) => Ok(Some(text.into_vec())),
            reply => {
                push_line(alloc, out, &reply)?;
                Ok(None)
            }
        }
    }
}
