//! A client that follows, while its server is away.

ghost use Rattle.std.specs.Prelude.{◌≡◌, is_some};
ghost use Rattle.genedit_join.specs.Away.{is_tried_again, needs_server};

use crate::connection::{Connection, reconnect};
use crate::ears::{Bell, Ears};
use crate::ends::loses_server;
use crate::fault::JoinFault;
use crate::joined::{Going, Joined, going_of};
use crate::patience::is_kept_after;
use crate::telling::{
    tell_away, tell_held, tell_lacking, tell_left_out, tell_lost, tell_undecided, tell_unkept,
};
use board_client::Server;
use client_commands::ClientCommand;
use client_session::{Before, Return, end_of, time_until};
use genedit_io::RunFault;
use std::alloc::AllocError;
use std::net::{Net, TcpListener, TcpStream};
use std::rt::Files;
use std::sync::{Arc, Wait};
use std::thread;
use std::time::{Clock, Duration, Instant};

/// For how many milliseconds a server that is away is let alone between two tries.
const PAUSE: u32 = 1000;

/// How a server is tried that is away.
#[derive(Clone, Copy, Drop)]
pub(crate) struct Absence {
    /// How often it was tried in vain.
    tries: u64,
    /// When it is tried next; none where the clock cannot be read.
    next: Option<Instant>,
}

/// The line of a command that waits for the server, and its number.
#[derive(Drop)]
pub(crate) struct Held {
    pub(crate) line: Vec<u8>,
    pub(crate) number: u64,
}

/// Whether a fault is one behind which a port is tried again: nobody is there, or no seat is left yet, or what was
/// refused may be given in a moment.
fn is_tried_again(fault: JoinFault) -> bool
    ensures { result ≡ is_tried_again fault }
{
    match fault {
        JoinFault::Gone | JoinFault::NoServer | JoinFault::NoSeat => true,
        JoinFault::Run(RunFault::Refused(number, _)) => number == 30 || number == 255,
        JoinFault::Run(_) | JoinFault::OtherRule | JoinFault::Script | JoinFault::NoReply => false,
    }
}

/// Whether a command is carried out by the server.
pub(crate) fn needs_server(command: &ClientCommand) -> bool
    ensures { result ≡ needs_server command.now }
{
    match command {
        ClientCommand::Draw(_)
        | ClientCommand::Copy(_)
        | ClientCommand::Or(_)
        | ClientCommand::Undo
        | ClientCommand::Redo
        | ClientCommand::Count(_)
        | ClientCommand::Counts(_)
        | ClientCommand::Period(_)
        | ClientCommand::Export(_, _)
        | ClientCommand::Film(_)
        | ClientCommand::Cut(_, _, _)
        | ClientCommand::Poll
        | ClientCommand::Wait(_)
        | ClientCommand::Save(_)
        | ClientCommand::Open(_) => true,
        ClientCommand::Pattern(_, _)
        | ClientCommand::Turn(_)
        | ClientCommand::Show(_, _)
        | ClientCommand::Sleep(_)
        | ClientCommand::Help
        | ClientCommand::Bye => false,
    }
}

impl<'a, R: Clock + Eprint + Drop> Joined<'a, R> {
    /// Whether its server is away, and tried again.
    pub(crate) fn is_away(&self) -> bool
        ensures { result ≡ is_some self.now.absence }
    {
        self.absence.is_some()
    }

    /// Whether it follows, be its server there or tried again.
    pub(crate) fn follows(&self) -> bool {
        self.pace().is_following || self.is_away()
    }

    /// Whether no line is taken until the server is there: a command waits, or an edit is in doubt, and nobody types.
    pub(crate) fn is_blocked(&self) -> bool {
        let waits = self.held.is_some() || self.client.is_in_doubt();
        self.is_away() && waits && !self.options.is_terminal
    }

    /// Whether a command has to wait for the server, since nobody types who could say it again.
    fn is_to_wait(&self, command: &ClientCommand) -> bool {
        self.is_away() && !self.options.is_terminal && needs_server(command)
    }

    /// How long it is until the server is tried again.
    pub(crate) fn until_try(&self) -> Duration {
        match self.absence {
            Some(
                Absence {
                    next: Some(next),
                    ..
                },
            ) => { time_until(self.rt, Some(next)).unwrap_or(Duration::ZERO) }
            _ => Duration::from_millis(u64::from(PAUSE)),
        }
    }

    /// Its server is away from now on, and tried again; it says so.
    pub(crate) fn go_away(&mut self, fault: JoinFault) {
        self.lost = Some(fault);
        self.absence = Some(Absence {
            tries: 0,
            next: end_of(self.rt, PAUSE),
        });
        tell_away(self.rt, self.options.is_terminal);
    }

    /// Keeps the line of a command in mind that was not carried out.
    fn hold(&mut self, line: &[u8], number: u64) -> Result<(), AllocError> {
        let mut copy = Vec::new(self.client.alloc());
        copy.extend_from_slice(line)?;
        self.held = Some(Held { line: copy, number });
        Ok(())
    }

    /// Has a command wait for the server, where it has to: whether it does.
    pub(crate) fn holds_back(
        &mut self,
        command: &ClientCommand,
        line: &[u8],
        number: u64,
    ) -> Result<bool, AllocError> {
        let waits = self.is_to_wait(command);
        if waits {
            self.hold(line, number)?;
        }
        Ok(waits)
    }

    /// Keeps a command in mind by which the server was lost, to carry it out once the server is there. One whose
    /// drawing is in doubt is not: that is looked for. What a file draws in several edits is not drawn twice.
    pub(crate) fn hold_broken(
        &mut self,
        broken: Broken,
        line: &[u8],
        number: u64,
    ) -> Result<(), AllocError> {
        if !self.options.is_following || !broken.needs_server {
            return Ok(());
        }
        let has_drawn = has_line_of(self.client.printed(), b"drawn ");
        if broken.opens && (has_drawn || self.client.is_in_doubt()) {
            tell_left_out(self.rt);
            return Ok(());
        }
        if self.client.is_in_doubt() {
            return Ok(());
        }
        self.hold(line, number)
    }

    /// Says what of its commands nobody knows, where it ends without the server that it followed.
    pub(crate) fn tell_left_over(&self) {
        if !self.options.is_following || self.lost.is_none() {
            return;
        }
        if self.client.is_in_doubt() {
            tell_undecided(self.rt);
        }
        if let Some(held) = &self.held {
            tell_held(self.rt, held.number);
        }
    }
}

/// What is known of a command by which the server was lost.
#[derive(Clone, Copy, Drop)]
pub(crate) struct Broken {
    pub(crate) needs_server: bool,
    /// It draws what a file holds.
    pub(crate) opens: bool,
}

impl Broken {
    pub(crate) fn by(command: &ClientCommand) -> Broken {
        Broken {
            needs_server: needs_server(command),
            opens: matches!(command, ClientCommand::Open(_)),
        }
    }
}

/// Whether a line of a text begins so.
fn has_line_of(text: &[u8], word: &[u8]) -> bool {
    text.split(|byte| *byte == b'\n')
        .any(|line| line.starts_with(word))
}

impl<
    'a,
    R: Net<Listener = TcpListener, Stream = TcpStream>
        + Wait
        + Clock
        + Files
        + Eprint
        + Copy
        + Drop,
> Joined<'a, R> {
    /// Tries the server that is away. After the tenth try the board is written to a file, so that an end by Ctrl-C
    /// loses nothing.
    pub(crate) fn try_again(&mut self) -> Result<Going, JoinFault> {
        let Some(absence) = self.absence else {
            return Ok(Going::On);
        };
        let tries = absence.tries.saturating_add(1);
        if is_kept_after(tries) {
            self.keep_in_doubt();
        }
        let (alloc, port) = (self.client.alloc(), self.options.port);
        let tried = reconnect(self.rt, alloc, port, &self.patience)?;
        self.absence = Some(Absence {
            tries,
            next: end_of(self.rt, PAUSE),
        });
        match tried {
            Some(connection) => self.come_back(connection),
            None => Ok(Going::On),
        }
    }

    /// Listens at its first connection, where the system gives that.
    pub(crate) fn listen_first(&mut self, watched: Option<TcpStream>) {
        let Some(socket) = watched else {
            return;
        };
        if let Some((ears, bell)) = Ears::over(self.rt, self.client.alloc(), socket) {
            self.ears = Some(ears);
            self.bell = Some(bell);
        }
    }

    /// By what it is called, to be rung by another thread.
    pub(crate) fn bell_copy(&self) -> Result<Option<Arc<Bell>>, AllocError> {
        match &self.bell {
            Some(bell) => Ok(Some(Arc::try_clone(bell)?)),
            None => Ok(None),
        }
    }

    /// Goes on at a new connection, if its server has a seat on a board of the same rule.
    fn come_back(&mut self, connection: Connection<R>) -> Result<Going, JoinFault> {
        let Connection {
            line,
            ahead,
            watched,
        } = connection;
        self.patience.limit();
        let server = Server::new(self.rt, self.client.alloc(), line);
        let returned = self.client.return_to(server);
        self.patience.unlimit();
        match returned {
            Ok(Return::Joined(before)) => {
                self.ahead = ahead;
                self.listen_at(watched);
                self.lost = None;
                self.absence = None;
                self.keep_before(&before);
                self.settle()
            }
            Ok(Return::OtherRule) => self.give_up(JoinFault::OtherRule),
            Err(fault) => match JoinFault::from(fault) {
                fault if is_tried_again(fault) => Ok(Going::On),
                fault => self.give_up(fault),
            },
        }
    }

    /// Listens at another connection, where the system gives that.
    fn listen_at(&mut self, watched: Option<TcpStream>) {
        self.ears = match (watched, &self.bell) {
            (Some(socket), Some(bell)) => Ears::again(self.rt, self.client.alloc(), socket, bell),
            _ => None,
        };
    }

    /// Draws what is in doubt, and is not on the board, anew.
    fn settle(&mut self) -> Result<Going, JoinFault> {
        if !self.client.is_in_doubt() {
            return Ok(Going::On);
        }
        let outcome = self.client.draw_anew()?;
        Ok(going_of(outcome))
    }

    /// Tries no more: the server is lost for good.
    fn give_up(&mut self, fault: JoinFault) -> Result<Going, JoinFault> {
        self.absence = None;
        if !self.options.is_terminal || !loses_server(fault) {
            return Err(fault);
        }
        self.lost = Some(fault);
        tell_lost(self.rt, self.client.alloc(), fault)?;
        Ok(Going::On)
    }

    /// Writes what the client held to a file, where the board that answered does not have all of it, and says so.
    fn keep_before(&self, before: &Before) {
        if !before.is_lost {
            return;
        }
        tell_lacking(self.rt);
        if let Err(fault) = self.keep_held(&before.replica) {
            tell_unkept(self.rt, fault);
        }
    }

    /// Rests for so long at most while the server is away: up to the next try, which is made where its time comes.
    pub(crate) fn rest_away(&mut self, left: Duration) -> Result<Going, JoinFault> {
        let until = self.until_try();
        thread::sleep(self.rt, left.min(until));
        if until <= left {
            return self.try_again();
        }
        Ok(Going::On)
    }
}
