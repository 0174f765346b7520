//! A client that joined a board, and what it does with each command.

ghost use Rattle.std.specs.Prelude.{◌≡◌, ◌&&◌, is_none};
ghost use Rattle.client_tasks.specs.Carrying.{behind_drawing};
ghost use Rattle.genedit_join.specs.Commands.{asks_ahead, going_of, number_of, whole_milliseconds};
ghost use Rattle.genedit_join.specs.Ends.{end_behind};

use crate::ahead::{Ahead, SayingSink};
use crate::away::{Absence, Held};
use crate::connection::StreamSource;
use crate::ears::{Bell, Ears};
use crate::ends::{Board, End, end_behind, goes_on, is_kept, is_rescued, tries_again};
use crate::fault::{JoinFault, of_client};
use crate::joining::JoinOptions;
use crate::late::{drawn_behind, drawn_text, late_outcome, refusal_text};
use crate::patience::{Patience, SECONDS, WaitStep, is_kept_after, say_waiting, step_after};
use crate::rescue::{SeatPlace, has_writes, keep};
use crate::telling::{tell_kept, tell_left_out, tell_lost, tell_say_again, tell_unkept};
use board_client::Pushing;
use client_commands::{ClientCommand, FileName, FileTarget, Film};
use client_session::{Client, Followed, Outcome, end_of, rest_within, time_until};
use client_tasks::{Done, carry_on, carry_out, open};
use devices::Sink;
use genedit_io::{RunFault, push_output};
use replica_core::Replica;
use socket_watch::Came;
use std::alloc::{AllocError, Global};
use std::net::{Net, TcpListener, TcpStream};
use std::rt::Files;
use std::sync::{Arc, Wait};
use std::time::{Clock, Duration};
use std::{mem, thread};
use typed_commands::{
    About, FileFault, FilmFiles, OpenedFile, OwnFiles, Progress, Tally, cure, plan_of, read_opened,
    read_whole, refusal_in, tell_cure, warn_of_rule,
};

/// How often a sleep or a wait is broken by a poll, at most.
const TURNS: u64 = 0x1_0000_0000;

/// For how many milliseconds a client that follows awaits news at a time.
pub(crate) const AWAITED: u32 = 1000;

/// By which a server refuses a request that it does not know.
const UNKNOWN: u8 = 33;

/// When a client polls.
#[derive(Clone, Copy, Debug, PartialEq, Eq)]
pub(crate) struct Pace {
    /// How many milliseconds are let pass between two polls.
    pub(crate) interval: u16,
    /// Whether it polls while no command comes, and in a sleep.
    pub(crate) is_following: bool,
}

impl Pace {
    pub(crate) fn interval(self) -> Duration {
        Duration::from_millis(u64::from(self.interval))
    }
}

/// How a client goes on behind a command.
#[derive(Clone, Copy, Debug, PartialEq, Eq)]
pub(crate) enum Going {
    On,
    /// As `On`; the board may have the edit that was drawn last, or not.
    InDoubt,
    /// It leaves.
    Leaving,
}

/// A client that joined a board, what it asks the system by, and what came of its lines.
#[derive(Drop)]
pub(crate) struct Joined<'a, R: Clock + Eprint + Drop> {
    pub(crate) rt: &'a R,
    pub(crate) client: Client<'a, R, StreamSource<R>, SayingSink>,
    pub(crate) options: JoinOptions,
    pub(crate) ahead: Ahead,
    /// How long its server is awaited, at each connection.
    pub(crate) patience: Arc<Patience>,
    /// By what it waits while it follows; none where it polls for that.
    pub(crate) ears: Option<Ears>,
    /// By what it is called meanwhile, at each connection; none where the system gave none.
    pub(crate) bell: Option<Arc<Bell>>,
    pub(crate) files: OwnFiles,
    pub(crate) tally: Tally,
    /// By which fault it lost its server, if it did and goes on.
    pub(crate) lost: Option<JoinFault>,
    /// How its server is tried that is away, where it is.
    pub(crate) absence: Option<Absence>,
    /// The line of a command that waits for that server, where one does.
    pub(crate) held: Option<Held>,
    /// Whether a line said something.
    pub(crate) has_heard: bool,
}

impl<'a, R: Clock + Eprint + Drop> Joined<'a, R> {
    /// A client that joined just now.
    pub(crate) fn new(
        rt: &'a R,
        client: Client<'a, R, StreamSource<R>, SayingSink>,
        options: JoinOptions,
        ahead: Ahead,
        patience: Arc<Patience>,
    ) -> Joined<'a, R> {
        let files = OwnFiles::none(client.alloc());
        Joined {
            rt,
            client,
            options,
            ahead,
            patience,
            ears: None,
            bell: None,
            files,
            tally: Tally::none(),
            lost: None,
            absence: None,
            held: None,
            has_heard: false,
        }
    }

    /// When it polls: without a server never.
    pub(crate) fn pace(&self) -> Pace
        ensures { result ≡ record { interval = self.now.options.interval; is_following = self.now.options.is_following && is_none self.now.lost } }
    {
        Pace {
            interval: self.options.interval,
            is_following: self.options.is_following && self.lost.is_none(),
        }
    }

    /// Pushes what was printed, and keeps in mind whether that tells a refusal.
    pub(crate) fn push_printed<O: Sink>(&mut self, sink: &mut O) -> Result<(), JoinFault> {
        if self.client.printed().is_empty() {
            return Ok(());
        }
        push_output(sink, self.client.printed())?;
        if refusal_in(self.client.printed()).is_some() {
            self.tally.refused = true;
        }
        self.client.clear_printed();
        Ok(())
    }

    /// Leaves the board; the answer is not awaited for longer than ten seconds. Without a server there is
    /// nothing to leave.
    pub(crate) fn leave(&mut self) -> Result<Going, JoinFault> {
        if self.lost.is_some() {
            return Ok(Going::Leaving);
        }
        self.patience.limit();
        match self.client.leave() {
            Ok(_) => Ok(Going::Leaving),
            Err(fault) => Err(of_client(fault)),
        }
    }

    /// How it ended, by what its last step came to.
    pub(crate) fn end(&self, last: Result<(), JoinFault>) -> End
        ensures { result ≡ end_behind last self.now.lost self.now.tally }
    {
        end_behind(last, self.lost, self.tally)
    }
}

impl<'a, R: Clock + Files + Eprint + Drop> Joined<'a, R> {
    /// Goes on behind a fault by which it lost its server, and says so: where it follows it tries the server again,
    /// and else it goes on without one at a terminal.
    pub(crate) fn survived(&mut self, went: Result<Going, JoinFault>) -> Result<Going, JoinFault> {
        match went {
            Ok(going) => Ok(going),
            Err(fault) if tries_again(fault, self.options.is_following, self.lost.is_none()) => {
                self.go_away(fault);
                Ok(Going::On)
            }
            Err(fault) if goes_on(fault, self.options.is_terminal, self.lost.is_none()) => {
                self.lost = Some(fault);
                tell_lost(self.rt, self.client.alloc(), fault)?;
                Ok(Going::On)
            }
            Err(fault) => Err(fault),
        }
    }

    /// Polls where nothing asked for it.
    pub(crate) fn follow(&mut self) -> Result<Going, JoinFault> {
        self.await_poll();
        self.client.follow()?;
        Ok(Going::On)
    }

    /// Keeps a poll that waits open at the server, where the client follows and the server knows such a poll:
    /// whether one is open.
    pub(crate) fn awaits(&mut self) -> Result<bool, JoinFault> {
        if self.ears.is_none() || !self.pace().is_following {
            return Ok(false);
        }
        self.client.await_news(AWAITED)?;
        Ok(true)
    }

    /// Waits for something of the server, or for a line, for so long at most.
    pub(crate) fn listen(&mut self, most: Duration) -> Came {
        match &mut self.ears {
            Some(ears) => ears.wait(most),
            None => Came::Nothing,
        }
    }

    /// Hears what comes of the poll that waits. Where the server knows no such poll, the client polls from here
    /// on; where it is refused for a moment, a moment is let pass.
    pub(crate) fn hear_news(&mut self) -> Result<Going, JoinFault> {
        match self.client.follow()? {
            Followed::Told => {}
            Followed::Refused(UNKNOWN) => self.ears = None,
            Followed::Refused(_) => thread::sleep(self.rt, self.pace().interval()),
        }
        Ok(Going::On)
    }

    /// Follows for so long at most: up to the next news, or to the next poll.
    fn follow_within(&mut self, left: Duration) -> Result<(), JoinFault> {
        if !self.awaits()? {
            thread::sleep(self.rt, rest_within(left, u32::from(self.options.interval)));
            self.follow()?;
        } else if self.listen(left) == Came::Byte {
            self.hear_news()?;
        }
        Ok(())
    }

    /// Asks ahead for the poll that comes next, and waits for the answer.
    fn await_poll(&self) {
        if self.ahead.ask().is_ok() {
            self.await_answer(0);
        }
    }

    /// Waits for the answer to the poll that was asked ahead, for which it has waited so many seconds: after
    /// the first it says so, after the tenth it writes the board to a file, and waits on.
    fn await_answer(&self, passed: u64) {
        let mut seconds = passed;
        for _second in 0..u64::MAX {
            if self.ahead.has_come() {
                return;
            }
            seconds = seconds.saturating_add(1);
            self.wait_on(seconds);
        }
    }

    /// What is done once an answer has not come for so many seconds, and is awaited further.
    pub(crate) fn wait_on(&self, seconds: u64) {
        if step_after(seconds, false) == WaitStep::Say {
            say_waiting(self.rt);
        }
        if is_kept_after(seconds) {
            self.keep_in_doubt();
        }
    }

    /// Hears the answer to a poll that was asked ahead, where the command for which it was said none.
    fn hear_ahead(&mut self) -> Result<(), JoinFault> {
        if self.ahead.is_asked() {
            self.client.follow()?;
        }
        Ok(())
    }

    /// Carries a command out at the board, or at what is kept of it.
    fn carried(&mut self, command: ClientCommand) -> Result<Done, JoinFault> {
        if self.lost.is_some() {
            return self.carried_alone(command);
        }
        if asks_ahead(&command, self.client.is_awaiting()) {
            self.await_poll();
        }
        let interval = self.interval();
        let done = match command {
            ClientCommand::Wait(wait) => self.wait(wait)?,
            command => {
                self.ahead.lend_push();
                let done = carry_out(&mut self.client, command, interval);
                match self.late_answer()? {
                    Some(outcome) => done_behind(outcome),
                    None => done?,
                }
            }
        };
        self.hear_ahead()?;
        Ok(done)
    }

    /// Carries a command out at what is kept of the board. Where the server is tried again, it is said what to do with
    /// one that needs it.
    fn carried_alone(&mut self, command: ClientCommand) -> Result<Done, JoinFault> {
        let done = carry_on(&mut self.client, command)?;
        if self.is_away() && is_without_server(self.client.printed()) {
            tell_say_again(self.rt);
        }
        Ok(done)
    }

    /// What came of an edit whose answer did not begin within ten seconds, where the client lent one that is
    /// such: the answer is awaited here, with the board at hand, and told; behind the reply to the poll that
    /// waited, where that is still to come.
    fn late_answer(&mut self) -> Result<Option<Outcome>, JoinFault> {
        if !self.ahead.was_push_lent() {
            return Ok(None);
        }
        self.keep_in_doubt();
        self.await_answer(SECONDS);
        let awaited = self.ahead.is_awaited();
        let number = number_of(self.client.hear_late(awaited)?);
        let outcome = late_outcome(number);
        if outcome == Outcome::Drawn {
            self.tell_drawn()?;
        } else {
            let told = refusal_text(self.client.alloc(), number)?;
            self.client.print(&told)?;
        }
        Ok(Some(outcome))
    }

    /// Polls, and tells the edit of its own that came with it.
    fn tell_drawn(&mut self) -> Result<(), JoinFault> {
        let known = self.client.replica().journal().len();
        self.follow()?;
        let replica = self.client.replica();
        if let Some(stamp) = drawn_behind(replica.journal(), known, replica.number()) {
            let told = drawn_text(self.client.alloc(), stamp.counter(), stamp.replica())?;
            self.client.print(&told)?;
        }
        Ok(())
    }

    /// Waits for edits of others. Where the answer to one of its polls does not begin within a second, that
    /// is awaited as the one to a poll that was asked ahead, and the wait goes on for what is left of its time.
    fn wait(&mut self, wait: client_commands::Wait) -> Result<Done, JoinFault> {
        let (end, interval) = (end_of(self.rt, wait.milliseconds), self.interval());
        let mut rest = wait;
        for _turn in 0..TURNS {
            self.ahead.lend();
            let done = carry_out(&mut self.client, ClientCommand::Wait(rest), interval);
            if !self.ahead.was_lent() {
                return Ok(done?);
            }
            self.await_answer(1);
            rest.milliseconds = whole_milliseconds(time_until(self.rt, end));
        }
        Ok(Done::Told)
    }

    /// How many milliseconds are let pass between two polls.
    fn interval(&self) -> u32
        ensures { result ≡ self.now.options.interval }
    {
        u32::from(self.options.interval)
    }

    /// Tells what would be right, where the command of a line that ends at this one was refused for what it
    /// says. Where memory is wanting for that, nothing is told: the refusal stands, and the client goes on.
    pub(crate) fn tell_cure(&self, line: u64, about: &About) {
        let (alloc, rule) = (self.client.alloc(), self.client.replica().rule());
        if let Ok(Some(cure)) = cure(self.rt, alloc, self.client.printed(), &rule, about) {
            tell_cure(self.rt, line, cure.as_str());
        }
    }

    /// Warns where a pattern's text, which is told by this name, has another rule than the board.
    fn warn(&self, name: &[u8], text: &[u8]) -> Result<(), JoinFault> {
        let rule = self.client.replica().rule();
        warn_of_rule(self.rt, self.client.alloc(), &rule, name, text)?;
        Ok(())
    }

    /// Writes a file, and says so, or that it was refused. One that this client wrote may be replaced.
    fn write(&mut self, target: FileTarget, text: &[u8], saves: bool) -> Result<(), JoinFault> {
        let alloc = self.client.alloc();
        let written = self.files.write(self.rt, alloc, target, text)?;
        self.client.print(&written.line)?;
        match &written.file {
            Some(file) if saves => Ok(self.files.add(alloc, file, true)?),
            _ => Ok(()),
        }
    }

    /// Makes a film of the board, or of what is kept of it.
    fn film(&mut self, film: &Film) -> Result<(), JoinFault> {
        let is_alone = self.lost.is_some();
        if !is_alone {
            self.await_poll();
        }
        self.film_behind(film, is_alone)?;
        if !is_alone {
            self.hear_ahead()?;
        }
        Ok(())
    }

    /// The same behind the answer that was awaited.
    fn film_behind(&mut self, film: &Film, is_alone: bool) -> Result<(), JoinFault> {
        let alloc = self.client.alloc();
        let mut album = FilmFiles {
            rt: self.rt,
            alloc,
            film,
            files: mem::replace(&mut self.files, OwnFiles::none(alloc)),
            progress: Progress::of(self.rt, film, self.options.tells_progress),
        };
        let plan = plan_of(film);
        let made = if is_alone {
            self.client.film_now(plan, &mut album)
        } else {
            self.client.film(plan, &mut album)
        };
        let FilmFiles { files, .. } = album;
        self.files = files;
        made?;
        Ok(())
    }

    /// Draws what a file holds.
    fn open(&mut self, file: &FileName) -> Result<Going, JoinFault> {
        let key = self.client.replica().plane().key();
        let text = match read_opened(self.rt, self.client.alloc(), file, key)? {
            OpenedFile::Text(text) => text,
            OpenedFile::Refused(line) => {
                self.client.print(&line)?;
                return Ok(Going::On);
            }
        };
        self.warn(file.as_bytes(), &text)?;
        if !self.client.is_awaiting() {
            self.await_poll();
        }
        self.ahead.lend_push();
        let opened = open(&mut self.client, &text);
        let outcome = match self.late_answer()? {
            Some(outcome) => {
                tell_left_out(self.rt);
                outcome
            }
            None => opened?,
        };
        self.hear_ahead()?;
        Ok(going_of(outcome))
    }

    /// Writes the board to a file where it would be lost, and says where it is, or why it is nowhere.
    pub(crate) fn rescue(&self, end: End) -> Result<(), JoinFault> {
        let board = self.board();
        if is_rescued(end, self.lost.is_none(), board) {
            self.keep_board(board)?;
        }
        Ok(())
    }

    /// Writes the board to a file while its server says nothing.
    pub(crate) fn keep_in_doubt(&self) {
        if let Err(fault) = self.keep_board(self.board()) {
            tell_unkept(self.rt, fault);
        }
    }

    /// What is known of the board before it is compared with a file.
    fn board(&self) -> Board {
        Board {
            is_wanted: self.options.rescues,
            has_edits: has_writes(self.client.replica().plane()),
            is_saved: false,
        }
    }

    /// Writes the board to a file, where it is to be kept and the file that was saved last is not it.
    fn keep_board(&self, board: Board) -> Result<(), JoinFault> {
        self.keep_replica(board, self.client.replica())
    }

    /// Writes what was held at a seat before to a file, likewise.
    pub(crate) fn keep_held(&self, replica: &Replica) -> Result<(), JoinFault> {
        let board = Board {
            is_wanted: self.options.rescues,
            has_edits: has_writes(replica.plane()),
            is_saved: false,
        };
        self.keep_replica(board, replica)
    }

    /// Writes a replica's board to a file, likewise.
    fn keep_replica(&self, board: Board, replica: &Replica) -> Result<(), JoinFault> {
        if !is_kept(board) {
            return Ok(());
        }
        let text = replica.state()?;
        let is_saved = self.is_saved(&text)?;
        if is_kept(Board { is_saved, ..board }) {
            let kept = keep(self.rt, self.client.alloc(), self.place_of(replica), &text)?;
            tell_kept(self.rt, self.client.alloc(), &kept)?;
        }
        Ok(())
    }

    /// Which seat of which server a replica is of.
    fn place_of(&self, replica: &Replica) -> SeatPlace {
        SeatPlace {
            port: self.options.port,
            seat: replica.number(),
        }
    }

    /// Whether the file that was saved last has these bytes.
    fn is_saved(&self, text: &[u8]) -> Result<bool, AllocError> {
        let Some(name) = self.files.saved() else {
            return Ok(false);
        };
        match read_whole(self.rt, self.client.alloc(), name) {
            Ok(bytes) => Ok(bytes.as_slice() == text),
            Err(FileFault::Refused(_)) => Ok(false),
            Err(FileFault::Memory) => Err(AllocError),
        }
    }
}

impl<
    'a,
    R: Net<Listener = TcpListener, Stream = TcpStream>
        + Wait
        + Clock
        + Files
        + Eprint
        + Copy
        + Drop,
> Joined<'a, R> {
    /// Does nothing for so long, or polls meanwhile, or tries a server that is away.
    fn sleep<O: Sink>(&mut self, milliseconds: u32, sink: &mut O) -> Result<(), JoinFault> {
        self.push_printed(sink)?;
        if !self.follows() {
            thread::sleep(self.rt, Duration::from_millis(u64::from(milliseconds)));
            return Ok(());
        }
        let end = end_of(self.rt, milliseconds);
        for _turn in 0..TURNS {
            let Some(left) = time_until(self.rt, end) else {
                return Ok(());
            };
            let went = self.rest(left);
            self.survived(went)?;
            self.push_printed(sink)?;
        }
        Ok(())
    }

    /// Follows for so long at most, or waits for a server that is away.
    fn rest(&mut self, left: Duration) -> Result<Going, JoinFault> {
        if self.is_away() {
            return self.rest_away(left);
        }
        self.follow_within(left)?;
        Ok(Going::On)
    }

    /// Does what a command asks for. What it prints is pushed only where it sleeps.
    pub(crate) fn obey<O: Sink>(
        &mut self,
        command: ClientCommand,
        sink: &mut O,
    ) -> Result<Going, JoinFault> {
        if let ClientCommand::Pattern(name, text) = &command {
            self.warn(name.as_bytes(), text.as_slice())?;
        }
        let saves = matches!(&command, ClientCommand::Save(_));
        match self.carried(command)? {
            Done::Told => Ok(Going::On),
            Done::InDoubt => Ok(Going::InDoubt),
            Done::Write(target, text) => {
                self.write(target, &text, saves)?;
                Ok(Going::On)
            }
            Done::Film(film) => {
                self.film(&film)?;
                Ok(Going::On)
            }
            Done::Open(file) => self.open(&file),
            Done::Sleep(milliseconds) => {
                self.sleep(milliseconds, sink)?;
                Ok(Going::On)
            }
            Done::Leave => Ok(Going::Leaving),
        }
    }
}

/// Whether a command begins with a poll, which is then asked ahead: one that draws only where no poll waits,
/// since what that brought is heard already. One that opens a file reads that first; one that makes a film does it by a call
/// of its own, which asks ahead.
fn asks_ahead(command: &ClientCommand, awaited: bool) -> bool
    ensures { result ≡ asks_ahead command.now awaited }
{
    match command {
        ClientCommand::Draw(_) | ClientCommand::Copy(_) | ClientCommand::Or(_) => !awaited,
        ClientCommand::Undo | ClientCommand::Redo => !awaited,
        ClientCommand::Count(_)
        | ClientCommand::Counts(_)
        | ClientCommand::Period(_)
        | ClientCommand::Export(_, _)
        | ClientCommand::Cut(_, _, _)
        | ClientCommand::Poll
        | ClientCommand::Wait(_)
        | ClientCommand::Save(_) => true,
        ClientCommand::Pattern(_, _)
        | ClientCommand::Turn(_)
        | ClientCommand::Show(_, _)
        | ClientCommand::Sleep(_)
        | ClientCommand::Film(_)
        | ClientCommand::Open(_)
        | ClientCommand::Help
        | ClientCommand::Bye => false,
    }
}

/// Whether what was printed is that there is no server.
fn is_without_server(printed: &[u8]) -> bool {
    printed == b"no server\n".as_slice()
}

/// How many whole milliseconds a time has, 0 where it is over.
fn whole_milliseconds(left: Option<Duration>) -> u32
    ensures { result ≡ whole_milliseconds left }
{
    match left {
        Some(left) => u32::try_from(left.as_millis()).unwrap_or(u32::MAX),
        None => 0,
    }
}

/// The number with which an edit was answered.
fn number_of(pushing: Pushing) -> u8
    ensures { result ≡ number_of pushing }
{
    match pushing {
        Pushing::Done => 0,
        Pushing::Refused(number) => number,
    }
}

/// What is left to do behind a command that drew.
fn done_behind(outcome: Outcome) -> Done
    ensures { result ≡ behind_drawing outcome }
{
    match outcome {
        Outcome::Drawn | Outcome::Refused => Done::Told,
        Outcome::InDoubt => Done::InDoubt,
    }
}

pub(crate) fn going_of(outcome: Outcome) -> Going
    ensures { result ≡ going_of outcome }
{
    match outcome {
        Outcome::Drawn | Outcome::Refused => Going::On,
        Outcome::InDoubt => Going::InDoubt,
    }
}
