//! A client from its first line to its last.

ghost use Rattle.std.specs.Prelude.{◌≡◌};
ghost use Rattle.genedit_join.specs.Fault.{fault_of_command, without_greeting};

use crate::ahead::SayingSink;
use crate::away::{Broken, Held};
use crate::connection::{Connection, StreamSource, connect};
use crate::ends::end_status;
use crate::fault::JoinFault;
use crate::joined::{AWAITED, Going, Joined, Pace};
use crate::patience::Patience;
use crate::telling::{tell_doubt, tell_end, tell_unkept};
use crate::typed::{Typed, typed_lines};
use board_client::Server;
use client_commands::{ClientCommand, Dictation, Heard, command_in};
use client_session::{Client, CommandFault, Telling};
use crossbeam_channel::{Receiver, RecvTimeoutError, TryRecvError};
use devices::{Sink, Source};
use genedit_io::{RunFault, push_output};
use genedit_script::{says_something, without_return};
use keyed_hash::HashKey;
use socket_watch::Came;
use std::alloc::{AllocError, Global};
use std::net::{Net, TcpListener, TcpStream};
use std::rt::Files;
use std::sync::{Arc, Wait};
use std::thread;
use std::thread::Threads;
use std::time::{Clock, Duration};
use typed_commands::{About, is_script, tell_fault, tell_open_block};

/// How a client joins a board.
#[derive(Clone, Copy)]
pub struct JoinOptions {
    /// The port at which the server listens on this machine.
    pub port: u16,
    /// How many milliseconds are let pass between two polls, 1 to 60,000.
    pub interval: u16,
    /// Whether it polls while no command comes.
    pub is_following: bool,
    pub telling: Telling,
    /// Whether somebody types the commands.
    pub is_terminal: bool,
    /// Whether it is said on standard error how far a film is.
    pub tells_progress: bool,
    /// Whether its board is written to a file where it loses its server.
    pub rescues: bool,
    /// By whose hashes the client finds what it holds.
    pub key: HashKey,
}

/// Where a client's commands come from, one a line, and where what it prints goes.
pub struct Terminal<S, O> {
    pub source: S,
    pub sink: O,
}

/// Joins a board and carries out the commands of a terminal, to `bye` or the end of its source, and then
/// leaves; the status of the process. Each line is pushed before anything else is waited for. Lines at fault
/// are told on standard error, and passed over; so is why the client ends otherwise. One that loses its
/// server goes on without it where somebody types the commands, and else writes its board to a file.
pub fn join<
    R: Net<Listener = TcpListener, Stream = TcpStream>
        + Threads
        + Wait
        + Clock
        + Files
        + Eprint
        + Copy
        + Drop
        + Send
        + Sync
        + 'static,
    S: Source + Send + Drop + 'static,
    O: Sink + Drop,
>(rt: &R, alloc: Global, options: JoinOptions, terminal: Terminal<S, O>) -> u8 {
    match joined_to_its_end(rt, alloc, options, terminal) {
        Ok(status) => status,
        Err(fault) => {
            tell_end(rt, fault);
            fault.exit_status()
        }
    }
}

/// The status of a client that joined, once it has ended; or why it did not join.
fn joined_to_its_end<
    R: Net<Listener = TcpListener, Stream = TcpStream>
        + Threads
        + Wait
        + Clock
        + Files
        + Eprint
        + Copy
        + Drop
        + Send
        + Sync
        + 'static,
    S: Source + Send + Drop + 'static,
    O: Sink + Drop,
>(rt: &R, alloc: Global, options: JoinOptions, terminal: Terminal<S, O>) -> Result<u8, JoinFault> {
    let Terminal { source, mut sink } = terminal;
    let patience = shared_patience(alloc)?;
    let Connection {
        line,
        ahead,
        watched,
    } = connect(rt, alloc, options.port, &patience)?;
    let client = client_at(Server::new(rt, alloc, line), options, &mut sink)?;
    let mut joined = Joined::new(rt, client, options, ahead, patience);
    joined.patience.unlimit();
    joined.push_printed(&mut sink)?;
    joined.listen_first(watched);
    let bell = joined.bell_copy()?;
    let typed = typed_lines(*rt, alloc, source, bell)?;
    let obeyed = obey_all(&mut joined, &typed, &mut sink);
    let pushed = joined.push_printed(&mut sink);
    let last = match obeyed {
        Ok(()) => pushed,
        Err(fault) => Err(fault),
    };
    Ok(finish(&joined, last))
}

/// How long servers are awaited, at first for ten seconds.
fn shared_patience(alloc: Global) -> Result<Arc<Patience>, AllocError> {
    let patience = Arc::new(alloc, Patience::limited())?;
    Ok(patience)
}

/// Tells why a client ended by a fault, and where its board is kept, if that is lost; its status.
fn finish<R: Clock + Files + Eprint + Drop>(
    joined: &Joined<'_, R>,
    last: Result<(), JoinFault>,
) -> u8 {
    if let Err(fault) = &last {
        tell_end(joined.rt, *fault);
    }
    joined.tell_left_over();
    let end = joined.end(last);
    if let Err(fault) = joined.rescue(end) {
        tell_unkept(joined.rt, fault);
    }
    end_status(end, joined.options.is_terminal)
}

/// A client that was greeted. Where its first poll ends it, what was printed by then is pushed.
fn client_at<'a, R: Clock + Eprint + Drop, O: Sink>(
    server: Server<'a, R, StreamSource<R>, SayingSink>,
    options: JoinOptions,
    sink: &mut O,
) -> Result<Client<'a, R, StreamSource<R>, SayingSink>, JoinFault> {
    match Client::join(server, options.telling, options.key) {
        Ok(client) => Ok(client),
        Err(unjoined) => Err(not_joined(unjoined.fault(), unjoined.printed(), sink)),
    }
}

/// Why a client did not join, once what was printed is pushed. Where nothing was, no greeting came.
fn not_joined<O: Sink>(fault: CommandFault, out: &[u8], sink: &mut O) -> JoinFault {
    if out.is_empty() {
        return unanswered(fault);
    }
    match push_output(sink, out) {
        Ok(()) => JoinFault::from(fault),
        Err(fault) => JoinFault::Run(fault),
    }
}

/// Why a client did not join: where nothing comes at the greeting, no server answers.
fn unanswered(fault: CommandFault) -> JoinFault
    ensures { result ≡ without_greeting (fault_of_command fault) }
{
    match JoinFault::from(fault) {
        JoinFault::Gone => JoinFault::NoServer,
        fault => fault,
    }
}

/// Carries out commands to the one that leaves, or to the end of the lines, and leaves the board.
fn obey_all<
    R: Net<Listener = TcpListener, Stream = TcpStream>
        + Wait
        + Clock
        + Files
        + Eprint
        + Copy
        + Drop,
    O: Sink,
>(
    joined: &mut Joined<'_, R>,
    typed: &Receiver<Typed, Global>,
    sink: &mut O,
) -> Result<(), JoinFault> {
    let rt = joined.rt;
    let mut dictation = Dictation::new(joined.client.alloc());
    for _ in rt.forever() {
        joined.push_printed(sink)?;
        let went = match next_of(joined, typed) {
            Err(fault) => Err(fault),
            Ok(Next::Nothing) => joined.follow(),
            Ok(Next::News) => joined.hear_news(),
            Ok(Next::Again) => joined.try_again(),
            Ok(Next::Held(held)) => hear_held(joined, &held, sink),
            Ok(Next::Line(line)) => hear(joined, &mut dictation, &line, sink),
            Ok(Next::Failed(fault)) => Err(JoinFault::Run(fault)),
            Ok(Next::End) => return leave_at_the_end(joined, &dictation),
        };
        if joined.survived(went)? == Going::Leaving && has_left(joined, sink)? {
            return Ok(());
        }
    }
    unreachable!()
}

/// Leaves the board at the end of the lines.
fn leave_at_the_end<R: Clock + Files + Eprint + Drop>(
    joined: &mut Joined<'_, R>,
    dictation: &Dictation,
) -> Result<(), JoinFault> {
    if let Some(number) = dictation.ended() {
        joined.tally.faulty = true;
        tell_open_block(joined.rt, joined.client.alloc(), number)?;
    }
    joined.leave()?;
    Ok(())
}

/// Leaves the board by `bye`. False where the server is lost just then, and the client goes on without it, as at a
/// terminal.
fn has_left<R: Clock + Files + Eprint + Drop, O: Sink>(
    joined: &mut Joined<'_, R>,
    sink: &mut O,
) -> Result<bool, JoinFault> {
    joined.push_printed(sink)?;
    let had_server = joined.lost.is_none();
    let left = joined.leave();
    if !joined.options.is_terminal {
        left?;
        return Ok(true);
    }
    let has_left = joined.survived(left)? == Going::Leaving;
    if has_left && !had_server {
        // whoever says so was told that the board is kept here alone
        joined.options.rescues = false;
    }
    Ok(has_left)
}

/// What comes next.
#[derive(Drop)]
enum Next {
    /// So far no line; it is time for a poll.
    Nothing,
    /// The server says something.
    News,
    /// The server is away; it is time for another try.
    Again,
    /// The server is there, for which a command waited.
    Held(Held),
    Line(Vec<u8>),
    /// The lines cannot be read any further.
    Failed(RunFault),
    /// There are no more lines.
    End,
}

/// The next line, or something of the server to a client that follows; one that cannot await that waits for no
/// longer than lies between two polls.
fn next_of<R: Wait + Clock + Files + Eprint + Drop>(
    joined: &mut Joined<'_, R>,
    typed: &Receiver<Typed, Global>,
) -> Result<Next, JoinFault> {
    if joined.is_away() {
        return Ok(next_away(joined, typed));
    }
    if let Some(held) = joined.held.take() {
        return Ok(Next::Held(held));
    }
    if joined.awaits()? {
        Ok(next_heard(joined, typed))
    } else {
        Ok(next_typed(joined.rt, joined.pace(), typed))
    }
}

/// The next line while the server is away, or the time for another try. Where a command waits for the server and
/// nobody types, no line is taken.
fn next_away<R: Wait + Clock + Files + Eprint + Drop>(
    joined: &Joined<'_, R>,
    typed: &Receiver<Typed, Global>,
) -> Next {
    let until = joined.until_try();
    if joined.is_blocked() {
        thread::sleep(joined.rt, until);
        return Next::Again;
    }
    match typed.recv_timeout(joined.rt, until) {
        Ok(typed) => typed_next(typed),
        Err(RecvTimeoutError::Timeout) => Next::Again,
        Err(RecvTimeoutError::Disconnected) => Next::End,
    }
}

/// The next line, or something of the server, where a poll waits there. Where its reply has not come a second
/// behind its time, it is late, and further with each second.
fn next_heard<R: Wait + Clock + Files + Eprint + Drop>(
    joined: &mut Joined<'_, R>,
    typed: &Receiver<Typed, Global>,
) -> Next {
    let second = Duration::from_millis(1000);
    let mut most = second + Duration::from_millis(u64::from(AWAITED));
    let mut late: u64 = 0;
    let rt = joined.rt;
    for _ in rt.forever() {
        if let Some(next) = typed_by_now(rt, typed) {
            return next;
        }
        match joined.listen(most) {
            Came::Byte => return Next::News,
            Came::Call => {}
            Came::Nothing => {
                late = late.saturating_add(1);
                joined.wait_on(late);
                most = second;
            }
        }
    }
    unreachable!()
}

/// The next line where it is there.
fn typed_by_now<R: Wait>(rt: &R, typed: &Receiver<Typed, Global>) -> Option<Next> {
    match typed.try_recv(rt) {
        Ok(typed) => Some(typed_next(typed)),
        Err(TryRecvError::Empty) => None,
        Err(TryRecvError::Disconnected) => Some(Next::End),
    }
}

/// The next line; a client that follows waits for no longer than lies between two polls.
fn next_typed<R: Wait + Clock>(rt: &R, pace: Pace, typed: &Receiver<Typed, Global>) -> Next {
    if pace.is_following {
        return match typed.recv_timeout(rt, pace.interval()) {
            Ok(typed) => typed_next(typed),
            Err(RecvTimeoutError::Timeout) => Next::Nothing,
            Err(RecvTimeoutError::Disconnected) => Next::End,
        };
    }
    match typed.recv(rt) {
        Ok(typed) => typed_next(typed),
        Err(_) => Next::End,
    }
}

fn typed_next(typed: Typed) -> Next {
    match typed {
        Typed::Line(line) => Next::Line(line),
        Typed::Failed(fault) => Next::Failed(fault),
    }
}

/// Hears a line, and does what it asks for.
fn hear<
    R: Net<Listener = TcpListener, Stream = TcpStream>
        + Wait
        + Clock
        + Files
        + Eprint
        + Copy
        + Drop,
    O: Sink,
>(
    joined: &mut Joined<'_, R>,
    dictation: &mut Dictation,
    line: &[u8],
    sink: &mut O,
) -> Result<Going, JoinFault> {
    let text = without_return(line);
    if is_script(joined.has_heard, text) {
        return Err(JoinFault::Script);
    }
    joined.has_heard = joined.has_heard || says_something(text);
    match dictation.hear(line)? {
        Heard::Nothing => Ok(Going::On),
        Heard::Faulty(number) => {
            joined.tally.faulty = true;
            tell_fault(joined.rt, joined.client.alloc(), number, line)?;
            Ok(Going::On)
        }
        Heard::Command(command) => {
            let number = dictation.lines();
            if joined.holds_back(&command, text, number)? {
                return Ok(Going::On);
            }
            obey(joined, command, text, number, sink)
        }
    }
}

/// Does what the line asks for that waited for the server.
fn hear_held<
    R: Net<Listener = TcpListener, Stream = TcpStream>
        + Wait
        + Clock
        + Files
        + Eprint
        + Copy
        + Drop,
    O: Sink,
>(joined: &mut Joined<'_, R>, held: &Held, sink: &mut O) -> Result<Going, JoinFault> {
    match command_in(joined.client.alloc(), &held.line)? {
        Some(command) => obey(joined, command, &held.line, held.number, sink),
        None => Ok(Going::On),
    }
}

/// Does what a command asks for, whose line ends at this number, and says what would be right where it is refused.
/// Where the server is lost by it, it may have to wait for the next.
fn obey<
    R: Net<Listener = TcpListener, Stream = TcpStream>
        + Wait
        + Clock
        + Files
        + Eprint
        + Copy
        + Drop,
    O: Sink,
>(
    joined: &mut Joined<'_, R>,
    command: ClientCommand,
    line: &[u8],
    number: u64,
    sink: &mut O,
) -> Result<Going, JoinFault> {
    let about = About::of(joined.client.alloc(), &command);
    let broken = Broken::by(&command);
    let going = match joined.obey(command, sink) {
        Ok(going) => going,
        Err(fault) => {
            joined.hold_broken(broken, line, number)?;
            return Err(fault);
        }
    };
    joined.tell_cure(number, &about);
    if going == Going::InDoubt {
        tell_doubt(joined.rt);
    }
    Ok(going)
}
