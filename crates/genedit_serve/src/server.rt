//! The server.

ghost use Rattle.std.specs.Prelude.{◌≡◌, ◌⊎◌, ◌≤◌, IfErr, IfOk, length};
ghost use mathlib.Core.List.{IsPrefix};
ghost use Rattle.std.specs.Arc.{arc_value};
ghost use Rattle.crossbeam_queue.specs.Passes.{ruled_capacity};
ghost use Rattle.board.specs.Origins.{list_of};
ghost use Rattle.relay_board.specs.Seating.{Numbered};
ghost use Rattle.seat_server.specs.Faults.{IsReason};
ghost use Rattle.seat_server.specs.Serving.{GoesOnFrom, IsServed};
ghost use Rattle.square_store.specs.Limits.{usual_room};
ghost use Rattle.genedit_serve.specs.Serving.{Fails, Pushes, Serves, ServesAt};

use crate::address::{Address, loopback};
use crate::bound::Bound;
use crate::closing::closing;
use crate::doorway::Doorway;
use crate::fault::{server_fault, start_fault};
use crate::seated::{Reception, seated};
use devices::Sink;
use genedit_io::{Cause, RunFault, cause_of, push_output};
use generations_rule::Rule;
use keyed_hash::HashKey;
use relay_board::{BoardSize, Naming, Opened, Relay, start_within};
use seat_server::{Attendance, Finished, ServerFault, serve_seats};
use square_store::Limits;
use std::alloc::Global;
use std::marker::Brand;
use std::net::{Net, TcpListener, TcpStream};
use std::sync::Wait;
use std::thread::Threads;
use std::time::Clock;

/// How many submissions the inbox of a served board has room for. A session has one at a time.
pub const INBOX: u16 = 64;

/// The board that is served.
#[derive(Clone, Copy)]
pub struct ServedBoard {
    pub rule: Rule,
    /// How many seats it has, 1 to 64.
    pub sessions: u16,
    /// The number of the first, 1 to 65,472; the others follow.
    pub first: u16,
    /// By its hashes the planes find their squares. What a sender who does not know it can make them cost is
    /// what ordinary edits of that length cost.
    pub key: HashKey,
}

/// Listens at a port of this machine's loopback, where nobody comes in from outside; at any free one for 0; or
/// why that cannot be had.
pub fn listen<R: Net<Listener = TcpListener, Stream = TcpStream>>(
    rt: &R,
    port: u16,
) -> Result<TcpListener, Cause> {
    match TcpListener::bind(rt, loopback(port)) {
        Ok(listener) => Ok(listener),
        Err(error) => Err(cause_of(error.kind())),
    }
}

/// Listens for browsers at a port of an address of this machine, or of a name for one; at any free one for 0; or why that
/// cannot be had.
pub fn listen_web<R: Net<Listener = TcpListener, Stream = TcpStream>>(
    rt: &R,
    address: &str,
    port: u16,
) -> Result<TcpListener, Cause> {
    match TcpListener::bind(rt, (address, port)) {
        Ok(listener) => Ok(listener),
        Err(error) => Err(cause_of(error.kind())),
    }
}

/// Serves a board to the first connections, as many as it has seats, each on a thread of its own: seat 1 to
/// the first that is accepted, and so on. Whoever comes after the last one is answered that there is no seat,
/// as long as a session lasts. The line `listening PORT` is pushed once there is a board and a thread for each
/// seat, in one push with `open URL/#TOKEN` before it where browsers come; once all sessions have ended, a line for each,
/// `session I edits K`, with the number of its fault behind it where it ended by one, and the line `closed L`, L being
/// the length of the published list.
///
/// Where browsers come, a page's socket is a session as a connection is, and seats come back as those of a kept board do.
///
/// Where it is asked to end, or nobody has sat at a seat for as long as the address says, nobody more is seated, and each
/// session ends behind what it is being answered.
///
/// `Read` where nobody can come in, a connection was not accepted or a thread was not started; `StoreFull` or `Memory`
/// where 1,000 turns of the relay in a row failed so; both once the sessions that had begun have ended. What
/// `start` and `finish` refuse is told as they do.
pub fn serve_on<
    R: Net<Listener = TcpListener, Stream = TcpStream>
        + Clock
        + Threads
        + Wait
        + Copy
        + Drop
        + Send
        + Sync
        + 'static,
    K: Sink,
>(rt: R, alloc: Global, address: Address, board: ServedBoard, sink: &mut K) -> Result<(), RunFault>
    requires sessions { (1 ≤ board.sessions) × (board.sessions ≤ 64) }
    requires first { (1 ≤ board.first) × (board.first ≤ 65472) }
    ensures { Serves board.rule board.first board.sessions address (K.known sink.old) (K.known sink.new) result }
{
    let bound = match Bound::of(alloc, address) {
        Ok(bound) => bound,
        Err(fault) => return Err(fault),
    };
    let size = BoardSize {
        sessions: board.sessions,
        first: board.first,
        is_kept: false,
        inbox: INBOX,
        limits: Limits::of_key(board.key),
    };
    match start_within(rt, alloc, board.rule, size) {
        Ok(opened) => serve::<Brand, R, K>(rt, alloc, opened, bound, sink),
        Err(fault) => Err(start_fault(fault)),
    }
}

/// Serves the seats of a board that was opened.
fn serve<
    J: Naming + Send + 'static,
    R: Net<Listener = TcpListener, Stream = TcpStream>
        + Clock
        + Threads
        + Wait
        + Copy
        + Drop
        + Send
        + Sync
        + 'static,
    K: Sink,
>(rt: R, alloc: Global, opened: Opened<R>, bound: Bound, sink: &mut K) -> Result<(), RunFault>
    requires origin { opened.publisher.origin ≡ J.origin }
    requires inbox { (arc_value opened.drain.queue).table.shared.table_id ≡ J.inbox }
    requires room { ruled_capacity (arc_value opened.drain.queue) ≡ 64 }
    requires squares { opened.tried.store.room ≡ usual_room }
    ensures { ServesAt opened.rule opened.first opened.count bound.told.items (K.known sink.old) (K.known sink.new) result }
{
    let first = opened.first;
    let (relay, seats) = match opened.named::<J>() {
        Ok(named) => named,
        Err(fault) => return Err(start_fault(fault)),
    };
    let Bound { address, told } = bound;
    let comes_back = address.web.is_some();
    let reception = Reception {
        address,
        comes_back,
    };
    let (attendance, doorway) = match seated(rt, alloc, &relay, seats, reception) {
        Ok(seated) => seated,
        Err(fault) => return Err(server_fault(fault)),
    };
    match tell(told, sink) {
        Ok(()) => {}
        Err(fault) => {
            attendance.dismiss(&rt, &doorway.rousing(&rt));
            return Err(fault);
        }
    }
    match seats_served(rt, alloc, relay, attendance, doorway) {
        Err(fault) => Err(server_fault(fault)),
        Ok(finished) => {
            let text = closing(alloc, first, &finished)?;
            push_output(sink, &text)
        }
    }
}

/// Tells where the server listens.
fn tell<K: Sink>(lines: Vec<u8>, sink: &mut K) -> Result<(), RunFault>
    ensures told { IfOk result (λ _. Pushes (K.known sink.old) (K.known sink.new) lines.items) }
    ensures untold { IfErr result (λ fault. (fault ≡ RunFault.Write) × Fails (K.known sink.old) (K.known sink.new)) }
{
    push_output(sink, &lines)
}

/// Serves the seats of a relay to those who come, and turns away whoever finds none; at the end how the sessions ended,
/// and the account. `Read` also where the thread at a door could not be started.
fn seats_served<
    J: Naming + Send + 'static,
    R: Net<Listener = TcpListener, Stream = TcpStream>
        + Clock
        + Threads
        + Wait
        + Copy
        + Drop
        + Send
        + Sync
        + 'static,
>(
    rt: R,
    alloc: Global,
    relay: Relay<J, R>,
    attendance: Attendance<J>,
    doorway: Doorway,
) -> Result<Finished, ServerFault>
    requires all { relay.made ≡ length attendance }
    requires order { Numbered 0 attendance }
    ensures served { IfOk result (λ f. IsServed relay.origin attendance f) }
    ensures stays { IfOk result (λ f. IsPrefix relay.list (list_of f.account.front)) }
    ensures goes_on { IfOk result (λ f. GoesOnFrom 1000 relay (list_of f.account.front)) }
    ensures reason { IfErr result (IsReason 1000 relay attendance) }
{
    let mut doorway = doorway;
    let opened = doorway.open(rt, alloc);
    let rousing = doorway.rousing(&rt);
    let doors = match opened {
        Ok(doors) => doors,
        Err(fault) => {
            attendance.dismiss(&rt, &rousing);
            return Err(fault);
        }
    };
    let finished = serve_seats(&rt, alloc, relay, attendance, &rousing);
    doorway.close(&rt, doors);
    finished
}
