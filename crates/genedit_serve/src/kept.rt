//! The server of a board that is kept in a file.

ghost use Rattle.std.specs.Prelude.{◌≡◌, ◌⊎◌, ◌≤◌, ◌<◌, ◌-◌, length, IfErr, IfOk};
ghost use Rattle.std.specs.Arc.{arc_value};
ghost use Rattle.board_keeper.specs.Opening.{HasHead};
ghost use Rattle.crossbeam_queue.specs.Passes.{ruled_capacity};
ghost use Rattle.generations_rule.specs.Rule.{IsRule};
ghost use Rattle.kept_log.specs.Found.{IsReadTo, listed};
ghost use Rattle.kept_log.specs.declared.log.LogState.TheVariants as log_state;
ghost use Rattle.kept_server.specs.Serving.{IsServedBeside};
ghost use Rattle.genedit_serve.specs.Closing.{closing_text};
ghost use Rattle.genedit_serve.specs.Faults.{run_fault_of_kept};
ghost use Rattle.genedit_serve.specs.Keeping.{AreInOrder, AreKeptSeats, IsKeptFile, IsUnopened, IsUntold, ServesKept, ServesKeptAt, TellsKept};
ghost use Rattle.genedit_serve.specs.Serving.{Fails, Pushes};

use crate::address::Address;
use crate::bound::Bound;
use crate::closing::{closing, kept_line};
use crate::document::KeptFile;
use crate::doorway::Doorway;
use crate::fault::{kept_fault, server_fault, start_fault};
use crate::refusal::load_refusal;
use crate::seated::{Reception, seated};
use crate::server::INBOX;
use board_keeper::{
    KeepFault, Keeper, KeptBodies, KeptSeats, LoadedBoard, OpenFault, OpenLog, load_board, opened,
};
use devices::Sink;
use document_files::{FileRefusal, save_lost, write_refusal};
use genedit_io::{RunFault, push_output};
use generations_rule::Rule;
use kept_file::FileKeep;
use kept_log::{Found, Log};
use kept_server::{KeptAttendance, KeptFault, serve_kept};
use keyed_hash::HashKey;
use relay_board::{BoardSize, Naming, Opened, start_within};
use seat_server::Finished;
use square_store::Limits;
use std::alloc::Global;
use std::fs::File;
use std::marker::Brand;
use std::net::{Net, TcpListener, TcpStream};
use std::rt::Files;
use std::sync::Wait;
use std::thread::Threads;
use std::time::Clock;

/// A board that is served and kept in a file.
#[derive(Drop)]
pub struct KeptBoard<'a, F: Files<File = File>> {
    /// How many seats it has for sessions, 1 to 64.
    pub sessions: u16,
    /// The number of the first, 1 to 65,472; the others follow.
    pub first: u16,
    /// By its hashes the planes find their squares.
    pub key: HashKey,
    pub file: KeptFile<'a, F>,
}

/// What is served, and where: the board's file, and the address.
#[derive(Drop)]
struct Place<'a, F: Files<File = File>> {
    file: KeptFile<'a, F>,
    bound: Bound,
}

/// Serves the board of a file, as `serve_on` does, but that seats come back: where each has had a connection, the next
/// one gets the seat that was left longest ago, once there is one within a second, and so it ends only where it is asked
/// to, or where nobody sits at a seat for as long as the address says. Before what tells where it listens stands the line
/// of the file, `kept N lost B`: so many edits were opened again, and so many bytes behind the last whole record were cut off,
/// which stand in the file beside it whose name ends with `.lost`. Each edit that a client is told as published
/// is on the disk before; `closed L` counts those that were opened again, too.
///
/// Where what the file has is no board, it is refused, and nothing in it is changed. Where the file fails, no
/// further edit is taken: where the disk is full, what was published is read until all have left, and else the
/// connections are ended.
pub fn serve_kept_on<
    'a,
    R: Net<Listener = TcpListener, Stream = TcpStream>
        + Files<File = File>
        + Eprint
        + Clock
        + Threads
        + Wait
        + Copy
        + Drop
        + Send
        + Sync
        + 'static,
    K: Sink,
>(
    rt: &'a R,
    alloc: Global,
    address: Address,
    board: KeptBoard<'a, R>,
    sink: &mut K,
) -> Result<(), FileRefusal>
    requires sessions { (1 ≤ board.sessions) × (board.sessions ≤ 64) }
    requires first { (1 ≤ board.first) × (board.first ≤ 65472) }
    requires file { IsKeptFile board.file.rule board.file.found.parts.head board.file.found.parts.bodies.items board.file.found.bytes.items board.file.found.parts.whole }
    ensures { ServesKept board.entry.file.rule board.entry.first board.entry.sessions address (K.known sink.old) (K.known sink.new) result }
{
    let KeptBoard {
        sessions,
        first,
        key,
        file,
    } = board;
    let bound = match Bound::of(alloc, address) {
        Ok(bound) => bound,
        Err(fault) => return Err(FileRefusal::from(fault)),
    };
    let size = BoardSize {
        sessions,
        first,
        is_kept: true,
        inbox: INBOX,
        limits: Limits::of_key(key),
    };
    match start_within(*rt, alloc, file.rule, size) {
        Ok(opened) => {
            let place = Place { file, bound };
            serve::<Brand, R, K>(rt, alloc, opened, place, sink)
        }
        Err(fault) => Err(FileRefusal::from(start_fault(fault))),
    }
}

/// Serves the seats of a board that was opened, once what the file has stands on it.
fn serve<
    'a,
    J: Naming + Send + 'static,
    R: Net<Listener = TcpListener, Stream = TcpStream>
        + Files<File = File>
        + Eprint
        + Clock
        + Threads
        + Wait
        + Copy
        + Drop
        + Send
        + Sync
        + 'static,
    K: Sink,
>(
    rt: &'a R,
    alloc: Global,
    opened: Opened<R>,
    place: Place<'a, R>,
    sink: &mut K,
) -> Result<(), FileRefusal>
    requires origin { opened.publisher.origin ≡ J.origin }
    requires inbox { (arc_value opened.drain.queue).table.shared.table_id ≡ J.inbox }
    requires room { ruled_capacity (arc_value opened.drain.queue) ≡ 64 }
    requires some { 0 < opened.count }
    requires rule { place.file.rule ≡ opened.rule }
    requires file { IsKeptFile place.file.rule place.file.found.parts.head place.file.found.parts.bodies.items place.file.found.bytes.items place.file.found.parts.whole }
    ensures { ServesKeptAt opened.rule opened.first (opened.count - 1) place.entry.bound.told.items (K.known sink.old) (K.known sink.new) result }
{
    let Place { file, bound } = place;
    let first = opened.first;
    let prepared = match made_ready::<J, R>(rt, alloc, opened, file) {
        Ok(prepared) => prepared,
        Err(refusal) => return Err(refusal),
    };
    let Prepared {
        keeper,
        seats,
        edits,
        lost,
    } = prepared;
    let Bound { address, told } = bound;
    let KeptSeats { seats, file } = seats;
    let reception = Reception {
        address,
        comes_back: true,
    };
    let (attendance, doorway) = match seated(*rt, alloc, keeper.relay(), seats, reception) {
        Ok(seated) => seated,
        Err(fault) => return Err(FileRefusal::from(server_fault(fault))),
    };
    match tell(alloc, (edits, lost), told, sink) {
        Ok(()) => {}
        Err(fault) => {
            attendance.dismiss(rt, &doorway.rousing(rt));
            return Err(FileRefusal::from(fault));
        }
    }
    let attendance = KeptAttendance { attendance, file };
    match seats_served(rt, alloc, keeper, attendance, doorway) {
        Err(refusal) => Err(refusal),
        Ok(finished) => match closed(alloc, first, &finished, sink) {
            Ok(()) => Ok(()),
            Err(fault) => Err(FileRefusal::from(fault)),
        },
    }
}

/// What is served: a keeper whose board has what its file had, the seats, how many edits the file had, and how
/// many bytes were cut off behind its last record.
#[derive(Drop)]
struct Prepared<'a, J: Naming, R: Files<File = File> + Wait + Drop> {
    keeper: Keeper<J, R, FileKeep<'a, R>>,
    seats: KeptSeats<J>,
    edits: usize,
    lost: usize,
}

/// Puts what a file has on a board that was opened, and opens the file.
fn made_ready<'a, J: Naming, R: Files<File = File> + Eprint + Wait + Drop>(
    rt: &'a R,
    alloc: Global,
    opened: Opened<R>,
    file: KeptFile<'a, R>,
) -> Result<Prepared<'a, J, R>, FileRefusal>
    requires origin { opened.publisher.origin ≡ J.origin }
    requires inbox { (arc_value opened.drain.queue).table.shared.table_id ≡ J.inbox }
    requires room { ruled_capacity (arc_value opened.drain.queue) ≡ 64 }
    requires some { 0 < opened.count }
    requires rule { file.rule ≡ opened.rule }
    requires file { IsKeptFile file.rule file.found.parts.head file.found.parts.bodies.items file.found.bytes.items file.found.parts.whole }
    ensures seats { IfOk result (λ p. AreKeptSeats opened.rule opened.first (opened.count - 1) p.seats.seats.items p.seats.file) }
    ensures order { IfOk result (λ p. AreInOrder p.keeper.relay.made p.seats.seats.items p.seats.file) }
    ensures states { IfOk result (λ p. p.keeper.relay.origin.states ≡ opened.rule.states) }
    ensures edits { IfOk result (λ p. p.edits ≡ length p.seats.file.mine) }
    ensures refused { IfErr result (λ refusal. IsUnopened refusal.fault) }
{
    let KeptFile { found, rule } = file;
    let (relay, seats) = match opened.named::<J>() {
        Ok(named) => named,
        Err(fault) => return Err(FileRefusal::from(start_fault(fault))),
    };
    let document = KeptBodies {
        rule: &rule,
        bodies: &found.parts.bodies,
    };
    let edits = found.parts.bodies.len();
    let loaded = match load_board(rt, alloc, relay, seats, document) {
        Ok(loaded) => loaded,
        Err(fault) => return Err(load_refusal(fault)),
    };
    match opened_log(rt, alloc, &rule, found) {
        Err(refusal) => Err(refusal),
        Ok((log, lost)) => {
            let LoadedBoard { relay, seats } = loaded;
            let keeper = Keeper::new(alloc, relay, log, rule);
            Ok(Prepared {
                keeper,
                seats,
                edits,
                lost,
            })
        }
    }
}

/// Pushes the closing lines.
fn closed<K: Sink>(
    alloc: Global,
    first: u16,
    finished: &Finished,
    sink: &mut K,
) -> Result<(), RunFault>
    ensures closed { IfOk result (λ _. Pushes (K.known sink.old) (K.known sink.new) (closing_text first finished.now)) }
    ensures unclosed { IfErr result (λ fault. ((fault ≡ RunFault.Memory) × (K.known sink.new ≡ K.known sink.old)) ⊎ ((fault ≡ RunFault.Write) × Fails (K.known sink.old) (K.known sink.new))) }
{
    let text = closing(alloc, first, finished)?;
    push_output(sink, &text)
}

/// Tells what was opened, and where the server listens.
fn tell<K: Sink>(
    alloc: Global,
    opened: (usize, usize),
    lines: Vec<u8>,
    sink: &mut K,
) -> Result<(), RunFault>
    ensures told { IfOk result (λ _. TellsKept opened.0 opened.1 lines.items (K.known sink.old) (K.known sink.new)) }
    ensures untold { IfErr result (IsUntold opened.0 opened.1 (K.known sink.old) (K.known sink.new)) }
{
    let line = kept_line(alloc, opened.0, opened.1)?;
    push_output(sink, &line)?;
    push_output(sink, &lines)
}

/// Opens the file of a board: what stands behind its last record is saved beside it, and cut off.
fn opened_log<'a, R: Files<File = File> + Eprint>(
    rt: &'a R,
    alloc: Global,
    rule: &Rule,
    found: Found<FileKeep<'a, R>>,
) -> Result<OpenLog<FileKeep<'a, R>>, FileRefusal>
    requires rule { IsRule rule.now }
    requires head { HasHead rule.now found.parts.head found.parts.bodies.items }
    requires read { IsReadTo found.bytes.items (listed found.parts.head found.parts.bodies.items) found.parts.whole }
    ensures open { IfOk result (λ o. o.0.state ≡ log_state.Open) }
    ensures refused { IfErr result (λ refusal. IsUnopened refusal.fault) }
{
    save_lost(rt, alloc, &found)?;
    match opened(alloc, rule, found) {
        Ok(open) => Ok(open),
        Err((OpenFault::Memory, _)) => Err(FileRefusal::memory()),
        Err((OpenFault::Write, keep)) => Err(write_refusal(&keep)),
    }
}

/// Why there is no account.
fn end_refusal<F: Files<File = File>>(fault: KeptFault, log: &Log<FileKeep<'_, F>>) -> FileRefusal
    ensures { result.fault ≡ run_fault_of_kept fault }
{
    match fault {
        KeptFault::Keep(KeepFault::Write) => write_refusal(&log.keep),
        fault => FileRefusal::from(kept_fault(fault)),
    }
}

/// Serves the seats of a keeper to those who come, and turns away whoever finds none; at
/// the end how the sessions ended, and the account.
fn seats_served<
    'a,
    J: Naming + Send + 'static,
    R: Net<Listener = TcpListener, Stream = TcpStream>
        + Files<File = File>
        + Eprint
        + Clock
        + Threads
        + Wait
        + Copy
        + Drop
        + Send
        + Sync
        + 'static,
>(
    rt: &'a R,
    alloc: Global,
    keeper: Keeper<J, R, FileKeep<'a, R>>,
    seats: KeptAttendance<J>,
    doorway: Doorway,
) -> Result<Finished, FileRefusal>
    requires order { AreInOrder keeper.relay.made seats.attendance seats.file }
    ensures served { IfOk result (λ f. IsServedBeside keeper.entry.relay.origin seats.attendance seats.file f) }
    ensures refused { IfErr result (λ refusal. IsUnopened refusal.fault) }
{
    let mut doorway = doorway;
    let opened = doorway.open(*rt, alloc);
    let rousing = doorway.rousing(rt);
    let doors = match opened {
        Ok(doors) => doors,
        Err(fault) => {
            let KeptAttendance {
                attendance,
                file: _,
            } = seats;
            attendance.dismiss(rt, &rousing);
            return Err(FileRefusal::from(server_fault(fault)));
        }
    };
    let served = serve_kept(rt, alloc, keeper, seats, &rousing);
    doorway.close(rt, doors);
    match served {
        Ok((finished, _log)) => Ok(finished),
        Err((fault, log)) => Err(end_refusal(fault, &log)),
    }
}
