//! What a file has is put on a board, before any session.

ghost use Rattle.std.specs.Prelude.{◌≡◌, ◌<◌, ◌++◌, ◌∷◌, [], ℕ, List, length, map, Ok, IfOk, IfErr};
ghost use Rattle.std.specs.List.{All};
ghost use Rattle.board.specs.declared.entry.Entry.{Entry};
ghost use Rattle.document_bodies.specs.Bodies.{edit_body};
ghost use Rattle.document_bodies.specs.Reading.{edit_of};
ghost use Rattle.relay_board.specs.Same.{Same};
ghost use Rattle.generations_rule.specs.Rule.{GenerationsRule};
ghost use Rattle.relay_board.specs.Seating.{AllFresh, IsSame};
ghost use Rattle.board_keeper.specs.Loading.{AreRaised, IsBodyFault, IsLoaded, IsLoadFault, IsNotTaken, TellsFault, raised};

use delta_exchange::ReadFault;
use document_bodies::{BodyFault, Newest, edit_in};
use edit_stamps::{Edit, Stamp};
use generations_rule::Rule;
use relay_board::{FileSeat, Naming, Relay, Seat, SubmitFault, Turn, TurnFault};
use std::alloc::Global;
use std::sync::Wait;

/// What a file has: the rule that its head names, and the bodies behind the head.
#[derive(Clone, Copy)]
pub struct KeptBodies<'a> {
    pub rule: &'a Rule,
    pub bodies: &'a [Vec<u8>],
}

/// Why a file is not put on a board.
#[derive(Clone, Copy, Debug, PartialEq, Eq)]
pub enum LoadFault {
    /// The body at this place behind the head tells no edit.
    Body(usize, BodyFault),
    /// The edit at this place has this stamp, which is not above the last of its replica.
    OldStamp(usize, Stamp),
    /// The board did not take an edit.
    Submit(SubmitFault),
    /// The relay did not publish it.
    Turn(TurnFault),
    /// Somebody else put something meanwhile.
    NotAlone,
    /// The system refused memory.
    Memory,
}

/// Why a body at a place is not loaded. Want of memory is no fault of the body.
fn load_fault(at: usize, fault: BodyFault) -> LoadFault
    ensures { TellsFault at fault result }
{
    match fault {
        BodyFault::NoDocument => LoadFault::Body(at, fault),
        BodyFault::Read(read) => match read {
            ReadFault::Memory => LoadFault::Memory,
            _ => LoadFault::Body(at, fault),
        },
    }
}

/// The edit of the body at a place.
fn edit_at(alloc: Global, rule: &Rule, at: usize, body: &[u8]) -> Result<Edit, LoadFault>
    ensures edit { IfOk result (λ e. (edit_of rule.now body.now ≡ Ok e) × (body.now ≡ edit_body rule.now e)) }
    ensures fault { IfErr result (IsBodyFault rule.now body.now at) }
{
    match edit_in(alloc, rule, body) {
        Ok(edit) => Ok(edit),
        Err(fault) => Err(load_fault(at, fault)),
    }
}

/// The turn by which the next entry is published. A turn that finds none is taken again.
fn published<J: Naming, R: Wait + Drop, H: Wait>(
    rt: &H,
    relay: &mut Relay<J, R>,
) -> Result<(), TurnFault>
    requires kept { relay.old.kept ≡ [] }
    ensures same { Same relay.old relay.new }
    ensures published { IfOk result (λ _. (e : Entry) × (relay.new.list ≡ relay.old.list ++ e ∷ []) × (relay.new.kept ≡ [])) }
{
    for _ in rt.forever() {
        match relay.turn() {
            Turn::Idle => {}
            Turn::Published(_) => return Ok(()),
            Turn::Failed(fault) => return Err(fault),
        }
    }
    unreachable!()
}

/// Brings an edit, and has it published behind so many others. Its receipt tells that it is this one that stands
/// there: its place is the next one, in a list that the published one begins with.
fn brought<J: Naming, R: Wait + Drop, H: Wait>(
    rt: &H,
    relay: &mut Relay<J, R>,
    file: &mut FileSeat<J>,
    edit: Edit,
    count: u64,
) -> Result<(), LoadFault>
    requires kept { relay.old.kept ≡ [] }
    requires mine { file.old.mine ≡ relay.old.list }
    requires count { length relay.old.list ≡ count }
    ensures same { Same relay.old relay.new × IsSame file.old file.new × (file.new.handed ≡ file.old.handed) }
    ensures put { IfOk result (λ _. (p : Entry) × (p.edit ≡ edit) × (file.new.mine ≡ file.old.mine ++ p ∷ [])) }
    ensures published { IfOk result (λ _. file.new.mine ≡ relay.new.list) }
    ensures left { IfOk result (λ _. relay.new.kept ≡ []) }
    ensures fault { IfErr result IsNotTaken }
{
    let pending = match file.bring(rt, edit) {
        Ok(pending) => pending,
        Err((_, fault)) => return Err(LoadFault::Submit(fault)),
    };
    match published(rt, relay) {
        Ok(()) => {}
        Err(fault) => return Err(LoadFault::Turn(fault)),
    }
    let Ok(receipt) = file.try_receive(rt, pending) else {
        return Err(LoadFault::NotAlone);
    };
    file.learn(&receipt);
    if receipt.place() == count && relay.begins(file.seat()) {
        Ok(())
    } else {
        Err(LoadFault::NotAlone)
    }
}

/// Puts what a file has on a board that has nothing: each body is read, its stamp is seen, and its edit is
/// brought by the file's seat and published. What is answered is the newest counter of each replica.
pub fn load<J: Naming, R: Wait + Drop, H: Wait>(
    rt: &H,
    alloc: Global,
    relay: &mut Relay<J, R>,
    file: &mut FileSeat<J>,
    document: KeptBodies<'_>,
) -> Result<Newest, LoadFault>
    requires list { relay.old.list ≡ [] }
    requires kept { relay.old.kept ≡ [] }
    requires mine { file.old.mine ≡ [] }
    ensures same { Same relay.old relay.new × IsSame file.old file.new × (file.new.handed ≡ file.old.handed) }
    ensures loaded { IfOk result (λ newest. IsLoaded document.entry.rule.now (map (λ v. v.items) document.entry.bodies.now) relay.new file.new newest) }
    ensures fault { IfErr result (IsLoadFault document.entry.rule.now (map (λ v. v.items) document.entry.bodies.now)) }
{
    let Ok(mut newest) = Newest::new(alloc) else {
        return Err(LoadFault::Memory);
    };
    for at in 0..document.bodies.len() {
        let edit = match edit_at(alloc, document.rule, at, &document.bodies[at]) {
            Ok(edit) => edit,
            Err(fault) => return Err(fault),
        };
        let stamp = edit.stamp();
        if !newest.see(stamp) {
            return Err(LoadFault::OldStamp(at, stamp));
        }
        brought(rt, relay, file, edit, at as u64)?;
    }
    Ok(newest)
}

/// From now on the counters of each seat's edits rise from the newest one of its replica on.
pub fn raise_all<J: Naming>(seats: &mut [Seat<J>], newest: &Newest)
    requires { All (λ s. s.mine ≡ []) seats.old }
    ensures { seats.new ≡ map (raised newest.now) seats.old }
{
    for seat in seats.iter_mut() {
        seat.keep_above(newest.of(seat.number()));
    }
}

/// The seats of a kept board: those of sessions, in the order of their numbers, and behind them the file's.
#[derive(Drop)]
pub struct KeptSeats<J: Naming> {
    pub seats: Vec<Seat<J>>,
    pub file: FileSeat<J>,
}

/// A board that has what its file had: the relay, which has published it, and the seats.
#[derive(Drop)]
pub struct LoadedBoard<J: Naming, R: Wait + Drop> {
    pub relay: Relay<J, R>,
    pub seats: KeptSeats<J>,
}

/// Puts what a file has on a board with which nothing was done, whose last seat is the file's. From then on the
/// counters of each other seat rise from the newest one of its number on. Where what the file has is no board's,
/// relay and seats are let go.
pub fn load_board<J: Naming, R: Wait + Drop, H: Wait>(
    rt: &H,
    alloc: Global,
    relay: Relay<J, R>,
    seats: Vec<Seat<J>>,
    document: KeptBodies<'_>,
) -> Result<LoadedBoard<J, R>, LoadFault>
    requires empty { (relay.list ≡ []) × (relay.kept ≡ []) }
    requires some { 0 < length seats.items }
    requires fresh { (first : ℕ) × (rule : GenerationsRule) × (room : ℕ) × AllFresh first rule room 0 seats.items }
    ensures loaded { IfOk result (λ l. (newest : List ℕ) × IsLoaded document.entry.rule.now (map (λ v. v.items) document.entry.bodies.now) l.relay l.seats.file newest × AreRaised newest seats.items l.seats.seats.items l.seats.file) }
    ensures same { IfOk result (λ l. Same relay l.relay) }
    ensures fault { IfErr result (IsLoadFault document.entry.rule.now (map (λ v. v.items) document.entry.bodies.now)) }
{
    let mut relay = relay;
    let mut seats = seats;
    let Some(last) = seats.pop() else {
        unreachable!()
    };
    let mut file = FileSeat::of(last);
    match load(rt, alloc, &mut relay, &mut file, document) {
        Ok(newest) => {
            raise_all(&mut seats, &newest);
            Ok(LoadedBoard {
                relay,
                seats: KeptSeats { seats, file },
            })
        }
        Err(fault) => Err(fault),
    }
}
