//! Replicas, and the messages between them.

ghost use Rattle.std.specs.Prelude.{◌≡◌, ◌≤◌, [], IfSome};
ghost use Rattle.edit_stamps.specs.Edit.{HaveStatesBelow};

use crate::memory::{edits, is_fault, is_text, tell_all};
use delta_exchange::ReadFault;
use edit_stamps::{Edit, EditFault, Rect, Stamp, Write};
use generations_rule::Rule;
use pattern_cells::Cell;
use replica_core::{CellList, EditSpec, Fault, Message, Replica};
use std::alloc::{AllocError, Global};
use std::io;

/// What two live cells are five generations later.
const LATER: &str = "#CXRLE Pos=-2,-5 Gen=5\nx = 6, y = 11, rule = 345/2/4\n\
    2.2A$2.2B$.A2CA$.B2.B$AC2.CA$B.2B.B$AC2.CA$.B2.B$.A2CA$2.2B$2.2A!\n";

pub fn tell_calls(rt: &impl Print, alloc: Global) -> io::Result<()> {
    tell_all(
        rt,
        "replicas",
        &[
            ("Replica::draw", edit_is_drawn(alloc)),
            ("Replica::draw refused", state_is_refused(alloc)),
            ("Replica::edit_of", edit_is_made(alloc)),
            ("Replica::snapshot, take", map_is_taken(alloc)),
            ("Replica::take of edits", edits_are_taken(alloc)),
            ("Replica::take_edits", list_is_taken(alloc)),
            ("Replica::state, take_bytes", state_is_taken(alloc)),
            ("Replica::delta, take_bytes", delta_is_taken(alloc)),
            ("Replica::take_bytes again", texts_are_taken_again(alloc)),
            ("Replica::take_bytes refused", fault_is_told(alloc)),
            ("Replica::export", cells_are_exported(alloc)),
        ],
    )
}

/// A new replica of a rule.
pub fn begun(alloc: Global, rule: Rule, number: u16) -> Option<Replica>
    requires { 1 ≤ number }
    ensures { IfSome result (λ replica. replica.rule ≡ rule) }
{
    match Replica::new(alloc, rule, number) {
        Ok(replica) => Some(replica),
        Err(Fault::Memory) => Replica::new(alloc, rule, number).ok(),
        Err(_) => None,
    }
}

/// Cells to be drawn.
pub fn spec(alloc: Global, cells: &[Cell]) -> Option<EditSpec> {
    let list = again!(AllocError, Vec::from_slice(alloc, cells)).ok()?;
    Some(EditSpec::Cells(CellList::of_vec(list)))
}

/// What a replica holds, as far as it is looked at: a call that wants memory has to leave it so.
#[derive(Clone, Copy, PartialEq, Eq)]
pub struct Holding {
    /// The writes at the origin and beside it.
    pub writes: [Write; 2],
    /// How many edits its journal has, and the stamp of the last; 0 where there is none.
    pub edits: usize,
    pub last: u64,
    /// The greatest stamp.
    pub greatest: u64,
}

pub fn held(replica: &Replica) -> Holding {
    let journal = replica.journal();
    Holding {
        writes: [replica.get(0, 0), replica.get(1, 0)],
        edits: journal.len(),
        last: journal.last().map_or(0, |edit| edit.stamp().number()),
        greatest: replica.plane().greatest_stamp(),
    }
}

/// Whether a replica shows two states side by side, and has so many edits.
fn shows(replica: &Replica, states: [u8; 2], edits: usize) -> bool {
    let held = held(replica);
    [held.writes[0].state, held.writes[1].state] == states && held.edits == edits
}

/// Draws. Where memory is refused, the replica holds what it held.
pub fn draw(replica: &mut Replica, spec: &EditSpec) -> Result<Edit, Fault> {
    let before = held(replica);
    again!(Fault::Memory if held(replica) == before, replica.draw_as(spec))
}

/// Takes a message, in the same way.
pub fn take(taker: &mut Replica, message: &Message) -> Result<(), Fault> {
    let before = held(taker);
    again!(Fault::Memory if held(taker) == before, taker.take(message))
}

/// Takes a text, in the same way.
pub fn take_bytes(taker: &mut Replica, text: &[u8]) -> Result<(), Fault> {
    let before = held(taker);
    again!(Fault::Memory if held(taker) == before, taker.take_bytes(text))
}

/// Takes edits of the replica's rule, in the same way.
fn take_edits(taker: &mut Replica, edits: &[Edit]) -> Result<(), Fault>
    requires { HaveStatesBelow taker.old.rule.states edits.now }
{
    let before = held(taker);
    match taker.take_edits(edits) {
        Err(Fault::Memory) if held(taker) == before => taker.take_edits(edits),
        answer => answer,
    }
}

/// A replica that drew two states side by side.
fn drawn(alloc: Global, states: [u8; 2]) -> Option<Replica> {
    let mut replica = begun(alloc, edits::rule()?, 1)?;
    if draws(
        &mut replica,
        &spec(alloc, &cells![(0, 0, states[0]), (1, 0, states[1])])?,
    ) {
        Some(replica)
    } else {
        None
    }
}

/// Whether replica 1 draws.
fn draws(replica: &mut Replica, spec: &EditSpec) -> bool {
    match draw(replica, spec) {
        Ok(edit) => edit.stamp().replica() == 1,
        Err(_) => false,
    }
}

/// Another replica, that is to take what the first gives.
fn taker(alloc: Global) -> Option<Replica> {
    begun(alloc, edits::rule()?, 2)
}

fn edit_is_drawn(alloc: Global) -> bool {
    match drawn(alloc, [2, 3]) {
        Some(replica) => shows(&replica, [2, 3], 1),
        None => false,
    }
}

fn state_is_refused(alloc: Global) -> bool {
    let Some(mut replica) = taker(alloc) else {
        return false;
    };
    match spec(alloc, &[cell!(0, 0, 4)]) {
        Some(spec) => is_refused(&mut replica, &spec),
        None => false,
    }
}

fn is_refused(replica: &mut Replica, spec: &EditSpec) -> bool {
    is_fault(draw(replica, spec), Fault::Edit(EditFault::StateRange))
}

/// An edit is made, and the replica that made it holds what it held.
fn edit_is_made(alloc: Global) -> bool {
    let Some(replica) = drawn(alloc, [2, 3]) else {
        return false;
    };
    match spec(alloc, &cells![(0, 0, 1), (1, 0, 1)]) {
        Some(spec) => makes(&replica, &spec) && shows(&replica, [2, 3], 1),
        None => false,
    }
}

/// Whether a replica makes an edit of two cells, of counter 2.
fn makes(replica: &Replica, spec: &EditSpec) -> bool {
    match again!(Fault::Memory, replica.edit_of(0, spec)) {
        Ok(edit) => edit.stamp().number() == 131_073 && edit.listed_cells().len() == 2,
        Err(_) => false,
    }
}

/// Whether two replicas hold the same.
pub fn are_same(one: &Replica, other: &Replica) -> bool {
    again!(AllocError, one.holds_same(other)).unwrap_or(false)
}

/// Another replica, that took a message.
fn taker_of(alloc: Global, message: &Message) -> Option<Replica> {
    let mut taker = taker(alloc)?;
    if take(&mut taker, message).is_ok() {
        Some(taker)
    } else {
        None
    }
}

fn map_is_taken(alloc: Global) -> bool {
    let Some(replica) = drawn(alloc, [2, 3]) else {
        return false;
    };
    match again!(Fault::Memory, replica.snapshot()) {
        Ok(message) => gives(alloc, &replica, &message),
        Err(_) => false,
    }
}

/// Whether another replica that takes a message holds what a replica does, without an edit.
fn gives(alloc: Global, replica: &Replica, message: &Message) -> bool {
    match taker_of(alloc, message) {
        Some(taker) => shows(&taker, [2, 3], 0) && are_same(replica, &taker),
        None => false,
    }
}

/// A list of one edit of replica 3.
fn list(alloc: Global, rule: &Rule) -> Option<Vec<Edit>>
    ensures { IfSome result (λ edits. HaveStatesBelow rule.now.states edits.items) }
{
    let edit = edits::drawn(
        alloc,
        rule,
        Stamp::new(7, 3)?,
        &cells![(0, 0, 2), (1, 0, 3)],
    )?;
    let mut edits = room(alloc)?;
    edits.push(edit).ok()?;
    Some(edits)
}

/// A list with room for one.
fn room(alloc: Global) -> Option<Vec<Edit>>
    ensures { IfSome result (λ list. list.items ≡ []) }
{
    match Vec::with_capacity(alloc, 1) {
        Ok(list) => Some(list),
        Err(AllocError) => Vec::with_capacity(alloc, 1).ok(),
    }
}

fn edits_are_taken(alloc: Global) -> bool {
    let Some(rule) = edits::rule() else {
        return false;
    };
    let Some(edits) = list(alloc, &rule) else {
        return false;
    };
    match taker_of(alloc, &Message::of_edits(rule, edits)) {
        Some(taker) => shows(&taker, [2, 3], 1),
        None => false,
    }
}

fn list_is_taken(alloc: Global) -> bool {
    let Some(rule) = edits::rule() else {
        return false;
    };
    let Some(edits) = list(alloc, &rule) else {
        return false;
    };
    let Some(mut taker) = begun(alloc, rule, 2) else {
        return false;
    };
    take_edits(&mut taker, edits.as_slice()).is_ok() && shows(&taker, [2, 3], 1)
}

pub fn state(replica: &Replica) -> Option<Vec<u8>> {
    again!(AllocError, replica.state()).ok()
}

fn delta(replica: &Replica, from: u32) -> Result<Vec<u8>, Fault> {
    again!(Fault::Memory, replica.delta(from, 1))
}

/// Whether a replica that took a text shows what another drew, and has so many edits.
fn is_taken(alloc: Global, text: &[u8], edits: usize) -> bool {
    let Some(mut taker) = taker(alloc) else {
        return false;
    };
    take_bytes(&mut taker, text).is_ok() && shows(&taker, [2, 3], edits)
}

fn state_is_taken(alloc: Global) -> bool {
    let Some(giver) = drawn(alloc, [2, 3]) else {
        return false;
    };
    match state(&giver) {
        Some(text) => is_taken(alloc, &text, 0),
        None => false,
    }
}

fn delta_is_taken(alloc: Global) -> bool {
    let Some(giver) = drawn(alloc, [2, 3]) else {
        return false;
    };
    match delta(&giver, 0) {
        Ok(text) => is_taken(alloc, &text, 1),
        Err(_) => false,
    }
}

/// Whether a replica that takes a state, its own again, and twice a delta of the same edit always has that
/// state, and notes the edit once.
fn takes_again(taker: &mut Replica, text: &[u8], given: &[u8]) -> bool {
    take_bytes(taker, text).is_ok()
        && has_state(taker, text)
        && take_bytes(taker, text).is_ok()
        && has_state(taker, text)
        && take_bytes(taker, given).is_ok()
        && take_bytes(taker, given).is_ok()
        && held(taker).edits == 1
        && has_one_edit(taker)
        && has_state(taker, text)
}

pub fn has_state(replica: &Replica, text: &[u8]) -> bool {
    is_text(again!(AllocError, replica.state()), text)
}

/// Whether a replica has no second edit to give.
fn has_one_edit(replica: &Replica) -> bool {
    is_fault(delta(replica, 1), Fault::NoSuchEdit)
}

/// Whether another replica holds what one does that gives the same again and again.
fn gives_again(alloc: Global, giver: &Replica) -> bool {
    let Some(text) = state(giver) else {
        return false;
    };
    let Ok(given) = delta(giver, 0) else {
        return false;
    };
    let Some(mut taker) = taker(alloc) else {
        return false;
    };
    takes_again(&mut taker, &text, &given) && are_same(giver, &taker)
}

fn texts_are_taken_again(alloc: Global) -> bool {
    match drawn(alloc, [1, 0]) {
        Some(giver) => gives_again(alloc, &giver),
        None => false,
    }
}

fn fault_is_told(alloc: Global) -> bool {
    let Some(mut taker) = taker(alloc) else {
        return false;
    };
    let answer = take_bytes(&mut taker, b"GLWS\x03");
    is_fault(answer, Fault::Read(ReadFault::Version))
}

fn cells_are_exported(alloc: Global) -> bool {
    let Some(replica) = drawn(alloc, [1, 1]) else {
        return false;
    };
    let answer = again!(Fault::Memory if shows(&replica, [1, 1], 1), replica.export(5));
    is_text(answer, LATER.as_bytes())
}
