//! Boards whose files are in memory.

ghost use Rattle.std.specs.Prelude.{◌≡◌, ◌<◌, IfOk};
ghost use Rattle.std.specs.Arc.{arc_value};

use board_keeper::{
    HeadFault, Keeper, KeptBodies, KeptSeats, LoadFault, LoadedBoard, OpenFault, load_board,
    opened, rule_of,
};
use document_bodies::{edit_body, head_body};
use edit_stamps::{Cell, Edit, Stamp};
use generations_rule::Rule;
use kept_devices::MemoryKeep;
use kept_log::{FindFault, find};
use kept_records::{MOST_BODY, push_record};
use relay_board::{
    BoardSize, Naming, Opened, Pending, Seat, StartFault, SubmitFault, start_within,
};
use square_store::Limits;
use std::alloc::{AllocError, Global};
use std::sync::Wait;
use std::test::Fail;

pub const BRIANS_BRAIN: &[u8] = b"/2/3";

/// A counter, and the number of a replica.
pub type Stamped = (u64, u16);

/// A board of Brian's Brain for so many sessions that is kept in a file.
pub fn kept_board<R: Wait + Drop>(rt: R, alloc: Global, sessions: u16) -> Result<Opened<R>, Fail>
    ensures { IfOk result (λ board. 0 < board.count) }
{
    kept_board_from(rt, alloc, 1, sessions)
}

/// The same of sessions that are numbered from a first one on.
pub fn kept_board_from<R: Wait + Drop>(
    rt: R,
    alloc: Global,
    first: u16,
    sessions: u16,
) -> Result<Opened<R>, Fail>
    ensures { IfOk result (λ board. 0 < board.count) }
{
    let size = BoardSize {
        first,
        sessions,
        inbox: 128,
        is_kept: true,
        limits: Limits::usual(),
    };
    Ok(start_within(rt, alloc, Rule::parse(BRIANS_BRAIN)?, size)?)
}

/// The edit that writes state 1 at a cell of row 0.
fn drawn(alloc: Global, rule: &Rule, (counter, replica): Stamped, x: i32) -> Option<Edit> {
    let stamp = Stamp::new(counter, replica)?;
    let cell = Cell { x, y: 0, state: 1 };
    Edit::cells(alloc, rule, stamp, &[cell]).ok()
}

/// A column for each counter.
fn column_of(counter: u64) -> i32 {
    (counter % 1000) as i32
}

/// Submits a seat's edit with this counter, which writes in its column.
pub fn submitted<J: Naming, R: Wait>(
    rt: &R,
    alloc: Global,
    seat: &mut Seat<J>,
    counter: u64,
) -> Result<Result<Pending<J>, SubmitFault>, Fail> {
    let stamp = (counter, seat.number());
    let edit = drawn(alloc, &seat.rule(), stamp, column_of(counter)).ok_or("edit")?;
    match seat.submit(rt, edit) {
        Ok(pending) => Ok(Ok(pending)),
        Err((_edit, fault)) => Ok(Err(fault)),
    }
}

/// Adds the record of a body.
pub fn add_record(text: &mut Vec<u8>, body: &[u8]) -> Result<(), AllocError> {
    if body.len() > MOST_BODY {
        return Err(AllocError);
    }
    push_record(text, body)
}

/// The bytes of a file that has the edits of these stamps, each in the column of its counter.
pub fn document(alloc: Global, stamps: &[Stamped]) -> Result<Vec<u8>, Fail> {
    let rule = Rule::parse(BRIANS_BRAIN)?;
    let mut text = Vec::new(alloc);
    add_record(&mut text, &head_body(alloc, &rule)?)?;
    for stamp in stamps {
        let edit = drawn(alloc, &rule, *stamp, column_of(stamp.0)).ok_or("edit")?;
        add_record(&mut text, &edit_body(alloc, &rule, &edit)?)?;
    }
    Ok(text)
}

/// Why there is no keeper of a file.
#[derive(Clone, Copy, Debug, PartialEq, Eq)]
pub enum Unkept {
    Find(FindFault),
    Head(HeadFault),
    Start(StartFault),
    Load(LoadFault),
    Open(OpenFault),
}

/// A keeper of a board that has what its file had, and the seats.
#[derive(Drop)]
pub struct Kept<J: Naming, R: Wait + Drop> {
    pub keeper: Keeper<J, R, MemoryKeep>,
    pub seats: KeptSeats<J>,
}

/// Puts what a file has on a board that was opened, and opens the file.
pub fn taken_up<J: Naming, R: Wait + Drop, H: Wait>(
    rt: &H,
    alloc: Global,
    board: Opened<R>,
    keep: MemoryKeep,
) -> Result<Kept<J, R>, Unkept>
    requires origin { board.publisher.origin ≡ J.origin }
    requires inbox { (arc_value board.drain.queue).table.shared.table_id ≡ J.inbox }
    requires some { 0 < board.count }
{
    let found = match find(alloc, keep) {
        Ok(found) => found,
        Err((fault, _keep)) => return Err(Unkept::Find(fault)),
    };
    let rule = match rule_of(alloc, &found.parts, None) {
        Ok(rule) => rule,
        Err(fault) => return Err(Unkept::Head(fault)),
    };
    let (relay, seats) = match board.named::<J>() {
        Ok(named) => named,
        Err(fault) => return Err(Unkept::Start(fault)),
    };
    let document = KeptBodies {
        rule: &rule,
        bodies: &found.parts.bodies,
    };
    let loaded = match load_board(rt, alloc, relay, seats, document) {
        Ok(loaded) => loaded,
        Err(fault) => return Err(Unkept::Load(fault)),
    };
    match opened(alloc, &rule, found) {
        Ok((log, _lost)) => {
            let LoadedBoard { relay, seats } = loaded;
            let keeper = Keeper::new(alloc, relay, log, rule);
            Ok(Kept { keeper, seats })
        }
        Err((fault, _keep)) => Err(Unkept::Open(fault)),
    }
}
