//! What is done at a replica, and what comes of it.

ghost use Rattle.std.specs.Prelude.{◌≤◌};

use edit_stamps::{Cell, Edit, Pattern, Rect, Stamp};
use generations_rule::Rule;
use multistate_rle::parse;
use replica_core::{CellList, EditSpec, Fault, Message, Replica};
use std::alloc::Global;

pub const BRIANS_BRAIN: &[u8] = b"/2/3";

pub const STAR_WARS: &[u8] = b"345/2/4";

/// A live cell and a dead one beside it.
const PAIR: &[u8] = b"#CXRLE Pos=7,7\nx = 2, y = 1\nA.!";

#[derive(Clone, Copy)]
pub enum Act {
    /// Draws no cell.
    DrawNothing,
    /// Draws a cell.
    Draw(i32, i32, u8),
    /// Draws two cells in one edit.
    DrawBoth((i32, i32, u8), (i32, i32, u8)),
    /// Pastes the pair, its corner here.
    Copy(i32, i32),
    Or(i32, i32),
    Clear(Rect),
    /// Takes the map of replica 1, which drew its cells.
    TakeMapOfFirst,
    TakeMapOfSecond,
    /// Takes an edit of replica 1 at the origin, with counter and state.
    TakeEdit(u64, u8),
    /// Takes an edit that was made under Star Wars.
    TakeOfStarWars,
}

/// The number of the stamp that was drawn with and the width of the edit's area, each 0 where there is
/// none.
pub type Answer = Result<(u64, u32), Fault>;

pub fn cell((x, y, state): (i32, i32, u8)) -> Cell {
    Cell { x, y, state }
}

pub fn rule(text: &[u8]) -> Result<Rule, Fault> {
    match Rule::parse(text) {
        Ok(rule) => Ok(rule),
        Err(_) => Err(Fault::OtherRule),
    }
}

fn pattern(alloc: Global) -> Result<Pattern, Fault> {
    match parse(alloc, PAIR) {
        Ok(pattern) => Ok(pattern),
        Err(_) => Err(Fault::Memory),
    }
}

pub fn begun(alloc: Global, text: &[u8], number: u16) -> Result<Replica, Fault>
    requires { 1 ≤ number }
{
    let rule = rule(text)?;
    Replica::new(alloc, rule, number)
}

pub fn draw(alloc: Global, replica: &mut Replica, cells: &[Cell]) -> Result<Edit, Fault> {
    let cells = Vec::from_slice(alloc, cells)?;
    replica.draw(EditSpec::Cells(CellList::of_vec(cells)))
}

fn width_of(edit: &Edit) -> u32 {
    match edit.area() {
        Some(area) => area.width,
        None => 0,
    }
}

fn of_edit(drawn: Result<Edit, Fault>) -> Answer {
    match drawn {
        Ok(edit) => Ok((edit.stamp().number(), width_of(&edit))),
        Err(fault) => Err(fault),
    }
}

/// What replica 1 sends that drew its cells.
pub fn map_of_first(alloc: Global) -> Result<Message, Fault> {
    map_of(alloc, 1, [cell((0, 0, 1)), cell((1, 0, 2))])
}

fn map_of_second(alloc: Global) -> Result<Message, Fault> {
    map_of(alloc, 2, [cell((0, 0, 2)), cell((0, 1, 1))])
}

fn map_of(alloc: Global, number: u16, cells: [Cell; 2]) -> Result<Message, Fault>
    requires { 1 ≤ number }
{
    let mut replica = begun(alloc, BRIANS_BRAIN, number)?;
    let _ = draw(alloc, &mut replica, &cells)?;
    replica.snapshot()
}

/// A message of one edit of replica 1 at the origin.
pub fn message_of_one(
    alloc: Global,
    rule: Rule,
    counter: u64,
    state: u8,
) -> Result<Message, Fault> {
    let Some(stamp) = Stamp::new(counter, 1) else {
        return Err(Fault::ClockFull);
    };
    let edit = Edit::cells(alloc, &rule, stamp, &[cell((0, 0, state))])?;
    match Vec::from_array(alloc, [edit]) {
        Ok(edits) => Ok(Message::of_edits(rule, edits)),
        Err(_) => Err(Fault::Memory),
    }
}

fn take(replica: &mut Replica, sent: Result<Message, Fault>) -> Answer {
    replica.take(&sent?)?;
    Ok((0, 0))
}

fn of_star_wars(alloc: Global) -> Result<Message, Fault> {
    message_of_one(alloc, rule(STAR_WARS)?, 1, 2)
}

fn answer(alloc: Global, replica: &mut Replica, act: Act) -> Answer {
    match act {
        Act::DrawNothing => of_edit(draw(alloc, replica, &[])),
        Act::Draw(x, y, state) => of_edit(draw(alloc, replica, &[Cell { x, y, state }])),
        Act::DrawBoth(one, other) => of_edit(draw(alloc, replica, &[cell(one), cell(other)])),
        Act::Copy(x, y) => of_edit(replica.draw(EditSpec::Copy(pattern(alloc)?, x, y))),
        Act::Or(x, y) => of_edit(replica.draw(EditSpec::Or(pattern(alloc)?, x, y))),
        Act::Clear(area) => of_edit(replica.draw(EditSpec::Clear(area))),
        Act::TakeMapOfFirst => take(replica, map_of_first(alloc)),
        Act::TakeMapOfSecond => take(replica, map_of_second(alloc)),
        Act::TakeEdit(counter, state) => {
            let sent = message_of_one(alloc, replica.rule(), counter, state);
            take(replica, sent)
        }
        Act::TakeOfStarWars => take(replica, of_star_wars(alloc)),
    }
}

/// Acts, and what is to be answered to each.
pub type Acts = &'static [(Act, Answer)];

/// How many of the acts, done in turn, are answered so.
fn right_answers(alloc: Global, replica: &mut Replica, acts: Acts) -> usize {
    let mut right = 0usize;
    for (act, said) in acts {
        if answer(alloc, replica, *act) == *said {
            right = right.wrapping_add(1);
        }
    }
    right
}

/// A stamp's number and a state.
pub type Shown = (u64, u8);

/// The origin, and to its right, below it and beyond.
pub const AROUND: [(i32, i32); 4] = [(0, 0), (1, 0), (0, 1), (1, 1)];

fn shown(replica: &Replica, (x, y): (i32, i32)) -> Shown {
    let write = replica.get(x, y);
    (write.stamp, write.state)
}

fn all_shown(replica: &Replica, places: [(i32, i32); 4]) -> [Shown; 4] {
    let [a, b, c, d] = places;
    [
        shown(replica, a),
        shown(replica, b),
        shown(replica, c),
        shown(replica, d),
    ]
}

/// Acts at a new replica, and what comes of them: how many edits are noted, and what is shown.
#[derive(Clone, Copy)]
pub struct Case {
    pub rule: &'static [u8],
    pub number: u16,
    pub acts: Acts,
    pub noted: usize,
    pub places: [(i32, i32); 4],
    pub shown: [Shown; 4],
}

pub fn comes_so(alloc: Global, case: &Case) -> Result<bool, Fault> {
    let mut replica = begun(alloc, case.rule, case.number.max(1))?;
    let right = right_answers(alloc, &mut replica, case.acts);
    Ok(
        right == case.acts.len()
            && replica.journal().len() == case.noted
            && all_shown(&replica, case.places) == case.shown,
    )
}
