//! The running board over a square of written cells, 2^20 of them where it is timed: edits of one cell that are
//! published by one seat, alone and while others poll, and by four seats in threads, beside a replica that draws
//! them; and seats that view cells and poll edits, beside a plane that is read and edits that are copied.

ghost use Rattle.std.specs.Prelude.{◌≡◌};
ghost use Rattle.std.specs.Arc.{arc_value};

mod race;
mod table;

use crate::bench::{Bench, Machine, Row};
use crate::drawing::{Chance, Field, brain, replica_of_square, scattered, square};
use anyhow::Result;
use edit_stamps::Corner;
use lists::ListOf;
use race::{Call, Race};
use relay_board::{Naming, Opened, start};
use replica_core::Replica;
use std::alloc::Global;
use std::marker::Brand;
use table::{Table, WRITERS};

/// How many seats read, each of which polls once where polls are measured.
const READERS: u16 = 33;

/// How many submissions the inbox has room for.
const INBOX: u16 = 64;

/// How many edits are polled: as many as a board keeps.
const POLLED: u32 = 1024;

/// How many edits one measurement makes: so many that planes are copied several times.
const EDITS: u32 = 0x4000;

/// How many cells one measurement views.
const VIEWED: u32 = 0x10_0000;

static WAYS: [Row<Call>; 4] = [
    Row(Call::OneSeat, "an edit published by one seat"),
    Row(Call::BesidePolls, "while three seats poll"),
    Row(Call::FourSeats, "by four seats in threads"),
    Row(Call::Draws, "drawn by a replica"),
];

static VIEWS: [Row<Call>; 2] = [
    Row(Call::Gets, "a cell read from a plane"),
    Row(Call::Views, "a cell viewed"),
];

static POLLS: [Row<Call>; 2] = [
    Row(Call::Copies, "the copies of these edits"),
    Row(Call::Poll, "a poll"),
];

pub fn run<R: Machine>(bench: &Bench<R>) -> Result<()> {
    let replica = replica_of_square(bench.alloc, side(bench))?;
    let seats = READERS + WRITERS as u16;
    let opened = start(bench.rt, bench.alloc, brain()?, seats, INBOX)?;
    run_named::<Brand, R>(bench, opened, replica)
}

/// How many columns and rows are written.
fn side<R: Machine>(bench: &Bench<R>) -> u32 {
    bench.much(1024, 32)
}

fn run_named<J: Naming + Send, R: Machine>(
    bench: &Bench<R>,
    opened: Opened<R>,
    replica: Replica,
) -> Result<()>
    requires origin { opened.publisher.origin ≡ J.origin }
    requires inbox { (arc_value opened.drain.queue).table.shared.table_id ≡ J.inbox }
{
    let field = Field::at_origin(bench.much(10, 5));
    let (relay, seats) = opened.named::<J>()?;
    let mut race = Race {
        bench: *bench,
        table: Table::new(bench.alloc, relay, seats, field)?,
        replica,
        chance: Chance::new(1),
        field,
        count: POLLED,
        cells: Vec::new(bench.alloc),
        edits: ListOf::of_vec(Vec::new(bench.alloc)),
        polls: 0,
    };
    run_race(&mut race)
}

fn run_race<J: Naming + Send, R: Machine>(race: &mut Race<J, R>) -> Result<()> {
    run_views(race)?;
    run_polls(race)?;
    run_ways(race)
}

/// Publishes edits, draws them, and tells at how many cells board and replica are then alike.
fn run_views<J: Naming + Send, R: Machine>(race: &mut Race<J, R>) -> Result<()> {
    let bench = race.bench;
    race.begin(side(&bench))?;
    race.make(Call::OneSeat)?;
    race.make(Call::Draws)?;
    println!(&bench.rt;
        "{POLLED} edits published: {} of {} cells as a replica has them that drew them",
        race.count_alike()?,
        race.cells.len()
    )?;
    race.cells = scattered(bench.alloc, race.field, bench.much(VIEWED, 0))?;
    bench.measure(8, VIEWED, &VIEWS, |call| race.make(call))
}

/// Polls edits, tells whether each is newer than the one before, and measures polls, each by a seat of its own.
fn run_polls<J: Naming + Send, R: Machine>(race: &mut Race<J, R>) -> Result<()> {
    let bench = race.bench;
    race.edits = race.polled()?;
    println!(&bench.rt;
        "polled: {} edits, in the order of their stamps: {}",
        race.edits.as_slice().len(),
        race.edits
            .as_slice()
            .is_sorted_by_key(|edit| edit.stamp().number())
    )?;
    bench.measure(u32::from(READERS) - 1, 1, &POLLS, |call| race.make(call))
}

/// Makes edits in each way, and tells how many were taken.
fn run_ways<J: Naming + Send, R: Machine>(race: &mut Race<J, R>) -> Result<()> {
    let bench = race.bench;
    race.count = 256;
    for Row(way, _) in &WAYS {
        race.make(*way)?;
    }
    println!(&bench.rt;
        "256 edits in each way: {} accepted on the board, {} drawn by the replica",
        race.table.accepted(),
        race.replica.journal().len()
    )?;
    race.count = EDITS;
    bench.measure(4, EDITS, &WAYS, |call| race.make(call))
}
