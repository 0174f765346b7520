//! A state whose leaves all hash alike by the fixed key: how fast it is read by that key and by another, beside
//! a state of as many leaves that do not.

use crate::bench::{Bench, Row};
use crate::drawing::{brain, draw, edit};
use anyhow::{Context, Result};
use delta_exchange::{Message, read_within, write_state};
use edit_stamps::Cell;
use keyed_hash::{HashKey, KEY_BYTES};
use stamped_tree::{Limits, Plane};
use std::alloc::Global;
use std::rt::Clock;

/// The counter and the replica of the stamp that with the fixed key's first number gives 0 modulo 2^64: of a
/// leaf's first two places one factor is 0 then, and the other may be anything.
const FACTOR_0: u64 = 0x1ddf_57c6_84e2;

const REPLICA: u16 = 0x3251;

/// What is read, and by which key.
#[derive(Clone, Copy)]
enum Reading {
    Ordinary,
    Crowd,
    CrowdByFixedKey,
}

static READINGS: [Row<Reading>; 3] = [
    Row(Reading::Ordinary, "an ordinary one read by another key"),
    Row(Reading::Crowd, "this read by another key"),
    Row(Reading::CrowdByFixedKey, "this read by the fixed key"),
];

pub fn run<R: Clock + Print>(bench: &Bench<R>) -> Result<()> {
    let leaves = bench.much(4096, 64);
    let boards = Boards {
        alloc: bench.alloc,
        crowd: board_text(bench.alloc, leaves, FACTOR_0)?,
        ordinary: board_text(bench.alloc, leaves, FACTOR_0 + 1)?,
    };
    run_boards(bench, &boards, leaves)
}

fn run_boards<R: Clock + Print>(bench: &Bench<R>, boards: &Boards, leaves: u32) -> Result<()> {
    println!(&bench.rt;
        "state of {leaves} leaves of one hash: {} bytes, written again the same: {}",
        boards.crowd.len(),
        is_written_again(bench.alloc, &boards.crowd)?
    )?;
    bench.measure(4, 1, &READINGS, |reading| boards.read(reading))
}

/// The texts of the state that was made so, and of an ordinary one.
#[derive(Drop)]
struct Boards {
    alloc: Global,
    crowd: Vec<u8>,
    ordinary: Vec<u8>,
}

impl Boards {
    fn read(&self, reading: Reading) -> Result<()> {
        let text = match reading {
            Reading::Ordinary => &self.ordinary,
            Reading::Crowd | Reading::CrowdByFixedKey => &self.crowd,
        };
        let key = match reading {
            Reading::Ordinary | Reading::Crowd => another_key(),
            Reading::CrowdByFixedKey => HashKey::fixed(),
        };
        let _message = read_by(self.alloc, text, key)?;
        Ok(())
    }
}

/// A key that is not the fixed one.
fn another_key() -> HashKey {
    HashKey::of_bytes(&[7; KEY_BYTES])
}

fn read_by(alloc: Global, text: &[u8], key: HashKey) -> Result<Message> {
    Ok(read_within(alloc, &brain()?, text, Limits::of_key(key))?)
}

/// Whether the plane that a text tells has this very text.
fn is_written_again(alloc: Global, text: &[u8]) -> Result<bool> {
    let message = read_by(alloc, text, another_key())?;
    let plane = message.plane().context("a plane")?;
    Ok(write_state(alloc, &brain()?, plane)?.as_slice() == text)
}

/// The text of so many leaves, each with a stamp of this counter in its first place, and one of its own in its
/// second.
fn board_text(alloc: Global, leaves: u32, counter: u64) -> Result<Vec<u8>> {
    let plane = board(alloc, leaves, counter)?;
    Ok(write_state(alloc, &brain()?, &plane)?)
}

fn board(alloc: Global, leaves: u32, counter: u64) -> Result<Plane> {
    let places: Vec<Cell> = (0..leaves).map(|leaf| cell(leaf, 0)).collect(alloc)?;
    let firsts = edit(alloc, counter, REPLICA, &places)?;
    let mut plane = Plane::of_edit_with_key(alloc, &firsts, another_key())?;
    for leaf in 0..leaves {
        let second = [cell(leaf, 1)];
        draw(&mut plane, &edit(alloc, u64::from(leaf) + 1, 1, &second)?)?;
    }
    Ok(plane)
}

/// A cell in a column of the first row of a leaf, in rows of 64 leaves.
fn cell(leaf: u32, column: u32) -> Cell {
    Cell {
        x: (leaf % 64 * 8 + column % 8) as i32,
        y: (leaf / 64 % 64 * 8) as i32,
        state: 1,
    }
}
