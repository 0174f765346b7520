//! Universes of random cells beside the rule, applied cell by cell.

ghost use Rattle.std.specs.Prelude.{◌≡◌};

use edit_stamps::{Cell, EditFault};
use generation_engine::Engine;
use generations_rule::Rule;
use samples::{Board, advances, next, takes};
use std::alloc::{AllocError, Global};
use std::test::Fail;

/// How many columns and rows a board has.
const SIDE: usize = 128;

/// How many cells it has.
const CELLS: usize = 16384;

/// How far the soup is from the board's edge: further than the last generation looked at.
const MARGIN: usize = 40;

/// The generations that are looked at, and how many each is after the one before.
static GENERATIONS: [(u32, u32); 6] = [(1, 1), (1, 2), (1, 3), (4, 7), (5, 12), (21, 33)];

/// One run in place of several.
static AT_ONCE: [(u32, u32); 1] = [(33, 33)];

/// The middle of the plane.
static MIDDLE: (i32, i32) = (0, 0);

/// The board's middle where the soup touches a corner of the plane.
pub(crate) static CORNERS: [(i32, i32); 4] = [
    (-0x4000_0000 + 24, -0x4000_0000 + 24),
    (0x4000_0000 - 24, -0x4000_0000 + 24),
    (-0x4000_0000 + 24, 0x4000_0000 - 24),
    (0x4000_0000 - 24, 0x4000_0000 - 24),
];

fn is_in_soup(place: usize) -> bool {
    let column = place % SIDE;
    let row = place / SIDE;
    column >= MARGIN && column < SIDE - MARGIN && row >= MARGIN && row < SIDE - MARGIN
}

/// A board whose middle is half dead, the other cells in any state.
fn board_of(alloc: Global, rule: &Rule, seed: u64) -> Result<Board, AllocError> {
    let states = u64::from(rule.states());
    let mut number = seed;
    let mut drawn_states = Vec::with_capacity(alloc, CELLS)?;
    for place in 0..CELLS {
        let drawn = next(&mut number);
        let is_dead = !is_in_soup(place) || drawn % 2 == 0;
        let state = if states == 0 { 0 } else { drawn / 2 % states };
        drawn_states.push(if is_dead { 0 } else { state as u8 })?;
    }
    Ok(Board {
        side: SIDE,
        states: drawn_states,
    })
}

/// The cells that are not dead, by where the board's middle lies.
fn cells_of(alloc: Global, board: &Board, middle: (i32, i32)) -> Result<Vec<Cell>, AllocError> {
    let mut cells = Vec::new(alloc);
    for (place, state) in board.states.iter().enumerate() {
        if *state != 0 {
            cells.push(Cell {
                x: middle.0.saturating_add((place % SIDE) as i32 - 64),
                y: middle.1.saturating_add((place / SIDE % SIDE) as i32 - 64),
                state: *state,
            })?;
        }
    }
    Ok(cells)
}

/// A soup under a rule, from a seed, and where its middle lies.
#[derive(Clone, Copy)]
pub(crate) struct Soup {
    pub(crate) rule: Rule,
    pub(crate) seed: u64,
    pub(crate) middle: (i32, i32),
}

/// The cells of a soup so many generations later.
pub(crate) fn run(alloc: Global, soup_of: Soup, generation: u32) -> Result<Vec<Cell>, AllocError> {
    let mut board = board_of(alloc, &soup_of.rule, soup_of.seed)?;
    for _ in 0..generation {
        board = board.stepped(alloc, &soup_of.rule)?;
    }
    let cells = cells_of(alloc, &board, soup_of.middle)?;
    Ok(cells)
}

/// At how many generations an engine has the cells that the rule makes: each step is how many more,
/// and how many that is in all.
fn agreed(alloc: Global, soup_of: Soup, steps: &[(u32, u32)]) -> Result<usize, EditFault> {
    let mut engine = Engine::new(alloc, soup_of.rule)?;
    agreed_in(alloc, &mut engine, soup_of, steps)
}

fn agreed_in(
    alloc: Global,
    engine: &mut Engine,
    soup_of: Soup,
    steps: &[(u32, u32)],
) -> Result<usize, EditFault>
    requires { engine.old.rule ≡ soup_of.rule }
{
    let cells = run(alloc, soup_of, 0)?;
    let loaded = takes(alloc, engine, &soup_of.rule, &cells)?;
    let mut agreed = 0_usize;
    for (more, generation) in steps {
        if loaded && agrees_at(alloc, engine, soup_of, *more, *generation)? {
            agreed = agreed.saturating_add(1);
        }
    }
    Ok(agreed)
}

fn agrees_at(
    alloc: Global,
    engine: &mut Engine,
    soup_of: Soup,
    more: u32,
    generation: u32,
) -> Result<bool, EditFault> {
    let later = run(alloc, soup_of, generation)?;
    let agrees = advances(engine, more, generation, &later)?;
    Ok(agrees)
}

/// Rules of 2, 3, 4, 25 and 256 states.
static RULES: [&[u8]; 5] = [
    b"23/3/2",
    b"/2/3",
    b"345/2/4",
    b"012345678/12345678/25",
    b"12/34/256",
];

pub(crate) fn in_the_middle(rule: &[u8], seed: u64) -> Result<Soup, Fail> {
    Ok(Soup {
        rule: Rule::parse(rule)?,
        seed,
        middle: MIDDLE,
    })
}

#[test]
fn soups_evolve_as_the_rule_says(rt: HostRuntime) -> Result<(), Fail> {
    for (seed, rule) in RULES.iter().enumerate() {
        let soup_of = in_the_middle(rule, seed as u64)?;
        assert_eq!(rt; agreed(rt.alloc(), soup_of, &GENERATIONS)?, 6);
    }
    Ok(())
}

#[test]
fn one_run_comes_to_what_several_come_to(rt: HostRuntime) -> Result<(), Fail> {
    for (seed, rule) in RULES.iter().enumerate() {
        let soup_of = in_the_middle(rule, seed as u64)?;
        assert_eq!(rt; agreed(rt.alloc(), soup_of, &AT_ONCE)?, 1);
    }
    Ok(())
}

#[test]
fn soups_evolve_alike_at_the_corners_of_the_plane(rt: HostRuntime) -> Result<(), Fail> {
    for middle in CORNERS {
        let soup_of = Soup {
            rule: Rule::parse(b"345/2/4")?,
            seed: 7,
            middle,
        };
        assert_eq!(rt; agreed(rt.alloc(), soup_of, &GENERATIONS)?, 6);
    }
    Ok(())
}
