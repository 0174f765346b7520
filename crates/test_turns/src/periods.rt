//! Periods of oscillators and spaceships, as they are published.

use crate::later::LaterCells;
use edit_stamps::{Corner, are_placeable, placed_cells};
use generations_rule::Rule;
use map_periods::{Move, Period, moved_by, period_of};
use multistate_rle::parse;
use pattern_cells::{Cell, Pattern};
use pattern_turns::{Turn, turned};
use std::alloc::Global;

/// A pattern under a rule, and after how many generations it stands so far to the right and down.
pub struct Row {
    pub rule: &'static [u8],
    pub text: &'static [u8],
    pub generations: u16,
    pub x: i64,
    pub y: i64,
}

pub const LIFE: &[u8] = b"23/3/2";

pub const GLIDER: &[u8] = b"x = 3, y = 3\nbo$2bo$3o!";

pub static SHIPS: [Row; 12] = [
    Row {
        rule: LIFE,
        text: GLIDER,
        generations: 4,
        x: 1,
        y: 1,
    },
    Row {
        rule: LIFE,
        text: b"x = 0, y = 0\nbo2bo$o$o3bo$4o!",
        generations: 4,
        x: -2,
        y: 0,
    },
    Row {
        rule: LIFE,
        text: b"x = 0, y = 0\n3bo$bo3bo$o$o4bo$5o!",
        generations: 4,
        x: -2,
        y: 0,
    },
    Row {
        rule: LIFE,
        text: b"x = 0, y = 0\n3b2o$bo4bo$o$o5bo$6o!",
        generations: 4,
        x: -2,
        y: 0,
    },
    Row {
        rule: LIFE,
        text: b"x = 0, y = 0\nb2o2bob2o$o2bo2b2o$bobo$2bo$8bo$6b3o$5bo$6bo$7b2o!",
        generations: 7,
        x: -1,
        y: 0,
    },
    Row {
        rule: LIFE,
        text: b"x = 0, y = 0\nb2o2b2o$3b2o$3b2o$obo2bobo$o6bo2$o6bo$b2o2b2o$2b4o2$3b2o$3b2o!",
        generations: 10,
        x: 0,
        y: -1,
    },
    Row {
        rule: LIFE,
        text: b"x = 0, y = 0\nb3o7bo$b2o2bob2ob2o$3b3o4bo$bo2bobo3bo$o4bo4bo$o4bo4bo$bo2bobo3bo$3b3o4bo$b2o2bob2ob2o$b3o7bo!",
        generations: 3,
        x: -1,
        y: 0,
    },
    Row {
        rule: LIFE,
        text: b"x = 0, y = 0\nbo12bo$bo12bo$obo10bobo$bo12bo$bo12bo$2bo3b4o3bo$6b4o$2b4o4b4o2$4bo6bo$5b2o2b2o!",
        generations: 7,
        x: 0,
        y: -2,
    },
    Row {
        rule: LIFE,
        text: b"x = 0, y = 0\n3o$o9b2o$bo6b3obo$3b2o2b2o$4bo$8bo$4b2o3bo$3bobob2o$3bobo2bob2o$2bo4b2o$2b2o$2b2o!",
        generations: 4,
        x: -1,
        y: -1,
    },
    Row {
        rule: b"/2/3",
        text: b"x = 0, y = 0\nBA$BA!",
        generations: 1,
        x: 1,
        y: 0,
    },
    Row {
        rule: b"345/2/4",
        text: b"x = 0, y = 0\nAA$BB$CC!",
        generations: 1,
        x: 0,
        y: -1,
    },
    Row {
        rule: b"345/2/4",
        text: b"x = 0, y = 0\nCBA$CBA!",
        generations: 1,
        x: 1,
        y: 0,
    },
];

/// Nothing, a still life, and twenty-three oscillators, with the periods that LifeWiki tells.
pub static OSCILLATORS: [Row; 25] = [
    // Nothing.
    Row {
        rule: LIFE,
        text: b"x = 0, y = 0\n!",
        generations: 1,
        x: 0,
        y: 0,
    },
    // Block.
    Row {
        rule: LIFE,
        text: b"x = 2, y = 2\n2o$2o!",
        generations: 1,
        x: 0,
        y: 0,
    },
    // Blinker.
    Row {
        rule: LIFE,
        text: b"x = 3, y = 1\n3o!",
        generations: 2,
        x: 0,
        y: 0,
    },
    // Toad.
    Row {
        rule: LIFE,
        text: b"x = 4, y = 2\nb3o$3o!",
        generations: 2,
        x: 0,
        y: 0,
    },
    // Beacon.
    Row {
        rule: LIFE,
        text: b"x = 4, y = 4\n2o$2o$2b2o$2b2o!",
        generations: 2,
        x: 0,
        y: 0,
    },
    // Clock.
    Row {
        rule: LIFE,
        text: b"x = 4, y = 4\n2bo$obo$bobo$bo!",
        generations: 2,
        x: 0,
        y: 0,
    },
    // Tripole.
    Row {
        rule: LIFE,
        text: b"x = 5, y = 5\n2o$obo2$2bobo$3b2o!",
        generations: 2,
        x: 0,
        y: 0,
    },
    // Quadpole.
    Row {
        rule: LIFE,
        text: b"x = 6, y = 6\n2o$obo2$2bobo$5bo$4b2o!",
        generations: 2,
        x: 0,
        y: 0,
    },
    // Caterer.
    Row {
        rule: LIFE,
        text: b"x = 8, y = 6\n2bo$o3b4o$o3bo$o$3bo$b2o!",
        generations: 3,
        x: 0,
        y: 0,
    },
    // Jam.
    Row {
        rule: LIFE,
        text: b"x = 6, y = 7\n3b2o$2bo2bo$o2bobo$o3bo$o$3bo$b2o!",
        generations: 3,
        x: 0,
        y: 0,
    },
    // Pulsar.
    Row {
        rule: LIFE,
        text: b"x = 0, y = 0\n2b3o3b3o2$o4bobo4bo$o4bobo4bo$o4bobo4bo$2b3o3b3o2$2b3o3b3o$o4bobo4bo$o4bobo4bo$o4bobo4bo2$2b3o3b3o!",
        generations: 3,
        x: 0,
        y: 0,
    },
    // Mold.
    Row {
        rule: LIFE,
        text: b"x = 6, y = 6\n3b2o$2bo2bo$o2bobo$4bo$ob2o$bo!",
        generations: 4,
        x: 0,
        y: 0,
    },
    // Mazing.
    Row {
        rule: LIFE,
        text: b"x = 7, y = 7\n3b2o$bobo$o5bo$bo3b2o2$3bobo$4bo!",
        generations: 4,
        x: 0,
        y: 0,
    },
    // Monogram.
    Row {
        rule: LIFE,
        text: b"x = 7, y = 5\n2o3b2o$bobobo$b2ob2o$bobobo$2o3b2o!",
        generations: 4,
        x: 0,
        y: 0,
    },
    // Octagon 2.
    Row {
        rule: LIFE,
        text: b"x = 8, y = 8\n3b2o$2bo2bo$bo4bo$o6bo$o6bo$bo4bo$2bo2bo$3b2o!",
        generations: 5,
        x: 0,
        y: 0,
    },
    // Fumarole.
    Row {
        rule: LIFE,
        text: b"x = 8, y = 7\n3b2o$bo4bo$bo4bo$bo4bo$2bo2bo$obo2bobo$2o4b2o!",
        generations: 5,
        x: 0,
        y: 0,
    },
    // Unix.
    Row {
        rule: LIFE,
        text: b"x = 8, y = 8\nb2o$b2o2$bo$obo$o2bo2b2o$4bob2o$2b2o!",
        generations: 6,
        x: 0,
        y: 0,
    },
    // Burloaferimeter.
    Row {
        rule: LIFE,
        text: b"x = 0, y = 0\n4b2o$5bo$4bo$3bob3o$3bobo2bo$2obo3bobo$2obobo2bo$4b4o2$4b2o$4b2o!",
        generations: 7,
        x: 0,
        y: 0,
    },
    // Figure eight.
    Row {
        rule: LIFE,
        text: b"x = 6, y = 6\n2o$2obo$4bo$bo$2bob2o$4b2o!",
        generations: 8,
        x: 0,
        y: 0,
    },
    // Kok's galaxy.
    Row {
        rule: LIFE,
        text: b"x = 9, y = 9\n6ob2o$6ob2o$7b2o$2o5b2o$2o5b2o$2o5b2o$2o$2ob6o$2ob6o!",
        generations: 8,
        x: 0,
        y: 0,
    },
    // Blocker.
    Row {
        rule: LIFE,
        text: b"x = 0, y = 0\n6bobo$5bo$2o2bo4bo$2obo2bob2o$4b2o!",
        generations: 8,
        x: 0,
        y: 0,
    },
    // Tumbler.
    Row {
        rule: LIFE,
        text: b"x = 9, y = 5\nbo5bo$obo3bobo$o2bobo2bo$2bo3bo$2b2ob2o!",
        generations: 14,
        x: 0,
        y: 0,
    },
    // Pentadecathlon.
    Row {
        rule: LIFE,
        text: b"x = 10, y = 3\n2bo4bo$2ob4ob2o$2bo4bo!",
        generations: 15,
        x: 0,
        y: 0,
    },
    // Queen bee shuttle.
    Row {
        rule: LIFE,
        text: b"x = 22, y = 7\n9bo12b$7bobo12b$6bobo13b$2o3bo2bo11b2o$2o4bobo11b2o$7bobo12b$9bo!",
        generations: 30,
        x: 0,
        y: 0,
    },
    // Twin bees shuttle.
    Row {
        rule: LIFE,
        text: b"x = 29, y = 11\n17b2o10b$2o15bobo7b2o$2o17bo7b2o$17b3o9b4$17b3o9b$2o17bo9b$2o15bobo9b$17b2o!",
        generations: 46,
        x: 0,
        y: 0,
    },
];

/// The pattern's cells with its corner at the origin.
pub fn cells_of(alloc: Global, pattern: &Pattern) -> Option<Vec<Cell>> {
    let corner = Corner::at(0, 0);
    if !are_placeable(pattern.cells(), corner) {
        return None;
    }
    placed_cells(alloc, pattern.cells(), corner).ok()
}

/// What a search for at most so many generations tells of a pattern from a generation on; none where something is refused.
fn told(
    alloc: Global,
    rule: &[u8],
    pattern: &Pattern,
    first: u32,
    most: u16,
) -> Option<Option<Period>> {
    let rule = Rule::parse(rule).ok()?;
    let cells = cells_of(alloc, pattern)?;
    let mut generations = LaterCells { alloc, rule, cells };
    if first > 1_000 {
        return None;
    }
    period_of(&mut generations, first, most).ok()
}

/// Whether the row's pattern has the row's period from two generations on, with more generations than it takes, and with as
/// many; and none with one less.
fn has_period(alloc: Global, row: &Row) -> Option<bool> {
    let pattern = parse(alloc, row.text).ok()?;
    let want = Some(Period {
        generations: row.generations,
        by: Move { x: row.x, y: row.y },
    });
    let from_the_first = told(alloc, row.rule, &pattern, 0, 50)?;
    let from_a_later_one = told(alloc, row.rule, &pattern, 5, row.generations)?;
    let too_few = told(
        alloc,
        row.rule,
        &pattern,
        0,
        row.generations.saturating_sub(1),
    )?;
    Some(from_the_first == want && from_a_later_one == want && too_few.is_none())
}

#[test]
fn spaceships_move(rt: HostRuntime) {
    for row in &SHIPS {
        assert!(rt;
            has_period(rt.alloc(), row) == Some(true),
            "{} {} {}",
            row.generations,
            row.x,
            row.y
        );
    }
}

#[test]
fn oscillators_stay(rt: HostRuntime) {
    for row in &OSCILLATORS {
        assert!(rt;
            has_period(rt.alloc(), row) == Some(true),
            "{}",
            row.generations
        );
    }
}

/// What a search for at most four generations tells of a turned glider.
fn turned_glider(alloc: Global, turn: Turn) -> Option<Move> {
    let glider = parse(alloc, GLIDER).ok()?;
    let pattern = turned(alloc, &glider, turn).ok()?;
    let period = told(alloc, LIFE, &pattern, 0, 4)??;
    Some(period.by)
}

/// It moves down and to the right as it is.
#[test]
fn a_turned_glider_moves_the_turned_way(rt: HostRuntime) {
    let ways = [
        (Turn::Left, 1, -1),
        (Turn::Right, -1, 1),
        (Turn::Half, -1, -1),
        (Turn::Mirror, -1, 1),
        (Turn::Flip, 1, -1),
    ];
    for (turn, x, y) in ways {
        assert!(rt;
            turned_glider(rt.alloc(), turn) == Some(Move { x, y }),
            "{turn:?}"
        );
    }
}

fn r_pentomino_in_60(alloc: Global) -> Option<Option<Period>> {
    let pattern = parse(alloc, b"x = 3, y = 3\nb2o$2o$bo!").ok()?;
    told(alloc, LIFE, &pattern, 0, 60)
}

#[test]
fn an_r_pentomino_has_no_period_in_sixty_generations(rt: HostRuntime) {
    assert!(rt; r_pentomino_in_60(rt.alloc()) == Some(None));
}

/// Gosper's gun. What it shot is there for ever, so nothing of it comes again.
const GUN: &[u8] =
    b"x = 36, y = 9\n24bo$22bobo$12b2o6b2o12b2o$11bo3bo4b2o12b2o$2o8bo5bo3b2o$2o8bo3bob2o4bobo$10bo5bo7bo$11bo3bo$12b2o!";

fn gun_in_100(alloc: Global) -> Option<Option<Period>> {
    let pattern = parse(alloc, GUN).ok()?;
    told(alloc, LIFE, &pattern, 0, 100)
}

#[test]
fn a_gun_has_no_period(rt: HostRuntime) {
    assert!(rt; gun_in_100(rt.alloc()) == Some(None));
}

fn cell(x: i32, y: i32, state: u8) -> Cell {
    Cell { x, y, state }
}

/// The greatest coordinate, and the least.
#[test]
fn lists_are_compared_cell_by_cell(rt: HostRuntime) {
    let pair = [cell(-1, 0, 1), cell(1, 0, 2)];
    let far = Move {
        x: 4_294_967_295,
        y: -4_294_967_295,
    };
    let low = [cell(i32::MIN, i32::MAX, 1)];
    let high = [cell(i32::MAX, i32::MIN, 1)];
    assert!(rt; moved_by(&pair, &[cell(4, 9, 1), cell(6, 9, 2)]) == Some(Move { x: 5, y: 9 }));
    assert!(rt; moved_by(&pair, &[cell(4, 9, 1), cell(6, 9, 1)]).is_none());
    assert!(rt; moved_by(&pair, &[cell(4, 9, 1), cell(7, 9, 2)]).is_none());
    assert!(rt; moved_by(&pair, &[cell(4, 9, 1)]).is_none());
    assert!(rt; moved_by(&low, &high) == Some(far));
    assert!(rt; moved_by(&[], &[]) == Some(Move { x: 0, y: 0 }));
}
