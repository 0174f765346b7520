//! Sets of cells, random and at the ends of the plane, written and read again.

ghost use Rattle.std.specs.Prelude.{◌≤◌, ◌<◌};

use generations_rule::Rule;
use multistate_rle::{RleFault, are_writable, parse, write};
use pattern_cells::{Cell, Pattern};
use std::alloc::{AllocError, Global};

/// Numbers that look random, by Knuth's generator MMIX.
#[derive(Drop)]
struct Numbers {
    state: u64,
}

impl Numbers {
    ghost use Rattle.std.specs.Prelude.{◌≤◌, ◌<◌};

    fn word(&mut self) -> u32 {
        self.state = self
            .state
            .wrapping_mul(6_364_136_223_846_793_005)
            .wrapping_add(1_442_695_040_888_963_407);
        (self.state >> 32) as u32
    }

    fn below(&mut self, bound: u32) -> u32
        ensures { 1 ≤ bound → result < bound }
    {
        self.word() % bound.max(1)
    }
}

/// The part of the plane in which cells are drawn.
struct Part {
    x: i32,
    y: i32,
    width: u32,
    height: u32,
}

/// Crowded, in one column, in one row, and as wide and as high as a text can say.
static PARTS: [Part; 6] = [
    Part {
        x: -7,
        y: 5,
        width: 18,
        height: 15,
    },
    Part {
        x: 3,
        y: -90,
        width: 1,
        height: 250,
    },
    Part {
        x: -300,
        y: -1,
        width: 600,
        height: 1,
    },
    Part {
        x: i32::MIN,
        y: 9,
        width: u32::MAX,
        height: 2,
    },
    Part {
        x: -1,
        y: i32::MIN,
        width: 3,
        height: u32::MAX,
    },
    Part {
        x: i32::MIN,
        y: i32::MIN,
        width: u32::MAX,
        height: u32::MAX,
    },
];

/// Cells of every state in random places, sorted.
fn random_cells(
    alloc: Global,
    rule: &Rule,
    part: &Part,
    numbers: &mut Numbers,
) -> Result<Vec<Cell>, AllocError> {
    let mut cells = Vec::new(alloc);
    for _ in 0..200 {
        let state = numbers.below(u32::from(rule.states()) - 1) + 1;
        cells.push(Cell {
            x: part.x.saturating_add_unsigned(numbers.below(part.width)),
            y: part.y.saturating_add_unsigned(numbers.below(part.height)),
            state: state as u8,
        })?;
    }
    cells.sort_by_key(|cell| (cell.y, cell.x))?;
    cells.dedup_by_key(|cell| (cell.y, cell.x));
    Ok(cells)
}

/// The cells of a pattern, where it was in its plane.
fn in_plane(alloc: Global, pattern: &Pattern) -> Result<Vec<Cell>, AllocError> {
    let (x, y) = pattern.pos();
    let mut cells = Vec::new(alloc);
    for cell in pattern.cells() {
        cells.push(Cell {
            x: x.saturating_add_unsigned(cell.column),
            y: y.saturating_add_unsigned(cell.row),
            state: cell.state,
        })?;
    }
    Ok(cells)
}

/// How many coordinates there are up to the greatest.
fn side(least: i32, greatest: i32) -> u64 {
    u64::from(greatest.abs_diff(least)) + 1
}

/// The position and the sides of the cells' box, if there are cells.
fn box_of(cells: &[Cell]) -> ((i32, i32), u64, u64) {
    if cells.is_empty() {
        return ((0, 0), 0, 0);
    }
    let (mut left, mut top) = (i32::MAX, i32::MAX);
    let (mut right, mut bottom) = (i32::MIN, i32::MIN);
    for cell in cells {
        left = left.min(cell.x);
        top = top.min(cell.y);
        right = right.max(cell.x);
        bottom = bottom.max(cell.y);
    }
    ((left, top), side(left, right), side(top, bottom))
}

/// Whether a pattern has these cells in its plane, their box and this generation.
fn is_of(
    alloc: Global,
    pattern: &Pattern,
    generation: u64,
    cells: &[Cell],
) -> Result<bool, AllocError> {
    let read = in_plane(alloc, pattern)?;
    Ok(
        read.as_slice() == cells
            && (pattern.pos(), pattern.width(), pattern.height()) == box_of(cells)
            && pattern.generation() == generation,
    )
}

/// Whether a pattern's cells can be written, and make this text.
fn is_written_as(
    alloc: Global,
    rule: &Rule,
    pattern: &Pattern,
    text: &[u8],
) -> Result<bool, AllocError> {
    let cells = in_plane(alloc, pattern)?;
    if !are_writable(rule, &cells) {
        return Ok(false);
    }
    Ok(write(alloc, rule, pattern.generation(), &cells)?.as_slice() == text)
}

/// Whether cells are the same once they were written and read, and are written again the same.
fn are_read_back(
    alloc: Global,
    rule: &Rule,
    generation: u64,
    cells: &[Cell],
) -> Result<bool, RleFault> {
    if !are_writable(rule, cells) {
        return Ok(false);
    }
    let text = write(alloc, rule, generation, cells)?;
    let pattern = parse(alloc, &text)?;
    let is_same = is_of(alloc, &pattern, generation, cells)?;
    Ok(is_written_as(alloc, rule, &pattern, &text)? && is_same)
}

/// How many of the parts of the plane have random cells that are read back.
fn parts_read_back(alloc: Global, rule: &[u8], seed: u64) -> Result<u32, RleFault> {
    let Ok(rule) = Rule::parse(rule) else {
        return Ok(0);
    };
    let mut numbers = Numbers { state: seed };
    let mut count = 0u32;
    for part in &PARTS {
        let cells = random_cells(alloc, &rule, part, &mut numbers)?;
        if are_read_back(alloc, &rule, u64::from(numbers.word()), &cells)? {
            count = count.saturating_add(1);
        }
    }
    Ok(count)
}

/// Rules, each with a seed.
static RULES: [(&[u8], u64); 4] = [
    (b"23/3/2", 2),
    (b"/2/3", 3),
    (b"345/2/25", 25),
    (b"//256", 256),
];

#[test]
fn reads_back_random_cells(rt: HostRuntime) {
    for (rule, seed) in &RULES {
        assert!(rt;
            parts_read_back(rt.alloc(), rule, *seed) == Ok(6),
            "seed {seed}"
        );
    }
}

/// Whether such cells are read back under the rule with the most states.
fn with_most_states(alloc: Global, generation: u64, cells: &[Cell]) -> Result<bool, RleFault> {
    match Rule::parse(b"//256") {
        Ok(rule) => are_read_back(alloc, &rule, generation, cells),
        Err(_) => Ok(false),
    }
}

fn last_state(x: i32, y: i32) -> Cell {
    Cell { x, y, state: 255 }
}

static CORNERS: [(i32, i32); 4] = [
    (i32::MIN, i32::MIN),
    (i32::MAX, i32::MIN),
    (i32::MIN, i32::MAX),
    (i32::MAX, i32::MAX),
];

#[test]
fn reads_back_the_corners(rt: HostRuntime) {
    for (x, y) in &CORNERS {
        assert!(rt; with_most_states(rt.alloc(), 0, &[last_state(*x, *y)]) == Ok(true));
    }
}

/// No cells, and two that are as far from each other as a text can say.
#[test]
fn reads_back_the_least_and_the_largest_box(rt: HostRuntime) {
    assert!(rt; with_most_states(rt.alloc(), u64::MAX, &[]) == Ok(true));
    let farthest = [
        last_state(i32::MIN, i32::MIN),
        last_state(i32::MAX - 1, i32::MAX - 1),
    ];
    assert!(rt; with_most_states(rt.alloc(), 1, &farthest) == Ok(true));
}
