//! Soups by tiles beside the rule, applied cell by cell, and beside universes.

use crate::soups::{CORNERS, Soup, in_the_middle, run};
use edit_stamps::{Cell, EditFault};
use generation_engine::Engine;
use generations_rule::Rule;
use keyed_hash::HashKey;
use pattern_cells::are_below;
use samples::{next, plane_of};
use std::alloc::{AllocError, Global};
use std::test::Fail;
use tile_cells::{CellsFault, Means, TileFault, cells_later};

/// More windows than any test makes.
const MANY: u64 = 0x100_0000;

/// Rules of 2, 3, 4, 5, 25 and 256 states.
static RULES: [&[u8]; 12] = [
    b"23/3/2",
    b"23/36/2",
    b"34678/3678/2",
    b"1357/1357/2",
    b"/2/3",
    b"23/2/3",
    b"345/2/4",
    b"2/13/4",
    b"345/26/5",
    b"012345678/12345678/25",
    b"12/34/256",
    b"/2/256",
];

/// Steps of fewer than 16 generations, of 16, and both.
static GENERATIONS: [u32; 6] = [0, 1, 15, 16, 17, 33];

/// What tiles tell; none where a state is not the rule's.
type Told = Option<Result<Vec<Cell>, CellsFault>>;

/// At how many of the generations tiles have the cells that the rule makes.
fn agreed(alloc: Global, soup_of: Soup) -> Result<usize, EditFault> {
    let mut agreed = 0_usize;
    for generation in GENERATIONS {
        let later = run(alloc, soup_of, generation)?;
        if at_tiles(alloc, soup_of, generation, MANY)? == Some(Ok(later)) {
            agreed = agreed.saturating_add(1);
        }
    }
    Ok(agreed)
}

/// What tiles have of a soup.
fn at_tiles(
    alloc: Global,
    soup_of: Soup,
    generation: u32,
    windows: u64,
) -> Result<Told, EditFault> {
    let cells = run(alloc, soup_of, 0)?;
    Ok(by_tiles(alloc, &soup_of.rule, &cells, generation, windows))
}

/// What tiles have of some cells.
fn by_tiles(alloc: Global, rule: &Rule, cells: &[Cell], generation: u32, windows: u64) -> Told {
    if !are_below(rule.states(), cells) {
        return None;
    }
    let means = Means {
        key: HashKey::fixed(),
        windows,
    };
    Some(cells_later(alloc, rule, cells, generation, means))
}

#[test]
fn tiles_evolve_as_the_rule_says(rt: HostRuntime) -> Result<(), Fail> {
    for (seed, rule) in RULES.iter().enumerate() {
        let soup_of = in_the_middle(rule, seed as u64)?;
        assert_eq!(rt; agreed(rt.alloc(), soup_of)?, 6);
    }
    Ok(())
}

#[test]
fn tiles_evolve_alike_at_the_corners_of_the_plane(rt: HostRuntime) -> Result<(), Fail> {
    for middle in CORNERS {
        let soup_of = Soup {
            rule: Rule::parse(b"345/2/4")?,
            seed: 7,
            middle,
        };
        assert_eq!(rt; agreed(rt.alloc(), soup_of)?, 6);
    }
    Ok(())
}

#[test]
fn few_windows_do_not_do(rt: HostRuntime) -> Result<(), Fail> {
    let soup_of = in_the_middle(b"23/3/2", 1)?;
    let later = run(rt.alloc(), soup_of, 33)?;
    assert_eq!(rt;
        at_tiles(rt.alloc(), soup_of, 33, 30)?,
        Some(Err(CellsFault::Tiles(TileFault::Long)))
    );
    assert_eq!(rt; at_tiles(rt.alloc(), soup_of, 33, 300)?, Some(Ok(later)));
    Ok(())
}

/// The cells of tiles at a generation of Life.
fn life_at(alloc: Global, cells: &[Cell], generation: u32) -> Result<Told, Fail> {
    let rule = Rule::parse(b"23/3/2")?;
    Ok(by_tiles(alloc, &rule, cells, generation, MANY))
}

/// A glider on the corner of four tiles, sorted, and where it is after four generations.
static GLIDER: [(i32, i32); 5] = [(0, -1), (1, 0), (-1, 1), (0, 1), (1, 1)];

fn glider(alloc: Global, by: i32) -> Result<Vec<Cell>, AllocError> {
    let mut cells = Vec::new(alloc);
    for (x, y) in GLIDER {
        cells.push(Cell {
            x: x.saturating_add(by),
            y: y.saturating_add(by),
            state: 1,
        })?;
    }
    Ok(cells)
}

#[test]
fn a_glider_crosses_tiles(rt: HostRuntime) -> Result<(), Fail> {
    let alloc = rt.alloc();
    let first = glider(alloc, 0)?;
    for step in 0..40u32 {
        let later = glider(alloc, step as i32)?;
        assert_eq!(rt;
            life_at(alloc, &first, step.saturating_mul(4))?,
            Some(Ok(later))
        );
    }
    Ok(())
}

#[test]
fn a_cell_alone_dies(rt: HostRuntime) -> Result<(), Fail> {
    let alloc = rt.alloc();
    let one = [Cell {
        x: 31,
        y: -1,
        state: 1,
    }];
    assert_eq!(rt; life_at(alloc, &one, 0)?, Some(Ok(one.to_vec(alloc)?)));
    assert_eq!(rt; life_at(alloc, &one, 1)?, Some(Ok(Vec::new(alloc))));
    assert_eq!(rt; life_at(alloc, &one, 16)?, Some(Ok(Vec::new(alloc))));
    Ok(())
}

#[test]
fn tiles_lie_at_128_or_more_from_the_greatest_coordinate(rt: HostRuntime) -> Result<(), Fail> {
    let alloc = rt.alloc();
    let far = Some(Err(CellsFault::Tiles(TileFault::Far)));
    let mut one = [Cell {
        x: 0x7fff_ff7f,
        y: 0,
        state: 1,
    }];
    assert_eq!(rt; life_at(alloc, &one, 0)?, Some(Ok(one.to_vec(alloc)?)));
    one[0].x = 0x7fff_ff80;
    assert_eq!(rt; life_at(alloc, &one, 0)?, far);
    // a glider that gets there
    let first = glider(alloc, 0x7fff_ff00)?;
    let later = glider(alloc, 0x7fff_ff40)?;
    assert_eq!(rt; life_at(alloc, &first, 256)?, Some(Ok(later)));
    assert_eq!(rt; life_at(alloc, &first, 1024)?, far);
    Ok(())
}

/// Blocks of four cells, each in a tile of its own on both grids: so many columns of 256 rows.
fn blocks(alloc: Global, columns: i32) -> Result<Vec<Cell>, AllocError> {
    let mut cells = Vec::new(alloc);
    for row in 0..512i32 {
        for column in 0..columns.saturating_mul(2) {
            cells.push(Cell {
                x: (column / 2)
                    .saturating_mul(32)
                    .saturating_add(4 + column % 2),
                y: (row / 2).saturating_mul(32).saturating_add(4 + row % 2),
                state: 1,
            })?;
        }
    }
    Ok(cells)
}

#[test]
fn tiles_are_at_most_65_536(rt: HostRuntime) -> Result<(), Fail> {
    let alloc = rt.alloc();
    let most = blocks(alloc, 256)?;
    assert_eq!(rt; life_at(alloc, &most, 1)?, Some(Ok(most)));
    let more = blocks(alloc, 257)?;
    assert_eq!(rt;
        life_at(alloc, &more, 1)?,
        Some(Err(CellsFault::Tiles(TileFault::Full)))
    );
    Ok(())
}

/// A soup of 100 by 100 cells, of which one in three is dead.
fn wide_soup(alloc: Global, rule: &Rule) -> Result<Vec<Cell>, AllocError> {
    let mut number = 20_261_128;
    let mut cells = Vec::new(alloc);
    for place in 0..10_000i32 {
        let drawn = next(&mut number);
        if drawn % 3 != 0 {
            cells.push(Cell {
                x: place % 100,
                y: place / 100,
                state: (1 + drawn / 3 % u64::from(rule.states().max(2) - 1)) as u8,
            })?;
        }
    }
    Ok(cells)
}

/// At how many of the first generations tiles have the cells of a universe that is run on.
fn same_cells(alloc: Global, rule: Rule, generations: u32) -> Result<u32, Fail> {
    let cells = wide_soup(alloc, &rule)?;
    let plane = plane_of(alloc, &rule, &cells)?;
    let mut engine = Engine::new(alloc, rule)?;
    engine.load(&plane)?;
    let mut same = 0u32;
    for generation in 0..generations {
        if by_tiles(alloc, &rule, &cells, generation, MANY) == Some(Ok(engine.cells()?)) {
            same = same.saturating_add(1);
        }
        engine.run(1)?;
    }
    Ok(same)
}

#[test]
fn tiles_have_the_cells_of_a_universe(rt: HostRuntime) -> Result<(), Fail> {
    for rule in [b"23/3/2".as_slice(), b"/2/3", b"345/2/4", b"12/34/256"] {
        assert_eq!(rt; same_cells(rt.alloc(), Rule::parse(rule)?, 50)?, 50);
    }
    Ok(())
}
