//! Universes of random planes beside the planes' own walks.

use edit_stamps::{Cell, Corner, EditFault};
use generation_engine::Engine;
use generations_rule::Rule;
use samples::{CENTRES, next, walks};
use std::alloc::{AllocError, Global};
use std::test::Fail;

/// A coordinate of the plane near another.
fn near(centre: i32, number: &mut u64) -> i32 {
    let offset = (next(number) % 40) as i32 - 20;
    centre
        .saturating_add(offset)
        .max(-0x4000_0000)
        .min(0x3fff_ffff)
}

/// Some cells near a centre, some of them dead.
fn cells_near(alloc: Global, centre: Corner, number: &mut u64) -> Result<Vec<Cell>, AllocError> {
    let mut list = Vec::new(alloc);
    for _ in 0..next(number) % 200 + 1 {
        list.push(Cell {
            x: near(centre.x, number),
            y: near(centre.y, number),
            state: (next(number) % 256) as u8,
        })?;
    }
    Ok(list)
}

/// Whether a new engine shows the plane of some cells as it walks.
fn shows_plane(alloc: Global, rule: Rule, cells: &[Cell]) -> Result<bool, EditFault> {
    let mut engine = Engine::new(alloc, rule)?;
    let shown = walks(alloc, &mut engine, &rule, cells)?;
    Ok(shown)
}

/// How many of ten planes near each centre an engine shows as they are.
fn shown(alloc: Global, rule: Rule) -> Result<u32, EditFault> {
    let mut number = 20_221_212;
    let mut shown = 0_u32;
    for centre in CENTRES {
        for _ in 0..10 {
            let cells = cells_near(alloc, centre, &mut number)?;
            if shows_plane(alloc, rule, &cells)? {
                shown = shown.saturating_add(1);
            }
        }
    }
    Ok(shown)
}

/// With 256 states, all eight bit planes are used.
#[test]
fn random_planes_are_listed_as_they_walk(rt: HostRuntime) -> Result<(), Fail> {
    assert_eq!(rt; shown(rt.alloc(), Rule::parse(b"345/2/256")?)?, 80);
    Ok(())
}
