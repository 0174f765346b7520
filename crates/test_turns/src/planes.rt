//! Periods of planes.

use crate::periods::{GLIDER, LIFE, OSCILLATORS, Row, SHIPS, cells_of};
use export::ExportFault;
use generations_rule::Rule;
use map_periods::{Move, Period, period_in};
use multistate_rle::parse;
use samples::plane_of;
use std::alloc::Global;

/// What a search on a plane tells of a pattern with its corner at the origin; none where it is no pattern, or has no cell.
fn told(
    alloc: Global,
    rule: &[u8],
    text: &[u8],
    first: u32,
    most: u16,
) -> Option<Result<Option<Period>, ExportFault>> {
    let rule = Rule::parse(rule).ok()?;
    let pattern = parse(alloc, text).ok()?;
    let cells = cells_of(alloc, &pattern)?;
    let Ok(plane) = plane_of(alloc, &rule, &cells) else {
        return None;
    };
    Some(period_in(alloc, &rule, &plane, first, most))
}

/// Whether a search from three generations on tells the row's period and move.
fn has_period(alloc: Global, row: &Row) -> Option<bool> {
    let found = told(alloc, row.rule, row.text, 3, 50)?.ok()?;
    let want = Some(Period {
        generations: row.generations,
        by: Move { x: row.x, y: row.y },
    });
    Some(found == want)
}

#[test]
fn spaceships_move_on_planes(rt: HostRuntime) {
    for row in &SHIPS {
        assert!(rt;
            has_period(rt.alloc(), row) == Some(true),
            "{}",
            row.generations
        );
    }
}

/// Behind the first, which has no cell.
#[test]
fn oscillators_stay_on_planes(rt: HostRuntime) {
    for row in OSCILLATORS.iter().skip(1) {
        assert!(rt;
            has_period(rt.alloc(), row) == Some(true),
            "{}",
            row.generations
        );
    }
}

/// So late a universe is run to the first generation.
#[test]
fn a_glider_has_its_period_late(rt: HostRuntime) {
    let want = Period {
        generations: 4,
        by: Move { x: 1, y: 1 },
    };
    let found = told(rt.alloc(), LIFE, GLIDER, 1_000_000, 4);
    assert!(rt; found == Some(Ok(Some(want))));
}

#[test]
fn no_generation_is_told_past_the_last(rt: HostRuntime) {
    let block = b"x = 2, y = 2\n2o$2o!";
    let past = told(rt.alloc(), LIFE, block, 0x2000_0001, 1);
    let last = told(rt.alloc(), LIFE, block, 0x2000_0000, 1);
    let before = told(rt.alloc(), LIFE, block, 0x1fff_ffff, 1);
    let want = Period {
        generations: 1,
        by: Move { x: 0, y: 0 },
    };
    assert!(rt; past == Some(Err(ExportFault::GenRange)));
    assert!(rt; last == Some(Err(ExportFault::GenRange)));
    assert!(rt; before == Some(Ok(Some(want))));
}
