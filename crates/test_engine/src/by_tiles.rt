//! Exports by tiles beside those by a universe.

ghost use Rattle.std.specs.Prelude.{IfOk, IfSome};
ghost use Rattle.edit_stamps.specs.PlaneMap.{HasStatesBelow};
ghost use Rattle.export.specs.Kept.{IsListedOf};
ghost use Rattle.generation_engine.specs.Universe.{states_in_writes};
ghost use Rattle.stamped_tree.specs.Plane.{map_of};

use crate::soups::{CORNERS, Soup, in_the_middle, run};
use export::{Cut, Listed, cut_by_tiles, cut_on, export_by_tiles, export_in_room, export_next};
use generations_rule::Rule;
use pattern_cells::Window;
use samples::plane_of;
use stamped_tree::Plane;
use std::alloc::Global;
use std::test::Fail;

/// Rules of 2, 3, 4, 25 and 256 states.
static RULES: [&[u8]; 5] = [
    b"23/3/2",
    b"/2/3",
    b"345/2/4",
    b"012345678/12345678/25",
    b"12/34/256",
];

/// Whether tiles tell a generation by the same bytes as a universe.
fn is_one_text(alloc: Global, rule: &Rule, plane: &Plane, generation: u32) -> Result<bool, Fail>
    requires { HasStatesBelow rule.now.states (map_of plane.now) }
{
    let text = export_in_room(alloc, rule, plane, generation, 0x100_0000, 0x400_0000)?;
    match export_by_tiles(alloc, rule, plane, generation) {
        Some(Ok(by_tiles)) => Ok(by_tiles == text),
        _ => Ok(false),
    }
}

/// Of how many of a soup's first generations tiles tell what a universe tells.
fn told_alike(alloc: Global, soup: Soup, generations: u32) -> Result<u32, Fail> {
    let cells = run(alloc, soup, 0)?;
    let plane = plane_of(alloc, &soup.rule, &cells)?;
    let mut alike = 0_u32;
    for generation in 0..generations {
        if is_one_text(alloc, &soup.rule, &plane, generation)? {
            alike = alike.saturating_add(1);
        }
    }
    Ok(alike)
}

#[test]
fn tiles_tell_what_a_universe_tells(rt: HostRuntime) -> Result<(), Fail> {
    for rule in RULES {
        let soup = in_the_middle(rule, 0x50_0b5)?;
        assert_eq!(rt; told_alike(rt.alloc(), soup, 36)?, 36);
    }
    Ok(())
}

#[test]
fn tiles_tell_it_at_the_corners_of_the_plane_too(rt: HostRuntime) -> Result<(), Fail> {
    for middle in CORNERS {
        let soup = Soup {
            middle,
            ..in_the_middle(b"345/2/4", 7)?
        };
        assert_eq!(rt; told_alike(rt.alloc(), soup, 5)?, 5);
    }
    Ok(())
}

/// Whether what is listed of one generation goes on to another by the same bytes as a universe that is run anew.
fn goes_on(
    alloc: Global,
    rule: &Rule,
    plane: &Plane,
    generation: u32,
    kept: &mut Option<Listed>,
) -> Result<bool, Fail>
    requires states { HasStatesBelow rule.now.states (map_of plane.now) }
    requires kept { IfSome kept.old (IsListedOf rule.now (states_in_writes (map_of plane.now))) }
    ensures kept { IfOk result (λ _. IfSome kept.new (IsListedOf rule.now (states_in_writes (map_of plane.now)))) }
{
    let text = export_in_room(alloc, rule, plane, generation, 0x100_0000, 0x400_0000)?;
    match export_next(alloc, rule, plane, generation, kept) {
        Some(Ok(next)) => Ok(next == text),
        _ => Ok(false),
    }
}

/// Generations one after another, the same again, farther apart, and back.
static FILM: [u32; 9] = [0, 1, 2, 2, 3, 20, 36, 5, 6];

/// At how many of these generations what is listed goes on so, and whether nothing is left of it past the last one.
fn going_on(
    alloc: Global,
    rule: &Rule,
    plane: &Plane,
    generations: &[u32],
) -> Result<(usize, bool), Fail>
    requires { HasStatesBelow rule.now.states (map_of plane.now) }
{
    let mut kept = None;
    let mut alike = 0_usize;
    for generation in generations {
        if goes_on(alloc, rule, plane, *generation, &mut kept)? {
            alike = alike.saturating_add(1);
        }
    }
    let past = export_next(alloc, rule, plane, 0x2000_0001, &mut kept);
    Ok((alike, past.is_none() && kept.is_none()))
}

#[test]
fn tiles_go_on_from_what_they_listed(rt: HostRuntime) -> Result<(), Fail> {
    let alloc = rt.alloc();
    for text in RULES {
        let soup = in_the_middle(text, 0xf11_8)?;
        let cells = run(alloc, soup, 0)?;
        let plane = plane_of(alloc, &soup.rule, &cells)?;
        assert_eq!(rt; going_on(alloc, &soup.rule, &plane, &FILM)?, (9, true));
    }
    Ok(())
}

/// Windows that have all of a soup, a part, a corner, nothing, and no sides.
static WINDOWS: [Window; 5] = [
    Window {
        x: -200,
        y: -200,
        width: 400,
        height: 400,
    },
    Window {
        x: -7,
        y: 3,
        width: 9,
        height: 11,
    },
    Window {
        x: 0,
        y: 0,
        width: 0xffff_ffff,
        height: 0xffff_ffff,
    },
    Window {
        x: -0x8000_0000,
        y: 5,
        width: 20,
        height: 20,
    },
    Window {
        x: 0,
        y: 0,
        width: 0,
        height: 5,
    },
];

/// Whether tiles cut by the same bytes as a universe.
fn is_one_cut(alloc: Global, rule: &Rule, plane: &Plane, cut: Cut) -> Result<bool, Fail>
    requires { HasStatesBelow rule.now.states (map_of plane.now) }
{
    let mut none = None;
    let text = cut_on(alloc, rule, plane, cut, &mut none)?;
    match cut_by_tiles(alloc, rule, plane, cut) {
        Some(Ok(by_tiles)) => Ok(by_tiles == text),
        _ => Ok(false),
    }
}

#[test]
fn tiles_cut_what_a_universe_cuts(rt: HostRuntime) -> Result<(), Fail> {
    let alloc = rt.alloc();
    for text in RULES {
        let soup = in_the_middle(text, 0xc_07)?;
        let cells = run(alloc, soup, 0)?;
        let plane = plane_of(alloc, &soup.rule, &cells)?;
        for window in WINDOWS {
            for generation in [0, 1, 17] {
                let cut = Cut { window, generation };
                assert!(rt; is_one_cut(alloc, &soup.rule, &plane, cut)?);
            }
        }
    }
    Ok(())
}
