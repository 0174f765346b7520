//! Generations of known patterns.

ghost use Rattle.std.specs.Prelude.{◌≡◌, ◌≤◌};

use edit_stamps::{Cell, EditFault};
use generation_engine::{Engine, EngineFault};
use generations_rule::Rule;
use samples::{advances, takes};
use std::alloc::Global;
use std::test::Fail;

/// Three live cells in a row.
static BLINKER: [Cell; 3] = [
    Cell {
        x: 0,
        y: 0,
        state: 1,
    },
    Cell {
        x: 1,
        y: 0,
        state: 1,
    },
    Cell {
        x: 2,
        y: 0,
        state: 1,
    },
];

/// The same a generation later.
static UPRIGHT: [Cell; 3] = [
    Cell {
        x: 1,
        y: -1,
        state: 1,
    },
    Cell {
        x: 1,
        y: 0,
        state: 1,
    },
    Cell {
        x: 1,
        y: 1,
        state: 1,
    },
];

static GLIDER: [Cell; 5] = [
    Cell {
        x: 1,
        y: 0,
        state: 1,
    },
    Cell {
        x: 2,
        y: 1,
        state: 1,
    },
    Cell {
        x: 0,
        y: 2,
        state: 1,
    },
    Cell {
        x: 1,
        y: 2,
        state: 1,
    },
    Cell {
        x: 2,
        y: 2,
        state: 1,
    },
];

/// The same 2^29 generations later: in four generations it goes one cell to the right and down.
static FAR_GLIDER: [Cell; 5] = [
    Cell {
        x: 134_217_729,
        y: 134_217_728,
        state: 1,
    },
    Cell {
        x: 134_217_730,
        y: 134_217_729,
        state: 1,
    },
    Cell {
        x: 134_217_728,
        y: 134_217_730,
        state: 1,
    },
    Cell {
        x: 134_217_729,
        y: 134_217_730,
        state: 1,
    },
    Cell {
        x: 134_217_730,
        y: 134_217_730,
        state: 1,
    },
];

/// One live cell.
static ONE: [Cell; 1] = [Cell {
    x: 0,
    y: 0,
    state: 1,
}];

/// The same 254 generations later, where nothing is born and there are 256 states.
static OLD: [Cell; 1] = [Cell {
    x: 0,
    y: 0,
    state: 255,
}];

/// A blinker at the right edge of the plane, whose middle column is the plane's last.
static AT_THE_EDGE: [Cell; 3] = [
    Cell {
        x: 0x3fff_ffff,
        y: -0x4000_0000,
        state: 1,
    },
    Cell {
        x: 0x3fff_ffff,
        y: -0x3fff_ffff,
        state: 1,
    },
    Cell {
        x: 0x3fff_ffff,
        y: -0x3fff_fffe,
        state: 1,
    },
];

/// The same a generation later, partly outside the plane.
static PAST_THE_EDGE: [Cell; 3] = [
    Cell {
        x: 0x3fff_fffe,
        y: -0x3fff_ffff,
        state: 1,
    },
    Cell {
        x: 0x3fff_ffff,
        y: -0x3fff_ffff,
        state: 1,
    },
    Cell {
        x: 0x4000_0000,
        y: -0x3fff_ffff,
        state: 1,
    },
];

/// A blinker of Life, turned with each generation.
fn turns(alloc: Global, engine: &mut Engine, rule: &Rule) -> Result<bool, EditFault>
    requires { engine.old.rule ≡ rule.now }
{
    let loaded = takes(alloc, engine, rule, &BLINKER)?;
    let one = advances(engine, 1, 1, &UPRIGHT)?;
    let three = advances(engine, 2, 3, &UPRIGHT)?;
    let four = advances(engine, 1, 4, &BLINKER)?;
    Ok(loaded && one && three && four)
}

fn turns_within(alloc: Global, rule: Rule, nodes: u32) -> Result<bool, EditFault>
    requires { 64 ≤ nodes }
{
    let mut engine = Engine::with_room(alloc, rule, nodes)?;
    turns(alloc, &mut engine, &rule)
}

fn turns_anew(alloc: Global, rule: Rule) -> Result<bool, EditFault> {
    let mut engine = Engine::new(alloc, rule)?;
    turns(alloc, &mut engine, &rule)
}

#[test]
fn a_blinker_turns(rt: HostRuntime) -> Result<(), Fail> {
    let life = Rule::parse(b"23/3/2")?;
    assert!(rt; turns_anew(rt.alloc(), life)?);
    assert!(rt; turns_within(rt.alloc(), life, 0x400_0000)?);
    assert!(rt; turns_within(rt.alloc(), life, 0x10_0000)?);
    Ok(())
}

/// Whether some cells become others in so many generations, and no generation follows the last.
fn becomes(
    alloc: Global,
    rule: Rule,
    cells: &[Cell],
    generations: u32,
    later: &[Cell],
) -> Result<bool, EditFault> {
    let mut engine = Engine::new(alloc, rule)?;
    becomes_in(alloc, &mut engine, &rule, cells, generations, later)
}

fn becomes_in(
    alloc: Global,
    engine: &mut Engine,
    rule: &Rule,
    cells: &[Cell],
    generations: u32,
    later: &[Cell],
) -> Result<bool, EditFault>
    requires { engine.old.rule ≡ rule.now }
{
    let loaded = takes(alloc, engine, rule, cells)?;
    let run = advances(engine, generations, generations, later)?;
    Ok(loaded && run)
}

#[test]
fn a_blinker_runs_to_the_last_generation(rt: HostRuntime) -> Result<(), Fail> {
    let life = Rule::parse(b"23/3/2")?;
    assert!(rt; becomes(rt.alloc(), life, &BLINKER, 0x2000_0000, &BLINKER)?);
    assert!(rt; becomes(rt.alloc(), life, &BLINKER, 0x1fff_ffff, &UPRIGHT)?);
    Ok(())
}

#[test]
fn a_glider_runs_to_the_last_generation(rt: HostRuntime) -> Result<(), Fail> {
    let life = Rule::parse(b"23/3/2")?;
    assert!(rt; becomes(rt.alloc(), life, &GLIDER, 0x2000_0000, &FAR_GLIDER)?);
    Ok(())
}

#[test]
fn cells_leave_the_plane(rt: HostRuntime) -> Result<(), Fail> {
    let life = Rule::parse(b"23/3/2")?;
    assert!(rt; becomes(rt.alloc(), life, &AT_THE_EDGE, 1, &PAST_THE_EDGE)?);
    assert!(rt; becomes(rt.alloc(), life, &AT_THE_EDGE, 3, &PAST_THE_EDGE)?);
    Ok(())
}

/// A cell that ages and dies, and then the generations to the last, and one more.
fn ages(alloc: Global, engine: &mut Engine, rule: &Rule) -> Result<bool, EditFault>
    requires { engine.old.rule ≡ rule.now }
{
    let loaded = takes(alloc, engine, rule, &ONE)?;
    let oldest = advances(engine, 254, 254, &OLD)?;
    let gone = advances(engine, 1, 255, &[])?;
    let last = advances(engine, 536_870_657, 0x2000_0000, &[])?;
    let none = advances(engine, 0, 0x2000_0000, &[])?;
    let past = engine.run(1) == Err(EngineFault::GenRange);
    Ok(loaded && oldest && gone && last && none && past)
}

fn new_engine_ages(alloc: Global, rule: Rule) -> Result<bool, EditFault> {
    let mut engine = Engine::new(alloc, rule)?;
    ages(alloc, &mut engine, &rule)
}

#[test]
fn a_cell_ages_through_all_states(rt: HostRuntime) -> Result<(), Fail> {
    assert!(rt; new_engine_ages(rt.alloc(), Rule::parse(b"//256")?)?);
    Ok(())
}

/// Whether runs past the last generation are refused, and the cells and the generation stay.
fn refuses_to_run(alloc: Global, engine: &mut Engine, rule: &Rule) -> Result<bool, EditFault>
    requires { engine.old.rule ≡ rule.now }
{
    let loaded = takes(alloc, engine, rule, &BLINKER)?;
    let first = engine.run(0x2000_0001) == Err(EngineFault::GenRange);
    let stays = advances(engine, 0, 0, &BLINKER)?;
    let one = advances(engine, 1, 1, &UPRIGHT)?;
    let second = engine.run(0x2000_0000) == Err(EngineFault::GenRange);
    let third = engine.run(0xffff_ffff) == Err(EngineFault::GenRange);
    let still = advances(engine, 0, 1, &UPRIGHT)?;
    let last = advances(engine, 0x1fff_ffff, 0x2000_0000, &BLINKER)?;
    Ok(loaded && first && stays && one && second && third && still && last)
}

fn new_engine_refuses(alloc: Global, rule: Rule) -> Result<bool, EditFault> {
    let mut engine = Engine::new(alloc, rule)?;
    refuses_to_run(alloc, &mut engine, &rule)
}

#[test]
fn no_run_passes_the_last_generation(rt: HostRuntime) -> Result<(), Fail> {
    assert!(rt; new_engine_refuses(rt.alloc(), Rule::parse(b"23/3/2")?)?);
    Ok(())
}

/// What was computed of one pattern does not show in the next.
fn starts_anew(alloc: Global, engine: &mut Engine, rule: &Rule) -> Result<bool, EditFault>
    requires { engine.old.rule ≡ rule.now }
{
    let glider = takes(alloc, engine, rule, &GLIDER)?;
    let far = advances(engine, 0x2000_0000, 0x2000_0000, &FAR_GLIDER)?;
    let blinker = takes(alloc, engine, rule, &BLINKER)?;
    let turned = advances(engine, 0x1fff_ffff, 0x1fff_ffff, &UPRIGHT)?;
    let again = takes(alloc, engine, rule, &GLIDER)?;
    let back = advances(engine, 0x2000_0000, 0x2000_0000, &FAR_GLIDER)?;
    Ok(glider && far && blinker && turned && again && back)
}

fn loads_anew(alloc: Global, rule: Rule) -> Result<bool, EditFault> {
    let mut engine = Engine::new(alloc, rule)?;
    starts_anew(alloc, &mut engine, &rule)
}

#[test]
fn a_loaded_pattern_starts_anew(rt: HostRuntime) -> Result<(), Fail> {
    assert!(rt; loads_anew(rt.alloc(), Rule::parse(b"23/3/2")?)?);
    Ok(())
}

/// What a blinker does in a room: with too little it stays as it was loaded, and the store is full.
fn runs_within(alloc: Global, rule: Rule, nodes: u32) -> Result<Option<bool>, EditFault>
    requires { 64 ≤ nodes }
{
    let mut engine = Engine::with_room(alloc, rule, nodes)?;
    runs_or_stays(alloc, &mut engine, &rule)
}

fn runs_or_stays(alloc: Global, engine: &mut Engine, rule: &Rule) -> Result<Option<bool>, EditFault>
    requires { engine.old.rule ≡ rule.now }
{
    let loaded = takes(alloc, engine, rule, &BLINKER)?;
    if engine.run(3) == Err(EngineFault::StoreFull) {
        let stays = advances(engine, 0, 0, &BLINKER)?;
        return Ok(if loaded && stays { None } else { Some(false) });
    }
    let ran = advances(engine, 0, 3, &UPRIGHT)?;
    Ok(Some(loaded && ran))
}

/// The least room in which a blinker runs, if it stays as it was in each that is less; 64 is the least
/// that there is.
fn least_room(alloc: Global, rule: Rule) -> Result<u32, EditFault> {
    for nodes in 64..4096u32 {
        match runs_within(alloc, rule, nodes)? {
            None => {}
            Some(true) => return Ok(nodes),
            Some(false) => return Ok(0),
        }
    }
    Ok(0)
}

#[test]
fn a_full_store_refuses_to_run(rt: HostRuntime) -> Result<(), Fail> {
    let nodes = least_room(rt.alloc(), Rule::parse(b"23/3/2")?)?;
    assert!(rt; nodes > 64);
    Ok(())
}

/// Whether a universe without a cell runs to the last generation.
fn stays_empty(alloc: Global, rule: Rule) -> Result<bool, EditFault> {
    let mut engine = Engine::new(alloc, rule)?;
    let last = advances(&mut engine, 0x2000_0000, 0x2000_0000, &[])?;
    Ok(last)
}

#[test]
fn nothing_comes_of_nothing(rt: HostRuntime) -> Result<(), Fail> {
    assert!(rt; stays_empty(rt.alloc(), Rule::parse(b"/2/3")?)?);
    Ok(())
}

#[test]
fn faults_have_numbers(rt: HostRuntime) -> Result<(), Fail> {
    assert_eq!(rt; EngineFault::GenRange.number(), 22);
    assert_eq!(rt; EngineFault::StoreFull.number(), 13);
    assert_eq!(rt; EngineFault::Memory.number(), 255);
    Ok(())
}
