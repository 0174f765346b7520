//! Universes and exports.

ghost use Rattle.std.specs.Prelude.{◌≡◌, IfOk};
ghost use Rattle.edit_stamps.specs.PlaneMap.{HasStatesBelow};
ghost use Rattle.stamped_tree.specs.Plane.{map_of};

use crate::memory::{is_fault, planes, states, tell_all};
use delta_exchange::Message;
use export::ExportFault::{GenRange, TooManyCells};
use export::{ExportFault, export, export_within};
use generation_engine::{Engine, EngineFault, StoreFault};
use generations_rule::Rule;
use pattern_cells::Cell;
use stamped_tree::Plane;
use std::alloc::{AllocError, Global};
use std::io;

/// States 2 and 3 side by side: dead two generations later.
const DYING: [Cell; 2] = cells![(0, 0, 2), (1, 0, 3)];

/// Two live cells side by side.
pub const PAIR: [Cell; 2] = cells![(0, 0, 1), (1, 0, 1)];

/// A blinker that lies, and one that stands.
const LYING: [Cell; 3] = cells![(0, 0, 1), (1, 0, 1), (2, 0, 1)];

const STANDING: [Cell; 3] = cells![(1, -1, 1), (1, 0, 1), (1, 1, 1)];

/// A blinker in the plane's upper right corner.
const CORNER: [Cell; 3] = cells![
    (1_073_741_823, -1_073_741_824, 1),
    (1_073_741_823, -1_073_741_823, 1),
    (1_073_741_823, -1_073_741_822, 1)
];

/// What these are exported as.
const DEAD_SOON: &str = "#CXRLE Pos=0,0 Gen=1\nx = 1, y = 1, rule = 345/2/4\nC!\n";

const PAIR_0: &str = "#CXRLE Pos=0,0 Gen=0\nx = 2, y = 1, rule = /2/3\n2A!\n";

const PAIR_1: &str = "#CXRLE Pos=0,-1 Gen=1\nx = 2, y = 3, rule = /2/3\n2A$2B$2A!\n";

const PAIR_2: &str = "#CXRLE Pos=-1,-2 Gen=2\nx = 4, y = 5, rule = /2/3\n.2A$.2B$A2.A$.2B$.2A!\n";

const CORNER_0: &str =
    "#CXRLE Pos=1073741823,-1073741824 Gen=0\nx = 1, y = 3, rule = 23/3/2\no$o$o!\n";

const CORNER_1: &str =
    "#CXRLE Pos=1073741822,-1073741823 Gen=1\nx = 3, y = 1, rule = 23/3/2\n3o!\n";

const CORNER_3: &str =
    "#CXRLE Pos=1073741822,-1073741823 Gen=3\nx = 3, y = 1, rule = 23/3/2\n3o!\n";

/// One past the last generation.
pub const PAST: u32 = 536_870_913;

/// An export, and what it gives.
struct Export {
    rule: &'static [u8],
    cells: &'static [Cell],
    generation: u32,
    /// How many cells at most, where that is told.
    limit: Option<u64>,
    text: Result<&'static str, ExportFault>,
}

const OF_DYING: Export = Export {
    rule: b"345/2/4",
    cells: &DYING,
    generation: 1,
    limit: None,
    text: Ok(DEAD_SOON),
};

const OF_PAIR: Export = Export {
    rule: b"/2/3",
    cells: &PAIR,
    generation: 0,
    text: Ok(PAIR_0),
    ..OF_DYING
};

const OF_CORNER: Export = Export {
    rule: b"23/3/2",
    cells: &CORNER,
    generation: 0,
    text: Ok(CORNER_0),
    ..OF_DYING
};

static EXPORTS: [Export; 11] = [
    OF_DYING,
    OF_PAIR,
    Export {
        generation: 1,
        text: Ok(PAIR_1),
        ..OF_PAIR
    },
    Export {
        generation: 2,
        text: Ok(PAIR_2),
        ..OF_PAIR
    },
    Export {
        generation: PAST,
        text: Err(GenRange),
        ..OF_PAIR
    },
    OF_CORNER,
    Export {
        generation: 1,
        text: Ok(CORNER_1),
        ..OF_CORNER
    },
    Export {
        generation: 3,
        text: Ok(CORNER_3),
        ..OF_CORNER
    },
    Export {
        limit: Some(2),
        text: Err(TooManyCells),
        ..OF_CORNER
    },
    Export {
        limit: Some(3),
        ..OF_CORNER
    },
    Export {
        generation: PAST,
        limit: Some(2),
        text: Err(GenRange),
        ..OF_CORNER
    },
];

pub fn tell_calls(rt: &impl Print, alloc: Global) -> io::Result<()> {
    tell_all(
        rt,
        "engines",
        &[
            ("Engine::new, load, cells", plane_is_loaded(alloc)),
            ("Engine::run", universe_is_run(alloc)),
            ("Engine::run again", blinker_blinks(alloc, None)),
            ("Engine::with_room", blinker_blinks(alloc, Some(0x10_0000))),
            ("Engine::load refused", room_is_too_small(alloc)),
            ("export, export_within", are_exported(alloc)),
        ],
    )
}

/// An engine, with room for so many squares where that is told.
fn begun(alloc: Global, rule: Rule, room: Option<u32>) -> Result<Engine, AllocError>
    ensures { IfOk result (λ engine. engine.rule ≡ rule) }
{
    match room {
        Some(nodes) if nodes >= 64 => Engine::with_room(alloc, rule, nodes),
        _ => Engine::new(alloc, rule),
    }
}

/// The same, of no cells.
fn engine(alloc: Global, rule: Rule, room: Option<u32>) -> Result<Engine, AllocError>
    ensures { IfOk result (λ engine. engine.rule ≡ rule) }
{
    match begun(alloc, rule, room) {
        Ok(engine) => Ok(engine),
        Err(AllocError) => begun(alloc, rule, room),
    }
}

/// Whether an engine has these cells at a generation.
fn has(engine: &Engine, generation: u32, listed: &[Cell]) -> bool {
    engine.generation() == generation
        && engine.population() == listed.len() as u128
        && match again!(AllocError, engine.cells()) {
            Ok(cells) => cells.as_slice() == listed,
            Err(AllocError) => false,
        }
}

/// Loads a plane. Where memory is refused, the engine has no cells still.
fn load(engine: &mut Engine, plane: &Plane) -> Result<(), StoreFault>
    requires { HasStatesBelow engine.old.rule.states (map_of plane.now) }
{
    match engine.load(plane) {
        Err(StoreFault::Memory) if has(engine, 0, &[]) => engine.load(plane),
        answer => answer,
    }
}

/// An engine into which the plane of a message is loaded.
fn loaded_of(alloc: Global, message: &Message) -> Option<Engine> {
    let plane = message.plane()?;
    let mut engine = engine(alloc, message.rule(), None).ok()?;
    if has(&engine, 0, &[]) && load(&mut engine, plane).is_ok() {
        Some(engine)
    } else {
        None
    }
}

/// The same of the state of the row of states 2, 3 and 0.
fn loaded(alloc: Global) -> Option<Engine> {
    loaded_of(alloc, &states::state(alloc)?)
}

fn plane_is_loaded(alloc: Global) -> bool {
    let Some(engine) = loaded(alloc) else {
        return false;
    };
    has(&engine, 0, &DYING)
}

/// Runs an engine that has some cells at a generation. Where memory is refused it has them still.
fn run(engine: &mut Engine, generation: u32, listed: &[Cell], generations: u32) -> bool {
    let answer = again!(
        EngineFault::Memory if has(engine, generation, listed),
        engine.run(generations)
    );
    answer.is_ok()
}

fn universe_is_run(alloc: Global) -> bool {
    let Some(mut engine) = loaded(alloc) else {
        return false;
    };
    run(&mut engine, 0, &DYING, 5) && has(&engine, 5, &[])
}

/// Whether an engine of a blinker runs on as one: 1, 2, 1 and 2^29 - 4 generations, and no further.
fn blinks(engine: &mut Engine) -> bool {
    run(engine, 0, &LYING, 1)
        && has(engine, 1, &STANDING)
        && run(engine, 1, &STANDING, 2)
        && has(engine, 3, &STANDING)
        && run(engine, 3, &STANDING, 1)
        && has(engine, 4, &LYING)
        && run(engine, 4, &LYING, 536_870_908)
        && has(engine, 536_870_912, &LYING)
        && is_fault(engine.run(1), EngineFault::GenRange)
}

fn blinker_blinks(alloc: Global, room: Option<u32>) -> bool {
    let Ok(rule) = Rule::parse(b"23/3/2") else {
        return false;
    };
    let Some(plane) = planes::plane(alloc, &rule, &LYING) else {
        return false;
    };
    let Ok(mut engine) = engine(alloc, rule, room) else {
        return false;
    };
    load(&mut engine, &plane).is_ok() && blinks(&mut engine)
}

/// Cells far apart, of which each wants a leaf of its own.
fn far_apart() -> [Cell; 64] {
    let mut cells = [cell!(0, 0, 1); 64];
    for (place, cell) in cells.iter_mut().enumerate() {
        let place = (place & 63) as i32;
        cell.x = 16 * place + place % 8;
        cell.y = place / 8;
    }
    cells
}

/// An engine that has no room for a plane has no cells then.
fn room_is_too_small(alloc: Global) -> bool {
    let Ok(rule) = Rule::parse(b"/2/3") else {
        return false;
    };
    let Some(plane) = planes::plane(alloc, &rule, &far_apart()) else {
        return false;
    };
    let Ok(mut engine) = engine(alloc, rule, Some(64)) else {
        return false;
    };
    let end = load(&mut engine, &plane);
    end == Err(StoreFault::StoreFull) && has(&engine, 0, &[])
}

fn are_exported(alloc: Global) -> bool {
    for row in &EXPORTS {
        if !is_exported(alloc, row) {
            return false;
        }
    }
    true
}

fn exported(alloc: Global, rule: &Rule, plane: &Plane, row: &Export) -> Result<Vec<u8>, ExportFault>
    requires { HasStatesBelow rule.now.states (map_of plane.now) }
{
    match row.limit {
        None => export(alloc, rule, plane, row.generation),
        Some(limit) => export_within(alloc, rule, plane, row.generation, limit),
    }
}

fn is_exported(alloc: Global, row: &Export) -> bool {
    let Ok(rule) = Rule::parse(row.rule) else {
        return false;
    };
    let Some(plane) = planes::plane(alloc, &rule, row.cells) else {
        return false;
    };
    let answer = again!(ExportFault::Memory, exported(alloc, &rule, &plane, row));
    is_text(&answer, &row.text)
}

fn is_text(answer: &Result<Vec<u8>, ExportFault>, meant: &Result<&str, ExportFault>) -> bool {
    match (answer, meant) {
        (Ok(text), Ok(meant)) => text.as_slice() == meant.as_bytes(),
        (Err(fault), Err(meant)) => *fault == *meant,
        _ => false,
    }
}
