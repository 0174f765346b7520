//! Windows of later generations, and how many cells there are then.

ghost use Rattle.std.specs.Prelude.{◌≡◌, ◌^◌, ◌≤◌, ◌⊎◌, true, filter, length, IfErr, IfOk, IfSome, Ok, Err};
ghost use Rattle.std.specs.List.{list_all};
ghost use Rattle.edit_stamps.specs.PlaneMap.{HasStatesBelow};
ghost use Rattle.pattern_cells.specs.Cells.{place_of};
ghost use Rattle.pattern_cells.specs.Window.{is_in_span, is_in_window};
ghost use Rattle.square_store.specs.Limits.{usual_room};
ghost use Rattle.stamped_tree.specs.Plane.{map_of};
ghost use Rattle.generation_engine.specs.Universe.{states_in_writes};
ghost use Rattle.generation_engine.specs.Walk.{is_in_middle};
ghost use Rattle.export.specs.Asking.{CountsAt, IsCount, IsCountRefused, IsCut, IsCutRefused, area_of, seen_at};
ghost use Rattle.export.specs.Export.{AreListed, IsRoomWanted, IsWant, most_cells};
ghost use Rattle.export.specs.Kept.{IsListedOf, IsRunOf};

use crate::by_tiles::{Listed, are_in_middle, listed_at};
use crate::exporting::{LAST_GENERATION, MOST_CELLS, engine_at};
use crate::fault::ExportFault;
use crate::kept::universe_at;
use edit_stamps::Rect;
use generation_engine::Engine;
use generations_rule::Rule;
use multistate_rle::write;
use pattern_cells::{Cell, Window};
use square_store::ROOM;
use stamped_tree::Plane;
use std::alloc::{AllocError, Global};

/// What is cut out: the cells in a window, so many generations later.
#[derive(Clone, Copy, Debug, PartialEq, Eq)]
pub struct Cut {
    pub window: Window,
    pub generation: u32,
}

/// How many cells are not dead, and the least window that has them; none where all are dead.
#[derive(Clone, Copy, Debug, PartialEq, Eq)]
pub struct Count {
    pub cells: u128,
    pub extent: Option<Window>,
}

/// The cells of a plane in a window some generations later, as `export` gives those of the whole plane: the
/// position, the box and the limit of 2^24 cells are of those in the window. First of all `GenRange` is answered,
/// exactly where the generation is greater than 2^29, then `TooManyCells`. The universe that an earlier call left
/// for the plane is run on from where it is, unless the generation is earlier.
pub fn cut_on(
    alloc: Global,
    rule: &Rule,
    plane: &Plane,
    cut: Cut,
    kept: &mut Option<Engine>,
) -> Result<Vec<u8>, ExportFault>
    requires states { HasStatesBelow rule.now.states (map_of plane.now) }
    requires kept { IfSome kept.old (IsRunOf rule.now (states_in_writes (map_of plane.now))) }
    ensures text { IfOk result (λ text. IsCut rule.now (states_in_writes (map_of plane.now)) cut.window cut.generation most_cells (Ok text.items)) }
    ensures err { IfErr result (IsCutRefused rule.now (states_in_writes (map_of plane.now)) cut.window cut.generation most_cells) }
    ensures full { result ≡ Err ExportFault.StoreFull → IsRoomWanted rule.now plane.now cut.generation usual_room }
    ensures kept { IfSome kept.new (IsRunOf rule.now (states_in_writes (map_of plane.now))) }
{
    if cut.generation > LAST_GENERATION {
        return Err(ExportFault::GenRange);
    }
    let engine = universe_on(alloc, rule, plane, cut.generation, kept.take())?;
    let cells = cells_seen(rule, plane, cut, &engine);
    *kept = Some(engine);
    let text = write(alloc, rule, u64::from(cut.generation), &cells?)?;
    Ok(text)
}

/// How many cells of a plane are not dead some generations later, and the least window that has them. `GenRange`
/// is answered exactly where the generation is greater than 2^29. The universe that an earlier call left for the
/// plane is run on from where it is, unless the generation is earlier.
pub fn count_on(
    alloc: Global,
    rule: &Rule,
    plane: &Plane,
    generation: u32,
    kept: &mut Option<Engine>,
) -> Result<Count, ExportFault>
    requires states { HasStatesBelow rule.now.states (map_of plane.now) }
    requires kept { IfSome kept.old (IsRunOf rule.now (states_in_writes (map_of plane.now))) }
    ensures count { IfOk result (λ count. IsCount rule.now (states_in_writes (map_of plane.now)) generation (Ok count)) }
    ensures err { IfErr result (IsCountRefused rule.now (states_in_writes (map_of plane.now)) generation) }
    ensures full { result ≡ Err ExportFault.StoreFull → IsRoomWanted rule.now plane.now generation usual_room }
    ensures kept { IfSome kept.new (IsRunOf rule.now (states_in_writes (map_of plane.now))) }
{
    if generation > LAST_GENERATION {
        return Err(ExportFault::GenRange);
    }
    let engine = universe_on(alloc, rule, plane, generation, kept.take())?;
    let count = counted(rule, plane, generation, &engine);
    *kept = Some(engine);
    Ok(count)
}

/// `cut_on` without a universe that was left: by tiles, and where these do not tell it by a new universe.
pub fn cut_out(alloc: Global, rule: &Rule, plane: &Plane, cut: Cut) -> Result<Vec<u8>, ExportFault>
    requires { HasStatesBelow rule.now.states (map_of plane.now) }
    ensures text { IfOk result (λ text. IsCut rule.now (states_in_writes (map_of plane.now)) cut.window cut.generation most_cells (Ok text.items)) }
    ensures err { IfErr result (IsCutRefused rule.now (states_in_writes (map_of plane.now)) cut.window cut.generation most_cells) }
    ensures full { result ≡ Err ExportFault.StoreFull → IsRoomWanted rule.now plane.now cut.generation usual_room }
{
    match cut_by_tiles(alloc, rule, plane, cut) {
        Some(answer) => answer,
        None => {
            let mut none = None;
            cut_on(alloc, rule, plane, cut, &mut none)
        }
    }
}

/// `cut_on`, where tiles tell it; none where a universe is to be run.
pub fn cut_by_tiles(
    alloc: Global,
    rule: &Rule,
    plane: &Plane,
    cut: Cut,
) -> Option<Result<Vec<u8>, ExportFault>>
    requires { HasStatesBelow rule.now.states (map_of plane.now) }
    ensures text { IfSome result (λ answer. IfOk answer (λ text. IsCut rule.now (states_in_writes (map_of plane.now)) cut.window cut.generation most_cells (Ok text.items))) }
    ensures err { IfSome result (λ answer. IfErr answer (IsCutRefused rule.now (states_in_writes (map_of plane.now)) cut.window cut.generation most_cells)) }
    ensures not_full { IfSome result (λ answer. IfErr answer (λ fault. (fault ≡ ExportFault.TooManyCells) ⊎ (fault ≡ ExportFault.Memory))) }
{
    if cut.generation == 0 {
        if let Some(cells) = seen_now(rule, plane, cut.window) {
            return Some(text_of_seen(alloc, rule, plane, cut, &cells));
        }
    }
    let listed = listed_at(alloc, rule, plane, cut.generation, None)?;
    Some(text_seen(alloc, rule, plane, cut.window, &listed))
}

/// What a window of at most 2^24 places shows of a plane as it is. Only squares that it meets are gone through. None where it
/// has more places, whose cells are counted before they are listed, or where the system refuses memory.
fn seen_now(rule: &Rule, plane: &Plane, window: Window) -> Option<Vec<Cell>>
    requires { HasStatesBelow rule.now.states (map_of plane.now) }
    ensures { IfSome result (λ cells. AreListed rule.now (seen_at rule.now (states_in_writes (map_of plane.now)) window 0) most_cells cells.items) }
{
    // For the proof alone: the call tells that what is held is a rule.
    let _states = rule.states();
    if places_in(window) > MOST_CELLS {
        return None;
    }
    let Ok(cells) = plane.walk_in(&[area_of(window)]) else {
        return None;
    };
    if cells.len() as u64 <= MOST_CELLS && are_in_middle(&cells) {
        Some(cells)
    } else {
        None
    }
}

/// How many places a window has.
fn places_in(window: Window) -> u64 {
    u64::from(window.width).saturating_mul(u64::from(window.height))
}

fn area_of(window: Window) -> Rect
    ensures { result ≡ area_of window }
{
    Rect {
        x: window.x,
        y: window.y,
        width: window.width,
        height: window.height,
    }
}

/// The text of what a window shows at a generation.
fn text_of_seen(
    alloc: Global,
    rule: &Rule,
    plane: &Plane,
    cut: Cut,
    cells: &[Cell],
) -> Result<Vec<u8>, ExportFault>
    requires states { HasStatesBelow rule.now.states (map_of plane.now) }
    requires generation { cut.generation ≤ 2 ^ 29 }
    requires cells { AreListed rule.now (seen_at rule.now (states_in_writes (map_of plane.now)) cut.window cut.generation) most_cells cells.now }
    ensures text { IfOk result (λ text. IsCut rule.now (states_in_writes (map_of plane.now)) cut.window cut.generation most_cells (Ok text.items)) }
    ensures err { IfErr result (IsCutRefused rule.now (states_in_writes (map_of plane.now)) cut.window cut.generation most_cells) }
    ensures not_full { IfErr result (λ fault. (fault ≡ ExportFault.TooManyCells) ⊎ (fault ≡ ExportFault.Memory)) }
{
    let text = write(alloc, rule, u64::from(cut.generation), cells)?;
    Ok(text)
}

/// The text of what a window shows of cells that are listed.
fn text_seen(
    alloc: Global,
    rule: &Rule,
    plane: &Plane,
    window: Window,
    listed: &Listed,
) -> Result<Vec<u8>, ExportFault>
    requires states { HasStatesBelow rule.now.states (map_of plane.now) }
    requires listed { IsListedOf rule.now (states_in_writes (map_of plane.now)) listed.now }
    requires inside { list_all (λ cell. is_in_middle (place_of cell)) listed.now.cells.items ≡ true }
    requires generation { listed.now.generation ≤ 2 ^ 29 }
    ensures text { IfOk result (λ text. IsCut rule.now (states_in_writes (map_of plane.now)) window listed.now.generation most_cells (Ok text.items)) }
    ensures err { IfErr result (IsCutRefused rule.now (states_in_writes (map_of plane.now)) window listed.now.generation most_cells) }
    ensures not_full { IfErr result (λ fault. (fault ≡ ExportFault.TooManyCells) ⊎ (fault ≡ ExportFault.Memory)) }
{
    let cells = listed_seen(alloc, rule, plane, window, listed)?;
    let cut = Cut {
        window,
        generation: listed.generation,
    };
    text_of_seen(alloc, rule, plane, cut, &cells)
}

/// What a window shows of cells that are listed, if they are at most 2^24. They are counted before memory is taken.
fn listed_seen(
    alloc: Global,
    rule: &Rule,
    plane: &Plane,
    window: Window,
    listed: &Listed,
) -> Result<Vec<Cell>, ExportFault>
    requires states { HasStatesBelow rule.now.states (map_of plane.now) }
    requires listed { IsListedOf rule.now (states_in_writes (map_of plane.now)) listed.now }
    requires inside { list_all (λ cell. is_in_middle (place_of cell)) listed.now.cells.items ≡ true }
    requires generation { listed.now.generation ≤ 2 ^ 29 }
    ensures cells { IfOk result (λ cells. AreListed rule.now (seen_at rule.now (states_in_writes (map_of plane.now)) window listed.now.generation) most_cells cells.items) }
    ensures err { IfErr result (IsCutRefused rule.now (states_in_writes (map_of plane.now)) window listed.now.generation most_cells) }
    ensures not_full { IfErr result (λ fault. (fault ≡ ExportFault.TooManyCells) ⊎ (fault ≡ ExportFault.Memory)) }
{
    // For the proof alone: the call tells that what is held is a rule.
    let _states = rule.states();
    let count = count_in_window(&listed.cells, window);
    if count as u64 > MOST_CELLS {
        return Err(ExportFault::TooManyCells);
    }
    let seen = cells_in_window(alloc, &listed.cells, window, count)?;
    Ok(seen)
}

/// How many cells lie in a window.
fn count_in_window(cells: &[Cell], window: Window) -> usize
    ensures { result ≡ length (filter (λ cell. is_in_window window (place_of cell)) cells.now) }
{
    cells
        .iter()
        .filter(|cell| is_in_window(window, cell))
        .count()
}

/// The cells that lie in a window, in their order. Memory is taken once, for so many.
fn cells_in_window(
    alloc: Global,
    cells: &[Cell],
    window: Window,
    count: usize,
) -> Result<Vec<Cell>, AllocError>
    ensures { IfOk result (λ seen. seen.items ≡ filter (λ cell. is_in_window window (place_of cell)) cells.now) }
{
    let mut seen = Vec::with_capacity(alloc, count)?;
    for cell in cells {
        if is_in_window(window, cell) {
            seen.push(*cell)?;
        }
    }
    Ok(seen)
}

/// Whether a cell lies in a window.
fn is_in_window(window: Window, cell: &Cell) -> bool
    ensures { result ≡ is_in_window window (place_of cell.now) }
{
    is_in_span(window.x, window.width, cell.x) && is_in_span(window.y, window.height, cell.y)
}

/// Whether a coordinate is one of so many, from a first one on.
fn is_in_span(first: i32, count: u32, coordinate: i32) -> bool
    ensures { result ≡ is_in_span first count coordinate }
{
    first <= coordinate && i64::from(coordinate) < i64::from(first) + i64::from(count)
}

/// A universe of a plane at a generation: the one that is given, where it is not past it, run on. Where that finds
/// no room or no memory, it is given back, and a new one is run: `StoreFull` where its room of 2^26 squares does not do, else
/// want of memory. The generation is one.
pub fn universe_on(
    alloc: Global,
    rule: &Rule,
    plane: &Plane,
    generation: u32,
    given: Option<Engine>,
) -> Result<Engine, ExportFault>
    requires states { HasStatesBelow rule.now.states (map_of plane.now) }
    requires given { IfSome given (IsRunOf rule.now (states_in_writes (map_of plane.now))) }
    requires generation { generation ≤ 2 ^ 29 }
    ensures run { IfOk result (IsRunOf rule.now (states_in_writes (map_of plane.now))) }
    ensures at { IfOk result (λ engine. engine.generation ≡ generation) }
    ensures err { IfErr result IsWant }
    ensures full { result ≡ Err ExportFault.StoreFull → IsRoomWanted rule.now plane.now generation usual_room }
{
    match universe_at(alloc, rule, plane, generation, given) {
        Ok(engine) => Ok(engine),
        Err(_) => engine_at(alloc, rule, plane, generation, ROOM),
    }
}

/// The cells that a universe of a plane shows in a window, if they are at most 2^24. They are counted before they
/// are listed.
fn cells_seen(
    rule: &Rule,
    plane: &Plane,
    cut: Cut,
    engine: &Engine,
) -> Result<Vec<Cell>, ExportFault>
    requires states { HasStatesBelow rule.now.states (map_of plane.now) }
    requires run { IsRunOf rule.now (states_in_writes (map_of plane.now)) engine.now }
    requires at { engine.now.generation ≡ cut.generation }
    requires generation { cut.generation ≤ 2 ^ 29 }
    ensures cells { IfOk result (λ cells. AreListed rule.now (seen_at rule.now (states_in_writes (map_of plane.now)) cut.window cut.generation) most_cells cells.items) }
    ensures err { IfErr result (IsCutRefused rule.now (states_in_writes (map_of plane.now)) cut.window cut.generation most_cells) }
    ensures not_full { IfErr result (λ fault. (fault ≡ ExportFault.TooManyCells) ⊎ (fault ≡ ExportFault.Memory)) }
{
    // For the proof alone: the call tells that what is held is a rule.
    let _states = rule.states();
    if engine.population_in(cut.window) > u128::from(MOST_CELLS) {
        return Err(ExportFault::TooManyCells);
    }
    let cells = engine.cells_in(cut.window)?;
    Ok(cells)
}

/// How many cells a universe of a plane shows, and where. The rule and the plane are named in the contract alone.
fn counted(rule: &Rule, plane: &Plane, generation: u32, engine: &Engine) -> Count
    requires run { IsRunOf rule.now (states_in_writes (map_of plane.now)) engine.now }
    requires at { engine.now.generation ≡ generation }
    ensures { CountsAt rule.now (states_in_writes (map_of plane.now)) generation result }
{
    Count {
        cells: engine.population(),
        extent: engine.extent(),
    }
}
