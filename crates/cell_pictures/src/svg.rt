//! Cells as SVG.

ghost use Rattle.std.specs.Prelude.{◌≡◌, ◌≤◌, ◌<◌, ◌+◌, ◌-◌, IfOk, OnErr};
ghost use Rattle.devices.specs.Count.{one_more};
ghost use Rattle.pattern_cells.specs.Cells.{place_of};
ghost use Rattle.cell_pictures.specs.Drawn.{IsDrawn};
ghost use Rattle.cell_pictures.specs.Shown.{texts_below};
ghost use Rattle.cell_pictures.specs.Paths.{TakesPlace, path_closed};
ghost use Rattle.cell_pictures.specs.Runs.{is_seen};
ghost use Rattle.cell_pictures.specs.Svg.{ground, hex_colour, hex_digit, number_text, outline, path_begin, run_text, signed_text, state_path, svg_begin, svg_text};

use crate::colour::{Colour, colour_of};
use crate::runs::Run;
use crate::window::Window;
use devices::{Failed, Sink};
use itoa::Buffer;
use pattern_cells::Cell;

const PATH_END: &[u8] = b"\"/>\n";

const HEX_DIGITS: &[u8; 16] = b"0123456789abcdef";

/// Draws a window as SVG (W3C, Scalable Vector Graphics 1.1), a unit wide and high for each place, in the
/// plane's coordinates: a ground in the colour of dead cells, and over it, for each state with cells, one
/// path of the outlines of their maximal runs, by row, then column. The cells are read back from it: the
/// class `s3` of a path names its state.
pub fn svg_text<K: Sink>(
    sink: &mut K,
    states: u16,
    cells: &[Cell],
    window: Window,
) -> Result<(), Failed>
    requires { states ≤ 256 }
    ensures { IsDrawn (K.known sink.old) result (svg_text states cells.now window) (K.known sink.new) }
{
    push_begin(sink, window)?;
    push_ground(sink, states, window)?;
    push_paths(sink, states, cells, window)?;
    sink.push_all(b"</svg>\n")
}

/// The paths of all states but 0.
fn push_paths<K: Sink>(
    sink: &mut K,
    states: u16,
    cells: &[Cell],
    window: Window,
) -> Result<(), Failed>
    requires { states ≤ 256 }
    ensures { IsDrawn (K.known sink.old) result (texts_below (states - 1) (λ n. state_path states cells.now window (n + 1))) (K.known sink.new) }
{
    for before in 0..states.saturating_sub(1) {
        push_path(sink, states, cells, window, (before + 1) as u8)?;
    }
    Ok(())
}

/// The path of a state's cells, if a window shows any.
fn push_path<K: Sink>(
    sink: &mut K,
    states: u16,
    cells: &[Cell],
    window: Window,
    state: u8,
) -> Result<(), Failed>
    ensures { IsDrawn (K.known sink.old) result (state_path states cells.now window state) (K.known sink.new) }
{
    let mut begun = None;
    for cell in cells {
        if is_seen(window, state, *cell) {
            begun = Some(push_place(sink, states, state, begun, *cell)?);
        }
    }
    push_last(sink, begun)
}

/// Whether a window shows a cell, and it has this state.
fn is_seen(window: Window, state: u8, cell: Cell) -> bool
    ensures { result ≡ is_seen window state cell }
{
    cell.state == state && window.shows(cell.x, cell.y)
}

/// Takes one place more: the run that it makes longer or begins, after the one that cannot grow any
/// further is written, or what stands in front of the first.
fn push_place<K: Sink>(
    sink: &mut K,
    states: u16,
    state: u8,
    begun: Option<Run>,
    cell: Cell,
) -> Result<Run, Failed>
    ensures taken { IfOk result (λ run. TakesPlace states state (K.known sink.old) begun (place_of cell) run (K.known sink.new)) }
    ensures failed { OnErr result ((K.known sink.new).failures ≡ one_more (K.known sink.old).failures) }
{
    let Some(run) = begun else {
        push_path_begin(sink, states, state)?;
        return Ok(Run::of_cell(cell));
    };
    if let Some(longer) = run.extended(cell) {
        return Ok(longer);
    }
    push_run(sink, run)?;
    Ok(Run::of_cell(cell))
}

/// The last run of a path, and what stands behind it, if a path was begun.
fn push_last<K: Sink>(sink: &mut K, begun: Option<Run>) -> Result<(), Failed>
    ensures { IsDrawn (K.known sink.old) result (path_closed begun) (K.known sink.new) }
{
    match begun {
        Some(run) => {
            push_run(sink, run)?;
            sink.push_all(PATH_END)
        }
        None => Ok(()),
    }
}

fn push_begin<K: Sink>(sink: &mut K, window: Window) -> Result<(), Failed>
    ensures { IsDrawn (K.known sink.old) result (svg_begin window) (K.known sink.new) }
{
    push_signed(
        sink,
        b"<svg xmlns=\"http://www.w3.org/2000/svg\" viewBox=\"",
        window.x(),
    )?;
    push_signed(sink, b" ", window.y())?;
    push_number(sink, b" ", window.width())?;
    push_number(sink, b" ", window.height())?;
    sink.push_all(b"\" shape-rendering=\"crispEdges\">\n")
}

/// The whole window, in the colour of dead cells.
fn push_ground<K: Sink>(sink: &mut K, states: u16, window: Window) -> Result<(), Failed>
    ensures { IsDrawn (K.known sink.old) result (ground states window) (K.known sink.new) }
{
    push_path_begin(sink, states, 0)?;
    push_outline(
        sink,
        window.x(),
        window.y(),
        window.width(),
        window.height(),
    )?;
    sink.push_all(PATH_END)
}

fn push_run<K: Sink>(sink: &mut K, run: Run) -> Result<(), Failed>
    ensures { IsDrawn (K.known sink.old) result (run_text run) (K.known sink.new) }
{
    push_outline(sink, run.x(), run.y(), run.length(), 1)
}

/// What stands in front of the path data of a state.
fn push_path_begin<K: Sink>(sink: &mut K, states: u16, state: u8) -> Result<(), Failed>
    ensures { IsDrawn (K.known sink.old) result (path_begin states state) (K.known sink.new) }
{
    push_number(sink, b"<path class=\"s", u64::from(state))?;
    sink.push_all(b"\" fill=\"")?;
    sink.push_all(&hex_colour(colour_of(states, state)))?;
    sink.push_all(b"\" d=\"")
}

/// The outline of a rectangle, as path data.
fn push_outline<K: Sink>(
    sink: &mut K,
    x: i32,
    y: i32,
    width: u64,
    height: u64,
) -> Result<(), Failed>
    ensures { IsDrawn (K.known sink.old) result (outline x y width height) (K.known sink.new) }
{
    push_signed(sink, b"M", x)?;
    push_signed(sink, b" ", y)?;
    push_number(sink, b"h", width)?;
    push_number(sink, b"v", height)?;
    push_number(sink, b"h-", width)?;
    sink.push_all(b"z")
}

/// A number with its sign, behind what names it.
fn push_signed<K: Sink>(sink: &mut K, name: &[u8], number: i32) -> Result<(), Failed>
    ensures { IsDrawn (K.known sink.old) result (signed_text name.now number) (K.known sink.new) }
{
    sink.push_all(name)?;
    sink.push_all(Buffer::new().format(number).as_bytes())
}

/// A number, behind what names it: a part of an SVG's text.
pub fn push_number<K: Sink>(sink: &mut K, name: &[u8], number: u64) -> Result<(), Failed>
    ensures { IsDrawn (K.known sink.old) result (number_text name.now number) (K.known sink.new) }
{
    sink.push_all(name)?;
    sink.push_all(Buffer::new().format(number).as_bytes())
}

/// A colour as SVG writes it: `#ff8000`.
pub fn hex_colour(colour: Colour) -> [u8; 7]
    ensures { result ≡ hex_colour colour }
{
    [
        b'#',
        hex_digit(colour.red / 16),
        hex_digit(colour.red % 16),
        hex_digit(colour.green / 16),
        hex_digit(colour.green % 16),
        hex_digit(colour.blue / 16),
        hex_digit(colour.blue % 16),
    ]
}

fn hex_digit(digit: u8) -> u8
    requires { digit < 16 }
    ensures { result ≡ hex_digit digit }
{
    HEX_DIGITS[usize::from(digit)]
}
