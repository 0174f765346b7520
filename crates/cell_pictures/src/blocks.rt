//! Cells as half blocks in a terminal.

ghost use Rattle.std.specs.Prelude.{◌≡◌, ◌<◌, ◌+◌, ◌*◌, ◌/◌, ◌++◌, IsTrue, OnOk, decimal};
ghost use Rattle.pattern_cells.specs.Cells.{is_sorted};
ghost use Rattle.cell_pictures.specs.Drawn.{IsDrawn};
ghost use Rattle.cell_pictures.specs.Shown.{TellsFrom};
ghost use Rattle.cell_pictures.specs.Window.{place_in};
ghost use Rattle.cell_pictures.specs.Blocks.{block_row, block_text, half_blocks, lower_text, parts_text, shown_colour, upper_text};

use crate::colour::{Colour, colour_of};
use crate::reader::StateReader;
use crate::window::Window;
use devices::{Failed, Sink};
use itoa::Buffer;
use pattern_cells::Cell;

/// Sets the colour of the upper half, and of the lower one; the parts of a colour follow.
const UPPER: &[u8] = b"\x1b[38;2;";

const LOWER: &[u8] = b";48;2;";

/// Leaves the lower half as the terminal's ground is.
const NO_LOWER: &[u8] = b";49";

/// Ends the colours, and draws the upper half block, U+2580.
const BLOCK: &[u8] = b"m\xe2\x96\x80";

/// Ends a line, in the terminal's own colours.
const LINE_END: &[u8] = b"\x1b[0m\n";

/// Draws a window as half blocks in Golly's colours, for terminals that show 24-bit colours (ISO 8613-6,
/// "direct colour"): a character shows a cell in its upper half, and the one below it in its lower half.
/// The lower half of an odd last row is left as the terminal's ground is.
pub fn half_blocks<K: Sink>(
    sink: &mut K,
    states: u16,
    cells: &[Cell],
    window: Window,
) -> Result<(), Failed>
    requires { IsTrue (is_sorted cells.now) }
    ensures { IsDrawn (K.known sink.old) result (half_blocks states cells.now window) (K.known sink.new) }
{
    let mut upper = StateReader::new(cells);
    let mut lower = StateReader::new(cells);
    for line in 0..(window.height() + 1) / 2 {
        block_row(sink, states, &mut upper, &mut lower, window, line)?;
    }
    Ok(())
}

/// Draws two rows, where the cells that are left tell the states of each from there on.
fn block_row<K: Sink>(
    sink: &mut K,
    states: u16,
    upper: &mut StateReader,
    lower: &mut StateReader,
    window: Window,
    line: u64,
) -> Result<(), Failed>
    requires row { 2 * line < window.height }
    requires same { TellsFrom (place_in window 0 (2 * line)) lower.old.rest.now upper.old.rest.now }
    ensures drawn { IsDrawn (K.known sink.old) result (block_row states lower.old.rest.now window line) (K.known sink.new) }
    ensures upper { OnOk result (TellsFrom (place_in window 0 (2 * (line + 1))) upper.old.rest.now upper.new.rest.now) }
    ensures lower { OnOk result (TellsFrom (place_in window 0 (2 * (line + 1))) lower.old.rest.now lower.new.rest.now) }
{
    let row = 2 * line;
    for column in 0..window.width() {
        let above = colour_of(states, upper.state_in(window, column, row));
        let below = colour_in(states, lower, window, column, row + 1);
        push_block(sink, above, below)?;
    }
    sink.push_all(LINE_END)
}

/// The colour of a place of a window, if the window has the row.
fn colour_in(
    states: u16,
    reader: &mut StateReader,
    window: Window,
    column: u64,
    row: u64,
) -> Option<Colour>
    requires { column < window.width }
    ensures colour { result ≡ shown_colour states reader.old.rest.now window column row }
    ensures rest { TellsFrom (place_in window column row) reader.old.rest.now reader.new.rest.now }
{
    if row < window.height() {
        Some(colour_of(states, reader.state_in(window, column, row)))
    } else {
        None
    }
}

/// Draws a character with the colours of its halves.
fn push_block<K: Sink>(sink: &mut K, upper: Colour, lower: Option<Colour>) -> Result<(), Failed>
    ensures { IsDrawn (K.known sink.old) result (block_text upper lower) (K.known sink.new) }
{
    push_upper(sink, upper)?;
    push_lower(sink, lower)?;
    sink.push_all(BLOCK)
}

fn push_upper<K: Sink>(sink: &mut K, upper: Colour) -> Result<(), Failed>
    ensures { IsDrawn (K.known sink.old) result (upper_text upper) (K.known sink.new) }
{
    sink.push_all(UPPER)?;
    push_parts(sink, upper)
}

fn push_lower<K: Sink>(sink: &mut K, lower: Option<Colour>) -> Result<(), Failed>
    ensures { IsDrawn (K.known sink.old) result (lower_text lower) (K.known sink.new) }
{
    match lower {
        Some(colour) => {
            sink.push_all(LOWER)?;
            push_parts(sink, colour)
        }
        None => sink.push_all(NO_LOWER),
    }
}

/// The three parts of a colour.
fn push_parts<K: Sink>(sink: &mut K, colour: Colour) -> Result<(), Failed>
    ensures { IsDrawn (K.known sink.old) result (parts_text colour) (K.known sink.new) }
{
    push_number(sink, colour.red)?;
    sink.push_all(b";")?;
    push_number(sink, colour.green)?;
    sink.push_all(b";")?;
    push_number(sink, colour.blue)
}

fn push_number<K: Sink>(sink: &mut K, number: u8) -> Result<(), Failed>
    ensures { IsDrawn (K.known sink.old) result (decimal number) (K.known sink.new) }
{
    sink.push_all(Buffer::new().format(number).as_bytes())
}
