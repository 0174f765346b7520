//! Cells as plain text.

ghost use Rattle.std.specs.Prelude.{◌≡◌, ◌<◌, ◌+◌, IsTrue, OnOk};
ghost use Rattle.pattern_cells.specs.Cells.{is_sorted};
ghost use Rattle.cell_pictures.specs.Drawn.{IsDrawn};
ghost use Rattle.cell_pictures.specs.Shown.{TellsFrom};
ghost use Rattle.cell_pictures.specs.Window.{place_in};
ghost use Rattle.cell_pictures.specs.Plain.{character_of, characters, plain_row, plain_text};

use crate::reader::StateReader;
use crate::window::Window;
use devices::{Failed, Sink};
use pattern_cells::Cell;

/// The characters of states from 0 on.
const CHARACTERS: &[u8] = b".ABCDEFGHIJKLMNOPQRSTUVWXYZabcdefghijklmnopqrstuvwxyz0123456789";

/// The same where there are two states, as in the plain text format of pattern collections.
const TWO_CHARACTERS: &[u8] = b".O";

/// The character of a state that has none of its own.
const OTHER: u8 = b'#';

/// Draws a window as plain text: a line for each row, a character for each of its places. Under a rule
/// of two states that is `.` or `O`; else `.` for state 0, `A` to `Z`, `a` to `z` and `0` to `9` for
/// the states 1 to 62, of which the first 24 are those of the RLE format, and `#` for all others.
pub fn plain_text<K: Sink>(
    sink: &mut K,
    states: u16,
    cells: &[Cell],
    window: Window,
) -> Result<(), Failed>
    requires { IsTrue (is_sorted cells.now) }
    ensures { IsDrawn (K.known sink.old) result (plain_text states cells.now window) (K.known sink.new) }
{
    let mut reader = StateReader::new(cells);
    for row in 0..window.height() {
        plain_row(sink, states, &mut reader, window, row)?;
    }
    Ok(())
}

/// Draws a row, where the cells that are left tell the states from there on.
fn plain_row<K: Sink>(
    sink: &mut K,
    states: u16,
    reader: &mut StateReader,
    window: Window,
    row: u64,
) -> Result<(), Failed>
    requires { row < window.height }
    ensures drawn { IsDrawn (K.known sink.old) result (plain_row states reader.old.rest.now window row) (K.known sink.new) }
    ensures rest { OnOk result (TellsFrom (place_in window 0 (row + 1)) reader.old.rest.now reader.new.rest.now) }
{
    for column in 0..window.width() {
        let state = reader.state_in(window, column, row);
        sink.push_all(&[character_of(states, state)])?;
    }
    sink.push_all(b"\n")
}

fn character_of(states: u16, state: u8) -> u8
    ensures { result ≡ character_of states state }
{
    *characters(states).get(usize::from(state)).unwrap_or(&OTHER)
}

fn characters(states: u16) -> &'static [u8]
    ensures { result.now ≡ characters states }
{
    if states == 2 {
        TWO_CHARACTERS
    } else {
        CHARACTERS
    }
}
