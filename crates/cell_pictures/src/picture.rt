//! A picture in one of the forms.

ghost use Rattle.std.specs.Prelude.{◌≡◌, ◌≤◌, IsTrue};
ghost use Rattle.pattern_cells.specs.Cells.{is_sorted};
ghost use Rattle.cell_pictures.specs.Drawn.{IsDrawn};
ghost use Rattle.cell_pictures.specs.Window.{box_of};
ghost use Rattle.cell_pictures.specs.Picture.{box_text, cut_line, cut_text, picture_text, window_text};

use crate::blocks::half_blocks;
use crate::plain::plain_text;
use crate::svg::svg_text;
use crate::window::Window;
use devices::{Failed, Sink};
use itoa::Buffer;
use pattern_cells::Cell;

/// How cells are drawn.
#[derive(Clone, Copy, Debug, PartialEq, Eq)]
pub enum Form {
    /// A character for each cell, as by `plain_text`.
    Plain,
    /// A character for two cells, in colours, as by `half_blocks`.
    HalfBlocks,
    /// As by `svg_text`.
    Svg,
}

/// Draws sorted cells under a rule of so many states: the window that is asked for, or else the least that
/// shows all of them. That is cut to its first 128 columns and 64 rows in the forms for a terminal, and
/// where it was a last line tells how large it would have been: `cut: 200 by 70`.
pub fn draw<K: Sink>(
    sink: &mut K,
    form: Form,
    states: u16,
    cells: &[Cell],
    window: Option<Window>,
) -> Result<(), Failed>
    requires sorted { IsTrue (is_sorted cells.now) }
    requires states { states ≤ 256 }
    ensures { IsDrawn (K.known sink.old) result (picture_text form states cells.now window) (K.known sink.new) }
{
    match window {
        Some(window) => push_window(sink, form, states, cells, window),
        None => push_box(sink, form, states, cells, Window::around(cells)),
    }
}

/// A window, whole.
fn push_window<K: Sink>(
    sink: &mut K,
    form: Form,
    states: u16,
    cells: &[Cell],
    window: Window,
) -> Result<(), Failed>
    requires sorted { IsTrue (is_sorted cells.now) }
    requires states { states ≤ 256 }
    ensures { IsDrawn (K.known sink.old) result (window_text form states cells.now window) (K.known sink.new) }
{
    match form {
        Form::Plain => plain_text(sink, states, cells, window),
        Form::HalfBlocks => half_blocks(sink, states, cells, window),
        Form::Svg => svg_text(sink, states, cells, window),
    }
}

/// The window of all cells.
fn push_box<K: Sink>(
    sink: &mut K,
    form: Form,
    states: u16,
    cells: &[Cell],
    window: Window,
) -> Result<(), Failed>
    requires sorted { IsTrue (is_sorted cells.now) }
    requires states { states ≤ 256 }
    requires all { window ≡ box_of cells.now }
    ensures { IsDrawn (K.known sink.old) result (box_text form states cells.now) (K.known sink.new) }
{
    match form {
        Form::Plain | Form::HalfBlocks => push_cut(sink, form, states, cells, window),
        Form::Svg => svg_text(sink, states, cells, window),
    }
}

/// A window, cut where it is too large.
fn push_cut<K: Sink>(
    sink: &mut K,
    form: Form,
    states: u16,
    cells: &[Cell],
    window: Window,
) -> Result<(), Failed>
    requires sorted { IsTrue (is_sorted cells.now) }
    requires states { states ≤ 256 }
    ensures { IsDrawn (K.known sink.old) result (cut_text form states cells.now window) (K.known sink.new) }
{
    push_window(sink, form, states, cells, window.cut())?;
    push_cut_line(sink, window)
}

fn push_cut_line<K: Sink>(sink: &mut K, window: Window) -> Result<(), Failed>
    ensures { IsDrawn (K.known sink.old) result (cut_line window) (K.known sink.new) }
{
    if !window.is_too_large() {
        return Ok(());
    }
    sink.push_all(b"cut: ")?;
    sink.push_all(Buffer::new().format(window.width()).as_bytes())?;
    sink.push_all(b" by ")?;
    sink.push_all(Buffer::new().format(window.height()).as_bytes())?;
    sink.push_all(b"\n")
}
