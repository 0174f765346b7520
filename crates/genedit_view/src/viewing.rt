//! A view of a text, from a source's bytes to a sink's.

ghost use Rattle.std.specs.Prelude.{◌≡◌, ◌^◌, IfErr, IsTrue, option_map, true};
ghost use Rattle.genedit_io.specs.declared.fault.RunFault.TheVariants.{Write};
ghost use Rattle.pattern_cells.specs.Cells.{is_sorted};
ghost use Rattle.cell_pictures.specs.Drawn.{IsDrawn, with_waiting};
ghost use Rattle.cell_pictures.specs.Picture.{picture_text};
ghost use Rattle.genedit_view.specs.Runs.{IsView};

use crate::fault::ViewFault;
use crate::options::ViewOptions;
use crate::seen::SeenCells;
use crate::shown::see;
use cell_pictures::{BufferedSink, draw};
use devices::{Failed, Sink, Source};
use genedit_io::{RunFault, pull_all};
use std::alloc::Global;

/// How many pulls a text has, at most.
const TURNS: u64 = 1 << 32;

/// Pulls a text to its source's end, and pushes its picture: of a file in RLE, MCell's format or plaintext,
/// each of whose cells is moved by the file's position, of a macrocell, which is told by its first bytes
/// `[M2]`, or of a state, by `GLWS`; as it is, or some generations later. It tells the bounds that the file
/// tells, which are passed over: cells live on the whole plane.
///
/// Of several faults the first of these is told, before a byte is pushed. Of a file: what is wrong with it (4 to
/// 8, and 44 of a macrocell), a rule that is not told, more than 2^24 cells of a macrocell (23), a coordinate
/// outside 32 bits with a sign, and outside the plane of edits where generations are asked for (10), a state that
/// the rule does not have (11). Of a state: a rule that is not told, and what is wrong with the text (8 to 20).
/// Then a generation that is none (22), and more than 2^24 cells (23). Where it is Ok, the sink holds all that was
/// pushed.
pub fn view<S: Source, K: Sink>(
    alloc: Global,
    options: &ViewOptions,
    source: &mut S,
    sink: &mut BufferedSink<K>,
) -> Result<Option<Vec<u8>>, ViewFault>
    ensures { IsView options.now (2 ^ 32) (option_map (λ bounds. bounds.items)) result (S.known source.old) (S.known source.new)
        (with_waiting (K.known sink.old.sink) sink.old.waiting.items sink.old.pushes) (K.known sink.new.sink) sink.old sink.new }
{
    view_within(alloc, options, source, sink, TURNS)
}

/// The same with another number of pulls, at most.
pub fn view_within<S: Source, K: Sink>(
    alloc: Global,
    options: &ViewOptions,
    source: &mut S,
    sink: &mut BufferedSink<K>,
    turns: u64,
) -> Result<Option<Vec<u8>>, ViewFault>
    ensures { IsView options.now turns (option_map (λ bounds. bounds.items)) result (S.known source.old) (S.known source.new)
        (with_waiting (K.known sink.old.sink) sink.old.waiting.items sink.old.pushes) (K.known sink.new.sink) sink.old sink.new }
{
    let text = pull_all(alloc, source, turns)?;
    let seen = see(alloc, options, &text)?;
    match push_picture(sink, options, &seen) {
        Ok(()) => Ok(seen.bounds),
        Err(fault) => Err(fault),
    }
}

/// Draws cells, and pushes all of it.
fn push_picture<K: Sink>(
    sink: &mut BufferedSink<K>,
    options: &ViewOptions,
    seen: &SeenCells,
) -> Result<(), ViewFault>
    requires { IsTrue (is_sorted seen.now.cells.items) }
    ensures drawn { IsDrawn (with_waiting (K.known sink.old.sink) sink.old.waiting.items sink.old.pushes) result
        (picture_text options.now.form seen.now.rule.states seen.now.cells.items options.now.window) (K.known sink.new.sink) }
    ensures fault { IfErr result (λ fault. fault ≡ ViewFault.Run Write) }
{
    match draw_whole(sink, options, seen) {
        Ok(()) => Ok(()),
        Err(_) => Err(ViewFault::Run(RunFault::Write)),
    }
}

fn draw_whole<K: Sink>(
    sink: &mut BufferedSink<K>,
    options: &ViewOptions,
    seen: &SeenCells,
) -> Result<(), Failed>
    requires { IsTrue (is_sorted seen.now.cells.items) }
    ensures { IsDrawn (with_waiting (K.known sink.old.sink) sink.old.waiting.items sink.old.pushes) result
        (picture_text options.now.form seen.now.rule.states seen.now.cells.items options.now.window) (K.known sink.new.sink) }
{
    draw(
        sink,
        options.form,
        seen.rule.states(),
        &seen.cells,
        options.window,
    )?;
    sink.finish()
}
