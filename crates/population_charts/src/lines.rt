//! The numbers of a chart.

ghost use Rattle.std.specs.Prelude.{◌≡◌, ◌≤◌, ◌+◌, ◌-◌};
ghost use Rattle.cell_pictures.specs.Drawn.{IsDrawn};
ghost use Rattle.cell_pictures.specs.Shown.{texts_below};
ghost use Rattle.population_charts.specs.Chart.{generation_line, line_begin, point_text, points_text, state_line};
ghost use Rattle.population_charts.specs.Sample.{has_cells};

use crate::sample::Sample;
use cell_pictures::push_number;
use devices::{Failed, Sink};

const LINE_END: &[u8] = b"\"/>\n";

/// A line with a point without cells for each sampled generation.
pub(crate) fn push_generation_line<K: Sink>(sink: &mut K, samples: &[Sample]) -> Result<(), Failed>
    ensures { IsDrawn (K.known sink.old) result (generation_line samples.now) (K.known sink.new) }
{
    sink.push_all(b"<polyline class=\"generations\" points=\"")?;
    push_points(sink, samples, 0)?;
    sink.push_all(LINE_END)
}

/// The lines of all states but 0.
pub(crate) fn push_state_lines<K: Sink>(
    sink: &mut K,
    states: u16,
    samples: &[Sample],
) -> Result<(), Failed>
    requires { states ≤ 256 }
    ensures { IsDrawn (K.known sink.old) result (texts_below (states - 1) (λ n. state_line samples.now (n + 1))) (K.known sink.new) }
{
    for before in 0..states.saturating_sub(1) {
        push_state_line(sink, samples, (before + 1) as u8)?;
    }
    Ok(())
}

/// The line of a state, if it has cells in some sample.
fn push_state_line<K: Sink>(sink: &mut K, samples: &[Sample], state: u8) -> Result<(), Failed>
    ensures { IsDrawn (K.known sink.old) result (state_line samples.now state) (K.known sink.new) }
{
    if !has_cells(samples, state) {
        return Ok(());
    }
    push_line_begin(sink, state)?;
    push_points(sink, samples, state)?;
    sink.push_all(LINE_END)
}

pub(crate) fn has_cells(samples: &[Sample], state: u8) -> bool
    ensures { result ≡ has_cells state samples.now }
{
    for sample in samples {
        if sample.count_of(state) != 0 {
            return true;
        }
    }
    false
}

/// What stands in front of the points of a state's line.
fn push_line_begin<K: Sink>(sink: &mut K, state: u8) -> Result<(), Failed>
    ensures { IsDrawn (K.known sink.old) result (line_begin state) (K.known sink.new) }
{
    push_number(sink, b"<polyline class=\"s", u64::from(state))?;
    sink.push_all(b"\" points=\"")
}

/// The points of a state: the generation of each sample, and how many cells of the state it has.
fn push_points<K: Sink>(sink: &mut K, samples: &[Sample], state: u8) -> Result<(), Failed>
    ensures { IsDrawn (K.known sink.old) result (points_text state samples.now) (K.known sink.new) }
{
    for sample in samples {
        push_point(sink, sample, state)?;
    }
    Ok(())
}

fn push_point<K: Sink>(sink: &mut K, sample: &Sample, state: u8) -> Result<(), Failed>
    ensures { IsDrawn (K.known sink.old) result (point_text state sample.now) (K.known sink.new) }
{
    push_number(sink, b" ", sample.generation())?;
    push_number(sink, b",", sample.count_of(state))
}
