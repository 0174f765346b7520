//! The curves of a chart.

ghost use Rattle.std.specs.Prelude.{◌≡◌, ◌≤◌, ◌+◌, ◌-◌};
ghost use Rattle.cell_pictures.specs.Drawn.{IsDrawn};
ghost use Rattle.cell_pictures.specs.Shown.{texts_below};
ghost use Rattle.population_charts.specs.Chart.{curve, curve_begin, curve_end, curve_point, curve_points, curves};

use crate::axis::Axes;
use crate::lines::has_cells;
use crate::sample::Sample;
use cell_pictures::{colour_of, hex_colour, push_number};
use devices::{Failed, Sink};

/// Draws the curves of all states.
pub(crate) fn push_curves<K: Sink>(
    sink: &mut K,
    states: u16,
    axes: Axes,
    samples: &[Sample],
) -> Result<(), Failed>
    requires { states ≤ 256 }
    ensures { IsDrawn (K.known sink.old) result (curves states axes samples.now) (K.known sink.new) }
{
    sink.push_all(b"<g fill=\"none\" stroke-linejoin=\"round\" stroke-width=\"15\">\n")?;
    push_each(sink, states, axes, samples)?;
    sink.push_all(b"</g>\n")
}

/// The curves of all states but 0.
fn push_each<K: Sink>(
    sink: &mut K,
    states: u16,
    axes: Axes,
    samples: &[Sample],
) -> Result<(), Failed>
    requires { states ≤ 256 }
    ensures { IsDrawn (K.known sink.old) result (texts_below (states - 1) (λ n. curve states axes samples.now (n + 1))) (K.known sink.new) }
{
    for before in 0..states.saturating_sub(1) {
        push_curve(sink, states, axes, samples, (before + 1) as u8)?;
    }
    Ok(())
}

/// Draws the curve of a state, if it has cells in some sample.
fn push_curve<K: Sink>(
    sink: &mut K,
    states: u16,
    axes: Axes,
    samples: &[Sample],
    state: u8,
) -> Result<(), Failed>
    ensures { IsDrawn (K.known sink.old) result (curve states axes samples.now state) (K.known sink.new) }
{
    if !has_cells(samples, state) {
        return Ok(());
    }
    push_curve_begin(sink, states, state)?;
    push_curve_points(sink, axes, samples, state)?;
    push_curve_end(sink, state)
}

fn push_curve_begin<K: Sink>(sink: &mut K, states: u16, state: u8) -> Result<(), Failed>
    ensures { IsDrawn (K.known sink.old) result (curve_begin states state) (K.known sink.new) }
{
    sink.push_all(b"<polyline stroke=\"")?;
    sink.push_all(&hex_colour(colour_of(states, state)))?;
    sink.push_all(b"\" points=\"")
}

fn push_curve_end<K: Sink>(sink: &mut K, state: u8) -> Result<(), Failed>
    ensures { IsDrawn (K.known sink.old) result (curve_end state) (K.known sink.new) }
{
    push_number(sink, b"\"><title>state ", u64::from(state))?;
    sink.push_all(b"</title></polyline>\n")
}

fn push_curve_points<K: Sink>(
    sink: &mut K,
    axes: Axes,
    samples: &[Sample],
    state: u8,
) -> Result<(), Failed>
    ensures { IsDrawn (K.known sink.old) result (curve_points axes state samples.now) (K.known sink.new) }
{
    for sample in samples {
        push_curve_point(sink, axes, sample, state)?;
    }
    Ok(())
}

fn push_curve_point<K: Sink>(
    sink: &mut K,
    axes: Axes,
    sample: &Sample,
    state: u8,
) -> Result<(), Failed>
    ensures { IsDrawn (K.known sink.old) result (curve_point axes state sample.now) (K.known sink.new) }
{
    let along = axes.generations.placed(sample.generation(), 8100);
    let above = axes.counts.placed(sample.count_of(state), 4400);
    push_number(sink, b" ", 1200 + u64::from(along))?;
    push_number(sink, b",", 4700 - u64::from(above))
}
