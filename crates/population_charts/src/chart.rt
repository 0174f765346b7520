//! Whole charts.

ghost use Rattle.std.specs.Prelude.{◌≡◌, ◌≤◌};
ghost use Rattle.cell_pictures.specs.Drawn.{IsDrawn};
ghost use Rattle.population_charts.specs.Chart.{chart_begin, chart_text, numbers};

use crate::axis::Axes;
use crate::curves::push_curves;
use crate::lines::{push_generation_line, push_state_lines};
use crate::sample::Sample;
use crate::ticks::{push_count_ticks, push_generation_ticks};
use devices::{Failed, Sink};

/// Draws a chart as SVG (W3C, Scalable Vector Graphics 1.1) of samples under a rule of so many states: a curve for each
/// state that has cells in some sample, in the colour that Golly gives it; an axis from the first sampled generation to the
/// last, and one from 0 to the most cells, each with ten ticks at most, at the multiples of 1, 2 or 5 times a power of ten.
/// The numbers are read back from it: among its definitions, which are not drawn, is a line for each of these states through
/// the points (generation, number of cells), whose class `s3` names the state, and one with a point for each generation.
pub fn chart_text<K: Sink>(sink: &mut K, states: u16, samples: &[Sample]) -> Result<(), Failed>
    requires { states ≤ 256 }
    ensures { IsDrawn (K.known sink.old) result (chart_text states samples.now) (K.known sink.new) }
{
    push_begin(sink)?;
    let axes = Axes::of(samples);
    push_numbers(sink, states, samples)?;
    push_curves(sink, states, axes, samples)?;
    push_generation_ticks(sink, axes.generations)?;
    push_count_ticks(sink, axes.counts)?;
    sink.push_all(b"</svg>\n")
}

/// What stands in front of all: the ground.
fn push_begin<K: Sink>(sink: &mut K) -> Result<(), Failed>
    ensures { IsDrawn (K.known sink.old) result chart_begin (K.known sink.new) }
{
    sink.push_all(
        b"<svg xmlns=\"http://www.w3.org/2000/svg\" viewBox=\"0 0 9600 5400\" font-family=\"sans-serif\" font-size=\"140\" fill=\"#c0c0c0\" stroke-width=\"10\">\n",
    )?;
    sink.push_all(b"<path class=\"ground\" fill=\"#303030\" d=\"M0 0h9600v5400h-9600z\"/>\n")
}

/// The numbers, which are not drawn.
fn push_numbers<K: Sink>(sink: &mut K, states: u16, samples: &[Sample]) -> Result<(), Failed>
    requires { states ≤ 256 }
    ensures { IsDrawn (K.known sink.old) result (numbers states samples.now) (K.known sink.new) }
{
    sink.push_all(b"<defs>\n<g class=\"numbers\">\n")?;
    push_generation_line(sink, samples)?;
    push_state_lines(sink, states, samples)?;
    sink.push_all(b"</g>\n</defs>\n")
}
