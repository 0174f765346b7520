//! The ticks of a chart's axes, with their labels.

ghost use Rattle.std.specs.Prelude.{◌≡◌, ◌≤◌};
ghost use Rattle.cell_pictures.specs.Drawn.{IsDrawn};
ghost use Rattle.population_charts.specs.Chart.{count_tick, count_ticks, generation_tick, generation_ticks};

use crate::axis::Axis;
use cell_pictures::push_number;
use devices::{Failed, Sink};

/// Draws the ticks of the axis of generations below the curves.
pub(crate) fn push_generation_ticks<K: Sink>(sink: &mut K, axis: Axis) -> Result<(), Failed>
    ensures { IsDrawn (K.known sink.old) result (generation_ticks axis) (K.known sink.new) }
{
    sink.push_all(
        b"<g class=\"generation-ticks\" text-anchor=\"middle\">\n<path stroke=\"#c0c0c0\" d=\"M1200 4700h8100\"/>\n",
    )?;
    for number in 0..axis.tick_count() {
        push_generation_tick(sink, axis, axis.tick(number))?;
    }
    sink.push_all(b"<text x=\"5250\" y=\"5220\">generation</text>\n</g>\n")
}

fn push_generation_tick<K: Sink>(sink: &mut K, axis: Axis, number: u64) -> Result<(), Failed>
    requires low { axis.low ≤ number }
    requires high { number ≤ axis.high }
    ensures { IsDrawn (K.known sink.old) result (generation_tick axis number) (K.known sink.new) }
{
    let x = 1200 + u64::from(axis.along(number, 8100));
    push_number(sink, b"<path stroke=\"#c0c0c0\" d=\"M", x)?;
    push_number(sink, b" 4700v80\"/><text x=\"", x)?;
    push_number(sink, b"\" y=\"4940\">", number)?;
    sink.push_all(b"</text>\n")
}

/// Draws the ticks of the axis of cells left of the curves.
pub(crate) fn push_count_ticks<K: Sink>(sink: &mut K, axis: Axis) -> Result<(), Failed>
    ensures { IsDrawn (K.known sink.old) result (count_ticks axis) (K.known sink.new) }
{
    sink.push_all(
        b"<g class=\"cell-ticks\" text-anchor=\"end\">\n<path stroke=\"#c0c0c0\" d=\"M1200 300v4400\"/>\n",
    )?;
    for number in 0..axis.tick_count() {
        push_count_tick(sink, axis, axis.tick(number))?;
    }
    sink.push_all(b"<text x=\"1080\" y=\"180\">cells</text>\n</g>\n")
}

fn push_count_tick<K: Sink>(sink: &mut K, axis: Axis, number: u64) -> Result<(), Failed>
    requires low { axis.low ≤ number }
    requires high { number ≤ axis.high }
    ensures { IsDrawn (K.known sink.old) result (count_tick axis number) (K.known sink.new) }
{
    let above = u64::from(axis.along(number, 4400));
    push_number(sink, b"<path stroke=\"#c0c0c0\" d=\"M1120 ", 4700 - above)?;
    push_number(sink, b"h80\"/><text x=\"1080\" y=\"", 4750 - above)?;
    push_number(sink, b"\">", number)?;
    sink.push_all(b"</text>\n")
}
