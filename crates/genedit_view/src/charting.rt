//! A chart of a text, from its bytes to a sink's.

ghost use Rattle.std.specs.Prelude.{◌≡◌, IfErr, option_map};
ghost use Rattle.genedit_io.specs.declared.fault.RunFault.TheVariants.{Write};
ghost use Rattle.cell_pictures.specs.Drawn.{IsDrawn, with_waiting};
ghost use Rattle.population_charts.specs.Chart.{chart_text};
ghost use Rattle.genedit_view.specs.Samples.{IsChart, chart_range, if_few};

use crate::fault::ViewFault;
use crate::samples::{ToldSamples, find_samples};
use cell_pictures::BufferedSink;
use command_words::{GenerationRange, range_in};
use devices::{Failed, Sink};
use genedit_io::RunFault;
use generations_rule::Rule;
use population_charts::chart_text;
use std::alloc::Global;

/// How many generations a chart has at most.
const MOST_SAMPLES: u32 = 0x1_0000;

/// The range of generations that a word asks a chart of: `G1..G2` or `G1..G2/STEP`, where G2 is not before G1 and STEP is 1
/// at least; of 2^16 generations at most.
pub fn chart_range(word: &[u8]) -> Option<GenerationRange>
    ensures { result ≡ chart_range word.now }
{
    if_few(range_in(word)?)
}

/// A range, if it has not too many generations.
fn if_few(range: GenerationRange) -> Option<GenerationRange>
    ensures { result ≡ if_few range }
{
    if range.steps() < MOST_SAMPLES {
        Some(range)
    } else {
        None
    }
}

/// Pushes a chart of how many cells of each state there are at the generations of a range, of what a text tells; under the
/// rule that is given, else under the text's own. It tells the bounds that the text tells, which are passed over. What
/// `find_samples` refuses is told before a byte is pushed. Where it is Ok, the sink holds all that was pushed.
pub fn chart<K: Sink>(
    alloc: Global,
    given: Option<Rule>,
    range: GenerationRange,
    text: &[u8],
    sink: &mut BufferedSink<K>,
) -> Result<Option<Vec<u8>>, ViewFault>
    ensures { IsChart given range text.now (option_map (λ bounds. bounds.items)) result
        (with_waiting (K.known sink.old.sink) sink.old.waiting.items sink.old.pushes) (K.known sink.new.sink) sink.old sink.new }
{
    let told = find_samples(alloc, given, range, text)?;
    match push_chart(sink, &told) {
        Ok(()) => Ok(told.bounds),
        Err(fault) => Err(fault),
    }
}

/// Draws samples, and pushes all of it.
fn push_chart<K: Sink>(sink: &mut BufferedSink<K>, told: &ToldSamples) -> Result<(), ViewFault>
    ensures drawn { IsDrawn (with_waiting (K.known sink.old.sink) sink.old.waiting.items sink.old.pushes) result
        (chart_text told.now.rule.states told.now.samples.items) (K.known sink.new.sink) }
    ensures fault { IfErr result (λ fault. fault ≡ ViewFault.Run Write) }
{
    match draw_whole(sink, told) {
        Ok(()) => Ok(()),
        Err(_) => Err(ViewFault::Run(RunFault::Write)),
    }
}

fn draw_whole<K: Sink>(sink: &mut BufferedSink<K>, told: &ToldSamples) -> Result<(), Failed>
    ensures { IsDrawn (with_waiting (K.known sink.old.sink) sink.old.waiting.items sink.old.pushes) result
        (chart_text told.now.rule.states told.now.samples.items) (K.known sink.new.sink) }
{
    chart_text(sink, told.rule.states(), &told.samples)?;
    sink.finish()
}
