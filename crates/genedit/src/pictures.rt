//! Pictures of patterns and of states, and their periods and charts.

use crate::bounds::tell_bounds;
use crate::document_reading::{name_of, printed, seen_text};
use command_words::GenerationRange;
use devices::{ReadSource, WriteSink};
use genedit_io::RunFault;
use genedit_view::{
    BufferedSink, Form, PeriodSearch, ViewFault, ViewOptions, Window, WindowFault, chart,
    chart_range, find_period, window_of,
};
use genedit_words::Viewing;
use map_periods::ToldPeriod;
use std::alloc::Global;
use std::io;
use std::random::RandomSource;
use std::rt::Files;

/// The picture is drawn.
const WELL: u8 = 0;

/// The words are at fault.
const WORDS: u8 = 2;

/// What is said of a corner without sides, and of sides without a corner.
const NO_SIZE: &str =
    "--at is without --size: a window is asked for by both, as --at -3,4 --size 40x20";

const NO_CORNER: &str =
    "--size is without --at: a window is asked for by both, as --at -3,4 --size 40x20";

/// What is said of a word that names no range of a chart.
const NO_RANGE: &str = "a range is G1..G2 or G1..G2/STEP, 65536 generations at most, as 0..1000/10";

/// Why the words ask for no window.
#[derive(Clone, Copy)]
enum NoWindow<'a> {
    /// One of its two options is missing.
    Half(&'static str),
    /// What one of them spells, whose name this is, is no part of a window.
    Value(&'a str, &'static str, WindowFault),
}

/// Draws what a file has, or standard input; or a chart of it, or tells its period, where that is asked for. To a terminal a
/// picture is in colours, unless another form is asked for.
pub fn view<R: Files + Input + Print + Eprint + RandomSource>(
    rt: &R,
    alloc: Global,
    viewing: &Viewing<'_>,
    to_terminal: bool,
) -> Result<u8, RunFault> {
    if let Some(word) = viewing.chart {
        return view_chart(rt, alloc, viewing, word);
    }
    if let Some(most) = viewing.longest_period {
        return match seen_text(rt, alloc, viewing.file, viewing.edits) {
            Ok(text) => told_period(rt, alloc, viewing, most, &text),
            Err(left) => left.end(),
        };
    }
    let window = match window(viewing) {
        Ok(window) => window,
        Err(fault) => return Ok(tell_no_window(rt, fault)),
    };
    let options = ViewOptions {
        form: form(viewing, to_terminal),
        window,
        generation: viewing.generation,
        rule: viewing.rule,
    };
    match seen_text(rt, alloc, viewing.file, viewing.edits) {
        Ok(text) => drawn(rt, alloc, &options, name_of(viewing.file), &text),
        Err(left) => left.end(),
    }
}

/// Draws a chart of what a file has, of the range of generations that a word names.
fn view_chart<R: Files + Input + Print + Eprint + RandomSource>(
    rt: &R,
    alloc: Global,
    viewing: &Viewing<'_>,
    word: &str,
) -> Result<u8, RunFault> {
    let Some(range) = chart_range(word.as_bytes()) else {
        let _ = eprintln!(rt; "genedit: invalid value '{word}' for '--chart <RANGE>': {NO_RANGE}");
        return Ok(WORDS);
    };
    match seen_text(rt, alloc, viewing.file, viewing.edits) {
        Ok(text) => charted(rt, alloc, viewing, range, &text),
        Err(left) => left.end(),
    }
}

/// The form that is asked for.
fn form(viewing: &Viewing<'_>, to_terminal: bool) -> Form {
    if viewing.is_svg {
        Form::Svg
    } else if viewing.is_plain || !to_terminal {
        Form::Plain
    } else {
        Form::HalfBlocks
    }
}

/// The window that is asked for, if one is.
fn window<'a>(viewing: &Viewing<'a>) -> Result<Option<Window>, NoWindow<'a>> {
    match (viewing.at, viewing.size) {
        (None, None) => Ok(None),
        (Some(_), None) => Err(NoWindow::Half(NO_SIZE)),
        (None, Some(_)) => Err(NoWindow::Half(NO_CORNER)),
        (Some(at), Some(size)) => match window_of(at.as_bytes(), size.as_bytes()) {
            Ok(window) => Ok(Some(window)),
            Err(WindowFault::Corner) => {
                Err(NoWindow::Value(at, "--at <X,Y>", WindowFault::Corner))
            }
            Err(fault) => Err(NoWindow::Value(size, "--size <W,H>", fault)),
        },
    }
}

/// Says why the words ask for no window; the status of the process.
fn tell_no_window(rt: &impl Eprint, fault: NoWindow<'_>) -> u8 {
    let _ = match fault {
        NoWindow::Half(text) => eprintln!(rt; "genedit: {text}"),
        NoWindow::Value(word, option, fault) => {
            let text = fault.text();
            eprintln!(rt; "genedit: invalid value '{word}' for '{option}': {text}")
        }
    };
    WORDS
}

/// Draws what a text of this name has.
fn drawn(
    rt: &(impl Print + Eprint),
    alloc: Global,
    options: &ViewOptions,
    name: &str,
    text: &[u8],
) -> Result<u8, RunFault> {
    let sink = WriteSink::new(io::writer(rt));
    let Ok(mut sink) = BufferedSink::new(alloc, sink) else {
        return Err(RunFault::Memory);
    };
    match genedit_view::view(alloc, options, &mut ReadSource::new(text), &mut sink) {
        Ok(bounds) => {
            tell_bounds(rt, alloc, name, bounds, options.generation.is_some())?;
            Ok(WELL)
        }
        Err(fault) => ended(rt, fault),
    }
}

/// Draws a chart of what a text has.
fn charted(
    rt: &(impl Print + Eprint),
    alloc: Global,
    viewing: &Viewing<'_>,
    range: GenerationRange,
    text: &[u8],
) -> Result<u8, RunFault> {
    let sink = WriteSink::new(io::writer(rt));
    let Ok(mut sink) = BufferedSink::new(alloc, sink) else {
        return Err(RunFault::Memory);
    };
    match chart(alloc, viewing.rule, range, text, &mut sink) {
        Ok(bounds) => {
            tell_bounds(rt, alloc, name_of(viewing.file), bounds, true)?;
            Ok(WELL)
        }
        Err(fault) => ended(rt, fault),
    }
}

/// Tells the period of what a text has.
fn told_period(
    rt: &(impl Print + Eprint),
    alloc: Global,
    viewing: &Viewing<'_>,
    most: u16,
    text: &[u8],
) -> Result<u8, RunFault> {
    let first = viewing.generation.unwrap_or(0);
    let search = PeriodSearch { first, most };
    match find_period(alloc, viewing.rule, search, text) {
        Ok(found) => {
            let told = ToldPeriod {
                period: found.period,
                most,
            };
            let line = format!(in alloc; "{told}\n")?;
            tell_bounds(rt, alloc, name_of(viewing.file), found.bounds, true)?;
            printed(rt, line.as_bytes(), WELL)
        }
        Err(fault) => ended(rt, fault),
    }
}

/// Says why nothing is told of a text; the status of the process.
fn ended(rt: &impl Eprint, fault: ViewFault) -> Result<u8, RunFault> {
    if let ViewFault::Run(fault) = fault {
        return Err(fault);
    }
    let _ = eprintln!(rt; "genedit: {fault}");
    Ok(fault.exit_status())
}
