//! What is said of an error of `clap`: the fault and its cure, on one line.

use clap::Error;
use clap::error::ErrorKind;
use std::alloc::{AllocError, Global};

/// The options with a value, and what has to stand at a place, as `clap` names them, and an example of each.
const EXAMPLES: [(&str, &str); 28] = [
    ("--rule <", " --rule 23/3/2"),
    ("--port <", " --port 7020"),
    ("--web <", " --web 7080"),
    ("--url <", " --url https://draw.example.org"),
    ("--sessions <", " --sessions 64"),
    ("--first <", " --first 101"),
    ("--keep <", " --keep my.board"),
    ("--until-idle <", " --until-idle 60"),
    ("--every <", " --every 50"),
    ("--at <", " --at -3,4"),
    ("--size <", " --size 40x20"),
    ("--gen <", " --gen 30"),
    ("--edits <", " --edits 100"),
    ("--period <", " --period 1000"),
    ("--chart <", " --chart 0..1000/10"),
    ("--from <", " --from 100"),
    ("--replica <", " --replica 65"),
    ("--renumber <", " --renumber 67"),
    ("provided: <FILE>", " my.glwl"),
    ("<TEXT> <FILE>", " my.glwl"),
    ("<N> <FILE>", " my.glwl"),
    ("<OTHER>", " copy.glwl"),
    ("provided: <G>", " 30"),
    ("<FILE> <G>", " 30"),
    ("'<G>'", " 30"),
    ("<NUMBERS>", " numbers.txt"),
    ("<NAME>", " ann"),
    ("<OUT>", " genedit convert Lava.mcl lava.rle"),
];

/// An error's text as one line: its first paragraph, which tells the fault; then its first tip, if it has
/// one; and what else the kind of fault calls for.
pub fn line_of(alloc: Global, error: &Error) -> Result<String, AllocError> {
    let text = error.to_string(alloc)?;
    let mut line = first_paragraph(alloc, text.as_str())?;
    let tip = first_tip(text.as_str());
    push_advice(&mut line, tip)?;
    match error.kind() {
        ErrorKind::MissingRequiredArgument | ErrorKind::InvalidValue | ErrorKind::ValueValidation =>
            push_examples(&mut line)?,
        ErrorKind::InvalidSubcommand if tip.is_none() => {
            push_advice(&mut line, Some("genedit --help lists them"))?;
        }
        ErrorKind::UnknownArgument if !tells_another(tip) => {
            push_usage(&mut line, text.as_str())?;
        }
        _ => (),
    }
    Ok(line)
}

fn first_paragraph(alloc: Global, text: &str) -> Result<String, AllocError> {
    let mut fault = String::new(alloc);
    for line in text.lines().take_while(|line| !line.is_empty()) {
        push_line(&mut fault, line)?;
    }
    Ok(fault)
}

/// Puts a line last, behind a blank where something stands before.
fn push_line(fault: &mut String, line: &str) -> Result<(), AllocError> {
    if fault.is_empty() {
        return fault.push_str(line.strip_prefix("error: ").unwrap_or(line));
    }
    fault.push(' ')?;
    fault.push_str(line.trim())
}

/// The first tip that an error's text gives.
fn first_tip(text: &str) -> Option<&str> {
    for line in text.lines() {
        if let Some(tip) = line.strip_prefix("  tip: ") {
            return Some(tip);
        }
    }
    None
}

/// Puts last how a command is used, as an error's text tells it.
fn push_usage(line: &mut String, text: &str) -> Result<(), AllocError> {
    for told in text.lines() {
        if let Some(usage) = told.strip_prefix("Usage: ") {
            line.push_str("; usage: ")?;
            return line.push_str(usage);
        }
    }
    Ok(())
}

/// Whether a tip tells another argument that may be meant.
fn tells_another(tip: Option<&str>) -> bool {
    match tip {
        Some(tip) => !tip.starts_with("to pass "),
        None => false,
    }
}

/// Puts advice last, if there is any.
fn push_advice(line: &mut String, advice: Option<&str>) -> Result<(), AllocError> {
    if let Some(advice) = advice {
        line.push_str("; ")?;
        line.push_str(advice)?;
    }
    Ok(())
}

/// Puts an example of each option last that the line names with its value; it names one at least.
fn push_examples(line: &mut String) -> Result<(), AllocError> {
    line.push_str("; as")?;
    for (option, example) in EXAMPLES {
        if line.as_str().find(option).is_some() {
            line.push_str(example)?;
        }
    }
    Ok(())
}
