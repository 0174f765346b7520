//! Files of cells made RLE texts or macrocells.

use crate::bounds::tell_bounds;
use crate::document_reading::{name_of, seen_text};
use devices::ReadSource;
use genedit_convert::{
    ConvertOptions, Converted, convert, is_macrocell_name, is_rle_name, macrocell_of,
    output_status, output_text,
};
use genedit_io::RunFault;
use genedit_view::ViewFault;
use genedit_words::ConvertTask;
use std::alloc::Global;
use std::fs::File;
use std::random::RandomSource;
use std::rt::Files;
use whole_files::{WriteRefusal, write_refusal, write_whole};

/// The file is written.
const WELL: u8 = 0;

/// The words are at fault.
const WORDS: u8 = 2;

/// Writes the RLE text or the macrocell of a file, or of standard input: the name of the file to write tells which. What is refused leaves the file that is to be written
/// as it was; that it may not be written is told before anything is read.
pub fn convert_file<R: Files<File = File> + Input + Eprint + RandomSource>(
    rt: &R,
    alloc: Global,
    task: &ConvertTask<'_>,
) -> Result<u8, RunFault> {
    let output = task.output;
    if !is_rle_name(output.as_bytes()) && !is_macrocell_name(output.as_bytes()) {
        let _ = eprintln!(rt; "genedit: {output}: the file to write ends with .rle or .mc");
        return Ok(WORDS);
    }
    if let Some(refusal) = write_refusal(rt, output, task.replaces) {
        return Ok(tell_unwritten(rt, output, refusal));
    }
    match seen_text(rt, alloc, task.file, None) {
        Ok(text) => written(rt, alloc, task, &text),
        Err(left) => left.end(),
    }
}

/// Writes the RLE text or the macrocell of what a text has.
fn written<R: Files<File = File> + Eprint>(
    rt: &R,
    alloc: Global,
    task: &ConvertTask<'_>,
    text: &[u8],
) -> Result<u8, RunFault> {
    let name = name_of(task.file);
    let options = ConvertOptions {
        generation: task.generation,
        rule: task.rule,
    };
    let made = match made_of(alloc, task.output, &options, text) {
        Ok(made) => made,
        Err(fault) => {
            let _ = eprintln!(rt; "genedit: {name}: {fault}");
            return Ok(fault.exit_status());
        }
    };
    if let Err(refusal) = write_whole(rt, alloc, task.output, task.replaces, &made.text) {
        return Ok(tell_unwritten(rt, task.output, refusal));
    }
    tell_bounds(rt, alloc, name, made.bounds, task.generation.is_some())?;
    Ok(WELL)
}

/// What a file of that name gets of a text.
fn made_of(
    alloc: Global,
    output: &str,
    options: &ConvertOptions,
    text: &[u8],
) -> Result<Converted, ViewFault> {
    if is_macrocell_name(output.as_bytes()) {
        return macrocell_of(alloc, options, text);
    }
    convert(alloc, options, &mut ReadSource::new(text))
}

/// Says why a file is not written; the status of the process.
fn tell_unwritten(rt: &impl Eprint, path: &str, refusal: WriteRefusal) -> u8 {
    let text = output_text(refusal);
    let _ = eprintln!(rt; "genedit: {path}: {text}");
    output_status(refusal)
}
