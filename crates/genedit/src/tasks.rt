//! Each task, with the input and the output that the process has; its answer is the status.

use crate::opening::{opened, tell_unread};
use devices::{ReadSource, Source, WriteSink};
use genedit_io::RunFault;
use genedit_lib::run_script;
use genedit_rle::rle_text;
use genedit_words::RleTask;
use generations_rule::Rule;
use script_check::{CheckOutcome, check_script};
use std::alloc::Global;
use std::io;
use std::rt::Files;

/// All is well.
const WELL: u8 = 0;

/// There is something to mend.
const TOLD: u8 = 1;

/// What a script on standard input is called.
const SCRIPT: &str = "script";

/// Runs the script of a file, or of standard input, and prints what happened.
pub fn run<R: Files + Input + Print + Eprint>(
    rt: &R,
    alloc: Global,
    file: Option<&str>,
) -> Result<u8, RunFault> {
    match file {
        None => run_of(rt, alloc, &mut ReadSource::new(rt.reader())),
        Some(path) => match opened(rt, path) {
            Err(cause) => tell_unread(rt, alloc, path, cause),
            Ok(file) => run_of(rt, alloc, &mut ReadSource::new(file)),
        },
    }
}

/// Runs the script that a source has.
fn run_of<S: Source>(rt: &impl Print, alloc: Global, source: &mut S) -> Result<u8, RunFault> {
    let mut sink = WriteSink::new(io::writer(rt));
    run_script(alloc, source, &mut sink)?;
    Ok(WELL)
}

/// Prints the canonical form of the text of a file, or of standard input.
pub fn rle<R: Files + Input + Print + Eprint>(
    rt: &R,
    alloc: Global,
    form: &RleTask<'_>,
) -> Result<u8, RunFault> {
    match form.file {
        None => form_of(rt, alloc, &form.rule, &mut ReadSource::new(rt.reader())),
        Some(path) => match opened(rt, path) {
            Err(cause) => tell_unread(rt, alloc, path, cause),
            Ok(file) => form_of(rt, alloc, &form.rule, &mut ReadSource::new(file)),
        },
    }
}

/// Prints the canonical form of the text that a source has.
fn form_of<S: Source>(
    rt: &impl Print,
    alloc: Global,
    rule: &Rule,
    source: &mut S,
) -> Result<u8, RunFault> {
    let mut sink = WriteSink::new(io::writer(rt));
    rle_text(alloc, rule, source, &mut sink)?;
    Ok(WELL)
}

/// Tells what is wrong with the script of a file, or of standard input.
pub fn check<R: Files + Input + Print + Eprint>(
    rt: &R,
    alloc: Global,
    file: Option<&str>,
) -> Result<u8, RunFault> {
    match file {
        None => checked(rt, alloc, SCRIPT, &mut ReadSource::new(rt.reader())),
        Some(path) => match opened(rt, path) {
            Err(cause) => tell_unread(rt, alloc, path, cause),
            Ok(file) => checked(rt, alloc, path, &mut ReadSource::new(file)),
        },
    }
}

/// Tells what is wrong with a script of this name.
fn checked<S: Source>(
    rt: &impl Print,
    alloc: Global,
    name: &str,
    source: &mut S,
) -> Result<u8, RunFault> {
    let mut sink = WriteSink::new(io::writer(rt));
    match check_script(alloc, name.as_bytes(), source, &mut sink)? {
        CheckOutcome::Clean => Ok(WELL),
        CheckOutcome::Told => Ok(TOLD),
    }
}
