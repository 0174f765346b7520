//! What is to be done for a script: the events of its world, and a line of output for each command.

ghost use Rattle.std.specs.Prelude.{◌≡◌, ◌↔◌, List, ℕ, map, IfOk, IsErr, OnOk};
ghost use Rattle.multistate_rle.specs.Reading.{parsed};
ghost use Rattle.genedit_lib.specs.Output.{Says, after_command, command_step, events_among, naming_text, no_patterns, paste_step, step_line, steps, turned_named, turning_text, with_named, with_text};
ghost use Rattle.genedit_lib.specs.Patterns.{pattern_in};
ghost use Rattle.genedit_lib.specs.Plan.{line_of, step_of};

use crate::output::{no_pattern_text, pattern_text, text_refusal};
use crate::patterns::Patterns;
use crate::step::{Step, Text};
use genedit_script::{Command, PatternName, PatternText, Turning};
use multistate_rle::{RleFault, parse};
use replica_core::{EditSpec, Event};
use std::alloc::{AllocError, Global};

/// What is printed at a command.
#[derive(Debug, Drop)]
pub enum PlannedLine {
    /// The line of the next reply.
    Reply,
    /// A line of the command's own.
    Own(Text),
}

/// What happens in a script's world, and what is printed.
#[derive(Debug, Drop)]
pub struct Plan {
    pub events: Vec<Event>,
    pub lines: Vec<PlannedLine>,
}

/// The plan of a script's commands. A name means the last pattern that was given it before.
pub fn planned(alloc: Global, commands: Vec<Command>) -> Result<Plan, AllocError>
    ensures events { IfOk result (λ plan. plan.events.items ≡ events_among (steps no_patterns commands.items)) }
    ensures lines { IfOk result (λ plan. map line_of plan.lines.items ≡ map step_line (steps no_patterns commands.items)) }
{
    let mut patterns = Patterns::new(alloc);
    let mut events = Vec::new(alloc);
    let mut lines = Vec::new(alloc);
    for command in commands {
        match next_step(alloc, &mut patterns, command)? {
            Step::Happens(event) => {
                events.push(event)?;
                lines.push(PlannedLine::Reply)?;
            }
            Step::Says(text) => lines.push(PlannedLine::Own(text))?,
        }
    }
    Ok(Plan { events, lines })
}

/// What a command comes to, and what names stand for behind it.
fn next_step(alloc: Global, patterns: &mut Patterns, command: Command) -> Result<Step, AllocError>
    ensures step { IfOk result (λ step. step_of step ≡ command_step (pattern_in patterns.old) command) }
    ensures after { OnOk result ((name : List ℕ) → pattern_in patterns.new name ≡ after_command (pattern_in patterns.old) command name) }
{
    match command {
        Command::Does(event) => Ok(Step::Happens(event)),
        Command::Names(name, text) => give_name(alloc, patterns, name, &text),
        Command::Turns(turning) => turn_named(alloc, patterns, turning),
        Command::Copies(paste) => {
            let pattern = patterns.copy_of(&paste.name)?;
            let spec = pattern.map(|pattern| EditSpec::Copy(pattern, paste.x, paste.y));
            drawn(alloc, paste.replica, spec)
        }
        Command::Ors(paste) => {
            let pattern = patterns.copy_of(&paste.name)?;
            let spec = pattern.map(|pattern| EditSpec::Or(pattern, paste.x, paste.y));
            drawn(alloc, paste.replica, spec)
        }
    }
}

/// The draw of a paste, or the line that no pattern has its name.
fn drawn(alloc: Global, replica: u32, spec: Option<EditSpec>) -> Result<Step, AllocError>
    ensures { IfOk result (λ step. step_of step ≡ paste_step replica spec) }
{
    match spec {
        Some(spec) => Ok(Step::Happens(Event::Draw(replica, spec))),
        None => Ok(Step::Says(no_pattern_text(alloc)?)),
    }
}

/// Lets a name stand for the pattern of a text. A text that is none leaves the name as it was.
fn give_name(
    alloc: Global,
    patterns: &mut Patterns,
    name: PatternName,
    text: &PatternText,
) -> Result<Step, AllocError>
    ensures step { IfOk result (λ step. step_of step ≡ Says (naming_text name (parsed text.now))) }
    ensures after { OnOk result ((other : List ℕ) → pattern_in patterns.new other ≡ with_text (pattern_in patterns.old) name (parsed text.now) other) }
{
    match parse(alloc, text.as_slice()) {
        Ok(pattern) => {
            let line = pattern_text(alloc, name.as_bytes(), &pattern)?;
            patterns.insert(name, pattern)?;
            Ok(Step::Says(line))
        }
        Err(fault) => Ok(Step::Says(text_refusal(alloc, refusal(fault)?)?)),
    }
}

/// Lets a name stand for what becomes of a named pattern that is turned.
fn turn_named(alloc: Global, patterns: &mut Patterns, turning: Turning) -> Result<Step, AllocError>
    ensures step { IfOk result (λ step. step_of step ≡ Says (turning_text turning.new_name (turned_named (pattern_in patterns.old) turning))) }
    ensures after { OnOk result ((other : List ℕ) → pattern_in patterns.new other ≡ with_named (pattern_in patterns.old) turning.new_name (turned_named (pattern_in patterns.old) turning) other) }
{
    let Turning {
        name,
        new_name,
        turn,
    } = turning;
    match patterns.turned_of(alloc, &name, turn)? {
        Some(pattern) => {
            let line = pattern_text(alloc, new_name.as_bytes(), &pattern)?;
            patterns.insert(new_name, pattern)?;
            Ok(Step::Says(line))
        }
        None => Ok(Step::Says(no_pattern_text(alloc)?)),
    }
}

/// What is wrong with a text, unless the fault is want of memory.
fn refusal(fault: RleFault) -> Result<RleFault, AllocError>
    ensures refused { IfOk result (λ refusal. refusal ≡ fault) }
    ensures want { IsErr result ↔ (fault ≡ RleFault.Memory) }
{
    match fault {
        RleFault::Memory => Err(AllocError),
        refusal => Ok(refusal),
    }
}
