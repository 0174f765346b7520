//! Scripts, read and checked whole.

ghost use Rattle.std.specs.Prelude.{◌≡◌, ◌+◌, ◌≤◌, ◌∷◌, [], ℕ, List, Some, None, length, IfOk, IfErr, Ok, Err};
ghost use Rattle.std.specs.Str.Lines.{lines as lines_of};
ghost use Rattle.genedit_script.specs.Script.{commands_spelled, head_spelled, head_of, script_of, lines_from, past_skipped, onto, NumberedLine};
ghost use Rattle.genedit_script.specs.ScriptFault.{IsFaultOf};

use crate::command::{Command, PatternName, PatternText};
use crate::fault::ScriptFault;
use crate::line::{Lines, ScriptLine};
use crate::spelling::{command_in, opened_in, replicas_in, rule_in};
use command_words::Keyword;
use generations_rule::Rule;
use std::alloc::Global;
use std::marker::Model;

/// A world's rule and number of replicas, and what is asked for in it.
#[derive(Debug, Drop)]
pub struct Script {
    rule: Rule,
    replicas: u16,
    commands: Vec<Command>,
}

impl Model for Script {
    ghost use Rattle.genedit_script.specs.Script.{ScriptValue};

    ghost Value = { ScriptValue };

    ghost view = { λ s. record { rule = s.rule; replicas = s.replicas; commands = s.commands.items } };
}

impl Script {
    pub fn rule(&self) -> Rule
        ensures { result ≡ self.now.rule }
    {
        self.rule
    }

    /// How many replicas the world has, 0 to 64.
    pub fn replicas(&self) -> u16
        ensures { result ≡ self.now.replicas }
    {
        self.replicas
    }

    /// What is asked for, in order.
    pub fn commands(&self) -> &[Command]
        ensures { result.now ≡ self.now.commands }
    {
        &self.commands
    }

    /// What is asked for, in order, for one who carries it out.
    pub fn into_commands(self) -> Vec<Command>
        ensures { result.items ≡ self.commands }
    {
        let Script { commands, .. } = self;
        commands
    }
}

/// The script of a text, which is checked to its end, or the first line with a fault.
///
/// Lines end with LF, and a CR before it is dropped. Lines without a word, and those whose first word
/// begins with `#`, are skipped. The first line that is not skipped is `rule S/B/C`, the second
/// `replicas N`, and each later one is a command, or it opens a block: `pattern NAME`. How the words of
/// a line are written says `command_words`.
///
/// A block's text is the lines behind its `pattern` line up to the first that is exactly `end`,
/// none of them skipped, each with one LF behind it. A block without its `end` has its fault at its
/// `pattern` line. Whether its text is a pattern, and whether a name stands for one, is asked when
/// the script runs. A text that ends before its `replicas` has its fault at the line behind its last.
///
/// Memory is first taken behind the `replicas` line: a fault up to there is told, and want of memory
/// is not.
pub fn read_script(alloc: Global, text: &[u8]) -> Result<Script, ScriptFault>
    ensures script { IfOk result (λ script. script_of text.now ≡ Ok script) }
    ensures fault { IfErr result (λ fault. IsFaultOf fault (script_of text.now)) }
    ensures head { (n : ℕ) → head_of text.now ≡ Err n → result ≡ Err (ScriptFault.Line n) }
{
    let mut lines = Lines::of(text);
    let (rule, replicas) = head_in(&mut lines).map_err(ScriptFault::Line)?;
    let commands = commands_in(alloc, lines)?;
    Ok(Script {
        rule,
        replicas,
        commands,
    })
}

/// The rule and the number of replicas, by the next two lines that are not skipped, or the line of
/// the first fault.
fn head_in(lines: &mut Lines<'_>) -> Result<(Rule, u16), u64>
    ensures head { IfOk result (λ head. head_spelled (lines.old.number + length (lines_of lines.old.rest.now)) (lines_from lines.old.number lines.old.rest.now)
        ≡ Ok (record { rule = head.0; replicas = head.1; behind = lines_from lines.new.number lines.new.rest.now })) }
    ensures fault { IfErr result (λ n. head_spelled (lines.old.number + length (lines_of lines.old.rest.now)) (lines_from lines.old.number lines.old.rest.now) ≡ Err n) }
{
    let line = required_line(lines)?;
    let rule = rule_in(line.text).ok_or(line.number)?;
    let line = required_line(lines)?;
    let replicas = replicas_in(line.text).ok_or(line.number)?;
    Ok((rule, replicas))
}

/// The next line that is not skipped, or the number of the line behind the last.
fn required_line<'a>(lines: &mut Lines<'a>) -> Result<ScriptLine<'a>, u64>
    ensures line { IfOk result (λ line. past_skipped (lines_from lines.old.number lines.old.rest.now)
        ≡ record { number = line.number; text = line.text.now } ∷ lines_from lines.new.number lines.new.rest.now) }
    ensures all { lines.new.number + length (lines_of lines.new.rest.now) ≡ lines.old.number + length (lines_of lines.old.rest.now) }
    ensures none { IfErr result (λ n. (past_skipped (lines_from lines.old.number lines.old.rest.now) ≡ [])
        × (n ≡ lines.old.number + length (lines_of lines.old.rest.now))) }
{
    match lines.next_spoken() {
        Some(line) => Ok(line),
        None => Err(lines.number),
    }
}

/// The commands of all lines that are left.
fn commands_in(alloc: Global, mut lines: Lines<'_>) -> Result<Vec<Command>, ScriptFault>
    ensures commands { IfOk result (λ commands. commands_spelled None (lines_from lines.entry.number lines.entry.rest.now) ≡ Ok commands.items) }
    ensures fault { IfErr result (λ fault. IsFaultOf fault (commands_spelled None (lines_from lines.entry.number lines.entry.rest.now))) }
{
    let mut commands = Vec::new(alloc);
    while let Some(line) = lines.next_spoken() {
        let command = command_at(alloc, line, &mut lines)?;
        commands.push(command)?;
    }
    Ok(commands)
}

/// The command of a line that is not skipped; where the line opens a block, the lines up to its
/// `end` are taken.
fn command_at(
    alloc: Global,
    line: ScriptLine<'_>,
    lines: &mut Lines<'_>,
) -> Result<Command, ScriptFault>
    ensures command { IfOk result (λ command. (all : List NumberedLine)
        → past_skipped all ≡ record { number = line.entry.number; text = line.entry.text.now } ∷ lines_from lines.old.number lines.old.rest.now
        → commands_spelled None all ≡ onto command (commands_spelled None (lines_from lines.new.number lines.new.rest.now))) }
    ensures fault { IfErr result (λ fault. (all : List NumberedLine)
        → past_skipped all ≡ record { number = line.entry.number; text = line.entry.text.now } ∷ lines_from lines.old.number lines.old.rest.now
        → IsFaultOf fault (commands_spelled None all)) }
    ensures shorter { length lines.new.rest.now ≤ length lines.old.rest.now }
{
    match opened_in(line.text) {
        Some(name) => block_in(alloc, line.number, name, lines),
        None => {
            let command = command_in(alloc, line.text)?.ok_or(ScriptFault::Line(line.number))?;
            Ok(command)
        }
    }
}

/// The pattern of a name, whose text goes up to the first line that is `end`.
fn block_in(
    alloc: Global,
    number: u64,
    name: &[u8],
    lines: &mut Lines<'_>,
) -> Result<Command, ScriptFault>
    ensures command { IfOk result (λ command.
        commands_spelled (Some (record { line = number; name = name.now; text = [] })) (lines_from lines.old.number lines.old.rest.now)
        ≡ onto command (commands_spelled None (lines_from lines.new.number lines.new.rest.now))) }
    ensures fault { IfErr result (λ fault. IsFaultOf fault
        (commands_spelled (Some (record { line = number; name = name.now; text = [] })) (lines_from lines.old.number lines.old.rest.now))) }
    ensures shorter { length lines.new.rest.now ≤ length lines.old.rest.now }
{
    let mut text = Vec::new(alloc);
    while let Some(line) = lines.next_line() {
        if Keyword::End.is_named(line.text) {
            let name = PatternName::of(alloc, name)?;
            return Ok(Command::Names(name, PatternText::of_vec(text)));
        }
        text.extend_from_slice(line.text)?;
        text.push(b'\n')?;
    }
    Err(ScriptFault::Line(number))
}
