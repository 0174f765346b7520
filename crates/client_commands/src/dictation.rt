//! The lines of a client, one by one.

ghost use Rattle.std.specs.Prelude.{◌≡◌, ◌↔◌, IsTrue, IsSome, Some, None, IfOk, OnErr, option_map};
ghost use Rattle.client_commands.specs.Dictation.{inside_heard, outside_heard, line_heard, heard_by};

use crate::block::OpenBlock;
use crate::command::ClientCommand;
use crate::spelling::command_in;
use command_words::Keyword;
use genedit_script::{opened_in, says_something, without_return};
use std::alloc::{AllocError, Global};
use std::marker::Model;

/// What a line comes to.
#[derive(Debug, Drop)]
pub enum Heard {
    /// Nothing is asked for: the line is skipped, or belongs to a block that is open.
    Nothing,
    /// What the line, or the block that it closes, asks for.
    Command(ClientCommand),
    /// The line's number, counted from 1: it is no command where it stands.
    Faulty(u64),
}

/// The lines of a client, which come one by one.
#[derive(Debug, Drop)]
pub struct Dictation {
    alloc: Global,
    lines: u64,
    block: Option<OpenBlock>,
}

impl Model for Dictation {
    ghost use Rattle.client_commands.specs.Dictation.{DictationValue};

    ghost Value = { DictationValue };

    ghost view = { λ d. record { lines = d.lines; block = d.block } };
}

impl Dictation {
    /// No line has come.
    pub fn new(alloc: Global) -> Dictation
        ensures { result ≡ record { lines = 0; block = None } }
    {
        Dictation {
            alloc,
            lines: 0,
            block: None,
        }
    }

    /// What the next line comes to: its bytes without the LF; one CR at its end is dropped. Lines
    /// are counted from 1, skipped lines and those of blocks too, and those behind number 2^64 - 1
    /// have that number. Where memory is refused, the line was not heard: all stands as before, and
    /// it can be heard again.
    pub fn hear(&mut self, line: &[u8]) -> Result<Heard, AllocError>
        ensures heard { IfOk result (λ heard. (heard, self.new) ≡ heard_by self.old line.now) }
        ensures kept { OnErr result (self.new ≡ self.old) }
    {
        let number = self.lines.saturating_add(1);
        let heard = hear_line(self.alloc, &mut self.block, number, without_return(line))?;
        self.lines = number;
        Ok(heard)
    }

    /// How many lines were heard.
    pub fn lines(&self) -> u64
        ensures { result ≡ self.now.lines }
    {
        self.lines
    }

    /// Whether a pattern's block is open.
    pub fn is_in_block(&self) -> bool
        ensures { IsTrue result ↔ IsSome self.now.block }
    {
        self.block.is_some()
    }

    /// Where the lines end here: the number of the `pattern` line whose block has no `end`.
    pub fn ended(&self) -> Option<u64>
        ensures { result ≡ option_map (λ block. block.line) self.now.block }
    {
        let block = self.block.as_ref()?;
        Some(block.line())
    }
}

/// What a line comes to, in a block or in none.
fn hear_line(
    alloc: Global,
    block: &mut Option<OpenBlock>,
    number: u64,
    line: &[u8],
) -> Result<Heard, AllocError>
    ensures heard { IfOk result (λ heard. (heard, block.new) ≡ line_heard block.old (record { number = number; text = line.now })) }
    ensures kept { OnErr result (block.new ≡ block.old) }
{
    match block.take() {
        Some(current) => hear_inside(block, current, line),
        None => {
            let (heard, opened) = hear_outside(alloc, number, line)?;
            *block = opened;
            Ok(heard)
        }
    }
}

/// What a line of an open block comes to.
fn hear_inside(
    block: &mut Option<OpenBlock>,
    mut current: OpenBlock,
    line: &[u8],
) -> Result<Heard, AllocError>
    requires { block.old ≡ None }
    ensures heard { IfOk result (λ heard. (heard, block.new) ≡ inside_heard current line.now) }
    ensures kept { OnErr result (block.new ≡ Some current) }
{
    if Keyword::End.is_named(line) {
        return Ok(Heard::Command(current.into_command()));
    }
    let pushed = current.push(line);
    *block = Some(current);
    pushed?;
    Ok(Heard::Nothing)
}

/// What a line outside of a block comes to, and the block that it opens.
fn hear_outside(
    alloc: Global,
    number: u64,
    line: &[u8],
) -> Result<(Heard, Option<OpenBlock>), AllocError>
    ensures { IfOk result (λ heard. heard ≡ outside_heard (record { number = number; text = line.now })) }
{
    if !says_something(line) {
        return Ok((Heard::Nothing, None));
    }
    if let Some(name) = opened_in(line) {
        let open = OpenBlock::opened(alloc, number, name)?;
        return Ok((Heard::Nothing, Some(open)));
    }
    let heard = match command_in(alloc, line)? {
        Some(command) => Heard::Command(command),
        None => Heard::Faulty(number),
    };
    Ok((heard, None))
}
