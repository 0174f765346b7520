//! A pattern's block whose `end` has not come yet.

ghost use Rattle.std.specs.Prelude.{◌≡◌, ◌++◌, ◌∷◌, [], OnOk, OnErr, IfOk};
ghost use Rattle.client_commands.specs.declared.command.ClientCommand.TheVariants.{Pattern};

use crate::command::ClientCommand;
use genedit_script::{PatternName, PatternText};
use std::alloc::{AllocError, Global};
use std::marker::Model;

/// A pattern's block whose `end` has not come yet.
#[derive(Debug, Drop)]
pub(crate) struct OpenBlock {
    /// The number of its `pattern` line.
    line: u64,
    name: PatternName,
    /// Its lines so far, each with one LF behind it.
    text: Vec<u8>,
}

impl Model for OpenBlock {
    ghost use Rattle.genedit_script.specs.Script.{PatternBlock};

    ghost Value = { PatternBlock };

    ghost view = { λ b. record { line = b.line; name = b.name; text = b.text.items } };
}

impl OpenBlock {
    /// The block that a `pattern` line opens.
    pub(crate) fn opened(alloc: Global, line: u64, name: &[u8]) -> Result<OpenBlock, AllocError>
        ensures { IfOk result (λ block. block ≡ record { line = line; name = name.now; text = [] }) }
    {
        let name = PatternName::of(alloc, name)?;
        Ok(OpenBlock {
            line,
            name,
            text: Vec::new(alloc),
        })
    }

    /// The number of the block's `pattern` line.
    pub(crate) fn line(&self) -> u64
        ensures { result ≡ self.now.line }
    {
        self.line
    }

    /// A line more.
    pub(crate) fn push(&mut self, line: &[u8]) -> Result<(), AllocError>
        ensures pushed { OnOk result (self.new ≡ record { line = self.old.line; name = self.old.name; text = (self.old.text ++ line.now) ++ 10 ∷ [] }) }
        ensures kept { OnErr result (self.new ≡ self.old) }
    {
        push_line(&mut self.text, line)
    }

    /// What the block asks for, whole.
    pub(crate) fn into_command(self) -> ClientCommand
        ensures { result ≡ Pattern self.name self.text }
    {
        let OpenBlock { name, text, .. } = self;
        ClientCommand::Pattern(name, PatternText::of_vec(text))
    }
}

/// Puts a line and one LF behind a text, or nothing.
fn push_line(text: &mut Vec<u8>, line: &[u8]) -> Result<(), AllocError>
    ensures pushed { OnOk result (text.new.items ≡ (text.old.items ++ line.now) ++ 10 ∷ []) }
    ensures kept { OnErr result (text.new.items ≡ text.old.items) }
{
    let len = text.len();
    text.extend_from_slice(line)?;
    if let Err(refused) = text.push(b'\n') {
        text.truncate(len);
        return Err(refused.into());
    }
    Ok(())
}
