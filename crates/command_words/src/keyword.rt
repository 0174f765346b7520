//! The words with which lines begin.

ghost use Rattle.std.specs.Prelude.{◌≡◌};
ghost use Rattle.command_words.specs.Arguments.{without_replica};

use crate::argument::Argument;
use crate::dialect::Dialect;
use std::alloc::{AllocError, Global};

/// A word with which a line of a script or of a client begins, `end` among them.
#[derive(Clone, Copy, Debug, PartialEq, Eq)]
pub enum Keyword {
    Rule,
    Replicas,
    Cells,
    Clear,
    Pattern,
    End,
    Turn,
    Copy,
    Or,
    State,
    Delta,
    Deliver,
    Show,
    Same,
    Dump,
    Export,
    /// `export!`, which may replace a file.
    ExportOver,
    Cut,
    /// `cut!`, which may replace a file.
    CutOver,
    Count,
    Period,
    Undo,
    Redo,
    Poll,
    Wait,
    Sleep,
    Save,
    /// `save!`, which may replace a file.
    SaveOver,
    Open,
    Help,
    /// `?`, which is `help`.
    Question,
    Bye,
    /// `quit`, which is `bye`.
    Quit,
    /// `exit`, which is `bye`.
    Exit,
}

impl Keyword {
    ghost use Rattle.std.specs.Prelude.{◌≡◌};
    ghost use Rattle.std.specs.Str.{bytes_eq};
    ghost use Rattle.command_words.specs.Keywords.{keyword_name};
    ghost use Rattle.command_words.specs.Arguments.{arguments_of, optional_of, repeated_of, script_arguments};

    /// The word itself.
    pub fn name(self) -> &'static str
        ensures { result.now ≡ keyword_name self }
    {
        match self {
            Keyword::Rule => "rule",
            Keyword::Replicas => "replicas",
            Keyword::Cells => "cells",
            Keyword::Clear => "clear",
            Keyword::Pattern => "pattern",
            Keyword::End => "end",
            Keyword::Turn => "turn",
            Keyword::Copy => "copy",
            Keyword::Or => "or",
            Keyword::State => "state",
            Keyword::Delta => "delta",
            Keyword::Deliver => "deliver",
            Keyword::Show => "show",
            Keyword::Same => "same",
            Keyword::Dump => "dump",
            Keyword::Export => "export",
            Keyword::ExportOver => "export!",
            Keyword::Cut => "cut",
            Keyword::CutOver => "cut!",
            Keyword::Count => "count",
            Keyword::Period => "period",
            Keyword::Undo => "undo",
            Keyword::Redo => "redo",
            Keyword::Poll => "poll",
            Keyword::Wait => "wait",
            Keyword::Sleep => "sleep",
            Keyword::Save => "save",
            Keyword::SaveOver => "save!",
            Keyword::Open => "open",
            Keyword::Help => "help",
            Keyword::Question => "?",
            Keyword::Bye => "bye",
            Keyword::Quit => "quit",
            Keyword::Exit => "exit",
        }
    }

    /// Whether the word is this one.
    pub fn is_named(self, word: &[u8]) -> bool
        ensures { result ≡ bytes_eq word.now (keyword_name self) }
    {
        word == self.name().as_bytes()
    }

    /// How a line with it is written: the word and the signs of its arguments, with `..` behind those
    /// that are repeated, and with brackets round those that may be left out.
    pub fn form(self, alloc: Global, dialect: Dialect) -> Result<String, AllocError> {
        let mut form = String::from_str(alloc, self.name())?;
        push_signs(&mut form, " ", self.arguments(dialect), "")?;
        push_signs(&mut form, " ", self.repeated(), "")?;
        if !self.repeated().is_empty() {
            form.push_str(" ..")?;
        }
        push_signs(&mut form, " [", self.optional(dialect), "]")?;
        Ok(form)
    }

    /// What stands behind it. A client is one replica, so that its lines do not begin with one; and its exports may be of
    /// a range of generations.
    pub fn arguments(self, dialect: Dialect) -> &'static [Argument]
        ensures { result.now ≡ arguments_of dialect self }
    {
        match (dialect, self) {
            (Dialect::Client, Keyword::Export) => &[Argument::Generations],
            (Dialect::Script, _) => self.script_arguments(),
            (Dialect::Client, _) => without_replica(self.script_arguments()),
        }
    }

    fn script_arguments(self) -> &'static [Argument]
        ensures { result.now ≡ script_arguments self }
    {
        match self {
            Keyword::Rule => &[Argument::Rule],
            Keyword::Replicas => &[Argument::Replicas],
            Keyword::Cells => &[Argument::Replica],
            Keyword::Clear => &[
                Argument::Replica,
                Argument::X,
                Argument::Y,
                Argument::Width,
                Argument::Height,
            ],
            Keyword::Pattern => &[Argument::Name],
            Keyword::Turn => &[Argument::Name, Argument::NewName, Argument::Turn],
            Keyword::Copy | Keyword::Or => &[
                Argument::Replica,
                Argument::Name,
                Argument::X,
                Argument::Y,
            ],
            Keyword::State => &[Argument::Replica],
            Keyword::Delta => &[Argument::Replica, Argument::From, Argument::Count],
            Keyword::Deliver => &[Argument::Message, Argument::Replica],
            Keyword::Show => &[Argument::Replica, Argument::X, Argument::Y],
            Keyword::Same => &[Argument::OneReplica, Argument::OtherReplica],
            Keyword::Dump => &[Argument::Message],
            Keyword::Export => &[Argument::Replica, Argument::Generation],
            Keyword::ExportOver => &[Argument::Generations, Argument::NewFile],
            Keyword::Cut => &[
                Argument::Replica,
                Argument::X,
                Argument::Y,
                Argument::Width,
                Argument::Height,
                Argument::Generation,
            ],
            Keyword::CutOver => &[
                Argument::X,
                Argument::Y,
                Argument::Width,
                Argument::Height,
                Argument::Generation,
                Argument::NewFile,
            ],
            Keyword::Count => &[Argument::Replica],
            Keyword::Period => &[Argument::Most],
            Keyword::Wait => &[Argument::Edits],
            Keyword::Sleep => &[Argument::Milliseconds],
            Keyword::Save | Keyword::SaveOver => &[Argument::NewFile],
            Keyword::Open => &[Argument::File],
            Keyword::End | Keyword::Poll | Keyword::Undo | Keyword::Redo => &[],
            Keyword::Help | Keyword::Question => &[],
            Keyword::Bye | Keyword::Quit | Keyword::Exit => &[],
        }
    }

    /// What may stand behind that once, and may be left out.
    pub fn optional(self, dialect: Dialect) -> &'static [Argument]
        ensures { result.now ≡ optional_of dialect self }
    {
        match (dialect, self) {
            (Dialect::Client, Keyword::Export | Keyword::Cut) => &[Argument::NewFile],
            (Dialect::Script, Keyword::Count) => &[Argument::Generation],
            (Dialect::Client, Keyword::Count) => &[Argument::Generations],
            (Dialect::Client, Keyword::Period) => &[Argument::Generation],
            (Dialect::Client, Keyword::Wait) => &[Argument::Milliseconds],
            _ => &[],
        }
    }

    /// What stands behind that once or more often.
    pub fn repeated(self) -> &'static [Argument]
        ensures { result.now ≡ repeated_of self }
    {
        match self {
            Keyword::Cells => &[Argument::X, Argument::Y, Argument::State],
            _ => &[],
        }
    }

    /// What a word behind it stands for, by the word's place from 0, if one may stand there.
    pub fn argument_at(self, dialect: Dialect, place: usize) -> Option<Argument> {
        let arguments = self.arguments(dialect);
        let Some(behind) = place.checked_sub(arguments.len()) else {
            return arguments.get(place).copied();
        };
        match behind.checked_rem(self.repeated().len()) {
            Some(place) => self.repeated().get(place).copied(),
            None => self.optional(dialect).get(behind).copied(),
        }
    }

    /// What has to stand at a place behind it, where a word may stand.
    pub fn needed_at(self, dialect: Dialect, place: usize) -> Option<Argument> {
        if self.arguments(dialect).len() <= place && !self.optional(dialect).is_empty() {
            return None;
        }
        self.argument_at(dialect, place)
    }
}

/// The arguments behind a replica's number.
fn without_replica(arguments: &[Argument]) -> &[Argument]
    ensures { result.now ≡ without_replica arguments.now }
{
    match arguments.split_first() {
        Some((Argument::Replica, behind)) => behind,
        _ => arguments,
    }
}

/// Puts the signs of arguments behind a form, each between these.
fn push_signs(
    form: &mut String,
    before: &str,
    arguments: &[Argument],
    behind: &str,
) -> Result<(), AllocError> {
    for argument in arguments {
        form.push_str(before)?;
        form.push_str(argument.sign())?;
        form.push_str(behind)?;
    }
    Ok(())
}
