//! What stands behind the first word of a line.

use crate::dialect::Dialect;
use crate::keyword::Keyword;
use crate::spelled::Spelled;

/// What a word behind the first one stands for.
#[derive(Clone, Copy, Debug, PartialEq, Eq)]
pub enum Argument {
    /// A rule's text: survival/birth/states.
    Rule,
    /// How many replicas there are: 0 to 64.
    Replicas,
    /// The name of a pattern: 1 to 16 ASCII letters and digits.
    Name,
    /// The name that is given to what becomes of the pattern.
    NewName,
    /// A turn of a pattern: `left`, `right`, `half`, `mirror` or `flip`.
    Turn,
    /// The number of a replica.
    Replica,
    /// The number of one of two replicas.
    OneReplica,
    /// The number of the other.
    OtherReplica,
    /// A coordinate: 32 bits with a sign.
    X,
    /// A coordinate: 32 bits with a sign.
    Y,
    /// The state of a cell: 0 to 255.
    State,
    Width,
    Height,
    /// The number of a message.
    Message,
    /// The place of an edit in a journal, from 0.
    From,
    /// How many edits of a journal.
    Count,
    Generation,
    /// A generation, or a range of them: `G1..G2` or `G1..G2/STEP`.
    Generations,
    /// How many generations are looked at for a period, at most: 1 to 65535.
    Most,
    /// The name of a file: any word, or what stands between its quotes.
    File,
    /// The name of a file that is written: any word but a number, or what stands between its quotes; `-`
    /// names none.
    NewFile,
    /// How many edits are waited for.
    Edits,
    Milliseconds,
}

impl Argument {
    ghost use Rattle.std.specs.Prelude.{◌≡◌};
    ghost use Rattle.command_words.specs.Spelled.{fits};

    /// Whether a word can stand for it.
    pub fn fits(self, word: &[u8]) -> bool
        ensures { result ≡ fits self word.now }
    {
        Spelled::begun(Dialect::Script, Keyword::End, b"")
            .with_word(self, word)
            .is_some()
    }

    /// What it is called, as the subject of a sentence.
    pub fn name(self) -> &'static str {
        match self {
            Argument::Rule => "the rule",
            Argument::Replicas => "the number of replicas",
            Argument::Name => "the pattern's name",
            Argument::NewName => "the new pattern's name",
            Argument::Turn => "the turn",
            Argument::Replica | Argument::OneReplica => "the replica's number",
            Argument::OtherReplica => "the other replica's number",
            Argument::X => "x",
            Argument::Y => "y",
            Argument::State => "the state",
            Argument::Width => "the width",
            Argument::Height => "the height",
            Argument::Message => "the message's number",
            Argument::From => "the place of the first edit",
            Argument::Count => "the number of edits",
            Argument::Generation | Argument::Generations => "the generation",
            Argument::Most => "the longest period",
            Argument::File | Argument::NewFile => "the file's name",
            Argument::Edits => "the number of awaited edits",
            Argument::Milliseconds => "the number of milliseconds",
        }
    }

    /// How it is written in the form of a line.
    pub fn sign(self) -> &'static str {
        match self {
            Argument::Rule => "S/B/C",
            Argument::Replicas | Argument::Edits => "N",
            Argument::Name => "NAME",
            Argument::NewName => "NEW",
            Argument::Turn => "left|right|half|mirror|flip",
            Argument::Replica => "R",
            Argument::OneReplica => "A",
            Argument::OtherReplica => "B",
            Argument::X => "x",
            Argument::Y => "y",
            Argument::State => "state",
            Argument::Width => "w",
            Argument::Height => "h",
            Argument::Message => "M",
            Argument::From => "FROM",
            Argument::Count => "COUNT",
            Argument::Generation | Argument::Generations => "G",
            Argument::Most => "MOST",
            Argument::File | Argument::NewFile => "FILE",
            Argument::Milliseconds => "MS",
        }
    }

    /// What can stand for it, in words.
    pub fn range(self) -> &'static str {
        match self {
            Argument::Rule => "survival/birth/states, as 23/3/2",
            Argument::Replicas => "0 to 64",
            Argument::Name | Argument::NewName => "1 to 16 letters and digits",
            Argument::Turn => "left, right, half, mirror or flip",
            Argument::X | Argument::Y => "-2147483648 to 2147483647",
            Argument::State => "0 to 255",
            Argument::Most => "1 to 65535",
            Argument::File => "any word",
            Argument::NewFile => "any word but a number",
            _ => "0 to 4294967295",
        }
    }
}
