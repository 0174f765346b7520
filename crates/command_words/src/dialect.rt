//! Whose lines are read.

ghost use Rattle.std.specs.Prelude.{◌≡◌, ◌<◌, [], ◌∷◌, ◌++◌, length, MatchOption, IfSome};
ghost use Rattle.text_scan.specs.Bytes.{is_space_or_tab, past_prefix};
ghost use Rattle.command_words.specs.Quotes.{client_words};

use crate::keyword::Keyword;
use crate::quotes::client_word_len;
use text_scan::{split_word, without_blanks};

/// Whose lines they are: a script has lines that no client has, and the other way round.
#[derive(Clone, Copy, Debug, PartialEq, Eq)]
pub enum Dialect {
    /// A script's, as `genedit run` takes them.
    Script,
    /// A client's of a board, as `genedit join` takes them.
    Client,
}

static SCRIPT: [Keyword; 18] = [
    Keyword::Rule,
    Keyword::Replicas,
    Keyword::Cells,
    Keyword::Clear,
    Keyword::Pattern,
    Keyword::End,
    Keyword::Turn,
    Keyword::Copy,
    Keyword::Or,
    Keyword::State,
    Keyword::Delta,
    Keyword::Deliver,
    Keyword::Show,
    Keyword::Same,
    Keyword::Dump,
    Keyword::Export,
    Keyword::Cut,
    Keyword::Count,
];

static CLIENT: [Keyword; 27] = [
    Keyword::Cells,
    Keyword::Clear,
    Keyword::Pattern,
    Keyword::End,
    Keyword::Turn,
    Keyword::Copy,
    Keyword::Or,
    Keyword::Undo,
    Keyword::Redo,
    Keyword::Show,
    Keyword::Count,
    Keyword::Period,
    Keyword::Export,
    Keyword::ExportOver,
    Keyword::Cut,
    Keyword::CutOver,
    Keyword::Poll,
    Keyword::Wait,
    Keyword::Sleep,
    Keyword::Save,
    Keyword::SaveOver,
    Keyword::Open,
    Keyword::Help,
    Keyword::Question,
    Keyword::Bye,
    Keyword::Quit,
    Keyword::Exit,
];

impl Dialect {
    ghost use Rattle.std.specs.Prelude.{◌≡◌, ◌<◌, [], ◌∷◌, ◌++◌, length, MatchOption, IfSome};
    ghost use Rattle.text_scan.specs.Bytes.{is_space_or_tab, past_prefix};
    ghost use Rattle.command_words.specs.Keywords.{keyword_spelled, keywords_of};
    ghost use Rattle.command_words.specs.Quotes.{line_words};

    /// The words with which its lines begin.
    pub fn keywords(self) -> &'static [Keyword]
        ensures { result.now ≡ keywords_of self }
    {
        match self {
            Dialect::Script => &SCRIPT,
            Dialect::Client => &CLIENT,
        }
    }

    /// The one that a word is.
    pub fn keyword(self, word: &[u8]) -> Option<Keyword>
        ensures { result ≡ keyword_spelled self word.now }
    {
        self.keywords()
            .iter()
            .copied()
            .find(|keyword| keyword.is_named(word))
    }

    /// The first word of a line, and what stands behind it, the blanks between them too. A client's line
    /// may end in a word in quotes, which has its quotes and the blanks between them.
    pub fn split_word(self, line: &[u8]) -> Option<(&[u8], &[u8])>
        ensures word { MatchOption result (line_words self line.now ≡ []) (λ p. line_words self line.now ≡ p.0.now ∷ line_words self p.1.now) }
        ensures whole { IfSome result (λ p. p.0.now ++ p.1.now ≡ past_prefix is_space_or_tab line.now) }
        ensures shorter { IfSome result (λ p. length p.1.now < length line.now) }
    {
        match self {
            Dialect::Script => split_word(line),
            Dialect::Client => split_client_word(line),
        }
    }

    pub fn other(self) -> Dialect {
        match self {
            Dialect::Script => Dialect::Client,
            Dialect::Client => Dialect::Script,
        }
    }

    /// Whose they are, as the object of a sentence.
    pub fn owner(self) -> &'static str {
        match self {
            Dialect::Script => "a script",
            Dialect::Client => "a client",
        }
    }

    /// What is run with them.
    pub fn program(self) -> &'static str {
        match self {
            Dialect::Script => "genedit run",
            Dialect::Client => "genedit join",
        }
    }

    /// By whose rule its patterns change.
    pub fn rule_owner(self) -> &'static str {
        match self {
            Dialect::Script => "the script's rule",
            Dialect::Client => "the board's rule",
        }
    }
}

/// The first word of a client's line, and what stands behind it.
fn split_client_word(line: &[u8]) -> Option<(&[u8], &[u8])>
    ensures word { MatchOption result (client_words line.now ≡ []) (λ p. client_words line.now ≡ p.0.now ∷ client_words p.1.now) }
    ensures whole { IfSome result (λ p. p.0.now ++ p.1.now ≡ past_prefix is_space_or_tab line.now) }
    ensures shorter { IfSome result (λ p. length p.1.now < length line.now) }
{
    let rest = without_blanks(line);
    if rest.is_empty() {
        return None;
    }
    Some(rest.split_at(client_word_len(rest)))
}
