//! What the next line is due to be.

ghost use Rattle.std.specs.Prelude.{◌≡◌, ◌&&◌, codes, true, false};
ghost use Rattle.text_scan.specs.Words.{words};
ghost use Rattle.command_words.specs.Keywords.{keyword_name};
ghost use Rattle.genedit_script.specs.Script.{lines_from};
ghost use Rattle.script_faults.specs.Faults.{are_only, begins_with, has_end, opens};

use command_words::Keyword;
use genedit_script::{Lines, says_something};
use text_scan::split_word;

/// What closes a block.
#[derive(Clone, Copy, Debug, PartialEq, Eq)]
pub enum Closing {
    /// A line that is exactly `end`.
    Exact,
    /// Where no such line follows: one whose one word is `end`.
    Blank,
}

/// What a line is due to be.
#[derive(Clone, Copy, Debug, PartialEq, Eq)]
pub enum Due {
    /// `rule TEXT`
    Rule,
    /// `replicas N`
    Replicas,
    /// A command, or `pattern NAME`.
    Command,
    /// A line of a block, or its end.
    End(Closing),
}

impl Closing {
    ghost use Rattle.std.specs.Prelude.{◌≡◌};
    ghost use Rattle.genedit_script.specs.Script.{lines_from};
    ghost use Rattle.script_faults.specs.Faults.{closes, closing_of};

    /// What closes a block, which has its `end` or not.
    fn of_block(closed: bool) -> Closing
        ensures { result ≡ closing_of closed }
    {
        if closed {
            Closing::Exact
        } else {
            Closing::Blank
        }
    }

    /// Whether the line closes the block.
    pub fn is_met_by(self, line: &[u8]) -> bool
        ensures { result ≡ closes self line.now }
    {
        match self {
            Closing::Exact => Keyword::End.is_named(line),
            Closing::Blank => is_only_end(line),
        }
    }
}

impl Due {
    ghost use Rattle.std.specs.Prelude.{◌≡◌};
    ghost use Rattle.genedit_script.specs.Script.{lines_from};
    ghost use Rattle.script_faults.specs.Faults.{due_after, is_passed, opens};

    /// Whether the line is skipped.
    pub fn passes(self, line: &[u8]) -> bool
        ensures { result ≡ is_passed self line.now }
    {
        match self {
            Due::End(_) => false,
            Due::Rule | Due::Replicas | Due::Command => !says_something(line),
        }
    }

    /// Whether the line opens a block, even wrongly.
    pub fn opens(self, line: &[u8]) -> bool
        ensures { result ≡ opens self line.now }
    {
        match self {
            Due::End(_) => false,
            Due::Rule | Due::Replicas | Due::Command => begins_with(Keyword::Pattern, line),
        }
    }

    /// What is due behind a line that is not skipped; a block that it opens has its `end` or not.
    pub fn behind(self, line: &[u8], closed: bool) -> Due
        ensures { result ≡ due_after self line.now closed }
    {
        match self {
            Due::End(closing) if closing.is_met_by(line) => Due::Command,
            Due::End(closing) => Due::End(closing),
            _ if begins_with(Keyword::Pattern, line) => Due::End(Closing::of_block(closed)),
            Due::Rule if begins_with(Keyword::Replicas, line) => Due::Command,
            Due::Rule => Due::Replicas,
            Due::Replicas if begins_with(Keyword::Rule, line) => Due::Replicas,
            Due::Replicas | Due::Command => Due::Command,
        }
    }
}

/// Whether it is known that no further line is exactly `end`, so that none is looked for again.
#[derive(Clone, Copy)]
pub struct Ends {
    pub none: bool,
}

/// Whether the line opens a block, even wrongly, that has its `end` among the lines behind.
pub fn opens_closed(due: Due, line: &[u8], lines: Lines<'_>, ends: &mut Ends) -> bool
    requires { ends.old.none ≡ true → has_end (lines_from lines.number lines.rest.now) ≡ false }
    ensures closed { result ≡ (opens due line.now && has_end (lines_from lines.entry.number lines.entry.rest.now)) }
    ensures known { ends.new.none ≡ true → has_end (lines_from lines.entry.number lines.entry.rest.now) ≡ false }
{
    if ends.none || !due.opens(line) {
        return false;
    }
    let found = end_follows(lines);
    *ends = Ends { none: !found };
    found
}

/// Whether the line's first word is this one.
pub fn begins_with(keyword: Keyword, line: &[u8]) -> bool
    ensures { result ≡ begins_with (keyword_name keyword) (words line.now) }
{
    match split_word(line) {
        Some((word, _)) => keyword.is_named(word),
        None => false,
    }
}

/// Whether some line is exactly `end`.
fn end_follows(mut lines: Lines<'_>) -> bool
    ensures { result ≡ has_end (lines_from lines.entry.number lines.entry.rest.now) }
{
    while let Some(line) = lines.next_line() {
        if Closing::Exact.is_met_by(line.text) {
            return true;
        }
    }
    false
}

/// The number of the first line whose one word is `end`.
pub fn almost_end(mut lines: Lines<'_>) -> Option<u64> {
    while let Some(line) = lines.next_line() {
        if Closing::Blank.is_met_by(line.text) {
            return Some(line.number);
        }
    }
    None
}

fn is_only_end(line: &[u8]) -> bool
    ensures { result ≡ are_only (codes "end") (words line.now) }
{
    match split_word(line) {
        Some((word, rest)) => Keyword::End.is_named(word) && split_word(rest).is_none(),
        None => false,
    }
}
