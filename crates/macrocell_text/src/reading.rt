//! The lines of a macrocell, one after another.

ghost use Rattle.std.specs.Prelude.{◌≡◌, ◌⊎◌, ◌≤◌, ◌<◌, ◌^◌, ◌+◌, ◌-◌, length, MatchResult, IfOk, OnOk, Ok, Err, true};
ghost use Rattle.multistate_rle.specs.HeaderLine.{text_lines};
ghost use Rattle.macrocell_text.specs.Macrocells.{AreLevelled, are_entries, entry_level, entry_square, is_entry, squares_of};
ghost use Rattle.macrocell_lines.specs.Squares.{level_of};
ghost use Rattle.macrocell_text.specs.Texts.{begins_comment, begins_rows, square_numbers};

use crate::entry::Entry;
use crate::fault::MacrocellFault;
use crate::head::{RulePlace, first_word, generation_in_line, rule_in_line};
use crate::leaves::Leaves;
use crate::marks::rows_told;
use crate::numbers::number_told;
use crate::square_line::{leaves_with, level_told, quarters_told};
use std::alloc::{AllocError, Global};
use text_scan::is_all_blank;

/// What lines told, and the place where the next one begins.
#[derive(Drop)]
pub struct Reader {
    pub(crate) start: usize,
    pub(crate) rule: Option<RulePlace>,
    pub(crate) generation: u64,
    leaves: Option<Leaves>,
    pub(crate) entries: Vec<Entry>,
    ghost levelled: { AreLevelled entries.items },
    ghost bytes: { are_entries entries.items ≡ true },
}

impl Reader {
    ghost use Rattle.std.specs.Prelude.{◌≡◌, ◌⊎◌, ◌≤◌, ◌<◌, ◌^◌, ◌+◌, ◌-◌, length, MatchResult, IfOk, OnOk, Ok, Err, true};
    ghost use Rattle.macrocell_text.specs.Macrocells.{AreLevelled, are_entries, entry_level, entry_square, is_entry, squares_of};
    ghost use Rattle.macrocell_lines.specs.Squares.{level_of};
    ghost use Rattle.macrocell_text.specs.Readings.{reading_of};
    ghost use Rattle.macrocell_text.specs.Texts.{nothing_told, with_comment, with_line, with_numbers, with_rows, with_square, with_told};

    /// Nothing is told behind a first line.
    pub(crate) fn new(alloc: Global, first: &[u8]) -> Reader
        requires { length first.now + 1 < 2 ^ 64 }
        ensures { reading_of result ≡ nothing_told first.now }
    {
        Reader {
            start: first.len() + 1,
            rule: None,
            generation: 0,
            leaves: None,
            entries: Vec::new(alloc),
        }
    }

    /// Takes one line more.
    pub(crate) fn take_line(&mut self, line: &[u8]) -> Result<(), MacrocellFault>
        requires { self.old.start + length line.now + 1 < 2 ^ 64 }
        ensures told { MatchResult result (λ it. with_line (reading_of self.old) line.now ≡ Ok (reading_of self.new)) (λ fault. (fault ≡ MacrocellFault.Memory) ⊎ (with_line (reading_of self.old) line.now ≡ Err fault)) }
        ensures start { OnOk result (self.new.start ≡ self.old.start + (length line.now + 1)) }
    {
        self.tell(line)?;
        self.start += line.len() + 1;
        Ok(())
    }

    /// Takes what a line tells.
    fn tell(&mut self, line: &[u8]) -> Result<(), MacrocellFault>
        requires { self.old.start + length line.now < 2 ^ 64 }
        ensures told { MatchResult result (λ it. with_told (reading_of self.old) line.now ≡ Ok (reading_of self.new)) (λ fault. (fault ≡ MacrocellFault.Memory) ⊎ (with_told (reading_of self.old) line.now ≡ Err fault)) }
        ensures start { OnOk result (self.new.start ≡ self.old.start) }
    {
        if is_all_blank(line) {
            return Ok(());
        }
        if begins_comment(line) {
            self.take_comment(line);
            return Ok(());
        }
        if begins_rows(line) {
            self.take_rows(line)
        } else {
            self.take_numbers(line)
        }
    }

    /// Takes a line that begins with `#`: of two that tell one thing the last counts.
    fn take_comment(&mut self, line: &[u8])
        requires { self.old.start + length line.now < 2 ^ 64 }
        ensures { reading_of self.new ≡ with_comment (reading_of self.old) line.now }
    {
        if let Some(rule) = rule_in_line(self.start, line) {
            self.rule = Some(rule);
        }
        if let Some(generation) = generation_in_line(line) {
            self.generation = generation;
        }
    }

    /// Takes a line of rows.
    fn take_rows(&mut self, line: &[u8]) -> Result<(), MacrocellFault>
        requires { self.old.start + length line.now < 2 ^ 64 }
        ensures told { MatchResult result (λ it. with_rows (reading_of self.old) line.now ≡ Ok (reading_of self.new)) (λ fault. (fault ≡ MacrocellFault.Memory) ⊎ (with_rows (reading_of self.old) line.now ≡ Err fault)) }
        ensures start { OnOk result (self.new.start ≡ self.old.start) }
    {
        if Leaves::ByRows.is_other(self.leaves) {
            return Err(MacrocellFault::Square(self.start as u64));
        }
        let rows = rows_told(self.start, first_word(line))?;
        self.push(Some(Leaves::ByRows), Entry::Rows(rows))?;
        Ok(())
    }

    /// Takes a line of numbers.
    fn take_numbers(&mut self, line: &[u8]) -> Result<(), MacrocellFault>
        requires { self.old.start + length line.now < 2 ^ 64 }
        ensures told { MatchResult result (λ it. with_numbers (reading_of self.old) line.now ≡ Ok (reading_of self.new)) (λ fault. (fault ≡ MacrocellFault.Memory) ⊎ (with_numbers (reading_of self.old) line.now ≡ Err fault)) }
        ensures start { OnOk result (self.new.start ≡ self.old.start) }
    {
        let entry = entry_numbered(self.start + line.len(), self.leaves, &self.entries, line)?;
        self.push(leaves_with(self.leaves, entry.level()), entry)?;
        Ok(())
    }

    /// Puts a square line behind the others.
    fn push(&mut self, leaves: Option<Leaves>, entry: Entry) -> Result<(), AllocError>
        requires level { level_of (entry_square (squares_of self.old.entries.items) entry) ≡ entry_level entry }
        requires bytes { is_entry entry ≡ true }
        ensures { OnOk result (reading_of self.new ≡ with_square (reading_of self.old) leaves (entry_square (squares_of self.old.entries.items) entry)) }
    {
        self.entries.push(entry)?;
        self.leaves = leaves;
        Ok(())
    }
}

/// The square line that a line of numbers tells behind others.
fn entry_numbered(
    line_end: usize,
    leaves: Option<Leaves>,
    entries: &[Entry],
    line: &[u8],
) -> Result<Entry, MacrocellFault>
    requires place { length line.now ≤ line_end }
    requires levels { AreLevelled entries.now }
    ensures told { MatchResult result (λ entry. square_numbers line_end leaves (squares_of entries.now) line.now ≡ Ok (entry_level entry, entry_square (squares_of entries.now) entry)) (λ fault. square_numbers line_end leaves (squares_of entries.now) line.now ≡ Err fault) }
    ensures bytes { IfOk result (λ entry. is_entry entry ≡ true) }
    ensures level { IfOk result (λ entry. level_of (entry_square (squares_of entries.now) entry) ≡ entry_level entry) }
{
    let first = number_told(line_end, line)?;
    let level = level_told(leaves, first.value, first.place)?;
    quarters_told(line_end, level, entries, first.rest)
}

/// Whether a line begins with `#`.
fn begins_comment(line: &[u8]) -> bool
    ensures { result ≡ begins_comment line.now }
{
    match line.first() {
        Some(byte) => *byte == b'#',
        None => false,
    }
}

/// Whether a line begins with `.`, `*` or `$`.
fn begins_rows(line: &[u8]) -> bool
    ensures { result ≡ begins_rows line.now }
{
    match line.first() {
        Some(byte) => *byte == b'.' || (*byte == b'*' || *byte == b'$'),
        None => false,
    }
}
