//! Words with their columns.

ghost use Rattle.std.specs.Prelude.{◌≤◌, length};

use crate::finding::Finding;
use crate::reason::Reason;
use command_words::Dialect;

/// A word, and the column where it begins, counted from 1.
#[derive(Clone, Copy)]
pub struct Word<'a> {
    pub column: usize,
    pub text: &'a [u8],
}

impl Word<'_> {
    ghost use Rattle.std.specs.Prelude.{◌≡◌, ◌≤◌};

    /// What is wrong with this word.
    pub fn finding(self, reason: Reason) -> Finding
        ensures column { result.column ≡ self.entry.column }
        ensures some { 1 ≤ result.width }
    {
        Finding {
            column: self.column,
            width: self.text.len().max(1),
            reason,
        }
    }
}

/// The words of a line that are left.
#[derive(Clone, Copy)]
pub struct Words<'a> {
    dialect: Dialect,
    line: &'a [u8],
    rest: &'a [u8],
    ghost within: { length rest.now ≤ length line.now },
}

impl<'a> Words<'a> {
    ghost use Rattle.std.specs.Prelude.{◌≡◌, ◌+◌, ◌<◌, ◌≤◌, length, IfSome};

    pub fn of(dialect: Dialect, line: &'a [u8]) -> Words<'a>
        ensures { result.line.now ≡ line.now }
    {
        Words {
            dialect,
            line,
            rest: line,
        }
    }

    pub fn next_word(&mut self) -> Option<Word<'a>>
        ensures shorter { IfSome result (λ word. length self.new.rest.now < length self.old.rest.now) }
        ensures line { self.new.line.now ≡ self.old.line.now }
        ensures counted { IfSome result (λ word. 1 ≤ word.column) }
        ensures within { IfSome result (λ word. word.column + length word.text.now ≤ length self.old.line.now + 1) }
    {
        let (text, rest) = self.dialect.split_word(self.rest)?;
        let column = self.line.len() - rest.len() - text.len() + 1;
        *self = Words {
            dialect: self.dialect,
            line: self.line,
            rest,
        };
        Some(Word { column, text })
    }

    /// The line up to the end of the last word that was read.
    pub fn read(&self) -> &'a [u8]
        ensures { length result.now ≤ length self.now.line.now }
    {
        &self.line[..self.line.len() - self.rest.len()]
    }

    /// The column behind the last word that was read.
    pub fn end(&self) -> usize
        ensures counted { 1 ≤ result }
        ensures within { result ≤ length self.now.line.now + 1 }
    {
        self.line.len() - self.rest.len() + 1
    }
}
