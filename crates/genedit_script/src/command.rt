//! What a script asks for.

ghost use Rattle.std.specs.Prelude.{◌≡◌, IfOk};

use lists::ListOf;
use pattern_turns::Turn;
use replica_events::Event;
use std::alloc::{AllocError, Global};
use std::marker::Model;

/// What a line of a script, or a pattern's block, asks for.
#[derive(Debug, Drop)]
pub enum Command {
    /// What happens in the world.
    Does(Event),
    /// From here on the name stands for the pattern of the text, if it is one.
    Names(PatternName, PatternText),
    /// `copy R NAME x y`: a replica draws every cell of the named pattern's box.
    Copies(Paste),
    /// `or R NAME x y`: a replica draws the nonzero cells of the named pattern.
    Ors(Paste),
    /// `turn NAME NEW left`: from here on the new name stands for the named pattern, turned.
    Turns(Turning),
}

/// Who pastes which pattern, and where the upper left corner of its box goes.
#[derive(Debug, Drop)]
pub struct Paste {
    /// The number of the replica that draws.
    pub replica: u32,
    /// The name of the pattern.
    pub name: PatternName,
    pub x: i32,
    pub y: i32,
}

/// Which pattern is turned, how, and which name stands for what becomes of it.
#[derive(Debug, Drop)]
pub struct Turning {
    /// The name of the pattern.
    pub name: PatternName,
    /// The name of the turned one.
    pub new_name: PatternName,
    pub turn: Turn,
}

/// The name of a pattern: in a script that was read, 1 to 16 ASCII letters and digits.
#[derive(Debug, Drop)]
pub struct PatternName {
    letters: Vec<u8>,
}

impl Model for PatternName {
    ghost use Rattle.std.specs.Prelude.{List, ℕ};

    ghost Value = { List ℕ };

    ghost view = { λ n. n.letters.items };
}

impl PatternName {
    /// A copy of a word, which the caller knows to be a name.
    pub fn of(alloc: Global, word: &[u8]) -> Result<PatternName, AllocError>
        ensures { IfOk result (λ name. name ≡ word.now) }
    {
        let mut letters = Vec::new(alloc);
        letters.extend_from_slice(word)?;
        Ok(PatternName { letters })
    }

    pub fn as_bytes(&self) -> &[u8]
        ensures { result.now ≡ self.now }
    {
        &self.letters
    }
}

/// The RLE text between `pattern NAME` and `end`, each line with one LF behind it.
pub type PatternText = ListOf<u8>;
