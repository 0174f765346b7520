//! What a client asks for.

ghost use Rattle.std.specs.Prelude.{◌≡◌, IfOk};

use crate::film::Film;
use command_words::GenerationRange;
use genedit_script::{PatternName, PatternText, Turning};
use pattern_cells::Window;
use replica_events::EditSpec;
use std::alloc::{AllocError, Global};
use std::marker::Model;

/// What a line of a client, or a pattern's block, asks for.
#[derive(Debug, Drop)]
pub enum ClientCommand {
    /// `cells x y s ..` or `clear x y w h`: these cells are drawn.
    Draw(EditSpec),
    /// `pattern NAME`, lines, `end`: from here on the name stands for the pattern of the text, if it
    /// is one.
    Pattern(PatternName, PatternText),
    /// `turn NAME NEW left`: from here on the new name stands for the named pattern, turned.
    Turn(Turning),
    /// `copy NAME x y`: every cell of the named pattern's box is drawn.
    Copy(Placement),
    /// `or NAME x y`: the nonzero cells of the named pattern are drawn.
    Or(Placement),
    /// `show x y`: the cell at x and y is told.
    Show(i32, i32),
    /// `export G [FILE]`, `export! G FILE`: the text of the cells G generations later is written to the
    /// file, or told where none is named, as by `-`.
    Export(u32, Option<FileTarget>),
    /// `export G1..G2 FILE`, `export G1..G2/STEP FILE`, and with `export!`: the same of each generation of a range, to a file
    /// each.
    Film(Film),
    /// `cut X Y W H G [FILE]`, `cut! X Y W H G FILE`: the same of the cells in a window.
    Cut(Window, u32, Option<FileTarget>),
    /// `count [G]`: how many cells there are G generations later, 0 where none is named, and where, is told.
    Count(u32),
    /// `count G1..G2`, `count G1..G2/STEP`: the same is told of each generation of a range.
    Counts(GenerationRange),
    /// `period MOST [G]`: after how many generations, MOST at most, the cells of generation G stand as they do
    /// there, moved as a whole, and by what, is told.
    Period(PeriodSearch),
    /// `undo`: the last drawing that was not taken back is.
    Undo,
    /// `redo`: what was taken back last is drawn again.
    Redo,
    /// `poll`: what others drew is asked for.
    Poll,
    /// `wait N [MS]`: edits of others are waited for.
    Wait(Wait),
    /// `sleep MS`: nothing is done for so many milliseconds.
    Sleep(u32),
    /// `save FILE`, `save! FILE`: the board is written to the file, or told where it is `-`.
    Save(Option<FileTarget>),
    /// `open FILE`: what the file holds is drawn.
    Open(FileName),
    /// `help`, `?`: the commands are told.
    Help,
    /// `bye`, `quit`, `exit`: the client ends.
    Bye,
}

/// Which pattern is drawn, and where the upper left corner of its box goes.
#[derive(Debug, Drop)]
pub struct Placement {
    /// The name of the pattern.
    pub name: PatternName,
    pub x: i32,
    pub y: i32,
}

/// How many edits are waited for, and how long at most.
#[derive(Clone, Copy, Debug, PartialEq, Eq)]
pub struct Wait {
    pub edits: u32,
    pub milliseconds: u32,
}

/// A search for a period.
#[derive(Clone, Copy, Debug, PartialEq, Eq)]
pub struct PeriodSearch {
    /// The generation of which it is the period.
    pub first: u32,
    /// The longest period that is looked for, 1 to 65535 where a line asks for it.
    pub most: u16,
}

/// A file that is written.
#[derive(Debug, Drop)]
pub struct FileTarget {
    pub name: FileName,
    /// Whether a file that has the name is replaced, whoever wrote it: where the command has a `!`.
    pub replaces: bool,
}

/// The name of a file: in a command that was read, a word, or what stood between quotes.
#[derive(Debug, Drop)]
pub struct FileName {
    path: Vec<u8>,
}

impl Model for FileName {
    ghost use Rattle.std.specs.Prelude.{List, ℕ};

    ghost Value = { List ℕ };

    ghost view = { λ n. n.path.items };
}

impl FileName {
    /// A copy of a word.
    pub fn of(alloc: Global, word: &[u8]) -> Result<FileName, AllocError>
        ensures { IfOk result (λ name. name ≡ word.now) }
    {
        let mut path = Vec::new(alloc);
        path.extend_from_slice(word)?;
        Ok(FileName { path })
    }

    pub fn as_bytes(&self) -> &[u8]
        ensures { result.now ≡ self.now }
    {
        &self.path
    }
}
