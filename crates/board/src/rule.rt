//! The rule of the board: what its readers and its publisher know of the list.

use crate::entry::Entry;
use crate::value::Board;
use atomic_table::{Join, Split};
use crossbeam_utils::rule::{Outcome, Protocol};
use std::collections::LinkedList;

/// Which board it is: its history, by the numbers that name it, and its rule's number of states. No
/// value of it is made.
pub struct Label {
    pub number: u64,
    pub log_name: u64,
    pub cells_name: u64,
    pub states: u64,
}

/// What a reader or the publisher knows: a list that was published, and of which board, if that is
/// known. No value of it is made.
pub struct Sight {
    pub knows: bool,
    pub seen: LinkedList<Entry>,
    pub label: Label,
}

/// What holds of the board at each moment: it stands for one list, with which all that anybody has seen
/// begins.
pub struct BoardRule;

impl Protocol<Board, Sight> for BoardRule {
    ghost use Rattle.board.specs.Sights.{Keeps, stranger};

    ghost holds = { Keeps };

    ghost first = { stranger };
}

/// A step that sees the board, or publishes: it tells the list then.
pub struct Sees;

impl Outcome<Board, Sight> for Sees {
    ghost use Rattle.board.specs.Sights.{Tells};

    ghost then = { Tells };
}

/// A note of what one knows, for another.
pub struct Note;

impl Split<Sight> for Note {
    ghost left = { λ v. v };

    ghost right = { λ v. v };
}

impl Join<Sight> for Note {
    ghost use Rattle.board.specs.Sights.{stranger};

    ghost both = { λ v w. w };

    ghost spent = { stranger };
}
