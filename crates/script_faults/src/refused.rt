//! What was refused, and what would be right.

ghost use Rattle.std.specs.Prelude.{◌≡◌, IfOk, option_map};
ghost use Rattle.script_faults.specs.Refusals.{cells_known, refusal_words, replicas_known, said_of, states_known};

use std::alloc::{AllocError, Global};

/// A command that was refused, and what is known of it.
#[derive(Clone, Copy, Debug, PartialEq, Eq)]
pub struct Refused {
    /// The number of the refusal in the table of faults.
    pub number: u8,
    /// How many states the rule has, the dead one among them.
    pub states: Option<u16>,
    /// How many replicas there are.
    pub replicas: Option<u16>,
    /// How many cells would be drawn at once.
    pub cells: Option<u64>,
}

const TOO_MANY_CELLS: u8 = 8;

const STATE_RANGE: u8 = 11;

const NO_REPLICA: u8 = 26;

impl Refused {
    ghost use Rattle.std.specs.Prelude.{◌≡◌, IfOk};
    ghost use Rattle.script_faults.specs.Refusals.{cure_text};

    /// What is wrong with it and what would be right, in words: with the bounds where they are known.
    pub fn cure(&self, alloc: Global) -> Result<String, AllocError>
        ensures { IfOk result (λ text. text.bytes.items ≡ cure_text self.now) }
    {
        let bounds = match self.number {
            TOO_MANY_CELLS => cells_text(alloc, self.cells)?,
            STATE_RANGE => states_text(alloc, self.states)?,
            NO_REPLICA => replicas_text(alloc, self.replicas)?,
            _ => None,
        };
        match bounds {
            Some(text) => Ok(text),
            None => String::from_str(alloc, words_of(self.number)),
        }
    }
}

/// How many cells there are, and how many there may be.
fn cells_text(alloc: Global, cells: Option<u64>) -> Result<Option<String>, AllocError>
    ensures { IfOk result (λ text. option_map (λ text. text.bytes.items) text ≡ cells_known cells) }
{
    let Some(cells) = cells else {
        return Ok(None);
    };
    let text = format!(in alloc;
        "{cells} cells would be drawn, and at most 1048576 are drawn at once"
    )?;
    Ok(Some(text))
}

/// Which states there are.
fn states_text(alloc: Global, states: Option<u16>) -> Result<Option<String>, AllocError>
    ensures { IfOk result (λ text. option_map (λ text. text.bytes.items) text ≡ states_known states) }
{
    let Some(states) = states else {
        return Ok(None);
    };
    let last = states.saturating_sub(1);
    let text = format!(in alloc; "the rule's states are 0 to {last}")?;
    Ok(Some(text))
}

/// Which replicas there are.
fn replicas_text(alloc: Global, replicas: Option<u16>) -> Result<Option<String>, AllocError>
    ensures { IfOk result (λ text. option_map (λ text. text.bytes.items) text ≡ replicas_known replicas) }
{
    let text = match replicas {
        None => return Ok(None),
        Some(0) => String::from_str(alloc, "there are no replicas")?,
        Some(replicas) => format!(in alloc; "the replicas are 1 to {replicas}")?,
    };
    Ok(Some(text))
}

/// What is said of a refusal, by its number, where no bounds are known.
fn words_of(number: u8) -> &'static str
    ensures { result.now ≡ said_of refusal_words number }
{
    match number {
        4 => "a pattern begins with a header `x = w, y = h`, behind comments",
        5 => "this can stand neither as a cell nor as the end of a row or of the pattern",
        6 => "a count is 1 at least, and leads no further than column and row 4294967295",
        7 => "a pattern's states are 0 to 255",
        8 => "at most 1048576 cells are drawn at once",
        9 => "no cell would be drawn",
        10 => "the plane has x and y from -1073741824 to 1073741823",
        11 => "the rule has no such state",
        22 => "the last generation is 536870912",
        23 => "there are more than 16777216 cells then",
        24 => "the counter of stamps is at its end",
        25 => "the replica has drawn or taken fewer edits; the first is 0",
        26 => "there is no replica of this number; they are numbered from 1",
        27 => "no message of this number was sent before; they are numbered from 1",
        38 => "no pattern of this name stands before",
        _ => "the command would do nothing",
    }
}
