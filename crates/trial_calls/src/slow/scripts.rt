//! Scripts, read line by line into one spelling: a blank between words, no zeros in front of numbers.

use crate::slow::lines::{script_lines, words};
use crate::slow::rules::{number, printed, signed};
use std::alloc::{AllocError, Global};

/// What a word has to be.
#[derive(Clone, Copy)]
enum Word {
    /// 32 bits.
    Number,
    /// 32 bits with a sign.
    Coordinate,
    /// Up to 255.
    State,
    /// 1 to 16 letters and digits.
    Name,
    /// How a pattern is turned.
    Turn,
}

/// The words behind the name of each command, of `cells` those of its replica and one cell.
static COMMANDS: [(&[u8], &[Word]); 14] = [
    (
        b"clear",
        &[
            Word::Number,
            Word::Coordinate,
            Word::Coordinate,
            Word::Number,
            Word::Number,
        ],
    ),
    (
        b"copy",
        &[Word::Number, Word::Name, Word::Coordinate, Word::Coordinate],
    ),
    (
        b"or",
        &[Word::Number, Word::Name, Word::Coordinate, Word::Coordinate],
    ),
    (b"state", &[Word::Number]),
    (b"delta", &[Word::Number, Word::Number, Word::Number]),
    (b"deliver", &[Word::Number, Word::Number]),
    (b"show", &[Word::Number, Word::Coordinate, Word::Coordinate]),
    (b"same", &[Word::Number, Word::Number]),
    (b"dump", &[Word::Number]),
    (b"export", &[Word::Number, Word::Number]),
    (
        b"cut",
        &[
            Word::Number,
            Word::Coordinate,
            Word::Coordinate,
            Word::Number,
            Word::Number,
            Word::Number,
        ],
    ),
    (b"pattern", &[Word::Name]),
    (b"turn", &[Word::Name, Word::Name, Word::Turn]),
    (
        b"cells",
        &[
            Word::Number,
            Word::Coordinate,
            Word::Coordinate,
            Word::State,
        ],
    ),
];

/// Why a text is no script: its first line with a fault, counted from 1.
#[derive(Clone, Copy, PartialEq, Eq)]
pub enum Amiss {
    Line(u64),
    Memory,
}

impl From<AllocError> for Amiss {
    fn from(_error: AllocError) -> Amiss {
        Amiss::Memory
    }
}

/// Which line is read next.
#[derive(Clone, Copy)]
enum Stage {
    Rule,
    Replicas,
    Command,
    /// One of the block that was opened at this line.
    Block(u64),
}

/// The one spelling of a script, or its first faulty line.
pub fn spelt(alloc: Global, text: &[u8]) -> Result<Vec<u8>, Amiss> {
    let lines = script_lines(alloc, text)?;
    let mut all = Vec::new(alloc);
    let mut stage = Stage::Rule;
    let mut number = 0_u64;
    for line in &lines {
        number = number.saturating_add(1);
        let words = words(alloc, line)?;
        stage = match stage {
            Stage::Block(opened) => block_line(&mut all, line, opened)?,
            stage if is_skipped(&words) => stage,
            stage => spoken_line(alloc, &mut all, &words, stage, number)?,
        };
    }
    ended(stage, number)?;
    Ok(all)
}

/// A script may end behind its commands alone.
fn ended(stage: Stage, lines: u64) -> Result<(), Amiss> {
    match stage {
        Stage::Command => Ok(()),
        Stage::Rule | Stage::Replicas => Err(Amiss::Line(lines.saturating_add(1))),
        Stage::Block(opened) => Err(Amiss::Line(opened)),
    }
}

/// A line without a word, or whose first word begins with `#`.
fn is_skipped(words: &[Vec<u8>]) -> bool {
    match words.first() {
        Some(word) => word.first() == Some(&b'#'),
        None => true,
    }
}

/// A line of a block: `end`, or one of its text.
fn block_line(all: &mut Vec<u8>, line: &[u8], opened: u64) -> Result<Stage, AllocError> {
    all.extend_from_slice(line)?;
    all.push(b'\n')?;
    Ok(if line == b"end".as_slice() {
        Stage::Command
    } else {
        Stage::Block(opened)
    })
}

/// A line outside blocks, with its words.
fn spoken_line(
    alloc: Global,
    all: &mut Vec<u8>,
    words: &[Vec<u8>],
    stage: Stage,
    number: u64,
) -> Result<Stage, Amiss> {
    let (spelling, next) = match stage {
        Stage::Rule => (rule_line(alloc, words)?, Stage::Replicas),
        Stage::Replicas => (replicas_line(alloc, words)?, Stage::Command),
        _ => {
            let next = match words.first() {
                Some(word) if word.as_slice() == b"pattern".as_slice() => Stage::Block(number),
                _ => Stage::Command,
            };
            (command_line(alloc, words)?, next)
        }
    };
    let spelling = spelling.ok_or(Amiss::Line(number))?;
    all.extend_from_slice(&spelling)?;
    all.extend_from_slice(b"\n")?;
    Ok(next)
}

/// `rule TEXT`
fn rule_line(alloc: Global, words: &[Vec<u8>]) -> Result<Option<Vec<u8>>, AllocError> {
    match words {
        [name, text] if name.as_slice() == b"rule".as_slice() => {
            let Some(text) = printed(alloc, text)? else {
                return Ok(None);
            };
            Ok(Some(joined(alloc, b"rule ", &text)?))
        }
        _ => Ok(None),
    }
}

/// `replicas N`
fn replicas_line(alloc: Global, words: &[Vec<u8>]) -> Result<Option<Vec<u8>>, AllocError> {
    match words {
        [name, count] if name.as_slice() == b"replicas".as_slice() => {
            let Some(count) = number(count, 64) else {
                return Ok(None);
            };
            let count = format!(in alloc; "{count}")?;
            Ok(Some(joined(alloc, b"replicas ", count.as_bytes())?))
        }
        _ => Ok(None),
    }
}

fn joined(alloc: Global, front: &[u8], behind: &[u8]) -> Result<Vec<u8>, AllocError> {
    let mut bytes = Vec::from_slice(alloc, front)?;
    bytes.extend_from_slice(behind)?;
    Ok(bytes)
}

/// A command, or the opening of a block.
fn command_line(alloc: Global, words: &[Vec<u8>]) -> Result<Option<Vec<u8>>, AllocError> {
    let Some((name, arguments)) = words.split_first() else {
        return Ok(None);
    };
    if name.as_slice() == b"count".as_slice() {
        return count_line(alloc, arguments);
    }
    for (command, wanted) in COMMANDS {
        if name.as_slice() == command {
            return spelling(alloc, name, arguments, wanted);
        }
    }
    Ok(None)
}

/// `count R G`; without a G it is 0.
fn count_line(alloc: Global, arguments: &[Vec<u8>]) -> Result<Option<Vec<u8>>, AllocError> {
    if arguments.len() != 1 {
        return spelling(alloc, b"count", arguments, &[Word::Number, Word::Number]);
    }
    match spelling(alloc, b"count", arguments, &[Word::Number])? {
        Some(line) => Ok(Some(joined(alloc, &line, b" 0")?)),
        None => Ok(None),
    }
}

/// The spelling of a command whose words are as wanted; behind a cell of `cells` further ones may stand.
fn spelling(
    alloc: Global,
    name: &[u8],
    arguments: &[Vec<u8>],
    wanted: &[Word],
) -> Result<Option<Vec<u8>>, AllocError> {
    let is_cells = name == b"cells".as_slice();
    if !is_count_right(arguments.len(), wanted.len(), is_cells) {
        return Ok(None);
    }
    let mut spelling = Vec::from_slice(alloc, name)?;
    for (place, argument) in arguments.iter().enumerate() {
        let Some(word) = wanted.get(wanted_at(place, is_cells)) else {
            return Ok(None);
        };
        if !push_word(alloc, &mut spelling, argument, *word)? {
            return Ok(None);
        }
    }
    Ok(Some(spelling))
}

/// Whether there are as many words as wanted, or of `cells` three more for each cell.
fn is_count_right(arguments: usize, wanted: usize, is_cells: bool) -> bool {
    if is_cells {
        arguments >= wanted && arguments % 3 == 1
    } else {
        arguments == wanted
    }
}

/// Which wanted word stands at a place.
fn wanted_at(place: usize, is_cells: bool) -> usize {
    if is_cells && place > 0 {
        (place - 1) % 3 + 1
    } else {
        place
    }
}

/// Puts a blank and a word in its one spelling behind others, if it is what it has to be.
fn push_word(
    alloc: Global,
    spelling: &mut Vec<u8>,
    argument: &[u8],
    word: Word,
) -> Result<bool, AllocError> {
    let text = match word {
        Word::Number => unsigned(argument, u64::from(u32::MAX)),
        Word::State => unsigned(argument, 255),
        Word::Coordinate => signed(argument),
        Word::Name => return push_name(spelling, argument),
        Word::Turn => return push_turn(spelling, argument),
    };
    match text {
        Some(number) => {
            spelling.extend_from_slice(format!(in alloc; " {number}")?.as_bytes())?;
            Ok(true)
        }
        None => Ok(false),
    }
}

/// A number of at most so much.
fn unsigned(argument: &[u8], most: u64) -> Option<i64> {
    i64::try_from(number(argument, most)?).ok()
}

fn push_name(spelling: &mut Vec<u8>, name: &[u8]) -> Result<bool, AllocError> {
    if name.is_empty()
        || name.len() > 16
        || !name.iter().all(|letter| letter.is_ascii_alphanumeric())
    {
        return Ok(false);
    }
    spelling.extend_from_slice(b" ")?;
    spelling.extend_from_slice(name)?;
    Ok(true)
}

fn push_turn(spelling: &mut Vec<u8>, turn: &[u8]) -> Result<bool, AllocError> {
    let is_turn = [b"left".as_slice(), b"right", b"half", b"mirror", b"flip"]
        .iter()
        .any(|word| *word == turn);
    if is_turn {
        spelling.extend_from_slice(b" ")?;
        spelling.extend_from_slice(turn)?;
    }
    Ok(is_turn)
}
