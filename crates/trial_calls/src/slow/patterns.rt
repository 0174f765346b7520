//! RLE texts, read character by character.

use crate::slow::lines::{is_blank, words};
use crate::slow::rules::{number, signed};
use multistate_rle::RleFault;
use pattern_cells::PatternCell;
use std::alloc::{AllocError, Global};

/// The most nonzero cells.
const MOST_CELLS: u64 = 1 << 20;

/// One past the last column, and past the last row.
const BEYOND: u64 = 1 << 32;

/// What a text says.
#[derive(Drop)]
pub struct SlowPattern {
    pub width: u64,
    pub height: u64,
    pub position: (i64, i64),
    pub generation: u64,
    pub cells: Vec<PatternCell>,
}

/// A line, and the place of its first byte.
#[derive(Clone, Copy)]
struct PlacedLine<'a> {
    place: usize,
    text: &'a [u8],
}

/// The lines of a text: each LF and each CR ends one.
fn lines<'a>(alloc: Global, text: &'a [u8]) -> Result<Vec<PlacedLine<'a>>, AllocError> {
    let mut lines = Vec::new(alloc);
    let mut place = 0_usize;
    for line in text.split(|byte| *byte == b'\n' || *byte == b'\r') {
        lines.push(PlacedLine { place, text: line })?;
        place = place.saturating_add(line.len()).saturating_add(1);
    }
    Ok(lines)
}

/// The pattern of a text, or what is wrong with it.
pub fn pattern(alloc: Global, text: &[u8]) -> Result<SlowPattern, RleFault> {
    let lines = lines(alloc, text)?;
    let mut origin = None;
    let mut number = 0_usize;
    for line in &lines {
        number = number.saturating_add(1);
        if line.text.first() == Some(&b'#') {
            origin = match origin {
                None => origin_of(alloc, line.text)?,
                found => found,
            };
        } else if !line.text.iter().all(|byte| is_blank(*byte)) {
            let sides = header(line.text).ok_or(RleFault::Header)?;
            let body = lines.as_slice().get(number..).unwrap_or(&[]);
            return drawn(
                alloc,
                body,
                text.len(),
                sides,
                origin.unwrap_or(Origin::NONE),
            );
        }
    }
    Err(RleFault::Header)
}

/// Where a pattern was, and at which generation.
#[derive(Clone, Copy)]
struct Origin {
    position: (i64, i64),
    generation: u64,
}

impl Origin {
    const NONE: Origin = Origin {
        position: (0, 0),
        generation: 0,
    };
}

/// What a well formed line `#CXRLE` says.
fn origin_of(alloc: Global, line: &[u8]) -> Result<Option<Origin>, AllocError> {
    let words = words(alloc, line)?;
    let Some((first, items)) = words.split_first() else {
        return Ok(None);
    };
    if first.as_slice() != b"#CXRLE".as_slice() {
        return Ok(None);
    }
    Ok(origin_in(items))
}

/// `Pos=x,y` and `Gen=n`, each at most once.
fn origin_in(items: &[Vec<u8>]) -> Option<Origin> {
    let mut position = None;
    let mut generation = None;
    for item in items {
        if let Some(text) = item.strip_prefix(b"Pos=") {
            if position.is_some() {
                return None;
            }
            position = Some(position_in(text)?);
        } else {
            let text = item.strip_prefix(b"Gen=")?;
            if generation.is_some() {
                return None;
            }
            generation = Some(number(text, u64::MAX)?);
        }
    }
    Some(Origin {
        position: position.unwrap_or((0, 0)),
        generation: generation.unwrap_or(0),
    })
}

fn position_in(text: &[u8]) -> Option<(i64, i64)> {
    let mut sides = text.splitn(2, |byte| *byte == b',');
    Some((signed(sides.next()?)?, signed(sides.next()?)?))
}

/// `x = w, y = h`, and nothing or a comma and any text behind it.
fn header(line: &[u8]) -> Option<(u64, u64)> {
    let (width, rest) = side(b'x', line)?;
    let rest = symbol(b',', rest)?;
    let (height, rest) = side(b'y', rest)?;
    match unblanked(rest).first() {
        None | Some(b',') => Some((width, height)),
        Some(_) => None,
    }
}

/// `NAME = NUMBER`, and what stands behind it.
fn side(name: u8, line: &[u8]) -> Option<(u64, &[u8])> {
    let rest = unblanked(symbol(b'=', symbol(name, line)?)?);
    let digits = rest.iter().take_while(|byte| byte.is_ascii_digit()).count();
    let (digits, behind) = rest.split_at_checked(digits)?;
    Some((number(digits, BEYOND - 1)?, behind))
}

/// What stands behind a byte that is the first past some blanks.
fn symbol(byte: u8, line: &[u8]) -> Option<&[u8]> {
    let (first, rest) = unblanked(line).split_first()?;
    if *first == byte { Some(rest) } else { None }
}

fn unblanked(line: &[u8]) -> &[u8] {
    let blanks = line.iter().take_while(|byte| is_blank(**byte)).count();
    line.get(blanks..).unwrap_or(&[])
}

/// What is read of a token.
#[derive(Clone, Copy)]
struct Token {
    /// The place of its first byte.
    place: Option<u64>,
    count: Option<u64>,
    prefix: Option<u64>,
}

impl Token {
    const NONE: Token = Token {
        place: None,
        count: None,
        prefix: None,
    };
}

/// What a byte makes of a token.
enum Step {
    Goes(Token),
    Cells(u64),
    Rows,
    Ends,
    Tag,
}

fn step_by(token: Token, place: u64, byte: u8) -> Step {
    let place = Some(token.place.unwrap_or(place));
    if let Some(prefix) = token.prefix {
        return match byte {
            b'A'..=b'X' => Step::Cells(state_of(prefix, byte - b'A')),
            _ => Step::Tag,
        };
    }
    match byte {
        b'0'..=b'9' => Step::Goes(Token {
            place,
            count: Some(longer(token.count.unwrap_or(0), byte - b'0')),
            prefix: None,
        }),
        b'p'..=b'y' => Step::Goes(Token {
            place,
            count: token.count,
            prefix: Some(u64::from(byte - b'p') + 1),
        }),
        b'b' | b'.' => Step::Cells(0),
        b'o' => Step::Cells(1),
        b'A'..=b'X' => Step::Cells(u64::from(byte - b'A') + 1),
        b'$' => Step::Rows,
        b'!' => Step::Ends,
        _ => Step::Tag,
    }
}

/// The state of a prefix and a letter, counted from 0.
fn state_of(prefix: u64, letter: u8) -> u64 {
    prefix
        .saturating_mul(24)
        .saturating_add(u64::from(letter) + 1)
}

fn longer(count: u64, digit: u8) -> u64 {
    count.saturating_mul(10).saturating_add(u64::from(digit))
}

/// What is drawn, and where it goes on.
#[derive(Drop)]
struct Pen {
    column: u64,
    row: u64,
    cells: Vec<PatternCell>,
}

impl Pen {
    /// Draws so many cells in a state, whose token began at a place.
    fn draw(&mut self, state: u64, count: u64, place: u64) -> Result<(), RleFault> {
        let Ok(state) = u8::try_from(state) else {
            return Err(RleFault::State(place));
        };
        let end = self.column.saturating_add(count);
        if count == 0 || end > BEYOND {
            return Err(RleFault::Count(place));
        }
        if state != 0 {
            if (self.cells.len() as u64).saturating_add(count) > MOST_CELLS {
                return Err(RleFault::TooMany);
            }
            self.push(state, end)?;
        }
        self.column = end;
        Ok(())
    }

    /// Draws cells up to a column.
    fn push(&mut self, state: u8, end: u64) -> Result<(), AllocError> {
        let row = u32::try_from(self.row).unwrap_or(u32::MAX);
        for column in self.column..end {
            self.cells.push(PatternCell {
                column: u32::try_from(column).unwrap_or(u32::MAX),
                row,
                state,
            })?;
        }
        Ok(())
    }

    /// Goes so many rows down.
    fn go_down(&mut self, count: u64, place: u64) -> Result<(), RleFault> {
        let row = self.row.saturating_add(count);
        if count == 0 || row >= BEYOND {
            return Err(RleFault::Count(place));
        }
        self.row = row;
        self.column = 0;
        Ok(())
    }

    /// Goes on by a byte; `None` where the tokens end.
    fn read(&mut self, token: Token, place: u64, byte: u8) -> Result<Option<Token>, RleFault> {
        let count = token.count.unwrap_or(1);
        let first = token.place.unwrap_or(place);
        match step_by(token, place, byte) {
            Step::Goes(token) => Ok(Some(token)),
            Step::Cells(state) => {
                self.draw(state, count, first)?;
                Ok(Some(Token::NONE))
            }
            Step::Rows => {
                self.go_down(count, first)?;
                Ok(Some(Token::NONE))
            }
            Step::Ends => Ok(None),
            Step::Tag => Err(RleFault::Tag(place)),
        }
    }

    /// Goes on by a line; `None` where the tokens end.
    fn read_line(&mut self, token: Token, line: PlacedLine<'_>) -> Result<Option<Token>, RleFault> {
        let mut token = token;
        let mut place = line.place as u64;
        for byte in line.text {
            if !is_blank(*byte) {
                match self.read(token, place, *byte)? {
                    Some(next) => token = next,
                    None => return Ok(None),
                }
            }
            place = place.saturating_add(1);
        }
        Ok(Some(token))
    }
}

/// What the tokens of some lines draw, in the box of the header.
fn drawn(
    alloc: Global,
    body: &[PlacedLine<'_>],
    len: usize,
    sides: (u64, u64),
    origin: Origin,
) -> Result<SlowPattern, RleFault> {
    let mut pen = Pen {
        column: 0,
        row: 0,
        cells: Vec::new(alloc),
    };
    let mut token = Some(Token::NONE);
    for line in body {
        if line.text.first() != Some(&b'#') {
            token = match token {
                Some(token) => pen.read_line(token, *line)?,
                None => None,
            };
        }
    }
    if token.is_some_and(|token| token.prefix.is_some()) {
        return Err(RleFault::Tag(len as u64));
    }
    Ok(boxed(pen.cells, sides, origin))
}

/// Cells in the least box that holds them and has the header's sides.
fn boxed(cells: Vec<PatternCell>, (width, height): (u64, u64), origin: Origin) -> SlowPattern {
    let (mut width, mut height) = (width, height);
    for cell in &cells {
        width = width.max(u64::from(cell.column) + 1);
        height = height.max(u64::from(cell.row) + 1);
    }
    SlowPattern {
        width,
        height,
        position: origin.position,
        generation: origin.generation,
        cells,
    }
}
