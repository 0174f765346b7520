//! The tokens behind the header, read byte by byte.

ghost use Rattle.std.specs.Prelude.{◌≡◌, ◌≢◌, ◌+◌, ◌*◌, ◌≤◌, ◌<◌, ◌^◌, ◌++◌, ◌⊎◌, Some, None, length, OnOk, IfErr, IfOk, OnErr, unwrap_or, min, max, if◌then◌else◌, ◌==◌};
ghost use Rattle.multistate_rle.specs.Reading.{fresh, with_digit, with_prefix, fault_of, width_of, height_of};
ghost use Rattle.std.specs.Prelude.{[]};
ghost use Rattle.multistate_rle.specs.Begun.{capped};
ghost use Rattle.multistate_rle.specs.declared.numbers.TheConstants.{COUNT_LIMIT};
ghost use Rattle.multistate_rle.specs.Tokens.{Cells, Rows, run, cells_in_row};

use crate::ahead::token_at;
use crate::fault::RleFault;
use crate::numbers::{COUNT_LIMIT, longer_count};
use crate::role::Role;
use pattern_cells::PatternCell;
use std::alloc::{AllocError, Global};
use std::marker::Model;

const MOST_CELLS: u64 = 1 << 20;

/// What is read of a token that is not at its end: its place, its count (at most `COUNT_LIMIT`,
/// however many digits it has) and its prefix.
#[derive(Clone, Copy, Debug, PartialEq, Eq)]
pub struct Begun {
    pub place: Option<u64>,
    pub count: Option<u64>,
    pub prefix: Option<u8>,
}

impl Model for Begun {
    ghost use Rattle.multistate_rle.specs.Reading.{BegunValue};

    ghost Value = { BegunValue };

    ghost view = { λ v. record { place = v.place; count = v.count; prefix = v.prefix } };

    ghost inverse = { λ v. record { place = v.place; count = v.count; prefix = v.prefix } };
}

impl Begun {
    pub fn new() -> Begun
        ensures { result ≡ fresh }
    {
        Begun {
            place: None,
            count: None,
            prefix: None,
        }
    }

    pub fn with_digit(self, place: u64, digit: u8) -> Begun
        requires count { unwrap_or self.count 0 ≤ COUNT_LIMIT }
        requires digit { digit ≤ 9 }
        ensures { result ≡ capped (with_digit place digit self) }
    {
        Begun {
            place: Some(self.place.unwrap_or(place)),
            count: Some(longer_count(self.count.unwrap_or(0), digit)),
            prefix: self.prefix,
        }
    }

    pub fn with_prefix(self, place: u64, prefix: u8) -> Begun
        ensures { result ≡ with_prefix place prefix self }
    {
        Begun {
            place: Some(self.place.unwrap_or(place)),
            count: self.count,
            prefix: Some(prefix),
        }
    }
}

/// Whether tokens may follow a byte.
#[derive(Clone, Copy, Debug, PartialEq, Eq)]
pub enum Onward {
    Goes,
    Ends,
}

/// What was drawn so far and the sides that it needs, where the next token draws, and what is read of
/// it.
#[derive(Drop)]
pub struct TokenReader {
    pub column: u64,
    pub row: u64,
    pub cells: Vec<PatternCell>,
    pub width: u64,
    pub height: u64,
    pub begun: Begun,
    ghost column_fits: { column ≤ 2 ^ 32 },
    ghost row_fits: { row < 2 ^ 32 },
    ghost count_fits: { unwrap_or begun.count 0 ≤ COUNT_LIMIT },
    ghost prefix_fits: { unwrap_or begun.prefix 0 ≤ 10 },
    ghost wide: { width ≡ width_of 0 cells.items },
    ghost high: { height ≡ height_of 0 cells.items },
}

impl TokenReader {
    ghost use Rattle.multistate_rle.specs.declared.line.LineProgress.TheVariants.{Inside};
    ghost use Rattle.multistate_rle.specs.Steps.{pen_of, Reads, ReadsOn, EndsAt, Puts};
    ghost use Rattle.std.specs.Prelude.{◌≡◌, ◌+◌, ◌*◌, ◌≤◌, ◌<◌, ◌^◌, ◌++◌, ◌⊎◌, Some, None, [], length, OnOk, IfErr, IfOk, OnErr, IsTrue, unwrap_or};
    ghost use Rattle.multistate_rle.specs.Reading.{fresh, fault_of};
    ghost use Rattle.multistate_rle.specs.Tokens.{Cells, Rows};

    pub fn new(alloc: Global) -> TokenReader
        ensures { (result.column ≡ 0) × (result.row ≡ 0) × (result.cells.items ≡ []) × (result.begun ≡ fresh) }
    {
        TokenReader {
            column: 0,
            row: 0,
            cells: Vec::new(alloc),
            width: 0,
            height: 0,
            begun: Begun::new(),
        }
    }

    /// Goes on by one byte, neither a blank nor a line's end nor in a comment.
    pub fn read(&mut self, place: u64, byte: u8) -> Result<Onward, RleFault>
        ensures { Reads self.old (place, byte) result self.new }
    {
        match Role::of(self.begun.prefix, byte) {
            Role::EndMark => {
                self.end(place)?;
                return Ok(Onward::Ends);
            }
            Role::Digit(digit) => self.begun = self.begun.with_digit(place, digit),
            Role::Prefix(prefix) => self.begun = self.begun.with_prefix(place, prefix),
            Role::State(state) => self.put_run(place, state)?,
            Role::RowEnd => self.put_rows(place)?,
            Role::Stray => return Err(RleFault::Tag(place)),
        }
        Ok(Onward::Goes)
    }

    /// Reads the runs whose bytes stand together from this place of a line on, one behind the other, and
    /// tells the place behind them; the same place, if there is none.
    pub fn read_runs(&mut self, text: &[u8], start: usize) -> Result<usize, RleFault>
        requires begun { self.old.begun ≡ fresh }
        requires within { start ≤ length text.now }
        ensures { ReadsOn Inside text.now start self.old result self.new }
    {
        let mut place = start;
        loop {
            let next = self.read_run(text, place)?;
            if next == place {
                return Ok(place);
            }
            place = next;
        }
    }

    /// Reads one such run.
    fn read_run(&mut self, text: &[u8], start: usize) -> Result<usize, RleFault>
        requires begun { self.old.begun ≡ fresh }
        requires within { start ≤ length text.now }
        ensures reads { ReadsOn Inside text.now start self.old result self.new }
        ensures begun { OnOk result (self.new.begun ≡ fresh) }
    {
        let ahead = token_at(text, start);
        let place = ahead.place;
        if place == text.len() {
            return Ok(start);
        }
        match Role::of(ahead.prefix, text[place]) {
            Role::State(state) => match self.draw_run(start as u64, ahead.count, state) {
                Ok(()) => Ok(place + 1),
                Err(fault) => Err(fault),
            },
            _ => Ok(start),
        }
    }

    /// Whether nothing is read of the next token.
    pub fn is_between(&self) -> bool
        ensures { IsTrue result → self.now.begun ≡ fresh }
    {
        self.begun.place.is_none() && self.begun.count.is_none() && self.begun.prefix.is_none()
    }

    /// The end of the tokens, at a place: no prefix may stand alone.
    pub fn end(&self, place: u64) -> Result<(), RleFault>
        ensures { EndsAt place self.now.begun result }
    {
        match self.begun.prefix {
            None => Ok(()),
            Some(_) => Err(RleFault::Tag(place)),
        }
    }

    fn put_run(&mut self, place: u64, state: u16) -> Result<(), RleFault>
        ensures { Puts (unwrap_or self.old.begun.place place) (Cells (unwrap_or self.old.begun.count 1) state) self.old result self.new }
    {
        let begun = self.begun;
        self.begun = Begun::new();
        self.draw_run(
            begun.place.unwrap_or(place),
            begun.count.unwrap_or(1),
            state,
        )
    }

    /// Draws a run whose token begins at this place.
    fn draw_run(&mut self, place: u64, count: u64, state: u16) -> Result<(), RleFault>
        requires begun { self.old.begun ≡ fresh }
        requires count { count ≤ COUNT_LIMIT }
        ensures { Puts place (Cells count state) self.old result self.new }
    {
        if let Some(fault) = self.run_fault(place, count, state) {
            return Err(fault);
        }
        push_run(&mut self.cells, count, state as u8, self.column, self.row)?;
        self.column += count;
        self.width = reached(self.width, state, self.column);
        self.height = reached(self.height, state, self.row + 1);
        Ok(())
    }

    fn put_rows(&mut self, place: u64) -> Result<(), RleFault>
        ensures { Puts (unwrap_or self.old.begun.place place) (Rows (unwrap_or self.old.begun.count 1)) self.old result self.new }
    {
        let place = self.begun.place.unwrap_or(place);
        let count = self.begun.count.unwrap_or(1);
        if count == 0 || self.row + count > u64::from(u32::MAX) {
            return Err(RleFault::Count(place));
        }
        self.column = 0;
        self.row += count;
        self.begun = Begun::new();
        Ok(())
    }

    fn run_fault(&self, place: u64, count: u64, state: u16) -> Option<RleFault>
        requires { count ≤ COUNT_LIMIT }
        ensures { result ≡ fault_of place (pen_of self.now) (Cells count state) }
    {
        if state > 255 {
            return Some(RleFault::State(place));
        }
        if count == 0 || self.column + count > 1 << 32 {
            return Some(RleFault::Count(place));
        }
        let cells = if state == 0 { 0 } else { count };
        if self.cells.len() as u64 + cells > MOST_CELLS {
            return Some(RleFault::TooMany);
        }
        None
    }
}

/// A side, once a run of a state reaches so far.
fn reached(side: u64, state: u16, reach: u64) -> u64
    ensures { result ≡ (if state == 0 then side else max side reach) }
{
    if state == 0 { side } else { side.max(reach) }
}

/// The nonzero cells of a run.
fn push_run(
    cells: &mut Vec<PatternCell>,
    count: u64,
    state: u8,
    column: u64,
    row: u64,
) -> Result<(), AllocError>
    requires columns { column + count ≤ 2 ^ 32 }
    requires row { row < 2 ^ 32 }
    ensures ok { OnOk result (cells.new.items ≡ cells.old.items ++ run count state column row) }
    ensures err { OnErr result (cells.new.items ≡ cells.old.items) }
{
    if state == 0 {
        return Ok(());
    }
    push_cells(cells, count, state, column, row)
}

fn push_cells(
    cells: &mut Vec<PatternCell>,
    count: u64,
    state: u8,
    column: u64,
    row: u64,
) -> Result<(), AllocError>
    requires columns { column + count ≤ 2 ^ 32 }
    requires row { row < 2 ^ 32 }
    ensures ok { OnOk result (cells.new.items ≡ cells.old.items ++ cells_in_row count state column row) }
    ensures err { OnErr result (cells.new.items ≡ cells.old.items) }
{
    cells.reserve(count as usize)?;
    for at in column..column + count {
        cells.push_reserved(PatternCell {
            column: at as u32,
            row: row as u32,
            state,
        });
    }
    Ok(())
}
