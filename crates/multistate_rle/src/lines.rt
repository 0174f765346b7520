//! Tokens, written on lines.

ghost use Rattle.multistate_rle.specs.declared.lines.TheConstants.{LINE_LIMIT};
ghost use Rattle.std.specs.Prelude.{◌≡◌, ◌≢◌, ◌≤◌, ◌<◌, ◌^◌, ◌∷◌, ◌++◌, [], OnOk, IfOk, map, length, codes, vec_len, vec_capacity, ◌+◌, ◌==◌};
ghost use Rattle.multistate_rle.specs.Writing.{count_text, spelling, token_text, wrapped};
ghost use Rattle.multistate_rle.specs.Letters.{letters_text};
ghost use Rattle.multistate_rle.specs.Tokens.{Cells, Rows, gap, tokens_from, skip};

use crate::letters::Letters;
use itoa::Buffer;
use pattern_cells::PatternCell;
use std::alloc::AllocError;

/// The greatest length of a line.
const LINE_LIMIT: usize = 70;

/// The count that is not written.
const LEFT_OUT: u8 = 1;

/// A run of cells of one state, which the next cell may make longer.
#[derive(Clone, Copy, Debug, PartialEq, Eq)]
pub struct Run {
    pub count: u64,
    pub state: u8,
}

/// Where the next cell may stand, and the run that ends there.
#[derive(Clone, Copy, Debug, PartialEq, Eq)]
pub struct WritingPen {
    pub column: u64,
    pub row: u64,
    pub run: Option<Run>,
}

impl WritingPen {
    ghost use Rattle.std.specs.Prelude.{◌≡◌};
    ghost use Rattle.multistate_rle.specs.Filling.{no_pen, extends};

    pub fn new() -> WritingPen
        ensures { result ≡ no_pen }
    {
        WritingPen {
            column: 0,
            row: 0,
            run: None,
        }
    }

    /// The run of which a cell is one more.
    fn extended(self, cell: PatternCell) -> Option<Run>
        ensures { result ≡ extends self cell }
    {
        let run = self.run?;
        if u64::from(cell.row) == self.row
            && u64::from(cell.column) <= self.column
            && run.state == cell.state
        {
            Some(run)
        } else {
            None
        }
    }
}

/// A text, and how many bytes stand on its last line.
#[derive(Drop)]
pub struct LineWriter {
    pub text: Vec<u8>,
    pub used: usize,
    pub two_states: bool,
    ghost short: { used ≤ LINE_LIMIT },
}

impl LineWriter {
    ghost use Rattle.std.specs.Prelude.{◌≡◌, ◌≢◌, ◌≤◌, ◌∷◌, ◌++◌, [], OnOk, IfOk, map, length, codes, if◌then◌else◌, nat_le, vec_len, vec_capacity, ◌+◌};
    ghost use Rattle.multistate_rle.specs.Writing.{spelling, token_text};
    ghost use Rattle.multistate_rle.specs.Letters.{letters_text};
    ghost use Rattle.multistate_rle.specs.Tokens.{Cells, Rows, gap, skip};
    ghost use Rattle.multistate_rle.specs.Filling.{WritesPieces, no_pen, run_tokens, IsPen, WritesCell, extends};

    /// The next line of a text whose lines are ended.
    pub fn after(text: Vec<u8>, two_states: bool) -> LineWriter
        ensures { (result.text.items ≡ text.items) × (result.used ≡ 0) × (result.two_states ≡ two_states) }
    {
        LineWriter {
            text,
            used: 0,
            two_states,
        }
    }

    /// A count, left out where it is 1, and a tag: on this line if there is room, else on the next.
    pub fn put(&mut self, count: u64, letters: Letters) -> Result<(), AllocError>
        ensures { OnOk result (WritesPieces self.old (spelling count letters ∷ []) self.new) }
    {
        if count < 10 {
            self.put_short(count as u8, letters)
        } else {
            self.put_long(count, letters)
        }
    }

    /// A count of one digit, as nearly all have, and a tag.
    fn put_short(&mut self, count: u8, letters: Letters) -> Result<(), AllocError>
        requires { count ≤ 9 }
        ensures { OnOk result (WritesPieces self.old (spelling count letters ∷ []) self.new) }
    {
        let len = digits(count) + letters.len();
        self.make_room(len)?;
        push_short(&mut self.text, count, letters);
        self.used += len;
        Ok(())
    }

    /// Makes room for so many bytes, on the next line where this one has none left.
    fn make_room(&mut self, len: usize) -> Result<(), AllocError>
        requires { len ≤ LINE_LIMIT }
        ensures text { OnOk result (self.new.text.items ≡ (if nat_le (self.old.used + len) LINE_LIMIT then self.old.text.items else self.old.text.items ++ codes "\n")) }
        ensures used { OnOk result (self.new.used ≡ (if nat_le (self.old.used + len) LINE_LIMIT then self.old.used else 0)) }
        ensures two_states { self.new.two_states ≡ self.old.two_states }
        ensures room { OnOk result (vec_len self.new.text + len ≤ vec_capacity self.new.text) }
    {
        self.text.reserve(len + 1)?;
        if self.used + len > LINE_LIMIT {
            self.text.push_reserved(b'\n');
            self.used = 0;
        }
        Ok(())
    }

    /// A longer count and a tag. It stands apart, so that what writes a short count stays small.
    #[inline(never)]
    fn put_long(&mut self, count: u64, letters: Letters) -> Result<(), AllocError>
        requires { 10 ≤ count }
        ensures { OnOk result (WritesPieces self.old (spelling count letters ∷ []) self.new) }
    {
        self.put_piece(Buffer::new().format(count).as_bytes(), letters)
    }

    /// The digits of a count, and a tag.
    fn put_piece(&mut self, digits: &[u8], letters: Letters) -> Result<(), AllocError>
        requires { length digits.now ≤ 20 }
        ensures { OnOk result (WritesPieces self.old ((digits.now ++ letters_text letters) ∷ []) self.new) }
    {
        let len = digits.len() + letters.len();
        self.make_room(len)?;
        self.text.extend_from_slice(digits)?;
        push_letters(&mut self.text, letters);
        self.used += len;
        Ok(())
    }

    fn put_cells(&mut self, count: u64, state: u8) -> Result<(), AllocError>
        ensures { OnOk result (WritesPieces self.old (map (token_text self.old.two_states) (Cells count state ∷ [])) self.new) }
    {
        self.put(count, Letters::of_state(self.two_states, state))
    }

    fn put_rows(&mut self, count: u64) -> Result<(), AllocError>
        ensures { OnOk result (WritesPieces self.old (map (token_text self.old.two_states) (Rows count ∷ [])) self.new) }
    {
        self.put(count, Letters::plain(b'$'))
    }

    /// A run, if there is one.
    pub fn put_run(&mut self, run: Option<Run>) -> Result<(), AllocError>
        ensures { OnOk result (WritesPieces self.old (map (token_text self.old.two_states) (run_tokens run [])) self.new) }
    {
        match run {
            Some(run) => self.put_cells(run.count, run.state),
            None => Ok(()),
        }
    }

    fn put_dead(&mut self, count: u64) -> Result<(), AllocError>
        ensures { OnOk result (WritesPieces self.old (map (token_text self.old.two_states) (skip count)) self.new) }
    {
        if count == 0 {
            Ok(())
        } else {
            self.put_cells(count, 0)
        }
    }

    /// The row ends and the dead columns between a pen and a cell.
    fn put_gap(&mut self, pen: WritingPen, cell: PatternCell) -> Result<(), AllocError>
        ensures { OnOk result (WritesPieces self.old (map (token_text self.old.two_states) (gap pen.column pen.row cell)) self.new) }
    {
        let column = u64::from(cell.column);
        let row = u64::from(cell.row);
        if row == pen.row {
            return self.put_dead(column.saturating_sub(pen.column));
        }
        self.put_rows(row.saturating_sub(pen.row))?;
        self.put_dead(column)
    }

    /// One cell more: what cannot grow any further is written, and the cell's own run begins.
    pub fn put_cell(&mut self, pen: WritingPen, cell: PatternCell) -> Result<WritingPen, AllocError>
        requires pen { IsPen pen }
        requires cell { cell.state ≢ 0 }
        ensures { IfOk result (λ next. WritesCell self.old pen cell next self.new) }
    {
        let run = match pen.extended(cell) {
            Some(run) => Run {
                count: run.count + 1,
                state: run.state,
            },
            None => {
                self.put_run(pen.run)?;
                self.put_gap(pen, cell)?;
                Run {
                    count: 1,
                    state: cell.state,
                }
            }
        };
        Ok(WritingPen {
            column: u64::from(cell.column) + 1,
            row: u64::from(cell.row),
            run: Some(run),
        })
    }

    /// The text, its last line ended.
    pub fn ended(self) -> Result<Vec<u8>, AllocError>
        ensures { IfOk result (λ text. text.items ≡ self.text.items ++ codes "\n") }
    {
        let LineWriter { mut text, .. } = self;
        text.push(b'\n')?;
        Ok(text)
    }
}

fn is_left_out(count: u8) -> bool
    ensures { result ≡ (count == 1) }
{
    count == LEFT_OUT
}

/// How many bytes a count of one digit takes.
fn digits(count: u8) -> usize
    requires { count ≤ 9 }
    ensures value { result ≡ length (count_text count) }
    ensures few { result ≤ 1 }
{
    if is_left_out(count) { 0 } else { 1 }
}

/// A count of one digit, left out where it is 1, and a tag, where there is room for them.
fn push_short(text: &mut Vec<u8>, count: u8, letters: Letters)
    requires count { count ≤ 9 }
    requires room { vec_len text.old + length (spelling count letters) ≤ vec_capacity text.old }
    ensures { text.new.items ≡ text.old.items ++ spelling count letters }
{
    if is_left_out(count) {
        return push_letters(text, letters);
    }
    text.push_reserved(b'0' + count);
    push_letters(text, letters)
}

fn push_letters(text: &mut Vec<u8>, letters: Letters)
    requires { vec_len text.old + length (letters_text letters) ≤ vec_capacity text.old }
    ensures { text.new.items ≡ text.old.items ++ letters_text letters }
{
    if let Some(prefix) = letters.prefix {
        text.push_reserved(prefix);
    }
    text.push_reserved(letters.last);
}
