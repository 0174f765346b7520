//! Writing an RLE text: the two lines in front, and the tokens.

ghost use Rattle.std.specs.Prelude.{◌≡◌, ◌<◌, ◌==◌, ◌++◌, ◌∷◌, [], IfOk, OnOk, true, map, codes, decimal};
ghost use Rattle.std.specs.Fmt.{signed_decimal};
ghost use Rattle.pattern_cells.specs.Cells.{is_sorted, are_nonzero, are_states_below};
ghost use Rattle.multistate_rle.specs.Writing.{text_of_cells, head_lines, body, token_text};
ghost use Rattle.multistate_rle.specs.Bounds.{seen_from, in_box};
ghost use Rattle.multistate_rle.specs.Tokens.{tokens_from};
ghost use Rattle.multistate_rle.specs.Filling.{WritesPieces};

use crate::bounds::{Bounds, bounds_of};
use crate::letters::Letters;
use crate::lines::{LineWriter, WritingPen};
use generations_rule::Rule;
use itoa::Buffer;
use pattern_cells::{Cell, PatternCell};
use std::alloc::{AllocError, Global};

/// The text of nonzero cells at a generation, in Golly's multi-state RLE under a rule: a `#CXRLE`
/// line with the position and the generation, the header with the sides of the bounding box and the
/// rule, and the canonical tokens (maximal runs, no dead cells at a row's end, no count of 1), on
/// lines of at most 70 bytes. What it asks for, `are_writable` tests. A side of 2^32 is written as
/// such, though `parse` refuses it.
pub fn write(
    alloc: Global,
    rule: &Rule,
    generation: u64,
    cells: &[Cell],
) -> Result<Vec<u8>, AllocError>
    requires sorted { is_sorted cells.now ≡ true }
    requires nonzero { are_nonzero cells.now ≡ true }
    requires below { are_states_below rule.now.states cells.now ≡ true }
    ensures { IfOk result (λ text. text.items ≡ text_of_cells rule.now generation cells.now) }
{
    let bounds = bounds_of(cells);
    let rule_text = rule.write_text(alloc)?;
    let text = head(alloc, &rule_text, generation, &bounds)?;
    with_body(text, rule.states() == 2, &bounds, cells)
}

/// The two lines in front.
fn head(alloc: Global, rule: &[u8], generation: u64, bounds: &Bounds) -> Result<Vec<u8>, AllocError>
    ensures { IfOk result (λ text. text.items ≡ head_lines rule.now generation bounds.now) }
{
    let mut text = Vec::new(alloc);
    push_origin(&mut text, generation, bounds)?;
    push_header(&mut text, rule, bounds)?;
    Ok(text)
}

/// The line with the position and the generation, without its end.
fn push_origin(text: &mut Vec<u8>, generation: u64, bounds: &Bounds) -> Result<(), AllocError>
    ensures { OnOk result (text.new.items ≡ text.old.items
        ++ codes "#CXRLE Pos=" ++ signed_decimal bounds.now.x ++ codes "," ++ signed_decimal bounds.now.y ++ codes " Gen=" ++ decimal generation) }
{
    push_coordinate(text, b"#CXRLE Pos=", bounds.x)?;
    push_coordinate(text, b",", bounds.y)?;
    push_number(text, b" Gen=", generation)
}

/// The end of the line before, and the line with the sides and the rule.
fn push_header(text: &mut Vec<u8>, rule: &[u8], bounds: &Bounds) -> Result<(), AllocError>
    ensures { OnOk result (text.new.items ≡ text.old.items
        ++ codes "\nx = " ++ decimal bounds.now.width ++ codes ", y = " ++ decimal bounds.now.height ++ codes ", rule = " ++ rule.now ++ codes "\n") }
{
    push_number(text, b"\nx = ", bounds.width)?;
    push_number(text, b", y = ", bounds.height)?;
    push_both(text, b", rule = ", rule)?;
    text.extend_from_slice(b"\n")
}

/// A coordinate, behind what names it.
fn push_coordinate(text: &mut Vec<u8>, name: &[u8], coordinate: i32) -> Result<(), AllocError>
    ensures { OnOk result (text.new.items ≡ text.old.items ++ name.now ++ signed_decimal coordinate) }
{
    push_both(text, name, Buffer::new().format(coordinate).as_bytes())
}

/// A number, behind what names it.
fn push_number(text: &mut Vec<u8>, name: &[u8], number: u64) -> Result<(), AllocError>
    ensures { OnOk result (text.new.items ≡ text.old.items ++ name.now ++ decimal number) }
{
    push_both(text, name, Buffer::new().format(number).as_bytes())
}

/// Two pieces, one behind the other.
fn push_both(text: &mut Vec<u8>, first: &[u8], second: &[u8]) -> Result<(), AllocError>
    ensures { OnOk result (text.new.items ≡ text.old.items ++ first.now ++ second.now) }
{
    text.extend_from_slice(first)?;
    text.extend_from_slice(second)
}

/// The text with the tokens of the cells and the end mark behind it.
fn with_body(
    text: Vec<u8>,
    two_states: bool,
    bounds: &Bounds,
    cells: &[Cell],
) -> Result<Vec<u8>, AllocError>
    requires { are_nonzero cells.now ≡ true }
    ensures { IfOk result (λ whole. whole.items ≡ text.items ++ body two_states (tokens_from 0 0 (in_box bounds.now cells.now))) }
{
    let mut lines = LineWriter::after(text, two_states);
    put_cells(&mut lines, bounds, cells)?;
    lines.put(1, Letters::plain(b'!'))?;
    lines.ended()
}

fn put_cells(lines: &mut LineWriter, bounds: &Bounds, cells: &[Cell]) -> Result<(), AllocError>
    requires { are_nonzero cells.now ≡ true }
    ensures { OnOk result (WritesPieces lines.old (map (token_text lines.old.two_states) (tokens_from 0 0 (in_box bounds.now cells.now))) lines.new) }
{
    let mut pen = WritingPen::new();
    for cell in cells {
        pen = lines.put_cell(pen, seen(bounds, cell))?;
    }
    lines.put_run(pen.run)
}

/// A cell as seen from the box's corner.
fn seen(bounds: &Bounds, cell: &Cell) -> PatternCell
    ensures { result ≡ seen_from bounds.now.x bounds.now.y cell.now }
{
    PatternCell {
        column: cell.x.abs_diff(bounds.x),
        row: cell.y.abs_diff(bounds.y),
        state: cell.state,
    }
}
