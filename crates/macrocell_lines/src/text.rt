//! Lines as text.

ghost use Rattle.std.specs.Prelude.{◌≡◌, ◌≤◌, ◌<◌, ◌++◌, OnOk, decimal, flat_map};
ghost use Rattle.macrocell_lines.specs.Lines.{height_of, line_text, live_len, mark_of, row_of, row_text};
ghost use Rattle.macrocell_lines.specs.declared.line.Line.TheVariants as lines;

use crate::line::Line;
use bitplane_kernel::BitLeaf;
use itoa::Buffer;
use std::alloc::AllocError;

/// Puts lines behind what stands there, one after another.
pub(crate) fn push_lines(out: &mut Vec<u8>, lines: &[Line]) -> Result<(), AllocError>
    ensures { OnOk result (out.new.items ≡ out.old.items ++ flat_map line_text lines.now) }
{
    for line in lines {
        push_line(out, line)?;
    }
    Ok(())
}

#[tactic(auto, unfolding(crate::specs::Lines::line_text))]
fn push_line(out: &mut Vec<u8>, line: &Line) -> Result<(), AllocError>
    ensures { OnOk result (out.new.items ≡ out.old.items ++ line_text line.now) }
{
    match line {
        Line::Leaf(leaf) => push_rows(out, leaf),
        Line::Four {
            level,
            nw,
            ne,
            sw,
            se,
        } => {
            push_number(out, b"", u64::from(*level))?;
            push_number(out, b" ", *nw as u64)?;
            push_number(out, b" ", *ne as u64)?;
            push_number(out, b" ", *sw as u64)?;
            push_number(out, b" ", *se as u64)?;
            out.extend_from_slice(b"\n")
        }
    }
}

/// A number, behind what stands in front of it.
pub(crate) fn push_number(out: &mut Vec<u8>, front: &[u8], number: u64) -> Result<(), AllocError>
    ensures { OnOk result (out.new.items ≡ out.old.items ++ front.now ++ decimal number) }
{
    out.extend_from_slice(front)?;
    out.extend_from_slice(Buffer::new().format(number).as_bytes())
}

/// The rows of a leaf up to the last that has a live cell, each with `$` behind it.
#[tactic(auto, unfolding(crate::specs::Lines::line_text))]
fn push_rows(out: &mut Vec<u8>, leaf: &BitLeaf) -> Result<(), AllocError>
    ensures { OnOk result (out.new.items ≡ out.old.items ++ line_text (lines.Leaf leaf.now)) }
{
    let height = height_of(leaf);
    for row in 0..height {
        push_row(out, leaf, row)?;
    }
    out.extend_from_slice(b"\n")
}

/// A row up to its last live cell, and `$`.
fn push_row(out: &mut Vec<u8>, leaf: &BitLeaf, row: usize) -> Result<(), AllocError>
    requires { row < 8 }
    ensures { OnOk result (out.new.items ≡ out.old.items ++ row_text leaf.now row) }
{
    let width = width_of(leaf, row);
    for column in 0..width {
        out.push(mark_of(leaf.get(8 * row + column)))?;
    }
    out.extend_from_slice(b"$")
}

/// How a state is written.
fn mark_of(state: u8) -> u8
    ensures { result ≡ mark_of state }
{
    if state == 0 { b'.' } else { b'*' }
}

/// How many rows there are up to the last that has a live cell.
fn height_of(leaf: &BitLeaf) -> usize
    ensures height { result ≡ height_of leaf.now }
    ensures most { result ≤ 8 }
{
    let mut height = 0;
    for row in 0..8 {
        if width_of(leaf, row) != 0 {
            height = row + 1;
        }
    }
    height
}

/// How many columns of a row there are up to its last live cell.
fn width_of(leaf: &BitLeaf, row: usize) -> usize
    requires { row < 8 }
    ensures width { result ≡ live_len (row_of leaf.now row) }
    ensures most { result ≤ 8 }
{
    let mut width = 0;
    for column in 0..8 {
        if leaf.get(8 * row + column) != 0 {
            width = column + 1;
        }
    }
    width
}
