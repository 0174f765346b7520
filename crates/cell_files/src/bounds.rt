//! The bounds that a file tells.

ghost use Rattle.std.specs.Prelude.{◌≡◌, ◌++◌, IfOk, OnOk, codes, decimal, option_map};
ghost use Rattle.header_rules.specs.HeaderRule.{header_rule_told};
ghost use Rattle.cell_files.specs.Files.{board_bounds, board_text, file_bounds_told, header_bounds};

use crate::board::Board;
use crate::format::CellFormat;
use crate::head::Head;
use header_rules::header_rule;
use itoa::Buffer;
use std::alloc::{AllocError, Global};

/// The bounds of the grid that a file asks for (Golly's help, "Bounded Grids"), as Golly spells them behind a rule
/// and its colon: what stands there in the header of an RLE text; of an MCell file's board `T800,800` where its
/// edges are joined, else `P800,800`; other files tell none.
pub fn file_bounds(alloc: Global, text: &[u8]) -> Result<Option<Vec<u8>>, AllocError>
    ensures { IfOk result (λ told. option_map (λ bounds. bounds.items) told ≡ file_bounds_told text.now) }
{
    match CellFormat::of(text) {
        CellFormat::MCell => board_bounds(alloc, &Head::of(text)),
        CellFormat::Rle => header_bounds(alloc, text),
        CellFormat::Plaintext | CellFormat::Macrocell | CellFormat::State | CellFormat::Document =>
            Ok(None),
    }
}

/// What stands behind the colon in a header.
fn header_bounds(alloc: Global, text: &[u8]) -> Result<Option<Vec<u8>>, AllocError>
    ensures { IfOk result (λ told. option_map (λ bounds. bounds.items) told ≡ header_bounds text.now (header_rule_told text.now)) }
{
    let Some(rule) = header_rule(text) else {
        return Ok(None);
    };
    let Some(bounds) = rule.bounds else {
        return Ok(None);
    };
    let bounds = text[bounds.place..bounds.place + bounds.length].to_vec(alloc)?;
    Ok(Some(bounds))
}

/// Those of a board.
fn board_bounds(alloc: Global, head: &Head) -> Result<Option<Vec<u8>>, AllocError>
    ensures { IfOk result (λ told. option_map (λ bounds. bounds.items) told ≡ board_bounds head.now) }
{
    let Some(board) = head.board else {
        return Ok(None);
    };
    let bounds = board_text(alloc, head.wraps, board)?;
    Ok(Some(bounds))
}

fn board_text(alloc: Global, wraps: bool, board: Board) -> Result<Vec<u8>, AllocError>
    ensures { IfOk result (λ text. text.items ≡ board_text wraps board) }
{
    let mut text = Vec::new(alloc);
    text.extend_from_slice(if wraps { b"T" } else { b"P" })?;
    push_number(&mut text, board.width)?;
    text.extend_from_slice(b",")?;
    push_number(&mut text, board.height)?;
    Ok(text)
}

fn push_number(text: &mut Vec<u8>, number: u32) -> Result<(), AllocError>
    ensures { OnOk result (text.new.items ≡ text.old.items ++ decimal number) }
{
    text.extend_from_slice(Buffer::new().format(number).as_bytes())
}
