//! The lines that a client prints.

ghost use Rattle.std.specs.Prelude.{◌≡◌, ◌++◌, codes, decimal, OnErr, OnOk};
ghost use mathlib.Core.List.{IsPrefix};
ghost use Rattle.client_session.specs.Lines.{anew_line, back_line, drawn_as, drawn_line, edits_line, joined_line, late_line, many_line, nameless_line, now_line, now_lines, refusal_line, replaced_lines, whole_line};

use drawing_history::Way;
use genedit_io::RunFault;
use genedit_lib::{no_pattern_text, push_cells, push_text};
use generations_rule::Rule;
use itoa::Buffer;
use pattern_cells::Cell;
use std::alloc::{AllocError, Global};

/// How many cells a line has at most that tells what looks different behind a whole plane.
const LINE_CELLS: usize = 1000;

/// How many cells are told at most behind a whole plane.
const MOST_TOLD: usize = 100_000;

/// That the client has a seat of this number, at a board of this rule.
pub(crate) fn push_joined(
    alloc: Global,
    out: &mut Vec<u8>,
    number: u16,
    rule: &Rule,
) -> Result<(), AllocError>
    ensures told { OnOk result (out.new.items ≡ out.old.items ++ joined_line number rule.now) }
    ensures kept { OnErr result (IsPrefix out.old.items out.new.items) }
{
    let rule = rule.write_text(alloc)?;
    out.extend_from_slice(b"joined ")?;
    push_number(out, u64::from(number))?;
    out.push(b' ')?;
    out.extend_from_slice(&rule)?;
    out.push(b'\n')?;
    Ok(())
}

/// The cells that look different, as they are now. No line where there is none.
pub(crate) fn push_now(out: &mut Vec<u8>, cells: &[Cell]) -> Result<(), AllocError>
    ensures told { OnOk result (out.new.items ≡ out.old.items ++ now_line cells.now) }
    ensures kept { OnErr result (IsPrefix out.old.items out.new.items) }
{
    if cells.is_empty() {
        return Ok(());
    }
    out.extend_from_slice(b"now")?;
    push_cells(out, cells)?;
    out.push(b'\n')?;
    Ok(())
}

/// That the server sent its plane.
pub(crate) fn push_whole(out: &mut Vec<u8>) -> Result<(), AllocError>
    ensures told { OnOk result (out.new.items ≡ out.old.items ++ whole_line) }
    ensures kept { OnErr result (IsPrefix out.old.items out.new.items) }
{
    out.extend_from_slice(b"whole\n")
}

/// The cells that look different behind a whole plane, as they are now: at most 1,000 in a line. Where there are
/// more than 100,000, how many they are.
pub(crate) fn push_replaced(out: &mut Vec<u8>, cells: &[Cell]) -> Result<(), AllocError>
    ensures told { OnOk result (out.new.items ≡ out.old.items ++ replaced_lines cells.now) }
    ensures kept { OnErr result (IsPrefix out.old.items out.new.items) }
{
    if cells.len() > MOST_TOLD {
        push_many(out, cells.len() as u64)
    } else {
        push_now_lines(out, cells)
    }
}

/// The cells that look different, in as many lines of at most 1,000 as they need.
fn push_now_lines(out: &mut Vec<u8>, cells: &[Cell]) -> Result<(), AllocError>
    ensures told { OnOk result (out.new.items ≡ out.old.items ++ now_lines 1000 cells.now) }
    ensures kept { OnErr result (IsPrefix out.old.items out.new.items) }
{
    for line in cells.chunks(LINE_CELLS) {
        push_now(out, line)?;
    }
    Ok(())
}

/// That so many cells look different.
fn push_many(out: &mut Vec<u8>, number: u64) -> Result<(), AllocError>
    ensures told { OnOk result (out.new.items ≡ out.old.items ++ many_line number) }
    ensures kept { OnErr result (IsPrefix out.old.items out.new.items) }
{
    out.extend_from_slice(b"many ")?;
    push_number(out, number)?;
    out.extend_from_slice(b" cells look different: export 0 has them\n")?;
    Ok(())
}

/// A number of edits that came.
pub(crate) fn push_edits_line(out: &mut Vec<u8>, number: u64) -> Result<(), AllocError>
    ensures told { OnOk result (out.new.items ≡ out.old.items ++ edits_line number) }
    ensures kept { OnErr result (IsPrefix out.old.items out.new.items) }
{
    out.extend_from_slice(b"edits ")?;
    push_number(out, number)?;
    out.push(b'\n')?;
    Ok(())
}

/// The same, where fewer came than were awaited.
pub(crate) fn push_late_line(out: &mut Vec<u8>, number: u64) -> Result<(), AllocError>
    ensures told { OnOk result (out.new.items ≡ out.old.items ++ late_line number) }
    ensures kept { OnErr result (IsPrefix out.old.items out.new.items) }
{
    out.extend_from_slice(b"late ")?;
    push_number(out, number)?;
    out.push(b'\n')?;
    Ok(())
}

/// That an edit was drawn, by its counter and the seat's number.
pub(crate) fn push_drawn(out: &mut Vec<u8>, counter: u64, number: u16) -> Result<(), AllocError>
    ensures told { OnOk result (out.new.items ≡ out.old.items ++ drawn_line counter number) }
    ensures kept { OnErr result (IsPrefix out.old.items out.new.items) }
{
    out.extend_from_slice(b"drawn ")?;
    push_number(out, counter)?;
    out.push(b' ')?;
    push_number(out, u64::from(number))?;
    out.push(b'\n')?;
    Ok(())
}

/// The same of an edit that takes something back, or that was drawn anew, or neither.
pub(crate) fn push_drawn_as(
    out: &mut Vec<u8>,
    way: Option<Way>,
    anew: bool,
    counter: u64,
    number: u16,
) -> Result<(), AllocError>
    ensures told { OnOk result (out.new.items ≡ out.old.items ++ drawn_as way anew counter number) }
    ensures kept { OnErr result (IsPrefix out.old.items out.new.items) }
{
    match way {
        Some(way) => push_back(out, way, counter, number),
        None if anew => push_anew(out, counter, number),
        None => push_drawn(out, counter, number),
    }
}

/// What an edit took back, by its counter and the seat's number.
fn push_back(out: &mut Vec<u8>, way: Way, counter: u64, number: u16) -> Result<(), AllocError>
    ensures told { OnOk result (out.new.items ≡ out.old.items ++ back_line way counter number) }
    ensures kept { OnErr result (IsPrefix out.old.items out.new.items) }
{
    out.extend_from_slice(way.done().as_bytes())?;
    out.push(b' ')?;
    push_number(out, counter)?;
    out.push(b' ')?;
    push_number(out, u64::from(number))?;
    out.push(b'\n')?;
    Ok(())
}

/// That an edit which was in doubt was drawn anew.
fn push_anew(out: &mut Vec<u8>, counter: u64, number: u16) -> Result<(), AllocError>
    ensures told { OnOk result (out.new.items ≡ out.old.items ++ anew_line counter number) }
    ensures kept { OnErr result (IsPrefix out.old.items out.new.items) }
{
    out.extend_from_slice(b"drawn anew ")?;
    push_number(out, counter)?;
    out.push(b' ')?;
    push_number(out, u64::from(number))?;
    out.push(b'\n')?;
    Ok(())
}

/// A refusal, by its number.
pub(crate) fn push_refusal(alloc: Global, out: &mut Vec<u8>, number: u8) -> Result<(), AllocError>
    ensures told { OnOk result (out.new.items ≡ out.old.items ++ refusal_line number) }
    ensures kept { OnErr result (IsPrefix out.old.items out.new.items) }
{
    let text = RunFault::Refused(number, None).to_string(alloc)?;
    out.extend_from_slice(text.as_bytes())?;
    out.push(b'\n')?;
    Ok(())
}

/// That the name of a paste stands for no pattern.
pub(crate) fn push_nameless(alloc: Global, out: &mut Vec<u8>) -> Result<(), AllocError>
    ensures told { OnOk result (out.new.items ≡ out.old.items ++ nameless_line) }
    ensures kept { OnErr result (IsPrefix out.old.items out.new.items) }
{
    let text = no_pattern_text(alloc)?;
    push_text(out, &text)
}

fn push_number(out: &mut Vec<u8>, number: u64) -> Result<(), AllocError>
    ensures told { OnOk result (out.new.items ≡ out.old.items ++ decimal number) }
    ensures kept { OnErr result (IsPrefix out.old.items out.new.items) }
{
    out.extend_from_slice(Buffer::new().format(number).as_bytes())
}
