//! What is printed.

ghost use Rattle.std.specs.Prelude.{◌≡◌, ◌++◌, OnErr, OnOk, IfOk, codes, decimal, length, map};
ghost use Rattle.std.specs.Fmt.{signed_decimal};
ghost use mathlib.Core.List.{IsPrefix};
ghost use Rattle.hex.specs.Hex.{encode_lower};
ghost use Rattle.multistate_rle.specs.RleFault.{text_fault_number, text_fault_text};
ghost use Rattle.genedit_lib.specs.Output.{box_text, count_line, no_pattern_line, filled, pattern_line, refused_text, reply_line, stamp_text, taken_back_line, write_text};
ghost use Rattle.genedit_lib.specs.Plan.{line_of};

use crate::plan::PlannedLine;
use crate::step::Text;
use edit_stamps::{Stamp, Write, counter_of, replica_of};
use itoa::Buffer;
use multistate_rle::RleFault;
use pattern_cells::{Pattern, Window};
use replica_core::{Count, Reply};
use std::alloc::{AllocError, Global};

/// The lines, with the replies in their places.
pub fn output(
    alloc: Global,
    lines: &[PlannedLine],
    replies: &[Reply],
) -> Result<Vec<u8>, AllocError>
    ensures { IfOk result (λ out. out.items ≡ filled (map line_of lines.now) replies.now) }
{
    let mut out = Vec::new(alloc);
    let mut left = replies;
    for line in lines {
        match line {
            PlannedLine::Own(text) => push_text(&mut out, text)?,
            PlannedLine::Reply => {
                let Some((reply, rest)) = left.split_first() else {
                    return Ok(out);
                };
                push_line(alloc, &mut out, reply)?;
                left = rest;
            }
        }
    }
    Ok(out)
}

/// Width, height, number of nonzero cells, position and generation of a named pattern.
pub fn pattern_text(alloc: Global, name: &[u8], pattern: &Pattern) -> Result<Text, AllocError>
    ensures { IfOk result (λ text. text ≡ pattern_line name.now pattern.now) }
{
    let mut text = Vec::new(alloc);
    text.extend_from_slice(b"pattern ")?;
    text.extend_from_slice(name)?;
    push_box(&mut text, pattern)?;
    push_origin(&mut text, pattern)?;
    Ok(Text::of_vec(text))
}

/// Width, height and number of nonzero cells, a blank before each.
fn push_box(out: &mut Vec<u8>, pattern: &Pattern) -> Result<(), AllocError>
    ensures { OnOk result (out.new.items ≡ out.old.items ++ (codes " " ++ decimal pattern.now.width ++ codes " " ++ decimal pattern.now.height ++ codes " " ++ decimal (length pattern.now.cells))) }
{
    push_apart(out, pattern.width())?;
    push_apart(out, pattern.height())?;
    push_apart(out, pattern.cells().len() as u64)
}

/// Position and generation, a blank before each number.
fn push_origin(out: &mut Vec<u8>, pattern: &Pattern) -> Result<(), AllocError>
    ensures { OnOk result (out.new.items ≡ out.old.items ++ (codes " " ++ signed_decimal pattern.now.pos.0 ++ codes " " ++ signed_decimal pattern.now.pos.1 ++ codes " " ++ decimal pattern.now.generation)) }
{
    let (x, y) = pattern.pos();
    push_coordinate(out, x)?;
    push_coordinate(out, y)?;
    push_apart(out, pattern.generation())
}

/// The refusal of a text that is no pattern.
pub fn text_refusal(alloc: Global, fault: RleFault) -> Result<Text, AllocError>
    ensures { IfOk result (λ text. text ≡ refused_text (text_fault_number fault) (text_fault_text fault)) }
{
    let mut text = Vec::new(alloc);
    let name = fault.to_string(alloc)?;
    push_refusal(&mut text, fault.number(), name.as_bytes())?;
    Ok(Text::of_vec(text))
}

/// That no pattern has the name.
pub fn no_pattern_text(alloc: Global) -> Result<Text, AllocError>
    ensures { IfOk result (λ text. text ≡ no_pattern_line) }
{
    let mut text = Vec::new(alloc);
    push_refusal(&mut text, 38, b"NoPattern")?;
    Ok(Text::of_vec(text))
}

/// A line of output, with its end.
pub fn push_text(out: &mut Vec<u8>, text: &Text) -> Result<(), AllocError>
    ensures told { OnOk result (out.new.items ≡ out.old.items ++ (text.now ++ codes "\n")) }
    ensures kept { OnErr result (IsPrefix out.old.items out.new.items) }
{
    out.extend_from_slice(text.as_slice())?;
    out.push(b'\n')?;
    Ok(())
}

/// What is printed of a reply, with the end of its line.
pub fn push_line(alloc: Global, out: &mut Vec<u8>, reply: &Reply) -> Result<(), AllocError>
    ensures told { OnOk result (out.new.items ≡ out.old.items ++ reply_line reply.now) }
    ensures kept { OnErr result (IsPrefix out.old.items out.new.items) }
{
    match reply {
        Reply::Drawn(stamp) => {
            out.extend_from_slice(b"drawn ")?;
            push_stamp(out, stamp.number())?;
            out.extend_from_slice(b"\n")
        }
        Reply::Sent(message) => {
            out.extend_from_slice(b"sent ")?;
            push_number(out, *message)?;
            out.extend_from_slice(b"\n")
        }
        Reply::Taken => out.extend_from_slice(b"taken\n"),
        Reply::Shown(write) => {
            push_write(out, *write)?;
            out.extend_from_slice(b"\n")
        }
        Reply::Same(true) => out.extend_from_slice(b"same\n"),
        Reply::Same(false) => out.extend_from_slice(b"differ\n"),
        Reply::Bytes(text) => {
            push_hex(alloc, out, text.as_slice())?;
            out.extend_from_slice(b"\n")
        }
        Reply::Text(text) => out.extend_from_slice(text.as_slice()),
        Reply::Counted(count) => push_count(out, count),
        Reply::Refused(fault) => {
            let name = fault.to_string(alloc)?;
            push_refusal(out, fault.number(), name.as_bytes())?;
            out.extend_from_slice(b"\n")
        }
    }
}

/// The line of an edit that took something back, by what is said of it, as `undone C R`.
pub fn push_taken_back(out: &mut Vec<u8>, said: &str, stamp: Stamp) -> Result<(), AllocError>
    ensures told { OnOk result (out.new.items ≡ out.old.items ++ taken_back_line said.now stamp) }
    ensures kept { OnErr result (IsPrefix out.old.items out.new.items) }
{
    out.extend_from_slice(said.as_bytes())?;
    out.push(b' ')?;
    push_stamp(out, stamp.number())?;
    out.extend_from_slice(b"\n")
}

/// How many cells there are, and where.
fn push_count(out: &mut Vec<u8>, count: &Count) -> Result<(), AllocError>
    ensures told { OnOk result (out.new.items ≡ out.old.items ++ count_line count.now) }
    ensures kept { OnErr result (IsPrefix out.old.items out.new.items) }
{
    out.extend_from_slice(b"cells ")?;
    out.extend_from_slice(Buffer::new().format(count.cells).as_bytes())?;
    push_extent(out, count.extent)?;
    out.extend_from_slice(b"\n")
}

/// The corner and the sides of the least box that has some cells; nothing where there is none.
fn push_extent(out: &mut Vec<u8>, extent: Option<Window>) -> Result<(), AllocError>
    ensures told { OnOk result (out.new.items ≡ out.old.items ++ box_text extent) }
    ensures kept { OnErr result (IsPrefix out.old.items out.new.items) }
{
    let Some(window) = extent else {
        return Ok(());
    };
    out.extend_from_slice(b" box")?;
    push_coordinate(out, window.x)?;
    push_coordinate(out, window.y)?;
    push_apart(out, u64::from(window.width))?;
    push_apart(out, u64::from(window.height))
}

/// Two digits for each byte, in lower case.
fn push_hex(alloc: Global, out: &mut Vec<u8>, bytes: &[u8]) -> Result<(), AllocError>
    ensures told { OnOk result (out.new.items ≡ out.old.items ++ encode_lower bytes.now) }
    ensures kept { OnErr result (IsPrefix out.old.items out.new.items) }
{
    let digits = hex::encode(alloc, bytes)?;
    out.extend_from_slice(digits.as_bytes())
}

fn push_write(out: &mut Vec<u8>, write: Write) -> Result<(), AllocError>
    ensures told { OnOk result (out.new.items ≡ out.old.items ++ write_text write) }
    ensures kept { OnErr result (IsPrefix out.old.items out.new.items) }
{
    out.extend_from_slice(b"cell ")?;
    push_number(out, u64::from(write.state))?;
    out.push(b' ')?;
    push_stamp(out, write.stamp)
}

/// Number and name of a refusal.
fn push_refusal(out: &mut Vec<u8>, number: u8, name: &[u8]) -> Result<(), AllocError>
    ensures told { OnOk result (out.new.items ≡ out.old.items ++ refused_text number name.now) }
    ensures kept { OnErr result (IsPrefix out.old.items out.new.items) }
{
    out.extend_from_slice(b"refused ")?;
    push_number(out, u64::from(number))?;
    out.push(b' ')?;
    out.extend_from_slice(name)
}

/// Counter and replica of a stamp's number; 0 and 0 of 0.
pub(crate) fn push_stamp(out: &mut Vec<u8>, stamp: u64) -> Result<(), AllocError>
    ensures told { OnOk result (out.new.items ≡ out.old.items ++ stamp_text stamp) }
    ensures kept { OnErr result (IsPrefix out.old.items out.new.items) }
{
    push_number(out, counter_of(stamp))?;
    out.push(b' ')?;
    push_number(out, u64::from(replica_of(stamp)))
}

fn push_number(out: &mut Vec<u8>, number: u64) -> Result<(), AllocError>
    ensures told { OnOk result (out.new.items ≡ out.old.items ++ decimal number) }
    ensures kept { OnErr result (IsPrefix out.old.items out.new.items) }
{
    out.extend_from_slice(Buffer::new().format(number).as_bytes())
}

/// A blank, and a number.
pub(crate) fn push_apart(out: &mut Vec<u8>, number: u64) -> Result<(), AllocError>
    ensures told { OnOk result (out.new.items ≡ out.old.items ++ (codes " " ++ decimal number)) }
    ensures kept { OnErr result (IsPrefix out.old.items out.new.items) }
{
    out.push(b' ')?;
    push_number(out, number)
}

/// A blank, and a coordinate.
pub(crate) fn push_coordinate(out: &mut Vec<u8>, coordinate: i32) -> Result<(), AllocError>
    ensures told { OnOk result (out.new.items ≡ out.old.items ++ (codes " " ++ signed_decimal coordinate)) }
    ensures kept { OnErr result (IsPrefix out.old.items out.new.items) }
{
    out.push(b' ')?;
    out.extend_from_slice(Buffer::new().format(coordinate).as_bytes())
}
