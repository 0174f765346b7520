//! Files of MCell.

ghost use Rattle.std.specs.Prelude.{◌≡◌, ◌++◌, ◌∷◌, [], IfOk, OnOk, length, map, nat_le, ◌&&◌};
ghost use Rattle.generations_rule.specs.Refusal.{Answers};
ghost use Rattle.cell_files.specs.Drawn.{drawn, header};
ghost use Rattle.cell_files.specs.MCell.{blanks, is_common_byte, is_mcell_prefix, line_bytes, mcell_parsed, mcell_tokens, rle_byte};

use crate::board::placed_on;
use crate::drawn::{HEADER, drawn};
use crate::head::{Head, behind_word};
use header_rules::split_line;
use multistate_rle::RleFault;
use pattern_cells::Pattern;
use std::alloc::{AllocError, Global};
use text_scan::is_blank;

/// The pattern of an MCell file, at the place where its board puts it and generation 0, or its first fault.
pub fn read_mcell(alloc: Global, text: &[u8]) -> Result<Pattern, RleFault>
    ensures { Answers (λ fault. fault ≡ RleFault.Memory) result (mcell_parsed text.now) }
{
    if !text.starts_with(b"#MCell") {
        return Err(RleFault::Header);
    }
    let pattern = tokens_drawn(alloc, text)?;
    let placed = placed_on(alloc, Head::of(text).board, pattern)?;
    Ok(placed)
}

/// What the tokens of a file draw, from 0 0 on.
fn tokens_drawn(alloc: Global, text: &[u8]) -> Result<Pattern, RleFault>
    ensures { Answers (λ fault. fault ≡ RleFault.Memory) result (drawn (length text.now) (mcell_tokens text.now)) }
{
    let tokens = rle_text(alloc, text)?;
    drawn(alloc, text.len(), &tokens)
}

/// The header of an RLE text and the tokens of the file, as RLE spells them.
fn rle_text(alloc: Global, text: &[u8]) -> Result<Vec<u8>, AllocError>
    ensures { IfOk result (λ out. out.items ≡ header ++ mcell_tokens text.now) }
{
    let mut out = HEADER.to_vec(alloc)?;
    out.reserve(text.len() + 1)?;
    let mut rest = Some(text);
    while let Some(lines) = rest {
        let (line, behind) = split_line(lines);
        push_line(&mut out, line)?;
        rest = behind;
    }
    Ok(out)
}

/// A line's tokens and its end, or as many blanks.
fn push_line(out: &mut Vec<u8>, line: &[u8]) -> Result<(), AllocError>
    ensures { OnOk result (out.new.items ≡ out.old.items ++ line_bytes line.now) }
{
    match behind_word(b"#L", line) {
        Some(tokens) => {
            push_blanks(out, 2)?;
            push_tokens(out, tokens)?;
        }
        None => push_blanks(out, line.len())?,
    }
    out.push(b' ')?;
    Ok(())
}

fn push_blanks(out: &mut Vec<u8>, count: usize) -> Result<(), AllocError>
    ensures { OnOk result (out.new.items ≡ out.old.items ++ blanks count) }
{
    for _ in 0..count {
        out.push(b' ')?;
    }
    Ok(())
}

fn push_tokens(out: &mut Vec<u8>, tokens: &[u8]) -> Result<(), AllocError>
    ensures { OnOk result (out.new.items ≡ out.old.items ++ map rle_byte tokens.now) }
{
    for byte in tokens {
        out.push(rle_byte(*byte))?;
    }
    Ok(())
}

/// A byte of MCell's tokens as RLE has it; `?`, which RLE has not, for one that MCell has not.
fn rle_byte(byte: u8) -> u8
    ensures { result ≡ rle_byte byte }
{
    if is_common_byte(byte) {
        byte
    } else if is_prefix(byte) {
        byte + 15
    } else {
        b'?'
    }
}

/// Whether a byte means the same in both.
fn is_common_byte(byte: u8) -> bool
    ensures { result ≡ is_common_byte byte }
{
    byte.is_ascii_digit() || byte == b'.' || byte == b'$' || is_state(byte) || is_blank(byte)
}

fn is_state(byte: u8) -> bool
    ensures { result ≡ (nat_le 65 byte && nat_le byte 88) }
{
    byte >= b'A' && byte <= b'X'
}

fn is_prefix(byte: u8) -> bool
    ensures { result ≡ is_mcell_prefix byte }
{
    byte >= b'a' && byte <= b'j'
}
