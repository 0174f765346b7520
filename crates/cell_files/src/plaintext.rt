//! Plaintext: rows of cells.

ghost use Rattle.std.specs.Prelude.{◌≡◌, ◌++◌, IfOk, length};
ghost use Rattle.generations_rule.specs.Refusal.{Answers};
ghost use Rattle.cell_files.specs.Drawn.{header};
ghost use Rattle.cell_files.specs.declared.plaintext.Standing.TheVariants.{Start};
ghost use Rattle.cell_files.specs.Plaintext.{begins_with_feed, ends_row, line_byte, plaintext_parsed, row_byte, row_end, standing_at, tokens_from};

use crate::drawn::{HEADER, drawn};
use multistate_rle::RleFault;
use pattern_cells::Pattern;
use pattern_files::FileKind;
use std::alloc::{AllocError, Global};

/// Where in a line a byte stands.
#[derive(Clone, Copy)]
pub enum Standing {
    /// At the beginning.
    Start,
    /// In a row of cells.
    Row,
    /// In a comment.
    Note,
}

/// The pattern of a plaintext file, from 0 0 on and of generation 0, or its first fault.
pub fn read_plaintext(alloc: Global, text: &[u8]) -> Result<Pattern, RleFault>
    ensures { Answers (λ fault. fault ≡ RleFault.Memory) result (plaintext_parsed text.now) }
{
    if !FileKind::Plaintext.is_begun(text) {
        return Err(RleFault::Header);
    }
    let tokens = rle_text(alloc, text)?;
    drawn(alloc, text.len(), &tokens)
}

/// The header of an RLE text and the tokens of the file, as RLE spells them.
fn rle_text(alloc: Global, text: &[u8]) -> Result<Vec<u8>, AllocError>
    ensures { IfOk result (λ out. out.items ≡ header ++ tokens_from Start text.now) }
{
    let mut out = HEADER.to_vec(alloc)?;
    out.reserve(text.len())?;
    let mut standing = Standing::Start;
    let mut rest = text;
    while let [byte, behind @ ..] = rest {
        if ends_row(*byte, behind) {
            out.push(row_end(standing))?;
            standing = Standing::Start;
        } else {
            standing = standing_at(standing, *byte);
            out.push(line_byte(standing, *byte))?;
        }
        rest = behind;
    }
    Ok(out)
}

/// Whether a byte ends a line: LF, or CR, unless an LF follows.
fn ends_row(byte: u8, rest: &[u8]) -> bool
    ensures { result ≡ ends_row byte rest.now }
{
    byte == b'\n' || (byte == b'\r' && !begins_with_feed(rest))
}

fn begins_with_feed(rest: &[u8]) -> bool
    ensures { result ≡ begins_with_feed rest.now }
{
    match rest.first() {
        Some(byte) => *byte == b'\n',
        None => false,
    }
}

/// Where a byte stands, behind such a one.
fn standing_at(standing: Standing, byte: u8) -> Standing
    ensures { result ≡ standing_at standing byte }
{
    match standing {
        Standing::Start => {
            if byte == b'!' {
                Standing::Note
            } else {
                Standing::Row
            }
        }
        standing => standing,
    }
}

/// What a byte is that stands there; one of a comment is a blank.
fn line_byte(standing: Standing, byte: u8) -> u8
    ensures { result ≡ line_byte standing byte }
{
    match standing {
        Standing::Note => b' ',
        Standing::Row | Standing::Start => row_byte(byte),
    }
}

/// A byte of a row as RLE has it; `?`, which RLE has not, for one that no row has.
fn row_byte(byte: u8) -> u8
    ensures { result ≡ row_byte byte }
{
    match byte {
        b'.' => b'.',
        b'O' | b'*' => b'o',
        b'\r' => b' ',
        _ => b'?',
    }
}

/// What a line's end is; that of a comment is a blank.
fn row_end(standing: Standing) -> u8
    ensures { result ≡ row_end standing }
{
    match standing {
        Standing::Note => b' ',
        Standing::Row | Standing::Start => b'$',
    }
}
