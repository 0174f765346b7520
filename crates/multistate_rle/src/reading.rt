//! Reading an RLE text: the lines up to the header, and the tokens behind it.

ghost use Rattle.std.specs.Prelude.{◌≡◌, ◌↔◌, ◌+◌, ◌≤◌, ◌<◌, ◌^◌, ◌++◌, Ok, Err, length, drop, take, OnOk, IfErr, MatchOption, unwrap_or, None};
ghost use Rattle.std.specs.List.{enumerate_from, position_or_len};
ghost use Rattle.text_scan.specs.Bytes.{ends_line};
ghost use Rattle.generations_rule.specs.Refusal.{Answers, AnswersAs};
ghost use Rattle.multistate_rle.specs.Reading.{parsed, lines_of, body_read, begins_comment, cells_read, bare, or_else};
ghost use Rattle.multistate_rle.specs.HeaderLine.{HasNoHeader};
ghost use Rattle.multistate_rle.specs.Steps.{ReadsOn};

use crate::fault::RleFault;
use crate::header::header;
use crate::line::LineProgress;
use crate::origin::{self, Items, Origin};
use crate::tokens::{Onward, TokenReader};
use pattern_cells::Pattern;
use std::alloc::Global;
use text_scan::{is_all_blank, line_len};

/// The pattern that a text in Golly's multi-state RLE spells, or what is wrong with the text; the
/// fault is `Memory` only where memory was refused. A text without a header is told as such, whether
/// there is memory or not: memory is taken behind the header alone.
///
/// Not proved, but so by its code: the time grows with the text's length and the number of its
/// cells, and memory is taken for nonzero cells alone.
pub fn parse(alloc: Global, text: &[u8]) -> Result<Pattern, RleFault>
    ensures answers { Answers (λ fault. fault ≡ RleFault.Memory) result (parsed text.now) }
    ensures no_header { HasNoHeader text.now ↔ (result ≡ Err RleFault.Header) }
{
    let Some(front) = front_of(text) else {
        return Err(RleFault::Header);
    };
    let drawn = body(alloc, text, front.body)?;
    Ok(Pattern::new(
        front.width.max(drawn.width),
        front.height.max(drawn.height),
        front.origin.pos,
        front.origin.generation,
        drawn.cells,
    ))
}

/// What stands before the tokens: the origin, the header's sides, and where the next line begins.
#[derive(Clone, Copy)]
struct Front {
    origin: Origin,
    width: u64,
    height: u64,
    body: usize,
}

fn front_of(text: &[u8]) -> Option<Front>
    ensures { MatchOption result (parsed text.now ≡ Err RleFault.Header) (λ front.
        (parsed text.now ≡ body_read (length text.now) front.origin (front.width, front.height) (lines_of (enumerate_from front.body (drop front.body text.now))))
        × (front.width ≤ 4294967295) × (front.height ≤ 4294967295)) }
{
    let mut origin = None;
    let mut start = 0;
    while start < text.len() {
        let line = line_at(text, start);
        start += line.len() + 1;
        if is_comment(line) {
            origin = origin.or(origin::origin_of(line));
        } else if !is_all_blank(line) {
            let (width, height) = header(line)?;
            return Some(Front {
                origin: origin.unwrap_or(Items::new().origin()),
                width,
                height,
                body: start,
            });
        }
    }
    None
}

/// The line that begins at a place, without its end.
fn line_at(text: &[u8], start: usize) -> &[u8]
    requires { start ≤ length text.now }
    ensures line { result.now ≡ take (position_or_len ends_line (drop start text.now)) (drop start text.now) }
    ensures within { start + length result.now ≤ length text.now }
{
    let rest = &text[start..];
    &rest[..line_len(rest)]
}

fn is_comment(line: &[u8]) -> bool
    ensures { result ≡ begins_comment line.now }
{
    match line.first() {
        Some(byte) => *byte == b'#',
        None => false,
    }
}

/// What the tokens draw, which begin at this place of the text.
fn body(alloc: Global, text: &[u8], start: usize) -> Result<TokenReader, RleFault>
    ensures { AnswersAs (λ reader meant. reader.cells.items ≡ meant) (λ fault. fault ≡ RleFault.Memory) result
        (cells_read (length text.now) (bare (lines_of (enumerate_from start (drop start text.now))))) }
{
    let mut reader = TokenReader::new(alloc);
    let mut line = LineProgress::Start;
    let mut place = start;
    while place < text.len() {
        let next = past_runs(&mut reader, line, text, place)?;
        if next > place {
            place = next;
            continue;
        }
        let byte = text[place];
        line = line.after(byte);
        if line.drops(byte) {
            place += 1;
            continue;
        }
        match reader.read(place as u64, byte) {
            Ok(Onward::Goes) => place += 1,
            Ok(Onward::Ends) => return Ok(reader),
            Err(fault) => return Err(fault),
        }
    }
    match reader.end(text.len() as u64) {
        Ok(()) => Ok(reader),
        Err(fault) => Err(fault),
    }
}

/// Reads the runs whose bytes stand together, if one begins at this place, and tells the place behind
/// them; else this place.
fn past_runs(
    reader: &mut TokenReader,
    line: LineProgress,
    text: &[u8],
    place: usize,
) -> Result<usize, RleFault>
    requires { place ≤ length text.now }
    ensures { ReadsOn line text.now place reader.old result reader.new }
{
    match line {
        LineProgress::Inside if reader.is_between() => reader.read_runs(text, place),
        _ => Ok(place),
    }
}
