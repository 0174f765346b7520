//! The text of a macrocell, read.

ghost use Rattle.std.specs.Prelude.{◌≡◌, ◌⊎◌, ◌<◌, ◌^◌, ◌+◌, MatchResult, length, option_map, Ok, Err, IfSome};
ghost use Rattle.generations_rule.specs.Refusal.{AnswersAs};
ghost use Rattle.macrocell_text.specs.Macrocells.{AreSquares, squares_of};
ghost use Rattle.macrocell_text.specs.Readings.{macrocell_told, reading_of};
ghost use Rattle.macrocell_text.specs.Texts.{is_first_line, lines_left, macrocell_read, told_of, with_lines};

use crate::fault::MacrocellFault;
use crate::macrocell::Macrocell;
use crate::reading::Reader;
use header_rules::split_line;
use std::alloc::Global;

/// What the text of a macrocell tells (Golly's help, "File formats: Macrocell format"), or the first fault from the left;
/// the fault is `Memory` only where memory was refused. A place is the index of a byte of the text.
///
/// Not proved, but so by its code: memory is taken for the square lines that stand in the text alone, whatever they
/// say, and time grows with the text's length.
pub fn read_macrocell(alloc: Global, text: &[u8]) -> Result<Macrocell, MacrocellFault>
    ensures { AnswersAs (λ m told. macrocell_told m ≡ told) (λ fault. fault ≡ MacrocellFault.Memory) result (macrocell_read text.now) }
{
    let (first, lines) = split_line(text);
    if !is_first_line(first) {
        return Err(MacrocellFault::Header);
    }
    let reader = lines_told(Reader::new(alloc, first), lines)?;
    Ok(told_of(reader))
}

/// Whether a line begins as the first one of a macrocell.
fn is_first_line(line: &[u8]) -> bool
    ensures { result ≡ is_first_line line.now }
{
    line.starts_with(b"[M2]")
}

/// What is told with the lines that are left, if any are.
fn lines_told(reader: Reader, lines: Option<&[u8]>) -> Result<Reader, MacrocellFault>
    requires { IfSome lines (λ rest. reader.start + length rest.now + 1 < 2 ^ 64) }
    ensures { MatchResult result (λ told. with_lines (reading_of reader) (lines_left (option_map (λ rest. rest.now) lines.entry)) ≡ Ok (reading_of told)) (λ fault. (fault ≡ MacrocellFault.Memory) ⊎ (with_lines (reading_of reader) (lines_left (option_map (λ rest. rest.now) lines.entry)) ≡ Err fault)) }
{
    let mut told = reader;
    let mut left = lines;
    while let Some(rest) = left {
        let (line, behind) = split_line(rest);
        told.take_line(line)?;
        left = behind;
    }
    Ok(told)
}

/// A macrocell of what lines told.
fn told_of(reader: Reader) -> Macrocell
    requires { AreSquares (squares_of reader.entries.items) }
    ensures { macrocell_told result ≡ told_of (reading_of reader) }
{
    let Reader {
        rule,
        generation,
        entries,
        ..
    } = reader;
    Macrocell {
        rule,
        generation,
        entries,
    }
}
