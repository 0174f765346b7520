//! What a file says: its cells and its rule.

ghost use Rattle.std.specs.Prelude.{◌≡◌, Err};
ghost use Rattle.generations_rule.specs.Refusal.{Answers};
ghost use Rattle.cell_files.specs.Files.{LacksHeader, LacksHeaderAs, file_parsed, file_rule_told, parsed_as, rule_told_as};

use crate::format::CellFormat;
use crate::head::Head;
use crate::mcell::read_mcell;
use crate::plaintext::read_plaintext;
use header_rules::{HeaderRule, header_rule};
use multistate_rle::{RleFault, parse};
use pattern_cells::Pattern;
use std::alloc::Global;

/// The pattern of a file in RLE, MCell's format or plaintext, told by its first bytes, or the first fault from
/// the left; the fault is `Memory` only where memory was refused, and never of a file that is read as RLE and has
/// no header. A place is the index of a byte of the file. Any other file is read as RLE.
///
/// Not proved, but so by its code: memory is taken for the bytes that stand in the file and for nonzero cells
/// alone, whatever counts stand there.
pub fn read_cells(alloc: Global, text: &[u8]) -> Result<Pattern, RleFault>
    ensures cells { Answers (λ fault. fault ≡ RleFault.Memory) result (file_parsed text.now) }
    ensures no_header { LacksHeader text.now → result ≡ Err RleFault.Header }
{
    match CellFormat::of(text) {
        CellFormat::MCell => read_mcell(alloc, text),
        CellFormat::Plaintext => read_plaintext(alloc, text),
        CellFormat::Rle | CellFormat::Macrocell | CellFormat::State | CellFormat::Document => parse(
            alloc, text,
        ),
    }
}

/// The rule that a file tells, and where: behind `rule =` in the header of an RLE text, behind `#RULE` in an MCell
/// file, of which the last such line counts; other files tell none. It is read in each spelling that a person types.
pub fn file_rule(text: &[u8]) -> Option<HeaderRule>
    ensures { result ≡ file_rule_told text.now }
{
    match CellFormat::of(text) {
        CellFormat::MCell => Head::of(text).rule,
        CellFormat::Rle => header_rule(text),
        CellFormat::Plaintext | CellFormat::Macrocell | CellFormat::State | CellFormat::Document =>
            None,
    }
}
