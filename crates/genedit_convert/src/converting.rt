//! What a text is converted to.

ghost use Rattle.std.specs.Prelude.{◌≡◌, ◌+◌, ◌++◌, true, ◌<◌, ◌≤◌, ◌^◌, ◌⊎◌, IfErr, IfOk, MatchOption, option_map};
ghost use Rattle.pattern_cells.specs.Cells.{are_nonzero, are_states_below, is_sorted};
ghost use Rattle.cell_files.specs.Comments.{comment_lines};
ghost use Rattle.cell_files.specs.Formats.{format_of};
ghost use Rattle.genedit_view.specs.Reading.{bounds_told};
ghost use Rattle.genedit_view.specs.Seeing.{IsWantAt};
ghost use Rattle.genedit_convert.specs.Converted.{IsConverted, IsNotConverted, as_view, asked};
ghost use Rattle.genedit_convert.specs.Names.{text_named};
ghost use Rattle.macrocell_lines.specs.Macrocell.{rule_name};

use crate::named::push_text;
use crate::options::ConvertOptions;
use cell_files::{CellFormat, comment_lines};
use export::ExportFault;
use genedit_view::{Form, SeenCells, ViewFault, ViewOptions, see};
use std::alloc::{AllocError, Global};

/// What a file is converted to.
#[derive(Drop)]
pub struct Converted {
    /// The RLE text.
    pub text: Vec<u8>,
    /// The bounds that the file tells, which are passed over: cells live on the whole plane.
    pub bounds: Option<Vec<u8>>,
}

/// The RLE text of a file in RLE, MCell's format or plaintext, of a macrocell or of a state, told by its first
/// bytes; as it is, or some generations later. Its comments stand in front, as `#N`, `#O` and `#C` lines; behind them it is what
/// `multistate_rle::write` writes of its cells, each moved by the file's position, at the generation that the
/// file tells and those that are asked for, but that a rule of two states is spelled `B3/S23`.
///
/// Of several faults the first of these is told: those of a view (`genedit_view::view`), and 22 where the
/// generation has more than 64 bits.
pub fn conversion_of(
    alloc: Global,
    options: &ConvertOptions,
    text: &[u8],
) -> Result<Converted, ViewFault>
    ensures made { IfOk result (λ made. IsConverted options.now text.now made.text.items) }
    ensures bounds { IfOk result (λ made. option_map (λ bounds. bounds.items) made.bounds ≡ bounds_told text.now) }
    ensures fault { IfErr result (λ fault. IsNotConverted options.now text.now fault ⊎ IsWantAt (as_view options.now) text.now fault) }
{
    let seen = see(alloc, &as_view(options), text)?;
    let Some(generation) = later(seen.generation, options.generation) else {
        return Err(ViewFault::from(ExportFault::GenRange));
    };
    let rle = rle_text(alloc, text, &seen, generation)?;
    Ok(Converted {
        text: rle,
        bounds: seen.bounds,
    })
}

/// What is asked of a view that shows the same cells.
fn as_view(options: &ConvertOptions) -> ViewOptions
    ensures { result ≡ as_view options.now }
{
    ViewOptions {
        form: Form::Plain,
        window: None,
        generation: options.generation,
        rule: options.rule,
    }
}

/// A generation and those that are asked for, if that has 64 bits.
pub(crate) fn later(generation: u64, count: Option<u32>) -> Option<u64>
    ensures { MatchOption result (2 ^ 64 ≤ generation + asked count) (λ later. (later ≡ generation + asked count) × (later < 2 ^ 64)) }
{
    generation.checked_add(u64::from(count.unwrap_or(0)))
}

/// The comments of a file, and the text of the cells that are seen of it.
fn rle_text(
    alloc: Global,
    text: &[u8],
    seen: &SeenCells,
    generation: u64,
) -> Result<Vec<u8>, AllocError>
    requires sorted { is_sorted seen.now.cells.items ≡ true }
    requires nonzero { are_nonzero seen.now.cells.items ≡ true }
    requires below { are_states_below seen.now.rule.states seen.now.cells.items ≡ true }
    ensures { IfOk result (λ out. out.items ≡ comment_lines (format_of text.now) text.now
        ++ text_named (rule_name seen.now.rule) seen.now.rule generation seen.now.cells.items) }
{
    let mut out = comment_lines(alloc, CellFormat::of(text), text)?;
    push_text(alloc, &mut out, &seen.rule, generation, &seen.cells)?;
    Ok(out)
}
