//! What a text is converted to, as a macrocell.

ghost use Rattle.std.specs.Prelude.{◌≡◌, ◌⊎◌, IfErr, IfOk, option_map};
ghost use Rattle.genedit_view.specs.Reading.{bounds_told};
ghost use Rattle.genedit_view.specs.Seeing.{IsWantAt};
ghost use Rattle.genedit_view.specs.Universes.{universe_view};
ghost use Rattle.genedit_convert.specs.Converted.{asked};
ghost use Rattle.genedit_convert.specs.Macrocells.{IsMacrocellOf, IsNoMacrocell};

use crate::converting::{Converted, later};
use crate::options::ConvertOptions;
use export::ExportFault;
use genedit_view::{ViewFault, see_universe};
use macrocell_lines::write_macrocell;
use std::alloc::Global;

/// The macrocell of a file in RLE, MCell's format or plaintext, of a macrocell or of a state, told by its first bytes;
/// as it is, or some generations later. Its comments are left out. How many cells there are then does not matter, but
/// those of the file lie in the plane of edits.
///
/// Of several faults the first of these is told: those of a view of that generation (`genedit_view::view`), and 22
/// where the generation has more than 64 bits.
pub fn macrocell_of(
    alloc: Global,
    options: &ConvertOptions,
    text: &[u8],
) -> Result<Converted, ViewFault>
    ensures made { IfOk result (λ made. IsMacrocellOf options.now text.now made.text.items) }
    ensures bounds { IfOk result (λ made. option_map (λ bounds. bounds.items) made.bounds ≡ bounds_told text.now) }
    ensures fault { IfErr result (λ fault. IsNoMacrocell options.now text.now fault ⊎ IsWantAt (universe_view options.now.rule (asked options.now.generation)) text.now fault) }
{
    let seen = see_universe(alloc, options.rule, count_of(options), text)?;
    let Some(generation) = later(seen.generation, options.generation) else {
        return Err(ViewFault::from(ExportFault::GenRange));
    };
    let macrocell = write_macrocell(alloc, &seen.rule, generation, &seen.engine)?;
    Ok(Converted {
        text: macrocell,
        bounds: seen.into_bounds(),
    })
}

/// How many generations are asked for.
fn count_of(options: &ConvertOptions) -> u32
    ensures { result ≡ asked options.now.generation }
{
    options.generation.unwrap_or(0)
}
