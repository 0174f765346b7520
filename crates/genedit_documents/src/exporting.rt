//! The generations of a document.

ghost use Rattle.std.specs.Prelude.{IfErr, IfOk, Ok};
ghost use Rattle.document_bodies.specs.Bodies.{AreEditsUnder};
ghost use Rattle.edit_stamps.specs.Edit.{greatest};
ghost use Rattle.export.specs.Export.{IsExport, most_cells};
ghost use Rattle.generation_engine.specs.Universe.{states_in_writes};
ghost use Rattle.genedit_documents.specs.Exporting.{IsExportRefused};
ghost use Rattle.genedit_documents.specs.Listing.{first_of};

use crate::holding::{NUMBER, replica_of};
use documents::ListedEdits;
use export::{ExportFault, LAST_GENERATION};
use keyed_hash::HashKey;
use replica_core::Fault;
use std::alloc::Global;

/// The RLE text of the map that the first edits of a list make, each cell by the greatest stamp, so many
/// generations later, as `Replica::export` gives it; of so many edits at most, or of all where no number is
/// given. Refused are `GenRange` and `TooManyCells`; else memory or room is wanting.
pub fn export_text(
    alloc: Global,
    key: HashKey,
    listed: &ListedEdits,
    most: Option<u64>,
    generation: u32,
) -> Result<Vec<u8>, Fault>
    requires { AreEditsUnder listed.now.rule listed.now.edits.items }
    ensures text { IfOk result (λ text. IsExport listed.now.rule (states_in_writes (greatest (first_of most listed.now.edits.items))) generation most_cells (Ok text.items)) }
    ensures refused { IfErr result (IsExportRefused listed.now.rule (first_of most listed.now.edits.items) generation) }
{
    if generation > LAST_GENERATION {
        return Err(Fault::Export(ExportFault::GenRange));
    }
    let replica = replica_of(alloc, listed, most, NUMBER, key)?;
    replica.export(generation)
}
