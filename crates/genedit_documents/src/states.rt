//! Documents as states.

ghost use Rattle.std.specs.Prelude.{IfErr, IfOk};
ghost use Rattle.delta_exchange.specs.StateText.{IsStateText};
ghost use Rattle.document_bodies.specs.Bodies.{AreEditsUnder};
ghost use Rattle.edit_stamps.specs.Edit.{greatest};
ghost use Rattle.genedit_documents.specs.Holding.{IsAsState, IsHoldingWant};
ghost use Rattle.genedit_documents.specs.Listing.{first_of};

use crate::holding::{NUMBER, replica_of};
use documents::{DocumentFault, ListedEdits, read_edits};
use kept_records::next_record;
use keyed_hash::HashKey;
use replica_core::Fault;
use std::alloc::Global;

/// Why a document is not made a state.
#[derive(Clone, Copy, Debug, PartialEq, Eq)]
pub enum StateFault {
    /// Its bytes tell none.
    Document(DocumentFault),
    /// Memory is wanting for the map of its edits, or room for 2^26 squares.
    Want(Fault),
}

impl From<DocumentFault> for StateFault {
    ghost use Rattle.std.specs.Prelude.{◌≡◌};
    ghost use Rattle.genedit_documents.specs.declared.states.StateFault.TheVariants.{Document};

    ghost from_gives = { λ fault state. state ≡ Document fault };

    fn from(fault: DocumentFault) -> StateFault {
        StateFault::Document(fault)
    }
}

impl From<Fault> for StateFault {
    ghost use Rattle.std.specs.Prelude.{◌≡◌};
    ghost use Rattle.genedit_documents.specs.declared.states.StateFault.TheVariants.{Want};

    ghost from_gives = { λ fault state. state ≡ Want fault };

    fn from(fault: Fault) -> StateFault {
        StateFault::Want(fault)
    }
}

/// What bytes hold that a document may be, as a state: `None` where no record begins them; else the bytes of a state of
/// the map that the document's first edits make, so many of them at most, or all where no number is given.
pub fn as_state(
    alloc: Global,
    bytes: &[u8],
    most: Option<u64>,
    key: HashKey,
) -> Result<Option<Vec<u8>>, StateFault>
    ensures { IsAsState (λ text. text.items) bytes.now most result }
{
    if next_record(bytes).is_none() {
        return Ok(None);
    }
    let listed = read_edits(alloc, bytes)?;
    let text = state_text(alloc, &listed, most, key)?;
    Ok(Some(text))
}

/// The bytes of a state of the map that the first edits of a list make.
fn state_text(
    alloc: Global,
    listed: &ListedEdits,
    most: Option<u64>,
    key: HashKey,
) -> Result<Vec<u8>, Fault>
    requires { AreEditsUnder listed.now.rule listed.now.edits.items }
    ensures text { IfOk result (λ text. IsStateText listed.now.rule (greatest (first_of most listed.now.edits.items)) text.items) }
    ensures want { IfErr result (IsHoldingWant (first_of most listed.now.edits.items)) }
{
    let replica = replica_of(alloc, listed, most, NUMBER, key)?;
    match replica.state() {
        Ok(text) => Ok(text),
        Err(_) => Err(Fault::Memory),
    }
}
