//! Replicas that hold a document.

ghost use Rattle.std.specs.Prelude.{◌≤◌, IfErr, IfOk};
ghost use Rattle.document_bodies.specs.Bodies.{AreEditsUnder};
ghost use Rattle.genedit_documents.specs.Holding.{HoldsMap, IsHoldingWant};
ghost use Rattle.genedit_documents.specs.Listing.{first_of};

use crate::listing::first_edits;
use documents::ListedEdits;
use keyed_hash::HashKey;
use replica_core::{Fault, Replica};
use stamped_tree::Limits;
use std::alloc::Global;

/// Some replica's number, where none of its own is drawn.
pub(crate) const NUMBER: u16 = 1;

/// A replica of a number that holds the map which the first edits of a list make, each cell by the greatest stamp; of
/// so many edits at most, or of all where no number is given. By the key it finds what it holds. The only errors are
/// want of memory, and of room for 2^26 squares.
pub fn replica_of(
    alloc: Global,
    listed: &ListedEdits,
    most: Option<u64>,
    number: u16,
    key: HashKey,
) -> Result<Replica, Fault>
    requires number { 1 ≤ number }
    requires under { AreEditsUnder listed.now.rule listed.now.edits.items }
    ensures held { IfOk result (HoldsMap listed.now.rule number (first_of most listed.now.edits.items)) }
    ensures want { IfErr result (IsHoldingWant (first_of most listed.now.edits.items)) }
{
    let mut replica = Replica::within(alloc, listed.rule, number, Limits::of_key(key))?;
    replica.take_edits(first_edits(&listed.edits, most))?;
    Ok(replica)
}
