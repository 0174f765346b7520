//! A document and the bytes of another, put together.

ghost use Rattle.std.specs.Prelude.{◌≤◌};
ghost use Rattle.genedit_documents.specs.Merging.{IsMergedWith, IsRenumberedWith};

use documents::{Document, DocumentFault, gather};
use std::alloc::Global;

/// A document with the edits of other bytes.
#[derive(Debug, Drop)]
pub struct Merged {
    pub document: Document,
    /// How many of the other bytes belong to no whole record, and were passed over.
    pub passed: usize,
}

/// The union of a document and of what the whole records in some bytes tell under its rule, wherever they
/// begin. Refused is what `documents::gather` refuses, and then what `Document::merge` does: an edit whose
/// stamp another edit of the document has (`SameStamp`).
pub fn merge_bytes(
    alloc: Global,
    document: &Document,
    other: &[u8],
) -> Result<Merged, DocumentFault>
    ensures { IsMergedWith document.now other.now result }
{
    let gathered = gather(alloc, document.rule(), other)?;
    let union = document.merge(alloc, &gathered.document)?;
    Ok(Merged {
        document: union,
        passed: gathered.passed,
    })
}

/// Why a document is not merged with bytes whose edits are taken by another number.
#[derive(Clone, Copy, Debug, PartialEq, Eq)]
pub enum RenumberFault {
    /// One of the two has an edit of the number.
    Taken,
    /// What `merge_bytes` refuses, or two edits would come to have one stamp.
    Document(DocumentFault),
}

impl From<DocumentFault> for RenumberFault {
    ghost use Rattle.std.specs.Prelude.{◌≡◌};
    ghost use Rattle.genedit_documents.specs.declared.merging.RenumberFault.TheVariants.{Document};

    ghost from_gives = { λ from fault. fault ≡ Document from };

    fn from(fault: DocumentFault) -> RenumberFault {
        RenumberFault::Document(fault)
    }
}

/// As `merge_bytes`, but that each edit of the bytes whose stamp stands for another edit of the document is taken as
/// the edit of a replica of this number, its counter kept. `Taken` where the document or the bytes have an edit of
/// that replica already.
pub fn merge_renumbered(
    alloc: Global,
    document: &Document,
    other: &[u8],
    number: u16,
) -> Result<Merged, RenumberFault>
    requires { 1 ≤ number }
    ensures { IsRenumberedWith number document.now other.now result }
{
    let gathered = gather(alloc, document.rule(), other)?;
    if document.has_replica(number) || gathered.document.has_replica(number) {
        return Err(RenumberFault::Taken);
    }
    let others = gathered.document.renumbered(alloc, document, number)?;
    let union = document.merge(alloc, &others)?;
    Ok(Merged {
        document: union,
        passed: gathered.passed,
    })
}
