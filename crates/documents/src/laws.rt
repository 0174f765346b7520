//! What documents obey: the contract of a function that does nothing.

ghost use Rattle.documents.specs.Laws.{AreDocumentLaws};

/// Equal sets have equal bytes, and equal bytes tell equal sets. The union of two sets that agree is their
/// one least upper bound by inclusion, so it is commutative, associative and idempotent, as RR-7506 asks;
/// its map is the join of their maps. Where two sets agree no edit is renumbered.
pub fn document_laws()
    ensures laws { AreDocumentLaws }
{}
