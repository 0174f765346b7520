//! Documents, read.

ghost use Rattle.std.specs.Prelude.{◌≡◌, ◌+◌, ◌<◌, ◌^◌, [], ◌∷◌, Ok, IfOk, MatchResult};
ghost use Rattle.document_bodies.specs.Bodies.{AreEditsUnder};
ghost use Rattle.document_bodies.specs.Reading.{edit_of};
ghost use Rattle.delta_exchange.specs.Delta.{AreTellable};
ghost use Rattle.documents.specs.Reading.{AreToldIn, IsBodyRefused, IsDocumentRead, IsFirstRefused, IsListRead};

use crate::document::Document;
use crate::fault::DocumentFault;
use crate::set;
use delta_exchange::ReadFault;
use document_bodies::{BodyFault, edit_in, rule_in};
use edit_stamps::Edit;
use generations_rule::Rule;
use kept_records::next_record;
use std::alloc::Global;

/// The edits that bytes tell, as they stand.
#[derive(Debug, Drop)]
pub struct ListedEdits {
    pub rule: Rule,
    /// One for each record behind the first, in the order of the records.
    pub edits: Vec<Edit>,
    /// How many bytes the records have that were read; behind them is the lost end, where no record
    /// begins.
    pub whole: usize,
}

/// What bytes are read as.
#[derive(Debug, Drop)]
pub struct ReadDocument {
    pub document: Document,
    /// How many bytes the records have that were read; behind them is the lost end, where no record
    /// begins.
    pub whole: usize,
    /// How many records of edits were read: as many as the document has edits, or more, where one stands
    /// twice.
    pub count: usize,
}

/// The edits that bytes tell, in the order of their records. They are read up to where no record begins.
/// Refused are, in this order: bytes whose first record names no rule, and those without one (`NoDocument`);
/// and the first record behind it that tells no edit under the rule (`Body`). `Memory` is told only of bytes
/// that begin with a record. Bodies are read where they stand: it takes memory by the edits alone.
pub fn read_edits(alloc: Global, bytes: &[u8]) -> Result<ListedEdits, DocumentFault>
    ensures told { IsListRead bytes.now result }
    ensures under { IfOk result (λ l. AreEditsUnder l.rule l.edits.items) }
{
    let Some((head, behind)) = next_record(bytes) else {
        return Err(DocumentFault::NoDocument);
    };
    let Some(rule) = rule_in(alloc, head)? else {
        return Err(DocumentFault::NoDocument);
    };
    let (edits, rest) = edits_in(alloc, &rule, behind)?;
    Ok(ListedEdits {
        rule,
        edits,
        whole: bytes.len() - rest.len(),
    })
}

/// The document that bytes tell, whose records may stand in any order behind the first, and more than
/// once. Refused are what `read_edits` refuses, and then two different edits of one stamp (`SameStamp`,
/// with the least such stamp).
pub fn read_document(alloc: Global, bytes: &[u8]) -> Result<ReadDocument, DocumentFault>
    ensures { IsDocumentRead bytes.now result }
{
    let listed = read_edits(alloc, bytes)?;
    let count = listed.edits.len();
    match set::set_of(listed.edits) {
        Ok(set) => Ok(ReadDocument {
            document: Document::of_parts(listed.rule, set),
            whole: listed.whole,
            count,
        }),
        Err(stamp) => Err(DocumentFault::SameStamp(stamp)),
    }
}

/// The edits that records tell under a rule, up to where none begins, and what stands there; or the first
/// record that tells none.
fn edits_in<'a>(
    alloc: Global,
    rule: &Rule,
    bytes: &'a [u8],
) -> Result<(Vec<Edit>, &'a [u8]), DocumentFault>
    ensures under { IfOk result (λ r. AreEditsUnder rule.now r.0.items) }
    ensures told { MatchResult result (λ r. AreToldIn rule.now bytes.now r.0.items r.1.now) (λ fault. IsFirstRefused rule.now bytes.now fault) }
{
    let mut edits = Vec::new(alloc);
    let mut rest = bytes;
    while let Some((body, behind)) = next_record(rest) {
        let edit = edit_at(alloc, rule, body, edits.len())?;
        edits.push(edit)?;
        rest = behind;
    }
    Ok((edits, rest))
}

/// The edit of a body with so many before it.
fn edit_at(alloc: Global, rule: &Rule, body: &[u8], before: usize) -> Result<Edit, DocumentFault>
    requires { before < 2 ^ 63 }
    ensures under { IfOk result (λ edit. AreTellable rule.now.states (edit ∷ [])) }
    ensures told { MatchResult result (λ edit. edit_of rule.now body.now ≡ Ok edit) (λ fault. IsBodyRefused rule.now body.now (before + 1) fault) }
{
    match edit_in(alloc, rule, body) {
        Ok(edit) => Ok(edit),
        Err(BodyFault::Read(ReadFault::Memory)) => Err(DocumentFault::Memory),
        Err(fault) => Err(DocumentFault::Body(fault, before + 1)),
    }
}
