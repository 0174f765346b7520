//! What the whole records in some bytes tell, wherever they begin.

ghost use Rattle.std.specs.Prelude.{◌≡◌, ◌≤◌, ◌+◌, ◌++◌, ◌<◌, ◌^◌, ◌⊎◌, List, [], ◌∷◌, length, Ok, Err, IfErr, IfOk, IfSome, MatchOption, OnOk};
ghost use Rattle.edit_stamps.specs.Edit.{PlaneEdit};
ghost use Rattle.delta_exchange.specs.Delta.{AreTellable};
ghost use Rattle.document_bodies.specs.Bodies.{AreEditsUnder};
ghost use Rattle.document_bodies.specs.Reading.{IsWant};
ghost use Rattle.documents.specs.Gathering.{AreGatheredIn, IsGathered, IsLeftAt, IsToldRefused, edits_told};

use crate::document::Document;
use crate::fault::DocumentFault;
use crate::set;
use delta_exchange::{ReadFault, read_delta};
use document_bodies::BodyFault;
use edit_stamps::Edit;
use generations_rule::Rule;
use kept_records::{HEAD_BYTES, next_whole};
use std::alloc::Global;

/// What the whole records in some bytes tell.
#[derive(Debug, Drop)]
pub struct Gathered {
    pub document: Document,
    /// How many bytes stand between the records and behind them, and were passed over.
    pub passed: usize,
}

/// The document of the edits that whole records tell under a rule, wherever they begin: so also behind damage,
/// and in what was cut off a file, where no first record names the rule. A record of no edit, as such a first
/// one, is taken as that. Refused are, in this order: bytes in which no whole record stands (`NoDocument`);
/// the first record that tells neither one edit under the rule nor none (`Body`, with its place among those
/// found); and two different edits of one stamp (`SameStamp`, with the least such stamp). `Memory` is told
/// only of bytes in which a record stands.
pub fn gather(alloc: Global, rule: &Rule, bytes: &[u8]) -> Result<Gathered, DocumentFault>
    ensures { IsGathered rule.now bytes.now result }
{
    // What is known of a rule is known of the document: the call tells that it is one.
    let _states = rule.states();
    let (edits, read) = edits_among(alloc, rule, bytes)?;
    match set::set_of(edits) {
        Ok(set) => Ok(Gathered {
            document: Document::of_parts(*rule, set),
            passed: bytes.len() - read,
        }),
        Err(stamp) => Err(DocumentFault::SameStamp(stamp)),
    }
}

/// The edits that the whole records in some bytes tell, as they stand, and how many bytes these records have.
fn edits_among(
    alloc: Global,
    rule: &Rule,
    bytes: &[u8],
) -> Result<(Vec<Edit>, usize), DocumentFault>
    ensures told { IfOk result (λ r. AreGatheredIn rule.now bytes.now r.0.items r.1) }
    ensures within { IfOk result (λ r. r.1 ≤ length bytes.now) }
    ensures under { IfOk result (λ r. AreEditsUnder rule.now r.0.items) }
    ensures refused { IfErr result (IsLeftAt rule.now bytes.now) }
{
    let mut edits = Vec::new(alloc);
    let (mut from, mut read, mut records) = (0usize, 0usize, 0usize);
    while let Some((start, body)) = next_whole(bytes, from) {
        push_told(alloc, rule, body, records, &mut edits)?;
        let size = HEAD_BYTES + body.len();
        from = start + size;
        read += size;
        records += 1;
    }
    if records == 0 {
        return Err(DocumentFault::NoDocument);
    }
    Ok((edits, read))
}

/// Puts the edit that a record tells behind others, if it tells one; so many records stand before it.
fn push_told(
    alloc: Global,
    rule: &Rule,
    body: &[u8],
    before: usize,
    edits: &mut Vec<Edit>,
) -> Result<(), DocumentFault>
    requires { before < 2 ^ 63 }
    ensures told { OnOk result ((told : List PlaneEdit) × (edits_told rule.now body.now ≡ Ok told) × (edits.new.items ≡ edits.old.items ++ told)) }
    ensures under { AreEditsUnder rule.now edits.old.items → OnOk result (AreEditsUnder rule.now edits.new.items) }
    ensures refused { IfErr result (IsToldRefused rule.now body.now (before + 1)) }
{
    match edit_told(alloc, rule, body) {
        Ok(None) => Ok(()),
        Ok(Some(edit)) => {
            edits.push(edit)?;
            Ok(())
        }
        Err(BodyFault::Read(ReadFault::Memory)) => Err(DocumentFault::Memory),
        Err(fault) => Err(DocumentFault::Body(fault, before + 1)),
    }
}

/// What the body of a record tells under a rule: one edit, or none, as a first record, which names the rule alone.
/// Refused are what `delta_exchange::read_delta` refuses, and a message of more edits (`NoDocument`); want of memory
/// is told as `Read(Memory)`, for any body.
pub fn edit_told(alloc: Global, rule: &Rule, body: &[u8]) -> Result<Option<Edit>, BodyFault>
    ensures told { IfOk result (λ edit. MatchOption edit (edits_told rule.now body.now ≡ Ok []) (λ e. edits_told rule.now body.now ≡ Ok (e ∷ []))) }
    ensures under { IfOk result (λ edit. IfSome edit (λ e. AreTellable rule.now.states (e ∷ []))) }
    ensures refused { IfErr result (λ fault. IsWant fault ⊎ (edits_told rule.now body.now ≡ Err fault)) }
{
    let mut edits = read_delta(alloc, rule, body)?.into_vec();
    if edits.len() > 1 {
        return Err(BodyFault::NoDocument);
    }
    Ok(edits.pop())
}
