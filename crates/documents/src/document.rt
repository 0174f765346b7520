//! Documents.

ghost use Rattle.std.specs.Prelude.{◌≡◌, ◌≤◌, ◌↔◌, [], IfOk, IsTrue};

use crate::fault::DocumentFault;
use crate::{clash, count, put, renumber, set, union};
use document_bodies::{edit_body, head_body};
use edit_stamps::Edit;
use generations_rule::Rule;
use kept_records::push_record;
use std::alloc::{AllocError, Global};
use std::marker::Model;

/// A set of edits under one rule, each stamp once, in the order of the stamps: a grow-only set (RR-7506,
/// section 3.3.1), which only gains edits.
#[derive(Debug, Drop)]
pub struct Document {
    rule: Rule,
    edits: Vec<Edit>,
}

impl Model for Document {
    ghost use Rattle.documents.specs.Documents.{DocumentState, IsDocument};

    ghost Value = { DocumentState };

    ghost view = { λ d. record { rule = d.rule; edits = d.edits.items } };

    ghost invariant = { λ d. IsDocument (record { rule = d.rule; edits = d.edits.items }) };
}

impl Document {
    ghost use Rattle.documents.specs.Documents.{IsDocument, count_of_new, document_text, has_edit};
    ghost use Rattle.documents.specs.Renumber.{IsRenumbered, has_replica};
    ghost use Rattle.documents.specs.Results.{IsInserted, IsMade, IsMerged};
    ghost use Rattle.documents.specs.Sets.{IsPartOf};

    /// The document of no edit.
    pub fn new(alloc: Global, rule: Rule) -> Document
        ensures { result ≡ record { rule = rule; edits = [] } }
    {
        // What is known of a rule is known of the document: the call tells that it is one.
        let _states = rule.states();
        Document {
            rule,
            edits: Vec::new(alloc),
        }
    }

    /// The document that has these edits, which may stand in any order, and the same one more than once.
    /// Refused are, in this order: an edit with a state that the rule does not have (`StateRange`), and
    /// two different edits of one stamp (`SameStamp`, with the least such stamp). It takes no memory.
    pub fn of_edits(rule: &Rule, edits: Vec<Edit>) -> Result<Document, DocumentFault>
        ensures { IsMade rule.now edits.items result }
    {
        if !set::are_under(rule, &edits) {
            return Err(DocumentFault::StateRange);
        }
        // What is known of a rule is known of the document: the call tells that it is one.
        let _states = rule.states();
        match set::set_of(edits) {
            Ok(edits) => Ok(Document { rule: *rule, edits }),
            Err(stamp) => Err(DocumentFault::SameStamp(stamp)),
        }
    }

    /// The document of a rule and edits that are those of one.
    pub(crate) fn of_parts(rule: Rule, edits: Vec<Edit>) -> Document
        requires { IsDocument (record { rule = rule; edits = edits.items }) }
        ensures { result ≡ record { rule = rule; edits = edits.items } }
    {
        Document { rule, edits }
    }

    /// The rule of all its edits.
    pub fn rule(&self) -> &Rule
        ensures { result.now ≡ self.now.rule }
    {
        &self.rule
    }

    /// The edits, in the order of their stamps.
    pub fn edits(&self) -> &[Edit]
        ensures edits { result.now ≡ self.now.edits }
        ensures document { IsDocument self.now }
    {
        &self.edits
    }

    /// The document that has the edits of both (RR-7506 merges two grow-only sets so). `OtherRule` where
    /// the rules differ; `SameStamp` with the least stamp at which both have an edit, and not the same;
    /// `Memory` only where they have a union. It takes time by how many edits the two have.
    pub fn merge(&self, alloc: Global, other: &Document) -> Result<Document, DocumentFault>
        ensures { IsMerged self.now other.now result }
    {
        if !self.rule.same(&other.rule) {
            return Err(DocumentFault::OtherRule);
        }
        if let Some(stamp) = clash::clash_of(&self.edits, &other.edits) {
            return Err(DocumentFault::SameStamp(stamp));
        }
        let edits = union::union_of(alloc, &self.edits, &other.edits)?;
        Ok(Document {
            rule: self.rule,
            edits,
        })
    }

    /// Adds an edit: whether it was new. Refused are, in this order: an edit with a state that the rule
    /// does not have (`StateRange`), and one whose stamp another edit has (`SameStamp`); then nothing
    /// changes, nor where memory is refused to one that is new (`Memory`). Behind all others it is added
    /// without a search.
    pub fn insert(&mut self, edit: Edit) -> Result<bool, DocumentFault>
        ensures { IsInserted self.old edit self.new result }
    {
        if !set::is_under(&self.rule, &edit) {
            return Err(DocumentFault::StateRange);
        }
        put::put_edit(&mut self.edits, edit)
    }

    /// The same edits, of which each whose stamp stands for another one in a document that is to take them has the number
    /// of a replica, its counter kept. `SameStamp` where two come to have one stamp, with the least such stamp;
    /// `Memory` may be told where two do, too.
    pub fn renumbered(
        &self,
        alloc: Global,
        taker: &Document,
        number: u16,
    ) -> Result<Document, DocumentFault>
        requires { 1 ≤ number }
        ensures { IsRenumbered number taker.now.edits self.now result }
    {
        let edits = renumber::renumbered(alloc, &taker.edits, &self.edits, number)?;
        Document::of_edits(&self.rule, edits)
    }

    /// Whether it has an edit of a replica.
    pub fn has_replica(&self, number: u16) -> bool
        ensures { result ≡ has_replica number self.now.edits }
    {
        self.edits
            .iter()
            .any(|edit| edit.stamp().replica() == number)
    }

    /// How many of another document's edits are not in this one. It takes time by how many edits the two
    /// have, and no memory.
    pub fn count_new(&self, other: &Document) -> usize
        ensures { result ≡ count_of_new self.now.edits other.now.edits }
    {
        count::count_new(&self.edits, &other.edits)
    }

    /// Whether it has an edit, found in as many steps as its number of edits has bits.
    pub fn has(&self, edit: &Edit) -> bool
        ensures { result ≡ has_edit self.now.edits edit.now }
    {
        put::has_edit(&self.edits, edit)
    }

    /// Whether all of another document's edits are in this one.
    pub fn includes(&self, other: &Document) -> bool
        ensures { IsTrue result ↔ IsPartOf other.now.edits self.now.edits }
    {
        count::count_new(&self.edits, &other.edits) == 0
    }

    /// The bytes of the document: a record that names the rule, and one for each edit in order.
    pub fn text(&self, alloc: Global) -> Result<Vec<u8>, AllocError>
        ensures { IfOk result (λ text. text.items ≡ document_text self.now.rule self.now.edits) }
    {
        let mut text = Vec::new(alloc);
        push_record(&mut text, &head_body(alloc, &self.rule)?)?;
        for edit in &self.edits {
            push_record(&mut text, &edit_body(alloc, &self.rule, edit)?)?;
        }
        Ok(text)
    }
}
