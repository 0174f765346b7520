//! Bodies, read.

ghost use Rattle.std.specs.Prelude.{◌≡◌, Ok, Some, None, IfOk, IfSome, [], ◌∷◌};
ghost use Rattle.generations_rule.specs.Refusal.{Answers};
ghost use Rattle.generations_rule.specs.Rule.{GenerationsRule, IsRule};
ghost use Rattle.edit_stamps.specs.Edit.{PlaneEdit};
ghost use Rattle.delta_exchange.specs.Delta.{AreTellable};
ghost use Rattle.document_bodies.specs.Bodies.{IsHead, edit_body, head_body};
ghost use Rattle.document_bodies.specs.Reading.{IsWant, edit_of, single};

use crate::fault::BodyFault;
use crate::writing::head_body;
use delta_exchange::read_delta;
use edit_stamps::Edit;
use generations_rule::Rule;
use std::alloc::{AllocError, Global};

/// How many bytes stand before the rule's text: four of a magic, one of a version, and one that tells the
/// text's length.
const BEFORE_RULE: usize = 6;

/// The rule of a document's first body, or nothing where these bytes are none.
pub fn rule_in(alloc: Global, head: &[u8]) -> Result<Option<Rule>, AllocError>
    ensures some { IfOk result (λ found. IfSome found (λ r. IsRule r × (head.now ≡ head_body r))) }
    ensures none { IfOk result (λ found. found ≡ None → ¬ IsHead head.now) }
    // What is spelt so is read.
    ensures only { IfOk result (λ found. (r : GenerationsRule) → IsRule r → head.now ≡ head_body r → found ≡ Some r) }
{
    let Some(rule) = rule_told(head) else {
        return Ok(None);
    };
    // Magic, version and what stands behind are those of a first body where the whole is what is written.
    let written = head_body(alloc, &rule)?;
    if written.as_slice() != head {
        return Ok(None);
    }
    Ok(Some(rule))
}

/// The edit that a body behind the first tells under a rule, or why it tells none.
pub fn edit_in(alloc: Global, rule: &Rule, body: &[u8]) -> Result<Edit, BodyFault>
    // Which edit, or which fault.
    ensures exact { Answers IsWant result (edit_of rule.now body.now) }
    // What is read is spelt so.
    ensures found { IfOk result (λ e. (body.now ≡ edit_body rule.now e) × AreTellable rule.now.states (e ∷ [])) }
    // What is spelt so is read.
    ensures only { (meant : PlaneEdit) → AreTellable rule.now.states (meant ∷ []) → body.now ≡ edit_body rule.now meant
        → Answers IsWant result (Ok meant) }
{
    let edits = read_delta(alloc, rule, body)?;
    single(edits.into_vec())
}

/// The rule whose text stands in the place that a first body has for it, whatever stands around.
fn rule_told(head: &[u8]) -> Option<Rule>
    ensures rule { IfSome result (λ r. IsRule r) }
    ensures only { (r : GenerationsRule) → IsRule r → head.now ≡ head_body r → result ≡ Some r }
{
    if head.len() < BEFORE_RULE {
        return None;
    }
    let (front, behind) = head.split_at(BEFORE_RULE);
    let size = usize::from(front[BEFORE_RULE - 1]);
    if size > behind.len() {
        return None;
    }
    let (text, _rest) = behind.split_at(size);
    Rule::parse(text).ok()
}

/// The edit of a message of just one.
fn single(edits: Vec<Edit>) -> Result<Edit, BodyFault>
    ensures { result ≡ single edits.items }
{
    let mut edits = edits;
    if edits.len() > 1 {
        return Err(BodyFault::NoDocument);
    }
    edits.pop().ok_or(BodyFault::NoDocument)
}
