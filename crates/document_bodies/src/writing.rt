//! Bodies, written.

ghost use Rattle.std.specs.Prelude.{◌≡◌, ◌≤◌, ◌<◌, ◌^◌, length, IfOk};
ghost use Rattle.document_bodies.specs.Bodies.{edit_body, head_body};

use delta_exchange::write_delta;
use edit_stamps::Edit;
use generations_rule::Rule;
use std::alloc::{AllocError, Global};
use std::slice;

/// The first body of a document: its rule, as the message of no edit.
pub fn head_body(alloc: Global, rule: &Rule) -> Result<Vec<u8>, AllocError>
    ensures text { IfOk result (λ body. body.items ≡ head_body rule.now) }
    ensures short { IfOk result (λ body. length body.items < 2 ^ 24) }
{
    // What is known of a rule bounds its text: the call tells that it is one.
    let _states = rule.states();
    write_delta(alloc, rule, &[])
}

/// The body of an edit: the message of it alone. That its states are below the rule's number of states is
/// the caller's condition; it makes no difference to what is written, but a body without it is refused
/// where it is read.
pub fn edit_body(alloc: Global, rule: &Rule, edit: &Edit) -> Result<Vec<u8>, AllocError>
    ensures text { IfOk result (λ body. body.items ≡ edit_body rule.now edit.now) }
    ensures short { IfOk result (λ body. length body.items ≤ 2 ^ 24) }
{
    // What is known of a rule and of an edit bounds their texts: the calls tell that they are such.
    let _states = rule.states();
    let _cells = edit.listed_cells();
    write_delta(alloc, rule, slice::from_ref(edit))
}
