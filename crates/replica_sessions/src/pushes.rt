//! Pushes.

ghost use Rattle.std.specs.Prelude.{◌≡◌, ◌≢◌, ◌⊎◌, ◌∷◌, [], length, Ok, Err, MatchResult};
ghost use Rattle.session_hub.specs.Request.{Push};
ghost use Rattle.session_hub.specs.Replies.{IsWanting, pushed_of, refusal, Kept};
ghost use Rattle.replica_sessions.specs.Answer.{IsAnswer, edit_in};
ghost use Rattle.replica_sessions.specs.SessionFault.{session_fault_number};

use crate::fault::SessionFault;
use crate::room::Room;
use delta_exchange::{Message, read};
use edit_stamps::Edit;
use frame_service::FrameList;
use generations_rule::Rule;
use session_hub::Hub;
use std::alloc::Global;

/// The reply to a push. The room for it is taken before, so an edit that the hub took is never answered
/// as a want of memory.
pub fn push_reply<H: Hub>(alloc: Global, hub: &mut H, room: Room, text: &[u8]) -> FrameList
    ensures answer { (kept : Kept) → IsAnswer H.allows (H.rule_of hub.old) (H.number_of hub.old) (Push text.now) hub.old kept result hub.new kept }
    ensures rule { H.rule_of hub.new ≡ H.rule_of hub.old }
    ensures number { H.number_of hub.new ≡ H.number_of hub.old }
{
    let rule = hub.rule();
    match pushed(alloc, &rule, text) {
        Err(fault) => room.refusal(fault.number()),
        Ok(edit) => match hub.push(edit) {
            Err(fault) => room.refusal(fault.number()),
            Ok(()) => room.refusal(0),
        },
    }
}

/// The edit of a pushed text.
fn pushed(alloc: Global, rule: &Rule, text: &[u8]) -> Result<Edit, SessionFault>
    ensures { MatchResult result (λ edit. pushed_of rule.now text.now ≡ Ok edit)
        (λ fault. IsWanting rule.now (Push text.now) (refusal (session_fault_number fault)) ⊎ (pushed_of rule.now text.now ≡ Err (session_fault_number fault))) }
{
    match read(alloc, rule, text) {
        Err(fault) => Err(SessionFault::Unread(fault)),
        Ok(message) => one_edit(&message),
    }
}

/// The edit of a message of just one.
fn one_edit(message: &Message) -> Result<Edit, SessionFault>
    ensures { MatchResult result (λ edit. edit_in message.now.content ≡ Ok edit)
        (λ fault. (fault ≡ SessionFault.Memory) ⊎ (edit_in message.now.content ≡ Err (session_fault_number fault))) }
{
    match message.edits() {
        None => Err(SessionFault::Request),
        Some(edits) => only_edit(edits),
    }
}

/// The edit of a list of just one.
fn only_edit(edits: &[Edit]) -> Result<Edit, SessionFault>
    ensures { MatchResult result (λ edit. edits.now ≡ edit ∷ [])
        (λ fault. (fault ≡ SessionFault.Memory) ⊎ ((fault ≡ SessionFault.Request) × (length edits.now ≢ 1))) }
{
    if edits.len() != 1 {
        return Err(SessionFault::Request);
    }
    match edits[0].copy() {
        Err(_) => Err(SessionFault::Memory),
        Ok(edit) => Ok(edit),
    }
}
