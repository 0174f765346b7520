//! Edits whose push was said, and those of the client's own that come back.

ghost use Rattle.std.specs.Prelude.{◌≡◌, ◌↔◌, IsTrue, drop};
ghost use Rattle.edit_stamps.specs.Edit.{has_states_below};
ghost use Rattle.board_client.specs.Hearing.{IsTaken};
ghost use Rattle.board_client.specs.Pushing.{push_bytes};

use edit_stamps::Edit;
use generations_rule::Rule;
use message_frames::Framed;
use replica_core::Replica;
use std::marker::Model;

/// An edit whose push was said, and whose answer is to come. Contracts see the edit and its rule.
#[derive(Drop)]
pub struct Pushed {
    rule: Rule,
    edit: Edit,
    request: Framed,
}

impl Model for Pushed {
    ghost use Rattle.board_client.specs.Pushed.{IsPushedEdit, PushedEdit};

    ghost Value = { PushedEdit };

    ghost view = { λ p. record { rule = p.rule; edit = p.edit } };

    ghost invariant = { λ p. IsPushedEdit p.rule p.edit p.request };
}

impl Pushed {
    /// An edit, and the request that it be published.
    pub(crate) fn new(rule: Rule, edit: Edit, request: Framed) -> Pushed
        requires bytes { request ≡ push_bytes rule edit }
        requires states { IsTrue (has_states_below rule.states edit) }
        ensures { result ≡ record { rule = rule; edit = edit } }
    {
        Pushed {
            rule,
            edit,
            request,
        }
    }

    /// The edit.
    pub fn edit(&self) -> &Edit
        ensures edit { result.now ≡ self.now.edit }
        ensures states { IsTrue (has_states_below self.now.rule.states self.now.edit) }
    {
        &self.edit
    }

    /// Whether it was drawn under a rule.
    pub fn is_of(&self, rule: &Rule) -> bool
        ensures { IsTrue result ↔ (self.now.rule ≡ rule.now) }
    {
        self.rule.same(rule)
    }

    /// The request that it be published.
    pub(crate) fn request(&self) -> &Framed
        ensures { result.now ≡ push_bytes self.now.rule self.now.edit }
    {
        &self.request
    }

    /// Whether a text is that of the edit under a replica's rule, and the replica's journal has the edit at a
    /// place: then the replica has taken the text, and to take it again would change nothing.
    pub(crate) fn is_taken_already(&self, replica: &Replica, place: usize, text: &[u8]) -> bool
        ensures { IsTrue result → IsTaken replica.now text.now replica.now }
    {
        let told = behind_kind(self.request.as_body());
        if !are_same(told, text) {
            return false;
        }
        if !self.rule.same(&replica.rule()) {
            return false;
        }
        // For the proof alone: the call tells that what is held is a rule.
        let _states = self.rule.states();
        replica.has_at(place, &self.edit)
    }
}

/// The bytes of a request behind its kind.
fn behind_kind(request: &[u8]) -> &[u8]
    ensures { result.now ≡ drop 1 request.now }
{
    if 1 <= request.len() {
        &request[1..]
    } else {
        &[]
    }
}

fn are_same(told: &[u8], text: &[u8]) -> bool
    ensures { IsTrue result ↔ (told.now ≡ text.now) }
{
    *told == *text
}
