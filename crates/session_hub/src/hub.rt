//! Hubs.

ghost use Rattle.std.specs.Prelude.{◌≡◌, ℕ, IfOk};
ghost use Rattle.generations_rule.specs.Rule.{GenerationsRule, IsRule};
ghost use Rattle.edit_stamps.specs.PlaneMap.{HasStatesBelow};
ghost use Rattle.stamped_tree.specs.Plane.{map_of};
ghost use Rattle.poll_news.specs.Below.{IsNewsBelow};
ghost use Rattle.session_hub.specs.HubCall.{HubCall, Pushes, Polls, Shows, Hands};

use crate::fault::HubFault;
use edit_stamps::Edit;
use generations_rule::Rule;
use poll_news::News;
use stamped_tree::Plane;

/// What takes the edits of one seat, hands out what is new to it or the whole plane, and shows that plane.
/// Its rule and its number stay as they are, and each state of what it hands out is one of its rule's.
pub trait Hub {
    /// The rule of its edits and planes.
    ghost rule_of: { Self → GenerationsRule };

    /// The number of its seat.
    ghost number_of: { Self → ℕ };

    /// Whether a call may be answered so, between the hub before and after.
    ghost allows: { Self → HubCall → Self → Type 0 };

    /// The rule of its edits and planes.
    fn rule(&self) -> Rule
        ensures value { result ≡ rule_of self.now }
        ensures rule { IsRule (rule_of self.now) };

    /// The number of its seat.
    fn number(&self) -> u16
        ensures { result ≡ number_of self.now };

    /// Gives an edit. It may wait.
    fn push(&mut self, edit: Edit) -> Result<(), HubFault>
        ensures allowed { allows self.old (Pushes edit result) self.new }
        ensures rule { rule_of self.new ≡ rule_of self.old }
        ensures number { number_of self.new ≡ number_of self.old };

    /// What is new.
    fn poll(&mut self) -> Result<News, HubFault>
        ensures allowed { allows self.old (Polls result) self.new }
        ensures rule { rule_of self.new ≡ rule_of self.old }
        ensures number { number_of self.new ≡ number_of self.old }
        ensures states { IfOk result (IsNewsBelow (rule_of self.old).states) };

    /// Whether a poll would hand out something, as far as is known. No clause speaks of it: others push
    /// meanwhile.
    fn has_news(&self) -> bool;

    /// Hands out the whole plane, and says of how many edits it is. None of those is handed out by a poll any
    /// more.
    fn hand_out(&mut self) -> Result<(Plane, u64), HubFault>
        ensures allowed { allows self.old (Hands result) self.new }
        ensures rule { rule_of self.new ≡ rule_of self.old }
        ensures number { number_of self.new ≡ number_of self.old }
        ensures states { IfOk result (λ given. HasStatesBelow (rule_of self.old).states (map_of given.0)) };

    /// The whole plane.
    fn plane(&mut self) -> Result<Plane, HubFault>
        ensures allowed { allows self.old (Shows result) self.new }
        ensures rule { rule_of self.new ≡ rule_of self.old }
        ensures number { number_of self.new ≡ number_of self.old }
        ensures states { IfOk result (λ plane. HasStatesBelow (rule_of self.old).states (map_of plane)) };
}
