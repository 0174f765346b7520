//! The hub.

ghost use Rattle.std.specs.Prelude.{◌≡◌, [], None, length};
ghost use Rattle.edit_stamps.specs.PlaneMap.{HasStatesBelow};
ghost use Rattle.stamped_tree.specs.Plane.{map_of};

use edit_stamps::{Edit, EditList};
use generations_rule::Rule;
use pattern_cells::are_below;
use poll_news::News;
use session_hub::{Hub, HubFault};
use stamped_tree::Plane;
use std::alloc::Global;
use std::marker::Model;

/// A hub of one seat: what is pushed is what the next poll hands out, and the plane is the one that it was
/// given. Where some edits are said to be behind the plane, the next poll gives the plane. A plane that is
/// handed out whole is of the edits behind it and of those that a poll would have handed out.
#[derive(Drop)]
pub struct MemoryHub {
    alloc: Global,
    rule: Rule,
    number: u16,
    fresh: Vec<Edit>,
    plane: Plane,
    behind: u64,
    refuses: Option<HubFault>,
}

impl Model for MemoryHub {
    ghost use Rattle.memory_hub.specs.Calls.{MemoryState, IsMemoryState};

    ghost Value = { MemoryState };

    ghost view = { λ h. record { rule = h.rule; number = h.number; fresh = h.fresh.items; plane = h.plane; behind = h.behind; refuses = h.refuses } };

    ghost invariant = { λ h. IsMemoryState (record { rule = h.rule; number = h.number; fresh = h.fresh.items; plane = h.plane; behind = h.behind; refuses = h.refuses }) };
}

impl MemoryHub {
    /// The hub of a seat, with a plane whose states the rule has.
    pub fn new(alloc: Global, rule: Rule, number: u16, plane: Plane, behind: u64) -> MemoryHub
        requires { HasStatesBelow rule.states (map_of plane) }
        ensures { result ≡ record { rule = rule; number = number; fresh = []; plane = plane; behind = behind; refuses = None } }
    {
        MemoryHub {
            alloc,
            rule,
            number,
            fresh: Vec::new(alloc),
            plane,
            behind,
            refuses: None,
        }
    }

    /// From now on each call is refused by this fault, until there is none.
    pub fn refuse(&mut self, fault: Option<HubFault>)
        ensures { self.new ≡ record self.old { refuses = fault } }
    {
        self.refuses = fault;
    }

    /// How many edits the next poll hands out.
    pub fn fresh(&self) -> usize
        ensures { result ≡ length self.now.fresh }
    {
        self.fresh.len()
    }
}

impl Hub for MemoryHub {
    ghost use Rattle.memory_hub.specs.Calls.{IsMemoryCall};

    ghost rule_of = { λ h. h.rule };

    ghost number_of = { λ h. h.number };

    ghost allows = { IsMemoryCall };

    fn rule(&self) -> Rule {
        // For the proof alone: the call tells that what is held is a rule.
        let _states = self.rule.states();
        self.rule
    }

    fn number(&self) -> u16 {
        self.number
    }

    fn push(&mut self, edit: Edit) -> Result<(), HubFault> {
        if let Some(fault) = self.refuses {
            return Err(fault);
        }
        if edit.stamp().replica() != self.number {
            return Err(HubFault::NotYours);
        }
        if !are_below(self.rule.states(), edit.listed_cells()) {
            return Err(HubFault::StateRange);
        }
        self.fresh.push(edit)?;
        Ok(())
    }

    fn poll(&mut self) -> Result<News, HubFault> {
        if let Some(fault) = self.refuses {
            return Err(fault);
        }
        if self.behind > 0 {
            let plane = self.plane.copy()?;
            let behind = self.behind;
            self.behind = 0;
            return Ok(News::Whole(plane, behind));
        }
        let edits = std::mem::replace(&mut self.fresh, Vec::new(self.alloc));
        Ok(News::Edits(EditList::of_vec(edits)))
    }

    fn has_news(&self) -> bool {
        self.behind > 0 || !self.fresh.is_empty()
    }

    fn hand_out(&mut self) -> Result<(Plane, u64), HubFault> {
        if let Some(fault) = self.refuses {
            return Err(fault);
        }
        let plane = self.plane.copy()?;
        let count = self.behind.saturating_add(self.fresh.len() as u64);
        self.behind = 0;
        self.fresh = Vec::new(self.alloc);
        Ok((plane, count))
    }

    fn plane(&mut self) -> Result<Plane, HubFault> {
        if let Some(fault) = self.refuses {
            return Err(fault);
        }
        let plane = self.plane.copy()?;
        Ok(plane)
    }
}
