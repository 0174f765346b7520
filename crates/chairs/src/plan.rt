//! All chairs.

ghost use Rattle.std.specs.Prelude.{◌≡◌, ◌<◌, ◌↔◌, IfNone, IfOk, IfSome, IsTrue, List, MatchOption, None, Option, Some, length, replicate, slice_set, ℕ};
ghost use Rattle.chairs.specs.Turns.{HasFresh, IsFreeAt, IsNext, NoTurnComes, Sits, earlier_of, once_left};
ghost use Rattle.chairs.specs.Pages.{HasKey, IsFor, IsNowhere, IsOnlyAt, chair_of};
ghost use Rattle.chairs.specs.declared.chair.Chair.TheVariants.{Fresh, Taken};

use crate::chair::Chair;
use crate::leaving::Leaving;
use crate::page::{PageKey, PagePlace};
use std::alloc::{AllocError, Global};
use std::marker::Model;

/// The chairs of all seats, in the order of their numbers. A page's key is at one of them at most.
///
/// Each `now` is the moment of the call, in milliseconds of one clock of the caller.
#[derive(Drop)]
pub struct Plan {
    chairs: Vec<Chair>,
    /// How often a chair was left; it stays at 2^64 - 1.
    leavings: u64,
}

impl Model for Plan {
    ghost use Rattle.chairs.specs.Turns.{PlanState};
    ghost use Rattle.chairs.specs.Pages.{AreApart};

    ghost Value = { PlanState };

    ghost view = { λ p. record { chairs = p.chairs.items; leavings = p.leavings } };

    ghost invariant = { λ p. AreApart p.chairs.items };
}

/// The chair whose turn comes first; none where no chair's turn comes.
fn next_of(chairs: &[Chair], now: u64) -> Option<usize>
    ensures { MatchOption result (NoTurnComes now chairs.now) (λ at. IsNext now chairs.now at) }
{
    let mut next: Option<(usize, u64)> = None;
    for (at, chair) in chairs.iter().enumerate() {
        next = earlier(next, at, chair.turn(now));
    }
    match next {
        None => None,
        Some((at, _)) => Some(at),
    }
}

/// Of a chair and one behind it, each with its turn, if it has one, the chair whose turn comes first.
fn earlier(next: Option<(usize, u64)>, at: usize, turn: Option<u64>) -> Option<(usize, u64)>
    ensures { result ≡ earlier_of next at turn }
{
    match (next, turn) {
        (_, None) => next,
        (None, Some(turn)) => Some((at, turn)),
        (Some((_, least)), Some(turn)) => { if turn < least { Some((at, turn)) } else { next } }
    }
}

/// The chair at which a page's key is; none where it is at none.
fn own_chair(chairs: &[Chair], key: &PageKey) -> Option<usize>
    ensures { MatchOption result (IsNowhere chairs.now key.now) (λ at. HasKey chairs.now at key.now) }
{
    chairs.iter().position(|chair| chair.has_key(key))
}

/// Where a page is given its seat: at its own chair, else at the one whose turn comes first; none where no chair's turn
/// comes.
fn place_for(chairs: &[Chair], key: &PageKey, now: u64) -> Option<PagePlace>
    ensures none { IfNone result (IsNowhere chairs.now key.now × NoTurnComes now chairs.now) }
    ensures given { IfSome result (λ place. IsFor now chairs.now key.now place) }
{
    match own_chair(chairs, key) {
        None => next_of(chairs, now).map(PagePlace::Free),
        Some(at) => match chairs[at] {
            Chair::Taken(_) => Some(PagePlace::Own(at)),
            Chair::Fresh | Chair::Left(_) => Some(PagePlace::Free(at)),
        },
    }
}

impl Plan {
    /// So many chairs at which nobody has sat.
    pub fn new(alloc: Global, count: usize) -> Result<Plan, AllocError>
        ensures { IfOk result (λ p. p ≡ record { chairs = replicate count Fresh; leavings = 0 }) }
    {
        let chairs = vec![in alloc; Chair::Fresh; count]?;
        Ok(Plan {
            chairs,
            leavings: 0,
        })
    }

    /// Gives a connection the chair whose turn comes first: one at which nobody has sat, the first of these, else the
    /// one that was left longest ago. A chair that a page left is kept for it for `KEPT`. None where somebody sits at
    /// each chair, or it is kept.
    pub fn take(&mut self, now: u64) -> Option<usize>
        ensures none { IfNone result (NoTurnComes now self.old.chairs × (self.new ≡ self.old)) }
        ensures given { IfSome result (λ at. IsNext now self.old.chairs at × (self.new ≡ record self.old { chairs = slice_set self.old.chairs at (Taken None) })) }
    {
        match next_of(&self.chairs, now) {
            None => None,
            Some(at) => {
                self.chairs[at] = Chair::Taken(None);
                Some(at)
            }
        }
    }

    /// Gives a page its own chair, however long ago it left, and even where it sits there by an earlier socket. Else it
    /// gets, as a connection does, the chair whose turn comes first. None where its key is at no chair and no chair's
    /// turn comes.
    pub fn take_for(&mut self, key: PageKey, now: u64) -> Option<PagePlace>
        ensures none { IfNone result (IsNowhere self.old.chairs key × (NoTurnComes now self.old.chairs × (self.new ≡ self.old))) }
        ensures given { IfSome result (λ place. IsFor now self.old.chairs key place × (self.new ≡ record self.old { chairs = slice_set self.old.chairs (chair_of place) (Taken (Some key)) })) }
        ensures only { IfSome result (λ place. IsOnlyAt self.new.chairs (chair_of place) key) }
    {
        match place_for(&self.chairs, &key, now) {
            None => None,
            Some(place) => {
                self.chairs[place.chair()] = Chair::Taken(Some(key));
                Some(place)
            }
        }
    }

    /// Whoever sat at a chair has left it; a page's key stays there until somebody else is given the chair. Nothing
    /// changes where nobody sits.
    pub fn leave(&mut self, at: usize, now: u64)
        requires { at < length self.old.chairs }
        ensures left { (page : Option (List ℕ)) → Sits self.old.chairs at page → self.new ≡ once_left now self.old at page }
        ensures same { IsFreeAt self.old.chairs at → self.new ≡ self.old }
    {
        if let Chair::Taken(page) = self.chairs[at] {
            self.leavings = self.leavings.saturating_add(1);
            self.chairs[at] = Chair::Left(Leaving {
                number: self.leavings,
                time: now,
                page,
            });
        }
    }

    /// Whether there is a chair at which nobody has sat yet.
    pub fn has_fresh(&self) -> bool
        ensures { IsTrue result ↔ HasFresh self.now.chairs }
    {
        self.chairs
            .iter()
            .any(|chair| matches!(chair, Chair::Fresh))
    }

    /// How many there are.
    pub fn len(&self) -> usize
        ensures { result ≡ length self.now.chairs }
    {
        self.chairs.len()
    }
}
