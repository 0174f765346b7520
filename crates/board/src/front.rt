//! A prefix of the published list that was seen, and under how many states it was drawn.

ghost use Rattle.std.specs.Prelude.{◌≡◌, ◌+◌, ◌<◌, ◌≤◌, ◌^◌, ◌++◌, ◌∷◌, ◌⊎◌, ◌↔◌, [], true, length, IsTrue, IfErr, IfOk, MatchBool};
ghost use mathlib.Core.List.{IsPrefix};
ghost use Rattle.edit_stamps.specs.Edit.{has_states_below};
ghost use Rattle.board.specs.Adding.{IsAddFault};
ghost use Rattle.board.specs.Entries.{all_below};

use crate::entry::Entry;
use crate::history::{AddFault, History, Prefix};

/// A prefix of the published list that was seen. Each state in it is below the number of states that
/// the board's rule has. The entries themselves stand in the proofs alone: what is kept is their count,
/// so that a front is copied at no cost.
#[derive(Drop)]
pub struct Front {
    pub prefix: Prefix,
    pub states: u16,
    pub ghost below: { all_below states prefix.seen.log ≡ true },
}

impl Front {
    /// The front that has seen nothing.
    pub fn first(prefix: Prefix, states: u16) -> Front
        requires { prefix.seen.log ≡ [] }
        ensures { (result.prefix ≡ prefix) × (result.states ≡ states) }
    {
        Front { prefix, states }
    }

    /// How many entries it has.
    pub fn len(&self) -> u64
        ensures { result ≡ length self.now.prefix.seen.log }
    {
        self.prefix.len()
    }

    /// The same front.
    pub fn again(&self) -> Front
        ensures { result ≡ self.now }
    {
        Front {
            prefix: self.prefix.again(),
            states: self.states,
        }
    }

    /// Whether this front is at most as long as another of the same history, and so begins it; else
    /// the other begins this one.
    pub fn begins(&self, other: &Front) -> bool
        requires { other.now.prefix.seen.book ≡ self.now.prefix.seen.book }
        ensures shorter { IsTrue result ↔ (length self.now.prefix.seen.log ≤ length other.now.prefix.seen.log) }
        ensures begins { MatchBool result (IsPrefix self.now.prefix.seen.log other.now.prefix.seen.log) (IsPrefix other.now.prefix.seen.log self.now.prefix.seen.log) }
    {
        self.prefix.begins(&other.prefix)
    }

    /// The front with one entry more, which the history took, or why it did not.
    pub fn with(&self, history: &History, entry: &Entry) -> Result<Front, AddFault>
        requires book { self.now.prefix.seen.book ≡ history.now.head.book }
        requires below { has_states_below self.now.states entry.now.edit ≡ true }
        ensures same { IfOk result (λ f. (f.prefix.seen.book ≡ self.now.prefix.seen.book) × (f.states ≡ self.now.states)) }
        ensures added { IfOk result (λ f. f.prefix.seen.log ≡ self.now.prefix.seen.log ++ entry.now ∷ []) }
        ensures cause { IfErr result (IsAddFault history.now.head.book self.now.prefix.seen.log) }
    {
        let mut prefix = self.prefix.again();
        history.add(&mut prefix, entry)?;
        Ok(Front {
            prefix,
            states: self.states,
        })
    }
}
