//! A rule, and what it makes of one cell.

ghost use Rattle.std.specs.Prelude.{◌≡◌, ◌+◌, ◌%◌, ◌<◌, ◌≤◌, ◌↔◌, IsTrue, IfOk, length};
ghost use Rattle.generations_rule.specs.Rule.{IsRule, has, next_state};
ghost use Rattle.generations_rule.specs.RuleText.{parsed, text_of};

use crate::fault::RuleFault;
use crate::text;
use std::alloc::{AllocError, Global};
use std::marker::Model;

/// A rule of Golly's Generations family: the numbers of live neighbours at which a live cell
/// survives and at which a dead cell is born, and the number of states, 2 to 256.
#[derive(Clone, Copy, Debug, PartialEq, Eq)]
pub struct Rule {
    survival: [bool; 9],
    birth: [bool; 9],
    states: u16,
}

impl Model for Rule {
    ghost use Rattle.generations_rule.specs.Rule.{GenerationsRule, IsRule};

    ghost Value = { GenerationsRule };

    ghost view = { λ r. record { survival = r.survival; birth = r.birth; states = r.states } };

    ghost invariant = { λ r. IsRule (record { survival = r.survival; birth = r.birth; states = r.states }) };

    ghost inverse = { λ v. record { survival = v.survival; birth = v.birth; states = v.states } };
}

impl Rule {
    /// The rule that a text `S/B/C` spells, as Golly's help has it: survival counts, birth counts
    /// and the number of states. Digits may stand in any order and more than once.
    pub fn parse(text: &[u8]) -> Result<Rule, RuleFault>
        ensures { result ≡ parsed text.now }
    {
        if text::slashes_in(text) != 2 {
            return Err(RuleFault::Slashes);
        }
        let parts = text::parts_of(text);
        let birth_start = parts.survival.len() as u64 + 1;
        let states_start = birth_start + parts.birth.len() as u64 + 1;
        Ok(Rule {
            survival: text::counts_in(parts.survival, 0, 0)?,
            birth: text::counts_in(parts.birth, birth_start, 1)?,
            states: text::states_in(parts.states, states_start)?,
        })
    }

    /// The printed form `S/B/C`: each count once, ascending, and the number of states without
    /// leading zeros.
    pub fn write_text(&self, alloc: Global) -> Result<Vec<u8>, AllocError>
        ensures printed { IfOk result (λ text. text.items ≡ text_of self.now) }
        ensures short { IfOk result (λ text. length text.items ≤ 22) }
    {
        text::text_of_parts(alloc, &self.survival, &self.birth, self.states)
    }

    /// The number of states, the dead and the live one included.
    pub fn states(&self) -> u16
        ensures value { result ≡ self.now.states }
        ensures rule { IsRule self.now }
    {
        self.states
    }

    /// Whether a live cell with `n` live neighbours stays live.
    pub fn survives(&self, n: u8) -> bool
        requires { n ≤ 8 }
        ensures { result ≡ has self.now.survival n }
    {
        self.survival[usize::from(n)]
    }

    /// Whether a dead cell with `n` live neighbours becomes live.
    pub fn born(&self, n: u8) -> bool
        requires { n ≤ 8 }
        ensures { result ≡ has self.now.birth n }
    {
        self.birth[usize::from(n)]
    }

    /// The state, one generation later, of a cell `n` of whose eight neighbours are live.
    pub fn next(&self, state: u8, n: u8) -> u8
        requires state { state < self.now.states }
        requires count { n ≤ 8 }
        ensures next { result ≡ next_state self.now state n }
        ensures below { result < self.now.states }
    {
        match state {
            0 => u8::from(self.birth[usize::from(n)]),
            1 if self.survival[usize::from(n)] => 1,
            _ => self.older(state),
        }
    }

    /// Whether the two are one rule.
    pub fn same(&self, other: &Rule) -> bool
        ensures { IsTrue result ↔ (self.now ≡ other.now) }
    {
        if !same_counts(&self.survival, &other.survival) {
            return false;
        }
        if !same_counts(&self.birth, &other.birth) {
            return false;
        }
        other.states == self.states
    }

    /// The next state of a cell that ages: the last one is followed by death.
    fn older(&self, state: u8) -> u8
        requires { state < self.now.states }
        ensures { result ≡ (state + 1) % self.now.states }
    {
        let next = u16::from(state) + 1;
        if next == self.states { 0 } else { next as u8 }
    }
}

fn same_counts(a: &[bool; 9], b: &[bool; 9]) -> bool
    ensures { IsTrue result ↔ (a.now ≡ b.now) }
{
    a == b
}
