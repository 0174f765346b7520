//! A block of cells, a byte a cell, and the rule applied cell by cell.

ghost use Rattle.std.specs.Prelude.{◌≡◌, ◌+◌, ◌*◌, ◌<◌, ◌≤◌};

use crate::drawing::Chance;
use bitplane_kernel::{BitLeaf, Block};
use generations_rule::Rule;

/// 16 by 16 states, row by row.
#[derive(Clone, Copy)]
pub struct Cells {
    states: [u8; 256],
}

impl Cells {
    /// States by chance, below the rule's number of states.
    pub fn scattered(rule: &Rule, chance: &mut Chance) -> Cells {
        let bound = u32::from(rule.states());
        let mut states = [0; 256];
        for state in states.iter_mut() {
            *state = (chance.word() % bound) as u8;
        }
        Cells { states }
    }

    pub fn block(&self) -> Block {
        Block::from_leaves(
            &self.leaf(0, 0),
            &self.leaf(8, 0),
            &self.leaf(0, 8),
            &self.leaf(8, 8),
        )
    }

    /// A quarter, whose corner is here.
    fn leaf(&self, left: usize, top: usize) -> BitLeaf
        requires { (left ≤ 8) × (top ≤ 8) }
    {
        let mut quarter = [0; 64];
        for i in 0..64usize {
            quarter[i] = self.states[16 * (top + i / 8) + left + i % 8];
        }
        BitLeaf::of_states(&quarter)
    }

    /// One generation of the cells that are not on the edge.
    #[inline(never)]
    pub fn step(&mut self, rule: &Rule) {
        let old = self.states;
        for y in 1..15usize {
            for x in 1..15usize {
                let i = 16 * y + x;
                let state = old[i];
                if u16::from(state) < rule.states() {
                    self.states[i] = rule.next(state, live_around(&old, i));
                }
            }
        }
    }

    /// How many of the cells that are not on the edge are those of the block.
    pub fn same(&self, block: &Block) -> u64 {
        let mut same = 0u64;
        for y in 1..15usize {
            for x in 1..15usize {
                if self.states[16 * y + x] == block.get(x, y) {
                    same = same.wrapping_add(1);
                }
            }
        }
        same
    }
}

fn live_around(states: &[u8; 256], i: usize) -> u8
    requires { (17 ≤ i) × (i < 239) }
    ensures { result ≤ 8 }
{
    live(states[i - 17])
        + live(states[i - 16])
        + live(states[i - 15])
        + live(states[i - 1])
        + live(states[i + 1])
        + live(states[i + 15])
        + live(states[i + 16])
        + live(states[i + 17])
}

fn live(state: u8) -> u8
    ensures { result ≤ 1 }
{
    u8::from(state == 1)
}
