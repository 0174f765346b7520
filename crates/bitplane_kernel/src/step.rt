//! One generation of the planes of a block.

ghost use Rattle.std.specs.Prelude.{◌≡◌, ℕ, ◌+◌, ◌^◌, ◌<◌, ◌≤◌};
ghost use Rattle.generations_rule.specs.Rule.{IsRule, next_state};
ghost use Rattle.bitplane_kernel.specs.Planes.{bit, state_in};
ghost use Rattle.bitplane_kernel.specs.Step.{AreBelow, ChangesAt, live_in, StepsPlanes};

use crate::adders::neighbours;
use crate::bits::{and, not, or};
use crate::counts::{exact_counts, where_born, where_surviving};
use crate::planes::{BitPlane, add_one, clear, where_equal};
use generations_rule::Rule;
use std::simd::prelude::*;

/// The cells that age, the last state being followed by 0, and those that are born.
#[derive(Clone, Copy)]
pub(crate) struct Changes {
    pub(crate) ages: u16x16,
    pub(crate) births: u16x16,
}

/// One generation of the cells that are not on the edge, on as few planes as hold the states.
pub(crate) fn step(planes: &mut [BitPlane; 8], rule: &Rule)
    ensures steps { StepsPlanes rule.now planes.old planes.new }
    ensures rule { IsRule rule.now }
{
    match rule.states() {
        0..=2 => step_on::<1>(planes, rule),
        3..=4 => step_on::<2>(planes, rule),
        5..=8 => step_on::<3>(planes, rule),
        9..=16 => step_on::<4>(planes, rule),
        17..=32 => step_on::<5>(planes, rule),
        33..=64 => step_on::<6>(planes, rule),
        65..=128 => step_on::<7>(planes, rule),
        _ => step_on::<8>(planes, rule),
    }
}

fn step_on<const N: usize>(planes: &mut [BitPlane; 8], rule: &Rule)
    requires few { (1 ≤ N) × (N ≤ 8) }
    requires enough { rule.now.states ≤ 2 ^ N }
    ensures { StepsPlanes rule.now planes.old planes.new }
{
    let changes = find_changes::<N>(planes, rule);
    make_changes::<N>(planes, rule, changes);
}

/// Which of the cells that are not on the edge change.
#[inline(always)]
fn find_changes<const N: usize>(planes: &[BitPlane; 8], rule: &Rule) -> Changes
    requires { (1 ≤ N) × (N ≤ 8) }
    ensures { (x y : ℕ) → x < 14 → y < 14 → AreBelow (2 ^ N) planes.now x y →
        ChangesAt rule.now (state_in 8 planes.now (x + 1) (y + 1)) (live_in planes.now x y) (bit result.ages (x + 1) (y + 1)) (bit result.births (x + 1) (y + 1)) }
{
    let dead = where_equal::<N>(planes, 0);
    let live = where_equal::<N>(planes, 1);
    let exact = exact_counts(&neighbours(live));
    let stays = and(live, where_surviving(&exact, rule));
    Changes {
        ages: not(or(dead, stays)),
        births: and(dead, where_born(&exact, rule)),
    }
}

/// Makes the changes.
#[inline(always)]
fn make_changes<const N: usize>(planes: &mut [BitPlane; 8], rule: &Rule, changes: Changes)
    requires few { (1 ≤ N) × (N ≤ 8) }
    requires enough { rule.now.states ≤ 2 ^ N }
    ensures { (x y n : ℕ) → x < 16 → y < 16 → state_in 8 planes.old x y < rule.now.states →
        ChangesAt rule.now (state_in 8 planes.old x y) n (bit changes.ages x y) (bit changes.births x y) →
        state_in 8 planes.new x y ≡ next_state rule.now (state_in 8 planes.old x y) n }
{
    add_one::<N>(planes, changes.ages);
    let past = where_equal::<N>(planes, rule.states());
    clear::<N>(planes, past);
    planes[0].rows = or(planes[0].rows, changes.births);
}
