//! Blocks against the rule applied cell by cell, and each call once.

ghost use Rattle.std.specs.Prelude.{◌≡◌, ◌⊎◌, ◌+◌, ◌<◌, ◌≤◌};

use bitplane_kernel::{BitLeaf, Block};
use generations_rule::Rule;

const LIFE: &[u8] = b"23/3/2";

const BRIANS_BRAIN: &[u8] = b"/2/3";

const STAR_WARS: &[u8] = b"345/2/4";

/// A quarter of 256 states, whose corner is here.
fn leaf(states: &[u8; 256], left: usize, top: usize) -> BitLeaf
    requires { (left ≤ 8) × (top ≤ 8) }
{
    let mut quarter = [0; 64];
    for i in 0..64usize {
        quarter[i] = states[16 * (top + i / 8) + left + i % 8];
    }
    BitLeaf::of_states(&quarter)
}

fn block(states: &[u8; 256]) -> Block {
    Block::from_leaves(
        &leaf(states, 0, 0),
        &leaf(states, 8, 0),
        &leaf(states, 0, 8),
        &leaf(states, 8, 8),
    )
}

fn live(state: u8) -> u8
    ensures { result ≤ 1 }
{
    if state == 1 { 1 } else { 0 }
}

fn live_around(states: &[u8; 256], i: usize) -> u8
    requires { (17 ≤ i) × (i < 239) }
    ensures { result ≤ 8 }
{
    live(states[i - 17])
        + live(states[i - 16])
        + live(states[i - 15])
        + live(states[i - 1])
        + live(states[i + 1])
        + live(states[i + 15])
        + live(states[i + 16])
        + live(states[i + 17])
}

/// One generation, cell by cell; the cells on the edge stay as they are.
fn plain_step(rule: &Rule, old: &[u8; 256]) -> [u8; 256] {
    let mut new = *old;
    for y in 1..15usize {
        for x in 1..15usize {
            let i = 16 * y + x;
            let state = old[i];
            if u16::from(state) < rule.states() {
                new[i] = rule.next(state, live_around(old, i));
            }
        }
    }
    new
}

/// Whether the block has these states, so far from its edge.
fn has_within(block: &Block, states: &[u8; 256], margin: usize) -> bool
    requires { margin ≤ 8 }
{
    for y in margin..16 - margin {
        for x in margin..16 - margin {
            if block.get(x, y) != states[16 * y + x] {
                return false;
            }
        }
    }
    true
}

/// Whether the block advanced by g has the states of g generations cell by cell, on its inner cells.
fn advances(rule: &Rule, states: &[u8; 256], g: u8) -> bool
    requires { (g ≡ 1) ⊎ (g ≡ 2) ⊎ (g ≡ 4) }
{
    let mut want = *states;
    for _ in 0..g {
        want = plain_step(rule, &want);
    }
    let mut block = block(states);
    block.advance(rule, g);
    has_within(&block, &want, usize::from(g))
}

/// The same by 1, by 2 and by 4, under the rule of a text.
fn advances_by_each(text: &[u8], states: &[u8; 256]) -> bool {
    match Rule::parse(text) {
        Ok(rule) => {
            advances(&rule, states, 1) && advances(&rule, states, 2) && advances(&rule, states, 4)
        }
        Err(_) => false,
    }
}

/// States below the bound that look random, by Knuth's linear congruential generator MMIX.
fn scattered(seed: u64, bound: u16) -> [u8; 256]
    requires { (0 < bound) × (bound ≤ 256) }
{
    let mut number = seed;
    let mut states = [0; 256];
    for i in 0..256usize {
        number = number
            .wrapping_mul(6364136223846793005)
            .wrapping_add(1442695040888963407);
        states[i] = ((number >> 33) % u64::from(bound)) as u8;
    }
    states
}

/// A pattern of rows, `.` and letters, put at column 6 of row 6.
fn drawn(rows: &[&[u8]]) -> [u8; 256] {
    let mut states = [0; 256];
    for (y, row) in rows.iter().enumerate() {
        for (x, letter) in row.iter().enumerate() {
            if x < 10 && y < 10 && *letter >= b'A' {
                states[16 * (6 + y) + 6 + x] = *letter - b'A' + 1;
            }
        }
    }
    states
}

/// Whether the middle of a block and a leaf have these states, the middle from 4 and the leaf from 8.
fn has_quarters(middle: &BitLeaf, corner: &BitLeaf, states: &[u8; 256]) -> bool {
    for i in 0..64usize {
        if middle.get(i) != states[16 * (4 + i / 8) + 4 + i % 8]
            || corner.get(i) != states[16 * (8 + i / 8) + 8 + i % 8]
        {
            return false;
        }
    }
    true
}

#[test]
fn holds_what_it_is_made_of(rt: HostRuntime) {
    let states = scattered(1, 256);
    let whole = block(&states);
    assert!(rt; has_within(&whole, &states, 0));
    assert!(rt; has_quarters(&whole.centre(), &leaf(&states, 8, 8), &states));
}

/// Whether Life makes the one of the other in g generations.
fn turns(from: &[u8; 256], to: &[u8; 256], g: u8) -> bool
    requires { (g ≡ 1) ⊎ (g ≡ 2) ⊎ (g ≡ 4) }
{
    let Ok(life) = Rule::parse(LIFE) else {
        return false;
    };
    let mut turned = block(from);
    turned.advance(&life, g);
    has_within(&turned, to, 4)
}

#[test]
fn turns_a_blinker(rt: HostRuntime) {
    let row = drawn(&[b"...", b"AAA"]);
    let column = drawn(&[b".A.", b".A.", b".A."]);
    assert!(rt; turns(&row, &column, 1) && turns(&row, &row, 2) && turns(&row, &row, 4));
    assert!(rt; !turns(&row, &row, 1) && !turns(&row, &column, 2));
}

/// Patterns that move, each with its rule.
static MOVING: [(&[u8], [&[u8]; 3]); 4] = [
    (LIFE, [b".A.", b"..A", b"AAA"]),
    (BRIANS_BRAIN, [b"AA", b"", b""]),
    (BRIANS_BRAIN, [b"BA", b"BA", b""]),
    (STAR_WARS, [b".A.", b"CAB", b".AA"]),
];

#[test]
fn moves_patterns_as_the_rule_does(rt: HostRuntime) {
    for (rule, rows) in &MOVING {
        assert!(rt; advances_by_each(rule, &drawn(rows)));
    }
}

/// Rules and states that fill a block.
static FILLING: [(&[u8], u8); 8] = [
    (LIFE, 0),
    (LIFE, 1),
    (BRIANS_BRAIN, 1),
    (BRIANS_BRAIN, 2),
    (STAR_WARS, 1),
    (STAR_WARS, 3),
    (b"8/8/25", 1),
    (b"8/8/25", 24),
];

#[test]
fn fills_blocks_with_one_state(rt: HostRuntime) {
    for (rule, state) in &FILLING {
        assert!(rt; advances_by_each(rule, &[*state; 256]));
    }
}

/// A rule with so many states, as a text.
fn with_states(states: u16) -> [u8; 13]
    requires { states ≤ 256 }
{
    let mut text = *b"2345/2378/000";
    text[10] = b'0' + (states / 100) as u8;
    text[11] = b'0' + (states / 10 % 10) as u8;
    text[12] = b'0' + (states % 10) as u8;
    text
}

#[test]
fn steps_with_every_number_of_states(rt: HostRuntime) {
    for states in 2..257u16 {
        let text = with_states(states);
        assert!(rt; advances_by_each(&text, &scattered(u64::from(states), states)));
        // mostly dead and live cells, so that each number of neighbours comes
        assert!(rt; advances_by_each(&text, &scattered(u64::from(states), 2)));
    }
}

#[test]
fn counts_each_number_of_neighbours(rt: HostRuntime) {
    for n in b'1'..b'9' {
        let text = [n, b'/', n, b'/', b'3'];
        for seed in 0..8 {
            assert!(rt; advances_by_each(&text, &scattered(seed, 2)));
            assert!(rt; advances_by_each(&text, &scattered(seed, 3)));
        }
    }
}
