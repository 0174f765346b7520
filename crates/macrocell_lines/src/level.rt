//! The level of a root.

ghost use Rattle.std.specs.Prelude.{◌≡◌, ℕ, ◌-◌, ◌^◌, ◌≤◌, ◌<◌, ◌+ℤ◌, ◌-ℤ◌, pos, int_le, true, false};
ghost use Rattle.generations_rule.specs.Place.{Place};
ghost use Rattle.generation_engine.specs.Window.{IsExtent};
ghost use Rattle.macrocell_lines.specs.Roots.{IsRootLevel, is_in_root, is_window_in_root};

use pattern_cells::Window;

/// The greatest level that a root has, up to generation 2^29.
const GREATEST: u32 = 32;

/// The level of the least square about the middle, from one on, that has all cells that are not dead, one row on.
pub(crate) fn root_level(least: u32, extent: Option<Window>) -> u32
    requires some { 1 ≤ least }
    requires few { least ≤ 32 }
    ensures level { (f : Place → ℕ) → IsExtent f extent → ((c : Place) → is_in_root 32 c ≡ false → f c ≡ 0) → IsRootLevel least f result }
    ensures least { least ≤ result }
    ensures most { result ≤ 32 }
{
    match extent {
        Some(window) => level_of(least, window),
        None => least,
    }
}

fn level_of(least: u32, window: Window) -> u32
    requires some { 1 ≤ least }
    requires few { least ≤ 32 }
    ensures inside { result < 32 → is_window_in_root result window ≡ true }
    ensures no_less { (j : ℕ) → least ≤ j → j < result → is_window_in_root j window ≡ false }
    ensures least { least ≤ result }
    ensures most { result ≤ 32 }
{
    let mut level = least;
    while level < GREATEST && !is_in_root(level, window) {
        level += 1;
    }
    level
}

/// Whether a window lies in the square of a level about the middle, one row on.
fn is_in_root(level: u32, window: Window) -> bool
    requires some { 1 ≤ level }
    requires few { level ≤ 32 }
    ensures { result ≡ is_window_in_root level window }
{
    let half = half_side(level);
    let left = is_from(window.x, half, 0);
    let right = is_up_to(window.x, window.width, half, 0);
    let top = is_from(window.y, half, 1);
    let bottom = is_up_to(window.y, window.height, half, 1);
    (left && right) && (top && bottom)
}

/// Whether a coordinate is at most half a side before a middle one.
fn is_from(first: i32, half: u32, middle: u8) -> bool
    ensures { result ≡ int_le (pos middle -ℤ pos half) first }
{
    i64::from(middle) - i64::from(half) <= i64::from(first)
}

/// Whether so many coordinates from a first one on end half a side behind a middle one at most.
fn is_up_to(first: i32, count: u32, half: u32, middle: u8) -> bool
    ensures { result ≡ int_le (first +ℤ pos count) (pos half +ℤ pos middle) }
{
    i64::from(first) + i64::from(count) <= i64::from(half) + i64::from(middle)
}

/// Half the side of a square of a level.
fn half_side(level: u32) -> u32
    requires some { 1 ≤ level }
    requires few { level ≤ 32 }
    ensures { result ≡ 2 ^ (level - 1) }
{
    1 << (level - 1)
}
