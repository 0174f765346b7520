//! A line of five numbers.

ghost use Rattle.std.specs.Prelude.{◌≡◌, ◌≤◌, ◌<◌, ◌^◌, ◌+◌, ◌-◌, if◌then◌else◌, length, option_map, slice_get, MatchResult, IfOk, Ok, Err, Some, IfSome, IsTrue, true};
ghost use Rattle.text_scan.specs.Bytes.{◌>=>◌};
ghost use Rattle.macrocell_text.specs.Macrocells.{AreLevelled, entry_level, entry_square, is_entry, square_standing, squares_of};
ghost use Rattle.macrocell_lines.specs.Squares.{level_of};
ghost use Rattle.macrocell_text.specs.SquareLines.{is_level, leaves_with, level_if, level_told, quarter_fault, quarter_told, quarters_told, square_numbered};

use crate::entry::Entry;
use crate::fault::MacrocellFault;
use crate::leaves::Leaves;
use crate::numbers::number_told;

/// How leaves are told with a line of a level: squares below level 4 stand only where leaves are of level 1.
pub(crate) fn leaves_with(leaves: Option<Leaves>, level: u8) -> Option<Leaves>
    ensures { result ≡ leaves_with leaves level }
{
    if level <= 3 {
        Some(Leaves::ByStates)
    } else {
        leaves
    }
}

/// Whether a number is the level of a square that stands with such leaves.
fn is_level(leaves: Option<Leaves>, level: u32) -> bool
    ensures { result ≡ is_level leaves level }
{
    1 <= level && (level <= 63 && !(level <= 3 && Leaves::ByStates.is_other(leaves)))
}

fn level_if(leaves: Option<Leaves>, level: u32) -> Option<u8>
    ensures level { result ≡ level_if leaves level }
    ensures some { IfSome result (λ level. 1 ≤ level) }
    ensures few { IfSome result (λ level. level ≤ 63) }
{
    if is_level(leaves, level) {
        Some(level as u8)
    } else {
        None
    }
}

/// The level that a number at a place is.
pub(crate) fn level_told(
    leaves: Option<Leaves>,
    value: Option<u32>,
    place: u64,
) -> Result<u8, MacrocellFault>
    ensures level { MatchResult result (λ level. value >=> level_if leaves ≡ Some level) (λ fault. (value >=> level_if leaves ≡ None) × (fault ≡ MacrocellFault.Square place)) }
    ensures some { IfOk result (λ level. 1 ≤ level) }
    ensures few { IfOk result (λ level. level ≤ 63) }
{
    let Some(number) = value else {
        return Err(MacrocellFault::Square(place));
    };
    match level_if(leaves, number) {
        Some(level) => Ok(level),
        None => Err(MacrocellFault::Square(place)),
    }
}

/// Whether a number stands for a square of a level.
fn stands(entries: &[Entry], level: u8, number: u32) -> bool
    requires { AreLevelled entries.now }
    ensures stands { square_numbered level (squares_of entries.now) number ≡ (if result then Some (square_standing level (squares_of entries.now) number) else None) }
    ensures level { IsTrue result → level_of (square_standing level (squares_of entries.now) number) ≡ level }
    ensures state { IsTrue result → level ≡ 0 → number ≤ 255 }
{
    if level == 0 {
        return number <= 255;
    }
    if number == 0 {
        return true;
    }
    match level_at(entries, (number - 1) as usize) {
        Some(told) => told == level,
        None => false,
    }
}

/// The level of an entry, if there is one.
fn level_at(entries: &[Entry], index: usize) -> Option<u8>
    ensures { result ≡ option_map entry_level (slice_get entries.now index) }
{
    match entries.get(index) {
        Some(entry) => Some(entry.level()),
        None => None,
    }
}

fn quarter_fault(level: u8, place: u64) -> MacrocellFault
    ensures { result ≡ quarter_fault level place }
{
    if level == 0 {
        MacrocellFault::State(place)
    } else {
        MacrocellFault::Square(place)
    }
}

/// What stands for a quarter, and what stands behind it.
#[derive(Clone, Copy)]
struct Quarter<'a> {
    number: u32,
    rest: &'a [u8],
}

/// A quarter of a level.
fn quarter_told<'a>(
    line_end: usize,
    level: u8,
    entries: &[Entry],
    rest: &'a [u8],
) -> Result<Quarter<'a>, MacrocellFault>
    requires place { length rest.now ≤ line_end }
    requires levels { AreLevelled entries.now }
    ensures told { MatchResult result (λ q. quarter_told line_end level (squares_of entries.now) rest.now ≡ Ok (square_standing level (squares_of entries.now) q.number, q.rest.now)) (λ fault. quarter_told line_end level (squares_of entries.now) rest.now ≡ Err fault) }
    ensures level { IfOk result (λ q. level_of (square_standing level (squares_of entries.now) q.number) ≡ level) }
    ensures state { IfOk result (λ q. level ≡ 0 → q.number ≤ 255) }
    ensures within { IfOk result (λ q. length q.rest.now ≤ length rest.now) }
{
    let number = number_told(line_end, rest)?;
    match number.value {
        Some(value) if stands(entries, level, value) => Ok(Quarter {
            number: value,
            rest: number.rest,
        }),
        _ => Err(quarter_fault(level, number.place)),
    }
}

/// A square of a level above that of its quarters, by what stands for them; what stands behind the fourth is passed over.
pub(crate) fn quarters_told(
    line_end: usize,
    level: u8,
    entries: &[Entry],
    rest: &[u8],
) -> Result<Entry, MacrocellFault>
    requires place { length rest.now ≤ line_end }
    requires levels { AreLevelled entries.now }
    requires some { 1 ≤ level }
    requires few { level ≤ 63 }
    ensures told { MatchResult result (λ entry. quarters_told line_end (level - 1) (squares_of entries.now) rest.now ≡ Ok (entry_square (squares_of entries.now) entry)) (λ fault. quarters_told line_end (level - 1) (squares_of entries.now) rest.now ≡ Err fault) }
    ensures entry { IfOk result (λ entry. entry_level entry ≡ level) }
    ensures bytes { IfOk result (λ entry. is_entry entry ≡ true) }
    ensures level { IfOk result (λ entry. level_of (entry_square (squares_of entries.now) entry) ≡ level) }
{
    let below = level - 1;
    let nw = quarter_told(line_end, below, entries, rest)?;
    let ne = quarter_told(line_end, below, entries, nw.rest)?;
    let sw = quarter_told(line_end, below, entries, ne.rest)?;
    let se = quarter_told(line_end, below, entries, sw.rest)?;
    Ok(Entry::Four {
        level,
        nw: nw.number,
        ne: ne.number,
        sw: sw.number,
        se: se.number,
    })
}
