//! The header's line, and the rule that it tells.

ghost use Rattle.std.specs.Prelude.{◌≡◌, ◌+◌, ◌^◌, ◌≤◌, ◌<◌, length, option_map, IfSome, None};
ghost use Rattle.std.specs.List.{before_first, position_or_len};
ghost use Rattle.text_scan.specs.Bytes.{is_comma};
ghost use Rattle.multistate_rle.specs.Header.{side_spelled, number_in_front};
ghost use Rattle.multistate_rle.specs.HeaderLine.{HasNoHeader, text_lines, may_precede};
ghost use Rattle.header_rules.specs.HeaderRule.{header_line, behind_sides, behind_rule, bounds_at, bounds_behind, bounds_told, header_rule_told, part_read, rule_standing, rule_text, told_at};

use crate::family_forms::unbounded;
use crate::in_family::is_in_family;
use crate::lines::split_line;
use crate::part::part_at;
use crate::spelling::{Misspelling, spelled_rule};
use generations_rule::Rule;
use text_scan::{
    behind_symbol, is_all_blank, number, split_digits, without_blanks, without_blanks_behind,
};

/// The rule that the header of a pattern text tells.
#[derive(Clone, Copy, Debug, PartialEq, Eq)]
pub struct HeaderRule {
    /// The index, in the whole text and from 0, of the first byte of the rule's text.
    pub place: usize,
    /// How many bytes the rule's text has, the bounds of a rule that is read left out: 1 at least.
    pub length: usize,
    /// The rule that its text spells, or why it spells none.
    pub rule: Result<Rule, Misspelling>,
    /// The bounds behind a colon in the rule's text, as `T100,200` of `B3/S23:T100,200`.
    pub bounds: Option<HeaderBounds>,
}

/// Where the header of a pattern text tells the bounds of a grid (Golly's help, "Bounded Grids").
#[derive(Clone, Copy, Debug, PartialEq, Eq)]
pub struct HeaderBounds {
    /// The index, in the whole text and from 0, of their first byte, which stands behind a colon.
    pub place: usize,
    /// How many bytes they have: 1 at least.
    pub length: usize,
}

/// The rule that the header `x = w, y = h, rule = TEXT` of a pattern text tells: TEXT stands in front
/// of a comma or of the line's end, without the blanks round it. `None` where the text has no header,
/// or that tells no rule. The header's line is the one that `multistate_rle::parse` takes.
///
/// What stands behind a colon in TEXT, up to the line's end, is told as bounds; and where a rule of this
/// family stands in front of it, that rule is told. Any other text with commas, as `R5,C0,M1`, is told
/// up to the first.
pub fn header_rule(text: &[u8]) -> Option<HeaderRule>
    ensures told { result ≡ header_rule_told text.now }
    ensures within { IfSome result (λ told. (0 < told.length) × (told.place + told.length ≤ length text.now)) }
    ensures bounds_within { IfSome result (λ told. IfSome told.bounds (λ bounds. (0 < bounds.length) × (bounds.place + bounds.length ≤ length text.now))) }
    ensures no_header { HasNoHeader text.now → result ≡ None }
{
    let line = header_line(text)?;
    let rest = behind_rule(behind_sides(line.text)?)?;
    told_at(line.start + (line.text.len() - rest.len()), rest)
}

/// What is told of a rule's text that stands at a place of a text and has so many bytes, as far as they stand
/// there: the same as of one that ends a header, its bounds too.
pub fn rule_standing(text: &[u8], place: usize, length: usize) -> Option<HeaderRule>
    ensures { result ≡ rule_standing text.now place length }
{
    told_at(place, part_at(text, place, length))
}

/// What is told of a rule's text with which the rest of a line begins, at this place.
fn told_at(place: usize, rest: &[u8]) -> Option<HeaderRule>
    requires { place + length rest.now < 2 ^ 64 }
    ensures told { result ≡ told_at place rest.now }
    ensures within { IfSome result (λ told. (0 < told.length) × (told.place + told.length ≤ place + length rest.now)) }
    ensures bounds_within { IfSome result (λ told. IfSome told.bounds (λ bounds. (0 < bounds.length) × (bounds.place + bounds.length ≤ place + length rest.now))) }
{
    let text = rule_text(rest);
    let part = part_read(text);
    if part.is_empty() {
        return None;
    }
    Some(HeaderRule {
        place,
        length: part.len(),
        rule: spelled_rule(part),
        bounds: bounds_told(place, text, unbounded(text), rest),
    })
}

/// The part of a rule's text that is read: what stands in front of a colon, if a rule of this family
/// stands there.
fn part_read(text: &[u8]) -> &[u8]
    ensures part { result.now ≡ part_read text.now }
    ensures within { length result.now ≤ length text.now }
{
    let front = unbounded(text);
    if is_in_family(front) { front } else { text }
}

/// The bounds of a rule, in whose text this stands in front of a colon, or which has none.
fn bounds_told(place: usize, text: &[u8], front: &[u8], rest: &[u8]) -> Option<HeaderBounds>
    requires room { place + length rest.now < 2 ^ 64 }
    requires text { length text.now ≤ length rest.now }
    ensures told { result ≡ bounds_told place text.now front.now rest.now }
    ensures within { IfSome result (λ bounds. (0 < bounds.length) × (bounds.place + bounds.length ≤ place + length rest.now)) }
{
    if front.len() < text.len() {
        bounds_behind(place, front.len(), rest)
    } else {
        None
    }
}

/// The bounds behind so many bytes of the rest of a line and a colon.
fn bounds_behind(place: usize, count: usize, rest: &[u8]) -> Option<HeaderBounds>
    requires room { place + length rest.now < 2 ^ 64 }
    requires colon { count < length rest.now }
    ensures told { result ≡ bounds_at (place + (count + 1)) (bounds_behind count rest.now) }
    ensures within { IfSome result (λ bounds. (0 < bounds.length) × (bounds.place + bounds.length ≤ place + length rest.now)) }
{
    let bounds = without_blanks_behind(&rest[count + 1..]);
    if bounds.is_empty() {
        return None;
    }
    Some(HeaderBounds {
        place: place + (count + 1),
        length: bounds.len(),
    })
}

/// A line, and the place in its text where it begins.
#[derive(Clone, Copy)]
struct PlacedLine<'a> {
    start: usize,
    text: &'a [u8],
}

/// The first line that is neither a comment nor blank.
fn header_line(text: &[u8]) -> Option<PlacedLine<'_>>
    ensures line { option_map (λ line. record { start = line.start; text = line.text.now }) result ≡ header_line 0 (text_lines text.now) }
    ensures within { IfSome result (λ line. line.start + length line.text.now ≤ length text.now) }
{
    let mut start = 0;
    let mut rest = Some(text);
    while let Some(lines) = rest {
        let (line, behind) = split_line(lines);
        if !may_stand_in_front(line) {
            return Some(PlacedLine { start, text: line });
        }
        start += line.len() + 1;
        rest = behind;
    }
    None
}

/// Whether a line in front of the header may say this: it is a comment or blank.
fn may_stand_in_front(line: &[u8]) -> bool
    ensures { result ≡ may_precede line.now }
{
    line.first() == Some(&b'#') || is_all_blank(line)
}

/// What stands behind `x = w, y = h` and a comma.
fn behind_sides(line: &[u8]) -> Option<&[u8]>
    ensures rest { option_map (λ rest. rest.now) result ≡ behind_sides line.now }
    ensures within { IfSome result (λ rest. length rest.now ≤ length line.now) }
{
    let (_, rest) = side(b'x', line)?;
    let rest = behind_symbol(b',', rest)?;
    let (_, rest) = side(b'y', rest)?;
    behind_symbol(b',', rest)
}

/// A letter, `=` and a number: the number, and what stands behind it.
fn side(letter: u8, line: &[u8]) -> Option<(u64, &[u8])>
    ensures side { option_map (λ found. (found.0, found.1.now)) result ≡ side_spelled letter line.now }
    ensures within { IfSome result (λ found. length found.1.now ≤ length line.now) }
{
    let rest = behind_symbol(letter, line)?;
    let rest = behind_symbol(b'=', rest)?;
    number_in_front(without_blanks(rest))
}

fn number_in_front(text: &[u8]) -> Option<(u64, &[u8])>
    ensures number { option_map (λ found. (found.0, found.1.now)) result ≡ number_in_front text.now }
    ensures within { IfSome result (λ found. length found.1.now ≤ length text.now) }
{
    let (digits, rest) = split_digits(text);
    let side = number(u64::from(u32::MAX), digits)?;
    Some((side, rest))
}

/// What stands behind `rule =` and its blanks.
fn behind_rule(text: &[u8]) -> Option<&[u8]>
    ensures rest { option_map (λ rest. rest.now) result ≡ behind_rule text.now }
    ensures within { IfSome result (λ rest. length rest.now ≤ length text.now) }
{
    let rest = without_blanks(text).strip_prefix(b"rule")?;
    let rest = behind_symbol(b'=', rest)?;
    Some(without_blanks(rest))
}

/// The rule's text, in front of a comma or of the line's end.
fn rule_text(rest: &[u8]) -> &[u8]
    ensures text { result.now ≡ rule_text rest.now }
    ensures within { length result.now ≤ length rest.now }
{
    without_blanks_behind(before_comma(rest))
}

fn before_comma(text: &[u8]) -> &[u8]
    ensures front { result.now ≡ before_first is_comma text.now }
    ensures within { length result.now ≤ length text.now }
{
    &text[..comma_at(text)]
}

fn comma_at(text: &[u8]) -> usize
    ensures count { result ≡ position_or_len is_comma text.now }
    ensures within { result ≤ length text.now }
{
    text.iter().take_while(|byte| **byte != b',').count()
}
