//! Names of rules of other families.

ghost use Rattle.std.specs.Prelude.{◌≡◌, map};
ghost use Rattle.std.specs.List.{list_any};
ghost use Rattle.header_rules.specs.Names.{beside};
ghost use Rattle.header_rules.specs.Families.{begins_with, ends_with, other_names, table_fronts, table_ends, is_table_name, family_by_name};

use crate::family::OtherFamily;
use crate::letters::{begins_with, ends_with, is_same_name};

/// Names of rules of other families in Golly 3.3: of its list of named rules, its help, its algorithm
/// JvN and its folder Rules; and one of other collections.
const OTHER_NAMES: [(&[u8], OtherFamily); 32] = [
    (b"AntiLife", OtherFamily::BirthOnNone),
    (b"Just Friends", OtherFamily::NonTotalistic),
    (b"Wolfram 22", OtherFamily::Wolfram),
    (b"Wolfram 30", OtherFamily::Wolfram),
    (b"Wolfram 110", OtherFamily::Wolfram),
    (b"WireWorld", OtherFamily::Table),
    (b"JvN29", OtherFamily::Table),
    (b"JvN-29", OtherFamily::Table),
    (b"Nobili32", OtherFamily::Table),
    (b"Hutton32", OtherFamily::Table),
    (b"Banks-I", OtherFamily::Table),
    (b"Banks-II", OtherFamily::Table),
    (b"Banks-III", OtherFamily::Table),
    (b"Banks-IV", OtherFamily::Table),
    (b"Byl-Loop", OtherFamily::Table),
    (b"Chou-Reggia-1", OtherFamily::Table),
    (b"Chou-Reggia-2", OtherFamily::Table),
    (b"Codd", OtherFamily::Table),
    (b"Codd2", OtherFamily::Table),
    (b"Devore", OtherFamily::Table),
    (b"Ed-rep", OtherFamily::Table),
    (b"Evoloop", OtherFamily::Table),
    (b"Evoloop-finite", OtherFamily::Table),
    (b"HPP", OtherFamily::Table),
    (b"Langtons-Ant", OtherFamily::Table),
    (b"Langtons-Loops", OtherFamily::Table),
    (b"LifeOnTheEdge", OtherFamily::Table),
    (b"LifeOnTheSlope", OtherFamily::Table),
    (b"Perrier", OtherFamily::Table),
    (b"SDSR-Loop", OtherFamily::Table),
    (b"StateInvestigator", OtherFamily::Table),
    (b"Tempesti", OtherFamily::Table),
];

/// How names of rules begin that Golly 3.3 has in its folder Rules in several kinds.
const TABLE_FRONTS: [&[u8]; 5] = [
    b"AbsoluteTurmite_",
    b"LangtonsAnt_",
    b"TriTurmite_",
    b"Turmite_",
    b"Worm-",
];

/// How they end.
const TABLE_ENDS: [&[u8]; 3] = [b"History", b"-emulated", b"_emulated"];

pub fn family_by_name(text: &[u8]) -> Option<OtherFamily>
    ensures { result ≡ family_by_name text.now }
{
    match family_named(text) {
        None if is_table_name(text) => Some(OtherFamily::Table),
        family => family,
    }
}

fn family_named(name: &[u8]) -> Option<OtherFamily>
    ensures { result ≡ beside other_names name.now }
{
    family_beside(&OTHER_NAMES, name)
}

fn family_beside(mut rows: &[(&[u8], OtherFamily)], name: &[u8]) -> Option<OtherFamily>
    ensures { result ≡ beside (map (λ row. (row.0.now, row.1)) rows.entry.now) name.now }
{
    while let [row, rest @ ..] = rows {
        if is_same_name(row.0, name) {
            return Some(row.1);
        }
        rows = rest;
    }
    None
}

fn is_table_name(text: &[u8]) -> bool
    ensures { result ≡ is_table_name text.now }
{
    has_table_front(text) || has_table_end(text)
}

fn has_table_front(text: &[u8]) -> bool
    ensures { result ≡ list_any (λ front. begins_with front text.now) table_fronts }
{
    begins_with_any(&TABLE_FRONTS, text)
}

fn has_table_end(text: &[u8]) -> bool
    ensures { result ≡ list_any (λ end. ends_with end text.now) table_ends }
{
    ends_with_any(&TABLE_ENDS, text)
}

fn begins_with_any(fronts: &[&[u8]], text: &[u8]) -> bool
    ensures { result ≡ list_any (λ front. begins_with front.now text.now) fronts.now }
{
    for front in fronts {
        if begins_with(front, text) {
            return true;
        }
    }
    false
}

fn ends_with_any(ends: &[&[u8]], text: &[u8]) -> bool
    ensures { result ≡ list_any (λ end. ends_with end.now text.now) ends.now }
{
    for end in ends {
        if ends_with(end, text) {
            return true;
        }
    }
    false
}
