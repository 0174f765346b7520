//! The line `#CXRLE Pos=x,y Gen=n`.

ghost use Rattle.std.specs.Prelude.{◌≡◌, ◌≤◌, length, drop, Some};
ghost use Rattle.std.specs.List.{position_or_len, before_first};
ghost use Rattle.text_scan.specs.Bytes.{text_behind, ◌>=>◌, is_comma};
ghost use Rattle.multistate_rle.specs.Position.{no_items, items_in, one_item_more, with_position, with_generation, origin_in, origin_from, position_in, generation_in};
ghost use Rattle.text_scan.specs.Words.{words, signed_number};

use std::marker::Model;
use text_scan::{behind, number, signed, without_blanks, word_len};

/// Where a pattern was in its plane, and at which generation.
#[derive(Clone, Copy, Debug, PartialEq, Eq)]
pub struct Origin {
    pub pos: (i32, i32),
    pub generation: u64,
}

impl Model for Origin {
    ghost use Rattle.multistate_rle.specs.Position.{OriginValue};

    ghost Value = { OriginValue };

    ghost view = { λ v. record { pos = v.pos; generation = v.generation } };

    ghost inverse = { λ v. record { pos = v.pos; generation = v.generation } };
}

/// What was read of the items of such a line.
#[derive(Clone, Copy, Debug, PartialEq, Eq)]
pub struct Items {
    pub pos: Option<(i32, i32)>,
    pub generation: Option<u64>,
}

impl Model for Items {
    ghost use Rattle.multistate_rle.specs.Position.{ItemsValue};

    ghost Value = { ItemsValue };

    ghost view = { λ v. record { pos = v.pos; generation = v.generation } };

    ghost inverse = { λ v. record { pos = v.pos; generation = v.generation } };
}

impl Items {
    pub fn new() -> Items
        ensures { result ≡ no_items }
    {
        Items {
            pos: None,
            generation: None,
        }
    }

    /// What is missing is 0.
    pub fn origin(self) -> Origin
        ensures { result ≡ origin_from self }
    {
        Origin {
            pos: self.pos.unwrap_or((0, 0)),
            generation: self.generation.unwrap_or(0),
        }
    }

    /// One item more, of a kind that was not read before.
    fn with_item(self, word: &[u8]) -> Option<Items>
        ensures { result ≡ one_item_more word.now self }
    {
        match position(word) {
            Some(pos) => self.with_position(pos),
            None => self.with_generation(generation(word)?),
        }
    }

    fn with_position(self, pos: (i32, i32)) -> Option<Items>
        ensures { result ≡ with_position pos self }
    {
        match self.pos {
            None => Some(Items {
                pos: Some(pos),
                generation: self.generation,
            }),
            Some(_) => None,
        }
    }

    fn with_generation(self, generation: u64) -> Option<Items>
        ensures { result ≡ with_generation generation self }
    {
        match self.generation {
            None => Some(Items {
                pos: self.pos,
                generation: Some(generation),
            }),
            Some(_) => None,
        }
    }
}

/// The origin that a comment line names, if it is a well formed `#CXRLE` line.
pub fn origin_of(line: &[u8]) -> Option<Origin>
    ensures { result ≡ origin_in line.now }
{
    let line = without_blanks(line);
    let (first, items) = line.split_at(word_len(line));
    if first != b"#CXRLE".as_slice() {
        return None;
    }
    Some(items_of(items)?.origin())
}

fn items_of(line: &[u8]) -> Option<Items>
    ensures { result ≡ items_in no_items (words line.now) }
{
    let mut items = Items::new();
    let mut rest = without_blanks(line);
    while !rest.is_empty() {
        let (word, behind) = rest.split_at(word_len(rest));
        items = items.with_item(word)?;
        rest = without_blanks(behind);
    }
    Some(items)
}

fn position(word: &[u8]) -> Option<(i32, i32)>
    ensures { result ≡ position_in word.now }
{
    coordinates(word.strip_prefix(b"Pos=")?)
}

/// The numbers before and behind the first comma.
fn coordinates(sides: &[u8]) -> Option<(i32, i32)>
    ensures { result ≡ (signed_number (before_first is_comma sides.now) >=> λ x.
        text_behind 44 (drop (position_or_len is_comma sides.now) sides.now) >=> λ rest. signed_number rest >=> λ y. Some (x, y)) }
{
    let (x, rest) = sides.split_at(comma_at(sides));
    Some((signed(x)?, behind_comma(rest)?))
}

/// The number behind a comma, with which a text begins.
fn behind_comma(rest: &[u8]) -> Option<i32>
    ensures { result ≡ (text_behind 44 rest.now >=> signed_number) }
{
    signed(behind(b',', rest)?)
}

fn generation(word: &[u8]) -> Option<u64>
    ensures { result ≡ generation_in word.now }
{
    number(u64::MAX, word.strip_prefix(b"Gen=")?)
}

fn comma_at(text: &[u8]) -> usize
    ensures count { result ≡ position_or_len is_comma text.now }
    ensures within { result ≤ length text.now }
{
    text.iter().take_while(|byte| **byte != b',').count()
}
