//! A random run beside a plain list of distinct squares.

use crate::squares::steps::{four, single};
use samples::{Single, next};
use square_store::{Limits, Part, Store, StoreFault};
use std::alloc::Global;

/// A square as it was asked for: its stamp, or stamp and state, or its level and the places of its
/// parts in the list.
#[derive(Clone, Copy, PartialEq, Eq)]
enum Plain {
    Blank(u64),
    Leaf(u64, u8),
    Four(u32, usize, usize, usize, usize),
}

/// A square of the list, and the part that the store gave for it.
#[derive(Clone, Copy)]
struct Known {
    plain: Plain,
    part: Part,
}

/// A place of the list with a square of a level; the first, a blank, where the place drawn has none.
fn drawn(store: &Store<Single>, list: &[Known], level: u32, number: &mut u64) -> usize {
    let place = next(number) as usize % list.len().max(1);
    match list.get(place) {
        Some(known) if store.is_at(known.part, level) => place,
        _ => 0,
    }
}

/// A blank, a leaf or, five times in eight, four squares of the list.
fn asked(store: &Store<Single>, list: &[Known], number: &mut u64) -> Plain {
    match next(number) % 8 {
        0 => Plain::Blank(next(number) % 8),
        1 | 2 => Plain::Leaf(next(number) % 4, (next(number) % 4) as u8),
        _ => {
            let level = (next(number) % 3) as u32;
            let nw = drawn(store, list, level, number);
            let ne = drawn(store, list, level, number);
            let sw = drawn(store, list, level, number);
            let se = drawn(store, list, level, number);
            Plain::Four(level + 1, nw, ne, sw, se)
        }
    }
}

/// The stamp of a blank of the list.
fn stamp_at(list: &[Known], place: usize) -> Option<u64> {
    let known = *list.get(place)?;
    match known.plain {
        Plain::Blank(stamp) => Some(stamp),
        _ => None,
    }
}

/// The same square, a blank where it is one.
fn settled(list: &[Known], plain: Plain) -> Plain {
    match plain {
        Plain::Leaf(stamp, 0) => Plain::Blank(stamp),
        Plain::Four(_, a, b, c, d) if a == b && a == c && a == d => {
            match stamp_at(list, a) {
                Some(stamp) => Plain::Blank(stamp),
                None => plain,
            }
        }
        _ => plain,
    }
}

fn part_of(list: &[Known], place: usize) -> Result<Part, StoreFault> {
    match list.get(place) {
        Some(known) => Ok(known.part),
        None => Err(StoreFault::Memory),
    }
}

fn add(store: &mut Store<Single>, list: &[Known], plain: Plain) -> Result<Part, StoreFault> {
    match plain {
        Plain::Blank(stamp) => store.add_blank(stamp),
        Plain::Leaf(stamp, state) => store.add_leaf(single(stamp, state)),
        Plain::Four(level, a, b, c, d) => {
            let parts = [
                part_of(list, a)?,
                part_of(list, b)?,
                part_of(list, c)?,
                part_of(list, d)?,
            ];
            four(store, level, parts)
        }
    }
}

/// Adds a square to both; whether the store gave the part of the list, or a new one.
fn agrees(
    store: &mut Store<Single>,
    list: &mut Vec<Known>,
    asked: Plain,
) -> Result<bool, StoreFault> {
    let part = add(store, list, asked)?;
    let plain = settled(list, asked);
    if let Some(known) = list.iter().find(|known| known.plain == plain) {
        return Ok(known.part == part && store.len() as usize == list.len());
    }
    let is_new = !list.iter().any(|known| known.part == part);
    match list.push(Known { plain, part }) {
        Ok(()) => Ok(is_new && store.len() as usize == list.len()),
        Err(_) => Err(StoreFault::Memory),
    }
}

/// After so many adds: whether all agreed, and whether more than a few squares are there.
fn run(alloc: Global, adds: u32, seed: u64) -> Result<(bool, bool), StoreFault> {
    let mut number = seed;
    let mut store = Store::new(alloc, Limits::of_room(u32::MAX));
    let mut list = Vec::new(alloc);
    let mut agree = agrees(&mut store, &mut list, Plain::Blank(0))?;
    for _ in 0..adds {
        let plain = asked(&store, &list, &mut number);
        agree = agrees(&mut store, &mut list, plain)? && agree;
    }
    Ok((agree, list.len() > 500))
}

#[test]
fn agrees_with_a_plain_list(rt: HostRuntime) -> Result<(), StoreFault> {
    assert_eq!(rt; run(rt.alloc(), 2000, 1)?, (true, true));
    Ok(())
}
