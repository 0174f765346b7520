//! Clients' sessions over a board in memory, call by call.

use crate::memory::steps::{STEPS, Step};
use crate::memory::world::World;
use crate::memory::{Verdict, tell};
use client_session::Telling;
use std::alloc::Global;
use std::io;
use std::time::Clock;

/// Tells of a session where edits are told, and of one where cells are that look different.
pub fn tell_all<R: Print + Clock>(rt: &R, alloc: Global) -> io::Result<()> {
    tell_calls(rt, "edits told", met(rt, alloc, Telling::Edits))?;
    tell_calls(rt, "cells told", met(rt, alloc, Telling::Changes))
}

/// Tells of a session in which so many calls, in order, answered as they are meant to. Behind them all the
/// client holds what the board does.
fn tell_calls(rt: &impl Print, told: &str, met: usize) -> io::Result<()> {
    for (place, step) in STEPS.iter().enumerate() {
        tell(rt, told, step.call, place < met)?;
    }
    tell(rt, told, "replica and board", STEPS.len() < met)
}

/// A world where nothing was done.
fn begun<'a, C: Clock>(clock: &'a C, alloc: Global, telling: Telling) -> Option<World<'a, C>> {
    again!(_, World::new(clock, alloc, telling)).ok()
}

/// A world in which so many calls were made, each as it is meant to be.
fn brought<'a, C: Clock>(
    clock: &'a C,
    alloc: Global,
    telling: Telling,
    calls: usize,
) -> Option<World<'a, C>> {
    let mut world = begun(clock, alloc, telling)?;
    for step in STEPS.iter().take(calls) {
        world.prepare(step)?;
        if world.make(step) != Verdict::Meant {
            return None;
        }
    }
    Some(world)
}

/// The world behind a call that found no memory, once it is made again, if it is answered then as it is
/// meant to be: by the same client where that can be, and else in a session of its own.
fn made_again<'a, C: Clock>(
    mut world: World<'a, C>,
    place: usize,
    step: &Step,
    is_lost: bool,
) -> Option<World<'a, C>> {
    if !world.is_silent() && (is_lost || world.has_news(step)) {
        if !world.is_sound() {
            return None;
        }
        world = brought(world.clock, world.alloc, world.telling, place)?;
        world.prepare(step)?;
    }
    match world.make(step) {
        Verdict::Meant => Some(world),
        _ => None,
    }
}

/// The world behind a call, and what comes before it, if it is answered as it is meant to be.
fn behind<'a, C: Clock>(
    mut world: World<'a, C>,
    place: usize,
    step: &Step,
) -> Option<World<'a, C>> {
    world.prepare(step)?;
    match world.make(step) {
        Verdict::Meant => Some(world),
        Verdict::Want => made_again(world, place, step, false),
        Verdict::Lost => made_again(world, place, step, true),
        Verdict::Neither => None,
    }
}

/// How many calls of a session, in order, are answered as they are meant to be, and one more where the
/// client holds what the board does behind them all.
fn met<C: Clock>(clock: &C, alloc: Global, telling: Telling) -> usize {
    let Some(mut world) = begun(clock, alloc, telling) else {
        return 0;
    };
    for (place, step) in STEPS.iter().enumerate() {
        match behind(world, place, step) {
            Some(next) => world = next,
            None => return place,
        }
    }
    STEPS.len().saturating_add(usize::from(world.agrees()))
}
