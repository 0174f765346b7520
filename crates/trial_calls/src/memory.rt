//! Calls that take memory, each made once more where it was refused. With any one allocation refused the
//! lines have to be the same.

mod boards;
mod client;
mod clients;
mod clocks;
mod edits;
mod engines;
mod exports;
mod frames;
mod planes;
mod relaying;
mod replicas;
mod rows;
mod scripts;
mod seats;
mod serving;
mod sessions;
mod states;
mod steps;
mod texts;
mod ways;
mod worked;
mod world;

use std::alloc::Global;
use std::io;
use std::sync::Wait;
use std::thread::Threads;
use std::time::Clock;

/// A part of these calls.
#[derive(Clone, Copy)]
pub enum Part {
    Texts,
    Edits,
    Planes,
    States,
    Engines,
    Replicas,
    Clocks,
    Frames,
    Scripts,
    Runs,
    Worlds,
    Board,
    Sessions,
    Seats,
    Clients,
}

/// The word of each part.
pub static PARTS: [(&str, Part); 15] = [
    ("texts", Part::Texts),
    ("edits", Part::Edits),
    ("planes", Part::Planes),
    ("states", Part::States),
    ("engines", Part::Engines),
    ("replicas", Part::Replicas),
    ("clocks", Part::Clocks),
    ("frames", Part::Frames),
    ("scripts", Part::Scripts),
    ("runs", Part::Runs),
    ("worlds", Part::Worlds),
    ("board", Part::Board),
    ("sessions", Part::Sessions),
    ("seats", Part::Seats),
    ("clients", Part::Clients),
];

/// What a call is named, and whether it answers as it is meant to.
type Answer = (&'static str, bool);

/// Makes the calls of a part.
pub fn tell_part<R: Threads + Wait + Clock + Print + Copy + Drop + Send + Sync + 'static>(
    rt: R,
    alloc: Global,
    part: Part,
) -> io::Result<()> {
    match part {
        Part::Texts => texts::tell_calls(&rt, alloc),
        Part::Edits => edits::tell_calls(&rt, alloc),
        Part::Planes => planes::tell_calls(&rt, alloc),
        Part::States => states::tell_calls(&rt, alloc),
        Part::Engines => engines::tell_calls(&rt, alloc),
        Part::Replicas => replicas::tell_calls(&rt, alloc),
        Part::Clocks => clocks::tell_calls(&rt, alloc),
        Part::Frames => frames::tell_calls(&rt, alloc),
        Part::Scripts => scripts::tell_calls(&rt, alloc),
        Part::Runs => scripts::tell_runs(&rt, alloc),
        Part::Worlds => scripts::tell_replays(&rt, alloc),
        Part::Board => boards::tell_ways(rt, alloc, "board", &ways::WAYS),
        Part::Sessions => sessions::tell_all(rt, alloc),
        Part::Seats => boards::tell_ways(rt, alloc, "seats", &ways::SESSION),
        Part::Clients => clients::tell_all(&rt, alloc),
    }
}

/// Publishes one edit more than a board keeps, for seats that poll late.
pub fn tell_late<R: Threads + Wait + Print + Copy + Drop + Send + Sync + 'static>(
    rt: R,
    alloc: Global,
) -> io::Result<()> {
    boards::tell_ways(rt, alloc, "late", &ways::LATE)
}

fn tell_all(rt: &impl Print, part: &str, answers: &[Answer]) -> io::Result<()> {
    for (call, is_meant) in answers {
        tell(rt, part, call, *is_meant)?;
    }
    Ok(())
}

fn tell(rt: &impl Print, part: &str, call: &str, is_meant: bool) -> io::Result<()> {
    let answer = if is_meant { "as meant" } else { "NOT as meant" };
    println!(rt; "{part}, {call}: {answer}")
}

/// Whether a call gave this text.
fn is_text<E: Drop>(answer: Result<Vec<u8>, E>, text: &[u8]) -> bool {
    match answer {
        Ok(bytes) => bytes.as_slice() == text,
        Err(_) => false,
    }
}

/// Whether a call was refused by this fault.
fn is_fault<T: Drop, E: PartialEq + Drop>(answer: Result<T, E>, meant: E) -> bool {
    match answer {
        Err(fault) => fault == meant,
        Ok(_) => false,
    }
}

/// What stands in a text behind its front.
fn behind<'a>(text: &'a [u8], front: &[u8]) -> Option<&'a [u8]> {
    let (head, rest) = text.split_at_checked(front.len())?;
    if head == front { Some(rest) } else { None }
}

/// How a call was answered.
#[derive(Clone, Copy, PartialEq, Eq)]
enum Verdict {
    /// As it is meant to be.
    Meant,
    /// There was no memory for it, or for one place of many, beside which the others are as they are meant
    /// to be. What a board replied by then was heard whole.
    Want,
    /// There was no memory for it, and what a board replied may not have been heard: the line is of no
    /// further use.
    Lost,
    Neither,
}

impl Verdict {
    /// The verdict with one place more, which wants memory or is as it is meant to be, or neither. No
    /// second place wants memory where one allocation is refused.
    fn beside(self, is_want: bool, is_meant: bool) -> Verdict {
        match self {
            Verdict::Meant if is_want => Verdict::Want,
            met if is_meant => met,
            _ => Verdict::Neither,
        }
    }

    fn of(is_meant: bool) -> Verdict {
        if is_meant {
            Verdict::Meant
        } else {
            Verdict::Neither
        }
    }
}
