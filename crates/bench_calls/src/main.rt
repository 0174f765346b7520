//! Measures what no script through the program reaches, part by part: the words of the command line name the
//! parts, and without one all are run. Prints what came of each, which is the same on every machine and whatever
//! the schedule, and asserts nothing. With the word `--time` more is done of each, and it is also told how fast.
#![tactic(auto)]

mod bench;
mod drawing;
mod exports;
mod frames;
mod kernel;
mod leaves;
mod running;
mod server;
mod store;
mod texts;

use anyhow::{Result, bail};
use bench::{Bench, Machine, Networked};
use std::alloc::Global;
use std::env;
use std::env::Env;
use std::net::{Net, TcpListener, TcpStream};

#[derive(Clone, Copy, PartialEq, Eq)]
enum Part {
    Kernel,
    Leaves,
    Store,
    Texts,
    Frames,
    Sessions,
    Board,
    Exports,
    Server,
}

/// The parts with their words, in the order in which they are run.
static PARTS: [(Part, &str); 9] = [
    (Part::Kernel, "kernel"),
    (Part::Leaves, "leaves"),
    (Part::Store, "store"),
    (Part::Texts, "texts"),
    (Part::Frames, "frames"),
    (Part::Sessions, "sessions"),
    (Part::Board, "board"),
    (Part::Exports, "exports"),
    (Part::Server, "server"),
];

/// What the command line asks for: all parts, where it names none.
#[derive(Drop)]
struct Asked {
    is_timed: bool,
    parts: Vec<Part>,
}

impl Asked {
    fn of_words(rt: &(impl Env + Alloc), alloc: Global) -> Result<Asked> {
        let mut asked = Asked {
            is_timed: false,
            parts: Vec::new(alloc),
        };
        for word in env::args(rt)?.skip(1) {
            asked.take(word.as_str())?;
        }
        Ok(asked)
    }

    fn take(&mut self, word: &str) -> Result<()> {
        if word == "--time" {
            self.is_timed = true;
            return Ok(());
        }
        Ok(self.parts.push(part_of(word)?)?)
    }

    fn has(&self, part: Part) -> bool {
        self.parts.is_empty() || self.parts.contains(&part)
    }
}

/// The part of a word.
fn part_of(word: &str) -> Result<Part> {
    for (part, name) in PARTS {
        if name == word {
            return Ok(part);
        }
    }
    bail!(
        "the parts are kernel, leaves, store, texts, frames, sessions, board, exports, server: `{word}` is none"
    )
}

fn main(rt: HostRuntime) -> Result<()> {
    let asked = Asked::of_words(&rt, rt.alloc())?;
    run_all(rt, rt.alloc(), &asked)
}

fn run_all<R: Machine + Net<Listener = TcpListener, Stream = TcpStream> + 'static>(
    rt: R,
    alloc: Global,
    asked: &Asked,
) -> Result<()> {
    let bench = Bench {
        rt,
        alloc,
        is_timed: asked.is_timed,
    };
    for (part, _) in PARTS {
        if asked.has(part) {
            run(&bench, part)?;
        }
    }
    Ok(())
}

fn run<R: Networked>(bench: &Bench<R>, part: Part) -> Result<()> {
    match part {
        Part::Kernel => kernel::run(bench),
        Part::Leaves => leaves::run(bench),
        Part::Store => store::run(bench),
        Part::Texts => texts::run(bench),
        Part::Frames => frames::run(bench),
        Part::Sessions => frames::run_sessions(bench),
        Part::Board => running::run(bench),
        Part::Exports => exports::run(bench),
        Part::Server => server::run(bench),
    }
}
