//! `genedit`: patterns of Generations automata that many edit.
#![tactic(auto)]

mod bounds;
mod clients;
mod closing;
mod converting;
mod document_file;
mod document_reading;
mod document_tasks;
mod drawing;
mod feeding;
mod following;
mod numbering;
mod opening;
mod pictures;
mod serving;
mod tasks;
mod token;
mod web;

ghost use Rattle.genedit_words.specs.Given.{IsInRange};

use crate::clients::join;
use crate::converting::convert_file;
use crate::document_tasks::{diff, export, log, merge, new_document};
use crate::drawing::draw_in_document;
use crate::feeding::feed;
use crate::following::follow;
use crate::numbering::number;
use crate::pictures::view;
use crate::serving::serve;
use crate::tasks::{check, rle, run};
use genedit_io::RunFault;
use genedit_words::{Ending, Task, asked, given};
use std::alloc::{AllocGlobal, Global};
use std::fs::File;
use std::io::{IsTerminal, StdinLock};
use std::net::{Net, TcpListener, TcpStream};
use std::process::ExitCode;
use std::random::RandomSource;
use std::rt::Files;
use std::sync::Wait;
use std::thread::Threads;
use std::time::Clock;

/// Which of the streams that are written are terminals.
#[derive(Clone, Copy)]
struct Terminals {
    output: bool,
    errors: bool,
}

fn main(rt: HostRuntime) -> ExitCode {
    let status = match given(&rt) {
        Ok(words) => {
            let terminals = Terminals {
                output: rt.stdout().is_terminal(),
                errors: rt.stderr().is_terminal(),
            };
            work(&rt, &words, terminals)
        }
        Err(ending) => ending.tell(&rt),
    };
    ExitCode::from(status)
}

/// Does what the words ask for; the status of the process. Nothing is read before the words and the rule
/// in them are found to be in order.
fn work<
    R: Files<File = File>
        + Input<Reader = StdinLock<'static>>
        + Print
        + Eprint
        + AllocGlobal
        + RandomSource
        + Net<Listener = TcpListener, Stream = TcpStream>
        + Threads
        + Wait
        + Clock
        + Copy
        + Drop
        + Send
        + Sync
        + 'static,
>(rt: &R, words: &[String], terminals: Terminals) -> u8 {
    let alloc = rt.alloc();
    match asked(alloc, words) {
        Ok(task) => match perform(rt, alloc, &task, terminals) {
            Ok(status) => status,
            Err(fault) => Ending::Run(fault).tell(rt),
        },
        Err(ending) => ending.tell(rt),
    }
}

/// Does a task; the status of the process.
fn perform<
    R: Files<File = File>
        + Input<Reader = StdinLock<'static>>
        + Print
        + Eprint
        + RandomSource
        + Net<Listener = TcpListener, Stream = TcpStream>
        + Threads
        + Wait
        + Clock
        + Copy
        + Drop
        + Send
        + Sync
        + 'static,
>(rt: &R, alloc: Global, task: &Task<'_>, terminals: Terminals) -> Result<u8, RunFault>
    requires { IsInRange task.now }
{
    match task {
        Task::Run(file) => run(rt, alloc, *file),
        Task::Check(file) => check(rt, alloc, *file),
        Task::Rle(form) => rle(rt, alloc, form),
        Task::View(viewing) => view(rt, alloc, viewing, terminals.output),
        Task::Serve(server) => serve(rt, alloc, server),
        Task::Join(client) => join(rt, alloc, *client, terminals.errors),
        Task::Convert(file) => convert_file(rt, alloc, file),
        Task::New(document) => new_document(rt, alloc, document),
        Task::Draw(drawing) => draw_in_document(rt, alloc, drawing, terminals.errors),
        Task::Merge(documents) => merge(rt, alloc, documents),
        Task::Diff(documents) => diff(rt, alloc, documents),
        Task::Log(document) => log(rt, alloc, document),
        Task::Export(document) => export(rt, alloc, document),
        Task::Follow(document) => follow(rt, alloc, document),
        Task::Feed(document) => feed(rt, alloc, document),
        Task::Number(name) => number(rt, alloc, name),
    }
}
