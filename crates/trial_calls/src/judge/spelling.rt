//! Scripts that were read, in one spelling.

use edit_stamps::Rect;
use genedit_script::{Command, Paste, Script, Turning};
use pattern_cells::{Cell, Window};
use pattern_turns::Turn;
use replica_events::{EditSpec, Event};
use std::alloc::{AllocError, Global};

/// A script: a blank between words, and no zeros in front of numbers.
pub fn spelling(alloc: Global, script: &Script) -> Result<Vec<u8>, AllocError> {
    let mut all = Vec::from_slice(alloc, b"rule ")?;
    all.extend_from_slice(&script.rule().write_text(alloc)?)?;
    push_words(
        alloc,
        &mut all,
        "\nreplicas",
        &[i64::from(script.replicas())],
    )?;
    for command in script.commands() {
        all.push(b'\n')?;
        push_command(alloc, &mut all, command)?;
    }
    all.push(b'\n')?;
    Ok(all)
}

/// A word, and numbers behind it.
fn push_words(
    alloc: Global,
    all: &mut Vec<u8>,
    word: &str,
    numbers: &[i64],
) -> Result<(), AllocError> {
    all.extend_from_slice(word.as_bytes())?;
    for number in numbers {
        all.extend_from_slice(format!(in alloc; " {number}")?.as_bytes())?;
    }
    Ok(())
}

fn push_command(alloc: Global, all: &mut Vec<u8>, command: &Command) -> Result<(), AllocError> {
    match command {
        Command::Does(Event::Draw(replica, spec)) => {
            push_draw(alloc, all, i64::from(*replica), spec)
        }
        Command::Does(event) => push_event(alloc, all, event),
        Command::Names(name, text) => push_block(all, name.as_bytes(), text.as_slice()),
        Command::Copies(paste) => push_paste(alloc, all, "copy", paste),
        Command::Ors(paste) => push_paste(alloc, all, "or", paste),
        Command::Turns(turning) => push_turn(all, turning),
    }
}

fn push_block(all: &mut Vec<u8>, name: &[u8], text: &[u8]) -> Result<(), AllocError> {
    for part in [b"pattern ".as_slice(), name, b"\n", text, b"end"] {
        all.extend_from_slice(part)?;
    }
    Ok(())
}

fn push_paste(
    alloc: Global,
    all: &mut Vec<u8>,
    command: &str,
    paste: &Paste,
) -> Result<(), AllocError> {
    push_words(alloc, all, command, &[i64::from(paste.replica)])?;
    all.push(b' ')?;
    all.extend_from_slice(paste.name.as_bytes())?;
    push_words(alloc, all, "", &[i64::from(paste.x), i64::from(paste.y)])
}

fn push_turn(all: &mut Vec<u8>, turning: &Turning) -> Result<(), AllocError> {
    all.extend_from_slice(b"turn")?;
    push_word(all, turning.name.as_bytes())?;
    push_word(all, turning.new_name.as_bytes())?;
    push_word(all, turn_word(turning.turn).as_bytes())
}

/// Puts a blank last, and a word.
fn push_word(all: &mut Vec<u8>, word: &[u8]) -> Result<(), AllocError> {
    all.push(b' ')?;
    all.extend_from_slice(word)
}

fn turn_word(turn: Turn) -> &'static str {
    match turn {
        Turn::Left => "left",
        Turn::Right => "right",
        Turn::Half => "half",
        Turn::Mirror => "mirror",
        Turn::Flip => "flip",
    }
}

/// The number of a message; -1, which no script names, where it is greater than all that one can name.
fn wide(message: u64) -> i64 {
    i64::try_from(message).unwrap_or(-1)
}

/// An event but a draw.
fn push_event(alloc: Global, all: &mut Vec<u8>, event: &Event) -> Result<(), AllocError> {
    match event {
        Event::SendDelta(replica, from, count) => push_words(
            alloc,
            all,
            "delta",
            &[i64::from(*replica), i64::from(*from), i64::from(*count)],
        ),
        Event::SendState(replica) => push_words(alloc, all, "state", &[i64::from(*replica)]),
        Event::Deliver(message, replica) => {
            push_words(
                alloc,
                all,
                "deliver",
                &[wide(*message), i64::from(*replica)],
            )
        }
        Event::Show(replica, x, y) => push_words(
            alloc,
            all,
            "show",
            &[i64::from(*replica), i64::from(*x), i64::from(*y)],
        ),
        Event::Same(one, other) => {
            push_words(alloc, all, "same", &[i64::from(*one), i64::from(*other)])
        }
        Event::Dump(message) => push_words(alloc, all, "dump", &[wide(*message)]),
        Event::Export(replica, generation) => push_words(
            alloc,
            all,
            "export",
            &[i64::from(*replica), i64::from(*generation)],
        ),
        Event::Cut(replica, window, generation) => {
            push_cut(alloc, all, *replica, *window, *generation)
        }
        Event::Count(replica, generation) => push_words(
            alloc,
            all,
            "count",
            &[i64::from(*replica), i64::from(*generation)],
        ),
        Event::Draw(..) => Ok(()),
    }
}

/// A cut.
fn push_cut(
    alloc: Global,
    all: &mut Vec<u8>,
    replica: u32,
    window: Window,
    generation: u32,
) -> Result<(), AllocError> {
    push_words(
        alloc,
        all,
        "cut",
        &[
            i64::from(replica),
            i64::from(window.x),
            i64::from(window.y),
            i64::from(window.width),
            i64::from(window.height),
            i64::from(generation),
        ],
    )
}

/// A draw: no command of a script that was only read draws a pattern.
fn push_draw(
    alloc: Global,
    all: &mut Vec<u8>,
    replica: i64,
    spec: &EditSpec,
) -> Result<(), AllocError> {
    match spec {
        EditSpec::Cells(cells) => push_cells(alloc, all, replica, cells.as_slice()),
        EditSpec::Clear(area) => push_clear(alloc, all, replica, *area),
        EditSpec::Copy(..) | EditSpec::Or(..) => Ok(()),
    }
}

fn push_clear(
    alloc: Global,
    all: &mut Vec<u8>,
    replica: i64,
    area: Rect,
) -> Result<(), AllocError> {
    push_words(
        alloc,
        all,
        "clear",
        &[
            replica,
            i64::from(area.x),
            i64::from(area.y),
            i64::from(area.width),
            i64::from(area.height),
        ],
    )
}

fn push_cells(
    alloc: Global,
    all: &mut Vec<u8>,
    replica: i64,
    cells: &[Cell],
) -> Result<(), AllocError> {
    push_words(alloc, all, "cells", &[replica])?;
    for cell in cells {
        let numbers = [i64::from(cell.x), i64::from(cell.y), i64::from(cell.state)];
        push_words(alloc, all, "", &numbers)?;
    }
    Ok(())
}
