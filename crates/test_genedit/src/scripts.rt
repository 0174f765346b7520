//! Whole scripts.

use crate::told;
use edit_stamps::{Cell, Rect};
use genedit_script::{Command, Paste, Script, ScriptFault, Turning, read_script};
use replica_core::{EditSpec, Event};
use std::alloc::{AllocError, Global};

const EVERY_COMMAND: &[u8] = b"# three replicas\r\nrule 345/2/4\nreplicas 03\n\npattern Glider7\r\n\
    # a comment of the pattern\r\n\r\nx = 3, y = 3\r\nbob$2bo$\n end\n3o!\nend\nturn Glider7 g2 flip\ncells 1 0 -1 3 2 3 1\n\
    \tclear 1 -4 5 9 8\ncopy 2 Glider7 -1 7\nor 3 Glider7 8 -2\nstate 1\ndeliver 4294967295 2\n\
    show 2 0 -1\nsame 1 4294967295\ndelta 2 0 4294967295\ndump 007\nexport 2 536870913\n";

fn cells_told(alloc: Global, replica: u32, cells: &[Cell]) -> Result<String, AllocError> {
    let mut told = format!(in alloc; "cells {replica}")?;
    for cell in cells {
        told = format!(in alloc; "{told} {} {} {}", cell.x, cell.y, cell.state)?;
    }
    Ok(told)
}

fn clear_told(alloc: Global, replica: u32, area: Rect) -> Result<String, AllocError> {
    format!(in alloc;
        "clear {replica} {} {} {} {}",
        area.x, area.y, area.width, area.height
    )
}

/// What a replica draws.
fn draw_told(alloc: Global, replica: u32, spec: &EditSpec) -> Result<String, AllocError> {
    match spec {
        EditSpec::Cells(cells) => cells_told(alloc, replica, cells.as_slice()),
        EditSpec::Clear(area) => clear_told(alloc, replica, *area),
        EditSpec::Copy(..) | EditSpec::Or(..) => format!(in alloc; "paste {replica}"),
    }
}

fn event_told(alloc: Global, event: &Event) -> Result<String, AllocError> {
    match event {
        Event::Draw(replica, spec) => draw_told(alloc, *replica, spec),
        Event::SendDelta(replica, from, count) => {
            format!(in alloc; "delta {replica} {from} {count}")
        }
        Event::SendState(replica) => format!(in alloc; "state {replica}"),
        Event::Deliver(message, replica) => format!(in alloc; "deliver {message} {replica}"),
        Event::Show(replica, x, y) => format!(in alloc; "show {replica} {x} {y}"),
        Event::Same(one, other) => format!(in alloc; "same {one} {other}"),
        Event::Dump(message) => format!(in alloc; "dump {message}"),
        Event::Export(replica, generation) => { format!(in alloc; "export {replica} {generation}") }
        Event::Cut(replica, window, generation) => {
            format!(in alloc;
                "cut {replica} {} {} {} {} {generation}",
                window.x, window.y, window.width, window.height
            )
        }
        Event::Count(replica, generation) => { format!(in alloc; "count {replica} {generation}") }
    }
}

fn paste_told(alloc: Global, mode: &str, paste: &Paste) -> Result<String, AllocError> {
    let name = String::from_utf8_lossy(alloc, paste.name.as_bytes())?;
    format!(in alloc; "{mode} {} {name} {} {}", paste.replica, paste.x, paste.y)
}

fn turning_told(alloc: Global, turning: &Turning) -> Result<String, AllocError> {
    let name = String::from_utf8_lossy(alloc, turning.name.as_bytes())?;
    let new_name = String::from_utf8_lossy(alloc, turning.new_name.as_bytes())?;
    format!(in alloc; "turn {name} {new_name} {:?}", turning.turn)
}

fn command_told(alloc: Global, command: &Command) -> Result<String, AllocError> {
    match command {
        Command::Does(event) => event_told(alloc, event),
        Command::Names(name, text) => {
            let name = String::from_utf8_lossy(alloc, name.as_bytes())?;
            let text = String::from_utf8_lossy(alloc, text.as_slice())?;
            format!(in alloc; "pattern {name}\n{text}end")
        }
        Command::Copies(paste) => paste_told(alloc, "copy", paste),
        Command::Ors(paste) => paste_told(alloc, "or", paste),
        Command::Turns(turning) => turning_told(alloc, turning),
    }
}

fn script_told(alloc: Global, script: &Script) -> Result<String, AllocError> {
    let rule = String::from_utf8_lossy(alloc, &script.rule().write_text(alloc)?)?;
    let mut told = format!(in alloc; "rule {rule}\nreplicas {}\n", script.replicas())?;
    for command in script.commands() {
        told = format!(in alloc; "{told}{}\n", command_told(alloc, command)?)?;
    }
    Ok(told)
}

/// A script as it was understood, or the line of its first fault.
fn read(alloc: Global, text: &[u8]) -> Result<String, AllocError> {
    match read_script(alloc, text) {
        Ok(script) => script_told(alloc, &script),
        Err(ScriptFault::Line(line)) => format!(in alloc; "{line}"),
        Err(ScriptFault::Memory) => Err(AllocError),
    }
}

#[test]
fn every_command_is_read(rt: HostRuntime) -> Result<(), AllocError> {
    assert_eq!(rt;
        read(rt.alloc(), EVERY_COMMAND)?.as_str(),
        "rule 345/2/4\nreplicas 3\npattern Glider7\n# a comment of the pattern\n\nx = 3, y = 3\n\
        bob$2bo$\n end\n3o!\nend\nturn Glider7 g2 Flip\ncells 1 0 -1 3 2 3 1\nclear 1 -4 5 9 8\ncopy 2 Glider7 -1 7\n\
        or 3 Glider7 8 -2\nstate 1\ndeliver 4294967295 2\nshow 2 0 -1\nsame 1 4294967295\n\
        delta 2 0 4294967295\ndump 7\nexport 2 536870913\n"
    );
    Ok(())
}

/// Scripts whose block ends with the text.
const ENDS: [&[u8]; 3] = [
    b"rule /2/3\nreplicas 0\npattern a\nbo!\nend",
    b"rule /2/3\nreplicas 0\npattern a\nbo!\nend\n",
    b"rule /2/3\nreplicas 0\npattern a\nbo!\nend\r\n",
];

#[test]
fn a_block_may_end_the_script(rt: HostRuntime) -> Result<(), AllocError> {
    for text in ENDS {
        assert_eq!(rt;
            read(rt.alloc(), text)?.as_str(),
            "rule /2/3\nreplicas 0\npattern a\nbo!\nend\n"
        );
    }
    Ok(())
}

/// Faulty scripts, in which `|` stands for a line feed, each with the line of its first fault.
const FAULTS: &str = "\
rule /2/3|| -> 3
 -> 1
rule /2/3|pattern a|end|replicas 1| -> 2
rule /2/3|replicas 1|end| -> 3
rule /2/3|replicas 1|pattern a|bo!|end\r -> 3
rule /2/3|replicas 1|pattern a|end | -> 3
rule /2/3|replicas 1|state|pattern a| -> 3
rule /2/3|replicas 1||pattern a b|end| -> 4
rule /2/3|replicas 1|pattern a|#||end||clear 1 0 0 1| -> 8
rule /2/3|replicas 1|pattern abcdefghijklmno67|end| -> 3
rule /2/3|replicas 1|copy 1 a_b 0 0| -> 3
rule /2/3|replicas 1|or 1 a 0| -> 3
rule /2/3|replicas 1|clear 1 0 0 -1 1| -> 3
";

/// The line of a script, with the line of its fault.
fn faulted(alloc: Global, line: &str) -> Result<String, AllocError> {
    let text = line.split(" -> ").next().unwrap_or(line);
    let fault = read(alloc, &told::with_line_feeds(alloc, text)?)?;
    format!(in alloc; "{text} -> {fault}")
}

#[test]
fn the_first_fault_is_told(rt: HostRuntime) -> Result<(), AllocError> {
    for line in FAULTS.lines() {
        assert_eq!(rt; faulted(rt.alloc(), line)?.as_str(), line);
    }
    Ok(())
}
