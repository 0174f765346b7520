//! What lines come to, by the names of the commands in them.

use client_commands::{ClientCommand, Dictation, FileName, FileTarget, Film, Heard, Placement};
use command_words::GenerationRange;
use genedit_script::Turning;
use pattern_cells::Window;
use pattern_turns::Turn;
use replica_events::EditSpec;
use std::alloc::{AllocError, Global};
use std::test::Fail;

/// Commands that are told as they are spelt.
static SPELT: &str = "\
cells 0 -1 255 7 8 0
clear -3 4 5 6
turn Glider7 g2 left
turn g2 Glider7 half
copy Glider7 -3 4
or abcdefghijklmn09 -3 4
show -3 4
export 4
export 4 a.rle
export! 4 a.rle
export 4..20/8 a%.rle
export! 0..9/1 %.mc
cut -3 4 5 6 7
cut -3 4 5 6 7 a.rle
cut! -3 4 5 6 7 a.rle
count 4
count 4..20/8
period 65535 7
undo
redo
poll
wait 3 7
sleep 7
save a.rle
save! a.rle
open a.rle
bye";

/// Lines that are at fault at the beginning of all lines.
static FAULTY: &str = "\
cut -3 4 5 6
cut -3 4 5
cut -3 4 5 -6
cut! -3 4 5 6 7
count -1
count 4..3
count 0..9/0
count 0..
count ..9
count 0..9/
count 0..9/2 3
count 0..4294967296
period
period 0
period 65536
period 1 -1
period 1 2 3
undo 1
redo 0
Undo
cells
cells 0 0
cells 1 0 0 1
cells 0 0 256
cells 2147483648 0 1
clear 0 0 1
clear 0 0 1 -1
clear 1 0 0 1 1
turn a b
turn a b up
turn a b left right
turn a b_ left
copy a 0
copy a 0 0 0
copy abcdefghijklmno09 0 0
or a_b 0 0
show 1
show 1 2 3
export
export 1 2 3
export 1 100000
export! 4
export 4..20
export 4..20 -
export 4..20 a.rle
export 20..4 a%.rle
export! 4..20 a%%.rle
poll 1
wait
wait 4294967296
wait 1 2 3
sleep
save a b
save 7
open
bye bye
pattern abcdefghijklmno09
end";

/// Other lines, each with what it comes to.
static OTHERS: [(&str, &str); 12] = [
    ("count", "count 0"),
    ("count 4..20", "count 4..20/1"),
    ("count 4..4", "count 4..4/1"),
    ("period 100", "period 100 0"),
    ("wait 3", "wait 3 10000"),
    (" \tpoll\t ", "poll"),
    ("poll\r", "poll"),
    ("", "nothing"),
    (" \t", "nothing"),
    ("# poll", "nothing"),
    (" #poll", "nothing"),
    ("pattern a", "nothing"),
];

#[test]
fn commands_are_heard(rt: HostRuntime) -> Result<(), Fail> {
    for line in SPELT.lines() {
        let told = told_first(rt.alloc(), line)?;
        assert_eq!(rt; told.as_str(), line);
    }
    Ok(())
}

#[test]
fn lines_at_fault_are_told(rt: HostRuntime) -> Result<(), Fail> {
    for line in FAULTY.lines() {
        let told = told_first(rt.alloc(), line)?;
        assert_eq!(rt; told.as_str(), "fault 1", "of {line}");
    }
    Ok(())
}

#[test]
fn other_lines_come_to_commands_or_nothing(rt: HostRuntime) -> Result<(), Fail> {
    for (line, wanted) in OTHERS {
        let told = told_first(rt.alloc(), line)?;
        assert_eq!(rt; told.as_str(), wanted, "of {line}");
    }
    Ok(())
}

/// What a line comes to at the beginning of all lines, in words.
fn told_first(alloc: Global, line: &str) -> Result<String, AllocError> {
    let mut dictation = Dictation::new(alloc);
    told_line(alloc, &mut dictation, line)
}

/// Lines one after another, each with what it comes to.
static BLOCKS: [(&str, &str); 14] = [
    ("poll", "poll"),
    ("pattern a", "nothing"),
    ("x = 3, y = 1\r", "nothing"),
    ("# no comment", "nothing"),
    ("", "nothing"),
    (" end", "nothing"),
    ("end ", "nothing"),
    ("poll", "nothing"),
    (
        "end\r",
        "pattern a [x = 3, y = 1\n# no comment\n\n end\nend \npoll\n]",
    ),
    ("end", "fault 10"),
    ("bye", "bye"),
    ("pattern b", "nothing"),
    ("end", "pattern b []"),
    ("pattern", "fault 14"),
];

#[test]
fn a_block_goes_to_its_end(rt: HostRuntime) -> Result<(), Fail> {
    let mut dictation = Dictation::new(rt.alloc());
    for (line, wanted) in BLOCKS {
        let told = told_line(rt.alloc(), &mut dictation, line)?;
        assert_eq!(rt; told.as_str(), wanted, "of {line}");
    }
    Ok(())
}

#[test]
fn an_open_block_is_told_at_its_pattern_line(rt: HostRuntime) -> Result<(), Fail> {
    let mut dictation = Dictation::new(rt.alloc());
    assert_eq!(rt; dictation.ended(), None);
    pass(&mut dictation, b"# a block")?;
    assert!(rt; !dictation.is_in_block());
    pass(&mut dictation, b"pattern a")?;
    pass(&mut dictation, b"bo!")?;
    assert!(rt; dictation.is_in_block());
    assert_eq!(rt; dictation.ended(), Some(2));
    pass(&mut dictation, b"end")?;
    assert!(rt; !dictation.is_in_block());
    assert_eq!(rt; dictation.ended(), None);
    Ok(())
}

/// Hears a line, whatever it comes to.
fn pass(dictation: &mut Dictation, line: &[u8]) -> Result<(), AllocError> {
    let _heard = dictation.hear(line)?;
    Ok(())
}

/// What a line comes to, in words. Where memory is refused, the same is done once more.
fn told_line(alloc: Global, dictation: &mut Dictation, line: &str) -> Result<String, AllocError> {
    let heard = match dictation.hear(line.as_bytes()) {
        Ok(heard) => heard,
        Err(_) => dictation.hear(line.as_bytes())?,
    };
    match told(alloc, &heard) {
        Ok(text) => Ok(text),
        Err(_) => told(alloc, &heard),
    }
}

/// What was heard, in words.
fn told(alloc: Global, heard: &Heard) -> Result<String, AllocError> {
    match heard {
        Heard::Nothing => format!(in alloc; "nothing"),
        Heard::Command(command) => told_command(alloc, command),
        Heard::Faulty(line) => format!(in alloc; "fault {line}"),
    }
}

fn told_command(alloc: Global, command: &ClientCommand) -> Result<String, AllocError> {
    match command {
        ClientCommand::Draw(drawn) => told_drawing(alloc, drawn),
        ClientCommand::Pattern(name, text) => {
            let name = word(alloc, name.as_bytes())?;
            let text = word(alloc, text.as_slice())?;
            format!(in alloc; "pattern {name} [{text}]")
        }
        ClientCommand::Turn(turning) => told_turning(alloc, turning),
        ClientCommand::Copy(placement) => told_placement(alloc, "copy", placement),
        ClientCommand::Or(placement) => told_placement(alloc, "or", placement),
        ClientCommand::Show(x, y) => format!(in alloc; "show {x} {y}"),
        ClientCommand::Export(generation, None) => format!(in alloc; "export {generation}"),
        ClientCommand::Export(generation, Some(target)) => {
            let name = format!(in alloc; "export{} {generation}", sign_of(target))?;
            told_file(alloc, name.as_str(), &target.name)
        }
        ClientCommand::Film(film) => told_film(alloc, film),
        ClientCommand::Cut(window, generation, file) => {
            told_cut(alloc, *window, *generation, file.as_ref())
        }
        ClientCommand::Count(generation) => format!(in alloc; "count {generation}"),
        ClientCommand::Counts(range) => {
            format!(in alloc; "count {}..{}/{}", range.first, range.last, range.step)
        }
        ClientCommand::Period(search) => {
            format!(in alloc; "period {} {}", search.most, search.first)
        }
        ClientCommand::Undo => format!(in alloc; "undo"),
        ClientCommand::Redo => format!(in alloc; "redo"),
        ClientCommand::Poll => format!(in alloc; "poll"),
        ClientCommand::Wait(wait) => format!(in alloc; "wait {} {}", wait.edits, wait.milliseconds),
        ClientCommand::Sleep(milliseconds) => format!(in alloc; "sleep {milliseconds}"),
        ClientCommand::Save(None) => format!(in alloc; "save -"),
        ClientCommand::Save(Some(target)) => {
            let name = format!(in alloc; "save{}", sign_of(target))?;
            told_file(alloc, name.as_str(), &target.name)
        }
        ClientCommand::Open(file) => told_file(alloc, "open", file),
        ClientCommand::Help => format!(in alloc; "help"),
        ClientCommand::Bye => format!(in alloc; "bye"),
    }
}

fn told_film(alloc: Global, film: &Film) -> Result<String, AllocError> {
    let sign = sign_of(&film.files);
    let GenerationRange { first, last, step } = film.range;
    let export = format!(in alloc; "export{sign} {first}..{last}/{step}")?;
    told_file(alloc, export.as_str(), &film.files.name)
}

fn told_cut(
    alloc: Global,
    window: Window,
    generation: u32,
    file: Option<&FileTarget>,
) -> Result<String, AllocError> {
    let sign = file.map_or("", sign_of);
    let Window {
        x,
        y,
        width,
        height,
    } = window;
    let cut = format!(in alloc; "cut{sign} {x} {y} {width} {height} {generation}")?;
    match file {
        None => Ok(cut),
        Some(file) => told_file(alloc, cut.as_str(), &file.name),
    }
}

fn told_drawing(alloc: Global, drawn: &EditSpec) -> Result<String, AllocError> {
    match drawn {
        EditSpec::Cells(cells) => {
            let mut text = format!(in alloc; "cells")?;
            for cell in cells.as_slice() {
                let one = format!(in alloc; " {} {} {}", cell.x, cell.y, cell.state)?;
                text.push_str(one.as_str())?;
            }
            Ok(text)
        }
        EditSpec::Clear(area) => {
            format!(in alloc;
                "clear {} {} {} {}",
                area.x, area.y, area.width, area.height
            )
        }
        EditSpec::Copy(..) | EditSpec::Or(..) => format!(in alloc; "a pattern"),
    }
}

fn told_turning(alloc: Global, turning: &Turning) -> Result<String, AllocError> {
    let name = word(alloc, turning.name.as_bytes())?;
    let new_name = word(alloc, turning.new_name.as_bytes())?;
    format!(in alloc; "turn {name} {new_name} {}", turn_word(turning.turn))
}

fn turn_word(turn: Turn) -> &'static str {
    match turn {
        Turn::Left => "left",
        Turn::Right => "right",
        Turn::Half => "half",
        Turn::Mirror => "mirror",
        Turn::Flip => "flip",
    }
}

fn told_placement(
    alloc: Global,
    command: &str,
    placement: &Placement,
) -> Result<String, AllocError> {
    let name = word(alloc, placement.name.as_bytes())?;
    format!(in alloc; "{command} {name} {} {}", placement.x, placement.y)
}

/// What stands behind the word of a command whose file may replace one.
fn sign_of(target: &FileTarget) -> &'static str {
    if target.replaces { "!" } else { "" }
}

fn told_file(alloc: Global, command: &str, file: &FileName) -> Result<String, AllocError> {
    let file = word(alloc, file.as_bytes())?;
    format!(in alloc; "{command} {file}")
}

/// Bytes of ASCII as text.
fn word(alloc: Global, bytes: &[u8]) -> Result<String, AllocError> {
    let mut text = String::new(alloc);
    for byte in bytes {
        text.push(char::from(*byte))?;
    }
    Ok(text)
}
