//! Commands: what each prints, and what is left behind it.

use crate::clients::{Guest, dot, join, name, obey, obey_alone, told};
use crate::refusals::{CLOSED, NO_PLACE, refuse};
use client_commands::{FileName, FileTarget, Film};
use client_session::Telling;
use client_tasks::Done;
use command_words::GenerationRange;
use edit_stamps::Cell;
use memory_board::{MemoryBoard, Shared, line_to};
use std::alloc::{AllocError, Global};
use std::process::Abort;
use std::test::Fail;
use std::time::Clock;

/// What `help` prints.
const HELP: &str = "\
cells x y s .., clear x y w h  draw cells, or an area of dead ones
pattern NAME, lines, end       keeps the pattern of these lines of RLE
turn NAME NEW left|right|half|mirror|flip  keeps NAME's pattern, turned, as NEW
copy NAME x y, or NAME x y     draw its whole box there, or its live cells
show x y, poll                 print a cell, or what others drew
count G, count G1..G2[/STEP]   print how many cells live G generations later
period MOST [G]                prints after how many generations they stand again
export G [FILE], save FILE     write the cells G generations later; the board
export G1..G2[/STEP] FILE      writes a FILE each; one % in it is the generation
export! G FILE, save! FILE     also over a file that is there; a FILE - prints
cut x y w h G [FILE]           writes what a window shows G generations later
open FILE                      draws what a file holds; a FILE may be \"a b\"
undo, redo                     take the last drawing back, and the other way
wait N [MS], sleep MS          wait for N edits of others; wait MS milliseconds
bye, quit, exit                leave the board
help, ?                        print this; `genedit join --help` says more
";

/// A command, what is left behind it, and what it prints. Before it seat 2 draws the cell `0 9`, if it does.
struct Row {
    line: &'static str,
    left: &'static str,
    told: &'static str,
    draws: bool,
}

static ROWS: [Row; 33] = [
    Row {
        line: "cells 0 0 1 1 0 2",
        left: "told",
        told: "drawn 1 1\n",
        draws: false,
    },
    Row {
        line: "clear 1 0 1 1",
        left: "told",
        told: "drawn 2 1\n",
        draws: false,
    },
    Row {
        line: "copy p 2 0",
        left: "told",
        told: "drawn 3 1\n",
        draws: false,
    },
    Row {
        line: "or p 2 1",
        left: "told",
        told: "drawn 4 1\n",
        draws: false,
    },
    Row {
        line: "or nobody 2 1",
        left: "told",
        told: "refused 38 NoPattern\n",
        draws: false,
    },
    Row {
        line: "show 2 1",
        left: "told",
        told: "cell 1 4 1\n",
        draws: true,
    },
    Row {
        line: "poll",
        left: "told",
        told: "edit 5 2 cells 0 9 1\nedits 1\n",
        draws: false,
    },
    Row {
        line: "wait 1 10000",
        left: "told",
        told: "edit 6 2 cells 0 9 1\nedits 1\n",
        draws: true,
    },
    Row {
        line: "wait 1 0",
        left: "told",
        told: "late 0\n",
        draws: false,
    },
    Row {
        line: "export 0",
        left: "told",
        told: "#CXRLE Pos=0,0 Gen=0\nx = 3, y = 10, rule = /2/3\nA.A$2.A8$A!\n",
        draws: false,
    },
    Row {
        line: "export 0 b.rle",
        left: "write b.rle: #CXRLE Pos=0,0 Gen=0\nx = 3, y = 10, rule = /2/3\nA.A$2.A8$A!\n",
        told: "edit 7 2 cells 0 9 1\n",
        draws: true,
    },
    Row {
        line: "export! 0 b.rle",
        left: "replace b.rle: #CXRLE Pos=0,0 Gen=0\nx = 3, y = 10, rule = /2/3\nA.A$2.A8$A!\n",
        told: "",
        draws: false,
    },
    Row {
        line: "export 0 b.mc",
        left: "write b.mc: [M2] (pazgrot)\n#R /2/3\n1 0 0 1 0\n2 0 0 1 1\n3 0 0 2 0\n4 0 0 3 0\n1 1 0 0 0\n2 0 5 0 0\n3 6 0 0 0\n2 5 0 0 0\n3 8 0 0 0\n4 7 0 9 0\n5 0 4 0 10\n",
        told: "",
        draws: false,
    },
    Row {
        line: "count",
        left: "told",
        told: "cells 4 box 0 0 3 10\n",
        draws: false,
    },
    Row {
        line: "count 1..6/2",
        left: "told",
        told: "generation 1: cells 7 box 0 -1 4 11\ngeneration 3: cells 6 box 2 -1 4 3\ngeneration 5: cells 6 box 4 -1 4 3\n",
        draws: false,
    },
    Row {
        line: "count 536870912..536870913",
        left: "told",
        told: "refused 22 GenRange\n",
        draws: false,
    },
    Row {
        line: "period 4",
        left: "told",
        told: "none to 4\n",
        draws: false,
    },
    Row {
        line: "period 4 3",
        left: "told",
        told: "period 1 moves 1 0\n",
        draws: false,
    },
    Row {
        line: "cut 0 0 1 99 0",
        left: "told",
        told: "#CXRLE Pos=0,0 Gen=0\nx = 1, y = 10, rule = /2/3\nA9$A!\n",
        draws: false,
    },
    Row {
        line: "cut 1 1 9 1 0 c.rle",
        left: "write c.rle: #CXRLE Pos=2,1 Gen=0\nx = 1, y = 1, rule = /2/3\nA!\n",
        told: "",
        draws: false,
    },
    Row {
        line: "undo",
        left: "told",
        told: "undone 8 1\n",
        draws: false,
    },
    Row {
        line: "show 2 1",
        left: "told",
        told: "cell 0 8 1\n",
        draws: false,
    },
    Row {
        line: "redo",
        left: "told",
        told: "redone 9 1\n",
        draws: false,
    },
    Row {
        line: "redo",
        left: "told",
        told: "nothing to redo\n",
        draws: false,
    },
    Row {
        line: "export 536870913 b.rle",
        left: "told",
        told: "refused 22 GenRange\n",
        draws: false,
    },
    Row {
        line: "export 1..4/3 b%.rle",
        left: "film 1..4/3: write b%.rle",
        told: "",
        draws: false,
    },
    Row {
        line: "export! 0..1 %.mc",
        left: "film 0..1/1: replace %.mc",
        told: "",
        draws: false,
    },
    Row {
        line: "sleep 70",
        left: "sleep 70",
        told: "",
        draws: true,
    },
    Row {
        line: "open b.rle",
        left: "open b.rle",
        told: "",
        draws: true,
    },
    Row {
        line: "open \"a b.rle\"",
        left: "open a b.rle",
        told: "",
        draws: false,
    },
    Row {
        line: "?",
        left: "told",
        told: HELP,
        draws: false,
    },
    Row {
        line: "quit",
        left: "leave",
        told: "",
        draws: false,
    },
    Row {
        line: "bye",
        left: "leave",
        told: "",
        draws: true,
    },
];

/// What is left, in words.
fn words_of(alloc: Global, done: &Done) -> Result<String, Fail> {
    match done {
        Done::Told => Ok(String::from_str(alloc, "told")?),
        Done::InDoubt => Ok(String::from_str(alloc, "in doubt")?),
        Done::Write(target, text) => Ok(written(alloc, target, text)?),
        Done::Film(film) => Ok(filmed(alloc, film)?),
        Done::Open(file) => {
            let name = std::str::from_utf8(file.as_bytes()).ok().ok_or("name")?;
            Ok(format!(in alloc; "open {name}")?)
        }
        Done::Sleep(milliseconds) => Ok(format!(in alloc; "sleep {milliseconds}")?),
        Done::Leave => Ok(String::from_str(alloc, "leave")?),
    }
}

/// Of which generations a film is made, and to which files.
fn filmed(alloc: Global, film: &Film) -> Result<String, AllocError> {
    let name = std::str::from_utf8(film.files.name.as_bytes()).unwrap_or("?");
    let verb = if film.files.replaces {
        "replace"
    } else {
        "write"
    };
    let GenerationRange { first, last, step } = film.range;
    format!(in alloc; "film {first}..{last}/{step}: {verb} {name}")
}

/// What is written to which file, where it is a text.
fn written(alloc: Global, target: &FileTarget, text: &[u8]) -> Result<String, AllocError> {
    let name = std::str::from_utf8(target.name.as_bytes()).unwrap_or("?");
    let text = std::str::from_utf8(text).unwrap_or("?");
    let verb = if target.replaces { "replace" } else { "write" };
    format!(in alloc; "{verb} {name}: {text}")
}

const PATTERN: &str = "rule /2/3\nreplicas 1\npattern p\nx = 1, y = 1\nA!\nend\n";

/// Seat 2 draws the cell `0 9`.
fn another_draws(board: &Shared) -> Result<(), Fail> {
    let mut board = board.try_borrow_mut().ok().ok_or("board")?;
    let cell = Cell {
        x: 0,
        y: 9,
        state: 1,
    };
    board.publish_cell(2, cell)?;
    Ok(())
}

/// Obeys a line: what is left behind it, in words, and what it prints are these.
fn obey_row<R: Abort + Clock>(
    rt: &R,
    client: &mut Guest<'_, R>,
    line: &str,
    (left, printed): (&str, &str),
) -> Result<(), Fail> {
    let done = obey(client, line)?;
    assert_eq!(rt; words_of(client.alloc(), &done)?.as_str(), left, "{line}");
    assert_eq!(rt; told(client)?.as_str(), printed, "{line}");
    Ok(())
}

#[test]
fn each_command_once(rt: HostRuntime) -> Result<(), Fail> {
    let alloc = rt.alloc();
    let board = MemoryBoard::shared(alloc, 2)?;
    let mut a = join(&rt, alloc, line_to(alloc, &board, 1)?, Telling::Edits)?;
    name(&mut a, PATTERN)?;
    assert_eq!(rt;
        told(&mut a)?.as_str(),
        "joined 1 /2/3\npattern p 1 1 1 0 0 0\n"
    );
    for row in &ROWS {
        if row.draws {
            another_draws(&board)?;
        }
        obey_row(&rt, &mut a, row.line, (row.left, row.told))?;
    }
    Ok(())
}

/// What a board holds.
fn state_of(board: &Shared) -> Result<Vec<u8>, Fail> {
    let board = board.try_borrow_mut().ok().ok_or("board")?;
    Ok(board.replica().state()?)
}

/// The file and the text that a client has written.
fn saved<C: Clock>(client: &mut Guest<'_, C>, line: &str) -> Result<(FileName, Vec<u8>), Fail> {
    match obey(client, line)? {
        Done::Write(target, text) => Ok((target.name, text)),
        _ => Err(Fail::from("nothing is written")),
    }
}

#[test]
fn a_board_is_saved(rt: HostRuntime) -> Result<(), Fail> {
    let alloc = rt.alloc();
    let board = MemoryBoard::shared(alloc, 2)?;
    let mut a = join(&rt, alloc, line_to(alloc, &board, 1)?, Telling::Edits)?;
    another_draws(&board)?;
    let (file, text) = saved(&mut a, "save my.board")?;
    assert_eq!(rt; file.as_bytes(), b"my.board".as_slice());
    assert_eq!(rt; text, state_of(&board)?);
    assert_eq!(rt;
        told(&mut a)?.as_str(),
        "joined 1 /2/3\nedit 1 2 cells 0 9 1\n"
    );
    refuse(&board, NO_PLACE)?;
    obey_row(
        &rt,
        &mut a,
        "save my.board",
        ("told", "refused 31 NoPlace\n"),
    )
}

/// The bytes that a save to standard output prints.
fn printed_save<C: Clock>(client: &mut Guest<'_, C>, done: Done) -> Result<Vec<u8>, Fail> {
    match done {
        Done::Told => {
            let out = Vec::from_slice(client.alloc(), client.printed())?;
            client.clear_printed();
            Ok(out)
        }
        _ => Err(Fail::from("not told")),
    }
}

#[test]
fn a_board_is_printed(rt: HostRuntime) -> Result<(), Fail> {
    let alloc = rt.alloc();
    let board = MemoryBoard::shared(alloc, 2)?;
    let mut a = join(&rt, alloc, line_to(alloc, &board, 1)?, Telling::Edits)?;
    dot(&mut a, 0, 0, 2)?;
    told(&mut a)?;
    let done = obey(&mut a, "save -")?;
    assert_eq!(rt; printed_save(&mut a, done)?, state_of(&board)?);
    let done = obey(&mut a, "save! -")?;
    assert_eq!(rt; printed_save(&mut a, done)?, state_of(&board)?);
    let done = obey_alone(&mut a, "save -")?;
    assert_eq!(rt; printed_save(&mut a, done)?, state_of(&board)?);
    refuse(&board, NO_PLACE)?;
    obey_row(&rt, &mut a, "save -", ("told", "refused 31 NoPlace\n"))
}

#[test]
fn a_drawing_in_doubt(rt: HostRuntime) -> Result<(), Fail> {
    let alloc = rt.alloc();
    let board = MemoryBoard::shared(alloc, 1)?;
    let mut a = join(&rt, alloc, line_to(alloc, &board, 1)?, Telling::Edits)?;
    name(&mut a, PATTERN)?;
    told(&mut a)?;
    refuse(&board, CLOSED)?;
    for (line, left) in [("copy p 0 0", "in doubt"), ("cells 0 0 1", "told")] {
        obey_row(&rt, &mut a, line, (left, "refused 30 Closed\n"))?;
    }
    Ok(())
}

/// Commands of a client that lost its server, what is left behind each, and what it prints.
static ALONE: [(&str, &str, &str); 21] = [
    ("show 0 0", "told", "cell 2 1 1\n"),
    (
        "export 0",
        "told",
        "#CXRLE Pos=0,0 Gen=0\nx = 1, y = 1, rule = /2/3\nB!\n",
    ),
    (
        "export 1 b.rle",
        "write b.rle: #CXRLE Pos=0,0 Gen=1\nx = 0, y = 0, rule = /2/3\n!\n",
        "",
    ),
    ("export 536870913 b.rle", "told", "refused 22 GenRange\n"),
    (
        "export 0 b.mc",
        "write b.mc: [M2] (pazgrot)\n#R /2/3\n1 0 2 0 0\n",
        "",
    ),
    ("export 536870913 b.mc", "told", "refused 22 GenRange\n"),
    (
        "count 0..1",
        "told",
        "generation 0: cells 1 box 0 0 1 1\ngeneration 1: cells 0\n",
    ),
    ("period 9", "told", "none to 9\n"),
    ("period 9 1", "told", "period 1 moves 0 0\n"),
    ("period 9 536870912", "told", "refused 22 GenRange\n"),
    ("cells 0 0 1", "told", "no server\n"),
    ("clear 0 0 1 1", "told", "no server\n"),
    ("copy p 0 0", "told", "no server\n"),
    ("or nobody 0 0", "told", "no server\n"),
    ("poll", "told", "no server\n"),
    ("wait 1 0", "told", "no server\n"),
    ("open b.rle", "told", "no server\n"),
    ("help", "told", HELP),
    ("sleep 70", "sleep 70", ""),
    ("exit", "leave", ""),
    ("bye", "leave", ""),
];

#[test]
fn each_command_without_a_server(rt: HostRuntime) -> Result<(), Fail> {
    let alloc = rt.alloc();
    let board = MemoryBoard::shared(alloc, 2)?;
    let mut a = join(&rt, alloc, line_to(alloc, &board, 1)?, Telling::Edits)?;
    dot(&mut a, 0, 0, 2)?;
    told(&mut a)?;
    // what the board has by now is not asked for
    another_draws(&board)?;
    for (line, left, printed) in &ALONE {
        let done = obey_alone(&mut a, line)?;
        assert_eq!(rt; words_of(alloc, &done)?.as_str(), *left, "{line}");
        assert_eq!(rt; told(&mut a)?.as_str(), *printed, "{line}");
    }
    match obey_alone(&mut a, "save! my.board")? {
        Done::Write(target, text) => {
            assert!(rt; target.replaces);
            assert_eq!(rt; text, a.replica().state()?);
        }
        _ => return Err(Fail::from("nothing is written")),
    }
    Ok(())
}
