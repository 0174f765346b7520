//! Films: the texts that an album is handed, and what is printed of them.

use crate::clients::{Guest, dot, join, told};
use crate::refusals::{NO_PLACE, asked, refuse};
use client_session::Telling;
use command_words::GenerationRange;
use memory_board::{MemoryBoard, Shared, line_to};
use std::alloc::{AllocError, Global};
use std::test::Fail;
use std::time::Clock;
use told_generations::{Album, FilmForm, FilmPlan, Put};

/// An album in memory, which takes so many texts.
#[derive(Drop)]
struct Pages {
    /// What it was handed, each text behind its generation.
    handed: Vec<u8>,
    room: u32,
}

impl Pages {
    fn of(alloc: Global, room: u32) -> Pages {
        Pages {
            handed: Vec::new(alloc),
            room,
        }
    }

    fn text(&self) -> &str {
        std::str::from_utf8(&self.handed).unwrap_or("?")
    }
}

impl Album for Pages {
    ghost use Rattle.std.specs.Prelude.{None};

    ghost frames = { λ _. None };

    fn put(&mut self, generation: u32, text: &[u8], out: &mut Vec<u8>) -> Result<Put, AllocError> {
        if self.room == 0 {
            out.extend_from_slice(b"full\n")?;
            return Ok(Put::Refused);
        }
        self.room = self.room.saturating_sub(1);
        self.handed
            .push(b'0'.saturating_add((generation % 10) as u8))?;
        self.handed.extend_from_slice(b": ")?;
        self.handed.extend_from_slice(text)?;
        out.extend_from_slice(b"took\n")?;
        Ok(Put::Taken)
    }
}

fn plan(first: u32, last: u32, step: u32, form: FilmForm) -> FilmPlan {
    FilmPlan {
        range: GenerationRange { first, last, step },
        form,
    }
}

/// What two cells side by side make under `/2/3`, as an album is handed it: at generation 0, 2 and 4.
const TEXTS: &str = "\
0: #CXRLE Pos=0,0 Gen=0
x = 2, y = 1, rule = /2/3
2A!
2: #CXRLE Pos=-1,-2 Gen=2
x = 4, y = 5, rule = /2/3
.2A$.2B$A2.A$.2B$.2A!
4: #CXRLE Pos=-2,-4 Gen=4
x = 6, y = 9, rule = /2/3
2.2A$2.2B$.A2.A$.B2.B$A.2A.A$.B2.B$.A2.A$2.2B$2.2A!
";

/// What two cells are at generation 0, as a macrocell.
const MACROCELL: &str = "0: [M2] (pazgrot)\n#R /2/3\n1 0 0 1 1\n2 0 1 0 0\n";

/// A client that drew two cells side by side.
fn joined<'a, C: Clock>(clock: &'a C, alloc: Global, board: &Shared) -> Result<Guest<'a, C>, Fail> {
    let mut a = join(clock, alloc, line_to(alloc, board, 1)?, Telling::Edits)?;
    dot(&mut a, 0, 0, 1)?;
    dot(&mut a, 1, 0, 1)?;
    told(&mut a)?;
    Ok(a)
}

#[test]
fn a_film_polls_once(rt: HostRuntime) -> Result<(), Fail> {
    let alloc = rt.alloc();
    let board = MemoryBoard::shared(alloc, 2)?;
    let mut a = joined(&rt, alloc, &board)?;
    let polls = asked(&board)?.0;
    let mut pages = Pages::of(alloc, 9);
    a.film(plan(0, 5, 2, FilmForm::Rle), &mut pages)?;
    assert_eq!(rt; asked(&board)?.0, polls.saturating_add(1));
    assert_eq!(rt; pages.text(), TEXTS);
    assert_eq!(rt; told(&mut a)?.as_str(), "took\ntook\ntook\n");
    Ok(())
}

#[test]
fn a_film_alone_polls_never(rt: HostRuntime) -> Result<(), Fail> {
    let alloc = rt.alloc();
    let board = MemoryBoard::shared(alloc, 2)?;
    let mut a = joined(&rt, alloc, &board)?;
    let polls = asked(&board)?.0;
    let mut pages = Pages::of(alloc, 9);
    a.film_now(plan(0, 0, 1, FilmForm::Macrocell), &mut pages)?;
    assert_eq!(rt; asked(&board)?.0, polls);
    assert_eq!(rt; pages.text(), MACROCELL);
    Ok(())
}

#[test]
fn a_film_ends_at_a_text_that_is_not_taken(rt: HostRuntime) -> Result<(), Fail> {
    let alloc = rt.alloc();
    let board = MemoryBoard::shared(alloc, 2)?;
    let mut a = joined(&rt, alloc, &board)?;
    let mut pages = Pages::of(alloc, 2);
    a.film(plan(0, 9, 2, FilmForm::Rle), &mut pages)?;
    assert_eq!(rt; told(&mut a)?.as_str(), "took\ntook\nfull\n");
    assert!(rt; TEXTS.starts_with(pages.text()));
    Ok(())
}

#[test]
fn films_that_are_refused(rt: HostRuntime) -> Result<(), Fail> {
    let alloc = rt.alloc();
    let board = MemoryBoard::shared(alloc, 2)?;
    let mut a = joined(&rt, alloc, &board)?;
    let mut pages = Pages::of(alloc, 9);
    a.film(plan(0, 536_870_913, 1, FilmForm::Rle), &mut pages)?;
    assert_eq!(rt; told(&mut a)?.as_str(), "refused 22 GenRange\n");
    refuse(&board, NO_PLACE)?;
    a.film(plan(0, 1, 1, FilmForm::Rle), &mut pages)?;
    assert_eq!(rt; told(&mut a)?.as_str(), "refused 31 NoPlace\n");
    assert_eq!(rt; pages.text(), "");
    Ok(())
}
