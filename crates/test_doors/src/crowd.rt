//! More visitors than are seen to at once.

use crate::door::{Door, PAGE};
use std::io::Read;
use std::test::Fail;
use std::time::Duration;
use std::{io, thread};
use web_doors::VISITORS;

/// Whether a connection was closed with no answer: what was said to it may be lost then.
fn says_nothing(answer: io::Result<String>) -> bool {
    match answer {
        Ok(text) => text.is_empty(),
        Err(_) => true,
    }
}

fn gives_page(answer: io::Result<String>) -> bool {
    match answer {
        Ok(text) => text.starts_with("HTTP/1.1 200 OK\r\n"),
        Err(_) => false,
    }
}

/// The 129th is let go at once; once one of the others has left, the next is seen to. The end of all lets go each.
#[test]
fn one_too_many(rt: HostRuntime) -> Result<(), Fail> {
    let alloc = rt.alloc();
    let door = Door::open(rt, alloc, 1)?;
    let mut silent = Vec::new(alloc);
    for _visitor in 0..VISITORS {
        silent.push(door.comes()?)?;
    }
    assert!(&rt; says_nothing(door.answer(PAGE.as_bytes(), 10_000)));
    drop(silent.pop());
    let mut seen = false;
    for _try in 0..100 {
        if !seen {
            seen = gives_page(door.answer(PAGE.as_bytes(), 10_000));
            thread::sleep(&rt, Duration::from_millis(20));
        }
    }
    assert!(&rt; seen);
    door.visitors.end();
    for mut browser in silent {
        let mut byte = [0; 1];
        assert!(&rt; !matches!(browser.read(&mut byte), Ok(1)));
    }
    Ok(())
}
