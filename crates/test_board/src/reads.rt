//! Reads before and after an edit, after what was learnt, and after the board has ended; the key that a
//! board keeps.

use crate::press::{Press, publish_all};
use crate::told::{Told, View, planed, tell, viewed};
use board::{BoardReader, Publisher, SeatFault};
use keyed_hash::{HashKey, KEY_BYTES};
use std::alloc::Global;
use std::sync::Wait;
use std::test::Fail;

/// What a reader sees: the write at the origin, and of the plane how many cells, and that write.
#[derive(Clone, Copy, Debug, PartialEq, Eq)]
struct Seen {
    view: View,
    plane: Result<(usize, u64, u8), SeatFault>,
    handed: u64,
}

fn look(reader: &mut BoardReader) -> Seen {
    Seen {
        view: viewed(reader.view(0, 0)),
        plane: planed(&reader.plane()),
        handed: reader.handed,
    }
}

fn before_and_after<R: Wait + Drop>(rt: R, alloc: Global) -> Result<[Seen; 2], &'static str> {
    let mut press = Press::new(rt, alloc, 1)?;
    let mut reader = press.reader()?;
    let before = look(&mut reader);
    let _press = press.publish(1, 0)?;
    Ok([before, look(&mut reader)])
}

#[test]
fn an_edit_is_seen_once_it_is_published(rt: HostRuntime) -> Result<(), Fail> {
    let before = Seen {
        view: Ok((0, 0)),
        plane: Ok((0, 0, 0)),
        handed: 0,
    };
    let after = Seen {
        view: Ok((65537, 1)),
        plane: Ok((1, 65537, 1)),
        handed: 0,
    };
    assert_eq!(rt; before_and_after(rt, rt.alloc())?, [before, after]);
    Ok(())
}

/// How many entries a reader has seen that learns of one, of two, and of one again, and its poll.
fn learnt<R: Wait + Drop>(rt: R, alloc: Global) -> Result<([u64; 4], Told), &'static str> {
    let mut press = Press::new(rt, alloc, 1)?;
    let mut reader = press.reader()?;
    let none = reader.window.front.len();
    let press = press.publish(1, 0)?;
    let shorter = press.front();
    let press = press.publish(2, 0)?;
    reader.learn(&shorter);
    let one = reader.window.front.len();
    reader.learn(&press.front());
    let two = reader.window.front.len();
    reader.learn(&shorter);
    let same = reader.window.front.len();
    Ok(([none, one, two, same], tell(&reader.poll())))
}

#[test]
fn the_longer_front_is_kept(rt: HostRuntime) -> Result<(), Fail> {
    assert_eq!(rt; learnt(rt, rt.alloc())?, ([0, 1, 2, 2], Told::Edits(1, 2)));
    Ok(())
}

/// What a reader that was handed two of three edits sees and is handed once the board has ended.
fn after_the_end<R: Wait + Drop>(rt: R, alloc: Global) -> Result<(Told, Told, Seen), &'static str> {
    let mut press = Press::new(rt, alloc, 1)?;
    let mut reader = press.reader()?;
    let press = publish_all(press, 1, 3)?;
    let first = tell(&reader.poll());
    let press = press.publish(3, 0)?;
    drop(press);
    Ok((first, tell(&reader.poll()), look(&mut reader)))
}

#[test]
fn an_ended_board_is_closed(rt: HostRuntime) -> Result<(), Fail> {
    let closed = Seen {
        view: Err(SeatFault::Closed),
        plane: Err(SeatFault::Closed),
        handed: 2,
    };
    assert_eq!(rt;
        after_the_end(rt, rt.alloc())?,
        (Told::Edits(1, 2), Told::Fault(SeatFault::Closed), closed)
    );
    Ok(())
}

/// The two numbers of the key by which the plane of a board finds its squares.
fn pair_of_board<R: Wait>(rt: &R, alloc: Global, key: HashKey) -> Result<(u64, u64), &'static str> {
    let Ok(publisher) = Publisher::new(rt, alloc, 2, 1, key) else {
        return Err("publisher");
    };
    let plane = publisher.board().copy_plane();
    publisher.end(rt);
    match plane {
        Ok(plane) => Ok(plane.key().pair()),
        Err(_) => Err("plane"),
    }
}

/// No result depends on a key, so contracts do not tell which one is kept.
#[test]
fn a_board_keeps_its_key(rt: HostRuntime) -> Result<(), Fail> {
    let key = HashKey::of_bytes(&[7; KEY_BYTES]);
    assert_eq!(rt; pair_of_board(&rt, rt.alloc(), key)?, key.pair());
    Ok(())
}
