//! Each call of the board and of the inbox once.

ghost use Rattle.std.specs.Prelude.{◌≡◌, IfSome, true};
ghost use Rattle.crossbeam_queue.specs.Passes.{view};
ghost use Rattle.edit_stamps.specs.Edit.{has_states_below};

use crate::drawn::{brians_brain, drawn};
use crate::press::{Press, publish_all};
use crate::told::{Told, tell, tell_edits};
use board::{AddFault, Board, Entry, Front, History, LastEdits, Window};
use inbox::Drain;
use keyed_hash::HashKey;
use std::alloc::Global;
use std::sync::Wait;

/// What a board tells of itself.
#[derive(Clone, Copy, Debug, PartialEq, Eq)]
struct Shown {
    len: u64,
    /// How many entries its front has.
    front: u64,
    /// The write at the second cell of row 0.
    write: (u64, u8),
    /// How many cells its plane has.
    cells: usize,
    last: Told,
    /// What it hands out to one that was handed nothing, and to one that was handed all.
    news: [Told; 2],
}

fn look_at(alloc: Global, board: &Board) -> Option<Shown> {
    let write = board.get(1, 0);
    let len = board.len();
    Some(Shown {
        len,
        front: board.front().len(),
        write: (write.stamp, write.state),
        cells: board.copy_plane().ok()?.walk().ok()?.len(),
        last: tell_edits(board.last(alloc).ok()?.as_slice()),
        news: [
            tell(&Ok(board.news(alloc, 0).ok()?)),
            tell(&Ok(board.news(alloc, len).ok()?)),
        ],
    })
}

/// A board of no edits, and one of the edits with the counters 1 to 3, at the cells 1 to 3 of row 0.
fn shown_both<R: Wait + Drop>(rt: R, alloc: Global) -> Option<[Shown; 2]> {
    let (_history, prefix) = History::new();
    let empty = Board::new(alloc, Front::first(prefix, 3), HashKey::fixed()).ok()?;
    let press = Press::new(rt, alloc, 1).ok()?;
    let press = publish_all(press, 1, 4).ok()?;
    Some([
        look_at(alloc, &empty)?,
        look_at(alloc, press.publisher.board())?,
    ])
}

#[test]
fn a_board_tells_of_its_list(rt: HostRuntime) {
    let empty = Shown {
        len: 0,
        front: 0,
        write: (0, 0),
        cells: 0,
        last: Told::Edits(0, 0),
        news: [Told::Edits(0, 0), Told::Edits(0, 0)],
    };
    let three = Shown {
        len: 3,
        front: 3,
        write: (65537, 1),
        cells: 3,
        last: Told::Edits(1, 3),
        news: [Told::Edits(1, 3), Told::Edits(0, 0)],
    };
    assert_eq!(rt; shown_both(rt, rt.alloc()), Some([empty, three]));
}

fn entry(alloc: Global, counter: u64) -> Option<Entry>
    ensures { IfSome result (λ entry. has_states_below 3 entry.edit ≡ true) }
{
    let rule = brians_brain()?;
    if rule.states() != 3 {
        return None;
    }
    let edit = drawn(alloc, &rule, counter, 1, 0)?;
    Some(Entry {
        seat: 0,
        number: counter,
        edit,
    })
}

/// How long a front is before and after an entry, and whether the shorter begins the longer, and the
/// longer the shorter.
fn fronts(alloc: Global) -> Option<(u64, u64, bool, bool)> {
    let entry = entry(alloc, 1)?;
    let (history, prefix) = History::new();
    let first = Front::first(prefix, 3);
    let second = first.with(&history, &entry).ok()?;
    Some((
        first.len(),
        second.again().len(),
        first.begins(&second),
        second.begins(&first),
    ))
}

/// How many entries a history is told to have that took no entry; 0 where it took one.
fn longer(added: Result<(), AddFault>) -> Option<u64> {
    match added {
        Ok(()) => Some(0),
        Err(AddFault::Longer(prefix)) => Some(prefix.len()),
        Err(AddFault::Full) => None,
    }
}

/// The same of prefixes; and how much longer the history is told to be where an entry is added once, and once
/// more behind the same prefix.
fn prefixes(alloc: Global) -> Option<(u64, u64, bool, bool, [u64; 2])> {
    let entry = entry(alloc, 1)?;
    let (history, mut first) = History::new();
    let mut second = first.again();
    let first_try = longer(history.add(&mut second, &entry))?;
    let second_try = longer(history.add(&mut first, &entry))?;
    Some((
        first.len(),
        second.len(),
        first.begins(&second),
        second.begins(&first),
        [first_try, second_try],
    ))
}

#[test]
fn the_shorter_front_begins_the_longer(rt: HostRuntime) {
    assert_eq!(rt; fronts(rt.alloc()), Some((0, 1, true, false)));
    let prefixes = prefixes(rt.alloc());
    assert_eq!(rt; prefixes, Some((0, 1, true, false, [0, 1])));
}

/// How many edits are kept of so many, and the last of them.
fn kept(alloc: Global, count: u16, last: usize) -> Option<(usize, Told)> {
    let rule = brians_brain()?;
    let mut edits = LastEdits::new(alloc).ok()?;
    for i in 0..count {
        edits.push(drawn(alloc, &rule, u64::from(i) + 1, 1, 0)?);
    }
    let len = edits.len();
    let copies = edits.copies(alloc, len.saturating_sub(last)).ok()?;
    Some((len, tell_edits(&copies)))
}

#[test]
fn the_last_1024_edits_are_kept(rt: HostRuntime) {
    let alloc = rt.alloc();
    assert_eq!(rt; kept(alloc, 3, 2), Some((3, Told::Edits(2, 2))));
    assert_eq!(rt; kept(alloc, 1024, 2000), Some((1024, Told::Edits(1, 1024))));
    assert_eq!(rt; kept(alloc, 1025, 2000), Some((1024, Told::Edits(2, 1024))));
}

/// Whether a copy of an entry is the same.
fn copied(alloc: Global) -> Option<bool> {
    let entry = entry(alloc, 7)?;
    let copy = entry.copy().ok()?;
    Some(copy.seat == 0 && copy.number == 7 && copy.edit.same(&entry.edit))
}

/// How many entries a window has seen before it is entered, in it and behind it.
fn windowed<R: Wait + Drop>(rt: R, alloc: Global) -> Option<[u64; 3]> {
    let mut press = Press::new(rt, alloc, 1).ok()?;
    let window = press.publisher.window().ok()?;
    let press = publish_all(press, 1, 3).ok()?;
    let before = window.front.len();
    let seen = entered(window)?;
    drop(press);
    Some([before, seen[0], seen[1]])
}

fn entered(window: Window) -> Option<[u64; 2]> {
    let open = window.enter().ok()?;
    let inside = open.board().len();
    Some([inside, open.leave().front.len()])
}

#[test]
fn a_window_sees_what_is_published(rt: HostRuntime) {
    assert_eq!(rt; copied(rt.alloc()), Some(true));
    assert_eq!(rt; windowed(rt, rt.alloc()), Some([0, 2, 2]));
}

/// What a put and two takes of an inbox for one entry give, by counters, and how many were accepted of
/// the seat, which then retires.
fn handled<R: Wait>(rt: &R, alloc: Global) -> Option<([Option<u64>; 2], u64)> {
    let entry = entry(alloc, 9)?;
    let (_history, prefix) = History::new();
    let front = Front::first(prefix, 3);
    let mut drain = Drain::new(alloc, 1, &front).ok()?;
    let mut post = drain.post(0).ok()?;
    let _pending = post.put(rt, alloc, &front, entry.edit).ok()?;
    let taken = [taken(rt, &mut drain), taken(rt, &mut drain)];
    let accepted = post.accepted();
    drain.retire(post);
    drain.settle();
    Some((taken, accepted))
}

/// The counter of the edit that is taken.
fn taken<R: Wait>(rt: &R, drain: &mut Drain) -> Option<u64>
    ensures queue { drain.new.queue ≡ drain.old.queue }
    ensures known { (view drain.new.pass).known ≡ (view drain.old.pass).known }
{
    let submission = drain.take(rt)?;
    Some(submission.into_edit().stamp().counter())
}

#[test]
fn an_inbox_gives_what_was_put(rt: HostRuntime) {
    assert_eq!(rt; handled(&rt, rt.alloc()), Some(([Some(9), None], 1)));
}
