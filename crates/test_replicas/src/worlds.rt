//! Worlds by hand, and one by chance.

ghost use Rattle.std.specs.Prelude.{◌≤◌, ◌<◌};

use edit_stamps::{Cell, Write};
use generations_rule::Rule;
use pattern_cells::Window;
use replica_core::{CellList, Count, EditSpec, Event, Reply, Stop, World, replay, replay_within};
use std::alloc::{AllocError, Global};

/// An event whose cell takes no memory yet.
#[derive(Clone, Copy)]
enum Step {
    Draw(u32, i32, i32, u8),
    SendDelta(u32, u32, u32),
    Send(u32),
    Deliver(u64, u32),
    Show(u32, i32, i32),
    Same(u32, u32),
    Dump(u64),
    Export(u32, u32),
    Cut(u32, Window, u32),
    Count(u32, u32),
}

fn event(alloc: Global, step: Step) -> Result<Event, AllocError> {
    Ok(match step {
        Step::Draw(number, x, y, state) => {
            let cells = Vec::from_slice(alloc, &[Cell { x, y, state }])?;
            Event::Draw(number, EditSpec::Cells(CellList::of_vec(cells)))
        }
        Step::SendDelta(number, from, count) => Event::SendDelta(number, from, count),
        Step::Send(number) => Event::SendState(number),
        Step::Deliver(message, number) => Event::Deliver(message, number),
        Step::Show(number, x, y) => Event::Show(number, x, y),
        Step::Same(a, b) => Event::Same(a, b),
        Step::Dump(message) => Event::Dump(message),
        Step::Export(number, generation) => Event::Export(number, generation),
        Step::Cut(number, window, generation) => Event::Cut(number, window, generation),
        Step::Count(number, generation) => Event::Count(number, generation),
    })
}

fn rule() -> Result<Rule, Stop> {
    match Rule::parse(b"/2/3") {
        Ok(rule) => Ok(rule),
        Err(_) => Err(Stop::StoreFull),
    }
}

/// What a world of n replicas under /2/3 answers.
fn run(alloc: Global, n: u16, events: &[Event]) -> Result<Vec<Reply>, Stop> {
    let (_, replies) = replay(alloc, rule()?, n, events)?;
    Ok(replies)
}

fn reply_told(alloc: Global, reply: &Reply) -> Result<String, AllocError> {
    match reply {
        Reply::Drawn(stamp) => format!(in alloc; "drawn {} {}", stamp.counter(), stamp.replica()),
        Reply::Sent(message) => format!(in alloc; "sent {message}"),
        Reply::Taken => "taken".to_string(alloc),
        Reply::Shown(write) => format!(in alloc; "shown {} {}", write.stamp, write.state),
        Reply::Same(same) => format!(in alloc; "same {same}"),
        Reply::Bytes(text) => format!(in alloc; "{} bytes", text.as_slice().len()),
        Reply::Text(text) => String::from_utf8_lossy(alloc, text.as_slice()),
        Reply::Counted(count) => count_told(alloc, *count),
        Reply::Refused(fault) => fault.to_string(alloc),
    }
}

fn count_told(alloc: Global, count: Count) -> Result<String, AllocError> {
    let Some(window) = count.extent else {
        return format!(in alloc; "{} cells", count.cells);
    };
    format!(in alloc;
        "{} cells in {} {} {} {}",
        count.cells, window.x, window.y, window.width, window.height
    )
}

fn events(alloc: Global, steps: &[Step]) -> Result<Vec<Event>, AllocError> {
    let mut events = Vec::new(alloc);
    for step in steps {
        events.push(event(alloc, *step)?)?;
    }
    Ok(events)
}

/// The replies, one a line.
fn told(alloc: Global, replies: &[Reply]) -> Result<String, AllocError> {
    let mut told = String::new(alloc);
    for reply in replies {
        told = format!(in alloc; "{told}{}\n", reply_told(alloc, reply)?)?;
    }
    Ok(told)
}

/// Whether a world of n replicas answers to the steps with these lines.
fn is_answered(alloc: Global, n: u16, steps: &[Step], lines: &str) -> Result<bool, Stop> {
    let replies = run(alloc, n, &events(alloc, steps)?)?;
    Ok(told(alloc, &replies)?.as_str() == lines)
}

/// Number and edits of a replica in a new world of n, if it is there.
fn opened(alloc: Global, n: u16, number: u32) -> Result<Option<(u16, usize)>, Stop> {
    let world = World::new(alloc, rule()?, n)?;
    Ok(match world.replica(number) {
        Some(replica) => Some((replica.number(), replica.journal().len())),
        None => None,
    })
}

/// How many replicas there are, a number, and what stands at it.
static OPENED: [(u16, u32, Option<(u16, usize)>); 6] = [
    (3, 0, None),
    (3, 1, Some((1, 0))),
    (3, 3, Some((3, 0))),
    (3, 4, None),
    (3, u32::MAX, None),
    (0, 1, None),
];

#[test]
fn opens(rt: HostRuntime) {
    for (n, number, there) in &OPENED {
        assert!(rt;
            opened(rt.alloc(), *n, *number) == Ok(*there),
            "{number} of {n}"
        );
    }
}

static TIE: [Step; 8] = [
    Step::Draw(1, 0, 0, 1),
    Step::Draw(2, 0, 0, 2),
    Step::Send(1),
    Step::Send(2),
    Step::Deliver(1, 2),
    Step::Deliver(2, 1),
    Step::Show(1, 0, 0),
    Step::Show(2, 0, 0),
];

#[test]
fn settles_a_tie(rt: HostRuntime) {
    let lines =
        "drawn 1 1\ndrawn 1 2\nsent 1\nsent 2\ntaken\ntaken\nshown 65538 2\nshown 65538 2\n";
    assert!(rt; is_answered(rt.alloc(), 2, &TIE, lines) == Ok(true));
}

/// Two replicas before and after the second took the map of the first, and one that is not there.
static ASKED: [Step; 7] = [
    Step::Same(1, 2),
    Step::Draw(1, 0, 0, 1),
    Step::Same(1, 2),
    Step::Send(1),
    Step::Deliver(1, 2),
    Step::Same(2, 1),
    Step::Same(1, 3),
];

#[test]
fn tells_the_same_from_the_different(rt: HostRuntime) {
    let lines = "same true\ndrawn 1 1\nsame false\nsent 1\ntaken\nsame true\nNoReplica\n";
    assert!(rt; is_answered(rt.alloc(), 2, &ASKED, lines) == Ok(true));
}

const SQUARE: Window = Window {
    x: -1,
    y: -1,
    width: 3,
    height: 3,
};

/// Two cells that the square has, and one that it has not. A generation later all are dying, and four are born.
static SEEN: [Step; 9] = [
    Step::Count(1, 0),
    Step::Draw(1, 0, 0, 1),
    Step::Draw(1, 1, 0, 1),
    Step::Draw(1, 9, 9, 1),
    Step::Count(1, 0),
    Step::Cut(1, SQUARE, 0),
    Step::Cut(1, SQUARE, 1),
    Step::Count(1, 1),
    Step::Count(2, 0),
];

#[test]
fn counts_and_cuts(rt: HostRuntime) {
    let lines = "0 cells\ndrawn 1 1\ndrawn 2 1\ndrawn 3 1\n3 cells in 0 0 10 10\n\
        #CXRLE Pos=0,0 Gen=0\nx = 2, y = 1, rule = /2/3\n2A!\n\n\
        #CXRLE Pos=0,-1 Gen=1\nx = 2, y = 3, rule = /2/3\n2A$2B$2A!\n\n\
        7 cells in 0 -1 10 11\nNoReplica\n";
    assert!(rt; is_answered(rt.alloc(), 1, &SEEN, lines) == Ok(true));
}

/// How many replies come where each replica has so much room.
fn replies_within(alloc: Global, nodes: u32, steps: &[Step]) -> Result<usize, Stop>
    requires { 1 ≤ nodes }
{
    let events = events(alloc, steps)?;
    count_of_replies(alloc, nodes, &events)
}

fn count_of_replies(alloc: Global, nodes: u32, events: &[Event]) -> Result<usize, Stop>
    requires { 1 ≤ nodes }
{
    let (_, replies) = replay_within(alloc, rule()?, 2, nodes, events)?;
    Ok(replies.len())
}

#[test]
fn a_full_store_stops_a_world(rt: HostRuntime) {
    assert!(rt; replies_within(rt.alloc(), 29, &ASKED) == Err(Stop::StoreFull));
    assert!(rt; replies_within(rt.alloc(), 30, &ASKED) == Ok(7));
}

/// A replica that took a map draws past the counters in it.
static RAISING: [Step; 11] = [
    Step::Draw(1, 3, 3, 1),
    Step::Draw(1, 3, 3, 1),
    Step::Draw(1, 3, 3, 1),
    Step::Draw(1, 3, 3, 1),
    Step::Draw(1, 3, 3, 1),
    Step::Send(1),
    Step::Deliver(1, 2),
    Step::Draw(2, 3, 3, 2),
    Step::Send(2),
    Step::Deliver(2, 1),
    Step::Show(1, 3, 3),
];

#[test]
fn raises_the_clock(rt: HostRuntime) {
    let lines = "drawn 1 1\ndrawn 2 1\ndrawn 3 1\ndrawn 4 1\ndrawn 5 1\nsent 1\ntaken\ndrawn 6 2\n\
        sent 2\ntaken\nshown 393218 2\n";
    assert!(rt; is_answered(rt.alloc(), 2, &RAISING, lines) == Ok(true));
}

/// A map that is behind a delta, and a delta that came twice; the bytes of each message.
static EXCHANGED: [Step; 12] = [
    Step::Draw(1, 0, 0, 1),
    Step::SendDelta(1, 0, 1),
    Step::Send(1),
    Step::Deliver(1, 2),
    Step::Send(2),
    Step::Deliver(2, 2),
    Step::Deliver(1, 2),
    Step::Deliver(1, 2),
    Step::Send(2),
    Step::Same(1, 2),
    Step::SendDelta(2, 1, 1),
    Step::Dump(4),
];

#[test]
fn exchanges_bytes(rt: HostRuntime) {
    let lines = "drawn 1 1\nsent 1\nsent 2\ntaken\nsent 3\ntaken\ntaken\ntaken\nsent 4\nsame true\n\
        NoSuchEdit\n1515 bytes\n";
    assert!(rt; is_answered(rt.alloc(), 2, &EXCHANGED, lines) == Ok(true));
}

/// Whether a world holds messages of these numbers of bytes, and no more.
fn are_message_sizes(alloc: Global, steps: &[Step], sizes: &[usize]) -> Result<bool, Stop> {
    let (world, _) = replay(alloc, rule()?, 2, &events(alloc, steps)?)?;
    let mut number = 1u64;
    for size in sizes {
        match world.message(number) {
            Some(text) if text.len() == *size => (),
            _ => return Ok(false),
        }
        number = number.wrapping_add(1);
    }
    Ok(world.message(number).is_none() && world.message(0).is_none())
}

#[test]
fn keeps_each_message(rt: HostRuntime) {
    assert!(rt; are_message_sizes(rt.alloc(), &EXCHANGED, &[36, 1515, 1515, 1515]) == Ok(true));
    assert!(rt; are_message_sizes(rt.alloc(), &OLDER, &[22, 1515]) == Ok(true));
}

/// A message keeps the map that was sent, whatever is drawn later.
static OLDER: [Step; 3] = [Step::Send(1), Step::Draw(1, 0, 0, 1), Step::Send(1)];

/// Maps that are sent again: at once, behind deliveries that change nothing, behind a draw, behind
/// what happens at another replica, behind a delivery that changes the map, and behind a refused draw.
static SENT_AGAIN: [Step; 18] = [
    Step::Draw(1, 0, 0, 1),
    Step::Send(1),
    Step::Send(1),
    Step::SendDelta(1, 0, 1),
    Step::Deliver(2, 1),
    Step::Deliver(3, 1),
    Step::Send(1),
    Step::Draw(1, 0, 0, 2),
    Step::Send(1),
    Step::Draw(2, 1, 0, 1),
    Step::Send(2),
    Step::Send(1),
    Step::Deliver(6, 1),
    Step::Send(1),
    Step::Deliver(8, 2),
    Step::Send(2),
    Step::Draw(1, 0x4000_0000, 0, 1),
    Step::Send(1),
];

/// The number of the first message with the bytes of this one.
fn first_alike(world: &World, number: u64) -> u64 {
    for earlier in 1..number {
        if world.message(earlier) == world.message(number) {
            return earlier;
        }
    }
    number
}

/// For each of 10 messages the first with its bytes, and whether the last two are the bytes that the
/// replicas write.
fn sent_again(alloc: Global) -> Result<(Vec<u64>, bool), Stop> {
    let (world, _) = replay(alloc, rule()?, 2, &events(alloc, &SENT_AGAIN)?)?;
    let mut alike = Vec::new(alloc);
    for number in 1..=10u64 {
        alike.push(first_alike(&world, number))?;
    }
    let first = state_of(alloc, &world, 1)?;
    let second = state_of(alloc, &world, 2)?;
    let are_written = world.message(10) == Some(first.as_slice())
        && world.message(9) == Some(second.as_slice());
    Ok((alike, are_written))
}

#[test]
fn sends_each_map_as_it_is_then(rt: HostRuntime) -> Result<(), Stop> {
    let (alike, are_written) = sent_again(rt.alloc())?;
    assert!(rt; alike.as_slice() == [1, 1, 3, 1, 5, 6, 5, 8, 8, 8].as_slice());
    assert!(rt; are_written);
    Ok(())
}

/// Each refusal, the first of two where both stand.
static REFUSED: [Step; 22] = [
    Step::Draw(0, 0, 0, 9),
    Step::Draw(2, 0x4000_0000, 0, 1),
    Step::Draw(1, 0x4000_0000, 0, 9),
    Step::Draw(1, 0, 0, 3),
    Step::Send(3),
    Step::Deliver(1, 9),
    Step::Deliver(0, 1),
    Step::Show(2, 0, 0),
    Step::Send(1),
    Step::Deliver(1, 2),
    Step::Show(1, 0, 0),
    Step::SendDelta(2, 1, 0),
    Step::SendDelta(1, 1, 0),
    Step::SendDelta(1, 0, 1),
    Step::SendDelta(1, u32::MAX, u32::MAX),
    Step::SendDelta(1, 0, 0),
    Step::Dump(0),
    Step::Dump(3),
    Step::Export(0, 0),
    Step::Export(2, 0x2000_0001),
    Step::Export(1, 0x2000_0001),
    Step::Export(1, 0x2000_0000),
];

#[test]
fn refuses(rt: HostRuntime) {
    let lines = "NoReplica\nNoReplica\nOutOfPlane\nStateRange\nNoReplica\nNoMessage\nNoMessage\n\
        NoReplica\nsent 1\nNoReplica\nshown 0 0\nNoReplica\nNoSuchEdit\nNoSuchEdit\nNoSuchEdit\nsent 2\n\
        NoMessage\nNoMessage\nNoReplica\nNoReplica\nGenRange\n\
        #CXRLE Pos=0,0 Gen=536870912\nx = 0, y = 0, rule = /2/3\n!\n\n";
    assert!(rt; is_answered(rt.alloc(), 1, &REFUSED, lines) == Ok(true));
}

/// Numbers by chance, the same in each run.
#[derive(Drop)]
struct Dice {
    state: u32,
}

impl Dice {
    fn roll(&mut self, sides: u32) -> u32
        requires { 1 ≤ sides }
        ensures { result < sides }
    {
        self.state = self
            .state
            .wrapping_mul(1_664_525)
            .wrapping_add(1_013_904_223);
        (self.state >> 8) % sides
    }
}

/// An event among three replicas on a field of 4 by 4 cells; there are some messages.
fn by_chance(dice: &mut Dice, messages: u32) -> Step {
    let number = 1 + dice.roll(3);
    match dice.roll(6) {
        0 | 1 | 2 => {
            let (x, y) = (dice.roll(4) as i32, dice.roll(4) as i32);
            Step::Draw(number, x, y, dice.roll(3) as u8)
        }
        3 if messages > 0 => Step::Deliver(u64::from(1 + dice.roll(messages)), number),
        4 => Step::SendDelta(number, dice.roll(8), dice.roll(8)),
        _ => Step::Send(number),
    }
}

/// 200 events by chance, and then a map of each replica; there are at most so many messages then.
fn scattered(alloc: Global) -> Result<(Vec<Event>, u32), AllocError> {
    let mut dice = Dice { state: 2026 };
    let mut events = Vec::new(alloc);
    let mut messages = 0u32;
    for i in 0..203u32 {
        let step = if i < 200 {
            by_chance(&mut dice, messages)
        } else {
            Step::Send(i - 199)
        };
        if let Step::Send(_) | Step::SendDelta(..) = step {
            messages = messages.saturating_add(1);
        }
        events.push(event(alloc, step)?)?;
    }
    Ok((events, messages))
}

/// Each of so many messages reaches each replica, the last one first where they are turned.
fn deliver(events: &mut Vec<Event>, messages: u32, are_turned: bool) -> Result<(), AllocError> {
    for i in 0..messages {
        let message = if are_turned { messages - i } else { i + 1 };
        for number in 1..=3 {
            events.push(Event::Deliver(u64::from(message), number))?;
        }
    }
    Ok(())
}

/// Each replica shows its field.
fn show(events: &mut Vec<Event>) -> Result<(), AllocError> {
    for number in 1..=3 {
        for place in 0..16 {
            events.push(Event::Show(number, place % 4, place / 4))?;
        }
    }
    Ok(())
}

/// The events by chance, every message to each replica, and what each shows then.
fn gathered(alloc: Global, are_turned: bool) -> Result<Vec<Event>, AllocError> {
    let (mut events, messages) = scattered(alloc)?;
    deliver(&mut events, messages, are_turned)?;
    show(&mut events)?;
    Ok(events)
}

/// What is shown in the end: three fields of 16 cells.
fn fields(alloc: Global, are_turned: bool) -> Result<Vec<Write>, Stop> {
    let replies = run(alloc, 3, &gathered(alloc, are_turned)?)?;
    let mut shown = Vec::new(alloc);
    for reply in &replies {
        if let Reply::Shown(write) = reply {
            shown.push(*write)?;
        }
    }
    Ok(shown)
}

/// How many writes are the same as the one at their place in the first field.
fn same_as_first(shown: &[Write]) -> usize {
    let mut same = 0usize;
    for (i, write) in shown.iter().enumerate() {
        if shown.get(i % 16) == Some(write) {
            same = same.wrapping_add(1);
        }
    }
    same
}

fn shown_by_each(alloc: Global) -> Result<(usize, usize), Stop> {
    let shown = fields(alloc, false)?;
    Ok((shown.len(), same_as_first(&shown)))
}

fn agree(alloc: Global) -> Result<bool, Stop> {
    let shown = fields(alloc, false)?;
    let turned = fields(alloc, true)?;
    Ok(shown.as_slice() == turned.as_slice())
}

/// The bytes of a replica's map, and none where it is not there.
fn state_of(alloc: Global, world: &World, number: u32) -> Result<Vec<u8>, AllocError> {
    match world.replica(number) {
        Some(replica) => replica.state(),
        None => Ok(Vec::new(alloc)),
    }
}

/// The number of bytes of a state, where each replica writes the same bytes in the end.
fn state_of_all(alloc: Global, are_turned: bool) -> Result<Option<usize>, Stop> {
    let (world, _) = replay(alloc, rule()?, 3, &gathered(alloc, are_turned)?)?;
    let first = state_of(alloc, &world, 1)?;
    for number in 2..=3 {
        if state_of(alloc, &world, number)?.as_slice() != first.as_slice() {
            return Ok(None);
        }
    }
    Ok(Some(first.len()))
}

#[test]
fn each_writes_the_same_bytes(rt: HostRuntime) {
    assert!(rt; state_of_all(rt.alloc(), false) == Ok(Some(1515)));
    assert!(rt; state_of_all(rt.alloc(), true) == Ok(Some(1515)));
}

/// Generations that are exported.
static EXPORTED: [u32; 10] = [0, 1, 2, 3, 4, 5, 6, 7, 12, 30];

/// The text of a replica's generation.
fn exported(world: &World, number: u32, generation: u32) -> Option<Vec<u8>> {
    let replica = world.replica(number)?;
    replica.export(generation).ok()
}

/// Whether each replica of two worlds exports the same text of a generation.
fn export_alike(world: &World, other: &World, generation: u32) -> bool {
    let Some(first) = exported(world, 1, generation) else {
        return false;
    };
    for number in 1..=3 {
        let here = exported(world, number, generation);
        let there = exported(other, number, generation);
        if here.as_deref() != Some(first.as_slice()) || there.as_deref() != Some(first.as_slice()) {
            return false;
        }
    }
    true
}

/// Whether that is so of all these generations, where messages came in two orders.
fn exports_agree(alloc: Global) -> Result<bool, Stop> {
    let (world, _) = replay(alloc, rule()?, 3, &gathered(alloc, false)?)?;
    let (turned, _) = replay(alloc, rule()?, 3, &gathered(alloc, true)?)?;
    Ok(
        EXPORTED
            .iter()
            .all(|generation| export_alike(&world, &turned, *generation)),
    )
}

#[test]
fn each_exports_the_same_bytes(rt: HostRuntime) {
    assert!(rt; exports_agree(rt.alloc()) == Ok(true));
}

fn count_of_scattered(alloc: Global) -> Result<usize, AllocError> {
    let (events, _) = scattered(alloc)?;
    Ok(events.len())
}

#[test]
fn scatters_events(rt: HostRuntime) {
    assert!(rt; count_of_scattered(rt.alloc()) == Ok(203));
}

#[test]
fn each_shows_the_same(rt: HostRuntime) {
    assert!(rt; shown_by_each(rt.alloc()) == Ok((48, 48)));
}

#[test]
fn agrees_in_any_order(rt: HostRuntime) {
    assert!(rt; agree(rt.alloc()) == Ok(true));
}
