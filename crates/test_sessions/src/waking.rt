//! A server that gives up wakes who waits for a further stream.

ghost use Rattle.std.specs.Prelude.{◌≡◌};
ghost use Rattle.std.specs.Arc.{arc_value};

use devices::{ReadSource, WriteSink};
use generations_rule::Rule;
use relay_board::{BoardSize, Naming, Opened, TurnFault, start_within};
use seat_server::{Accept, Ends, Progress, ServerFault, Streams, Wake, attending, serve_seats};
use session_service::Unheard;
use stamped_tree::Limits;
use std::alloc::Global;
use std::marker::Brand;
use std::sync::atomic::{AtomicBool, Ordering};
use std::sync::{Arc, Wait};
use std::test::Fail;
use std::thread;
use std::thread::Threads;
use std::time::{Clock, Duration};

/// A Push of seat 1's edit with counter 1, which writes state 1 at 1 0 under `/2/3`.
const PUSH: &[u8] =
    b"\x00\x00\x00\x25\x02GLWD\x01\x04/2/3\x00\x00\x00\x01\x00\x00\x00\x00\x00\x01\x00\x01\x00\x00\x00\x00\x01\x40\x00\x00\x01\x40\x00\x00\x00\x01";

/// How many milliseconds a wait for a stream lasts at most: the server gives up after a second.
const MOST_RESTS: u32 = 60_000;

/// What the server told who waits.
#[derive(Drop)]
struct Marks {
    /// It gave up.
    told: AtomicBool,
    /// That ended a wait.
    woke: AtomicBool,
}

/// A chair that gives one stream, or none, and no other until it is woken.
#[derive(Drop)]
struct OneStream<R: Drop> {
    rt: R,
    alloc: Global,
    is_left: bool,
    marks: Arc<Marks, Global>,
}

impl<R: Clock + Drop> Accept<ReadSource<&'static [u8]>, WriteSink<Vec<u8>>, Unheard>
    for OneStream<R> {
    fn accept(&mut self) -> Option<Ends<ReadSource<&'static [u8]>, WriteSink<Vec<u8>>, Unheard>> {
        if self.is_left {
            self.is_left = false;
            return Some(Ends {
                source: ReadSource::new(PUSH),
                sink: WriteSink::new(Vec::new(self.alloc)),
                ears: Unheard,
            });
        }
        for _ in 0..MOST_RESTS {
            if self.marks.told.load(Ordering::SeqCst) {
                self.marks.woke.store(true, Ordering::SeqCst);
                return None;
            }
            thread::sleep(&self.rt, Duration::from_millis(1));
        }
        None
    }
}

impl Wake for Marks {
    fn wake(&self) {
        self.told.store(true, Ordering::SeqCst);
    }

    /// Nobody listens for news.
    fn announce(&self) {}
}

/// Why a board ends whose relay has no room for the first edit.
fn ended<
    J: Naming + Send + 'static,
    R: Threads + Wait + Clock + Copy + Drop + Send + Sync + 'static,
>(
    rt: R,
    alloc: Global,
    opened: Opened<R>,
    marks: &Arc<Marks, Global>,
) -> Result<Option<ServerFault>, Fail>
    requires origin { opened.publisher.origin ≡ J.origin }
    requires inbox { (arc_value opened.drain.queue).table.shared.table_id ≡ J.inbox }
{
    let (relay, seats) = opened.named::<J>()?;
    let mut chairs = Vec::new(alloc);
    for place in 0..seats.len() {
        chairs.push(OneStream {
            rt,
            alloc,
            is_left: place == 0,
            marks: Arc::try_clone(marks)?,
        })?;
    }
    let progress = Arc::new(alloc, Progress::new(relay.bell()?, seats.len()))?;
    let streams = Streams {
        chairs,
        wake: &**marks,
    };
    let attendance = attending(rt, alloc, progress, seats, streams)?;
    match serve_seats(&rt, alloc, relay, attendance, &**marks) {
        Ok(_) => Ok(None),
        Err(fault) => Ok(Some(fault)),
    }
}

#[test]
fn a_server_that_gives_up_waits_for_no_stream(rt: HostRuntime) -> Result<(), Fail> {
    let alloc = rt.alloc();
    let size = BoardSize {
        first: 1,
        sessions: 2,
        is_kept: false,
        inbox: 2,
        limits: Limits::of_room(9),
    };
    let opened = start_within(rt, alloc, Rule::parse(b"/2/3")?, size)?;
    let marks = Marks {
        told: AtomicBool::new(false),
        woke: AtomicBool::new(false),
    };
    let marks = Arc::new(alloc, marks)?;
    let fault = ended::<Brand, _>(rt, alloc, opened, &marks)?;
    assert!(&rt; fault == Some(ServerFault::Turn(TurnFault::StoreFull)));
    assert!(&rt; marks.woke.load(Ordering::SeqCst));
    Ok(())
}
