//! Connections that find no seat.

ghost use Rattle.std.specs.Prelude.{◌≡◌, ◌∷◌, []};
ghost use denote.Param.Send.{IsSend, IsSync};
ghost use Rattle.message_frames.specs.Frames.{frame_text};

use crate::anteroom::Anteroom;
use crate::connections::Connection;
use crate::desk::Desk;
use crate::guest::Guest;
use std::alloc::{AllocError, Global};
use std::io::{Read, Write};
use std::net::{Shutdown, TcpStream};
use std::sync::atomic::{AtomicBool, Ordering};
use std::sync::{Arc, Mutex, Wait};
use std::thread;
use std::thread::Threads;
use std::time::{Clock, Duration, Instant};

/// How many pieces of what a connection still says are read, at most: as many as the longest request has.
const PIECES: u64 = 4200;

/// How long somebody waits for a seat: a second.
pub(crate) fn patience() -> Duration {
    Duration::from_millis(1000)
}

/// How long what a connection still says is read, at most.
fn parting() -> Duration {
    Duration::from_secs(10)
}

/// What is said to a connection that finds no seat: the refusal 45, in its frame.
pub(crate) fn no_seat() -> &'static [u8]
    ensures { result.now ≡ frame_text (45 ∷ []) }
{
    b"\x00\x00\x00\x01\x2d"
}

/// Who finds no seat: each is seen to by a thread of its own, so that none that says nothing holds up another.
#[derive(Drop)]
pub(crate) struct Latecomers<R> {
    rt: R,
    desk: Arc<Mutex<Desk>, Global>,
    /// The board has ended.
    is_over: Arc<AtomicBool, Global>,
    anteroom: Arc<Anteroom, Global>,
}

impl<R: Threads + Wait + Clock + Copy + Drop + Send + Sync + 'static> Latecomers<R> {
    /// Those of a desk.
    pub(crate) fn new(
        rt: R,
        alloc: Global,
        desk: &Arc<Mutex<Desk>, Global>,
        is_over: &Arc<AtomicBool, Global>,
    ) -> Result<Latecomers<R>, AllocError> {
        Ok(Latecomers {
            rt,
            desk: Arc::try_clone(desk)?,
            is_over: Arc::try_clone(is_over)?,
            anteroom: Arc::new(alloc, Anteroom::new())?,
        })
    }

    /// Turns a connection away. Where too many are being turned away, it is answered at once, and closed.
    pub(crate) fn turn_away(&mut self, connection: Connection) {
        let (Ok(over), Ok(anteroom)) = (
            Arc::try_clone(&self.is_over),
            Arc::try_clone(&self.anteroom),
        ) else {
            return;
        };
        if !self.anteroom.enter(&self.rt) {
            return answer(connection.read);
        }
        let rt = self.rt;
        let begun = thread::spawn(
            &self.rt,
            move ||
                requires { IsSend R.row × IsSync R.row }
            {
                turn_away(&rt, connection.read, &over);
                anteroom.leave(&rt);
            },
        );
        if begun.is_err() {
            self.anteroom.leave(&self.rt);
        }
    }

    /// Turns a connection away that waits at the desk under this number, unless it has a seat within a second. Where
    /// too many are seen to, it is answered at once, and closed.
    pub(crate) fn see_to(&mut self, number: u64) {
        if !self.try_see_to(number) {
            let left = self.desk.lock(&self.rt).take_back(number);
            if let Some(connection) = left.and_then(Guest::into_connection) {
                answer(connection.read);
            }
        }
    }

    /// Sees to it, if a thread for that can be had.
    fn try_see_to(&mut self, number: u64) -> bool {
        let (Ok(desk), Ok(over), Ok(anteroom)) = (
            Arc::try_clone(&self.desk),
            Arc::try_clone(&self.is_over),
            Arc::try_clone(&self.anteroom),
        ) else {
            return false;
        };
        if !self.anteroom.enter(&self.rt) {
            return false;
        }
        let rt = self.rt;
        let begun = thread::spawn(
            &self.rt,
            move ||
                requires { IsSend R.row × IsSync R.row }
            {
                thread::sleep(&rt, patience());
                let left = desk.lock(&rt).seat_at_last(&rt, number);
                if let Some(connection) = left.and_then(Guest::into_connection) {
                    turn_away(&rt, connection.read, &over);
                }
                anteroom.leave(&rt);
            },
        );
        if begun.is_err() {
            self.anteroom.leave(&self.rt);
        }
        begun.is_ok()
    }

    /// Waits until nobody is seen to any more.
    pub(crate) fn end(self) {
        self.anteroom.wait_until_empty(&self.rt);
    }
}

/// Answers a connection that there is no seat, once its first byte is there, and closes it; one that says
/// nothing for a second is closed without.
fn turn_away<C: Clock>(clock: &C, stream: TcpStream, is_over: &AtomicBool) {
    let _ = stream.set_read_timeout(Some(Duration::from_secs(1)));
    let mut stream = stream;
    let mut first = [0u8; 1];
    if !matches!(stream.read(&mut first), Ok(1)) {
        return;
    }
    if stream.write_all(no_seat()).is_ok() && stream.shutdown(Shutdown::Write).is_ok() {
        read_what_stands_there(clock, &mut stream, is_over);
    }
}

/// Answers a connection that there is no seat, and closes it: nobody can wait for what it says.
fn answer(stream: TcpStream) {
    let mut stream = stream;
    let _ = stream.write_all(no_seat());
}

/// Reads what a connection still says, until the board has ended, for ten seconds at most: where bytes are left when
/// it is closed, the system takes the answer away.
fn read_what_stands_there<C: Clock>(clock: &C, stream: &mut TcpStream, is_over: &AtomicBool) {
    let Some(end) = end_of_parting(clock) else {
        return;
    };
    let mut piece = [0u8; 4096];
    for _piece in 0..PIECES {
        if is_over.load(Ordering::SeqCst) || !matches!(Instant::now(clock), Ok(now) if now < end) {
            return;
        }
        match stream.read(&mut piece) {
            Ok(0) | Err(_) => return,
            Ok(_) => {}
        }
    }
}

/// The time until which a connection is read that begins to be now.
fn end_of_parting<C: Clock>(clock: &C) -> Option<Instant> {
    Instant::now(clock).ok()?.checked_add(parting())
}
