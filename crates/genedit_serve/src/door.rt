//! The door: takes each connection that comes, and gives it a seat.

ghost use denote.Param.Send.{IsSend, IsSync};
ghost use Rattle.std.specs.Prelude.{IfErr};
ghost use Rattle.seat_server.specs.Faults.{IsAttendFault};

use crate::connections::{Connection, accepted, knock, pause};
use crate::desk::Received;
use crate::guest::Guest;
use crate::house::{House, Manners};
use crate::latecomers::Latecomers;
use seat_server::{Progress, ServerFault};
use std::alloc::Global;
use std::net::{Net, SocketAddr, TcpListener};
use std::sync::atomic::{AtomicBool, Ordering};
use std::sync::{Arc, Wait};
use std::thread;
use std::thread::{JoinHandle, Threads};
use std::time::Clock;

/// What a door leads to.
#[derive(Drop)]
pub(crate) struct Entrance {
    pub(crate) listener: TcpListener,
    pub(crate) house: House,
    pub(crate) progress: Arc<Progress>,
    pub(crate) manners: Manners,
}

/// The thread at the door.
#[derive(Drop)]
pub(crate) struct Doorkeeper {
    is_over: Arc<AtomicBool, Global>,
    local: SocketAddr,
    thread: JoinHandle<()>,
}

impl Doorkeeper {
    /// Starts it. `Read` where the system refuses the thread, or does not tell where the listener is.
    pub(crate) fn start<R: Net + Threads + Wait + Clock + Copy + Drop + Send + Sync + 'static>(
        rt: R,
        alloc: Global,
        entrance: Entrance,
    ) -> Result<Doorkeeper, ServerFault>
        ensures { IfErr result IsAttendFault }
    {
        let Ok(local) = entrance.listener.local_addr() else {
            return Err(ServerFault::Read);
        };
        let is_over = Arc::new(alloc, AtomicBool::new(false))?;
        let theirs = Arc::try_clone(&is_over)?;
        let latecomers = Latecomers::new(rt, alloc, &entrance.house.desk, &is_over)?;
        let begun = thread::spawn(
            &rt,
            move ||
                requires { IsSend R.row × IsSync R.row }
            { keep_door(rt, &entrance, latecomers, &theirs) },
        );
        match begun {
            Ok(thread) => Ok(Doorkeeper {
                is_over,
                local,
                thread,
            }),
            Err(_) => Err(ServerFault::Read),
        }
    }

    /// Ends it: a last connection lets it look up.
    pub(crate) fn end<R: Threads + Net + Clock>(self, rt: &R) {
        self.is_over.store(true, Ordering::SeqCst);
        knock(rt, self.local);
        self.thread.join(rt);
    }
}

/// Gives each connection that comes a seat, until the board is over. Where no seat is free, it waits for one where
/// seats come back, and else is turned away. Where the system gives no connection, it is asked again where seats come
/// back, or each seat has had one; else nobody more is seated, and the server is told.
fn keep_door<R: Threads + Wait + Clock + Copy + Drop + Send + Sync + 'static>(
    rt: R,
    entrance: &Entrance,
    latecomers: Latecomers<R>,
    is_over: &AtomicBool,
) {
    let mut latecomers = latecomers;
    for _ in rt.forever() {
        let came = next_connection(&rt, entrance, is_over);
        if is_over.load(Ordering::SeqCst) {
            return latecomers.end();
        }
        match came {
            Some(connection) => receive(&rt, entrance, &mut latecomers, connection),
            None => {
                if entrance.house.desk.lock(&rt).has_fresh() {
                    fail(&rt, entrance);
                    return latecomers.end();
                }
                thread::sleep(&rt, pause());
            }
        }
    }
    unreachable!()
}

/// No connection can be had: nobody more is seated, and the server is told.
fn fail<R: Wait>(rt: &R, entrance: &Entrance) {
    entrance.house.desk.lock(rt).close();
    entrance.progress.fail();
}

/// Gives a connection a seat; where none is free, has it wait for one, or turns it away.
fn receive<R: Threads + Wait + Clock + Copy + Drop + Send + Sync + 'static>(
    rt: &R,
    entrance: &Entrance,
    latecomers: &mut Latecomers<R>,
    connection: Connection,
) {
    let guest = Guest::Frames(connection);
    let received = if entrance.manners.comes_back {
        entrance.house.desk.lock(rt).seat_or_wait(rt, guest)
    } else {
        match entrance.house.desk.lock(rt).seat(rt, guest) {
            Ok(()) => Received::Seated,
            Err(guest) => Received::Back(guest),
        }
    };
    match received {
        Received::Seated => {}
        Received::Waits(number) => latecomers.see_to(number),
        Received::Back(guest) => {
            if let Some(connection) = guest.into_connection() {
                latecomers.turn_away(connection);
            }
        }
    }
}

/// The next connection. Where seats come back it is the next that can be had, however long that takes: a system that has
/// no descriptor left has some again once others have ended. None where it cannot be had, or the board is over.
fn next_connection<R: Wait + Clock>(
    rt: &R,
    entrance: &Entrance,
    is_over: &AtomicBool,
) -> Option<Connection> {
    let mut stream = None;
    for _ in rt.forever() {
        let tried = match stream {
            Some(stream) => Some(stream),
            None => accepted(&entrance.listener),
        };
        stream = match tried {
            None => None,
            Some(stream) => match Connection::of(stream, entrance.manners.is_held) {
                Ok(connection) => return Some(connection),
                Err(back) => Some(back),
            },
        };
        if !entrance.manners.comes_back || is_over.load(Ordering::SeqCst) {
            return None;
        }
        thread::sleep(rt, pause());
    }
    unreachable!()
}
