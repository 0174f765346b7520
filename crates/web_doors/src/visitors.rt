//! Visitors, each on a thread of its own: a browser opens connections on which it says nothing for a while.

ghost use denote.Param.Send.{IsSend, IsSync};

use crate::anteroom::Anteroom;
use crate::fault::VisitFault;
use crate::front::Front;
use crate::seating::{SeatVisitor, Seating};
use crate::visited::{Visited, tell_no_seat, visit};
use devices::WriteSink;
use std::alloc::{AllocError, Global};
use std::net::TcpStream;
use std::sync::{Arc, Wait};
use std::thread;
use std::thread::Threads;
use std::time::{Clock, Duration, Instant};
use web_streams::Timed;

/// How many visitors are seen to at once, at most.
pub const VISITORS: usize = 128;

/// For how long a head is waited for.
fn patience() -> Duration {
    Duration::from_secs(10)
}

/// How long a visit takes at most, with its answer.
fn longest() -> Duration {
    Duration::from_secs(30)
}

/// What the threads of visitors share.
#[derive(Drop)]
struct Hall<S> {
    front: Front,
    seating: S,
    anteroom: Anteroom,
}

/// Those who come to a web port.
#[derive(Drop)]
pub struct Visitors<R, S> {
    rt: R,
    alloc: Global,
    hall: Arc<Hall<S>, Global>,
}

impl<
    R: Threads + Wait + Clock + Copy + Drop + Send + Sync + 'static,
    S: Seating + Drop + Send + Sync + 'static,
> Visitors<R, S> {
    /// Those who find a front, and what gives seats.
    pub fn new(
        rt: R,
        alloc: Global,
        front: Front,
        seating: S,
    ) -> Result<Visitors<R, S>, AllocError> {
        let anteroom = Anteroom::new(alloc, VISITORS)?;
        let hall = Hall {
            front,
            seating,
            anteroom,
        };
        let Ok(hall) = Arc::new(alloc, hall) else {
            return Err(AllocError);
        };
        Ok(Visitors { rt, alloc, hall })
    }

    /// Sees to a visitor, on a thread. Where 128 are seen to, or the system or memory refuses a thread, the connection is
    /// closed at once.
    pub fn receive(&self, stream: TcpStream) {
        let (Ok(held), Ok(hall)) = (stream.try_clone(), Arc::try_clone(&self.hall)) else {
            return;
        };
        let Some(at) = self.hall.anteroom.enter(&self.rt, held) else {
            return;
        };
        let rt = self.rt;
        let alloc = self.alloc;
        let begun = thread::spawn(
            &self.rt,
            move ||
                requires { IsSend R.row × IsSync R.row }
            {
                see_to(&rt, alloc, stream, &hall.front, &hall.seating);
                hall.anteroom.leave(&rt, at);
            },
        );
        if begun.is_err() {
            self.hall.anteroom.leave(&self.rt, at);
        }
    }

    /// Sees to nobody more: who is being seen to is let go, and waited for.
    pub fn end(self) {
        self.hall.anteroom.close(&self.rt);
    }
}

/// Sees to a visitor.
fn see_to<C: Clock, S: Seating>(
    clock: &C,
    alloc: Global,
    stream: TcpStream,
    front: &Front,
    seating: &S,
) {
    match visited(clock, alloc, &stream, front) {
        Ok(Visited::Seat(request, behind)) => {
            let visitor = SeatVisitor {
                stream,
                request,
                behind,
            };
            if let Err(visitor) = seating.seat(visitor) {
                let _ = turn_away(clock, alloc, &visitor);
            }
        }
        Ok(Visited::Gone | Visited::Told) | Err(_) => {}
    }
}

/// Hears a visitor and answers, each in its time.
fn visited<C: Clock>(
    clock: &C,
    alloc: Global,
    stream: &TcpStream,
    front: &Front,
) -> Result<Visited, VisitFault> {
    let end = after(clock, longest())?;
    let mut reader = Timed::new(stream, clock, after(clock, patience())?);
    let mut sink = WriteSink::new(Timed::new(stream, clock, end));
    let visited = visit(alloc, &mut reader, &mut sink, front)?;
    if matches!(visited, Visited::Told) {
        let _ = Timed::new(stream, clock, end).say_last(&[]);
    }
    Ok(visited)
}

/// Tells a visitor that no seat is left.
fn turn_away<C: Clock>(clock: &C, alloc: Global, visitor: &SeatVisitor) -> Result<(), VisitFault> {
    let end = after(clock, longest())?;
    let mut sink = WriteSink::new(Timed::new(&visitor.stream, clock, end));
    tell_no_seat(alloc, &mut sink, &visitor.request)?;
    let _ = Timed::new(&visitor.stream, clock, end).say_last(&[]);
    Ok(())
}

/// The time when so long has passed.
fn after<C: Clock>(clock: &C, time: Duration) -> Result<Instant, VisitFault> {
    match Instant::now(clock) {
        Ok(now) => now.checked_add(time).ok_or(VisitFault::Unheard),
        Err(_) => Err(VisitFault::Unheard),
    }
}
