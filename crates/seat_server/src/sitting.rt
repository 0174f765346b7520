//! Sessions over a seat, one after another.

ghost use Rattle.std.specs.Prelude.{◌≡◌};
ghost use Rattle.seat_server.specs.Sessions.{IsFirstVisit, IsSeated, IsUnusedSink, IsUnusedSource, IsVisit, VisitValue};
ghost use Rattle.relay_board.specs.Seating.{again};

use crate::accept::{Accept, Ends};
use crate::progress::Progress;
use devices::{Sink, Source};
use frame_service::{ServeFault, Served};
use relay_board::{Naming, Seat};
use replica_sessions::Session;
use seat_hub::SeatHub;
use session_service::{Listen, serve};
use std::alloc::Global;
use std::marker::PhantomData;
use std::sync::{Arc, Wait};
use std::thread::Threads;

/// How a session ended.
pub type SessionEnd = Result<Served, ServeFault>;

/// A seat as its sessions left it, and how the last of them ended, if there was any.
pub type Attended<J> = (Seat<J>, Option<SessionEnd>);

/// Serves one session over a seat and a stream: the seat as it is then, and how the session ended.
fn serve_one<J: Naming, R: Threads + Wait + Sync + Copy + Drop, S: Source, K: Sink, E: Listen>(
    rt: R,
    alloc: Global,
    seat: Seat<J>,
    ends: &mut Ends<S, K, E>,
) -> (Seat<J>, SessionEnd)
    ensures { IsVisit seat (record { source = S.known ends.old.source; source' = S.known ends.new.source; from = K.known ends.old.sink; to = K.known ends.new.sink; end = result.1 }) result.0 }
{
    let mut session = Session::new(rt, alloc, SeatHub::new(seat, rt));
    let end = serve(
        &mut ends.source,
        &mut ends.sink,
        &mut session,
        &mut ends.ears,
    );
    (session.into_hub().into_seat(), end)
}

/// Serves a seat over a stream of its own, and lets the stream go. Nothing counts as handed out of it then.
fn attend<
    J: Naming,
    R: Threads + Wait + Sync + Copy + Drop,
    S: Source + Drop,
    K: Sink + Drop,
    E: Listen + Drop,
>(rt: R, alloc: Global, seat: Seat<J>, mut ends: Ends<S, K, E>) -> (Seat<J>, SessionEnd)
    requires source { IsUnusedSource (S.known ends.source) }
    requires sink { IsUnusedSink (K.known ends.sink) }
    ensures { (v : VisitValue) × (mid : _) × IsFirstVisit seat v mid × (v.end ≡ result.1) × (result.0 ≡ again mid) }
{
    let (mut left, end) = serve_one(rt, alloc, seat, &mut ends);
    left.again();
    (left, end)
}

/// Serves a seat over one stream after another, until no further one comes or the relay gave up.
fn attend_all<
    J: Naming,
    R: Threads + Wait + Sync + Copy + Drop,
    S: Source + Drop,
    K: Sink + Drop,
    E: Listen + Drop,
    A: Accept<S, K, E> + Drop,
>(rt: R, alloc: Global, progress: &Progress, seat: Seat<J>, mut chair: A) -> Attended<J>
    ensures { IsSeated seat result.1 result.0 }
{
    let mut left = seat;
    let mut last = None;
    for _ in rt.forever() {
        let Some(ends) = chair.accept() else {
            return (left, last);
        };
        if progress.has_given_up() {
            return (left, last);
        }
        let (next, end) = attend(rt, alloc, left, ends);
        left = next;
        last = Some(end);
    }
    unreachable!()
}

/// A seat and its chair, for the thread that serves the one over the streams of the other.
#[derive(Drop)]
pub(crate) struct Attendant<J: Naming, S, K, E, A> {
    pub(crate) seat: Seat<J>,
    pub(crate) chair: A,
    pub(crate) progress: Arc<Progress>,
    /// The ends of the chair's streams.
    pub(crate) of: PhantomData<(S, K, E)>,
}

/// Serves a seat over the streams of its chair, and lets the relay know when it is served no further.
pub(crate) fn attended<
    J: Naming,
    R: Threads + Wait + Sync + Copy + Drop,
    S: Source + Drop,
    K: Sink + Drop,
    E: Listen + Drop,
    A: Accept<S, K, E> + Drop,
>(rt: R, alloc: Global, attendant: Attendant<J, S, K, E, A>) -> Attended<J>
    ensures { IsSeated attendant.seat result.1 result.0 }
{
    let Attendant {
        seat,
        chair,
        progress,
        of: _,
    } = attendant;
    let attended = attend_all(rt, alloc, &progress, seat, chair);
    progress.leave();
    attended
}
