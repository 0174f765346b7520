//! Seats that are served on threads of their own.

ghost use Rattle.std.specs.Prelude.{◌≡◌, ◌<◌, length, map, true, false, IfOk, IfErr, IfSome};
ghost use mathlib.Core.List.{IsPrefix};
ghost use Rattle.seat_server.specs.Faults.{IsAttendFault};
ghost use Rattle.seat_server.specs.Sessions.{AreServed, IsSeated};
ghost use Rattle.seat_server.specs.declared.fault.ServerFault.TheVariants.{Memory};

use crate::accept::{Accept, Streams, Wake};
use crate::fault::ServerFault;
use crate::progress::Progress;
use crate::sitting::{Attendant, Attended, attended};
use devices::{Sink, Source};
use relay_board::{Naming, Seat};
use session_service::Listen;
use std::alloc::Global;
use std::collections::VecDeque;
use std::marker::{Model, PhantomData};
use std::snapshot::Snapshot;
use std::sync::{Arc, Wait};
use std::thread;
use std::thread::{Promise, PromisedHandle, Threads};

/// That a thread serves a seat.
#[derive(Drop)]
pub(crate) struct SeatPromise<J: Naming> {
    pub(crate) seat: Snapshot<Seat<J>>,
}

impl<J: Naming> Promise<Attended<J>> for SeatPromise<J> {
    ghost use Rattle.seat_server.specs.Sessions.{IsSeated};

    ghost kept_by = { λ p r. IsSeated p.seat.value r.1 r.0 };
}

/// The thread of a seat.
pub(crate) type SeatThread<J> = PromisedHandle<Attended<J>, SeatPromise<J>>;

/// Seats that are served, each on a thread of its own. Contracts see the seats as they were before.
#[derive(Drop)]
pub struct Attendance<J: Naming> {
    pub(crate) threads: Vec<SeatThread<J>>,
    pub(crate) progress: Arc<Progress>,
}

impl<J: Naming> Model for Attendance<J> {
    ghost use Rattle.std.specs.Prelude.{List, map};
    ghost use Rattle.relay_board.specs.Seating.{Seating};

    ghost Value = { List Seating };

    ghost view = { λ a. map (λ h. h.promise.seat.value) a.threads.items };
}

impl<J: Naming> Attendance<J> {
    /// How far the server of these seats is.
    pub fn progress(&self) -> &Progress {
        &self.progress
    }

    /// Waits for the seats to be served no further, where no turn is taken any more: who waits at a chair is let
    /// go.
    pub fn dismiss<R: Threads, W: Wake>(self, rt: &R, wake: &W) {
        let Attendance { threads, progress } = self;
        progress.give_up(wake);
        let _ended = joined(rt, threads);
    }

    /// Waits for the seats to be served no further: each as its sessions left it, in order, and how the last of
    /// these ended. `Read` where a stream could not be had, and want of memory.
    pub fn ended<R: Threads>(self, rt: &R) -> Result<Vec<Attended<J>>, ServerFault>
        ensures served { IfOk result (λ v. AreServed self (map (λ a. a.1) v.items) (map (λ a. a.0) v.items)) }
        ensures fault { IfErr result IsAttendFault }
    {
        let Attendance { threads, progress } = self;
        let all = joined(rt, threads)?;
        if progress.has_failed() {
            return Err(ServerFault::Read);
        }
        Ok(all)
    }
}

/// Starts the thread of a seat. None where it could not be started.
fn begun<
    J: Naming + Send + 'static,
    R: Threads + Wait + Copy + Drop + Send + Sync + 'static,
    S: Source + Send + Drop + 'static,
    K: Sink + Send + Drop + 'static,
    E: Listen + Send + Drop + 'static,
    A: Accept<S, K, E> + Send + Drop + 'static,
>(rt: R, alloc: Global, attendant: Attendant<J, S, K, E, A>) -> Option<SeatThread<J>>
    ensures { IfSome result (λ h. h.promise.seat.value ≡ attendant.seat) }
{
    let promise = SeatPromise {
        seat: Snapshot::of(&attendant.seat),
    };
    let begun = thread::spawn_with(
        &rt,
        promise,
        move || -> Attended<J>
            ensures { IsSeated attendant.seat result.1 result.0 }
        { attended(rt, alloc, attendant) },
    );
    begun.ok()
}

/// Starts a thread for each seat, in order, each at the chair of its place. False where one could not be started.
fn begin_all<
    J: Naming + Send + 'static,
    R: Threads + Wait + Copy + Drop + Send + Sync + 'static,
    S: Source + Send + Drop + 'static,
    K: Sink + Send + Drop + 'static,
    E: Listen + Send + Drop + 'static,
    A: Accept<S, K, E> + Send + Drop + 'static,
    W: Wake,
>(
    rt: R,
    alloc: Global,
    progress: &Arc<Progress>,
    seats: Vec<Seat<J>>,
    streams: Streams<'_, A, W>,
) -> (Vec<SeatThread<J>>, bool)
    ensures { result.1 ≡ true → map (λ h. h.promise.seat.value) result.0.items ≡ seats.items }
{
    let Streams { chairs, wake } = streams;
    let mut threads = Vec::new(alloc);
    let mut left = VecDeque::from(seats);
    let mut chairs = VecDeque::from(chairs);
    while let Some(seat) = left.pop_front() {
        let (Some(chair), Ok(theirs)) = (chairs.pop_front(), Arc::try_clone(progress)) else {
            return (threads, false);
        };
        let attendant = Attendant {
            seat,
            chair,
            progress: theirs,
            of: PhantomData,
        };
        let Some(thread) = begun(rt, alloc, attendant) else {
            return (threads, false);
        };
        match threads.push(thread) {
            Ok(()) => {}
            Err(failed) => {
                wake.wake();
                failed.value.join(&rt);
                return (threads, false);
            }
        }
    }
    (threads, true)
}

/// Starts a thread for each seat, which serves it over the streams that its chair gives, one after another, until
/// no further one comes. `Read` where one could not be started; those that were are let go.
pub fn attending<
    J: Naming + Send + 'static,
    R: Threads + Wait + Copy + Drop + Send + Sync + 'static,
    S: Source + Send + Drop + 'static,
    K: Sink + Send + Drop + 'static,
    E: Listen + Send + Drop + 'static,
    A: Accept<S, K, E> + Send + Drop + 'static,
    W: Wake,
>(
    rt: R,
    alloc: Global,
    progress: Arc<Progress>,
    seats: Vec<Seat<J>>,
    streams: Streams<'_, A, W>,
) -> Result<Attendance<J>, ServerFault>
    ensures seats { IfOk result (λ a. a ≡ seats.items) }
    ensures fault { IfErr result IsAttendFault }
{
    let wake = streams.wake;
    let (threads, is_whole) = begin_all(rt, alloc, &progress, seats, streams);
    if !is_whole {
        wake.wake();
        let _ended = joined(&rt, threads);
        return Err(ServerFault::Read);
    }
    Ok(Attendance { threads, progress })
}

/// Waits for threads of seats to end. What came of them, in order, where there is memory for that.
fn joined<J: Naming, R: Threads>(
    rt: &R,
    threads: Vec<SeatThread<J>>,
) -> Result<Vec<Attended<J>>, ServerFault>
    ensures served { IfOk result (λ v. AreServed (map (λ h. h.promise.seat.value) threads.items) (map (λ a. a.1) v.items) (map (λ a. a.0) v.items)) }
    ensures want { IfErr result (λ fault. fault ≡ Memory) }
{
    match thread::join_promised(rt, threads) {
        Ok(all) => Ok(all),
        Err(failed) => {
            for thread in failed.value {
                thread.join(rt);
            }
            Err(ServerFault::Memory)
        }
    }
}
