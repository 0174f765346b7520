//! A server of seats.

ghost use Rattle.std.specs.Prelude.{◌≡◌, length, map, true, IfOk, IfErr};
ghost use mathlib.Core.List.{IsPrefix};
ghost use Rattle.board.specs.Origins.{list_of};
ghost use Rattle.relay_board.specs.Closing.{IsWhole};
ghost use Rattle.relay_board.specs.Seating.{Numbered};
ghost use Rattle.seat_server.specs.Serving.{GoesOnFrom, IsServed};
ghost use Rattle.seat_server.specs.Faults.{IsCloseFault, IsReason};

use crate::accept::Wake;
use crate::fault::ServerFault;
use crate::seats::Attendance;
use crate::sitting::{Attended, SessionEnd};
use crate::turns::take_turns;
use relay_board::{Account, Naming, Relay, Seat};
use std::alloc::{AllocError, Global};
use std::collections::VecDeque;
use std::marker::Model;
use std::sync::Wait;
use std::thread::Threads;

/// How the last session of each seat ended, in the order of the seats, and the account of the board.
#[derive(Drop)]
pub struct Finished {
    ends: Vec<Option<SessionEnd>>,
    account: Account,
}

impl Model for Finished {
    ghost use Rattle.seat_server.specs.Serving.{FinishedValue};

    ghost Value = { FinishedValue };

    ghost view = { λ f. record { ends = f.ends.items; account = f.account } };
}

impl Finished {
    /// How the last session of each seat ended, in the order of the seats, and the account of their board.
    pub fn of(ends: Vec<Option<SessionEnd>>, account: Account) -> Finished
        ensures { result ≡ record { ends = ends.items; account = account } }
    {
        Finished { ends, account }
    }

    /// How the last session of each seat ended, if there was any, in the order of the seats.
    pub fn ends(&self) -> &[Option<SessionEnd>]
        ensures { result.now ≡ self.now.ends }
    {
        &self.ends
    }

    /// The account of the board.
    pub fn account(&self) -> &Account
        ensures { result.now ≡ self.now.account }
    {
        &self.account
    }
}

/// The seats, and how their last sessions ended.
pub fn parted<J: Naming>(
    alloc: Global,
    attended: Vec<Attended<J>>,
) -> Result<(Vec<Seat<J>>, Vec<Option<SessionEnd>>), AllocError>
    ensures seats { IfOk result (λ p. p.0.items ≡ map (λ a. a.0) attended.items) }
    ensures ends { IfOk result (λ p. p.1.items ≡ map (λ a. a.1) attended.items) }
{
    let mut seats = Vec::new(alloc);
    let mut ends = Vec::new(alloc);
    let mut left = VecDeque::from(attended);
    while let Some((seat, end)) = left.pop_front() {
        seats.push(seat)?;
        ends.push(end)?;
    }
    Ok((seats, ends))
}

/// The account of a closed relay, whose seats have been served.
fn closed<J: Naming, R: Wait + Drop>(
    alloc: Global,
    relay: Relay<J, R>,
    attended: Vec<Attended<J>>,
) -> Result<Finished, ServerFault>
    requires closed { relay.closed ≡ true }
    requires all { relay.made ≡ length (map (λ a. a.0) attended.items) }
    requires order { Numbered 0 (map (λ a. a.0) attended.items) }
    ensures ends { IfOk result (λ f. f.ends ≡ map (λ a. a.1) attended.items) }
    ensures whole { IfOk result (λ f. IsWhole relay.origin relay.list (list_of f.account.front) (map (λ a. a.0) attended.items) f.account) }
    ensures fault { IfErr result (IsCloseFault relay (map (λ a. a.0) attended.items)) }
{
    let (seats, ends) = parted(alloc, attended)?;
    match relay.finish(alloc, seats) {
        Ok(account) => Ok(Finished { ends, account }),
        Err((_, _, fault)) => Err(ServerFault::Finish(fault)),
    }
}

/// Takes the turns of a relay while its seats are served; at the end how their last sessions ended, and the account.
///
/// `Read` where a stream could not be had: the relay is closed then, and the sessions that had begun are served to
/// their end. No clause tells of that, nor of want of memory. `Turn` where 1,000 turns in a row failed: the relay is
/// dropped, `wake` is called so that nobody waits for a further stream, and the sessions are served to their end.
/// `Finish` where all seats were served, and the closed relay did not finish with them.
pub fn serve_seats<J: Naming, R: Threads + Wait + Drop, W: Wake>(
    rt: &R,
    alloc: Global,
    mut relay: Relay<J, R>,
    attendance: Attendance<J>,
    wake: &W,
) -> Result<Finished, ServerFault>
    requires all { relay.made ≡ length attendance }
    requires order { Numbered 0 attendance }
    ensures served { IfOk result (λ f. IsServed relay.origin attendance f) }
    ensures stays { IfOk result (λ f. IsPrefix relay.list (list_of f.account.front)) }
    ensures goes_on { IfOk result (λ f. GoesOnFrom 1000 relay (list_of f.account.front)) }
    ensures reason { IfErr result (IsReason 1000 relay attendance) }
{
    if let Some(fault) = take_turns(rt, &mut relay, attendance.progress(), wake) {
        drop(relay);
        attendance.dismiss(rt, wake);
        return Err(ServerFault::Turn(fault));
    }
    relay.close();
    let attended = attendance.ended(rt)?;
    closed(alloc, relay, attended)
}
