//! A server of a kept board.

ghost use Rattle.std.specs.Prelude.{◌≡◌, ◌+◌, ◌++◌, ◌∷◌, [], ℕ, length, map, true, IfOk, IfErr};
ghost use Rattle.board.specs.Origins.{list_of};
ghost use Rattle.board_keeper.specs.Keeping.{bodies_in, Keeping};
ghost use Rattle.board_keeper.specs.Steps.{AreSteps};
ghost use Rattle.kept_log.specs.Kept.{Keeps};
ghost use Rattle.relay_board.specs.Closing.{IsWhole};
ghost use Rattle.relay_board.specs.Seating.{Numbered};
ghost use Rattle.seat_server.specs.Sessions.{AreServed};
ghost use Rattle.kept_server.specs.Running.{ClosesNow, IsAmid, Runs};
ghost use Rattle.kept_server.specs.Serving.{IsCloseReason, IsKeptReason, IsServedBeside, IsTurnReason};

use crate::fault::{KeptFault, end_fault, kept_fault};
use crate::outages::Outages;
use crate::turns::take_kept_turns;
use board_keeper::{KeepFault, Keeper};
use kept_devices::Keep;
use kept_log::Log;
use relay_board::{FileSeat, Naming, Seat};
use seat_server::{Attendance, Attended, Finished, SessionEnd, Wake, parted};
use std::alloc::{AllocError, Global};
use std::sync::Wait;
use std::thread::Threads;

/// What is left of a kept board: how its sessions ended and its account, and the file.
pub type KeptEnd<D> = (Finished, Log<D>);

/// A keeper that comes back closed, and its seats as their sessions left them.
type Over<J, R, D> = (Keeper<J, R, D>, Vec<Attended<J>>);

/// The seats of a kept board that are served, and behind them the file's.
#[derive(Drop)]
pub struct KeptAttendance<J: Naming> {
    pub attendance: Attendance<J>,
    pub file: FileSeat<J>,
}

/// Takes the turns of a keeper while its seats are served; at the end how their last sessions ended, the account,
/// and the file, which has just what was published.
///
/// Want of memory on the way is waited out, and told once. `Keep(Write)` where the file failed: the submissions
/// that waited are refused, further ones too, what was published can be read still, and the sessions are served
/// to their end. `Keep(StoreFull)` where 1,000 turns in a row found no room. `Read`, where a stream could not be
/// had, `Finish` and `Memory` as of a board that is not kept. The file comes back with each.
pub fn serve_kept<J: Naming, R: Threads + Wait + Drop, D: Keep, W: Wake + Outages<D>>(
    rt: &R,
    alloc: Global,
    keeper: Keeper<J, R, D>,
    seats: KeptAttendance<J>,
    wake: &W,
) -> Result<KeptEnd<D>, (KeptFault, Log<D>)>
    requires all { keeper.relay.made ≡ length seats.attendance + 1 }
    requires order { Numbered 0 seats.attendance }
    requires last { seats.file.place ≡ length seats.attendance }
    ensures served { IfOk result (λ e. IsServedBeside keeper.relay.origin seats.attendance seats.file e.0) }
    ensures file { IfOk result (λ e. Keeps (bodies_in keeper.rule (list_of e.0.account.front)) (D.known e.1.keep)) }
    ensures run { IfOk result (λ e. (b : Keeping) × Runs keeper b × (b.relay.list ≡ list_of e.0.account.front) × (b.file ≡ D.known e.1.keep)) }
    ensures reason { IfErr result (λ e. (b : Keeping) × Runs keeper b × (b.file ≡ D.known e.1.keep) × IsKeptReason seats.attendance seats.file e.0 b) }
{
    let KeptAttendance { attendance, file } = seats;
    match turned(rt, keeper, attendance, wake) {
        Err(refused) => Err(refused),
        Ok((keeper, attended)) => closed(rt, alloc, keeper, attended, file),
    }
}

/// Takes turns until the sessions are over, and closes the keeper.
fn turned<J: Naming, R: Threads + Wait + Drop, D: Keep, W: Wake + Outages<D>>(
    rt: &R,
    keeper: Keeper<J, R, D>,
    attendance: Attendance<J>,
    wake: &W,
) -> Result<Over<J, R, D>, (KeptFault, Log<D>)>
    ensures run { IfOk result (λ o. IsAmid keeper o.0 × (o.0.relay.closed ≡ true)) }
    ensures attended { IfOk result (λ o. AreServed attendance (map (λ a. a.1) o.1.items) (map (λ a. a.0) o.1.items)) }
    ensures reason { IfErr result (λ e. (b : Keeping) × Runs keeper b × (b.file ≡ D.known e.1.keep) × IsTurnReason e.0 b) }
{
    let mut keeper = keeper;
    match take_kept_turns(rt, &mut keeper, attendance.progress(), wake) {
        Some(KeepFault::Write) => {
            refuse(&mut keeper, wake);
            attendance.dismiss(rt, wake);
            Err((KeptFault::Keep(KeepFault::Write), keeper.into_log()))
        }
        Some(fault) => {
            let log = keeper.into_log();
            attendance.dismiss(rt, wake);
            Err((KeptFault::Keep(fault), log))
        }
        None => {
            keeper.close();
            match attendance.ended(rt) {
                Ok(attended) => Ok((keeper, attended)),
                Err(fault) => Err((kept_fault(fault), keeper.into_log())),
            }
        }
    }
}

/// Refuses what waits for the file and what comes yet, and tells that it failed.
fn refuse<J: Naming, R: Wait + Drop, D: Keep, W: Outages<D>>(keeper: &mut Keeper<J, R, D>, wake: &W)
    ensures { ClosesNow keeper.old keeper.new }
{
    keeper.cease();
    wake.file_failed(keeper.keep());
}

/// The seats of a board, the file's behind the others, and how the last sessions of these ended.
fn all_seats<J: Naming>(
    alloc: Global,
    attended: Vec<Attended<J>>,
    file: FileSeat<J>,
) -> Result<(Vec<Seat<J>>, Vec<Option<SessionEnd>>), AllocError>
    ensures seats { IfOk result (λ p. p.0.items ≡ map (λ a. a.0) attended.items ++ file ∷ []) }
    ensures ends { IfOk result (λ p. p.1.items ≡ map (λ a. a.1) attended.items) }
{
    let (mut seats, ends) = parted(alloc, attended)?;
    seats.push(file.into_seat())?;
    Ok((seats, ends))
}

/// Ends a closed keeper whose seats were served: the account, and the file.
fn closed<J: Naming, R: Wait + Drop, D: Keep, H: Wait>(
    rt: &H,
    alloc: Global,
    keeper: Keeper<J, R, D>,
    attended: Vec<Attended<J>>,
    file: FileSeat<J>,
) -> Result<KeptEnd<D>, (KeptFault, Log<D>)>
    requires closed { keeper.relay.closed ≡ true }
    requires all { keeper.relay.made ≡ length (map (λ a. a.0) attended.items) + 1 }
    requires order { Numbered 0 (map (λ a. a.0) attended.items) }
    requires last { file.place ≡ length (map (λ a. a.0) attended.items) }
    ensures ends { IfOk result (λ e. e.0.ends ≡ map (λ a. a.1) attended.items) }
    ensures whole { IfOk result (λ e. IsWhole keeper.relay.origin keeper.relay.list (list_of e.0.account.front) (map (λ a. a.0) attended.items ++ file ∷ []) e.0.account) }
    ensures file { IfOk result (λ e. Keeps (bodies_in keeper.rule (list_of e.0.account.front)) (D.known e.1.keep)) }
    ensures drained { IfOk result (λ e. (b : Keeping) × ((steps : ℕ) × AreSteps steps keeper b) × (b.relay.list ≡ list_of e.0.account.front) × (b.file ≡ D.known e.1.keep)) }
    ensures reason { IfErr result (λ e. (b : Keeping) × ((steps : ℕ) × AreSteps steps keeper b) × (b.file ≡ D.known e.1.keep) × IsCloseReason (map (λ a. a.0) attended.items ++ file ∷ []) e.0 b) }
{
    let Ok((seats, ends)) = all_seats(alloc, attended, file) else {
        return Err((KeptFault::Memory, keeper.into_log()));
    };
    match keeper.finish(rt, alloc, seats) {
        Ok((account, log)) => Ok((Finished::of(ends, account), log)),
        Err((keeper, _, fault)) => Err((end_fault(fault), keeper.into_log())),
    }
}
