//! The turns of a keeper whose seats are served.

ghost use Rattle.std.specs.Duration.{as_nanos};
ghost use Rattle.std.specs.Prelude.{◌≡◌, ◌≤◌, IfSome};
ghost use Rattle.board_keeper.specs.Turns.{FailsBy};
ghost use Rattle.kept_server.specs.Running.{Runs};

use crate::outages::Outages;
use board_keeper::{KeepFault, Keeper, KeeperTurn};
use kept_devices::Keep;
use relay_board::Naming;
use seat_server::{Progress, Wake};
use std::sync::Wait;
use std::time::Duration;

/// How many turns in a row may fail for want of room, or of memory once all sessions have ended.
const MOST_FAILED: u16 = 1000;

/// How long the keeper rests at most where there is nothing to do: a second. Whatever there is to do wakes it.
fn rest_when_idle() -> Duration
    ensures { as_nanos result ≡ 1_000_000_000 }
{
    Duration::from_millis(1000)
}

/// How long it rests after so many turns in a row that failed: a millisecond for each, a second at most. A full
/// store stays full, so that no longer rest helps it.
fn rest_when_failed(fault: KeepFault, failed: u16) -> Duration
    ensures { as_nanos result ≤ 1_000_000_000 }
{
    match fault {
        KeepFault::StoreFull => Duration::from_millis(1),
        KeepFault::Memory | KeepFault::Write => Duration::from_millis(u64::from(failed.min(1000))),
    }
}

/// Whether a fault ends the turns: the file's at once, that of a full store when so many turns in a row failed,
/// and want of memory then only if nobody waits any more.
fn is_last(fault: KeepFault, failed: u16, progress: &Progress) -> bool {
    match fault {
        KeepFault::Write => true,
        KeepFault::StoreFull => failed >= MOST_FAILED,
        KeepFault::Memory => failed >= MOST_FAILED && progress.is_over(),
    }
}

/// Takes turns until the sessions are over, and rests where there is nothing to do. What is published is
/// announced to who waits for news. Where no turn is taken any more, the fault of the last one. Once a stream or
/// a thread could not be had, the relay is closed.
pub(crate) fn take_kept_turns<J: Naming, R: Wait + Drop, K: Keep, H: Wait, W: Wake + Outages<K>>(
    rt: &H,
    keeper: &mut Keeper<J, R, K>,
    progress: &Progress,
    wake: &W,
) -> Option<KeepFault>
    ensures same { (keeper.new.relay.made ≡ keeper.old.relay.made) × (keeper.new.relay.origin ≡ keeper.old.relay.origin) × (keeper.new.rule ≡ keeper.old.rule) }
    ensures run { Runs keeper.old keeper.new }
    ensures fault { IfSome result (λ fault. FailsBy fault keeper.new) }
{
    let mut failed: u16 = 0;
    let mut closed = false;
    // For the proof alone: the call tells what a crash leaves now.
    let _file = keeper.keep();
    for _ in rt.forever() {
        match keeper.turn() {
            KeeperTurn::Published(_) => {
                wake.announce();
                failed = 0;
            }
            KeeperTurn::Idle => {
                if progress.is_over() {
                    return None;
                }
                if progress.has_failed() && !closed {
                    keeper.close();
                    closed = true;
                }
                keeper.rest(rest_when_idle());
            }
            KeeperTurn::Failed(fault) => {
                failed = failed.saturating_add(1);
                if is_last(fault, failed, progress) {
                    return Some(fault);
                }
                if failed == 1 && fault == KeepFault::Memory {
                    wake.memory_wanted();
                }
                keeper.rest(rest_when_failed(fault, failed));
            }
        }
    }
    unreachable!()
}
