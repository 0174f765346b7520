//! The turns of a relay whose seats are served.

ghost use Rattle.std.specs.Duration.{as_nanos};
ghost use Rattle.std.specs.Prelude.{◌≡◌, IfSome};
ghost use Rattle.relay_board.specs.declared.fault.TurnFault.TheVariants.{StoreFull};
ghost use Rattle.seat_server.specs.Turning.{IsTurned};

use crate::accept::Wake;
use crate::progress::Progress;
use relay_board::{Naming, Relay, Turn, TurnFault};
use std::sync::Wait;
use std::time::Duration;

/// How many turns in a row may fail.
const MOST_FAILED: u16 = 1000;

/// How long the relay rests at most where there is nothing to do: a second. Whatever there is to do wakes
/// it.
fn rest_when_idle() -> Duration
    ensures { as_nanos result ≡ 1_000_000_000 }
{
    Duration::from_millis(1000)
}

/// How long it rests after a turn that failed: a millisecond.
fn rest_when_failed() -> Duration
    ensures { as_nanos result ≡ 1_000_000 }
{
    Duration::from_millis(1)
}

/// Takes turns until the sessions are over, and rests where there is nothing to do. What is published is
/// announced to who waits for news. Where 1,000 turns in a row failed, the fault of the last one. Once a stream
/// or a thread could not be had, the relay is closed.
pub fn take_turns<J: Naming, R: Wait + Drop, H: Wait, W: Wake>(
    rt: &H,
    relay: &mut Relay<J, R>,
    progress: &Progress,
    wake: &W,
) -> Option<TurnFault>
    ensures same { (relay.new.made ≡ relay.old.made) × (relay.new.origin ≡ relay.old.origin) }
    ensures turned { IsTurned 1000 relay.old result relay.new }
    ensures full { IfSome result (λ fault. fault ≡ StoreFull → relay.new.stored ≡ relay.new.room) }
{
    let mut failed: u16 = 0;
    let mut closed = false;
    for _ in rt.forever() {
        match relay.turn() {
            Turn::Published(_) => {
                wake.announce();
                failed = 0;
            }
            Turn::Idle => {
                if progress.is_over() {
                    return None;
                }
                if progress.has_failed() && !closed {
                    relay.close();
                    closed = true;
                }
                relay.rest(rest_when_idle());
            }
            Turn::Failed(fault) => {
                failed = failed.saturating_add(1);
                if failed >= MOST_FAILED {
                    return Some(fault);
                }
                relay.rest(rest_when_failed());
            }
        }
    }
    unreachable!()
}
