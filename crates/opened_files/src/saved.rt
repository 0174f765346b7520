//! Boards that were saved.

ghost use Rattle.std.specs.Prelude.{◌≡◌, ◌⊎◌, ◌<◌, ◌^◌, IfErr, IfOk, Ok, Err, false};
ghost use Rattle.square_store.specs.Limits.{usual_room};
ghost use Rattle.stamped_writes.specs.Write.{Writes};
ghost use Rattle.delta_exchange.specs.Fault.{IsWantOrFull};
ghost use Rattle.delta_exchange.specs.Room.{IsMapTooLargeFor};
ghost use Rattle.delta_exchange.specs.State.{IsTellableMap};
ghost use Rattle.delta_exchange.specs.Versions.{IsReadableStateText};
ghost use Rattle.delta_exchange.specs.MessageReading.{MayWantRoom, begins_as_delta, message_of};
ghost use Rattle.opened_files.specs.Saved.{IsSaved};

use delta_exchange::{ReadFault, read_within};
use edit_stamps::counter_of;
use generations_rule::Rule;
use keyed_hash::HashKey;
use pattern_cells::Cell;
use stamped_tree::Limits;
use std::alloc::Global;

/// What is drawn again of a board that was saved.
#[derive(Debug, Drop)]
pub struct Saved {
    /// Its cells that are not dead, sorted by `y`, then `x`.
    pub cells: Vec<Cell>,
    /// The greatest counter of a write, 0 where there is none.
    pub counter: u64,
}

/// The board of a text that begins as a state (`GLWS`), under a rule; or the text's first fault. `Memory` is
/// want of it; `StoreFull` is told where the map is too large for a plane of 2^26 squares. By the key the
/// squares of that plane are found.
pub fn saved_in(alloc: Global, rule: &Rule, key: HashKey, text: &[u8]) -> Result<Saved, ReadFault>
    requires { begins_as_delta text.now ≡ Ok false }
    ensures saved { IfOk result (λ saved. IsSaved rule.now text.now saved.cells.items saved.counter) }
    ensures small { IfOk result (λ saved. saved.counter < 2 ^ 48) }
    ensures fault { IfErr result (λ fault. IsWantOrFull fault ⊎ (message_of rule.now text.now ≡ Err fault)) }
    ensures full { IfErr result (λ fault. fault ≡ ReadFault.StoreFull → MayWantRoom usual_room text.now) }
    ensures too_large { IfErr result (λ fault. (meant : Writes) → IsTellableMap rule.now.states meant → IsReadableStateText rule.now meant text.now → fault ≡ ReadFault.StoreFull → IsMapTooLargeFor usual_room meant) }
{
    let message = match read_within(alloc, rule, text, Limits::of_key(key)) {
        Ok(message) => message,
        Err(fault) => return Err(fault),
    };
    let Some(plane) = message.plane() else {
        unreachable!()
    };
    match plane.walk() {
        Ok(cells) => Ok(Saved {
            cells,
            counter: counter_of(plane.greatest_stamp()),
        }),
        Err(_) => Err(ReadFault::Memory),
    }
}
