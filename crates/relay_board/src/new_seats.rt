//! The seats of a board that has published nothing yet.

ghost use Rattle.std.specs.Prelude.{◌≡◌, ◌≢◌, ◌≤◌, ◌+◌, [], length, IfOk, IfErr};
ghost use Rattle.std.specs.Arc.{arc_value};
ghost use Rattle.crossbeam_queue.specs.Passes.{view, ruled_capacity};
ghost use Rattle.board.specs.Sights.{label_of};
ghost use Rattle.relay_board.specs.Seating.{AllFresh, fresh};
ghost use Rattle.relay_board.specs.Seats.{IsSameDrain};

use crate::door::Door;
use crate::fault::StartFault;
use crate::naming::Naming;
use crate::seat::Seat;
use board::{BoardReader, Publisher};
use generations_rule::Rule;
use inbox::Drain;
use std::alloc::Global;
use std::marker::PhantomData;
use std::sync::Arc;

/// What the seats of a board have in common, and the number of the first of them.
#[derive(Clone, Copy)]
pub(crate) struct SeatPlan {
    pub(crate) alloc: Global,
    pub(crate) rule: Rule,
    pub(crate) first: u16,
}

/// One seat more, which has seen nothing and put nothing.
fn seated<J: Naming>(
    plan: &SeatPlan,
    publisher: &mut Publisher,
    drain: &mut Drain,
    door: &Arc<Door, Global>,
    place: u16,
) -> Result<Seat<J>, StartFault>
    requires place { (view drain.old.pass).made ≡ place }
    requires empty { (publisher.old.list ≡ []) × (publisher.old.announced ≡ []) }
    requires rule { plan.now.rule.states ≡ publisher.old.origin.states }
    requires named { (publisher.old.origin ≡ J.origin) × ((arc_value drain.old.queue).table.shared.table_id ≡ J.inbox) × ((view drain.old.pass).label ≡ label_of J.origin) }
    ensures publisher { publisher.new ≡ publisher.old }
    ensures drain { IsSameDrain drain.old drain.new }
    ensures made { IfOk result (λ s. (view drain.new.pass).made ≡ place + 1) }
    ensures fresh { IfOk result (λ s. s ≡ fresh plan.now.first place plan.now.rule (ruled_capacity (arc_value drain.old.queue))) }
    ensures err { IfErr result (λ f. f ≢ StartFault.Size) }
{
    let door = Arc::try_clone(door)?;
    let Ok(window) = publisher.window() else {
        return Err(StartFault::NoPlace);
    };
    let post = drain.post(u64::from(place))?;
    Ok(Seat {
        alloc: plan.alloc,
        rule: plan.rule,
        // The file's seat may stand behind the greatest number. Nobody asks its own.
        number: plan.first.saturating_add(place),
        floor: None,
        newest: 0,
        reader: BoardReader::new(plan.alloc, window),
        post,
        door,
        of: PhantomData,
    })
}

/// So many seats, in the order of their places.
pub(crate) fn seats<J: Naming>(
    plan: &SeatPlan,
    publisher: &mut Publisher,
    drain: &mut Drain,
    door: &Arc<Door, Global>,
    count: u16,
) -> Result<Vec<Seat<J>>, StartFault>
    requires number { ((view drain.old.pass).made ≡ 0) × (count ≤ 65) }
    requires empty { (publisher.old.list ≡ []) × (publisher.old.announced ≡ []) }
    requires rule { plan.now.rule.states ≡ publisher.old.origin.states }
    requires named { (publisher.old.origin ≡ J.origin) × ((arc_value drain.old.queue).table.shared.table_id ≡ J.inbox) × ((view drain.old.pass).label ≡ label_of J.origin) }
    ensures publisher { publisher.new ≡ publisher.old }
    ensures drain { IsSameDrain drain.old drain.new }
    ensures seats { IfOk result (λ v. AllFresh plan.now.first plan.now.rule (ruled_capacity (arc_value drain.old.queue)) 0 v.items × (length v.items ≡ count) × ((view drain.new.pass).made ≡ count)) }
    ensures err { IfErr result (λ f. f ≢ StartFault.Size) }
{
    let mut seats = Vec::new(plan.alloc);
    for place in 0..count {
        let next = seated(plan, publisher, drain, door, place)?;
        seats.push(next)?;
    }
    Ok(seats)
}
