//! Edits in doubt, and how they are drawn anew.

ghost use Rattle.std.specs.Prelude.{◌≡◌, ℕ, IfOk, IsTrue};
ghost use Rattle.edit_stamps.specs.Edit.{has_states_below};
ghost use Rattle.edit_stamps.specs.PlaneMap.{IsGreatestStamp};
ghost use Rattle.edit_stamps.specs.Stamp.{counter_in};
ghost use Rattle.replica_core.specs.Replica.{IsMadeAs, stamp_after};
ghost use Rattle.stamped_tree.specs.Plane.{map_of};
ghost use Rattle.board_client.specs.Anew.{IsAnewSaid, SaysAnew, doubt_behind, drawn_anew};
ghost use Rattle.board_client.specs.Drawing.{IsPublishingEnd};

use crate::fault::ClientFault;
use crate::publishing::{Drawing, Saying};
use crate::pushed::Pushed;
use crate::pushing::Pushing;
use crate::server::Server;
use devices::{Sink, Source};
use edit_stamps::{Edit, Stamp, counter_of};
use replica_core::{Fault, Replica};
use std::alloc::Global;
use std::time::Clock;

impl<'a, C: Clock, S: Source + Drop, K: Sink + Drop> Server<'a, C, S, K> {
    /// `end_drawing`, which leaves the edit in doubt where no answer came to its push, or none that is one: whether
    /// the board has it is told by what the board hands out later.
    pub fn end_or_doubt(
        &mut self,
        replica: &mut Replica,
        doubt: &mut Option<Pushed>,
        pushed: Pushed,
    ) -> Result<Drawing, ClientFault>
        requires { pushed.rule ≡ replica.old.rule }
        ensures ends { IsPublishingEnd pushed.edit self.old self.new replica.old replica.new result }
        ensures doubt { doubt.new ≡ doubt_behind pushed doubt.old result }
    {
        match self.end_push(pushed.request()) {
            Ok(Pushing::Refused(number)) => Ok(Drawing::Unpublished(number)),
            Ok(Pushing::Done) => self.take_own(replica, pushed),
            Err(fault) => {
                *doubt = Some(pushed);
                Err(fault)
            }
        }
    }

    /// Says the push of an edit in doubt that a board does not have, with the stamp that a drawing of the replica
    /// would have now: so no stamp stands for two edits. Nothing is heard: `end_or_doubt` hears the answer. Refused
    /// are an edit of another rule, and a full clock.
    pub fn say_anew(&mut self, replica: &Replica, doubted: &Pushed) -> Result<Saying, ClientFault>
        ensures { IsAnewSaid doubted.now self.old self.new replica.now result }
    {
        if !doubted.is_of(&replica.rule()) {
            return Ok(Saying::Refused(Fault::OtherRule));
        }
        self.say_restamped(replica, doubted)
    }

    /// The same of an edit of the replica's rule.
    fn say_restamped(&mut self, replica: &Replica, doubted: &Pushed) -> Result<Saying, ClientFault>
        requires { doubted.now.rule ≡ replica.now.rule }
        ensures { SaysAnew doubted.now self.old self.new replica.now result }
    {
        match restamped(self.alloc(), replica, doubted.edit()) {
            Ok(edit) => self.say_push(&replica.rule(), edit),
            Err(Fault::Memory) => Err(ClientFault::Memory),
            Err(fault) => Ok(Saying::Refused(fault)),
        }
    }
}

/// An edit's area and cells, with the stamp of a replica's next drawing. Refused is a full clock; want of memory is
/// answered only where it is not.
fn restamped(alloc: Global, replica: &Replica, edit: &Edit) -> Result<Edit, Fault>
    ensures made { (n : ℕ) × IsGreatestStamp n (map_of replica.now.plane) × IsMadeAs (drawn_anew (counter_in n) replica.now.number edit.now) result }
    ensures states { IfOk result (λ again. (states : ℕ) → IsTrue (has_states_below states edit.now) → IsTrue (has_states_below states again)) }
{
    let stamp = next_stamp(replica)?;
    // What is known of a stamp is known of the edit: the call tells that it is in range.
    let _in_range = stamp.number();
    match Vec::from_slice(alloc, edit.listed_cells()) {
        Ok(cells) => Ok(Edit::of_parts(stamp, edit.area(), cells)),
        Err(_) => Err(Fault::Memory),
    }
}

/// The stamp of a replica's next drawing, unless the clock is full.
fn next_stamp(replica: &Replica) -> Result<Stamp, Fault>
    ensures { (n : ℕ) × IsGreatestStamp n (map_of replica.now.plane) × (result ≡ stamp_after (counter_in n) replica.now.number) }
{
    let greatest = counter_of(replica.plane().greatest_stamp());
    if greatest >= Stamp::LAST_COUNTER {
        return Err(Fault::ClockFull);
    }
    Stamp::new(greatest + 1, replica.number()).ok_or(Fault::ClockFull)
}
