//! The hub over a seat.

ghost use Rattle.std.specs.Prelude.{◌≡◌};
ghost use Rattle.seat_hub.specs.Refusals.{hub_fault_of_submit, hub_fault_of_seat};

use edit_stamps::Edit;
use generations_rule::Rule;
use poll_news::News;
use relay_board::{Naming, Seat, SeatFault, SubmitFault};
use session_hub::{Hub, HubFault};
use stamped_tree::Plane;
use std::sync::Wait;

/// A seat as a hub: a push submits, receives and learns. It keeps the handle by which a push waits.
#[derive(Drop)]
pub struct SeatHub<J: Naming, R: Wait + Drop> {
    seat: Seat<J>,
    rt: R,
}

impl<J: Naming, R: Wait + Drop> SeatHub<J, R> {
    /// The hub over a seat. It takes no memory.
    pub fn new(seat: Seat<J>, rt: R) -> SeatHub<J, R>
        ensures { result.seat ≡ seat }
    {
        SeatHub { seat, rt }
    }

    /// The seat as it is.
    pub fn into_seat(self) -> Seat<J>
        ensures { result ≡ self.seat }
    {
        let SeatHub { seat, rt: _ } = self;
        seat
    }
}

impl<J: Naming, R: Wait + Drop> Hub for SeatHub<J, R> {
    ghost use Rattle.seat_hub.specs.SeatCalls.{IsSeatCall};

    ghost rule_of = { λ h. h.seat.rule };

    ghost number_of = { λ h. h.seat.number };

    ghost allows = { λ a call b. IsSeatCall a.seat call b.seat };

    fn rule(&self) -> Rule {
        self.seat.rule()
    }

    fn number(&self) -> u16 {
        self.seat.number()
    }

    fn push(&mut self, edit: Edit) -> Result<(), HubFault> {
        match self.seat.submit(&self.rt, edit) {
            Err((_, fault)) => Err(refused_submission(fault)),
            Ok(pending) => match self.seat.receive(&self.rt, pending) {
                Err(_) => Err(HubFault::Closed),
                Ok(receipt) => {
                    // For the proof alone: the entry stands in the receipt's list.
                    let _place = receipt.place();
                    self.seat.learn(&receipt);
                    Ok(())
                }
            },
        }
    }

    fn poll(&mut self) -> Result<News, HubFault> {
        match self.seat.poll() {
            Err(fault) => Err(refused_read(fault)),
            Ok(news) => Ok(news),
        }
    }

    fn has_news(&self) -> bool {
        self.seat.has_news()
    }

    fn hand_out(&mut self) -> Result<(Plane, u64), HubFault> {
        match self.seat.hand_out() {
            Err(fault) => Err(refused_read(fault)),
            Ok(given) => Ok(given),
        }
    }

    fn plane(&mut self) -> Result<Plane, HubFault> {
        match self.seat.plane() {
            Err(fault) => Err(refused_read(fault)),
            Ok(plane) => Ok(plane),
        }
    }
}

/// Why an edit is not taken, as the hub tells it.
fn refused_submission(fault: SubmitFault) -> HubFault
    ensures { result ≡ hub_fault_of_submit fault }
{
    match fault {
        SubmitFault::NotYours => HubFault::NotYours,
        SubmitFault::StateRange => HubFault::StateRange,
        SubmitFault::OldStamp => HubFault::OldStamp,
        SubmitFault::Closed => HubFault::Closed,
        SubmitFault::Full => HubFault::Full,
        SubmitFault::Memory => HubFault::Memory,
    }
}

/// Why a seat does not read, as the hub tells it.
fn refused_read(fault: SeatFault) -> HubFault
    ensures { result ≡ hub_fault_of_seat fault }
{
    match fault {
        SeatFault::Closed => HubFault::Closed,
        SeatFault::Memory => HubFault::Memory,
    }
}
