//! The seat by which what a file has is put on the board.

ghost use Rattle.std.specs.Prelude.{◌≡◌, ◌+◌, ◌++◌, ◌∷◌, [], length, true, None, IfOk, IfErr, IfSome};
ghost use Rattle.board.specs.Learning.{HasLearnt};
ghost use Rattle.edit_stamps.specs.Edit.{has_states_below};
ghost use Rattle.inbox.specs.Counts.{counted};
ghost use Rattle.inbox.specs.Hands.{entry};
ghost use Rattle.relay_board.specs.Refusals.{BringRefuses, Lasts};
ghost use Rattle.relay_board.specs.Seating.{HasRead, IsSame};

use crate::fault::SubmitFault;
use crate::naming::Naming;
use crate::receipt::{Pending, Receipt};
use crate::seat::{Seat, is_under};
use edit_stamps::Edit;
use std::marker::Model;
use std::sync::Wait;

/// The file's seat: it brings edits of every replica, in the order of the file. Contracts see it as a seat.
#[derive(Drop)]
pub struct FileSeat<J: Naming> {
    seat: Seat<J>,
}

impl<J: Naming> Model for FileSeat<J> {
    ghost use Rattle.relay_board.specs.Seating.{Seating};

    ghost Value = { Seating };

    ghost use Rattle.std.specs.Prelude.{◌≡◌, None};

    ghost view = { λ f. f.seat };

    ghost invariant = { λ f. f.seat.floor ≡ None };
}

impl<J: Naming> FileSeat<J> {
    /// A seat as the file's. Its edits need not rise.
    pub fn of(seat: Seat<J>) -> FileSeat<J>
        requires { seat.floor ≡ None }
        ensures { result ≡ seat }
    {
        FileSeat { seat }
    }

    /// Puts an edit that the file has, of any replica and with any counter. It is handed back where it is
    /// refused: in this order a state that the rule does not have, a relay that takes no submission any more,
    /// want of memory, and an inbox that was full at one moment of the call.
    pub fn bring<R: Wait>(&mut self, rt: &R, edit: Edit) -> Result<Pending<J>, (Edit, SubmitFault)>
        ensures same { IsSame self.old self.new × (self.new.seen ≡ self.old.seen) × (self.new.handed ≡ self.old.handed) }
        ensures put { IfOk result (λ p. (p ≡ entry self.old.place (counted (length self.old.mine + 1)) edit) × (self.new.mine ≡ self.old.mine ++ p ∷ []) × (self.new.full ≡ self.old.full)) }
        ensures passes { IfOk result (λ _. has_states_below self.old.rule.states edit ≡ true) }
        ensures denied { IfErr result (λ r. (r.0 ≡ edit) × (self.new.mine ≡ self.old.mine)) }
        ensures refused { IfErr result (λ r. BringRefuses r.1 (has_states_below self.old.rule.states edit) self.old.full self.new.full (Lasts self.old.room self.old.place self.old.mine)) }
    {
        if !is_under(&edit, &self.seat.rule()) {
            return Err((edit, SubmitFault::StateRange));
        }
        self.seat.put(rt, edit)
    }

    /// Looks once for the receipt of that very edit. The pending comes back where nothing is there; it does not
    /// where the relay published nothing more before the look.
    pub fn try_receive<R: Wait>(
        &mut self,
        rt: &R,
        pending: Pending<J>,
    ) -> Result<Receipt<J>, Option<Pending<J>>>
        ensures receipt { IfOk result (λ r. r.entry ≡ pending) }
        ensures back { IfErr result (λ o. IfSome o (λ p. p ≡ pending)) }
        ensures same { self.new ≡ self.old }
    {
        self.seat.try_receive(rt, pending)
    }

    /// From now on it sees no less than the receipt's list. It never waits.
    pub fn learn(&mut self, receipt: &Receipt<J>)
        ensures same { HasRead self.old self.new × (self.new.handed ≡ self.old.handed) }
        ensures learnt { HasLearnt self.old.seen receipt.now.list self.new.seen }
    {
        self.seat.learn(receipt);
    }

    /// The seat.
    pub fn seat(&self) -> &Seat<J>
        ensures { result.now ≡ self.now }
    {
        &self.seat
    }

    /// How many of its edits were accepted; it stays at 2^64 - 1.
    pub fn accepted(&self) -> u64
        ensures { result ≡ counted (length self.now.mine) }
    {
        self.seat.accepted()
    }

    /// The seat again, for the relay's end.
    pub fn into_seat(self) -> Seat<J>
        ensures { result ≡ self }
    {
        let FileSeat { seat } = self;
        seat
    }
}
