//! What a submission gives, and what it is answered with, under the name of its board.

ghost use Rattle.std.specs.Prelude.{◌≡◌, IfOk};
ghost use Rattle.crossbeam_channel.specs.Claims.{view};
ghost use Rattle.relay_board.specs.Receiving.{receiving};

use crate::naming::Naming;
use receipts::NoAnswer;
use std::marker::{Model, PhantomData};
use std::sync::Wait;

/// That an entry was published, in a list of the board that the type names. Contracts see the entry and the list.
#[derive(Drop)]
pub struct Receipt<J: Naming> {
    answer: receipts::Answer,
    of: PhantomData<J>,
}

impl<J: Naming> Model for Receipt<J> {
    ghost use Rattle.relay_board.specs.Receiving.{Receiving};

    ghost Value = { Receiving };

    ghost use Rattle.std.specs.Prelude.{◌≡◌};
    ghost use Rattle.relay_board.specs.Receiving.{receiving};
    ghost use Rattle.board.specs.Origins.{origin};

    ghost view = { λ r. receiving r.answer };

    ghost invariant = { λ r. origin r.answer.front ≡ J.origin };
}

/// A submission that is not answered yet. Contracts see its entry.
#[derive(Drop)]
pub struct Pending<J: Naming> {
    inner: receipts::Pending,
    of: PhantomData<J>,
}

impl<J: Naming> Model for Pending<J> {
    ghost use Rattle.board.specs.declared.entry.Entry.{Entry};

    ghost Value = { Entry };

    ghost use Rattle.std.specs.Prelude.{◌≡◌};
    ghost use Rattle.crossbeam_channel.specs.Claims.{view as claim};
    ghost use Rattle.board.specs.Sights.{origin_in};

    ghost view = { λ p. (claim p.inner.pass).entry };

    ghost invariant = { λ p. origin_in (claim p.inner.pass).label ≡ J.origin };
}

impl<J: Naming> Receipt<J> {
    ghost use Rattle.std.specs.Prelude.{Some, slice_get};
    ghost use Rattle.board.specs.Origins.{origin, list_of};

    /// A receipt under the name of its board.
    pub(crate) fn new(answer: receipts::Answer) -> Receipt<J>
        requires { origin answer.front ≡ J.origin }
        ensures { result ≡ receiving answer }
    {
        Receipt {
            answer,
            of: PhantomData,
        }
    }

    /// The receipt's list, which has its entry.
    pub(crate) fn answer(&self) -> &receipts::Answer
        ensures value { receiving result.now ≡ self.now }
        ensures origin { origin result.now.front ≡ J.origin }
    {
        &self.answer
    }

    /// The entry's place in its list, from 0: it stands there.
    pub fn place(&self) -> u64
        ensures { slice_get self.now.list result ≡ Some self.now.entry }
    {
        self.answer.at
    }
}

impl<J: Naming> Pending<J> {
    ghost use Rattle.board.specs.Sights.{origin_in};

    /// A pending under the name of its board.
    pub(crate) fn new(inner: receipts::Pending) -> Pending<J>
        requires { origin_in (view inner.pass).label ≡ J.origin }
        ensures { result ≡ (view inner.pass).entry }
    {
        Pending {
            inner,
            of: PhantomData,
        }
    }

    /// Looks once for the receipt. It takes no memory.
    pub(crate) fn try_receive<R: Wait>(&mut self, rt: &R) -> Result<Receipt<J>, NoAnswer>
        ensures receipt { IfOk result (λ r. r.entry ≡ self.old) }
        ensures same { self.new ≡ self.old }
    {
        match self.inner.try_receive(rt) {
            Ok(answer) => Ok(Receipt::new(answer)),
            Err(none) => Err(none),
        }
    }

    /// Sleeps until the answer was sent, and for a millisecond at most. It takes no memory.
    pub(crate) fn rest<R: Wait>(&self, rt: &R) {
        self.inner.rest(rt);
    }
}
