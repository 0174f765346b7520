//! Drawings, and edits that are published.

ghost use Rattle.std.specs.Prelude.{◌≡◌, IsTrue, IfErr, IfOk, Ok};
ghost use Rattle.edit_stamps.specs.Edit.{has_states_below};
ghost use Rattle.board_client.specs.Drawing.{IsDrawing, IsOwnTaken, IsPublishingEnd};
ghost use Rattle.board_client.specs.Pushing.{push_bytes};
ghost use Rattle.board_client.specs.Saying.{IsDrawingSaid, SaysPush};

use crate::fault::ClientFault;
use crate::own::Own;
use crate::pushed::Pushed;
use crate::pushing::Pushing;
use crate::server::Server;
use client_protocol::{Asking, request_body};
use delta_exchange::write_delta;
use devices::{Sink, Source};
use edit_stamps::Edit;
use generations_rule::Rule;
use message_frames::Framed;
use replica_core::{Fault, Replica};
use replica_events::EditSpec;
use std::alloc::Global;
use std::slice;
use std::time::Clock;

/// What came of a drawing.
#[derive(Clone, Copy, Debug, PartialEq, Eq)]
pub enum Drawing {
    /// The board has the edit, by this counter, and the replica took it.
    Drawn(u64),
    /// There is no such edit; nothing was pushed.
    Refused(Fault),
    /// The push was refused, by a number of the table of faults that is not 0, and the replica is as it was.
    /// After 30 the board may have the edit or not.
    Unpublished(u8),
}

/// What came of a drawing whose push was to be said.
#[derive(Drop)]
pub enum Saying {
    /// The push of this edit was said.
    Said(Pushed),
    /// There is no such edit; nothing was said.
    Refused(Fault),
}

impl<'a, C: Clock, S: Source + Drop, K: Sink + Drop> Server<'a, C, S, K> {
    /// Draws what a replica would draw of what it holds, with a counter above a given one too, and has it
    /// published: only where the board has the edit does the replica take it. So it wins each cell that the
    /// replica holds, and all that was drawn elsewhere up to that counter.
    pub fn draw(
        &mut self,
        replica: &mut Replica,
        after: u64,
        spec: &EditSpec,
    ) -> Result<Drawing, ClientFault>
        ensures { IsDrawing after spec.now self.old self.new replica.old replica.new result }
    {
        match self.say_drawing(replica, after, spec) {
            Ok(Saying::Said(pushed)) => self.end_drawing(replica, pushed),
            Ok(Saying::Refused(fault)) => Ok(Drawing::Refused(fault)),
            Err(fault) => Err(fault),
        }
    }

    /// Makes the edit of a drawing, and says its push; nothing is heard. So a drawing goes out while a reply is
    /// still to come: that is heard first, and then `end_drawing` hears the push's answer.
    pub fn say_drawing(
        &mut self,
        replica: &Replica,
        after: u64,
        spec: &EditSpec,
    ) -> Result<Saying, ClientFault>
        ensures { IsDrawingSaid after spec.now self.old self.new replica.now result }
    {
        match replica.edit_of(after, spec) {
            Ok(edit) => self.say_push(&replica.rule(), edit),
            Err(Fault::Memory) => Err(ClientFault::Memory),
            Err(fault) => Ok(Saying::Refused(fault)),
        }
    }

    /// Says the push of an edit.
    pub(crate) fn say_push(&mut self, rule: &Rule, edit: Edit) -> Result<Saying, ClientFault>
        requires { IsTrue (has_states_below rule.now.states edit) }
        ensures { SaysPush rule.now (Ok edit) self.old self.new result }
    {
        let request = match push_request(self.alloc, rule, &edit) {
            Ok(request) => request,
            Err(fault) => return Err(fault),
        };
        match self.say(&request) {
            Ok(()) => Ok(Saying::Said(Pushed::new(*rule, edit, request))),
            Err(fault) => Err(fault),
        }
    }

    /// Hears the answer to a drawing whose push was said, and has a replica take the edit where the board has
    /// it. Where the board's inbox is full, or memory was wanted, the same bytes are pushed again, as in `push`.
    pub fn end_drawing(
        &mut self,
        replica: &mut Replica,
        pushed: Pushed,
    ) -> Result<Drawing, ClientFault>
        requires { pushed.rule ≡ replica.old.rule }
        ensures { IsPublishingEnd pushed.edit self.old self.new replica.old replica.new result }
    {
        match self.end_push(pushed.request()) {
            Ok(Pushing::Refused(number)) => Ok(Drawing::Unpublished(number)),
            Ok(Pushing::Done) => self.take_own(replica, pushed),
            Err(fault) => Err(fault),
        }
    }

    /// Has a replica take an edit that the board has.
    pub(crate) fn take_own(
        &mut self,
        replica: &mut Replica,
        pushed: Pushed,
    ) -> Result<Drawing, ClientFault>
        requires { pushed.rule ≡ replica.old.rule }
        ensures line { self.new ≡ self.old }
        ensures taken { IsOwnTaken pushed.edit replica.old replica.new result }
    {
        let place = replica.journal().len();
        match replica.take_edits(slice::from_ref(pushed.edit())) {
            Ok(()) => {
                let counter = pushed.edit().stamp().counter();
                self.keep_own(Own { pushed, place });
                Ok(Drawing::Drawn(counter))
            }
            Err(fault) => Err(ClientFault::Text(fault)),
        }
    }
}

/// The request that an edit be published. The only error is want of memory: no edit's text is too long for
/// a frame.
fn push_request(alloc: Global, rule: &Rule, edit: &Edit) -> Result<Framed, ClientFault>
    ensures ok { IfOk result (λ request. request ≡ push_bytes rule.now edit.now) }
    ensures err { IfErr result (λ fault. fault ≡ ClientFault.Memory) }
{
    let Ok(text) = write_delta(alloc, rule, slice::from_ref(edit)) else {
        return Err(ClientFault::Memory);
    };
    match request_body(alloc, Asking::Push(&text)) {
        Ok(request) => Ok(request),
        Err(_) => Err(ClientFault::Memory),
    }
}
