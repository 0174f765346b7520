//! What a client shows of its replica as it is.

ghost use Rattle.std.specs.Prelude.{◌≡◌, ◌++◌, OnErr, OnOk};
ghost use mathlib.Core.List.{IsPrefix};
ghost use Rattle.generations_rule.specs.Place.{at_place};
ghost use Rattle.stamped_tree.specs.Plane.{map_of};
ghost use Rattle.replica_core.specs.declared.event.Reply.TheVariants.{Shown};
ghost use Rattle.genedit_lib.specs.Output.{reply_line};
ghost use Rattle.client_session.specs.Moment.{BreaksOff, Prints};

use crate::client::Client;
use devices::{Sink, Source};
use genedit_lib::push_line;
use replica_core::Reply;
use std::alloc::AllocError;
use std::time::Clock;

impl<'a, C: Clock, S: Source + Drop, K: Sink + Drop> Client<'a, C, S, K> {
    /// Prints `cell S C R`: state, counter and replica of the write at a coordinate, as `genedit run` does.
    /// Nothing is polled.
    pub fn show(&mut self, x: i32, y: i32) -> Result<(), AllocError>
        ensures told { OnOk result (Prints (reply_line (Shown (map_of self.old.workspace.replica.plane (at_place x y)))) self.old self.new) }
        ensures kept { OnErr result (BreaksOff self.old self.new) }
    {
        let shown = Reply::Shown(self.workspace.replica.get(x, y));
        push_line(self.server.alloc(), &mut self.out, &shown)
    }
}
