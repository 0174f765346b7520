//! An inbox and the ends that tests put into.

ghost use Rattle.std.specs.Prelude.{◌≡◌, ◌<◌};
ghost use Rattle.crossbeam_queue.specs.Passes.{view};
ghost use Rattle.board.specs.Origins.{origin};
ghost use Rattle.board.specs.Sights.{label_of};

use crate::drawn::{brians_brain, drawn};
use board::{Front, History};
use generations_rule::Rule;
use inbox::{Drain, Post, Refused};
use std::alloc::Global;
use std::sync::Wait;

/// A seat's end, with what its submissions are for.
#[derive(Drop)]
pub struct Sender {
    pub post: Post,
    front: Front,
    rule: Rule,
    alloc: Global,
    pub ghost label: { label_of (origin front) ≡ (view post.pass).label },
    pub ghost ruled: { rule.states ≡ front.states },
}

/// What came of a put.
#[derive(Clone, Copy, Debug, PartialEq, Eq)]
pub enum Put {
    Accepted,
    /// The edit of this counter came back.
    Refused(u64, Refused),
    /// There was no edit to put.
    Nothing,
}

impl Sender {
    fn new(post: Post, front: Front, rule: Rule, alloc: Global) -> Sender
        requires label { label_of (origin front) ≡ (view post.pass).label }
        requires ruled { rule.states ≡ front.states }
    {
        Sender {
            post,
            front,
            rule,
            alloc,
        }
    }

    /// Puts the edit with this counter, whose replica is the seat's number.
    pub fn put<R: Wait>(&mut self, rt: &R, counter: u64) -> Put {
        let replica = if self.post.seat == 0 { 1 } else { 2 };
        let Some(edit) = drawn(self.alloc, &self.rule, counter, replica, 0) else {
            return Put::Nothing;
        };
        match self.post.put(rt, self.alloc, &self.front, edit) {
            Ok(_) => Put::Accepted,
            Err((edit, refused)) => Put::Refused(edit.stamp().counter(), refused),
        }
    }
}

/// An inbox with two seats.
#[derive(Drop)]
pub struct Inbox {
    pub drain: Drain,
    pub one: Sender,
    pub two: Sender,
}

/// An inbox under `/2/3` with so much room.
pub fn open_inbox(alloc: Global, room: usize) -> Option<Inbox>
    requires { 0 < room }
{
    let rule = brians_brain()?;
    let (_history, prefix) = History::new();
    let front = Front::first(prefix, rule.states());
    let mut drain = Drain::new(alloc, room, &front).ok()?;
    let one = drain.post(0).ok()?;
    let two = drain.post(1).ok()?;
    Some(Inbox {
        drain,
        one: Sender::new(one, front.again(), rule, alloc),
        two: Sender::new(two, front, rule, alloc),
    })
}
