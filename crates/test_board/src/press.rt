//! A board, on which tests publish.

ghost use Rattle.std.specs.Prelude.{◌≡◌, ◌<◌, ◌^◌, IfOk, true};
ghost use Rattle.board.specs.Origins.{origin};
ghost use Rattle.edit_stamps.specs.Edit.{has_states_below};

use crate::drawn::{brians_brain, drawn};
use board::{BoardReader, Entry, Front, Publisher};
use generations_rule::Rule;
use keyed_hash::HashKey;
use std::alloc::Global;
use std::sync::Wait;

/// A publisher under `/2/3` of which all that was announced is published. Its drop ends the board.
pub struct Press<R: Wait + Drop> {
    pub publisher: Publisher,
    rule: Rule,
    alloc: Global,
    rt: R,
    pub ghost rests: { publisher.announced ≡ publisher.list },
    pub ghost ruled: { rule.states ≡ publisher.origin.states },
}

impl<R: Wait + Drop> Drop for Press<R> {
    fn drop(self) {
        let Self {
            publisher,
            rule: _,
            alloc: _,
            rt,
        } = self;
        publisher.end(&rt);
    }
}

/// Publishes an entry, or ends the board.
fn published<R: Wait>(
    rt: &R,
    mut publisher: Publisher,
    entry: Entry,
) -> Result<Publisher, &'static str>
    requires rests { publisher.announced ≡ publisher.list }
    requires below { has_states_below publisher.origin.states entry.edit ≡ true }
    ensures rests { IfOk result (λ p. p.announced ≡ p.list) }
    ensures origin { IfOk result (λ p. p.origin ≡ publisher.origin) }
{
    if publisher.announce(entry).is_err() {
        publisher.end(rt);
        return Err("announced");
    }
    let (publisher, done) = publisher.show(rt);
    match done {
        Ok(()) => Ok(publisher),
        Err(_) => {
            publisher.end(rt);
            Err("shown")
        }
    }
}

impl<R: Wait + Drop> Press<R> {
    pub fn new(rt: R, alloc: Global, readers: usize) -> Result<Press<R>, &'static str>
        requires { (0 < readers) × (readers < 2 ^ 32) }
    {
        let rule = brians_brain().ok_or("rule")?;
        match Publisher::new(&rt, alloc, rule.states(), readers, HashKey::fixed()) {
            Ok(publisher) => Ok(Press {
                publisher,
                rule,
                alloc,
                rt,
            }),
            Err(_) => Err("publisher"),
        }
    }

    /// A reader that has seen what is published.
    pub fn reader(&mut self) -> Result<BoardReader, &'static str>
        ensures same { self.new.publisher.origin ≡ self.old.publisher.origin }
        ensures origin { IfOk result (λ r. origin r.window.front ≡ self.old.publisher.origin) }
    {
        match self.publisher.window() {
            Ok(window) => Ok(BoardReader::new(self.alloc, window)),
            Err(_) => Err("window"),
        }
    }

    pub fn front(&self) -> Front
        ensures { origin result ≡ self.now.publisher.origin }
    {
        self.publisher.front()
    }

    /// Publishes the edit of replica 1 with this counter, which writes a cell of row 0.
    pub fn publish(self, counter: u64, x: i32) -> Result<Press<R>, &'static str>
        ensures { IfOk result (λ press. press.publisher.origin ≡ self.publisher.origin) }
    {
        let Self {
            publisher,
            rule,
            alloc,
            rt,
        } = self;
        let Some(edit) = drawn(alloc, &rule, counter, 1, x) else {
            publisher.end(&rt);
            return Err("edit");
        };
        let entry = Entry {
            seat: 0,
            number: counter,
            edit,
        };
        match published(&rt, publisher, entry) {
            Ok(publisher) => Ok(Press {
                publisher,
                rule,
                alloc,
                rt,
            }),
            Err(why) => Err(why),
        }
    }
}

/// Publishes edits with the counters from one number to before another, each at a cell of its own.
pub fn publish_all<R: Wait + Drop>(
    mut press: Press<R>,
    from: u16,
    to: u16,
) -> Result<Press<R>, &'static str>
    ensures { IfOk result (λ after. after.publisher.origin ≡ press.publisher.origin) }
{
    for i in from..to {
        press = press.publish(u64::from(i), i32::from(i))?;
    }
    Ok(press)
}
