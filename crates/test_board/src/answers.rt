//! Receipts: one answer for each submission.

ghost use Rattle.std.specs.Prelude.{◌≡◌, ◌∷◌, [], IfSome, true};
ghost use Rattle.crossbeam_channel.specs.Claims.{view};
ghost use Rattle.crossbeam_queue.specs.Passes.{view as view_of};
ghost use Rattle.edit_stamps.specs.Edit.{has_states_below};
ghost use Rattle.board.specs.Origins.{origin, list_of};
ghost use Rattle.board.specs.Sights.{label_of};
ghost use Rattle.inbox.specs.Books.{label_in};
ghost use Rattle.receipts.specs.About.{told_by, known_by};

use crate::drawn::{brians_brain, drawn};
use board::{Entry, Front, Publisher};
use edit_stamps::Edit;
use inbox::{Drain, Submission};
use keyed_hash::HashKey;
use receipts::{Answer, Answering, Pending, open};
use std::alloc::Global;
use std::sync::Wait;

/// The front of a new board once an entry is published. The board ends.
fn published<R: Wait>(rt: &R, mut publisher: Publisher, entry: Entry) -> Option<Front>
    requires empty { (publisher.list ≡ []) × (publisher.announced ≡ []) }
    requires below { has_states_below publisher.origin.states entry.edit ≡ true }
    ensures list { IfSome result (λ front. list_of front ≡ entry ∷ []) }
    ensures origin { IfSome result (λ front. origin front ≡ publisher.origin) }
{
    if publisher.announce(entry).is_err() {
        publisher.end(rt);
        return None;
    }
    let (publisher, done) = publisher.show(rt);
    match done {
        Ok(()) => {
            let front = publisher.front();
            publisher.end(rt);
            Some(front)
        }
        Err(_) => {
            publisher.end(rt);
            None
        }
    }
}

/// A channel for an entry, and the answer once a board has published that entry.
#[derive(Drop)]
struct Channel {
    answering: Answering,
    pending: Pending,
    answer: Answer,
    ghost of: { told_by answer ≡ known_by (view answering.pass) },
}

/// The channel for the first entry of a new board.
fn opened<R: Wait>(rt: &R, alloc: Global, counter: u64) -> Option<Channel> {
    let rule = brians_brain()?;
    let edit = drawn(alloc, &rule, counter, 1, 0)?;
    let entry = Entry {
        seat: 0,
        number: 1,
        edit,
    };
    let Ok(publisher) = Publisher::new(rt, alloc, rule.states(), 1, HashKey::fixed()) else {
        return None;
    };
    let ends = open(alloc, &entry, &publisher.front());
    let front = published(rt, publisher, entry)?;
    let Ok((answering, pending)) = ends else {
        return None;
    };
    Some(Channel {
        answering,
        pending,
        answer: Answer { at: 0, front },
    })
}

/// At which place of a list an answer stands, and how long the list is; None where there is no answer.
type Found = Option<(u64, u64)>;

fn looked<R: Wait>(rt: &R, pending: &mut Pending) -> Found {
    let answer = pending.try_receive(rt).ok()?;
    Some((answer.at, answer.front.len()))
}

/// What is found at two ends before the second is answered, behind that, and once more, when the other
/// end of the first was dropped.
fn looks<R: Wait>(rt: &R, alloc: Global) -> Option<[[Found; 2]; 3]> {
    let Channel {
        answering: unanswered,
        pending: mut waiting,
        answer: _,
    } = opened(rt, alloc, 1)?;
    let Channel {
        answering,
        mut pending,
        answer,
    } = opened(rt, alloc, 2)?;
    pending.rest(rt);
    let early = [looked(rt, &mut waiting), looked(rt, &mut pending)];
    answering.answer(rt, answer);
    pending.rest(rt);
    let there = [looked(rt, &mut waiting), looked(rt, &mut pending)];
    drop(unanswered);
    waiting.rest(rt);
    let late = [looked(rt, &mut waiting), looked(rt, &mut pending)];
    Some([early, there, late])
}

#[test]
fn an_answer_comes_once_and_at_its_end(rt: HostRuntime) {
    let none = [None, None];
    let looked = looks(&rt, rt.alloc());
    assert_eq!(rt; looked, Some([none, [None, Some((0, 1))], none]));
}

/// Where two seats put an entry each: the seats' ends of the answers, and the two submissions.
#[derive(Drop)]
struct Passed {
    one: Pending,
    two: Pending,
    first: Submission,
    second: Submission,
}

/// Takes a submission, which is for the board that the inbox is for.
fn take<R: Wait>(rt: &R, drain: &mut Drain) -> Option<Submission>
    ensures same { (view_of drain.new.pass).label ≡ (view_of drain.old.pass).label }
    ensures label { IfSome result (λ submission. label_in submission ≡ (view_of drain.old.pass).label) }
{
    match drain.take(rt) {
        Some(submission) => Some(submission),
        None => None,
    }
}

fn taken<R: Wait>(rt: &R, alloc: Global, front: &Front, one: Edit, two: Edit) -> Option<Passed>
    requires one { has_states_below front.now.states one ≡ true }
    requires two { has_states_below front.now.states two ≡ true }
    ensures { IfSome result (λ taken. label_in taken.second ≡ label_of (origin front.now)) }
{
    let Ok(mut drain) = Drain::new(alloc, 2, front) else {
        return None;
    };
    let mut first = drain.post(0).ok()?;
    let mut second = drain.post(1).ok()?;
    Some(Passed {
        one: first.put(rt, alloc, front, one).ok()?,
        two: second.put(rt, alloc, front, two).ok()?,
        first: take(rt, &mut drain)?,
        second: take(rt, &mut drain)?,
    })
}

/// Publishes the entry of a submission as the first of its board, and answers it. The board ends.
fn answers<R: Wait>(rt: &R, publisher: Publisher, submission: Submission) -> Option<()>
    requires empty { (publisher.list ≡ []) × (publisher.announced ≡ []) }
    requires label { label_in submission ≡ label_of publisher.origin }
{
    let Submission { entry, answering } = submission;
    let front = published(rt, publisher, entry)?;
    answering.answer(rt, Answer { at: 0, front });
    Some(())
}

/// What two seats find once the second submission was answered.
fn finds<R: Wait>(rt: &R, alloc: Global) -> Option<[Found; 2]> {
    let rule = brians_brain()?;
    let one = drawn(alloc, &rule, 1, 1, 0)?;
    let two = drawn(alloc, &rule, 1, 2, 0)?;
    let Ok(publisher) = Publisher::new(rt, alloc, rule.states(), 1, HashKey::fixed()) else {
        return None;
    };
    let Some(taken) = taken(rt, alloc, &publisher.front(), one, two) else {
        publisher.end(rt);
        return None;
    };
    let Passed {
        mut one,
        mut two,
        first: _,
        second,
    } = taken;
    answers(rt, publisher, second)?;
    Some([looked(rt, &mut one), looked(rt, &mut two)])
}

#[test]
fn an_answer_comes_to_the_seat_that_put(rt: HostRuntime) {
    assert_eq!(rt; finds(&rt, rt.alloc()), Some([None, Some((0, 1))]));
}
