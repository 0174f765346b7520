//! The writer of the board: it adds entries to the list, one at a time, and publishes each.

ghost use Rattle.std.specs.Prelude.{◌≡◌, ◌⊎◌, ◌↔◌, ◌∷◌, ◌++◌, ◌^◌, ◌<◌, IsTrue, [], length, drop, true, None, IfErr, IfOk, MatchBool, MatchResult, IfSome, IfNone, OnErr};
ghost use mathlib.Core.List.{IsPrefix};
ghost use Rattle.left_right.specs.Sides.{view};
ghost use Rattle.edit_stamps.specs.Edit.{has_states_below};
ghost use Rattle.board.specs.Adding.{IsAddFault};
ghost use Rattle.board.specs.Publishing.{Publishes};
ghost use Rattle.board.specs.Sights.{sight, IsWhole, Keeps};
ghost use Rattle.board.specs.Origins.{origin, list_of};
ghost use Rattle.board.specs.Resting.{Rests};

use crate::entry::Entry;
use crate::front::Front;
use crate::history::{AddFault, History};
use crate::rule::{BoardRule, Note, Sees, Sight};
use crate::value::{Board, Publication};
use crate::window::Window;
use keyed_hash::HashKey;
use left_right::writer::Writer;
use std::alloc::{AllocError, Global};
use std::marker::Model;
use std::sync::Wait;

/// The published list, with at most one entry that was announced and is not published yet. End it by
/// `end`, since it waits for readers.
pub struct Publisher {
    writer: Writer<Board, Publication, Sight, BoardRule>,
    history: History,
    front: Front,
    waiting: Option<Publication>,
}

impl Model for Publisher {
    ghost use Rattle.board.specs.Publishing.{Publishing};

    ghost Value = { Publishing };

    ghost use Rattle.board.specs.Resting.{published_by, IsPublisher};

    ghost view = { published_by };

    ghost invariant = { IsPublisher };
}

/// The writer under the board's rule.
type BoardWriter = Writer<Board, Publication, Sight, BoardRule>;

/// A writer of two empty boards, with room for so many readers.
fn opened(
    alloc: Global,
    front: &Front,
    seats: usize,
    key: HashKey,
) -> Result<BoardWriter, AllocError>
    requires seats { (0 < seats) × (seats < 2 ^ 32) }
    requires empty { list_of front.now ≡ [] }
    ensures { IfOk result (λ w. (w.desk.shown.value.list ≡ []) × (w.desk.shown.value.log ≡ []) × (w.desk.shown.value.origin ≡ origin front.now) × (drop w.behind w.log.items ≡ [])) }
{
    let first = Board::new(alloc, front.again(), key)?;
    let second = Board::new(alloc, front.again(), key)?;
    Writer::new(alloc, first, second, seats)
}

impl Publisher {
    /// An empty list, with room for so many readers, under a rule of so many states. Its planes find their
    /// squares by a key's hashes.
    // The first publication, of nothing, tells the writer which history it is of.
    pub fn new<R: Wait>(
        rt: &R,
        alloc: Global,
        states: u16,
        seats: usize,
        key: HashKey,
    ) -> Result<Publisher, AllocError>
        requires { (0 < seats) × (seats < 2 ^ 32) }
        ensures { IfOk result (λ p. (p.list ≡ []) × (p.announced ≡ []) × (p.origin.states ≡ states)) }
    {
        let (history, prefix) = History::new();
        let front = Front::first(prefix, states);
        let (writer, done) = shown(rt, opened(alloc, &front, seats, key)?, &front);
        if done.is_err() {
            writer.take(rt);
            return Err(AllocError);
        }
        Ok(Publisher {
            writer,
            history,
            front,
            waiting: None,
        })
    }

    /// The published list. None is given while an entry is announced and not published, so that no receipt
    /// comes before its publication.
    pub fn front(&self) -> Front
        requires { self.now.announced ≡ self.now.list }
        ensures list { list_of result ≡ self.now.list }
        ensures origin { origin result ≡ self.now.origin }
    {
        self.front.again()
    }

    /// The board as readers see it.
    pub fn board(&self) -> &Board
        ensures { result.now.list ≡ self.now.list }
    {
        self.writer.published()
    }

    /// Whether the published list begins a front of its history; else the front begins the list.
    pub fn begins(&self, front: &Front) -> bool
        requires { origin front.now ≡ self.now.origin }
        ensures exact { IsTrue result ↔ IsPrefix self.now.list (list_of front.now) }
        ensures one { IsPrefix self.now.list (list_of front.now) ⊎ IsPrefix (list_of front.now) self.now.list }
    {
        // For the proof alone: what was announced begins with what is published, and begins the front or is begun by it.
        let _one = self.front.begins(front);
        self.board().len() <= front.len()
    }

    /// A place among the readers, for one that has seen what is published. Both want of memory and of a
    /// place are told as `AllocError`, as `left_right` tells them.
    pub fn window(&mut self) -> Result<Window, AllocError>
        requires { self.old.announced ≡ self.old.list }
        ensures same { self.new ≡ self.old }
        ensures window { IfOk result (λ w. (list_of w.front ≡ self.old.list) × (origin w.front ≡ self.old.origin)) }
    {
        let mut reader = self.writer.factory().reader()?;
        reader.learn::<Note>(self.writer.tell::<Note>());
        Ok(Window {
            reader,
            front: self.front.again(),
        })
    }

    /// Ends the board: readers get no entry from then on.
    pub fn end<R: Wait>(self, rt: &R) {
        let Publisher {
            writer,
            history: _,
            front: _,
            waiting: _,
        } = self;
        writer.take(rt);
    }

    /// Takes an entry in, to be published by the next `show`. After a refusal nothing changed: the list has
    /// 2^62 entries, or somebody else added to its history, and what was added is told. Nobody can, since
    /// the history is this publisher's own; no clause knows that.
    pub fn announce(&mut self, entry: Entry) -> Result<(), AddFault>
        requires list { self.old.announced ≡ self.old.list }
        requires below { has_states_below self.old.origin.states entry.edit ≡ true }
        ensures same { (self.new.list ≡ self.old.list) × (self.new.origin ≡ self.old.origin) }
        ensures announced { MatchResult result (λ _. self.new.announced ≡ self.old.list ++ entry ∷ []) (λ _. self.new.announced ≡ self.old.announced) }
        ensures cause { IfErr result (IsAddFault self.old.origin.book self.old.list) }
    {
        let front = self.front.with(&self.history, &entry)?;
        self.front = front.again();
        self.waiting = Some(Publication { entry, front });
        Ok(())
    }

    /// Publishes what was announced. At `Err`, out of memory, readers see what they saw, and the next call
    /// tries the same entry again.
    pub fn show<R: Wait>(self, rt: &R) -> (Publisher, Result<(), AllocError>)
        ensures { Publishes self result.1 result.0 }
    {
        let Publisher {
            writer,
            history,
            front,
            waiting,
        } = self;
        let (writer, waiting) = passed_on(writer, &front, waiting);
        if let Some(next) = waiting {
            let publisher = Publisher {
                writer,
                history,
                front,
                waiting: Some(next),
            };
            return (publisher, Err(AllocError));
        }
        let (writer, done) = shown(rt, writer, &front);
        let publisher = Publisher {
            writer,
            history,
            front,
            waiting: None,
        };
        (publisher, done)
    }
}

/// Gives the writer what waits.
fn passed_on(
    mut writer: BoardWriter,
    front: &Front,
    waiting: Option<Publication>,
) -> (BoardWriter, Option<Publication>)
    requires { Rests front.now waiting (drop writer.behind writer.log.items) writer.desk.shown.value.list }
    ensures desk { result.0.desk ≡ writer.desk }
    ensures rests { Rests front.now result.1 (drop result.0.behind result.0.log.items) writer.desk.shown.value.list }
{
    let Some(next) = waiting else {
        return (writer, None);
    };
    match writer.append(next) {
        Ok(()) => (writer, None),
        Err(next) => (writer, Some(next)),
    }
}

/// Shows what is pending.
fn shown<R: Wait>(
    rt: &R,
    writer: BoardWriter,
    front: &Front,
) -> (BoardWriter, Result<(), AllocError>)
    requires rests { Rests front.now None (drop writer.behind writer.log.items) writer.desk.shown.value.list }
    requires origin { writer.desk.shown.value.origin ≡ origin front.now }
    ensures origin { result.0.desk.shown.value.origin ≡ origin front.now }
    ensures rests { Rests front.now None (drop result.0.behind result.0.log.items) result.0.desk.shown.value.list }
    ensures list { MatchResult result.1 (λ _. result.0.desk.shown.value.list ≡ list_of front.now) (λ _. result.0.desk.shown.value.list ≡ writer.desk.shown.value.list) }
    ensures view { MatchResult result.1 (λ _. view result.0.desk.place ≡ sight true result.0.desk.shown.value.list (origin front.now)) (λ _. view result.0.desk.place ≡ view writer.desk.place) }
{
    writer.publish_as::<Sees, R>(rt)
}
