//! Worlds of replicas: lists of events, and their replies.

ghost use Rattle.std.specs.Prelude.{◌≡◌, ◌≤◌, ◌⊎◌, ◌-◌, ◌++◌, ◌∷◌, [], ℕ, List, Option, IfOk, IfErr, IfSome, OnErr, Ok, Err, Some, SomeIff, Contains, length, MatchResult, option_copied, slice_set};
ghost use Rattle.square_store.specs.Limits.{usual_room};
ghost use Rattle.edit_stamps.specs.Edit.{IsEdit, PlaneEdit, greatest_counter};
ghost use Rattle.generations_rule.specs.Rule.{GenerationsRule};
ghost use Rattle.export.specs.Export.{IsRoomWanted, last_generation};
ghost use Rattle.export.specs.Kept.{IsRunOf};
ghost use Rattle.generation_engine.specs.Universe.{states_in_writes};
ghost use Rattle.stamped_tree.specs.Plane.{map_of};
ghost use Rattle.replica_events.specs.declared.event.Event.TheVariants as events;
ghost use Rattle.replica_core.specs.declared.event.Reply.TheVariants as replies;
ghost use Rattle.replica_core.specs.Exporting.{Tells, generation_of};
ghost use Rattle.replica_core.specs.Fault.{IsWant, stop_of};
ghost use Rattle.replica_core.specs.Replica.{edit_drawn, IsNew, ReplicaState};
ghost use Rattle.replica_core.specs.Room.{IsFullFor};
ghost use Rattle.delta_exchange.specs.declared.message.Content.TheVariants as contents;
ghost use Rattle.replica_core.specs.World.{Carries, History, IsDeliveryFull, IsDrawFull, IsEditUnder, IsExportFull, IsThere, IsTooLargeToRead, ReplicaHistory, Sent, opening, after, after_all, after_drawing, after_message, numbered, AreCurrent, AreEdits, AreReplies, HaveRoom, IsRemembered, IsReply, IsStateMessage, IsStateOf, IsReplyToQuestion, IsStopOf, IsUniverseOf, MayStop, StandSideBySide, StandsFor, StandsForSent, StandsForWorld};

use crate::event::{ByteList, Question, Reply, Stop};
use crate::fault::Fault;
use crate::replica::Replica;
use export::Cut;
use generation_engine::Engine;
use generations_rule::Rule;
use replica_events::{EditSpec, Event};
use square_store::ROOM;
use std::alloc::{AllocError, Global};
use std::marker::Model;

/// Replicas of one rule with the numbers 1, 2, .. and the bytes of the messages that they sent.
pub struct World {
    alloc: Global,
    rule: Rule,
    replicas: Vec<Replica>,
    messages: Vec<ByteList>,
    remembered: Remembered,
}

/// What need not be made again as long as maps stay.
#[derive(Drop)]
struct Remembered {
    /// For each replica the place of a message with the state text of its map as it is now, where one
    /// was sent.
    current: Vec<Option<usize>>,
    /// The universe of the last question, for the next one about the same map.
    universe: Option<KeptUniverse>,
    /// The place of the replica that was asked last, if no map became another one since.
    asked: Option<usize>,
}

/// A universe that was run for a question, and the place of the replica whose map it runs.
#[derive(Drop)]
struct KeptUniverse {
    place: usize,
    engine: Engine,
}

/// By hand, so that a caller's proof sees one step where a world is dropped.
impl Drop for World {
    fn drop(self) {
        let World {
            alloc: _,
            rule: _,
            replicas: _,
            messages: _,
            remembered: _,
        } = self;
    }
}

impl Model for World {
    ghost use Rattle.std.specs.Prelude.{IfSome};
    ghost use Rattle.replica_core.specs.World.{AreCurrent, IsUniverseOf, WorldState};

    ghost Value = { WorldState };

    ghost view = { λ w. record { rule = w.rule; replicas = w.replicas.items; messages = w.messages.items } };

    ghost invariant = { λ w. AreCurrent w.replicas.items w.messages.items w.remembered.current.items × IfSome w.remembered.universe (λ kept. IsUniverseOf w.replicas.items kept.place kept.engine) };
}

impl World {
    /// A world of replicas 1 to `n` that hold nothing, where no message was sent; each has room for
    /// 2^26 squares. The only error is want of memory.
    pub fn new(alloc: Global, rule: Rule, n: u16) -> Result<World, Stop>
        ensures new { IfOk result (λ world. StandsForWorld (opening rule n) world) }
        ensures room { IfOk result (λ world. HaveRoom usual_room world.replicas) }
        ensures err { IfErr result (λ stop. stop ≡ Stop.Memory) }
    {
        World::with_room(alloc, rule, n, ROOM)
    }

    /// A world of replicas 1 to `n` that hold nothing, where no message was sent; each has room for so
    /// many squares. The only error is want of memory.
    pub fn with_room(alloc: Global, rule: Rule, n: u16, nodes: u32) -> Result<World, Stop>
        requires { 1 ≤ nodes }
        ensures new { IfOk result (λ world. StandsForWorld (opening rule n) world) }
        ensures room { IfOk result (λ world. HaveRoom nodes world.replicas) }
        ensures err { IfErr result (λ stop. stop ≡ Stop.Memory) }
    {
        let replicas = beginners(alloc, rule, n, nodes)?;
        let current = vec![in alloc; None; usize::from(n)]?;
        Ok(World {
            alloc,
            rule,
            replicas,
            messages: Vec::new(alloc),
            remembered: Remembered {
                current,
                universe: None,
                asked: None,
            },
        })
    }

    /// The replica of a number, if there is one.
    pub fn replica(&self, number: u32) -> Option<&Replica>
        ensures { option_copied result ≡ numbered self.now.replicas number }
    {
        let index = index_of(u64::from(number), self.replicas.len())?;
        self.replicas.get(index)
    }

    /// The bytes of the message of a number, if there is one. Messages are numbered from 1 as they are
    /// sent.
    pub fn message(&self, number: u64) -> Option<&[u8]>
        ensures { option_copied result ≡ numbered self.now.messages number }
    {
        let index = index_of(number, self.messages.len())?;
        let text = self.messages.get(index)?;
        Some(text.as_slice())
    }
}

/// Runs a world of replicas 1 to `n` through events, in order: the world behind the last event, and
/// the reply to each. A refused event changes nothing, and the next one follows. The only errors are
/// want of memory, and of room: each replica has room for 2^26 squares, and so has the plane that a state
/// is read into, and the universe that is run for a question.
pub fn replay(
    alloc: Global,
    rule: Rule,
    n: u16,
    events: &[Event],
) -> Result<(World, Vec<Reply>), Stop>
    ensures replies { IfOk result (λ done. AreReplies (opening rule n) events.now done.1.items) }
    ensures world { IfOk result (λ done. StandsForWorld (after_all (opening rule n) events.now) done.0) }
    ensures edits { IfOk result (λ done. AreEdits (after_all (opening rule n) events.now)) }
    ensures room { IfOk result (λ done. HaveRoom usual_room done.0.replicas) }
    ensures stopped { IfErr result (IsStopOf usual_room (opening rule n) events.now) }
{
    replay_within(alloc, rule, n, ROOM, events)
}

/// `replay` where each replica has room for so many squares.
pub fn replay_within(
    alloc: Global,
    rule: Rule,
    n: u16,
    nodes: u32,
    events: &[Event],
) -> Result<(World, Vec<Reply>), Stop>
    requires { 1 ≤ nodes }
    ensures replies { IfOk result (λ done. AreReplies (opening rule n) events.now done.1.items) }
    ensures world { IfOk result (λ done. StandsForWorld (after_all (opening rule n) events.now) done.0) }
    ensures edits { IfOk result (λ done. AreEdits (after_all (opening rule n) events.now)) }
    ensures room { IfOk result (λ done. HaveRoom nodes done.0.replicas) }
    ensures stopped { IfErr result (IsStopOf nodes (opening rule n) events.now) }
{
    let mut world = World::with_room(alloc, rule, n, nodes)?;
    let mut replies = Vec::with_capacity(alloc, events.len())?;
    for event in events {
        let reply = happen(&mut world, event)?;
        replies.push(reply)?;
    }
    Ok((world, replies))
}

fn beginners(alloc: Global, rule: Rule, n: u16, nodes: u32) -> Result<Vec<Replica>, Stop>
    requires { 1 ≤ nodes }
    ensures new { IfOk result (λ made. StandSideBySide (StandsFor rule) (opening rule n).replicas made.items) }
    ensures room { IfOk result (λ made. HaveRoom nodes made.items) }
    ensures err { IfErr result (λ stop. stop ≡ Stop.Memory) }
{
    let mut replicas = Vec::with_capacity(alloc, usize::from(n))?;
    for index in 0..n {
        replicas.push(beginner(alloc, rule, index + 1, nodes)?)?;
    }
    Ok(replicas)
}

fn beginner(alloc: Global, rule: Rule, number: u16, nodes: u32) -> Result<Replica, Stop>
    requires number { 1 ≤ number }
    requires nodes { 1 ≤ nodes }
    ensures new { IfOk result (λ replica. IsNew rule number nodes replica) }
    ensures err { IfErr result (λ stop. stop ≡ Stop.Memory) }
{
    match Replica::with_room(alloc, rule, number, nodes) {
        Ok(replica) => Ok(replica),
        Err(fault) => Err(stopped(fault)),
    }
}

/// The place in a list of what has a number, counted from 1.
fn index_of(number: u64, count: usize) -> Option<usize>
    ensures { SomeIff result (IsThere number count) (number - 1) }
{
    if number == 0 || number > count as u64 {
        return None;
    }
    Some((number - 1) as usize)
}

/// What happens at one event.
fn happen(world: &mut World, event: &Event) -> Result<Reply, Stop>
    ensures step { IfOk result (λ reply. (w : History) → AreEdits w → StandsForWorld w world.old →
        IsReply w event.now reply × StandsForWorld (after w event.now) world.new) }
    ensures edits { IfOk result (λ _. (w : History) → AreEdits w → StandsForWorld w world.old → AreEdits (after w event.now)) }
    ensures room { (nodes : ℕ) → HaveRoom nodes world.old.replicas → HaveRoom nodes world.new.replicas }
    ensures err { IfErr result (λ stop. (w : History) (nodes : ℕ) → AreEdits w → StandsForWorld w world.old → HaveRoom nodes world.old.replicas → MayStop nodes w stop event.now) }
{
    match event {
        Event::Draw(number, spec) => {
            draw(&mut world.replicas, &mut world.remembered, *number, spec)
        }
        Event::SendDelta(number, from, count) => send_delta(
            &world.replicas,
            &mut world.messages,
            *number,
            *from,
            *count,
        ),
        Event::SendState(number) => send_state(
            world.alloc,
            &world.replicas,
            &mut world.messages,
            &mut world.remembered.current,
            *number,
        ),
        Event::Deliver(message, number) => deliver(
            &world.messages,
            &mut world.replicas,
            &mut world.remembered,
            *message,
            *number,
        ),
        Event::Show(number, x, y) => Ok(show(&world.replicas, *number, *x, *y)),
        Event::Same(a, b) => same(&world.replicas, *a, *b),
        Event::Dump(number) => dump(world.alloc, &world.messages, *number),
        Event::Export(number, generation) => ask(
            &world.replicas,
            &mut world.remembered.universe,
            &mut world.remembered.asked,
            *number,
            Question::Export(*generation),
        ),
        Event::Cut(number, window, generation) => ask(
            &world.replicas,
            &mut world.remembered.universe,
            &mut world.remembered.asked,
            *number,
            Question::Cut(Cut {
                window: *window,
                generation: *generation,
            }),
        ),
        Event::Count(number, generation) => ask(
            &world.replicas,
            &mut world.remembered.universe,
            &mut world.remembered.asked,
            *number,
            Question::Count(*generation),
        ),
    }
}

fn draw(
    replicas: &mut [Replica],
    remembered: &mut Remembered,
    number: u32,
    spec: &EditSpec,
) -> Result<Reply, Stop>
    requires { length remembered.old.current.items ≡ length replicas.old }
    ensures step { IfOk result (λ reply. (w : History) → AreEdits w → StandSideBySide (StandsFor w.rule) w.replicas replicas.old →
        IsReply w (events.Draw number spec.now) reply
        × StandSideBySide (StandsFor w.rule) (after w (events.Draw number spec.now)).replicas replicas.new) }
    ensures edits { IfOk result (λ _. (w : History) → AreEdits w → StandSideBySide (StandsFor w.rule) w.replicas replicas.old → AreEdits (after w (events.Draw number spec.now))) }
    ensures as_many { length replicas.new ≡ length replicas.old }
    ensures room { (nodes : ℕ) → HaveRoom nodes replicas.old → HaveRoom nodes replicas.new }
    ensures remembered { (messages : List (List ℕ)) → AreCurrent replicas.old messages remembered.old.current.items → AreCurrent replicas.new messages remembered.new.current.items }
    ensures length { length remembered.new.current.items ≡ length remembered.old.current.items }
    ensures universe { IfSome remembered.old.universe (λ kept. IsUniverseOf replicas.old kept.place kept.engine) → IfSome remembered.new.universe (λ kept. IsUniverseOf replicas.new kept.place kept.engine) }
    ensures full { result ≡ Err Stop.StoreFull → (w : History) (nodes : ℕ) → AreEdits w → StandSideBySide (StandsFor w.rule) w.replicas replicas.old → HaveRoom nodes replicas.old
        → IsDrawFull nodes w number spec.now }
    ensures err { IfErr result (λ _. IsThere number (length replicas.old)) }
{
    match index_of(u64::from(number), replicas.len()) {
        None => Ok(Reply::Refused(Fault::NoReplica)),
        Some(index) => {
            forget(&mut remembered.universe, index);
            remembered.asked = None;
            draw_at(&mut replicas[index], &mut remembered.current[index], spec)
        }
    }
}

/// Drops the universe of the replica at a place, whose map may become another one. That its root's part
/// stays would not tell: a plane that was copied numbers its squares anew.
fn forget(universe: &mut Option<KeptUniverse>, place: usize)
    ensures { (replicas : List ReplicaState) (is : ReplicaState) → IfSome universe.old (λ kept. IsUniverseOf replicas kept.place kept.engine)
        → IfSome universe.new (λ kept. IsUniverseOf (slice_set replicas place is) kept.place kept.engine) }
{
    let is_of_place = match universe {
        Some(kept) => kept.place == place,
        None => false,
    };
    if is_of_place {
        *universe = None;
    }
}

/// What a replica draws; no message is remembered of it.
fn draw_at(
    replica: &mut Replica,
    current: &mut Option<usize>,
    spec: &EditSpec,
) -> Result<Reply, Stop>
    ensures step { IfOk result (λ reply. (rule : GenerationsRule) (h : ReplicaHistory) → ((e : PlaneEdit) → Contains h.taken e → IsEdit e)
        → StandsFor rule replica.old.number h replica.old
        → MatchResult (edit_drawn rule (greatest_counter h.taken) replica.old.number spec.now)
        (λ e. (reply ≡ replies.Drawn e.stamp) × StandsFor rule replica.old.number (after_drawing h e) replica.new × IsEditUnder rule e)
        (λ fault. (reply ≡ replies.Refused fault) × (replica.new ≡ replica.old))) }
    ensures room { replica.new.plane.store.room ≡ replica.old.plane.store.room }
    ensures full { result ≡ Err Stop.StoreFull → (rule : GenerationsRule) (h : ReplicaHistory) → ((e : PlaneEdit) → Contains h.taken e → IsEdit e)
        → StandsFor rule replica.old.number h replica.old
        → (e : PlaneEdit) × (edit_drawn rule (greatest_counter h.taken) replica.old.number spec.now ≡ Ok e) × IsFullFor replica.old.plane.store.room h.taken (λ content. content ≡ contents.Edits (e ∷ [])) }
    ensures remembered { IsRemembered replica.old replica.new current.old current.new }
{
    *current = None;
    match replica.draw_as(spec) {
        Ok(edit) => Ok(Reply::Drawn(edit.stamp())),
        Err(fault) => refused(fault),
    }
}

/// The reply of a refusal; a want is none.
fn refused(fault: Fault) -> Result<Reply, Stop>
    ensures reply { IfOk result (λ reply. (¬ IsWant fault) × (reply ≡ replies.Refused fault)) }
    ensures err { IfErr result (λ stop. IsWant fault × (stop_of fault ≡ Some stop)) }
{
    match fault.stop() {
        Some(stop) => Err(stop),
        None => Ok(Reply::Refused(fault)),
    }
}

/// Why a list of events stops at a want.
fn stopped(fault: Fault) -> Stop
    requires { IsWant fault }
    ensures { stop_of fault ≡ Some result }
{
    match fault.stop() {
        Some(stop) => stop,
        None => unreachable!(),
    }
}

fn send_delta(
    replicas: &[Replica],
    messages: &mut Vec<ByteList>,
    number: u32,
    from: u32,
    count: u32,
) -> Result<Reply, Stop>
    ensures step { IfOk result (λ reply. (w : History) → StandSideBySide (StandsFor w.rule) w.replicas replicas.now
        → StandSideBySide (λ m. StandsForSent w.rule) w.messages messages.old.items →
        IsReply w (events.SendDelta number from count) reply
        × StandSideBySide (λ m. StandsForSent w.rule) (after w (events.SendDelta number from count)).messages messages.new.items) }
    ensures remembered { (current : List (Option ℕ)) → AreCurrent replicas.now messages.old.items current → AreCurrent replicas.now messages.new.items current }
    ensures err { IfErr result (λ stop. (stop ≡ Stop.Memory) × IsThere number (length replicas.now)) }
{
    let Some(index) = index_of(u64::from(number), replicas.len()) else {
        return Ok(Reply::Refused(Fault::NoReplica));
    };
    match replicas[index].delta(from, count) {
        Ok(text) => send(messages, text),
        Err(fault) => refused(fault),
    }
}

fn send_state(
    alloc: Global,
    replicas: &[Replica],
    messages: &mut Vec<ByteList>,
    current: &mut [Option<usize>],
    number: u32,
) -> Result<Reply, Stop>
    requires { AreCurrent replicas.now messages.old.items current.old }
    ensures step { IfOk result (λ reply. (w : History) → StandSideBySide (StandsFor w.rule) w.replicas replicas.now
        → StandSideBySide (λ m. StandsForSent w.rule) w.messages messages.old.items →
        IsReply w (events.SendState number) reply
        × StandSideBySide (λ m. StandsForSent w.rule) (after w (events.SendState number)).messages messages.new.items) }
    ensures remembered { AreCurrent replicas.now messages.new.items current.new }
    ensures length { length current.new ≡ length current.old }
    ensures err { IfErr result (λ stop. (stop ≡ Stop.Memory) × IsThere number (length replicas.now)) }
{
    let Some(index) = index_of(u64::from(number), replicas.len()) else {
        return Ok(Reply::Refused(Fault::NoReplica));
    };
    let text = state_text(alloc, &replicas[index], messages, current[index])?;
    let place = messages.len();
    let reply = send(messages, text)?;
    current[index] = Some(place);
    Ok(reply)
}

/// The state text of a replica's map: a copy of the message that has it, or else written.
fn state_text(
    alloc: Global,
    replica: &Replica,
    messages: &[ByteList],
    current: Option<usize>,
) -> Result<Vec<u8>, AllocError>
    requires { (place : ℕ) → current ≡ Some place → IsStateMessage replica.now messages.now place }
    ensures { IfOk result (λ text. IsStateOf replica.now text.items) }
{
    let Some(place) = current else {
        return replica.state();
    };
    let Some(message) = messages.get(place) else {
        return replica.state();
    };
    let text = message.as_slice().to_vec(alloc)?;
    Ok(text)
}

/// Puts a message behind the others.
fn send(messages: &mut Vec<ByteList>, text: Vec<u8>) -> Result<Reply, Stop>
    ensures sent { IfOk result (λ reply. (messages.new.items ≡ messages.old.items ++ text.items ∷ []) × (reply ≡ replies.Sent (length messages.new.items))) }
    ensures unsent { OnErr result (messages.new.items ≡ messages.old.items) }
    ensures err { IfErr result (λ stop. stop ≡ Stop.Memory) }
{
    messages.push(ByteList::of_vec(text))?;
    Ok(Reply::Sent(messages.len() as u64))
}

fn deliver(
    messages: &[ByteList],
    replicas: &mut [Replica],
    remembered: &mut Remembered,
    message: u64,
    number: u32,
) -> Result<Reply, Stop>
    requires { length remembered.old.current.items ≡ length replicas.old }
    ensures step { IfOk result (λ reply. (w : History) → StandSideBySide (StandsFor w.rule) w.replicas replicas.old
        → StandSideBySide (λ m. StandsForSent w.rule) w.messages messages.now →
        IsReply w (events.Deliver message number) reply
        × StandSideBySide (StandsFor w.rule) (after w (events.Deliver message number)).replicas replicas.new) }
    ensures as_many { length replicas.new ≡ length replicas.old }
    ensures room { (nodes : ℕ) → HaveRoom nodes replicas.old → HaveRoom nodes replicas.new }
    ensures remembered { AreCurrent replicas.old messages.now remembered.old.current.items → AreCurrent replicas.new messages.now remembered.new.current.items }
    ensures length { length remembered.new.current.items ≡ length remembered.old.current.items }
    ensures universe { IfSome remembered.old.universe (λ kept. IsUniverseOf replicas.old kept.place kept.engine) → IfSome remembered.new.universe (λ kept. IsUniverseOf replicas.new kept.place kept.engine) }
    ensures full { result ≡ Err Stop.StoreFull → (w : History) (nodes : ℕ) → StandSideBySide (StandsFor w.rule) w.replicas replicas.old
        → StandSideBySide (λ m. StandsForSent w.rule) w.messages messages.now → HaveRoom nodes replicas.old → IsDeliveryFull nodes w message number }
    ensures err { IfErr result (λ _. IsThere message (length messages.now) × IsThere number (length replicas.old)) }
{
    let Some(from) = index_of(message, messages.len()) else {
        return Ok(Reply::Refused(Fault::NoMessage));
    };
    let Some(to) = index_of(u64::from(number), replicas.len()) else {
        return Ok(Reply::Refused(Fault::NoReplica));
    };
    let text = messages[from].as_slice();
    forget(&mut remembered.universe, to);
    remembered.asked = None;
    take_at(&mut replicas[to], &mut remembered.current[to], text)
}

/// What a replica takes; no message is remembered of it where its map becomes another one.
fn take_at(replica: &mut Replica, current: &mut Option<usize>, text: &[u8]) -> Result<Reply, Stop>
    ensures step { IfOk result (λ reply. (rule : GenerationsRule) (h : ReplicaHistory) (sent : Sent) → StandsFor rule replica.old.number h replica.old
        → StandsForSent rule sent text.now
        → (reply ≡ replies.Taken) × StandsFor rule replica.old.number (after_message h sent) replica.new) }
    ensures room { replica.new.plane.store.room ≡ replica.old.plane.store.room }
    ensures full { result ≡ Err Stop.StoreFull → (rule : GenerationsRule) (h : ReplicaHistory) (sent : Sent) → StandsFor rule replica.old.number h replica.old
        → StandsForSent rule sent text.now → IsFullFor replica.old.plane.store.room h.taken (Carries sent) ⊎ IsTooLargeToRead sent }
    ensures remembered { IsRemembered replica.old replica.new current.old current.new }
{
    match replica.take_bytes_noting_change(text) {
        Ok(changed) => {
            if changed {
                *current = None;
            }
            Ok(Reply::Taken)
        }
        Err(fault) => refused(fault),
    }
}

fn show(replicas: &[Replica], number: u32, x: i32, y: i32) -> Reply
    ensures { (w : History) → StandSideBySide (StandsFor w.rule) w.replicas replicas.now → IsReply w (events.Show number x y) result }
{
    match index_of(u64::from(number), replicas.len()) {
        None => Reply::Refused(Fault::NoReplica),
        Some(index) => Reply::Shown(replicas[index].get(x, y)),
    }
}

fn same(replicas: &[Replica], a: u32, b: u32) -> Result<Reply, Stop>
    ensures step { IfOk result (λ reply. (w : History) → StandSideBySide (StandsFor w.rule) w.replicas replicas.now → IsReply w (events.Same a b) reply) }
    ensures err { IfErr result (λ stop. (stop ≡ Stop.Memory) × IsThere a (length replicas.now) × IsThere b (length replicas.now)) }
{
    let Some(one) = index_of(u64::from(a), replicas.len()) else {
        return Ok(Reply::Refused(Fault::NoReplica));
    };
    let Some(other) = index_of(u64::from(b), replicas.len()) else {
        return Ok(Reply::Refused(Fault::NoReplica));
    };
    let same = replicas[one].holds_same(&replicas[other])?;
    Ok(Reply::Same(same))
}

/// What is told of a question about a replica's map, by the universe of the last one where that was about the same
/// map.
fn ask(
    replicas: &[Replica],
    universe: &mut Option<KeptUniverse>,
    asked: &mut Option<usize>,
    number: u32,
    question: Question,
) -> Result<Reply, Stop>
    requires { IfSome universe.old (λ kept. IsUniverseOf replicas.now kept.place kept.engine) }
    ensures step { IfOk result (λ reply. (w : History) → StandSideBySide (StandsFor w.rule) w.replicas replicas.now → IsReplyToQuestion w number question reply) }
    ensures universe { IfSome universe.new (λ kept. IsUniverseOf replicas.now kept.place kept.engine) }
    ensures err { IfErr result (λ _. IsThere number (length replicas.now) × (generation_of question ≤ last_generation)) }
    ensures full { result ≡ Err Stop.StoreFull → (w : History) → StandSideBySide (StandsFor w.rule) w.replicas replicas.now → IsExportFull w number (generation_of question) }
{
    let Some(index) = index_of(u64::from(number), replicas.len()) else {
        return Ok(Reply::Refused(Fault::NoReplica));
    };
    tell_at(&replicas[index], universe, asked, index, question)
}

/// What the replica at a place tells: where it was not asked before, by tiles if these can. A universe that was run is
/// kept then, and that of another is dropped.
fn tell_at(
    replica: &Replica,
    universe: &mut Option<KeptUniverse>,
    asked: &mut Option<usize>,
    place: usize,
    question: Question,
) -> Result<Reply, Stop>
    requires { IfSome universe.old (λ kept. kept.place ≡ place → IsRunOf replica.now.rule (states_in_writes (map_of replica.now.plane)) kept.engine) }
    ensures told { IfOk result (Tells replica.now.rule (states_in_writes (map_of replica.now.plane)) question) }
    ensures err { IfErr result (λ _. generation_of question ≤ last_generation) }
    ensures full { result ≡ Err Stop.StoreFull → IsRoomWanted replica.now.rule replica.now.plane (generation_of question) usual_room }
    ensures universe { IfSome universe.new (λ kept. (kept.place ≡ place) × IsRunOf replica.now.rule (states_in_writes (map_of replica.now.plane)) kept.engine) }
{
    let mut engine = match universe.take() {
        Some(kept) if kept.place == place => Some(kept.engine),
        _ => None,
    };
    let is_first = *asked != Some(place) && engine.is_none();
    *asked = Some(place);
    let answer = replica.tell_next(question, is_first, &mut engine);
    if let Some(engine) = engine {
        *universe = Some(KeptUniverse { place, engine });
    }
    answer
}

fn dump(alloc: Global, messages: &[ByteList], number: u64) -> Result<Reply, Stop>
    ensures step { IfOk result (λ reply. (w : History) → StandSideBySide (λ m. StandsForSent w.rule) w.messages messages.now → IsReply w (events.Dump number) reply) }
    ensures err { IfErr result (λ stop. (stop ≡ Stop.Memory) × IsThere number (length messages.now)) }
{
    match index_of(number, messages.len()) {
        None => Ok(Reply::Refused(Fault::NoMessage)),
        Some(index) => {
            let text = messages[index].as_slice().to_vec(alloc)?;
            Ok(Reply::Bytes(ByteList::of_vec(text)))
        }
    }
}
