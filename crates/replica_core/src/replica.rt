//! One replica of a shared plane.

ghost use Rattle.std.specs.Prelude.{List, Ok, Some, slice_get, take, drop, ◌⊎◌, ◌≡◌, ◌≢◌, ◌≤◌, ◌↔◌, ◌++◌, ◌∷◌, [], ℕ, false, Contains, IfOk, IfErr, IfSome, IsTrue, OnOk, OnErr, length, max};
ghost use Rattle.square_store.specs.Limits.{usual_room};
ghost use Rattle.std.specs.Result.{IsOk};
ghost use Rattle.generations_rule.specs.Refusal.{Answers};
ghost use Rattle.generations_rule.specs.Place.{at_place};
ghost use Rattle.edit_stamps.specs.Stamp.{counter_in};
ghost use Rattle.edit_stamps.specs.PlaneMap.{HasStampedWrites, HasStatesBelow, IsGreatestStamp};
ghost use Rattle.stamped_writes.specs.Write.{unwritten, AreSame, Writes, joined};
ghost use Rattle.edit_stamps.specs.Edit.{PlaneEdit, IsEdit, has_states_below, writes_of, HaveStatesBelow, greatest};
ghost use Rattle.edit_journal.specs.Journal.{noted};
ghost use Rattle.held_plane.specs.Held.{IsAsBefore, IsJoinedAt, added_writes};
ghost use Rattle.held_plane.specs.Wanted.{IsJoinedSoFar, IsWantedOf};
ghost use Rattle.export.specs.Export.{IsRoomWanted, last_generation};
ghost use Rattle.replica_core.specs.Exporting.{Tells, generation_of, refusal_or_stop, reply_or_stop};
ghost use Rattle.replica_core.specs.declared.event.Reply.TheVariants as replies;
ghost use Rattle.replica_core.specs.Fault.{IsWant};
ghost use Rattle.delta_exchange.specs.Message.{edits_in, writes_in, IsBelowStates};
ghost use Rattle.replica_core.specs.Replica.{made, or_edit_fault, stamp_after};
ghost use Rattle.replica_core.specs.Room.{IsFullOf, IsWantedJoining};
ghost use Rattle.stamped_tree.specs.Plane.{map_of};
ghost use Rattle.generation_engine.specs.Universe.{states_in_writes};
ghost use Rattle.export.specs.Kept.{IsRunOf};

use crate::event::{ByteList, Question, Reply, Stop};
use crate::fault::Fault;
use delta_exchange::{Content, Message, read_within, write_delta, write_state};
use edit_journal::Journal;
use edit_stamps::{Edit, Stamp, Write, counter_of};
use export::{
    Count, ExportFault, count_on, cut_by_tiles, cut_on, export, export_by_tiles, export_on,
};
use generation_engine::Engine;
use generations_rule::Rule;
use held_plane::{Added, HeldPlane};
use replica_events::EditSpec;
use stamped_tree::{Limits, Part, Plane};
use std::alloc::{AllocError, Global};
use std::marker::Model;
use std::slice;
use tree_join::same_remembered;

/// A replica of a shared plane: it draws, takes what others send, and shows what it holds. Its
/// number, 1 to 65535, is its own among all that exchange messages.
pub struct Replica {
    alloc: Global,
    rule: Rule,
    number: u16,
    plane: HeldPlane,
    journal: Journal,
}

/// By hand, so that a caller's proof sees one step where a replica is dropped.
impl Drop for Replica {
    fn drop(self) {
        let Replica {
            alloc: _,
            rule: _,
            number: _,
            plane: _,
            journal: _,
        } = self;
    }
}

impl Model for Replica {
    ghost use Rattle.replica_core.specs.Replica.{ReplicaState, IsReplica};

    ghost Value = { ReplicaState };

    ghost view = { λ r. record { rule = r.rule; number = r.number; plane = r.plane; journal = r.journal } };

    ghost invariant = { λ r. IsReplica (record { rule = r.rule; number = r.number; plane = r.plane; journal = r.journal }) };
}

impl Replica {
    ghost use Rattle.edit_stamps.specs.Plane.{is_in_plane};
    ghost use Rattle.delta_exchange.specs.declared.message.Content.TheVariants.{Edits};
    ghost use Rattle.delta_exchange.specs.Delta.{AreTellable};
    ghost use Rattle.delta_exchange.specs.MessageReading.{message_of};
    ghost use Rattle.delta_exchange.specs.Spelling.{delta_text};
    ghost use Rattle.delta_exchange.specs.State.{IsTellableMap};
    ghost use Rattle.delta_exchange.specs.StateText.{IsStateText};
    ghost use Rattle.delta_exchange.specs.Versions.{IsReadableStateText};
    ghost use Rattle.replica_core.specs.Exchange.{delta_given, IsTakingMap, IsTakingOf, IsTakingText};
    ghost use Rattle.export.specs.Export.{IsRoomWanted, last_generation};
    ghost use Rattle.replica_core.specs.Exporting.{IsExportFault, IsExportOf, Tells, generation_of};
    ghost use Rattle.replica_core.specs.Replica.{edit_drawn, IsDraw, IsJournalOf, IsMadeAs, IsNew, IsReplica, IsSnapshot, IsTaking, Takes};

    /// A replica that holds nothing, with room for 2^26 squares. The only error is want of memory.
    pub fn new(alloc: Global, rule: Rule, number: u16) -> Result<Replica, Fault>
        requires { 1 ≤ number }
        ensures new { IfOk result (λ replica. IsNew rule number usual_room replica) }
        ensures err { IfErr result (λ fault. fault ≡ Fault.Memory) }
    {
        Replica::within(alloc, rule, number, Limits::usual())
    }

    /// A replica that holds nothing, with room for so many squares. The only error is want of memory.
    pub fn with_room(alloc: Global, rule: Rule, number: u16, nodes: u32) -> Result<Replica, Fault>
        requires number { 1 ≤ number }
        requires nodes { 1 ≤ nodes }
        ensures new { IfOk result (λ replica. IsNew rule number nodes replica) }
        ensures err { IfErr result (λ fault. fault ≡ Fault.Memory) }
    {
        Replica::within(alloc, rule, number, Limits::of_room(nodes))
    }

    /// A replica that holds nothing, within limits. By their key it finds the squares of the planes that it
    /// reads too, and the edits of its journal.
    pub fn within(alloc: Global, rule: Rule, number: u16, limits: Limits) -> Result<Replica, Fault>
        requires number { 1 ≤ number }
        requires room { 1 ≤ limits.room }
        ensures new { IfOk result (λ replica. IsNew rule number limits.room replica) }
        ensures err { IfErr result (λ fault. fault ≡ Fault.Memory) }
    {
        // For the proof alone: the call tells that what is held is a rule.
        let _rule = rule.states();
        let plane = HeldPlane::new(alloc, limits)?;
        let (key0, key1) = limits.key.pair();
        Ok(Replica {
            alloc,
            rule,
            number,
            plane,
            journal: Journal::with_key(alloc, key0, key1),
        })
    }

    pub fn rule(&self) -> Rule
        ensures { result ≡ self.now.rule }
    {
        self.rule
    }

    pub fn number(&self) -> u16
        ensures value { result ≡ self.now.number }
        ensures replica { IsReplica self.now }
    {
        self.number
    }

    /// The edits that were drawn here or given in messages of edits, in order, each once.
    pub fn journal(&self) -> &[Edit]
        ensures value { result.now ≡ self.now.journal }
        ensures journal { IsJournalOf (map_of self.now.plane) self.now.journal }
        ensures states { HaveStatesBelow self.now.rule.states self.now.journal }
    {
        self.journal.as_slice()
    }

    /// Whether the journal has an edit at a place, counted from 0. Where it has, taking the edit once more would
    /// change nothing.
    pub fn has_at(&self, place: usize, edit: &Edit) -> bool
        ensures value { IsTrue result ↔ (slice_get self.now.journal place ≡ Some edit.now) }
        ensures taken { IsTrue result → Takes self.now self.now (Edits (edit.now ∷ [])) }
        ensures tellable { IsTrue result → AreTellable self.now.rule.states (edit.now ∷ []) }
    {
        let journal = self.journal.as_slice();
        if place < journal.len() {
            journal[place].same(edit)
        } else {
            false
        }
    }

    /// The plane that it holds.
    pub fn plane(&self) -> &Plane
        ensures value { result.now ≡ self.now.plane }
        ensures states { HasStatesBelow self.now.rule.states (map_of self.now.plane) }
    {
        let _ = &self.rule;
        self.plane.plane()
    }

    /// The write at a coordinate; the least write where nothing was written, and outside the plane.
    pub fn get(&self, x: i32, y: i32) -> Write
        ensures value { result ≡ map_of self.now.plane (at_place x y) }
        ensures outside { is_in_plane (at_place x y) ≡ false → result ≡ unwritten }
        ensures stamped { HasStampedWrites (map_of self.now.plane) }
    {
        self.plane.plane().get(x, y)
    }

    /// Whether another replica holds the same write at every cell. The only error is want of memory.
    pub fn holds_same(&self, other: &Replica) -> Result<bool, AllocError>
        ensures { IfOk result (λ same. IsTrue same ↔ AreSame (map_of self.now.plane) (map_of other.now.plane)) }
    {
        same_remembered(self.alloc, self.plane.plane(), other.plane.plane())
    }

    /// A message of this replica's map, in a plane of the replica's room. The only error is want of memory.
    pub fn snapshot(&self) -> Result<Message, Fault>
        ensures snapshot { IfOk result (λ message. IsSnapshot self.now message) }
        ensures err { IfErr result (λ fault. fault ≡ Fault.Memory) }
    {
        // For the proof alone: the call tells that each write has a stamp.
        let _write = self.plane.plane().get(0, 0);
        let plane = self.plane.plane().copy()?;
        Ok(Message::of_plane(self.rule, plane))
    }

    /// Draws an edit: its stamp is one more than the greatest counter held, with this replica's
    /// number (Lamport 1978), so that it wins every cell that it writes. Refused are a full clock,
    /// then what the maker of the edit refuses; memory and room are wanted only where neither
    /// refuses. After any refusal the replica is as it was.
    pub fn draw(&mut self, spec: EditSpec) -> Result<Edit, Fault>
        ensures { (n : ℕ) × IsGreatestStamp n (map_of self.old.plane)
            × IsDraw self.old self.new (edit_drawn self.old.rule (counter_in n) self.old.number spec) result }
    {
        self.draw_as(&spec)
    }

    /// Draws an edit, as `draw`, and leaves what is to be drawn with the caller.
    pub fn draw_as(&mut self, spec: &EditSpec) -> Result<Edit, Fault>
        ensures { (n : ℕ) × IsGreatestStamp n (map_of self.old.plane)
            × IsDraw self.old self.new (edit_drawn self.old.rule (counter_in n) self.old.number spec.now) result }
    {
        let stamp = next_stamp(&self.plane, self.number, 0)?;
        let edit = make(self.alloc, &self.rule, stamp, spec)?;
        draw_into(&mut self.plane, &mut self.journal, &edit)?;
        Ok(edit)
    }

    /// The edit that `draw_as` would draw, made and not taken, with a counter above a given one too: for
    /// one that is to be taken where others have seen it, and that wins what was drawn with greater
    /// stamps elsewhere. Refused as there; want of memory is answered only where nothing is refused.
    pub fn edit_of(&self, after: u64, spec: &EditSpec) -> Result<Edit, Fault>
        ensures made { (n : ℕ) × IsGreatestStamp n (map_of self.now.plane)
            × IsMadeAs (edit_drawn self.now.rule (max after (counter_in n)) self.now.number spec.now) result }
        ensures states { IfOk result (λ edit. IsTrue (has_states_below self.now.rule.states edit)) }
    {
        let stamp = next_stamp(&self.plane, self.number, after)?;
        make(self.alloc, &self.rule, stamp, spec)
    }

    /// Takes a message: joins its map, or what its edits write, and notes those of its edits that
    /// the journal does not have by then. Refused is a message of another rule. A message is taken
    /// whole or not at all: after any refusal, want of memory or of room too, the replica is as it was.
    pub fn take(&mut self, message: &Message) -> Result<(), Fault>
        ensures { IsTaking self.old self.new message.now result }
    {
        match self.take_noting_change(message) {
            Ok(_) => Ok(()),
            Err(fault) => Err(fault),
        }
    }

    /// Takes edits of the replica's rule, as it takes a message of them: whole or not at all. The only errors
    /// are want of memory and of room.
    pub fn take_edits(&mut self, edits: &[Edit]) -> Result<(), Fault>
        requires { HaveStatesBelow self.old.rule.states edits.now }
        ensures { IsTakingOf self.old self.new (λ content. content ≡ Edits edits.now) result }
    {
        take_edits(&mut self.plane, &mut self.journal, edits)?;
        Ok(())
    }

    /// Takes the bytes of a message: reads them, and takes what they tell, whole or not at all. Refused
    /// are bytes that are no message under this replica's rule, by their first fault. After any refusal
    /// the replica is as it was. Want of memory may be told though a fault stands further on; `StoreFull`
    /// where this replica's store is full, or the plane that a map is read into, of 2^26 squares.
    pub fn take_bytes(&mut self, text: &[u8]) -> Result<(), Fault>
        // What is taken, or which fault.
        ensures told { IsTakingText self.old self.new text.now (message_of self.old.rule text.now) result }
        // The text of edits, and of a map in either version, is taken.
        ensures edits { (meant : List PlaneEdit) → AreTellable self.old.rule.states meant → text.now ≡ delta_text self.old.rule meant
            → IsTakingOf self.old self.new (λ content. content ≡ Edits meant) result }
        ensures map { (meant : Writes) → IsTellableMap self.old.rule.states meant → IsReadableStateText self.old.rule meant text.now
            → IsTakingMap self.old self.new meant result }
    {
        match self.take_bytes_noting_change(text) {
            Ok(_) => Ok(()),
            Err(fault) => Err(fault),
        }
    }

    /// Takes the bytes of a message, as `take_bytes`, and answers whether the map is another one than
    /// before.
    pub(crate) fn take_bytes_noting_change(&mut self, text: &[u8]) -> Result<bool, Fault>
        ensures told { IsTakingText self.old self.new text.now (message_of self.old.rule text.now) result }
        ensures edits { (meant : List PlaneEdit) → AreTellable self.old.rule.states meant → text.now ≡ delta_text self.old.rule meant
            → IsTakingOf self.old self.new (λ content. content ≡ Edits meant) result }
        ensures map { (meant : Writes) → IsTellableMap self.old.rule.states meant → IsReadableStateText self.old.rule meant text.now
            → IsTakingMap self.old self.new meant result }
        ensures change { IfOk result (λ changed. (changed ≡ false) ↔ AreSame (map_of self.new.plane) (map_of self.old.plane)) }
    {
        let limits = Limits::of_key(self.plane.plane().key());
        let message = read_within(self.alloc, &self.rule, text, limits)?;
        self.take_noting_change(&message)
    }

    /// Takes a message, as `take`, and answers whether the map is another one than before.
    fn take_noting_change(&mut self, message: &Message) -> Result<bool, Fault>
        ensures taking { IsTaking self.old self.new message.now result }
        ensures change { IfOk result (λ changed. (changed ≡ false) ↔ AreSame (map_of self.new.plane) (map_of self.old.plane)) }
    {
        if !self.rule.same(&message.rule()) {
            return Err(Fault::OtherRule);
        }
        let changed = take_into(&mut self.plane, &mut self.journal, message.content())?;
        Ok(changed)
    }

    /// The bytes of a message of this replica's map. The only error is want of memory.
    pub fn state(&self) -> Result<Vec<u8>, AllocError>
        ensures text { IfOk result (λ text. IsStateText self.now.rule (map_of self.now.plane) text.items) }
        ensures map { IsTellableMap self.now.rule.states (map_of self.now.plane) }
    {
        // For the proof alone: the call tells that each write has a stamp, and none lies outside.
        let _write = self.plane.plane().get(0, 0);
        write_state(self.alloc, &self.rule, self.plane.plane())
    }

    /// The bytes of a message of `count` edits of the journal from place `from` on, counted from 0.
    /// Refused is `NoSuchEdit` where the journal ends before; memory is wanted only where it does not.
    pub fn delta(&self, from: u32, count: u32) -> Result<Vec<u8>, Fault>
        ensures text { IfOk result (λ text. delta_given self.now from count ≡ Ok text.items) }
        ensures err { IfErr result (λ fault. ((fault ≡ Fault.Memory) × IsOk (delta_given self.now from count)) ⊎ (delta_given self.now from count ≡ Err fault)) }
        ensures edits { AreTellable self.now.rule.states (take count (drop from self.now.journal)) }
    {
        let end = u64::from(from) + u64::from(count);
        let journal = self.journal.as_slice();
        if end > journal.len() as u64 {
            return Err(Fault::NoSuchEdit);
        }
        let edits = &journal[from as usize..end as usize];
        Ok(write_delta(self.alloc, &self.rule, edits)?)
    }

    /// The cells of this replica's map so many generations later, in Golly's multi-state RLE. Refused are
    /// `GenRange` where the generation is greater than 2^29, then `TooManyCells` where more than 2^24
    /// cells are not dead then; memory, and room for 2^26 squares, are wanted only for a generation that is
    /// one.
    pub fn export(&self, generation: u32) -> Result<Vec<u8>, Fault>
        ensures text { IfOk result (λ text. IsExportOf self.now generation (Ok text.items)) }
        ensures err { IfErr result (IsExportFault self.now generation) }
        ensures full { result ≡ Err Fault.StoreFull → IsRoomWanted self.now.rule self.now.plane generation usual_room }
    {
        match export(self.alloc, &self.rule, self.plane.plane(), generation) {
            Ok(text) => Ok(text),
            Err(fault) => Err(Fault::from(fault)),
        }
    }

    /// What is told of a question about this replica's map: a text, a count, or a refusal, as `export` refuses. The only
    /// errors are want of memory, and of room for 2^26 squares, at a generation that is one.
    pub fn tell(&self, question: Question) -> Result<Reply, Stop>
        ensures told { IfOk result (Tells self.now.rule (states_in_writes (map_of self.now.plane)) question) }
        ensures err { IfErr result (λ _. generation_of question ≤ last_generation) }
        ensures full { result ≡ Err Stop.StoreFull → IsRoomWanted self.now.rule self.now.plane (generation_of question) usual_room }
    {
        let mut none = None;
        self.tell_next(question, true, &mut none)
    }

    /// `tell`, of the first question about a map by tiles where these can, else by the universe that an earlier one left, if
    /// there is one.
    pub(crate) fn tell_next(
        &self,
        question: Question,
        is_first: bool,
        kept: &mut Option<Engine>,
    ) -> Result<Reply, Stop>
        requires { IfSome kept.old (IsRunOf self.now.rule (states_in_writes (map_of self.now.plane))) }
        ensures told { IfOk result (Tells self.now.rule (states_in_writes (map_of self.now.plane)) question) }
        ensures err { IfErr result (λ _. generation_of question ≤ last_generation) }
        ensures full { result ≡ Err Stop.StoreFull → IsRoomWanted self.now.rule self.now.plane (generation_of question) usual_room }
        ensures kept { IfSome kept.new (IsRunOf self.now.rule (states_in_writes (map_of self.now.plane))) }
    {
        let by_tiles = if is_first {
            told_by_tiles(self.alloc, &self.rule, self.plane.plane(), question)
        } else {
            None
        };
        match by_tiles {
            Some(answer) => answer,
            None => self.tell_on(question, kept),
        }
    }

    /// `tell`, by the universe that an earlier question about the same map left, if there is one.
    fn tell_on(&self, question: Question, kept: &mut Option<Engine>) -> Result<Reply, Stop>
        requires { IfSome kept.old (IsRunOf self.now.rule (states_in_writes (map_of self.now.plane))) }
        ensures told { IfOk result (Tells self.now.rule (states_in_writes (map_of self.now.plane)) question) }
        ensures err { IfErr result (λ _. generation_of question ≤ last_generation) }
        ensures full { result ≡ Err Stop.StoreFull → IsRoomWanted self.now.rule self.now.plane (generation_of question) usual_room }
        ensures kept { IfSome kept.new (IsRunOf self.now.rule (states_in_writes (map_of self.now.plane))) }
    {
        tell_of(self.alloc, &self.rule, self.plane.plane(), question, kept)
    }
}

/// What is told of a question about a plane under a rule, where tiles tell it. They do not tell a count.
fn told_by_tiles(
    alloc: Global,
    rule: &Rule,
    plane: &Plane,
    question: Question,
) -> Option<Result<Reply, Stop>>
    requires { HasStatesBelow rule.now.states (map_of plane.now) }
    ensures told { IfSome result (λ answer. IfOk answer (Tells rule.now (states_in_writes (map_of plane.now)) question)) }
    ensures err { IfSome result (λ answer. IfErr answer (λ stop. (stop ≡ Stop.Memory) × (generation_of question ≤ last_generation))) }
{
    match question {
        Question::Export(generation) => {
            let answer = export_by_tiles(alloc, rule, plane, generation)?;
            Some(text_reply(answer))
        }
        Question::Cut(cut) => {
            let answer = cut_by_tiles(alloc, rule, plane, cut)?;
            Some(text_reply(answer))
        }
        Question::Count(_) => None,
    }
}

/// What is told of a question about a plane under a rule, by the universe that an earlier one left.
fn tell_of(
    alloc: Global,
    rule: &Rule,
    plane: &Plane,
    question: Question,
    kept: &mut Option<Engine>,
) -> Result<Reply, Stop>
    requires states { HasStatesBelow rule.now.states (map_of plane.now) }
    requires kept { IfSome kept.old (IsRunOf rule.now (states_in_writes (map_of plane.now))) }
    ensures told { IfOk result (Tells rule.now (states_in_writes (map_of plane.now)) question) }
    ensures err { IfErr result (λ _. generation_of question ≤ last_generation) }
    ensures full { result ≡ Err Stop.StoreFull → IsRoomWanted rule.now plane.now (generation_of question) usual_room }
    ensures kept { IfSome kept.new (IsRunOf rule.now (states_in_writes (map_of plane.now))) }
{
    match question {
        Question::Export(generation) => {
            text_reply(export_on(alloc, rule, plane, generation, kept))
        }
        Question::Cut(cut) => text_reply(cut_on(alloc, rule, plane, cut, kept)),
        Question::Count(generation) => count_reply(count_on(alloc, rule, plane, generation, kept)),
    }
}

/// The reply of a text, or of its refusal.
fn text_reply(answer: Result<Vec<u8>, ExportFault>) -> Result<Reply, Stop>
    ensures { result ≡ reply_or_stop (λ text. replies.Text text.items) answer }
{
    match answer {
        Ok(text) => Ok(Reply::Text(ByteList::of_vec(text))),
        Err(fault) => refusal(fault),
    }
}

/// The reply of a count, or of its refusal.
fn count_reply(answer: Result<Count, ExportFault>) -> Result<Reply, Stop>
    ensures { result ≡ reply_or_stop replies.Counted answer }
{
    match answer {
        Ok(count) => Ok(Reply::Counted(count)),
        Err(fault) => refusal(fault),
    }
}

/// The reply of a refusal; a want is none.
fn refusal(fault: ExportFault) -> Result<Reply, Stop>
    ensures { result ≡ refusal_or_stop fault }
{
    match fault {
        ExportFault::Memory => Err(Stop::Memory),
        ExportFault::StoreFull => Err(Stop::StoreFull),
        refusal => Ok(Reply::Refused(Fault::Export(refusal))),
    }
}

/// Lamport's rule: one more than the greatest counter held, or than a given one where that is greater.
fn next_stamp(plane: &HeldPlane, number: u16, after: u64) -> Result<Stamp, Fault>
    requires { 1 ≤ number }
    ensures { (n : ℕ) × IsGreatestStamp n (map_of plane.now) × (result ≡ stamp_after (max after (counter_in n)) number) }
{
    let greatest = after.max(counter_of(plane.plane().greatest_stamp()));
    if greatest >= Stamp::LAST_COUNTER {
        return Err(Fault::ClockFull);
    }
    Stamp::new(greatest + 1, number).ok_or(Fault::ClockFull)
}

/// The edit of a specification.
fn make(alloc: Global, rule: &Rule, stamp: Stamp, spec: &EditSpec) -> Result<Edit, Fault>
    ensures edit { Answers IsWant result (or_edit_fault (made rule.now stamp spec.now)) }
    ensures want { IfErr result (λ fault. IsWant fault → IsOk (made rule.now stamp spec.now)) }
    ensures room { IfErr result (λ fault. fault ≢ Fault.StoreFull) }
    ensures states { IfOk result (λ edit. IsTrue (has_states_below rule.now.states edit)) }
{
    let edit = match spec {
        EditSpec::Cells(cells) => Edit::cells(alloc, rule, stamp, cells.as_slice())?,
        EditSpec::Copy(pattern, x, y) => Edit::paste_copy(alloc, rule, stamp, pattern, *x, *y)?,
        EditSpec::Or(pattern, x, y) => Edit::paste_or(alloc, rule, stamp, pattern, *x, *y)?,
        EditSpec::Clear(area) => Edit::clear(alloc, stamp, *area)?,
    };
    Ok(edit)
}

/// Adds the square that a plane's root would be if something were joined, and leaves the map as it was.
fn add(plane: &mut HeldPlane, added: Added<'_>) -> Result<Part, Fault>
    ensures joins { IfOk result (IsJoinedAt plane.old plane.new (added_writes added.entry)) }
    ensures before { IsAsBefore plane.old plane.new }
    ensures err { IfErr result IsWant }
    ensures full { IfErr result (λ fault. fault ≡ Fault.StoreFull → IsFullOf plane.old plane.new (IsWantedOf (map_of plane.old) added.entry)) }
{
    let root = plane.add(added);
    // For the proof alone: the call tells that each square is stored once.
    plane.plane().plane_laws(plane.plane());
    Ok(root?)
}

/// Joins an edit and notes it. All that may be refused is done before anything changes.
fn draw_into(plane: &mut HeldPlane, journal: &mut Journal, edit: &Edit) -> Result<(), Fault>
    ensures map { OnOk result (AreSame (map_of plane.new) (joined (map_of plane.old) (writes_of edit.now))) }
    ensures room { plane.new.store.room ≡ plane.old.store.room }
    ensures noted { OnOk result (journal.new ≡ noted journal.old (edit.now ∷ [])) }
    ensures before { OnErr result (IsAsBefore plane.old plane.new) }
    ensures unnoted { OnErr result (journal.new ≡ journal.old) }
    ensures err { IfErr result IsWant }
    ensures full { IfErr result (λ fault. fault ≡ Fault.StoreFull → IsFullOf plane.old plane.new (IsJoinedSoFar (map_of plane.old) (edit.now ∷ []))) }
{
    let noted = edit.copy()?;
    let root = add(plane, Added::Edits(slice::from_ref(edit)))?;
    journal.push(noted)?;
    let _ = plane.set_root(root);
    Ok(())
}

/// Joins what a message shares, and notes its edits; answers whether the map is another one than before.
fn take_into(plane: &mut HeldPlane, journal: &mut Journal, content: &Content) -> Result<bool, Fault>
    ensures map { OnOk result (AreSame (map_of plane.new) (joined (map_of plane.old) (writes_in content.now))) }
    ensures change { IfOk result (λ changed. (changed ≡ false) ↔ AreSame (map_of plane.new) (map_of plane.old)) }
    ensures room { plane.new.store.room ≡ plane.old.store.room }
    ensures noted { OnOk result (journal.new ≡ noted journal.old (edits_in content.now)) }
    ensures before { OnErr result (IsAsBefore plane.old plane.new) }
    ensures unnoted { OnErr result (journal.new ≡ journal.old) }
    ensures err { IfErr result IsWant }
    ensures full { IfErr result (λ fault. fault ≡ Fault.StoreFull → IsFullOf plane.old plane.new (IsWantedJoining (map_of plane.old) content.now)) }
    ensures edits { OnOk result ((e : PlaneEdit) → Contains (edits_in content.now) e → IsEdit e) }
{
    match content {
        Content::Edits(edits) => take_edits(plane, journal, edits.as_slice()),
        Content::State(other) => take_map(plane, other),
    }
}

/// Joins what edits write, and notes them, and answers the same. All that may be refused is done before anything changes.
fn take_edits(plane: &mut HeldPlane, journal: &mut Journal, edits: &[Edit]) -> Result<bool, Fault>
    ensures map { OnOk result (AreSame (map_of plane.new) (joined (map_of plane.old) (greatest edits.now))) }
    ensures change { IfOk result (λ changed. (changed ≡ false) ↔ AreSame (map_of plane.new) (map_of plane.old)) }
    ensures room { plane.new.store.room ≡ plane.old.store.room }
    ensures noted { OnOk result (journal.new ≡ noted journal.old edits.now) }
    ensures edits { OnOk result ((e : PlaneEdit) → Contains edits.now e → IsEdit e) }
    ensures before { OnErr result (IsAsBefore plane.old plane.new) }
    ensures unnoted { OnErr result (journal.new ≡ journal.old) }
    ensures err { IfErr result IsWant }
    ensures full { IfErr result (λ fault. fault ≡ Fault.StoreFull → IsFullOf plane.old plane.new (IsJoinedSoFar (map_of plane.old) edits.now)) }
{
    let root = add(plane, Added::Edits(edits))?;
    journal.note(edits)?;
    Ok(plane.set_root(root))
}

/// Joins a map, and answers the same.
fn take_map(plane: &mut HeldPlane, other: &Plane) -> Result<bool, Fault>
    ensures map { OnOk result (AreSame (map_of plane.new) (joined (map_of plane.old) (map_of other.now))) }
    ensures change { IfOk result (λ changed. (changed ≡ false) ↔ AreSame (map_of plane.new) (map_of plane.old)) }
    ensures room { plane.new.store.room ≡ plane.old.store.room }
    ensures before { OnErr result (IsAsBefore plane.old plane.new) }
    ensures err { IfErr result IsWant }
    ensures full { IfErr result (λ fault. fault ≡ Fault.StoreFull → IsFullOf plane.old plane.new (λ map. AreSame map (joined (map_of plane.old) (map_of other.now)))) }
{
    let root = add(plane, Added::Map(other))?;
    Ok(plane.set_root(root))
}
