//! Sessions.

ghost use Rattle.std.specs.Prelude.{◌≡◌, ◌≢◌, true, ◌∷◌, [], IfOk};
ghost use Rattle.std.specs.Result.{result_ok};
ghost use Rattle.session_hub.specs.Request.{is_bye, Hello as AsksHello};
ghost use Rattle.session_hub.specs.Replies.{hello_body, nothing_kept, Kept};
ghost use Rattle.replica_sessions.specs.Answer.{AnswersAs, IsAnswer};
ghost use Rattle.replica_sessions.specs.KeptNews.{kept_of};
ghost use Rattle.replica_sessions.specs.Kinds.{request_by, IsWholeRest};

use crate::bodies::{framed, hello, one_frame};
use crate::fault::SessionFault;
use crate::kept::KeptNews;
use crate::kind::{Kind, kind_of};
use crate::pieces::pieces_reply;
use crate::planes::{cut_reply, export_reply, many_reply, plane_reply};
use crate::polls::poll_reply;
use crate::pushes::push_reply;
use crate::room::Room;
use frame_service::{FrameList, Reply};
use generations_rule::Rule;
use session_hub::Hub;
use std::alloc::{AllocError, Global};
use std::marker::Model;
use std::thread::Threads;

/// A hub, and what is kept of its answers whose reply found no memory.
#[derive(Drop)]
pub struct Session<H, R> {
    rt: R,
    alloc: Global,
    hub: H,
    kept: KeptNews,
}

impl<H, R> Model for Session<H, R> {
    ghost use Rattle.replica_sessions.specs.Answer.{SessionState};
    ghost use Rattle.replica_sessions.specs.KeptNews.{kept_of};

    ghost Value = { SessionState H };

    ghost view = { λ s. record { hub = s.hub; kept = kept_of s.kept } };
}

impl<H: Hub, R: Threads + Sync + Drop> Session<H, R> {
    pub fn new(rt: R, alloc: Global, hub: H) -> Session<H, R>
        ensures { result ≡ record { hub = hub; kept = nothing_kept } }
    {
        Session {
            rt,
            alloc,
            hub,
            kept: KeptNews::new(alloc),
        }
    }

    /// The reply to a request. Where there is no memory for even a reply of one byte, nothing is done.
    pub fn answer(&mut self, request: &[u8]) -> Result<Reply, AllocError>
        ensures { AnswersAs H.allows H.rule_of H.number_of self.old request.now (result_ok result) self.new }
    {
        let room = Room::new(self.alloc)?;
        let (kind, rest) = kind_of(request);
        let frames = self.frames_by(room, kind, rest);
        let last = is_last(kind);
        Ok(Reply { frames, last })
    }

    /// The frames of the reply to a request by its kind.
    fn frames_by(&mut self, room: Room, kind: Kind, rest: &[u8]) -> FrameList
        requires { IsWholeRest kind rest.now }
        ensures answer { IsAnswer H.allows (H.rule_of self.old.hub) (H.number_of self.old.hub) (request_by kind rest.now) self.old.hub self.old.kept result self.new.hub self.new.kept }
        ensures rule { H.rule_of self.new.hub ≡ H.rule_of self.old.hub }
        ensures number { H.number_of self.new.hub ≡ H.number_of self.old.hub }
    {
        let alloc = self.alloc;
        let (hub, kept) = (&mut self.hub, &mut self.kept);
        match kind {
            Kind::Hello => hello_reply(alloc, hub, room),
            Kind::Push => push_reply(alloc, hub, room, rest),
            // A request that awaits news was waited for before.
            Kind::Poll | Kind::Await(_) => poll_reply(alloc, hub, kept, room),
            Kind::Whole => plane_reply(alloc, hub, room),
            Kind::Export(generation) => export_reply(alloc, hub, room, generation),
            Kind::Cut(cut) => cut_reply(alloc, hub, room, cut),
            Kind::Bye => room.refusal(0),
            Kind::Many(count) => many_reply(&self.rt, alloc, hub, room, count, rest),
            Kind::Pieces => pieces_reply(alloc, hub, kept, room),
            Kind::Faulty => room.refusal(SessionFault::Request.number()),
        }
    }

    /// Whether there is something that was not handed out: what is kept, or news of the hub.
    pub fn has_news(&self) -> bool
        ensures { self.now.kept ≢ nothing_kept → result ≡ true }
    {
        !self.kept.is_empty() || self.hub.has_news()
    }

    /// What it takes memory from.
    pub fn alloc(&self) -> Global {
        self.alloc
    }

    /// The hub as it is.
    pub fn into_hub(self) -> H
        ensures { result ≡ self.hub }
    {
        let Session {
            rt: _,
            alloc: _,
            hub,
            kept: _,
        } = self;
        hub
    }
}

/// Whether a request of this kind ends the session.
fn is_last(kind: Kind) -> bool
    ensures { (rest : _) → result ≡ is_bye (request_by kind rest) }
{
    match kind {
        Kind::Bye => true,
        Kind::Hello
        | Kind::Push
        | Kind::Poll
        | Kind::Whole
        | Kind::Export(_)
        | Kind::Cut(_)
        | Kind::Many(_)
        | Kind::Await(_)
        | Kind::Pieces
        | Kind::Faulty => false,
    }
}

/// The reply to a greeting.
fn hello_reply<H: Hub>(alloc: Global, hub: &H, room: Room) -> FrameList
    ensures { (kept : Kept) → IsAnswer H.allows (H.rule_of hub.now) (H.number_of hub.now) AsksHello hub.now kept result hub.now kept }
{
    let rule = hub.rule();
    match hello_frames(alloc, &rule, hub.number()) {
        Err(_) => room.refusal(SessionFault::Memory.number()),
        Ok(frames) => frames,
    }
}

/// The rule and the seat in a frame.
fn hello_frames(alloc: Global, rule: &Rule, number: u16) -> Result<FrameList, AllocError>
    ensures { IfOk result (λ frames. frames ≡ hello_body rule.now number ∷ []) }
{
    let body = hello(alloc, rule, number)?;
    one_frame(alloc, framed(alloc, &body)?)
}
