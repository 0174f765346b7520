//! Polls.

ghost use Rattle.std.specs.Prelude.{◌≡◌, ◌⊎◌, ◌+◌, ◌<◌, ◌≤◌, ◌++◌, length, unwrap_or, Some, None, Ok, IfOk};
ghost use Rattle.generations_rule.specs.Rule.{IsRule};
ghost use Rattle.session_hub.specs.Request.{Poll};
ghost use Rattle.message_frames.specs.Frames.{most_body};
ghost use Rattle.session_hub.specs.Replies.{edits_frames as edits_frames_of, edits_left, edits_reply, most_edits, nothing_kept, refusal, whole_frames as whole_frames_of, IsWholeReply};
ghost use Rattle.replica_sessions.specs.Answer.{IsAnswer};
ghost use Rattle.replica_sessions.specs.KeptNews.{kept_of};

use crate::bodies::{framed, long_count, put_edits};
use crate::fault::SessionFault;
use crate::kept::KeptNews;
use crate::room::Room;
use delta_exchange::write_state;
use frame_service::FrameList;
use generations_rule::Rule;
use message_frames::MOST_BODY;
use poll_news::News;
use session_hub::Hub;
use stamped_tree::Plane;
use std::alloc::{AllocError, Global};

/// The most edits of a reply.
const MOST_EDITS: usize = 0xffff_fffe;

/// In the place of their number: a whole plane follows.
const WHOLE: u32 = 0xffff_ffff;

/// The reply to a poll. What the hub gave is kept until a reply with it was built.
pub fn poll_reply<H: Hub>(alloc: Global, hub: &mut H, kept: &mut KeptNews, room: Room) -> FrameList
    ensures answer { IsAnswer H.allows (H.rule_of hub.old) (H.number_of hub.old) Poll hub.old (kept_of kept.old) result hub.new (kept_of kept.new) }
    ensures rule { H.rule_of hub.new ≡ H.rule_of hub.old }
    ensures number { H.number_of hub.new ≡ H.number_of hub.old }
{
    let rule = hub.rule();
    if let Some(plane) = kept.plane.take() {
        return plane_handed_out(alloc, &rule, kept, plane, room);
    }
    match kept.settle() {
        Err(_) => return room.refusal(SessionFault::Memory.number()),
        Ok(()) => {}
    }
    match hub.poll() {
        Err(fault) => room.refusal(fault.number()),
        Ok(News::Edits(edits)) => {
            kept.late = edits.into_vec();
            edits_handed_out(alloc, &rule, kept, room)
        }
        Ok(News::Whole(plane, _)) => {
            let nothing = KeptNews::new(alloc);
            *kept = nothing;
            plane_handed_out(alloc, &rule, kept, plane, room)
        }
    }
}

/// The kept edits as a reply; they are kept where it finds no memory, and where they are too many.
fn edits_handed_out(alloc: Global, rule: &Rule, kept: &mut KeptNews, room: Room) -> FrameList
    requires rule { IsRule rule.now }
    requires no_plane { kept.old.plane ≡ None }
    ensures { ((result ≡ edits_reply rule.now (kept.old.edits.items ++ kept.old.late.items)) × (kept_of kept.new ≡ edits_left (kept.old.edits.items ++ kept.old.late.items)))
        ⊎ ((result ≡ refusal 255) × (kept_of kept.new ≡ kept_of kept.old)) }
{
    if kept.edits.len().saturating_add(kept.late.len()) > MOST_EDITS {
        return room.refusal(SessionFault::FrameTooLong.number());
    }
    match edits_frames(alloc, rule, kept) {
        Err(_) => room.refusal(SessionFault::Memory.number()),
        Ok(frames) => {
            kept.edits = Vec::new(alloc);
            kept.late = Vec::new(alloc);
            frames
        }
    }
}

/// The number of the kept edits, and each.
fn edits_frames(alloc: Global, rule: &Rule, kept: &KeptNews) -> Result<FrameList, AllocError>
    requires rule { IsRule rule.now }
    requires few { length kept.now.edits.items + length kept.now.late.items ≤ most_edits }
    ensures { IfOk result (λ frames. frames ≡ edits_frames_of rule.now (kept.now.edits.items ++ kept.now.late.items)) }
{
    let count = (kept.edits.len() + kept.late.len()) as u32;
    let mut frames = Vec::new(alloc);
    frames.push(framed(alloc, &long_count(alloc, count)?)?)?;
    put_edits(alloc, &mut frames, rule, &kept.edits)?;
    put_edits(alloc, &mut frames, rule, &kept.late)?;
    Ok(FrameList::of_vec(frames))
}

/// A plane as a reply, behind which nothing is kept; where it finds no memory the plane is kept beside
/// what is.
fn plane_handed_out(
    alloc: Global,
    rule: &Rule,
    kept: &mut KeptNews,
    plane: Plane,
    room: Room,
) -> FrameList
    ensures { (IsWholeReply rule.now plane result × (kept_of kept.new ≡ nothing_kept))
        ⊎ ((result ≡ refusal 255) × (kept_of kept.new ≡ record { edits = kept.old.edits.items ++ kept.old.late.items; plane = Some plane })) }
{
    match plane_text(alloc, rule, &plane) {
        Err(_) => {
            kept.plane = Some(plane);
            room.refusal(SessionFault::Memory.number())
        }
        Ok(frames) => {
            kept.edits = Vec::new(alloc);
            kept.late = Vec::new(alloc);
            kept.plane = None;
            match frames {
                None => room.refusal(SessionFault::FrameTooLong.number()),
                Some(frames) => frames,
            }
        }
    }
}

/// The mark and the state text of a plane; nothing where the text is too long for a frame.
fn plane_text(alloc: Global, rule: &Rule, plane: &Plane) -> Result<Option<FrameList>, AllocError>
    ensures { IfOk result (λ frames. IsWholeReply rule.now plane.now (unwrap_or frames (refusal 21))) }
{
    let text = write_state(alloc, rule, plane)?;
    whole_frames(alloc, &text)
}

/// The mark and a text. None where the text is too long for a frame: no memory is wanted then.
fn whole_frames(alloc: Global, text: &[u8]) -> Result<Option<FrameList>, AllocError>
    ensures frames { IfOk result (λ frames. unwrap_or frames (refusal 21) ≡ whole_frames_of text.now) }
    ensures long { most_body < length text.now → result ≡ Ok None }
{
    if text.len() > MOST_BODY {
        return Ok(None);
    }
    let mut frames = Vec::new(alloc);
    frames.push(framed(alloc, &long_count(alloc, WHOLE)?)?)?;
    frames.push(framed(alloc, text)?)?;
    Ok(Some(FrameList::of_vec(frames)))
}
