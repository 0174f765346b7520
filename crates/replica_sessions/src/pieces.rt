//! The whole plane in pieces.

ghost use Rattle.std.specs.Prelude.{◌≡◌, ◌≤◌, ◌∷◌, ◌++◌, length, unwrap_or, IfOk};
ghost use Rattle.std.specs.Int.{w32, w64, to_be_bytes};
ghost use Rattle.session_hub.specs.Request.{Pieces};
ghost use Rattle.session_hub.specs.Replies.{pieces_reply as pieces_reply_of, refusal, IsInPieces, IsInPiecesReply};
ghost use Rattle.replica_sessions.specs.Answer.{IsAnswer};
ghost use Rattle.replica_sessions.specs.KeptNews.{kept_of};

use crate::bodies::framed;
use crate::fault::SessionFault;
use crate::kept::KeptNews;
use crate::room::Room;
use delta_exchange::write_state;
use frame_service::FrameList;
use generations_rule::Rule;
use message_frames::{Framed, MOST_BODY};
use session_hub::Hub;
use stamped_tree::Plane;
use std::alloc::{AllocError, Global};

/// The reply to a request for the plane in pieces. What was kept is of that plane too, so nothing is kept
/// behind it; where it finds no memory, the plane is kept.
pub fn pieces_reply<H: Hub>(
    alloc: Global,
    hub: &mut H,
    kept: &mut KeptNews,
    room: Room,
) -> FrameList
    ensures answer { IsAnswer H.allows (H.rule_of hub.old) (H.number_of hub.old) Pieces hub.old (kept_of kept.old) result hub.new (kept_of kept.new) }
    ensures rule { H.rule_of hub.new ≡ H.rule_of hub.old }
    ensures number { H.number_of hub.new ≡ H.number_of hub.old }
{
    let rule = hub.rule();
    match hub.hand_out() {
        Err(fault) => room.refusal(fault.number()),
        Ok((plane, count)) => {
            let nothing = KeptNews::new(alloc);
            *kept = nothing;
            match plane_frames(alloc, &rule, &plane, count) {
                Err(_) => {
                    kept.plane = Some(plane);
                    room.refusal(SessionFault::Memory.number())
                }
                Ok(None) => room.refusal(SessionFault::FrameTooLong.number()),
                Ok(Some(frames)) => frames,
            }
        }
    }
}

/// The frames of a plane in pieces; none where they are too many for a reply.
fn plane_frames(
    alloc: Global,
    rule: &Rule,
    plane: &Plane,
    count: u64,
) -> Result<Option<FrameList>, AllocError>
    ensures { IfOk result (λ frames. IsInPiecesReply rule.now plane.now count (unwrap_or frames (refusal 21))) }
{
    // The text itself is let go before the frames are counted.
    let pieces = in_pieces(alloc, &write_state(alloc, rule, plane)?)?;
    counted_frames(alloc, count, pieces)
}

/// A text in pieces, each copied once.
fn in_pieces(alloc: Global, text: &[u8]) -> Result<Vec<Framed>, AllocError>
    ensures { IfOk result (λ pieces. IsInPieces text.now pieces.items) }
{
    let mut pieces = Vec::new(alloc);
    for piece in text.chunks(MOST_BODY) {
        pieces.push(framed(alloc, piece)?)?;
    }
    Ok(pieces)
}

/// Pieces behind the number of edits and their own; none where they are too many for a reply.
fn counted_frames(
    alloc: Global,
    count: u64,
    mut pieces: Vec<Framed>,
) -> Result<Option<FrameList>, AllocError>
    ensures { IfOk result (λ frames. unwrap_or frames (refusal 21) ≡ pieces_reply_of count pieces.items) }
{
    let Ok(number) = u32::try_from(pieces.len()) else {
        return Ok(None);
    };
    let mut frames = Vec::new(alloc);
    frames.push(framed(alloc, &counts(alloc, count, number)?)?)?;
    frames.append(&mut pieces)?;
    Ok(Some(FrameList::of_vec(frames)))
}

/// 0, a number of edits in eight bytes, and a number of pieces in four.
fn counts(alloc: Global, edits: u64, pieces: u32) -> Result<Vec<u8>, AllocError>
    ensures body { IfOk result (λ body. body.items ≡ 0 ∷ (to_be_bytes w64 edits ++ to_be_bytes w32 pieces)) }
    ensures fits { IfOk result (λ body. length body.items ≤ 13) }
{
    let mut body = Vec::new(alloc);
    body.push(0)?;
    body.extend_from_slice(&edits.to_be_bytes())?;
    body.extend_from_slice(&pieces.to_be_bytes())?;
    Ok(body)
}
