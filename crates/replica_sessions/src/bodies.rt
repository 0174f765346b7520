//! Bodies of frames.

ghost use Rattle.std.specs.Prelude.{◌≡◌, ◌≤◌, ◌∷◌, ◌++◌, [], length, map, unwrap_or, None, Ok, IfOk, OnOk};
ghost use Rattle.std.specs.Int.{w16, w32, to_be_bytes};
ghost use Rattle.generations_rule.specs.Rule.{IsRule};
ghost use Rattle.delta_exchange.specs.Spelling.{delta_text};
ghost use Rattle.message_frames.specs.Frames.{most_body};
ghost use Rattle.session_hub.specs.Replies.{hello_body, refusal, text_body};

use crate::fault::SessionFault;
use delta_exchange::write_delta;
use edit_stamps::Edit;
use frame_service::FrameList;
use generations_rule::Rule;
use message_frames::{FrameFault, Framed, MOST_BODY};
use std::alloc::{AllocError, Global};
use std::slice;

/// A body behind its length.
pub fn framed(alloc: Global, body: &[u8]) -> Result<Framed, AllocError>
    requires { length body.now ≤ most_body }
    ensures { IfOk result (λ framed. framed ≡ body.now) }
{
    match Framed::of_body(alloc, body) {
        Ok(framed) => Ok(framed),
        Err(_) => Err(AllocError),
    }
}

/// The list of one frame.
pub fn one_frame(alloc: Global, frame: Framed) -> Result<FrameList, AllocError>
    ensures { IfOk result (λ frames. frames ≡ frame ∷ []) }
{
    let mut frames = Vec::new(alloc);
    frames.push(frame)?;
    Ok(FrameList::of_vec(frames))
}

/// The rule and the seat.
pub fn hello(alloc: Global, rule: &Rule, number: u16) -> Result<Vec<u8>, AllocError>
    ensures body { IfOk result (λ body. body.items ≡ hello_body rule.now number) }
    ensures fits { IfOk result (λ body. length body.items ≤ 26) }
{
    let text = rule.write_text(alloc)?;
    let mut body = Vec::new(alloc);
    body.push(0)?;
    body.extend_from_slice(&number.to_be_bytes())?;
    body.push(text.len() as u8)?;
    body.extend_from_slice(&text)?;
    Ok(body)
}

/// A text behind a 0, copied once; or 21, where that is too long for a frame.
pub fn text_frame(alloc: Global, text: &[u8]) -> Result<Framed, AllocError>
    ensures { IfOk result (λ framed. framed ≡ text_body text.now) }
{
    match Framed::of_parts(alloc, &[0], text) {
        Ok(frame) => Ok(frame),
        Err(FrameFault::FrameTooLong) => framed(alloc, &[SessionFault::FrameTooLong.number()]),
        Err(FrameFault::Memory) => Err(AllocError),
    }
}

/// The frame of a text behind a 0, copied once. None where that is too long for a frame: no memory is wanted
/// then.
pub fn text_frames(alloc: Global, text: &[u8]) -> Result<Option<FrameList>, AllocError>
    ensures frames { IfOk result (λ frames. unwrap_or frames (refusal 21) ≡ text_body text.now ∷ []) }
    ensures long { most_body ≤ length text.now → result ≡ Ok None }
{
    if text.len() >= MOST_BODY {
        return Ok(None);
    }
    let frame = text_frame(alloc, text)?;
    Ok(Some(one_frame(alloc, frame)?))
}

/// 0 and a number of two bytes.
pub fn short_count(alloc: Global, count: u16) -> Result<Vec<u8>, AllocError>
    ensures body { IfOk result (λ body. body.items ≡ 0 ∷ to_be_bytes w16 count) }
    ensures fits { IfOk result (λ body. length body.items ≤ 3) }
{
    let mut body = Vec::new(alloc);
    body.push(0)?;
    body.extend_from_slice(&count.to_be_bytes())?;
    Ok(body)
}

/// 0 and a number of four bytes.
pub fn long_count(alloc: Global, count: u32) -> Result<Vec<u8>, AllocError>
    ensures body { IfOk result (λ body. body.items ≡ 0 ∷ to_be_bytes w32 count) }
    ensures fits { IfOk result (λ body. length body.items ≤ 5) }
{
    let mut body = Vec::new(alloc);
    body.push(0)?;
    body.extend_from_slice(&count.to_be_bytes())?;
    Ok(body)
}

/// Puts each edit's text behind the frames.
pub fn put_edits(
    alloc: Global,
    frames: &mut Vec<Framed>,
    rule: &Rule,
    edits: &[Edit],
) -> Result<(), AllocError>
    requires { IsRule rule.now }
    ensures { OnOk result (frames.new.items ≡ frames.old.items ++ map (λ e. delta_text rule.now (e ∷ [])) edits.now) }
{
    for edit in edits {
        frames.push(edit_frame(alloc, rule, edit)?)?;
    }
    Ok(())
}

/// The text of an edit behind its length.
fn edit_frame(alloc: Global, rule: &Rule, edit: &Edit) -> Result<Framed, AllocError>
    requires { IsRule rule.now }
    ensures { IfOk result (λ framed. framed ≡ delta_text rule.now (edit.now ∷ [])) }
{
    // For the proof alone: the call tells that what is held is an edit.
    let _cells = edit.listed_cells();
    let text = write_delta(alloc, rule, slice::from_ref(edit))?;
    framed(alloc, &text)
}
