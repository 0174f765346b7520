//! Requests that need the hub's plane.

ghost use Rattle.std.specs.Prelude.{◌≡◌, ◌⊎◌, ◌+◌, ◌*◌, ◌≤◌, ◌∷◌, ◌++◌, [], length, map, unwrap_or, IfOk, OnOk, drop};
ghost use Rattle.edit_stamps.specs.PlaneMap.{HasStatesBelow};
ghost use Rattle.stamped_tree.specs.Plane.{map_of};
ghost use Rattle.message_frames.specs.Frames.{most_body};
ghost use Rattle.session_hub.specs.Request.{Cut as AsksCut, Export as AsksExport, Many as AsksMany, Whole as AsksWhole, numbers};
ghost use Rattle.session_hub.specs.Replies.{Kept, export_body, refusal, IsCutReply, IsPlaneReply, IsExportReply, AreExportReplies};
ghost use Rattle.replica_sessions.specs.Answer.{IsAnswer};

use crate::bodies::{framed, one_frame, short_count, text_frame, text_frames};
use crate::fault::SessionFault;
use crate::kind::number_of;
use crate::room::Room;
use delta_exchange::write_state;
use export::{Cut, cut_out, export};
use export_workers::{Export, Free, Text, export_many};
use frame_service::FrameList;
use generations_rule::Rule;
use message_frames::Framed;
use session_hub::Hub;
use stamped_tree::Plane;
use std::alloc::{AllocError, Global};
use std::thread::Threads;

/// How many workers make many exports.
const WORKERS: u16 = 4;

/// The reply to a request for the hub's whole plane.
pub fn plane_reply<H: Hub>(alloc: Global, hub: &mut H, room: Room) -> FrameList
    ensures answer { (kept : Kept) → IsAnswer H.allows (H.rule_of hub.old) (H.number_of hub.old) AsksWhole hub.old kept result hub.new kept }
    ensures rule { H.rule_of hub.new ≡ H.rule_of hub.old }
    ensures number { H.number_of hub.new ≡ H.number_of hub.old }
{
    let rule = hub.rule();
    match hub.plane() {
        Err(fault) => room.refusal(fault.number()),
        Ok(plane) => match plane_frames(alloc, &rule, &plane) {
            Err(_) => room.refusal(SessionFault::Memory.number()),
            Ok(None) => room.refusal(SessionFault::FrameTooLong.number()),
            Ok(Some(frames)) => frames,
        },
    }
}

/// The reply to a request for one export.
pub fn export_reply<H: Hub>(alloc: Global, hub: &mut H, room: Room, generation: u32) -> FrameList
    ensures answer { (kept : Kept) → IsAnswer H.allows (H.rule_of hub.old) (H.number_of hub.old) (AsksExport generation) hub.old kept result hub.new kept }
    ensures rule { H.rule_of hub.new ≡ H.rule_of hub.old }
    ensures number { H.number_of hub.new ≡ H.number_of hub.old }
{
    let rule = hub.rule();
    match hub.plane() {
        Err(fault) => room.refusal(fault.number()),
        Ok(plane) => match export_frames(alloc, &rule, &plane, generation) {
            Err(_) => room.refusal(SessionFault::Memory.number()),
            Ok(None) => room.refusal(SessionFault::FrameTooLong.number()),
            Ok(Some(frames)) => frames,
        },
    }
}

/// The reply to a request for one cut.
pub fn cut_reply<H: Hub>(alloc: Global, hub: &mut H, room: Room, asked: Cut) -> FrameList
    ensures answer { (kept : Kept) → IsAnswer H.allows (H.rule_of hub.old) (H.number_of hub.old) (AsksCut asked.window asked.generation) hub.old kept result hub.new kept }
    ensures rule { H.rule_of hub.new ≡ H.rule_of hub.old }
    ensures number { H.number_of hub.new ≡ H.number_of hub.old }
{
    let rule = hub.rule();
    match hub.plane() {
        Err(fault) => room.refusal(fault.number()),
        Ok(plane) => match cut_frames(alloc, &rule, &plane, asked) {
            Err(_) => room.refusal(SessionFault::Memory.number()),
            Ok(None) => room.refusal(SessionFault::FrameTooLong.number()),
            Ok(Some(frames)) => frames,
        },
    }
}

/// The reply to a request for many exports: so many generations, of four bytes each, behind two bytes.
pub fn many_reply<H: Hub, R: Threads + Sync>(
    rt: &R,
    alloc: Global,
    hub: &mut H,
    room: Room,
    count: u16,
    rest: &[u8],
) -> FrameList
    requires { length rest.now ≡ 2 + 4 * count }
    ensures answer { (kept : Kept) → IsAnswer H.allows (H.rule_of hub.old) (H.number_of hub.old) (AsksMany (numbers count (drop 2 rest.now))) hub.old kept result hub.new kept }
    ensures rule { H.rule_of hub.new ≡ H.rule_of hub.old }
    ensures number { H.number_of hub.new ≡ H.number_of hub.old }
{
    let rule = hub.rule();
    let (_, bytes) = rest.split_at(2);
    let Ok(generations) = numbers_of(alloc, count, bytes) else {
        return room.refusal(SessionFault::Memory.number());
    };
    match hub.plane() {
        Err(fault) => room.refusal(fault.number()),
        Ok(plane) => match many_frames(rt, alloc, &rule, &plane, count, &generations) {
            Err(_) => room.refusal(SessionFault::Memory.number()),
            Ok(frames) => frames,
        },
    }
}

/// The frame of a plane's text; none where it is too long for one.
fn plane_frames(alloc: Global, rule: &Rule, plane: &Plane) -> Result<Option<FrameList>, AllocError>
    ensures { IfOk result (λ frames. IsPlaneReply rule.now plane.now (unwrap_or frames (refusal 21))) }
{
    let text = write_state(alloc, rule, plane)?;
    text_frames(alloc, &text)
}

/// The frame of an export; none where its text is too long for one.
fn export_frames(
    alloc: Global,
    rule: &Rule,
    plane: &Plane,
    generation: u32,
) -> Result<Option<FrameList>, AllocError>
    requires { HasStatesBelow rule.now.states (map_of plane.now) }
    ensures { IfOk result (λ frames. IsExportReply rule.now plane.now generation (unwrap_or frames (refusal 21))) }
{
    let answer = match export(alloc, rule, plane, generation) {
        Ok(text) => Ok(Text::of_vec(text)),
        Err(fault) => Err(fault),
    };
    answer_frames(alloc, answer)
}

/// The frame of a cut; none where its text is too long for one.
fn cut_frames(
    alloc: Global,
    rule: &Rule,
    plane: &Plane,
    asked: Cut,
) -> Result<Option<FrameList>, AllocError>
    requires { HasStatesBelow rule.now.states (map_of plane.now) }
    ensures { IfOk result (λ frames. IsCutReply rule.now plane.now asked.window asked.generation (unwrap_or frames (refusal 21))) }
{
    let answer = match cut_out(alloc, rule, plane, asked) {
        Ok(text) => Ok(Text::of_vec(text)),
        Err(fault) => Err(fault),
    };
    answer_frames(alloc, answer)
}

/// The frame of an export's answer; none where its text is too long for one.
fn answer_frames(alloc: Global, answer: Export) -> Result<Option<FrameList>, AllocError>
    ensures { IfOk result (λ frames. unwrap_or frames (refusal 21) ≡ export_body answer ∷ []) }
{
    match answer {
        Ok(text) => text_frames(alloc, text.as_slice()),
        Err(fault) => {
            let frame = framed(alloc, &[fault.number()])?;
            Ok(Some(one_frame(alloc, frame)?))
        }
    }
}

fn many_frames<R: Threads + Sync>(
    rt: &R,
    alloc: Global,
    rule: &Rule,
    plane: &Plane,
    count: u16,
    generations: &[u32],
) -> Result<FrameList, AllocError>
    requires states { HasStatesBelow rule.now.states (map_of plane.now) }
    requires count { length generations.now ≡ count }
    ensures { IfOk result (AreExportReplies rule.now plane.now generations.now) }
{
    let answers = export_many(rt, alloc, rule, plane, generations, WORKERS, &Free)?;
    let mut frames = Vec::new(alloc);
    frames.push(framed(alloc, &short_count(alloc, count)?)?)?;
    put_exports(alloc, &mut frames, answers.into_vec())?;
    Ok(FrameList::of_vec(frames))
}

/// Puts each export behind the frames.
fn put_exports(
    alloc: Global,
    frames: &mut Vec<Framed>,
    answers: Vec<Export>,
) -> Result<(), AllocError>
    ensures { OnOk result (frames.new.items ≡ frames.old.items ++ map export_body answers.items) }
{
    for answer in answers {
        frames.push(export_frame(alloc, answer)?)?;
    }
    Ok(())
}

/// An export in a frame.
fn export_frame(alloc: Global, answer: Export) -> Result<Framed, AllocError>
    ensures { IfOk result (λ framed. framed ≡ export_body answer) }
{
    match answer {
        Ok(text) => text_frame(alloc, text.as_slice()),
        Err(fault) => framed(alloc, &[fault.number()]),
    }
}

/// So many numbers of four bytes each.
fn numbers_of(alloc: Global, count: u16, bytes: &[u8]) -> Result<Vec<u32>, AllocError>
    requires { length bytes.now ≡ 4 * count }
    ensures numbers { IfOk result (λ all. all.items ≡ numbers count bytes.now) }
    ensures count { IfOk result (λ all. length all.items ≡ count) }
{
    let mut all = Vec::new(alloc);
    let mut rest = bytes;
    for _number in 0..count {
        let (first, others) = rest.split_at(4);
        all.push(number_of(first))?;
        rest = others;
    }
    Ok(all)
}
