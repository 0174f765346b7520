//! Films: what a replica holds at each generation of a range.

ghost use Rattle.std.specs.Prelude.{◌≡◌, ◌≤◌, ◌^◌, IfErr, OnErr, OnOk, option_map};
ghost use Rattle.stamped_tree.specs.Plane.{map_of};
ghost use Rattle.generation_engine.specs.Universe.{states_in_writes};
ghost use Rattle.command_words.specs.Ranges.{last_of};
ghost use Rattle.told_generations.specs.Counts.{IsRoomWantedWithin};
ghost use Rattle.told_generations.specs.Films.{BreaksFilm, IsFrameTold, MakesFilm, TellsFilm};

use crate::album::{Album, Put};
use crate::film_form::FilmPlan;
use crate::film_texts::{Reel, text_at};
use crate::lines::push_refusal;
use export::{ExportFault, LAST_GENERATION};
use replica_core::{Replica, Stop};
use std::alloc::Global;

/// Hands what a replica holds at each generation of a range to an album, in their order, as a text each, made from what the
/// one before left. It ends behind a text that the album does not take, and before a generation that has more cells than the
/// text may have, whose refusal is printed as an export's. Where the last generation is past 2^29 nothing is handed on, and
/// that alone is printed. Where memory or room is wanting the texts before stay with the album, and what was printed stands.
pub fn push_film<A: Album>(
    alloc: Global,
    out: &mut Vec<u8>,
    replica: &Replica,
    plan: FilmPlan,
    album: &mut A,
) -> Result<(), Stop>
    ensures told { OnOk result (TellsFilm plan replica.now.rule (states_in_writes (map_of replica.now.plane)) (A.frames album.old) (A.frames album.new) out.old.items out.new.items) }
    ensures broken { OnErr result (BreaksFilm plan replica.now.rule (states_in_writes (map_of replica.now.plane)) (A.frames album.old) (A.frames album.new) out.old.items out.new.items) }
    ensures full { result ≡ Err Stop.StoreFull → IsRoomWantedWithin replica.now.rule replica.now.plane plan.range }
{
    if plan.range.last_generation() > LAST_GENERATION {
        return push_refusal(alloc, out, ExportFault::GenRange);
    }
    push_frames(alloc, out, replica, plan, album)
}

/// A film whose last generation is one.
fn push_frames<A: Album>(
    alloc: Global,
    out: &mut Vec<u8>,
    replica: &Replica,
    plan: FilmPlan,
    album: &mut A,
) -> Result<(), Stop>
    requires { last_of plan.range ≤ 2 ^ 29 }
    ensures told { OnOk result (MakesFilm plan replica.now.rule (states_in_writes (map_of replica.now.plane)) (A.frames album.old) (A.frames album.new) out.old.items out.new.items) }
    ensures broken { OnErr result (BreaksFilm plan replica.now.rule (states_in_writes (map_of replica.now.plane)) (A.frames album.old) (A.frames album.new) out.old.items out.new.items) }
    ensures full { result ≡ Err Stop.StoreFull → IsRoomWantedWithin replica.now.rule replica.now.plane plan.range }
{
    let mut reel = Reel::new();
    let frames = u64::from(plan.range.steps()) + 1;
    for frame in 0..frames {
        let generation = plan.range.at(frame as u32);
        let text = text_at(alloc, replica, plan.form, generation, &mut reel)?;
        if push_frame(alloc, out, generation, text, album)? == Put::Refused {
            return Ok(());
        }
    }
    Ok(())
}

/// Hands the text of a generation on, or prints that it has too many cells: whether the film goes on.
fn push_frame<A: Album>(
    alloc: Global,
    out: &mut Vec<u8>,
    generation: u32,
    text: Option<Vec<u8>>,
    album: &mut A,
) -> Result<Put, Stop>
    ensures told { IsFrameTold generation (option_map (λ t. t.items) text) (A.frames album.old) (A.frames album.new) out.old.items out.new.items result }
    ensures want { IfErr result (λ stop. stop ≡ Stop.Memory) }
{
    match text {
        Some(text) => {
            let put = album.put(generation, &text, out)?;
            Ok(put)
        }
        None => {
            push_refusal(alloc, out, ExportFault::TooManyCells)?;
            Ok(Put::Refused)
        }
    }
}
