//! A line of frames to the other side.

ghost use Rattle.std.specs.Prelude.{◌≡◌, ◌^◌, [], false};
ghost use Rattle.frame_line.specs.Receiving.{IsReceived};
ghost use Rattle.frame_line.specs.Talking.{IsSaid};

use crate::fault::LineFault;
use crate::receiving::receive;
use devices::{Sink, Source};
use message_frames::{Framed, Frames};
use std::alloc::Global;

/// How many pulls a body may take. Each gives a byte at least.
const TURNS: u64 = 0x1_0000_0000;

/// A line of frames to the other side: what comes from there, and where to push what is said.
pub struct Line<S: Source + Drop, K: Sink + Drop> {
    pub frames: Frames,
    pub source: S,
    pub sink: K,
}

impl<S: Source + Drop, K: Sink + Drop> Line<S, K> {
    /// A line on which nothing was said or heard.
    pub fn new(alloc: Global, source: S, sink: K) -> Line<S, K>
        ensures { result ≡ record { frames = record { pending = []; is_spent = false }; source = source; sink = sink } }
    {
        Line {
            frames: Frames::new(alloc),
            source,
            sink,
        }
    }

    /// Says a body, whole. `Write` where the sink failed; how much went out then is not told.
    pub fn say(&mut self, body: &Framed) -> Result<(), LineFault>
        ensures source { self.new.source ≡ self.old.source }
        ensures frames { self.new.frames ≡ self.old.frames }
        ensures said { IsSaid (K.known self.old.sink) (K.known self.new.sink) body.now result }
    {
        match self.sink.push_all(body.as_frame()) {
            Ok(()) => Ok(()),
            Err(_) => Err(LineFault::Write),
        }
    }

    /// Hears a body: the next that comes, within 2^32 pulls.
    pub fn hear(&mut self) -> Result<Vec<u8>, LineFault>
        ensures sink { self.new.sink ≡ self.old.sink }
        ensures heard { IsReceived (λ body. body.items) (2 ^ 32) self.old.frames self.new.frames (S.known self.old.source) (S.known self.new.source) result }
    {
        receive(&mut self.frames, &mut self.source, TURNS)
    }
}
