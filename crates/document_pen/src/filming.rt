//! What a document shows at each generation of a range, as texts that an album takes.

ghost use Rattle.document_pen.specs.Filming.{IsFilmed};

use crate::fault::PenFault;
use crate::pen::Pen;
use kept_devices::Keep;
use replica_core::Stop;
use told_generations::{Album, FilmPlan, push_film};

impl<K: Keep> Pen<K> {
    /// Hands what the document shows at each generation of a range to an album, as a text each; what the album prints of
    /// them, or a refusal, is printed. Where memory or room is wanting what was printed by then stands.
    pub fn film<A: Album>(&mut self, plan: FilmPlan, album: &mut A) -> Result<(), PenFault>
        ensures { IsFilmed plan (A.frames album.old) (A.frames album.new) self.old self.new result }
    {
        match push_film(self.alloc, &mut self.out, &self.replica, plan, album) {
            Ok(()) => Ok(()),
            Err(Stop::Memory) => Err(PenFault::Memory),
            Err(Stop::StoreFull) => Err(PenFault::StoreFull),
        }
    }
}
