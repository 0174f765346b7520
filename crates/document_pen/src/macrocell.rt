//! What a document shows at a later generation, as a macrocell.

ghost use Rattle.document_pen.specs.Macrocells.{IsMacrocellTold};

use crate::fault::PenFault;
use crate::pen::Pen;
use kept_devices::Keep;
use replica_core::Stop;
use told_generations::macrocell_at;

impl<K: Keep> Pen<K> {
    /// The macrocell of what the document shows so many generations later, however many cells that are. `None` where the
    /// generation is past 2^29, whose refusal is printed.
    pub fn macrocell(&mut self, generation: u32) -> Result<Option<Vec<u8>>, PenFault>
        ensures { IsMacrocellTold (λ text. text.items) generation self.old self.new result }
    {
        let before = self.out.len();
        match macrocell_at(self.alloc, &mut self.out, &self.replica, generation) {
            Ok(text) => Ok(text),
            Err(Stop::Memory) => {
                self.out.truncate(before);
                Err(PenFault::Memory)
            }
            Err(Stop::StoreFull) => {
                self.out.truncate(before);
                Err(PenFault::StoreFull)
            }
        }
    }
}
