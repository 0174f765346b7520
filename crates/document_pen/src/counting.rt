//! What is told of the counts of a document at several generations.

ghost use Rattle.document_pen.specs.Counting.{AreCountsTold};

use crate::fault::PenFault;
use crate::pen::Pen;
use command_words::GenerationRange;
use kept_devices::Keep;
use replica_core::Stop;
use told_generations::push_counts;

impl<K: Keep> Pen<K> {
    /// Prints in a line each how many cells the document has at the generations of a range, and in which box; or a
    /// refusal, where the last of them is past 2^29.
    pub fn counts(&mut self, range: GenerationRange) -> Result<(), PenFault>
        ensures { AreCountsTold range self.old self.new result }
    {
        let before = self.out.len();
        match push_counts(self.alloc, &mut self.out, &self.replica, range) {
            Ok(()) => Ok(()),
            Err(Stop::Memory) => {
                self.out.truncate(before);
                Err(PenFault::Memory)
            }
            Err(Stop::StoreFull) => {
                self.out.truncate(before);
                Err(PenFault::StoreFull)
            }
        }
    }
}
