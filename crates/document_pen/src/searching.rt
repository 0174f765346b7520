//! What is told of a search for the period of a document.

ghost use Rattle.document_pen.specs.Searching.{IsPeriodTold};

use crate::fault::PenFault;
use crate::pen::Pen;
use kept_devices::Keep;
use replica_core::Stop;
use told_generations::push_period;

impl<K: Keep> Pen<K> {
    /// Prints the least period, from 1 to `most`, of what the document shows `first` generations later, and by what it
    /// moves; or that there is none, or a refusal, as an export is refused.
    pub fn period(&mut self, first: u32, most: u16) -> Result<(), PenFault>
        ensures { IsPeriodTold first most self.old self.new result }
    {
        let before = self.out.len();
        match push_period(self.alloc, &mut self.out, &self.replica, first, most) {
            Ok(()) => Ok(()),
            Err(Stop::Memory) => {
                self.out.truncate(before);
                Err(PenFault::Memory)
            }
            Err(Stop::StoreFull) => {
                self.out.truncate(before);
                Err(PenFault::StoreFull)
            }
        }
    }
}
