//! What is told of later generations of a document.

ghost use Rattle.std.specs.Prelude.{◌≡◌};
ghost use Rattle.document_pen.specs.Exporting.{IsTextGiven, IsTold};

use crate::fault::PenFault;
use crate::pen::Pen;
use kept_devices::Keep;
use replica_core::{Question, Reply};

impl<K: Keep> Pen<K> {
    /// Prints what is told of a question: the text of an export or of a cut, how many cells there are, or a
    /// refusal, as `genedit run` does.
    pub fn tell(&mut self, question: Question) -> Result<(), PenFault>
        ensures { IsTold question self.old self.new result }
    {
        match self.replica.tell(question) {
            Ok(reply) => self.print_reply(&reply),
            Err(stop) => Err(PenFault::from(stop)),
        }
    }

    /// Gives the text of an export or of a cut; `None` where it is refused, which is printed.
    pub fn text(&mut self, question: Question) -> Result<Option<Vec<u8>>, PenFault>
        ensures { IsTextGiven (λ text. text.items) question self.old self.new result }
    {
        match self.replica.tell(question) {
            Ok(Reply::Text(text)) => Ok(Some(text.into_vec())),
            Ok(reply) => {
                self.print_reply(&reply)?;
                Ok(None)
            }
            Err(stop) => Err(PenFault::from(stop)),
        }
    }
}
