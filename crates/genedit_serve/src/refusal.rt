//! Why what a file has is not put on a board.

ghost use Rattle.genedit_serve.specs.Keeping.{IsUnopened};

use board_keeper::LoadFault;
use document_files::FileRefusal;
use genedit_io::RunFault;
use relay_board::{SubmitFault, TurnFault};

/// Why what a file has is not put on a board. A place is which edit of the file it is, from 1.
pub(crate) fn load_refusal(fault: LoadFault) -> FileRefusal
    ensures { IsUnopened result.fault }
{
    match fault {
        LoadFault::Body(at, fault) => FileRefusal::of(
            RunFault::Refused(fault.number(), Some(place_of(at))),
            "that record of it tells no edit",
        ),
        LoadFault::OldStamp(at, _) => FileRefusal::of(
            RunFault::Refused(40, Some(place_of(at))),
            "that edit of it is not newer than those before",
        ),
        LoadFault::Submit(SubmitFault::StateRange) => {
            FileRefusal::of(
                RunFault::Refused(11, None),
                "it has a state that its rule has not",
            )
        }
        LoadFault::Turn(TurnFault::StoreFull) => FileRefusal::from(RunFault::StoreFull),
        LoadFault::Submit(_) | LoadFault::Turn(_) | LoadFault::NotAlone | LoadFault::Memory => {
            FileRefusal::memory()
        }
    }
}

/// The place of a body as people count.
fn place_of(at: usize) -> u64 {
    (at as u64).saturating_add(1)
}
