//! Why a file is not written.

ghost use Rattle.std.specs.Prelude.{◌≡◌};
ghost use Rattle.whole_files.specs.Whole.{system_refusal};

use genedit_io::{Cause, cause_of};
use std::io::ErrorKind;

/// Why a file is not written.
#[derive(Clone, Copy, Debug, PartialEq, Eq)]
pub enum WriteRefusal {
    /// There is such a file, which may not be replaced.
    Exists,
    /// It is neither a file nor a folder.
    NoFile,
    /// The system refuses it.
    System(Cause),
    /// Memory was refused.
    Memory,
}

/// Why a file is not written, by what the system says: what is not found is its folder.
pub(crate) fn system_refusal(kind: ErrorKind) -> WriteRefusal
    ensures { result ≡ system_refusal kind }
{
    match kind {
        ErrorKind::OutOfMemory => WriteRefusal::Memory,
        kind => WriteRefusal::System(cause_of(kind).of_new_file()),
    }
}
