//! Why a document is not kept in a file.

ghost use Rattle.std.specs.Prelude.{◌≡◌};

use genedit_io::{Cause, RunFault, cause_of};
use kept_file::FileKeep;
use std::alloc::AllocError;
use std::fs::File;
use std::io::ErrorKind;
use std::rt::Files;

/// Why a document is not kept in a file, or not any more: the fault by which the program ends, and in words
/// why; without words where the file is not why.
#[derive(Clone, Copy)]
pub struct FileRefusal {
    pub fault: RunFault,
    pub why: Option<&'static str>,
    /// Whether it is the file beside it to which its lost end is saved.
    pub is_of_lost: bool,
}

impl FileRefusal {
    /// A fault of the file, and why.
    pub fn of(fault: RunFault, why: &'static str) -> FileRefusal
        ensures { result.fault ≡ fault }
    {
        FileRefusal {
            fault,
            why: Some(why),
            is_of_lost: false,
        }
    }

    /// Want of memory, of which no file is the cause.
    pub fn memory() -> FileRefusal
        ensures { result.fault ≡ RunFault.Memory }
    {
        FileRefusal::from(RunFault::Memory)
    }
}

/// A fault that is not the file's.
impl From<RunFault> for FileRefusal {
    ghost use Rattle.std.specs.Prelude.{◌≡◌};

    ghost from_gives = { λ fault refusal. refusal.fault ≡ fault };

    fn from(fault: RunFault) -> FileRefusal {
        FileRefusal {
            fault,
            why: None,
            is_of_lost: false,
        }
    }
}

impl From<AllocError> for FileRefusal {
    ghost use Rattle.std.specs.Prelude.{◌≡◌};
    ghost use Rattle.genedit_io.specs.declared.fault.RunFault.TheVariants.{Memory};

    ghost from_gives = { λ _ refusal. refusal.fault ≡ Memory };

    fn from(_error: AllocError) -> FileRefusal {
        FileRefusal::memory()
    }
}

/// Why the system refuses what is done to a file. One that may not become longer is as good as a full disk.
pub fn cause_of_file(kind: ErrorKind) -> Cause {
    match kind {
        ErrorKind::FileTooLarge => Cause::Full,
        kind => cause_of(kind),
    }
}

/// That a file failed that was to be written, and why.
pub fn write_refusal<F: Files<File = File>>(keep: &FileKeep<'_, F>) -> FileRefusal
    ensures { result.fault ≡ RunFault.Write }
{
    let cause = keep.failure().map_or(Cause::Other, cause_of_file);
    FileRefusal::of(RunFault::Write, cause.text())
}
