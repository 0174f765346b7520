//! What has the name of a file that is to be written.

use crate::refusal::WriteRefusal;
use genedit_io::Cause;
use std::fs;
use std::rt::Files;

/// What has the name of a file that is to be written.
#[derive(Clone, Copy, Debug, PartialEq, Eq)]
pub enum Standing {
    Nothing,
    File,
    Folder,
    /// A device, or what else is no file.
    Other,
}

impl Standing {
    ghost use Rattle.std.specs.Prelude.{◌≡◌};
    ghost use Rattle.whole_files.specs.Whole.{refusal_of};

    /// What has this name now.
    pub fn of<R: Files>(rt: &R, path: &str) -> Standing {
        match fs::metadata(rt, path) {
            Ok(known) if known.is_file() => Standing::File,
            Ok(known) if known.is_dir() => Standing::Folder,
            Ok(_) => Standing::Other,
            Err(_) => Standing::Nothing,
        }
    }

    /// Why a file is not written where this has its name; none where it is. A file is replaced only where that is
    /// asked for; a folder, or what is no file, never is.
    pub fn refusal(self, replaces: bool) -> Option<WriteRefusal>
        ensures { result ≡ refusal_of self replaces }
    {
        match self {
            Standing::Nothing => None,
            Standing::File if replaces => None,
            Standing::File => Some(WriteRefusal::Exists),
            Standing::Folder => Some(WriteRefusal::System(Cause::Folder)),
            Standing::Other => Some(WriteRefusal::NoFile),
        }
    }
}
