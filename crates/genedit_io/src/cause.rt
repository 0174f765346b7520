//! Why the system refuses a file or a port.

ghost use Rattle.std.specs.Prelude.{◌≡◌};
ghost use Rattle.genedit_io.specs.Cause.{cause_of};

use std::io::ErrorKind;

/// Why the system refuses a file or a port, as far as that is told.
#[derive(Clone, Copy, Debug, PartialEq, Eq)]
pub enum Cause {
    /// There is no such file.
    NoFile,
    /// A folder on the way to it is missing, or is none.
    NoFolder,
    /// It is a folder.
    Folder,
    /// The user has no right to it.
    Forbidden,
    /// There is no space for it.
    Full,
    /// Another program has it.
    Taken,
    /// Something else.
    Other,
}

impl Cause {
    ghost use Rattle.std.specs.Prelude.{◌≡◌};
    ghost use Rattle.genedit_io.specs.Cause.{cause_text, of_new_file, port_cause_text};

    /// The same of a file that is to be made: where it is not found, a folder is missing.
    pub fn of_new_file(self) -> Cause
        ensures { result ≡ of_new_file self }
    {
        match self {
            Cause::NoFile => Cause::NoFolder,
            cause => cause,
        }
    }

    /// In words, of a file.
    pub fn text(self) -> &'static str
        ensures { result.now ≡ cause_text self }
    {
        match self {
            Cause::NoFile => "there is no such file",
            Cause::NoFolder => "there is no such folder",
            Cause::Folder => "it is a folder",
            Cause::Forbidden => "permission denied",
            Cause::Full => "the disk is full",
            Cause::Taken => "another program has it",
            Cause::Other => "the system refuses it",
        }
    }

    /// In words, behind a port and its number.
    pub fn port_text(self) -> &'static str
        ensures { result.now ≡ port_cause_text self }
    {
        match self {
            Cause::Taken => "is taken",
            Cause::Forbidden => "is not for this user",
            Cause::NoFile | Cause::NoFolder | Cause::Folder | Cause::Full | Cause::Other =>
                "cannot be had",
        }
    }
}

/// The cause that a kind of error of the system is.
pub fn cause_of(kind: ErrorKind) -> Cause
    ensures { result ≡ cause_of kind }
{
    match kind {
        ErrorKind::NotFound => Cause::NoFile,
        ErrorKind::NotADirectory => Cause::NoFolder,
        ErrorKind::IsADirectory => Cause::Folder,
        ErrorKind::PermissionDenied | ErrorKind::ReadOnlyFilesystem => Cause::Forbidden,
        ErrorKind::StorageFull | ErrorKind::QuotaExceeded => Cause::Full,
        ErrorKind::AddrInUse => Cause::Taken,
        _ => Cause::Other,
    }
}
