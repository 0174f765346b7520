//! What is left to do behind a command.

ghost use Rattle.std.specs.Prelude.{◌≡◌};
ghost use Rattle.document_pen.specs.Carrying.{left_behind, to_file};
ghost use Rattle.document_pen.specs.declared.done.Done.TheVariants.{Told};

use crate::fault::PenFault;
use client_commands::{FileName, FileTarget, Film};

/// What is left to do behind a command, beside the document.
#[derive(Debug, Drop)]
pub enum Done {
    /// Nothing: what was printed tells all.
    Told,
    /// The text goes to the file, and what came of that is printed.
    Write(FileTarget, Vec<u8>),
    /// The film is made of what is there then: each generation as a text, which goes to its file.
    Film(Film),
    /// The file is read, and its text opened.
    Open(FileName),
    /// So many milliseconds are let pass.
    Sleep(u32),
    /// The pen is laid down.
    Leave,
    /// Nothing: the command is of a board that is served.
    OfBoards,
}

/// Behind a call that tells all.
pub(crate) fn told<A: Drop>(ended: Result<A, PenFault>) -> Result<Done, PenFault>
    ensures { result ≡ left_behind (λ _. Told) ended }
{
    match ended {
        Ok(_) => Ok(Done::Told),
        Err(fault) => Err(fault),
    }
}

/// Behind a call that gives a text for a file, or none.
pub(crate) fn written(
    file: FileTarget,
    text: Result<Option<Vec<u8>>, PenFault>,
) -> Result<Done, PenFault>
    ensures { result ≡ left_behind (to_file file) text }
{
    match text {
        Ok(Some(text)) => Ok(Done::Write(file, text)),
        Ok(None) => Ok(Done::Told),
        Err(fault) => Err(fault),
    }
}
