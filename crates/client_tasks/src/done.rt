//! What is left to do behind a command.

ghost use Rattle.std.specs.Prelude.{◌≡◌};
ghost use Rattle.client_tasks.specs.Carrying.{behind_drawing, left_behind, to_file};
ghost use Rattle.client_tasks.specs.declared.done.Done.TheVariants.{Told};

use client_commands::{FileName, FileTarget, Film};
use client_session::{CommandFault, Outcome};

/// What is left to do behind a command, beside the board.
#[derive(Debug, Drop)]
pub enum Done {
    /// Nothing: what was printed tells all.
    Told,
    /// The same; the board may have the edit that was drawn last, or not.
    InDoubt,
    /// The text goes to the file, and what came of that is printed.
    Write(FileTarget, Vec<u8>),
    /// The film is made of what is there then: each generation as a text, which goes to its file.
    Film(Film),
    /// The file is read, and its text opened.
    Open(FileName),
    /// So many milliseconds are let pass.
    Sleep(u32),
    /// The client leaves.
    Leave,
}

/// Behind a call that tells all.
pub(crate) fn told(ended: Result<(), CommandFault>) -> Result<Done, CommandFault>
    ensures { result ≡ left_behind (λ _. Told) ended }
{
    match ended {
        Ok(()) => Ok(Done::Told),
        Err(fault) => Err(fault),
    }
}

/// Behind a drawing.
pub(crate) fn drawn(outcome: Result<Outcome, CommandFault>) -> Result<Done, CommandFault>
    ensures { result ≡ left_behind behind_drawing outcome }
{
    match outcome {
        Ok(Outcome::Drawn | Outcome::Refused) => Ok(Done::Told),
        Ok(Outcome::InDoubt) => Ok(Done::InDoubt),
        Err(fault) => Err(fault),
    }
}

/// Behind a call that gives a text for a file, or none.
pub(crate) fn written(
    file: FileTarget,
    text: Result<Option<Vec<u8>>, CommandFault>,
) -> Result<Done, CommandFault>
    ensures { result ≡ left_behind (to_file file) text }
{
    match text {
        Ok(Some(text)) => Ok(Done::Write(file, text)),
        Ok(None) => Ok(Done::Told),
        Err(fault) => Err(fault),
    }
}
