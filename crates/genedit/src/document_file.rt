//! Files of documents that are changed.

ghost use Rattle.std.specs.Prelude.{◌≤◌, IfOk, length};
ghost use Rattle.kept_log.specs.Found.{IsReadTo, listed};

use crate::document_reading::Left;
use crate::opening::tell_refused;
use document_files::{FileRefusal, is_missing, open_found, save_lost, write_refusal};
use genedit_io::RunFault;
use kept_file::FileKeep;
use kept_log::{Found, Log};
use std::alloc::Global;
use std::fs::File;
use std::rt::Files;

/// The file of a document, for this process alone, with its records; no file is made.
pub(crate) fn found_in<'a, R: Files<File = File> + Eprint>(
    rt: &'a R,
    alloc: Global,
    path: &str,
) -> Result<Found<FileKeep<'a, R>>, Left>
    ensures { IfOk result (λ found. IsReadTo found.bytes.items (listed found.parts.head found.parts.bodies.items) found.parts.whole) }
{
    if is_missing(rt, path) {
        return Err(Left::by(tell_refused(rt, alloc, path, missing())));
    }
    match open_found(rt, alloc, path) {
        Ok(found) => Ok(found),
        Err(refusal) => Err(Left::by(tell_refused(rt, alloc, path, refusal))),
    }
}

/// That there is no document of a name.
fn missing() -> FileRefusal {
    FileRefusal::of(
        RunFault::Refused(42, None),
        "there is no such file: genedit new makes one",
    )
}

/// Saves what stands behind the last whole record of such a file beside it.
pub(crate) fn lost_saved<R: Files<File = File> + Eprint>(
    rt: &R,
    alloc: Global,
    path: &str,
    found: &Found<FileKeep<'_, R>>,
) -> Result<(), Left>
    requires { found.now.parts.whole ≤ length found.now.bytes.items }
{
    match save_lost(rt, alloc, found) {
        Ok(()) => Ok(()),
        Err(refusal) => Err(Left::by(tell_refused(rt, alloc, path, refusal))),
    }
}

/// The log of such a file, which takes records behind its whole ones; what stands behind these is saved beside it first.
pub(crate) fn log_in<'a, R: Files<File = File> + Eprint>(
    rt: &'a R,
    alloc: Global,
    path: &str,
    found: Found<FileKeep<'a, R>>,
) -> Result<Log<FileKeep<'a, R>>, Left>
    requires { found.parts.whole ≤ length found.bytes.items }
{
    lost_saved(rt, alloc, path, &found)?;
    match found.settle() {
        Ok(reopened) => Ok(reopened.log),
        Err((_, keep)) => Err(Left::by(tell_refused(rt, alloc, path, write_refusal(&keep)))),
    }
}
