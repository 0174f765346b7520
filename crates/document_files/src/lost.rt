//! What stands behind the last whole record of a file.

ghost use Rattle.std.specs.Prelude.{◌≡◌, ◌≢◌, ◌⊎◌, ◌≤◌, length, IfErr};

use crate::refusal::{FileRefusal, cause_of_file};
use genedit_io::RunFault;
use kept_file::FileKeep;
use kept_log::Found;
use kept_records::next_whole;
use std::alloc::Global;
use std::fs::File;
use std::io::ErrorKind;
use std::rt::Files;

/// How many bytes the head of a record has.
const HEAD: usize = 20;

/// Saves what stands behind the last whole record of a file beside it, before that is cut off. Where whole records
/// stand in it, how many is told, and how they come back. An end that cannot be saved is a write fault, but for want of
/// memory.
pub fn save_lost<F: Files<File = File> + Eprint>(
    rt: &F,
    alloc: Global,
    found: &Found<FileKeep<'_, F>>,
) -> Result<(), FileRefusal>
    requires { found.now.parts.whole ≤ length found.now.bytes.items }
    ensures { IfErr result (λ refusal. (refusal.fault ≡ RunFault.Write) ⊎ (refusal.fault ≡ RunFault.Memory)) }
{
    let end = &found.bytes[found.parts.whole..];
    if end.is_empty() {
        return Ok(());
    }
    match found.keep.save_lost(alloc, end) {
        Ok(()) => {}
        Err(error) => return Err(lost_refusal(error.kind())),
    }
    let whole = count_whole(end);
    if whole > 0 {
        let path = found.keep.path();
        let words = if whole == 1 {
            "record stands"
        } else {
            "records stand"
        };
        let _ = eprintln!(rt;
            "genedit: {path}: {whole} whole {words} behind the damage: genedit merge {path} {path}.lost brings them back"
        );
    }
    Ok(())
}

/// That the end could not be saved, and why; want of memory is told as that.
fn lost_refusal(kind: ErrorKind) -> FileRefusal
    ensures want { kind ≡ ErrorKind.OutOfMemory → result.fault ≡ RunFault.Memory }
    ensures other { kind ≢ ErrorKind.OutOfMemory → result.fault ≡ RunFault.Write }
{
    if kind == ErrorKind::OutOfMemory {
        return FileRefusal::memory();
    }
    let why = cause_of_file(kind).text();
    FileRefusal {
        is_of_lost: true,
        ..FileRefusal::of(RunFault::Write, why)
    }
}

/// How many whole records stand in some bytes, wherever they begin. There are fewer than bytes.
fn count_whole(bytes: &[u8]) -> usize {
    let mut count = 0usize;
    let mut from = 0usize;
    for _record in 0..bytes.len() {
        match next_whole(bytes, from) {
            None => break,
            Some((start, body)) => {
                count = count.saturating_add(1);
                from = start + HEAD + body.len();
            }
        }
    }
    count
}
