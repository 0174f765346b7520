//! The file in which a board is kept, opened and read, before anything of it is changed.

ghost use Rattle.std.specs.Prelude.{IfOk};
ghost use Rattle.genedit_serve.specs.Keeping.{IsKeptFile};

use board_keeper::{HeadFault, rule_of};
use document_files::{FileRefusal, is_missing, open_found};
use genedit_io::RunFault;
use generations_rule::Rule;
use kept_file::FileKeep;
use kept_log::Found;
use std::alloc::Global;
use std::fs::File;
use std::rt::Files;

/// A file in which a board is kept: it was read, for this process alone, and is not changed yet.
#[derive(Drop)]
pub struct KeptFile<'a, F: Files<File = File>> {
    pub found: Found<FileKeep<'a, F>>,
    pub rule: Rule,
}

/// Opens the file of a board, which is made where there is none, and reads it. The rule is that of its head, or
/// the one that is given where the file has no byte. Where it is refused, nothing in it was changed.
pub fn open_kept<'a, F: Files<File = File>>(
    rt: &'a F,
    alloc: Global,
    path: &str,
    rule: Option<Rule>,
) -> Result<KeptFile<'a, F>, FileRefusal>
    ensures { IfOk result (λ f. IsKeptFile f.rule f.found.parts.head f.found.parts.bodies.items f.found.bytes.items f.found.parts.whole) }
{
    if rule.is_none() && is_missing(rt, path) {
        return Err(no_rule());
    }
    let found = match open_found(rt, alloc, path) {
        Ok(found) => found,
        Err(refusal) => return Err(refusal),
    };
    if let Some(rule) = &rule {
        // For the proof alone: the call tells that what is given is a rule.
        let _states = rule.states();
    }
    match rule_of(alloc, &found.parts, rule) {
        Ok(rule) => Ok(KeptFile { found, rule }),
        Err(fault) => Err(head_refusal(fault)),
    }
}

/// That a file names no rule, and none is given.
fn no_rule() -> FileRefusal {
    FileRefusal::of(
        RunFault::Refused(42, None),
        "there is no board in it yet: give the rule by --rule",
    )
}

/// Why a file names no rule for its board.
fn head_refusal(fault: HeadFault) -> FileRefusal {
    match fault {
        HeadFault::NoRule => no_rule(),
        HeadFault::NoDocument => {
            FileRefusal::of(
                RunFault::Refused(42, None),
                "its first record names no rule",
            )
        }
        HeadFault::OtherRule => FileRefusal::of(
            RunFault::Refused(16, None),
            "it has another rule: leave --rule out",
        ),
        HeadFault::Memory => FileRefusal::memory(),
    }
}
