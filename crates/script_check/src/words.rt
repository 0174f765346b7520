//! Refusals in words.

ghost use Rattle.std.specs.Prelude.{◌≡◌, ◌++◌, ℕ, List, IfOk};
ghost use Rattle.script_check.specs.Report.{will_be_refused};

use genedit_io::RunFault;
use pattern_files::FileKind;
use script_faults::Refused;
use std::alloc::{AllocError, Global};

/// What is said of a command that is refused when its script is run: of a block that is a file of another
/// kind, what to do with it.
pub fn refusal_text(
    alloc: Global,
    refused: &Refused,
    block: Option<FileKind>,
) -> Result<String, AllocError>
    ensures { IfOk result (λ text. (words : List ℕ) × (text.bytes.items ≡ will_be_refused refused.now.number ++ words)) }
{
    let refusal = RunFault::Refused(refused.number, None);
    let cure = cure_of(alloc, refused, block)?;
    let text = format!(in alloc; "will be {refusal}: {cure}")?;
    Ok(text)
}

/// What would be right.
fn cure_of(
    alloc: Global,
    refused: &Refused,
    block: Option<FileKind>,
) -> Result<String, AllocError> {
    match block {
        Some(kind) => format!(in alloc; "the block {}", kind.text()),
        None => refused.cure(alloc),
    }
}
