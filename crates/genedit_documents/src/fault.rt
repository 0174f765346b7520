//! How the program ends where a document is refused, and what it says.

ghost use Rattle.std.specs.Prelude.{◌≡◌, IfOk};
ghost use Rattle.genedit_documents.specs.Faults.{cause_of_fault, clash_text, export_ending, fault_text, run_fault};

use documents::DocumentFault;
use genedit_io::{RunFault, file_fault_text};
use itoa::Buffer;
use replica_core::Fault;
use std::alloc::{AllocError, Global};

/// The fault by which the program ends; that of a record has its place.
pub fn run_fault(fault: &DocumentFault) -> RunFault
    ensures { result ≡ run_fault fault.now }
{
    match fault {
        DocumentFault::Memory => RunFault::Memory,
        DocumentFault::Body(_, place) => RunFault::Refused(fault.number(), Some(*place as u64)),
        _ => RunFault::Refused(fault.number(), None),
    }
}

/// The fault by which the program ends where an export is refused, or finds no room.
pub fn export_fault(fault: Fault) -> RunFault
    ensures { result ≡ export_ending fault }
{
    match fault {
        Fault::Memory => RunFault::Memory,
        Fault::StoreFull => RunFault::StoreFull,
        _ => RunFault::Refused(fault.number(), None),
    }
}

/// What is said of a file that is refused: number and name of the fault, and of `SameStamp` counter and replica,
/// the file's name, and why in words.
pub fn fault_text(alloc: Global, fault: &DocumentFault, path: &[u8]) -> Result<Vec<u8>, AllocError>
    ensures { IfOk result (λ text. text.items ≡ fault_text fault.now path.now) }
{
    let cause = cause_of_fault(fault);
    match fault {
        DocumentFault::SameStamp(stamp) => {
            clash_text(alloc, stamp.counter(), stamp.replica(), path, cause)
        }
        _ => file_fault_text(alloc, run_fault(fault), path, cause),
    }
}

/// The same of two edits with one counter and replica.
fn clash_text(
    alloc: Global,
    counter: u64,
    replica: u16,
    path: &[u8],
    cause: &str,
) -> Result<Vec<u8>, AllocError>
    ensures { IfOk result (λ text. text.items ≡ clash_text counter replica path.now cause.now) }
{
    let mut text = Vec::new(alloc);
    text.extend_from_slice(b"refused 41 SameStamp ")?;
    text.extend_from_slice(Buffer::new().format(counter).as_bytes())?;
    text.push(b' ')?;
    text.extend_from_slice(Buffer::new().format(u64::from(replica)).as_bytes())?;
    text.push(b' ')?;
    text.extend_from_slice(path)?;
    text.extend_from_slice(b": ")?;
    text.extend_from_slice(cause.as_bytes())?;
    Ok(text)
}

/// Why a file is refused, in words.
fn cause_of_fault(fault: &DocumentFault) -> &'static str
    ensures { result.now ≡ cause_of_fault fault.now }
{
    match fault {
        DocumentFault::StateRange => "an edit has a state that its rule has not",
        DocumentFault::OtherRule => "it has another rule",
        DocumentFault::SameStamp(_) =>
            "two edits have that counter and replica: see --renumber of genedit merge",
        DocumentFault::NoDocument => "it holds no record of a document",
        DocumentFault::Body(_, _) => "that record of it tells no edit under the rule",
        DocumentFault::Memory => "out of memory",
    }
}
