//! Files and ports that the words name, and what is said of those that the system refuses.

use document_files::FileRefusal;
use genedit_io::{Cause, RunFault, cause_of, file_fault_text, port_fault_text};
use std::alloc::{AllocError, Global};
use std::fs;
use std::rt::Files;

/// Opens a file to read it, or says why it cannot be read. A folder can be opened, and is refused here.
pub fn opened<R: Files>(rt: &R, path: &str) -> Result<R::File, Cause> {
    if is_folder(rt, path) {
        return Err(Cause::Folder);
    }
    match fs::open(rt, path) {
        Ok(file) => Ok(file),
        Err(error) => Err(cause_of(error.kind())),
    }
}

fn is_folder<R: Files>(rt: &R, path: &str) -> bool {
    match fs::metadata(rt, path) {
        Ok(known) => known.is_dir(),
        Err(_) => false,
    }
}

/// Says why a file cannot be read; the status of the process.
pub fn tell_unread(
    rt: &impl Eprint,
    alloc: Global,
    path: &str,
    cause: Cause,
) -> Result<u8, RunFault> {
    let text = file_fault_text(alloc, RunFault::Read, path.as_bytes(), cause.text())?;
    tell(rt, alloc, &text)?;
    Ok(RunFault::Read.exit_status())
}

/// Says why a port cannot be listened at; the status of the process.
pub fn tell_unheard(
    rt: &impl Eprint,
    alloc: Global,
    port: u16,
    cause: Cause,
) -> Result<u8, RunFault> {
    let text = port_fault_text(alloc, port, cause)?;
    tell(rt, alloc, &text)?;
    Ok(RunFault::Read.exit_status())
}

/// Says why a board is not kept in a file, or not any more; the status of the process.
pub fn tell_refused(
    rt: &impl Eprint,
    alloc: Global,
    path: &str,
    refusal: FileRefusal,
) -> Result<u8, RunFault> {
    let Some(why) = refusal.why else {
        return Err(refusal.fault);
    };
    let mut name = String::from_str(alloc, path)?;
    if refusal.is_of_lost {
        name.push_str(".lost")?;
    }
    let text = file_fault_text(alloc, refusal.fault, name.as_bytes(), why)?;
    tell(rt, alloc, &text)?;
    Ok(refusal.fault.exit_status())
}

/// Says a text.
pub fn tell(rt: &impl Eprint, alloc: Global, text: &[u8]) -> Result<(), AllocError> {
    let text = String::from_utf8_lossy(alloc, text)?;
    let _ = eprintln!(rt; "genedit: {}", text.as_str());
    Ok(())
}
