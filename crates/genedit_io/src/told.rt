//! What is told of a file or a port that the system refuses.

ghost use Rattle.std.specs.Prelude.{◌≡◌, IfOk};
ghost use Rattle.genedit_io.specs.Cause.{file_fault_text, port_fault_text};

use crate::cause::Cause;
use crate::fault::RunFault;
use itoa::Buffer;
use std::alloc::{AllocError, Global};

/// A fault, the path of the file that it is of, and its cause in words.
pub fn file_fault_text(
    alloc: Global,
    fault: RunFault,
    path: &[u8],
    cause: &str,
) -> Result<Vec<u8>, AllocError>
    ensures { IfOk result (λ text. text.items ≡ file_fault_text fault path.now cause.now) }
{
    let mut text = Vec::new(alloc);
    text.extend_from_slice(fault.to_string(alloc)?.as_bytes())?;
    text.push(b' ')?;
    text.extend_from_slice(path)?;
    text.extend_from_slice(b": ")?;
    text.extend_from_slice(cause.as_bytes())?;
    Ok(text)
}

/// That a port cannot be listened at, and its cause.
pub fn port_fault_text(alloc: Global, port: u16, cause: Cause) -> Result<Vec<u8>, AllocError>
    ensures { IfOk result (λ text. text.items ≡ port_fault_text port cause) }
{
    let mut text = Vec::new(alloc);
    text.extend_from_slice(b"read fault: port ")?;
    text.extend_from_slice(Buffer::new().format(u64::from(port)).as_bytes())?;
    text.push(b' ')?;
    text.extend_from_slice(cause.port_text().as_bytes())?;
    Ok(text)
}
