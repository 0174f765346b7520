//! How a run ended, as a text.

use genedit_io::RunFault;
use std::alloc::{AllocError, Global};

/// What was pushed where a run ended well; else its fault, with how many bytes were pushed all the
/// same.
pub fn run(alloc: Global, end: Result<(), RunFault>, out: &[u8]) -> Result<String, AllocError> {
    match end {
        Ok(()) => String::from_utf8_lossy(alloc, out),
        Err(fault) => format!(in alloc; "{fault}, {} bytes", out.len()),
    }
}

/// The text of a table's line, in which `|` stands for a line feed.
pub fn with_line_feeds(alloc: Global, text: &str) -> Result<Vec<u8>, AllocError> {
    text.bytes()
        .map(|byte| if byte == b'|' { b'\n' } else { byte })
        .collect(alloc)
}
