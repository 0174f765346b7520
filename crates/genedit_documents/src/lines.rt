//! The lines that tell what was done.

ghost use Rattle.std.specs.Prelude.{◌≡◌, IfOk};
ghost use Rattle.genedit_documents.specs.Lines.{merged_line, new_line};

use generations_rule::Rule;
use itoa::Buffer;
use std::alloc::{AllocError, Global};

/// That a document of no edit was made: its file and its rule.
pub fn new_line(alloc: Global, path: &[u8], rule: &Rule) -> Result<Vec<u8>, AllocError>
    ensures { IfOk result (λ line. line.items ≡ new_line path.now rule.now) }
{
    let mut line = Vec::new(alloc);
    line.extend_from_slice(b"new ")?;
    line.extend_from_slice(path)?;
    line.push(b' ')?;
    line.extend_from_slice(&rule.write_text(alloc)?)?;
    line.push(b'\n')?;
    Ok(line)
}

/// That documents were merged into a file: how many edits it has, and how many of them are new.
pub fn merged_line(
    alloc: Global,
    path: &[u8],
    edits: usize,
    new: usize,
) -> Result<Vec<u8>, AllocError>
    ensures { IfOk result (λ line. line.items ≡ merged_line path.now edits new) }
{
    let mut line = Vec::new(alloc);
    line.extend_from_slice(b"merged ")?;
    line.extend_from_slice(path)?;
    line.push(b' ')?;
    line.extend_from_slice(Buffer::new().format(edits as u64).as_bytes())?;
    line.extend_from_slice(b" new ")?;
    line.extend_from_slice(Buffer::new().format(new as u64).as_bytes())?;
    line.push(b'\n')?;
    Ok(line)
}
