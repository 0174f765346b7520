//! Lines and words of texts.

use std::alloc::{AllocError, Global};

/// The lines of a script: each ends with LF, and a CR before it is dropped; the last one may lack its LF.
pub fn script_lines(alloc: Global, text: &[u8]) -> Result<Vec<Vec<u8>>, AllocError> {
    let mut lines = Vec::new(alloc);
    let mut line = Vec::new(alloc);
    for byte in text {
        if *byte == b'\n' {
            if line.last() == Some(&b'\r') {
                let _return = line.pop();
            }
            lines.push(std::mem::replace(&mut line, Vec::new(alloc)))?;
        } else {
            line.push(*byte)?;
        }
    }
    if !line.is_empty() {
        lines.push(line)?;
    }
    Ok(lines)
}

/// The words of a line: what stands between spaces and tabs.
pub fn words(alloc: Global, line: &[u8]) -> Result<Vec<Vec<u8>>, AllocError> {
    let mut words = Vec::new(alloc);
    let mut word = Vec::new(alloc);
    for byte in line {
        if !is_blank(*byte) {
            word.push(*byte)?;
        } else if !word.is_empty() {
            words.push(std::mem::replace(&mut word, Vec::new(alloc)))?;
        }
    }
    if !word.is_empty() {
        words.push(word)?;
    }
    Ok(words)
}

pub fn is_blank(byte: u8) -> bool {
    byte == b' ' || byte == b'\t'
}
