//! Bytes and replies as texts.

use frame_service::Reply;
use std::alloc::{AllocError, Global};

/// The bytes that hexadecimal digits spell; what is no digit is passed over.
pub fn bytes_of(alloc: Global, digits: &str) -> Result<Vec<u8>, AllocError> {
    let mut bytes = Vec::new(alloc);
    let mut half = None;
    for letter in digits.bytes() {
        half = match (half, digit_of(letter)) {
            (half, None) => half,
            (None, digit) => digit,
            (Some(high), Some(low)) => {
                bytes.push(joined(high, low))?;
                None
            }
        };
    }
    Ok(bytes)
}

fn joined(high: u8, low: u8) -> u8 {
    high.wrapping_mul(16).wrapping_add(low)
}

fn digit_of(letter: u8) -> Option<u8> {
    match letter {
        b'0'..=b'9' => Some(letter - b'0'),
        b'a'..=b'f' => Some(letter - b'a' + 10),
        _ => None,
    }
}

/// The frames of a reply, and whether it is the last.
pub fn told(alloc: Global, reply: &Reply) -> Result<String, AllocError> {
    let mut told = String::new(alloc);
    for frame in reply.frames.as_slice() {
        let separator = if told.is_empty() { "" } else { ", " };
        told = format!(in alloc; "{told}{separator}{}", told_frame(alloc, frame.as_frame())?)?;
    }
    if reply.last {
        told.push_str(", the last")?;
    }
    Ok(told)
}

/// A frame: the digits of its length, and its body. Of a body of more than 1,600 bytes only the first
/// stands there.
pub fn told_frame(alloc: Global, frame: &[u8]) -> Result<String, AllocError> {
    match frame {
        [_, _, _, _, ..] => {
            let (length, body) = frame.split_at(4);
            let length = hex::encode(alloc, length)?;
            format!(in alloc; "{length} {}", told_body(alloc, body)?)
        }
        _ => hex::encode(alloc, frame),
    }
}

fn told_body(alloc: Global, body: &[u8]) -> Result<String, AllocError> {
    if body.len() > 1600 {
        return format!(in alloc; "{}..", hex::encode(alloc, &body[..1])?);
    }
    match body {
        [0, b'#', ..] => format!(in alloc; "00 {}", in_one_line(alloc, &body[1..])?),
        _ => hex::encode(alloc, body),
    }
}

/// An RLE text, with `|` in place of each line feed.
fn in_one_line(alloc: Global, text: &[u8]) -> Result<String, AllocError> {
    let bytes: Vec<u8> = text
        .iter()
        .map(|byte| if *byte == b'\n' { b'|' } else { *byte })
        .collect(alloc)?;
    String::from_utf8_lossy(alloc, &bytes)
}
