//! Texts of messages under Brian's Brain, spelt in hexadecimal digits or put together by squares.

use std::alloc::{AllocError, Global};

/// The head of a delta.
pub const DELTA: &str = "474c5744 01 04 2f322f33";

/// The head of a state of version 1.
pub const FIRST: &str = "474c5753 01 04 2f322f33";

/// The head of a state.
pub const STATE: &str = "474c5753 02 04 2f322f33";

/// The bytes that hexadecimal digits spell; what is no digit is passed over.
pub fn bytes_of(alloc: Global, digits: &str) -> Result<Vec<u8>, AllocError> {
    let mut bytes = Vec::new(alloc);
    push_digits(&mut bytes, digits)?;
    Ok(bytes)
}

/// Puts the bytes that digits spell behind others.
pub fn push_digits(bytes: &mut Vec<u8>, digits: &str) -> Result<(), AllocError> {
    let mut half = None;
    for letter in digits.bytes() {
        half = match (half, digit_of(letter)) {
            (half, None) => half,
            (None, digit) => digit,
            (Some(high), Some(low)) => {
                bytes.push(joined(high, low))?;
                None
            }
        };
    }
    Ok(())
}

fn joined(high: u8, low: u8) -> u8 {
    high.wrapping_mul(16).wrapping_add(low)
}

fn digit_of(letter: u8) -> Option<u8> {
    match letter {
        b'0'..=b'9' => Some(letter - b'0'),
        b'a'..=b'f' => Some(letter - b'a' + 10),
        _ => None,
    }
}

/// The bytes of a head and what stands behind it.
pub fn text_of(alloc: Global, head: &str, rest: &str) -> Result<Vec<u8>, AllocError> {
    let mut text = bytes_of(alloc, head)?;
    push_digits(&mut text, rest)?;
    Ok(text)
}

/// One write of a leaf: a stamp's number and a state.
#[derive(Clone, Copy)]
pub struct Written {
    pub stamp: u64,
    pub state: u8,
}

/// A quarter of a listed square.
#[derive(Clone, Copy)]
pub enum Quarter {
    /// Blank with this stamp.
    Blank(u64),
    /// The entry of this number.
    Entry(u32),
}

/// The head of a state that lists so many squares.
pub fn state_of(alloc: Global, entries: u32) -> Result<Vec<u8>, AllocError> {
    let mut text = bytes_of(alloc, STATE)?;
    text.extend_from_slice(&entries.to_be_bytes())?;
    Ok(text)
}

/// Lists a leaf with one write everywhere.
pub fn push_even_leaf(text: &mut Vec<u8>, write: Written) -> Result<(), AllocError> {
    text.push(3)?;
    for _ in 0..64_u8 {
        push_write(text, write)?;
    }
    Ok(())
}

/// Lists a leaf with two writes in its first two places, and nothing elsewhere.
pub fn push_two(text: &mut Vec<u8>, first: Written, second: Written) -> Result<(), AllocError> {
    text.push(3)?;
    push_write(text, first)?;
    push_write(text, second)?;
    text.extend_from_slice(&[0; 558])
}

/// Puts a write of a leaf behind others.
pub fn push_write(text: &mut Vec<u8>, write: Written) -> Result<(), AllocError> {
    text.extend_from_slice(&write.stamp.to_be_bytes())?;
    text.push(write.state)?;
    Ok(())
}

/// Lists a square of four quarters: NW, NE, SW, SE.
pub fn push_four(text: &mut Vec<u8>, level: u8, quarters: [Quarter; 4]) -> Result<(), AllocError> {
    text.push(level)?;
    for quarter in quarters {
        push_quarter(text, quarter)?;
    }
    Ok(())
}

/// Puts a quarter of a listed square behind others.
pub fn push_quarter(text: &mut Vec<u8>, quarter: Quarter) -> Result<(), AllocError> {
    match quarter {
        Quarter::Blank(stamp) => {
            text.push(0)?;
            text.extend_from_slice(&stamp.to_be_bytes())
        }
        Quarter::Entry(number) => {
            text.push(1)?;
            text.extend_from_slice(&number.to_be_bytes())
        }
    }
}
