//! Lines of ASCII text taken apart: kinds of bytes, what stands in front of a text, words, decimal numbers.
//! Nothing here takes memory.
#![tactic(auto)]

mod bytes;
mod front;
mod numbers;
mod word;

pub use bytes::{is_all_blank, is_blank, is_line_end};
pub use front::{
    behind, behind_symbol, digits_in_front, line_len, split_digits, without_blanks,
    without_blanks_behind, word_len,
};
pub use numbers::{number, signed};
pub use word::split_word;
