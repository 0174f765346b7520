//! Links to a board: how they begin, and the token that stands behind.
#![tactic(auto)]

mod board_url;
mod token;

pub use board_url::{BoardUrl, UrlFault};
pub use token::{TOKEN_BYTES, token_in, token_of, token_text};
