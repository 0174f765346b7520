//! Files of cells in the formats that pattern collectors exchange beside Golly's RLE: MCell's and
//! plaintext. What a file is, its cells, its rule, its bounds and its comments.
//!
//! Golly 3.3 reads the same files; where it passes over what it cannot read, here the file is refused.
#![tactic(auto)]

mod board;
mod bounds;
mod comment;
mod drawn;
mod file;
mod format;
mod head;
mod mcell;
mod plaintext;

pub use bounds::file_bounds;
pub use comment::{Comment, CommentMark, comment_in, comment_lines};
pub use file::{file_rule, read_cells};
pub use format::CellFormat;
