//! A file of cells made an RLE text or a macrocell: from RLE, MCell's format, plaintext, a macrocell or a state, as
//! it is or some generations later, an RLE text with its comments.
#![tactic(auto)]

mod converting;
mod macrocell;
mod named;
mod options;
mod output;
mod run;

pub use converting::{Converted, conversion_of};
pub use macrocell::macrocell_of;
pub use macrocell_lines::is_macrocell_name;
pub use options::ConvertOptions;
pub use output::{is_rle_name, output_status, output_text};
pub use run::{convert, convert_within};
