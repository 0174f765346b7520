//! Pictures of cells: as plain text, as half blocks in a terminal, and as SVG.
//!
//! A picture is pushed to a sink as it is drawn, and never held whole. Its colours are those that
//! Golly shows of a rule of the Generations family.
#![tactic(auto)]

mod blocks;
mod buffered;
mod colour;
mod laws;
mod picture;
mod plain;
mod reader;
mod runs;
mod svg;
mod window;

pub use blocks::half_blocks;
pub use buffered::BufferedSink;
pub use colour::{Colour, colour_of};
pub use laws::picture_laws;
pub use picture::{Form, draw};
pub use plain::plain_text;
pub use svg::{hex_colour, push_number, svg_text};
pub use window::Window;
