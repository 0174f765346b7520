//! The words of commands: which words the lines of a script and of a client begin with, what stands
//! behind each, and what the words of a line spell.
#![tactic(auto)]

mod argument;
mod dialect;
mod films;
mod keyword;
mod quotes;
mod ranges;
mod spelled;
mod turns;
mod values;

pub use argument::Argument;
pub use dialect::Dialect;
pub use films::{GENERATION_SIGN, is_film_name};
pub use keyword::Keyword;
pub use ranges::{GenerationRange, range_in};
pub use spelled::{Spelled, read_line};
pub use values::cells_in;
