//! Slow readers, written from docs/FORMATS.md and the crates' pages alone: none calls a reader of the project.

pub mod deltas;
pub mod entries;
pub mod frames;
pub mod lines;
pub mod map;
pub mod message;
pub mod patterns;
pub mod rules;
pub mod scripts;
pub mod session;
pub mod squares;
pub mod writes;
