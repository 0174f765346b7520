//! Good bytes by chance: each is what some text, or stream, may be.

pub mod deltas;
pub mod frames;
pub mod messages;
pub mod patterns;
pub mod requests;
pub mod scripts;
pub mod states;
