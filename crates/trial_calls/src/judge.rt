//! Each call beside its slow reader.

pub mod frames;
pub mod messages;
pub mod patterns;
pub mod scripts;
pub mod sessions;
pub mod spelling;
