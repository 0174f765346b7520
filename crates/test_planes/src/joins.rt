//! Joins beside edits' own lists, equal stamps, and room.

mod cleared;
mod random;
mod rooms;
mod ties;
