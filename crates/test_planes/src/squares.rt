//! Squares over leaves of two kinds: single writes, and those of planes.

mod fours;
mod random;
mod rooms;
mod steps;
