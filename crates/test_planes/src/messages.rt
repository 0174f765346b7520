//! Deltas, states and frames, both ways.

mod alike;
mod deltas;
mod first;
mod frames;
mod joined;
mod random;
mod refusals;
mod states;
mod wide;
