//! Charts of how many cells of each state there are, by generation, as SVG.
//!
//! A chart is pushed to a sink as it is drawn, and never held whole. It has the numbers
//! themselves, too, so that they are read back from it.
#![tactic(auto)]

mod axis;
mod chart;
mod curves;
mod laws;
mod lines;
mod sample;
mod ticks;

pub use chart::chart_text;
pub use laws::chart_laws;
pub use sample::Sample;
