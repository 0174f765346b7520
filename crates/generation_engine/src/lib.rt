//! Generations of a whole universe, by Gosper's HashLife (Physica D 10, 1984).
//!
//! A universe is a store of distinct squares of states, and one of them, of level 33, that is its root.
//! It is filled from a plane, run for any number of generations up to 2^29, and its cells are counted and
//! listed, all of them or those in a window.
#![tactic(auto)]

mod counts;
mod engine;
mod extent;
mod fault;
mod gathered;
mod laws;
mod leaf_kind;
mod load;
mod placed;
mod quarters;
mod region;
mod results;
mod walk;
mod window;

pub use engine::Engine;
pub use fault::EngineFault;
pub use laws::engine_laws;
pub use leaf_kind::EngineLeaf;
pub use square_store::StoreFault;
