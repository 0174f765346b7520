//! Replicas of a shared plane: drawing, taking and showing.
#![tactic(auto)]

mod event;
mod fault;
mod laws;
mod replica;
mod world;

pub use delta_exchange::Message;
pub use devices::{Failed, ReadSource, Sink, Source, WriteSink};
pub use event::{ByteList, Question, Reply, Stop};
pub use export::{Count, Cut};
pub use fault::Fault;
pub use laws::{peer_laws, world_laws};
pub use replica::Replica;
pub use replica_events::{CellList, EditSpec, Event};
pub use world::{World, replay, replay_within};
