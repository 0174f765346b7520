//! A running board whose published list stands in a file: what a reader sees is on the disk before.
#![tactic(auto)]

mod ending;
mod fault;
mod keeper;
mod loading;
mod opening;

pub use ending::{EndFault, Ended, Unended};
pub use fault::KeepFault;
pub use keeper::{Keeper, KeeperTurn};
pub use loading::{KeptBodies, KeptSeats, LoadFault, LoadedBoard, load, load_board, raise_all};
pub use opening::{HeadFault, OpenFault, OpenLog, opened, rule_of};
