//! Tests of the door of a board's web port, over TCP and in memory.
#![tactic(auto)]

#[cfg(test)]
mod answers;
#[cfg(test)]
mod crowd;
#[cfg(test)]
mod door;
#[cfg(test)]
mod faults;
#[cfg(test)]
mod links;
