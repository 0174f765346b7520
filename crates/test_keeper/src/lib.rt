//! Tests of `board_keeper`, whose files are in memory.
#![tactic(auto)]

#[cfg(test)]
mod boards;
#[cfg(test)]
mod commits;
#[cfg(test)]
mod crashes;
#[cfg(test)]
mod loads;
