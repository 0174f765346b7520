//! Tests of `replica_core`.
#![tactic(auto)]

#[cfg(test)]
mod acts;
#[cfg(test)]
mod exchanges;
#[cfg(test)]
mod journals;
#[cfg(test)]
mod pastes;
#[cfg(test)]
mod replicas;
#[cfg(test)]
mod rooms;
#[cfg(test)]
mod worlds;
