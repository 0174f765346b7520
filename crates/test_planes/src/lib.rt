//! Tests of `square_store`, over leaves of two kinds, of `stamped_tree`, `tree_join`,
//! `cell_changes`, `drawing_history` and `delta_exchange`.
#![tactic(auto)]

#[cfg(test)]
mod changes;
#[cfg(test)]
mod history;
#[cfg(test)]
mod joins;
#[cfg(test)]
mod messages;
#[cfg(test)]
mod planes;
#[cfg(test)]
mod squares;
