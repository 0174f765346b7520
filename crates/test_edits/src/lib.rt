//! Tests of `generations_rule`, `bitplane_kernel`, `multistate_rle`, `edit_stamps`, `leaf_merge_lanes`,
//! `edit_journal`, `devices` and `genedit_io`.
#![tactic(auto)]

#[cfg(test)]
mod blocks;
#[cfg(test)]
mod edits;
#[cfg(test)]
mod failing;
#[cfg(test)]
mod faults;
#[cfg(test)]
mod journals;
#[cfg(test)]
mod journals_of_one_stamp;
#[cfg(test)]
mod leaves;
#[cfg(test)]
mod pastes;
#[cfg(test)]
mod pulls;
#[cfg(test)]
mod pushes;
#[cfg(test)]
mod round_trips;
#[cfg(test)]
mod rules;
#[cfg(test)]
mod texts;
#[cfg(test)]
mod told;
