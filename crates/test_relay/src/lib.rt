//! Tests of `relay_board`.
#![tactic(auto)]

#[cfg(test)]
mod crowd;
#[cfg(test)]
mod drawers;
#[cfg(test)]
mod drawn;
#[cfg(test)]
mod ending;
#[cfg(test)]
mod files;
#[cfg(test)]
mod handing;
#[cfg(test)]
mod numbers;
#[cfg(test)]
mod pairs;
#[cfg(test)]
mod readiness;
#[cfg(test)]
mod refusals;
#[cfg(test)]
mod resting;
#[cfg(test)]
mod rising;
#[cfg(test)]
mod rounds;
#[cfg(test)]
mod sizes;
#[cfg(test)]
mod squares;
#[cfg(test)]
mod steps;
#[cfg(test)]
mod told;
