//! Tests of hostile bytes: messages, frames and requests that are refused, or that say much in few bytes.
#![tactic(auto)]

#[cfg(test)]
mod announced;
#[cfg(test)]
mod byte_values;
#[cfg(test)]
mod collisions;
#[cfg(test)]
mod cuts;
#[cfg(test)]
mod keys;
#[cfg(test)]
mod pairs;
#[cfg(test)]
mod refusals;
#[cfg(test)]
mod sessions;
#[cfg(test)]
mod shapes;
#[cfg(test)]
mod spelling;
#[cfg(test)]
mod telling;
#[cfg(test)]
mod ties;
