//! Tests of `pattern_turns` and `map_periods`.
#![tactic(auto)]

#[cfg(test)]
mod later;
#[cfg(test)]
mod periods;
#[cfg(test)]
mod planes;
#[cfg(test)]
mod turns;
