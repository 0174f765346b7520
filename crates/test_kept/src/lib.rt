//! Tests of `kept_records`, `kept_devices`, `kept_log` and `kept_file`.
#![tactic(auto)]

#[cfg(test)]
mod bodies;
#[cfg(test)]
mod crashes;
#[cfg(test)]
mod damage;
#[cfg(test)]
mod failures;
#[cfg(test)]
mod files;
#[cfg(test)]
mod found;
