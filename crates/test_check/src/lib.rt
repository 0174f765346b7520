//! Tests of `script_faults`, `script_check` and `client_commands`.
#![tactic(auto)]

#[cfg(test)]
mod chance;
#[cfg(test)]
mod client_lines;
#[cfg(test)]
mod clients;
#[cfg(test)]
mod dictation;
#[cfg(test)]
mod mistakes;
