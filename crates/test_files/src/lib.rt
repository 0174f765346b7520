//! Tests of `cell_files` and `genedit_convert`.
#![tactic(auto)]

#[cfg(test)]
mod conversions;
#[cfg(test)]
mod files;
#[cfg(test)]
mod hostile;
#[cfg(test)]
mod hostile_macrocells;
#[cfg(test)]
mod macrocells;
#[cfg(test)]
mod read_macrocells;
#[cfg(test)]
mod told;
