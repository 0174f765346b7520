//! Tests of `genedit_script`, `genedit_lib` and `genedit_rle`.
#![tactic(auto)]

#[cfg(test)]
mod canonical;
#[cfg(test)]
mod exports;
#[cfg(test)]
mod faulty;
#[cfg(test)]
mod patterns;
#[cfg(test)]
mod printed;
#[cfg(test)]
mod runs;
#[cfg(test)]
mod scripts;
#[cfg(test)]
mod told;
