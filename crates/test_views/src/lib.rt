//! Tests of `cell_pictures` and `genedit_view`.
#![tactic(auto)]

#[cfg(test)]
mod blocks;
#[cfg(test)]
mod charts;
#[cfg(test)]
mod colours;
#[cfg(test)]
mod faulty;
#[cfg(test)]
mod macrocells;
#[cfg(test)]
mod periods;
#[cfg(test)]
mod refusals;
#[cfg(test)]
mod states;
#[cfg(test)]
mod svgs;
#[cfg(test)]
mod texts;
#[cfg(test)]
mod told;
#[cfg(test)]
mod words;
