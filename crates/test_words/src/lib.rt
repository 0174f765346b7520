//! Tests of `command_words`, and of the words and helps of `genedit_words` beside it.
#![tactic(auto)]

#[cfg(test)]
mod forms;
#[cfg(test)]
mod helps;
#[cfg(test)]
mod lines;
#[cfg(test)]
mod servers;
