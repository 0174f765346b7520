//! Tests of clients: what they print and do, at a board in memory.
#![tactic(auto)]

#[cfg(test)]
mod clients;
#[cfg(test)]
mod clocks;
#[cfg(test)]
mod commands;
#[cfg(test)]
mod crowd;
#[cfg(test)]
mod films;
#[cfg(test)]
mod late;
#[cfg(test)]
mod lines;
#[cfg(test)]
mod many_cells;
#[cfg(test)]
mod opening;
#[cfg(test)]
mod plays;
#[cfg(test)]
mod refusals;
#[cfg(test)]
mod returns;
#[cfg(test)]
mod texts;
#[cfg(test)]
mod told_cells;
#[cfg(test)]
mod waits;
#[cfg(test)]
mod wrong_texts;
