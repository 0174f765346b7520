//! Tests of sessions (the protocol over a hub in memory and over seats of a board, and services over bytes) and
//! of many exports of one plane.
#![tactic(auto)]

#[cfg(test)]
mod accounts;
#[cfg(test)]
mod asking;
#[cfg(test)]
mod awaiting;
#[cfg(test)]
mod boards;
#[cfg(test)]
mod borders;
#[cfg(test)]
mod dialogues;
#[cfg(test)]
mod failing;
#[cfg(test)]
mod hubs;
#[cfg(test)]
mod kept;
#[cfg(test)]
mod late;
#[cfg(test)]
mod many;
#[cfg(test)]
mod protocol;
#[cfg(test)]
mod refusals;
#[cfg(test)]
mod seats;
#[cfg(test)]
mod served;
#[cfg(test)]
mod streams;
#[cfg(test)]
mod texts;
#[cfg(test)]
mod waking;
