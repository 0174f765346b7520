//! Tests of a board's web port: heads of requests, answers, and sockets in memory and over TCP.
#![tactic(auto)]

#[cfg(test)]
mod chance;
#[cfg(test)]
mod heads;
#[cfg(test)]
mod memory;
#[cfg(test)]
mod sockets;
#[cfg(test)]
mod tcp;
