//! Tests of the server: boards that are served over the loopback of this machine, to connections and to pages.
#![tactic(auto)]

#[cfg(test)]
mod awaiting;
#[cfg(test)]
mod clients;
#[cfg(test)]
mod crowd;
#[cfg(test)]
mod cut;
#[cfg(test)]
mod lessons;
#[cfg(test)]
mod page;
#[cfg(test)]
mod pages;
#[cfg(test)]
mod refused;
#[cfg(test)]
mod served;
