//! Tests of `board`, `receipts` and `inbox`.
#![tactic(auto)]

#[cfg(test)]
mod answers;
#[cfg(test)]
mod beside;
#[cfg(test)]
mod calls;
#[cfg(test)]
mod drawn;
#[cfg(test)]
mod handed;
#[cfg(test)]
mod press;
#[cfg(test)]
mod puts;
#[cfg(test)]
mod reads;
#[cfg(test)]
mod rooms;
#[cfg(test)]
mod sender;
#[cfg(test)]
mod told;
