//! What a session asks of its hub, and what it replies: the session protocol as data.
//!
//! A hub takes edits, hands out what is new or its whole plane, and shows that plane. A request is bytes;
//! it makes at most one call of the hub; the reply follows from the request, the call's answer, and what
//! is kept of an answer whose reply found no memory.
#![tactic(auto)]

mod fault;
mod hub;

pub use fault::HubFault;
pub use hub::Hub;
pub use poll_news::News;
