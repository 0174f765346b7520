//! What a client of the session protocol sends, and what it reads in the first frame of a reply.
#![tactic(auto)]

mod answer;
mod asking;
mod greeting;
mod pieced;
mod polled;

pub use answer::{Answer, answer_in};
pub use asking::{Asking, request_body};
pub use greeting::{Greeting, greeting_in};
pub use pieced::{Pieced, pieced_in};
pub use polled::{Polled, polled_in};
