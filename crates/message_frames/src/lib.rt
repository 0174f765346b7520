//! Frames: bodies behind their lengths, in a stream that comes in pieces.
#![tactic(auto)]

mod frame_fault;
mod framed;
mod laws;
mod stream;

pub use frame_fault::FrameFault;
pub use framed::Framed;
pub use laws::frame_laws;
pub use stream::{Frames, MOST_BODY, frame};
