//! The server: a board whose seats are served to connections over the loopback of this machine, and to browsers.
#![tactic(auto)]

mod address;
mod alarm;
mod anteroom;
mod bound;
mod chair;
mod closing;
mod closing_call;
mod connections;
mod desk;
mod document;
mod door;
mod doorway;
mod ears;
mod fault;
mod guest;
mod house;
mod idleness;
mod incoming;
mod kept;
mod latecomers;
mod outgoing;
mod refusal;
mod seated;
mod server;
mod stopwatch;
mod usher;
mod web_door;

pub use address::{Address, WebAddress};
pub use closing_call::ClosingCall;
pub use document::{KeptFile, open_kept};
pub use kept::{KeptBoard, serve_kept_on};
pub use server::{INBOX, ServedBoard, listen, listen_web, serve_on};
