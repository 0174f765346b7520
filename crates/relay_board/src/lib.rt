//! The running board: seats that submit edits and read one published list, each on a thread of its own,
//! and the relay that publishes what they submit.
//!
//! `start` makes a board and an inbox, `Opened::named` the relay and the seats. A seat's `submit` puts an
//! edit into the inbox, the relay's `ready` takes one and tries it, its `show` publishes the first that is
//! ready, a `turn` does both, and `receive` waits for the receipt of a submission. `poll`, `view`, `plane` and
//! `learn` never wait. `finish` ends it all, with an account.
#![tactic(auto)]

mod door;
mod fault;
mod file_seat;
mod finish;
mod laws;
mod naming;
mod new_seats;
mod opened;
mod receipt;
mod relay;
mod seat;
mod tally;

pub use board::{KEPT, News, SeatFault};
pub use fault::{FinishFault, Gone, StartFault, SubmitFault, TurnFault};
pub use file_seat::FileSeat;
pub use finish::{Account, in_order, is_whole};
pub use laws::seat_laws;
pub use naming::Naming;
pub use opened::{BoardSize, MOST_INBOX, MOST_SESSIONS, Opened, start, start_within};
pub use receipt::{Pending, Receipt};
pub use relay::{Bell, MOST_READY, Readiness, Relay, Turn};
pub use seat::{IsSeat, Seat};
