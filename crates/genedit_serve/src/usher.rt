//! What gives seats to pages.

use crate::desk::{Desk, Received};
use crate::guest::Guest;
use crate::latecomers::patience;
use std::alloc::Global;
use std::sync::{Arc, Mutex, Wait};
use std::thread;
use std::time::Clock;
use web_doors::{SeatVisitor, Seating};

/// Brings pages to the desk, each on its visitor's thread.
#[derive(Drop)]
pub(crate) struct Usher<R> {
    pub(crate) rt: R,
    pub(crate) desk: Arc<Mutex<Desk>, Global>,
}

impl<R: Wait + Clock> Seating for Usher<R> {
    /// Where there is no seat, one is waited for as long as by a connection.
    fn seat(&self, visitor: SeatVisitor) -> Result<(), SeatVisitor> {
        let received = self
            .desk
            .lock(&self.rt)
            .seat_or_wait(&self.rt, Guest::Page(visitor));
        let back = match received {
            Received::Seated => None,
            Received::Back(guest) => Some(guest),
            Received::Waits(number) => {
                thread::sleep(&self.rt, patience());
                self.desk.lock(&self.rt).seat_at_last(&self.rt, number)
            }
        };
        match back.and_then(Guest::into_visitor) {
            Some(visitor) => Err(visitor),
            None => Ok(()),
        }
    }
}
