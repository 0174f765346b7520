//! What ends a server from outside.

use crate::house::House;
use std::net::Shutdown;
use std::sync::atomic::{AtomicBool, Ordering};
use std::sync::{Mutex, Wait};
use std::thread;
use std::time::{Clock, Duration};

/// How long a client may take to read what it is being answered: two seconds.
fn patience() -> Duration {
    Duration::from_millis(2000)
}

/// By which a server is asked to end. No clause speaks of it: it may be asked at any moment.
#[derive(Drop)]
pub struct ClosingCall {
    is_asked: AtomicBool,
    /// The server that is asked, once it serves.
    house: Mutex<Option<House>>,
}

impl ClosingCall {
    /// One that was not asked yet.
    pub fn new() -> ClosingCall {
        ClosingCall {
            is_asked: AtomicBool::new(false),
            house: Mutex::new(None),
        }
    }

    /// Asks the server to end, also one that begins later: nobody more is seated, and each session ends behind what it
    /// is being answered. A client that does not read its answer within two seconds is not waited for.
    pub fn ask<R: Wait + Clock>(&self, rt: &R) {
        self.is_asked.store(true, Ordering::SeqCst);
        let is_served = match &*self.house.lock(rt) {
            None => false,
            Some(house) => {
                house.close(rt);
                true
            }
        };
        if is_served {
            thread::sleep(rt, patience());
            if let Some(house) = &*self.house.lock(rt) {
                house.alarms.shut(rt, Shutdown::Both);
            }
        }
    }

    /// From now on this is the server that is asked.
    pub(crate) fn begin<R: Wait>(&self, rt: &R, house: House) {
        let mut held = self.house.lock(rt);
        if self.is_asked.load(Ordering::SeqCst) {
            house.close(rt);
        }
        *held = Some(house);
    }

    /// The server has ended.
    pub(crate) fn end<R: Wait>(&self, rt: &R) {
        *self.house.lock(rt) = None;
    }
}
