//! Where visitors are until it is clear what they want.

use std::alloc::{AllocError, Global};
use std::net::{Shutdown, TcpStream};
use std::sync::{Condvar, Mutex, Wait};

/// Those who are seen to by threads of their own, so many at most, and what ends them.
#[derive(Drop)]
pub(crate) struct Anteroom {
    places: Mutex<Places>,
    is_empty: Condvar,
}

#[derive(Drop)]
struct Places {
    /// At each place that is taken another hold on its visitor's connection.
    held: Vec<Option<TcpStream>>,
    is_closed: bool,
}

impl Anteroom {
    /// An empty one of so many places.
    pub(crate) fn new(alloc: Global, count: usize) -> Result<Anteroom, AllocError> {
        let mut held = Vec::new(alloc);
        for _place in 0..count {
            held.push(None)?;
        }
        let places = Places {
            held,
            is_closed: false,
        };
        Ok(Anteroom {
            places: Mutex::new(places),
            is_empty: Condvar::new(),
        })
    }

    /// Gives a visitor a place, by another hold on the connection. None where each is taken, or it is closed.
    pub(crate) fn enter<R: Wait>(&self, rt: &R, held: TcpStream) -> Option<usize> {
        let mut places = self.places.lock(rt);
        if places.is_closed {
            return None;
        }
        let at = places.held.iter().position(|place| place.is_none())?;
        let place = places.held.get_mut(at)?;
        *place = Some(held);
        Some(at)
    }

    /// The visitor at a place has left.
    pub(crate) fn leave<R: Wait>(&self, rt: &R, at: usize) {
        let mut places = self.places.lock(rt);
        if let Some(place) = places.held.get_mut(at) {
            *place = None;
        }
        if places.is_empty() {
            self.is_empty.notify_all();
        }
    }

    /// Lets nobody in any more, ends the connection of each who is in it, and waits until they have left.
    pub(crate) fn close<R: Wait>(&self, rt: &R) {
        let mut places = self.places.lock(rt);
        places.is_closed = true;
        for held in places.held.iter().flatten() {
            let _ = held.shutdown(Shutdown::Both);
        }
        let _empty = self
            .is_empty
            .wait_while(rt, places, |places| !places.is_empty());
    }
}

impl Places {
    fn is_empty(&self) -> bool {
        self.held.iter().all(|place| place.is_none())
    }
}
