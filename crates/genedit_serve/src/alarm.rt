//! What tells sessions that there are news.

use mio::Waker;
use socket_watch::Watch;
use std::alloc::{AllocError, Global};
use std::net::{Net, Shutdown, TcpStream};
use std::sync::atomic::{AtomicBool, Ordering};
use std::sync::{Arc, Mutex, Wait};

/// What the sessions of one seat wait by, one after another, and what tells them that there are news. No clause
/// speaks of it: another thread may change it at any moment.
#[derive(Drop)]
pub(crate) struct Alarm {
    /// Whether the session listens.
    listens: AtomicBool,
    /// What ends its wait; none where it looks again and again.
    waker: Option<Waker>,
    /// What the next session waits by.
    watch: Mutex<Option<Watch>>,
    /// The session's connection, where that may have to be ended from outside.
    stream: Mutex<Option<TcpStream>>,
}

impl Alarm {
    /// One to which nobody listens yet. Its sessions look again and again where the system gives nothing to wait by.
    fn new<R: Net>(rt: &R, alloc: Global) -> Alarm {
        let (watch, waker) = match Watch::new(rt, alloc) {
            Some((watch, waker)) => (Some(watch), Some(waker)),
            None => (None, None),
        };
        Alarm {
            listens: AtomicBool::new(false),
            waker,
            watch: Mutex::new(watch),
            stream: Mutex::new(None),
        }
    }

    /// What a session waits by that begins; none where it has to look again and again.
    pub(crate) fn take_watch(&self) -> Option<Watch> {
        match self.watch.try_lock() {
            Some(mut held) => held.take(),
            None => None,
        }
    }

    /// A session has ended, and gives back what it waited by.
    pub(crate) fn put_watch(&self, watch: Watch) {
        if let Some(mut held) = self.watch.try_lock() {
            *held = Some(watch);
        }
    }

    /// From now on this is the session's connection.
    pub(crate) fn hold<R: Wait>(&self, rt: &R, stream: TcpStream) {
        *self.stream.lock(rt) = Some(stream);
    }

    /// The session has ended: its connection is held no longer. Where it is being ended from outside just now, it
    /// is held until the next one is.
    pub(crate) fn let_go(&self) {
        if let Some(mut held) = self.stream.try_lock() {
            *held = None;
        }
    }

    /// Ends one side of the session's connection, or both, if it is held.
    pub(crate) fn shut<R: Wait>(&self, rt: &R, side: Shutdown) {
        if let Some(stream) = &*self.stream.lock(rt) {
            let _ = stream.shutdown(side);
        }
    }

    /// From now on the session listens, or does not.
    pub(crate) fn set(&self, listens: bool) {
        self.listens.store(listens, Ordering::SeqCst);
    }

    /// Wakes the session, if it listens. Where that fails, it looks once its time is over.
    fn ring(&self) {
        if self.listens.load(Ordering::SeqCst) {
            if let Some(waker) = &self.waker {
                let _ = waker.wake();
            }
        }
    }
}

/// The alarms of all seats.
#[derive(Drop)]
pub(crate) struct Alarms {
    all: Vec<Arc<Alarm, Global>>,
}

impl Alarms {
    /// Those of so many seats.
    pub(crate) fn new<R: Net>(rt: &R, alloc: Global, count: usize) -> Result<Alarms, AllocError> {
        let mut all = Vec::new(alloc);
        for _seat in 0..count {
            let Ok(alarm) = Arc::new(alloc, Alarm::new(rt, alloc)) else {
                return Err(AllocError);
            };
            all.push(alarm)?;
        }
        Ok(Alarms { all })
    }

    /// The same alarms, in the order of the seats.
    pub(crate) fn shared(&self, alloc: Global) -> Result<Vec<Arc<Alarm, Global>>, AllocError> {
        let mut all = Vec::new(alloc);
        for alarm in &self.all {
            all.push(Arc::try_clone(alarm)?)?;
        }
        Ok(all)
    }

    /// Wakes each session that listens.
    pub(crate) fn ring(&self) {
        for alarm in &self.all {
            alarm.ring();
        }
    }

    /// Ends one side of each connection that is held, or both.
    pub(crate) fn shut<R: Wait>(&self, rt: &R, side: Shutdown) {
        for alarm in &self.all {
            alarm.shut(rt, side);
        }
    }

    /// The same of one seat's.
    pub(crate) fn shut_at<R: Wait>(&self, rt: &R, at: usize, side: Shutdown) {
        if let Some(alarm) = self.all.get(at) {
            alarm.shut(rt, side);
        }
    }
}
