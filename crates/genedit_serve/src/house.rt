//! What stands between the connections of a server and the seats of its board.

use crate::alarm::Alarms;
use crate::chair::Chair;
use crate::desk::{Desk, DeskChairs};
use crate::guest::Guest;
use chairs::Plan;
use crossbeam_channel::unbounded;
use document_files::cause_of_file;
use genedit_io::Cause;
use kept_file::FileKeep;
use kept_server::Outages;
use seat_server::Wake;
use std::alloc::{AllocError, Global};
use std::fs::File;
use std::net::{Net, Shutdown};
use std::rt::Files;
use std::sync::{Arc, Mutex, Wait};
use std::time::Clock;

/// Which connections a board takes.
#[derive(Clone, Copy)]
pub(crate) struct Manners {
    /// Whether a chair is given again once a session has ended, and the system is asked again where it gives no
    /// connection.
    pub(crate) comes_back: bool,
    /// Whether connections may have to be ended from outside.
    pub(crate) is_held: bool,
}

/// The desk of a board, and the alarms of its seats.
#[derive(Drop)]
pub(crate) struct House {
    pub(crate) desk: Arc<Mutex<Desk>, Global>,
    pub(crate) alarms: Arc<Alarms, Global>,
}

impl House {
    /// That of so many seats at which nobody has sat, and their chairs, in order.
    pub(crate) fn new<R: Net + Clock + Copy>(
        rt: R,
        alloc: Global,
        count: usize,
        manners: Manners,
    ) -> Result<(House, Vec<Chair<R>>), AllocError> {
        let mut senders = Vec::new(alloc);
        let mut receivers = Vec::new(alloc);
        for _seat in 0..count {
            let (sender, receiver) = unbounded::<Guest, _>(alloc)?;
            senders.push(sender)?;
            receivers.push(receiver)?;
        }
        let alarms = shared(alloc, Alarms::new(&rt, alloc, count)?)?;
        let given = DeskChairs {
            plan: Plan::new(alloc, count)?,
            guests: senders,
            alarms: Arc::try_clone(&alarms)?,
        };
        let desk = shared(alloc, Mutex::new(Desk::new(&rt, alloc, given)?))?;
        let house = House { desk, alarms };
        let mut chairs = Vec::new(alloc);
        let theirs = house.alarms.shared(alloc)?;
        for (at, (guests, alarm)) in receivers.into_iter().zip(theirs).enumerate() {
            chairs.push(Chair {
                rt,
                alloc,
                at,
                desk: Arc::try_clone(&house.desk)?,
                guests,
                alarm,
                comes_back: manners.comes_back,
                has_given: false,
            })?;
        }
        Ok((house, chairs))
    }

    /// The same house.
    pub(crate) fn shared(&self) -> Result<House, AllocError> {
        Ok(House {
            desk: Arc::try_clone(&self.desk)?,
            alarms: Arc::try_clone(&self.alarms)?,
        })
    }

    /// Nobody more is seated, and each session ends behind what it is being answered.
    pub(crate) fn close<R: Wait>(&self, rt: &R) {
        self.desk.lock(rt).close();
        self.alarms.shut(rt, Shutdown::Read);
        self.alarms.ring();
    }
}

/// A value that is shared.
fn shared<T: Drop>(alloc: Global, value: T) -> Result<Arc<T, Global>, AllocError> {
    match Arc::new(alloc, value) {
        Ok(value) => Ok(value),
        Err(_) => Err(AllocError),
    }
}

/// What ends the waits of chairs and of sessions.
#[derive(Drop)]
pub(crate) struct Rousing<'a, R> {
    pub(crate) rt: &'a R,
    pub(crate) house: &'a House,
}

impl<R: Wait> Wake for Rousing<'_, R> {
    fn wake(&self) {
        self.house.desk.lock(self.rt).close();
    }

    fn announce(&self) {
        self.house.alarms.ring();
    }
}

/// Where the disk is full, what was published can be read until all have left; else the connections are ended.
impl<F: Files<File = File>, R: Wait + Eprint> Outages<FileKeep<'_, F>> for Rousing<'_, R> {
    fn memory_wanted(&self) {
        let _ = self.rt.eprintln("genedit: out of memory: what is drawn waits until there is some");
    }

    fn file_failed(&self, file: &FileKeep<'_, F>) {
        let cause = file.failure().map_or(Cause::Other, cause_of_file);
        if cause == Cause::Full {
            let path = file.path();
            let _ = eprintln!(self.rt;
                "genedit: {path}: the disk is full: nothing more is taken; what was published can be read until all have left"
            );
        } else {
            self.house.alarms.shut(self.rt, Shutdown::Both);
        }
    }
}
