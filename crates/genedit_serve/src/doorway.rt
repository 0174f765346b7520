//! The doors through which guests come to the chairs.

ghost use Rattle.std.specs.Prelude.{IfErr};
ghost use Rattle.seat_server.specs.Faults.{IsAttendFault};

use crate::address::Address;
use crate::door::{Doorkeeper, Entrance};
use crate::house::{House, Manners, Rousing};
use crate::idleness::Idleness;
use crate::web_door::WebDoor;
use seat_server::{Progress, ServerFault};
use std::alloc::Global;
use std::net::{Net, Shutdown, TcpListener};
use std::sync::{Arc, Wait};
use std::thread::Threads;
use std::time::Clock;

/// What leads from the ports of a server to the chairs of its seats.
#[derive(Drop)]
pub(crate) struct Doorway {
    pub(crate) address: Address,
    pub(crate) house: House,
    pub(crate) progress: Arc<Progress>,
    pub(crate) manners: Manners,
}

/// The threads at the doors that are open, and the one that looks whether anybody sits at a seat.
#[derive(Drop)]
pub(crate) struct Doors {
    idleness: Option<Idleness>,
    web: Option<WebDoor>,
    keeper: Option<Doorkeeper>,
}

impl Doors {
    /// Lets nobody in any more.
    fn end<R: Net + Threads + Wait + Clock>(self, rt: &R) {
        let Doors {
            idleness,
            web,
            keeper,
        } = self;
        if let Some(keeper) = keeper {
            keeper.end(rt);
        }
        if let Some(web) = web {
            web.end(rt);
        }
        if let Some(idleness) = idleness {
            idleness.end(rt);
        }
    }
}

impl Doorway {
    /// What ends the waits of chairs and of sessions.
    pub(crate) fn rousing<'a, R>(&'a self, rt: &'a R) -> Rousing<'a, R> {
        Rousing {
            rt,
            house: &self.house,
        }
    }

    /// Lets guests in, and lets the server be asked to end. `Read` where the system refuses a thread, or a listener a second
    /// descriptor; then, and without memory, nobody comes in, who came is let go, and nothing is asked.
    pub(crate) fn open<R: Net + Threads + Wait + Clock + Copy + Drop + Send + Sync + 'static>(
        &mut self,
        rt: R,
        alloc: Global,
    ) -> Result<Doors, ServerFault>
        ensures { IfErr result IsAttendFault }
    {
        if let Some(closing) = &self.address.closing {
            closing.begin(&rt, self.house.shared()?);
        }
        let mut doors = Doors {
            idleness: None,
            web: None,
            keeper: None,
        };
        match self.open_all(rt, alloc, &mut doors) {
            Ok(()) => Ok(doors),
            Err(fault) => {
                self.house.desk.lock(&rt).close();
                self.house.alarms.shut(&rt, Shutdown::Both);
                doors.end(&rt);
                self.ask_no_more(&rt);
                Err(fault)
            }
        }
    }

    /// Opens each door that there is. The last is that of the connections of frames.
    fn open_all<R: Net + Threads + Wait + Clock + Copy + Drop + Send + Sync + 'static>(
        &mut self,
        rt: R,
        alloc: Global,
        doors: &mut Doors,
    ) -> Result<(), ServerFault>
        ensures { IfErr result IsAttendFault }
    {
        if let Some(most) = self.address.until_idle {
            doors.idleness = Some(Idleness::start(rt, alloc, self.house.shared()?, most)?);
        }
        if let Some(web) = self.address.web.take() {
            doors.web = Some(WebDoor::start(rt, alloc, web, &self.house)?);
        }
        if let Some(listener) = &self.address.listener {
            let entrance = self.entrance(listener)?;
            doors.keeper = Some(Doorkeeper::start(rt, alloc, entrance)?);
        }
        Ok(())
    }

    /// What the door of the connections of frames leads to.
    fn entrance(&self, listener: &TcpListener) -> Result<Entrance, ServerFault>
        ensures { IfErr result IsAttendFault }
    {
        let Ok(listener) = listener.try_clone() else {
            return Err(ServerFault::Read);
        };
        Ok(Entrance {
            listener,
            house: self.house.shared()?,
            progress: Arc::try_clone(&self.progress)?,
            manners: self.manners,
        })
    }

    /// Lets the server be asked to end no more.
    fn ask_no_more<R: Wait>(&self, rt: &R) {
        if let Some(closing) = &self.address.closing {
            closing.end(rt);
        }
    }

    /// Lets nobody in any more.
    pub(crate) fn close<R: Net + Threads + Wait + Clock>(self, rt: &R, doors: Doors) {
        self.ask_no_more(rt);
        doors.end(rt);
    }
}
