//! The door through which browsers come.

ghost use denote.Param.Send.{IsSend, IsSync};
ghost use Rattle.std.specs.Prelude.{IfErr};
ghost use Rattle.seat_server.specs.Faults.{IsAttendFault};

use crate::address::WebAddress;
use crate::connections::{knock, pause};
use crate::house::House;
use crate::usher::Usher;
use seat_server::ServerFault;
use std::alloc::Global;
use std::net::{Net, SocketAddr, TcpListener};
use std::sync::atomic::{AtomicBool, Ordering};
use std::sync::{Arc, Wait};
use std::thread;
use std::thread::{JoinHandle, Threads};
use std::time::Clock;
use web_doors::Visitors;

/// The thread at the web door.
#[derive(Drop)]
pub(crate) struct WebDoor {
    is_over: Arc<AtomicBool, Global>,
    local: SocketAddr,
    thread: JoinHandle<()>,
}

impl WebDoor {
    /// Starts it. `Read` where the system refuses the thread, or does not tell where the listener is.
    pub(crate) fn start<R: Net + Threads + Wait + Clock + Copy + Drop + Send + Sync + 'static>(
        rt: R,
        alloc: Global,
        web: WebAddress,
        house: &House,
    ) -> Result<WebDoor, ServerFault>
        ensures { IfErr result IsAttendFault }
    {
        let WebAddress { listener, front } = web;
        let Ok(local) = listener.local_addr() else {
            return Err(ServerFault::Read);
        };
        let is_over = Arc::new(alloc, AtomicBool::new(false))?;
        let theirs = Arc::try_clone(&is_over)?;
        let usher = Usher {
            rt,
            desk: Arc::try_clone(&house.desk)?,
        };
        let visitors = Visitors::new(rt, alloc, front, usher)?;
        let begun = thread::spawn(
            &rt,
            move ||
                requires { IsSend R.row × IsSync R.row }
            { keep_web_door(rt, &listener, visitors, &theirs) },
        );
        match begun {
            Ok(thread) => Ok(WebDoor {
                is_over,
                local,
                thread,
            }),
            Err(_) => Err(ServerFault::Read),
        }
    }

    /// Ends it: a last visitor lets it look up. Who is being seen to is let go, and waited for.
    pub(crate) fn end<R: Threads + Net + Clock>(self, rt: &R) {
        self.is_over.store(true, Ordering::SeqCst);
        knock(rt, self.local);
        self.thread.join(rt);
    }
}

/// Has each visitor that comes seen to, until the board is over. Where the system gives none, it is asked again a little
/// later.
fn keep_web_door<R: Threads + Wait + Clock + Copy + Drop + Send + Sync + 'static>(
    rt: R,
    listener: &TcpListener,
    visitors: Visitors<R, Usher<R>>,
    is_over: &AtomicBool,
) {
    for _ in rt.forever() {
        let came = listener.accept();
        if is_over.load(Ordering::SeqCst) {
            return visitors.end();
        }
        match came {
            Ok((stream, _)) => visitors.receive(stream),
            Err(_) => thread::sleep(&rt, pause()),
        }
    }
    unreachable!()
}
