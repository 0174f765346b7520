//! What ends a server at whose seats nobody sits.

ghost use denote.Param.Send.{IsSend, IsSync};
ghost use Rattle.std.specs.Prelude.{IfErr};
ghost use Rattle.seat_server.specs.Faults.{IsAttendFault};

use crate::connections::pause;
use crate::house::House;
use seat_server::ServerFault;
use std::alloc::Global;
use std::sync::atomic::{AtomicBool, Ordering};
use std::sync::{Arc, Wait};
use std::thread;
use std::thread::{JoinHandle, Threads};
use std::time::{Clock, Duration};

/// The thread that looks whether anybody sits at a seat.
#[derive(Drop)]
pub(crate) struct Idleness {
    is_over: Arc<AtomicBool, Global>,
    thread: JoinHandle<()>,
}

impl Idleness {
    /// Ends the server of a house once nobody has sat there for so long. `Read` where the system refuses the thread.
    pub(crate) fn start<R: Threads + Wait + Clock + Copy + Drop + Send + Sync + 'static>(
        rt: R,
        alloc: Global,
        house: House,
        most: Duration,
    ) -> Result<Idleness, ServerFault>
        ensures { IfErr result IsAttendFault }
    {
        let most = u64::try_from(most.as_millis()).unwrap_or(u64::MAX);
        let is_over = Arc::new(alloc, AtomicBool::new(false))?;
        let theirs = Arc::try_clone(&is_over)?;
        let begun = thread::spawn(
            &rt,
            move ||
                requires { IsSend R.row × IsSync R.row }
            { look(rt, &house, most, &theirs) },
        );
        match begun {
            Ok(thread) => Ok(Idleness { is_over, thread }),
            Err(_) => Err(ServerFault::Read),
        }
    }

    /// Looks no more.
    pub(crate) fn end<R: Threads>(self, rt: &R) {
        self.is_over.store(true, Ordering::SeqCst);
        self.thread.join(rt);
    }
}

/// Looks each tenth of a second, until the board is over, or nobody more is seated.
fn look<R: Wait + Clock + Drop>(rt: R, house: &House, most: u64, is_over: &AtomicBool) {
    for _ in rt.forever() {
        thread::sleep(&rt, pause());
        // Where nobody sits there is no session that would have to be ended.
        if is_over.load(Ordering::SeqCst) || house.desk.lock(&rt).close_if_idle(&rt, most) {
            return;
        }
    }
    unreachable!()
}
