//! Seats that wait at their chairs.

ghost use Rattle.std.specs.Prelude.{◌≡◌, IfErr, IfOk};
ghost use Rattle.seat_server.specs.Faults.{IsAttendFault};

use crate::address::Address;
use crate::doorway::Doorway;
use crate::house::{House, Manners, Rousing};
use relay_board::{Naming, Relay, Seat};
use seat_server::{Attendance, Progress, ServerFault, Streams, attending};
use std::alloc::Global;
use std::net::{Net, TcpListener, TcpStream};
use std::sync::{Arc, Wait};
use std::thread::Threads;
use std::time::Clock;

/// Where guests come from, and whether a seat is given again once its session has ended.
#[derive(Drop)]
pub(crate) struct Reception {
    pub(crate) address: Address,
    pub(crate) comes_back: bool,
}

/// Seats each on a thread of its own, at a chair, and the doorway to these.
pub(crate) type Seated<J> = (Attendance<J>, Doorway);

/// Starts a thread for each seat of a relay, which waits at its chair. Where seats come back, a chair gives one guest
/// after another, else just one.
pub(crate) fn seated<
    J: Naming + Send + 'static,
    R: Net<Listener = TcpListener, Stream = TcpStream>
        + Clock
        + Threads
        + Wait
        + Copy
        + Drop
        + Send
        + Sync
        + 'static,
>(
    rt: R,
    alloc: Global,
    relay: &Relay<J, R>,
    seats: Vec<Seat<J>>,
    reception: Reception,
) -> Result<Seated<J>, ServerFault>
    ensures seats { IfOk result (λ s. s.0 ≡ seats.items) }
    ensures fault { IfErr result IsAttendFault }
{
    let bell = relay.bell()?;
    let Reception {
        address,
        comes_back,
    } = reception;
    let manners = Manners {
        comes_back,
        is_held: comes_back || address.closing.is_some(),
    };
    let progress = Arc::new(alloc, Progress::new(bell, seats.len()))?;
    let theirs = Arc::try_clone(&progress)?;
    let (house, chairs) = House::new(rt, alloc, seats.len(), manners)?;
    let rousing = Rousing {
        rt: &rt,
        house: &house,
    };
    let streams = Streams {
        chairs,
        wake: &rousing,
    };
    let attendance = attending(rt, alloc, theirs, seats, streams)?;
    let doorway = Doorway {
        address,
        house,
        progress,
        manners,
    };
    Ok((attendance, doorway))
}
