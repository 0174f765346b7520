//! Chairs: where the sessions of a seat get their guests.

ghost use Rattle.std.specs.Prelude.{◌≡◌, IfSome};

use crate::alarm::Alarm;
use crate::connections::Connection;
use crate::desk::Desk;
use crate::ears::Ears;
use crate::guest::Guest;
use crate::incoming::{Incoming, PageReader};
use crate::outgoing::Outgoing;
use crossbeam_channel::Receiver;
use devices::{ReadSource, WriteSink};
use seat_server::{Accept, Ends};
use std::alloc::Global;
use std::net::{Shutdown, TcpStream};
use std::sync::{Arc, Mutex, Wait};
use std::time::Clock;
use web_doors::SeatVisitor;
use web_streams::{TcpHalf, open_socket};

/// The chair of a seat. It gives one guest after another, or just one.
#[derive(Drop)]
pub struct Chair<R> {
    pub(crate) rt: R,
    pub(crate) alloc: Global,
    /// Its place at the desk.
    pub(crate) at: usize,
    pub(crate) desk: Arc<Mutex<Desk>, Global>,
    pub(crate) guests: Receiver<Guest, Global>,
    pub(crate) alarm: Arc<Alarm, Global>,
    /// Whether it gives a further guest where a session has ended.
    pub(crate) comes_back: bool,
    /// Whether a guest was given.
    pub(crate) has_given: bool,
}

/// What a session over a guest reads from, writes to and waits by.
type GuestEnds<R> = Ends<ReadSource<Incoming>, WriteSink<Outgoing>, Ears<R>>;

impl<R: Clock + Wait + Copy> Chair<R> {
    /// The next guest; none where nobody more is seated here.
    fn next_guest(&mut self) -> Option<Guest> {
        if self.has_given {
            if !self.comes_back {
                self.desk.lock(&self.rt).depart(&self.rt);
                return None;
            }
            let next = self.desk.lock(&self.rt).leave(&self.rt, self.at);
            if next.is_some() {
                return next;
            }
        }
        self.has_given = true;
        self.guests.recv(&self.rt).ok()
    }

    /// What the session over a guest is served over; none where their connection, the system or memory fails.
    fn ends_of(&self, guest: Guest) -> Option<GuestEnds<R>>
        ensures unread { IfSome result (λ ends. ends.source ≡ record { reader = ends.source.reader; pulls = 0; ends_met = 0; failures = 0 }) }
        ensures unwritten { IfSome result (λ ends. ends.sink ≡ record { writer = ends.sink.writer; pushes = 0; failures = 0 }) }
    {
        match guest {
            Guest::Frames(connection) => self.ends_of_frames(connection),
            Guest::Page(visitor) => {
                let ends = self.ends_of_page(visitor);
                if ends.is_none() {
                    self.alarm.let_go();
                }
                ends
            }
        }
    }

    fn ends_of_frames(&self, connection: Connection) -> Option<GuestEnds<R>>
        ensures unread { IfSome result (λ ends. ends.source ≡ record { reader = ends.source.reader; pulls = 0; ends_met = 0; failures = 0 }) }
        ensures unwritten { IfSome result (λ ends. ends.sink ≡ record { writer = ends.sink.writer; pushes = 0; failures = 0 }) }
    {
        let Connection {
            read,
            write,
            wait,
            held,
        } = connection;
        let alarm = Arc::try_clone(&self.alarm).ok()?;
        if let Some(held) = held {
            self.hold(held);
        }
        Some(Ends {
            source: ReadSource::new(Incoming::Frames(read)),
            sink: WriteSink::new(Outgoing::Frames(write)),
            ears: Ears::of(self.rt, wait, alarm, None),
        })
    }

    /// The handshake is answered here.
    fn ends_of_page(&self, visitor: SeatVisitor) -> Option<GuestEnds<R>>
        ensures unread { IfSome result (λ ends. ends.source ≡ record { reader = ends.source.reader; pulls = 0; ends_met = 0; failures = 0 }) }
        ensures unwritten { IfSome result (λ ends. ends.sink ≡ record { writer = ends.sink.writer; pushes = 0; failures = 0 }) }
    {
        let SeatVisitor {
            stream,
            request,
            behind,
        } = visitor;
        let wait = stream.try_clone().ok()?;
        let held = stream.try_clone().ok()?;
        let alarm = Arc::try_clone(&self.alarm).ok()?;
        self.hold(held);
        let (reader, writer) = open_socket(self.alloc, TcpHalf::of(stream), &request, behind).ok()?;
        let reader = PageReader::new(self.alloc, reader).ok()?;
        let theirs = reader.shared().ok()?;
        Some(Ends {
            source: ReadSource::new(Incoming::Page(reader)),
            sink: WriteSink::new(Outgoing::Page(writer)),
            ears: Ears::of(self.rt, wait, alarm, Some(theirs)),
        })
    }

    /// From now on this connection can be ended from outside. Whoever closed the desk before, or came as the same page again,
    /// has not seen it.
    fn hold(&self, held: TcpStream) {
        self.alarm.hold(&self.rt, held);
        let desk = self.desk.lock(&self.rt);
        if desk.is_closed() {
            self.alarm.shut(&self.rt, Shutdown::Read);
        }
        if desk.is_awaited(self.at) {
            self.alarm.shut(&self.rt, Shutdown::Both);
        }
    }
}

impl<R: Clock + Wait + Copy> Accept<ReadSource<Incoming>, WriteSink<Outgoing>, Ears<R>>
    for Chair<R> {
    fn accept(&mut self) -> Option<GuestEnds<R>> {
        let rt = self.rt;
        for _ in rt.forever() {
            let guest = self.next_guest()?;
            let ends = self.ends_of(guest);
            if ends.is_some() {
                return ends;
            }
        }
        unreachable!()
    }
}
