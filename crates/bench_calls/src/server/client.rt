//! A client that pushes edits of one cell, which is its own.

use anyhow::{Result, ensure};
use devices::ReadSource;
use frame_line::receive;
use message_frames::Frames;
use std::alloc::Global;
use std::io::Write;
use std::net::{Net, TcpStream};

/// Asks for what is new, and says goodbye, each in its frame.
const POLL: [u8; 5] = [0, 0, 0, 1, 3];

const BYE: [u8; 5] = [0, 0, 0, 1, 6];

/// A push of an edit under `/2/3`, whose stamp and column are to be filled in, in its frame.
const PUSH: [u8; 41] =
    *b"\0\0\0\x25\x02GLWD\x01\x04/2/3\0\0\0\x01\0\0\0\0\0\0\0\0\0\0\0\0\x01\x40\0\0\0\x40\0\0\0\x01";

/// How often the connection is read for one reply, at most.
const TURNS: u64 = 0x1_0000_0000;

/// A connection, a push whose counter is to be filled in, and the counter of the last.
#[derive(Drop)]
pub struct Client {
    stream: TcpStream,
    source: ReadSource<TcpStream>,
    frames: Frames,
    push: [u8; 41],
    counter: u32,
}

impl Client {
    /// A client of the seat with this number, at a port of this machine.
    pub fn connected<R: Net<Stream = TcpStream>>(
        rt: &R,
        alloc: Global,
        port: u16,
        seat: u16,
    ) -> Result<Client> {
        let stream = TcpStream::connect(rt, ("127.0.0.1", port))?;
        stream.set_nodelay(true)?;
        let mut push = PUSH;
        [push[25], push[26]] = seat.to_be_bytes();
        [push[34], push[35]] = seat.to_be_bytes();
        Ok(Client {
            source: ReadSource::new(stream.try_clone()?),
            stream,
            frames: Frames::new(alloc),
            push,
            counter: 0,
        })
    }

    /// Pushes its next edit, and waits until that is done.
    pub fn push(&mut self) -> Result<()> {
        self.counter = self.counter.saturating_add(1);
        let mut push = self.push;
        [push[21], push[22], push[23], push[24]] = self.counter.to_be_bytes();
        let reply = self.ask(&push)?;
        ensure!(reply.as_slice() == [0].as_slice(), "a push was refused");
        Ok(())
    }

    /// Polls, and takes each text that the reply announces: its edits, or one plane in their place.
    pub fn poll(&mut self) -> Result<()> {
        let reply = self.ask(&POLL)?;
        let texts = match reply.as_slice() {
            [0, 255, 255, 255, 255] => 1,
            [0, a, b, c, d] => u32::from_be_bytes([*a, *b, *c, *d]),
            _ => 0,
        };
        for _ in 0..texts {
            let _text = self.hear()?;
        }
        Ok(())
    }

    /// Says goodbye.
    pub fn leave(&mut self) -> Result<()> {
        let _reply = self.ask(&BYE)?;
        Ok(())
    }

    /// Sends a request, and takes the body that comes.
    fn ask(&mut self, request: &[u8]) -> Result<Vec<u8>> {
        let mut to = &self.stream;
        to.write_all(request)?;
        self.hear()
    }

    fn hear(&mut self) -> Result<Vec<u8>> {
        Ok(receive(&mut self.frames, &mut self.source, TURNS)?)
    }
}
