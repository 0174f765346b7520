//! Writers as sinks.

ghost use Rattle.std.specs.Prelude.{◌≡◌, OnOk};
ghost use Rattle.std.specs.Io.KnownBytes.{Appends};

use crate::count::count;
use crate::sink::Sink;
use crate::source::Failed;
use std::io::{self, Write};

/// Any writer as a sink. Each push is flushed before it is answered as done.
#[derive(Debug, Drop)]
pub struct WriteSink<W> {
    writer: W,
    pushes: u64,
    failures: u64,
}

impl<W: Write> WriteSink<W> {
    pub fn new(writer: W) -> WriteSink<W>
        ensures { result ≡ record { writer = writer; pushes = 0; failures = 0 } }
    {
        WriteSink {
            writer,
            pushes: 0,
            failures: 0,
        }
    }

    /// How often it was pushed to.
    pub fn pushes(&self) -> u64
        ensures { result ≡ self.now.pushes }
    {
        self.pushes
    }

    /// How often it failed.
    pub fn failures(&self) -> u64
        ensures { result ≡ self.now.failures }
    {
        self.failures
    }
}

impl<W: Write> Sink for WriteSink<W> {
    ghost known = { λ s. record { pushes = s.pushes; failures = s.failures; held = W.contents s.writer } };

    fn push_all(&mut self, bytes: &[u8]) -> Result<(), Failed> {
        count(&mut self.pushes);
        match write(&mut self.writer, bytes) {
            Ok(()) => Ok(()),
            Err(_) => {
                count(&mut self.failures);
                Err(Failed)
            }
        }
    }
}

/// Writes all the bytes, and has the writer hand on what it kept back.
fn write<W: Write>(writer: &mut W, bytes: &[u8]) -> io::Result<()>
    ensures { OnOk result (Appends (W.contents writer.old) (W.contents writer.new) bytes.now) }
{
    writer.write_all(bytes)?;
    writer.flush()
}
