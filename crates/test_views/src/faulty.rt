//! A source and a sink that fail.

ghost use Rattle.std.specs.Prelude.{None};

use crate::texts::GLIDER;
use crate::told::ALL;
use devices::{Failed, ReadSource, Sink, Source};
use genedit_view::{BufferedSink, view, view_within};
use std::alloc::AllocError;

/// Takes nothing.
#[derive(Drop)]
struct Broken {
    pushes: u64,
}

impl Sink for Broken {
    ghost known = { λ s. record { pushes = s.pushes; failures = s.pushes; held = None } };

    fn push_all(&mut self, _bytes: &[u8]) -> Result<(), Failed> {
        self.pushes = self.pushes.saturating_add(1);
        Err(Failed)
    }
}

/// Gives nothing.
#[derive(Drop)]
struct Dry {
    pulls: u64,
}

impl Source for Dry {
    ghost known = { λ s. record { pulls = s.pulls; ends_met = 0; failures = s.pulls; left = None } };

    fn pull(&mut self, _piece: &mut [u8]) -> Result<usize, Failed> {
        self.pulls = self.pulls.saturating_add(1);
        Err(Failed)
    }
}

#[test]
fn failed_writes_are_told(rt: HostRuntime) -> Result<(), AllocError> {
    let alloc = rt.alloc();
    let mut sink = BufferedSink::new(alloc, Broken { pushes: 0 })?;
    let mut source = ReadSource::new(GLIDER.as_bytes());
    match view(alloc, &ALL, &mut source, &mut sink) {
        Ok(_) => assert!(rt; false, "the sink takes nothing"),
        Err(fault) => {
            assert_eq!(rt; format!(in alloc; "{fault}")?.as_str(), "write fault");
            assert_eq!(rt; fault.exit_status(), 4);
        }
    }
    Ok(())
}

#[test]
fn failed_reads_are_told(rt: HostRuntime) -> Result<(), AllocError> {
    let alloc = rt.alloc();
    let mut sink = BufferedSink::new(alloc, Broken { pushes: 0 })?;
    match view(alloc, &ALL, &mut Dry { pulls: 0 }, &mut sink) {
        Ok(_) => assert!(rt; false, "the source gives nothing"),
        Err(fault) => assert_eq!(rt; fault.exit_status(), 3),
    }
    Ok(())
}

/// Two pulls suffice for a short text, and one does not.
#[test]
fn pulls_are_counted(rt: HostRuntime) -> Result<(), AllocError> {
    let alloc = rt.alloc();
    let mut out = Vec::new(alloc);
    let mut sink = BufferedSink::new(alloc, devices::WriteSink::new(&mut out))?;
    let one = view_within(
        alloc,
        &ALL,
        &mut ReadSource::new(GLIDER.as_bytes()),
        &mut sink,
        1,
    );
    assert!(rt; one.is_err());
    let two = view_within(
        alloc,
        &ALL,
        &mut ReadSource::new(GLIDER.as_bytes()),
        &mut sink,
        2,
    );
    assert!(rt; two.is_ok());
    Ok(())
}
