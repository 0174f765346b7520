//! The files that a client wrote.

use crate::files::{FileFault, refused_text, write_target, wrote_text};
use client_commands::{FileName, FileTarget};
use genedit_io::RunFault;
use std::alloc::{AllocError, Global};
use std::collections::BTreeSet;
use std::rt::Files;

/// The refusal of a file that cannot be written.
const WRITE: u8 = 37;

/// What came of a file that was to be written.
#[derive(Debug, Drop)]
pub struct Written {
    /// That it was, and how many bytes it has; or its refusal.
    pub line: Vec<u8>,
    /// Its name, where it was.
    pub file: Option<FileName>,
}

/// The files that a client wrote.
#[derive(Drop)]
pub struct OwnFiles {
    names: BTreeSet<Vec<u8>>,
    /// The one that it saved last.
    saved: Option<FileName>,
}

impl OwnFiles {
    ghost use Rattle.std.specs.Prelude.{◌≡◌, ℕ, true, cond, Vec, Some, bytes_eq, option_copied, if◌then◌else◌, OnOk};
    ghost use Rattle.std.specs.declared.alloc.Global.{Global};
    ghost use Rattle.typed_commands.specs.Files.{is_own};

    pub fn none(alloc: Global) -> OwnFiles {
        OwnFiles {
            names: BTreeSet::new(alloc),
            saved: None,
        }
    }

    /// Whether the client wrote the file of a name.
    pub fn has(&self, name: &FileName) -> bool
        ensures { result ≡ is_own self.now name.now }
    {
        self.names.contains(name.as_bytes())
    }

    /// The file that the client saved last.
    pub fn saved(&self) -> Option<&FileName>
        ensures { option_copied result ≡ self.now.saved }
    {
        self.saved.as_ref()
    }

    /// Writes a file, which then is one of the client's. One that is there is replaced where the target says so, or it is the
    /// client's. `AllocError` where memory is refused: the file may be there or not.
    pub fn write<R: Files>(
        &mut self,
        rt: &R,
        alloc: Global,
        target: FileTarget,
        text: &[u8],
    ) -> Result<Written, AllocError> {
        let is_own = self.has(&target.name);
        let allowed = FileTarget {
            name: target.name,
            replaces: target.replaces || is_own,
        };
        match write_target(rt, alloc, &allowed, text) {
            Ok(()) => {
                self.add(alloc, &allowed.name, false)?;
                let line = wrote_text(alloc, text.len() as u64, &allowed.name)?;
                let file = Some(allowed.name);
                Ok(Written { line, file })
            }
            Err(FileFault::Refused(cause)) => {
                let refusal = RunFault::Refused(WRITE, None);
                let line = refused_text(alloc, refusal, &allowed.name, cause)?;
                Ok(Written { line, file: None })
            }
            Err(FileFault::Memory) => Err(AllocError),
        }
    }

    /// Keeps in mind that the client wrote a file, and whether it saved the board there.
    pub fn add(&mut self, alloc: Global, name: &FileName, saves: bool) -> Result<(), AllocError>
        ensures own { OnOk result ((other : Vec ℕ Global) → is_own self.new other.items ≡ cond (bytes_eq name.now other.items) true (is_own self.old other.items)) }
        ensures saved { OnOk result (self.new.saved ≡ (if saves then Some name.now else self.old.saved)) }
    {
        let mut copy = Vec::new(alloc);
        copy.extend_from_slice(name.as_bytes())?;
        self.names.insert(copy)?;
        if saves {
            self.saved = Some(FileName::of(alloc, name.as_bytes())?);
        }
        Ok(())
    }
}
