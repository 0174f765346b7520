//! Records of a document, as they come.

ghost use Rattle.std.specs.Prelude.{◌≤◌, ◌^◌, length};

use crate::document_reading::{Left, bytes_of, edits_in};
use crate::opening::tell_unread;
use base64::engine::general_purpose::STANDARD;
use devices::WriteSink;
use document_bodies::{edit_body, head_body};
use documents::ListedEdits;
use genedit_io::{RunFault, cause_of, push_output};
use genedit_words::FollowTask;
use kept_records::push_record;
use std::alloc::{AllocError, Global};
use std::collections::BTreeSet;
use std::rt::Files;
use std::sync::Wait;
use std::time::{Clock, Duration, SystemTime};
use std::{fs, io, thread};

/// How many milliseconds are let pass between two looks at a file.
const INTERVAL: u64 = 200;

/// How a file looked.
#[derive(Clone, Copy, PartialEq, Eq)]
struct Look {
    size: u64,
    /// When it was written last, where the system tells that.
    modified: Option<SystemTime>,
}

/// What was told of a document.
#[derive(Drop)]
struct Told {
    alloc: Global,
    /// How many records are passed over still.
    passed_over: u32,
    /// Whether records are told as bytes, and not as lines of base64.
    is_raw: bool,
    has_head: bool,
    /// The stamps of the edits that were told, or passed over.
    stamps: BTreeSet<u64>,
    /// What is to be printed.
    out: Vec<u8>,
}

/// Prints each record of a document, and then each that comes. It ends where nobody reads what it prints any more.
pub fn follow<R: Files + Input + Print + Eprint + Clock + Wait>(
    rt: &R,
    alloc: Global,
    task: &FollowTask<'_>,
) -> Result<u8, RunFault> {
    match follow_on(rt, alloc, task) {
        Ok(()) => Ok(0),
        Err(left) => left.end(),
    }
}

fn follow_on<R: Files + Input + Print + Eprint + Clock + Wait>(
    rt: &R,
    alloc: Global,
    task: &FollowTask<'_>,
) -> Result<(), Left> {
    let mut told = Told {
        alloc,
        passed_over: task.from.unwrap_or(0),
        is_raw: task.is_raw,
        has_head: false,
        stamps: BTreeSet::new(alloc),
        out: Vec::new(alloc),
    };
    let mut sink = WriteSink::new(io::writer(rt));
    let mut seen = None;
    for _ in rt.forever() {
        let look = look_at(rt, alloc, task.file)?;
        if seen != Some(look) {
            let bytes = bytes_of(rt, alloc, Some(task.file))?;
            let listed = edits_in(rt, alloc, Some(task.file), &bytes)?;
            told.tell(&listed)?;
            push_output(&mut sink, &told.out)?;
            told.out.clear();
            seen = Some(look);
        }
        thread::sleep(rt, Duration::from_millis(INTERVAL));
    }
    unreachable!()
}

/// What a file is known by, so that it is read only where it changed.
fn look_at<R: Files + Eprint>(rt: &R, alloc: Global, path: &str) -> Result<Look, Left> {
    match fs::metadata(rt, path) {
        Ok(known) => Ok(Look {
            size: known.len(),
            modified: known.modified().ok(),
        }),
        Err(error) => Err(Left::by(tell_unread(rt, alloc, path, cause_of(error.kind())))),
    }
}

impl Told {
    /// Tells what is new among the edits of a document, and at first its first record.
    fn tell(&mut self, listed: &ListedEdits) -> Result<(), AllocError> {
        if !self.has_head {
            let head = head_body(self.alloc, &listed.rule)?;
            self.has_head = true;
            self.tell_body(&head)?;
        }
        for edit in &listed.edits {
            if !self.stamps.contains(&edit.stamp().number()) {
                let body = edit_body(self.alloc, &listed.rule, edit)?;
                self.stamps.insert(edit.stamp().number())?;
                self.tell_body(&body)?;
            }
        }
        Ok(())
    }

    /// Tells a record by its body, or passes it over.
    fn tell_body(&mut self, body: &[u8]) -> Result<(), AllocError>
        requires { length body.now ≤ 2 ^ 24 }
    {
        if self.passed_over > 0 {
            self.passed_over -= 1;
            return Ok(());
        }
        let mut record = Vec::new(self.alloc);
        push_record(&mut record, body)?;
        if self.is_raw {
            return self.out.extend_from_slice(&record);
        }
        let line = STANDARD.encode(self.alloc, &record)?;
        self.out.extend_from_slice(line.as_bytes())?;
        self.out.extend_from_slice(b"\n")
    }
}
