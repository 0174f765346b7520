//! Films: each text goes to the file of its generation.

ghost use Rattle.std.specs.Prelude.{◌≡◌};
ghost use Rattle.typed_commands.specs.Films.{plan_of};

use crate::own_files::OwnFiles;
use client_commands::Film;
use std::alloc::{AllocError, Global};
use std::rt::Files;
use std::time::{Clock, Duration, Instant};
use told_generations::{Album, FilmForm, FilmPlan, Put};

/// For how many milliseconds nothing is said between two lines of progress, at least.
const PAUSE: u64 = 1000;

/// What a film is of: its files' name tells the form.
pub fn plan_of(film: &Film) -> FilmPlan
    ensures { result ≡ plan_of film.now }
{
    FilmPlan {
        range: film.range,
        form: FilmForm::of(film.files.name.as_bytes()),
    }
}

/// How far a film is, as it is said on standard error.
#[derive(Clone, Copy, Drop)]
pub struct Progress {
    /// Whether it is said.
    is_told: bool,
    files: u64,
    /// How many it will be.
    of: u64,
    /// When it was said last, or it began; none where the clock cannot be read.
    last: Option<Instant>,
}

impl Progress {
    /// That of a film which begins now.
    pub fn of<C: Clock>(clock: &C, film: &Film, is_told: bool) -> Progress {
        Progress {
            is_told,
            files: 0,
            of: u64::from(film.range.steps()) + 1,
            last: now(clock),
        }
    }

    /// One file more was written. That is said where nothing was said for a second.
    fn add<R: Clock + Eprint>(&mut self, rt: &R) {
        self.files = self.files.saturating_add(1);
        if self.is_told && self.is_due(rt) {
            self.last = now(rt);
            let (files, of) = (self.files, self.of);
            let _ = eprintln!(rt; "genedit: {files} of {of} files");
        }
    }

    /// Whether nothing was said for so long.
    fn is_due<C: Clock>(&self, clock: &C) -> bool {
        let (Some(last), Some(now)) = (self.last, now(clock)) else {
            return false;
        };
        match now.checked_duration_since(last) {
            Some(passed) => Duration::from_millis(PAUSE) <= passed,
            None => false,
        }
    }
}

/// The time, where the clock can be read.
fn now<C: Clock>(clock: &C) -> Option<Instant> {
    match Instant::now(clock) {
        Ok(now) => Some(now),
        Err(_) => None,
    }
}

/// The files of a film.
#[derive(Drop)]
pub struct FilmFiles<'a, R: Files + Clock + Eprint> {
    pub rt: &'a R,
    pub alloc: Global,
    pub film: &'a Film,
    /// The files that were written here, which the film may replace; those that it writes are among them then.
    pub files: OwnFiles,
    pub progress: Progress,
}

/// A file that is there already, and one that fails, is not written, and the film ends. Which files there are no clause
/// knows.
impl<'a, R: Files + Clock + Eprint> Album for FilmFiles<'a, R> {
    ghost use Rattle.std.specs.Prelude.{None};

    ghost frames = { λ _. None };

    fn put(&mut self, generation: u32, text: &[u8], out: &mut Vec<u8>) -> Result<Put, AllocError> {
        let target = self.film.file_at(self.alloc, generation)?;
        let written = self.files.write(self.rt, self.alloc, target, text)?;
        out.extend_from_slice(&written.line)?;
        if written.file.is_none() {
            return Ok(Put::Refused);
        }
        self.progress.add(self.rt);
        Ok(Put::Taken)
    }
}
