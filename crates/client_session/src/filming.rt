//! What a client's replica holds at each generation of a range, as texts that an album takes.

ghost use Rattle.client_session.specs.Filming.{FilmsNow, IsFilmCommand, IsFilmTold};

use crate::client::Client;
use crate::fault::CommandFault;
use crate::polling::News;
use crate::workspace::Workspace;
use devices::{Sink, Source};
use std::alloc::Global;
use std::time::Clock;
use told_generations::{Album, FilmPlan, push_film};

impl<'a, C: Clock, S: Source + Drop, K: Sink + Drop> Client<'a, C, S, K> {
    /// Polls once, tells what came, and hands what the replica holds then at each generation of a range to an album, as a
    /// text each; what the album prints of them, or a refusal, is printed. Where the poll was refused nothing is handed on.
    pub fn film<A: Album>(&mut self, plan: FilmPlan, album: &mut A) -> Result<(), CommandFault>
        ensures { IsFilmCommand plan (A.frames album.old) (A.frames album.new) self.old self.new result }
    {
        match self.news() {
            Ok(News::Refused) => Ok(()),
            Ok(News::Edits | News::Whole) => self.film_now(plan, album),
            Err(fault) => Err(fault),
        }
    }

    /// `film` of what the replica holds. Nothing is polled.
    pub fn film_now<A: Album>(&mut self, plan: FilmPlan, album: &mut A) -> Result<(), CommandFault>
        ensures { FilmsNow plan (A.frames album.old) (A.frames album.new) self.old self.new result }
    {
        let alloc = self.server.alloc();
        self.workspace.film(alloc, &mut self.out, plan, album)
    }
}

impl Workspace {
    /// Hands the texts of a film on.
    fn film<A: Album>(
        &self,
        alloc: Global,
        out: &mut Vec<u8>,
        plan: FilmPlan,
        album: &mut A,
    ) -> Result<(), CommandFault>
        ensures { IsFilmTold plan self.now (A.frames album.old) (A.frames album.new) out.old.items out.new.items result }
    {
        push_film(alloc, out, &self.replica, plan, album)?;
        Ok(())
    }
}
