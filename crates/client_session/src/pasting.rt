//! Pastes of patterns that have names.

ghost use Rattle.std.specs.Prelude.{◌≡◌, IfErr, IfOk, IsSome, option_map};
ghost use Rattle.genedit_lib.specs.Patterns.{pattern_in};
ghost use Rattle.client_session.specs.Drawing.{IsPaste, IsPasteOf, paste_spec};

use crate::client::Client;
use crate::fault::CommandFault;
use crate::lines::push_nameless;
use crate::outcome::Outcome;
use devices::{Sink, Source};
use genedit_script::PatternName;
use pattern_cells::Pattern;
use replica_events::EditSpec;
use std::alloc::AllocError;
use std::time::Clock;

/// Which cells of a pattern are drawn.
#[derive(Clone, Copy, Debug, PartialEq, Eq)]
pub enum PasteMode {
    /// Every cell of its box.
    Copy,
    /// Its nonzero cells alone.
    Or,
}

/// Where the upper left corner of a pattern's box goes.
#[derive(Clone, Copy, Debug, PartialEq, Eq)]
pub struct Corner {
    pub x: i32,
    pub y: i32,
}

impl<'a, C: Clock, S: Source + Drop, K: Sink + Drop> Client<'a, C, S, K> {
    /// `draw` of the pattern that a name stands for. A name that stands for none is refused by 38, and nothing
    /// is said on the line.
    pub fn paste(
        &mut self,
        mode: PasteMode,
        name: &PatternName,
        corner: Corner,
    ) -> Result<Outcome, CommandFault>
        ensures { IsPaste mode name.now corner self.old self.new result }
    {
        let spec = match self.pasted(mode, name, corner) {
            Ok(spec) => spec,
            Err(_) => return Err(CommandFault::Memory),
        };
        self.draw_pasted(spec)
    }

    /// The drawing of a paste, or the refusal of its name.
    fn draw_pasted(&mut self, spec: Option<EditSpec>) -> Result<Outcome, CommandFault>
        ensures { IsPasteOf spec self.old self.new result }
    {
        match spec {
            Some(spec) => self.draw(0, &spec),
            None => match push_nameless(self.server.alloc(), &mut self.out) {
                Ok(()) => Ok(Outcome::Refused),
                Err(_) => Err(CommandFault::Memory),
            },
        }
    }

    /// What a paste draws, if the name stands for a pattern.
    fn pasted(
        &self,
        mode: PasteMode,
        name: &PatternName,
        corner: Corner,
    ) -> Result<Option<EditSpec>, AllocError>
        ensures spec { IfOk result (λ spec. spec ≡ option_map (paste_spec mode corner) (pattern_in self.now.workspace.patterns name.now)) }
        ensures want { IfErr result (λ _. IsSome (option_map (paste_spec mode corner) (pattern_in self.now.workspace.patterns name.now))) }
    {
        let pattern = self.workspace.patterns.copy_of(name)?;
        Ok(pattern.map(|pattern| paste_spec(mode, corner, pattern)))
    }
}

/// What is drawn of a pattern.
fn paste_spec(mode: PasteMode, corner: Corner, pattern: Pattern) -> EditSpec
    ensures { result ≡ paste_spec mode corner pattern }
{
    match mode {
        PasteMode::Copy => EditSpec::Copy(pattern, corner.x, corner.y),
        PasteMode::Or => EditSpec::Or(pattern, corner.x, corner.y),
    }
}
