//! Patterns that are given names, and drawn by these.

ghost use Rattle.std.specs.Prelude.{◌≡◌, ◌++◌, IfErr, IfOk, IsSome, codes};
ghost use Rattle.genedit_lib.specs.Output.{no_pattern_line};
ghost use Rattle.document_pen.specs.Carrying.{IsNaming, IsTurning};
ghost use Rattle.document_pen.specs.Drawing.{IsPaste, paste_spec, pasted};
ghost use Rattle.document_pen.specs.Pen.{IsPrinted};

use crate::fault::PenFault;
use crate::pen::{Outcome, Pen};
use client_commands::Placement;
use genedit_lib::{give_name, no_pattern_text, push_text, turn_pattern};
use genedit_script::{PatternName, PatternText, Turning};
use kept_devices::Keep;
use pattern_cells::Pattern;
use replica_events::EditSpec;

/// Which cells of a pattern are drawn.
#[derive(Clone, Copy, Debug, PartialEq, Eq)]
pub enum PasteMode {
    /// Every cell of its box.
    Copy,
    /// Its nonzero cells alone.
    Or,
}

impl<K: Keep> Pen<K> {
    /// From here on the name stands for the pattern of a text, whose line is printed as by `genedit run`. A text that is
    /// none leaves the name as it was, and its refusal is printed.
    pub fn name_pattern(&mut self, name: PatternName, text: &PatternText) -> Result<(), PenFault>
        ensures { IsNaming name text.now self.old self.new result }
    {
        let before = self.out.len();
        match give_name(self.alloc, &mut self.patterns, &mut self.out, name, text) {
            Ok(()) => Ok(()),
            Err(_) => {
                self.out.truncate(before);
                Err(PenFault::Memory)
            }
        }
    }

    /// From here on the new name stands for the named pattern, turned, whose line is printed as by `genedit run`.
    /// Where the name stands for no pattern the new one is left as it was, and that is printed.
    pub fn turn_pattern(&mut self, turning: Turning) -> Result<(), PenFault>
        ensures { IsTurning turning self.old self.new result }
    {
        let before = self.out.len();
        match turn_pattern(self.alloc, &mut self.patterns, &mut self.out, turning) {
            Ok(()) => Ok(()),
            Err(_) => {
                self.out.truncate(before);
                Err(PenFault::Memory)
            }
        }
    }

    /// Draws the pattern that a name stands for. A name that stands for none is refused, by 38.
    pub fn paste(&mut self, mode: PasteMode, placed: &Placement) -> Result<Outcome, PenFault>
        ensures { IsPaste (pasted mode placed.now self.old) self.old self.new result }
    {
        match self.pasted(mode, placed) {
            Ok(spec) => self.draw_pasted(spec),
            Err(fault) => Err(fault),
        }
    }

    /// Draws what a paste does, or refuses its name.
    fn draw_pasted(&mut self, spec: Option<EditSpec>) -> Result<Outcome, PenFault>
        ensures { IsPaste spec self.old self.new result }
    {
        match spec {
            Some(spec) => self.draw(0, &spec),
            None => self.refuse_name(),
        }
    }

    /// What a paste draws, if the name stands for a pattern. Memory is wanted only where it does.
    fn pasted(&self, mode: PasteMode, placed: &Placement) -> Result<Option<EditSpec>, PenFault>
        ensures spec { IfOk result (λ spec. spec ≡ pasted mode placed.now self.now) }
        ensures want { IfErr result (λ fault. (fault ≡ PenFault.Memory) × IsSome (pasted mode placed.now self.now)) }
    {
        let pattern = self.patterns.copy_of(&placed.name)?;
        Ok(pattern.map(|pattern| paste_spec(mode, placed, pattern)))
    }

    fn refuse_name(&mut self) -> Result<Outcome, PenFault>
        ensures { IsPrinted Outcome.Refused (no_pattern_line ++ codes "\n") self.old self.new result }
    {
        let before = self.out.len();
        let told = no_pattern_text(self.alloc)?;
        match push_text(&mut self.out, &told) {
            Ok(()) => Ok(Outcome::Refused),
            Err(_) => {
                self.out.truncate(before);
                Err(PenFault::Memory)
            }
        }
    }
}

/// What is drawn of a pattern.
fn paste_spec(mode: PasteMode, placed: &Placement, pattern: Pattern) -> EditSpec
    ensures { result ≡ paste_spec mode placed.now pattern }
{
    match mode {
        PasteMode::Copy => EditSpec::Copy(pattern, placed.x, placed.y),
        PasteMode::Or => EditSpec::Or(pattern, placed.x, placed.y),
    }
}
