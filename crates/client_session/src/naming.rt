//! Patterns that are given names, and patterns that are turned.

ghost use Rattle.std.specs.Prelude.{◌≡◌, ◌++◌, codes, List, ℕ, OnErr, OnOk};
ghost use mathlib.Core.List.{IsPrefix};
ghost use Rattle.multistate_rle.specs.Reading.{parsed};
ghost use Rattle.genedit_lib.specs.Output.{naming_text, turned_named, turning_text, with_named, with_text};
ghost use Rattle.genedit_lib.specs.Patterns.{pattern_in};
ghost use Rattle.client_session.specs.Moment.{KeepsAllButNames};

use crate::client::Client;
use devices::{Sink, Source};
use genedit_lib::{give_name, turn_pattern};
use genedit_script::{PatternName, PatternText, Turning};
use std::alloc::AllocError;
use std::time::Clock;

impl<'a, C: Clock, S: Source + Drop, K: Sink + Drop> Client<'a, C, S, K> {
    /// From here on the name stands for the pattern of a text, whose line is printed as by `genedit run`. A
    /// text that is none leaves the name as it was, and its refusal is printed.
    pub fn name_pattern(&mut self, name: PatternName, text: &PatternText) -> Result<(), AllocError>
        ensures told { OnOk result (self.new.out ≡ self.old.out ++ (naming_text name (parsed text.now) ++ codes "\n")) }
        ensures named { OnOk result ((other : List ℕ) → pattern_in self.new.workspace.patterns other ≡ with_text (pattern_in self.old.workspace.patterns) name (parsed text.now) other) }
        ensures err { OnErr result ((other : List ℕ) → pattern_in self.new.workspace.patterns other ≡ pattern_in self.old.workspace.patterns other) }
        ensures printed { OnErr result (IsPrefix self.old.out self.new.out) }
        ensures kept { KeepsAllButNames self.old self.new }
    {
        let alloc = self.server.alloc();
        give_name(
            alloc,
            &mut self.workspace.patterns,
            &mut self.out,
            name,
            text,
        )
    }

    /// From here on the new name stands for the named pattern, turned, whose line is printed as by `genedit run`.
    /// Where the name stands for no pattern the new one is left as it was, and that is printed.
    pub fn turn_pattern(&mut self, turning: Turning) -> Result<(), AllocError>
        ensures told { OnOk result (self.new.out ≡ self.old.out ++ (turning_text turning.new_name (turned_named (pattern_in self.old.workspace.patterns) turning) ++ codes "\n")) }
        ensures named { OnOk result ((other : List ℕ) → pattern_in self.new.workspace.patterns other ≡ with_named (pattern_in self.old.workspace.patterns) turning.new_name (turned_named (pattern_in self.old.workspace.patterns) turning) other) }
        ensures err { OnErr result ((other : List ℕ) → pattern_in self.new.workspace.patterns other ≡ pattern_in self.old.workspace.patterns other) }
        ensures printed { OnErr result (IsPrefix self.old.out self.new.out) }
        ensures kept { KeepsAllButNames self.old self.new }
    {
        let alloc = self.server.alloc();
        turn_pattern(alloc, &mut self.workspace.patterns, &mut self.out, turning)
    }
}
