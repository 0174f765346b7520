//! Patterns by their names.

ghost use Rattle.std.specs.Prelude.{◌≡◌, List, ℕ, OnOk, OnErr, IfErr, IfOk, IsSome, option_copied, option_map};
ghost use Rattle.pattern_turns.specs.Turning.{turned_pattern};
ghost use Rattle.genedit_lib.specs.Output.{no_patterns, with_pattern};
ghost use Rattle.genedit_lib.specs.Patterns.{pattern_in};

use genedit_script::PatternName;
use pattern_cells::Pattern;
use pattern_turns::{Turn, turned};
use std::alloc::{AllocError, Global};
use std::collections::BTreeMap;

/// Which pattern each name stands for.
#[derive(Debug, Drop)]
pub struct Patterns {
    by_name: BTreeMap<PatternName, Pattern>,
}

impl Patterns {
    ghost use Rattle.std.specs.Prelude.{◌≡◌, List, ℕ, OnOk, OnErr, IfErr, IfOk, IsSome, option_copied, option_map};
    ghost use Rattle.pattern_turns.specs.Turning.{turned_pattern};
    ghost use Rattle.genedit_lib.specs.Output.{no_patterns, with_pattern};
    ghost use Rattle.genedit_lib.specs.Patterns.{pattern_in};

    /// No name stands for a pattern.
    pub fn new(alloc: Global) -> Patterns
        ensures { (name : List ℕ) → pattern_in result name ≡ no_patterns name }
    {
        Patterns {
            by_name: BTreeMap::new(alloc),
        }
    }

    /// A copy of the pattern that a name stands for. Memory is wanted only where it stands for one.
    pub fn copy_of(&self, name: &PatternName) -> Result<Option<Pattern>, AllocError>
        ensures copy { IfOk result (λ pattern. pattern ≡ pattern_in self.now name.now) }
        ensures want { IfErr result (λ _. IsSome (pattern_in self.now name.now)) }
    {
        match self.by_name.get(name) {
            Some(pattern) => {
                let copy = pattern.copy()?;
                Ok(Some(copy))
            }
            None => Ok(None),
        }
    }

    /// The pattern that a name stands for, turned.
    pub fn turned_of(
        &self,
        alloc: Global,
        name: &PatternName,
        turn: Turn,
    ) -> Result<Option<Pattern>, AllocError>
        ensures turned { IfOk result (λ pattern. pattern ≡ option_map (turned_pattern turn) (pattern_in self.now name.now)) }
        ensures want { IfErr result (λ _. IsSome (pattern_in self.now name.now)) }
    {
        match self.by_name.get(name) {
            Some(pattern) => {
                let turned = turned(alloc, pattern, turn)?;
                Ok(Some(turned))
            }
            None => Ok(None),
        }
    }

    /// From here on the name stands for the pattern.
    pub fn insert(&mut self, name: PatternName, pattern: Pattern) -> Result<(), AllocError>
        ensures named { OnOk result ((other : List ℕ) → pattern_in self.new other ≡ with_pattern (pattern_in self.old) name pattern other) }
        ensures err { OnErr result ((other : List ℕ) → pattern_in self.new other ≡ pattern_in self.old other) }
    {
        self.by_name.insert(name, pattern)?;
        Ok(())
    }
}
