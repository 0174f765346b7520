//! Patterns that are given names, one by one, and patterns that are turned.

ghost use Rattle.std.specs.Prelude.{◌≡◌, ◌++◌, codes, List, ℕ, OnErr, OnOk};
ghost use mathlib.Core.List.{IsPrefix};
ghost use Rattle.multistate_rle.specs.Reading.{parsed};
ghost use Rattle.genedit_lib.specs.Output.{naming_text, turned_named, turning_text, with_named, with_text};
ghost use Rattle.genedit_lib.specs.Patterns.{pattern_in};

use crate::output::{no_pattern_text, pattern_text, push_text, text_refusal};
use crate::patterns::Patterns;
use genedit_script::{PatternName, PatternText, Turning};
use multistate_rle::{RleFault, parse};
use std::alloc::{AllocError, Global};

/// From here on a name stands for the pattern of a text, whose line is put behind what was printed. A text that
/// is none leaves the name as it was, and its refusal is printed.
pub fn give_name(
    alloc: Global,
    patterns: &mut Patterns,
    out: &mut Vec<u8>,
    name: PatternName,
    text: &PatternText,
) -> Result<(), AllocError>
    ensures told { OnOk result (out.new.items ≡ out.old.items ++ (naming_text name (parsed text.now) ++ codes "\n")) }
    ensures named { OnOk result ((other : List ℕ) → pattern_in patterns.new other ≡ with_text (pattern_in patterns.old) name (parsed text.now) other) }
    ensures err { OnErr result ((other : List ℕ) → pattern_in patterns.new other ≡ pattern_in patterns.old other) }
    ensures printed { OnErr result (IsPrefix out.old.items out.new.items) }
{
    match parse(alloc, text.as_slice()) {
        Ok(pattern) => {
            let line = pattern_text(alloc, name.as_bytes(), &pattern)?;
            push_text(out, &line)?;
            patterns.insert(name, pattern)
        }
        Err(RleFault::Memory) => Err(AllocError),
        Err(fault) => {
            let line = text_refusal(alloc, fault)?;
            push_text(out, &line)
        }
    }
}

/// From here on the new name stands for the named pattern, turned, whose line is put behind what was printed.
/// Where the name stands for no pattern the new one is left as it was, and that is printed.
pub fn turn_pattern(
    alloc: Global,
    patterns: &mut Patterns,
    out: &mut Vec<u8>,
    turning: Turning,
) -> Result<(), AllocError>
    ensures told { OnOk result (out.new.items ≡ out.old.items ++ (turning_text turning.new_name (turned_named (pattern_in patterns.old) turning) ++ codes "\n")) }
    ensures named { OnOk result ((other : List ℕ) → pattern_in patterns.new other ≡ with_named (pattern_in patterns.old) turning.new_name (turned_named (pattern_in patterns.old) turning) other) }
    ensures err { OnErr result ((other : List ℕ) → pattern_in patterns.new other ≡ pattern_in patterns.old other) }
    ensures printed { OnErr result (IsPrefix out.old.items out.new.items) }
{
    let Turning {
        name,
        new_name,
        turn,
    } = turning;
    match patterns.turned_of(alloc, &name, turn)? {
        Some(pattern) => {
            let line = pattern_text(alloc, new_name.as_bytes(), &pattern)?;
            push_text(out, &line)?;
            patterns.insert(new_name, pattern)
        }
        None => {
            let line = no_pattern_text(alloc)?;
            push_text(out, &line)
        }
    }
}
