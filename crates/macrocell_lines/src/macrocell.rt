//! A universe as a macrocell.

ghost use Rattle.std.specs.Prelude.{◌≡◌, ◌-◌, ◌^◌, ◌≤◌, ◌++◌, IfOk, OnOk};
ghost use Rattle.square_store.specs.Squares.{IsAt};
ghost use Rattle.generation_engine.specs.Universe.{states_of};
ghost use Rattle.macrocell_lines.specs.Squares.{square_of};
ghost use Rattle.macrocell_lines.specs.Lines.{lines_of};
ghost use Rattle.macrocell_lines.specs.Middle.{states_about};
ghost use Rattle.macrocell_lines.specs.Macrocell.{IsMacrocell, generation_text, head_text, least_level};

use crate::level::root_level;
use crate::lines::Lines;
use crate::name::rule_name;
use crate::text::{push_lines, push_number};
use generation_engine::Engine;
use generations_rule::Rule;
use std::alloc::{AllocError, Global};

/// The macrocell of a universe's cells, as those of a rule at a generation: Golly's format for maps as distinct
/// squares. How many cells there are does not matter: time and memory go by distinct squares. The only error is
/// want of memory.
pub fn write_macrocell(
    alloc: Global,
    rule: &Rule,
    generation: u64,
    engine: &Engine,
) -> Result<Vec<u8>, AllocError>
    ensures { IfOk result (λ text. IsMacrocell rule.now generation (states_of engine.now) text.items) }
{
    // For the proof alone: it tells that nothing is further out than a root of level 32.
    engine.universe_laws();
    let of_two = rule.states() == 2;
    let level = root_level(least_level(of_two), engine.extent());
    let lines = lines_of(alloc, engine, of_two, level)?;
    let mut text = head_of(alloc, rule, generation)?;
    push_lines(&mut text, lines.lines.as_slice())?;
    Ok(text)
}

/// The least level of a root.
fn least_level(of_two: bool) -> u32
    ensures { result ≡ least_level of_two }
{
    if of_two { 4 } else { 1 }
}

/// The lines of the square of a level about the middle of a universe, one row on.
fn lines_of(alloc: Global, engine: &Engine, of_two: bool, level: u32) -> Result<Lines, AllocError>
    requires root { IsAt engine.now.store 30 engine.now.root }
    requires least { least_level of_two ≤ level }
    requires most { level ≤ 32 }
    ensures { IfOk result (λ lines. lines.lines.keys ≡ lines_of of_two (square_of level (states_about engine.now.store engine.now.root (2 ^ (level - 1))))) }
{
    let store = engine.store();
    let mut lines = Lines::new(alloc, store.key());
    lines.number_of_root(store, of_two, engine.root(), level)?;
    Ok(lines)
}

/// The first line, and those of the rule and the generation.
#[tactic(auto, unfolding(crate::specs::Macrocell::head_text))]
fn head_of(alloc: Global, rule: &Rule, generation: u64) -> Result<Vec<u8>, AllocError>
    ensures { IfOk result (λ text. text.items ≡ head_text rule.now generation) }
{
    let name = rule_name(alloc, rule)?;
    let mut text = b"[M2] (pazgrot)\n#R ".to_vec(alloc)?;
    text.extend_from_slice(&name)?;
    text.extend_from_slice(b"\n")?;
    push_generation(&mut text, generation)?;
    Ok(text)
}

/// The line of the generation, unless it is 0.
fn push_generation(text: &mut Vec<u8>, generation: u64) -> Result<(), AllocError>
    ensures { OnOk result (text.new.items ≡ text.old.items ++ generation_text generation) }
{
    if generation == 0 {
        return Ok(());
    }
    push_number(text, b"#G ", generation)?;
    text.extend_from_slice(b"\n")
}
