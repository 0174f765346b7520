//! A rule as Golly spells it.

ghost use Rattle.std.specs.Prelude.{◌≡◌, ◌++◌, IfOk, OnOk, codes};
ghost use Rattle.generations_rule.specs.RuleText.{text_of_set};
ghost use Rattle.macrocell_lines.specs.Macrocell.{rule_name};

use generations_rule::Rule;
use std::alloc::{AllocError, Global};

/// A rule's name: `B3/S23` of two states, by which Golly knows a rule of Life's kind, else `S/B/C`.
pub fn rule_name(alloc: Global, rule: &Rule) -> Result<Vec<u8>, AllocError>
    ensures { IfOk result (λ name. name.items ≡ rule_name rule.now) }
{
    if rule.states() == 2 {
        return life_name(alloc, rule);
    }
    rule.write_text(alloc)
}

fn life_name(alloc: Global, rule: &Rule) -> Result<Vec<u8>, AllocError>
    ensures { IfOk result (λ name. name.items ≡ codes "B" ++ text_of_set rule.now.birth ++ codes "/S" ++ text_of_set rule.now.survival) }
{
    let mut name = b"B".to_vec(alloc)?;
    push_births(&mut name, rule)?;
    name.extend_from_slice(b"/S")?;
    push_survivals(&mut name, rule)?;
    Ok(name)
}

/// The counts of birth, ascending.
fn push_births(name: &mut Vec<u8>, rule: &Rule) -> Result<(), AllocError>
    ensures { OnOk result (name.new.items ≡ name.old.items ++ text_of_set rule.now.birth) }
{
    for n in 0..9u8 {
        if rule.born(n) {
            name.push(b'0' + n)?;
        }
    }
    Ok(())
}

/// The counts of survival, ascending.
fn push_survivals(name: &mut Vec<u8>, rule: &Rule) -> Result<(), AllocError>
    ensures { OnOk result (name.new.items ≡ name.old.items ++ text_of_set rule.now.survival) }
{
    for n in 0..9u8 {
        if rule.survives(n) {
            name.push(b'0' + n)?;
        }
    }
    Ok(())
}
