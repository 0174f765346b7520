//! RLE texts, from a source's bytes to a sink's.

ghost use Rattle.std.specs.Prelude.{◌⊎◌, ◌^◌, IfOk, IfErr};
ghost use Rattle.genedit_io.specs.RunFault.{IsWant};
ghost use Rattle.genedit_rle.specs.Run.{IsFormOf, IsFormRun, IsRefusedText};

use crate::canonical::canonical_form;
use devices::{Sink, Source};
use genedit_io::{RunFault, pull_all, push_output};
use generations_rule::Rule;
use std::alloc::Global;

/// How many pulls a text has, at most.
const TURNS: u64 = 1 << 32;

/// Pulls an RLE text to its source's end, and pushes its canonical form under a rule at once: the
/// text that `multistate_rle::write` gives of its cells, each moved by the text's position, at its
/// generation.
///
/// `RunFault::Refused` has the number and the place of the first refusal: what is wrong with the
/// text (4 to 8), then a coordinate of any cell outside 32 bits with a sign (10), then a state of any
/// cell that is not below the rule's number of states (11). Where it is Ok, exactly one push was made,
/// of the whole form; no fault but a failed push comes after it, and where the run ends otherwise
/// nothing was pushed. `RunFault::Turns` comes after 2^32 pulls that each gave something;
/// `RunFault::Script` and `RunFault::StoreFull` never come.
pub fn rle_text<S: Source, K: Sink>(
    alloc: Global,
    rule: &Rule,
    source: &mut S,
    sink: &mut K,
) -> Result<(), RunFault>
    ensures { IsFormRun rule.now (2 ^ 32) result (S.known source.old) (S.known source.new) K.known sink.old sink.new }
{
    rle_text_within(alloc, rule, source, sink, TURNS)
}

/// The same with another number of pulls, at most.
pub fn rle_text_within<S: Source, K: Sink>(
    alloc: Global,
    rule: &Rule,
    source: &mut S,
    sink: &mut K,
    turns: u64,
) -> Result<(), RunFault>
    ensures { IsFormRun rule.now turns result (S.known source.old) (S.known source.new) K.known sink.old sink.new }
{
    let text = pull_all(alloc, source, turns)?;
    let out = printed(alloc, rule, &text)?;
    push_output(sink, &out)
}

/// What is printed of a text.
fn printed(alloc: Global, rule: &Rule, text: &[u8]) -> Result<Vec<u8>, RunFault>
    ensures out { IfOk result (λ out. IsFormOf rule.now text.now out.items) }
    ensures fault { IfErr result (λ fault. IsRefusedText rule.now text.now fault ⊎ IsWant fault) }
{
    let form = canonical_form(alloc, rule, text)?;
    Ok(form)
}
