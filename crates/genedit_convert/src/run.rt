//! A conversion of what a source has.

ghost use Rattle.std.specs.Prelude.{◌^◌, option_map};
ghost use Rattle.genedit_convert.specs.Runs.{IsConversion};

use crate::converting::{Converted, conversion_of};
use crate::options::ConvertOptions;
use devices::Source;
use genedit_io::pull_all;
use genedit_view::ViewFault;
use std::alloc::Global;

/// How many pulls a text has, at most.
const TURNS: u64 = 1 << 32;

/// Pulls a text to its source's end, and converts it, as `conversion_of` does; `RunFault::Turns` comes after 2^32 pulls
/// that each gave something.
pub fn convert<S: Source>(
    alloc: Global,
    options: &ConvertOptions,
    source: &mut S,
) -> Result<Converted, ViewFault>
    ensures { IsConversion options.now (2 ^ 32) (λ made. made.text.items) (λ made. option_map (λ bounds. bounds.items) made.bounds) result (S.known source.old) (S.known source.new) }
{
    convert_within(alloc, options, source, TURNS)
}

/// The same with another number of pulls, at most.
pub fn convert_within<S: Source>(
    alloc: Global,
    options: &ConvertOptions,
    source: &mut S,
    turns: u64,
) -> Result<Converted, ViewFault>
    ensures { IsConversion options.now turns (λ made. made.text.items) (λ made. option_map (λ bounds. bounds.items) made.bounds) result (S.known source.old) (S.known source.new) }
{
    let text = pull_all(alloc, source, turns)?;
    conversion_of(alloc, options, &text)
}
