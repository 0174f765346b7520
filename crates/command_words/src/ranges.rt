//! Ranges of generations, and their words.

ghost use Rattle.std.specs.Prelude.{◌≡◌};
ghost use Rattle.command_words.specs.Ranges.{range_between, range_from, range_spelled, step_spelled};

use crate::values::unsigned;
use text_scan::split_digits;

/// Generations of which each is a step behind the one before. A range that was read leads forwards, by 1 at least; one that
/// does not is its first generation alone.
#[derive(Clone, Copy, Debug, PartialEq, Eq)]
pub struct GenerationRange {
    pub first: u32,
    /// No generation is behind it. It is one itself where whole steps lead to it.
    pub last: u32,
    pub step: u32,
}

impl GenerationRange {
    ghost use Rattle.std.specs.Prelude.{◌≡◌, ◌≤◌, ◌+◌};
    ghost use Rattle.command_words.specs.Ranges.{generation_at, last_of, steps_of};

    /// How many steps lead to its last generation; the generations are one more.
    pub fn steps(self) -> u32
        ensures { result ≡ steps_of self }
    {
        let behind = self.last.saturating_sub(self.first);
        match self.step {
            0 => 0,
            step => behind / step,
        }
    }

    /// The generation that so many steps lead to.
    pub fn at(self, steps: u32) -> u32
        requires { steps ≤ steps_of self }
        ensures { result ≡ generation_at self steps }
    {
        self.first + steps * self.step
    }

    /// Its last generation.
    pub fn last_generation(self) -> u32
        ensures { result ≡ last_of self }
    {
        self.at(self.steps())
    }
}

/// The range that a word says: `G1..G2` or `G1..G2/STEP`, where G2 is not before G1, and STEP is 1 at least.
pub fn range_in(word: &[u8]) -> Option<GenerationRange>
    ensures { result ≡ range_spelled word.now }
{
    let (digits, rest) = split_digits(word);
    let first = unsigned(digits)?;
    range_from(first, rest.strip_prefix(b"..")?)
}

/// What is said of a range behind its first generation and two dots.
fn range_from(first: u32, word: &[u8]) -> Option<GenerationRange>
    ensures { result ≡ range_from first word.now }
{
    let (digits, rest) = split_digits(word);
    let last = unsigned(digits)?;
    range_between(first, last, step_in(rest)?)
}

/// A range, if it leads forwards.
fn range_between(first: u32, last: u32, step: u32) -> Option<GenerationRange>
    ensures { result ≡ range_between first last step }
{
    if first <= last {
        Some(GenerationRange { first, last, step })
    } else {
        None
    }
}

/// The step that is said behind a range, 1 where nothing is.
fn step_in(word: &[u8]) -> Option<u32>
    ensures { result ≡ step_spelled word.now }
{
    if word.is_empty() {
        return Some(1);
    }
    match unsigned(word.strip_prefix(b"/")?)? {
        0 => None,
        step => Some(step),
    }
}
