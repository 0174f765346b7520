//! Axes, and where their ticks stand.

ghost use Rattle.std.specs.Prelude.{◌≡◌, ◌≤◌, ◌<◌, ◌*◌, option_copied};
ghost use Rattle.population_charts.specs.Axis.{along, axes_of, count_axis, distance_of, first_tick, generation_axis, generation_or_zero, placed, round_number, span_of, tick, tick_count, tick_distance, width_of};
ghost use Rattle.population_charts.specs.Sample.{most_cells};

use crate::sample::Sample;

/// The first round numbers; the others are those times a power of ten.
const FACTORS: [u64; 3] = [1, 2, 5];

/// The place of a round number of which ten reach beyond each number of 64 bits.
const LAST_PLACE: u32 = 55;

/// An axis, from the least number on it to the greatest.
#[derive(Clone, Copy, Debug)]
pub(crate) struct Axis {
    pub(crate) low: u64,
    pub(crate) high: u64,
}

/// The two axes of a chart.
#[derive(Clone, Copy, Debug)]
pub(crate) struct Axes {
    pub(crate) generations: Axis,
    pub(crate) counts: Axis,
}

impl Axes {
    pub(crate) fn of(samples: &[Sample]) -> Axes
        ensures { result ≡ axes_of samples.now }
    {
        Axes {
            generations: Axis::of_generations(samples),
            counts: Axis::of_counts(samples),
        }
    }
}

impl Axis {
    /// From the first sampled generation to the last.
    pub(crate) fn of_generations(samples: &[Sample]) -> Axis
        ensures { result ≡ generation_axis samples.now }
    {
        Axis {
            low: generation_or_zero(samples.first()),
            high: generation_or_zero(samples.last()),
        }
    }

    /// From none to the most cells of one state in one sample.
    pub(crate) fn of_counts(samples: &[Sample]) -> Axis
        ensures { result ≡ count_axis samples.now }
    {
        Axis {
            low: 0,
            high: most_cells(samples),
        }
    }

    /// How far apart its ticks are.
    pub(crate) fn distance(self) -> u64
        ensures distance { result ≡ distance_of self }
        ensures some { 0 < result }
        ensures reaches { span_of self < 10 * result }
    {
        tick_distance(self.high.saturating_sub(self.low))
    }

    /// How many ticks it has.
    pub(crate) fn tick_count(self) -> u64
        ensures { result ≡ tick_count self }
    {
        let distance = self.distance();
        let first = self.low.div_ceil(distance);
        let last = self.high / distance;
        if last < first { 0 } else { last - first + 1 }
    }

    /// One of its ticks, counted from 0.
    pub(crate) fn tick(self, number: u64) -> u64
        requires { number < tick_count self }
        ensures tick { result ≡ tick self number }
        ensures low { self.low ≤ result }
        ensures high { result ≤ self.high }
    {
        let distance = self.distance();
        (self.low.div_ceil(distance) + number) * distance
    }

    /// Its side where it is drawn, 1 at least.
    pub(crate) fn width(self) -> u64
        ensures width { result ≡ width_of self }
        ensures some { 0 < result }
    {
        self.high.saturating_sub(self.low).max(1)
    }

    /// How far a number is along it, where it is drawn so many units long.
    pub(crate) fn along(self, number: u64, units: u16) -> u16
        requires low { self.low ≤ number }
        requires high { number ≤ self.high }
        ensures along { result ≡ along self number units }
        ensures within { result ≤ units }
    {
        let part = u128::from(number - self.low) * u128::from(units);
        (part / u128::from(self.width())) as u16
    }
}

impl Axis {
    /// How far any number is along it, where it is drawn so many units long: at its end where it is not on it.
    pub(crate) fn placed(self, number: u64, units: u16) -> u16
        ensures placed { result ≡ placed self number units }
        ensures within { result ≤ units }
    {
        let span = self.high.saturating_sub(self.low);
        let part = u128::from(number.saturating_sub(self.low).min(span)) * u128::from(units);
        (part / u128::from(self.width())) as u16
    }
}

fn generation_or_zero(sample: Option<&Sample>) -> u64
    ensures { result ≡ generation_or_zero (option_copied sample.entry) }
{
    match sample {
        Some(sample) => sample.generation(),
        None => 0,
    }
}

fn most_cells(samples: &[Sample]) -> u64
    ensures { result ≡ most_cells samples.now }
{
    let mut most = 0;
    for sample in samples {
        most = most.max(sample.greatest());
    }
    most
}

/// The least round number of which ten reach beyond a span.
fn tick_distance(span: u64) -> u64
    ensures distance { result ≡ tick_distance span }
    ensures some { 0 < result }
    ensures reaches { span < 10 * result }
{
    for place in 0..LAST_PLACE {
        let round = round_number(place);
        if span / 10 < round {
            return round;
        }
    }
    round_number(LAST_PLACE)
}

/// 1, 2, 5, 10, 20, 50, ..
fn round_number(place: u32) -> u64
    requires { place ≤ 55 }
    ensures round { result ≡ round_number place }
    ensures some { 0 < result }
{
    FACTORS[(place % 3) as usize] * 10_u64.pow(place / 3)
}
