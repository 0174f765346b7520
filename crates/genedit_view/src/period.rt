//! The period of what a text tells.

ghost use Rattle.std.specs.Prelude.{◌≡◌, IfErr, IfOk, option_map, true, false};
ghost use Rattle.genedit_view.specs.Reading.{begins_as_state, bounds_told};
ghost use Rattle.genedit_view.specs.Searches.{IsNoPeriod, IsPeriodTold};

use crate::drawn::plane_of;
use crate::fault::ViewFault;
use crate::file::file_cells;
use crate::rule::{begins_as_state, state_rule};
use delta_exchange::read;
use generations_rule::Rule;
use map_periods::{Period, period_in};
use std::alloc::Global;

/// A search for a period.
#[derive(Clone, Copy)]
pub struct PeriodSearch {
    /// The generation from which on the cells stand again.
    pub first: u32,
    /// The longest period that is looked for.
    pub most: u16,
}

/// The answer of a search, and the bounds that the text tells, which are passed over: cells live on the whole plane.
#[derive(Drop)]
pub struct FoundPeriod {
    pub period: Option<Period>,
    pub bounds: Option<Vec<u8>>,
}

/// The least period, from 1 to `most`, of what a text's cells are at the generation `first`, if there is one, and by what
/// they move; under the rule that is given, else under the text's own. Cells lie in the plane of edits.
///
/// Of several faults the first of these is told: what `see_universe` says of the text; a generation that is none, and one of
/// those from `first` to `first + most` that is reached and has more than 2^24 cells.
pub fn find_period(
    alloc: Global,
    given: Option<Rule>,
    search: PeriodSearch,
    text: &[u8],
) -> Result<FoundPeriod, ViewFault>
    ensures period { IfOk result (λ found. IsPeriodTold given search text.now found.period) }
    ensures bounds { IfOk result (λ found. option_map (λ bounds. bounds.items) found.bounds ≡ bounds_told text.now) }
    ensures fault { IfErr result (IsNoPeriod given search text.now) }
{
    if begins_as_state(text) {
        period_of_state(alloc, given, search, text)
    } else {
        period_of_file(alloc, given, search, text)
    }
}

fn period_of_file(
    alloc: Global,
    given: Option<Rule>,
    search: PeriodSearch,
    text: &[u8],
) -> Result<FoundPeriod, ViewFault>
    requires { begins_as_state text.now ≡ false }
    ensures period { IfOk result (λ found. IsPeriodTold given search text.now found.period) }
    ensures bounds { IfOk result (λ found. option_map (λ bounds. bounds.items) found.bounds ≡ bounds_told text.now) }
    ensures fault { IfErr result (IsNoPeriod given search text.now) }
{
    let seen = file_cells(alloc, given, true, text)?;
    let plane = plane_of(alloc, &seen.rule, &seen.cells)?;
    let period = period_in(alloc, &seen.rule, &plane, search.first, search.most)?;
    Ok(FoundPeriod {
        period,
        bounds: seen.bounds,
    })
}

fn period_of_state(
    alloc: Global,
    given: Option<Rule>,
    search: PeriodSearch,
    text: &[u8],
) -> Result<FoundPeriod, ViewFault>
    requires { begins_as_state text.now ≡ true }
    ensures period { IfOk result (λ found. IsPeriodTold given search text.now found.period) }
    ensures bounds { IfOk result (λ found. option_map (λ bounds. bounds.items) found.bounds ≡ bounds_told text.now) }
    ensures fault { IfErr result (IsNoPeriod given search text.now) }
{
    let Some(rule) = state_rule(given, text) else {
        return Err(ViewFault::NoRule);
    };
    let message = read(alloc, &rule, text)?;
    let Some(plane) = message.plane() else {
        unreachable!()
    };
    let period = period_in(alloc, &rule, plane, search.first, search.most)?;
    Ok(FoundPeriod {
        period,
        bounds: None,
    })
}
