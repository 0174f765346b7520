//! Periods of a map.

ghost use Rattle.std.specs.Prelude.{◌≡◌, ◌≤◌, ◌^◌, IfErr, IfOk};
ghost use Rattle.map_periods.specs.Periods.{IsPeriodOf, IsRefusedWithin};

use crate::generations::Generations;
use crate::moves::{Move, moved_by};

/// After how many generations the cells stand as they did, moved so.
#[derive(Clone, Copy, Debug, PartialEq, Eq)]
pub struct Period {
    pub generations: u16,
    pub by: Move,
}

/// The least period from 1 to `most` of what stands at generation `first`, if there is one. Generations are asked for
/// one after another, and the first refusal of one is answered, where no period was met before.
pub fn period_of<G: Generations>(
    generations: &mut G,
    first: u32,
    most: u16,
) -> Result<Option<Period>, G::Fault>
    requires { first ≤ 2 ^ 29 }
    ensures period { IfOk result (IsPeriodOf (G.rule_of generations.old) (G.map_of generations.old) first most) }
    ensures refused { IfErr result (IsRefusedWithin (G.rule_of generations.old) (G.map_of generations.old) (G.refuses generations.old) first most) }
{
    let before = generations.cells(first)?;
    for passed in 0..most {
        let period = passed + 1;
        let after = generations.cells(first + u32::from(period))?;
        if let Some(by) = moved_by(&before, &after) {
            return Ok(Some(Period {
                generations: period,
                by,
            }));
        }
    }
    Ok(None)
}
