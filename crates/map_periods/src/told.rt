//! What is printed of a search for a period.

use crate::period::Period;
use std::fmt;

/// The answer of a search up to so many generations, as it is printed: `period P moves X Y`, or `none to MOST`.
#[derive(Clone, Copy, Debug, PartialEq, Eq)]
pub struct ToldPeriod {
    pub period: Option<Period>,
    pub most: u16,
}

impl fmt::Display for ToldPeriod {
    ghost use Rattle.std.specs.Prelude.{Some};
    ghost use Rattle.map_periods.specs.Told.{period_text};

    ghost output = { λ told. Some (period_text told.most told.period) };

    fn fmt<W: fmt::Write>(&self, f: &mut fmt::Formatter<W>) -> fmt::Result {
        let most = self.most;
        match self.period {
            None => write!(f, "none to {most}"),
            Some(Period { generations, by }) => {
                let (x, y) = (by.x, by.y);
                write!(f, "period {generations} moves {x} {y}")
            }
        }
    }
}
