//! The periods of what texts tell.

use crate::texts::GLIDER;
use genedit_view::{PeriodSearch, ViewFault, find_period};
use generations_rule::Rule;
use map_periods::ToldPeriod;
use std::alloc::{AllocError, Global};
use std::test::Fail;

/// A blinker, in plaintext, which tells no rule.
static BLINKER: &str = "!\nOOO\n";

/// What is printed of a search under a rule, if one is given: the answer, or why there is none.
fn told(
    alloc: Global,
    given: Option<Rule>,
    search: PeriodSearch,
    text: &str,
) -> Result<String, AllocError> {
    match find_period(alloc, given, search, text.as_bytes()) {
        Ok(found) => {
            let told = ToldPeriod {
                period: found.period,
                most: search.most,
            };
            format!(in alloc; "{told}")
        }
        Err(ViewFault::Run(fault)) => format!(in alloc; "{fault}"),
        Err(fault) => format!(in alloc; "{fault}"),
    }
}

fn from(first: u32, most: u16) -> PeriodSearch {
    PeriodSearch { first, most }
}

#[test]
fn periods_are_told(rt: HostRuntime) -> Result<(), Fail> {
    let alloc = rt.alloc();
    let life = Some(Rule::parse(b"23/3/2")?);
    assert_eq!(rt;
        told(alloc, None, from(0, 100), GLIDER)?.as_str(),
        "period 4 moves 1 1"
    );
    assert_eq!(rt;
        told(alloc, None, from(1000, 4), GLIDER)?.as_str(),
        "period 4 moves 1 1"
    );
    assert_eq!(rt;
        told(alloc, None, from(0, 3), GLIDER)?.as_str(),
        "none to 3"
    );
    assert_eq!(rt;
        told(alloc, life, from(0, 9), BLINKER)?.as_str(),
        "period 2 moves 0 0"
    );
    Ok(())
}

#[test]
fn no_cells_have_period_1(rt: HostRuntime) -> Result<(), Fail> {
    let alloc = rt.alloc();
    let empty = "x = 0, y = 0, rule = 23/3/2\n!";
    assert_eq!(rt;
        told(alloc, None, from(5, 1), empty)?.as_str(),
        "period 1 moves 0 0"
    );
    Ok(())
}

#[test]
fn a_text_without_a_period_is_told(rt: HostRuntime) -> Result<(), Fail> {
    let alloc = rt.alloc();
    let life = Some(Rule::parse(b"23/3/2")?);
    assert_eq!(rt;
        told(alloc, None, from(0, 9), BLINKER)?.as_str(),
        "no rule is told: give one by --rule"
    );
    let past = from(0x2000_0001, 9);
    assert_eq!(rt;
        told(alloc, life, past, BLINKER)?.as_str(),
        "refused 22 GenRange"
    );
    let last = from(0x2000_0000, 9);
    assert_eq!(rt;
        told(alloc, life, last, BLINKER)?.as_str(),
        "refused 22 GenRange"
    );
    assert_eq!(rt;
        told(alloc, life, from(0, 9), "?")?.as_str(),
        "refused 4 Header"
    );
    Ok(())
}
