//! Macrocells that are shown.

use crate::told::{ALL, at, bounds_of, later, shown, under};
use genedit_view::{Form, PeriodSearch, ViewFault, find_period};
use map_periods::ToldPeriod;
use std::alloc::{AllocError, Global};

/// A glider at 0 0, generation 4.
const GLIDER: &str = "[M2] (pazgrot)\n#R B3/S23:P90,80\n#G 4\n$$$$$$$.*$\n..*$***$\n4 0 1 0 2\n";

/// Macrocells, and their pictures or why there are none.
static PICTURES: [(&str, &str); 9] = [
    (GLIDER, ".O.\n..O\nOOO\n"),
    (
        "[M2] (pazgrot)\n#R /2/3\n#G 5\n1 0 0 1 2\n1 1 0 0 0\n2 0 1 0 2\n",
        "AB\nA.\n",
    ),
    ("[M2]\n#R 23/3/2\n", ""),
    ("[M2]", "no rule is told: give one by --rule, 0 bytes"),
    (
        "[M2]\n#R B2e3/S23:T9\n",
        "the rule at byte 8 is of another family (letters behind counts): this program has Golly's Generations without letters alone, 0 bytes",
    ),
    ("[M2]\n1 0 a", "refused 5 Tag 9, 0 bytes"),
    ("[M2]\n1 0 0 0 256", "refused 7 State 13, 0 bytes"),
    ("[M2]\n0 0 0 0 0", "refused 44 Square 5, 0 bytes"),
    (
        "[M2]\n#R 23/3/2\n1 0 0 0 2\n",
        "refused 11 StateRange, 0 bytes",
    ),
];

#[test]
fn macrocells_are_shown(rt: HostRuntime) -> Result<(), AllocError> {
    for (text, want) in PICTURES {
        assert_eq!(rt; shown(rt.alloc(), &ALL, text.as_bytes())?.as_str(), want);
    }
    Ok(())
}

/// Its middle is the corner of the cell 0 1.
#[test]
fn a_cell_stands_at_its_place(rt: HostRuntime) -> Result<(), AllocError> {
    let options = at(Form::Plain, "-1,0", "2,2");
    assert_eq!(rt;
        shown(rt.alloc(), &options, b"[M2]\n#R /2/3\n1 1 2 0 1\n")?.as_str(),
        "AB\n.A\n"
    );
    Ok(())
}

#[test]
fn generations_count(rt: HostRuntime) -> Result<(), AllocError> {
    let mut options = at(Form::Plain, "0,0", "4,4");
    options.generation = Some(4);
    assert_eq!(rt;
        shown(rt.alloc(), &options, GLIDER.as_bytes())?.as_str(),
        "....\n..O.\n...O\n.OOO\n"
    );
    Ok(())
}

#[test]
fn given_rules_count(rt: HostRuntime) -> Result<(), AllocError> {
    assert_eq!(rt;
        shown(rt.alloc(), &under("/2/3"), GLIDER.as_bytes())?.as_str(),
        ".A.\n..A\nAAA\n"
    );
    Ok(())
}

#[test]
fn no_later_generation_is_run(rt: HostRuntime) -> Result<(), AllocError> {
    assert_eq!(rt;
        shown(rt.alloc(), &later(536_870_913), GLIDER.as_bytes())?.as_str(),
        "refused 22 GenRange, 0 bytes"
    );
    Ok(())
}

#[test]
fn bounds_behind_its_rule_are_told(rt: HostRuntime) -> Result<(), AllocError> {
    assert_eq!(rt;
        bounds_of(rt.alloc(), GLIDER.as_bytes())?.as_str(),
        "P90,80"
    );
    assert_eq!(rt; bounds_of(rt.alloc(), b"[M2]\n#R 23/3/2\n")?.as_str(), "");
    Ok(())
}

/// The period of a macrocell's cells, and the bounds that it tells.
fn period(alloc: Global, text: &str) -> Result<String, AllocError> {
    let search = PeriodSearch {
        first: 0,
        most: 100,
    };
    match find_period(alloc, None, search, text.as_bytes()) {
        Ok(found) => {
            let told = ToldPeriod {
                period: found.period,
                most: search.most,
            };
            let bounds = found.bounds.unwrap_or(Vec::new(alloc));
            let bounds = String::from_utf8_lossy(alloc, &bounds)?;
            format!(in alloc; "{told} {bounds}")
        }
        Err(ViewFault::Run(fault)) => format!(in alloc; "{fault}"),
        Err(fault) => format!(in alloc; "{fault}"),
    }
}

#[test]
fn its_period_is_told(rt: HostRuntime) -> Result<(), AllocError> {
    let alloc = rt.alloc();
    assert_eq!(rt;
        period(alloc, GLIDER)?.as_str(),
        "period 4 moves 1 1 P90,80"
    );
    assert_eq!(rt;
        period(alloc, "[M2]\n#R /2/3\n5 0 0 0 1")?.as_str(),
        "refused 44 Square 21"
    );
    Ok(())
}
