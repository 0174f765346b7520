//! Charts of what texts tell. The numbers are those of another program.

use devices::WriteSink;
use genedit_view::{BufferedSink, ViewFault, chart, chart_range};
use std::alloc::{AllocError, Global};

const R_PENTOMINO: &str = "x = 3, y = 3, rule = B3/S23\nb2o$2o$bo!\n";

const BRAIN: &str = "x = 3, y = 2, rule = /2/3\nA.A$.2A!\n";

const STAR_WARS: &str = "x = 4, y = 3, rule = 345/2/4\n2A$.2A$4A!\n";

/// Texts and ranges, and a line of each chart.
static LINES: [(&str, &str, &str); 7] = [
    (R_PENTOMINO, "0..6", "class=\"generations\""),
    (
        R_PENTOMINO,
        "0..6",
        "class=\"s1\" points=\" 0,5 1,6 2,7 3,9 4,8 5,9 6,12\"/>",
    ),
    (
        R_PENTOMINO,
        "0..45/10",
        "class=\"s1\" points=\" 0,5 10,11 20,32 30,27 40,33\"/>",
    ),
    (
        BRAIN,
        "0..6/2",
        "class=\"s2\" points=\" 0,0 2,6 4,11 6,10\"/>",
    ),
    (
        STAR_WARS,
        "0..8/2",
        "class=\"s3\" points=\" 0,0 2,4 4,8 6,9 8,8\"/>",
    ),
    (
        BRAIN,
        "0..6/2",
        "stroke=\"#ffff00\" points=\" 1200,4700 3900,2300 6600,300 9300,700\"><title>state 2</title>",
    ),
    (STAR_WARS, "8..8", "class=\"s2\" points=\" 8,8\"/>"),
];

/// Texts and ranges of which there is no chart, and why.
static NONE: [(&str, &str, &str); 4] = [
    (R_PENTOMINO, "0..536870913/536870913", "refused 22 GenRange"),
    (R_PENTOMINO, "536870913..536870913", "refused 22 GenRange"),
    ("?", "0..1", "refused 4 Header"),
    ("!\nOOO\n", "0..1", "no rule is told: give one by --rule"),
];

/// Words that name no range of a chart.
static NO_RANGES: [&str; 8] = ["", "0", "0..", "1..0", "0..1/0", "0..1/", "0..65536", "0-1"];

/// The chart of a text, or why there is none.
fn charted(alloc: Global, range: &str, text: &str) -> Result<String, AllocError> {
    let mut out = Vec::new(alloc);
    match end_of(alloc, range, text, &mut out)? {
        Ok(_) => String::from_utf8_lossy(alloc, &out),
        Err(fault) => format!(in alloc; "{fault}"),
    }
}

fn end_of(
    alloc: Global,
    range: &str,
    text: &str,
    out: &mut Vec<u8>,
) -> Result<Result<Option<Vec<u8>>, ViewFault>, AllocError> {
    let Some(range) = chart_range(range.as_bytes()) else {
        return Ok(Ok(None));
    };
    let mut sink = BufferedSink::new(alloc, WriteSink::new(out))?;
    Ok(chart(alloc, None, range, text.as_bytes(), &mut sink))
}

#[test]
fn lines_are_drawn(rt: HostRuntime) -> Result<(), AllocError> {
    for (text, range, line) in LINES {
        let chart = charted(rt.alloc(), range, text)?;
        assert!(rt; chart.as_str().contains(line), "{range} {line}");
    }
    Ok(())
}

#[test]
fn a_state_without_cells_has_no_line(rt: HostRuntime) -> Result<(), AllocError> {
    let chart = charted(rt.alloc(), "0..0", BRAIN)?;
    assert!(rt; chart.as_str().contains("class=\"s1\""), "{chart}");
    assert!(rt; !chart.as_str().contains("class=\"s2\""), "{chart}");
    Ok(())
}

#[test]
fn refusals_are_told(rt: HostRuntime) -> Result<(), AllocError> {
    for (text, range, why) in NONE {
        assert_eq!(rt; charted(rt.alloc(), range, text)?.as_str(), why);
    }
    Ok(())
}

#[test]
fn other_words_name_no_range(rt: HostRuntime) -> Result<(), AllocError> {
    for word in NO_RANGES {
        assert!(rt; chart_range(word.as_bytes()).is_none(), "{word}");
    }
    assert!(rt; chart_range(b"0..65535").is_some());
    Ok(())
}
