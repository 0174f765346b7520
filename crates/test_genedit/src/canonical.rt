//! RLE texts, from end to end.

use crate::faulty::{Broken, Pieces};
use crate::told;
use devices::{ReadSource, WriteSink};
use genedit_rle::{RunFault, rle_text, rle_text_within};
use generations_rule::Rule;
use std::alloc::{AllocError, Global};

/// The canonical form of a text under a rule, or how the run ends.
fn form(alloc: Global, rule: &[u8], text: &[u8]) -> Result<String, AllocError> {
    let Ok(rule) = Rule::parse(rule) else {
        return Ok(String::new(alloc));
    };
    let mut out = Vec::new(alloc);
    let end = rle_text(
        alloc,
        &rule,
        &mut ReadSource::new(text),
        &mut WriteSink::new(&mut out),
    );
    told::run(alloc, end, &out)
}

/// The same under /2/3 of a source that is pulled so many times at most, with its counts.
fn form_within(
    alloc: Global,
    source: &mut Pieces<'_>,
    turns: u64,
) -> Result<(String, (u64, u64, u64)), AllocError> {
    let Ok(rule) = Rule::parse(b"/2/3") else {
        return Ok((String::new(alloc), (0, 0, 0)));
    };
    let mut out = Vec::new(alloc);
    let end = rle_text_within(alloc, &rule, source, &mut WriteSink::new(&mut out), turns);
    Ok((told::run(alloc, end, &out)?, source.counts()))
}

/// A cell, a position and a generation.
const NOTE: &str = "#C note\n#CXRLE Pos=-1,2 Gen=7\nx = 3, y = 2\n 2 b o$ ! end";

const NOTED: &str = "#CXRLE Pos=1,2 Gen=7\nx = 1, y = 1, rule = /2/3\nA!\n";

/// What is read is bound by 32 bits, and not by the plane.
const FAR: &str = "#CXRLE Pos=1073741824,-2147483648\nx = 1, y = 1\no!";

/// Rules, texts, and the forms of these.
static FORMS: [(&str, &str, &str); 5] = [
    ("/2/3", NOTE, NOTED),
    ("/2/3", NOTED, NOTED),
    (
        "/2/3",
        FAR,
        "#CXRLE Pos=1073741824,-2147483648 Gen=0\nx = 1, y = 1, rule = /2/3\nA!\n",
    ),
    (
        "/2/3",
        "x = 9, y = 9\r\n# a comment\r\n1b1o\r\nB bb$$$\r\n\t.o$!\r\n",
        "#CXRLE Pos=1,0 Gen=0\nx = 2, y = 4, rule = /2/3\nAB3$A!\n",
    ),
    (
        "23/3/02",
        "x = 3, y = 3\n.A$2.A$1A2A!",
        "#CXRLE Pos=0,0 Gen=0\nx = 3, y = 3, rule = 23/3/2\nbo$2bo$3o!\n",
    ),
];

fn is_form(alloc: Global, rule: &str, text: &str, want: &str) -> Result<bool, AllocError> {
    Ok(form(alloc, rule.as_bytes(), text.as_bytes())?.as_str() == want)
}

#[test]
fn forms_are_written(rt: HostRuntime) -> Result<(), AllocError> {
    for (rule, text, want) in FORMS {
        assert!(rt; is_form(rt.alloc(), rule, text, want)?, "{text}");
    }
    Ok(())
}

/// Texts that are refused under /2/3, in which `|` stands for a line feed, each with its refusal.
const REFUSALS: &str = "\
#C note||x = 3|o! -> 4 Header
 -> 4 Header
x = 3, y = 1|p! -> 5 Tag 14
x = 3, y = 1|o?! -> 5 Tag 14
x = 3, y = 1|0o! -> 6 Count 13
x = 3, y = 1|yP! -> 7 State 13
x = 0, y = 0|1048577o! -> 8 TooMany
#CXRLE Pos=2147483647,0|x = 2, y = 1|bo! -> 10 OutOfPlane
#CXRLE Pos=2147483647,0|x = 2, y = 1|Co! -> 10 OutOfPlane
x = 1, y = 1|C! -> 11 StateRange
x = 1, y = 1|ABC! -> 11 StateRange
";

/// The line of a text, with its refusal.
fn refused(alloc: Global, line: &str) -> Result<String, AllocError> {
    let text = line.split(" -> ").next().unwrap_or(line);
    let end = form(alloc, b"/2/3", &told::with_line_feeds(alloc, text)?)?;
    let refusal = end.as_str().strip_prefix("refused ").unwrap_or("none");
    let refusal = refusal.strip_suffix(", 0 bytes").unwrap_or("none");
    format!(in alloc; "{text} -> {refusal}")
}

#[test]
fn refusals_push_nothing(rt: HostRuntime) -> Result<(), AllocError> {
    for line in REFUSALS.lines() {
        assert_eq!(rt; refused(rt.alloc(), line)?.as_str(), line);
    }
    Ok(())
}

#[test]
fn pieces_may_be_single_bytes(rt: HostRuntime) -> Result<(), AllocError> {
    let (end, _) = form_within(rt.alloc(), &mut Pieces::of(NOTE, 1, 0), 1000)?;
    assert_eq!(rt; end.as_str(), NOTED);
    Ok(())
}

/// 15 bytes, and a pull that gives nothing.
#[test]
fn turns_end(rt: HostRuntime) -> Result<(), AllocError> {
    for turns in [0, 1, 15, 16, 100] {
        let mut source = Pieces::of("x = 1, y = 1\no!", 1, 0);
        let (end, counts) = form_within(rt.alloc(), &mut source, turns)?;
        let is_whole = turns > 15;
        assert_eq!(rt; end.as_str() == "read fault, 0 bytes", !is_whole);
        assert_eq!(rt; counts, (turns.min(16), u64::from(is_whole), 0));
    }
    Ok(())
}

/// 15 bytes in four pieces, and a fifth pull that gives nothing.
#[test]
fn failed_reads_are_told(rt: HostRuntime) -> Result<(), AllocError> {
    for fails_at in 1..6 {
        let mut source = Pieces::of("x = 1, y = 1\no!", 4, fails_at);
        let (end, counts) = form_within(rt.alloc(), &mut source, 100)?;
        assert_eq!(rt; end.as_str(), "read fault, 0 bytes");
        assert_eq!(rt; counts, (fails_at, 0, 1));
    }
    Ok(())
}

/// How a text under /2/3 ends whose form nobody takes, and how often it was pushed.
fn untaken(alloc: Global, text: &str) -> (Result<(), RunFault>, u64) {
    let Ok(rule) = Rule::parse(b"/2/3") else {
        return (Ok(()), 0);
    };
    let mut sink = Broken { pushes: 0 };
    let end = rle_text(
        alloc,
        &rule,
        &mut ReadSource::new(text.as_bytes()),
        &mut sink,
    );
    (end, sink.pushes)
}

#[test]
fn failed_writes_are_told(rt: HostRuntime) {
    let alloc = rt.alloc();
    assert_eq!(rt; untaken(alloc, NOTE), (Err(RunFault::Write), 1));
    // a refused text reaches no sink
    assert_eq!(rt;
        untaken(alloc, "x = 1, y = 1\nC!"),
        (Err(RunFault::Refused(11, None)), 0)
    );
}
