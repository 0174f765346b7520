//! Faulty lines of a client, each with its column and the words of what is told.

use generations_rule::Rule;
use script_faults::{
    Dialect, Finding, Reason, Warning, client_finding, reason_text, rule_warning, warning_text,
};
use std::alloc::{AllocError, Global};

/// A line, and what is told of it.
struct Faulty {
    line: &'static [u8],
    told: &'static str,
}

static DRAWN: [Faulty; 11] = [
    Faulty {
        line: b"cells",
        told: "6: x is missing: `cells x y state ..`",
    },
    Faulty {
        line: b"cells 1 0",
        told: "10: the state is missing: `cells x y state ..`",
    },
    Faulty {
        line: b"cells 0 0 1.5",
        told: "11: `1.5` is no whole number: the state is 0 to 255",
    },
    Faulty {
        line: b"cells 0 0 256",
        told: "11: the state is 0 to 255",
    },
    Faulty {
        line: b"cells 1 0 0 1",
        told: "14: y is missing: `cells x y state ..`",
    },
    Faulty {
        line: b"cells 0 0 1 # mine",
        told: "13: a remark stands on a line of its own, whose first word begins with #",
    },
    Faulty {
        line: b"clear 0 0 4",
        told: "12: the height is missing: `clear x y w h`",
    },
    Faulty {
        line: b"copy g",
        told: "7: x is missing: `copy NAME x y`",
    },
    Faulty {
        line: b"copy my-gun 0 0",
        told: "6: `my-gun` is no name: 1 to 16 letters and digits",
    },
    Faulty {
        line: b"or g 0 0 0",
        told: "10: a word too many: `or NAME x y`",
    },
    Faulty {
        line: b"show 2147483648 0",
        told: "6: x is -2147483648 to 2147483647",
    },
];

static ASKED: [Faulty; 23] = [
    Faulty {
        line: b"export",
        told: "7: the generation is missing: `export G [FILE]`",
    },
    Faulty {
        line: b"export -1",
        told: "8: the generation is 0 to 4294967295",
    },
    Faulty {
        line: b"export 1 a b",
        told: "12: a word too many: `export G [FILE]`; a name with blanks stands in double quotes",
    },
    Faulty {
        line: b"export 1 4",
        told: "10: the file's name is any word but a number",
    },
    Faulty {
        line: b"export 0..9",
        told: "12: a range is exported to files: `export G1..G2 FILE`, and one % in FILE stands for the generation",
    },
    Faulty {
        line: b"export! 0..9/3 \"a b.rle\"",
        told: "16: a range is exported to files: `export G1..G2 FILE`, and one % in FILE stands for the generation",
    },
    Faulty {
        line: b"export 0..9 a% b",
        told: "16: a word too many: `export G [FILE]`; a name with blanks stands in double quotes",
    },
    Faulty {
        line: b"export! 1",
        told: "10: the file's name is missing: `export! G FILE`",
    },
    Faulty {
        line: b"save 4",
        told: "6: the file's name is any word but a number",
    },
    Faulty {
        line: b"save! a b",
        told: "9: a word too many: `save! FILE`; a name with blanks stands in double quotes",
    },
    Faulty {
        line: b"poll 1",
        told: "6: a word too many: `poll`",
    },
    Faulty {
        line: b"wait",
        told: "5: the number of awaited edits is missing: `wait N [MS]`",
    },
    Faulty {
        line: b"wait x",
        told: "6: `x` is no whole number: the number of awaited edits is 0 to 4294967295",
    },
    Faulty {
        line: b"wait 1 4294967296",
        told: "8: the number of milliseconds is 0 to 4294967295",
    },
    Faulty {
        line: b"wait 1 2 3",
        told: "10: a word too many: `wait N [MS]`",
    },
    Faulty {
        line: b"sleep",
        told: "6: the number of milliseconds is missing: `sleep MS`",
    },
    Faulty {
        line: b"sleep 1.5",
        told: "7: `1.5` is no whole number: the number of milliseconds is 0 to 4294967295",
    },
    Faulty {
        line: b"save",
        told: "5: the file's name is missing: `save FILE`",
    },
    Faulty {
        line: b"save a b",
        told: "8: a word too many: `save FILE`; a name with blanks stands in double quotes",
    },
    Faulty {
        line: b"save a # mine",
        told: "8: a remark stands on a line of its own, whose first word begins with #",
    },
    Faulty {
        line: b"open",
        told: "5: the file's name is missing: `open FILE`",
    },
    Faulty {
        line: b"open  ",
        told: "5: the file's name is missing: `open FILE`",
    },
    Faulty {
        line: b"bye now",
        told: "5: a word too many: `bye`",
    },
];

static BEGUN: [Faulty; 8] = [
    Faulty {
        line: b"end",
        told: "1: no pattern is open here that `end` could close",
    },
    Faulty {
        line: b"pattern",
        told: "8: the pattern's name is missing: `pattern NAME`",
    },
    Faulty {
        line: b"pattern my-gun",
        told: "9: `my-gun` is no name: 1 to 16 letters and digits",
    },
    Faulty {
        line: b"pattern g h",
        told: "11: a word too many: `pattern NAME`",
    },
    Faulty {
        line: b"state 1",
        told: "1: `state` is a command of a script alone (`genedit run`): `genedit join --help` lists those of a client",
    },
    Faulty {
        line: b" rule 23/3/2",
        told: "2: `rule` is a command of a script alone (`genedit run`): `genedit join --help` lists those of a client",
    },
    Faulty {
        line: b"shwo 0 0",
        told: "1: `shwo` is no command; did you mean `show`?",
    },
    Faulty {
        line: b"frobnicate",
        told: "1: `frobnicate` is no command: `genedit join --help` lists them",
    },
];

/// A file's name may have any bytes, so that what is no text is told in front of it alone.
static BYTES: [Faulty; 8] = [
    Faulty {
        line: b"cells 0 0 \x07",
        told: "11: this byte is no text: 7 in decimal",
    },
    Faulty {
        line: b"poll\rpoll",
        told: "5: a carriage return stands here without a line feed: lines end with LF, or with CR and LF",
    },
    Faulty {
        line: b"\xef\xbb\xbfcells 0 0 1",
        told: "1: the line begins with a byte order mark (U+FEFF), which is not seen: leave it out",
    },
    Faulty {
        line: b"show 0 \xe9",
        told: "8: this byte is no text: 233 in decimal",
    },
    Faulty {
        line: b"export \x00 caf\xe9",
        told: "8: this byte is no text: 0 in decimal",
    },
    Faulty {
        line: b"export -1 caf\xe9",
        told: "8: the generation is 0 to 4294967295",
    },
    Faulty {
        line: b"save caf\xe9 b",
        told: "11: a word too many: `save FILE`; a name with blanks stands in double quotes",
    },
    Faulty {
        line: b"sav caf\xe9",
        told: "1: `sav` is no command; did you mean `save`?",
    },
];

/// The words of a script alone.
static SCRIPTED: [&str; 7] = [
    "rule", "replicas", "state", "delta", "deliver", "same", "dump",
];

/// The bytes of a line that a finding is about.
fn part_of(line: &[u8], finding: Finding) -> &[u8] {
    let start = finding.column.saturating_sub(1).min(line.len());
    let rest = &line[start..];
    &rest[..finding.width.min(rest.len())]
}

/// `COLUMN: text`
fn told(alloc: Global, line: &[u8]) -> Result<String, AllocError> {
    let finding = client_finding(alloc, line)?;
    let text = reason_text(
        alloc,
        Dialect::Client,
        finding.reason,
        part_of(line, finding),
    )?;
    format!(in alloc; "{}: {text}", finding.column)
}

/// What is told of the first line of which another thing is told than it should be.
fn first_amiss(alloc: Global, lines: &[Faulty]) -> Result<String, AllocError> {
    for faulty in lines {
        let told = told(alloc, faulty.line)?;
        if told.as_str() != faulty.told {
            return Ok(told);
        }
    }
    Ok(String::new(alloc))
}

/// A text, and the warning of its header at a board of Life: `PLACE+LENGTH: what is said`.
struct Header {
    text: &'static [u8],
    told: &'static str,
}

static HEADERS: [Header; 10] = [
    Header {
        text: b"x = 3, y = 3, rule = B3/S23\nbo$2bo$3o!\n",
        told: "",
    },
    Header {
        text: b"x = 3, y = 3, rule = 23/3\nbo$2bo$3o!\n",
        told: "",
    },
    Header {
        text: b"x = 3, y = 3, rule = 32/33/2\nbo$2bo$3o!\n",
        told: "",
    },
    Header {
        text: b"x = 3, y = 3\nbo$2bo$3o!\n",
        told: "",
    },
    Header {
        text: b"bo$2bo$3o!\n",
        told: "",
    },
    Header {
        text: b"x = 3, y = 3, rule = B3/S23:T800,800 \nbo$2bo$3o!\n",
        told: "28+8: the bounds T800,800 are passed over: cells live on the whole plane",
    },
    Header {
        text: b"x = 3, y = 3, rule = B36/S23:T8\nbo$2bo$3o!\n",
        told: "21+7: this pattern is of the rule 23/36/2, and the board's rule is 23/3/2",
    },
    Header {
        text: b"x = 3, y = 3, rule = B36/S23\nbo$2bo$3o!\n",
        told: "21+7: this pattern is of the rule 23/36/2, and the board's rule is 23/3/2",
    },
    Header {
        text: b"#C three states\r\nx = 1, y = 1, rule = /2/3\nA!\n",
        told: "38+4: this pattern is of the rule /2/3, and the board's rule is 23/3/2",
    },
    Header {
        text: b"#C\nx=1,y=1,rule=WireWorld\nA!\n",
        told: "16+9: this pattern's rule is of another family (Golly runs it by a table): this program has Golly's Generations, told by counts, alone; the board's rule is 23/3/2",
    },
];

/// What is said of a text's header behind its pattern in a script.
fn warned(alloc: Global, rule: &Rule, text: &[u8]) -> Result<String, AllocError> {
    let Some(found) = rule_warning(rule, text) else {
        return Ok(String::new(alloc));
    };
    let end = found.place.saturating_add(found.length);
    let word = text.get(found.place..end).unwrap_or_default();
    let said = warning_text(alloc, Dialect::Client, found.warning, word, rule)?;
    format!(in alloc; "{}+{}: {said}", found.place, found.length)
}

#[test]
fn drawn(rt: HostRuntime) -> Result<(), AllocError> {
    let amiss = first_amiss(rt.alloc(), &DRAWN)?;
    assert_eq!(rt; amiss.as_str(), "");
    Ok(())
}

#[test]
fn asked(rt: HostRuntime) -> Result<(), AllocError> {
    let amiss = first_amiss(rt.alloc(), &ASKED)?;
    assert_eq!(rt; amiss.as_str(), "");
    Ok(())
}

#[test]
fn begun(rt: HostRuntime) -> Result<(), AllocError> {
    let amiss = first_amiss(rt.alloc(), &BEGUN)?;
    assert_eq!(rt; amiss.as_str(), "");
    Ok(())
}

#[test]
fn bytes(rt: HostRuntime) -> Result<(), AllocError> {
    let amiss = first_amiss(rt.alloc(), &BYTES)?;
    assert_eq!(rt; amiss.as_str(), "");
    Ok(())
}

#[test]
fn words_of_scripts(rt: HostRuntime) -> Result<(), AllocError> {
    for word in &SCRIPTED {
        let finding = client_finding(rt.alloc(), word.as_bytes())?;
        assert_eq!(rt; finding.reason, Reason::OtherDialect, "{word}");
        assert_eq!(rt; (finding.column, finding.width), (1, word.len()), "{word}");
    }
    Ok(())
}

#[test]
fn open_block(rt: HostRuntime) -> Result<(), AllocError> {
    let reason = Reason::OpenBlock(None);
    let text = reason_text(rt.alloc(), Dialect::Client, reason, b"pattern")?;
    assert_eq!(rt;
        text.as_str(),
        "the input ends in this pattern: a line that says just `end` closes it"
    );
    Ok(())
}

#[test]
fn headers(rt: HostRuntime) -> Result<(), AllocError> {
    let Ok(life) = Rule::parse(b"23/3/2") else {
        assert!(rt; false, "Life is a rule");
        return Ok(());
    };
    for header in &HEADERS {
        let told = warned(rt.alloc(), &life, header.text)?;
        assert_eq!(rt; told.as_str(), header.told);
    }
    Ok(())
}
