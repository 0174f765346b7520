//! The mistakes of new users, each with all that is told of it.

use script_check::checked;
use std::alloc::{AllocError, Global};

/// A script, and what is told of it.
struct Mistake {
    script: &'static [u8],
    told: &'static str,
}

/// What is told of a script, or how its check ends.
fn told(alloc: Global, script: &[u8]) -> Result<String, AllocError> {
    match checked(alloc, b"script", script) {
        Ok(report) => String::from_utf8_lossy(alloc, &report.text),
        Err(fault) => format!(in alloc; "{fault}"),
    }
}

static RULES: [Mistake; 6] = [
    Mistake {
        script: b"rule B3/S23\nreplicas 1\n",
        told: "script:1:6: a rule is survival/birth/states: write `rule 23/3/2`\n\
        rule B3/S23\n     ^^^^^^\n1 faults\n",
    },
    Mistake {
        script: b"rule 23/3\nreplicas 1\n",
        told: "script:1:6: a rule is survival/birth/states: write `rule 23/3/2`\n\
        rule 23/3\n     ^^^^\n1 faults\n",
    },
    Mistake {
        script: b"Rule 23/3/2\nreplicas 1\n",
        told: "script:1:1: `Rule` is no command; did you mean `rule`?\n\
        Rule 23/3/2\n^^^^\n1 faults\n",
    },
    Mistake {
        script: b"replicas 2\nrule 23/3/2\n",
        told: "script:1:1: a script begins with its rule: `rule S/B/C`, as `rule 23/3/2` for Life\n\
        replicas 2\n^^^^^^^^\n\
        script:2:1: the rule stands once, as the first line; here that is line 1\n\
        rule 23/3/2\n^^^^\n2 faults\n",
    },
    Mistake {
        script: b"\xef\xbb\xbfrule 23/3/2\nreplicas 1\n",
        told: "script:1:1: the file begins with a byte order mark (U+FEFF), which is not seen: save it without one\n\
        ???rule 23/3/2\n^^^\n1 faults\n",
    },
    Mistake {
        script: b"\x7fELF\x02\x01\n\x00\x00\n",
        told: "script:1:1: this byte is no text: 127 in decimal\n?ELF??\n^\n\
        script:2:1: this byte is no text: 0 in decimal\n??\n^\n2 faults\n",
    },
];

static BLOCKS: [Mistake; 3] = [
    Mistake {
        script: b"rule 23/3/2\nreplicas 1\npattern g\nx = 1, y = 1\no!\ncopy 1 g 0 0\n",
        told: "script:3:1: this pattern has no line `end`: the line behind its last says just that\n\
        pattern g\n^^^^^^^\n1 faults\n",
    },
    Mistake {
        script: b"rule 23/3/2\nreplicas 1\npattern g\nx = 1, y = 1\no!\n end\ncopy 1 g 0 0\nstat 1\n",
        told: "script:3:1: this pattern has no line `end`; line 6 has blanks beside its `end`\n\
        pattern g\n^^^^^^^\n\
        script:8:1: `stat` is no command; did you mean `state`?\nstat 1\n^^^^\n2 faults\n",
    },
    Mistake {
        script: b"rule 23/3/2\nreplicas 1\npattern my-gun\nx = 1, y = 1\no!\nend\n",
        told: "script:3:9: `my-gun` is no name: 1 to 16 letters and digits\n\
        pattern my-gun\n        ^^^^^^\n1 faults\n",
    },
];

static WORDS: [Mistake; 9] = [
    Mistake {
        script: b"rule 23/3/2\nreplicas 1\nturn g h up\n",
        told: "script:3:10: `up` is no turn: left, right, half, mirror or flip\nturn g h up\n         ^^\n1 faults\n",
    },
    Mistake {
        script: b"rule 23/3/2\nreplicas 1\nturn g h\n",
        told: "script:3:9: the turn is missing: `turn NAME NEW left|right|half|mirror|flip`\nturn g h\n        ^\n1 faults\n",
    },
    Mistake {
        script: b"rule 23/3/2\nreplicas 1\ncopy 1 g\n",
        told: "script:3:9: x is missing: `copy R NAME x y`\ncopy 1 g\n        ^\n1 faults\n",
    },
    Mistake {
        script: b"rule 23/3/2\nreplicas 1\ncells 1 0 0\n",
        told: "script:3:12: the state is missing: `cells R x y state ..`\ncells 1 0 0\n           ^\n1 faults\n",
    },
    Mistake {
        script: b"rule 23/3/2\nreplicas 1\ncells 1 1.5 0 1\n",
        told: "script:3:9: `1.5` is no whole number: x is -2147483648 to 2147483647\n\
        cells 1 1.5 0 1\n        ^^^\n1 faults\n",
    },
    Mistake {
        script: b"rule 23/3/2\nreplicas 1\npaste 1 g 0 0\nCELL 1 0 0 1\n",
        told: "script:3:1: `paste` is no command: `genedit run --help` lists them\npaste 1 g 0 0\n^^^^^\n\
        script:4:1: `CELL` is no command; did you mean `cells`?\nCELL 1 0 0 1\n^^^^\n2 faults\n",
    },
    Mistake {
        script: b"rule 23/3/2\nreplicas 1\nstate 1 # all of it\n",
        told: "script:3:9: a remark stands on a line of its own, whose first word begins with #\n\
        state 1 # all of it\n        ^\n1 faults\n",
    },
    Mistake {
        script: b"rule 23/3/2\nreplicas 1\npoll\nwait 1\nsleep 1\nsave f\nopen f\nbye\n",
        told: "script:3:1: `poll` is a command of a client alone (`genedit join`): `genedit run --help` lists those of a script\n\
        poll\n^^^^\n\
        script:4:1: `wait` is a command of a client alone (`genedit join`): `genedit run --help` lists those of a script\n\
        wait 1\n^^^^\n\
        script:5:1: `sleep` is a command of a client alone (`genedit join`): `genedit run --help` lists those of a script\n\
        sleep 1\n^^^^^\n\
        script:6:1: `save` is a command of a client alone (`genedit join`): `genedit run --help` lists those of a script\n\
        save f\n^^^^\n\
        script:7:1: `open` is a command of a client alone (`genedit join`): `genedit run --help` lists those of a script\n\
        open f\n^^^^\n\
        script:8:1: `bye` is a command of a client alone (`genedit join`): `genedit run --help` lists those of a script\n\
        bye\n^^^\n6 faults\n",
    },
    Mistake {
        script: b"rule 23/3/2\r\nreplicas 1\r\nstate 1\r\n",
        told: "0 faults\n",
    },
];

static RUNS: [Mistake; 5] = [
    Mistake {
        script: b"rule 23/3/2\nreplicas 0\nstate 1\n",
        told: "script:3:1: will be refused 26 NoReplica: there are no replicas\nstate 1\n^^^^^\n1 refusals\n",
    },
    Mistake {
        script: b"rule 23/3/2\nreplicas 2\ncells 3 0 0 1\nstate 0\ncells 1 0 0 2\n",
        told: "script:3:1: will be refused 26 NoReplica: the replicas are 1 to 2\n\
        cells 3 0 0 1\n^^^^^\n\
        script:4:1: will be refused 26 NoReplica: the replicas are 1 to 2\n\
        state 0\n^^^^^\n\
        script:5:1: will be refused 11 StateRange: the rule's states are 0 to 1\n\
        cells 1 0 0 2\n^^^^^\n3 refusals\n",
    },
    Mistake {
        script: b"rule 23/3/2\nreplicas 1\nexport 1 1000000000\n",
        told: "script:3:1: will be refused 22 GenRange: the last generation is 536870912\n\
        export 1 1000000000\n^^^^^^\n1 refusals\n",
    },
    Mistake {
        script: b"rule 23/3/2\nreplicas 2\ndeliver 1 2\nstate 1\n",
        told: "script:3:1: will be refused 27 NoMessage: no message of this number was sent before; they are numbered from 1\n\
        deliver 1 2\n^^^^^^^\n1 refusals\n",
    },
    Mistake {
        script: b"rule 23/3/2\nreplicas 1\ncells 1 0 0 1\ndelta 1 1 1\n",
        told: "script:4:1: will be refused 25 NoSuchEdit: the replica has drawn or taken fewer edits; the first is 0\n\
        delta 1 1 1\n^^^^^\n1 refusals\n",
    },
];

static PATTERNS: [Mistake; 7] = [
    Mistake {
        script: b"rule 23/3/2\nreplicas 1\npattern g\nx = 3, y = 3, rule = B36/S23\nbo$2bo$3o!\nend\n",
        told: "script:4:22: warning: this pattern is of the rule 23/36/2, and the script's rule is 23/3/2\n\
        x = 3, y = 3, rule = B36/S23\n                     ^^^^^^^\n0 faults\n",
    },
    Mistake {
        script: b"rule 23/3/2\nreplicas 1\npattern g\n#N Glider\n#O Richard K. Guy\n#C The smallest spaceship.\nx = 3, y = 3, rule = B3/S23\nbo$2bo$3o!\nend\ncopy 1 g 0 0\n",
        told: "0 faults\n",
    },
    Mistake {
        script: b"rule 23/3/2\nreplicas 1\npattern g\n!Name: Glider\n.O.\n..O\nOOO\nend\n",
        told: "script:4:1: will be refused 4 Header: the block is plaintext, as .cells: `genedit convert` makes RLE of it\n\
        !Name: Glider\n^^^^^^^^^^^^^\n1 refusals\n",
    },
    Mistake {
        script: b"rule 23/3/2\nreplicas 1\npattern g\n#MCell 4.0\n#L .A$..A$3A\nend\n",
        told: "script:3:1: will be refused 4 Header: the block is of MCell: `genedit convert` makes RLE of it\n\
        pattern g\n^^^^^^^\n1 refusals\n",
    },
    Mistake {
        script: b"rule 23/3/2\nreplicas 1\npattern g\nx = 3, y = 3, rule = B3/S23:T8\nbo$2bo$3o!\nend\n",
        told: "script:4:29: warning: the bounds T8 are passed over: cells live on the whole plane\n\
        x = 3, y = 3, rule = B3/S23:T8\n                            ^^\n0 faults\n",
    },
    Mistake {
        script: b"rule 23/3/2\nreplicas 1\npattern g\nbo$2bo$3o!\nend\ncopy 1 g 0 0\n",
        told: "script:4:1: will be refused 4 Header: a pattern begins with a header `x = w, y = h`, behind comments\n\
        bo$2bo$3o!\n^^^^^^^^^^\n\
        script:6:1: will be refused 38 NoPattern: no pattern of this name stands before\n\
        copy 1 g 0 0\n^^^^\n2 refusals\n",
    },
    Mistake {
        script: b"rule 23/3/2\nreplicas 1\npattern g\n# a glider\r\nx = 3, y = 3\r\nbo$2bz$3o!\r\nend\r\n",
        told: "script:6:6: will be refused 5 Tag: this can stand neither as a cell nor as the end of a row or of the pattern\n\
        bo$2bz$3o!\n     ^\n1 refusals\n",
    },
];

/// The first script of which another thing is told than it should be.
fn first_amiss(alloc: Global, mistakes: &[Mistake]) -> Result<String, AllocError> {
    for mistake in mistakes {
        let told = told(alloc, mistake.script)?;
        if told.as_str() != mistake.told {
            return Ok(told);
        }
    }
    Ok(String::new(alloc))
}

#[test]
fn rules(rt: HostRuntime) -> Result<(), AllocError> {
    let amiss = first_amiss(rt.alloc(), &RULES)?;
    assert_eq!(rt; amiss.as_str(), "");
    Ok(())
}

#[test]
fn blocks(rt: HostRuntime) -> Result<(), AllocError> {
    let amiss = first_amiss(rt.alloc(), &BLOCKS)?;
    assert_eq!(rt; amiss.as_str(), "");
    Ok(())
}

#[test]
fn words(rt: HostRuntime) -> Result<(), AllocError> {
    let amiss = first_amiss(rt.alloc(), &WORDS)?;
    assert_eq!(rt; amiss.as_str(), "");
    Ok(())
}

#[test]
fn runs(rt: HostRuntime) -> Result<(), AllocError> {
    let amiss = first_amiss(rt.alloc(), &RUNS)?;
    assert_eq!(rt; amiss.as_str(), "");
    Ok(())
}

#[test]
fn patterns(rt: HostRuntime) -> Result<(), AllocError> {
    let amiss = first_amiss(rt.alloc(), &PATTERNS)?;
    assert_eq!(rt; amiss.as_str(), "");
    Ok(())
}
