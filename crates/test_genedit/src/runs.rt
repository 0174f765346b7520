//! Scripts, from end to end.

ghost use Rattle.std.specs.Prelude.{◌≤◌, ◌<◌, ◌^◌};

use crate::faulty::{Broken, Pieces};
use crate::printed::Printed;
use crate::told;
use devices::{ReadSource, WriteSink};
use genedit_lib::{RunFault, run_script, run_script_within};
use std::alloc::{AllocError, Global};

/// What a script prints, or how its run ends.
pub fn run(alloc: Global, script: &[u8]) -> Result<String, AllocError> {
    let mut out = Vec::new(alloc);
    let end = run_script(
        alloc,
        &mut ReadSource::new(script),
        &mut WriteSink::new(&mut out),
    );
    told::run(alloc, end, &out)
}

/// The same of a source that is pulled so many times at most, with its counts.
fn run_within(
    alloc: Global,
    source: &mut Pieces<'_>,
    turns: u64,
) -> Result<(String, (u64, u64, u64)), AllocError> {
    let mut out = Vec::new(alloc);
    let end = run_script_within(alloc, source, &mut WriteSink::new(&mut out), turns, 1000);
    Ok((told::run(alloc, end, &out)?, source.counts()))
}

const EXCHANGE: &str = "rule /2/3\nreplicas 2\ncells 1 0 0 1\ncells 2 0 0 2\nstate 1\nstate 2\n\
    deliver 1 2\ndeliver 2 1\nshow 1 0 0\nshow 2 0 0\n";

const EXCHANGED: &str =
    "drawn 1 1\ndrawn 1 2\nsent 1\nsent 2\ntaken\ntaken\ncell 2 1 2\ncell 2 1 2\n";

static SCRIPTS: [Printed; 7] = [
    // Ties go to the greater replica.
    Printed {
        script: EXCHANGE,
        printed: EXCHANGED,
    },
    // Counters go on from what was taken.
    Printed {
        script: "rule /2/3\nreplicas 2\ncells 1 3 3 1\ncells 1 3 3 1\ncells 1 3 3 1\ncells 1 3 3 1\n\
        cells 1 3 3 1\nstate 1\ndeliver 1 2\ncells 2 3 3 2\nstate 2\ndeliver 2 1\nshow 1 3 3\n",
        printed: "drawn 1 1\ndrawn 2 1\ndrawn 3 1\ndrawn 4 1\ndrawn 5 1\nsent 1\ntaken\ndrawn 6 2\n\
        sent 2\ntaken\ncell 2 6 2\n",
    },
    // Replicas are the same or differ.
    Printed {
        script: "rule /2/3\nreplicas 2\nsame 1 2\ncells 1 0 0 1\nsame 1 2\nstate 1\n\
        deliver 1 2\nsame 1 2\nsame 1 3\n",
        printed: "same\ndrawn 1 1\ndiffer\nsent 1\ntaken\nsame\nrefused 26 NoReplica\n",
    },
    // Messages are dumped.
    Printed {
        script: "rule /2/3\nreplicas 1\nstate 1\ncells 1 0 0 1\ndelta 1 0 1\ndump 1\ndump 2\ndump 3\n",
        printed: "sent 1\ndrawn 1 1\nsent 2\n474c575302042f322f33000000000000000000000000\n\
        474c574401042f322f330000000100000000000100010000000001400000004000000001\n\
        refused 27 NoMessage\n",
    },
    // The whole plane is cleared by one edit.
    Printed {
        script: "rule /2/3\nreplicas 1\nclear 1 -1073741824 -1073741824 2147483648 2147483648\n\
        state 1\ndump 1\n",
        printed: "drawn 1 1\nsent 1\n474c575302042f322f33000000000000000000010001\n",
    },
    // Refusals are printed.
    Printed {
        script: "rule 345/2/4\nreplicas 1\ncells 1 1073741824 0 1\ncells 1 0 0 4\nshow 1 0 0\n\
        cells 1 0 0 3 0 0 2\nshow 1 0 0\nshow 2 0 0\ndeliver 1 2\n",
        printed: "refused 10 OutOfPlane\nrefused 11 StateRange\ncell 0 0 0\ndrawn 1 1\ncell 2 1 1\n\
        refused 26 NoReplica\nrefused 27 NoMessage\n",
    },
    // Lines and words are read.
    Printed {
        script: "# a\r\n\r\n \t# b\nrule /2/3\r\n\treplicas   064\t\n\n  cells\t64 -0002147483648 2147483647 255\n\
        deliver 4294967295 4294967295\nshow 0 -1 0",
        printed: "refused 10 OutOfPlane\nrefused 27 NoMessage\nrefused 26 NoReplica\n",
    },
];

#[test]
fn scripts_print_a_line_for_each_command(rt: HostRuntime) -> Result<(), AllocError> {
    for case in &SCRIPTS {
        assert_eq!(rt;
            run(rt.alloc(), case.script.as_bytes())?.as_str(),
            case.printed
        );
    }
    Ok(())
}

/// What a script prints, where of a line of over 100 bytes only the number of bytes is told that its
/// digits stand for, and whether it is the line before once more.
fn shortened(alloc: Global, script: &[u8]) -> Result<String, AllocError> {
    let printed = run(alloc, script)?;
    let mut told = String::new(alloc);
    let mut before: &[u8] = b"";
    for line in printed.as_str().lines() {
        told = if line.len() <= 100 {
            format!(in alloc; "{told}{line}\n")?
        } else if line.as_bytes() == before {
            format!(in alloc; "{told}again\n")?
        } else {
            format!(in alloc; "{told}{} bytes\n", line.len() / 2)?
        };
        before = line.as_bytes();
    }
    Ok(told)
}

static EXCHANGES: [Printed; 2] = [
    // A clear comes after what it cleared.
    Printed {
        script: "rule /2/3\nreplicas 2\ncells 1 0 0 1\nclear 1 0 0 8 8\ndelta 1 0 1\ndelta 1 1 1\n\
        deliver 2 2\nstate 2\ndeliver 1 2\nstate 2\nstate 1\nshow 2 0 0\nshow 2 8 8\nsame 1 2\n\
        dump 3\ndump 4\ndump 5\n",
        printed: "drawn 1 1\ndrawn 2 1\nsent 1\nsent 2\ntaken\nsent 3\ntaken\nsent 4\nsent 5\ncell 0 2 1\n\
        cell 0 0 0\nsame\n942 bytes\nagain\nagain\n",
    },
    // A delta comes after its map.
    Printed {
        script: "rule /2/3\nreplicas 2\ncells 1 0 0 1\ndelta 1 0 1\nstate 1\ndeliver 1 2\nstate 2\n\
        deliver 2 2\ndeliver 1 2\ndeliver 1 2\nstate 2\nsame 1 2\ndelta 2 1 1\ndump 2\ndump 3\ndump 4\n",
        printed: "drawn 1 1\nsent 1\nsent 2\ntaken\nsent 3\ntaken\ntaken\ntaken\nsent 4\nsame\n\
        refused 25 NoSuchEdit\n1515 bytes\nagain\nagain\n",
    },
];

#[test]
fn what_comes_again_or_late_changes_no_cell(rt: HostRuntime) -> Result<(), AllocError> {
    for case in &EXCHANGES {
        assert_eq!(rt;
            shortened(rt.alloc(), case.script.as_bytes())?.as_str(),
            case.printed
        );
    }
    Ok(())
}

/// How the run of a script ends whose replicas have so much room.
fn end_within(alloc: Global, script: &str, nodes: u32) -> Result<String, AllocError>
    requires { 1 ≤ nodes }
{
    let mut out = Vec::new(alloc);
    let mut source = ReadSource::new(script.as_bytes());
    let end = run_script_within(alloc, &mut source, &mut WriteSink::new(&mut out), 10, nodes);
    told::run(alloc, end, &out)
}

#[test]
fn a_full_store_prints_nothing(rt: HostRuntime) -> Result<(), AllocError> {
    let script = "rule /2/3\nreplicas 1\ncells 1 0 0 1\n";
    assert_eq!(rt;
        end_within(rt.alloc(), script, 29)?.as_str(),
        "store full, 0 bytes"
    );
    assert_eq!(rt; end_within(rt.alloc(), script, 30)?.as_str(), "drawn 1 1\n");
    Ok(())
}

/// A script of some 200 KB that draws 8,000 cells anywhere on the plane, each by a command of its own: its
/// replica stores more than 10^5 squares.
fn long_script(alloc: Global) -> Result<Vec<u8>, AllocError> {
    let mut script = Vec::new(alloc);
    script.extend_from_slice(b"rule 345/2/4\nreplicas 1\n")?;
    for number in 0..8000u64 {
        let (x, y) = (
            anywhere(number, 2_654_435_761),
            anywhere(number, 2_246_822_519),
        );
        let line = format!(in alloc; "cells 1 {x} {y} 1\n")?;
        script.extend_from_slice(line.as_bytes())?;
    }
    Ok(script)
}

/// A coordinate of the plane, another one for each number.
fn anywhere(number: u64, factor: u64) -> i64
    requires { (number < 8000) × (factor < 2 ^ 32) }
{
    (number * factor % 0x8000_0000) as i64 - 0x4000_0000
}

#[test]
fn a_long_script_has_room(rt: HostRuntime) -> Result<(), AllocError> {
    let script = long_script(rt.alloc())?;
    assert!(rt; script.len() > 200_000);
    let printed = run(rt.alloc(), &script)?;
    assert!(rt; printed.as_str().ends_with("\ndrawn 8000 1\n"));
    Ok(())
}

/// Faulty scripts, in which `|` stands for a line feed, each with the line of its first fault.
const FAULTS: &str = "\
# a||# -> 4
 -> 1
rule /2/3| -> 2
rule 23/3|replicas 1| -> 1
replicas 1|rule /2/3| -> 1
rule /2/3|replicas 65| -> 2
rule /2/3|replicas 1|cells 1 0 0| -> 3
rule /2/3|replicas 1|cells 1 0 0 256|nothing| -> 3
rule /2/3|replicas 1|# a||show 1 0 2147483648| -> 5
rule /2/3|replicas 1|show 1 -2147483649 0| -> 3
rule /2/3|replicas 1|state 4294967296| -> 3
rule /2/3|replicas 1|state 1|state -1 -> 4
rule /2/3\r|replicas 1\r|state 1\r -> 3
rule /2/3|replicas 1|delta 1 0| -> 3
rule /2/3|replicas 1|delta 1 0 1 1| -> 3
rule /2/3|replicas 1|delta 1 -1 1| -> 3
rule /2/3|replicas 1|dump| -> 3
rule /2/3|replicas 1|dump 4294967296| -> 3
rule /2/3|replicas 1|export 1| -> 3
rule /2/3|replicas 1|export 1 -1| -> 3
rule /2/3|replicas 1|export 1 0 0| -> 3
rule /2/3|replicas 1|export 1 4294967296| -> 3
rule /2/3|replicas 1|state 1|pattern p|x = 1, y = 1|o!| -> 4
rule /2/3\r|replicas 1\r|pattern p\r|end\r -> 3
rule /2/3|replicas 1|pattern p q|end| -> 3
rule /2/3|replicas 1|pattern p|end|end| -> 5
rule /2/3|replicas 1|copy 1 p_ 0 0| -> 3
rule /2/3|replicas 1|clear 1 0 0 1| -> 3
";

/// The line of a script, with the line of its fault.
fn faulted(alloc: Global, line: &str) -> Result<String, AllocError> {
    let script = line.split(" -> ").next().unwrap_or(line);
    let end = run(alloc, &told::with_line_feeds(alloc, script)?)?;
    let fault = end
        .as_str()
        .strip_prefix("script fault at line ")
        .unwrap_or("none");
    let fault = fault.strip_suffix(", 0 bytes").unwrap_or("none");
    format!(in alloc; "{script} -> {fault}")
}

#[test]
fn first_fault_is_told(rt: HostRuntime) -> Result<(), AllocError> {
    for line in FAULTS.lines() {
        assert_eq!(rt; faulted(rt.alloc(), line)?.as_str(), line);
    }
    Ok(())
}

#[test]
fn pieces_may_be_single_bytes(rt: HostRuntime) -> Result<(), AllocError> {
    let (end, _) = run_within(rt.alloc(), &mut Pieces::of(EXCHANGE, 1, 0), 1000)?;
    assert_eq!(rt; end.as_str(), EXCHANGED);
    Ok(())
}

/// 21 bytes, and a pull that gives nothing.
#[test]
fn turns_end(rt: HostRuntime) -> Result<(), AllocError> {
    for turns in [0, 5, 21, 22] {
        let mut source = Pieces::of("rule /2/3\nreplicas 0\n", 1, 0);
        let (end, counts) = run_within(rt.alloc(), &mut source, turns)?;
        let is_whole = turns == 22;
        assert_eq!(rt;
            end.as_str(),
            if is_whole { "" } else { "read fault, 0 bytes" }
        );
        assert_eq!(rt; counts, (turns, u64::from(is_whole), 0));
    }
    Ok(())
}

/// 34 bytes; the tenth pull is the last, which gives nothing.
#[test]
fn failed_reads_are_told(rt: HostRuntime) -> Result<(), AllocError> {
    for fails_at in 1..11 {
        let script = "rule /2/3\nreplicas 1\nshow 1 0 0\n#\n";
        let mut source = Pieces::of(script, 4, fails_at);
        let (end, counts) = run_within(rt.alloc(), &mut source, 100)?;
        assert_eq!(rt; end.as_str(), "read fault, 0 bytes");
        assert_eq!(rt; counts, (fails_at, 0, 1));
    }
    Ok(())
}

/// How a script ends whose output nobody takes, and how often it was pushed.
fn untaken(alloc: Global, script: &str) -> (Result<(), RunFault>, u64) {
    let mut sink = Broken { pushes: 0 };
    let end = run_script(alloc, &mut ReadSource::new(script.as_bytes()), &mut sink);
    (end, sink.pushes)
}

#[test]
fn failed_writes_are_told(rt: HostRuntime) {
    let alloc = rt.alloc();
    assert_eq!(rt; untaken(alloc, EXCHANGE), (Err(RunFault::Write), 1));
    // a faulty script reaches no sink
    assert_eq!(rt;
        untaken(alloc, "rule /2/3\n"),
        (Err(RunFault::Script(2)), 0)
    );
}

/// An output of no bytes is pushed too.
#[test]
fn an_empty_output_is_pushed(rt: HostRuntime) {
    assert_eq!(rt;
        untaken(rt.alloc(), "rule /2/3\nreplicas 0\n"),
        (Err(RunFault::Write), 1)
    );
}
