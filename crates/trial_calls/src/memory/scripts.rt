//! Scripts and texts from a source to a sink, and the events of scripts in a world.

use crate::memory::worked::{MIXED, WORKED, Worked};
use crate::memory::{behind, is_text, tell, tell_all};
use devices::{ReadSource, WriteSink};
use genedit_io::{RunFault, pull_all};
use genedit_lib::{Plan, planned, run_script};
use genedit_rle::rle_text;
use genedit_script::{Script, ScriptFault, read_script};
use generations_rule::Rule;
use replica_core::{Reply, Stop, World, replay};
use std::alloc::{AllocError, Global};
use std::io;

/// A script whose third line is at fault.
const FAULTY: &str = "rule /2/3\nreplicas 1\ncells 1 0 0\n";

/// Texts, and what the canonical form of each under `/2/3` is or why it has none: a column has not 32 bits
/// with a sign, or the rule does not have a state.
static FORMS: [(&str, Result<&str, RunFault>); 3] = [
    (
        "#C note\n#CXRLE Pos=-1,2 Gen=7\nx = 3, y = 2\n 2 b o$ ! end",
        Ok("#CXRLE Pos=1,2 Gen=7\nx = 1, y = 1, rule = /2/3\nA!\n"),
    ),
    (
        "#CXRLE Pos=2147483647,0\nx = 2, y = 1\nbo!\n",
        Err(RunFault::Refused(10, None)),
    ),
    ("x = 1, y = 1\nC!\n", Err(RunFault::Refused(11, None))),
];

pub fn tell_calls(rt: &impl Print, alloc: Global) -> io::Result<()> {
    tell_all(
        rt,
        "scripts",
        &[
            ("pull_all", bytes_are_pulled(alloc)),
            ("read_script", script_is_read(alloc)),
            ("planned", script_is_planned(alloc)),
            ("run_script", prints(alloc, &MIXED)),
            ("run_script of a fault", script_is_refused(alloc)),
            ("rle_text", texts_are_brought(alloc)),
        ],
    )
}

/// Worked scripts, from a source to a sink.
pub fn tell_runs(rt: &impl Print, alloc: Global) -> io::Result<()> {
    for row in &WORKED {
        tell(rt, "run_script", row.name, prints(alloc, row))?;
    }
    Ok(())
}

/// The events of worked scripts, in a world of their own.
pub fn tell_replays(rt: &impl Print, alloc: Global) -> io::Result<()> {
    tell(rt, "worlds", "World::new", world_is_new(alloc))?;
    for row in &WORKED {
        tell(rt, "replay", row.name, is_replayed(alloc, row))?;
    }
    Ok(())
}

fn pulled(alloc: Global) -> Result<Vec<u8>, RunFault> {
    pull_all(alloc, &mut ReadSource::new(MIXED.script.as_bytes()), 4)
}

fn bytes_are_pulled(alloc: Global) -> bool {
    let answer = again!(RunFault::Memory, pulled(alloc));
    is_text(answer, MIXED.script.as_bytes())
}

fn script(alloc: Global, text: &str) -> Option<Script> {
    again!(ScriptFault::Memory, read_script(alloc, text.as_bytes())).ok()
}

fn script_is_read(alloc: Global) -> bool {
    let Some(script) = script(alloc, MIXED.script) else {
        return false;
    };
    script.replicas() == 2 && script.commands().len() == 12
}

/// The plan of a script, whose commands are read again where memory is refused.
fn plan(alloc: Global, text: &str) -> Option<Plan> {
    match plan_once(alloc, text) {
        None => plan_once(alloc, text),
        plan => plan,
    }
}

fn plan_once(alloc: Global, text: &str) -> Option<Plan> {
    planned(alloc, script(alloc, text)?.into_commands()).ok()
}

fn script_is_planned(alloc: Global) -> bool {
    let Some(plan) = plan(alloc, MIXED.script) else {
        return false;
    };
    plan.lines.len() == 12 && plan.events.len() == 10
}

/// A sink with room for all that is pushed here: a growth of its own would count as a failed write.
pub fn sink(alloc: Global) -> Option<Vec<u8>> {
    again!(AllocError, Vec::with_capacity(alloc, 500)).ok()
}

fn run(alloc: Global, script: &str, out: &mut Vec<u8>) -> Result<(), RunFault> {
    let mut source = ReadSource::new(script.as_bytes());
    run_script(alloc, &mut source, &mut WriteSink::new(out))
}

/// How a run ends, and what it pushed. One that wants memory has to push nothing, and is made again.
fn ended(alloc: Global, script: &str) -> Option<(Result<(), RunFault>, Vec<u8>)> {
    let mut out = sink(alloc)?;
    let end = again!(RunFault::Memory if out.is_empty(), run(alloc, script, &mut out));
    Some((end, out))
}

/// Whether a worked script prints what it is meant to.
fn prints(alloc: Global, row: &Worked) -> bool {
    let Some((end, out)) = ended(alloc, row.script) else {
        return false;
    };
    match behind(&out, row.patterns.as_bytes()) {
        Some(rest) => end.is_ok() && rest == row.printed.as_bytes(),
        None => false,
    }
}

fn script_is_refused(alloc: Global) -> bool {
    match ended(alloc, FAULTY) {
        Some((end, out)) => end == Err(RunFault::Script(3)) && out.is_empty(),
        None => false,
    }
}

fn bring(alloc: Global, rule: &Rule, text: &str, out: &mut Vec<u8>) -> Result<(), RunFault> {
    let mut source = ReadSource::new(text.as_bytes());
    rle_text(alloc, rule, &mut source, &mut WriteSink::new(out))
}

/// Whether a text is brought into its form. A call that wants memory has to push nothing, and is made
/// again.
fn is_brought(alloc: Global, text: &str, form: Result<&str, RunFault>) -> bool {
    let Ok(rule) = Rule::parse(b"/2/3") else {
        return false;
    };
    let Some(mut out) = sink(alloc) else {
        return false;
    };
    let end = again!(RunFault::Memory if out.is_empty(), bring(alloc, &rule, text, &mut out));
    end == form.map(|_| ()) && out.as_slice() == form.unwrap_or("").as_bytes()
}

fn texts_are_brought(alloc: Global) -> bool {
    for (text, form) in &FORMS {
        if !is_brought(alloc, text, *form) {
            return false;
        }
    }
    true
}

fn world_is_new(alloc: Global) -> bool {
    let Ok(rule) = Rule::parse(b"345/2/4") else {
        return false;
    };
    let Ok(world) = again!(Stop::Memory, World::new(alloc, rule, 3)) else {
        return false;
    };
    world.replica(3).is_some() && world.replica(4).is_none()
}

/// The world of a script behind its last event, and what it replied.
fn replayed(alloc: Global, text: &str) -> Option<(World, Vec<Reply>)> {
    let (rule, replicas) = head(&script(alloc, text)?);
    let plan = plan(alloc, text)?;
    again!(Stop::Memory, replay(alloc, rule, replicas, &plan.events)).ok()
}

/// The rule of a script, and how many replicas it has.
fn head(script: &Script) -> (Rule, u16) {
    (script.rule(), script.replicas())
}

/// Whether a world replies what is printed of it, and whether its messages are as they are meant to be.
fn is_replayed(alloc: Global, row: &Worked) -> bool {
    match replayed(alloc, row.script) {
        Some((world, replies)) => {
            are_printed(alloc, &replies, row.printed.as_bytes())
                && are_messages(&world, row.equal, row.bytes)
        }
        None => false,
    }
}

/// Whether just this is printed of replies.
fn are_printed(alloc: Global, replies: &[Reply], printed: &[u8]) -> bool {
    let mut rest = printed;
    for reply in replies {
        let Some(further) = behind_reply(alloc, rest, reply) else {
            return false;
        };
        rest = further;
    }
    rest.is_empty()
}

/// What is printed behind a reply.
fn behind_reply<'a>(alloc: Global, printed: &'a [u8], reply: &Reply) -> Option<&'a [u8]> {
    match reply {
        Reply::Text(text) => behind(printed, text.as_slice()),
        reply => behind_line(alloc, printed, &line_of(reply)),
    }
}

/// A line that is printed: a word, numbers behind it, and a name where there is one.
#[derive(Drop)]
struct Line {
    word: &'static str,
    numbers: [Option<u64>; 3],
    name: &'static str,
}

impl Line {
    fn of(word: &'static str, numbers: [Option<u64>; 3]) -> Line {
        Line {
            word,
            numbers,
            name: "",
        }
    }
}

/// The line that a reply is printed as, but for a text and for bytes.
fn line_of(reply: &Reply) -> Line {
    match reply {
        Reply::Drawn(stamp) => {
            let (counter, replica) = (stamp.counter(), u64::from(stamp.replica()));
            Line::of("drawn", [Some(counter), Some(replica), None])
        }
        Reply::Sent(number) => Line::of("sent", [Some(*number), None, None]),
        Reply::Taken => Line::of("taken", [None, None, None]),
        Reply::Shown(write) => {
            let (counter, replica) = (write.stamp >> 16, write.stamp & 0xffff);
            let state = u64::from(write.state);
            Line::of("cell", [Some(state), Some(counter), Some(replica)])
        }
        Reply::Same(true) => Line::of("same", [None, None, None]),
        Reply::Same(false) => Line::of("differ", [None, None, None]),
        Reply::Refused(fault) => Line {
            word: "refused",
            numbers: [Some(u64::from(fault.number())), None, None],
            name: fault.name(),
        },
        _ => Line::of("?", [None, None, None]),
    }
}

/// What is printed behind a line.
fn behind_line<'a>(alloc: Global, printed: &'a [u8], line: &Line) -> Option<&'a [u8]> {
    let mut rest = behind(printed, line.word.as_bytes())?;
    for number in line.numbers.iter().flatten() {
        rest = behind_number(alloc, rest, *number)?;
    }
    if !line.name.is_empty() {
        rest = behind(behind(rest, b" ")?, line.name.as_bytes())?;
    }
    behind(rest, b"\n")
}

/// What is printed behind a blank and a number.
fn behind_number(alloc: Global, printed: &[u8], number: u64) -> Option<&[u8]> {
    match again!(AllocError, format!(in alloc; " {number}")) {
        Ok(digits) => behind(printed, digits.as_bytes()),
        Err(AllocError) => None,
    }
}

/// Whether messages of a world are the same bytes, and so many.
fn are_messages(world: &World, numbers: &[u64], bytes: usize) -> bool {
    let Some(first) = numbers.first() else {
        return true;
    };
    for number in numbers {
        if !is_message(world, *number, *first, bytes) {
            return false;
        }
    }
    true
}

/// Whether a message has so many bytes, and they are those of another.
fn is_message(world: &World, number: u64, other: u64, bytes: usize) -> bool {
    match (world.message(number), world.message(other)) {
        (Some(text), Some(same)) => text.len() == bytes && text == same,
        _ => false,
    }
}
