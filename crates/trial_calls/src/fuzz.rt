//! Bytes by chance, good and changed, fed to each call that reads what others send: each answer beside that
//! of a slow reader of this program's own.

use crate::chance::Chance;
use crate::draw::messages::{BRAIN, Kind, RULES, message};
use crate::draw::{frames, patterns, scripts};
use crate::judge;
use crate::mutation::{EDGES, LETTERS, Stock, mutated};
use crate::slow::message::SlowRule;
use crate::verdict::{Tally, Verdict};
use anyhow::{Result, ensure};
use std::alloc::{AllocError, AllocGlobal, Global};
use std::thread::Threads;

/// What is tried.
#[derive(Clone, Copy)]
enum Call {
    Message(Kind),
    Frames,
    Sessions,
    Patterns,
    Scripts,
}

/// Each call and its name. The place is the number of its stream of chance.
static CALLS: [(Call, &str); 7] = [
    (Call::Message(Kind::Delta), "read of deltas"),
    (
        Call::Message(Kind::FirstState),
        "read of states of version 1",
    ),
    (Call::Message(Kind::State), "read of states"),
    (Call::Frames, "Frames"),
    (Call::Sessions, "Session::answer"),
    (Call::Patterns, "parse"),
    (Call::Scripts, "read_script"),
];

/// How many rounds there are of each call, and their seed.
#[derive(Clone, Copy)]
pub struct Asked {
    pub rounds: u64,
    pub seed: u64,
}

/// Runs all rounds of each call, tells how many answers were accepted, refused and different, and fails
/// where one differs.
pub fn run_all<R: Threads + AllocGlobal + Print + Copy + Drop + Sync>(
    rt: R,
    alloc: Global,
    asked: Asked,
) -> Result<()> {
    println!(rt; "{} rounds of seed {}", asked.rounds, asked.seed)?;
    let mut differ = 0_u64;
    for (place, (call, name)) in CALLS.iter().enumerate() {
        let Tally {
            accepted,
            refused,
            differs,
        } = run(rt, alloc, asked, (*call, name, place as u64))?;
        println!(rt; "{name}: {accepted} accepted, {refused} refused, {differs} differ")?;
        differ = differ.saturating_add(differs);
    }
    ensure!(differ == 0, "{differ} answers differ");
    Ok(())
}

/// All rounds of a call. Each draws from a stream of its own, so that it does not depend on the rounds
/// before; the bytes on which two answers differ are told.
fn run<R: Threads + AllocGlobal + Print + Copy + Drop + Sync>(
    rt: R,
    alloc: Global,
    asked: Asked,
    (call, name, number): (Call, &str, u64),
) -> Result<Tally> {
    let mut tally = Tally::new();
    for round in 0..asked.rounds {
        let mut chance = Chance::new(asked.seed, round.wrapping_mul(8).wrapping_add(number));
        let before = tally.differs;
        let bytes = played(rt, alloc, call, &mut chance, &mut tally)?;
        if tally.differs > before {
            let digits = hex::encode(alloc, &bytes)?;
            println!(rt; "{name} differs in round {round}: {digits}")?;
        }
    }
    Ok(tally)
}

/// A round of a call: the bytes, and in the tally the verdicts on them.
fn played<R: Threads + Sync + Drop>(
    rt: R,
    alloc: Global,
    call: Call,
    chance: &mut Chance,
    tally: &mut Tally,
) -> Result<Vec<u8>, AllocError> {
    if let Call::Sessions = call {
        return judge::sessions::judged(rt, alloc, chance, tally);
    }
    let rule = rule_of(call, chance);
    let good = drawn(alloc, chance, call, rule)?;
    let other = drawn(alloc, chance, call, rule)?;
    let stock = Stock {
        edges: edges_of(call),
        other: &other,
    };
    let bytes = mutated(alloc, chance, &good, stock)?;
    tally.count(judged(alloc, chance, call, rule, &bytes)?);
    Ok(bytes)
}

/// The rule that a message is drawn under.
fn rule_of(call: Call, chance: &mut Chance) -> SlowRule {
    match call {
        Call::Message(_) => chance.one_of(&RULES, BRAIN),
        _ => BRAIN,
    }
}

/// Bytes that mean something to a call.
fn edges_of(call: Call) -> &'static [u8] {
    match call {
        Call::Patterns | Call::Scripts => &LETTERS,
        _ => &EDGES,
    }
}

/// Good bytes for a call but a session.
fn drawn(
    alloc: Global,
    chance: &mut Chance,
    call: Call,
    rule: SlowRule,
) -> Result<Vec<u8>, AllocError> {
    match call {
        Call::Message(kind) => message(alloc, chance, kind, rule),
        Call::Frames => frames::stream(alloc, chance),
        Call::Patterns => patterns::pattern(alloc, chance),
        Call::Scripts => scripts::script(alloc, chance),
        Call::Sessions => Ok(Vec::new(alloc)),
    }
}

/// The verdict on the bytes of a call but a session; those of a message are read under another rule in a
/// few cases.
fn judged(
    alloc: Global,
    chance: &mut Chance,
    call: Call,
    rule: SlowRule,
    bytes: &[u8],
) -> Result<Verdict, AllocError> {
    match call {
        Call::Message(_) => {
            let asked = if chance.is_one_in(30) {
                chance.one_of(&RULES, BRAIN)
            } else {
                rule
            };
            judge::messages::judged(alloc, chance, asked, bytes)
        }
        Call::Frames => judge::frames::judged(alloc, chance, bytes),
        Call::Patterns => judge::patterns::judged(alloc, bytes),
        Call::Scripts => judge::scripts::judged(alloc, bytes),
        Call::Sessions => Ok(Verdict::Differs),
    }
}
