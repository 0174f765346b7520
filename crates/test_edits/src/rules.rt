//! Values from outside: Golly's rule texts, steps of Golly's rules, and each call once.

use generations_rule::{Rule, RuleFault};
use std::alloc::{AllocError, Global};

/// Rule texts, each with how the rule that it spells is printed, or with its refusal.
const TEXTS: &str = "\
23/3/2 = 23/3/2
/2/3 = /2/3
345/2/4 = 345/2/4
5433/2/004 = 345/2/4
//256 = //256
//2 = //2
012345678/12345678/256 = 012345678/12345678/256
876543210/87654321/99 = 012345678/12345678/99
0000000000000000000000/11111/02 = 0/1/2
 = Slashes
23/3 = Slashes
23/3/2/ = Slashes
B3/S23 = Slashes
9/0 = Slashes
23/03/2 = Digit 3
9/3/2 = Digit 0
23/39/2 = Digit 4
23/3/x = Digit 5
23/3/2  = Digit 6
 23/3/2 = Digit 0
29/0/ = Digit 1
23/3/99999x = Digit 10
23/3/ = States
// = States
23/3/1 = States
23/3/0 = States
23/3/257 = States
23/3/0256 = States
";

/// What a text is printed as or refused with.
fn answer(alloc: Global, text: &str) -> Result<String, AllocError> {
    match Rule::parse(text.as_bytes()) {
        Ok(rule) => String::from_utf8_lossy(alloc, &rule.write_text(alloc)?),
        Err(fault) => fault.to_string(alloc),
    }
}

/// Whether the text of a line is answered as the line says.
fn is_answered(alloc: Global, line: &str) -> Result<bool, AllocError> {
    match line.split_once(" = ") {
        Some((text, want)) => Ok(answer(alloc, text)?.as_str() == want),
        None => Ok(false),
    }
}

#[test]
fn reads_and_prints_rule_texts(rt: HostRuntime) {
    for line in TEXTS.lines() {
        assert!(rt; is_answered(rt.alloc(), line) == Ok(true), "{line}");
    }
}

/// Whether a fault has this number and this place.
fn is_numbered(fault: RuleFault, number: u8, place: Option<u64>) -> bool {
    fault.number() == number && fault.place() == place
}

#[test]
fn numbers_faults(rt: HostRuntime) {
    assert!(rt; is_numbered(RuleFault::Slashes, 1, None));
    assert!(rt; is_numbered(RuleFault::Digit(12), 2, Some(12)));
    assert!(rt; is_numbered(RuleFault::States, 3, None));
}

/// The next states of a cell with 0 to 8 live neighbours, where the rule has the cell's state.
fn next_states(text: &str, state: u8) -> Option<[u8; 9]> {
    let Ok(rule) = Rule::parse(text.as_bytes()) else {
        return None;
    };
    if u16::from(state) >= rule.states() {
        return None;
    }
    let mut states = [0; 9];
    for n in 0..9usize {
        states[n] = rule.next(state, n as u8);
    }
    Some(states)
}

/// Rules, each with a state and the next states of a cell with 0 to 8 live neighbours: Life, Brian's
/// Brain and Star Wars as Golly steps them, and ages up to the last.
static STEPS: [(&str, u8, [u8; 9]); 14] = [
    ("23/3/2", 0, [0, 0, 0, 1, 0, 0, 0, 0, 0]),
    ("23/3/2", 1, [0, 0, 1, 1, 0, 0, 0, 0, 0]),
    ("/2/3", 0, [0, 0, 1, 0, 0, 0, 0, 0, 0]),
    ("/2/3", 1, [2; 9]),
    ("/2/3", 2, [0; 9]),
    ("345/2/4", 0, [0, 0, 1, 0, 0, 0, 0, 0, 0]),
    ("345/2/4", 1, [2, 2, 2, 1, 1, 1, 2, 2, 2]),
    ("345/2/4", 2, [3; 9]),
    ("345/2/4", 3, [0; 9]),
    ("23/3/08", 6, [7; 9]),
    ("23/3/08", 7, [0; 9]),
    ("//256", 1, [2; 9]),
    ("//256", 254, [255; 9]),
    ("//256", 255, [0; 9]),
];

#[test]
fn steps_one_cell(rt: HostRuntime) {
    for (text, state, want) in &STEPS {
        assert!(rt; next_states(text, *state) == Some(*want), "{text} {state}");
    }
}

/// Whether two texts spell one rule.
fn are_same(one: &str, other: &str) -> bool {
    match (Rule::parse(one.as_bytes()), Rule::parse(other.as_bytes())) {
        (Ok(one), Ok(other)) => one.same(&other),
        _ => false,
    }
}

#[test]
fn tells_rules_apart(rt: HostRuntime) {
    assert!(rt; are_same("23/3/2", "32/33/02"));
    for other in ["2/3/2", "238/3/2", "23//2", "23/36/2", "23/3/3"] {
        assert!(rt; !are_same("23/3/2", other));
    }
}

/// For 0 to 8 neighbours whether a cell survives, is born, does both or neither.
fn counts(text: &str) -> Option<[u8; 9]> {
    let Ok(rule) = Rule::parse(text.as_bytes()) else {
        return None;
    };
    let mut counts = [0; 9];
    for n in 0..9usize {
        counts[n] = match (rule.survives(n as u8), rule.born(n as u8)) {
            (true, true) => b'+',
            (true, false) => b's',
            (false, true) => b'b',
            (false, false) => b'.',
        };
    }
    Some(counts)
}

#[test]
fn reads_the_counts(rt: HostRuntime) {
    assert!(rt; counts("0345/28/4") == Some(*b"s.bsss..b"));
}
