//! What notes say.

use crate::reason::{Reason, Warning};
use command_words::{Argument, Dialect, Keyword};
use generations_rule::{Rule, RuleFault};
use header_rules::{Misspelling, OtherFamily, spelled_rule};
use std::alloc::{AllocError, Global};

/// How many bytes of a word are shown.
const MOST_SHOWN: usize = 40;

/// What is wrong with a word of a script or of a client's line, and what would be right.
pub fn reason_text(
    alloc: Global,
    dialect: Dialect,
    reason: Reason,
    word: &[u8],
) -> Result<String, AllocError> {
    match reason {
        Reason::ByteOrderMark => String::from_str(alloc, mark_text(dialect)),
        Reason::NoText(byte) => no_text_text(alloc, byte),
        Reason::NoCommand(near) => no_command_text(alloc, dialect, near, word),
        Reason::OtherDialect => other_dialect_text(alloc, dialect, word),
        Reason::Missing(argument, keyword) => missing_text(alloc, dialect, argument, keyword),
        Reason::Surplus(keyword) => surplus_text(alloc, dialect, keyword),
        Reason::Remark => String::from_str(
            alloc,
            "a remark stands on a line of its own, whose first word begins with #",
        ),
        Reason::NoNumber(argument) => no_number_text(alloc, argument, word),
        Reason::OutOfRange(argument) => {
            format!(in alloc; "{} is {}", argument.name(), argument.range())
        }
        Reason::NoName => {
            format!(in alloc;
                "`{}` is no name: 1 to 16 letters and digits",
                shown(alloc, word)?
            )
        }
        Reason::NoTurn => {
            format!(in alloc;
                "`{}` is no turn: left, right, half, mirror or flip",
                shown(alloc, word)?
            )
        }
        Reason::NoRange => no_range_text(alloc, word),
        Reason::NoFilm => String::from_str(
            alloc,
            "a range is exported to files: `export G1..G2 FILE`, and one % in FILE stands for the generation",
        ),
        Reason::OtherSpelling => other_spelling_text(alloc, word),
        Reason::OtherFamily(family) => other_family_text(alloc, family, word),
        Reason::NoRule(fault) => no_rule_text(alloc, fault, word),
        _ => order_text(alloc, dialect, reason),
    }
}

/// What may be wrong with a pattern's header, which tells this word as its rule, and the script or the
/// board has another, or as its bounds. It stands behind `warning: `.
pub fn warning_text(
    alloc: Global,
    dialect: Dialect,
    warning: Warning,
    word: &[u8],
    rule: &Rule,
) -> Result<String, AllocError> {
    let rule = rule_text(alloc, rule)?;
    let owner = dialect.rule_owner();
    match (warning, spelled_rule(word)) {
        (Warning::OtherRule, Ok(told)) => {
            let told = rule_text(alloc, &told)?;
            format!(in alloc; "this pattern is of the rule {told}, and {owner} is {rule}")
        }
        (Warning::Bounds, _) => {
            let bounds = shown(alloc, word)?;
            format!(in alloc; "the bounds {bounds} are passed over: cells live on the whole plane")
        }
        (Warning::UnreadRule(Misspelling::Other(family)), _) => {
            let family = family.words();
            format!(in alloc; "this pattern's rule is {family}; {owner} is {rule}")
        }
        _ => format!(in alloc; "this pattern's rule is not read; {owner} is {rule}"),
    }
}

fn mark_text(dialect: Dialect) -> &'static str {
    match dialect {
        Dialect::Script => {
            "the file begins with a byte order mark (U+FEFF), which is not seen: save it without one"
        }
        Dialect::Client => {
            "the line begins with a byte order mark (U+FEFF), which is not seen: leave it out"
        }
    }
}

fn no_text_text(alloc: Global, byte: u8) -> Result<String, AllocError> {
    if byte == b'\r' {
        return String::from_str(
            alloc,
            "a carriage return stands here without a line feed: lines end with LF, or with CR and LF",
        );
    }
    format!(in alloc; "this byte is no text: {byte} in decimal")
}

/// What is wrong with the order of lines.
fn order_text(alloc: Global, dialect: Dialect, reason: Reason) -> Result<String, AllocError> {
    match reason {
        Reason::OpenBlock(Some(line)) => {
            format!(in alloc;
                "this pattern has no line `end`; line {line} has blanks beside its `end`"
            )
        }
        Reason::OpenBlock(None) => String::from_str(alloc, open_block_text(dialect)),
        Reason::NoBlock => String::from_str(
            alloc,
            "no pattern is open here that `end` could close",
        ),
        Reason::RuleDue => String::from_str(
            alloc,
            "a script begins with its rule: `rule S/B/C`, as `rule 23/3/2` for Life",
        ),
        Reason::ReplicasDue => String::from_str(
            alloc,
            "the second line is the number of replicas: `replicas N`, 0 to 64",
        ),
        Reason::RuleAgain(line) => again_text(alloc, "the rule", "first", line),
        Reason::ReplicasAgain(line) => again_text(alloc, "the number of replicas", "second", line),
        Reason::NoForm(keyword) => {
            format!(in alloc; "the line is written `{}`", keyword.form(alloc, dialect)?)
        }
        _ => Ok(String::new(alloc)),
    }
}

fn open_block_text(dialect: Dialect) -> &'static str {
    match dialect {
        Dialect::Script =>
            "this pattern has no line `end`: the line behind its last says just that",
        Dialect::Client => "the input ends in this pattern: a line that says just `end` closes it",
    }
}

fn again_text(
    alloc: Global,
    what: &str,
    place: &str,
    line: Option<u64>,
) -> Result<String, AllocError> {
    match line {
        Some(line) => format!(in alloc;
            "{what} stands once, as the {place} line; here that is line {line}"
        ),
        None => format!(in alloc; "{what} stands once, as the {place} line"),
    }
}

fn no_command_text(
    alloc: Global,
    dialect: Dialect,
    near: Option<Keyword>,
    word: &[u8],
) -> Result<String, AllocError> {
    let word = shown(alloc, word)?;
    let program = dialect.program();
    match near {
        Some(near) => format!(in alloc; "`{word}` is no command; did you mean `{}`?", near.name()),
        None => format!(in alloc; "`{word}` is no command: `{program} --help` lists them"),
    }
}

fn other_dialect_text(alloc: Global, dialect: Dialect, word: &[u8]) -> Result<String, AllocError> {
    let word = shown(alloc, word)?;
    let other = dialect.other();
    format!(in alloc;
        "`{word}` is a command of {} alone (`{}`): `{} --help` lists those of {}",
        other.owner(),
        other.program(),
        dialect.program(),
        dialect.owner()
    )
}

fn surplus_text(alloc: Global, dialect: Dialect, keyword: Keyword) -> Result<String, AllocError> {
    let form = keyword.form(alloc, dialect)?;
    if dialect == Dialect::Client && names_file(keyword) {
        return format!(in alloc;
            "a word too many: `{form}`; a name with blanks stands in double quotes"
        );
    }
    format!(in alloc; "a word too many: `{form}`")
}

/// Whether a client's line with it may name a file.
fn names_file(keyword: Keyword) -> bool {
    matches!(
        keyword,
        Keyword::Export
            | Keyword::ExportOver
            | Keyword::Cut
            | Keyword::CutOver
            | Keyword::Save
            | Keyword::SaveOver
            | Keyword::Open
    )
}

fn missing_text(
    alloc: Global,
    dialect: Dialect,
    argument: Argument,
    keyword: Keyword,
) -> Result<String, AllocError> {
    format!(in alloc;
        "{} is missing: `{}`",
        argument.name(),
        keyword.form(alloc, dialect)?
    )
}

fn no_number_text(alloc: Global, argument: Argument, word: &[u8]) -> Result<String, AllocError> {
    let word = shown(alloc, word)?;
    format!(in alloc;
        "`{word}` is no whole number: {} is {}",
        argument.name(),
        argument.range()
    )
}

fn no_range_text(alloc: Global, word: &[u8]) -> Result<String, AllocError> {
    let word = shown(alloc, word)?;
    format!(in alloc;
        "`{word}` is no range: G1..G2 or G1..G2/STEP, in numbers up to 4294967295, G1 at most G2, STEP at least 1"
    )
}

fn other_spelling_text(alloc: Global, word: &[u8]) -> Result<String, AllocError> {
    match spelled_rule(word) {
        Ok(rule) => {
            let rule = rule_text(alloc, &rule)?;
            format!(in alloc; "a rule is survival/birth/states: write `rule {rule}`")
        }
        Err(_) => String::from_str(alloc, "a rule is survival/birth/states"),
    }
}

fn other_family_text(
    alloc: Global,
    family: OtherFamily,
    word: &[u8],
) -> Result<String, AllocError> {
    let word = shown(alloc, word)?;
    let family = family.words();
    format!(in alloc; "`{word}` is {family}")
}

fn no_rule_text(alloc: Global, fault: RuleFault, word: &[u8]) -> Result<String, AllocError> {
    match fault {
        RuleFault::Slashes => {
            let word = shown(alloc, word)?;
            format!(in alloc; "`{word}` is no rule: survival/birth/states, as 23/3/2 for Life")
        }
        RuleFault::Digit(_) => String::from_str(
            alloc,
            "this may not stand here: survival counts are 0 to 8, birth counts 1 to 8, states a number",
        ),
        RuleFault::States => String::from_str(alloc, "a rule has 2 to 256 states, its third part"),
    }
}

/// A rule as it is printed.
pub fn rule_text(alloc: Global, rule: &Rule) -> Result<String, AllocError> {
    shown(alloc, &rule.write_text(alloc)?)
}

/// Some bytes of a line, cut at 40, with `?` for what is not printing ASCII.
fn shown(alloc: Global, bytes: &[u8]) -> Result<String, AllocError> {
    let mut text = String::new(alloc);
    for byte in bytes.iter().take(MOST_SHOWN) {
        let letter = if b' ' <= *byte && *byte <= b'~' {
            char::from(*byte)
        } else {
            '?'
        };
        text.push(letter)?;
    }
    if bytes.len() > MOST_SHOWN {
        text.push_str("..")?;
    }
    Ok(text)
}
