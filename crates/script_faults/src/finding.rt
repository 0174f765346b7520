//! What is wrong with a faulty line.

ghost use Rattle.std.specs.Prelude.{IfOk, IfSome, ◌≡◌, ◌+◌, ◌<◌, ◌≤◌, length};
ghost use Rattle.script_faults.specs.Findings.{StandsIn};

use crate::misfit::misfit;
use crate::nearest::nearest;
use crate::reason::Reason;
use crate::word::{Word, Words};
use command_words::{Argument, Dialect, Keyword, is_film_name, range_in};
use generations_rule::RuleFault;
use std::alloc::{AllocError, Global};

/// What is wrong with some bytes of a line, or behind its last.
#[derive(Clone, Copy, Debug, PartialEq, Eq)]
pub struct Finding {
    /// The first byte, counted from 1.
    pub column: usize,
    /// How many bytes: 1 at least.
    pub width: usize,
    pub reason: Reason,
}

/// The lines that told the rule and the number of replicas, or were due to.
#[derive(Clone, Copy)]
pub struct Head {
    pub rule: Option<u64>,
    pub replicas: Option<u64>,
}

const BYTE_ORDER_MARK: &[u8] = b"\xef\xbb\xbf";

/// What is wrong with a line that should tell the rule.
pub fn rule_finding(alloc: Global, line: &[u8], first: bool) -> Result<Finding, AllocError> {
    if let Some(finding) = strange_finding(line, first) {
        return Ok(finding);
    }
    due_finding(alloc, Keyword::Rule, Reason::RuleDue, line)
}

/// What is wrong with a line that should tell the number of replicas.
pub fn replicas_finding(alloc: Global, line: &[u8]) -> Result<Finding, AllocError> {
    if let Some(finding) = strange_finding(line, false) {
        return Ok(finding);
    }
    due_finding(alloc, Keyword::Replicas, Reason::ReplicasDue, line)
}

/// What is wrong with a line that should be a command of a script.
pub fn command_finding(alloc: Global, head: Head, line: &[u8]) -> Result<Finding, AllocError> {
    if let Some(finding) = strange_finding(line, false) {
        return Ok(finding);
    }
    let mut words = Words::of(Dialect::Script, line);
    let Some(word) = words.next_word() else {
        return Ok(whole(line, Reason::NoCommand(None)));
    };
    match Dialect::Script.keyword(word.text) {
        Some(Keyword::Rule) => Ok(word.finding(Reason::RuleAgain(head.rule))),
        Some(Keyword::Replicas) => Ok(word.finding(Reason::ReplicasAgain(head.replicas))),
        _ => spoken_finding(alloc, Dialect::Script, word, words),
    }
}

/// What is wrong with a client's line that stands in no block, is not skipped, and neither is a command
/// nor opens a block. It has no CR at its end, as `genedit_script::without_return` leaves it.
pub fn client_finding(alloc: Global, line: &[u8]) -> Result<Finding, AllocError>
    ensures { IfOk result (λ finding. StandsIn finding line.now) }
{
    if let Some(finding) = strange_finding(front_of_file(line), true) {
        return Ok(finding);
    }
    let mut words = Words::of(Dialect::Client, line);
    match words.next_word() {
        Some(word) => spoken_finding(alloc, Dialect::Client, word, words),
        None => Ok(whole(line, Reason::NoCommand(None))),
    }
}

/// What of a client's line stands in front of the name of a file, which may have any bytes.
fn front_of_file(line: &[u8]) -> &[u8]
    ensures { length result.now ≤ length line.now }
{
    let mut words = Words::of(Dialect::Client, line);
    let Some(word) = words.next_word() else {
        return line;
    };
    let numbers = match Dialect::Client.keyword(word.text) {
        None | Some(Keyword::Save | Keyword::SaveOver | Keyword::Open) => 0u32,
        Some(Keyword::Export | Keyword::ExportOver) => 1,
        Some(Keyword::Cut | Keyword::CutOver) => 5,
        Some(_) => return line,
    };
    for _number in 0..numbers {
        let _word = words.next_word();
    }
    words.read()
}

/// What is wrong with a line of a dialect that begins with a word, in front of these.
fn spoken_finding(
    alloc: Global,
    dialect: Dialect,
    word: Word<'_>,
    words: Words<'_>,
) -> Result<Finding, AllocError>
    requires counted { 1 ≤ word.column }
    requires within { word.column + length word.text.now ≤ length words.line.now + 1 }
    ensures { IfOk result (λ finding. StandsIn finding words.entry.line.now) }
{
    match dialect.keyword(word.text) {
        Some(Keyword::End) => Ok(word.finding(Reason::NoBlock)),
        Some(keyword) => match film_finding(dialect, keyword, words) {
            Some(finding) => Ok(finding),
            None => Ok(arguments_finding(dialect, keyword, words)),
        },
        None if dialect.other().keyword(word.text).is_some() => {
            Ok(word.finding(Reason::OtherDialect))
        }
        None => Ok(word.finding(Reason::NoCommand(nearest(alloc, dialect, word.text)?))),
    }
}

/// The file of a client's export of a range, where a film's files cannot have its name, or none is named.
fn film_finding(dialect: Dialect, keyword: Keyword, mut words: Words<'_>) -> Option<Finding>
    ensures { IfSome result (λ finding. StandsIn finding words.entry.line.now) }
{
    if dialect != Dialect::Client || !is_export(keyword) {
        return None;
    }
    let _range = range_in(words.next_word()?.text)?;
    let Some(file) = words.next_word() else {
        return Some(Finding {
            column: words.end(),
            width: 1,
            reason: Reason::NoFilm,
        });
    };
    if is_film_name(file.text) || words.next_word().is_some() {
        return None;
    }
    Some(file.finding(Reason::NoFilm))
}

fn is_export(keyword: Keyword) -> bool {
    matches!(keyword, Keyword::Export | Keyword::ExportOver)
}

/// What is wrong with a line that opens a block.
pub fn opening_finding(line: &[u8], almost_end: Option<u64>, closed: bool) -> Finding {
    if let Some(finding) = strange_finding(line, false) {
        return finding;
    }
    let mut words = Words::of(Dialect::Script, line);
    match words.next_word() {
        Some(word) if !closed && is_opening(words) => word.finding(Reason::OpenBlock(almost_end)),
        _ => arguments_finding(Dialect::Script, Keyword::Pattern, words),
    }
}

/// Whether just a name follows.
fn is_opening(mut words: Words<'_>) -> bool {
    match words.next_word() {
        Some(word) => Argument::Name.fits(word.text) && words.next_word().is_none(),
        None => false,
    }
}

/// What is wrong with a line that should begin with a word, where its first may be a misspelt one.
fn due_finding(
    alloc: Global,
    keyword: Keyword,
    due: Reason,
    line: &[u8],
) -> Result<Finding, AllocError> {
    let mut words = Words::of(Dialect::Script, line);
    let Some(word) = words.next_word() else {
        return Ok(whole(line, due));
    };
    match Dialect::Script.keyword(word.text) {
        Some(found) if found == keyword => Ok(arguments_finding(Dialect::Script, keyword, words)),
        Some(_) => Ok(word.finding(due)),
        None => match nearest(alloc, Dialect::Script, word.text)? {
            Some(near) if near == keyword => Ok(word.finding(Reason::NoCommand(Some(near)))),
            _ => Ok(word.finding(due)),
        },
    }
}

/// The first word that does not fit behind a keyword, or the one that is missing.
fn arguments_finding(dialect: Dialect, keyword: Keyword, mut words: Words<'_>) -> Finding
    ensures { StandsIn result words.entry.line.now }
{
    let mut place = 0usize;
    while let Some(word) = words.next_word() {
        let Some(argument) = keyword.argument_at(dialect, place) else {
            return word.finding(surplus(word, keyword));
        };
        if !argument.fits(word.text) {
            return misfit_finding(misfit(argument, word.text), word);
        }
        place = place.saturating_add(1);
    }
    let reason = match keyword.needed_at(dialect, place) {
        Some(argument) => Reason::Missing(argument, keyword),
        None => Reason::NoForm(keyword),
    };
    Finding {
        column: words.end(),
        width: 1,
        reason,
    }
}

fn surplus(word: Word<'_>, keyword: Keyword) -> Reason {
    if word.text.first() == Some(&b'#') {
        Reason::Remark
    } else {
        Reason::Surplus(keyword)
    }
}

/// Where a rule's text has a byte that may not stand there, the finding is at that byte.
fn misfit_finding(reason: Reason, word: Word<'_>) -> Finding
    requires { 1 ≤ word.column }
    ensures counted { 1 ≤ result.column }
    ensures within { result.column ≤ word.entry.column + length word.entry.text.now }
    ensures some { 1 ≤ result.width }
{
    match reason {
        Reason::NoRule(RuleFault::Digit(place)) if place < word.text.len() as u64 => Finding {
            column: word.column.saturating_add(place as usize),
            width: 1,
            reason,
        },
        _ => word.finding(reason),
    }
}

/// A byte order mark in front of the script or of a client's line, or a byte that is no text.
fn strange_finding(line: &[u8], first: bool) -> Option<Finding>
    ensures { IfSome result (λ finding. StandsIn finding line.now) }
{
    if first && line.starts_with(BYTE_ORDER_MARK) {
        return Some(Finding {
            column: 1,
            width: BYTE_ORDER_MARK.len(),
            reason: Reason::ByteOrderMark,
        });
    }
    let (at, byte) = strange_byte(line)?;
    Some(Finding {
        column: at + 1,
        width: 1,
        reason: Reason::NoText(byte),
    })
}

/// The first control byte, or the first byte that is not ASCII where the line is not UTF-8.
fn strange_byte(line: &[u8]) -> Option<(usize, u8)>
    ensures { IfSome result (λ found. found.0 < length line.now) }
{
    let is_text = std::str::from_utf8(line).is_ok();
    for (at, byte) in line.iter().enumerate() {
        if is_control(*byte) || (!is_text && !byte.is_ascii()) {
            return Some((at, *byte));
        }
    }
    None
}

fn is_control(byte: u8) -> bool {
    byte != b'\t' && (byte < b' ' || byte == 127)
}

fn whole(line: &[u8], reason: Reason) -> Finding
    ensures { StandsIn result line.now }
{
    Finding {
        column: 1,
        width: line.len().max(1),
        reason,
    }
}
