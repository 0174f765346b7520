//! What is said on standard error of lines at fault, of commands that were refused, and of texts under another rule.

use cell_files::{CellFormat, file_bounds, file_rule};
use delta_exchange::is_delta;
use genedit_script::without_return;
use generations_rule::Rule;
use header_rules::{HeaderRule, part_at, rule_standing};
use macrocell_text::{MacrocellFault, RulePlace, read_macrocell};
use script_faults::{
    Dialect, Finding, Reason, Warning, client_finding, other_rule, reason_text, warning_text,
};
use std::alloc::{AllocError, Global};

/// Says what is wrong with a line of this number, at which column, and what would be right.
pub fn tell_fault<R: Eprint>(
    rt: &R,
    alloc: Global,
    number: u64,
    line: &[u8],
) -> Result<(), AllocError> {
    let line = without_return(line);
    let finding = client_finding(alloc, line)?;
    let word = bytes_at(line, finding);
    let reason = reason_text(alloc, Dialect::Client, finding.reason, word)?;
    let column = finding.column;
    let _ = eprintln!(rt; "genedit: fault at line {number}:{column}: {reason}");
    Ok(())
}

/// Says what would be right in the place of a command that was refused, whose last line has this number.
pub fn tell_cure<R: Eprint>(rt: &R, number: u64, cure: &str) {
    let _ = eprintln!(rt; "genedit: refused at line {number}: {cure}");
}

/// Says that the lines ended in the block that the line of this number opens.
pub fn tell_open_block<R: Eprint>(rt: &R, alloc: Global, number: u64) -> Result<(), AllocError> {
    let reason = reason_text(alloc, Dialect::Client, Reason::OpenBlock(None), b"pattern")?;
    let _ = eprintln!(rt; "genedit: fault at line {number}:1: {reason}");
    Ok(())
}

/// Warns where a pattern's text, which is told by this name, has another rule than the board, or else where it
/// tells bounds.
pub fn warn_of_rule<R: Eprint>(
    rt: &R,
    alloc: Global,
    rule: &Rule,
    name: &[u8],
    text: &[u8],
) -> Result<(), AllocError> {
    if is_delta(text) == Ok(false) {
        return Ok(());
    }
    if let Some(warning) = file_warning(alloc, rule, text)? {
        let name = String::from_utf8_lossy(alloc, name)?;
        let _ = eprintln!(rt; "genedit: warning: {}: {}", name.as_str(), warning.as_str());
    }
    Ok(())
}

/// What is warned of a file of cells on a board of this rule.
fn file_warning(alloc: Global, rule: &Rule, text: &[u8]) -> Result<Option<String>, AllocError> {
    if CellFormat::of(text) == CellFormat::Macrocell {
        return macrocell_warning(alloc, rule, text);
    }
    let warning = rule_warning(alloc, rule, text, file_rule(text))?;
    if warning.is_some() {
        return Ok(warning);
    }
    let bounds = file_bounds(alloc, text)?;
    bounds_warning(alloc, rule, bounds)
}

/// What is warned of a macrocell, which tells its rule and bounds behind `#R`.
fn macrocell_warning(
    alloc: Global,
    rule: &Rule,
    text: &[u8],
) -> Result<Option<String>, AllocError> {
    let Some(RulePlace { place, length }) = rule_place(alloc, text)? else {
        return Ok(None);
    };
    let warning = rule_warning(alloc, rule, text, rule_standing(text, place, length))?;
    if warning.is_some() {
        return Ok(warning);
    }
    let bounds = bounds_standing(alloc, text, place, length)?;
    bounds_warning(alloc, rule, bounds)
}

/// What is warned where a file tells bounds.
fn bounds_warning(
    alloc: Global,
    rule: &Rule,
    bounds: Option<Vec<u8>>,
) -> Result<Option<String>, AllocError> {
    let Some(bounds) = bounds else {
        return Ok(None);
    };
    let warning = warning_text(alloc, Dialect::Client, Warning::Bounds, &bounds, rule)?;
    Ok(Some(warning))
}

/// What is warned where the rule that a file tells, if it tells one, is not the board's.
fn rule_warning(
    alloc: Global,
    rule: &Rule,
    text: &[u8],
    told: Option<HeaderRule>,
) -> Result<Option<String>, AllocError> {
    let Some(told) = told else {
        return Ok(None);
    };
    let Some(warning) = other_rule(rule, &told.rule) else {
        return Ok(None);
    };
    let word = part_at(text, told.place, told.length);
    let warning = warning_text(alloc, Dialect::Client, warning, word, rule)?;
    Ok(Some(warning))
}

/// The bounds of the rule that stands at a place.
fn bounds_standing(
    alloc: Global,
    text: &[u8],
    place: usize,
    length: usize,
) -> Result<Option<Vec<u8>>, AllocError> {
    let Some(
        HeaderRule {
            bounds: Some(bounds),
            ..
        },
    ) = rule_standing(text, place, length)
    else {
        return Ok(None);
    };
    let bounds = part_at(text, bounds.place, bounds.length).to_vec(alloc)?;
    Ok(Some(bounds))
}

/// Where the rule of a macrocell stands; nowhere where it is refused.
fn rule_place(alloc: Global, text: &[u8]) -> Result<Option<RulePlace>, AllocError> {
    match read_macrocell(alloc, text) {
        Ok(macrocell) => Ok(macrocell.rule()),
        Err(MacrocellFault::Memory) => Err(AllocError),
        Err(_) => Ok(None),
    }
}

/// The bytes of a line that a finding is of.
fn bytes_at(line: &[u8], finding: Finding) -> &[u8] {
    let begin = finding.column.saturating_sub(1).min(line.len());
    let end = begin.saturating_add(finding.width).min(line.len());
    &line[begin..end]
}
