//! What is told of a script: its faults, and what may be a mistake.

ghost use Rattle.std.specs.Prelude.{◌≡◌, ◌+◌, IfOk, OnOk, length, IsTrue, IfSome, MatchOption, not, ◌&&◌, ◌||◌, ◌++◌, [], ◌∷◌};
ghost use Rattle.std.specs.Option.{is_none, option_to_list};
ghost use Rattle.std.specs.Str.Lines.{lines as lines_of};
ghost use Rattle.text_scan.specs.Words.{words};
ghost use Rattle.genedit_script.specs.Script.{lines_from, opening_spelled, script_of};
ghost use Rattle.script_faults.specs.declared.note.Note.TheVariants.{Fault};
ghost use Rattle.script_faults.specs.Faults.{faulty_end, faulty_lines, fault_lines, has_end, if_faulty, is_faulty, opens};
ghost use Rattle.script_faults.specs.Laws.{Begin};

use crate::due::{Due, Ends, almost_end, begins_with, opens_closed};
use crate::finding::{
    Finding, Head, command_finding, opening_finding, replicas_finding, rule_finding,
};
use crate::note::{Note, Place};
use crate::reason::Reason;
use crate::warning::header_warning;
use command_words::Keyword;
use genedit_script::{Lines, ScriptLine, command_in, opened_in, replicas_in, rule_in};
use generations_rule::Rule;
use std::alloc::{AllocError, Global};

/// What is told of a script.
#[derive(Debug, Drop)]
pub struct Notes {
    /// The script's rule, where its first line tells one.
    pub rule: Option<Rule>,
    /// How many replicas there are, where its second line tells it.
    pub replicas: Option<u16>,
    pub notes: Vec<Note>,
}

/// All that is told of a script without running it: a note for each faulty line, and a warning where
/// a pattern's header tells another rule than the script's, in the order of lines.
///
/// Behind a faulty line the next ones are read as what they are due to be: lines behind one that
/// begins with `pattern`, whatever is wrong with it, are a block up to the first that is exactly
/// `end`, or, where none is, to the first whose one word is `end`.
pub fn notes_in(alloc: Global, script: &[u8]) -> Result<Notes, AllocError>
    ensures lines { IfOk result (λ told. fault_lines told.notes.items ≡ faulty_lines script.now) }
    ensures first { IfOk result (λ told. Begin (fault_lines told.notes.items) (script_of script.now)) }
{
    let mut notes = Vec::new(alloc);
    let mut lines = Lines::of(script);
    let mut due = Due::Rule;
    let mut ends = Ends { none: false };
    let mut told = Told::new();
    while let Some(line) = lines.next_line() {
        if !due.passes(line.text) {
            let closed = opens_closed(due, line.text, lines, &mut ends);
            let spoken = Spoken {
                line,
                behind: lines,
                closed,
            };
            push_told(&mut notes, note_at(alloc, due, &told, spoken)?)?;
            told = told.behind(due, line);
            due = due.behind(line.text, closed);
        }
    }
    push_told(&mut notes, note_behind(due, lines.number))?;
    Ok(Notes {
        rule: told.rule,
        replicas: told.replicas,
        notes,
    })
}

fn push_told(notes: &mut Vec<Note>, note: Option<Note>) -> Result<(), AllocError>
    ensures { OnOk result (fault_lines notes.new.items ≡ fault_lines notes.old.items ++ fault_lines (option_to_list note)) }
{
    if let Some(note) = note {
        notes.push(note)?;
    }
    Ok(())
}

/// What was told of the rule and of the number of replicas.
#[derive(Clone, Copy)]
struct Told {
    rule: Option<Rule>,
    replicas: Option<u16>,
    head: Head,
}

impl Told {
    fn new() -> Told {
        Told {
            rule: None,
            replicas: None,
            head: Head {
                rule: None,
                replicas: None,
            },
        }
    }

    /// The same behind a line that was due to be something.
    fn behind(self, due: Due, line: ScriptLine<'_>) -> Told {
        match due {
            Due::Rule => Told {
                rule: rule_in(line.text),
                replicas: None,
                head: Head {
                    rule: Some(line.number),
                    replicas: None,
                },
            },
            Due::Replicas => Told {
                rule: self.rule,
                replicas: replicas_in(line.text),
                head: Head {
                    rule: self.head.rule,
                    replicas: Some(line.number),
                },
            },
            Due::Command | Due::End(_) => self,
        }
    }
}

/// A line that is not skipped, the lines behind it, and whether it opens a block that has its `end` there.
#[derive(Clone, Copy)]
struct Spoken<'a> {
    line: ScriptLine<'a>,
    behind: Lines<'a>,
    closed: bool,
}

/// What is told of a line that is not skipped.
fn note_at(
    alloc: Global,
    due: Due,
    told: &Told,
    spoken: Spoken<'_>,
) -> Result<Option<Note>, AllocError>
    requires { spoken.closed ≡ (opens due spoken.line.text.now && has_end (lines_from spoken.behind.number spoken.behind.rest.now)) }
    ensures { IfOk result (λ note. fault_lines (option_to_list note) ≡ if_faulty (is_faulty due spoken.entry.line.text.now (lines_from spoken.entry.behind.number spoken.entry.behind.rest.now)) spoken.entry.line.number) }
{
    let Spoken {
        line,
        behind,
        closed,
    } = spoken;
    match due {
        Due::End(_) => Ok(None),
        Due::Rule => match rule_in(line.text) {
            Some(_) => Ok(None),
            None => Ok(Some(fault_at(line, rule_finding(alloc, line.text, line.number == 1)?))),
        },
        Due::Replicas => match replicas_in(line.text) {
            Some(_) => Ok(None),
            None => Ok(Some(fault_at(line, replicas_finding(alloc, line.text)?))),
        },
        Due::Command if begins_with(Keyword::Pattern, line.text) => Ok(block_note(
            told, line, behind, closed,
        )),
        Due::Command => match command_in(alloc, line.text)? {
            Some(_) => Ok(None),
            None => Ok(Some(fault_at(line, command_finding(alloc, told.head, line.text)?))),
        },
    }
}

/// What is told of a line that opens a block, or should.
fn block_note(told: &Told, line: ScriptLine<'_>, behind: Lines<'_>, closed: bool) -> Option<Note>
    ensures { fault_lines (option_to_list result) ≡ if_faulty (is_none (opening_spelled (words line.entry.text.now)) || not closed) line.entry.number }
{
    if closed && opened_in(line.text).is_some() {
        return header_warning(told.rule?, behind);
    }
    let finding = opening_finding(line.text, almost_end(behind), closed);
    Some(fault_at(line, finding))
}

/// What is told of the end, at the line behind the last.
fn note_behind(due: Due, line: u64) -> Option<Note>
    ensures { fault_lines (option_to_list result) ≡ faulty_end due line }
{
    let reason = match due {
        Due::Rule => Reason::RuleDue,
        Due::Replicas => Reason::ReplicasDue,
        Due::Command | Due::End(_) => return None,
    };
    let place = Place {
        line,
        column: 1,
        width: 1,
    };
    Some(Note::Fault(place, reason))
}

fn fault_at(line: ScriptLine<'_>, finding: Finding) -> Note
    ensures note { result ≡ Fault (record { line = line.entry.number; column = finding.column; width = finding.width }) finding.reason }
    ensures lines { fault_lines (result ∷ []) ≡ line.entry.number ∷ [] }
{
    let place = Place {
        line: line.number,
        column: finding.column,
        width: finding.width,
    };
    Note::Fault(place, finding.reason)
}
