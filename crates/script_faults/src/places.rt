//! Where the commands of a script stand.

ghost use Rattle.std.specs.Prelude.{◌≡◌, IfOk, map};
ghost use Rattle.script_faults.specs.Faults.{command_lines};

use crate::due::{Due, Ends, opens_closed};
use crate::note::Place;
use crate::word::Words;
use command_words::Dialect;
use genedit_script::{Lines, ScriptLine};
use std::alloc::{AllocError, Global};

/// The first words of a script's commands, `pattern` among them, in their order.
pub fn command_places(alloc: Global, script: &[u8]) -> Result<Vec<Place>, AllocError>
    ensures { IfOk result (λ places. map (λ place. place.line) places.items ≡ command_lines script.now) }
{
    let mut places = Vec::new(alloc);
    let mut lines = Lines::of(script);
    let mut due = Due::Rule;
    let mut ends = Ends { none: false };
    while let Some(line) = lines.next_line() {
        if !due.passes(line.text) {
            let closed = opens_closed(due, line.text, lines, &mut ends);
            if due == Due::Command {
                places.push(first_word(line))?;
            }
            due = due.behind(line.text, closed);
        }
    }
    Ok(places)
}

/// Where the first word of a line stands.
fn first_word(line: ScriptLine<'_>) -> Place
    ensures { result.line ≡ line.entry.number }
{
    match Words::of(Dialect::Script, line.text).next_word() {
        Some(word) => Place {
            line: line.number,
            column: word.column,
            width: word.text.len().max(1),
        },
        None => Place {
            line: line.number,
            column: 1,
            width: 1,
        },
    }
}
