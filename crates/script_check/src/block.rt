//! Where the fault of a pattern's text stands in its script.

ghost use Rattle.std.specs.Prelude.{◌≡◌};
ghost use Rattle.std.specs.List.{list_all};
ghost use Rattle.text_scan.specs.Bytes.{is_space_or_tab};
ghost use Rattle.genedit_script.specs.Script.{lines_from, opens_comment};
ghost use Rattle.script_check.specs.Block as block;

use genedit_script::{Lines, ScriptLine};
use script_faults::Place;

/// The number of `Header` in the table of faults.
const HEADER: u8 = 4;

/// Where the refusal of a command stands: at a byte of its block, at the line that should be the
/// block's header, or at the command itself.
pub fn fault_place(script: Lines<'_>, command: Place, number: u8, at: Option<u64>) -> Place
    ensures { result ≡ block.fault_place (lines_from script.entry.number script.entry.rest.now) command number at }
{
    let block = behind(script, command.line);
    let found = match at {
        Some(at) => place_in_block(block, at),
        None if number == HEADER => header_place(block),
        None => None,
    };
    found.unwrap_or(command)
}

/// The lines behind one of this number.
fn behind(mut script: Lines<'_>, number: u64) -> Lines<'_>
    ensures { lines_from result.number result.rest.now ≡ block.lines_behind number (lines_from script.entry.number script.entry.rest.now) }
{
    while script.number <= number {
        let Some(_) = script.next_line() else {
            return script;
        };
    }
    script
}

/// The byte of a block's text, in which each line has one line feed behind it.
fn place_in_block(mut lines: Lines<'_>, at: u64) -> Option<Place>
    ensures { result ≡ block.byte_among at (lines_from lines.entry.number lines.entry.rest.now) }
{
    let mut left = at;
    while let Some(line) = lines.next_line() {
        let length = line.text.len() as u64;
        if left <= length {
            return Some(Place {
                line: line.number,
                column: (left as usize).saturating_add(1),
                width: 1,
            });
        }
        left -= length + 1;
    }
    None
}

/// The first line that is neither a comment nor blank, unless that is the block's end.
fn header_place(mut lines: Lines<'_>) -> Option<Place>
    ensures { result ≡ block.header_among (lines_from lines.entry.number lines.entry.rest.now) }
{
    while let Some(line) = lines.next_line() {
        if !may_stand_in_front(line) {
            let place = Place {
                line: line.number,
                column: 1,
                width: line.text.len().max(1),
            };
            return if line.text == b"end".as_slice() {
                None
            } else {
                Some(place)
            };
        }
    }
    None
}

fn may_stand_in_front(line: ScriptLine<'_>) -> bool
    ensures { result ≡ block.stands_in_front line.entry.text.now }
{
    is_comment(line.text) || is_blank(line.text)
}

fn is_comment(text: &[u8]) -> bool
    ensures { result ≡ opens_comment text.now }
{
    text.first() == Some(&b'#')
}

fn is_blank(text: &[u8]) -> bool
    ensures { result ≡ list_all is_space_or_tab text.now }
{
    text.iter().all(|byte| *byte == b' ' || *byte == b'\t')
}
