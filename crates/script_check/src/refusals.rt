//! What would be refused when a script is run.

ghost use Rattle.std.specs.Prelude.{◌≡◌, ◌⊎◌, ◌∷◌, ◌++◌, [], ℕ, List, IfOk, IfErr, OnOk, MatchOption, map};
ghost use Rattle.std.specs.Option.{option_to_list};
ghost use Rattle.genedit_lib.specs.Output.{OutputLine};
ghost use Rattle.genedit_script.specs.Script.{lines_from};
ghost use Rattle.script_faults.specs.declared.note.Place.{Place};
ghost use Rattle.text_scan.specs.Words.{words};
ghost use Rattle.genedit_io.specs.RunFault.{IsWant};
ghost use Rattle.genedit_lib.specs.Plan.{line_of};
ghost use Rattle.genedit_lib.specs.Run.{IsUnprinted, run_fault_of, run_fault_of_stop, script_events, script_opening};
ghost use Rattle.replica_core.specs.World.{IsStopOf};
ghost use Rattle.square_store.specs.Limits.{usual_room};
ghost use Rattle.script_check.specs.Check.{AreRefusedOf, IsRefusedRun, number_first, number_third, own_refusal, refusal_in_reply, refusals_among};

use crate::block::fault_place;
use genedit_io::RunFault;
use genedit_lib::{PlannedLine, planned};
use genedit_script::{Lines, Script, ScriptFault, read_script};
use replica_core::{Reply, Stop, replay_within};
use script_faults::{Place, command_places};
use square_store::ROOM;
use std::alloc::{AllocError, Global};
use text_scan::{number, split_word};

/// A command that would be refused.
#[derive(Clone, Copy, Debug, PartialEq, Eq)]
pub struct Refusal {
    /// The line of the command, counted from 1.
    pub command: u64,
    /// Where it is told: at the command, or at the fault in a pattern's text.
    pub place: Place,
    /// The number of the refusal in the table of faults.
    pub number: u8,
}

/// The commands of a script that would be refused when it is run, in their order.
///
/// `RunFault::Script` comes only where the text is no script, `RunFault::StoreFull` where its run would
/// end with it.
pub fn refusals_in(alloc: Global, text: &[u8]) -> Result<Vec<Refusal>, RunFault>
    ensures refused { IfOk result (λ refusals. IsRefusedRun text.now refusals.items) }
    ensures fault { IfErr result (λ fault. IsUnprinted usual_room text.now fault ⊎ IsWant fault) }
{
    let places = command_places(alloc, text)?;
    let script = read_script(alloc, text).map_err(fault_of_script)?;
    let refusals = script_refusals(alloc, Lines::of(text), &places, script).map_err(fault_of_stop)?;
    Ok(refusals)
}

/// The commands, at these places, that are refused.
fn script_refusals(
    alloc: Global,
    lines: Lines<'_>,
    places: &[Place],
    script: Script,
) -> Result<Vec<Refusal>, Stop>
    ensures refused { IfOk result (λ refusals. AreRefusedOf script (lines_from lines.entry.number lines.entry.rest.now) places.now refusals.items) }
    ensures stopped { IfErr result (IsStopOf usual_room (script_opening script) (script_events script)) }
{
    let (rule, replicas) = (script.rule(), script.replicas());
    let plan = planned(alloc, script.into_commands())?;
    let (_world, replies) = replay_within(alloc, rule, replicas, ROOM, &plan.events)?;
    let refusals = refused(alloc, lines, places, &plan.lines, &replies)?;
    Ok(refusals)
}

/// Which commands are refused, by the line and the reply of each.
fn refused<'a>(
    alloc: Global,
    script: Lines<'_>,
    mut places: &'a [Place],
    mut lines: &'a [PlannedLine],
    mut replies: &'a [Reply],
) -> Result<Vec<Refusal>, AllocError>
    ensures { IfOk result (λ refusals. refusals.items
        ≡ refusals_among (lines_from script.entry.number script.entry.rest.now) places.entry.now (map line_of lines.entry.now) replies.entry.now) }
{
    let mut refusals = Vec::new(alloc);
    while let Some((place, more_places)) = places.split_first() {
        let Some((line, more_lines)) = lines.split_first() else {
            return Ok(refusals);
        };
        let Some((refusal, more_replies)) = refusal_at(script, *place, line, replies) else {
            return Ok(refusals);
        };
        push_told(&mut refusals, refusal)?;
        places = more_places;
        lines = more_lines;
        replies = more_replies;
    }
    Ok(refusals)
}

/// Whether a command is refused, by its line and the next reply, and the replies behind; `None` where its
/// reply is missing.
fn refusal_at<'a>(
    script: Lines<'_>,
    place: Place,
    line: &PlannedLine,
    replies: &'a [Reply],
) -> Option<(Option<Refusal>, &'a [Reply])>
    ensures { (places : List Place) → (lines : List OutputLine) → MatchOption result
        (refusals_among (lines_from script.entry.number script.entry.rest.now) (place ∷ places) (line_of line.now ∷ lines) replies.now ≡ [])
        (λ found. refusals_among (lines_from script.entry.number script.entry.rest.now) (place ∷ places) (line_of line.now ∷ lines) replies.now
        ≡ option_to_list found.0 ++ refusals_among (lines_from script.entry.number script.entry.rest.now) places lines found.1.now) }
{
    match line {
        PlannedLine::Own(text) => Some((text_refusal(script, place, text.as_slice()), replies)),
        PlannedLine::Reply => {
            let (reply, rest) = replies.split_first()?;
            Some((reply_refusal(place, reply), rest))
        }
    }
}

fn push_told(refusals: &mut Vec<Refusal>, refusal: Option<Refusal>) -> Result<(), AllocError>
    ensures { OnOk result (refusals.new.items ≡ refusals.old.items ++ option_to_list refusal) }
{
    if let Some(refusal) = refusal {
        refusals.push(refusal)?;
    }
    Ok(())
}

/// The refusal that a line of a command's own is: `refused NUMBER NAME`, with the place in its block
/// where there is one.
fn text_refusal(script: Lines<'_>, place: Place, text: &[u8]) -> Option<Refusal>
    ensures { result ≡ own_refusal (lines_from script.entry.number script.entry.rest.now) place (words text.now) }
{
    let (first, rest) = split_word(text)?;
    if first != b"refused".as_slice() {
        return None;
    }
    let number = first_number(rest);
    Some(Refusal {
        command: place.line,
        place: fault_place(script, place, number, third_number(rest)),
        number,
    })
}

/// The number of a refusal, from the words behind `refused`; 0 where there is none.
fn first_number(text: &[u8]) -> u8
    ensures { result ≡ number_first (words text.now) }
{
    match split_word(text) {
        Some((word, _)) => number(255, word).map_or(0, |found| found as u8),
        None => 0,
    }
}

/// The place of a refusal, where there is one: it stands behind the number and the name.
fn third_number(text: &[u8]) -> Option<u64>
    ensures { result ≡ number_third (words text.now) }
{
    let (_number, rest) = split_word(text)?;
    let (_name, rest) = split_word(rest)?;
    let (place, _) = split_word(rest)?;
    number(u64::MAX, place)
}

fn reply_refusal(place: Place, reply: &Reply) -> Option<Refusal>
    ensures { result ≡ refusal_in_reply place reply.now }
{
    match reply {
        Reply::Refused(fault) => Some(Refusal {
            command: place.line,
            place,
            number: fault.number(),
        }),
        _ => None,
    }
}

fn fault_of_script(fault: ScriptFault) -> RunFault
    ensures { result ≡ run_fault_of fault }
{
    match fault {
        ScriptFault::Line(line) => RunFault::Script(line),
        ScriptFault::Memory => RunFault::Memory,
    }
}

fn fault_of_stop(stop: Stop) -> RunFault
    ensures { result ≡ run_fault_of_stop stop }
{
    match stop {
        Stop::Memory => RunFault::Memory,
        Stop::StoreFull => RunFault::StoreFull,
    }
}
