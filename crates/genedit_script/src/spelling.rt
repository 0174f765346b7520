//! What the words of a line ask for.

ghost use Rattle.std.specs.Prelude.{◌≡◌, IfOk, option_map};
ghost use Rattle.text_scan.specs.Words.{words};
ghost use Rattle.replica_events.specs.declared.event.Event.TheVariants.{Draw};
ghost use Rattle.replica_events.specs.declared.edit_spec.EditSpec.TheVariants.{Cells};
ghost use Rattle.command_words.specs.Spelled.{spelled_of};
ghost use Rattle.command_words.specs.Values.{cells_spelled};
ghost use Rattle.genedit_script.specs.Script.{area_of, command_asked, command_spelled, event_asked, opening_spelled, paste_of, replicas_spelled, rule_spelled, turning_asked, window_of};

use crate::command::{Command, Paste, PatternName, Turning};
use command_words::{Dialect, Keyword, Spelled, cells_in, read_line};
use edit_stamps::Rect;
use generations_rule::Rule;
use pattern_cells::Window;
use replica_events::{CellList, EditSpec, Event};
use std::alloc::{AllocError, Global};

/// `rule TEXT`
pub fn rule_in(line: &[u8]) -> Option<Rule>
    ensures { result ≡ rule_spelled (words line.now) }
{
    let spelled = read_line(Dialect::Script, line)?;
    match spelled.keyword {
        Keyword::Rule => Rule::parse(spelled.rule).ok(),
        _ => None,
    }
}

/// `replicas N`
pub fn replicas_in(line: &[u8]) -> Option<u16>
    ensures { result ≡ replicas_spelled (words line.now) }
{
    let spelled = read_line(Dialect::Script, line)?;
    match spelled.keyword {
        Keyword::Replicas => Some(spelled.replicas),
        _ => None,
    }
}

/// `pattern NAME`: the name.
pub fn opened_in(line: &[u8]) -> Option<&[u8]>
    ensures { option_map (λ name. name.now) result ≡ opening_spelled (words line.now) }
{
    let spelled = read_line(Dialect::Script, line)?;
    match spelled.keyword {
        Keyword::Pattern => Some(spelled.name),
        _ => None,
    }
}

/// The command of a line, unless it is none.
pub fn command_in(alloc: Global, line: &[u8]) -> Result<Option<Command>, AllocError>
    ensures { IfOk result (λ command. command ≡ command_spelled (words line.now)) }
{
    match read_line(Dialect::Script, line) {
        Some(spelled) => command_asked(alloc, &spelled),
        None => Ok(None),
    }
}

/// The command of what a line spells, unless it is none.
fn command_asked(alloc: Global, spelled: &Spelled<'_>) -> Result<Option<Command>, AllocError>
    ensures { IfOk result (λ command. command ≡ command_asked (spelled_of spelled.now)) }
{
    match spelled.keyword {
        Keyword::Copy => Ok(Some(Command::Copies(paste_of(alloc, spelled)?))),
        Keyword::Or => Ok(Some(Command::Ors(paste_of(alloc, spelled)?))),
        Keyword::Turn => Ok(turning_in(alloc, spelled)?.map(Command::Turns)),
        _ => {
            let event = event_asked(alloc, spelled)?;
            Ok(event.map(Command::Does))
        }
    }
}

/// What happens where a line spells this, unless it is no such command.
fn event_asked(alloc: Global, spelled: &Spelled<'_>) -> Result<Option<Event>, AllocError>
    ensures { IfOk result (λ event. event ≡ event_asked (spelled_of spelled.now)) }
{
    let replica = spelled.replica;
    let event = match spelled.keyword {
        Keyword::Cells => return drawing_asked(alloc, spelled),
        Keyword::Clear => Event::Draw(replica, EditSpec::Clear(area_of(spelled))),
        Keyword::State => Event::SendState(replica),
        Keyword::Delta => Event::SendDelta(replica, spelled.from, spelled.count),
        Keyword::Deliver => Event::Deliver(u64::from(spelled.message), replica),
        Keyword::Show => Event::Show(replica, spelled.x, spelled.y),
        Keyword::Same => Event::Same(replica, spelled.other_replica),
        Keyword::Dump => Event::Dump(u64::from(spelled.message)),
        Keyword::Export => Event::Export(replica, spelled.generation),
        Keyword::Cut => Event::Cut(replica, window_of(spelled), spelled.generation),
        Keyword::Count => Event::Count(replica, spelled.generation),
        _ => return Ok(None),
    };
    Ok(Some(event))
}

/// `cells R x y state ..`
fn drawing_asked(alloc: Global, spelled: &Spelled<'_>) -> Result<Option<Event>, AllocError>
    ensures { IfOk result (λ event. event ≡ option_map (λ cells. Draw spelled.now.replica (Cells cells)) (cells_spelled (words spelled.now.behind.now))) }
{
    let Some(cells) = cells_in(alloc, spelled.behind)? else {
        return Ok(None);
    };
    let drawn = EditSpec::Cells(CellList::of_vec(cells));
    Ok(Some(Event::Draw(spelled.replica, drawn)))
}

/// The area that a line tells: its corner, its width and its height.
pub fn area_of(spelled: &Spelled<'_>) -> Rect
    ensures { result ≡ area_of (spelled_of spelled.now) }
{
    Rect {
        x: spelled.x,
        y: spelled.y,
        width: spelled.width,
        height: spelled.height,
    }
}

/// The window that a line tells: its corner, its width and its height.
pub fn window_of(spelled: &Spelled<'_>) -> Window
    ensures { result ≡ window_of (spelled_of spelled.now) }
{
    Window {
        x: spelled.x,
        y: spelled.y,
        width: spelled.width,
        height: spelled.height,
    }
}

/// Who pastes which pattern, and where.
fn paste_of(alloc: Global, spelled: &Spelled<'_>) -> Result<Paste, AllocError>
    ensures { IfOk result (λ paste. paste ≡ paste_of (spelled_of spelled.now)) }
{
    Ok(Paste {
        replica: spelled.replica,
        name: PatternName::of(alloc, spelled.name)?,
        x: spelled.x,
        y: spelled.y,
    })
}

/// Which pattern is turned, and how, where a line tells a turn.
pub fn turning_in(alloc: Global, spelled: &Spelled<'_>) -> Result<Option<Turning>, AllocError>
    ensures { IfOk result (λ turning. turning ≡ turning_asked (spelled_of spelled.now)) }
{
    let Some(turn) = spelled.turn else {
        return Ok(None);
    };
    Ok(Some(Turning {
        name: PatternName::of(alloc, spelled.name)?,
        new_name: PatternName::of(alloc, spelled.new_name)?,
        turn,
    }))
}
