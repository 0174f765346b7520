//! Commands.

ghost use Rattle.client_session.specs.Moment.{IsPrinted};
ghost use Rattle.macrocell_lines.specs.FileNames.{ends_with_mc};
ghost use Rattle.client_tasks.specs.Carrying.{IsCarriedOut, IsExported, IsNaming, IsShowing, IsTurning};
ghost use Rattle.client_tasks.specs.declared.done.Done.TheVariants.{Told};

use crate::done::{Done, drawn, told, written};
use crate::printing::{helped, printed};
use crate::undoing::taken_back;
use crate::whole::{draw_whole, paste_whole};
use client_commands::{ClientCommand, FileTarget, Wait};
use client_session::{Client, CommandFault, PasteMode, Patience};
use devices::{Sink, Source};
use drawing_history::Way;
use genedit_script::{PatternName, PatternText, Turning};
use macrocell_lines::is_macrocell_name;
use replica_core::{Cut, Question};
use std::time::Clock;

/// Does what a command asks for at the board, and answers what is left to do. A wait lets so many
/// milliseconds pass between two polls.
pub fn carry_out<C: Clock, S: Source + Drop, K: Sink + Drop>(
    client: &mut Client<'_, C, S, K>,
    command: ClientCommand,
    interval: u32,
) -> Result<Done, CommandFault>
    ensures { IsCarriedOut command client.old client.new result }
{
    match command {
        ClientCommand::Draw(spec) => drawn(draw_whole(client, &spec)),
        ClientCommand::Pattern(name, text) => named(client, name, &text),
        ClientCommand::Turn(turning) => turned(client, turning),
        ClientCommand::Copy(placed) => drawn(paste_whole(client, PasteMode::Copy, &placed)),
        ClientCommand::Or(placed) => drawn(paste_whole(client, PasteMode::Or, &placed)),
        ClientCommand::Show(x, y) => shown(client, x, y),
        ClientCommand::Count(generation) => told(client.tell(Question::Count(generation))),
        ClientCommand::Counts(range) => told(client.counts(range)),
        ClientCommand::Period(search) => told(client.period(search.first, search.most)),
        ClientCommand::Export(generation, None) => told(client.tell(Question::Export(generation))),
        ClientCommand::Export(generation, Some(file)) => exported(client, generation, file),
        ClientCommand::Film(film) => Ok(Done::Film(film)),
        ClientCommand::Cut(window, generation, None) => {
            told(client.tell(Question::Cut(Cut { window, generation })))
        }
        ClientCommand::Cut(window, generation, Some(file)) => {
            written(file, client.text(Question::Cut(Cut { window, generation })))
        }
        ClientCommand::Save(None) => {
            let text = client.save();
            printed(client, text)
        }
        ClientCommand::Save(Some(file)) => written(file, client.save()),
        ClientCommand::Undo => drawn(taken_back(client, Way::Undo)),
        ClientCommand::Redo => drawn(taken_back(client, Way::Redo)),
        ClientCommand::Poll => told(client.poll()),
        ClientCommand::Wait(wait) => told(client.wait(wait.edits, patience_of(wait, interval))),
        ClientCommand::Sleep(milliseconds) => Ok(Done::Sleep(milliseconds)),
        ClientCommand::Open(file) => Ok(Done::Open(file)),
        ClientCommand::Help => helped(client),
        ClientCommand::Bye => Ok(Done::Leave),
    }
}

/// Exports to a file: as a macrocell, where its name is that of one.
fn exported<C: Clock, S: Source + Drop, K: Sink + Drop>(
    client: &mut Client<'_, C, S, K>,
    generation: u32,
    file: FileTarget,
) -> Result<Done, CommandFault>
    ensures { IsExported (ends_with_mc file.name) generation file client.old client.new result }
{
    if is_macrocell_name(file.name.as_bytes()) {
        written(file, client.macrocell(generation))
    } else {
        written(file, client.text(Question::Export(generation)))
    }
}

/// Prints a line.
pub(crate) fn tell_line<C: Clock, S: Source + Drop, K: Sink + Drop>(
    client: &mut Client<'_, C, S, K>,
    line: &[u8],
) -> Result<Done, CommandFault>
    ensures { IsPrinted Told line.now client.old client.new result }
{
    client.print(line)?;
    Ok(Done::Told)
}

fn patience_of(wait: Wait, interval: u32) -> Patience {
    Patience {
        milliseconds: wait.milliseconds,
        interval,
    }
}

/// Gives a pattern a name.
pub(crate) fn named<C: Clock, S: Source + Drop, K: Sink + Drop>(
    client: &mut Client<'_, C, S, K>,
    name: PatternName,
    text: &PatternText,
) -> Result<Done, CommandFault>
    ensures { IsNaming name text.now client.old client.new result }
{
    match client.name_pattern(name, text) {
        Ok(()) => Ok(Done::Told),
        Err(_) => Err(CommandFault::Memory),
    }
}

/// Gives a name to a pattern that is turned.
pub(crate) fn turned<C: Clock, S: Source + Drop, K: Sink + Drop>(
    client: &mut Client<'_, C, S, K>,
    turning: Turning,
) -> Result<Done, CommandFault>
    ensures { IsTurning turning client.old client.new result }
{
    match client.turn_pattern(turning) {
        Ok(()) => Ok(Done::Told),
        Err(_) => Err(CommandFault::Memory),
    }
}

/// Shows a cell.
pub(crate) fn shown<C: Clock, S: Source + Drop, K: Sink + Drop>(
    client: &mut Client<'_, C, S, K>,
    x: i32,
    y: i32,
) -> Result<Done, CommandFault>
    ensures { IsShowing x y client.old client.new result }
{
    match client.show(x, y) {
        Ok(()) => Ok(Done::Told),
        Err(_) => Err(CommandFault::Memory),
    }
}
