//! Commands behind the end of the server.

ghost use Rattle.macrocell_lines.specs.FileNames.{ends_with_mc};
ghost use Rattle.client_tasks.specs.Carrying.{IsCarriedOn, IsExportedNow};

use crate::carrying::{named, shown, tell_line, turned};
use crate::done::{Done, told, written};
use crate::printing::{helped, printed};
use client_commands::{ClientCommand, FileTarget};
use client_session::{Client, CommandFault};
use devices::{Sink, Source};
use macrocell_lines::is_macrocell_name;
use replica_core::{Cut, Question};
use std::time::Clock;

/// Does what a command asks for where the server went away: of what the replica holds, and nothing is said on
/// the line. A command that cannot be carried out so prints `no server`.
pub fn carry_on<C: Clock, S: Source + Drop, K: Sink + Drop>(
    client: &mut Client<'_, C, S, K>,
    command: ClientCommand,
) -> Result<Done, CommandFault>
    ensures { IsCarriedOn command client.old client.new result }
{
    match command {
        ClientCommand::Pattern(name, text) => named(client, name, &text),
        ClientCommand::Turn(turning) => turned(client, turning),
        ClientCommand::Show(x, y) => shown(client, x, y),
        ClientCommand::Count(generation) => told(client.tell_now(Question::Count(generation))),
        ClientCommand::Counts(range) => told(client.counts_now(range)),
        ClientCommand::Period(search) => told(client.period_now(search.first, search.most)),
        ClientCommand::Export(generation, None) => {
            told(client.tell_now(Question::Export(generation)))
        }
        ClientCommand::Export(generation, Some(file)) => exported_now(client, generation, file),
        ClientCommand::Film(film) => Ok(Done::Film(film)),
        ClientCommand::Cut(window, generation, None) => {
            told(client.tell_now(Question::Cut(Cut { window, generation })))
        }
        ClientCommand::Cut(window, generation, Some(file)) => {
            written(
                file,
                client.text_now(Question::Cut(Cut { window, generation })),
            )
        }
        ClientCommand::Save(None) => {
            let text = client.save_now();
            printed(client, text)
        }
        ClientCommand::Save(Some(file)) => written(file, client.save_now()),
        ClientCommand::Sleep(milliseconds) => Ok(Done::Sleep(milliseconds)),
        ClientCommand::Help => helped(client),
        ClientCommand::Bye => Ok(Done::Leave),
        ClientCommand::Draw(_)
        | ClientCommand::Copy(_)
        | ClientCommand::Or(_)
        | ClientCommand::Undo
        | ClientCommand::Redo
        | ClientCommand::Poll
        | ClientCommand::Wait(_)
        | ClientCommand::Open(_) => tell_line(client, b"no server\n"),
    }
}

/// Exports what the replica holds to a file: as a macrocell, where its name is that of one.
fn exported_now<C: Clock, S: Source + Drop, K: Sink + Drop>(
    client: &mut Client<'_, C, S, K>,
    generation: u32,
    file: FileTarget,
) -> Result<Done, CommandFault>
    ensures { IsExportedNow (ends_with_mc file.name) generation file client.old client.new result }
{
    if is_macrocell_name(file.name.as_bytes()) {
        written(file, client.macrocell_now(generation))
    } else {
        written(file, client.text_now(Question::Export(generation)))
    }
}
