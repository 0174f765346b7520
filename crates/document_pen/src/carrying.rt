//! Commands.

ghost use Rattle.std.specs.Prelude.{◌≡◌};
ghost use Rattle.macrocell_lines.specs.FileNames.{ends_with_mc};
ghost use Rattle.document_pen.specs.Carrying.{IsCarriedOut, IsExported, cut_of};

use crate::done::{Done, told, written};
use crate::fault::PenFault;
use crate::naming::PasteMode;
use crate::pen::Pen;
use client_commands::{ClientCommand, FileTarget};
use drawing_history::Way;
use kept_devices::Keep;
use macrocell_lines::is_macrocell_name;
use pattern_cells::Window;
use replica_core::{Cut, Question};

/// Does what a command asks for in a document, and answers what is left to do. Nothing is done of a command
/// that is of a board which is served: `poll`, `wait` and `save`.
pub fn carry_out<K: Keep>(pen: &mut Pen<K>, command: ClientCommand) -> Result<Done, PenFault>
    ensures { IsCarriedOut command pen.old pen.new result }
{
    match command {
        ClientCommand::Draw(spec) => told(pen.draw(0, &spec)),
        ClientCommand::Pattern(name, text) => told(pen.name_pattern(name, &text)),
        ClientCommand::Turn(turning) => told(pen.turn_pattern(turning)),
        ClientCommand::Copy(placed) => told(pen.paste(PasteMode::Copy, &placed)),
        ClientCommand::Or(placed) => told(pen.paste(PasteMode::Or, &placed)),
        ClientCommand::Show(x, y) => told(pen.show(x, y)),
        ClientCommand::Count(generation) => told(pen.tell(Question::Count(generation))),
        ClientCommand::Counts(range) => told(pen.counts(range)),
        ClientCommand::Period(search) => told(pen.period(search.first, search.most)),
        ClientCommand::Export(generation, None) => told(pen.tell(Question::Export(generation))),
        ClientCommand::Export(generation, Some(file)) => exported(pen, generation, file),
        ClientCommand::Film(film) => Ok(Done::Film(film)),
        ClientCommand::Cut(window, generation, None) => told(pen.tell(cut_of(window, generation))),
        ClientCommand::Cut(window, generation, Some(file)) => {
            written(file, pen.text(cut_of(window, generation)))
        }
        ClientCommand::Undo => told(pen.take_back(Way::Undo)),
        ClientCommand::Redo => told(pen.take_back(Way::Redo)),
        ClientCommand::Open(file) => Ok(Done::Open(file)),
        ClientCommand::Sleep(milliseconds) => Ok(Done::Sleep(milliseconds)),
        ClientCommand::Help => told(pen.help()),
        ClientCommand::Bye => Ok(Done::Leave),
        ClientCommand::Poll | ClientCommand::Wait(_) | ClientCommand::Save(_) => Ok(Done::OfBoards),
    }
}

/// Exports to a file: as a macrocell, where its name is that of one.
fn exported<K: Keep>(pen: &mut Pen<K>, generation: u32, file: FileTarget) -> Result<Done, PenFault>
    ensures { IsExported (ends_with_mc file.name) generation file pen.old pen.new result }
{
    if is_macrocell_name(file.name.as_bytes()) {
        written(file, pen.macrocell(generation))
    } else {
        written(file, pen.text(Question::Export(generation)))
    }
}

/// What is asked for a cut.
fn cut_of(window: Window, generation: u32) -> Question
    ensures { result ≡ cut_of window generation }
{
    Question::Cut(Cut { window, generation })
}
