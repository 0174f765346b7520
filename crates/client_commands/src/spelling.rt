//! What the words of a client's line ask for.

ghost use Rattle.std.specs.Prelude.{◌≡◌, IfOk, Some, true, option_map};
ghost use Rattle.text_scan.specs.Words.{words};
ghost use Rattle.replica_events.specs.declared.edit_spec.EditSpec.TheVariants.{Cells};
ghost use Rattle.command_words.specs.Quotes.{client_words};
ghost use Rattle.command_words.specs.Spelled.{spelled_of};
ghost use Rattle.command_words.specs.Values.{cells_spelled};
ghost use Rattle.client_commands.specs.declared.command.ClientCommand.TheVariants.{Cut, Draw};
ghost use Rattle.genedit_script.specs.Script.{window_of};
ghost use Rattle.client_commands.specs.Commands.{begins_script, client_command_asked, client_command_spelled, count_asked, export_asked, film_asked, period_search_of, placement_of, session_asked, target_of, wait_of};

use crate::command::{ClientCommand, FileName, FileTarget, PeriodSearch, Placement, Wait};
use crate::film::Film;
use command_words::{
    Dialect, GenerationRange, Keyword, Spelled, cells_in, is_film_name, read_line,
};
use genedit_script::{PatternName, area_of, turning_in, window_of};
use replica_events::{CellList, EditSpec};
use std::alloc::{AllocError, Global};
use text_scan::split_word;

/// How long is waited where a line does not say it.
const MILLISECONDS: u32 = 10_000;

/// The command of a line that stands in no block and opens none, unless it is none.
pub fn command_in(alloc: Global, line: &[u8]) -> Result<Option<ClientCommand>, AllocError>
    ensures { IfOk result (λ command. command ≡ client_command_spelled (client_words line.now)) }
{
    match read_line(Dialect::Client, line) {
        Some(spelled) => command_asked(alloc, &spelled),
        None => Ok(None),
    }
}

/// The command of what a line spells, unless it is none.
fn command_asked(alloc: Global, spelled: &Spelled<'_>) -> Result<Option<ClientCommand>, AllocError>
    ensures { IfOk result (λ command. command ≡ client_command_asked (spelled_of spelled.now)) }
{
    let command = match spelled.keyword {
        Keyword::Cells => return drawing_asked(alloc, spelled),
        Keyword::Clear => ClientCommand::Draw(EditSpec::Clear(area_of(spelled))),
        Keyword::Copy => ClientCommand::Copy(placement_of(alloc, spelled)?),
        Keyword::Or => ClientCommand::Or(placement_of(alloc, spelled)?),
        Keyword::Turn => return Ok(turning_in(alloc, spelled)?.map(ClientCommand::Turn)),
        Keyword::Undo => ClientCommand::Undo,
        Keyword::Redo => ClientCommand::Redo,
        Keyword::Show => ClientCommand::Show(spelled.x, spelled.y),
        _ => return session_asked(alloc, spelled),
    };
    Ok(Some(command))
}

/// The command that draws nothing, unless it is none.
fn session_asked(alloc: Global, spelled: &Spelled<'_>) -> Result<Option<ClientCommand>, AllocError>
    ensures { IfOk result (λ command. command ≡ session_asked (spelled_of spelled.now)) }
{
    match spelled.keyword {
        Keyword::Export => export_asked(alloc, spelled, false),
        Keyword::ExportOver => export_asked(alloc, spelled, true),
        Keyword::Cut => Ok(Some(cut_asked(alloc, spelled, false)?)),
        Keyword::CutOver => Ok(Some(cut_asked(alloc, spelled, true)?)),
        Keyword::Count => Ok(Some(count_asked(spelled))),
        Keyword::Period => Ok(Some(ClientCommand::Period(period_search_of(spelled)))),
        Keyword::Poll => Ok(Some(ClientCommand::Poll)),
        Keyword::Wait => Ok(Some(ClientCommand::Wait(wait_of(spelled)))),
        Keyword::Sleep => Ok(spelled.milliseconds.map(ClientCommand::Sleep)),
        Keyword::Save => Ok(Some(ClientCommand::Save(target_of(alloc, spelled, false)?))),
        Keyword::SaveOver => Ok(Some(ClientCommand::Save(target_of(alloc, spelled, true)?))),
        Keyword::Open => Ok(file_of(alloc, spelled)?.map(ClientCommand::Open)),
        Keyword::Help | Keyword::Question => Ok(Some(ClientCommand::Help)),
        Keyword::Bye | Keyword::Quit | Keyword::Exit => Ok(Some(ClientCommand::Bye)),
        _ => Ok(None),
    }
}

/// `export G [FILE]`, `export! G FILE`, and a range of generations in the place of one.
fn export_asked(
    alloc: Global,
    spelled: &Spelled<'_>,
    replaces: bool,
) -> Result<Option<ClientCommand>, AllocError>
    ensures { IfOk result (λ command. command ≡ export_asked replaces (spelled_of spelled.now)) }
{
    let file = target_of(alloc, spelled, replaces)?;
    match spelled.range {
        Some(range) => Ok(film_asked(range, file)),
        None => Ok(Some(ClientCommand::Export(spelled.generation, file))),
    }
}

/// The film of a range, if files are named that a film can have.
fn film_asked(range: GenerationRange, files: Option<FileTarget>) -> Option<ClientCommand>
    ensures { result ≡ film_asked range files }
{
    let files = files?;
    if is_film_name(files.name.as_bytes()) {
        Some(ClientCommand::Film(Film { range, files }))
    } else {
        None
    }
}

/// `cut X Y W H G [FILE]`, `cut! X Y W H G FILE`
fn cut_asked(
    alloc: Global,
    spelled: &Spelled<'_>,
    replaces: bool,
) -> Result<ClientCommand, AllocError>
    ensures { IfOk result (λ command. command ≡ Cut (window_of (spelled_of spelled.now)) spelled.now.generation (option_map (target_of replaces) (option_map (λ word. word.now) spelled.now.file))) }
{
    let file = target_of(alloc, spelled, replaces)?;
    Ok(ClientCommand::Cut(window_of(spelled), spelled.generation, file))
}

/// `cells x y state ..`
fn drawing_asked(alloc: Global, spelled: &Spelled<'_>) -> Result<Option<ClientCommand>, AllocError>
    ensures { IfOk result (λ command. command ≡ option_map (λ cells. Draw (Cells cells)) (cells_spelled (words spelled.now.behind.now))) }
{
    let Some(cells) = cells_in(alloc, spelled.behind)? else {
        return Ok(None);
    };
    let drawn = EditSpec::Cells(CellList::of_vec(cells));
    Ok(Some(ClientCommand::Draw(drawn)))
}

/// Which pattern is drawn, and where.
fn placement_of(alloc: Global, spelled: &Spelled<'_>) -> Result<Placement, AllocError>
    ensures { IfOk result (λ placement. placement ≡ placement_of (spelled_of spelled.now)) }
{
    Ok(Placement {
        name: PatternName::of(alloc, spelled.name)?,
        x: spelled.x,
        y: spelled.y,
    })
}

/// `count [G]`, `count G1..G2/STEP`
fn count_asked(spelled: &Spelled<'_>) -> ClientCommand
    ensures { result ≡ count_asked (spelled_of spelled.now) }
{
    match spelled.range {
        Some(range) => ClientCommand::Counts(range),
        None => ClientCommand::Count(spelled.generation),
    }
}

/// Which period is looked for.
fn period_search_of(spelled: &Spelled<'_>) -> PeriodSearch
    ensures { result ≡ period_search_of (spelled_of spelled.now) }
{
    PeriodSearch {
        first: spelled.generation,
        most: spelled.most,
    }
}

/// How many edits are waited for, and how long.
fn wait_of(spelled: &Spelled<'_>) -> Wait
    ensures { result ≡ wait_of (spelled_of spelled.now) }
{
    Wait {
        edits: spelled.edits,
        milliseconds: spelled.milliseconds.unwrap_or(MILLISECONDS),
    }
}

/// The file that is named, if one is.
fn file_of(alloc: Global, spelled: &Spelled<'_>) -> Result<Option<FileName>, AllocError>
    ensures { IfOk result (λ file. file ≡ option_map (λ word. word.now) spelled.now.file) }
{
    match spelled.file {
        Some(word) => Ok(Some(FileName::of(alloc, word)?)),
        None => Ok(None),
    }
}

/// The file that is written, if one is named.
fn target_of(
    alloc: Global,
    spelled: &Spelled<'_>,
    replaces: bool,
) -> Result<Option<FileTarget>, AllocError>
    ensures { IfOk result (λ file. file ≡ option_map (target_of replaces) (option_map (λ word. word.now) spelled.now.file)) }
{
    match spelled.file {
        Some(word) => {
            let name = FileName::of(alloc, word)?;
            Ok(Some(FileTarget { name, replaces }))
        }
        None => Ok(None),
    }
}

/// Whether a line begins as one of the two with which each script begins.
pub fn begins_script(line: &[u8]) -> bool
    ensures { result ≡ begins_script (words line.now) }
{
    match split_word(line) {
        Some((word, _)) => Keyword::Rule.is_named(word) || Keyword::Replicas.is_named(word),
        None => false,
    }
}
