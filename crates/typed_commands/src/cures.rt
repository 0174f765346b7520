//! What would be right in the place of a command that was refused.

ghost use Rattle.std.specs.Prelude.{◌≡◌};
ghost use Rattle.typed_commands.specs.Cures.{is_form, is_mistake, is_read_as_rle, unread_kind};
ghost use Rattle.cell_files.specs.Formats.{format_of};

use crate::files::{FileFault, read_whole};
use crate::population::cells_told;
use crate::refusals::refused_number;
use cell_files::CellFormat;
use client_commands::{ClientCommand, FileName};
use generations_rule::Rule;
use pattern_files::FileKind;
use replica_events::EditSpec;
use script_faults::Refused;
use std::alloc::{AllocError, Global};
use std::rt::Files;

/// The refusal of more cells than may be drawn at once.
const TOO_MANY: u8 = 8;

/// What a command is about, as far as the cure of a refusal wants to know it.
#[derive(Drop)]
pub enum About {
    /// So many cells are drawn.
    Cells(u64),
    /// The text of a pattern that tells so many cells, and what it is where it is no RLE.
    Block(u64, Option<FileKind>),
    /// What a file holds is drawn.
    File(FileName),
    /// How many cells there are is not known, or is at no fault.
    Nothing,
}

impl About {
    /// What a command is about; nothing where memory is wanting for that.
    pub fn of(alloc: Global, command: &ClientCommand) -> About {
        match command {
            ClientCommand::Draw(EditSpec::Cells(cells)) => {
                About::Cells(cells.as_slice().len() as u64)
            }
            ClientCommand::Pattern(_, text) => {
                let text = text.as_slice();
                About::Block(cells_told(text), FileKind::of(text))
            }
            ClientCommand::Open(file) => match FileName::of(alloc, file.as_bytes()) {
                Ok(file) => About::File(file),
                Err(_) => About::Nothing,
            },
            _ => About::Nothing,
        }
    }
}

/// Whether a refusal, by its number, is of what the command says.
fn is_mistake(number: u8) -> bool
    ensures { result ≡ is_mistake number }
{
    matches!(number, 4..=11 | 22..=27 | 38)
}

/// Whether a refusal, by its number, is of the form of a text.
fn is_form(number: u8) -> bool
    ensures { result ≡ is_form number }
{
    matches!(number, 4..=7)
}

/// Whether a file is read as RLE, whatever it is.
fn is_read_as_rle(text: &[u8]) -> bool
    ensures { result ≡ is_read_as_rle (format_of text.now) }
{
    !matches!(
        CellFormat::of(text),
        CellFormat::MCell | CellFormat::Plaintext | CellFormat::Macrocell
    )
}

/// What a file is, where it is none that `open` reads.
fn unread_kind(text: &[u8]) -> Option<FileKind>
    ensures { result ≡ unread_kind text.now }
{
    if is_read_as_rle(text) {
        FileKind::of(text)
    } else {
        None
    }
}

/// How many cells that are not dead a file tells, where that is known: where it is read as RLE.
fn cells_of_file(text: &[u8]) -> Option<u64> {
    if is_read_as_rle(text) {
        Some(cells_told(text))
    } else {
        None
    }
}

/// What would be right in the place of what a command asked for, where it was refused for what it says, by what was
/// printed of it under a rule; nothing where it was not.
pub fn cure<R: Files>(
    rt: &R,
    alloc: Global,
    printed: &[u8],
    rule: &Rule,
    about: &About,
) -> Result<Option<String>, AllocError> {
    let Some(number) = refused_number(printed) else {
        return Ok(None);
    };
    if !is_mistake(number) {
        return Ok(None);
    }
    if is_form(number)
        && let Some(cure) = other_kind(rt, alloc, about)?
    {
        return Ok(Some(cure));
    }
    let refused = Refused {
        number,
        states: Some(rule.states()),
        replicas: None,
        cells: cells_of(rt, alloc, number, about)?,
    };
    let cure = refused.cure(alloc)?;
    Ok(Some(cure))
}

/// What the file or the pattern's text is, and what to do with it, where it is none that is read.
fn other_kind<R: Files>(
    rt: &R,
    alloc: Global,
    about: &About,
) -> Result<Option<String>, AllocError> {
    let (what, kind) = match about {
        About::File(file) => match text_of(rt, alloc, file)? {
            Some(text) => ("file", unread_kind(&text)),
            None => return Ok(None),
        },
        About::Block(_, kind) => ("block", *kind),
        About::Cells(_) | About::Nothing => return Ok(None),
    };
    let Some(kind) = kind else {
        return Ok(None);
    };
    let kind = kind.text();
    let told = format!(in alloc; "the {what} {kind}")?;
    Ok(Some(told))
}

/// How many cells are drawn, where they are too many and their number is known.
fn cells_of<R: Files>(
    rt: &R,
    alloc: Global,
    number: u8,
    about: &About,
) -> Result<Option<u64>, AllocError> {
    if number != TOO_MANY {
        return Ok(None);
    }
    match about {
        About::Cells(cells) | About::Block(cells, _) => Ok(Some(*cells)),
        About::File(file) => match text_of(rt, alloc, file)? {
            Some(text) => Ok(cells_of_file(&text)),
            None => Ok(None),
        },
        About::Nothing => Ok(None),
    }
}

/// What a file holds, if it can still be read.
fn text_of<R: Files>(
    rt: &R,
    alloc: Global,
    file: &FileName,
) -> Result<Option<Vec<u8>>, AllocError> {
    match read_whole(rt, alloc, file) {
        Ok(text) => Ok(Some(text)),
        Err(FileFault::Refused(_)) => Ok(None),
        Err(FileFault::Memory) => Err(AllocError),
    }
}
