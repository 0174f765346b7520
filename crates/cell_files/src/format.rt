//! The format of a file.

ghost use Rattle.std.specs.Prelude.{◌≡◌, drop};
ghost use Rattle.cell_files.specs.Formats.{begins_as_document, format_of_kind};

use pattern_files::FileKind;

/// The format of a file, by its first bytes.
#[derive(Clone, Copy, Debug, PartialEq, Eq)]
pub enum CellFormat {
    /// A state, as a board sends it: it begins with `GLWS`.
    State,
    /// A document, as a board is kept in: its first record's body, behind 20 bytes, begins with `GLWD`.
    Document,
    /// Golly's tree of squares (its help, "File formats: Macrocell format"): `[M2]`.
    Macrocell,
    /// A file of MCell (Mirek's Cellebration): `#MCell`.
    MCell,
    /// Rows of `.` and `O` (the LifeWiki, "Plaintext"): `!`, or a first line that is such a row.
    Plaintext,
    /// Golly's RLE, and whatever is none of these.
    Rle,
}

impl CellFormat {
    ghost use Rattle.std.specs.Prelude.{◌≡◌};
    ghost use Rattle.cell_files.specs.Formats.{format_of};

    /// The format of a file.
    pub fn of(text: &[u8]) -> CellFormat
        ensures { result ≡ format_of text.now }
    {
        if text.starts_with(b"GLWS") {
            CellFormat::State
        } else if begins_as_document(text) {
            CellFormat::Document
        } else {
            format_of_kind(FileKind::of(text))
        }
    }
}

fn format_of_kind(kind: Option<FileKind>) -> CellFormat
    ensures { result ≡ format_of_kind kind }
{
    match kind {
        Some(FileKind::Macrocell) => CellFormat::Macrocell,
        Some(FileKind::MCell) => CellFormat::MCell,
        Some(FileKind::Plaintext) => CellFormat::Plaintext,
        _ => CellFormat::Rle,
    }
}

fn begins_as_document(text: &[u8]) -> bool
    ensures { result ≡ begins_as_document text.now }
{
    behind(text, 20).starts_with(b"GLWD")
}

/// What stands behind so many bytes.
fn behind(text: &[u8], count: usize) -> &[u8]
    ensures { result.now ≡ drop count text.now }
{
    &text[count.min(text.len())..]
}
