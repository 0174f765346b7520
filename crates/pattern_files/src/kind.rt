//! Kinds of files, each by the bytes that it begins with.

ghost use Rattle.std.specs.Prelude.{◌≡◌};
ghost use Rattle.std.specs.List.{list_all};
ghost use Rattle.pattern_files.specs.Kinds.{first_line, is_cell_mark, is_row};

use text_scan::line_len;

/// A file that people have where an RLE text is due.
#[derive(Clone, Copy, Debug, PartialEq, Eq)]
pub enum FileKind {
    /// Text in two bytes a letter, as some editors save it.
    Utf16,
    /// Text in UTF-8 with a byte order mark in front.
    ByteOrderMark,
    /// A file that `gzip` packed, as Golly does for `.rle.gz` and `.mc.gz`.
    Gzip,
    /// An archive of files, as collections come.
    Zip,
    /// Golly's tree of squares, `.mc` (its help, "File formats").
    Macrocell,
    /// Blocks of dots and stars, `.lif`.
    Life105,
    /// A list of coordinates, `.lif`.
    Life106,
    /// A file of MCell (Mirek's Cellebration), `.mcl`.
    MCell,
    /// A page of the web, as it comes where a link leads to a page about a pattern.
    WebPage,
    /// Rows of `.` and `O`, `.cells` (the LifeWiki's plaintext format).
    Plaintext,
}

/// All kinds; of those that a file may be, the first is told.
static KINDS: [FileKind; 10] = [
    FileKind::Utf16,
    FileKind::ByteOrderMark,
    FileKind::Gzip,
    FileKind::Zip,
    FileKind::Macrocell,
    FileKind::Life105,
    FileKind::Life106,
    FileKind::MCell,
    FileKind::WebPage,
    FileKind::Plaintext,
];

impl FileKind {
    ghost use Rattle.std.specs.Prelude.{◌≡◌};
    ghost use Rattle.pattern_files.specs.Kinds.{is_begun, kind_of, kind_text};

    /// What a file is, by its bytes. An RLE text is none of these.
    pub fn of(text: &[u8]) -> Option<FileKind>
        ensures { result ≡ kind_of text.now }
    {
        KINDS.iter().copied().find(|kind| kind.is_begun(text))
    }

    /// Whether a file begins as one of this kind.
    pub fn is_begun(self, text: &[u8]) -> bool
        ensures { result ≡ is_begun self text.now }
    {
        match self {
            FileKind::Utf16 => text.starts_with(b"\xff\xfe") || text.starts_with(b"\xfe\xff"),
            FileKind::ByteOrderMark => text.starts_with(b"\xef\xbb\xbf"),
            FileKind::Gzip => text.starts_with(b"\x1f\x8b"),
            FileKind::Zip => text.starts_with(b"PK\x03\x04"),
            FileKind::Macrocell => text.starts_with(b"[M2]"),
            FileKind::Life105 => text.starts_with(b"#Life 1.05"),
            FileKind::Life106 => text.starts_with(b"#Life 1.06"),
            FileKind::MCell => text.starts_with(b"#MCell"),
            FileKind::WebPage => text.starts_with(b"<"),
            FileKind::Plaintext => text.starts_with(b"!") || is_row(first_line(text)),
        }
    }

    /// What it is, and what to do with it, behind `the file `.
    pub fn text(self) -> &'static str
        ensures { result.now ≡ kind_text self }
    {
        match self {
            FileKind::Utf16 => "is text in UTF-16: save it as UTF-8",
            FileKind::ByteOrderMark => "begins with a byte order mark: save it without one",
            FileKind::Gzip => "is packed by gzip: unpack it, as by `gzip -d`",
            FileKind::Zip => "is a zip archive: unpack it",
            FileKind::Macrocell => "is a macrocell: `genedit convert` makes RLE of it",
            FileKind::Life105 => "is of the form Life 1.05: open it in Golly and save it as RLE",
            FileKind::Life106 => "is of the form Life 1.06: open it in Golly and save it as RLE",
            FileKind::MCell => "is of MCell: `genedit convert` makes RLE of it",
            FileKind::WebPage => "is a page of the web: save the pattern that it links to",
            FileKind::Plaintext => "is plaintext, as .cells: `genedit convert` makes RLE of it",
        }
    }
}

/// The first line of a text, without its end.
fn first_line(text: &[u8]) -> &[u8]
    ensures { result.now ≡ first_line text.now }
{
    &text[..line_len(text)]
}

/// Whether a line is a row of cells, and not empty.
fn is_row(line: &[u8]) -> bool
    ensures { result ≡ is_row line.now }
{
    !line.is_empty() && are_cell_marks(line)
}

fn are_cell_marks(line: &[u8]) -> bool
    ensures { result ≡ list_all is_cell_mark line.now }
{
    line.iter().all(|byte| is_cell_mark(*byte))
}

fn is_cell_mark(byte: u8) -> bool
    ensures { result ≡ is_cell_mark byte }
{
    byte == b'.' || byte == b'O' || byte == b'*'
}
