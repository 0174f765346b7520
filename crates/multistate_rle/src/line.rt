//! Where a byte stands in its line.

ghost use Rattle.std.specs.Prelude.{◌≡◌};

use text_scan::{is_blank, is_line_end};

/// How far a line is read.
#[derive(Clone, Copy, Debug, PartialEq, Eq)]
pub enum LineProgress {
    /// At its first byte.
    Start,
    /// Behind that, in a line that counts.
    Inside,
    /// In a line whose first byte is `#`.
    Comment,
}

impl LineProgress {
    ghost use Rattle.multistate_rle.specs.Lines.{line_after, is_dropped};

    /// How far it is read after one byte more.
    pub fn after(self, byte: u8) -> LineProgress
        ensures { result ≡ line_after self byte }
    {
        if is_line_end(byte) {
            return LineProgress::Start;
        }
        match self {
            LineProgress::Start if byte == b'#' => LineProgress::Comment,
            LineProgress::Comment => LineProgress::Comment,
            _ => LineProgress::Inside,
        }
    }

    /// Whether a byte behind which the line is so far read is no part of a token.
    pub fn drops(self, byte: u8) -> bool
        ensures { result ≡ is_dropped self byte }
    {
        match self {
            LineProgress::Comment => true,
            LineProgress::Start | LineProgress::Inside => is_blank(byte) || is_line_end(byte),
        }
    }
}
