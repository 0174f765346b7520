//! Kinds of bytes.

ghost use Rattle.std.specs.Prelude.{◌≡◌};
ghost use Rattle.std.specs.List.{list_all};
ghost use Rattle.text_scan.specs.Bytes.{ends_line, is_space_or_tab};

/// A space or a tab.
pub fn is_blank(byte: u8) -> bool
    ensures { result ≡ is_space_or_tab byte }
{
    byte == b' ' || byte == b'\t'
}

/// A line feed or a carriage return; each of them ends a line.
pub fn is_line_end(byte: u8) -> bool
    ensures { result ≡ ends_line byte }
{
    byte == b'\n' || byte == b'\r'
}

/// Whether a text is spaces and tabs alone.
pub fn is_all_blank(text: &[u8]) -> bool
    ensures { result ≡ list_all is_space_or_tab text.now }
{
    text.iter().all(|byte| is_blank(*byte))
}
