//! The lines of a text, one by one: each LF and each CR ends one.

ghost use Rattle.std.specs.Prelude.{◌≡◌, ◌+◌, ◌∷◌, [], length, MatchOption};
ghost use Rattle.multistate_rle.specs.HeaderLine.{text_lines};

use text_scan::line_len;

/// The first line of a text, and what stands behind its end, if it has one.
pub fn split_line(text: &[u8]) -> (&[u8], Option<&[u8]>)
    ensures line { MatchOption result.1 (text_lines text.now ≡ result.0.now ∷ []) (λ rest. text_lines text.now ≡ result.0.now ∷ text_lines rest.now) }
    ensures whole { MatchOption result.1 (length result.0.now ≡ length text.now) (λ rest. length result.0.now + length rest.now + 1 ≡ length text.now) }
{
    let end = line_len(text);
    if end < text.len() {
        (&text[..end], Some(&text[end + 1..]))
    } else {
        (text, None)
    }
}
