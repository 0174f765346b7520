//! The words of a line.

ghost use Rattle.std.specs.Prelude.{◌≡◌, ◌<◌, [], ◌∷◌, ◌++◌, length, MatchOption, IfSome};
ghost use Rattle.text_scan.specs.Bytes.{is_space_or_tab, past_prefix};
ghost use Rattle.text_scan.specs.Words.{words};

use crate::front::{without_blanks, word_len};

/// The first word of a line, and what stands behind it, the blanks between them too. Words are
/// parted by spaces and tabs.
pub fn split_word(line: &[u8]) -> Option<(&[u8], &[u8])>
    ensures word { MatchOption result (words line.now ≡ []) (λ p. words line.now ≡ p.0.now ∷ words p.1.now) }
    ensures whole { IfSome result (λ p. p.0.now ++ p.1.now ≡ past_prefix is_space_or_tab line.now) }
    ensures shorter { IfSome result (λ p. length p.1.now < length line.now) }
{
    let rest = without_blanks(line);
    if rest.is_empty() {
        return None;
    }
    Some(rest.split_at(word_len(rest)))
}
