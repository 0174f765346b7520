//! Texts that may differ in capitals.

ghost use Rattle.std.specs.Prelude.{◌≡◌, option_map};
ghost use Rattle.std.specs.Str.{str_eq_ignore_ascii_case};
ghost use Rattle.header_rules.specs.Spellings.{behind_letter};
ghost use Rattle.header_rules.specs.Families.{begins_with, ends_with};

/// What stands behind a letter, capital or small, if the text begins with it.
pub fn behind_letter(letter: u8, text: &[u8]) -> Option<&[u8]>
    ensures { option_map (λ rest. rest.now) result ≡ behind_letter letter text.now }
{
    match text.split_first() {
        Some((first, rest)) if first.eq_ignore_ascii_case(&letter) => Some(rest),
        _ => None,
    }
}

/// Whether two names differ at most in capitals.
pub fn is_same_name(one: &[u8], other: &[u8]) -> bool
    ensures { result ≡ str_eq_ignore_ascii_case one.now other.now }
{
    one.eq_ignore_ascii_case(other)
}

/// Whether a text begins with these letters, capital or small.
pub fn begins_with(letters: &[u8], text: &[u8]) -> bool
    ensures { result ≡ begins_with letters.now text.now }
{
    is_same_name(&text[..letters.len().min(text.len())], letters)
}

/// Whether it ends with them.
pub fn ends_with(letters: &[u8], text: &[u8]) -> bool
    ensures { result ≡ ends_with letters.now text.now }
{
    is_same_name(&text[text.len().saturating_sub(letters.len())..], letters)
}
