//! What may stand in a part of a rule's text, and between two.

ghost use Rattle.std.specs.Prelude.{◌≡◌};
ghost use Rattle.header_rules.specs.Spellings.{is_hensel_letter, is_count};

/// How the counts of a rule are written.
#[derive(Clone, Copy, Debug, PartialEq, Eq)]
pub enum Notation {
    /// By their digits. A slash may stand between the parts.
    Totalistic,
    /// By their digits and Hensel's letters, which tell where the neighbours are. A slash or an
    /// underscore may stand between the parts.
    Hensel,
}

impl Notation {
    ghost use Rattle.std.specs.Prelude.{◌≡◌, ◌≤◌, length, option_map};
    ghost use Rattle.std.specs.List.{prefix_len};
    ghost use Rattle.text_scan.specs.Bytes.{front, past_prefix};
    ghost use Rattle.header_rules.specs.Spellings.{writes, parts_at, behind_slash, past_slash};

    /// The part in front of a text, and what stands behind it.
    pub fn split_part(self, text: &[u8]) -> (&[u8], &[u8])
        ensures part { result.0.now ≡ front (writes self) text.now }
        ensures rest { result.1.now ≡ past_prefix (writes self) text.now }
    {
        text.split_at(self.part_len(text))
    }

    /// What stands behind the slash, if the text begins with it.
    pub fn behind_slash(self, text: &[u8]) -> Option<&[u8]>
        ensures { option_map (λ rest. rest.now) result ≡ behind_slash self text.now }
    {
        match text.split_first() {
            Some((first, rest)) if self.parts_at(*first) => Some(rest),
            _ => None,
        }
    }

    /// The text without the slash with which it begins, if it does.
    pub fn past_slash(self, text: &[u8]) -> &[u8]
        ensures { result.now ≡ past_slash self text.now }
    {
        self.behind_slash(text).unwrap_or(text)
    }

    fn part_len(self, text: &[u8]) -> usize
        ensures count { result ≡ prefix_len (writes self) text.now }
        ensures within { result ≤ length text.now }
    {
        text.iter().take_while(|byte| self.writes(**byte)).count()
    }

    /// Whether a byte may stand in a part.
    fn writes(self, byte: u8) -> bool
        ensures { result ≡ writes self byte }
    {
        match self {
            Notation::Totalistic => byte.is_ascii_digit(),
            Notation::Hensel => is_count(byte) || byte == b'-' || is_hensel_letter(byte),
        }
    }

    /// Whether a byte may stand between two parts.
    fn parts_at(self, byte: u8) -> bool
        ensures { result ≡ parts_at self byte }
    {
        match self {
            Notation::Totalistic => byte == b'/',
            Notation::Hensel => byte == b'/' || byte == b'_',
        }
    }
}

/// The letters with which Golly's help ("Algorithm: QuickLife") tells where the neighbours are.
const HENSEL_LETTERS: [u8; 13] = *b"aceijknqrtwyz";

/// Whether a byte, capital or small, tells where the neighbours are.
pub fn is_hensel_letter(byte: u8) -> bool
    ensures { result ≡ is_hensel_letter byte }
{
    HENSEL_LETTERS.contains(&byte.to_ascii_lowercase())
}

/// The digit of a count.
pub fn is_count(byte: u8) -> bool
    ensures { result ≡ is_count byte }
{
    b'0' <= byte && byte <= b'8'
}
