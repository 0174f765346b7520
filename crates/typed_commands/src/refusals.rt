//! What came of typed lines, by what was printed of them.

ghost use Rattle.std.specs.Prelude.{◌≡◌, ◌&&◌, not, option_map};
ghost use Rattle.text_scan.specs.Words.{words};
ghost use Rattle.client_commands.specs.Commands.{begins_script};
ghost use Rattle.typed_commands.specs.Refusals.{is_refusal, refusal_in, refused_number, well_status};

use client_commands::begins_script;
use text_scan::{number, split_digits};

/// What came of lines.
#[derive(Clone, Copy, Debug, PartialEq, Eq)]
pub struct Tally {
    /// A line was at fault.
    pub faulty: bool,
    /// A command was refused, or a file failed.
    pub refused: bool,
}

impl Tally {
    ghost use Rattle.std.specs.Prelude.{◌≡◌, false};
    ghost use Rattle.typed_commands.specs.Refusals.{well_status};

    /// No line came.
    pub fn none() -> Tally
        ensures { result ≡ record { faulty = false; refused = false } }
    {
        Tally {
            faulty: false,
            refused: false,
        }
    }

    /// The status of a process that ends well behind such lines.
    pub fn well_status(self) -> u8
        ensures { result ≡ well_status self }
    {
        if self.faulty {
            2
        } else if self.refused {
            1
        } else {
            0
        }
    }
}

/// What was printed from the first of its lines on that tells a refusal, if one does: it begins with
/// `refused `.
pub fn refusal_in(printed: &[u8]) -> Option<&[u8]>
    ensures { option_map (λ rest. rest.now) result ≡ refusal_in printed.now }
{
    if is_refusal(printed) {
        return Some(printed);
    }
    let mut rest = printed;
    while let Some((byte, behind)) = rest.split_first() {
        if *byte == b'\n' && is_refusal(behind) {
            return Some(behind);
        }
        rest = behind;
    }
    None
}

/// The number of the first refusal that was printed, if one was.
pub fn refused_number(printed: &[u8]) -> Option<u8>
    ensures { result ≡ refused_number printed.now }
{
    let told = refusal_in(printed)?.strip_prefix(b"refused ")?;
    let (digits, _) = split_digits(told);
    match number(255, digits) {
        Some(number) => Some(number as u8),
        None => None,
    }
}

/// Whether a text begins with `refused `.
fn is_refusal(text: &[u8]) -> bool
    ensures { result ≡ is_refusal text.now }
{
    8 <= text.len() && &text[..8] == b"refused ".as_slice()
}

/// Whether a line says that the commands are a script: it is the first that says something, and begins as a
/// script does.
pub fn is_script(has_heard: bool, line: &[u8]) -> bool
    ensures { result ≡ (not has_heard && begins_script (words line.now)) }
{
    !has_heard && begins_script(line)
}
