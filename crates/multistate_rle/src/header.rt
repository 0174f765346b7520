//! The header line.

ghost use Rattle.std.specs.Prelude.{◌≡◌, option_map};
ghost use Rattle.multistate_rle.specs.Header.{header_of, side_spelled, number_in_front, may_end_with};
ghost use Rattle.text_scan.specs.Bytes.{behind_symbol};

use text_scan::{behind, digits_in_front, number, without_blanks};

/// The sides that a header line `x = w, y = h` names; blanks may stand round each part, and behind
/// the sides nothing, or a comma and any text.
pub fn header(line: &[u8]) -> Option<(u64, u64)>
    ensures { result ≡ header_of line.now }
{
    let (width, rest) = side(b'x', line)?;
    let rest = symbol(b',', rest)?;
    let (height, rest) = side(b'y', rest)?;
    if may_end(without_blanks(rest)) {
        Some((width, height))
    } else {
        None
    }
}

fn side(letter: u8, line: &[u8]) -> Option<(u64, &[u8])>
    ensures { option_map (λ found. (found.0, found.1.now)) result ≡ side_spelled letter line.now }
{
    let rest = symbol(letter, line)?;
    let rest = symbol(b'=', rest)?;
    number_at(without_blanks(rest))
}

fn symbol(byte: u8, line: &[u8]) -> Option<&[u8]>
    ensures { option_map (λ rest. rest.now) result ≡ behind_symbol byte line.now }
{
    behind(byte, without_blanks(line))
}

fn number_at(line: &[u8]) -> Option<(u64, &[u8])>
    ensures { option_map (λ found. (found.0, found.1.now)) result ≡ number_in_front line.now }
{
    let len = digits_in_front(line);
    let side = number(u64::from(u32::MAX), &line[..len])?;
    Some((side, &line[len..]))
}

fn may_end(rest: &[u8]) -> bool
    ensures { result ≡ may_end_with rest.now }
{
    match rest.first() {
        Some(byte) => *byte == b',',
        None => true,
    }
}
