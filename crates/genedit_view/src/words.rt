//! The words that ask for a window.

ghost use Rattle.std.specs.Prelude.{◌≡◌, ◌≤◌, length, option_map};
ghost use Rattle.std.specs.List.{position_or_len};
ghost use Rattle.text_scan.specs.Bytes.{is_comma};
ghost use Rattle.genedit_view.specs.Words.{corner_spelled, is_between_sides, parted, side_spelled, sides_spelled, window_asked};

use cell_pictures::Window;
use text_scan::{number, signed};

/// The greatest side: there are so many coordinates of 32 bits.
const MOST: u64 = 1 << 32;

/// Why two words ask for no window; of several the first of this list is told.
#[derive(Clone, Copy, Debug, PartialEq, Eq)]
pub enum WindowFault {
    /// The first spells no corner: `X,Y`, with a `-` in front of a number that is negative, each of 32 bits
    /// with its sign.
    Corner,
    /// The second spells no sides: `W,H` or `WxH`, each 2^32 at most.
    Sides,
    /// A side is 0, or a coordinate has not 32 bits with its sign.
    Outside,
}

impl WindowFault {
    ghost use Rattle.std.specs.Prelude.{◌≡◌};
    ghost use Rattle.genedit_view.specs.Words.{window_fault_text};

    /// In words, behind the word that is at fault: the second where it is `Outside`.
    pub fn text(self) -> &'static str
        ensures { result.now ≡ window_fault_text self }
    {
        match self {
            WindowFault::Corner => "a corner is X,Y, as -3,4",
            WindowFault::Sides => "a width and a height are W,H, as 40,20 or 40x20",
            WindowFault::Outside =>
                "a side is 0, or the window leaves x and y from -2147483648 to 2147483647",
        }
    }
}

/// The window that two words ask for: its corner and its sides.
pub fn window_of(at: &[u8], size: &[u8]) -> Result<Window, WindowFault>
    ensures { result ≡ window_asked at.now size.now }
{
    let Some((x, y)) = corner(at) else {
        return Err(WindowFault::Corner);
    };
    let Some((width, height)) = sides(size) else {
        return Err(WindowFault::Sides);
    };
    match Window::given(x, y, width, height) {
        Some(window) => Ok(window),
        None => Err(WindowFault::Outside),
    }
}

fn corner(word: &[u8]) -> Option<(i32, i32)>
    ensures { result ≡ corner_spelled word.now }
{
    let (x, y) = parted(word, comma_at(word))?;
    Some((signed(x)?, signed(y)?))
}

fn sides(word: &[u8]) -> Option<(u64, u64)>
    ensures { result ≡ sides_spelled word.now }
{
    let (width, height) = parted(word, between_at(word))?;
    Some((side(width)?, side(height)?))
}

fn side(word: &[u8]) -> Option<u64>
    ensures { result ≡ side_spelled word.now }
{
    number(MOST, word)
}

/// What stands in front of a place, and what behind it.
fn parted(word: &[u8], place: usize) -> Option<(&[u8], &[u8])>
    requires { place ≤ length word.now }
    ensures { option_map (λ parts. (parts.0.now, parts.1.now)) result ≡ parted place word.now }
{
    let (front, rest) = word.split_at(place);
    match rest.split_first() {
        Some((_, behind)) => Some((front, behind)),
        None => None,
    }
}

fn comma_at(text: &[u8]) -> usize
    ensures count { result ≡ position_or_len is_comma text.now }
    ensures within { result ≤ length text.now }
{
    text.iter().take_while(|byte| **byte != b',').count()
}

/// Where the first comma or x stands.
fn between_at(text: &[u8]) -> usize
    ensures count { result ≡ position_or_len is_between_sides text.now }
    ensures within { result ≤ length text.now }
{
    text.iter()
        .take_while(|byte| !is_between_sides(**byte))
        .count()
}

fn is_between_sides(byte: u8) -> bool
    ensures { result ≡ is_between_sides byte }
{
    byte == b',' || byte == b'x' || byte == b'X'
}
