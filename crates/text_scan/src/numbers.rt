//! Decimal numbers.

ghost use Rattle.std.specs.Prelude.{◌≡◌, ◌+◌, ◌*◌};
ghost use Rattle.text_scan.specs.Bytes.{decimal_number, limited};
ghost use Rattle.text_scan.specs.Words.{signed_number};

/// A decimal number of at most so much, with any zeros in front, and nothing else.
pub fn number(most: u64, digits: &[u8]) -> Option<u64>
    ensures { result ≡ decimal_number most digits.now }
{
    if digits.is_empty() {
        return None;
    }
    let mut number = 0;
    for digit in digits {
        if !digit.is_ascii_digit() {
            return None;
        }
        number = with_digit(most, number, *digit - b'0')?;
    }
    Some(number)
}

/// A number of 32 bits, with `-` in front where it is negative.
pub fn signed(word: &[u8]) -> Option<i32>
    ensures { result ≡ signed_number word.now }
{
    match word.split_first() {
        Some((b'-', digits)) => {
            let size = number(1 << 31, digits)?;
            Some(-(size as i64) as i32)
        }
        _ => {
            let size = number(i32::MAX as u64, word)?;
            Some(size as i32)
        }
    }
}

/// The number with one digit more, if it is at most so much.
fn with_digit(most: u64, number: u64, digit: u8) -> Option<u64>
    ensures { result ≡ limited most (number * 10 + digit) }
{
    let longer = number.checked_mul(10)?.checked_add(u64::from(digit))?;
    if longer <= most { Some(longer) } else { None }
}
