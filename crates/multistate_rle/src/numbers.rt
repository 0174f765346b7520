//! Counts, digit by digit.

ghost use Rattle.std.specs.Prelude.{◌≡◌, ◌+◌, ◌*◌, ◌≤◌, min};
ghost use Rattle.multistate_rle.specs.declared.numbers.TheConstants.{COUNT_LIMIT};

/// More columns, and more rows, than there are: a count above it is as faulty as this one.
pub const COUNT_LIMIT: u64 = 4_294_967_297;

/// A count with one digit more, which stays at `COUNT_LIMIT` once it is there.
#[inline]
pub fn longer_count(count: u64, digit: u8) -> u64
    requires count { count ≤ COUNT_LIMIT }
    requires digit { digit ≤ 9 }
    ensures { result ≡ min (10 * count + digit) COUNT_LIMIT }
{
    (10 * count + u64::from(digit)).min(COUNT_LIMIT)
}
