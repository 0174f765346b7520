//! How many published entries there are of each seat.

ghost use Rattle.std.specs.Prelude.{◌≡◌, ◌+◌, slice_index_or, set};
ghost use Rattle.inbox.specs.Counts.{counted};

/// One entry more of a seat, in place; the count stays at 2^64 - 1.
pub(crate) fn tally(counts: &mut [u64], seat: u64)
    ensures { counts.new ≡ set counts.old seat (counted (slice_index_or counts.old seat 0 + 1)) }
{
    let place = seat as usize;
    if place < counts.len() {
        counts[place] = counts[place].saturating_add(1);
    }
}
