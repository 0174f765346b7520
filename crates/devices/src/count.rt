//! Counts, which stay at the greatest number that they can hold.

ghost use Rattle.std.specs.Prelude.{◌≡◌};
ghost use Rattle.devices.specs.Count.{one_more};

/// Counts one more; a count stays at 2^64 - 1.
pub(crate) fn count(n: &mut u64)
    ensures { n.new ≡ one_more n.old }
{
    *n = n.saturating_add(1);
}
