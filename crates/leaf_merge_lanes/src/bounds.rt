//! The least and the greatest of 64 stamps.

ghost use Rattle.std.specs.Prelude.{◌≡◌, ◌≤◌, EachIndex, SomeIndex, slice_index};

pub(crate) fn least(stamps: &[u64; 64]) -> u64
    ensures below { EachIndex stamps.now (λ i. result ≤ slice_index stamps.now i) }
    ensures reached { SomeIndex stamps.now (λ i. result ≡ slice_index stamps.now i) }
{
    let mut least = stamps[0];
    for stamp in stamps {
        if *stamp < least {
            least = *stamp;
        }
    }
    least
}

pub(crate) fn greatest(stamps: &[u64; 64]) -> u64
    ensures above { EachIndex stamps.now (λ i. slice_index stamps.now i ≤ result) }
    ensures reached { SomeIndex stamps.now (λ i. result ≡ slice_index stamps.now i) }
{
    let mut greatest = stamps[0];
    for stamp in stamps {
        if greatest < *stamp {
            greatest = *stamp;
        }
    }
    greatest
}
