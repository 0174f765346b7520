//! Coordinates in the plane of edits.

ghost use Rattle.std.specs.Prelude.{◌≡◌};
ghost use Rattle.edit_stamps.specs.Plane.{is_coordinate_in_plane};

/// The least coordinate of the plane of edits, and one past the greatest.
const LEAST: i64 = -0x4000_0000;

const PAST: i64 = 0x4000_0000;

/// Whether a coordinate lies in the plane of edits.
pub fn is_in_plane(n: i64) -> bool
    ensures { result ≡ is_coordinate_in_plane n }
{
    LEAST <= n && n < PAST
}
