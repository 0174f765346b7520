//! Parts of a text, by their places.

ghost use Rattle.std.specs.Prelude.{◌≡◌, drop, take};

/// So many bytes of a text from a place on, as far as they stand there.
pub fn part_at(text: &[u8], place: usize, length: usize) -> &[u8]
    ensures { result.now ≡ take length (drop place text.now) }
{
    let rest = &text[place.min(text.len())..];
    &rest[..length.min(rest.len())]
}
