//! The first frame of the reply to a request for the plane in pieces.

ghost use Rattle.std.specs.Prelude.{◌≡◌, length};
ghost use Rattle.std.specs.Int.{w32, w64, to_be_bytes};
ghost use Rattle.client_protocol.specs.Spelling.{SpellsCounts, SpellsPieced};

/// What the first frame of the reply to a request for the plane in pieces says.
#[derive(Clone, Copy, Debug, PartialEq, Eq)]
pub enum Pieced {
    /// The plane of so many edits follows, in so many frames: together they are its text.
    Pieces { edits: u64, frames: u32 },
    /// It was refused, by a number of the table of faults that is not 0.
    Refused(u8),
    /// The bytes are no such frame.
    Faulty,
}

/// What the first frame of the reply to a request for the plane in pieces says: behind a 0 of how many edits
/// the plane is, in eight bytes, and how many frames follow, in four.
pub fn pieced_in(body: &[u8]) -> Pieced
    ensures { SpellsPieced body.now result }
{
    match body {
        [number] if *number != 0 => Pieced::Refused(*number),
        [zero, counts @ ..] if *zero == 0 && counts.len() == 12 => counted_in(counts),
        _ => Pieced::Faulty,
    }
}

/// What a number in eight bytes and one in four announce.
fn counted_in(counts: &[u8]) -> Pieced
    requires { length counts.now ≡ 12 }
    ensures { SpellsCounts counts.now result }
{
    Pieced::Pieces {
        edits: edits_in(&counts[..8]),
        frames: frames_in(&counts[8..]),
    }
}

fn edits_in(bytes: &[u8]) -> u64
    requires { length bytes.now ≡ 8 }
    ensures { bytes.now ≡ to_be_bytes w64 result }
{
    u64::from_be_bytes([
        bytes[0], bytes[1], bytes[2], bytes[3], bytes[4], bytes[5], bytes[6], bytes[7],
    ])
}

fn frames_in(bytes: &[u8]) -> u32
    requires { length bytes.now ≡ 4 }
    ensures { bytes.now ≡ to_be_bytes w32 result }
{
    u32::from_be_bytes([bytes[0], bytes[1], bytes[2], bytes[3]])
}
