//! How many squares a store may hold, and how it finds them.

ghost use Rattle.std.specs.Prelude.{◌≡◌};
ghost use Rattle.square_store.specs.Limits.{usual_room};

use keyed_hash::HashKey;

/// Room for so many squares, where nothing else is said.
pub const ROOM: u32 = 0x400_0000;

/// What a store is made with: for how many squares it has room, and the key by whose hashes it finds
/// them. No result depends on the key.
#[derive(Clone, Copy)]
pub struct Limits {
    pub room: u32,
    pub key: HashKey,
}

impl Limits {
    /// Room for 2^26 squares, by the fixed key: what holds where nothing else is said.
    pub fn usual() -> Limits
        ensures room { result.room ≡ usual_room }
    {
        Limits::of_room(ROOM)
    }

    /// Room for so many squares, by the fixed key.
    pub fn of_room(room: u32) -> Limits
        ensures room { result.room ≡ room }
    {
        Limits {
            room,
            key: HashKey::fixed(),
        }
    }

    /// Room for 2^26 squares, by a key of one's own.
    pub fn of_key(key: HashKey) -> Limits
        ensures { result ≡ record { room = usual_room; key = key } }
    {
        Limits { room: ROOM, key }
    }
}
