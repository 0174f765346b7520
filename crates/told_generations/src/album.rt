//! What takes the texts of a film.

ghost use Rattle.std.specs.Prelude.{List, Option};
ghost use Rattle.told_generations.specs.Films.{Frame, IsPut};

use std::alloc::AllocError;

/// Whether an album took a text.
#[derive(Clone, Copy, Debug, PartialEq, Eq)]
pub enum Put {
    Taken,
    /// It did not, and takes no further one of the film.
    Refused,
}

/// What takes the texts of a film, one after another.
pub trait Album {
    /// What it was handed so far, where that is known.
    ghost frames: { Self → Option (List Frame) };

    /// Takes the text of a generation, or not, and puts a line of it behind `out`. `AllocError` where memory is refused: it
    /// has what it had, and a part of the line may stand.
    fn put(&mut self, generation: u32, text: &[u8], out: &mut Vec<u8>) -> Result<Put, AllocError>
        ensures { IsPut generation text.now (frames self.old) (frames self.new) out.old.items out.new.items result };
}
