//! What a film is of.

use command_words::GenerationRange;
use macrocell_lines::is_macrocell_name;

/// In which form each generation of a film is told.
#[derive(Clone, Copy, Debug, PartialEq, Eq)]
pub enum FilmForm {
    /// As an RLE text, of 2^24 cells at most.
    Rle,
    /// As a macrocell, of any number of cells.
    Macrocell,
}

impl FilmForm {
    ghost use Rattle.std.specs.Prelude.{◌≡◌};
    ghost use Rattle.told_generations.specs.FilmTexts.{form_of};

    /// The form of files with a name.
    pub fn of(name: &[u8]) -> FilmForm
        ensures { result ≡ form_of name.now }
    {
        if is_macrocell_name(name) {
            FilmForm::Macrocell
        } else {
            FilmForm::Rle
        }
    }
}

/// What a film is of.
#[derive(Clone, Copy, Debug, PartialEq, Eq)]
pub struct FilmPlan {
    pub range: GenerationRange,
    pub form: FilmForm,
}
