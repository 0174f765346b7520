//! Names of the files of a film.

ghost use Rattle.std.specs.Prelude.{◌≡◌, count_by};
ghost use Rattle.command_words.specs.Films.{is_film_name, is_generation_sign};

/// What the number of a generation takes the place of, in the name of a film's files.
pub const GENERATION_SIGN: u8 = b'%';

/// Whether a film's files can have a name: it has one `%`, which the number of each file's generation takes the place of.
pub fn is_film_name(name: &[u8]) -> bool
    ensures { result ≡ is_film_name name.now }
{
    signs_in(name) == 1
}

/// How many `%` there are.
fn signs_in(name: &[u8]) -> usize
    ensures { result ≡ count_by is_generation_sign name.now }
{
    name.iter().filter(|byte| **byte == GENERATION_SIGN).count()
}
