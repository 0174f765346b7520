//! Names of files.

ghost use Rattle.std.specs.Prelude.{◌≡◌};
ghost use Rattle.macrocell_lines.specs.FileNames.{ends_with_mc};

/// Whether a file's name is that of a macrocell, by its ending: `.mc`, as Golly has it.
pub fn is_macrocell_name(path: &[u8]) -> bool
    ensures { result ≡ ends_with_mc path.now }
{
    &path[path.len().saturating_sub(3)..] == b".mc".as_slice()
}
