//! Films: a file for each generation of a range.

ghost use Rattle.std.specs.Prelude.{◌≡◌, IfOk};
ghost use Rattle.command_words.specs.Films.{film_name_at};

use crate::command::{FileName, FileTarget};
use command_words::{GENERATION_SIGN, GenerationRange};
use itoa::Buffer;
use std::alloc::{AllocError, Global};

/// A film: a file for each generation of a range.
#[derive(Debug, Drop)]
pub struct Film {
    pub range: GenerationRange,
    /// The files: each has this name, in which the number of its generation stands in place of the `%`. A film that was read
    /// has one `%` there.
    pub files: FileTarget,
}

impl Film {
    ghost use Rattle.std.specs.Prelude.{◌≡◌, IfOk};
    ghost use Rattle.client_commands.specs.Commands.{target_of};
    ghost use Rattle.command_words.specs.Films.{film_name_at};

    /// The file of a generation.
    pub fn file_at(&self, alloc: Global, generation: u32) -> Result<FileTarget, AllocError>
        ensures { IfOk result (λ file. file ≡ target_of self.now.files.replaces (film_name_at self.now.files.name generation)) }
    {
        let name = name_at(alloc, self.files.name.as_bytes(), generation)?;
        Ok(FileTarget {
            name: FileName::of(alloc, &name)?,
            replaces: self.files.replaces,
        })
    }
}

/// A name in which the number of a generation stands in place of each `%`.
fn name_at(alloc: Global, name: &[u8], generation: u32) -> Result<Vec<u8>, AllocError>
    ensures { IfOk result (λ told. told.items ≡ film_name_at name.now generation) }
{
    let mut buffer = Buffer::new();
    let number = buffer.format(generation).as_bytes();
    let mut told = Vec::new(alloc);
    for byte in name {
        if *byte == GENERATION_SIGN {
            told.extend_from_slice(number)?;
        } else {
            told.push(*byte)?;
        }
    }
    Ok(told)
}
