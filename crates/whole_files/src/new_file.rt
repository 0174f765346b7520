//! A new file beside another.

use crate::refusal::{WriteRefusal, system_refusal};
use genedit_io::Cause;
use itoa::Buffer;
use std::alloc::{AllocError, Global};
use std::fs::File;
use std::io::ErrorKind;
use std::rt::Files;

/// How many names are tried for a new file beside one.
const NEW_NAMES: u32 = 1000;

/// A file that was not there, beside one, and its name: programs that write one file at the same time each
/// have a new file of their own.
pub(crate) fn new_file<R: Files>(
    rt: &R,
    alloc: Global,
    path: &str,
) -> Result<(String, R::File), WriteRefusal> {
    for number in 0..NEW_NAMES {
        let Ok(name) = new_name(alloc, path, number) else {
            return Err(WriteRefusal::Memory);
        };
        match File::create_new(rt, name.as_str()) {
            Ok(file) => return Ok((name, file)),
            Err(error) if error.kind() == ErrorKind::AlreadyExists => {}
            Err(error) => return Err(system_refusal(error.kind())),
        }
    }
    Err(WriteRefusal::System(Cause::Other))
}

/// The name of a new file beside one, by its number.
fn new_name(alloc: Global, path: &str, number: u32) -> Result<String, AllocError> {
    let mut new = String::from_str(alloc, path)?;
    new.push_str(".new")?;
    if number > 0 {
        new.push_str(Buffer::new().format(number))?;
    }
    Ok(new)
}
