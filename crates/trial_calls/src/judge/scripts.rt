//! `read_script` beside the slow reader of scripts.

use crate::judge::spelling::spelling;
use crate::slow::scripts::{Amiss, spelt};
use crate::verdict::Verdict;
use genedit_script::{ScriptFault, read_script};
use std::alloc::{AllocError, Global};

/// The verdict on a script.
pub fn judged(alloc: Global, text: &[u8]) -> Result<Verdict, AllocError> {
    match (spelt(alloc, text), read_script(alloc, text)) {
        (Err(Amiss::Memory), _) | (_, Err(ScriptFault::Memory)) => Err(AllocError),
        (Err(Amiss::Line(slow)), Err(ScriptFault::Line(line))) => Ok(Verdict::refused_if(
            slow == line,
        )),
        (Ok(slow), Ok(script)) => Ok(Verdict::accepted_if(slow == spelling(alloc, &script)?)),
        _ => Ok(Verdict::Differs),
    }
}
