//! What one worker answered.

ghost use Rattle.std.specs.Prelude.{◌≡◌, [], ◌∷◌, ◌++◌, None, OnOk, option_to_list};

use crate::work::Export;
use std::alloc::{AllocError, Global};
use std::collections::VecDeque;
use std::marker::Model;

/// The answers of one worker, in the order of its jobs.
#[derive(Drop)]
pub struct Share {
    answers: VecDeque<Export>,
}

impl Model for Share {
    ghost use Rattle.std.specs.Prelude.{List, ℕ, Result};
    ghost use Rattle.export.specs.declared.fault.ExportFault.{ExportFault};

    ghost Value = { List (Result (List ℕ) ExportFault) };

    ghost view = { λ s. s.answers.items };
}

impl Share {
    /// Without an answer. It takes no memory.
    pub fn new(alloc: Global) -> Share
        ensures { result ≡ [] }
    {
        Share {
            answers: VecDeque::new(alloc),
        }
    }

    /// Puts an answer behind the others. It fails only for want of memory.
    pub fn add(&mut self, answer: Export) -> Result<(), AllocError>
        ensures { OnOk result (self.new ≡ self.old ++ answer ∷ []) }
    {
        self.answers.push_back(answer)?;
        Ok(())
    }

    /// The answer of the first job whose answer is not taken yet, if there is one.
    pub fn take(&mut self) -> Option<Export>
        ensures taken { self.old ≡ option_to_list result ++ self.new }
        ensures none { result ≡ None → self.old ≡ [] }
    {
        self.answers.pop_front()
    }
}
