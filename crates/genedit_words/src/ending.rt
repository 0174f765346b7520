//! Why the program ends, and what it says of it.

ghost use Rattle.std.specs.Prelude.{◌≡◌};
ghost use Rattle.clap.specs.Words.{kind_of};
ghost use Rattle.genedit_words.specs.Ending.{IsStatusOf, IsWordsStatus};
ghost use Rattle.genedit_io.specs.RunFault.{exit_status};

use crate::advice::line_of;
use crate::misspelt::{MisspeltRule, MisspeltWeb};
use crate::needs::Needs;
use clap::Error;
use clap::error::ErrorKind;
use genedit_io::RunFault;
use std::alloc::{AllocError, AllocGlobal};

/// The status of a fault of the words.
const WORDS_STATUS: u8 = 2;

/// Why the program ends before its work is done.
#[derive(Drop)]
pub enum Ending<'a> {
    /// The words are at fault, or ask for help.
    Words(Error),
    /// A word is no text.
    NoText,
    /// A word spells no rule.
    Rule(MisspeltRule<'a>),
    /// A word spells no web port.
    Web(MisspeltWeb<'a>),
    /// A server is asked for without what it needs.
    Lacking(Needs),
    /// The work was left.
    Run(RunFault),
}

impl Ending<'_> {
    /// Says it on standard error, or gives help on standard output; the status of the process.
    pub fn tell<R: Print + Eprint + AllocGlobal>(self, rt: &R) -> u8
        ensures { IsStatusOf self.entry result }
    {
        match self {
            Ending::Words(error) => tell_words(rt, &error),
            Ending::NoText => {
                let _ = rt.eprintln("genedit: a word is not UTF-8");
                WORDS_STATUS
            }
            Ending::Rule(rule) => {
                let _ = eprintln!(rt; "genedit: {rule}");
                WORDS_STATUS
            }
            Ending::Web(web) => {
                let _ = eprintln!(rt; "genedit: {web}");
                WORDS_STATUS
            }
            Ending::Lacking(needs) => {
                let _ = eprintln!(rt; "genedit: {needs}");
                WORDS_STATUS
            }
            Ending::Run(fault) => tell_fault(rt, fault),
        }
    }
}

impl<'a> From<AllocError> for Ending<'a> {
    ghost use Rattle.genedit_words.specs.declared.ending.Ending.TheVariants as ending;
    ghost use Rattle.genedit_io.specs.declared.fault.RunFault.TheVariants.{Memory};

    ghost from_gives = { λ _ given. given ≡ ending.Run Memory };

    fn from(_error: AllocError) -> Ending<'a> {
        Ending::Run(RunFault::Memory)
    }
}

impl<'a> From<RunFault> for Ending<'a> {
    ghost use Rattle.genedit_words.specs.declared.ending.Ending.TheVariants as ending;

    ghost from_gives = { λ fault given. given ≡ ending.Run fault };

    fn from(fault: RunFault) -> Ending<'a> {
        Ending::Run(fault)
    }
}

fn tell_fault<R: Eprint>(rt: &R, fault: RunFault) -> u8
    ensures { result ≡ exit_status fault }
{
    let _ = eprintln!(rt; "genedit: {fault}");
    fault.exit_status()
}

fn tell_words<R: Print + Eprint + AllocGlobal>(rt: &R, error: &Error) -> u8
    ensures { IsWordsStatus (kind_of error.now) result }
{
    if error.kind() == ErrorKind::OutOfMemory {
        return tell_fault(rt, RunFault::Memory);
    }
    if !error.use_stderr() {
        return match error.print(rt) {
            Ok(()) => 0,
            Err(_) => tell_fault(rt, RunFault::Write),
        };
    }
    match line_of(rt.alloc(), error) {
        Ok(line) => {
            let _ = eprintln!(rt; "genedit: {line}");
            WORDS_STATUS
        }
        Err(_) => tell_fault(rt, RunFault::Memory),
    }
}
