//! Words that do not spell what they have to.

use crate::rule_words::rule_cure;
use genedit_io::RunFault;
use header_rules::Misspelling;
use std::fmt;

/// A word that spells no rule, and why.
#[derive(Clone, Copy, Drop)]
pub struct MisspeltRule<'a> {
    pub text: &'a str,
    pub why: Misspelling,
}

/// What the program says of it.
impl fmt::Display for MisspeltRule<'_> {
    ghost use Rattle.std.specs.Prelude.{Some};
    ghost use Rattle.genedit_words.specs.Misspelt.{misspelt_text};

    ghost output = { λ rule. Some (misspelt_text rule.text.now rule.why) };

    fn fmt<W: fmt::Write>(&self, f: &mut fmt::Formatter<W>) -> fmt::Result {
        let text = self.text;
        match self.why {
            Misspelling::Other(family) => {
                let family = family.words();
                write!(f, "the rule {text} is {family}")
            }
            Misspelling::Fault(fault) => {
                let refusal = RunFault::Refused(fault.number(), fault.place());
                let cure = rule_cure(fault);
                write!(f, "{refusal}: {cure}")
            }
        }
    }
}

/// A word that spells no web port.
#[derive(Clone, Copy, Drop)]
pub struct MisspeltWeb<'a> {
    pub text: &'a str,
}

/// What the program says of it, as `clap` says it of a value.
impl fmt::Display for MisspeltWeb<'_> {
    ghost use Rattle.std.specs.Prelude.{Some};
    ghost use Rattle.genedit_words.specs.Misspelt.{no_web_text};

    ghost output = { λ web. Some (no_web_text web.text.now) };

    fn fmt<W: fmt::Write>(&self, f: &mut fmt::Formatter<W>) -> fmt::Result {
        let text = self.text;
        write!(
            f,
            "invalid value '{text}' for '--web <[ADDRESS:]Q>': a port is 0 to 65535, as --web 0 or --web 192.168.1.7:7080"
        )
    }
}
