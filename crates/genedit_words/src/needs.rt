//! What a server lacks.

ghost use Rattle.std.specs.Prelude.{◌≡◌};
ghost use Rattle.genedit_words.specs.Needs.{if_needed, needs_some, no_needs};

use std::fmt;

/// What a server lacks.
#[derive(Clone, Copy)]
pub struct Needs {
    /// A rule: `--rule`, or `--keep`, since its file may name one.
    pub rule: bool,
    /// A port: `--port` or `--web`.
    pub port: bool,
    /// A web port, `--web`, where `--url` is given.
    pub web: bool,
}

impl Needs {
    /// It lacks nothing.
    pub(crate) fn none() -> Needs
        ensures { result ≡ no_needs }
    {
        Needs {
            rule: false,
            port: false,
            web: false,
        }
    }

    /// Whether it lacks something.
    pub(crate) fn is_some(self) -> bool
        ensures { result ≡ needs_some self }
    {
        self.rule || self.port || self.web
    }
}

/// What the program says of it, as `clap` says it of options that have to be given.
impl fmt::Display for Needs {
    ghost use Rattle.std.specs.Prelude.{Some};
    ghost use Rattle.genedit_words.specs.Needs.{needs_text};

    ghost output = { λ needs. Some (needs_text needs) };

    fn fmt<W: fmt::Write>(&self, f: &mut fmt::Formatter<W>) -> fmt::Result {
        let rule = if_needed(self.rule, " --rule <TEXT>");
        let port = if_needed(self.port, " --port <P>");
        let web = if_needed(self.web, " --web <[ADDRESS:]Q>");
        let as_rule = if_needed(self.rule, " --rule 23/3/2");
        let as_port = if_needed(self.port, " --port 7020");
        let as_web = if_needed(self.web, " --web 7080");
        write!(
            f,
            "the following required arguments were not provided:{rule}{port}{web}; as{as_rule}{as_port}{as_web}"
        )
    }
}

/// The text, where it is called for.
fn if_needed(is_needed: bool, text: &str) -> &str
    ensures { result.now ≡ if_needed is_needed text.now }
{
    if is_needed { text } else { "" }
}
